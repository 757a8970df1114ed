//! Small trees and what they are after changes. Each function does nothing: its contract is the
//! fact.

ghost use Rattle.bi_tree.specs.KnownChanges.{NodeChangesAreKnown, ChangesOfPropertiesAreKnown};
ghost use Rattle.bi_tree.specs.KnownChanges.{NodesAreMadeAgain};

/// A small tree has known nodes after changes at paths.
pub fn changes_are_known()
    ensures changes { NodeChangesAreKnown }
{}

/// A small node has known properties after changes of them.
pub fn changes_of_properties_are_known()
    ensures changes { ChangesOfPropertiesAreKnown }
{}

/// Nodes are made again of what they are stored as.
pub fn nodes_are_made_again()
    ensures law { NodesAreMadeAgain }
{}
