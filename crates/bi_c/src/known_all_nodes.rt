//! The elements of all nodes of a small file. The function does nothing: what it ensures is a fact
//! about the definitions.

ghost use Rattle.bi_c.specs.KnownTreeElements.{AllNodesAreKnown};

/// The elements of all nodes and properties of a small flattened image tree are known.
pub fn all_nodes_are_known()
    ensures { AllNodesAreKnown }
{}
