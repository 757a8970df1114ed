//! Comparing nodes.

ghost use Rattle.std.specs.Prelude.{◌≡◌, ◌↔◌, IsTrue};
ghost use Rattle.bi_blob.specs.Tree.{EachOwn};
ghost use Rattle.bi_fdt.specs.Views.{node_of};
ghost use Rattle.bi_fit.specs.NormalNodes.{HasDistinctNames, alone};
ghost use Rattle.bi_fit.specs.ComparedNodes.{HaveOneOrder, compared_nodes};

use crate::comparing::orders::Orders;
use crate::comparing::properties::have_same_properties;
use crate::comparing::role::Role;
use bi_fdt::NodeRef;

/// Returns whether two nodes with this role are the same, with all nodes below them: they have the
/// same name, the same properties by name and the same children in the same order. Requires: the
/// orders are those of the blobs of the two nodes, by one list of names, and none of these nodes
/// has two properties with the same name.
#[cycle(same)]
pub(super) fn are_same_nodes(
    own: NodeRef<'_, '_>,
    other: NodeRef<'_, '_>,
    role: Role,
    orders: &Orders,
) -> bool
    requires orders { HaveOneOrder own other orders.now }
    requires distinct { EachOwn HasDistinctNames (alone (node_of own)) }
    requires other_distinct { EachOwn HasDistinctNames (alone (node_of other)) }
    ensures { IsTrue result ↔ (compared_nodes role (alone (node_of own.entry))
        ≡ compared_nodes role (alone (node_of other.entry))) }
{
    let name = own.name();
    name == other.name()
        && have_same_properties(own, other, role, orders)
        && have_same_children(own, other, role.below(name), orders)
}

/// Returns whether two nodes have the same children in the same order, with all nodes below them.
/// The children have this role. Requires: the orders are those of the blobs of the two nodes, by
/// one list of names, and no node below them has two properties with the same name.
#[cycle(same)]
fn have_same_children(
    own: NodeRef<'_, '_>,
    other: NodeRef<'_, '_>,
    role: Role,
    orders: &Orders,
) -> bool
    requires orders { HaveOneOrder own other orders.now }
    requires distinct { EachOwn HasDistinctNames (node_of own).children }
    requires other_distinct { EachOwn HasDistinctNames (node_of other).children }
    ensures { IsTrue result ↔ (compared_nodes role (node_of own.entry).children
        ≡ compared_nodes role (node_of other.entry).children) }
{
    let mut next = own.first_child();
    let mut other_next = other.first_child();
    while let Some(child) = next {
        let Some(other_child) = other_next else {
            return false;
        };
        if !are_same_nodes(child, other_child, role, orders) {
            return false;
        }
        next = child.next_sibling();
        other_next = other_child.next_sibling();
    }
    other_next.is_none()
}
