//! Comparing the properties of nodes.

ghost use Rattle.std.specs.Prelude.{◌≡◌, ◌∷◌, [], ◌↔◌, ◌<◌, IsTrue, IfSome, MatchOption, length};
ghost use Rattle.bi_fdt.specs.Views.{node_of};
ghost use Rattle.bi_fit.specs.NormalNodes.{HasDistinctNames};
ghost use Rattle.bi_fit.specs.ComparedNodes.{HaveOneOrder, compared_properties, compared_values};

use crate::comparing::orders::Orders;
use crate::comparing::role::Role;
use bi_fdt::{NodeRef, OrderedProperties};

/// Returns whether two nodes with this role have the same properties by name, without those that
/// are not compared. Requires: the orders are those of the blobs of the two nodes, by one list of
/// names, and neither node has two properties with the same name.
///
/// Takes time linear in the number of properties. Each value is compared at most once.
pub(super) fn have_same_properties(
    own: NodeRef<'_, '_>,
    other: NodeRef<'_, '_>,
    role: Role,
    orders: &Orders,
) -> bool
    requires orders { HaveOneOrder own other orders.now }
    requires distinct { HasDistinctNames (node_of own).own }
    requires other_distinct { HasDistinctNames (node_of other).own }
    ensures { IsTrue result ↔ (compared_properties role (node_of own.entry).own
        ≡ compared_properties role (node_of other.entry).own) }
{
    let mut properties = own.properties_in(&orders.own);
    let mut others = other.properties_in(&orders.other);
    while let Some((key, value)) = next_value(&mut properties, role) {
        let Some((other_key, other_value)) = next_value(&mut others, role) else {
            return false;
        };
        if key != other_key || value != other_value {
            return false;
        }
    }
    next_value(&mut others, role).is_none()
}

/// Takes properties up to the first one that is compared in a node with this role, and returns its
/// value after its key. Returns None if there is no such property.
fn next_value<'a>(
    properties: &mut OrderedProperties<'a, '_, '_>,
    role: Role,
) -> Option<(usize, &'a [u8])>
    ensures value { MatchOption result (compared_values role properties.old ≡ [])
        (λ value. compared_values role properties.old
        ≡ (value.0, value.1.now) ∷ compared_values role properties.new) }
    ensures fewer { IfSome result (λ _. length properties.new < length properties.old) }
{
    while let Some((key, property)) = properties.next() {
        if role.compares(property.name) {
            return Some((key, property.value));
        }
    }
    None
}
