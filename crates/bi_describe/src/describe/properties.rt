//! The entries of the properties of nodes.

ghost use Rattle.std.specs.Prelude.{◌≡◌, ◌++◌, map, OnOk};
ghost use Rattle.bi_fdt.specs.Views.{node_of, table_of_node};
ghost use Rattle.bi_fit.specs.NormalNodes.{HasDistinctNames, properties_by_name};
ghost use Rattle.bi_fit.specs.ImageTree.{without_payload};
ghost use Rattle.bi_describe.specs.PropertyOrders.{IsByName};
ghost use Rattle.bi_describe.specs.TreeEntries.{as_entry, property_entries};

use super::entries::Entry;
use bi_fdt::{NodeRef, PropertyOrder};
use bi_fit::is_payload_name;
use std::alloc::AllocError;

/// Appends the entries of the properties of a node, in byte order of their names. Requires: the
/// order is that of the blob of the node, and no two of its properties have the same name.
pub(super) fn add_properties<'a>(
    entries: &mut Vec<Entry<'a>>,
    node: NodeRef<'a, '_>,
    order: &PropertyOrder,
) -> Result<(), AllocError>
    requires order { IsByName (table_of_node node) order.now }
    requires distinct { HasDistinctNames (node_of node).own }
    ensures { OnOk result (map as_entry entries.new.items ≡ map as_entry entries.old.items
        ++ property_entries (properties_by_name (node_of node.entry).own)) }
{
    entries.push(Entry::Properties)?;
    for (_, property) in node.properties_in(order) {
        entries.push(Entry::Property {
            name: property.name,
            value: property.value,
        })?;
    }
    entries.push(Entry::Children)?;
    Ok(())
}

/// Appends the entries of the properties of an image node but for the four that hold a payload or
/// name its region, in byte order of their names. Requires: the order is that of the blob of the
/// node, and no two of its properties have the same name.
pub(super) fn add_image_properties<'a>(
    entries: &mut Vec<Entry<'a>>,
    node: NodeRef<'a, '_>,
    order: &PropertyOrder,
) -> Result<(), AllocError>
    requires order { IsByName (table_of_node node) order.now }
    requires distinct { HasDistinctNames (node_of node).own }
    ensures { OnOk result (map as_entry entries.new.items ≡ map as_entry entries.old.items
        ++ property_entries (without_payload (properties_by_name (node_of node.entry).own))) }
{
    entries.push(Entry::Properties)?;
    for (_, property) in node.properties_in(order) {
        if is_payload_name(property.name) {
            continue;
        }
        entries.push(Entry::Property {
            name: property.name,
            value: property.value,
        })?;
    }
    entries.push(Entry::Children)?;
    Ok(())
}
