//! The entries of nodes.

ghost use Rattle.std.specs.Prelude.{◌≡◌, ◌++◌, map, OnOk};
ghost use Rattle.bi_blob.specs.Tree.{EachOwn};
ghost use Rattle.bi_fdt.specs.Views.{node_of, table_of_node};
ghost use Rattle.bi_fit.specs.NormalNodes.{HasDistinctNames, alone, properties_by_name};
ghost use Rattle.bi_describe.specs.MadeEntries.{begin_entries, plain_entries};
ghost use Rattle.bi_describe.specs.PropertyOrders.{IsByName};
ghost use Rattle.bi_describe.specs.TreeEntries.{as_entry};

use super::entries::Entry;
use super::properties::add_properties;
use bi_fdt::{NodeRef, PropertyOrder};
use std::alloc::AllocError;

/// Appends the entries of a node, and of all nodes below it. Requires: the order is that of the
/// blob of the node, and none of these nodes has two properties with the same name.
#[cycle(nodes)]
pub(super) fn add_node<'a>(
    entries: &mut Vec<Entry<'a>>,
    node: NodeRef<'a, '_>,
    order: &PropertyOrder,
) -> Result<(), AllocError>
    requires order { IsByName (table_of_node node) order.now }
    requires distinct { EachOwn HasDistinctNames (alone (node_of node)) }
    ensures { OnOk result (map as_entry entries.new.items ≡ map as_entry entries.old.items
        ++ plain_entries (alone (node_of node.entry))) }
{
    begin_node(entries, node, order)?;
    add_children(entries, node, order)?;
    entries.push(Entry::End)?;
    Ok(())
}

/// Appends the entries of the children of a node, and of all nodes below them. Requires: the order
/// is that of the blob of the node, and no node below it has two properties with the same name.
#[cycle(nodes)]
pub(super) fn add_children<'a>(
    entries: &mut Vec<Entry<'a>>,
    node: NodeRef<'a, '_>,
    order: &PropertyOrder,
) -> Result<(), AllocError>
    requires order { IsByName (table_of_node node) order.now }
    requires distinct { EachOwn HasDistinctNames (node_of node).children }
    ensures { OnOk result (map as_entry entries.new.items ≡ map as_entry entries.old.items
        ++ plain_entries (node_of node.entry).children) }
{
    let mut next = node.first_child();
    while let Some(child) = next {
        add_node(entries, child, order)?;
        next = child.next_sibling();
    }
    Ok(())
}

/// Appends the entry with which a node begins, and those of its properties. Requires: the order is
/// that of the blob of the node, and no two of its properties have the same name.
pub(super) fn begin_node<'a>(
    entries: &mut Vec<Entry<'a>>,
    node: NodeRef<'a, '_>,
    order: &PropertyOrder,
) -> Result<(), AllocError>
    requires order { IsByName (table_of_node node) order.now }
    requires distinct { HasDistinctNames (node_of node).own }
    ensures { OnOk result (map as_entry entries.new.items ≡ map as_entry entries.old.items
        ++ begin_entries (node_of node.entry).name
        (properties_by_name (node_of node.entry).own)) }
{
    entries.push(Entry::Begin(node.name()))?;
    add_properties(entries, node, order)
}
