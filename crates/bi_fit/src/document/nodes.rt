//! Adding nodes to a document.
//!
//! Each function that adds to a document fails if memory runs out. What the document then has is
//! not specified.

ghost use Rattle.std.specs.Prelude.{◌≡◌, map, OnOk};
ghost use Rattle.std.specs.List.{AllByRecursion};
ghost use Rattle.bi_blob.specs.Tree.{EachOwn};
ghost use Rattle.bi_blob.specs.Events.{events};
ghost use Rattle.bi_fit.specs.NormalNodes.{MayAdd, with_events, HasDistinctNames, alone};
ghost use Rattle.bi_fit.specs.NormalNodes.{begin_events, properties_by_name, sorted_nodes};
ghost use Rattle.bi_fit.specs.NormalNodes.{leaf, leaf_nodes};
ghost use Rattle.bi_fit.specs.Leaves.{leaf_model};
ghost use Rattle.bi_fdt.specs.Views.{node_of};
ghost use Rattle.bi_fit.specs.NameOrders.{HasOrder};

use crate::document::property_map::PropertyMap;
use crate::memory::only_memory;
use crate::name_order::NameOrder;
use bi_fdt::NodeRef;
use bi_lay::Doc;
use std::alloc::{AllocError, Global};

/// A node without children, to be added to a document.
#[derive(Drop)]
pub(crate) struct Leaf<'a, 'b> {
    /// The name.
    pub(crate) name: &'a [u8],
    /// The properties.
    pub(crate) properties: PropertyMap<'a, 'b>,
}

/// Begins a node with its properties, as a child of the innermost open node or as the root.
/// Requires: the order is that of the blob of the node, by the names of the document; no two
/// properties of the node have the same name; and the node and its properties may come next in the
/// document.
pub(super) fn begin_node<'a>(
    alloc: Global,
    doc: &mut Doc<'a>,
    node: NodeRef<'a, '_>,
    order: &NameOrder<'a>,
) -> Result<(), AllocError>
    requires order { HasOrder doc.old.names order.now node }
    requires distinct { HasDistinctNames (node_of node).own }
    requires may { let properties = properties_by_name (node_of node).own in
        MayAdd doc.old (begin_events (node_of node).name properties) }
    ensures added { let properties = properties_by_name (node_of node.entry).own in
        OnOk result (doc.new ≡ with_events doc.old
        (begin_events (node_of node.entry).name properties)) }
{
    let properties = PropertyMap::from_node(alloc, node, order)?;
    begin_with(doc, node.name(), &properties)
}

/// Begins a node with the given name, as a child of the innermost open node or as the root, and
/// adds the given properties to it, in byte order of their names.
///
/// Requires: the names of the document are those of the properties, and these events may come next
/// in the document. That is, `Doc::may_begin` is true for the name, and the name of each property
/// is not empty and has no zero.
pub(crate) fn begin_with<'a>(
    doc: &mut Doc<'a>,
    name: &'a [u8],
    properties: &PropertyMap<'a, '_>,
) -> Result<(), AllocError>
    requires names { doc.old.names ≡ properties.now.names }
    requires may { MayAdd doc.old (begin_events name.now properties.now.by_name) }
    ensures added { OnOk result (doc.new ≡ with_events doc.old
        (begin_events name.entry.now properties.entry.now.by_name)) }
{
    only_memory(doc.begin(name))?;
    properties.add_to(doc)
}

/// Adds nodes without children, in their order, as children of the innermost open node. Requires:
/// the properties are by the names of the document, and each node may be added.
pub(crate) fn add_leaves<'a>(doc: &mut Doc<'a>, leaves: &[Leaf<'a, '_>]) -> Result<(), AllocError>
    requires names { AllByRecursion (λ leaf. doc.old.names ≡ leaf.properties.names) leaves.now }
    requires may { MayAdd doc.old (events (leaf_nodes (map leaf_model leaves.now))) }
    ensures added { OnOk result (doc.new ≡ with_events doc.old
        (events (leaf_nodes (map leaf_model leaves.entry.now)))) }
{
    for leaf in leaves {
        add_leaf(doc, leaf.name, &leaf.properties)?;
    }
    Ok(())
}

/// Adds a node with the given name, the given properties and no children, as a child of the
/// innermost open node. Requires: the names of the document are those of the properties, and the
/// node may come next in the document.
fn add_leaf<'a>(
    doc: &mut Doc<'a>,
    name: &'a [u8],
    properties: &PropertyMap<'a, '_>,
) -> Result<(), AllocError>
    requires names { doc.old.names ≡ properties.now.names }
    requires may { MayAdd doc.old (events (leaf name.now properties.now.by_name)) }
    ensures added { OnOk result (doc.new ≡ with_events doc.old
        (events (leaf name.entry.now properties.entry.now.by_name))) }
{
    begin_with(doc, name, properties)?;
    doc.end();
    Ok(())
}

/// Adds a node, with all nodes below it, as a child of the innermost open node. Requires: the order
/// is that of the blob of the node, by the names of the document; none of these nodes has two
/// properties with the same name; and the nodes may come next in the document.
#[cycle(nodes)]
pub(super) fn add_node<'a>(
    alloc: Global,
    doc: &mut Doc<'a>,
    node: NodeRef<'a, '_>,
    order: &NameOrder<'a>,
) -> Result<(), AllocError>
    requires order { HasOrder doc.old.names order.now node }
    requires distinct { EachOwn HasDistinctNames (alone (node_of node)) }
    requires may { MayAdd doc.old (events (sorted_nodes (alone (node_of node)))) }
    ensures added { OnOk result (doc.new ≡ with_events doc.old
        (events (sorted_nodes (alone (node_of node.entry))))) }
{
    begin_node(alloc, doc, node, order)?;
    add_children(alloc, doc, node, order)?;
    doc.end();
    Ok(())
}

/// Adds the children of a node, with all nodes below them, as children of the innermost open node.
/// Requires: the order is that of the blob of the node, by the names of the document; no node below
/// it has two properties with the same name; and the children may come next in the document.
#[cycle(nodes)]
pub(super) fn add_children<'a>(
    alloc: Global,
    doc: &mut Doc<'a>,
    node: NodeRef<'a, '_>,
    order: &NameOrder<'a>,
) -> Result<(), AllocError>
    requires order { HasOrder doc.old.names order.now node }
    requires distinct { EachOwn HasDistinctNames (node_of node).children }
    requires may { MayAdd doc.old (events (sorted_nodes (node_of node).children)) }
    ensures added { OnOk result (doc.new ≡ with_events doc.old
        (events (sorted_nodes (node_of node.entry).children))) }
{
    let mut next = node.first_child();
    while let Some(child) = next {
        add_node(alloc, doc, child, order)?;
        next = child.next_sibling();
    }
    Ok(())
}
