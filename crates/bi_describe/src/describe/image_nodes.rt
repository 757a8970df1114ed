//! The entries of image nodes, and of the tree that has them.

ghost use Rattle.std.specs.Prelude.{◌≡◌, ◌∷◌, ◌++◌, [], map, OnOk, IfOk};
ghost use Rattle.bi_blob.specs.Tree.{AreDistinct, EachOwn, names};
ghost use Rattle.bi_fdt.specs.Views.{node_of, table_of_node};
ghost use Rattle.bi_fit.specs.NormalNodes.{HasDistinctNames, alone, properties_by_name};
ghost use Rattle.bi_fit.specs.Content.{IsHeld, tree_of};
ghost use Rattle.bi_describe.specs.ImagePayloads.{bytes_of_payload, bytes_of_payloads};
ghost use Rattle.bi_describe.specs.MadeEntries.{begin_entries, image_entries, images_entries};
ghost use Rattle.bi_describe.specs.MadeEntries.{root_children_entries};
ghost use Rattle.bi_describe.specs.PropertyOrders.{IsByName};
ghost use Rattle.bi_describe.specs.TreeEntries.{NodeEnds, tree_entries, as_entry};

use super::digests::payloads_of;
use super::entries::Entry;
use super::image_payload::ImagePayload;
use super::nodes::{add_children, add_node, begin_node};
use super::properties::{add_image_properties, add_properties};
use bi_common::payload_bounds::BoundedFit;
use bi_fdt::{NodeRef, PropertyOrder};
use std::alloc::{AllocError, Global};

/// Returns the entries of a flattened image tree: those of the properties of the root, and those of
/// all nodes below it. Requires: the tree was read, and the order is that of its blob.
pub(super) fn entries_of<'a>(
    alloc: Global,
    bounded: BoundedFit<'_, 'a>,
    order: &PropertyOrder,
) -> Result<Vec<Entry<'a>>, AllocError>
    requires held { IsHeld bounded.fit.now }
    requires order { IsByName bounded.fit.now.blob.table order.now }
    ensures { IfOk result (λ entries. map as_entry entries.items
        ≡ tree_entries (tree_of bounded.entry.fit.now)) }
{
    let payloads = payloads_of(alloc, bounded)?;
    let mut entries = Vec::new(alloc);
    let root = bounded.fit().blob().root();
    add_properties(&mut entries, root, order)?;
    add_root_children(&mut entries, root, &payloads, order)?;
    Ok(entries)
}

/// Appends the entries of the children of the root, and of all nodes below them. The images have
/// these payloads. Requires: the order is that of the blob of the root, no node below the root has
/// two properties with the same name, and no two children of the root have the same name.
fn add_root_children<'a>(
    entries: &mut Vec<Entry<'a>>,
    root: NodeRef<'a, '_>,
    payloads: &[ImagePayload<'a>],
    order: &PropertyOrder,
) -> Result<(), AllocError>
    requires order { IsByName (table_of_node root) order.now }
    requires distinct { EachOwn HasDistinctNames (node_of root).children }
    requires names { AreDistinct (names (node_of root).children) }
    ensures { OnOk result (map as_entry entries.new.items ≡ map as_entry entries.old.items
        ++ root_children_entries (node_of root.entry).children
        (bytes_of_payloads payloads.entry.now)) }
{
    let mut next = root.first_child();
    while let Some(child) = next {
        if child.name() == b"images".as_slice() {
            add_images(entries, child, payloads, order)?;
        } else {
            add_node(entries, child, order)?;
        }
        next = child.next_sibling();
    }
    Ok(())
}

/// Appends the entries of a node, whose children are the nodes of the images with these payloads,
/// and of all nodes below it. Requires: the order is that of the blob of the node, and none of
/// these nodes has two properties with the same name.
fn add_images<'a>(
    entries: &mut Vec<Entry<'a>>,
    node: NodeRef<'a, '_>,
    payloads: &[ImagePayload<'a>],
    order: &PropertyOrder,
) -> Result<(), AllocError>
    requires order { IsByName (table_of_node node) order.now }
    requires distinct { EachOwn HasDistinctNames (alone (node_of node)) }
    ensures { OnOk result (map as_entry entries.new.items ≡ map as_entry entries.old.items
        ++ (begin_entries (node_of node.entry).name (properties_by_name (node_of node.entry).own)
        ++ (images_entries (node_of node.entry).children (bytes_of_payloads payloads.entry.now)
        ++ NodeEnds ∷ []))) }
{
    begin_node(entries, node, order)?;
    add_image_nodes(entries, node, payloads, order)?;
    entries.push(Entry::End)?;
    Ok(())
}

/// Appends the entries of the children of a node, which are the nodes of the images with these
/// payloads, and of all nodes below them. Requires: the order is that of the blob of the node, and
/// no node below it has two properties with the same name.
fn add_image_nodes<'a>(
    entries: &mut Vec<Entry<'a>>,
    node: NodeRef<'a, '_>,
    payloads: &[ImagePayload<'a>],
    order: &PropertyOrder,
) -> Result<(), AllocError>
    requires order { IsByName (table_of_node node) order.now }
    requires distinct { EachOwn HasDistinctNames (node_of node).children }
    ensures { OnOk result (map as_entry entries.new.items ≡ map as_entry entries.old.items
        ++ images_entries (node_of node.entry).children
        (bytes_of_payloads payloads.entry.now)) }
{
    let mut next = node.first_child();
    for payload in payloads {
        let Some(child) = next else {
            return Ok(());
        };
        add_image(entries, child, payload, order)?;
        next = child.next_sibling();
    }
    Ok(())
}

/// Appends the entries of an image node with this payload, and of all nodes below it. Requires: the
/// order is that of the blob of the node, and none of these nodes has two properties with the same
/// name.
fn add_image<'a>(
    entries: &mut Vec<Entry<'a>>,
    node: NodeRef<'a, '_>,
    payload: &ImagePayload<'a>,
    order: &PropertyOrder,
) -> Result<(), AllocError>
    requires order { IsByName (table_of_node node) order.now }
    requires distinct { EachOwn HasDistinctNames (alone (node_of node)) }
    ensures { OnOk result (map as_entry entries.new.items ≡ map as_entry entries.old.items
        ++ image_entries (node_of node.entry) (bytes_of_payload payload.now)) }
{
    entries.push(Entry::Begin(node.name()))?;
    entries.push(Entry::Payload(*payload))?;
    add_image_properties(entries, node, order)?;
    add_children(entries, node, order)?;
    entries.push(Entry::End)?;
    Ok(())
}
