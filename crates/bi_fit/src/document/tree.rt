//! Adding the tree of the normal text to a document.
//!
//! Each function that adds to a document fails if memory runs out. What the document then has is
//! not specified.

ghost use Rattle.std.specs.Prelude.{◌≡◌, bytes_eq, Some, OnOk};
ghost use Rattle.bi_blob.specs.Tree.{EachOwn};
ghost use Rattle.bi_blob.specs.Events.{events};
ghost use Rattle.bi_fit.specs.Names.{images_name};
ghost use Rattle.bi_fit.specs.NormalNodes.{MayAdd, with_events, HasDistinctNames, alone};
ghost use Rattle.bi_fdt.specs.Views.{node_of};
ghost use Rattle.bi_fit.specs.NameOrders.{HasOrder};
ghost use Rattle.bi_fit.specs.TextNodes.{HasRoom, HaveTextImages, HaveImagesAfter};
ghost use Rattle.bi_fit.specs.TextNodes.{one_fewer, text_root, text_root_children};

use crate::document::image_nodes::add_images;
use crate::document::nodes::{add_node, begin_with};
use crate::document::property_map::PropertyMap;
use crate::document::text_parts::TextParts;
use bi_fdt::NodeRef;
use bi_lay::Doc;
use std::alloc::{AllocError, Global};

/// Adds the tree with this root, with the changes of the parts. If the digests change, the hash
/// nodes get the digests of the parts. Requires: the order is that of the blob of the root, by the
/// names of the document; the children of the node `images` are the nodes of the images of the
/// parts, with their digests; `parts.images_position` is the position of that node among the
/// children of the root; unless the form is Embedded, the payloads end within the longest text;
/// none of these nodes has two properties with the same name; and the tree may come next in the
/// document.
pub(super) fn add_tree<'a>(
    alloc: Global,
    doc: &mut Doc<'a>,
    root: NodeRef<'a, '_>,
    parts: TextParts<'a, '_>,
) -> Result<(), AllocError>
    requires order { HasOrder doc.old.names parts.order.now root }
    requires images { HaveTextImages parts (node_of root).children }
    requires position { HaveImagesAfter (Some parts.images_position) (node_of root).children }
    requires room { HasRoom parts }
    requires distinct { EachOwn HasDistinctNames (alone (node_of root)) }
    requires may { MayAdd doc.old (events (text_root parts (node_of root))) }
    ensures added { OnOk result (doc.new ≡ with_events doc.old
        (events (text_root parts.entry (node_of root.entry)))) }
{
    let mut properties = PropertyMap::from_node(alloc, root, parts.order)?;
    properties.set_time(parts.changes.time)?;
    begin_with(doc, root.name(), &properties)?;
    add_root_children(alloc, doc, root, parts)?;
    doc.end();
    Ok(())
}

/// Adds the children of the root, with all nodes below them. Requires: what `add_tree` requires,
/// for the nodes below the root.
fn add_root_children<'a>(
    alloc: Global,
    doc: &mut Doc<'a>,
    root: NodeRef<'a, '_>,
    parts: TextParts<'a, '_>,
) -> Result<(), AllocError>
    requires order { HasOrder doc.old.names parts.order.now root }
    requires images { HaveTextImages parts (node_of root).children }
    requires position { HaveImagesAfter (Some parts.images_position) (node_of root).children }
    requires room { HasRoom parts }
    requires distinct { EachOwn HasDistinctNames (node_of root).children }
    requires may { MayAdd doc.old (events (text_root_children parts (node_of root).children)) }
    ensures added { OnOk result (doc.new ≡ with_events doc.old
        (events (text_root_children parts.entry (node_of root.entry).children))) }
{
    let mut next = root.first_child();
    let mut before_images = Some(parts.images_position);
    while let Some(child) = next {
        add_root_child(alloc, doc, child, before_images == Some(0), parts)?;
        before_images = after_one(before_images);
        next = child.next_sibling();
    }
    Ok(())
}

/// Returns the count minus one. Returns None if it is 0 or there is none.
fn after_one(count: Option<usize>) -> Option<usize>
    ensures { result ≡ one_fewer count }
{
    count?.checked_sub(1)
}

/// Adds a child of the root, with all nodes below it. The children of the node `images` are the
/// nodes of the images. Requires: the order is that of the blob of the node, by the names of the
/// document; `is_images` is whether the node has the name `images`, and its children are then the
/// nodes of the images of the parts, with their digests; unless the form is Embedded, the payloads
/// end within the longest text; none of these nodes has two properties with the same name; and the
/// node may come next in the document.
fn add_root_child<'a>(
    alloc: Global,
    doc: &mut Doc<'a>,
    node: NodeRef<'a, '_>,
    is_images: bool,
    parts: TextParts<'a, '_>,
) -> Result<(), AllocError>
    requires order { HasOrder doc.old.names parts.order.now node }
    requires named { bytes_eq (node_of node).name images_name ≡ is_images }
    requires images { HaveTextImages parts (alone (node_of node)) }
    requires room { HasRoom parts }
    requires distinct { EachOwn HasDistinctNames (alone (node_of node)) }
    requires may { MayAdd doc.old (events (text_root_children parts (alone (node_of node)))) }
    ensures added { OnOk result (doc.new ≡ with_events doc.old
        (events (text_root_children parts.entry (alone (node_of node.entry))))) }
{
    if is_images {
        add_images(alloc, doc, node, parts)
    } else {
        add_node(alloc, doc, node, parts.order)
    }
}
