//! Adding the image nodes of a file to a document.
//!
//! Each function that adds to a document fails if memory runs out. What the document then has is
//! not specified.

ghost use Rattle.std.specs.Prelude.{◌≡◌, OnOk};
ghost use Rattle.std.specs.Option.{option_map};
ghost use Rattle.bi_blob.specs.Tree.{EachOwn};
ghost use Rattle.bi_blob.specs.Events.{events};
ghost use Rattle.bi_fit.specs.TakenDigests.{is_hashed as is_hashed_of};
ghost use Rattle.bi_fit.specs.NormalNodes.{MayAdd, with_events, HasDistinctNames, alone};
ghost use Rattle.bi_fdt.specs.Views.{node_of};
ghost use Rattle.bi_fit.specs.NameOrders.{HasOrder};
ghost use Rattle.bi_fit.specs.TextNodes.{HasRoom, AreTextImages, text_image_nodes};
ghost use Rattle.bi_fit.specs.TextNodes.{text_images_node};

use crate::changes::Changes;
use crate::document::image_node::{ImageChildren, ImageNode, NodeChildren, add_image_node};
use crate::document::nodes::begin_node;
use crate::document::property_map::PropertyMap;
use crate::document::text_parts::TextParts;
use crate::nodes::ImagesWithNodes;
use crate::payload_area::PayloadArea;
use bi_fdt::NodeRef;
use bi_lay::Doc;
use std::alloc::{AllocError, Global};

/// Adds a node with all nodes below it, as a child of the innermost open node. Its children are the
/// nodes of the images. Requires: the order is that of the blob of the node, by the names of the
/// document; its children are the nodes of the images of the parts, with their digests; unless the
/// form is Embedded, the payloads end within the longest text; none of these nodes has two
/// properties with the same name; and the nodes may come next in the document.
pub(super) fn add_images<'a>(
    alloc: Global,
    doc: &mut Doc<'a>,
    node: NodeRef<'a, '_>,
    parts: TextParts<'a, '_>,
) -> Result<(), AllocError>
    requires order { HasOrder doc.old.names parts.order.now node }
    requires images { AreTextImages parts (node_of node).children }
    requires room { HasRoom parts }
    requires distinct { EachOwn HasDistinctNames (alone (node_of node)) }
    requires may { MayAdd doc.old (events (text_images_node parts (node_of node))) }
    ensures added { OnOk result (doc.new ≡ with_events doc.old
        (events (text_images_node parts.entry (node_of node.entry)))) }
{
    begin_node(alloc, doc, node, parts.order)?;
    add_image_nodes(alloc, doc, node, parts)?;
    doc.end();
    Ok(())
}

/// Adds the children of a node, which are the nodes of the images, with all nodes below them, as
/// children of the innermost open node. Requires: the order is that of the blob of the node, by the
/// names of the document; its children are the nodes of the images of the parts, with their
/// digests; unless the form is Embedded, the payloads end within the longest text; no node below it
/// has two properties with the same name; and the children may come next in the document.
fn add_image_nodes<'a>(
    alloc: Global,
    doc: &mut Doc<'a>,
    node: NodeRef<'a, '_>,
    parts: TextParts<'a, '_>,
) -> Result<(), AllocError>
    requires order { HasOrder doc.old.names parts.order.now node }
    requires images { AreTextImages parts (node_of node).children }
    requires room { HasRoom parts }
    requires distinct { EachOwn HasDistinctNames (node_of node).children }
    requires may { MayAdd doc.old (events (text_image_nodes parts (node_of node).children)) }
    ensures added { OnOk result (doc.new ≡ with_events doc.old
        (events (text_image_nodes parts.entry (node_of node.entry).children))) }
{
    let mut area = PayloadArea::new(parts.form);
    let mut left = parts.digests;
    for (child, image) in ImagesWithNodes::children(node, parts.images) {
        let children = NodeChildren {
            node: child,
            order: parts.order,
            hashed: is_hashed(parts.changes, image.payload),
            digests: left,
        };
        let added = ImageNode {
            name: child.name(),
            properties: PropertyMap::from_node(alloc, child, parts.order)?,
            payload: image.payload,
            children: ImageChildren::OfNode(children),
        };
        left = add_image_node(alloc, doc, &mut area, added)?;
    }
    Ok(())
}

/// Returns whether the hash nodes of an image with this payload get new digests.
fn is_hashed(changes: Changes, payload: Option<&[u8]>) -> bool
    ensures { result
        ≡ is_hashed_of changes.hashes (option_map (λ payload. payload.now) payload.entry) }
{
    changes.hashes && payload.is_some()
}
