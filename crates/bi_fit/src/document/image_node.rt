//! Adding an image node to a document, from a file or from a specification.

ghost use Rattle.std.specs.Prelude.{◌≡◌, ◌-◌, ◌^◌, min, OnOk, IfOk};
ghost use Rattle.bi_blob.specs.Events.{events};
ghost use Rattle.bi_fit.specs.NormalNodes.{MayAdd, with_events, next_begin, next_end};
ghost use Rattle.bi_fit.specs.AddedImages.{IsAddable, added_image, added_payload};
ghost use Rattle.bi_fit.specs.AddedImages.{AreAddable, added_children, digests_left};

use crate::document::hash_nodes::add_children_with_digests;
use crate::document::nodes::{Leaf, add_leaves, begin_with};
use crate::document::property_map::PropertyMap;
use crate::name_order::NameOrder;
use crate::payload_area::PayloadArea;
use bi_fdt::NodeRef;
use bi_lay::Doc;
use std::alloc::{AllocError, Global};

/// An image node that a document gets.
#[derive(Drop)]
pub(crate) struct ImageNode<'a, 'b> {
    /// The name.
    pub(crate) name: &'a [u8],
    /// The properties. Those that give a payload are replaced by those of `payload`.
    pub(crate) properties: PropertyMap<'a, 'b>,
    /// The payload, if there is one.
    pub(crate) payload: Option<&'a [u8]>,
    /// The children.
    pub(crate) children: ImageChildren<'a, 'b>,
}

/// The children of an image node that a document gets.
#[derive(Clone, Copy)]
pub(crate) enum ImageChildren<'a, 'b> {
    /// The children of a node of a file.
    OfNode(NodeChildren<'a, 'b>),
    /// These nodes, which have no children.
    Leaves(&'b [Leaf<'a, 'b>]),
}

/// The children of an image node of a file, with the digests for its hash nodes.
#[derive(Clone, Copy)]
pub(crate) struct NodeChildren<'a, 'b> {
    /// The image node.
    pub(crate) node: NodeRef<'a, 'b>,
    /// The order of the names of the file's properties.
    pub(crate) order: &'b NameOrder<'a>,
    /// Whether the hash nodes get the first of the digests.
    pub(crate) hashed: bool,
    /// The digests of this image and of those after it.
    pub(crate) digests: &'a [u8],
}

/// Adds an image node, with all nodes below it, as a child of the innermost open node. Its payload
/// follows those of the area, and the node has the properties that give the payload. Returns the
/// digests after those of its hash nodes, or no digests if the children are given. Requires: the
/// names of the document are those of the properties, the area ends within the longest text, the
/// payload has fewer than 2^32 bytes unless the form is Embedded, and the node may come next in the
/// document, with its children.
///
/// Fails if memory runs out. What the document then has is not specified. The area has the payload.
pub(crate) fn add_image_node<'a>(
    alloc: Global,
    doc: &mut Doc<'a>,
    area: &mut PayloadArea,
    image: ImageNode<'a, '_>,
) -> Result<&'a [u8], AllocError>
    requires { IsAddable doc.old area.old image }
    ensures left { IfOk result (λ left. left.now ≡ digests_left image.entry.children) }
    ensures added { let begin = next_begin area.old.form area.old.end in
        let image = added_image area.old.form begin image.entry in
        OnOk result (doc.new ≡ with_events doc.old (events image)) }
    ensures form { area.new.form ≡ area.old.form }
    ensures end { let end = next_end area.old.form area.old.end (added_payload image.entry) in
        area.new.end ≡ min end (2 ^ 64 - 1) }
{
    let ImageNode {
        name,
        mut properties,
        payload,
        children,
    } = image;
    let form = area.form;
    let begin = area.place(payload) as u32;
    properties.set_payload(form, begin, payload)?;
    begin_with(doc, name, &properties)?;
    let left = add_image_children(alloc, doc, children)?;
    doc.end();
    Ok(left)
}

/// Adds the children of an image node, with all nodes below them. Returns the digests after those
/// of the hash nodes. Fails if memory runs out. Requires: the children are by the names of the
/// document; there are digests for their hash nodes, if they get new ones; no node of a file among
/// them has two properties with the same name; and the children may come next in the document.
fn add_image_children<'a>(
    alloc: Global,
    doc: &mut Doc<'a>,
    children: ImageChildren<'a, '_>,
) -> Result<&'a [u8], AllocError>
    requires addable { AreAddable doc.old.names children }
    requires may { MayAdd doc.old (events (added_children children)) }
    ensures left { IfOk result (λ left. left.now ≡ digests_left children.entry) }
    ensures added { OnOk result
        (doc.new ≡ with_events doc.old (events (added_children children.entry))) }
{
    match children {
        ImageChildren::OfNode(
            NodeChildren {
                node,
                order,
                hashed,
                digests,
            },
        ) => add_children_with_digests(alloc, doc, node, order, hashed, digests),
        ImageChildren::Leaves(leaves) => {
            add_leaves(doc, leaves)?;
            Ok(&[])
        }
    }
}
