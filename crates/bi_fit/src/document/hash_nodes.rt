//! Adding the hash nodes of an image to a document.
//!
//! Each function that adds to a document fails if memory runs out. What the document then has is
//! not specified.

ghost use Rattle.std.specs.Prelude.{◌≡◌, OnOk, IfOk};
ghost use Rattle.bi_blob.specs.Tree.{EachOwn};
ghost use Rattle.bi_blob.specs.Events.{events};
ghost use Rattle.bi_fit.specs.TakenDigests.{HaveDigests, after_digests};
ghost use Rattle.bi_fit.specs.NormalNodes.{MayAdd, with_events, HasDistinctNames};
ghost use Rattle.bi_fit.specs.NormalNodes.{alone, nodes_by_name, sorted_image_children};
ghost use Rattle.bi_fdt.specs.Views.{node_of};
ghost use Rattle.bi_fit.specs.NameOrders.{HasOrder};

use crate::document::nodes::{add_children, begin_with};
use crate::document::property_map::PropertyMap;
use crate::name_order::NameOrder;
use crate::new_digests::hash_algo;
use bi_fdt::NodeRef;
use bi_lay::Doc;
use std::alloc::{AllocError, Global};

/// Adds the children of an image node, with all nodes below them. If the image is hashed, its hash
/// nodes get the first of these digests. Returns the bytes after them. Requires: the order is that
/// of the blob of the node, by the names of the document; if the image is hashed, there is a digest
/// for each of its hash nodes with a known algorithm; no node below it has two properties with the
/// same name; and the children may come next in the document.
pub(super) fn add_children_with_digests<'a>(
    alloc: Global,
    doc: &mut Doc<'a>,
    node: NodeRef<'a, '_>,
    order: &NameOrder<'a>,
    hashed: bool,
    digests: &'a [u8],
) -> Result<&'a [u8], AllocError>
    requires order { HasOrder doc.old.names order.now node }
    requires digests { HaveDigests hashed digests.now
        (nodes_by_name (node_of node).children) }
    requires distinct { EachOwn HasDistinctNames (node_of node).children }
    requires may { let nodes = (node_of node).children in
        MayAdd doc.old (events (sorted_image_children hashed digests.now nodes)) }
    ensures left { IfOk result (λ left. left.now
        ≡ after_digests hashed digests.entry.now (nodes_by_name (node_of node.entry).children)) }
    ensures added { let nodes = (node_of node.entry).children in
        OnOk result (doc.new ≡ with_events doc.old
        (events (sorted_image_children hashed digests.entry.now nodes))) }
{
    let mut next = node.first_child();
    let mut left = digests;
    while let Some(child) = next {
        left = add_child_with_digest(alloc, doc, child, order, hashed, left)?;
        next = child.next_sibling();
    }
    Ok(left)
}

/// Adds a child of an image node, with all nodes below it. If the image is hashed, and this is a
/// hash node with a known algorithm, its value is the first of these digests. Returns the bytes
/// after it. Requires: the order is that of the blob of the node, by the names of the document;
/// there is such a digest, if it is needed; none of these nodes has two properties with the same
/// name; and the child may come next in the document.
fn add_child_with_digest<'a>(
    alloc: Global,
    doc: &mut Doc<'a>,
    node: NodeRef<'a, '_>,
    order: &NameOrder<'a>,
    hashed: bool,
    digests: &'a [u8],
) -> Result<&'a [u8], AllocError>
    requires order { HasOrder doc.old.names order.now node }
    requires digests { HaveDigests hashed digests.now (nodes_by_name (alone (node_of node))) }
    requires distinct { EachOwn HasDistinctNames (alone (node_of node)) }
    requires may { let nodes = alone (node_of node) in
        MayAdd doc.old (events (sorted_image_children hashed digests.now nodes)) }
    ensures left { IfOk result (λ left. left.now
        ≡ after_digests hashed digests.entry.now (nodes_by_name (alone (node_of node.entry)))) }
    ensures added { let nodes = alone (node_of node.entry) in
        OnOk result (doc.new ≡ with_events doc.old
        (events (sorted_image_children hashed digests.entry.now nodes))) }
{
    let algo = if hashed { hash_algo(node) } else { None };
    let mut properties = PropertyMap::from_node(alloc, node, order)?;
    let left = properties.set_digest(algo, digests)?;
    begin_with(doc, node.name(), &properties)?;
    add_children(alloc, doc, node, order)?;
    doc.end();
    Ok(left)
}
