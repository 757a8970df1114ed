//! The digests of payloads in the hash nodes of a plain tree.

ghost use Rattle.std.specs.Prelude.{◌≡◌, ℕ, List, OnOk, IfOk, Some, bytes_eq, map, option_map};
ghost use Rattle.std.specs.FinMap.{get};
ghost use Rattle.bi_fdt.specs.Numbers.{IsNumberOf};
ghost use Rattle.bi_fit.specs.ImageTree.{with_children_of, with_image_nodes};
ghost use Rattle.bi_fit.specs.Names.{data_name, images_name, value_name};
ghost use Rattle.bi_fit.specs.NewDigests.{hash_algorithm};
ghost use Rattle.bi_fit.specs.Updating.{with_digests_of};
ghost use Rattle.bi_hash.specs.Digests.{digest_of};
ghost use Rattle.bi_hash.specs.Regions.{IsRegionOf, bytes_of_region};
ghost use Rattle.bi_tree.specs.TreeNodes.{below};
ghost use Rattle.bi_tree.specs.Trees.{IsNumberedTree, tree_by_name};
ghost use Rattle.bi_plain.specs.PlainNodes.{AreNumberedNodes, models_by_name};
ghost use Rattle.bi_edit.specs.Edits.{with_payload_digests};
ghost use Rattle.bi_edit.specs.PayloadDigests.{payload_digests, with_digest_if, with_each_digest};

use bi_base::text_before_nul;
use bi_hash::{Algo, Region, RegionDigests};
use bi_tree::{Tree, TreeNode, TreeProperty, number_name};
use std::alloc::{AllocError, Global};
use std::borrow::CowSlice;

/// Gives each hash node with a known algorithm, of an image node with the property `data`, the
/// digest of the value of `data`. Each digest of a payload is computed once. Fails if memory runs
/// out. What the tree then has is not specified.
pub(crate) fn set_digests(alloc: Global, tree: &mut Tree<'_>) -> Result<(), AllocError>
    ensures { OnOk result (tree.new ≡ with_image_nodes with_payload_digests tree.old) }
{
    let number = number_name(&mut tree.names, b"value")?;
    set_root_digests(alloc, &mut tree.root, number)
}

/// Does so below the root. `number` is that of the name `value`.
fn set_root_digests(alloc: Global, root: &mut TreeNode<'_>, number: usize) -> Result<(), AllocError>
    ensures set { OnOk result (tree_by_name (below root.new)
        ≡ with_image_nodes with_payload_digests (tree_by_name (below root.old))) }
    ensures numbered { (names : List (List ℕ)) → IsNumberOf names value_name number
        → IsNumberedTree names (below root.old) → IsNumberedTree names (below root.new) }
{
    set_digests_among(alloc, &mut root.children, number)
}

/// Does so below the first of these nodes that has the image nodes.
fn set_digests_among(
    alloc: Global,
    nodes: &mut [TreeNode<'_>],
    number: usize,
) -> Result<(), AllocError>
    ensures set { OnOk result (models_by_name nodes.new
        ≡ with_children_of images_name with_payload_digests (models_by_name nodes.old)) }
    ensures numbered { (names : List (List ℕ)) → IsNumberOf names value_name number
        → AreNumberedNodes names nodes.old → AreNumberedNodes names nodes.new }
{
    for node in nodes.iter_mut() {
        if has_images(node) {
            return set_images_digests(alloc, node, number);
        }
    }
    Ok(())
}

/// Returns whether the image nodes are the children of this node, if it is one of the root.
fn has_images(node: &TreeNode<'_>) -> bool
    ensures { result ≡ bytes_eq node.now.name images_name }
{
    node.name == b"images".as_slice()
}

/// Does so for the children of the node that has the image nodes.
fn set_images_digests(
    alloc: Global,
    images: &mut TreeNode<'_>,
    number: usize,
) -> Result<(), AllocError>
    ensures set { OnOk result ((tree_by_name (below images.new)).children
        ≡ with_payload_digests (tree_by_name (below images.old)).children) }
    ensures same { images.new.own ≡ images.old.own }
    ensures name { images.new.name ≡ images.old.name }
    ensures numbered { (names : List (List ℕ)) → IsNumberOf names value_name number
        → IsNumberedTree names (below images.old) → IsNumberedTree names (below images.new) }
{
    set_each_digests(alloc, &mut images.children, number)
}

/// Does so for image nodes.
fn set_each_digests(
    alloc: Global,
    images: &mut [TreeNode<'_>],
    number: usize,
) -> Result<(), AllocError>
    ensures set { OnOk result (models_by_name images.new
        ≡ with_payload_digests (models_by_name images.old)) }
    ensures numbered { (names : List (List ℕ)) → IsNumberOf names value_name number
        → AreNumberedNodes names images.old → AreNumberedNodes names images.new }
{
    for image in images.iter_mut() {
        set_image_digests(alloc, image, number)?;
    }
    Ok(())
}

/// Does so for an image node.
fn set_image_digests(
    alloc: Global,
    image: &mut TreeNode<'_>,
    number: usize,
) -> Result<(), AllocError>
    ensures set { OnOk result ((tree_by_name (below image.new)).children
        ≡ with_digests_of (get (tree_by_name (below image.old)).own data_name)
        (tree_by_name (below image.old)).children) }
    ensures same { image.new.own ≡ image.old.own }
    ensures name { image.new.name ≡ image.old.name }
    ensures numbered { (names : List (List ℕ)) → IsNumberOf names value_name number
        → IsNumberedTree names (below image.old) → IsNumberedTree names (below image.new) }
{
    let digests = image_digests(alloc, image)?;
    set_values(alloc, &mut image.children, number, digests)
}

/// Gives these nodes as many digests, in their order.
fn set_values(
    alloc: Global,
    nodes: &mut [TreeNode<'_>],
    number: usize,
    digests: Vec<Option<Vec<u8>>>,
) -> Result<(), AllocError>
    ensures set { OnOk result (models_by_name nodes.new
        ≡ with_each_digest (map (option_map (λ bytes. bytes.items)) digests.items)
        (models_by_name nodes.old)) }
    ensures numbered { (names : List (List ℕ)) → IsNumberOf names value_name number
        → AreNumberedNodes names nodes.old → AreNumberedNodes names nodes.new }
{
    let mut left = digests.into_iter();
    for node in nodes.iter_mut() {
        let Some(digest) = left.next() else {
            return Ok(());
        };
        set_value(alloc, node, number, digest)?;
    }
    Ok(())
}

/// Gives a node this digest, if there is one.
fn set_value(
    alloc: Global,
    node: &mut TreeNode<'_>,
    number: usize,
    digest: Option<Vec<u8>>,
) -> Result<(), AllocError>
    ensures set { OnOk result (tree_by_name (below node.new)
        ≡ with_digest_if (option_map (λ bytes. bytes.items) digest)
        (tree_by_name (below node.old))) }
    ensures name { node.new.name ≡ node.old.name }
    ensures numbered { (names : List (List ℕ)) → IsNumberOf names value_name number
        → IsNumberedTree names (below node.old) → IsNumberedTree names (below node.new) }
{
    if let Some(digest) = digest {
        let property = TreeProperty {
            name: b"value",
            number,
            value: CowSlice::Owned(digest),
        };
        node.set_property(alloc, &[], property)?;
    }
    Ok(())
}

/// Returns the digest for each child of an image node, if it gets one. Without a payload the list
/// is empty. Fails if memory runs out.
fn image_digests(alloc: Global, image: &TreeNode<'_>) -> Result<Vec<Option<Vec<u8>>>, AllocError>
    ensures { IfOk result (λ digests. map (option_map (λ bytes. bytes.items)) digests.items
        ≡ payload_digests (get (tree_by_name (below image.now)).own data_name)
        (tree_by_name (below image.now)).children) }
{
    match image.value(b"data") {
        Some(payload) => digests_for_nodes(alloc, payload, &image.children),
        None => Ok(Vec::new(alloc)),
    }
}

/// Returns the digest of a payload for each of these nodes, if it gets one. Fails if memory runs
/// out.
fn digests_for_nodes(
    alloc: Global,
    payload: &[u8],
    nodes: &[TreeNode<'_>],
) -> Result<Vec<Option<Vec<u8>>>, AllocError>
    ensures { IfOk result (λ digests. map (option_map (λ bytes. bytes.items)) digests.items
        ≡ payload_digests (Some payload.now) (models_by_name nodes.now)) }
{
    let whole = Region {
        begin: 0,
        length: payload.len(),
    };
    let mut kept = RegionDigests::new(alloc, payload);
    let mut digests = Vec::with_capacity(alloc, nodes.len())?;
    for node in nodes {
        digests.push(child_digest(alloc, node, whole, &mut kept)?)?;
    }
    Ok(digests)
}

/// Returns the digest for a child of an image node, if it gets one: that of a region, which is the
/// payload. Fails if memory runs out. Requires: the region is within the file of the digests.
fn child_digest(
    alloc: Global,
    child: &TreeNode<'_>,
    payload: Region,
    kept: &mut RegionDigests<'_>,
) -> Result<Option<Vec<u8>>, AllocError>
    requires { IsRegionOf kept.old payload }
    ensures digest { IfOk result (λ digest. option_map (λ bytes. bytes.items) digest
        ≡ option_map (λ algo. digest_of algo (bytes_of_region kept.old payload))
        (hash_algorithm child.now.name (tree_by_name (below child.now)).own)) }
    ensures same { kept.new ≡ kept.old }
{
    let Some(algo) = hash_algo(child) else {
        return Ok(None);
    };
    let mut digest = Vec::new(alloc);
    kept.append_digest(algo, Some(payload), &mut digest)?;
    Ok(Some(digest))
}

/// Returns the algorithm of a child of an image node. Returns None if the child is not a hash node,
/// or does not name a known algorithm.
fn hash_algo(node: &TreeNode<'_>) -> Option<Algo>
    ensures { result
        ≡ hash_algorithm node.now.name (tree_by_name (below node.now)).own }
{
    if !node.name.starts_with(b"hash") {
        return None;
    }
    Algo::from_name(text_before_nul(node.value(b"algo")?)?)
}
