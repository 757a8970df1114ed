//! The payloads of the image nodes of a plain tree.

ghost use Rattle.std.specs.Prelude.{◌≡◌, ℕ, List, OnOk, bytes_eq, drop, option_map};
ghost use Rattle.bi_fdt.specs.Numbers.{IsNumberOf};
ghost use Rattle.bi_fit.specs.ImageTree.{with_children_of, with_image_nodes};
ghost use Rattle.bi_fit.specs.Names.{data_name, images_name};
ghost use Rattle.bi_fit.specs.NormalNodes.{payloads_of};
ghost use Rattle.bi_tree.specs.Properties.{tree_properties};
ghost use Rattle.bi_tree.specs.TreeNodes.{below};
ghost use Rattle.bi_tree.specs.Trees.{IsNumberedTree, tree_by_name};
ghost use Rattle.bi_plain.specs.PlainNodes.{AreNumberedNodes, first_or_none, models_by_name};
ghost use Rattle.bi_plain.specs.PlainNodes.{with_own_payload, with_own_payloads};
ghost use Rattle.bi_plain.specs.PlainNodes.{without_payload_names};

use bi_fit::{Image, is_payload_name};
use bi_tree::{Tree, TreeNode, TreeProperty, number_name};
use std::alloc::{AllocError, Global};
use std::borrow::CowSlice;

/// Gives the image nodes of a tree these payloads, in their order, as values of `data`. Takes out
/// the other properties that hold a payload or name its region. Fails if memory runs out. What the
/// tree then has is not specified.
pub(crate) fn set_payloads<'a>(
    alloc: Global,
    tree: &mut Tree<'a>,
    images: &[Image<'a>],
) -> Result<(), AllocError>
    ensures { OnOk result (tree.new
        ≡ with_image_nodes (with_own_payloads (payloads_of images.now)) tree.old) }
{
    let number = number_name(&mut tree.names, b"data")?;
    set_root_payloads(alloc, &mut tree.root, number, images)
}

/// Does so below the root. `number` is that of the name `data`.
fn set_root_payloads<'a>(
    alloc: Global,
    root: &mut TreeNode<'a>,
    number: usize,
    images: &[Image<'a>],
) -> Result<(), AllocError>
    ensures set { OnOk result (tree_by_name (below root.new)
        ≡ with_image_nodes (with_own_payloads (payloads_of images.now))
        (tree_by_name (below root.old))) }
    ensures numbered { (names : List (List ℕ)) → IsNumberOf names data_name number
        → IsNumberedTree names (below root.old) → IsNumberedTree names (below root.new) }
{
    set_payloads_among(alloc, &mut root.children, number, images)
}

/// Does so below the first of these nodes that has the image nodes.
fn set_payloads_among<'a>(
    alloc: Global,
    nodes: &mut [TreeNode<'a>],
    number: usize,
    images: &[Image<'a>],
) -> Result<(), AllocError>
    ensures set { OnOk result (models_by_name nodes.new
        ≡ with_children_of images_name (with_own_payloads (payloads_of images.now))
        (models_by_name nodes.old)) }
    ensures numbered { (names : List (List ℕ)) → IsNumberOf names data_name number
        → AreNumberedNodes names nodes.old → AreNumberedNodes names nodes.new }
{
    for node in nodes.iter_mut() {
        if has_images(node) {
            return set_images_payloads(alloc, node, number, images);
        }
    }
    Ok(())
}

/// Returns whether the image nodes are the children of this node, if it is one of the root.
fn has_images(node: &TreeNode<'_>) -> bool
    ensures { result ≡ bytes_eq node.now.name images_name }
{
    node.name == b"images".as_slice()
}

/// Does so for the children of the node that has the image nodes.
fn set_images_payloads<'a>(
    alloc: Global,
    node: &mut TreeNode<'a>,
    number: usize,
    images: &[Image<'a>],
) -> Result<(), AllocError>
    ensures set { OnOk result ((tree_by_name (below node.new)).children
        ≡ with_own_payloads (payloads_of images.now) (tree_by_name (below node.old)).children) }
    ensures same { node.new.own ≡ node.old.own }
    ensures name { node.new.name ≡ node.old.name }
    ensures numbered { (names : List (List ℕ)) → IsNumberOf names data_name number
        → IsNumberedTree names (below node.old) → IsNumberedTree names (below node.new) }
{
    set_each_payload(alloc, &mut node.children, number, images)
}

/// Does so for image nodes.
fn set_each_payload<'a>(
    alloc: Global,
    nodes: &mut [TreeNode<'a>],
    number: usize,
    images: &[Image<'a>],
) -> Result<(), AllocError>
    ensures set { OnOk result (models_by_name nodes.new
        ≡ with_own_payloads (payloads_of images.now) (models_by_name nodes.old)) }
    ensures numbered { (names : List (List ℕ)) → IsNumberOf names data_name number
        → AreNumberedNodes names nodes.old → AreNumberedNodes names nodes.new }
{
    for (index, node) in nodes.iter_mut().enumerate() {
        set_payload(alloc, node, number, payload_at(images, index))?;
    }
    Ok(())
}

/// Returns the payload of the image at an index, if there is one and it has a payload.
fn payload_at<'a>(images: &[Image<'a>], index: usize) -> Option<&'a [u8]>
    ensures { option_map (λ payload. payload.now) result
        ≡ first_or_none (drop index (payloads_of images.now)) }
{
    images.get(index)?.payload
}

/// Does so for an image node.
fn set_payload<'a>(
    alloc: Global,
    node: &mut TreeNode<'a>,
    number: usize,
    payload: Option<&'a [u8]>,
) -> Result<(), AllocError>
    ensures set { let given = option_map (λ payload. payload.now) payload.entry in
        OnOk result (tree_by_name (below node.new)
        ≡ with_own_payload given (tree_by_name (below node.old))) }
    ensures name { node.new.name ≡ node.old.name }
    ensures numbered { (names : List (List ℕ)) → IsNumberOf names data_name number
        → IsNumberedTree names (below node.old) → IsNumberedTree names (below node.new) }
{
    remove_payload(&mut node.properties);
    if let Some(payload) = payload {
        let property = TreeProperty {
            name: b"data",
            number,
            value: CowSlice::Borrowed(payload),
        };
        node.set_property(alloc, &[], property)?;
    }
    Ok(())
}

/// Takes out the properties that hold a payload or name its region.
fn remove_payload(properties: &mut Vec<TreeProperty<'_>>)
    ensures { tree_properties properties.new.items
        ≡ without_payload_names (tree_properties properties.old.items) }
{
    properties.retain(|property| !is_payload_name(property.name));
}
