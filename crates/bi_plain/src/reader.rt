//! Reading a flattened image tree as a plain tree.

ghost use Rattle.std.specs.Prelude.{◌≡◌, ℕ, List, IfOk};
ghost use Rattle.bi_blob.specs.Tree.{EachOwn, tree_without_order, tree_without_places};
ghost use Rattle.bi_blob.specs.Lookups.{root_node};
ghost use Rattle.bi_fdt.specs.Content.{root_of};
ghost use Rattle.bi_fdt.specs.Order.{IsNumberOrder};
ghost use Rattle.bi_fdt.specs.Views.{node_of, table_of_node};
ghost use Rattle.bi_fit.specs.Content.{IsHeld, tree_of};
ghost use Rattle.bi_fit.specs.NormalNodes.{HasDistinctNames, alone};
ghost use Rattle.bi_tree.specs.Properties.{tree_properties};
ghost use Rattle.bi_plain.specs.Plain.{plain_root};
ghost use Rattle.bi_plain.specs.ReadNodes.{AreReadNodes, AreReadProperties, IsReadNode};
ghost use Rattle.bi_plain.specs.ReadNodes.{numbered_properties};

use crate::payloads::set_payloads;
use bi_fdt::{Blob, NodeRef, OrderedProperties, PropertyOrder};
use bi_fit::Fit;
use bi_tree::{Tree, TreeNode, TreeProperty};
use std::alloc::{AllocError, Global};
use std::borrow::CowSlice;

/// Returns a flattened image tree as a plain tree: each image node has its payload as the value of
/// `data`, and none of the other properties that name the region of a payload. Names, values and
/// payloads are borrowed. Takes n log n steps for n nodes and properties. Requires: the tree was
/// read, so its images are those of its blob.
///
/// Fails if memory runs out.
pub fn read_plain_tree<'a>(alloc: Global, fit: &Fit<'a>) -> Result<Tree<'a>, AllocError>
    requires { IsHeld fit.now }
    ensures { IfOk result (λ tree. tree ≡ plain_root (tree_of fit.now)) }
{
    let mut tree = read_tree(alloc, fit.blob())?;
    set_payloads(alloc, &mut tree, fit.images())?;
    Ok(tree)
}

/// Returns the tree of a blob. Fails if memory runs out. Requires: no node has two properties with
/// the same name.
fn read_tree<'a>(alloc: Global, blob: &Blob<'a>) -> Result<Tree<'a>, AllocError>
    requires { EachOwn HasDistinctNames (alone (root_node (root_of blob.now))) }
    ensures { IfOk result (λ tree.
        tree ≡ tree_without_order (tree_without_places (root_of blob.now))) }
{
    let mut names = Vec::with_capacity(alloc, blob.names().len())?;
    names.extend_from_slice(blob.names())?;
    let order = PropertyOrder::new(alloc, blob, &blob.name_numbers(alloc)?)?;
    let root = read_node(alloc, blob.root(), &order)?;
    Ok(Tree::new(root, names))
}

/// Returns a node of a blob with all nodes below it. Fails if memory runs out. Requires: the order
/// is that of the properties of the blob by the numbers of their names, and none of these nodes has
/// two properties with the same name.
#[cycle(nodes)]
fn read_node<'a>(
    alloc: Global,
    node: NodeRef<'a, '_>,
    order: &PropertyOrder,
) -> Result<TreeNode<'a>, AllocError>
    requires order { (names : List (List ℕ)) × IsNumberOrder names (table_of_node node) order.now }
    requires distinct { EachOwn HasDistinctNames (alone (node_of node)) }
    ensures { IfOk result (λ top. (names : List (List ℕ))
        → IsNumberOrder names (table_of_node node.entry) order.now
        → IsReadNode names (node_of node.entry) top) }
{
    let properties = read_properties(alloc, node, order)?;
    let children = read_children(alloc, node, order)?;
    Ok(TreeNode {
        name: node.name(),
        properties,
        children,
    })
}

/// Returns the children of a node, with all nodes below them. Fails if memory runs out. Requires:
/// the order is that of the properties of the blob by the numbers of their names, and no node below
/// this one has two properties with the same name.
#[cycle(nodes)]
fn read_children<'a>(
    alloc: Global,
    node: NodeRef<'a, '_>,
    order: &PropertyOrder,
) -> Result<Vec<TreeNode<'a>>, AllocError>
    requires order { (names : List (List ℕ)) × IsNumberOrder names (table_of_node node) order.now }
    requires distinct { EachOwn HasDistinctNames (node_of node).children }
    ensures { IfOk result (λ nodes. (names : List (List ℕ))
        → IsNumberOrder names (table_of_node node.entry) order.now
        → AreReadNodes names (node_of node.entry).children nodes.items) }
{
    let mut children = Vec::new(alloc);
    let mut next = node.first_child();
    while let Some(child) = next {
        children.push(read_node(alloc, child, order)?)?;
        next = child.next_sibling();
    }
    Ok(children)
}

/// Returns the properties of a node, each with the number of its name. Fails if memory runs out.
/// Requires: the order is that of the properties of the blob by the numbers of their names, and no
/// two properties of the node have the same name.
fn read_properties<'a>(
    alloc: Global,
    node: NodeRef<'a, '_>,
    order: &PropertyOrder,
) -> Result<Vec<TreeProperty<'a>>, AllocError>
    requires order { (names : List (List ℕ)) × IsNumberOrder names (table_of_node node) order.now }
    requires distinct { HasDistinctNames (node_of node).own }
    ensures { IfOk result (λ properties. (names : List (List ℕ))
        → IsNumberOrder names (table_of_node node.entry) order.now
        → AreReadProperties names (node_of node.entry).own (tree_properties properties.items)) }
{
    properties_of(alloc, node.property_count(), node.properties_in(order))
}

/// Returns these properties, each with the number that is its key. `count` is their number. Fails
/// if memory runs out.
fn properties_of<'a>(
    alloc: Global,
    count: usize,
    properties: OrderedProperties<'a, '_, '_>,
) -> Result<Vec<TreeProperty<'a>>, AllocError>
    ensures { IfOk result (λ all.
        tree_properties all.items ≡ numbered_properties properties.entry) }
{
    let mut all = Vec::with_capacity(alloc, count)?;
    for (number, property) in properties {
        all.push(TreeProperty {
            name: property.name,
            number,
            value: CowSlice::Borrowed(property.value),
        })?;
    }
    Ok(all)
}
