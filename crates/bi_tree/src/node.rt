//! Nodes of trees that can be changed.

ghost use Rattle.std.specs.Prelude.{◌≡◌, ◌<◌, ◌≤◌, ℕ, [], length, take, option_map};
ghost use Rattle.std.specs.Prelude.{OnOk, OnErr, IfOk};
ghost use Rattle.bi_base.specs.Slices.{bytes_of};
ghost use Rattle.bi_blob.specs.Tree.{none};
ghost use Rattle.bi_tree.specs.Changes.{child_named, node_by_path, with_change_at, with_new_node};
ghost use Rattle.bi_tree.specs.Changes.{with_node_at};
ghost use Rattle.bi_tree.specs.Changes.{without_node, without_node_at};
ghost use Rattle.bi_tree.specs.Properties.{tree_property, with_property_at, without_own_property};
ghost use Rattle.bi_tree.specs.TreeNodes.{below, index_named, names_of_models};
ghost use Rattle.bi_tree.specs.TreeNodes.{nodes_of_models};
ghost use Rattle.bi_tree.specs.Trees.{first_value};

use crate::properties::{TreeProperty, remove_value, set_value, value_of};
use std::alloc::{AllocError, Global};
use std::marker::Model;

/// A node with all nodes below it. Names are borrowed, not copied.
#[derive(Drop)]
pub struct TreeNode<'a> {
    /// The name.
    pub name: &'a [u8],
    /// The properties.
    pub properties: Vec<TreeProperty<'a>>,
    /// The children.
    pub children: Vec<TreeNode<'a>>,
}

impl<'a> Model for TreeNode<'a> {
    ghost use Rattle.std.proofs.Common.{arith};
    ghost use Rattle.bi_tree.specs.Properties.{tree_properties};
    ghost use Rattle.bi_tree.specs.TreeNodes.{TreeNodeModel, node_code, nodes_of_models, node_size};
    ghost use Rattle.bi_tree.specs.TreeNodes.{most_le_count};

    ghost Value = { TreeNodeModel };

    ghost coded = { node_code };

    ghost view = { λ node. record {
      name = node.name.now;
      own = tree_properties node.properties.items;
      children = nodes_of_models node.children.items;
    } };

    ghost size = { node_size };

    ghost size_decreases = { λ node is. omega (arith, most_le_count node.children.items) };
}

impl<'a> TreeNode<'a> {
    /// Returns a node with this name, without properties and children. Allocates nothing.
    pub fn new(alloc: Global, name: &'a [u8]) -> TreeNode<'a>
        ensures { result ≡ record { name = name.entry.now; own = []; children = none } }
    {
        TreeNode {
            name,
            properties: Vec::new(alloc),
            children: Vec::new(alloc),
        }
    }

    /// Returns the node at a path below this one. Returns None if there is none.
    pub fn node(&self, path: &[&[u8]]) -> Option<&TreeNode<'a>>
        ensures { option_map (λ node. below node.now) result
            ≡ node_by_path (below self.now) (bytes_of path.now) }
    {
        let [first, later @ ..] = path else {
            return Some(self);
        };
        self.child(*first)?.node(later)
    }

    /// Returns the first child with this name. Returns None if there is none.
    pub fn child(&self, name: &[u8]) -> Option<&TreeNode<'a>>
        ensures { option_map (λ child. below child.now) result
            ≡ child_named self.now.children name.now }
    {
        let index = find_child(&self.children, name);
        self.children.get(index)
    }

    /// Returns the value of the first property with this name. Returns None if there is none.
    pub fn value(&self, name: &[u8]) -> Option<&[u8]>
        ensures { option_map (λ value. value.now) result
            ≡ first_value self.now.own name.now }
    {
        value_of(&self.properties, name)
    }

    /// Puts a property into the node at a path below this one, in the place of the property with
    /// its name, or as the last. Nodes of the path that are not there are added, each as the last
    /// child of its parent.
    ///
    /// Fails if memory runs out. Some of those nodes may then have been added, and nothing else is
    /// changed.
    pub fn set_property(
        &mut self,
        alloc: Global,
        path: &[&'a [u8]],
        property: TreeProperty<'a>,
    ) -> Result<(), AllocError>
        ensures set { OnOk result (below self.new
            ≡ with_property_at (bytes_of path.entry.now) (tree_property property.entry)
            (below self.old)) }
        ensures failed { OnErr result ((count : ℕ) × (below self.new
            ≡ with_node_at [] (take count (bytes_of path.entry.now)) (below self.old))) }
        ensures name { self.new.name ≡ self.old.name }
    {
        let [first, later @ ..] = path else {
            set_value(&mut self.properties, property)?;
            return Ok(());
        };
        let index = child_or_new(alloc, &mut self.children, *first)?;
        self.children[index].set_property(alloc, later, property)?;
        Ok(())
    }

    /// Removes the node at a path below this one, with all nodes below it. Without such a node, and
    /// for the path of this one, nothing changes.
    pub fn remove_node(&mut self, path: &[&[u8]])
        ensures removed { below self.new
            ≡ without_node_at (bytes_of path.now) (below self.old) }
        ensures name { self.new.name ≡ self.old.name }
    {
        let [first, later @ ..] = path else {
            return;
        };
        if later.is_empty() {
            remove_child(&mut self.children, *first);
            return;
        }
        let index = find_child(&self.children, *first);
        if index < self.children.len() {
            self.children[index].remove_node(later);
        }
    }

    /// Removes a property of the node at a path below this one. Without such a node or property
    /// nothing changes.
    pub fn remove_property(&mut self, path: &[&[u8]], name: &[u8])
        ensures removed { below self.new
            ≡ with_change_at (bytes_of path.now) (without_own_property name.now)
            (below self.old) }
        ensures name { self.new.name ≡ self.old.name }
    {
        let [first, later @ ..] = path else {
            remove_value(&mut self.properties, name);
            return;
        };
        let index = find_child(&self.children, *first);
        if index < self.children.len() {
            self.children[index].remove_property(later, name);
        }
    }

    /// Returns the name.
    fn name(&self) -> &'a [u8]
        ensures { result.now ≡ self.now.name }
    {
        self.name
    }
}

/// Returns the index of the first of these nodes with this name. If there is none, a node without
/// properties and children is added as the last. Fails if memory runs out, and then changes
/// nothing.
fn child_or_new<'a>(
    alloc: Global,
    children: &mut Vec<TreeNode<'a>>,
    name: &'a [u8],
) -> Result<usize, AllocError>
    ensures nodes { OnOk result (nodes_of_models children.new.items
        ≡ with_new_node [] name.entry.now (nodes_of_models children.old.items)) }
    ensures index { IfOk result (λ index.
        index ≡ index_named name.entry.now (names_of_models children.new.items)) }
    ensures within { IfOk result (λ index. index < length children.new.items) }
    ensures failed { OnErr result (children.new.items ≡ children.old.items) }
{
    let index = find_child(children, name);
    if index == children.len() {
        children.push(TreeNode::new(alloc, name))?;
    }
    Ok(index)
}

/// Removes the first of these nodes with this name. If there is none, nothing changes.
fn remove_child(children: &mut Vec<TreeNode<'_>>, name: &[u8])
    ensures { nodes_of_models children.new.items
        ≡ without_node name.now (nodes_of_models children.old.items) }
{
    let index = find_child(children, name);
    if index < children.len() {
        let _ = children.remove(index);
    }
}

/// Returns the index of the first of these nodes with this name, or their number if there is none.
fn find_child(children: &[TreeNode<'_>], name: &[u8]) -> usize
    ensures index { result ≡ index_named name.now (names_of_models children.now) }
    ensures within { result ≤ length children.now }
{
    for (index, child) in children.iter().enumerate() {
        if child.name() == name {
            return index;
        }
    }
    children.len()
}
