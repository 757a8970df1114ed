//! Trees that can be changed, by the names of their properties.

ghost use Rattle.std.specs.Prelude.{◌≡◌, OnOk, option_map, is_some};
ghost use Rattle.std.specs.Cow.{cow_slice_items};
ghost use Rattle.bi_base.specs.Slices.{bytes_of};
ghost use Rattle.bi_tree.specs.Changes.{node_by_path, without_node_at};
ghost use Rattle.bi_tree.specs.TreeNodes.{below};
ghost use Rattle.bi_tree.specs.Trees.{AreNamesOfTree, tree_by_name, value_by_path};
ghost use Rattle.bi_tree.specs.Trees.{with_value_by_path, without_value_by_path};

use crate::names::number_name;
use crate::node::TreeNode;
use crate::properties::TreeProperty;
use std::alloc::{AllocError, Global};
use std::borrow::CowSlice;
use std::marker::Model;

/// A tree that can be changed. No node has two properties with the same name. Their order does not
/// count.
#[derive(Drop)]
pub struct Tree<'a> {
    /// The root.
    pub root: TreeNode<'a>,
    /// The names that properties may have, each once. A property gives the number of its name among
    /// them, so that properties can be put in order, and written, without comparing names.
    pub names: Vec<&'a [u8]>,
}

impl<'a> Model for Tree<'a> {
    ghost use Rattle.bi_base.specs.Slices.{bytes_of};
    ghost use Rattle.bi_blob.specs.Tree.{Root, PropertyMap};
    ghost use Rattle.bi_tree.specs.NodeCodes.{root_code};
    ghost use Rattle.bi_tree.specs.TreeNodes.{below};
    ghost use Rattle.bi_tree.specs.Trees.{AreNamesOfTree, tree_by_name};

    ghost Value = { Root PropertyMap };

    ghost coded = { root_code };

    ghost view = { λ tree. tree_by_name (below tree.root) };

    ghost invariant = { λ tree. AreNamesOfTree (bytes_of tree.names.items) (below tree.root) };
}

impl<'a> Tree<'a> {
    /// Returns the tree with this root. Requires: the names are distinct, no node has two
    /// properties with the same name, and each property gives the number of its name.
    pub fn new(root: TreeNode<'a>, names: Vec<&'a [u8]>) -> Tree<'a>
        requires { AreNamesOfTree (bytes_of names.items) (below root) }
        ensures { result ≡ tree_by_name (below root.entry) }
    {
        Tree { root, names }
    }

    /// Returns whether there is a node at a path.
    pub fn has_node(&self, path: &[&[u8]]) -> bool
        ensures { result ≡ is_some (node_by_path self.now (bytes_of path.now)) }
    {
        self.root.node(path).is_some()
    }

    /// Returns the value of a property of the node at a path. Returns None if there is none.
    pub fn value(&self, path: &[&[u8]], name: &[u8]) -> Option<&[u8]>
        ensures { option_map (λ value. value.now) result
            ≡ value_by_path self.now (bytes_of path.now) name.now }
    {
        match self.root.node(path) {
            Some(node) => node.value(name),
            None => None,
        }
    }

    /// Removes the node at a path, with all nodes below it. Without such a node, and for the path
    /// of the root, nothing changes.
    pub fn remove_node(&mut self, path: &[&[u8]])
        ensures { self.new ≡ without_node_at (bytes_of path.now) self.old }
    {
        self.root.remove_node(path);
    }

    /// Removes a property of the node at a path. Without such a node or property nothing changes.
    pub fn remove_property(&mut self, path: &[&[u8]], name: &[u8])
        ensures { self.new ≡ without_value_by_path (bytes_of path.now) name.now self.old }
    {
        self.root.remove_property(path, name);
    }

    /// Sets the value of a property of the node at a path, or adds the property. Nodes of the path
    /// that are not there are added, each as the last child of its parent.
    ///
    /// Fails if memory runs out. Some of those nodes may then have been added, and nothing else is
    /// changed.
    pub fn set_property(
        &mut self,
        alloc: Global,
        path: &[&'a [u8]],
        name: &'a [u8],
        value: CowSlice<'a, u8, Global>,
    ) -> Result<(), AllocError>
        ensures { OnOk result (self.new ≡ with_value_by_path (bytes_of path.entry.now)
            name.entry.now (cow_slice_items value.entry) self.old) }
    {
        let number = number_name(&mut self.names, name)?;
        let property = TreeProperty {
            name,
            number,
            value,
        };
        self.root.set_property(alloc, path, property)?;
        Ok(())
    }
}
