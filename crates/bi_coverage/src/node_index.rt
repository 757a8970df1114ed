//! An index of the nodes of a tree by their paths.

ghost use Rattle.std.specs.Prelude.{◌≡◌, ◌++◌, map, IfOk, OnOk};
ghost use Rattle.bi_blob.specs.Lookups.{siblings};
ghost use Rattle.bi_blob.specs.Tree.{AreProperties, IsTree, tree_without_places};
ghost use Rattle.bi_fdt.specs.Content.{root_of};
ghost use Rattle.bi_fdt.specs.Views.{node_of};
ghost use Rattle.bi_fit.specs.Judgement.{listed_names};
ghost use Rattle.bi_coverage.specs.Coverage.{recorded_end as recorded_end_of};
ghost use Rattle.bi_coverage.specs.NodeIndices.{path_end, HaveTokens};

use crate::child_numbers::number_names;
use crate::path_parts::split_path;
use crate::strings::names_end;
use bi_fdt::{Blob, NodeRef};
use bi_fit::nodes::Siblings;
use bi_fit::split_name;
use std::alloc::{AllocError, Global};
use std::collections::BTreeMap;
use std::marker::Model;

/// The nodes of the tree of a blob by their paths. The root has the number 0, and the children of
/// each node have the numbers after those of the nodes before them.
#[derive(Drop)]
pub(crate) struct NodeIndex<'a, 'b> {
    blob: &'b Blob<'a>,
    /// The numbers of the children of each node, by their names.
    children: Vec<BTreeMap<&'a [u8], usize>>,
    /// Where the last name of the properties of each node ends in the strings block.
    ends: Vec<usize>,
}

impl<'a, 'b> Model for NodeIndex<'a, 'b> {
    ghost use Rattle.bi_fdt.specs.Content.{Blob};
    ghost use Rattle.bi_coverage.specs.NodeIndices.{IsIndexOf};

    ghost Value = { Blob };

    ghost view = { λ index. index.blob.now };

    ghost invariant = { λ index. IsIndexOf index.blob.now index.children.items index.ends.items };
}

impl<'a, 'b> NodeIndex<'a, 'b> {
    /// Returns the index of the nodes of a blob. Takes n log n time in the number of nodes and the
    /// lengths of their names. Fails if memory runs out. Requires: the blob was read.
    pub(crate) fn new(alloc: Global, blob: &'b Blob<'a>) -> Result<NodeIndex<'a, 'b>, AllocError>
        requires is_tree { IsTree AreProperties (tree_without_places (root_of blob.now)) }
        requires tokens { HaveTokens blob.now.file (root_of blob.now) }
        ensures { IfOk result (λ index. index ≡ blob.entry.now) }
    {
        let mut nodes = Vec::new(alloc);
        let mut children = Vec::new(alloc);
        let mut ends = Vec::new(alloc);
        nodes.push(blob.root())?;
        'next_node: while children.len() < nodes.len() {
            let node = nodes[children.len()];
            let begin = nodes.len();
            add_children(&mut nodes, node)?;
            children.push(number_names(alloc, &nodes, begin)?)?;
            ends.push(names_end(blob.file(), node))?;
        }
        Ok(NodeIndex {
            blob,
            children,
            ends,
        })
    }

    /// Returns where the last name of the properties of the node with this path ends in the strings
    /// block, or 0 if no node has the path. Takes n log n time in the length of the path.
    fn end_at(&self, path: &[u8]) -> usize
        ensures { result ≡ path_end self.now.file (root_of self.now) path.now }
    {
        if path == b"/".as_slice() {
            return self.ends[0];
        }
        if path.is_empty() {
            return 0;
        }
        let mut number = 0;
        let mut rest = path;
        while let Some((name, later)) = split_path(rest) {
            let Some(child) = self.children[number].get(name) else {
                return 0;
            };
            number = *child;
            rest = later;
        }
        if rest.is_empty() {
            self.ends[number]
        } else {
            0
        }
    }

    /// Returns where the last name of the properties of the nodes with the paths that a value lists
    /// ends in the strings block.
    pub(crate) fn recorded_end(&self, value: &[u8]) -> usize
        ensures { result ≡ recorded_end_of self.now.file (root_of self.now)
            (listed_names value.now) }
    {
        let mut end = 0;
        let mut rest = value;
        while let Some((path, later)) = split_name(rest) {
            end = self.end_at(path).max(end);
            rest = later;
        }
        end
    }
}

/// Adds the children of a node to nodes. Fails if memory runs out.
fn add_children<'a, 'b>(
    nodes: &mut Vec<NodeRef<'a, 'b>>,
    node: NodeRef<'a, 'b>,
) -> Result<(), AllocError>
    ensures { OnOk result (map node_of nodes.new.items
        ≡ map node_of nodes.old.items ++ siblings (node_of node.entry).children) }
{
    for child in Siblings::children(node) {
        nodes.push(child)?;
    }
    Ok(())
}
