//! The images with their nodes, and the configuration nodes, of a flattened image tree.

ghost use Rattle.std.specs.Prelude.{◌≡◌, length};
ghost use Rattle.std.specs.Option.{option_map};
ghost use Rattle.bi_blob.specs.Lookups.{siblings, siblings_from, node_named};
ghost use Rattle.bi_fdt.specs.Content.{root_of};
ghost use Rattle.bi_fdt.specs.Views.{node_of};
ghost use Rattle.bi_fit.specs.Names.{configurations_name};
ghost use Rattle.bi_fit.specs.HashNodes.{file_images, file_configurations};

use crate::fit::Fit;
use crate::image::Image;
use bi_fdt::NodeRef;

/// An iterator over sibling nodes, in their order in the file.
#[derive(Drop)]
pub struct Siblings<'a, 'b> {
    next: Option<NodeRef<'a, 'b>>,
}

impl<'a, 'b> Siblings<'a, 'b> {
    ghost use Rattle.bi_fit.specs.Siblings.{siblings_left};

    /// Returns the children of a node.
    pub fn children(parent: NodeRef<'a, 'b>) -> Siblings<'a, 'b>
        ensures { siblings_left result ≡ siblings (node_of parent.entry).children }
    {
        Siblings {
            next: parent.first_child(),
        }
    }
}

impl<'a, 'b> Iterator for Siblings<'a, 'b> {
    ghost use Rattle.std.specs.Iterator.{YieldsFirstBy, item_count};
    ghost use Rattle.bi_fit.specs.Siblings.{siblings_left};

    type Item = NodeRef<'a, 'b>;

    ghost next_gives = { YieldsFirstBy node_of siblings_left };

    ghost remaining = { item_count siblings_left };

    fn next(&mut self) -> Option<NodeRef<'a, 'b>> {
        let node = self.next?;
        self.next = node.next_sibling();
        Some(node)
    }
}

/// An iterator over images with their nodes, in their order in the file.
#[derive(Drop)]
pub struct ImagesWithNodes<'a, 'b> {
    next: Option<NodeRef<'a, 'b>>,
    images: &'b [Image<'a>],
    // Each node that is left has an image.
    ghost paired: { length (siblings_from (option_map node_of next)) ≡ length images.now },
}

impl<'a, 'b> ImagesWithNodes<'a, 'b> {
    ghost use Rattle.bi_fdt.specs.Views.{table_of_node};
    ghost use Rattle.bi_fit.specs.ImagesWithNodes.{AreAllLeft};

    /// Returns the children of a node with these images. Requires: there are as many.
    pub(crate) fn children(
        parent: NodeRef<'a, 'b>,
        images: &'b [Image<'a>],
    ) -> ImagesWithNodes<'a, 'b>
        requires { length (siblings (node_of parent).children) ≡ length images.now }
        ensures { AreAllLeft parent.entry images.entry.now result }
    {
        ImagesWithNodes {
            next: parent.first_child(),
            images,
        }
    }
}

impl<'a, 'b> Iterator for ImagesWithNodes<'a, 'b> {
    ghost use Rattle.std.specs.Iterator.{item_count};
    ghost use Rattle.bi_fit.specs.ImagesWithNodes.{GivesNext, nodes_left};

    type Item = (NodeRef<'a, 'b>, &'b Image<'a>);

    ghost next_gives = { GivesNext };

    ghost remaining = { item_count nodes_left };

    fn next(&mut self) -> Option<(NodeRef<'a, 'b>, &'b Image<'a>)> {
        let node = self.next?;
        let [image, later @ ..] = self.images else {
            unreachable!();
        };
        self.next = node.next_sibling();
        self.images = later;
        Some((node, image))
    }
}

impl<'a> Fit<'a> {
    ghost use Rattle.bi_fit.specs.ImagesWithNodes.{models_left, nodes_left};
    ghost use Rattle.bi_fit.specs.Siblings.{siblings_left};

    /// Returns the images with their nodes, in their order in the file.
    pub fn images_with_nodes<'b>(&'b self) -> ImagesWithNodes<'a, 'b>
        ensures nodes { nodes_left result ≡ siblings (file_images self.now.blob) }
        ensures images { models_left result ≡ self.now.images }
    {
        self.give_invariant();
        ImagesWithNodes::children(self.images_node(), self.images())
    }

    /// Returns the image nodes, in their order in the file.
    pub fn image_nodes<'b>(&'b self) -> Siblings<'a, 'b>
        ensures { siblings_left result ≡ siblings (file_images self.now.blob) }
    {
        Siblings::children(self.images_node())
    }

    /// Returns the node `/configurations`. Returns None if there is no such node.
    pub(crate) fn configurations_node<'b>(&'b self) -> Option<NodeRef<'a, 'b>>
        ensures { option_map node_of result
            ≡ node_named (root_of self.now.blob).children configurations_name }
    {
        self.blob().root().child(b"configurations")
    }

    /// Returns the configuration nodes, in their order in the file.
    pub fn configuration_nodes<'b>(&'b self) -> Siblings<'a, 'b>
        ensures { siblings_left result ≡ siblings (file_configurations self.now.blob) }
    {
        match self.configurations_node() {
            Some(node) => Siblings::children(node),
            None => Siblings { next: None },
        }
    }

    /// Returns the configuration node with the given name. Returns None if there is no such node.
    pub(crate) fn configuration_node<'b>(&'b self, name: &[u8]) -> Option<NodeRef<'a, 'b>>
        ensures { option_map node_of result
            ≡ node_named (file_configurations self.now.blob) name.now }
    {
        self.configurations_node()?.child(name)
    }
}
