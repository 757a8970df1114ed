//! The signature nodes of a flattened image tree.

ghost use Rattle.std.specs.Prelude.{◌≡◌, ◌<◌, ◌^◌, length, flat_map};
ghost use Rattle.bi_blob.specs.Lookups.{siblings};
ghost use Rattle.bi_fdt.specs.Views.{node_of};
ghost use Rattle.bi_fit.specs.Content.{tree_of};
ghost use Rattle.bi_fit.specs.Judgement.{signature_count};
ghost use Rattle.bi_fit.specs.HashNodes.{file_signatures};
ghost use Rattle.bi_fit.specs.ChildNodes.{children_of_each};
ghost use Rattle.bi_fit.specs.Siblings.{siblings_left};

use crate::fit::Fit;
use crate::nodes::Siblings;
use bi_fdt::NodeRef;

impl<'a> Fit<'a> {
    /// Returns the number of signature nodes: children of image nodes and of configuration nodes
    /// with a name that begins with `signature`. Takes time linear in the number of these children.
    pub fn signature_count(&self) -> usize
        ensures { result ≡ signature_count (tree_of self.now) }
    {
        self.give_invariant();
        count_signatures(self.image_nodes()) + count_signatures(self.configuration_nodes())
    }
}

/// Returns the number of signature nodes among the children of these nodes. Requires: these nodes
/// have fewer than 2^31 children together.
fn count_signatures(parents: Siblings) -> usize
    requires { length (children_of_each (siblings_left parents)) < 2 ^ 31 }
    ensures count { result ≡ length (flat_map file_signatures (siblings_left parents.entry)) }
    ensures small { result < 2 ^ 31 }
{
    let mut count = 0;
    for parent in parents {
        count += count_children(parent);
    }
    count
}

/// Returns the number of signature nodes among the children of a node. Requires: the node has fewer
/// than 2^31 children.
fn count_children(parent: NodeRef) -> usize
    requires { length (siblings (node_of parent).children) < 2 ^ 31 }
    ensures { result ≡ length (file_signatures (node_of parent.entry)) }
{
    Siblings::children(parent)
        .filter(|child| child.name().starts_with(b"signature"))
        .count()
}
