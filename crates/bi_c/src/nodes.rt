//! The nodes of a flattened image tree.

ghost use Rattle.std.specs.Prelude.{◌≡◌, length, map};
ghost use Rattle.std.specs.Option.{option_map};
ghost use Rattle.bi_blob.specs.Lookups.{siblings_from};
ghost use Rattle.bi_fdt.specs.Views.{node_of};
ghost use Rattle.bi_c.specs.Answers.{FillsBuffer, IsThisOutput};
ghost use Rattle.bi_c.specs.NodeElements.{AreChildRegions, IsNodeFailure};
ghost use Rattle.bi_c.specs.TreeRegions.{children_of_found, name_region_of};

use crate::answer::{Answer, DONE, NO_ROOM, answer_with, fail};
use crate::argument::wrong_limit;
use crate::arguments::limits_of;
use crate::failure::{Failure, NO_NODE, failure_of};
use crate::paths::node_at;
use crate::region::Region;
use bi_fdt::NodeRef;
use bi_fit::Fit;
use std::alloc::Global;

/// Writes where the names of the children of the node at a path of a flattened image tree are, in
/// their order, to the beginning of an array. Returns the status.
#[unsafe(no_mangle)]
pub extern "C" fn bootimg_children(
    alloc: Global,
    file: &[u8],
    path: &[u8],
    limit: u32,
    depth: u32,
    names: &mut [Region],
    answer: &mut Answer,
) -> u32
    ensures { FillsBuffer (AreChildRegions limit depth file.now path.now)
        (IsNodeFailure limit depth file.now path.now) names.old names.new answer.new result }
{
    let Some(limits) = limits_of(limit, depth) else {
        return fail(Failure::WrongArgument(wrong_limit(limit), 0), answer);
    };
    let fit = match Fit::read(alloc, file, limits) {
        Ok(fit) => fit,
        Err(error) => return fail(failure_of(error), answer),
    };
    match node_at(&fit, path) {
        Some(node) => fill_children(Some(node), 0, names, answer),
        None => fail(Failure::NotFound(NO_NODE, 0), answer),
    }
}

/// Writes where the name of each child of a node is to an array, and the answer with this number.
/// There are no children if there is no node. Returns the status.
pub(crate) fn fill_children(
    parent: Option<NodeRef<'_, '_>>,
    value: usize,
    names: &mut [Region],
    answer: &mut Answer,
) -> u32
    ensures { FillsBuffer (IsThisOutput
        (map name_region_of (children_of_found (option_map node_of parent.entry))) value)
        (λ failure. ⊥) names.old names.new answer.new result }
{
    let count = child_count(parent);
    *answer = answer_with(count, value);
    if names.len() < count {
        return NO_ROOM;
    }
    let mut index = 0;
    let mut next = first_child(parent);
    while let Some(node) = next {
        names[index] = name_region(node);
        index += 1;
        next = node.next_sibling();
    }
    DONE
}

/// Returns the number of children of a node, if there is one.
fn child_count(parent: Option<NodeRef<'_, '_>>) -> usize
    ensures { result ≡ length (children_of_found (option_map node_of parent.entry)) }
{
    match parent {
        Some(node) => node.child_count(),
        None => 0,
    }
}

/// Returns the first child of a node, if there is one.
fn first_child<'a, 'b>(parent: Option<NodeRef<'a, 'b>>) -> Option<NodeRef<'a, 'b>>
    ensures { siblings_from (option_map node_of result)
        ≡ children_of_found (option_map node_of parent.entry) }
{
    match parent {
        Some(node) => node.first_child(),
        None => None,
    }
}

/// Returns where the name of a node is.
pub(crate) fn name_region(node: NodeRef<'_, '_>) -> Region
    ensures { result ≡ name_region_of (node_of node.entry) }
{
    Region {
        offset: node.place() as usize + 4,
        size: node.name().len(),
    }
}
