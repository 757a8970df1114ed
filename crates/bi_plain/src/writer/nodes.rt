//! Adding the nodes of a tree to a document.
//!
//! Each function that adds to a document fails if memory runs out. What the document then has is
//! not specified.

ghost use Rattle.std.specs.Prelude.{◌≡◌, ◌<◌, ◌≤◌, length, map, slice_index_or, IfOk, OnOk};
ghost use Rattle.std.specs.Cmp.Lexicographic.{slice_cmp};
ghost use Rattle.std.specs.List.Sorted.{IsStrictlySortedBy};
ghost use Rattle.std.specs.Ordering.{nat_cmp};
ghost use Rattle.bi_blob.specs.Events.{NodeProperty, events};
ghost use Rattle.bi_blob.specs.Following.{MayHaveNextProperty, stage_of_events};
ghost use Rattle.bi_fit.specs.NormalNodes.{MayAdd, with_events};
ghost use Rattle.bi_lay.specs.Contents.{name_numbered, with_event};
ghost use Rattle.bi_tree.specs.Properties.{tree_properties};
ghost use Rattle.bi_tree.specs.TreeNodes.{below};
ghost use Rattle.bi_plain.specs.Ranked.{AreRanked, AreRankedNodes, alone_named, named_entries};
ghost use Rattle.bi_plain.specs.Ranked.{ranked_values, sorted_models, sorted_own, start_events};
ghost use Rattle.bi_plain.specs.Ranked.{values_by_rank};

use crate::memory::only_memory;
use bi_lay::{Doc, Value};
use bi_tree::{TreeNode, TreeProperty};
use std::alloc::{AllocError, Global};

/// Adds a node with this name instead of its own, with all nodes below it, as a child of the
/// innermost open node or as the root. `ranks` are by the numbers of names. Requires: the names of
/// the document are in byte order, each once, and have these ranks; no node has two properties with
/// the same name; and the nodes may come next in the document.
pub(super) fn add_node<'a, 'b>(
    alloc: Global,
    doc: &mut Doc<'b>,
    name: &'b [u8],
    node: &'b TreeNode<'a>,
    ranks: &[usize],
) -> Result<(), AllocError>
where
    'a: 'b,
    requires in_order { IsStrictlySortedBy (slice_cmp nat_cmp) doc.old.names }
    requires ranked { AreRankedNodes doc.old.names ranks.now
        (alone_named name.now (below node.now)) }
    requires may { MayAdd doc.old
        (events (sorted_models (alone_named name.now (below node.now)))) }
    ensures added { OnOk result (doc.new ≡ with_events doc.old
        (events (sorted_models (alone_named name.entry.now (below node.entry.now))))) }
{
    begin_node(alloc, doc, name, &node.properties, ranks)?;
    for child in &node.children {
        add_node(alloc, doc, child.name, child, ranks)?;
    }
    doc.end();
    Ok(())
}

/// Begins a node with this name and these properties, as a child of the innermost open node or as
/// the root. Requires: the names of the document are in byte order, each once, and have these
/// ranks; no two of the properties have the same name; and the node and they may come next in the
/// document.
fn begin_node<'b>(
    alloc: Global,
    doc: &mut Doc<'b>,
    name: &'b [u8],
    properties: &'b [TreeProperty<'_>],
    ranks: &[usize],
) -> Result<(), AllocError>
    requires in_order { IsStrictlySortedBy (slice_cmp nat_cmp) doc.old.names }
    requires ranked { AreRanked doc.old.names ranks.now (tree_properties properties.now) }
    requires may { MayAdd doc.old (start_events name.now (tree_properties properties.now)) }
    ensures added { OnOk result (doc.new ≡ with_events doc.old
        (start_events name.entry.now (tree_properties properties.entry.now))) }
{
    only_memory(doc.begin(name))?;
    add_properties(alloc, doc, properties, ranks)
}

/// Adds properties to the innermost open node, in byte order of their names. Requires: the names of
/// the document are in byte order, each once, and have these ranks; no two of the properties have
/// the same name; and they may come next in the document.
fn add_properties<'b>(
    alloc: Global,
    doc: &mut Doc<'b>,
    properties: &'b [TreeProperty<'_>],
    ranks: &[usize],
) -> Result<(), AllocError>
    requires in_order { IsStrictlySortedBy (slice_cmp nat_cmp) doc.old.names }
    requires ranked { AreRanked doc.old.names ranks.now (tree_properties properties.now) }
    requires may { MayAdd doc.old
        (map NodeProperty (sorted_own (tree_properties properties.now))) }
    ensures added { OnOk result (doc.new ≡ with_events doc.old
        (map NodeProperty (sorted_own (tree_properties properties.entry.now)))) }
{
    let mut entries = ranked_entries(alloc, properties, ranks)?;
    entries.sort_unstable();
    add_entries(doc, &entries)
}

/// Returns the rank and the value of each of these properties. Fails if memory runs out.
fn ranked_entries<'b>(
    alloc: Global,
    properties: &'b [TreeProperty<'_>],
    ranks: &[usize],
) -> Result<Vec<(usize, &'b [u8])>, AllocError>
    ensures { IfOk result (λ entries. ranked_values entries.items
        ≡ values_by_rank ranks.now (tree_properties properties.entry.now)) }
{
    let mut entries = Vec::with_capacity(alloc, properties.len())?;
    for property in properties {
        entries.push((rank_at(ranks, property.number), property.value.as_slice()))?;
    }
    Ok(entries)
}

/// Returns the rank at a number, or 0 if there is none.
fn rank_at(ranks: &[usize], number: usize) -> usize
    ensures { result ≡ slice_index_or ranks.now number 0 }
{
    ranks.get(number).copied().unwrap_or(0)
}

/// Adds properties to the innermost open node. Each is given by the rank of its name, and its
/// value. Requires: they may come next in the document.
fn add_entries<'a>(doc: &mut Doc<'a>, entries: &[(usize, &'a [u8])]) -> Result<(), AllocError>
    requires { MayAdd doc.old (map NodeProperty (named_entries doc.old.names entries.now)) }
    ensures { OnOk result (doc.new ≡ with_events doc.old
        (map NodeProperty (named_entries doc.old.names entries.now))) }
{
    for (rank, value) in entries {
        only_memory(doc.property_numbered(*rank, Value::Slice(*value)))?;
    }
    Ok(())
}
