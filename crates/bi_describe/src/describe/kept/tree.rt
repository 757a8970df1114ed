//! What stays of a flattened image tree.

ghost use Rattle.std.specs.Prelude.{◌≡◌, ◌↔◌, IfOk, IsTrue, None, OnOk, Option, Some, []};
ghost use Rattle.std.specs.Prelude.{if◌then◌else◌, map};
ghost use Rattle.std.specs.Option.{option_map};
ghost use Rattle.bi_fit.specs.ImageTree.{ImageTree};
ghost use Rattle.bi_common.specs.LineTokens.{tokens_of_lines};
ghost use Rattle.bi_describe.specs.DescribedImages.{HoldsDescribedTree};
ghost use Rattle.bi_describe.specs.Ignoring.{is_node_ignored as is_node_out};
ghost use Rattle.bi_describe.specs.KeptEntries.{kept_entries as kept_of};
ghost use Rattle.bi_describe.specs.MadeWords.{ignored_words};
ghost use Rattle.bi_describe.specs.ReadDescription.{root_lines};
ghost use Rattle.bi_describe.specs.KeptImages.{IsKeptTree};
ghost use Rattle.bi_describe.specs.DeepDescriptions.{lines_with_inside};
ghost use Rattle.bi_describe.specs.Ignoring.{PayloadPlace as Place};
ghost use Rattle.bi_describe.specs.MadeInsides.{HoldInsides, is_one_of_places, shown_by};
ghost use Rattle.bi_describe.specs.OpenedEntries.{entries_unless_opened};
ghost use Rattle.bi_describe.specs.OpenedPayloads.{unless_opened};
ghost use Rattle.bi_describe.specs.ReducedMeanings.{OfReducedTree, ReducedTree, reduced_tree};
ghost use Rattle.bi_describe.specs.ReducedMeanings.{reduced_tree_lines};
ghost use Rattle.bi_describe.specs.TreeEntries.{as_entry};

use super::entries::{are_same_entries, are_same_unless_opened, kept_entries};
use crate::describe::deep::put_tree_with_inside;
use crate::describe::deep_pen::DeepPen;
use crate::describe::entries::Entry;
use crate::describe::fit::{DescribedFit, put_head};
use crate::describe::insides::Insides;
use crate::describe::lines::{most_open, put_tree};
use crate::ignored::{Ignored, PayloadPlace, is_node_ignored};
use bi_common::common_lines::put_reservation_lines;
use bi_common::lines::LinePen;
use bi_fdt::Blob;
use std::alloc::{AllocError, Global};

/// What stays of a flattened image tree.
#[derive(Drop)]
pub(crate) struct KeptFit<'a, 'b> {
    blob: &'b Blob<'a>,
    /// The entries of the tree, unless its root is left out.
    entries: Option<Vec<Entry<'a>>>,
}

impl<'a, 'b> KeptFit<'a, 'b> {
    /// Returns what stays of a tree.
    ///
    /// Fails only if memory runs out.
    pub(super) fn new(
        alloc: Global,
        fit: &DescribedFit<'a, 'b>,
        words: &[Ignored],
    ) -> Result<KeptFit<'a, 'b>, AllocError>
        ensures { IfOk result (λ made. (tree : ImageTree) → HoldsDescribedTree tree fit.now
            → IsKeptTree (reduced_tree (ignored_words words.now) tree) made) }
    {
        let entries = kept_root(alloc, &fit.entries, words)?;
        Ok(KeptFit {
            blob: fit.blob,
            entries,
        })
    }

    /// Puts the lines.
    ///
    /// Fails only if memory runs out.
    pub(super) fn put_lines<L: LinePen>(&self, alloc: Global, pen: &mut L) -> Result<(), AllocError>
        ensures { OnOk result ((tree : ReducedTree) → IsKeptTree tree self.now
            → L.puts pen.old (tokens_of_lines (reduced_tree_lines tree)) pen.new) }
    {
        put_head(self.blob.boot_cpu(), pen);
        put_reservation_lines(self.blob, pen);
        match &self.entries {
            Some(entries) => {
                put_entries(alloc, entries, pen)?;
                Ok(())
            }
            None => Ok(()),
        }
    }

    /// Puts the lines, but for those of these payloads, and those of what is inside the payloads.
    ///
    /// Fails only if memory runs out.
    pub(super) fn put_deep_lines<L: DeepPen>(
        &self,
        alloc: Global,
        insides: &mut Insides,
        opened: &[&PayloadPlace],
        pen: &mut L,
    ) -> Result<(), AllocError>
        ensures { OnOk result ((tree : ReducedTree) (trees : Place → Option ReducedTree)
            → IsKeptTree tree self.now → HoldInsides trees insides.old
            → L.puts pen.old (tokens_of_lines (lines_with_inside (shown_by trees opened.now)
            (reduced_tree_lines tree))) pen.new) }
    {
        put_head(self.blob.boot_cpu(), pen);
        put_reservation_lines(self.blob, pen);
        match &self.entries {
            Some(entries) => {
                put_deep_entries(alloc, entries, insides, opened, pen)?;
                Ok(())
            }
            None => Ok(()),
        }
    }

    /// Returns whether what stays of two trees is the same but for these payloads. The others are
    /// compared byte by byte.
    pub(super) fn is_same_unless_opened(
        &self,
        other: &KeptFit<'_, '_>,
        opened: &[&PayloadPlace],
    ) -> bool
        ensures { (tree others : ReducedTree) → IsKeptTree tree self.now
            → IsKeptTree others other.now → IsTrue result
            ↔ (unless_opened (is_one_of_places opened.now) (OfReducedTree tree)
            ≡ unless_opened (is_one_of_places opened.now) (OfReducedTree others)) }
    {
        have_same_heads(self.blob, other.blob)
            && have_same_trees_unless_opened(&self.entries, &other.entries, opened)
    }

    /// Returns whether what stays of two trees is the same. Payloads are compared byte by byte.
    pub(super) fn is_same(&self, other: &KeptFit<'_, '_>) -> bool
        ensures { (tree others : ReducedTree) → IsKeptTree tree self.now
            → IsKeptTree others other.now → IsTrue result ↔ (tree ≡ others) }
    {
        have_same_heads(self.blob, other.blob) && have_same_trees(&self.entries, &other.entries)
    }
}

/// Returns the entries of a tree that stay, unless its root is left out.
///
/// Fails only if memory runs out.
pub(in crate::describe) fn kept_root<'a>(
    alloc: Global,
    entries: &[Entry<'a>],
    words: &[Ignored],
) -> Result<Option<Vec<Entry<'a>>>, AllocError>
    ensures { IfOk result (λ kept. option_map (λ entries. map as_entry entries.items) kept
        ≡ (if is_node_out (ignored_words words.now) [] then None
        else Some (kept_of (ignored_words words.now) [] 0 (map as_entry entries.now)))) }
{
    if is_node_ignored(words, &[]) {
        return Ok(None);
    }
    Ok(Some(kept_entries(alloc, entries, words)?))
}

/// Puts the lines of a tree with these entries, the root first.
///
/// Fails only if memory runs out.
fn put_entries<L: LinePen>(alloc: Global, entries: &[Entry], pen: &mut L) -> Result<(), AllocError>
    ensures { OnOk result (L.puts pen.old
        (tokens_of_lines (root_lines (map as_entry entries.now))) pen.new) }
{
    let mut names = vec![in alloc; b"".as_slice(); most_open(entries)]?;
    put_tree(entries, &mut names, pen);
    Ok(())
}

/// Puts the lines of a tree with these entries, the root first, but for those of these payloads,
/// and those of what is inside the payloads.
///
/// Fails only if memory runs out.
fn put_deep_entries<L: DeepPen>(
    alloc: Global,
    entries: &[Entry],
    insides: &mut Insides,
    opened: &[&PayloadPlace],
    pen: &mut L,
) -> Result<(), AllocError>
    ensures { OnOk result ((trees : Place → Option ReducedTree) → HoldInsides trees insides.old
        → L.puts pen.old (tokens_of_lines (lines_with_inside (shown_by trees opened.now)
        (root_lines (map as_entry entries.now)))) pen.new) }
{
    let mut names = vec![in alloc; b"".as_slice(); most_open(entries)]?;
    put_tree_with_inside(entries, &mut names, insides, opened, pen);
    Ok(())
}

/// Returns whether two blobs have the same boot processor and the same memory reservations.
pub(in crate::describe) fn have_same_heads(one: &Blob, other: &Blob) -> bool
    ensures { IsTrue result ↔ ((one.now.cpu ≡ other.now.cpu)
        × (one.now.reservations ≡ other.now.reservations)) }
{
    if one.boot_cpu() != other.boot_cpu() {
        return false;
    }
    have_same_reservations(one, other)
}

/// Returns whether two blobs have the same memory reservations in the same order.
fn have_same_reservations(one: &Blob, other: &Blob) -> bool
    ensures { IsTrue result ↔ (one.now.reservations ≡ other.now.reservations) }
{
    if one.reservation_count() != other.reservation_count() {
        return false;
    }
    for index in 0..one.reservation_count() {
        if one.reservation(index) != other.reservation(index) {
            return false;
        }
    }
    true
}

/// Returns whether there are two trees with the same entries, or none.
fn have_same_trees(one: &Option<Vec<Entry>>, other: &Option<Vec<Entry>>) -> bool
    ensures { IsTrue result ↔ (option_map (λ entries. map as_entry entries.items) one.now
        ≡ option_map (λ entries. map as_entry entries.items) other.now) }
{
    match (one, other) {
        (Some(one), Some(other)) => are_same_entries(one, other),
        (None, None) => true,
        _ => false,
    }
}

/// Returns whether there are two trees with the same entries but for these payloads, or none.
fn have_same_trees_unless_opened(
    one: &Option<Vec<Entry>>,
    other: &Option<Vec<Entry>>,
    opened: &[&PayloadPlace],
) -> bool
    ensures { IsTrue result ↔ (option_map (λ entries. entries_unless_opened
        (is_one_of_places opened.now) [] (map as_entry entries.items)) one.now
        ≡ option_map (λ entries. entries_unless_opened
        (is_one_of_places opened.now) [] (map as_entry entries.items)) other.now) }
{
    match (one, other) {
        (Some(one), Some(other)) => are_same_unless_opened(one, other, opened),
        (None, None) => true,
        _ => false,
    }
}
