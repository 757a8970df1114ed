//! The names of the properties of a tree that is written.

ghost use Rattle.std.specs.Prelude.{◌≡◌, ◌<◌, ◌≤◌, length, flat_map, replicate, false};
ghost use Rattle.std.specs.Prelude.{IfOk, IfErr, OnOk};
ghost use Rattle.std.specs.List.{AllByRecursion};
ghost use Rattle.bi_base.specs.Errors.{IsFaultOrNoMemory};
ghost use Rattle.bi_base.specs.Reading.{too_large};
ghost use Rattle.bi_base.specs.Slices.{bytes_of};
ghost use Rattle.bi_blob.specs.Tree.{as_nodes};
ghost use Rattle.bi_fit.specs.LongNames.{name_if_long};
ghost use Rattle.bi_tree.specs.Properties.{tree_properties};
ghost use Rattle.bi_tree.specs.TreeNodes.{below};
ghost use Rattle.bi_tree.specs.Trees.{AreNamesOfTree};
ghost use Rattle.bi_plain.specs.Ranked.{HasRanks, HaveLongNames, all_numbers, alone_named};
ghost use Rattle.bi_plain.specs.Ranked.{marked_names, marked_numbers, own_numbers, with_marks};

use bi_base::{Cause, Error, Fault, refuse};
use bi_fdt::{NameRanks, keys_at, rank_names};
use bi_tree::{Tree, TreeNode, TreeProperty};
use std::alloc::{AllocError, Global};

/// The length from which on a name is long.
const LEAST_LENGTH: usize = 64;

/// The names of the properties that a tree has, and the number of each of its names among them.
#[derive(Drop)]
struct UsedNames<'a> {
    /// The names, each once.
    names: Vec<&'a [u8]>,
    /// The index of each name of the tree among these, if a property has it. Else any number.
    numbers: Vec<usize>,
}

/// Returns the names of the properties that a node has, with all nodes below it, in byte order, and
/// the rank of each by its number. The long names (of 64 bytes or more) are together no longer than
/// the limit, which is checked before they are compared. Requires: the names are distinct, no node
/// has two properties with the same name, and each property gives the number of its name.
///
/// Errors: TooLarge at the limit, only if the long names of the properties are together longer than
/// that; OutOfMemory.
pub(super) fn ranked_names<'a>(
    alloc: Global,
    root: &TreeNode<'_>,
    names: &[&'a [u8]],
    limit: u32,
) -> Result<NameRanks<'a>, Error>
    requires { AreNamesOfTree (bytes_of names.now) (below root.now) }
    ensures ranks { IfOk result (HasRanks (as_nodes (below root.now))) }
    ensures failed { IfErr result (IsFaultOrNoMemory
        (λ fault. (fault ≡ too_large limit) × HaveLongNames limit (as_nodes (below root.now)))) }
{
    let used = used_names(alloc, root, names)?;
    check_long_names(&used.names, limit)?;
    let ranked = rank_names(alloc, &used.names)?;
    let ranks = keys_at(alloc, &ranked.ranks, &used.numbers)?;
    Ok(NameRanks {
        names: ranked.names,
        ranks,
    })
}

/// Returns those of these names that properties of a node have, or of a node below it. Fails if
/// memory runs out. Requires: each of these properties gives the index of its name.
fn used_names<'a>(
    alloc: Global,
    root: &TreeNode<'_>,
    names: &[&'a [u8]],
) -> Result<UsedNames<'a>, AllocError>
    requires { AllByRecursion (λ number. number < length names.now)
        (all_numbers (as_nodes (below root.now))) }
    ensures names { IfOk result (λ used. let marks = with_marks
        (all_numbers (as_nodes (below root.now))) (replicate (length names.now) false) in
        bytes_of used.names.items ≡ marked_names (bytes_of names.now) marks) }
    ensures numbers { IfOk result (λ used. let marks = with_marks
        (all_numbers (as_nodes (below root.now))) (replicate (length names.now) false) in
        used.numbers.items ≡ marked_numbers 0 (bytes_of names.now) marks) }
{
    let mut marks = vec![in alloc; false; names.len()]?;
    mark_node(root, &mut marks);
    keep_marked(alloc, names, &marks)
}

/// Sets the marks at the numbers of the names of the properties of a node, and of those of all
/// nodes below it. Requires: there is a mark for each.
fn mark_node(node: &TreeNode<'_>, marks: &mut [bool])
    requires { AllByRecursion (λ number. number < length marks.old)
        (all_numbers (as_nodes (below node.now))) }
    ensures { marks.new ≡ with_marks (all_numbers (as_nodes (below node.now))) marks.old }
{
    mark_properties(&node.properties, marks);
    for child in &node.children {
        mark_node(child, marks);
    }
}

/// Sets the marks at the numbers of the names of these properties. Requires: there is a mark for
/// each.
fn mark_properties(properties: &[TreeProperty<'_>], marks: &mut [bool])
    requires { AllByRecursion (λ number. number < length marks.old)
        (own_numbers (tree_properties properties.now)) }
    ensures { marks.new ≡ with_marks (own_numbers (tree_properties properties.now)) marks.old }
{
    for property in properties {
        marks[property.number] = true;
    }
}

/// Returns the names that have a mark. Fails if memory runs out. Requires: there are as many marks
/// as names.
fn keep_marked<'a>(
    alloc: Global,
    names: &[&'a [u8]],
    marks: &[bool],
) -> Result<UsedNames<'a>, AllocError>
    requires { length marks.now ≡ length names.now }
    ensures names { IfOk result (λ used.
        bytes_of used.names.items ≡ marked_names (bytes_of names.now) marks.now) }
    ensures numbers { IfOk result (λ used.
        used.numbers.items ≡ marked_numbers 0 (bytes_of names.now) marks.now) }
{
    let mut kept = Vec::new(alloc);
    let mut numbers = Vec::with_capacity(alloc, names.len())?;
    for (index, name) in names.iter().enumerate() {
        numbers.push(kept.len())?;
        if marks[index] {
            kept.push(*name)?;
        }
    }
    Ok(UsedNames {
        names: kept,
        numbers,
    })
}

/// Checks that the long names among these are together no longer than a limit. Reads no byte of a
/// name, and takes time linear in the number of names.
///
/// Error: TooLarge at the limit, if they are longer.
fn check_long_names(names: &[&[u8]], limit: u32) -> Result<(), Fault>
    ensures fault { let long = flat_map name_if_long (bytes_of names.now) in
        IfErr result (λ fault. (fault ≡ too_large limit) × (limit < length long)) }
{
    let mut room = limit as usize;
    for name in names {
        let length = long_name(name).len();
        if length > room {
            return refuse(Cause::TooLarge, limit);
        }
        room -= length;
    }
    Ok(())
}

/// Returns a name of 64 bytes or more, and no bytes for a shorter name. Names may share bytes, so
/// long names can have more bytes together than their file, and comparing them can take long.
fn long_name(name: &[u8]) -> &[u8]
    ensures { result.now ≡ name_if_long name.entry.now }
{
    if name.len() < LEAST_LENGTH {
        return &[];
    }
    name
}
