//! Making edits of a plain tree.

ghost use Rattle.std.specs.Prelude.{◌≡◌, IfOk, IfErr, OnOk};
ghost use Rattle.bi_base.specs.Cells.{cell};
ghost use Rattle.bi_fit.specs.Names.{timestamp_name};
ghost use Rattle.bi_tree.specs.Trees.{with_own_value, with_value_by_path};
ghost use Rattle.bi_edit.specs.Applying.{IsApplyError, IsDone, IsErrorAt};
ghost use Rattle.bi_edit.specs.Edits.{AllFind, FindsNothing, IsFirstRefused, edited_root};
ghost use Rattle.bi_edit.specs.Edits.{before_digests, edits_of_turn, in_edit_order, root_after};
ghost use Rattle.bi_edit.specs.declared.edit.Edit.TheVariants.{RemoveNode, RemoveProperty};
ghost use Rattle.bi_edit.specs.declared.edit.Edit.TheVariants.{SetPayload};

mod digests;

use crate::edit::{Edit, TURN_OF_DIGESTS, TURNS};
use crate::places::{ImageName, NodePlace, PropertyPlace};
use bi_tree::Tree;
use digests::set_digests;
use std::alloc::{AllocError, Global};
use std::borrow::CowSlice;

/// Why edits of a tree cannot be made.
#[derive(Clone, Copy, Debug, PartialEq, Eq)]
pub enum ApplyError {
    /// The edit with this index finds nothing to remove, or no image to change.
    FindsNothing(usize),
    /// Memory ran out.
    OutOfMemory,
}

impl From<AllocError> for ApplyError {
    ghost use Rattle.bi_edit.specs.declared.applying.ApplyError.TheVariants.{OutOfMemory};

    ghost from_gives = { λ error result. result ≡ OutOfMemory };

    fn from(error: AllocError) -> ApplyError {
        ApplyError::OutOfMemory
    }
}

/// Makes edits of a plain tree, in which each image node has its payload as the value of `data`.
/// They are made in the order of their turns, and those with the same turn in their order. A field
/// of a legacy image is no part of a tree.
///
/// Fails with the first edit that finds nothing to remove, or no image to change, or if memory runs
/// out. What the tree then has is not specified.
pub fn apply<'a>(
    alloc: Global,
    tree: &mut Tree<'a>,
    edits: &'a [Edit<'a>],
) -> Result<(), ApplyError>
    ensures edited { OnOk result
        (tree.new ≡ root_after tree.old (in_edit_order edits.entry.now)) }
    ensures found { OnOk result (AllFind tree.old (in_edit_order edits.entry.now)) }
    ensures failed { IfErr result (IsApplyError
        (IsFirstRefused tree.old (in_edit_order edits.entry.now)) edits.entry.now) }
{
    for turn in 0..TURNS {
        apply_turn(alloc, tree, edits, turn)?;
    }
    Ok(())
}

/// Makes all of these edits but those of digests, as `apply` does.
pub(crate) fn apply_before_digests<'a>(
    alloc: Global,
    tree: &mut Tree<'a>,
    edits: &'a [Edit<'a>],
) -> Result<(), ApplyError>
    ensures edited { OnOk result
        (tree.new ≡ root_after tree.old (before_digests edits.entry.now)) }
    ensures found { OnOk result (AllFind tree.old (before_digests edits.entry.now)) }
    ensures failed { IfErr result (IsApplyError
        (IsFirstRefused tree.old (before_digests edits.entry.now)) edits.entry.now) }
{
    for turn in 0..TURN_OF_DIGESTS {
        apply_turn(alloc, tree, edits, turn)?;
    }
    Ok(())
}

/// Makes those of these edits that compute digests.
pub(crate) fn apply_digests<'a>(
    alloc: Global,
    tree: &mut Tree<'a>,
    edits: &'a [Edit<'a>],
) -> Result<(), ApplyError>
    ensures edited { OnOk result
        (tree.new ≡ root_after tree.old (edits_of_turn 4 edits.entry.now)) }
    ensures found { OnOk result (AllFind tree.old (edits_of_turn 4 edits.entry.now)) }
    ensures failed { IfErr result (IsApplyError
        (IsFirstRefused tree.old (edits_of_turn 4 edits.entry.now)) edits.entry.now) }
{
    apply_turn(alloc, tree, edits, TURN_OF_DIGESTS)
}

/// Makes those of these edits that have this turn, in their order.
fn apply_turn<'a>(
    alloc: Global,
    tree: &mut Tree<'a>,
    edits: &'a [Edit<'a>],
    turn: usize,
) -> Result<(), ApplyError>
    ensures edited { OnOk result
        (tree.new ≡ root_after tree.old (edits_of_turn turn edits.entry.now)) }
    ensures found { OnOk result (AllFind tree.old (edits_of_turn turn edits.entry.now)) }
    ensures failed { IfErr result (IsApplyError
        (IsFirstRefused tree.old (edits_of_turn turn edits.entry.now)) edits.entry.now) }
{
    for (index, edit) in edits.iter().enumerate() {
        if edit.turn() == turn {
            apply_at(alloc, tree, edit, index)?;
        }
    }
    Ok(())
}

/// Makes the edit that has this index in its list.
fn apply_at<'a>(
    alloc: Global,
    tree: &mut Tree<'a>,
    edit: &'a Edit<'a>,
    index: usize,
) -> Result<(), ApplyError>
    ensures edited { OnOk result (tree.new ≡ edited_root tree.old edit.entry.now) }
    ensures found { OnOk result (FindsNothing tree.old edit.entry.now → ⊥) }
    ensures failed { IfErr result (IsErrorAt index (FindsNothing tree.old edit.entry.now)) }
{
    if apply_one(alloc, tree, edit)? {
        Ok(())
    } else {
        Err(ApplyError::FindsNothing(index))
    }
}

/// Makes an edit. Returns false if it finds nothing to remove, or no image to change. Fails if
/// memory runs out.
fn apply_one<'a>(alloc: Global, tree: &mut Tree<'a>, edit: &'a Edit<'a>) -> Result<bool, AllocError>
    ensures { IfOk result (IsDone tree.old edit.entry.now tree.new) }
{
    match edit {
        Edit::RemoveNode(place) => remove_node(alloc, tree, place),
        Edit::RemoveProperty(place) => remove_property(alloc, tree, place),
        Edit::SetProperty(place, value) => {
            set_property(alloc, tree, place, value)?;
            Ok(true)
        }
        Edit::SetField(_) => Ok(true),
        Edit::SetPayload(image, payload) => set_payload(alloc, tree, image, payload),
        Edit::SetTime(time) => {
            set_time(alloc, tree, *time)?;
            Ok(true)
        }
        Edit::SetDigests => {
            set_digests(alloc, tree)?;
            Ok(true)
        }
    }
}

/// Removes a node. Returns false if it is not there. Fails if memory runs out.
fn remove_node(alloc: Global, tree: &mut Tree<'_>, place: &NodePlace) -> Result<bool, AllocError>
    ensures { IfOk result (IsDone tree.old (RemoveNode place.entry.now) tree.new) }
{
    let path = place.path().to_slices(alloc)?;
    if !tree.has_node(&path) {
        return Ok(false);
    }
    tree.remove_node(&path);
    Ok(true)
}

/// Removes a property. Returns false if it is not there. Fails if memory runs out.
fn remove_property(
    alloc: Global,
    tree: &mut Tree<'_>,
    place: &PropertyPlace,
) -> Result<bool, AllocError>
    ensures { IfOk result (IsDone tree.old (RemoveProperty place.entry.now) tree.new) }
{
    let path = place.path().to_slices(alloc)?;
    if tree.value(&path, place.name()).is_none() {
        return Ok(false);
    }
    tree.remove_property(&path, place.name());
    Ok(true)
}

/// Sets the value of a property. Nodes that are not there are added. Fails if memory runs out.
fn set_property<'a>(
    alloc: Global,
    tree: &mut Tree<'a>,
    place: &'a PropertyPlace,
    value: &'a [u8],
) -> Result<(), AllocError>
    ensures { OnOk result (tree.new
        ≡ with_value_by_path place.entry.now.path place.entry.now.name value.entry.now tree.old) }
{
    let path = place.path().to_slices(alloc)?;
    tree.set_property(alloc, &path, place.name(), CowSlice::Borrowed(value))?;
    Ok(())
}

/// Gives an image this payload. Returns false if it is not there. Fails if memory runs out.
fn set_payload<'a>(
    alloc: Global,
    tree: &mut Tree<'a>,
    image: &'a ImageName,
    payload: &'a [u8],
) -> Result<bool, AllocError>
    ensures { IfOk result
        (IsDone tree.old (SetPayload image.entry.now payload.entry) tree.new) }
{
    let path = [b"images".as_slice(), image.as_bytes()];
    if !tree.has_node(&path) {
        return Ok(false);
    }
    tree.set_property(alloc, &path, b"data", CowSlice::Borrowed(payload))?;
    Ok(true)
}

/// Sets the time of creation. Fails if memory runs out.
fn set_time(alloc: Global, tree: &mut Tree<'_>, time: u32) -> Result<(), AllocError>
    ensures { OnOk result (tree.new ≡ with_own_value timestamp_name (cell time) tree.old) }
{
    let mut value = Vec::with_capacity(alloc, 4)?;
    value.extend_from_slice(&time.to_be_bytes())?;
    tree.set_property(alloc, &[], b"timestamp", CowSlice::Owned(value))?;
    Ok(())
}
