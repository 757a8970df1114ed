//! Editing a flattened image tree.

ghost use Rattle.std.specs.Prelude.{◌≡◌, ◌↔◌, ◌≤◌, IfOk, IfErr, IsTrue, OnOk, Contains, map};
ghost use Rattle.std.specs.FinMap.{get};
ghost use Rattle.bi_base.specs.declared.fault.Cause.TheVariants.{TooDeep};
ghost use Rattle.bi_base.specs.Reading.{too_large};
ghost use Rattle.bi_common.specs.PayloadBounds.{payloads_length};
ghost use Rattle.bi_fit.specs.declared.form.Form.TheVariants.{Embedded};
ghost use Rattle.bi_fit.specs.Content.{tree_of};
ghost use Rattle.bi_fit.specs.ImageTree.{each_own};
ghost use Rattle.bi_fit.specs.Names.{data_name};
ghost use Rattle.bi_norm.specs.Meaning.{OfFit};
ghost use Rattle.bi_plain.specs.Plain.{plain_payloads};
ghost use Rattle.bi_plain.specs.PlainNodes.{models_by_name};
ghost use Rattle.bi_tree.specs.TreeNodes.{below};
ghost use Rattle.bi_tree.specs.Trees.{tree_by_name};
ghost use Rattle.bi_edit.specs.declared.edit.Edit.TheVariants.{SetDigests};
ghost use Rattle.bi_edit.specs.EditedFits.{HasLongPayloads, IsEditedText, WasReadWithin};
ghost use Rattle.bi_edit.specs.EditRefusals.{AreShallow, HasTooDeep, IsEditError};
ghost use Rattle.bi_edit.specs.Edits.{IsTooDeep};

use crate::applying::{apply_before_digests, apply_digests};
use crate::edit::Edit;
use crate::edit_error::EditError;
use crate::kinds::check_tree_kind;
use crate::know::{know_edits, know_limits};
use bi_base::{Cause, Fault, Limits, refuse};
use bi_common::payload_bounds::length_of;
use bi_fit::Fit;
use bi_plain::{read_plain_tree, write_plain_tree};
use bi_tree::{Tree, TreeNode};
use std::alloc::Global;

/// Returns a flattened image tree after edits, as its normal text in the form Embedded: a blob with
/// each payload as the value of `data`. They are made in the order of their turns, and those with
/// the same turn in their order. The text is accepted under the limits, and means the edited tree.
/// Requires: the tree was read under these limits.
///
/// Errors, the first that applies: WrongKind, if an edit is of a legacy image; TooDeep at 0, if one
/// sets a property of a node with `limits.depth()` names or more in its path; FindsNothing for the
/// first edit that finds nothing to remove, or no image to change; TooLarge at `limits.file()`, if
/// one computes digests and the payloads after the edits are together longer than that, each
/// counted for each image that has it; TooLarge at `limits.file()`, if the text is longer.
/// OutOfMemory may come instead of any of these. Nothing is hashed before the payloads are
/// measured.
pub fn edit_fit<'a>(
    alloc: Global,
    fit: &Fit<'a>,
    edits: &'a [Edit<'a>],
    limits: Limits,
) -> Result<Vec<u8>, EditError>
    requires { WasReadWithin limits fit.now }
    ensures edited { IfOk result (λ text.
        IsEditedText limits (tree_of fit.now) edits.entry.now text.items) }
    ensures failed { IfErr result
        (IsEditError limits Embedded (OfFit (tree_of fit.now)) edits.entry.now) }
{
    know_limits(limits);
    know_edits(edits);
    check_tree_kind(edits)?;
    check_depths(edits, limits)?;
    let mut tree = read_plain_tree(alloc, fit)?;
    apply_before_digests(alloc, &mut tree, edits)?;
    check_payloads(&tree, edits, limits)?;
    apply_digests(alloc, &mut tree, edits)?;
    Ok(write_plain_tree(alloc, fit.blob(), &tree, limits)?)
}

/// Checks that the payloads of a plain tree are together no longer than the limit for files, if an
/// edit computes digests.
///
/// Error: TooLarge at that limit, if they are longer.
fn check_payloads(tree: &Tree<'_>, edits: &[Edit<'_>], limits: Limits) -> Result<(), Fault>
    ensures ok { OnOk result (¬ (HasLongPayloads limits tree.now edits.now)) }
    ensures fault { IfErr result (λ fault. (fault ≡ too_large limits.file)
        × HasLongPayloads limits tree.now edits.now) }
{
    if has_digests(edits) && !payloads_are_within(tree, limits.file()) {
        return refuse(Cause::TooLarge, limits.file());
    }
    Ok(())
}

/// Returns whether an edit computes digests.
fn has_digests(edits: &[Edit<'_>]) -> bool
    ensures { IsTrue result ↔ Contains edits.now SetDigests }
{
    for edit in edits {
        if matches!(edit, Edit::SetDigests) {
            return true;
        }
    }
    false
}

/// Returns whether the payloads of a plain tree are together no longer than a limit.
fn payloads_are_within(tree: &Tree<'_>, limit: u32) -> bool
    ensures { IsTrue result ↔ (payloads_length (plain_payloads tree.now) ≤ limit) }
{
    match tree.root.child(b"images") {
        Some(images) => children_are_within(images, limit),
        None => true,
    }
}

/// Returns whether the values of `data` of the children of a node are together no longer than a
/// limit.
fn children_are_within(images: &TreeNode<'_>, limit: u32) -> bool
    ensures { let nodes = (tree_by_name (below images.now)).children in
        let values = map (λ own. get own data_name) (each_own nodes) in
        IsTrue result ↔ (payloads_length values ≤ limit) }
{
    values_are_within(&images.children, limit)
}

/// Returns whether the values of `data` of nodes are together no longer than a limit.
fn values_are_within(nodes: &[TreeNode<'_>], limit: u32) -> bool
    ensures { let values = map (λ own. get own data_name) (each_own (models_by_name nodes.now)) in
        IsTrue result ↔ (payloads_length values ≤ limit) }
{
    let mut total = 0;
    for node in nodes {
        total += length_of(node.value(b"data"));
        if total > limit as usize {
            return false;
        }
    }
    true
}

/// Checks that no edit sets a property of a node that is too deep.
///
/// Error: TooDeep at 0, if one does.
fn check_depths(edits: &[Edit<'_>], limits: Limits) -> Result<(), Fault>
    ensures ok { OnOk result (AreShallow limits edits.now) }
    ensures fault { IfErr result (λ fault.
        (fault ≡ record { cause = TooDeep; offset = 0 }) × HasTooDeep limits edits.now) }
{
    for edit in edits {
        if is_too_deep(edit, limits) {
            return refuse(Cause::TooDeep, 0);
        }
    }
    Ok(())
}

/// Returns whether an edit sets a property of a node that is too deep.
fn is_too_deep(edit: &Edit<'_>, limits: Limits) -> bool
    ensures { IsTrue result ↔ IsTooDeep limits edit.now }
{
    match edit {
        Edit::SetProperty(place, _) => { place.path().names().len() >= usize::from(limits.depth()) }
        _ => false,
    }
}
