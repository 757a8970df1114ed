//! Whether edits are of a kind of boot image.

ghost use Rattle.std.specs.Prelude.{◌≡◌, ◌↔◌, ◌<◌, ◌^◌, ℕ, IsTrue, IfOk, IfErr, OnOk};
ghost use Rattle.std.specs.Prelude.{IfSome, IfNone};
ghost use Rattle.std.specs.Fmt.{decimal};
ghost use Rattle.std.specs.List.{AllByRecursion};
ghost use Rattle.bi_edit.specs.EditRefusals.{IsKindError};
ghost use Rattle.bi_edit.specs.Edits.{IsOfLegacy, IsOfTree, IsPartNumber};

use crate::edit::Edit;
use crate::edit_error::EditError;
use bi_base::MemoryPen;
use bi_common::fields::put_decimal;
use std::alloc::{AllocError, Global};
use std::str;

/// Checks that each edit is of a flattened image tree.
///
/// Error: WrongKind, if one is not.
pub(crate) fn check_tree_kind(edits: &[Edit<'_>]) -> Result<(), EditError>
    ensures ok { OnOk result (AllByRecursion IsOfTree edits.now) }
    ensures failed { IfErr result (IsKindError IsOfTree edits.now) }
{
    for edit in edits {
        if !is_of_tree(edit) {
            return Err(EditError::WrongKind);
        }
    }
    Ok(())
}

/// Returns whether an edit is of a flattened image tree.
fn is_of_tree(edit: &Edit<'_>) -> bool
    ensures { IsTrue result ↔ IsOfTree edit.now }
{
    !matches!(edit, Edit::SetField(_))
}

/// Checks that each edit is of a legacy image.
///
/// Errors: WrongKind, if one is not; OutOfMemory.
pub(crate) fn check_legacy_kind(alloc: Global, edits: &[Edit<'_>]) -> Result<(), EditError>
    ensures ok { OnOk result (AllByRecursion IsOfLegacy edits.now) }
    ensures failed { IfErr result (IsKindError IsOfLegacy edits.now) }
{
    for edit in edits {
        if !is_of_legacy(alloc, edit)? {
            return Err(EditError::WrongKind);
        }
    }
    Ok(())
}

/// Returns whether an edit is of a legacy image. Fails if memory runs out.
fn is_of_legacy(alloc: Global, edit: &Edit<'_>) -> Result<bool, AllocError>
    ensures { IfOk result (λ is. IsTrue is ↔ IsOfLegacy edit.now) }
{
    match edit {
        Edit::RemoveNode(_) | Edit::RemoveProperty(_) | Edit::SetProperty(_, _) => Ok(false),
        Edit::SetField(_) | Edit::SetTime(_) | Edit::SetDigests => Ok(true),
        Edit::SetPayload(part, _) => Ok(part_number(alloc, part.as_bytes())?.is_some()),
    }
}

/// Returns the number below 2^64 that has these decimal digits. Returns None if none has: for
/// example for `01` and `+1`. Fails if memory runs out.
pub(crate) fn part_number(alloc: Global, digits: &[u8]) -> Result<Option<u64>, AllocError>
    ensures some { IfOk result (λ found. IfSome found (λ number.
        (number < 2 ^ 64) × (decimal number ≡ digits.now))) }
    ensures none { IfOk result (λ found. IfNone found (IsPartNumber digits.now → ⊥)) }
{
    match number_in(digits) {
        Some(number) => number_if_shown(alloc, number, digits),
        None => Ok(None),
    }
}

/// Returns a number below 2^64. It is the only one that may have these decimal digits. Returns None
/// if none has.
fn number_in(digits: &[u8]) -> Option<u64>
    ensures some { IfSome result (λ number. (other : ℕ)
        → other < 2 ^ 64 → decimal other ≡ digits.now → other ≡ number) }
    ensures none { IfNone result (IsPartNumber digits.now → ⊥) }
{
    match str::from_utf8(digits) {
        Ok(text) => number_in_text(text),
        Err(_) => None,
    }
}

/// Does so for a text.
fn number_in_text(text: &str) -> Option<u64>
    ensures some { IfSome result (λ number. (other : ℕ)
        → other < 2 ^ 64 → decimal other ≡ text.now → other ≡ number) }
    ensures none { IfNone result (IsPartNumber text.now → ⊥) }
{
    match text.parse::<u64>() {
        Ok(number) => Some(number),
        Err(_) => None,
    }
}

/// Returns a number if it has these decimal digits. Fails if memory runs out.
fn number_if_shown(alloc: Global, number: u64, digits: &[u8]) -> Result<Option<u64>, AllocError>
    ensures some { IfOk result (λ found. IfSome found (λ shown.
        (shown ≡ number) × (shown < 2 ^ 64) × (decimal shown ≡ digits.now))) }
    ensures none { IfOk result (λ found. IfNone found (decimal number ≡ digits.now → ⊥)) }
{
    let mut pen = MemoryPen::new(alloc);
    put_decimal(number, &mut pen);
    let Ok(shown) = pen.into_vec() else {
        return Err(AllocError);
    };
    if shown.as_slice() == digits {
        Ok(Some(number))
    } else {
        Ok(None)
    }
}
