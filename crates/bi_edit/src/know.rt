//! What is always true of values that calls get.

ghost use Rattle.std.specs.List.{AllByRecursion};
ghost use Rattle.bi_base.specs.Limits.{IsInRange};
ghost use Rattle.bi_edit.specs.EditLaws.{IsEditOfBytes, IsFieldValue};

use crate::edit::{Edit, FieldValue};
use bi_base::{Limits, are_bytes};

/// Does nothing. Proofs get from it that these are limits that a call may have.
pub(crate) fn know_limits(limits: Limits)
    ensures { IsInRange limits.file limits.depth }
{
    let _ = limits.file();
    let _ = limits.depth();
}

/// Does nothing. Proofs get from it that the places of edits are places of edits, and that values
/// are bytes.
pub(crate) fn know_edits(edits: &[Edit<'_>])
    ensures { AllByRecursion IsEditOfBytes edits.now }
{
    for edit in edits {
        know_edit(edit);
    }
}

/// Does so for an edit.
fn know_edit(edit: &Edit<'_>)
    ensures { IsEditOfBytes edit.now }
{
    match edit {
        Edit::RemoveNode(place) => {
            let _ = place.path();
        }
        Edit::RemoveProperty(place) => {
            let _ = place.path();
        }
        Edit::SetProperty(place, value) => {
            let _ = place.path();
            are_bytes(value);
        }
        Edit::SetPayload(image, payload) => {
            let _ = image.as_bytes();
            are_bytes(payload);
        }
        Edit::SetField(value) => know_value(value),
        Edit::SetTime(time) => {
            let _time = *time;
        }
        Edit::SetDigests => {}
    }
}

/// Does nothing. Proofs get from it that a name is bytes, and that numbers fit their fields.
fn know_value(value: &FieldValue)
    ensures { IsFieldValue value.now }
{
    match value {
        FieldValue::Name(name) => are_bytes(name),
        FieldValue::Time(number) | FieldValue::Load(number) | FieldValue::Entry(number) => {
            let _number = *number;
        }
        FieldValue::Os(code) | FieldValue::Arch(code) | FieldValue::Compression(code) => {
            let _code = *code;
        }
    }
}
