//! The notes on a normal form with changes.

ghost use Rattle.std.specs.Prelude.{◌≡◌};
ghost use Rattle.bi_c.specs.Answers.{Sets};
ghost use Rattle.bi_c.specs.Calls.{IsUpdateFailure};
ghost use Rattle.bi_c.specs.NoteNumbers.{AreNotes, note_numbers};

use crate::answer::{Answer, fail, succeed};
use crate::argument::{Argument, wrong_limit};
use crate::arguments::{form_of, limits_of};
use crate::failure::{Failure, failure_of};
use crate::update::changes_of;
use bi_base::VecSink;
use bi_commands::update::update_with_kept;
use bi_norm::Kept;
use std::alloc::Global;

/// What the notes on the normal form of a file say.
#[repr(C)]
#[derive(Clone, Copy, Debug, PartialEq, Eq)]
pub struct NoteNumbers {
    /// The number of signature nodes, which are kept and not checked.
    pub signatures: usize,
    /// The number of payloads whose fixed position is not kept.
    pub lost_positions: usize,
    /// The alignment in bytes that payloads have in the file and lose, or 0 if they lose none.
    pub lost_alignment: u32,
}

/// Sets a struct to the numbers in the notes on the normal form of a file with changes. The numbers
/// are those of `bootimg_update`. Returns the status.
#[unsafe(no_mangle)]
pub extern "C" fn bootimg_notes(
    alloc: Global,
    file: &[u8],
    changes: u32,
    time: u32,
    form: u32,
    limit: u32,
    depth: u32,
    notes: &mut NoteNumbers,
    answer: &mut Answer,
) -> u32
    ensures { Sets (AreNotes limit depth form changes time file.now)
        (IsUpdateFailure limit depth form changes time file.now) notes.old notes.new answer.new
        result }
{
    let Some(limits) = limits_of(limit, depth) else {
        return fail(Failure::WrongArgument(wrong_limit(limit), 0), answer);
    };
    let Some(kind) = form_of(form) else {
        return fail(Failure::WrongArgument(Argument::Form, 0), answer);
    };
    let Some(wanted) = changes_of(changes, time) else {
        return fail(Failure::WrongArgument(Argument::Changes, 0), answer);
    };
    let mut sink = VecSink::new(alloc);
    match update_with_kept(alloc, file, wanted, kind, limits, &mut sink) {
        Ok(kept) => {
            *notes = numbers_of(kept);
            succeed(0, 0, answer)
        }
        Err(error) => fail(failure_of(error), answer),
    }
}

/// Returns the numbers in the notes on what a text keeps of its file.
fn numbers_of(kept: Kept) -> NoteNumbers
    ensures { result ≡ note_numbers kept }
{
    NoteNumbers {
        signatures: kept.signatures,
        lost_positions: kept.lost_positions,
        lost_alignment: kept.lost_alignment.unwrap_or(0),
    }
}
