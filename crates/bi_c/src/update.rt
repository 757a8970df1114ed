//! The normal form of a file with changes.

ghost use Rattle.std.specs.Prelude.{◌≡◌, ◌<◌, ◌↔◌, IsSome, IfSome};
ghost use Rattle.bi_c.specs.Answers.{FillsBuffer};
ghost use Rattle.bi_c.specs.Arguments.{changes_of as changes_of_numbers};
ghost use Rattle.bi_c.specs.Calls.{IsUpdatedText, IsUpdateFailure};

use crate::answer::{Answer, fail, fill};
use crate::argument::{Argument, wrong_limit};
use crate::arguments::{form_of, has_bit, limits_of};
use crate::failure::{Failure, failure_of};
use bi_base::VecSink;
use bi_commands::update::update_into;
use bi_fit::Changes;
use std::alloc::Global;

/// Writes the normal form of a file with changes to a buffer, and sets `answer.value` to the number
/// of its signature nodes. Bit 1 of `changes` sets the time of creation to `time`, in seconds since
/// 1970, and bit 2 computes the digests again. Returns the status.
#[unsafe(no_mangle)]
pub extern "C" fn bootimg_update(
    alloc: Global,
    file: &[u8],
    changes: u32,
    time: u32,
    form: u32,
    limit: u32,
    depth: u32,
    buffer: &mut [u8],
    answer: &mut Answer,
) -> u32
    ensures { FillsBuffer (IsUpdatedText limit depth form changes time file.now)
        (IsUpdateFailure limit depth form changes time file.now) buffer.old buffer.new answer.new
        result }
{
    let Some(limits) = limits_of(limit, depth) else {
        return fail(Failure::WrongArgument(wrong_limit(limit), 0), answer);
    };
    let Some(kind) = form_of(form) else {
        return fail(Failure::WrongArgument(Argument::Form, 0), answer);
    };
    let Some(wanted) = changes_of(changes, time) else {
        return fail(Failure::WrongArgument(Argument::Changes, 0), answer);
    };
    let mut sink = VecSink::new(alloc);
    match update_into(alloc, file, wanted, kind, limits, &mut sink) {
        Ok(count) => fill(&sink.into_vec(), count, buffer, answer),
        Err(error) => fail(failure_of(error), answer),
    }
}

/// Returns the changes that these bits select, with this time, if there are no other bits.
pub(crate) fn changes_of(changes: u32, time: u32) -> Option<Changes>
    ensures in_range { IsSome result ↔ changes < 4 }
    ensures value { IfSome result (λ wanted. wanted ≡ changes_of_numbers changes time) }
{
    if changes >= 4 {
        return None;
    }
    let new_time = if has_bit(1, changes) {
        Some(time)
    } else {
        None
    };
    Some(Changes {
        time: new_time,
        hashes: has_bit(2, changes),
    })
}
