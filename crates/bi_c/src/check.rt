//! The concerns about a file.

ghost use Rattle.bi_c.specs.Answers.{FillsBuffer, IsFailure, IsFailureBy};
ghost use Rattle.bi_c.specs.Arguments.{bounds};
ghost use Rattle.bi_c.specs.Calls.{IsCheckText, IsConcernsText, KindsCheck};
ghost use Rattle.bi_common.specs.declared.format.Format.TheVariants.{Lines, Json};
ghost use Rattle.bi_report.specs.CheckedFiles.{IsCheckError};

use crate::answer::{Answer, fail, fill};
use crate::argument::{Argument, wrong_limit};
use crate::arguments::{limits_of, policy_of};
use crate::failure::{Failure, failure_of};
use bi_base::{Limits, VecSink};
use bi_commands::check::{Checker, check_into};
use bi_commands::format::Format;
use std::alloc::Global;

/// Writes a line to a buffer for each concern about a file, except those of allowed kinds. Sets
/// `answer.value` to 1 if there is no line, and otherwise to 0. Each bit of `kinds` allows a kind,
/// but the greatest, which asks for signatures. Returns the status.
#[unsafe(no_mangle)]
pub extern "C" fn bootimg_check(
    alloc: Global,
    file: &[u8],
    kinds: u32,
    limit: u32,
    depth: u32,
    buffer: &mut [u8],
    answer: &mut Answer,
) -> u32
    ensures { FillsBuffer (IsCheckText Lines limit depth kinds file.now)
        (IsFailure (KindsCheck limit depth kinds) (IsCheckError (bounds limit depth) file.now))
        buffer.old buffer.new answer.new result }
{
    let Some(limits) = limits_of(limit, depth) else {
        return fail(Failure::WrongArgument(wrong_limit(limit), 0), answer);
    };
    let Some(policy) = policy_of(kinds) else {
        return fail(Failure::WrongArgument(Argument::Kinds, 0), answer);
    };
    let checker = Checker {
        policy,
        format: Format::Lines,
    };
    fill_concerns(alloc, file, checker, limits, buffer, answer)
}

/// Writes the concerns of `bootimg_check` as one text of JSON and a newline to a buffer. Sets
/// `answer.value` as `bootimg_check` does. Returns the status.
#[unsafe(no_mangle)]
pub extern "C" fn bootimg_check_json(
    alloc: Global,
    file: &[u8],
    kinds: u32,
    limit: u32,
    depth: u32,
    buffer: &mut [u8],
    answer: &mut Answer,
) -> u32
    ensures { FillsBuffer (IsCheckText Json limit depth kinds file.now)
        (IsFailure (KindsCheck limit depth kinds) (IsCheckError (bounds limit depth) file.now))
        buffer.old buffer.new answer.new result }
{
    let Some(limits) = limits_of(limit, depth) else {
        return fail(Failure::WrongArgument(wrong_limit(limit), 0), answer);
    };
    let Some(policy) = policy_of(kinds) else {
        return fail(Failure::WrongArgument(Argument::Kinds, 0), answer);
    };
    let checker = Checker {
        policy,
        format: Format::Json,
    };
    fill_concerns(alloc, file, checker, limits, buffer, answer)
}

/// Writes the text of the concerns that a checker finds in a file to a buffer, and the answer.
/// Returns the status.
fn fill_concerns(
    alloc: Global,
    file: &[u8],
    checker: Checker,
    limits: Limits,
    buffer: &mut [u8],
    answer: &mut Answer,
) -> u32
    ensures { FillsBuffer (IsConcernsText checker limits file.now)
        (IsFailureBy (IsCheckError limits file.now)) buffer.old buffer.new answer.new result }
{
    let mut sink = VecSink::new(alloc);
    match check_into(alloc, file, checker, limits, &mut sink) {
        Ok(clean) => fill(&sink.into_vec(), usize::from(clean), buffer, answer),
        Err(error) => fail(failure_of(error), answer),
    }
}
