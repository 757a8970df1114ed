//! Comparing what two files mean.

ghost use Rattle.std.specs.Prelude.{◌≡◌, string_bytes};
ghost use Rattle.bi_c.specs.Answers.{Answers, FillsBuffer, IsTextOf, IsFailureOf};
ghost use Rattle.bi_c.specs.Arguments.{bounds};
ghost use Rattle.bi_c.specs.Calls.{IsSame, IsTextWithFlag, IsFailureOfTwo};
ghost use Rattle.bi_c.specs.Calls.{failure_of_compare_error, flag};
ghost use Rattle.bi_common.specs.declared.format.Format.TheVariants.{Lines, Json};
ghost use Rattle.bi_describe.specs.Comparing.{IsComparison, IsComparisonError, IsReadingError};

use crate::answer::{Answer, fail, fill, succeed};
use crate::argument::wrong_limit;
use crate::arguments::limits_of;
use crate::failure::Failure;
use bi_commands::compare::{CompareError, Comparison, compare, compare_json, have_same_meaning};
use std::alloc::Global;

/// Sets `answer.value` to 1 if two files mean the same, and otherwise to 0. Returns the status.
#[unsafe(no_mangle)]
pub extern "C" fn bootimg_same_meaning(
    alloc: Global,
    one: &[u8],
    other: &[u8],
    limit: u32,
    depth: u32,
    answer: &mut Answer,
) -> u32
    ensures { Answers (IsSame limit depth one.now other.now)
        (IsFailureOfTwo limit depth (IsReadingError (bounds limit depth) one.now other.now))
        answer.new result }
{
    let Some(limits) = limits_of(limit, depth) else {
        return fail(Failure::WrongArgument(wrong_limit(limit), 0), answer);
    };
    match have_same_meaning(alloc, one, other, limits) {
        Ok(same) => succeed(0, usize::from(same), answer),
        Err(error) => fail(failure_of_two(error), answer),
    }
}

/// Writes the differences between what two files mean to a buffer, and sets `answer.value` to 1 if
/// they mean the same, and otherwise to 0. Returns the status.
#[unsafe(no_mangle)]
pub extern "C" fn bootimg_compare(
    alloc: Global,
    one: &[u8],
    other: &[u8],
    limit: u32,
    depth: u32,
    buffer: &mut [u8],
    answer: &mut Answer,
) -> u32
    ensures { FillsBuffer (IsTextWithFlag limit depth
        (λ limits same text. IsComparison Lines limits one.now other.now same text))
        (IsFailureOfTwo limit depth (IsComparisonError (bounds limit depth) one.now other.now))
        buffer.old buffer.new answer.new result }
{
    let Some(limits) = limits_of(limit, depth) else {
        return fail(Failure::WrongArgument(wrong_limit(limit), 0), answer);
    };
    fill_comparison(compare(alloc, one, other, limits), buffer, answer)
}

/// Writes the differences between what two files mean as one text of JSON and a newline to a
/// buffer, and sets `answer.value` as `bootimg_compare` does. Returns the status.
#[unsafe(no_mangle)]
pub extern "C" fn bootimg_compare_json(
    alloc: Global,
    one: &[u8],
    other: &[u8],
    limit: u32,
    depth: u32,
    buffer: &mut [u8],
    answer: &mut Answer,
) -> u32
    ensures { FillsBuffer (IsTextWithFlag limit depth
        (λ limits same text. IsComparison Json limits one.now other.now same text))
        (IsFailureOfTwo limit depth (IsComparisonError (bounds limit depth) one.now other.now))
        buffer.old buffer.new answer.new result }
{
    let Some(limits) = limits_of(limit, depth) else {
        return fail(Failure::WrongArgument(wrong_limit(limit), 0), answer);
    };
    fill_comparison(compare_json(alloc, one, other, limits), buffer, answer)
}

/// Writes what a comparison of two files found to a buffer, and the answer. Returns the status.
pub(crate) fn fill_comparison(
    made: Result<Comparison, CompareError>,
    buffer: &mut [u8],
    answer: &mut Answer,
) -> u32
    ensures { FillsBuffer
        (IsTextOf (λ compared. string_bytes compared.differences) (λ compared. flag compared.same)
        made)
        (IsFailureOf failure_of_compare_error made) buffer.old buffer.new answer.new result }
{
    match made {
        Ok(compared) => fill(
            compared.differences.as_bytes(),
            usize::from(compared.same),
            buffer,
            answer,
        ),
        Err(error) => fail(failure_of_two(error), answer),
    }
}

/// Returns the failure for an error of a call on two files.
fn failure_of_two(error: CompareError) -> Failure
    ensures { result ≡ failure_of_compare_error error }
{
    match error {
        CompareError::One(fault) => Failure::Refused(1, fault),
        CompareError::Other(fault) => Failure::Refused(2, fault),
        CompareError::OutOfMemory => Failure::OutOfMemory,
    }
}
