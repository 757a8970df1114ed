//! Texts about a file, and the flattened image tree of a legacy image.

ghost use Rattle.std.specs.Prelude.{string_bytes};
ghost use Rattle.bi_c.specs.Answers.{FillsBuffer, IsTextOf, IsFailureOf, failure_of_error};
ghost use Rattle.bi_c.specs.Calls.{IsTextOnly, IsTextWithFlag, IsFailureOfOne, flag};
ghost use Rattle.bi_common.specs.declared.format.Format.TheVariants.{Lines, Json};
ghost use Rattle.bi_report.specs.ListedFiles.{IsListing};
ghost use Rattle.bi_report.specs.VerifiedFiles.{IsVerifyOutput};
ghost use Rattle.bi_describe.specs.DeepDescribing.{IsDeepDescribeError, IsDeepDescription};
ghost use Rattle.bi_describe.specs.Describing.{IsDescription, IsDescribeError};
ghost use Rattle.bi_norm.specs.Converting.{IsConvertedFile, IsConvertError};
ghost use Rattle.bi_norm.specs.Reading.{IsBootImageReadError};

use crate::answer::{Answer, fail, fill};
use crate::argument::wrong_limit;
use crate::arguments::limits_of;
use crate::failure::{Failure, failure_of};
use bi_base::Error;
use bi_commands::describe::{describe, describe_deep, describe_json};
use bi_commands::format::Format;
use bi_commands::list::{listing, listing_json};
use bi_commands::verify::{Report, verify, verify_json};
use bi_norm::convert;
use std::alloc::Global;

/// Writes the listing of a file to a buffer. Returns the status.
#[unsafe(no_mangle)]
pub extern "C" fn bootimg_list(
    alloc: Global,
    file: &[u8],
    limit: u32,
    depth: u32,
    buffer: &mut [u8],
    answer: &mut Answer,
) -> u32
    ensures { FillsBuffer
        (IsTextOnly limit depth (λ limits text. IsListing Lines limits file.now text))
        (IsFailureOfOne limit depth (λ limits error. IsBootImageReadError limits file.now error))
        buffer.old buffer.new answer.new result }
{
    let Some(limits) = limits_of(limit, depth) else {
        return fail(Failure::WrongArgument(wrong_limit(limit), 0), answer);
    };
    fill_text(listing(alloc, file, limits), buffer, answer)
}

/// Writes the listing of a file as one text of JSON and a newline to a buffer. Returns the status.
#[unsafe(no_mangle)]
pub extern "C" fn bootimg_list_json(
    alloc: Global,
    file: &[u8],
    limit: u32,
    depth: u32,
    buffer: &mut [u8],
    answer: &mut Answer,
) -> u32
    ensures { FillsBuffer
        (IsTextOnly limit depth (λ limits text. IsListing Json limits file.now text))
        (IsFailureOfOne limit depth (λ limits error. IsBootImageReadError limits file.now error))
        buffer.old buffer.new answer.new result }
{
    let Some(limits) = limits_of(limit, depth) else {
        return fail(Failure::WrongArgument(wrong_limit(limit), 0), answer);
    };
    fill_text(listing_json(alloc, file, limits), buffer, answer)
}

/// Writes the description of what a file means to a buffer. Returns the status.
#[unsafe(no_mangle)]
pub extern "C" fn bootimg_describe(
    alloc: Global,
    file: &[u8],
    limit: u32,
    depth: u32,
    buffer: &mut [u8],
    answer: &mut Answer,
) -> u32
    ensures { FillsBuffer
        (IsTextOnly limit depth (λ limits text. IsDescription Lines limits file.now text))
        (IsFailureOfOne limit depth (λ limits error. IsDescribeError Lines limits file.now error))
        buffer.old buffer.new answer.new result }
{
    let Some(limits) = limits_of(limit, depth) else {
        return fail(Failure::WrongArgument(wrong_limit(limit), 0), answer);
    };
    fill_text(describe(alloc, file, limits), buffer, answer)
}

/// Writes the description of what a file means as one text of JSON and a newline to a buffer.
/// Returns the status.
#[unsafe(no_mangle)]
pub extern "C" fn bootimg_describe_json(
    alloc: Global,
    file: &[u8],
    limit: u32,
    depth: u32,
    buffer: &mut [u8],
    answer: &mut Answer,
) -> u32
    ensures { FillsBuffer
        (IsTextOnly limit depth (λ limits text. IsDescription Json limits file.now text))
        (IsFailureOfOne limit depth (λ limits error. IsDescribeError Json limits file.now error))
        buffer.old buffer.new answer.new result }
{
    let Some(limits) = limits_of(limit, depth) else {
        return fail(Failure::WrongArgument(wrong_limit(limit), 0), answer);
    };
    fill_text(describe_json(alloc, file, limits), buffer, answer)
}

/// Writes the deep description of what a file means to a buffer: with the devicetrees inside its
/// payloads. Returns the status.
#[unsafe(no_mangle)]
pub extern "C" fn bootimg_describe_deep(
    alloc: Global,
    file: &[u8],
    limit: u32,
    depth: u32,
    buffer: &mut [u8],
    answer: &mut Answer,
) -> u32
    ensures { FillsBuffer
        (IsTextOnly limit depth (λ limits text. IsDeepDescription Lines limits file.now text))
        (IsFailureOfOne limit depth
        (λ limits error. IsDeepDescribeError Lines limits file.now error))
        buffer.old buffer.new answer.new result }
{
    let Some(limits) = limits_of(limit, depth) else {
        return fail(Failure::WrongArgument(wrong_limit(limit), 0), answer);
    };
    fill_text(
        describe_deep(alloc, file, limits, Format::Lines),
        buffer,
        answer,
    )
}

/// Writes the deep description of what a file means as one text of JSON and a newline to a buffer.
/// Returns the status.
#[unsafe(no_mangle)]
pub extern "C" fn bootimg_describe_deep_json(
    alloc: Global,
    file: &[u8],
    limit: u32,
    depth: u32,
    buffer: &mut [u8],
    answer: &mut Answer,
) -> u32
    ensures { FillsBuffer
        (IsTextOnly limit depth (λ limits text. IsDeepDescription Json limits file.now text))
        (IsFailureOfOne limit depth
        (λ limits error. IsDeepDescribeError Json limits file.now error))
        buffer.old buffer.new answer.new result }
{
    let Some(limits) = limits_of(limit, depth) else {
        return fail(Failure::WrongArgument(wrong_limit(limit), 0), answer);
    };
    fill_text(
        describe_deep(alloc, file, limits, Format::Json),
        buffer,
        answer,
    )
}

/// Writes the text that a call on a file made to a buffer, and the answer. Returns the status.
pub(crate) fn fill_text(made: Result<String, Error>, buffer: &mut [u8], answer: &mut Answer) -> u32
    ensures { FillsBuffer (IsTextOf string_bytes (λ _. 0) made) (IsFailureOf failure_of_error made)
        buffer.old buffer.new answer.new result }
{
    match made {
        Ok(text) => fill(text.as_bytes(), 0, buffer, answer),
        Err(error) => fail(failure_of(error), answer),
    }
}

/// Writes the report on the checksums and digests of a file to a buffer, and sets `answer.value` to
/// 1 if each verdict is Good (even if there is none), and otherwise to 0. Returns the status.
#[unsafe(no_mangle)]
pub extern "C" fn bootimg_verify(
    alloc: Global,
    file: &[u8],
    limit: u32,
    depth: u32,
    buffer: &mut [u8],
    answer: &mut Answer,
) -> u32
    ensures { FillsBuffer
        (IsTextWithFlag limit depth
        (λ limits good text. IsVerifyOutput Lines limits good file.now text))
        (IsFailureOfOne limit depth (λ limits error. IsBootImageReadError limits file.now error))
        buffer.old buffer.new answer.new result }
{
    let Some(limits) = limits_of(limit, depth) else {
        return fail(Failure::WrongArgument(wrong_limit(limit), 0), answer);
    };
    fill_report(verify(alloc, file, limits), buffer, answer)
}

/// Writes the report of `bootimg_verify` as one text of JSON and a newline to a buffer, and sets
/// `answer.value` as `bootimg_verify` does. Returns the status.
#[unsafe(no_mangle)]
pub extern "C" fn bootimg_verify_json(
    alloc: Global,
    file: &[u8],
    limit: u32,
    depth: u32,
    buffer: &mut [u8],
    answer: &mut Answer,
) -> u32
    ensures { FillsBuffer
        (IsTextWithFlag limit depth
        (λ limits good text. IsVerifyOutput Json limits good file.now text))
        (IsFailureOfOne limit depth (λ limits error. IsBootImageReadError limits file.now error))
        buffer.old buffer.new answer.new result }
{
    let Some(limits) = limits_of(limit, depth) else {
        return fail(Failure::WrongArgument(wrong_limit(limit), 0), answer);
    };
    fill_report(verify_json(alloc, file, limits), buffer, answer)
}

/// Writes the report that a call on a file made to a buffer, and the answer. Returns the status.
fn fill_report(made: Result<Report, Error>, buffer: &mut [u8], answer: &mut Answer) -> u32
    ensures { FillsBuffer
        (IsTextOf (λ report. string_bytes report.text) (λ report. flag report.all_good) made)
        (IsFailureOf failure_of_error made) buffer.old buffer.new answer.new result }
{
    match made {
        Ok(report) => fill(
            report.text.as_bytes(),
            usize::from(report.all_good),
            buffer,
            answer,
        ),
        Err(error) => fail(failure_of(error), answer),
    }
}

/// Writes the flattened image tree of a legacy image to a buffer. Returns the status.
#[unsafe(no_mangle)]
pub extern "C" fn bootimg_convert(
    alloc: Global,
    file: &[u8],
    limit: u32,
    depth: u32,
    buffer: &mut [u8],
    answer: &mut Answer,
) -> u32
    ensures { FillsBuffer
        (IsTextOnly limit depth (λ limits text. IsConvertedFile limits file.now text))
        (IsFailureOfOne limit depth (λ limits error. IsConvertError limits file.now error))
        buffer.old buffer.new answer.new result }
{
    let Some(limits) = limits_of(limit, depth) else {
        return fail(Failure::WrongArgument(wrong_limit(limit), 0), answer);
    };
    match convert(alloc, file, limits) {
        Ok(text) => fill(&text, 0, buffer, answer),
        Err(error) => fail(failure_of(error), answer),
    }
}
