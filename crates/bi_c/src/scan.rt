//! The boot images inside a file.

ghost use Rattle.bi_c.specs.Answers.{FillsBuffer};
ghost use Rattle.bi_c.specs.Calls.{IsFailureOfOne, IsTextOnly};
ghost use Rattle.bi_common.specs.declared.format.Format.TheVariants.{Json, Lines};
ghost use Rattle.bi_report.specs.Scanning.{IsScanError, IsScanText};

use crate::answer::{Answer, fail};
use crate::argument::wrong_limit;
use crate::arguments::limits_of;
use crate::failure::Failure;
use crate::texts::fill_text;
use bi_commands::scan::{scan, scan_json};
use std::alloc::Global;

/// Writes a line for each boot image inside a file, in the order of their offsets, to a buffer.
/// Returns the status.
#[unsafe(no_mangle)]
pub extern "C" fn bootimg_scan(
    alloc: Global,
    file: &[u8],
    limit: u32,
    depth: u32,
    buffer: &mut [u8],
    answer: &mut Answer,
) -> u32
    ensures { FillsBuffer
        (IsTextOnly limit depth (λ limits text. IsScanText Lines limits file.now text))
        (IsFailureOfOne limit depth (λ limits error. IsScanError limits file.now error))
        buffer.old buffer.new answer.new result }
{
    let Some(limits) = limits_of(limit, depth) else {
        return fail(Failure::WrongArgument(wrong_limit(limit), 0), answer);
    };
    fill_text(scan(alloc, file, limits), buffer, answer)
}

/// Writes the boot images inside a file as one text of JSON and a newline to a buffer. Returns the
/// status.
#[unsafe(no_mangle)]
pub extern "C" fn bootimg_scan_json(
    alloc: Global,
    file: &[u8],
    limit: u32,
    depth: u32,
    buffer: &mut [u8],
    answer: &mut Answer,
) -> u32
    ensures { FillsBuffer
        (IsTextOnly limit depth (λ limits text. IsScanText Json limits file.now text))
        (IsFailureOfOne limit depth (λ limits error. IsScanError limits file.now error))
        buffer.old buffer.new answer.new result }
{
    let Some(limits) = limits_of(limit, depth) else {
        return fail(Failure::WrongArgument(wrong_limit(limit), 0), answer);
    };
    fill_text(scan_json(alloc, file, limits), buffer, answer)
}
