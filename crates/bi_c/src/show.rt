//! The page of a file, for a person, and what it says in JSON.

ghost use Rattle.bi_c.specs.Answers.{FillsBuffer};
ghost use Rattle.bi_c.specs.Calls.{IsFailureOfOne, IsPageFailure, IsPageText, IsTextOnly};
ghost use Rattle.bi_report.specs.CheckedFiles.{IsCheckError};
ghost use Rattle.bi_show.specs.ShownObjects.{IsShownObject};

use crate::answer::{Answer, fail};
use crate::argument::{Argument, wrong_limit};
use crate::arguments::{limits_of, yes_of};
use crate::failure::Failure;
use crate::texts::fill_text;
use bi_commands::show::{show, show_json};
use std::alloc::Global;

/// Writes the page of a file to a buffer. If `layout` is 1, the page has the regions of the file;
/// if it is 0, it has not. Returns the status.
#[unsafe(no_mangle)]
pub extern "C" fn bootimg_show(
    alloc: Global,
    file: &[u8],
    layout: u32,
    limit: u32,
    depth: u32,
    buffer: &mut [u8],
    answer: &mut Answer,
) -> u32
    ensures { FillsBuffer (IsPageText limit depth layout file.now)
        (IsPageFailure limit depth layout file.now) buffer.old buffer.new answer.new result }
{
    let Some(limits) = limits_of(limit, depth) else {
        return fail(Failure::WrongArgument(wrong_limit(limit), 0), answer);
    };
    let Some(has_layout) = yes_of(layout) else {
        return fail(Failure::WrongArgument(Argument::Layout, 0), answer);
    };
    fill_text(show(alloc, file, has_layout, limits), buffer, answer)
}

/// Writes what the page of a file says, without the regions of the file, as one text of JSON and a
/// newline to a buffer. Returns the status.
#[unsafe(no_mangle)]
pub extern "C" fn bootimg_show_json(
    alloc: Global,
    file: &[u8],
    limit: u32,
    depth: u32,
    buffer: &mut [u8],
    answer: &mut Answer,
) -> u32
    ensures { FillsBuffer
        (IsTextOnly limit depth (λ limits text. IsShownObject limits file.now text))
        (IsFailureOfOne limit depth (λ limits error. IsCheckError limits file.now error))
        buffer.old buffer.new answer.new result }
{
    let Some(limits) = limits_of(limit, depth) else {
        return fail(Failure::WrongArgument(wrong_limit(limit), 0), answer);
    };
    fill_text(show_json(alloc, file, limits), buffer, answer)
}
