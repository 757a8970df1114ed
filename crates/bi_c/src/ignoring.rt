//! Comparing what two files mean without what words name.

ghost use Rattle.std.specs.Prelude.{◌≡◌, IfErr, IfOk, string_bytes};
ghost use Rattle.std.specs.List.{AllByRecursion};
ghost use Rattle.bi_common.specs.declared.format.Format.TheVariants.{Lines, Json};
ghost use Rattle.bi_describe.specs.ComparingWithout.{AreComparedWithout, IsIgnoringError};
ghost use Rattle.bi_describe.specs.DeepComparing.{AreComparedDeepWithout, IsDeepIgnoringError};
ghost use Rattle.bi_describe.specs.IgnoredWords.{AreWordsOfValues};
ghost use Rattle.bi_describe.specs.MadeOptions.{ignoring_model};
ghost use Rattle.bi_describe.specs.MadeWords.{ignored_words as words_of_made};
ghost use Rattle.bi_c.specs.Answers.{FillsBuffer};
ghost use Rattle.bi_c.specs.IgnoringCalls.{AreComparedAs, IsErrorAs, IsIgnoringFailure};
ghost use Rattle.bi_c.specs.IgnoringCalls.{IsWithoutWords, IsWordsFailure};
ghost use Rattle.bi_c.specs.IgnoringCalls.{failure_of_ignored_error, pieces_in};
ghost use Rattle.bi_c.specs.PieceBuilding.{IsPieceInside};

use crate::answer::{Answer, fail};
use crate::argument::{Argument, wrong_limit};
use crate::arguments::limits_of;
use crate::building::pieces;
use crate::compare::fill_comparison;
use crate::failure::Failure;
use crate::region::Region;
use bi_base::Limits;
use bi_commands::compare::{
    CompareError, Comparison, IgnoringOptions, compare_ignoring, compare_ignoring_deep,
};
use bi_commands::format::Format;
use bi_commands::ignored::{Ignored, IgnoredError};
use std::alloc::Global;

/// The number of the reason that a word names nothing that can be left out.
const BAD_WORD: u32 = 16;

/// Two files that a call compares, and what is left out of both.
#[derive(Clone, Copy)]
struct FilePair<'a> {
    /// The first file.
    one: &'a [u8],
    /// The second file.
    other: &'a [u8],
    /// What the words are in.
    input: &'a [u8],
    /// The words for what is left out: regions of `input`.
    words: &'a [Region],
    /// The greatest number of bytes of a file.
    limit: u32,
    /// The greatest depth of a tree.
    depth: u32,
}

/// Writes the differences between what two files mean once something is left out of both to a
/// buffer, and sets `answer.value` to 1 if they then mean the same, and otherwise to 0. The words
/// for what is left out are regions of `input`. Returns the status.
#[unsafe(no_mangle)]
pub extern "C" fn bootimg_compare_ignoring(
    alloc: Global,
    one: &[u8],
    other: &[u8],
    input: &[u8],
    words: &[Region],
    limit: u32,
    depth: u32,
    buffer: &mut [u8],
    answer: &mut Answer,
) -> u32
    ensures { FillsBuffer
        (IsWithoutWords AreComparedWithout Lines limit depth input.now words.now one.now other.now)
        (IsIgnoringFailure IsIgnoringError limit depth input.now words.now one.now other.now)
        buffer.old buffer.new answer.new result }
{
    let files = FilePair {
        one,
        other,
        input,
        words,
        limit,
        depth,
    };
    fill_compared(alloc, files, false, Format::Lines, buffer, answer)
}

/// Writes the differences of `bootimg_compare_ignoring` as one text of JSON and a newline to a
/// buffer, and sets `answer.value` as it does. Returns the status.
#[unsafe(no_mangle)]
pub extern "C" fn bootimg_compare_ignoring_json(
    alloc: Global,
    one: &[u8],
    other: &[u8],
    input: &[u8],
    words: &[Region],
    limit: u32,
    depth: u32,
    buffer: &mut [u8],
    answer: &mut Answer,
) -> u32
    ensures { FillsBuffer
        (IsWithoutWords AreComparedWithout Json limit depth input.now words.now one.now other.now)
        (IsIgnoringFailure IsIgnoringError limit depth input.now words.now one.now other.now)
        buffer.old buffer.new answer.new result }
{
    let files = FilePair {
        one,
        other,
        input,
        words,
        limit,
        depth,
    };
    fill_compared(alloc, files, false, Format::Json, buffer, answer)
}

/// Does what `bootimg_compare_ignoring` does, with the devicetrees inside payloads or parts.
/// Returns the status.
#[unsafe(no_mangle)]
pub extern "C" fn bootimg_compare_deep(
    alloc: Global,
    one: &[u8],
    other: &[u8],
    input: &[u8],
    words: &[Region],
    limit: u32,
    depth: u32,
    buffer: &mut [u8],
    answer: &mut Answer,
) -> u32
    ensures { FillsBuffer
        (IsWithoutWords AreComparedDeepWithout Lines limit depth input.now words.now one.now
        other.now)
        (IsIgnoringFailure IsDeepIgnoringError limit depth input.now words.now one.now other.now)
        buffer.old buffer.new answer.new result }
{
    let files = FilePair {
        one,
        other,
        input,
        words,
        limit,
        depth,
    };
    fill_compared(alloc, files, true, Format::Lines, buffer, answer)
}

/// Writes the differences of `bootimg_compare_deep` as one text of JSON and a newline to a buffer,
/// and sets `answer.value` as it does. Returns the status.
#[unsafe(no_mangle)]
pub extern "C" fn bootimg_compare_deep_json(
    alloc: Global,
    one: &[u8],
    other: &[u8],
    input: &[u8],
    words: &[Region],
    limit: u32,
    depth: u32,
    buffer: &mut [u8],
    answer: &mut Answer,
) -> u32
    ensures { FillsBuffer
        (IsWithoutWords AreComparedDeepWithout Json limit depth input.now words.now one.now
        other.now)
        (IsIgnoringFailure IsDeepIgnoringError limit depth input.now words.now one.now other.now)
        buffer.old buffer.new answer.new result }
{
    let files = FilePair {
        one,
        other,
        input,
        words,
        limit,
        depth,
    };
    fill_compared(alloc, files, true, Format::Json, buffer, answer)
}

/// Writes the differences between two files in a form to a buffer, and the answer: with what is
/// inside payloads if `deep` is set. Returns the status.
fn fill_compared(
    alloc: Global,
    files: FilePair<'_>,
    deep: bool,
    format: Format,
    buffer: &mut [u8],
    answer: &mut Answer,
) -> u32
    ensures { let files = files.entry in FillsBuffer
        (IsWithoutWords (AreComparedAs deep) format files.limit files.depth files.input.now
        files.words.now files.one.now files.other.now)
        (IsIgnoringFailure (IsErrorAs deep) files.limit files.depth files.input.now
        files.words.now files.one.now files.other.now)
        buffer.old buffer.new answer.new result }
{
    let Some(limits) = limits_of(files.limit, files.depth) else {
        return fail(Failure::WrongArgument(wrong_limit(files.limit), 0), answer);
    };
    let ignored = match ignored_words(alloc, files.input, files.words) {
        Ok(ignored) => ignored,
        Err(failure) => return fail(failure, answer),
    };
    let options = IgnoringOptions {
        words: &ignored,
        quiet: false,
        format,
    };
    let compared = compare_files(alloc, files.one, files.other, limits, options, deep);
    fill_comparison(compared, buffer, answer)
}

/// Compares two files, with what is inside payloads if `deep` is set.
fn compare_files(
    alloc: Global,
    one: &[u8],
    other: &[u8],
    limits: Limits,
    options: IgnoringOptions,
    deep: bool,
) -> Result<Comparison, CompareError>
    ensures compared { IfOk result (λ comparison. AreComparedAs deep (ignoring_model options.entry)
        limits one.now other.now comparison.same (string_bytes comparison.differences)) }
    ensures failed { IfErr result (IsErrorAs deep limits one.now other.now) }
{
    if deep {
        compare_ignoring_deep(alloc, one, other, limits, options)
    } else {
        compare_ignoring(alloc, one, other, limits, options)
    }
}

/// Returns what the words in these regions of an input leave out.
///
/// Errors: OutOfMemory; WrongArgument, if a region is not inside the input; NotFound, with the
/// index of the first word that names nothing.
fn ignored_words(alloc: Global, input: &[u8], regions: &[Region]) -> Result<Vec<Ignored>, Failure>
    ensures inside { IfOk result (λ ignored.
        AllByRecursion (IsPieceInside input.now) regions.now) }
    ensures words { IfOk result (λ ignored. AreWordsOfValues
        (pieces_in input.now regions.now) (words_of_made ignored.items)) }
    ensures failed { IfErr result (IsWordsFailure input.now regions.now) }
{
    let values = match pieces(alloc, input, regions, Argument::Words) {
        Ok(values) => values,
        Err(failure) => return Err(failure),
    };
    match Ignored::parse_all(alloc, &values) {
        Ok(ignored) => Ok(ignored),
        Err(error) => Err(failure_of_words(error)),
    }
}

/// Returns the failure for an error of reading words.
fn failure_of_words(error: IgnoredError) -> Failure
    ensures { result ≡ failure_of_ignored_error error }
{
    match error {
        IgnoredError::BadValue(index) => Failure::NotFound(BAD_WORD, index),
        IgnoredError::OutOfMemory => Failure::OutOfMemory,
    }
}
