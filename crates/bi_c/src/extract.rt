//! Where a part or a payload of a file is.

ghost use Rattle.std.specs.Prelude.{◌≡◌};
ghost use Rattle.bi_base.specs.Limits.{IsInRange};
ghost use Rattle.bi_commands.specs.declared.extract.Select.TheVariants.{Part, Image, Config};
ghost use Rattle.bi_commands.specs.declared.extract.Select.TheVariants.{Default};
ghost use Rattle.bi_c.specs.Answers.{Answers};
ghost use Rattle.bi_c.specs.Arguments.{bounds, HasKey, KeyCheck, key_of as key_of_number};
ghost use Rattle.bi_c.specs.Checks.{LimitsCheck};
ghost use Rattle.bi_c.specs.Extracting.{IsExtracted, IsExtractCallFailure, IsFound};
ghost use Rattle.bi_c.specs.Extracting.{IsSelectFailure};
ghost use Rattle.bi_c.specs.Extracting.{failure_of_extract_error};

use crate::answer::{Answer, fail, succeed};
use crate::argument::{Argument, wrong_limit};
use crate::arguments::{key_of, limits_of};
use crate::failure::{Failure, failure_of, failure_of_list};
use crate::regions::find;
use bi_base::Limits;
use bi_commands::extract::{ExtractError, Select};
use std::alloc::Global;

/// Finds the part with the given index, counted from 0, of a legacy image. Sets `answer.value` to
/// the offset of its first byte in the file, and `answer.size` to its size in bytes. Returns the
/// status.
#[unsafe(no_mangle)]
pub extern "C" fn bootimg_extract_part(
    alloc: Global,
    file: &[u8],
    index: u32,
    limit: u32,
    depth: u32,
    answer: &mut Answer,
) -> u32
    ensures { Answers
        (IsExtracted (IsInRange limit depth) (bounds limit depth) (Part index) file.now)
        (IsExtractCallFailure (LimitsCheck limit depth) (bounds limit depth) (Part index) file.now)
        answer.new result }
{
    let Some(limits) = limits_of(limit, depth) else {
        return fail(Failure::WrongArgument(wrong_limit(limit), 0), answer);
    };
    extract(alloc, file, Select::Part(index), limits, answer)
}

/// Finds the payload of the image with the given name in a flattened image tree. Sets
/// `answer.value` to the offset of its first byte in the file, and `answer.size` to its size in
/// bytes. Returns the status.
#[unsafe(no_mangle)]
pub extern "C" fn bootimg_extract_image(
    alloc: Global,
    file: &[u8],
    name: &[u8],
    limit: u32,
    depth: u32,
    answer: &mut Answer,
) -> u32
    ensures { Answers
        (IsExtracted (IsInRange limit depth) (bounds limit depth) (Image name.entry) file.now)
        (IsExtractCallFailure (LimitsCheck limit depth) (bounds limit depth) (Image name.entry)
        file.now)
        answer.new result }
{
    let Some(limits) = limits_of(limit, depth) else {
        return fail(Failure::WrongArgument(wrong_limit(limit), 0), answer);
    };
    extract(alloc, file, Select::Image(name), limits, answer)
}

/// Finds a payload that the configuration with the given name in a flattened image tree lists under
/// the key with the number `key`, at the given index, counted from 0. Sets `answer.value` to the
/// offset of its first byte in the file, and `answer.size` to its size in bytes. Returns the
/// status.
#[unsafe(no_mangle)]
pub extern "C" fn bootimg_extract_config(
    alloc: Global,
    file: &[u8],
    name: &[u8],
    key: u32,
    index: u32,
    limit: u32,
    depth: u32,
    answer: &mut Answer,
) -> u32
    ensures { let select = Config name.entry (key_of_number key) index in Answers
        (IsExtracted (HasKey limit depth key) (bounds limit depth) select file.now)
        (IsExtractCallFailure (KeyCheck limit depth key) (bounds limit depth) select file.now)
        answer.new result }
{
    let Some(limits) = limits_of(limit, depth) else {
        return fail(Failure::WrongArgument(wrong_limit(limit), 0), answer);
    };
    let Some(listed) = key_of(key) else {
        return fail(Failure::WrongArgument(Argument::Key, 0), answer);
    };
    extract(
        alloc,
        file,
        Select::Config(name, listed, index),
        limits,
        answer,
    )
}

/// Finds a payload that the default configuration of a flattened image tree lists under the key
/// with the number `key`, at the given index, counted from 0. Sets `answer.value` to the offset of
/// its first byte in the file, and `answer.size` to its size in bytes. Returns the status.
#[unsafe(no_mangle)]
pub extern "C" fn bootimg_extract_default(
    alloc: Global,
    file: &[u8],
    key: u32,
    index: u32,
    limit: u32,
    depth: u32,
    answer: &mut Answer,
) -> u32
    ensures { let select = Default (key_of_number key) index in Answers
        (IsExtracted (HasKey limit depth key) (bounds limit depth) select file.now)
        (IsExtractCallFailure (KeyCheck limit depth key) (bounds limit depth) select file.now)
        answer.new result }
{
    let Some(limits) = limits_of(limit, depth) else {
        return fail(Failure::WrongArgument(wrong_limit(limit), 0), answer);
    };
    let Some(chosen) = key_of(key) else {
        return fail(Failure::WrongArgument(Argument::Key, 0), answer);
    };
    extract(alloc, file, Select::Default(chosen, index), limits, answer)
}

/// Writes where the selected bytes are, or why there are none, and returns the status.
fn extract(alloc: Global, file: &[u8], select: Select, limits: Limits, answer: &mut Answer) -> u32
    ensures { Answers (IsFound limits select.entry file.now)
        (IsSelectFailure limits select.entry file.now) answer.new result }
{
    match find(alloc, file, select, limits) {
        Ok(region) => succeed(region.size, region.offset, answer),
        Err(error) => fail(failure_of_extraction(error), answer),
    }
}

/// Returns the failure for an error of extracting.
fn failure_of_extraction(error: ExtractError) -> Failure
    ensures { result ≡ failure_of_extract_error error }
{
    match error {
        ExtractError::Failed(error) => failure_of(error),
        ExtractError::WrongKind => Failure::NotFound(1, 0),
        ExtractError::NoPart => Failure::NotFound(2, 0),
        ExtractError::NoImage => Failure::NotFound(3, 0),
        ExtractError::Config(error) => failure_of_list(error),
        ExtractError::NoIndex => Failure::NotFound(8, 0),
        ExtractError::NoPayload => Failure::NotFound(9, 0),
    }
}
