//! Building a legacy image of pieces of the caller's memory.

ghost use Rattle.std.specs.Prelude.{◌≡◌, ◌↔◌, ℕ, List, IfErr, IfNone, IfOk, IfSome, IsTrue, map};
ghost use Rattle.std.specs.List.{AllByRecursion};
ghost use Rattle.bi_base.specs.Slices.{bytes_of};
ghost use Rattle.bi_legacy.specs.Meaning.{image_of};
ghost use Rattle.bi_c.specs.Answers.{FillsBuffer};
ghost use Rattle.bi_c.specs.Checks.{IsElementFailure};
ghost use Rattle.bi_c.specs.PieceBuilding.{IsBuiltOfPieces, IsPieceInside, IsPieceBuildFailure};
ghost use Rattle.bi_c.specs.PieceBuilding.{bytes_of_piece, legacy_of_pieces};

use crate::answer::{Answer, fail, fill};
use crate::argument::{Argument, wrong_limit};
use crate::arguments::limits_of;
use crate::failure::{Failure, failure_of};
use crate::legacy::LegacyFields;
use crate::region::Region;
use bi_legacy::Fields;
use bi_norm::build_legacy;
use std::alloc::Global;

/// Writes the legacy image with these fields and parts to a buffer. The name and the parts are
/// regions of `input`. Returns the status.
#[unsafe(no_mangle)]
pub extern "C" fn bootimg_build_legacy(
    alloc: Global,
    input: &[u8],
    fields: &LegacyFields,
    parts: &[Region],
    limit: u32,
    depth: u32,
    buffer: &mut [u8],
    answer: &mut Answer,
) -> u32
    ensures { FillsBuffer (IsBuiltOfPieces limit depth input.now fields.now parts.now)
        (IsPieceBuildFailure limit depth input.now fields.now parts.now)
        buffer.old buffer.new answer.new result }
{
    let Some(limits) = limits_of(limit, depth) else {
        return fail(Failure::WrongArgument(wrong_limit(limit), 0), answer);
    };
    let Some(name) = piece(input, fields.name) else {
        return fail(Failure::WrongArgument(Argument::Fields, 0), answer);
    };
    let pieces = match pieces(alloc, input, parts, Argument::Parts) {
        Ok(pieces) => pieces,
        Err(failure) => return fail(failure, answer),
    };
    match build_legacy(alloc, header_of(fields, name), &pieces, limits) {
        Ok(text) => fill(&text, 0, buffer, answer),
        Err(error) => fail(failure_of(error), answer),
    }
}

/// Returns the fields of a header with this name.
fn header_of<'a>(fields: &LegacyFields, name: &'a [u8]) -> Fields<'a>
    ensures { (parts : List (List ℕ)) → image_of result parts
        ≡ legacy_of_pieces name.entry.now fields.now parts }
{
    Fields {
        time: fields.time,
        load: fields.load,
        entry: fields.entry,
        os: fields.os,
        arch: fields.arch,
        image_type: fields.image_type,
        compression: fields.compression,
        name,
    }
}

/// Returns the bytes of the regions of an input in an array, which is this argument.
///
/// Errors: OutOfMemory; WrongArgument, if a region is not inside the input.
pub(crate) fn pieces<'a>(
    alloc: Global,
    input: &'a [u8],
    regions: &[Region],
    array: Argument,
) -> Result<Vec<&'a [u8]>, Failure>
    ensures inside { IfOk result (λ pieces.
        AllByRecursion (IsPieceInside input.entry.now) regions.now) }
    ensures pieces { IfOk result (λ pieces.
        bytes_of pieces.items ≡ map (bytes_of_piece input.entry.now) regions.now) }
    ensures failed { IfErr result
        (IsElementFailure array (IsPieceInside input.entry.now) regions.now) }
{
    let mut pieces = Vec::new(alloc);
    for region in regions {
        let Some(bytes) = piece(input, *region) else {
            return Err(Failure::WrongArgument(array, pieces.len()));
        };
        match pieces.push(bytes) {
            Ok(()) => {}
            Err(_) => return Err(Failure::OutOfMemory),
        }
    }
    Ok(pieces)
}

/// Returns the bytes of a region of an input. Returns None if it is not inside the input.
pub(crate) fn piece<'a>(input: &'a [u8], region: Region) -> Option<&'a [u8]>
    ensures inside { IfSome result (λ bytes. IsPieceInside input.entry.now region) }
    ensures bytes { IfSome result (λ bytes. bytes.now ≡ bytes_of_piece input.entry.now region) }
    ensures none { IfNone result (¬ (IsPieceInside input.entry.now region)) }
{
    if region.offset > input.len() {
        return None;
    }
    let rest = &input[region.offset..];
    if region.size > rest.len() {
        return None;
    }
    Some(&rest[..region.size])
}

/// Returns whether a region is inside an input.
pub(crate) fn is_inside(input: &[u8], region: Region) -> bool
    ensures { IsTrue result ↔ IsPieceInside input.now region }
{
    region.offset <= input.len() && region.size <= input.len() - region.offset
}
