//! The fields and the parts of a legacy image.

ghost use Rattle.std.specs.Prelude.{◌≡◌, map};
ghost use Rattle.bi_legacy.specs.PlacedParts.{part_model, placed_parts};
ghost use Rattle.bi_c.specs.Answers.{FillsBuffer, IsThisOutput, Sets};
ghost use Rattle.bi_c.specs.Calls.{IsFailureOfOne};
ghost use Rattle.bi_c.specs.LegacyElements.{ArePartRegions, AreLegacyFields, IsLegacyReadError};
ghost use Rattle.bi_c.specs.LegacyElements.{fields_of_image, region_of_part};

use crate::answer::{Answer, DONE, NO_ROOM, answer_with, fail, succeed};
use crate::argument::wrong_limit;
use crate::arguments::limits_of;
use crate::failure::Failure;
use crate::region::Region;
use bi_legacy::{Legacy, Part};

/// The fields of the header of a legacy image.
#[repr(C)]
#[derive(Clone, Copy, Debug, PartialEq, Eq)]
pub struct LegacyFields {
    /// Where the name is in the file.
    pub name: Region,
    /// The time of creation, in seconds since 1970.
    pub time: u32,
    /// The address that the data is loaded to.
    pub load: u32,
    /// The address of the entry point.
    pub entry: u32,
    /// The code of the operating system.
    pub os: u8,
    /// The code of the processor architecture.
    pub arch: u8,
    /// The code of the image type.
    pub image_type: u8,
    /// The code of the compression.
    pub compression: u8,
}

/// Sets a struct to the fields of the header of a legacy image. Returns the status.
#[unsafe(no_mangle)]
pub extern "C" fn bootimg_legacy(
    file: &[u8],
    limit: u32,
    depth: u32,
    fields: &mut LegacyFields,
    answer: &mut Answer,
) -> u32
    ensures { Sets (AreLegacyFields limit depth file.now)
        (IsFailureOfOne limit depth (λ limits. IsLegacyReadError limits file.now))
        fields.old fields.new answer.new result }
{
    let Some(limits) = limits_of(limit, depth) else {
        return fail(Failure::WrongArgument(wrong_limit(limit), 0), answer);
    };
    match Legacy::read(file, limits) {
        Ok(image) => {
            *fields = fields_of(&image);
            succeed(0, 0, answer)
        }
        Err(fault) => fail(Failure::Refused(1, fault), answer),
    }
}

/// Returns the fields of a legacy image that was read.
fn fields_of(image: &Legacy<'_>) -> LegacyFields
    ensures { result ≡ fields_of_image image.now.image }
{
    let fields = image.fields();
    LegacyFields {
        name: Region {
            offset: 32,
            size: fields.name.len(),
        },
        time: fields.time,
        load: fields.load,
        entry: fields.entry,
        os: fields.os,
        arch: fields.arch,
        image_type: fields.image_type,
        compression: fields.compression,
    }
}

/// Writes where each part of a legacy image is to the beginning of an array, and sets
/// `answer.value` to the number of bytes of the file after the last part. Returns the status.
#[unsafe(no_mangle)]
pub extern "C" fn bootimg_parts(
    file: &[u8],
    limit: u32,
    depth: u32,
    parts: &mut [Region],
    answer: &mut Answer,
) -> u32
    ensures { FillsBuffer (ArePartRegions limit depth file.now)
        (IsFailureOfOne limit depth (λ limits. IsLegacyReadError limits file.now))
        parts.old parts.new answer.new result }
{
    let Some(limits) = limits_of(limit, depth) else {
        return fail(Failure::WrongArgument(wrong_limit(limit), 0), answer);
    };
    match Legacy::read(file, limits) {
        Ok(image) => fill_parts(&image, parts, answer),
        Err(fault) => fail(Failure::Refused(1, fault), answer),
    }
}

/// Writes where each part of a legacy image that was read is to an array, and the answer. Returns
/// the status.
fn fill_parts(image: &Legacy<'_>, regions: &mut [Region], answer: &mut Answer) -> u32
    ensures { FillsBuffer
        (IsThisOutput (map region_of_part (placed_parts image.now.image)) image.now.unused)
        (λ failure. ⊥) regions.old regions.new answer.new result }
{
    let count = image.part_count();
    *answer = answer_with(count, image.unused() as usize);
    if regions.len() < count {
        return NO_ROOM;
    }
    for (index, part) in image.parts().enumerate() {
        regions[index] = part_region(&part);
    }
    DONE
}

/// Returns where a part is in its file.
fn part_region(part: &Part<'_>) -> Region
    ensures { result ≡ region_of_part (part_model part.now) }
{
    Region {
        offset: part.place as usize,
        size: part.bytes.len(),
    }
}
