//! Writing a legacy image.

ghost use Rattle.std.specs.Prelude.{◌≡◌, ◌↔◌, ◌+◌, ◌*◌, ◌^◌, ◌<◌, ◌≤◌, length, map, IsTrue};
ghost use Rattle.std.specs.Prelude.{OnOk, IfOk, IfErr, IfSome, MatchOption, MatchBool, ⊤};
ghost use Rattle.bi_base.specs.Crc.{crc32};
ghost use Rattle.bi_base.specs.Checks.{IsFirstFault, HasNoFault};
ghost use Rattle.bi_legacy.specs.Meaning.{IsImageName, has_part_table, with_new_time};
ghost use Rattle.bi_legacy.specs.Parts.{parts_end_from, parts_start};
ghost use Rattle.bi_legacy.specs.Text.{normal_body};
ghost use Rattle.bi_legacy.specs.Emitting.{EmitPartPasses, emit_part_fault, emit_part_checks};
ghost use Rattle.bi_legacy.specs.Emitting.{IsEmitFault};
ghost use Rattle.bi_base.specs.Slices.{bytes_of};
ghost use Rattle.bi_legacy.specs.Emitting.{HasNoEmitFault, WroteImage, image_of_parts};

use crate::fields::{Fields, has_part_table};
use crate::header::{HEADER_SIZE, NAME_SIZE};
use crate::legacy::Legacy;
use crate::offsets::{IH_NAME, IH_TYPE};
use crate::part_table::table_offset;
use crate::text::{DataSummary, data_checksum, put_image};
use bi_base::{Cause, Error, Fault, Limits, Sink, SinkPen, refuse, up4};

/// Appends the normal text of a legacy image with these fields and parts (U-Boot, include/image.h).
///
/// The text is the header, with zeros after the name, and the data. The data of a multi-file image
/// or script is the part table, which is the size of each part and a size of zero, and then the
/// parts. All parts but the last are padded with zeros to a multiple of four bytes. Any other image
/// has one part, which is the data.
///
/// Fails with the first of these faults, and then appends nothing:
///
/// - BadField at 32, if the name is longer than 32 bytes or has a zero byte;
/// - BadField at 30, if the image is neither a multi-file image nor a script and does not have
///   exactly one part;
/// - TooLarge at `limits.file()`, if the text is longer than that;
/// - EmptyPart at `64 + 4 * index`, for the first empty part of a multi-file image or script.
///
/// All other errors are those of the sink. After one, the sink is as a failed `put` of the whole
/// text leaves it. Allocates nothing itself, and takes time linear in the number and the length of
/// the parts.
pub fn emit<S: Sink>(
    fields: Fields<'_>,
    parts: &[&[u8]],
    limits: Limits,
    sink: &mut S,
) -> Result<(), Error>
    ensures { let image = image_of_parts fields.entry parts.now in
        WroteImage S.appends S.fails limits image sink.old result sink.new }
{
    emit_with(fields, parts, None, limits, sink)
}

/// Appends the normal text of an image that was read, as `emit` does for its fields and parts.
///
/// Requires: `parts` are the parts of the image. The CRC-32 of the data is not computed again if
/// the data is the one part: it was checked when the image was read.
///
/// Fails with the same faults as `emit`, and then appends nothing. All other errors are those of
/// the sink. After one, the sink is as a failed `put` of the whole text leaves it.
pub fn emit_image<S: Sink>(
    image: &Legacy<'_>,
    parts: &[&[u8]],
    limits: Limits,
    sink: &mut S,
) -> Result<(), Error>
    requires { bytes_of parts.now ≡ image.now.image.parts }
    ensures { WroteImage S.appends S.fails limits image.now.image sink.old result sink.new }
{
    emit_updated_image(image, image.fields().time, parts, limits, sink)
}

/// Appends the normal text of an image that was read, with another time of creation: `time`, in
/// seconds since 1970. Requires: `parts` are the parts of the image. The errors are those of
/// `emit_image`, for the changed image.
pub fn emit_updated_image<S: Sink>(
    image: &Legacy<'_>,
    time: u32,
    parts: &[&[u8]],
    limits: Limits,
    sink: &mut S,
) -> Result<(), Error>
    requires { bytes_of parts.now ≡ image.now.image.parts }
    ensures { let updated = with_new_time time image.now.image in
        WroteImage S.appends S.fails limits updated sink.old result sink.new }
{
    let fields = Fields {
        time,
        ..image.fields()
    };
    emit_with(fields, parts, image.normal_data_checksum(), limits, sink)
}

/// Appends the normal text of an image with these fields and parts. Requires: the given checksum,
/// if there is one, is the CRC-32 of its normal data.
fn emit_with<S: Sink>(
    fields: Fields<'_>,
    parts: &[&[u8]],
    known_checksum: Option<u32>,
    limits: Limits,
    sink: &mut S,
) -> Result<(), Error>
    requires { IfSome known_checksum (λ checksum.
        checksum ≡ crc32 (normal_body fields.image_type (bytes_of parts.now))) }
    ensures { let image = image_of_parts fields.entry parts.now in
        WroteImage S.appends S.fails limits image sink.old result sink.new }
{
    let size = check_image(fields, parts, limits)?;
    let checksum = match known_checksum {
        Some(checksum) => checksum,
        None => data_checksum(fields.image_type, parts),
    };
    let mut pen = SinkPen::new(sink);
    put_image(fields, parts, DataSummary { size, checksum }, &mut pen);
    pen.result()
}

/// Checks an image to be written, and returns the size of its normal data.
fn check_image(fields: Fields<'_>, parts: &[&[u8]], limits: Limits) -> Result<u32, Fault>
    ensures ok { OnOk result (HasNoEmitFault limits (image_of_parts fields.entry parts.now)) }
    ensures size { IfOk result (λ size.
        size ≡ length (normal_body fields.entry.image_type (bytes_of parts.now))) }
    ensures fault { IfErr result (IsEmitFault limits (image_of_parts fields.entry parts.now)) }
{
    if !is_image_name(fields.name) {
        return refuse(Cause::BadField, IH_NAME as u32);
    }
    if !can_have_parts(fields.image_type, parts.len()) {
        return refuse(Cause::BadField, IH_TYPE as u32);
    }
    let most = limits.file() - HEADER_SIZE as u32;
    let Some(size) = data_size(fields.image_type, parts, most) else {
        return refuse(Cause::TooLarge, limits.file());
    };
    if has_part_table(fields.image_type) {
        check_parts(parts)?;
    }
    Ok(size)
}

/// Returns whether this name fits a header.
fn is_image_name(name: &[u8]) -> bool
    ensures { IsTrue result ↔ IsImageName name.now }
{
    name.len() <= NAME_SIZE && !name.contains(&0)
}

/// Returns whether an image of this type can have this many parts.
fn can_have_parts(image_type: u8, part_count: usize) -> bool
    ensures { IsTrue result ↔ MatchBool (has_part_table image_type) ⊤ (part_count ≡ 1) }
{
    has_part_table(image_type) || part_count == 1
}

/// Returns the size of the normal data. Returns None if it is more than `most`.
fn data_size(image_type: u8, parts: &[&[u8]], most: u32) -> Option<u32>
    ensures { let size = length (normal_body image_type (bytes_of parts.now)) in
        MatchOption result (most < size) (λ n. (n ≡ size) × (n ≤ most)) }
{
    let start = start_of_parts(image_type, parts);
    let end = end_within(start, parts, most as usize)?;
    Some(end as u32)
}

/// Returns the offset of the first of these parts in the normal data.
fn start_of_parts(image_type: u8, parts: &[&[u8]]) -> usize
    ensures { result ≡ parts_start image_type (bytes_of parts.now) }
{
    if has_part_table(image_type) {
        4 * (parts.len() + 1)
    } else {
        0
    }
}

/// Returns the end of the last of these parts. The first begins at `start`, and each later one at
/// the next multiple of four. Returns None if the end is after `most`. Requires: `most` is less
/// than 2^32.
fn end_within(start: usize, parts: &[&[u8]], most: usize) -> Option<usize>
    requires { most < 2 ^ 32 }
    ensures { let end = parts_end_from start (map length (bytes_of parts.now)) in
        MatchOption result (most < end) (λ n. (n ≡ end) × (n ≤ most)) }
{
    let mut end = start;
    for part in parts {
        if end > most {
            return None;
        }
        end = up4(end).checked_add(part.len())?;
    }
    if end > most { None } else { Some(end) }
}

/// Fails with EmptyPart at `64 + 4 * index` for the first part that is empty. Requires: with `n`
/// parts, `64 + 4 * n` is less than 2^32.
fn check_parts(parts: &[&[u8]]) -> Result<(), Fault>
    requires { 64 + 4 * length parts.now < 2 ^ 32 }
    ensures ok { OnOk result (HasNoFault EmitPartPasses (emit_part_checks 0 (bytes_of parts.now))) }
    ensures fault { let checks = emit_part_checks 0 (bytes_of parts.now) in
        IfErr result (IsFirstFault EmitPartPasses emit_part_fault checks) }
{
    for (index, part) in parts.iter().enumerate() {
        if part.is_empty() {
            return refuse(Cause::EmptyPart, table_offset(index));
        }
    }
    Ok(())
}
