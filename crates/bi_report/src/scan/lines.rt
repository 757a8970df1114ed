//! The lines of the boot images inside a file, and their objects in JSON.

ghost use Rattle.std.specs.Prelude.{◌≡◌, ◌<◌, ◌≤◌, [], ◌∷◌, IfErr, IfOk, OnOk, length};
ghost use Rattle.bi_base.specs.declared.fault.Error.TheVariants.{OutOfMemory};
ghost use Rattle.bi_common.specs.Json.{Member};
ghost use Rattle.bi_common.specs.JsonTokens.{json_tokens};
ghost use Rattle.bi_common.specs.LineTokens.{line_tokens};
ghost use Rattle.bi_common.specs.MadeFields.{field_of, member_of};
ghost use Rattle.bi_report.specs.ScannedImages.{kind_value, scanned_image_value};
ghost use Rattle.bi_report.specs.Scanning.{ClaimsNothing, PutsFirstFound, PutsFoundAt};
ghost use Rattle.bi_report.specs.Scanning.{kind_field as field_of_kind};
ghost use Rattle.bi_report.specs.Scanning.{kind_member as member_of_kind};
ghost use Rattle.bi_report.specs.Scanning.{scan_line, scanned_kind_word};
ghost use Rattle.bi_report.specs.Scanning.{scan_line_tokens, scanned_object, scanned_tokens};

use super::image_starts::ImageStarts;
use super::images::{ScannedImage, ScannedKind, find_image};
use bi_base::{Error, Limits};
use bi_common::fields::Field;
use bi_common::json_writer::{JsonPen, JsonValue, put_object};
use bi_common::lines::{LinePen, put_line};
use std::alloc::Global;

/// Puts the line of each boot image inside a file, in the order of their offsets, and returns
/// whether there is any. Fails only with OutOfMemory. Requires: `end` is at most the length of the
/// file, and no image that begins there or later claims any bytes.
pub(super) fn put_lines<L: LinePen>(
    alloc: Global,
    file: &[u8],
    end: usize,
    limits: Limits,
    pen: &mut L,
) -> Result<bool, Error>
    requires within { end ≤ length file.now }
    requires nothing { ClaimsNothing file.now end (length file.now) }
    ensures lines { IfOk result (λ any. PutsFirstFound L.puts scan_line_tokens limits file.now
        (length file.now) any pen.old pen.new) }
    ensures failed { IfErr result (λ error. error ≡ OutOfMemory) }
{
    let mut any = false;
    for offset in ImageStarts::new(file, end) {
        any |= put_line_at(alloc, file, offset, limits, pen)?;
    }
    Ok(any)
}

/// Puts the line of the boot image at an offset of a file, and returns whether one is accepted
/// there. Fails only with OutOfMemory. Requires: the offset is before the end of the file.
fn put_line_at<L: LinePen>(
    alloc: Global,
    file: &[u8],
    offset: usize,
    limits: Limits,
    pen: &mut L,
) -> Result<bool, Error>
    requires { offset < length file.now }
    ensures line { IfOk result (λ any. PutsFoundAt L.puts scan_line_tokens limits file.now offset
        any pen.old pen.new) }
    ensures failed { IfErr result (λ error. error ≡ OutOfMemory) }
{
    match find_image(alloc, file, offset, limits)? {
        Some(image) => {
            put_image_line(image, pen);
            Ok(true)
        }
        None => Ok(false),
    }
}

/// Puts the line of a boot image.
fn put_image_line<L: LinePen>(image: ScannedImage, pen: &mut L)
    ensures { L.puts pen.old (scan_line_tokens (scanned_image_value image.entry ∷ [])) pen.new }
{
    let words = [
        Field::Decimal(image.offset as u64),
        Field::Text(kind_word(image.kind)),
        Field::Decimal(image.extent as u64),
        kind_field(image.kind),
    ];
    put_line(&words, pen);
}

/// Puts the object of each boot image inside a file, as `put_lines` puts their lines.
pub(super) fn put_objects<J: JsonPen>(
    alloc: Global,
    file: &[u8],
    end: usize,
    limits: Limits,
    json: &mut J,
) -> Result<bool, Error>
    requires within { end ≤ length file.now }
    requires nothing { ClaimsNothing file.now end (length file.now) }
    ensures objects { IfOk result (λ any. PutsFirstFound J.puts scanned_tokens limits file.now
        (length file.now) any json.old json.new) }
    ensures failed { IfErr result (λ error. error ≡ OutOfMemory) }
{
    let mut any = false;
    for offset in ImageStarts::new(file, end) {
        any |= put_object_at(alloc, file, offset, limits, json)?;
    }
    Ok(any)
}

/// Puts the object of the boot image at an offset of a file, as `put_line_at` puts its line.
fn put_object_at<J: JsonPen>(
    alloc: Global,
    file: &[u8],
    offset: usize,
    limits: Limits,
    json: &mut J,
) -> Result<bool, Error>
    requires { offset < length file.now }
    ensures object { IfOk result (λ any. PutsFoundAt J.puts scanned_tokens limits file.now offset
        any json.old json.new) }
    ensures failed { IfErr result (λ error. error ≡ OutOfMemory) }
{
    match find_image(alloc, file, offset, limits)? {
        Some(image) => {
            put_image_object(image, json);
            Ok(true)
        }
        None => Ok(false),
    }
}

/// Puts the object of a boot image.
fn put_image_object<J: JsonPen>(image: ScannedImage, json: &mut J)
    ensures { J.puts json.old (scanned_tokens (scanned_image_value image.entry ∷ [])) json.new }
{
    let members = [
        ("offset", JsonValue::Number(image.offset as u64)),
        (
            "kind",
            JsonValue::String(Field::Text(kind_word(image.kind))),
        ),
        ("size", JsonValue::Number(image.extent as u64)),
        kind_member(image.kind),
    ];
    put_object(&members, json);
}

/// Returns the word for a kind.
fn kind_word(kind: ScannedKind) -> &'static [u8]
    ensures { result.now ≡ scanned_kind_word (kind_value kind.entry) }
{
    match kind {
        ScannedKind::Legacy(_) => b"legacy",
        ScannedKind::Fit(_) => b"fit",
    }
}

/// Returns the field for the name of an image, or for the number of its images.
fn kind_field<'a>(kind: ScannedKind<'a>) -> Field<'a, 'a>
    ensures { field_of result ≡ field_of_kind (kind_value kind.entry) }
{
    match kind {
        ScannedKind::Legacy(name) => Field::Shown(name),
        ScannedKind::Fit(images) => Field::Decimal(images as u64),
    }
}

/// Returns the member for it.
fn kind_member<'a>(kind: ScannedKind<'a>) -> (&'static str, JsonValue<'a, 'a>)
    ensures { member_of result ≡ member_of_kind (kind_value kind.entry) }
{
    match kind {
        ScannedKind::Legacy(name) => ("name", JsonValue::String(Field::Shown(name))),
        ScannedKind::Fit(images) => ("images", JsonValue::Number(images as u64)),
    }
}
