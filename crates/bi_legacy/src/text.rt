//! Writing the normal text of an image, header and data, to a pen.

ghost use Rattle.std.specs.Prelude.{◌≡◌, ◌^◌, ◌<◌, ◌≤◌, [], length, replicate};
ghost use Rattle.bi_base.specs.Crc.{crc32};
ghost use Rattle.bi_legacy.specs.File.{header_cells};
ghost use Rattle.bi_legacy.specs.Parts.{part_table};
ghost use Rattle.bi_legacy.specs.Meaning.{image_of};
ghost use Rattle.bi_legacy.specs.Text.{with_zeros, joined_parts, normal_body, name_field};
ghost use Rattle.bi_legacy.specs.Text.{legacy_text};
ghost use Rattle.bi_base.specs.Slices.{bytes_of};
ghost use Rattle.bi_legacy.specs.Emitting.{image_of_parts};

use crate::fields::{Fields, has_part_table};
use crate::header::{MAGIC, NAME_SIZE};
use crate::pens::{ChecksumPen, put_cell};
use bi_base::{Crc32, Pen, up4};

/// The size of the data in bytes, and its CRC-32.
#[derive(Clone, Copy)]
pub(crate) struct DataSummary {
    pub(crate) size: u32,
    pub(crate) checksum: u32,
}

/// Puts the normal text of an image with these fields and parts. Requires: its normal data has this
/// size and checksum, and the name has at most 32 bytes.
#[tactic(auto, unfolding(crate::specs::Text::legacy_text, crate::specs::File::header))]
pub(crate) fn put_image<P: Pen>(
    fields: Fields<'_>,
    parts: &[&[u8]],
    summary: DataSummary,
    pen: &mut P,
)
    requires name { length fields.name.now ≤ 32 }
    requires size { summary.size ≡ length (normal_body fields.image_type (bytes_of parts.now)) }
    requires checksum { let body = normal_body fields.image_type (bytes_of parts.now) in
        summary.checksum ≡ crc32 body }
    ensures { P.puts pen.old (legacy_text (image_of_parts fields.entry parts.now)) pen.new }
{
    put_header(fields, checksum_to_write(fields, summary), summary, pen);
    put_data(fields.image_type, parts, pen)
}

/// Returns the CRC-32 of the normal data. Requires: the normal data has fewer than 2^32 bytes.
#[tactic(auto, unfolding(bi_base::specs::Crc::crc32))]
pub(crate) fn data_checksum(image_type: u8, parts: &[&[u8]]) -> u32
    requires { length (normal_body image_type (bytes_of parts.now)) < 2 ^ 32 }
    ensures { result ≡ crc32 (normal_body image_type (bytes_of parts.now)) }
{
    let mut pen = ChecksumPen { sum: Crc32::new() };
    put_data(image_type, parts, &mut pen);
    pen.sum.finish()
}

/// Returns the header checksum to be written: the CRC-32 of the header with zeros instead of its
/// checksum. Requires: the name has at most 32 bytes.
#[tactic(auto, unfolding(bi_base::specs::Crc::crc32))]
fn checksum_to_write(fields: Fields<'_>, summary: DataSummary) -> u32
    requires { length fields.name.now ≤ 32 }
    ensures { let field = name_field fields.entry.name.now in
        let image = image_of fields.entry [] in
        result ≡ crc32 (header_cells 0 summary.size summary.checksum image field) }
{
    let mut pen = ChecksumPen { sum: Crc32::new() };
    put_header(fields, 0, summary, &mut pen);
    pen.sum.finish()
}

/// Puts a header with these fields and this header checksum. Requires: the name has at most 32
/// bytes.
fn put_header<P: Pen>(fields: Fields<'_>, checksum: u32, summary: DataSummary, pen: &mut P)
    requires { length fields.name.now ≤ 32 }
    ensures { let field = name_field fields.entry.name.now in
        P.puts pen.old
        (header_cells checksum summary.size summary.checksum (image_of fields.entry []) field)
        pen.new }
{
    put_cell(MAGIC, pen);
    put_cell(checksum, pen);
    put_cell(fields.time, pen);
    put_cell(summary.size, pen);
    put_cell(fields.load, pen);
    put_cell(fields.entry, pen);
    put_cell(summary.checksum, pen);
    pen.put(&[
        fields.os,
        fields.arch,
        fields.image_type,
        fields.compression,
    ]);
    put_name(fields.name, pen)
}

/// Puts a name, and zeros up to the end of its field. Requires: the name has at most 32 bytes.
fn put_name<P: Pen>(name: &[u8], pen: &mut P)
    requires { length name.now ≤ 32 }
    ensures { P.puts pen.old (name_field name.now) pen.new }
{
    pen.put(name);
    put_zeros(NAME_SIZE - name.len(), pen)
}

/// Puts the normal data. Requires: the normal data has fewer than 2^32 bytes.
fn put_data<P: Pen>(image_type: u8, parts: &[&[u8]], pen: &mut P)
    requires { length (normal_body image_type (bytes_of parts.now)) < 2 ^ 32 }
    ensures { P.puts pen.old (normal_body image_type (bytes_of parts.now)) pen.new }
{
    if has_part_table(image_type) {
        put_part_table(parts, pen);
    }
    put_joined_parts(parts, pen)
}

/// Puts the part table. Requires: the parts together have fewer than 2^32 bytes.
fn put_part_table<P: Pen>(parts: &[&[u8]], pen: &mut P)
    requires { length (joined_parts (bytes_of parts.now)) < 2 ^ 32 }
    ensures { P.puts pen.old (part_table (bytes_of parts.now)) pen.new }
{
    for part in parts {
        put_cell(part.len() as u32, pen);
    }
    put_cell(0, pen)
}

/// Puts the parts. All but the last are padded with zeros to a multiple of four bytes.
fn put_joined_parts<P: Pen>(parts: &[&[u8]], pen: &mut P)
    ensures { P.puts pen.old (joined_parts (bytes_of parts.now)) pen.new }
{
    let Some((last, before)) = parts.split_last() else {
        return;
    };
    for part in before {
        put_padded(part, pen);
    }
    pen.put(last)
}

/// Puts some bytes, and zeros up to a multiple of four bytes.
fn put_padded<P: Pen>(bytes: &[u8], pen: &mut P)
    ensures { P.puts pen.old (with_zeros bytes.now) pen.new }
{
    pen.put(bytes);
    put_zeros(up4(bytes.len()) - bytes.len(), pen)
}

/// Puts this many zeros. Requires: at most 32.
fn put_zeros<P: Pen>(count: usize, pen: &mut P)
    requires { count ≤ 32 }
    ensures { P.puts pen.old (replicate count 0) pen.new }
{
    pen.put(&[0; NAME_SIZE][..count])
}
