//! Reading a legacy image.

ghost use Rattle.std.specs.Prelude.{◌≡◌, ◌+◌, ◌-◌, ◌≤◌, length, map, slice_get, OnOk};
ghost use Rattle.std.specs.Prelude.{IfOk, IfErr, IsTrue, MatchOption};
ghost use Rattle.std.specs.Option.{option_map};
ghost use Rattle.bi_base.specs.Cells.{u32_at};
ghost use Rattle.bi_base.specs.Crc.{crc32};
ghost use Rattle.bi_legacy.specs.Meaning.{image_of, has_part_table as is_part_table_type};
ghost use Rattle.bi_legacy.specs.Faults.{IsLegacyFault, IsOnlyLegacyFault, HasNoLegacyFault};
ghost use Rattle.bi_legacy.specs.Faults.{body_of};
ghost use Rattle.bi_legacy.specs.PlacedParts.{placed_parts};
ghost use Rattle.bi_legacy.specs.Text.{normal_body};
ghost use Rattle.bi_legacy.specs.Reading.{LegacyModel, IsReadLegacy, part_places};
ghost use Rattle.bi_legacy.specs.ReadImage.{IsReaderState, parts_of_body, read_image, read_end};

use crate::fields::{Fields, has_part_table};
use crate::header::{HEADER_SIZE, check_header};
use crate::offsets::{
    IH_ARCH, IH_COMP, IH_DCRC, IH_EP, IH_LOAD, IH_NAME, IH_OS, IH_SIZE, IH_TIME, IH_TYPE,
};
use crate::part_table::{PartTable, find_parts};
use crate::parts::Parts;
use bi_base::{Fault, Limits, before_nul, cell_at};
use std::marker::Model;

/// A legacy image that was read. It borrows the file, and allocates nothing.
#[derive(Drop)]
pub struct Legacy<'a> {
    fields: Fields<'a>,
    body: &'a [u8],
    table: PartTable,
    data_checksum: u32,
    unused: u32,
}

impl<'a> Model for Legacy<'a> {
    ghost Value = { LegacyModel };

    ghost view = { λ legacy. record {
      image = image_of legacy.fields (parts_of_body legacy.fields.image_type legacy.body.now);
      unused = legacy.unused;
    } };

    ghost invariant = { λ legacy. IsReaderState
        legacy.fields.image_type legacy.body.now legacy.table legacy.data_checksum };
}

impl<'a> Legacy<'a> {
    /// Reads a legacy image (U-Boot, include/image.h). The file may be longer than the image.
    ///
    /// Succeeds if the file is a legacy image of at most `limits.file()` bytes. Otherwise it fails
    /// with the fault of the first check that fails:
    ///
    /// - TooLarge at `limits.file()`, if the file is longer;
    /// - Truncated at 0, if the file has fewer than four bytes;
    /// - BadMagic at 0;
    /// - Truncated at 0, if the file has fewer than 64 bytes;
    /// - BadHeaderCrc at 4;
    /// - Truncated at 12, if the data ends after the file;
    /// - BadDataCrc at 24;
    /// - BadPartTable at 64, for a multi-file image or script if its part table has no end;
    /// - BadPart at `64 + 4 * k`, for the first part k of such an image that ends after the data.
    pub fn read(file: &'a [u8], limits: Limits) -> Result<Legacy<'a>, Fault>
        ensures read { IfOk result (IsReadLegacy limits file.entry.now) }
        ensures fault { IfErr result (IsOnlyLegacyFault limits file.entry.now) }
    {
        parse(file, limits)
    }

    /// Returns the fields of the header.
    pub fn fields(&self) -> Fields<'a>
        ensures { image_of result self.now.image.parts ≡ self.now.image }
    {
        self.fields
    }

    /// Returns the number of parts. It is 1 unless the image is a multi-file image or a script.
    pub fn part_count(&self) -> usize
        ensures { result ≡ length self.now.image.parts }
    {
        self.table.part_count
    }

    /// Returns the parts in their order, with their offsets. Iterating over all of them takes time
    /// linear in their number.
    pub fn parts(&self) -> Parts<'a>
        ensures parts { result ≡ placed_parts self.now.image }
        ensures bytes { map (λ part. part.bytes) result ≡ self.now.image.parts }
    {
        Parts::new(
            self.body,
            has_part_table(self.fields.image_type),
            self.table,
        )
    }

    /// Returns part `index`, counted from 0. Returns None if there is no such part. Takes time
    /// linear in `index`.
    pub fn part(&self, index: usize) -> Option<&'a [u8]>
        ensures { option_map (λ part. part.now) result ≡ slice_get self.now.image.parts index }
    {
        Some(self.parts().nth(index)?.bytes)
    }

    /// Returns the offset in the file of the first byte of part `index`, counted from 0. Returns
    /// None if there is no such part. Takes time linear in `index`.
    pub fn part_place(&self, index: usize) -> Option<u32>
        ensures { result ≡ slice_get (part_places self.now.image) index }
    {
        Some(self.parts().nth(index)?.place)
    }

    /// Returns the CRC-32 of the normal data from the header, if the data is the one part of the
    /// image. Returns None for multi-file images and scripts: their normal data may differ from the
    /// data of the file.
    pub(crate) fn normal_data_checksum(&self) -> Option<u32>
        ensures { let image = self.now.image in
            MatchOption result (IsTrue (is_part_table_type image.image_type)) (λ checksum.
            checksum ≡ crc32 (normal_body image.image_type image.parts)) }
    {
        if has_part_table(self.fields.image_type) {
            None
        } else {
            Some(self.data_checksum)
        }
    }

    /// Returns the number of bytes of the file after the last part, or after the part table if
    /// there are no parts.
    pub fn unused(&self) -> u32
        ensures { result ≡ self.now.unused }
    {
        self.unused
    }
}

/// Checks a file, and reads the image and the number of unused bytes.
fn parse<'a>(file: &'a [u8], limits: Limits) -> Result<Legacy<'a>, Fault>
    ensures no_fault { OnOk result (HasNoLegacyFault limits file.entry.now) }
    ensures image { IfOk result (λ value. value.image ≡ read_image file.entry.now) }
    ensures unused { let file = file.entry.now in
        IfOk result (λ value. value.unused ≡ length file - (64 + read_end file)) }
    ensures fault { IfErr result (IsLegacyFault limits file.entry.now) }
{
    check_header(file, limits)?;
    let fields = fields_of(file);
    let body = body_at(file);
    let table = find_parts(fields.image_type, body)?;
    let unused = (file.len() - HEADER_SIZE - table.end) as u32;
    Ok(Legacy {
        fields,
        body,
        table,
        data_checksum: cell_at(file, IH_DCRC),
        unused,
    })
}

/// Returns the data of a file whose header was checked. Requires: the file has its header and its
/// data.
fn body_at<'a>(file: &'a [u8]) -> &'a [u8]
    requires whole { 64 ≤ length file.now }
    requires within { 64 + u32_at file.now 12 ≤ length file.now }
    ensures { result.now ≡ body_of file.entry.now }
{
    let size = cell_at(file, IH_SIZE) as usize;
    &file[HEADER_SIZE..HEADER_SIZE + size]
}

/// Returns the fields of a file whose header was checked. Requires: the file has at least 64 bytes.
fn fields_of<'a>(file: &'a [u8]) -> Fields<'a>
    requires { 64 ≤ length file.now }
    ensures { image_of result (read_image file.entry.now).parts ≡ read_image file.entry.now }
{
    Fields {
        time: cell_at(file, IH_TIME),
        load: cell_at(file, IH_LOAD),
        entry: cell_at(file, IH_EP),
        os: file[IH_OS],
        arch: file[IH_ARCH],
        image_type: file[IH_TYPE],
        compression: file[IH_COMP],
        name: before_nul(&file[IH_NAME..HEADER_SIZE]),
    }
}
