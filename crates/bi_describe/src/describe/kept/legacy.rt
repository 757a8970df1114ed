//! What stays of a legacy image.

ghost use Rattle.std.specs.Prelude.{◌≡◌, ◌↔◌, ◌++◌, ◌∷◌, [], IfOk, IsTrue, OnOk, Option};
ghost use Rattle.std.specs.Prelude.{flat_map, map};
ghost use Rattle.std.specs.Option.{option_map};
ghost use Rattle.bi_legacy.specs.Meaning.{image_of};
ghost use Rattle.bi_common.specs.CommonLines.{header_code_lines, named_field};
ghost use Rattle.bi_common.specs.Lines.{Text};
ghost use Rattle.bi_common.specs.LineTokens.{line_tokens, tokens_of_lines};
ghost use Rattle.bi_describe.specs.MadeParts.{bytes_of_parts};
ghost use Rattle.bi_describe.specs.MadeWords.{ignored_words};
ghost use Rattle.bi_describe.specs.KeptImages.{IsKeptLegacy, numbered_part};
ghost use Rattle.bi_describe.specs.DeepDescriptions.{lines_with_inside};
ghost use Rattle.bi_describe.specs.Ignoring.{PayloadPlace as Place};
ghost use Rattle.bi_describe.specs.MadeInsides.{HoldInsides, is_one_of_places, kept_part_unless};
ghost use Rattle.bi_describe.specs.MadeInsides.{shown_by};
ghost use Rattle.bi_describe.specs.OpenedPayloads.{unless_opened};
ghost use Rattle.bi_describe.specs.ReducedMeanings.{OfReducedLegacy, ReducedTree};
ghost use Rattle.bi_describe.specs.ReducedMeanings.{ReducedLegacy, fields_alone, kept_part};
ghost use Rattle.bi_describe.specs.ReducedMeanings.{kept_time, numbered_parts, reduced_legacy};
ghost use Rattle.bi_describe.specs.ReducedMeanings.{reduced_header_lines, reduced_part_lines};
ghost use Rattle.bi_describe.specs.ReducedMeanings.{reduced_legacy_lines, time_lines};

use crate::describe::deep::put_part_with_inside;
use crate::describe::deep_pen::DeepPen;
use crate::describe::insides::Insides;
use crate::describe::legacy::{DescribedLegacy, put_part};
use crate::describe::part::DescribedPart;
use crate::ignored::{Ignored, PayloadPlace, has_part, is_part_ignored, is_time_ignored};
use bi_common::fields::Field;
use bi_common::lines::{LinePen, put_line, put_lines};
use bi_legacy::Fields;
use bi_legacy::codes::{arch_name, compression_name, os_name, type_name};
use std::alloc::{AllocError, Global};

/// A part that stays, with its index in the image.
#[derive(Clone, Copy)]
pub(crate) struct KeptPart<'a> {
    index: usize,
    part: DescribedPart<'a>,
}

/// What stays of a legacy image.
#[derive(Drop)]
pub(crate) struct KeptLegacy<'a> {
    /// The fields, of which the time does not count.
    fields: Fields<'a>,
    /// The time, if it stays.
    time: Option<u32>,
    parts: Vec<KeptPart<'a>>,
}

impl<'a> KeptLegacy<'a> {
    /// Returns what stays of an image.
    ///
    /// Fails only if memory runs out.
    pub(super) fn new(
        alloc: Global,
        image: &DescribedLegacy<'a>,
        words: &[Ignored],
    ) -> Result<KeptLegacy<'a>, AllocError>
        ensures { IfOk result (IsKeptLegacy (reduced_legacy (ignored_words words.now)
            (image_of image.now.fields (bytes_of_parts image.now.parts.items)))) }
    {
        let parts = kept_parts(alloc, &image.parts, words)?;
        Ok(KeptLegacy {
            fields: image.fields,
            time: time_that_stays(image.fields.time, words),
            parts,
        })
    }

    /// Puts the lines.
    pub(super) fn put_lines<L: LinePen>(&self, pen: &mut L)
        ensures { (image : ReducedLegacy) → IsKeptLegacy image self.now
            → L.puts pen.old (tokens_of_lines (reduced_legacy_lines image)) pen.new }
    {
        put_header(self.fields, self.time, pen);
        put_parts(&self.parts, pen);
    }

    /// Puts the lines, but for those of these parts, and those of what is inside the parts.
    pub(super) fn put_deep_lines<L: DeepPen>(
        &self,
        insides: &mut Insides,
        opened: &[&PayloadPlace],
        pen: &mut L,
    )
        ensures { (image : ReducedLegacy) (trees : Place → Option ReducedTree)
            → IsKeptLegacy image self.now → HoldInsides trees insides.old
            → L.puts pen.old (tokens_of_lines (lines_with_inside (shown_by trees opened.now)
            (reduced_legacy_lines image))) pen.new }
    {
        put_header(self.fields, self.time, pen);
        put_deep_parts(&self.parts, insides, opened, pen);
    }

    /// Returns whether what stays of two images is the same but for the bytes of these parts.
    pub(super) fn is_same_unless_opened(
        &self,
        other: &KeptLegacy<'_>,
        opened: &[&PayloadPlace],
    ) -> bool
        ensures { (image others : ReducedLegacy) → IsKeptLegacy image self.now
            → IsKeptLegacy others other.now → IsTrue result
            ↔ (unless_opened (is_one_of_places opened.now) (OfReducedLegacy image)
            ≡ unless_opened (is_one_of_places opened.now) (OfReducedLegacy others)) }
    {
        have_same_headers(self, other) && are_same_unless_opened(&self.parts, &other.parts, opened)
    }

    /// Returns whether what stays of two images is the same.
    pub(super) fn is_same(&self, other: &KeptLegacy<'_>) -> bool
        ensures { (image others : ReducedLegacy) → IsKeptLegacy image self.now
            → IsKeptLegacy others other.now → IsTrue result ↔ (image ≡ others) }
    {
        have_same_headers(self, other) && are_same_parts(&self.parts, &other.parts)
    }
}

/// Returns the time, if it stays.
fn time_that_stays(time: u32, words: &[Ignored]) -> Option<u32>
    ensures { result ≡ kept_time (ignored_words words.now) time }
{
    if is_time_ignored(words) {
        None
    } else {
        Some(time)
    }
}

/// Returns the parts that stay, with their indices.
///
/// Fails only if memory runs out.
fn kept_parts<'a>(
    alloc: Global,
    parts: &[DescribedPart<'a>],
    words: &[Ignored],
) -> Result<Vec<KeptPart<'a>>, AllocError>
    ensures { IfOk result (λ kept. map numbered_part kept.items
        ≡ flat_map (kept_part (ignored_words words.now))
        (numbered_parts 0 (bytes_of_parts parts.now))) }
{
    let mut kept = Vec::new(alloc);
    for index in 0..parts.len() {
        push_if_kept(&mut kept, index, parts[index], words)?;
    }
    Ok(kept)
}

/// Appends a part with its index, if it stays.
///
/// Fails only if memory runs out.
fn push_if_kept<'a>(
    kept: &mut Vec<KeptPart<'a>>,
    index: usize,
    part: DescribedPart<'a>,
    words: &[Ignored],
) -> Result<(), AllocError>
    ensures { OnOk result (map numbered_part kept.new.items ≡ map numbered_part kept.old.items
        ++ kept_part (ignored_words words.now) (index, part.entry.bytes.now)) }
{
    if is_part_ignored(words, index) {
        return Ok(());
    }
    kept.push(KeptPart { index, part })?;
    Ok(())
}

/// Puts the lines of the kind and of the fields, with the time if it stays.
fn put_header<L: LinePen>(fields: Fields, time: Option<u32>, pen: &mut L)
    ensures { L.puts pen.old (tokens_of_lines
        (reduced_header_lines (fields_alone (image_of fields.entry [])) time)) pen.new }
{
    put_lines(
        &[
            [Field::Text(b"kind"), Field::Text(b"legacy")],
            [Field::Text(b"name"), Field::Shown(fields.name)],
        ],
        pen,
    );
    put_time(time, pen);
    put_lines(
        &[
            [Field::Text(b"load"), Field::Hexadecimal(fields.load)],
            [Field::Text(b"entry"), Field::Hexadecimal(fields.entry)],
        ],
        pen,
    );
    put_codes(fields, pen);
}

/// Puts the line of the time, if it stays.
fn put_time<L: LinePen>(time: Option<u32>, pen: &mut L)
    ensures { L.puts pen.old (tokens_of_lines (time_lines time)) pen.new }
{
    if let Some(time) = time {
        put_line(
            &[Field::Text(b"time"), Field::Decimal(u64::from(time))],
            pen,
        );
    }
}

/// Puts the lines of the codes.
fn put_codes<L: LinePen>(fields: Fields, pen: &mut L)
    ensures { L.puts pen.old (tokens_of_lines (header_code_lines (image_of fields.entry [])))
        pen.new }
{
    put_code(b"os", os_name(fields.os), fields.os, pen);
    put_code(b"arch", arch_name(fields.arch), fields.arch, pen);
    put_code(
        b"type",
        type_name(fields.image_type),
        fields.image_type,
        pen,
    );
    let compression = compression_name(fields.compression);
    put_code(b"compression", compression, fields.compression, pen);
}

/// Puts the line of a code: its key, and its name or, if it has none, its number.
fn put_code<L: LinePen>(key: &[u8], name: Option<&'static str>, code: u8, pen: &mut L)
    ensures { L.puts pen.old (line_tokens (Text key.now
        ∷ named_field (option_map (λ name. name.now) name.entry) code ∷ [])) pen.new }
{
    match name {
        Some(name) => put_line(&[Field::Text(key), Field::Text(name.as_bytes())], pen),
        None => put_line(&[Field::Text(key), Field::Decimal(u64::from(code))], pen),
    }
}

/// Puts the lines of parts.
fn put_parts<L: LinePen>(parts: &[KeptPart], pen: &mut L)
    ensures { L.puts pen.old
        (tokens_of_lines (reduced_part_lines (map numbered_part parts.now))) pen.new }
{
    for part in parts {
        put_part(part.index, part.part, pen);
    }
}

/// Puts the lines of parts, but for those of these, and those of what is inside them.
fn put_deep_parts<L: DeepPen>(
    parts: &[KeptPart],
    insides: &mut Insides,
    opened: &[&PayloadPlace],
    pen: &mut L,
)
    ensures { (trees : Place → Option ReducedTree) → HoldInsides trees insides.old
        → L.puts pen.old (tokens_of_lines (lines_with_inside (shown_by trees opened.now)
        (reduced_part_lines (map numbered_part parts.now)))) pen.new }
{
    for part in parts {
        put_part_with_inside(part.index, part.part, insides, opened, pen);
    }
}

/// Returns whether the fields and what stays of the time are the same.
fn have_same_headers(one: &KeptLegacy, other: &KeptLegacy) -> bool
    ensures { IsTrue result ↔ ((fields_alone (image_of one.now.fields [])
        ≡ fields_alone (image_of other.now.fields [])) × (one.now.time ≡ other.now.time)) }
{
    are_same_fields(one.fields, other.fields) && one.time == other.time
}

/// Returns whether the fields but for the time are the same.
fn are_same_fields(one: Fields, other: Fields) -> bool
    ensures { IsTrue result
        ↔ (fields_alone (image_of one.entry []) ≡ fields_alone (image_of other.entry [])) }
{
    one.load == other.load
        && one.entry == other.entry
        && one.os == other.os
        && one.arch == other.arch
        && one.image_type == other.image_type
        && one.compression == other.compression
        && one.name == other.name
}

/// Returns whether these are the same parts with the same indices.
fn are_same_parts(one: &[KeptPart], other: &[KeptPart]) -> bool
    ensures { IsTrue result ↔ (map numbered_part one.now ≡ map numbered_part other.now) }
{
    if one.len() != other.len() {
        return false;
    }
    for index in 0..one.len() {
        if !is_same_part(one[index], other[index]) {
            return false;
        }
    }
    true
}

/// Returns whether these are the same parts with the same indices, but for the bytes of these.
fn are_same_unless_opened(one: &[KeptPart], other: &[KeptPart], opened: &[&PayloadPlace]) -> bool
    ensures { IsTrue result ↔ (map (kept_part_unless opened.now) one.now
        ≡ map (kept_part_unless opened.now) other.now) }
{
    if one.len() != other.len() {
        return false;
    }
    for index in 0..one.len() {
        if !is_same_unless_opened(one[index], other[index], opened) {
            return false;
        }
    }
    true
}

/// Returns whether two parts have the same index and, unless this is one of these, the same bytes.
fn is_same_unless_opened(one: KeptPart, other: KeptPart, opened: &[&PayloadPlace]) -> bool
    ensures { IsTrue result
        ↔ (kept_part_unless opened.now one.entry ≡ kept_part_unless opened.now other.entry) }
{
    one.index == other.index && (has_part(opened, one.index) || one.part.bytes == other.part.bytes)
}

/// Returns whether two parts have the same index and the same bytes.
fn is_same_part(one: KeptPart, other: KeptPart) -> bool
    ensures { IsTrue result ↔ (numbered_part one.entry ≡ numbered_part other.entry) }
{
    one.index == other.index && one.part.bytes == other.part.bytes
}
