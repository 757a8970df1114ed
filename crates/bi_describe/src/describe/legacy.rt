//! The description of a legacy image.

ghost use Rattle.std.specs.Prelude.{◌≡◌, ◌∷◌, [], IfOk, map};
ghost use Rattle.bi_legacy.specs.Meaning.{image_of};
ghost use Rattle.bi_common.specs.JsonTokens.{json_tokens, member_tokens, value_tokens};
ghost use Rattle.bi_common.specs.LineTokens.{line_tokens, tokens_of_lines};
ghost use Rattle.bi_describe.specs.ReadDescription.{described_parts_member, read_legacy_lines};
ghost use Rattle.bi_describe.specs.ReadDescription.{read_legacy_tokens};
ghost use Rattle.bi_describe.specs.DescriptionJson.{digest_object, legacy_object};
ghost use Rattle.bi_describe.specs.Descriptions.{digest_of_payload, legacy_lines, part_line};
ghost use Rattle.bi_describe.specs.Descriptions.{part_lines};
ghost use Rattle.bi_describe.specs.MadeParts.{bytes_of_parts, digest_of_part};

use super::digests::digest_of;
use super::json::put_digest;
use super::part::DescribedPart;
use bi_common::common_lines::{put_header_lines, put_header_members};
use bi_common::fields::Field;
use bi_common::json_writer::{JsonPen, JsonToken};
use bi_common::lines::{LinePen, put_line};
use bi_legacy::{Fields, Legacy};
use std::alloc::{AllocError, Global};

/// What the description of a legacy image is made from.
#[derive(Drop)]
pub(crate) struct DescribedLegacy<'a> {
    pub(crate) fields: Fields<'a>,
    pub(crate) parts: Vec<DescribedPart<'a>>,
}

impl<'a> DescribedLegacy<'a> {
    /// Returns what the description of a legacy image is made from.
    pub(super) fn new(alloc: Global, image: &Legacy<'a>) -> Result<DescribedLegacy<'a>, AllocError>
        ensures image { IfOk result (λ described.
            image_of described.fields (bytes_of_parts described.parts.items) ≡ image.now.image) }
        ensures lines { IfOk result (λ described.
            read_legacy_lines (image_of described.fields [])
            (map digest_of_part described.parts.items) ≡ legacy_lines image.now.image) }
        ensures tokens { IfOk result (λ described.
            read_legacy_tokens (image_of described.fields [])
            (map digest_of_part described.parts.items)
            ≡ json_tokens (legacy_object image.now.image)) }
    {
        let parts = parts_of(alloc, image)?;
        Ok(DescribedLegacy {
            fields: image.fields(),
            parts,
        })
    }

    /// Puts the lines.
    pub(super) fn put_lines<L: LinePen>(&self, pen: &mut L)
        ensures { L.puts pen.old (tokens_of_lines (read_legacy_lines (image_of self.now.fields [])
            (map digest_of_part self.now.parts.items))) pen.new }
    {
        put_header_lines(self.fields, pen);
        put_parts(&self.parts, pen);
    }

    /// Puts the object.
    pub(super) fn put_object<J: JsonPen>(&self, json: &mut J)
        ensures { J.puts json.old (read_legacy_tokens (image_of self.now.fields [])
            (map digest_of_part self.now.parts.items)) json.new }
    {
        json.put(JsonToken::BeginObject);
        put_header_members(self.fields, json);
        put_parts_member(&self.parts, json);
        json.put(JsonToken::EndObject);
    }
}

/// Returns each part with its digest.
fn parts_of<'a>(alloc: Global, image: &Legacy<'a>) -> Result<Vec<DescribedPart<'a>>, AllocError>
    ensures { IfOk result (λ parts. bytes_of_parts parts.items ≡ image.now.image.parts) }
{
    let mut parts = Vec::new(alloc);
    for part in image.parts() {
        let bytes = part.bytes;
        parts.push(DescribedPart {
            bytes,
            digest: digest_of(bytes),
        })?;
    }
    Ok(parts)
}

/// Puts the member of parts.
fn put_parts_member<J: JsonPen>(parts: &[DescribedPart], json: &mut J)
    ensures { J.puts json.old
        (member_tokens (described_parts_member (map digest_of_part parts.now) ∷ [])) json.new }
{
    json.put(JsonToken::Name("parts"));
    json.put(JsonToken::BeginArray);
    put_part_objects(parts, json);
    json.put(JsonToken::EndArray);
}

/// Puts an object for each part, as the values of an array.
fn put_part_objects<J: JsonPen>(parts: &[DescribedPart], json: &mut J)
    ensures { J.puts json.old (value_tokens (map digest_object (map digest_of_part parts.now)))
        json.new }
{
    for part in parts {
        put_digest(part.digest, json);
    }
}

/// Puts a line for each part.
fn put_parts<L: LinePen>(parts: &[DescribedPart], pen: &mut L)
    ensures { L.puts pen.old (tokens_of_lines (part_lines 0 (map digest_of_part parts.now)))
        pen.new }
{
    for index in 0..parts.len() {
        put_part(index, parts[index], pen);
    }
}

/// Puts the line of a part.
pub(super) fn put_part<L: LinePen>(index: usize, part: DescribedPart, pen: &mut L)
    ensures { L.puts pen.old (line_tokens (part_line index (digest_of_part part.entry))) pen.new }
{
    let digest = part.digest;
    let words = [
        Field::Text(b"part"),
        Field::Decimal(index as u64),
        Field::Text(b"size"),
        Field::Decimal(digest.size as u64),
        Field::Text(b"sha256"),
        Field::Sha256(digest.sha256),
    ];
    put_line(&words, pen);
}
