//! The listing of a legacy image.

ghost use Rattle.std.specs.Prelude.{[], ◌∷◌, map};
ghost use Rattle.bi_legacy.specs.PlacedParts.{part_model, placed_parts};
ghost use Rattle.bi_common.specs.JsonTokens.{json_tokens, member_tokens, value_tokens};
ghost use Rattle.bi_common.specs.LineTokens.{line_tokens, tokens_of_lines};
ghost use Rattle.bi_report.specs.Listing.{legacy_listing};
ghost use Rattle.bi_report.specs.Listing.{legacy_listing_object, listed_part_line, part_object};
ghost use Rattle.bi_report.specs.Listing.{parts_lines, parts_member};

use bi_common::common_lines::{put_header_lines, put_header_members};
use bi_common::fields::Field;
use bi_common::json_writer::{JsonPen, JsonToken, JsonValue, put_member, put_object};
use bi_common::lines::{LinePen, put_line};
use bi_legacy::{Legacy, Part};

/// Puts the lines of a legacy image.
pub(super) fn put_legacy_lines<L: LinePen>(image: &Legacy, pen: &mut L)
    ensures { L.puts pen.old (tokens_of_lines (legacy_listing image.now)) pen.new }
{
    let unused = Field::Decimal(u64::from(image.unused()));
    put_header_lines(image.fields(), pen);
    put_parts_lines(image, pen);
    put_line(&[Field::Text(b"unused"), unused], pen);
}

/// Puts the lines with the number of parts and with each part.
fn put_parts_lines<L: LinePen>(image: &Legacy, pen: &mut L)
    ensures { L.puts pen.old (tokens_of_lines (parts_lines image.now.image)) pen.new }
{
    let count = Field::Decimal(image.part_count() as u64);
    put_line(&[Field::Text(b"parts"), count], pen);
    for (index, part) in image.parts().enumerate() {
        put_part_line(index, &part, pen);
    }
}

/// Puts the line of a part.
fn put_part_line<L: LinePen>(index: usize, part: &Part, pen: &mut L)
    ensures { L.puts pen.old (line_tokens (listed_part_line index (part_model part.now))) pen.new }
{
    let words = [
        Field::Text(b"part"),
        Field::Decimal(index as u64),
        Field::Text(b"size"),
        Field::Decimal(part.bytes.len() as u64),
        Field::Text(b"at"),
        Field::Decimal(u64::from(part.place)),
    ];
    put_line(&words, pen);
}

/// Puts the object of a legacy image.
pub(super) fn put_legacy_object<J: JsonPen>(image: &Legacy, json: &mut J)
    ensures { J.puts json.old (json_tokens (legacy_listing_object image.now)) json.new }
{
    json.put(JsonToken::BeginObject);
    put_header_members(image.fields(), json);
    put_parts_member(image, json);
    put_member(
        ("unused", JsonValue::Number(u64::from(image.unused()))),
        json,
    );
    json.put(JsonToken::EndObject);
}

/// Puts the member for the parts.
pub fn put_parts_member<J: JsonPen>(image: &Legacy, json: &mut J)
    ensures { J.puts json.old (member_tokens (parts_member image.now.image ∷ [])) json.new }
{
    json.put(JsonToken::Name("parts"));
    json.put(JsonToken::BeginArray);
    put_part_objects(image, json);
    json.put(JsonToken::EndArray);
}

/// Puts the object of each part.
fn put_part_objects<J: JsonPen>(image: &Legacy, json: &mut J)
    ensures { J.puts json.old (value_tokens (map part_object (placed_parts image.now.image)))
        json.new }
{
    for part in image.parts() {
        put_part_object(&part, json);
    }
}

/// Puts the object of a part.
fn put_part_object<J: JsonPen>(part: &Part, json: &mut J)
    ensures { J.puts json.old (json_tokens (part_object (part_model part.now))) json.new }
{
    let members = [
        ("offset", JsonValue::Number(u64::from(part.place))),
        ("size", JsonValue::Number(part.bytes.len() as u64)),
    ];
    put_object(&members, json);
}
