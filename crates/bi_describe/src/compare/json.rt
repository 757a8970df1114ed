//! What differs between two boot images, in JSON.

ghost use Rattle.std.specs.Prelude.{◌≡◌, IfOk, map, string_bytes};
ghost use Rattle.bi_common.specs.Json.{json_line};
ghost use Rattle.bi_common.specs.JsonTokens.{json_tokens, value_tokens};
ghost use Rattle.bi_describe.specs.ComparisonJson.{comparison_object, signed_object};
ghost use Rattle.bi_describe.specs.MadeLines.{made_line, made_lines};

use super::signed_lines::SignedLine;
use bi_base::{MemoryPen, Pen};
use bi_common::fields::Field;
use bi_common::json_writer::{JsonPen, JsonToken, JsonValue, JsonWriter, put_member, put_object};
use std::alloc::{AllocError, Global};

/// Returns whether two meanings are the same and the lines of their differences, as one text of
/// JSON and a newline.
///
/// Fails only if memory runs out.
pub(super) fn comparison_json(
    alloc: Global,
    same: bool,
    lines: &[SignedLine],
) -> Result<String, AllocError>
    ensures { IfOk result (λ text. string_bytes text
        ≡ json_line (comparison_object same (made_lines lines.now))) }
{
    match String::from_utf8(json_bytes(alloc, same, lines)?) {
        Ok(text) => Ok(text),
        Err(_) => unreachable!(),
    }
}

/// Returns the bytes of that text.
fn json_bytes(alloc: Global, same: bool, lines: &[SignedLine]) -> Result<Vec<u8>, AllocError>
    ensures { IfOk result (λ bytes. bytes.items
        ≡ json_line (comparison_object same (made_lines lines.now))) }
{
    let mut pen = MemoryPen::new(alloc);
    put_comparison(same, lines, &mut JsonWriter::new(&mut pen));
    pen.put(b"\n");
    match pen.into_vec() {
        Ok(bytes) => Ok(bytes),
        Err(_) => Err(AllocError),
    }
}

/// Puts whether two meanings are the same and the lines of their differences.
fn put_comparison<J: JsonPen>(same: bool, lines: &[SignedLine], json: &mut J)
    ensures { J.puts json.old (json_tokens (comparison_object same (made_lines lines.now)))
        json.new }
{
    json.put(JsonToken::BeginObject);
    put_member(("same", JsonValue::Bool(same)), json);
    json.put(JsonToken::Name("differences"));
    json.put(JsonToken::BeginArray);
    put_lines(lines, json);
    json.put(JsonToken::EndArray);
    json.put(JsonToken::EndObject);
}

/// Puts the object of each line.
fn put_lines<J: JsonPen>(lines: &[SignedLine], json: &mut J)
    ensures { J.puts json.old (value_tokens (map signed_object (made_lines lines.now)))
        json.new }
{
    for line in lines {
        put_line(line, json);
    }
}

/// Puts the object of a line.
fn put_line<J: JsonPen>(line: &SignedLine, json: &mut J)
    ensures { J.puts json.old (json_tokens (signed_object (made_line line.now))) json.new }
{
    let sign = line.sign.text();
    let members = [
        ("sign", JsonValue::String(Field::Text(sign.as_bytes()))),
        ("line", JsonValue::String(Field::Text(line.text.as_bytes()))),
    ];
    put_object(&members, json);
}
