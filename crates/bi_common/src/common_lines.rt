//! Lines and JSON that listings and descriptions share.

ghost use Rattle.std.specs.Prelude.{◌≡◌, ◌<◌, [], get_or, length, map};
ghost use Rattle.std.specs.Option.{option_map};
ghost use Rattle.bi_blob.specs.Blob.{end_pair};
ghost use Rattle.bi_legacy.specs.Meaning.{image_of};
ghost use Rattle.bi_common.specs.CommonLines.{header_code_lines, header_field_lines, header_lines};
ghost use Rattle.bi_common.specs.CommonLines.{header_members, named_code, named_field};
ghost use Rattle.bi_common.specs.CommonLines.{reservation_line, reservation_object, reservation_of};
ghost use Rattle.bi_common.specs.JsonTokens.{member_tokens, json_tokens, value_tokens};
ghost use Rattle.bi_common.specs.LineTokens.{line_tokens, tokens_of_lines};
ghost use Rattle.bi_common.specs.MadeFields.{value_json, field_of};

use crate::fields::Field;
use crate::json_writer::{JsonPen, JsonValue, put_members, put_object};
use crate::lines::{LinePen, put_line, put_lines};
use bi_fdt::Blob;
use bi_legacy::Fields;
use bi_legacy::codes::{arch_name, compression_name, os_name, type_name};

/// Puts the lines of a legacy image for its kind and the fields of its header.
pub fn put_header_lines<L: LinePen>(fields: Fields, pen: &mut L)
    ensures { L.puts pen.old (tokens_of_lines (header_lines (image_of fields.entry []))) pen.new }
{
    put_field_lines(fields, pen);
    put_code_lines(fields, pen);
}

/// Puts the lines of the kind, the name and the numbers.
fn put_field_lines<L: LinePen>(fields: Fields, pen: &mut L)
    ensures { L.puts pen.old (tokens_of_lines (header_field_lines (image_of fields.entry [])))
        pen.new }
{
    put_lines(
        &[
            [Field::Text(b"kind"), Field::Text(b"legacy")],
            [Field::Text(b"name"), Field::Shown(fields.name)],
            [Field::Text(b"time"), Field::Decimal(u64::from(fields.time))],
            [Field::Text(b"load"), Field::Hexadecimal(fields.load)],
            [Field::Text(b"entry"), Field::Hexadecimal(fields.entry)],
        ],
        pen,
    );
}

/// Puts the lines of the codes.
fn put_code_lines<L: LinePen>(fields: Fields, pen: &mut L)
    ensures { L.puts pen.old (tokens_of_lines (header_code_lines (image_of fields.entry [])))
        pen.new }
{
    let os = code_word(os_name(fields.os), fields.os);
    let arch = code_word(arch_name(fields.arch), fields.arch);
    let image_type = code_word(type_name(fields.image_type), fields.image_type);
    let compression = code_word(compression_name(fields.compression), fields.compression);
    put_lines(
        &[
            [Field::Text(b"os"), os],
            [Field::Text(b"arch"), arch],
            [Field::Text(b"type"), image_type],
            [Field::Text(b"compression"), compression],
        ],
        pen,
    );
}

/// Returns the word for a code: its name, or its number if it has none.
fn code_word(name: Option<&'static str>, code: u8) -> Field<'static, 'static>
    ensures { field_of result ≡ named_field (option_map (λ name. name.now) name.entry) code }
{
    match name {
        Some(name) => Field::Text(name.as_bytes()),
        None => Field::Decimal(u64::from(code)),
    }
}

/// Puts the members for the fields of a header.
pub fn put_header_members<J: JsonPen>(fields: Fields, json: &mut J)
    ensures { J.puts json.old (member_tokens (header_members (image_of fields.entry []))) json.new }
{
    let members = [
        ("kind", JsonValue::String(Field::Text(b"legacy"))),
        ("name", JsonValue::String(Field::Shown(fields.name))),
        ("time", JsonValue::Number(u64::from(fields.time))),
        ("load", JsonValue::Number(u64::from(fields.load))),
        ("entry", JsonValue::Number(u64::from(fields.entry))),
        ("os", code_json(os_name(fields.os), fields.os)),
        ("arch", code_json(arch_name(fields.arch), fields.arch)),
        (
            "type",
            code_json(type_name(fields.image_type), fields.image_type),
        ),
        (
            "compression",
            code_json(compression_name(fields.compression), fields.compression),
        ),
    ];
    put_members(&members, json);
}

/// Returns the value for a code in JSON: a string of its name, or its number if it has none.
fn code_json(name: Option<&'static str>, code: u8) -> JsonValue<'static, 'static>
    ensures { value_json result ≡ named_code (option_map (λ name. name.now) name.entry) code }
{
    match name {
        Some(name) => JsonValue::String(Field::Text(name.as_bytes())),
        None => JsonValue::Number(u64::from(code)),
    }
}

/// Puts a line for each memory reservation.
pub fn put_reservation_lines<L: LinePen>(blob: &Blob, pen: &mut L)
    ensures { L.puts pen.old (tokens_of_lines (map reservation_line blob.now.reservations))
        pen.new }
{
    for index in 0..blob.reservation_count() {
        put_reservation_line(reservation_at(blob, index), pen);
    }
}

/// Returns the address and the size of a memory reservation. Requires: there is one at this index.
fn reservation_at(blob: &Blob, index: usize) -> (u64, u64)
    requires { index < length blob.now.reservations }
    ensures { reservation_of result ≡ get_or blob.now.reservations index end_pair }
{
    blob.reservation(index).unwrap_or_default()
}

/// Puts the line of a memory reservation.
fn put_reservation_line<L: LinePen>(numbers: (u64, u64), pen: &mut L)
    ensures { L.puts pen.old (line_tokens (reservation_line (reservation_of numbers))) pen.new }
{
    let (address, size) = numbers;
    put_line(
        &[
            Field::Text(b"reservation"),
            Field::Hexadecimal64(address),
            Field::Hexadecimal64(size),
        ],
        pen,
    );
}

/// Puts an object for each memory reservation, as the values of an array.
pub fn put_reservations<J: JsonPen>(blob: &Blob, json: &mut J)
    ensures { J.puts json.old (value_tokens (map reservation_object blob.now.reservations))
        json.new }
{
    for index in 0..blob.reservation_count() {
        put_reservation_object(reservation_at(blob, index), json);
    }
}

/// Puts the object of a memory reservation.
fn put_reservation_object<J: JsonPen>(numbers: (u64, u64), json: &mut J)
    ensures { J.puts json.old (json_tokens (reservation_object (reservation_of numbers))) json.new }
{
    let (address, size) = numbers;
    let members = [
        ("address", JsonValue::String(Field::Hexadecimal64(address))),
        ("size", JsonValue::String(Field::Hexadecimal64(size))),
    ];
    put_object(&members, json);
}
