//! A legacy image as JSON.

ghost use Rattle.std.specs.Prelude.{[]};
ghost use Rattle.bi_base.specs.Sinks.{Wrote};
ghost use Rattle.bi_legacy.specs.Meaning.{image_of};
ghost use Rattle.bi_common.specs.Json.{json_line};
ghost use Rattle.bi_common.specs.JsonTokens.{json_tokens, member_tokens};
ghost use Rattle.bi_show.specs.ReadObjects.{read_legacy_object};
ghost use Rattle.bi_show.specs.ShownObjects.{shown_legacy_members};

use super::super::codes::{arch_json, compression_json, os_json, type_json};
use bi_base::{Error, Pen, Sink, SinkPen};
use bi_common::fields::Field;
use bi_common::json_writer::{JsonPen, JsonToken, JsonValue, JsonWriter, put_member, put_members};
use bi_legacy::{Fields, Legacy};
use bi_report::check::{Concerns, put_concerns_member};
use bi_report::list::put_parts_member;

/// Appends a legacy image that was read from this file as JSON. Fails as the sink does.
pub(super) fn append_legacy<S: Sink>(file: &[u8], image: &Legacy, sink: &mut S) -> Result<(), Error>
    ensures { Wrote S.appends S.fails sink.old (json_line (read_legacy_object file.now image.now))
        result sink.new }
{
    let mut pen = SinkPen::new(sink);
    put_legacy(file, image, &mut pen);
    pen.result()
}

/// Puts the text of a legacy image that was read from this file.
fn put_legacy<P: Pen>(file: &[u8], image: &Legacy, pen: &mut P)
    ensures { P.puts pen.old (json_line (read_legacy_object file.now image.now)) pen.new }
{
    put_legacy_object(file, image, &mut JsonWriter::new(pen));
    pen.put(b"\n");
}

/// Puts the object of a legacy image that was read from this file.
fn put_legacy_object<J: JsonPen>(file: &[u8], image: &Legacy, json: &mut J)
    ensures { J.puts json.old (json_tokens (read_legacy_object file.now image.now)) json.new }
{
    let unused = u64::from(image.unused());
    json.put(JsonToken::BeginObject);
    put_header_members(image.fields(), json);
    put_parts_member(image, json);
    put_member(("unused", JsonValue::Number(unused)), json);
    put_concerns_member(Concerns::of_legacy(file, image), json);
    json.put(JsonToken::EndObject);
}

/// Puts the members for the fields of a header. Each code has a name that can be given, if it has
/// one.
fn put_header_members<J: JsonPen>(fields: Fields, json: &mut J)
    ensures { J.puts json.old (member_tokens (shown_legacy_members (image_of fields.entry [])))
        json.new }
{
    let members = [
        ("kind", JsonValue::String(Field::Text(b"legacy"))),
        ("name", JsonValue::String(Field::Shown(fields.name))),
        ("time", JsonValue::Number(u64::from(fields.time))),
        ("load", JsonValue::Number(u64::from(fields.load))),
        ("entry", JsonValue::Number(u64::from(fields.entry))),
        ("os", os_json(fields.os)),
        ("arch", arch_json(fields.arch)),
        ("type", type_json(fields.image_type)),
        ("compression", compression_json(fields.compression)),
    ];
    put_members(&members, json);
}
