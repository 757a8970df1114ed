//! The JSON of a flattened image tree, put to a pen.

ghost use Rattle.std.specs.Prelude.{◌≡◌, ◌∷◌, ◌++◌, [], flat_map, map};
ghost use Rattle.std.specs.Option.{option_map};
ghost use Rattle.bi_fit.specs.Judgement.{listed_names};
ghost use Rattle.bi_common.specs.CommonLines.{reservations_member};
ghost use Rattle.bi_common.specs.Json.{json_string};
ghost use Rattle.bi_common.specs.JsonTokens.{json_tokens, member_tokens, value_tokens};
ghost use Rattle.bi_describe.specs.ReadDescription.{blob_members, processor_members, read_tokens};
ghost use Rattle.bi_describe.specs.DescriptionJson.{digest_members, digest_object, payload_or_null};
ghost use Rattle.bi_describe.specs.DescriptionJson.{property_object, value_member};
ghost use Rattle.bi_describe.specs.EntryTokens.{entry_tokens, root_tokens};
ghost use Rattle.bi_describe.specs.ImagePayloads.{bytes_of_payload};
ghost use Rattle.bi_describe.specs.MadeDigests.{digest_made};
ghost use Rattle.bi_describe.specs.TreeEntries.{as_entry};
ghost use Rattle.bi_describe.specs.TreeEntries.{NodeBegins, NodeEnds, PayloadEntry};
ghost use Rattle.bi_describe.specs.TreeEntries.{PropertiesBegin, PropertyEntry, ChildrenBegin};

use super::entries::{Entry, PayloadDigest};
use super::image_payload::ImagePayload;
use bi_common::common_lines::put_reservations;
use bi_common::fields::{Field, are_quotable_texts};
use bi_common::json_writer::{JsonPen, JsonToken, JsonValue, put_member, put_members, put_value};
use bi_fdt::Blob;
use bi_fit::split_name;

/// Puts the object of a flattened image tree with these entries.
pub(super) fn put_fit<J: JsonPen>(blob: &Blob, entries: &[Entry], json: &mut J)
    ensures { J.puts json.old (read_tokens blob.now (map as_entry entries.now)) json.new }
{
    json.put(JsonToken::BeginObject);
    put_processor_members(blob, json);
    put_reservations_member(blob, json);
    put_root(entries, json);
    json.put(JsonToken::EndObject);
}

/// Puts the members of the boot processor and of the memory reservations of a devicetree.
pub(super) fn put_members_of_blob<J: JsonPen>(blob: &Blob, json: &mut J)
    ensures { J.puts json.old (member_tokens (blob_members blob.now)) json.new }
{
    let boot_cpu = JsonValue::Number(u64::from(blob.boot_cpu()));
    put_member(("boot_cpu", boot_cpu), json);
    put_reservations_member(blob, json);
}

/// Puts the members of the kind and of the boot processor.
pub(super) fn put_processor_members<J: JsonPen>(blob: &Blob, json: &mut J)
    ensures { J.puts json.old (member_tokens (processor_members blob.now.cpu)) json.new }
{
    let members = [
        ("kind", JsonValue::String(Field::Text(b"fit"))),
        ("boot_cpu", JsonValue::Number(u64::from(blob.boot_cpu()))),
    ];
    put_members(&members, json);
}

/// Puts the member of the memory reservations.
pub(super) fn put_reservations_member<J: JsonPen>(blob: &Blob, json: &mut J)
    ensures { J.puts json.old (member_tokens (reservations_member blob.now.reservations ∷ []))
        json.new }
{
    json.put(JsonToken::Name("reservations"));
    json.put(JsonToken::BeginArray);
    put_reservations(blob, json);
    json.put(JsonToken::EndArray);
}

/// Puts the member of the root of a tree with these entries.
pub(super) fn put_root<J: JsonPen>(entries: &[Entry], json: &mut J)
    ensures { J.puts json.old (root_tokens (map as_entry entries.now)) json.new }
{
    json.put(JsonToken::Name("root"));
    json.put(JsonToken::BeginObject);
    put_entries(entries, json);
    put_end(json);
}

/// Puts the tokens of these entries.
fn put_entries<J: JsonPen>(entries: &[Entry], json: &mut J)
    ensures { J.puts json.old (flat_map entry_tokens (map as_entry entries.now)) json.new }
{
    for entry in entries {
        put_entry(*entry, json);
    }
}

/// Puts the tokens of an entry.
pub(super) fn put_entry<J: JsonPen>(entry: Entry, json: &mut J)
    ensures { J.puts json.old (entry_tokens (as_entry entry.entry)) json.new }
{
    match entry {
        Entry::Begin(name) => put_begin(name, json),
        Entry::Payload(payload) => put_payload(payload, json),
        Entry::Properties => put_properties_begin(json),
        Entry::Property { name, value } => put_property(name, value, json),
        Entry::Children => put_children_begin(json),
        Entry::End => put_end(json),
    }
}

/// Puts what begins a node of this name.
fn put_begin<J: JsonPen>(name: &[u8], json: &mut J)
    ensures { J.puts json.old (entry_tokens (NodeBegins name.now)) json.new }
{
    json.put(JsonToken::BeginObject);
    put_member(("name", JsonValue::String(Field::Shown(name))), json);
}

/// Puts the member of the payload of an image node, if it has one.
fn put_payload<J: JsonPen>(payload: ImagePayload, json: &mut J)
    ensures { J.puts json.old (entry_tokens (PayloadEntry (bytes_of_payload payload.entry)))
        json.new }
{
    json.put(JsonToken::Name("payload"));
    put_payload_value(payload.digest, json);
}

/// Puts the size and the SHA-256 of a payload, or `null` if there is none.
fn put_payload_value<J: JsonPen>(digest: Option<PayloadDigest>, json: &mut J)
    ensures { J.puts json.old (json_tokens (payload_or_null (option_map digest_made digest)))
        json.new }
{
    match digest {
        Some(digest) => put_digest(digest, json),
        None => put_value(JsonValue::Null, json),
    }
}

/// Puts the size and the SHA-256 of a payload.
pub(super) fn put_digest<J: JsonPen>(digest: PayloadDigest, json: &mut J)
    ensures { J.puts json.old (json_tokens (digest_object (digest_made digest))) json.new }
{
    json.put(JsonToken::BeginObject);
    put_digest_members(digest, json);
    json.put(JsonToken::EndObject);
}

/// Puts the members of the size and the SHA-256 of a payload.
pub(super) fn put_digest_members<J: JsonPen>(digest: PayloadDigest, json: &mut J)
    ensures { J.puts json.old (member_tokens (digest_members (digest_made digest))) json.new }
{
    let members = [
        ("size", JsonValue::Number(digest.size as u64)),
        ("sha256", JsonValue::String(Field::Sha256(digest.sha256))),
    ];
    put_members(&members, json);
}

/// Puts what begins the properties of a node.
fn put_properties_begin<J: JsonPen>(json: &mut J)
    ensures { J.puts json.old (entry_tokens PropertiesBegin) json.new }
{
    json.put(JsonToken::Name("properties"));
    json.put(JsonToken::BeginArray);
}

/// Puts what ends the properties of a node, and begins its children.
fn put_children_begin<J: JsonPen>(json: &mut J)
    ensures { J.puts json.old (entry_tokens ChildrenBegin) json.new }
{
    json.put(JsonToken::EndArray);
    json.put(JsonToken::Name("children"));
    json.put(JsonToken::BeginArray);
}

/// Puts what ends the children of a node, and the node.
pub(super) fn put_end<J: JsonPen>(json: &mut J)
    ensures { J.puts json.old (entry_tokens NodeEnds) json.new }
{
    json.put(JsonToken::EndArray);
    json.put(JsonToken::EndObject);
}

/// Puts a property.
fn put_property<J: JsonPen>(name: &[u8], value: &[u8], json: &mut J)
    ensures { J.puts json.old (json_tokens (property_object (name.now, value.now))) json.new }
{
    json.put(JsonToken::BeginObject);
    put_member(("name", JsonValue::String(Field::Shown(name))), json);
    put_value_member(value, json);
    json.put(JsonToken::EndObject);
}

/// Puts the member for the value of a property.
fn put_value_member<J: JsonPen>(value: &[u8], json: &mut J)
    ensures { J.puts json.old (member_tokens (value_member value.now ∷ [])) json.new }
{
    if are_quotable_texts(value) {
        json.put(JsonToken::Name("strings"));
        json.put(JsonToken::BeginArray);
        put_strings(value, json);
        json.put(JsonToken::EndArray);
    } else {
        put_member(("hex", JsonValue::String(Field::Digits(value))), json);
    }
}

/// Puts the texts of a value as strings, as the values of an array.
fn put_strings<J: JsonPen>(value: &[u8], json: &mut J)
    ensures { J.puts json.old (value_tokens (map json_string (listed_names value.now))) json.new }
{
    let mut rest = value;
    while let Some((text, later)) = split_name(rest) {
        put_value(JsonValue::String(Field::Text(text)), json);
        rest = later;
    }
}
