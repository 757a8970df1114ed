//! The configurations of a flattened image tree. What a configuration lists is read from its node,
//! so that no list is made in memory.

ghost use Rattle.std.specs.Prelude.{[], ◌∷◌, flat_map, map};
ghost use Rattle.bi_fdt.specs.Views.{node_of};
ghost use Rattle.bi_fit.specs.Judgement.{ListResult, listed_names};
ghost use Rattle.bi_common.specs.Json.{json_string};
ghost use Rattle.bi_common.specs.JsonTokens.{json_tokens, member_tokens, value_tokens};
ghost use Rattle.bi_common.specs.Lines.{Name};
ghost use Rattle.bi_common.specs.LineTokens.{one_field, tokens_of_lines};
ghost use Rattle.bi_common.specs.Shown.{shown_text};
ghost use Rattle.bi_report.specs.FitListing.{configuration_lines, configuration_object};
ghost use Rattle.bi_report.specs.FitListing.{configurations_member, key_lines, key_objects};
ghost use Rattle.bi_report.specs.FitListing.{keys_member, names_member};
ghost use Rattle.bi_report.specs.Listed.{IsListed};
ghost use Rattle.bi_report.specs.ReadListing.{read_configuration, read_configurations};

use crate::listed::{KeyList, listed_under};
use bi_common::fields::Field;
use bi_common::json_writer::{JsonPen, JsonToken, JsonValue, put_member, put_object, put_value};
use bi_common::lines::{LinePen, put_line, put_words};
use bi_fdt::NodeRef;
use bi_fit::{Fit, Key, split_name};

/// Puts the lines of each configuration.
pub(super) fn put_all_configuration_lines<L: LinePen>(fit: &Fit, pen: &mut L)
    ensures { L.puts pen.old
        (tokens_of_lines (flat_map configuration_lines (read_configurations fit.now))) pen.new }
{
    for node in fit.configuration_nodes() {
        put_configuration_lines(fit, node, pen);
    }
}

/// Puts the lines of a configuration: its name, and its keys in their order.
fn put_configuration_lines<'a, L: LinePen>(fit: &Fit<'a>, node: NodeRef<'a, '_>, pen: &mut L)
    ensures { L.puts pen.old (tokens_of_lines
        (configuration_lines (read_configuration fit.now.images (node_of node.entry)))) pen.new }
{
    put_line(&[Field::Text(b"config"), Field::Shown(node.name())], pen);
    put_keys_lines(fit, node, pen);
}

/// Puts the line of each key of a configuration.
fn put_keys_lines<'a, L: LinePen>(fit: &Fit<'a>, node: NodeRef<'a, '_>, pen: &mut L)
    ensures { let configuration = read_configuration fit.now.images (node_of node.entry) in
        L.puts pen.old (tokens_of_lines
        (flat_map (λ key. key_lines configuration.name key.0 key.1) configuration.keys)) pen.new }
{
    for key in Key::ALL {
        put_key_line(node.name(), key, listed_under(fit, node, key), pen);
    }
}

/// Puts the line of a key of the configuration of this name. Puts nothing if the configuration has
/// no such key.
fn put_key_line<L: LinePen>(configuration: &[u8], key: Key, listed: KeyList, pen: &mut L)
    ensures { (result_of : ListResult) → IsListed result_of listed.entry
        → L.puts pen.old (tokens_of_lines (key_lines configuration.now key result_of)) pen.new }
{
    let name = key.name().as_bytes();
    let (begin, shown, name) = (
        Field::Text(b"key"),
        Field::Shown(configuration),
        Field::Text(name),
    );
    match listed {
        KeyList::NoKey => (),
        KeyList::BadList => put_line(&[begin, shown, name, Field::Text(b"bad-list")], pen),
        KeyList::Missing(index) => {
            let index = Field::Decimal(index as u64);
            put_line(&[begin, shown, name, Field::Text(b"missing"), index], pen)
        }
        KeyList::Images(value) => {
            put_words(&[begin, shown, name, Field::Text(b"ok")], pen);
            put_names(value, pen);
            pen.end_line();
        }
    }
}

/// Puts the names that a value lists, as words.
fn put_names<L: LinePen>(value: &[u8], pen: &mut L)
    ensures { L.puts pen.old (flat_map one_field (map Name (listed_names value.now))) pen.new }
{
    let mut rest = value;
    while let Some((name, later)) = split_name(rest) {
        pen.put_word(Field::Shown(name));
        rest = later;
    }
}

/// Puts the member for the configurations.
pub(super) fn put_configurations_member<J: JsonPen>(fit: &Fit, json: &mut J)
    ensures { J.puts json.old
        (member_tokens (configurations_member (read_configurations fit.now) ∷ [])) json.new }
{
    json.put(JsonToken::Name("configurations"));
    json.put(JsonToken::BeginArray);
    put_configuration_objects(fit, json);
    json.put(JsonToken::EndArray);
}

/// Puts the object of each configuration.
fn put_configuration_objects<J: JsonPen>(fit: &Fit, json: &mut J)
    ensures { J.puts json.old
        (value_tokens (map configuration_object (read_configurations fit.now))) json.new }
{
    for node in fit.configuration_nodes() {
        put_configuration_object(fit, node, json);
    }
}

/// Puts the object of a configuration.
fn put_configuration_object<'a, J: JsonPen>(fit: &Fit<'a>, node: NodeRef<'a, '_>, json: &mut J)
    ensures { J.puts json.old (json_tokens
        (configuration_object (read_configuration fit.now.images (node_of node.entry)))) json.new }
{
    json.put(JsonToken::BeginObject);
    put_member(("name", JsonValue::String(Field::Shown(node.name()))), json);
    put_keys_member(fit, node, json);
    json.put(JsonToken::EndObject);
}

/// Puts the member for what a configuration lists.
pub fn put_keys_member<'a, J: JsonPen>(fit: &Fit<'a>, node: NodeRef<'a, '_>, json: &mut J)
    ensures { J.puts json.old (member_tokens
        (keys_member (read_configuration fit.now.images (node_of node.entry)).keys ∷ []))
        json.new }
{
    json.put(JsonToken::Name("keys"));
    json.put(JsonToken::BeginArray);
    put_key_objects(fit, node, json);
    json.put(JsonToken::EndArray);
}

/// Puts the object of each key of a configuration.
fn put_key_objects<'a, J: JsonPen>(fit: &Fit<'a>, node: NodeRef<'a, '_>, json: &mut J)
    ensures { J.puts json.old (value_tokens (flat_map (λ key. key_objects key.0 key.1)
        (read_configuration fit.now.images (node_of node.entry)).keys)) json.new }
{
    for key in Key::ALL {
        put_key_object(key, listed_under(fit, node, key), json);
    }
}

/// Puts the object of a key. Puts nothing if the configuration has no such key.
fn put_key_object<J: JsonPen>(key: Key, listed: KeyList, json: &mut J)
    ensures { (result_of : ListResult) → IsListed result_of listed.entry
        → J.puts json.old (value_tokens (key_objects key result_of)) json.new }
{
    let name = ("key", JsonValue::String(Field::Text(key.name().as_bytes())));
    match listed {
        KeyList::NoKey => (),
        KeyList::BadList => put_object(&[name, ("bad_list", JsonValue::Bool(true))], json),
        KeyList::Missing(index) => {
            put_object(&[name, ("missing", JsonValue::Number(index as u64))], json)
        }
        KeyList::Images(value) => {
            json.put(JsonToken::BeginObject);
            put_member(name, json);
            put_names_member(value, json);
            json.put(JsonToken::EndObject);
        }
    }
}

/// Puts the member for the images whose names a value lists.
fn put_names_member<J: JsonPen>(value: &[u8], json: &mut J)
    ensures { J.puts json.old (member_tokens (names_member (listed_names value.now) ∷ []))
        json.new }
{
    json.put(JsonToken::Name("images"));
    json.put(JsonToken::BeginArray);
    put_name_strings(value, json);
    json.put(JsonToken::EndArray);
}

/// Puts the names that a value lists, as strings.
fn put_name_strings<J: JsonPen>(value: &[u8], json: &mut J)
    ensures { J.puts json.old (value_tokens
        (map (λ name. json_string (shown_text name)) (listed_names value.now))) json.new }
{
    let mut rest = value;
    while let Some((name, later)) = split_name(rest) {
        put_value(JsonValue::String(Field::Shown(name)), json);
        rest = later;
    }
}
