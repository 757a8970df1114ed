//! The values of properties as JSON.

ghost use Rattle.std.specs.Prelude.{◌≡◌, [], ◌∷◌, map};
ghost use Rattle.std.specs.Option.{option_and_then, option_map};
ghost use Rattle.bi_base.specs.Strings.{text_before_nul as text_before_nul_of};
ghost use Rattle.bi_fdt.specs.Views.{node_of};
ghost use Rattle.bi_fit.specs.Judgement.{listed_names};
ghost use Rattle.bi_common.specs.Json.{json_string};
ghost use Rattle.bi_common.specs.JsonTokens.{member_tokens, value_tokens};
ghost use Rattle.bi_common.specs.MadeFields.{value_json};
ghost use Rattle.bi_show.specs.FitPages.{value_in};
ghost use Rattle.bi_show.specs.ShownObjects.{name_value, number_in_value};
ghost use Rattle.bi_show.specs.ShownObjects.{only_text, value_of_number};
ghost use Rattle.bi_show.specs.ShownObjects.{text_in_value};
ghost use Rattle.bi_show.specs.ShownObjects.{texts_in, value_of_text};
ghost use Rattle.bi_show.specs.ShownObjects.{texts_member, texts_or_none};

use bi_base::{cell_at, text_before_nul, two_cells_at};
use bi_common::fields::{Field, are_quotable_texts};
use bi_common::json_writer::{JsonPen, JsonToken, JsonValue, put_value, shown_or_null};
use bi_fdt::NodeRef;
use bi_fit::split_name;

/// Returns the value for the text in a property of a node: `null` if there is no such property, or
/// its value is not exactly one text.
pub(super) fn text_property<'a>(node: NodeRef<'a, '_>, name: &[u8]) -> JsonValue<'a, 'a>
    ensures { value_json result ≡ value_of_text (value_in (node_of node.entry).own name.now) }
{
    text_value(node.property(name))
}

/// Returns the value for the text of a value, if it is exactly one text.
fn text_value(value: Option<&[u8]>) -> JsonValue<'_, '_>
    ensures { value_json result
        ≡ value_of_text (option_map (λ value. value.now) value.entry) }
{
    match text_in(value) {
        Some(text) => JsonValue::String(Field::Text(text)),
        None => JsonValue::Null,
    }
}

/// Returns the text of a value, if there is one and it is exactly one text.
fn text_in(value: Option<&[u8]>) -> Option<&[u8]>
    ensures { option_map (λ text. text.now) result
        ≡ option_and_then text_in_value (option_map (λ value. value.now) value.entry) }
{
    match value {
        Some(value) => {
            if are_quotable_texts(value) {
                only_name(value)
            } else {
                None
            }
        }
        None => None,
    }
}

/// Returns the name that a value lists, if it lists one.
fn only_name(value: &[u8]) -> Option<&[u8]>
    ensures { option_map (λ name. name.now) result ≡ only_text (listed_names value.entry.now) }
{
    match split_name(value) {
        Some((name, later)) => match split_name(later) {
            Some(_) => None,
            None => Some(name),
        },
        None => None,
    }
}

/// Returns the value for the number in a property of a node, which has one cell or two: `null` if
/// there is no such property, or its value has another length.
pub(super) fn number_property(node: NodeRef, name: &[u8]) -> JsonValue<'static, 'static>
    ensures { value_json result ≡ value_of_number (value_in (node_of node.entry).own name.now) }
{
    number_value(node.property(name))
}

/// Returns the value for the number in a value.
fn number_value(value: Option<&[u8]>) -> JsonValue<'static, 'static>
    ensures { value_json result
        ≡ value_of_number (option_map (λ value. value.now) value.entry) }
{
    match value {
        Some(value) => match number_in(value) {
            Some(number) => JsonValue::Number(number),
            None => JsonValue::Null,
        },
        None => JsonValue::Null,
    }
}

/// Returns the number in a value, if it has one cell or two.
fn number_in(value: &[u8]) -> Option<u64>
    ensures { result ≡ number_in_value value.now }
{
    match value.len() {
        4 => Some(u64::from(cell_at(value, 0))),
        8 => Some(two_cells_at(value, 0)),
        _ => None,
    }
}

/// Returns the value for the name in a property of a node, which is before the first zero byte:
/// `null` if there is no such property, or it has no zero byte.
pub(super) fn name_property<'a>(node: NodeRef<'a, '_>, name: &[u8]) -> JsonValue<'a, 'a>
    ensures { value_json result ≡ name_value (value_in (node_of node.entry).own name.now) }
{
    shown_or_null(name_in(node.property(name)))
}

/// Returns the name in a value.
fn name_in(value: Option<&[u8]>) -> Option<&[u8]>
    ensures { option_map (λ name. name.now) result
        ≡ option_and_then text_before_nul_of (option_map (λ value. value.now) value.entry) }
{
    match value {
        Some(value) => text_before_nul(value),
        None => None,
    }
}

/// Puts the member for the texts in the property `compatible` of a node: none if there is no such
/// property, or its value is not one or more texts.
pub(super) fn put_compatible<J: JsonPen>(node: NodeRef, json: &mut J)
    ensures { J.puts json.old (member_tokens (texts_member (node_of node.entry).own ∷ []))
        json.new }
{
    json.put(JsonToken::Name("compatible"));
    json.put(JsonToken::BeginArray);
    put_texts(node.property(b"compatible"), json);
    json.put(JsonToken::EndArray);
}

/// Puts the texts of a value as strings: none if there is no value, or it is not one or more texts.
fn put_texts<J: JsonPen>(value: Option<&[u8]>, json: &mut J)
    ensures { J.puts json.old (value_tokens (map json_string
        (texts_or_none (option_map (λ value. value.now) value.entry)))) json.new }
{
    if let Some(value) = value {
        put_texts_in(value, json);
    }
}

/// Puts the texts of a value as strings: none if it is not one or more texts.
fn put_texts_in<J: JsonPen>(value: &[u8], json: &mut J)
    ensures { J.puts json.old (value_tokens (map json_string (texts_in value.now))) json.new }
{
    if are_quotable_texts(value) {
        put_listed_texts(value, json);
    }
}

/// Puts the names that a value lists, as strings of their bytes.
fn put_listed_texts<J: JsonPen>(value: &[u8], json: &mut J)
    ensures { J.puts json.old (value_tokens (map json_string (listed_names value.now))) json.new }
{
    let mut rest = value;
    while let Some((text, later)) = split_name(rest) {
        put_value(JsonValue::String(Field::Text(text)), json);
        rest = later;
    }
}
