//! JSON (RFC 8259), put token by token. There is no space or newline between tokens.

ghost use Rattle.std.specs.Prelude.{◌≡◌, ◌∷◌, ◌++◌, [], List, map};
ghost use Rattle.std.specs.Option.{option_map};
ghost use Rattle.bi_common.specs.Json.{bool_text, comma, json_object, json_text, string_or_null};
ghost use Rattle.bi_common.specs.Json.{string_text};
ghost use Rattle.bi_common.specs.JsonTokens.{JsonToken, bare_text, is_end, member_tokens};
ghost use Rattle.bi_common.specs.JsonTokens.{needs_comma, one, token_text, json_tokens};
ghost use Rattle.bi_common.specs.MadeFields.{member_of, json_token_of, value_json};
ghost use Rattle.bi_common.specs.Shown.{shown_text};
ghost use Rattle.bi_common.specs.Tokens.{PutsInTurn, PutsNothing};
ghost use Rattle.bi_common.specs.ValueTexts.{hexadecimal_digits};

use crate::fields::{Field, put_decimal};
use crate::json_strings::put_string;
use bi_base::Pen;

/// A value that is neither an array nor an object.
#[derive(Clone, Copy)]
pub enum JsonValue<'a, 'b> {
    /// A string of a word, as it is printed in a line.
    String(Field<'a, 'b>),
    /// A number in decimal digits.
    Number(u64),
    /// `true` or `false`.
    Bool(bool),
    /// `null`.
    Null,
}

/// Returns the value for a name that may not be there: `null` if it is not.
pub fn shown_or_null<'a>(name: Option<&'a [u8]>) -> JsonValue<'a, 'a>
    ensures { value_json result
        ≡ string_or_null (option_map shown_text (option_map (λ name. name.now) name.entry)) }
{
    match name {
        Some(name) => JsonValue::String(Field::Shown(name)),
        None => JsonValue::Null,
    }
}

/// Returns the value for the digits of bytes that may not be there: `null` if they are not.
pub fn digits_or_null<'a>(bytes: Option<&'a [u8]>) -> JsonValue<'a, 'a>
    ensures { value_json result
        ≡ string_or_null
        (option_map hexadecimal_digits (option_map (λ bytes. bytes.now) bytes.entry)) }
{
    match bytes {
        Some(bytes) => JsonValue::String(Field::Digits(bytes)),
        None => JsonValue::Null,
    }
}

/// A token.
#[derive(Clone, Copy)]
pub enum JsonToken<'a, 'b> {
    BeginArray,
    EndArray,
    BeginObject,
    EndObject,
    /// The name of a member.
    Name(&'a str),
    /// A value that is neither an array nor an object.
    Value(JsonValue<'a, 'b>),
}

/// Something that tokens of JSON are put to. It places the commas.
pub trait JsonPen {
    // A call: the pen before it, what is put, and the pen after it.
    ghost puts: { Self → List JsonToken → Self → Type 0 };

    /// Puts a token.
    fn put(&mut self, token: JsonToken)
        ensures { puts self.old (one (json_token_of token.entry)) self.new };

    // Putting nothing changes nothing.
    ghost puts_nothing: { PutsNothing puts };

    // Two puts in turn are one put of both lists.
    ghost puts_in_turn: { PutsInTurn puts };
}

/// A pen for JSON that puts the text of the tokens to another pen.
#[derive(Drop)]
pub struct JsonWriter<'a, P> {
    pen: &'a mut P,
    /// Whether a comma comes before the next value or member.
    needs_comma: bool,
}

impl<'a, P: Pen> JsonWriter<'a, P> {
    ghost use Rattle.std.specs.Prelude.{false};

    /// Returns a pen for one value.
    pub fn new(pen: &'a mut P) -> JsonWriter<'a, P>
        ensures same_borrow { result.pen.ghost_name ≡ pen.entry.ghost_name }
        ensures same_pen { result.pen.now ≡ pen.old }
        ensures no_comma { result.needs_comma ≡ false }
    {
        JsonWriter {
            pen,
            needs_comma: false,
        }
    }
}

impl<'a, P: Pen> JsonPen for JsonWriter<'a, P> {
    ghost use Rattle.bi_common.specs.JsonTokens.{json_writing};
    ghost use Rattle.bi_common.specs.MadeFields.{JsonPuts};
    ghost use Rattle.bi_common.specs.TokenLaws.{puts_no_tokens, puts_tokens_in_turn};

    ghost puts = { JsonPuts P.puts };

    fn put(&mut self, token: JsonToken) {
        put_token(token, self.needs_comma, self.pen);
        self.needs_comma = is_before_comma(token);
    }

    ghost puts_nothing = { λ a. puts_no_tokens P.puts json_writing P.puts_nothing a.pen
        a.needs_comma };

    ghost puts_in_turn = { λ a b c. puts_tokens_in_turn P.puts json_writing P.puts_in_turn a.pen
        b.pen c.pen a.needs_comma b.needs_comma c.needs_comma };
}

/// Puts a token, after a comma if a value or a member is before it. Puts nothing to a pen that has
/// failed: the tokens that are left of a long text then take no time.
fn put_token<P: Pen>(token: JsonToken, is_later: bool, pen: &mut P)
    ensures { P.puts pen.old (token_text is_later (json_token_of token.entry)) pen.new }
{
    if pen.has_failed() {
        return;
    }
    if !is_end_token(token) {
        put_comma(is_later, pen);
    }
    put_bare(token, pen);
}

/// Puts what comes before a value or a member: a comma, if it is not the first.
fn put_comma<P: Pen>(is_later: bool, pen: &mut P)
    ensures { P.puts pen.old (comma is_later) pen.new }
{
    if is_later {
        pen.put(b",");
    }
}

/// Returns whether a token ends an array or an object.
fn is_end_token(token: JsonToken) -> bool
    ensures { result ≡ is_end (json_token_of token.entry) }
{
    matches!(token, JsonToken::EndArray | JsonToken::EndObject)
}

/// Returns whether a comma comes before what follows a token, if that is not an end.
fn is_before_comma(token: JsonToken) -> bool
    ensures { result ≡ needs_comma (json_token_of token.entry) }
{
    matches!(
        token,
        JsonToken::EndArray | JsonToken::EndObject | JsonToken::Value(_)
    )
}

/// Puts a token without a comma.
fn put_bare<P: Pen>(token: JsonToken, pen: &mut P)
    ensures { P.puts pen.old (bare_text (json_token_of token.entry)) pen.new }
{
    match token {
        JsonToken::BeginArray => pen.put(b"["),
        JsonToken::EndArray => pen.put(b"]"),
        JsonToken::BeginObject => pen.put(b"{"),
        JsonToken::EndObject => pen.put(b"}"),
        JsonToken::Name(name) => put_bare_name(name, pen),
        JsonToken::Value(value) => put_scalar(value, pen),
    }
}

/// Puts the name of a member, and a colon.
fn put_bare_name<P: Pen>(name: &str, pen: &mut P)
    ensures { P.puts pen.old (string_text name.now ++ 58 ∷ []) pen.new }
{
    put_string(Field::Text(name.as_bytes()), pen);
    pen.put(b":");
}

/// Puts a value.
fn put_scalar<P: Pen>(value: JsonValue, pen: &mut P)
    ensures { P.puts pen.old (json_text (value_json value.entry)) pen.new }
{
    match value {
        JsonValue::String(word) => put_string(word, pen),
        JsonValue::Number(number) => put_decimal(number, pen),
        JsonValue::Bool(bool) => pen.put(bool_word(bool).as_bytes()),
        JsonValue::Null => pen.put(b"null"),
    }
}

/// Returns `true` or `false`.
fn bool_word(bool: bool) -> &'static str
    ensures { result.now ≡ bool_text bool }
{
    if bool { "true" } else { "false" }
}

/// Puts a value that is neither an array nor an object.
pub fn put_value<J: JsonPen>(value: JsonValue, json: &mut J)
    ensures { J.puts json.old (json_tokens (value_json value.entry)) json.new }
{
    json.put(JsonToken::Value(value));
}

/// Puts a member.
pub fn put_member<J: JsonPen>(member: (&str, JsonValue), json: &mut J)
    ensures { J.puts json.old (member_tokens (member_of member.entry ∷ [])) json.new }
{
    let (name, value) = member;
    json.put(JsonToken::Name(name));
    put_value(value, json);
}

/// Puts members of an object.
pub fn put_members<J: JsonPen>(members: &[(&str, JsonValue)], json: &mut J)
    ensures { J.puts json.old (member_tokens (map member_of members.now)) json.new }
{
    for member in members {
        put_member(*member, json);
    }
}

/// Puts an object of these members.
pub fn put_object<J: JsonPen>(members: &[(&str, JsonValue)], json: &mut J)
    ensures { J.puts json.old (json_tokens (json_object (map member_of members.now))) json.new }
{
    json.put(JsonToken::BeginObject);
    put_members(members, json);
    json.put(JsonToken::EndObject);
}
