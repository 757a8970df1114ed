//! A text with the name of its image in each line, put to a pen.

ghost use Rattle.std.specs.Prelude.{◌≡◌, ◌∷◌, ◌<◌, ◌==◌, [], IfNone, IfSome, length};
ghost use Rattle.std.specs.List.{position};
ghost use Rattle.bi_common.specs.Json.{string_text};
ghost use Rattle.bi_common.specs.Shown.{shown_text};
ghost use Rattle.bi_common.specs.declared.format.Format.TheVariants.{Json, Lines};
ghost use Rattle.bi_labels.specs.LabelledTexts.{labelled_line, labelled_text, lines_in};

use bi_base::Pen;
use bi_common::fields::{Field, put_field};
use bi_common::format::Format;
use bi_common::json_writer::{JsonPen, JsonToken, JsonValue, JsonWriter};

/// Puts a text in which each line has this name, as names are printed. In a text of lines the name,
/// a colon and a space are before each. A line of JSON becomes an object of the name, `file`, and
/// the value, `result`.
///
/// What follows the last newline of the text is a line, too, if it is not empty.
pub fn put_labelled<P: Pen>(text: &[u8], name: &[u8], format: Format, pen: &mut P)
    ensures { P.puts pen.old (labelled_text format (shown_text name.now) text.now) pen.new }
{
    let mut rest = text;
    while let Some((line, later)) = split_line(rest) {
        put_line(line, name, format, pen);
        rest = later;
    }
}

/// Returns the first line of a text, without its newline, and the text after it. Returns None if
/// the text is empty: it then has no line.
fn split_line(text: &[u8]) -> Option<(&[u8], &[u8])>
    ensures none { IfNone result (lines_in text.now ≡ []) }
    ensures some { IfSome result (λ split.
        lines_in text.now ≡ split.0.now ∷ lines_in split.1.now) }
    ensures shorter { IfSome result (λ split. length split.1.now < length text.now) }
{
    if text.is_empty() {
        return None;
    }
    match position_of_newline(text) {
        Some(end) => Some((&text[..end], &text[end + 1..])),
        None => Some((text, &[])),
    }
}

/// Returns the index of the first newline, if there is one.
fn position_of_newline(text: &[u8]) -> Option<usize>
    ensures { result ≡ position (λ byte. byte == 10) text.now }
{
    text.iter().position(|&byte| byte == b'\n')
}

/// Puts a line with this name.
fn put_line<P: Pen>(line: &[u8], name: &[u8], format: Format, pen: &mut P)
    ensures { P.puts pen.old (labelled_line format (shown_text name.now) line.now) pen.new }
{
    match format {
        Format::Lines => {
            put_field(Field::Shown(name), pen);
            pen.put(b": ");
            pen.put(line);
            pen.put(b"\n");
        }
        Format::Json => {
            pen.put(b"{\"file\":");
            put_string(name, pen);
            pen.put(b",\"result\":");
            pen.put(line);
            pen.put(b"}\n");
        }
    }
}

/// Puts a name, as it is printed, as a string of JSON.
fn put_string<P: Pen>(name: &[u8], pen: &mut P)
    ensures { P.puts pen.old (string_text (shown_text name.now)) pen.new }
{
    let string = JsonValue::String(Field::Shown(name));
    JsonWriter::new(pen).put(JsonToken::Value(string));
}
