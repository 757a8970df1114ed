//! Words of lines, put to a pen.

ghost use Rattle.std.specs.Prelude.{◌≡◌};
ghost use Rattle.bi_common.specs.LineTokens.{NextField, is_nothing, line_token_text, space};
ghost use Rattle.bi_common.specs.LineTokens.{has_word as has_word_next};
ghost use Rattle.bi_common.specs.Lines.{Text};
ghost use Rattle.bi_common.specs.MadeFields.{bytes_of_names, field_of};
ghost use Rattle.bi_describe.specs.IgnoredWords.{inside_path};

use bi_base::Pen;
use bi_common::fields::{Field, put_field};

/// Puts a word, after a space if it is not the first of its line. Puts nothing for an empty value,
/// or to a pen that has failed: the words that are left of a long text then take no time.
pub(crate) fn put_next<P: Pen>(word: Field, is_later: bool, pen: &mut P)
    ensures { P.puts pen.old (line_token_text is_later (NextField (field_of word.entry))) pen.new }
{
    if !is_empty_value(word) && !pen.has_failed() {
        put_space(is_later, pen);
        put_field(word, pen);
    }
}

/// Puts the path of a node inside the payload with this path as a word, after a space if it is not
/// the first of its line. Puts nothing to a pen that has failed.
pub(crate) fn put_next_path<P: Pen>(payload: &[u8], names: &[&[u8]], is_later: bool, pen: &mut P)
    ensures { P.puts pen.old (line_token_text is_later
        (NextField (Text (inside_path payload.now (bytes_of_names names.now))))) pen.new }
{
    if !pen.has_failed() {
        put_space(is_later, pen);
        put_path(payload, names, pen);
    }
}

/// Puts the path of a node inside the payload with this path.
fn put_path<P: Pen>(payload: &[u8], names: &[&[u8]], pen: &mut P)
    ensures { P.puts pen.old (inside_path payload.now (bytes_of_names names.now)) pen.new }
{
    pen.put(payload);
    pen.put(b"/");
    put_field(Field::Path(names), pen);
}

/// Puts what comes before a word: a space, if it is not the first of its line.
fn put_space<P: Pen>(is_later: bool, pen: &mut P)
    ensures { P.puts pen.old (space is_later) pen.new }
{
    if is_later {
        pen.put(b" ");
    }
}

/// Returns whether a line has a word after this one.
pub(crate) fn has_word_after(word: Field, has_word: bool) -> bool
    ensures { result ≡ has_word_next has_word (NextField (field_of word.entry)) }
{
    !is_empty_value(word) || has_word
}

/// Returns whether a field is an empty value, for which nothing is printed.
fn is_empty_value(word: Field) -> bool
    ensures { result ≡ is_nothing (field_of word.entry) }
{
    match word {
        Field::Value(value) => value.is_empty(),
        _ => false,
    }
}
