//! Lines, put word by word.

ghost use Rattle.std.specs.Prelude.{◌≡◌, List, flat_map, map};
ghost use Rattle.bi_common.specs.LineTokens.{LineToken, NextField, end_of_line};
ghost use Rattle.bi_common.specs.LineTokens.{has_word as has_word_next};
ghost use Rattle.bi_common.specs.LineTokens.{is_nothing, line_token_text, line_tokens};
ghost use Rattle.bi_common.specs.LineTokens.{one_field, space, tokens_of_lines};
ghost use Rattle.bi_common.specs.MadeFields.{field_of, words_of};
ghost use Rattle.bi_common.specs.Tokens.{PutsInTurn, PutsNothing};

use crate::fields::{Field, put_field};
use bi_base::Pen;

/// Something that lines are put to, word by word. It places the spaces and the newlines.
pub trait LinePen {
    // A call: the pen before it, what is put, and the pen after it.
    ghost puts: { Self → List LineToken → Self → Type 0 };

    /// Puts a word, or the words for a value.
    fn put_word(&mut self, word: Field)
        ensures { puts self.old (one_field (field_of word.entry)) self.new };

    /// Ends a line.
    fn end_line(&mut self)
        ensures { puts self.old end_of_line self.new };

    // Putting nothing changes nothing.
    ghost puts_nothing: { PutsNothing puts };

    // Two puts in turn are one put of both lists.
    ghost puts_in_turn: { PutsInTurn puts };
}

/// A pen for lines that puts their text to another pen.
#[derive(Drop)]
pub struct LineWriter<'a, P> {
    pen: &'a mut P,
    /// Whether the line has a word.
    has_word: bool,
}

impl<'a, P: Pen> LineWriter<'a, P> {
    ghost use Rattle.std.specs.Prelude.{false};

    /// Returns a pen for lines.
    pub fn new(pen: &'a mut P) -> LineWriter<'a, P>
        ensures same_borrow { result.pen.ghost_name ≡ pen.entry.ghost_name }
        ensures same_pen { result.pen.now ≡ pen.old }
        ensures no_word { result.has_word ≡ false }
    {
        LineWriter {
            pen,
            has_word: false,
        }
    }
}

impl<'a, P: Pen> LinePen for LineWriter<'a, P> {
    ghost use Rattle.bi_common.specs.LineTokens.{line_writing};
    ghost use Rattle.bi_common.specs.MadeFields.{LinePuts};
    ghost use Rattle.bi_common.specs.TokenLaws.{puts_no_tokens, puts_tokens_in_turn};

    ghost puts = { LinePuts P.puts };

    fn put_word(&mut self, word: Field) {
        put_next(word, self.has_word, self.pen);
        self.has_word = has_word_after(word, self.has_word);
    }

    fn end_line(&mut self) {
        self.pen.put(b"\n");
        self.has_word = false;
    }

    ghost puts_nothing = { λ a. puts_no_tokens P.puts line_writing P.puts_nothing a.pen
        a.has_word };

    ghost puts_in_turn = { λ a b c. puts_tokens_in_turn P.puts line_writing P.puts_in_turn a.pen
        b.pen c.pen a.has_word b.has_word c.has_word };
}

/// Puts a word, after a space if it is not the first of its line. Puts nothing for an empty value,
/// or to a pen that has failed: the words that are left of a long text then take no time.
fn put_next<P: Pen>(word: Field, is_later: bool, pen: &mut P)
    ensures { P.puts pen.old (line_token_text is_later (NextField (field_of word.entry))) pen.new }
{
    if !is_empty_value(word) && !pen.has_failed() {
        put_space(is_later, pen);
        put_field(word, pen);
    }
}

/// Puts what comes before a word: a space, if it is not the first of its line.
fn put_space<P: Pen>(is_later: bool, pen: &mut P)
    ensures { P.puts pen.old (space is_later) pen.new }
{
    if is_later {
        pen.put(b" ");
    }
}

/// Returns whether a line has a word after this one.
fn has_word_after(word: Field, has_word: bool) -> bool
    ensures { result ≡ has_word_next has_word (NextField (field_of word.entry)) }
{
    !is_empty_value(word) || has_word
}

/// Returns whether a field is an empty value, for which nothing is printed.
fn is_empty_value(word: Field) -> bool
    ensures { result ≡ is_nothing (field_of word.entry) }
{
    match word {
        Field::Value(value) => value.is_empty(),
        _ => false,
    }
}

/// Puts lines of two words each.
pub fn put_lines<L: LinePen>(lines: &[[Field; 2]], pen: &mut L)
    ensures { L.puts pen.old (tokens_of_lines (map words_of lines.now)) pen.new }
{
    for words in lines {
        put_line(words, pen);
    }
}

/// Puts a line of these words.
pub fn put_line<L: LinePen>(words: &[Field], pen: &mut L)
    ensures { L.puts pen.old (line_tokens (words_of words.now)) pen.new }
{
    put_words(words, pen);
    pen.end_line();
}

/// Puts words of a line.
pub fn put_words<L: LinePen>(words: &[Field], pen: &mut L)
    ensures { L.puts pen.old (flat_map one_field (words_of words.now)) pen.new }
{
    for word in words {
        pen.put_word(*word);
    }
}
