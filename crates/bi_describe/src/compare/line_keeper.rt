//! A pen that keeps lines, and how long their keys are.

ghost use Rattle.std.specs.Prelude.{◌≡◌, ◌⊎◌, ◌++◌, ◌∷◌, ℕ, List, [], Option, Some, None, IfOk};
ghost use Rattle.std.specs.Option.{option_map};
ghost use Rattle.bi_base.specs.MemoryPens.{MemoryPuts, memory_puts_nothing, memory_puts_in_turn};
ghost use Rattle.bi_common.specs.Lines.{Text};
ghost use Rattle.bi_common.specs.MadeFields.{field_of};
ghost use Rattle.bi_describe.specs.Differences.{words_of_key as words_of, words_of_key_named};
ghost use Rattle.bi_describe.specs.LineKeeping.{Keeping, Keeps, KeeperPuts, line_after_word};
ghost use Rattle.bi_describe.specs.Differences.{is_inside_word as is_inside_of};
ghost use Rattle.bi_describe.specs.IgnoredWords.{inside_path};
ghost use Rattle.bi_describe.specs.LineKeeping.{end_mark, is_in_key as is_part_in_key};
ghost use Rattle.bi_describe.specs.LineKeeping.{part_after as next_part};
ghost use Rattle.bi_describe.specs.LineKeeping.{keeper_puts_nothing, keeper_puts_in_turn};
ghost use Rattle.bi_describe.specs.LineKeeping.{new_keeping, new_line, kept_length};

use crate::describe::deep_pen::DeepPen;
use crate::line_words::{has_word_after, put_next, put_next_path};
use bi_base::Pen;
use bi_common::fields::Field;
use bi_common::lines::LinePen;
use std::alloc::{AllocError, Global};
use std::marker::Model;

/// How long a line is, and how much of that is its key.
#[derive(Clone, Copy)]
pub(super) struct Mark {
    pub(super) len: usize,
    pub(super) key: usize,
}

/// What the next word of a line is to its key.
#[derive(Clone, Copy)]
enum KeyPart {
    /// The first word of the line, which says how many words the key has.
    First,
    /// The path of the payload that the line is inside of.
    Payload,
    /// The word after that, which says how many words the key still has.
    Second,
    /// A word of the key, if so many are still to come, or else a word after it.
    Named(usize),
}

/// The line that is put.
#[derive(Clone, Copy)]
struct OpenLine {
    /// Where it begins in the text.
    start: usize,
    /// Where its key ends.
    key_end: usize,
    /// What the next word is to its key.
    next: KeyPart,
    /// Whether something was printed.
    has_word: bool,
}

impl OpenLine {
    /// Returns a line without words, which begins here.
    fn new(start: usize) -> OpenLine
        ensures { result ≡ new_line start }
    {
        OpenLine {
            start,
            key_end: start,
            next: KeyPart::First,
            has_word: false,
        }
    }

    /// Returns the line after a word, which ends here.
    fn line_after_word(self, word: Field, end: usize) -> OpenLine
        ensures { result ≡ line_after_word self (field_of word.entry) end }
    {
        OpenLine {
            start: self.start,
            key_end: if self.next.is_in_key() {
                end
            } else {
                self.key_end
            },
            next: self.next.part_after(word),
            has_word: has_word_after(word, self.has_word),
        }
    }

    /// Returns the line after the path of a node inside a payload, which ends here. No line begins
    /// with a path, so to the key it is a word like any other.
    fn line_after_path(self, end: usize) -> OpenLine
        ensures { (payload : List ℕ) (names : List (List ℕ))
            → result ≡ line_after_word self (Text (inside_path payload names)) end }
    {
        self.line_after_word(Field::Text(b"/"), end)
    }

    /// Returns how long the line is, which ends here.
    fn mark(self, end: usize) -> Mark
        ensures { result ≡ end_mark self end }
    {
        Mark {
            len: end.saturating_sub(self.start),
            key: self.key_end.saturating_sub(self.start),
        }
    }
}

impl KeyPart {
    /// Returns whether the word is in the key.
    fn is_in_key(self) -> bool
        ensures { result ≡ is_part_in_key self }
    {
        match self {
            KeyPart::Named(missing) => missing != 0,
            _ => true,
        }
    }

    /// Returns what the next word is to the key, if this one is a word.
    fn part_after(self, word: Field) -> KeyPart
        ensures { result ≡ next_part self (field_of word.entry) }
    {
        match self {
            KeyPart::First if is_inside_word(word) => KeyPart::Payload,
            KeyPart::First | KeyPart::Second => {
                KeyPart::Named(words_of_key(word).saturating_sub(1))
            }
            KeyPart::Payload => KeyPart::Second,
            KeyPart::Named(missing) => KeyPart::Named(missing.saturating_sub(1)),
        }
    }
}

/// Returns whether a line is about what is inside a payload, by its first word.
fn is_inside_word(first: Field) -> bool
    ensures { result ≡ is_inside_of (field_of first.entry) }
{
    match first {
        Field::Text(word) => word == b"inside".as_slice(),
        _ => false,
    }
}

/// Returns how many words the key of a line has, by its first word.
fn words_of_key(first: Field) -> usize
    ensures { result ≡ words_of (field_of first.entry) }
{
    match first {
        Field::Text(word) => words_of_key_of(word),
        _ => 1,
    }
}

/// Returns how many words the key of a line has, whose first word is this text.
fn words_of_key_of(word: &[u8]) -> usize
    ensures { result ≡ words_of_key_named word.now }
{
    if word == b"property".as_slice() || word == b"reservation".as_slice() {
        return 3;
    }
    if word == b"node".as_slice() || word == b"payload".as_slice() || word == b"part".as_slice() {
        return 2;
    }
    1
}

/// A pen that keeps a text in memory, up to a limit. Contracts see it as the text, or as nothing if
/// an allocation has failed or the text would be longer than the limit.
#[derive(Drop)]
struct TextPen {
    text: Option<Vec<u8>>,
    /// How long the text may be.
    limit: usize,
}

impl Model for TextPen {
    ghost Value = { Option (List ℕ) };

    ghost view = { λ pen. option_map (λ text. text.items) pen.text };
}

impl TextPen {
    /// Returns a pen without a text, which may be as long as the limit.
    fn new(alloc: Global, limit: usize) -> TextPen
        ensures { result ≡ Some [] }
    {
        TextPen {
            text: Some(Vec::new(alloc)),
            limit,
        }
    }

    /// Returns the length of the text: 0 if an allocation has failed.
    fn len(&self) -> usize
        ensures { result ≡ kept_length self.now }
    {
        match &self.text {
            Some(text) => text.len(),
            None => 0,
        }
    }

    /// Drops the text, as after an allocation that has failed.
    fn fail(&mut self)
        ensures { self.new ≡ None }
    {
        self.text = None;
    }

    /// Returns the text. Fails if an allocation has failed.
    fn into_vec(self) -> Result<Vec<u8>, AllocError>
        ensures { IfOk result (λ text. self ≡ Some text.items) }
    {
        let TextPen { text, .. } = self;
        text.ok_or(AllocError)
    }
}

impl Pen for TextPen {
    ghost puts = { MemoryPuts };

    /// Appends the given bytes to the text. If memory runs out, or the text would be longer than
    /// the limit, the text is dropped.
    fn put(&mut self, bytes: &[u8]) {
        if let Some(text) = &mut self.text {
            let room = self.limit.saturating_sub(text.len());
            if room < bytes.len() || text.extend_from_slice(bytes).is_err() {
                self.text = None;
            }
        }
    }

    fn has_failed(&self) -> bool {
        self.text.is_none()
    }

    ghost puts_nothing = { memory_puts_nothing };

    ghost puts_in_turn = { memory_puts_in_turn };
}

/// A pen for lines that keeps their text, and how long each line and its key are. Contracts see it
/// as these, or as nothing if an allocation has failed.
#[derive(Drop)]
pub(super) struct LineKeeper {
    text: TextPen,
    marks: Vec<Mark>,
    line: OpenLine,
}

impl Model for LineKeeper {
    ghost Value = { Option Keeping };

    ghost view = { λ keeper. option_map
        (λ text. record { text = text; marks = keeper.marks.items; line = keeper.line })
        keeper.text };
}

impl LineKeeper {
    /// Returns a pen without lines.
    pub(super) fn new(alloc: Global) -> LineKeeper
        ensures { result ≡ Some new_keeping }
    {
        LineKeeper::with_limit(alloc, usize::MAX)
    }

    /// Returns a pen without lines, whose text may be as long as the limit. A longer one fails, as
    /// if memory ran out.
    pub(super) fn with_limit(alloc: Global, limit: usize) -> LineKeeper
        ensures { result ≡ Some new_keeping }
    {
        LineKeeper {
            text: TextPen::new(alloc, limit),
            marks: Vec::new(alloc),
            line: OpenLine::new(0),
        }
    }

    /// Returns the text of the lines, and how long they are. Fails if an allocation has failed.
    pub(super) fn into_parts(self) -> Result<(Vec<u8>, Vec<Mark>), AllocError>
        ensures { IfOk result (λ parts. Keeps self parts.0.items parts.1.items) }
    {
        let LineKeeper { text, marks, .. } = self;
        Ok((text.into_vec()?, marks))
    }
}

/// Appends a mark, unless an allocation has failed. If memory runs out, the text is dropped.
fn push_mark(marks: &mut Vec<Mark>, mark: Mark, text: &mut TextPen)
    ensures { (text.new ≡ None) ⊎ ((text.new ≡ text.old)
        × (marks.new.items ≡ marks.old.items ++ mark ∷ [])) }
{
    if text.has_failed() || marks.push(mark).is_err() {
        text.fail();
    }
}

impl LinePen for LineKeeper {
    ghost puts = { KeeperPuts };

    fn put_word(&mut self, word: Field) {
        put_next(word, self.line.has_word, &mut self.text);
        self.line = self.line.line_after_word(word, self.text.len());
    }

    fn end_line(&mut self) {
        let mark = self.line.mark(self.text.len());
        self.text.put(b"\n");
        push_mark(&mut self.marks, mark, &mut self.text);
        self.line = OpenLine::new(self.text.len());
    }

    ghost puts_nothing = { keeper_puts_nothing };

    ghost puts_in_turn = { keeper_puts_in_turn };
}

impl DeepPen for LineKeeper {
    fn put_path_inside(&mut self, payload: &[u8], names: &[&[u8]]) {
        put_next_path(payload, names, self.line.has_word, &mut self.text);
        self.line = self.line.line_after_path(self.text.len());
    }
}
