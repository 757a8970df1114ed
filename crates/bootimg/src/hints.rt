//! Hints: what a user at a terminal can do after a failure.

ghost use Rattle.std.specs.Prelude.{◌≡◌, flat_map, option_map};
ghost use Rattle.bootimg.specs.CommandLine.{texts_of};
ghost use Rattle.bootimg.specs.ErrorLines.{Extends, line_of};
ghost use Rattle.bootimg.specs.Hints.{IsHintAt, after_comma, hint_text, names_with_commas};
ghost use Rattle.bootimg.specs.Hints.{near_text, place_text, refused_text, taken_text, word_text};
ghost use Rattle.bootimg.specs.RefusedWords.{place_model, refused_model};

use crate::command_line::{Place, RefusedWord, Takes, refused_word};
use crate::error_line::ErrorLine;
use crate::failure::Failure;
use crate::messages::Message;
use bi_base::{Cause, TracedWrite};
use std::alloc::{AllocError, Global};

/// A sentence that follows the line of a failure at a terminal.
#[derive(Clone, Copy)]
pub enum Hint<'a> {
    /// This sentence.
    Sentence(&'static str),
    /// That `explain` says what a cause means.
    Cause(Cause),
    /// That `explain` says what a message means.
    Message(Message),
    /// What is taken where a word stands that is not.
    Refused(RefusedWord<'a>),
}

impl<'a> Hint<'a> {
    /// Appends the sentence.
    pub fn put_text<T: TracedWrite>(self, line: &mut ErrorLine<'_, T>)
        ensures { Extends (line_of T.trace line.old) (hint_text self.entry)
            (line_of T.trace line.new) }
    {
        match self {
            Hint::Sentence(sentence) => line.put(sentence.as_bytes()),
            Hint::Cause(cause) => {
                line.put(b"see bootimg explain ");
                line.put(cause.name().as_bytes());
            }
            Hint::Message(message) => {
                line.put(b"see bootimg explain '");
                line.put(message.name().as_bytes());
                line.put(b"'");
            }
            Hint::Refused(refused) => put_refused(refused, line),
        }
    }
}

/// Appends what is taken where a word stands that is not taken, and a name that is near it, if
/// there is one.
fn put_refused<T: TracedWrite>(refused: RefusedWord<'_>, line: &mut ErrorLine<'_, T>)
    ensures { Extends (line_of T.trace line.old) (refused_text (refused_model refused.entry))
        (line_of T.trace line.new) }
{
    put_place(refused.place, line);
    line.put(b" takes ");
    put_taken(refused.takes, line);
    put_word(refused.takes, refused.word, line);
    put_near(refused.near, line);
}

/// Appends where a word stands.
fn put_place<T: TracedWrite>(place: Place, line: &mut ErrorLine<'_, T>)
    ensures { Extends (line_of T.trace line.old) (place_text (place_model place))
        (line_of T.trace line.new) }
{
    match place {
        Place::Option(name) => {
            line.put(b"--");
            line.put(name.as_bytes());
        }
        Place::Argument(name) => line.put(name.as_bytes()),
        Place::Field(index, name) => {
            line.put(b"image ");
            line.put_number(index);
            line.put(b": ");
            line.put(name.as_bytes());
        }
    }
}

/// Appends which words are taken.
fn put_taken<T: TracedWrite>(takes: Takes, line: &mut ErrorLine<'_, T>)
    ensures { Extends (line_of T.trace line.old) (taken_text takes) (line_of T.trace line.new) }
{
    line.put(takes.before_names().as_bytes());
    put_names(takes.names(), line);
    line.put(takes.after_names().as_bytes());
}

/// Appends names, with a comma between each two.
fn put_names<T: TracedWrite>(names: &[&str], line: &mut ErrorLine<'_, T>)
    ensures { Extends (line_of T.trace line.old) (names_with_commas (texts_of names.now))
        (line_of T.trace line.new) }
{
    if let [first, later @ ..] = names {
        line.put(first.as_bytes());
        put_later_names(later, line);
    }
}

/// Appends names, with a comma before each.
fn put_later_names<T: TracedWrite>(names: &[&str], line: &mut ErrorLine<'_, T>)
    ensures { Extends (line_of T.trace line.old) (flat_map after_comma (texts_of names.now))
        (line_of T.trace line.new) }
{
    for name in names {
        line.put(b", ");
        line.put(name.as_bytes());
    }
}

/// Appends a word that is not taken: as the name of a file if one may be given, or else that it is
/// not taken.
fn put_word<T: TracedWrite>(takes: Takes, word: &str, line: &mut ErrorLine<'_, T>)
    ensures { Extends (line_of T.trace line.old) (word_text takes word.now)
        (line_of T.trace line.new) }
{
    match takes {
        Takes::Part if word.is_empty() => line.put(b"FILE"),
        Takes::Part => line.put_name_bytes(word.as_bytes()),
        _ => {
            line.put(b", not '");
            line.put_name_bytes(word.as_bytes());
            line.put(b"'");
        }
    }
}

/// Appends a name that may be meant, if there is one.
fn put_near<T: TracedWrite>(near: Option<&str>, line: &mut ErrorLine<'_, T>)
    ensures { Extends (line_of T.trace line.old)
        (near_text (option_map (λ name. name.now) near.entry)) (line_of T.trace line.new) }
{
    if let Some(name) = near {
        line.put(b": did you mean '");
        line.put(name.as_bytes());
        line.put(b"'?");
    }
}

/// Returns the hint for a failure of the arguments, if hints are given: what is taken where a word
/// stands that is not, if this is the reason, or else the hint for the failure. Returns None if
/// memory runs out.
pub fn usage_hint<'a>(
    alloc: Global,
    hints: bool,
    arguments: &'a [&'a str],
    failure: Failure<'static>,
) -> Option<Hint<'a>>
    ensures { IsHintAt hints (texts_of arguments.entry.now) failure.entry
        (option_map hint_text result) }
{
    if !hints {
        return None;
    }
    if !failure.is_about_word() {
        return Some(failure.hint());
    }
    match refused_word(alloc, arguments, failure) {
        Ok(Some(refused)) => Some(Hint::Refused(refused)),
        Ok(None) => Some(failure.hint()),
        Err(AllocError) => None,
    }
}
