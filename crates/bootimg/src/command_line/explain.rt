//! The command `explain`.

ghost use Rattle.std.specs.Prelude.{◌≡◌, ◌++◌, ℕ, List, IfOk, IfErr, IfNone, IfSome, codes};
ghost use Rattle.bootimg.specs.CommandLine.{option_of, IsBadValue, IsExplained, NoneIs};
ghost use Rattle.bootimg.specs.Explanations.{IsAbout, IsLastSaid, begins_with_words, topic_of};

use crate::explanations::{TOPICS, Topic};
use crate::failure::Failure;
use clap::ArgMatches;

/// Returns what the argument is about, if there is one: a cause, a kind of concerns, or another
/// message. The argument is its name, or a line of the program that has it. Fails with BadValue at
/// another argument.
pub fn explained_topic(options: &ArgMatches<'_>) -> Result<Option<Topic>, Failure<'static>>
    ensures topic { IfOk result (IsExplained (option_of options.now (codes "cause"))) }
    ensures bad { IfErr result (IsBadValue
        (IsExplained (option_of options.now (codes "cause")))) }
{
    match options.get_str("cause") {
        None => Ok(None),
        Some(argument) => match parse_topic(argument) {
            Some(topic) => Ok(Some(topic)),
            None => Err(Failure::BadValue),
        },
    }
}

/// Returns what a message is about. Returns None if no name is at its beginning or after its last
/// colon and space.
pub fn parse_topic(argument: &str) -> Option<Topic>
    ensures some { IfSome result (IsAbout argument.now) }
    ensures none { IfNone result (NoneIs (IsAbout argument.now)) }
{
    find_topic(last_said(argument.as_bytes()))
}

/// Returns what a text says after its last colon and space, or all of it if it has none.
fn last_said(text: &[u8]) -> &[u8]
    ensures { IsLastSaid text.now result.now }
{
    let mut said = text;
    let mut rest = text;
    while let [_, later @ ..] = rest {
        if let Some(after) = after_colon(rest) {
            said = after;
        }
        rest = later;
    }
    said
}

/// Returns what follows a colon and a space, if a text begins with them.
fn after_colon(text: &[u8]) -> Option<&[u8]>
    ensures some { IfSome result (λ after. text.now ≡ codes ": " ++ after.now) }
    ensures none { IfNone result ((after : List ℕ) → ¬ (text.now ≡ codes ": " ++ after)) }
{
    match text {
        [b':', b' ', after @ ..] => Some(after),
        _ => None,
    }
}

/// Returns the topic whose name a text begins with, if there is one.
fn find_topic(text: &[u8]) -> Option<Topic>
    ensures { result ≡ topic_of text.now }
{
    TOPICS
        .iter()
        .copied()
        .find(|topic| begins_with(text, topic.name()))
}

/// Returns whether a text begins with this name, in capitals or small letters, and ends there or
/// has a space after it.
fn begins_with(text: &[u8], name: &str) -> bool
    ensures { result ≡ begins_with_words text.now name.now }
{
    match text.split_at_checked(name.len()) {
        Some((begin, [])) | Some((begin, [b' ', ..])) => {
            begin.eq_ignore_ascii_case(name.as_bytes())
        }
        _ => false,
    }
}
