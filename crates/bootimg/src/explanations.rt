//! What `explain` writes: what causes of refusals, kinds of concerns and other messages of the
//! program mean.

ghost use Rattle.std.specs.Prelude.{◌≡◌, ◌++◌, IfOk, OnOk, string_bytes};
ghost use Rattle.bootimg.specs.Explanations.{all_explanations, explain_text, explanation_of};
ghost use Rattle.bootimg.specs.Explanations.{line_of_topic, name_of_topic, sentence_about};

use crate::messages::Message;
use bi_base::Cause;
use bi_commands::causes::sentence;
use bi_commands::check::ConcernKind;
use bi_commands::concerns::concern_sentence;
use std::alloc::{AllocError, Global};

/// What `explain` can explain.
#[derive(Clone, Copy)]
pub enum Topic {
    /// A cause of a refusal.
    Cause(Cause),
    /// A kind of concerns.
    Kind(ConcernKind),
    /// Another message.
    Message(Message),
}

/// Every topic: first the causes and the kinds, in the order of the manual page.
pub const TOPICS: [Topic; 48] = [
    Topic::Cause(Cause::Truncated),
    Topic::Cause(Cause::BadMagic),
    Topic::Cause(Cause::BadHeaderCrc),
    Topic::Cause(Cause::BadDataCrc),
    Topic::Cause(Cause::BadPartTable),
    Topic::Cause(Cause::BadPart),
    Topic::Cause(Cause::BadTotalSize),
    Topic::Cause(Cause::BadVersion),
    Topic::Cause(Cause::BadOffset),
    Topic::Cause(Cause::BadToken),
    Topic::Cause(Cause::BadName),
    Topic::Cause(Cause::BadNameOffset),
    Topic::Cause(Cause::PropertyAfterChild),
    Topic::Cause(Cause::DuplicateProperty),
    Topic::Cause(Cause::DuplicateNode),
    Topic::Cause(Cause::TooDeep),
    Topic::Cause(Cause::NoImages),
    Topic::Cause(Cause::BadCell),
    Topic::Cause(Cause::NoSize),
    Topic::Cause(Cause::OutsideFile),
    Topic::Cause(Cause::TooLarge),
    Topic::Cause(Cause::NoCodeName),
    Topic::Cause(Cause::TooManyParts),
    Topic::Cause(Cause::EmptyPart),
    Topic::Cause(Cause::BadField),
    Topic::Cause(Cause::Unsupported),
    Topic::Kind(ConcernKind::BadHash),
    Topic::Kind(ConcernKind::SkippedHash),
    Topic::Kind(ConcernKind::Unhashed),
    Topic::Kind(ConcernKind::WeakHash),
    Topic::Kind(ConcernKind::BadList),
    Topic::Kind(ConcernKind::Missing),
    Topic::Kind(ConcernKind::Unsigned),
    Topic::Kind(ConcernKind::NoNodes),
    Topic::Kind(ConcernKind::NoImages),
    Topic::Kind(ConcernKind::Uncovered),
    Topic::Kind(ConcernKind::Foreign),
    Topic::Kind(ConcernKind::Strings),
    Topic::Kind(ConcernKind::UnitAddress),
    Topic::Kind(ConcernKind::BadDefault),
    Topic::Kind(ConcernKind::Trailing),
    Topic::Message(Message::BadValue),
    Topic::Message(Message::BadImage),
    Topic::Message(Message::BadConfiguration),
    Topic::Message(Message::CannotOpen),
    Topic::Message(Message::ReadFailed),
    Topic::Message(Message::WriteFailed),
    Topic::Message(Message::OutOfMemory),
];

/// The number of causes and kinds.
const LISTED: usize = 41;

impl Topic {
    /// Returns its name: that of the cause, the word for the kind, or the words of the message.
    pub fn name(self) -> &'static str
        ensures { result.now ≡ name_of_topic self }
    {
        match self {
            Topic::Cause(cause) => cause.name(),
            Topic::Kind(kind) => kind.word(),
            Topic::Message(message) => message.name(),
        }
    }

    /// Returns what it means, and what a user can do.
    fn sentence(self) -> &'static str
        ensures { result.now ≡ sentence_about self }
    {
        match self {
            Topic::Cause(cause) => sentence(cause),
            Topic::Kind(kind) => concern_sentence(kind),
            Topic::Message(message) => message.sentence(),
        }
    }
}

/// Returns what `explain` writes: what this topic means, or what each cause and each kind means.
pub fn explanation(alloc: Global, topic: Option<Topic>) -> Result<String, AllocError>
    ensures { IfOk result (λ text. string_bytes text ≡ explain_text topic) }
{
    match topic {
        Some(topic) => explanation_of_one(alloc, topic),
        None => explanation_of_all(alloc),
    }
}

/// Returns what this means, as a line.
fn explanation_of_one(alloc: Global, topic: Topic) -> Result<String, AllocError>
    ensures { IfOk result (λ text. string_bytes text ≡ explanation_of topic) }
{
    let mut text = String::new(alloc);
    text.push_str(topic.sentence())?;
    text.push_str("\n")?;
    Ok(text)
}

/// Returns a line for each cause, and then for each kind: its name, and what it means.
fn explanation_of_all(alloc: Global) -> Result<String, AllocError>
    ensures { IfOk result (λ text. string_bytes text ≡ all_explanations) }
{
    let mut text = String::new(alloc);
    for topic in &TOPICS[..LISTED] {
        put_line(&mut text, *topic)?;
    }
    Ok(text)
}

/// Appends the line of a topic.
fn put_line(text: &mut String, topic: Topic) -> Result<(), AllocError>
    ensures { OnOk result (string_bytes text.new ≡ string_bytes text.old ++ line_of_topic topic) }
{
    text.push_str(topic.name())?;
    text.push_str(": ")?;
    text.push_str(topic.sentence())?;
    text.push_str("\n")?;
    Ok(())
}
