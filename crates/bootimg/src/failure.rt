//! The failures of the program, and the text of each.

ghost use Rattle.std.specs.Prelude.{◌≡◌, ◌++◌};
ghost use Rattle.std.specs.Fmt.{decimal};
ghost use Rattle.bi_base.specs.declared.fault.Error.TheVariants.{OutOfMemory, Refused};
ghost use Rattle.bootimg.specs.declared.failure.Failure.TheVariants.{Call};
ghost use Rattle.bootimg.specs.ErrorLines.{Extends, line_of};
ghost use Rattle.bootimg.specs.Failures.{error_text, failure_of, failure_text as text_of};
ghost use Rattle.bootimg.specs.Failures.{failure_to_save};
ghost use Rattle.bootimg.specs.Failures.{is_about_image as is_about_image_of};
ghost use Rattle.bootimg.specs.Hints.{failure_hint, hint_of_error, hint_text};
ghost use Rattle.bootimg.specs.Hints.{is_about_word as is_about_word_of};
ghost use Rattle.bootimg.specs.ValueWords.{value_words_text};

use crate::command_line::ValueWords;
use crate::error_line::ErrorLine;
use crate::hints::Hint;
use crate::messages::Message;
use bi_base::{Error, Fault, TracedWrite};
use bi_commands::extract::ExtractError;
use bi_files::SaveError;
use bi_fit::ConfigError;
use std::alloc::AllocError;

/// Why the program failed.
#[derive(Clone, Copy)]
pub enum Failure<'a> {
    /// The image is refused, memory ran out, or a read or write failed.
    Call(Error),
    /// The selection is for another kind of image.
    WrongKind,
    /// The image has no part with this index.
    NoPart,
    /// There is no image with this name.
    NoImage,
    /// There is no configuration with this name.
    NoConfig,
    /// The configuration does not have this key.
    NoKey,
    /// The value of the key is not a list of names.
    BadList,
    /// No image has the name at this index, counted from 0, of the list.
    Missing(usize),
    /// The list has no entry with this index.
    NoIndex,
    /// The image has no payload.
    NoPayload,
    /// No node has the path of these words, or the node has no such property.
    NoProperty(ValueWords<'a>),
    /// The value that these words name is not one or more texts.
    NoText(ValueWords<'a>),
    /// The value that these words name is not a number.
    NoNumber(ValueWords<'a>),
    /// There is nothing to remove of what this word names.
    NothingToRemove(&'a str),
    /// `extract` needs exactly one selection.
    NoSelection,
    /// `update` needs a change.
    NoChange,
    /// The value of an option, or a length, is malformed or out of range.
    BadValue,
    /// The argument at this index, counted from 0, of `build-fit` is not an image.
    BadImage(usize),
    /// The `--config` at this index, counted from 0, of `build-fit` is not a configuration.
    BadConfiguration(usize),
    /// The file cannot be opened.
    CannotOpen,
    /// The output file cannot be written.
    NotWritten,
    /// An image or a payload would be written to a terminal.
    OutputIsTerminal,
}

impl<'a> Failure<'a> {
    /// Returns whether the line of the failure begins with the name of the file that the image is
    /// read from, if it is read from a file, or of the output file.
    pub fn is_about_image(self) -> bool
        ensures { result ≡ is_about_image_of self.entry }
    {
        match self {
            Failure::Call(error) => matches!(error, Error::Refused(_) | Error::ReadFailed),
            Failure::NoSelection | Failure::NoChange | Failure::BadValue => false,
            Failure::BadImage(_) | Failure::BadConfiguration(_) => false,
            Failure::OutputIsTerminal => false,
            _ => true,
        }
    }

    /// Returns whether a word of the arguments may be the reason for the failure.
    pub fn is_about_word(self) -> bool
        ensures { result ≡ is_about_word_of self.entry }
    {
        matches!(
            self,
            Failure::BadValue | Failure::BadImage(_) | Failure::BadConfiguration(_)
        )
    }

    /// Returns the hint for the failure, whatever the arguments.
    pub fn hint(self) -> Hint<'static>
        ensures { hint_text result ≡ failure_hint self.entry }
    {
        match self {
            Failure::Call(error) => error_hint(error),
            Failure::WrongKind => Hint::Sentence(
                "--part and fields are for a legacy image, --image, --config, --default and paths \
                 for a FIT",
            ),
            Failure::NoProperty(_) | Failure::NoText(_) | Failure::NoNumber(_) => {
                Hint::Sentence("bootimg describe prints what the image has")
            }
            Failure::NoSelection => Hint::Sentence("see bootimg extract --help"),
            Failure::NoChange => Hint::Sentence("see bootimg update --help"),
            Failure::BadValue => Hint::Message(Message::BadValue),
            Failure::BadImage(_) => Hint::Message(Message::BadImage),
            Failure::BadConfiguration(_) => Hint::Message(Message::BadConfiguration),
            Failure::CannotOpen => Hint::Message(Message::CannotOpen),
            Failure::NotWritten => Hint::Message(Message::WriteFailed),
            Failure::OutputIsTerminal => {
                Hint::Sentence("-o FILE writes it to a file, and > FILE or | COMMAND also do")
            }
            _ => Hint::Sentence("bootimg list prints what the image holds"),
        }
    }

    /// Appends the text of the failure, which the program prints after `bootimg: ` and the name of
    /// the file, if the failure is about an image in a file.
    pub fn put_text<T: TracedWrite>(self, line: &mut ErrorLine<'_, T>)
        ensures { Extends (line_of T.trace line.old) (text_of self.entry)
            (line_of T.trace line.new) }
    {
        match self {
            Failure::Call(Error::Refused(fault)) => put_fault(fault, line),
            Failure::Call(Error::OutOfMemory) => line.put(b"out of memory"),
            Failure::Call(Error::ReadFailed) => line.put(b"read failed"),
            Failure::Call(Error::WriteFailed) => line.put(b"write failed"),
            Failure::WrongKind => line.put(b"the selection does not fit this kind of image"),
            Failure::NoPart => line.put(b"no such part"),
            Failure::NoImage => line.put(b"no such image"),
            Failure::NoConfig => line.put(b"no such configuration"),
            Failure::NoKey => line.put(b"no such key"),
            Failure::BadList => line.put(b"bad list"),
            Failure::Missing(index) => put_numbered(b"missing image ", index, line),
            Failure::NoIndex => line.put(b"no such entry"),
            Failure::NoPayload => line.put(b"no payload"),
            Failure::NoProperty(words) => put_value(b"no such property ", words, line),
            Failure::NoText(words) => put_value(b"no text ", words, line),
            Failure::NoNumber(words) => put_value(b"no number ", words, line),
            Failure::NothingToRemove(word) => put_word(b"nothing to remove ", word, line),
            Failure::NoSelection => line.put(b"usage: give one of --part, --image, --config"),
            Failure::NoChange => line.put(b"usage: give --time or --hashes"),
            Failure::BadValue => line.put(b"usage: bad value"),
            Failure::BadImage(index) => put_numbered(b"usage: bad image ", index, line),
            Failure::BadConfiguration(index) => {
                put_numbered(b"usage: bad configuration ", index, line)
            }
            Failure::CannotOpen => line.put(b"cannot be opened"),
            Failure::NotWritten => line.put(b"write failed"),
            Failure::OutputIsTerminal => line.put(b"standard output is a terminal, see -o"),
        }
    }
}

/// Returns the hint for an error of a call.
fn error_hint(error: Error) -> Hint<'static>
    ensures { hint_text result ≡ hint_of_error error }
{
    match error {
        Error::Refused(fault) => Hint::Cause(fault.cause),
        Error::OutOfMemory => Hint::Message(Message::OutOfMemory),
        Error::ReadFailed => Hint::Message(Message::ReadFailed),
        Error::WriteFailed => Hint::Message(Message::WriteFailed),
    }
}

/// Appends a cause and an offset.
fn put_fault<T: TracedWrite>(fault: Fault, line: &mut ErrorLine<'_, T>)
    ensures { Extends (line_of T.trace line.old) (error_text (Refused fault))
        (line_of T.trace line.new) }
{
    line.put(fault.cause.name().as_bytes());
    put_numbered(b" at ", fault.offset as usize, line);
}

/// Appends these bytes, and a number in decimal digits.
fn put_numbered<T: TracedWrite>(bytes: &[u8], number: usize, line: &mut ErrorLine<'_, T>)
    ensures { Extends (line_of T.trace line.old) (bytes.now ++ decimal number)
        (line_of T.trace line.new) }
{
    line.put(bytes);
    line.put_number(number);
}

/// Appends these bytes, and a word.
fn put_word<T: TracedWrite>(bytes: &[u8], word: &str, line: &mut ErrorLine<'_, T>)
    ensures { Extends (line_of T.trace line.old) (bytes.now ++ word.now)
        (line_of T.trace line.new) }
{
    line.put(bytes);
    line.put(word.as_bytes());
}

/// Appends these bytes, and the words for a value, with a space between two.
fn put_value<T: TracedWrite>(bytes: &[u8], words: ValueWords<'_>, line: &mut ErrorLine<'_, T>)
    ensures { Extends (line_of T.trace line.old) (bytes.now ++ value_words_text words.entry)
        (line_of T.trace line.new) }
{
    line.put(bytes);
    put_words(words, line);
}

/// Appends the words for a value, with a space between two.
fn put_words<T: TracedWrite>(words: ValueWords<'_>, line: &mut ErrorLine<'_, T>)
    ensures { Extends (line_of T.trace line.old) (value_words_text words.entry)
        (line_of T.trace line.new) }
{
    match words {
        ValueWords::Property(path, name) => {
            line.put(path.as_bytes());
            line.put(b" ");
            line.put(name.as_bytes());
        }
        ValueWords::Field(word) => line.put(word.as_bytes()),
    }
}

impl<'a> From<Error> for Failure<'a> {
    ghost from_gives = { λ error failure. failure ≡ Call error };

    fn from(error: Error) -> Failure<'a> {
        Failure::Call(error)
    }
}

impl<'a> From<AllocError> for Failure<'a> {
    ghost from_gives = { λ _ failure. failure ≡ Call OutOfMemory };

    fn from(error: AllocError) -> Failure<'a> {
        Failure::Call(Error::from(error))
    }
}

impl<'a> From<SaveError> for Failure<'a> {
    ghost from_gives = { λ error failure. failure ≡ failure_to_save error };

    fn from(error: SaveError) -> Failure<'a> {
        match error {
            SaveError::NotWritten => Failure::NotWritten,
            SaveError::OutOfMemory => Failure::Call(Error::OutOfMemory),
        }
    }
}

impl<'a> From<ExtractError> for Failure<'a> {
    ghost from_gives = { λ error failure. failure ≡ failure_of error };

    fn from(error: ExtractError) -> Failure<'a> {
        match error {
            ExtractError::Failed(error) => Failure::Call(error),
            ExtractError::WrongKind => Failure::WrongKind,
            ExtractError::NoPart => Failure::NoPart,
            ExtractError::NoImage => Failure::NoImage,
            ExtractError::Config(ConfigError::NoConfig) => Failure::NoConfig,
            ExtractError::Config(ConfigError::NoKey) => Failure::NoKey,
            ExtractError::Config(ConfigError::BadList) => Failure::BadList,
            ExtractError::Config(ConfigError::Missing(index)) => Failure::Missing(index),
            ExtractError::Config(ConfigError::OutOfMemory) => Failure::Call(Error::OutOfMemory),
            ExtractError::NoIndex => Failure::NoIndex,
            ExtractError::NoPayload => Failure::NoPayload,
        }
    }
}
