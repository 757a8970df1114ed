//! The names of causes and what they mean, and the version of the library.

ghost use Rattle.std.specs.Prelude.{◌≡◌, MatchOption};
ghost use Rattle.bi_base.specs.declared.fault.Cause.{Cause};
ghost use Rattle.bi_base.specs.Causes.{number_of};
ghost use Rattle.bi_c.specs.Answers.{FillsBuffer};
ghost use Rattle.bi_c.specs.Calls.{IsCauseName, IsCauseSentence, IsNoCause, IsVersion};

use crate::answer::{Answer, fail, fill};
use crate::argument::Argument;
use crate::failure::Failure;
use bi_base::Cause;
use bi_commands::causes::sentence;

/// The version of the library: that of the program.
const VERSION: &str = "0.4.0";

/// Writes the name of the cause with the given number, 1 to 26, to a buffer. Returns the status.
#[unsafe(no_mangle)]
pub extern "C" fn bootimg_cause_name(number: u32, buffer: &mut [u8], answer: &mut Answer) -> u32
    ensures { FillsBuffer (IsCauseName number) (IsNoCause number) buffer.old buffer.new answer.new
        result }
{
    match cause_of(number) {
        Some(cause) => fill(cause.name().as_bytes(), 0, buffer, answer),
        None => fail(Failure::WrongArgument(Argument::Number, 0), answer),
    }
}

/// Writes what the cause with the given number, 1 to 26, means, and what a user can do, to a
/// buffer. Returns the status.
#[unsafe(no_mangle)]
pub extern "C" fn bootimg_explain(number: u32, buffer: &mut [u8], answer: &mut Answer) -> u32
    ensures { FillsBuffer (IsCauseSentence number) (IsNoCause number) buffer.old buffer.new
        answer.new result }
{
    match cause_of(number) {
        Some(cause) => fill(sentence(cause).as_bytes(), 0, buffer, answer),
        None => fail(Failure::WrongArgument(Argument::Number, 0), answer),
    }
}

/// Returns the cause with this number, if there is one.
fn cause_of(number: u32) -> Option<Cause>
    ensures { MatchOption result ((cause : Cause) → ¬ (number_of cause ≡ number))
        (λ cause. number_of cause ≡ number) }
{
    match number {
        1 => Some(Cause::Truncated),
        2 => Some(Cause::BadMagic),
        3 => Some(Cause::BadHeaderCrc),
        4 => Some(Cause::BadDataCrc),
        5 => Some(Cause::BadPartTable),
        6 => Some(Cause::BadPart),
        7 => Some(Cause::BadTotalSize),
        8 => Some(Cause::BadVersion),
        9 => Some(Cause::BadOffset),
        10 => Some(Cause::BadToken),
        11 => Some(Cause::BadName),
        12 => Some(Cause::BadNameOffset),
        13 => Some(Cause::PropertyAfterChild),
        14 => Some(Cause::DuplicateProperty),
        15 => Some(Cause::DuplicateNode),
        16 => Some(Cause::TooDeep),
        17 => Some(Cause::NoImages),
        18 => Some(Cause::BadCell),
        19 => Some(Cause::NoSize),
        20 => Some(Cause::OutsideFile),
        21 => Some(Cause::TooLarge),
        22 => Some(Cause::NoCodeName),
        23 => Some(Cause::TooManyParts),
        24 => Some(Cause::EmptyPart),
        25 => Some(Cause::BadField),
        26 => Some(Cause::Unsupported),
        _ => None,
    }
}

/// Writes the version of the library to a buffer. Returns the status.
#[unsafe(no_mangle)]
pub extern "C" fn bootimg_version(buffer: &mut [u8], answer: &mut Answer) -> u32
    ensures { FillsBuffer IsVersion (λ _. ⊥) buffer.old buffer.new answer.new result }
{
    fill(VERSION.as_bytes(), 0, buffer, answer)
}
