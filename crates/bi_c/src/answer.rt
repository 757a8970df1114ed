//! What a call returns to C.

ghost use Rattle.std.specs.Prelude.{◌≡◌, ◌⊎◌, ◌++◌, ◌<◌, ◌≤◌, length, drop};
ghost use Rattle.bi_c.specs.Answers.{answer_of, answer_of_failure, status_of_failure};
ghost use Rattle.bi_c.specs.Answers.{done, no_room};

use crate::argument::number_of;
use crate::failure::Failure;

/// The call succeeded.
pub(crate) const DONE: u32 = 0;

/// A file is refused.
const REFUSED: u32 = 1;

/// An allocation failed.
const OUT_OF_MEMORY: u32 = 2;

/// The buffer does not have room for the output.
pub(crate) const NO_ROOM: u32 = 3;

/// An argument is out of its range.
const WRONG_ARGUMENT: u32 = 4;

/// What the call looks for is not there.
const NOT_FOUND: u32 = 5;

/// What a call leaves in the caller's struct. Each number that the call does not set is 0.
#[repr(C)]
#[derive(Clone, Copy, Debug, PartialEq, Eq)]
pub struct Answer {
    /// The number of bytes of the output, even if the buffer does not have room for it.
    pub size: usize,
    /// The number that the docstring of the call names. If the reason is that an image is missing,
    /// the index of the first name that no image has. If an array is wrong, the index of its first
    /// wrong element.
    pub value: usize,
    /// The number of the cause for which a file is refused.
    pub cause: u32,
    /// The offset of the cause in the file, in bytes. For TooLarge it is the limit.
    pub offset: u32,
    /// The index of the file that is refused, counted from 1.
    pub file: u32,
    /// The number of the reason why nothing is found, or of the argument that is wrong.
    pub reason: u32,
}

/// Returns the answer with this size and this number.
pub(crate) fn answer_with(size: usize, value: usize) -> Answer
    ensures { result ≡ answer_of size value }
{
    Answer {
        size,
        value,
        cause: 0,
        offset: 0,
        file: 0,
        reason: 0,
    }
}

/// Writes the answer of a call that has an output of this size, and returns the status.
pub(crate) fn succeed(size: usize, value: usize, answer: &mut Answer) -> u32
    ensures answer { answer.new ≡ answer_of size value }
    ensures status { result ≡ done }
{
    *answer = answer_with(size, value);
    DONE
}

/// Writes the answer of a call that failed, and returns the status.
pub(crate) fn fail(failure: Failure, answer: &mut Answer) -> u32
    ensures answer { answer.new ≡ answer_of_failure failure }
    ensures status { result ≡ status_of_failure failure }
{
    *answer = answer_with(0, 0);
    match failure {
        Failure::WrongArgument(argument, index) => {
            answer.reason = number_of(argument);
            answer.value = index;
            WRONG_ARGUMENT
        }
        Failure::OutOfMemory => OUT_OF_MEMORY,
        Failure::Refused(file, fault) => {
            answer.cause = u32::from(fault.cause.number());
            answer.offset = fault.offset;
            answer.file = file;
            REFUSED
        }
        Failure::NotFound(reason, index) => {
            answer.reason = reason;
            answer.value = index;
            NOT_FOUND
        }
    }
}

/// Writes the output of a call to the beginning of a buffer, and the answer. Returns the status. If
/// the buffer does not have room for the output, it is unchanged.
pub(crate) fn fill<T: Copy>(text: &[T], value: usize, buffer: &mut [T], answer: &mut Answer) -> u32
    ensures answer { answer.new ≡ answer_of (length text.now) value }
    ensures filled { ((length text.now ≤ length buffer.old) × (result ≡ done)
        × (buffer.new ≡ text.now ++ drop (length text.now) buffer.old))
        ⊎ ((length buffer.old < length text.now) × (result ≡ no_room)
        × (buffer.new ≡ buffer.old)) }
{
    *answer = answer_with(text.len(), value);
    if buffer.len() < text.len() {
        return NO_ROOM;
    }
    buffer[..text.len()].copy_from_slice(text);
    DONE
}
