//! Writing the normal texts of images that were read to the caller's buffer.

ghost use Rattle.std.specs.Prelude.{◌≡◌};
ghost use Rattle.bi_legacy.specs.Reading.{IsReadLegacy};
ghost use Rattle.bi_legacy.specs.Text.{legacy_text};
ghost use Rattle.bi_c.specs.Answers.{FillsBuffer, IsThisOutput};
ghost use Rattle.bi_c.specs.declared.failure.Failure.TheVariants.{OutOfMemory};

use crate::answer::{Answer, DONE, NO_ROOM, answer_with, fail};
use crate::failure::Failure;
use bi_base::{Limits, SliceSink};
use bi_fit::FitText;
use bi_legacy::Legacy;
use bi_norm::append_legacy;
use std::alloc::Global;

/// Writes the normal text of a legacy image of a file to the beginning of a buffer, and the answer.
/// Returns the status. No other memory holds the text. Requires: reading the file under the limits
/// gives this image.
pub(crate) fn write_legacy(
    alloc: Global,
    file: &[u8],
    image: &Legacy<'_>,
    limits: Limits,
    buffer: &mut [u8],
    answer: &mut Answer,
) -> u32
    requires { IsReadLegacy limits file.now image.now }
    ensures { FillsBuffer (IsThisOutput (legacy_text image.now.image) 0)
        (λ failure. failure ≡ OutOfMemory) buffer.old buffer.new answer.new result }
{
    // The parts and the part table are as long in the normal text as in the file.
    let size = file.len() - image.unused() as usize;
    *answer = answer_with(size, 0);
    if buffer.len() < size {
        return NO_ROOM;
    }
    let mut sink = SliceSink::new(buffer);
    match append_legacy(alloc, image, image.fields().time, limits, &mut sink) {
        Ok(()) => DONE,
        Err(_) => fail(Failure::OutOfMemory, answer),
    }
}

/// Writes the text of a flattened image tree to the beginning of a buffer, and the answer with this
/// number. Returns the status. No other memory holds the text.
pub(crate) fn write_tree(
    text: &FitText<'_>,
    value: usize,
    buffer: &mut [u8],
    answer: &mut Answer,
) -> u32
    ensures { FillsBuffer (IsThisOutput text.now value) (λ failure. ⊥) buffer.old buffer.new
        answer.new result }
{
    let size = text.size() as usize;
    *answer = answer_with(size, value);
    if buffer.len() < size {
        return NO_ROOM;
    }
    let mut sink = SliceSink::new(buffer);
    let _ = text.emit(&mut sink);
    DONE
}
