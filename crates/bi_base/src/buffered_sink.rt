//! A sink that writes to a writer in large pieces.

ghost use Rattle.std.specs.Prelude.{◌≡◌, [], OnOk};
ghost use Rattle.bi_base.specs.Sinks.{Wrote};
ghost use Rattle.bi_base.specs.Writing.{WroteAndFlushed, WriteOrFlushStopped};

use crate::fault::Error;
use crate::sinks::Sink;
use crate::traced_write::TracedWrite;
use crate::writing::{flush, write_all};
use arrayvec::ArrayVec;

/// The most bytes that a `BufferedSink` buffers.
const BUFFER_SIZE: usize = 8192;

/// A sink that borrows a traced writer and writes the bytes to it. It buffers up to 8 KiB, so that
/// small pieces do not need a write each. A longer piece is written without a copy. On average a
/// write has at least 4 KiB. `finish` writes what is in the buffer; it is lost if the sink is
/// dropped before that.
#[derive(Drop)]
pub struct BufferedSink<'a, T> {
    target: &'a mut T,
    held: ArrayVec<u8, BUFFER_SIZE>,
}

impl<'a, T: TracedWrite> BufferedSink<'a, T> {
    ghost use Rattle.bi_base.specs.BufferedSinks.{state_of};

    /// Returns a sink that writes to `target`. Its buffer is empty.
    pub fn new(target: &'a mut T) -> BufferedSink<'a, T>
        ensures same_borrow { (state_of T.trace result).borrow ≡ target.entry.ghost_name }
        ensures same_trace { (state_of T.trace result).trace ≡ T.trace target.old }
        ensures none_held { (state_of T.trace result).held ≡ [] }
    {
        BufferedSink {
            target,
            held: ArrayVec::new(),
        }
    }

    /// Writes what is in the buffer, and flushes the writer.
    ///
    /// The only error is `WriteFailed`, after a failed write or flush. No failed call is ignored. A
    /// prefix of the buffer was then written: all of it if the flush failed. Do not use the sink
    /// after an error of `put` or `finish`.
    pub fn finish(&mut self) -> Result<(), Error>
        ensures finished { let old = state_of T.trace self.old in
            let new = state_of T.trace self.new in
            Wrote WroteAndFlushed WriteOrFlushStopped old.trace old.held result new.trace }
        ensures none_held { OnOk result ((state_of T.trace self.new).held ≡ []) }
        ensures same_borrow { (state_of T.trace self.new).borrow
            ≡ (state_of T.trace self.old).borrow }
    {
        write_all(self.target, self.held.as_slice())?;
        self.held.clear();
        flush(self.target)
    }
}

impl<'a, T: TracedWrite> Sink for BufferedSink<'a, T> {
    ghost use Rattle.bi_base.specs.BufferedSinks.{BufferAppends, BufferFails};
    ghost use Rattle.bi_base.specs.BufferedSinks.{buffer_appends_nothing, buffer_appends_in_turn};
    ghost use Rattle.bi_base.specs.BufferedSinks.{buffer_fails_after, buffer_fails_before};

    ghost appends = { BufferAppends T.trace };

    ghost fails = { BufferFails T.trace };

    /// Appends the given bytes: some are written, and up to 8 KiB stay in the buffer. The only
    /// error is `WriteFailed`. A prefix of the buffer and the given bytes together was then
    /// written.
    fn put(&mut self, bytes: &[u8]) -> Result<(), Error> {
        if self.held.try_extend_from_slice(bytes).is_ok() {
            return Ok(());
        }
        write_all(self.target, self.held.as_slice())?;
        self.held.clear();
        if self.held.try_extend_from_slice(bytes).is_ok() {
            return Ok(());
        }
        write_all(self.target, bytes)
    }

    ghost appends_nothing = { buffer_appends_nothing T.trace };

    ghost appends_in_turn = { buffer_appends_in_turn T.trace };

    ghost fails_after = { buffer_fails_after T.trace };

    ghost fails_before = { buffer_fails_before T.trace };
}
