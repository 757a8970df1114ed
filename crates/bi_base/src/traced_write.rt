//! Writers that record the outcome of their calls.

ghost use Rattle.std.specs.Prelude.{◌≡◌, IsFalse};
ghost use Rattle.std.specs.Io.{WritesAtMost};
ghost use Rattle.bi_base.specs.CallTraces.{write_trace};
ghost use Rattle.bi_base.specs.Traces.{WriteTrace, IsWriteCall, IsFlushCall, WritesWell};

use crate::outcomes::CallOutcome;
use std::io::{self, Write};

/// A writer that records the outcome of each of its calls.
pub trait TracedWrite {
    // The writer after the calls so far.
    ghost trace: { Self → WriteTrace };

    /// Writes once, and returns how many of the first bytes were written. Fails with the error of
    /// the writer, even if it is an interruption. No byte was then written.
    fn write_once(&mut self, bytes: &[u8]) -> io::Result<usize>
        ensures bound { WritesAtMost result bytes.now }
        ensures call { IsWriteCall (trace self.old) (trace self.new) result bytes.now };

    /// Flushes once. No byte is written or lost. Fails with the error of the writer, even if it is
    /// an interruption.
    fn flush_once(&mut self) -> io::Result<()>
        ensures call { IsFlushCall (trace self.old) (trace self.new) result };
}

/// What is recorded of the calls on a writer. The default is what is recorded before the first.
#[derive(Clone, Copy, Default)]
pub struct WriteCalls {
    outcome: CallOutcome,
    stalled: bool,
    flushing: bool,
    stopped: bool,
}

impl WriteCalls {
    /// Writes once to the writer, as `TracedWrite::write_once` does.
    pub fn write<W: Write>(&mut self, writer: &mut W, bytes: &[u8]) -> io::Result<usize>
        ensures bound { WritesAtMost result bytes.now }
        ensures call { IsWriteCall
            (write_trace 0 (W.contents writer.old) self.old)
            (write_trace 0 (W.contents writer.new) self.new) result bytes.now }
    {
        let call = writer.write(bytes);
        self.outcome = self.outcome.after(&call);
        self.stalled = !bytes.is_empty() && matches!(call, Ok(0));
        self.flushing = false;
        self.stopped = self.stopped || self.stalled || self.outcome.must_stop();
        call
    }

    /// Flushes the writer once, as `TracedWrite::flush_once` does.
    pub fn flush<W: Write>(&mut self, writer: &mut W) -> io::Result<()>
        ensures call { IsFlushCall
            (write_trace 0 (W.contents writer.old) self.old)
            (write_trace 0 (W.contents writer.new) self.new) result }
    {
        let call = writer.flush();
        self.outcome = self.outcome.after(&call);
        self.stalled = false;
        self.flushing = true;
        self.stopped = self.stopped || self.outcome.must_stop();
        call
    }
}

/// A `TracedWrite` of any writer, which it borrows.
#[derive(Drop)]
pub struct TracedWriter<'a, W> {
    writer: &'a mut W,
    calls: WriteCalls,
}

impl<'a, W: Write> TracedWriter<'a, W> {
    /// Returns a `TracedWrite` of this writer, with no calls so far.
    pub fn new(writer: &'a mut W) -> TracedWriter<'a, W>
        ensures same_writer { (⟦<TracedWriter<'a, W> as TracedWrite>⟧.trace result).writer
            ≡ writer.entry.ghost_name }
        ensures contents { (⟦<TracedWriter<'a, W> as TracedWrite>⟧.trace result).contents
            ≡ W.contents writer.old }
        ensures not_failed { IsFalse (⟦<TracedWriter<'a, W> as TracedWrite>⟧.trace result).failed }
        ensures not_stalled { IsFalse
            (⟦<TracedWriter<'a, W> as TracedWrite>⟧.trace result).stalled }
        ensures not_flushing { IsFalse
            (⟦<TracedWriter<'a, W> as TracedWrite>⟧.trace result).flushing }
        ensures well { WritesWell (⟦<TracedWriter<'a, W> as TracedWrite>⟧.trace result) }
    {
        TracedWriter {
            writer,
            calls: WriteCalls::default(),
        }
    }
}

impl<'a, W: Write> TracedWrite for TracedWriter<'a, W> {
    ghost trace = { λ traced. write_trace traced.writer.ghost_name
        (W.contents traced.writer.now) traced.calls };

    fn write_once(&mut self, bytes: &[u8]) -> io::Result<usize> {
        self.calls.write(self.writer, bytes)
    }

    fn flush_once(&mut self) -> io::Result<()> {
        self.calls.flush(self.writer)
    }
}
