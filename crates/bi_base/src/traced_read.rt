//! Readers that record the outcome of their calls.

ghost use Rattle.std.specs.Prelude.{◌≡◌, IsFalse};
ghost use Rattle.std.specs.Io.{ReadsAtMost};
ghost use Rattle.bi_base.specs.CallTraces.{read_trace};
ghost use Rattle.bi_base.specs.Traces.{ReadTrace, IsReadCall, ReadsWell};

use crate::outcomes::CallOutcome;
use std::io::{self, Read};

/// A reader that records the outcome of each of its calls.
pub trait TracedRead {
    // The reader after the calls so far.
    ghost trace: { Self → ReadTrace };

    /// Reads once into the first bytes of `buffer`, and returns how many: 0 only at the end of the
    /// input, or if `buffer` is empty. Fails with the error of the reader, even if it is an
    /// interruption. No byte is then lost.
    fn read_once(&mut self, buffer: &mut [u8]) -> io::Result<usize>
        ensures bound { ReadsAtMost result buffer.new }
        ensures call { IsReadCall (trace self.old) (trace self.new) result buffer.new };
}

/// What is recorded of the calls on a reader. The default is what is recorded before the first.
#[derive(Clone, Copy, Default)]
pub struct ReadCalls {
    taken: u64,
    outcome: CallOutcome,
    stopped: bool,
}

impl ReadCalls {
    /// Reads once from the reader, as `TracedRead::read_once` does.
    pub fn read<R: Read>(&mut self, reader: &mut R, buffer: &mut [u8]) -> io::Result<usize>
        ensures bound { ReadsAtMost result buffer.new }
        ensures call { IsReadCall
            (read_trace 0 (R.remaining reader.old) self.old)
            (read_trace 0 (R.remaining reader.new) self.new) result buffer.new }
    {
        let call = reader.read(buffer);
        if let Ok(count) = &call {
            self.taken = self.taken.saturating_add(*count as u64);
        }
        self.outcome = self.outcome.after(&call);
        self.stopped = self.stopped || self.outcome.must_stop();
        call
    }
}

/// A `TracedRead` of any reader, which it borrows.
#[derive(Drop)]
pub struct TracedReader<'a, R> {
    reader: &'a mut R,
    calls: ReadCalls,
}

impl<'a, R: Read> TracedReader<'a, R> {
    /// Returns a `TracedRead` of this reader, with no calls so far.
    pub fn new(reader: &'a mut R) -> TracedReader<'a, R>
        ensures same_reader { (⟦<TracedReader<'a, R> as TracedRead>⟧.trace result).reader
            ≡ reader.entry.ghost_name }
        ensures remaining { (⟦<TracedReader<'a, R> as TracedRead>⟧.trace result).remaining
            ≡ R.remaining reader.old }
        ensures none_taken { (⟦<TracedReader<'a, R> as TracedRead>⟧.trace result).taken ≡ 0 }
        ensures not_failed { IsFalse (⟦<TracedReader<'a, R> as TracedRead>⟧.trace result).failed }
        ensures well { ReadsWell (⟦<TracedReader<'a, R> as TracedRead>⟧.trace result) }
    {
        TracedReader {
            reader,
            calls: ReadCalls::default(),
        }
    }
}

impl<'a, R: Read> TracedRead for TracedReader<'a, R> {
    ghost trace = { λ traced. read_trace traced.reader.ghost_name
        (R.remaining traced.reader.now) traced.calls };

    fn read_once(&mut self, buffer: &mut [u8]) -> io::Result<usize> {
        self.calls.read(self.reader, buffer)
    }
}
