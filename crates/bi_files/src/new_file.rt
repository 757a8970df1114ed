//! New files, which record the outcomes of the calls on them.

ghost use Rattle.std.specs.Prelude.{◌≡◌, IsFalse};
ghost use Rattle.bi_base.specs.CallTraces.{write_trace};
ghost use Rattle.bi_base.specs.Traces.{WritesWell};

use bi_base::{TracedWrite, WriteCalls};
use std::io::{self, Write};

/// A new file, with its writer. It is closed when it is dropped.
#[derive(Drop)]
pub struct NewFile<W> {
    writer: W,
    calls: WriteCalls,
}

impl<W: Write> NewFile<W> {
    /// Returns a new file with this writer, before the first call.
    pub fn new(writer: W) -> NewFile<W>
        ensures contents { (⟦<NewFile<W> as TracedWrite>⟧.trace result).contents
            ≡ W.contents writer }
        ensures not_failed { IsFalse (⟦<NewFile<W> as TracedWrite>⟧.trace result).failed }
        ensures not_stalled { IsFalse (⟦<NewFile<W> as TracedWrite>⟧.trace result).stalled }
        ensures well { WritesWell (⟦<NewFile<W> as TracedWrite>⟧.trace result) }
    {
        NewFile {
            writer,
            calls: WriteCalls::default(),
        }
    }

    /// Returns the writer.
    pub fn writer(&self) -> &W
        ensures { result.now ≡ self.now.writer }
    {
        &self.writer
    }

    /// Returns what is recorded of the calls so far.
    pub fn calls(&self) -> WriteCalls
        ensures { result ≡ self.now.calls }
    {
        self.calls
    }

    /// Returns the writer.
    pub fn into_writer(self) -> W
        ensures { result ≡ self.writer }
    {
        self.writer
    }
}

impl<W: Write> TracedWrite for NewFile<W> {
    ghost trace = { λ file. write_trace 0 (W.contents file.writer) file.calls };

    fn write_once(&mut self, bytes: &[u8]) -> io::Result<usize> {
        self.calls.write(&mut self.writer, bytes)
    }

    fn flush_once(&mut self) -> io::Result<()> {
        self.calls.flush(&mut self.writer)
    }
}
