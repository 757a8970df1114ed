//! Files that are open for reading, which record the outcomes of the calls on them.

ghost use Rattle.std.specs.Prelude.{◌≡◌, IsFalse};
ghost use Rattle.bi_base.specs.CallTraces.{read_trace};
ghost use Rattle.bi_base.specs.Traces.{ReadsWell};

use bi_base::{ReadCalls, TracedRead};
use std::io::{self, Read};

/// A file that is open for reading, with its reader. It is closed when it is dropped.
#[derive(Drop)]
pub struct OpenedFile<R> {
    reader: R,
    calls: ReadCalls,
}

impl<R: Read> OpenedFile<R> {
    /// Returns the file with this reader, before the first call.
    pub fn new(reader: R) -> OpenedFile<R>
        ensures remaining { (⟦<OpenedFile<R> as TracedRead>⟧.trace result).remaining
            ≡ R.remaining reader }
        ensures none_taken { (⟦<OpenedFile<R> as TracedRead>⟧.trace result).taken ≡ 0 }
        ensures not_failed { IsFalse (⟦<OpenedFile<R> as TracedRead>⟧.trace result).failed }
        ensures well { ReadsWell (⟦<OpenedFile<R> as TracedRead>⟧.trace result) }
    {
        OpenedFile {
            reader,
            calls: ReadCalls::default(),
        }
    }

    /// Returns what is recorded of the calls so far.
    pub fn calls(&self) -> ReadCalls
        ensures { result ≡ self.now.calls }
    {
        self.calls
    }

    /// Returns the reader.
    pub fn into_reader(self) -> R
        ensures { result ≡ self.reader }
    {
        self.reader
    }
}

impl<R: Read> TracedRead for OpenedFile<R> {
    ghost trace = { λ file. read_trace 0 (R.remaining file.reader) file.calls };

    fn read_once(&mut self, buffer: &mut [u8]) -> io::Result<usize> {
        self.calls.read(&mut self.reader, buffer)
    }
}
