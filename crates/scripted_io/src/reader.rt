//! Readers that follow scripts.

ghost use Rattle.std.specs.Prelude.{◌≡◌, ◌+◌, ◌-◌, ◌^◌, min, max, length, replicate, Some, None};
ghost use Rattle.std.specs.Prelude.{MatchResult};
ghost use Rattle.std.specs.Io.{ReadsAtMost};
ghost use Rattle.std.specs.Io.KnownBytes.{ReadConsumes};

use crate::script::Script;
use std::io::{self, Read};

/// A reader of bytes in memory. Each read follows its script.
#[derive(Drop)]
pub struct ScriptedReader<'a> {
    bytes: &'a [u8],
    script: Script,
    /// The number of reads so far.
    pub reads: u64,
    /// The number of bytes that were read so far.
    pub taken: u64,
}

impl<'a> ScriptedReader<'a> {
    ghost use Rattle.scripted_io.specs.Reader.{bytes_left, script_of};

    /// Returns a reader of the given bytes.
    pub fn new(bytes: &'a [u8], script: Script) -> ScriptedReader<'a>
        ensures bytes { bytes_left result ≡ bytes.now }
        ensures script { script_of result ≡ script }
        ensures reads { result.reads ≡ 0 }
        ensures taken { result.taken ≡ 0 }
    {
        ScriptedReader {
            bytes,
            script,
            reads: 0,
            taken: 0,
        }
    }
}

impl<'a> Read for ScriptedReader<'a> {
    ghost use Rattle.scripted_io.specs.Script.{turn_at, Follows};
    ghost use Rattle.scripted_io.specs.Reader.{bytes_left, script_of};

    ghost remaining = { λ reader. Some (bytes_left reader) };

    fn read(&mut self, buffer: &mut [u8]) -> io::Result<usize>
        ensures bound { ReadsAtMost result buffer.new }
        ensures bytes { ReadConsumes (Some (bytes_left self.old)) (Some (bytes_left self.new))
            result buffer.new }
        ensures turn { Follows (turn_at (script_of self.old) self.old.reads)
            (λ most. result
            ≡ Ok (min (max most 1)
            (min (length buffer.old) (length (bytes_left self.old))))) result }
        ensures script { script_of self.new ≡ script_of self.old }
        ensures reads { self.new.reads ≡ min (self.old.reads + 1) (2 ^ 64 - 1) }
        ensures taken { MatchResult result
            (λ count. self.new.taken ≡ min (self.old.taken + count) (2 ^ 64 - 1))
            (λ _. self.new.taken ≡ self.old.taken) }
    {
        let number = self.reads;
        self.reads = self.reads.saturating_add(1);
        let most = self.script.most(number)?.max(1).min(buffer.len());
        let count = self.bytes.read(&mut buffer[..most])?;
        self.taken = self.taken.saturating_add(count as u64);
        Ok(count)
    }
}

/// An endless reader. Each read fills the whole buffer with the same byte.
#[derive(Drop)]
pub struct EndlessReader {
    byte: u8,
    /// The number of bytes that were read so far.
    pub taken: u64,
}

impl EndlessReader {
    ghost use Rattle.scripted_io.specs.Reader.{byte_of};

    /// Returns a reader that reads this byte only.
    pub fn new(byte: u8) -> EndlessReader
        ensures byte { byte_of result ≡ byte }
        ensures taken { result.taken ≡ 0 }
    {
        EndlessReader { byte, taken: 0 }
    }
}

impl Read for EndlessReader {
    ghost use Rattle.scripted_io.specs.Reader.{byte_of};

    fn read(&mut self, buffer: &mut [u8]) -> io::Result<usize>
        ensures bound { ReadsAtMost result buffer.new }
        ensures bytes { ReadConsumes None None result buffer.new }
        ensures count { result ≡ Ok (length buffer.old) }
        ensures filled { buffer.new ≡ replicate (length buffer.old) (byte_of self.old) }
        ensures state { self.new
            ≡ record self.old { taken = min (self.old.taken + length buffer.old) (2 ^ 64 - 1) } }
    {
        self.taken = self.taken.saturating_add(buffer.len() as u64);
        buffer.fill(self.byte);
        Ok(buffer.len())
    }
}
