//! A writer that follows scripts.

ghost use Rattle.std.specs.Prelude.{◌≡◌, ◌+◌, ◌-◌, ◌^◌, min, length, [], Some, IsOk};
ghost use Rattle.std.specs.Io.{WritesAtMost};
ghost use Rattle.std.specs.Io.KnownBytes.{WriteAppends, Keeps};

use crate::script::Script;
use std::alloc::Global;
use std::io::{self, Write};

/// A writer to memory. Each write and each flush follows its script.
#[derive(Drop)]
pub struct ScriptedWriter {
    /// The bytes that were written so far.
    pub held: Vec<u8>,
    writing: Script,
    flushing: Script,
    /// The number of writes so far.
    pub writes: u64,
    /// The number of flushes so far.
    pub flushes: u64,
}

impl ScriptedWriter {
    ghost use Rattle.scripted_io.specs.Writer.{writing_of, flushing_of};

    /// Returns a writer without bytes, with a script for its writes and one for its flushes.
    pub fn new(alloc: Global, writing: Script, flushing: Script) -> ScriptedWriter
        ensures held { result.held.items ≡ [] }
        ensures writing { writing_of result ≡ writing }
        ensures flushing { flushing_of result ≡ flushing }
        ensures writes { result.writes ≡ 0 }
        ensures flushes { result.flushes ≡ 0 }
    {
        ScriptedWriter {
            held: Vec::new(alloc),
            writing,
            flushing,
            writes: 0,
            flushes: 0,
        }
    }
}

impl Write for ScriptedWriter {
    ghost use Rattle.scripted_io.specs.Script.{turn_at, Follows};
    ghost use Rattle.scripted_io.specs.Writer.{writing_of, flushing_of, TakesOrLacksMemory};

    ghost contents = { λ writer. Some writer.held.items };

    fn write(&mut self, bytes: &[u8]) -> io::Result<usize>
        ensures bound { WritesAtMost result bytes.now }
        ensures bytes { WriteAppends (Some self.old.held.items) (Some self.new.held.items) result
            bytes.now }
        ensures turn { Follows (turn_at (writing_of self.old) self.old.writes)
            (λ most. TakesOrLacksMemory self.old.held (min most (length bytes.now)) result) result }
        ensures state { self.new ≡ record self.old {
          held = self.new.held;
          writes =
              min (self.old.writes + 1) (2 ^ 64 - 1);
        } }
    {
        let number = self.writes;
        self.writes = self.writes.saturating_add(1);
        let count = self.writing.most(number)?.min(bytes.len());
        self.held.extend_from_slice(&bytes[..count])?;
        Ok(count)
    }

    fn flush(&mut self) -> io::Result<()>
        ensures bytes { Keeps (Some self.old.held.items) (Some self.new.held.items) }
        ensures turn { Follows (turn_at (flushing_of self.old) self.old.flushes) (λ _. IsOk result)
            result }
        ensures state { self.new
            ≡ record self.old { flushes = min (self.old.flushes + 1) (2 ^ 64 - 1) } }
    {
        let number = self.flushes;
        self.flushes = self.flushes.saturating_add(1);
        self.flushing.most(number)?;
        Ok(())
    }
}
