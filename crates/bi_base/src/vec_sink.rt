//! A sink that keeps the bytes in memory.

ghost use Rattle.std.specs.Prelude.{◌≡◌, ℕ, List, [], OnErr};
ghost use Rattle.bi_base.specs.Sinks.{Wrote, FailsWithin};
ghost use Rattle.bi_base.specs.SinkLaws.{fails_after, fails_before};
ghost use Rattle.bi_base.specs.VecSinks.{Grows, IsOutOfMemory, grows_nothing, grows_in_turn};

use crate::fault::Error;
use crate::sinks::Sink;
use std::alloc::Global;
use std::marker::Model;

/// A sink that keeps the bytes in memory. Contracts see it as the list of all bytes that were
/// appended.
#[derive(Drop)]
pub struct VecSink {
    bytes: Vec<u8>,
}

impl Model for VecSink {
    ghost Value = { List ℕ };

    ghost view = { λ sink. sink.bytes.items };
}

impl VecSink {
    /// Returns a sink without bytes. It allocates nothing yet.
    pub fn new(alloc: Global) -> VecSink
        ensures { result ≡ [] }
    {
        VecSink {
            bytes: Vec::new(alloc),
        }
    }

    /// Returns all bytes that were appended.
    pub fn into_vec(self) -> Vec<u8>
        ensures { result.items ≡ self }
    {
        let VecSink { bytes } = self;
        bytes
    }
}

impl Sink for VecSink {
    ghost appends = { Grows };

    ghost fails = { FailsWithin Grows IsOutOfMemory };

    /// Appends the given bytes. The only error is `OutOfMemory`. Nothing was then appended.
    fn put(&mut self, bytes: &[u8]) -> Result<(), Error>
        ensures wrote { Wrote ⟦<VecSink as Sink>⟧.appends ⟦<VecSink as Sink>⟧.fails
            self.old bytes.now result self.new }
        ensures unchanged { OnErr result (self.new ≡ self.old) }
    {
        self.bytes.extend_from_slice(bytes)?;
        Ok(())
    }

    ghost appends_nothing = { grows_nothing };

    ghost appends_in_turn = { grows_in_turn };

    ghost fails_after = { fails_after Grows IsOutOfMemory grows_in_turn };

    ghost fails_before = { fails_before Grows IsOutOfMemory };
}
