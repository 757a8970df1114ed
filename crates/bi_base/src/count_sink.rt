//! A sink that counts the bytes.

ghost use Rattle.std.specs.Prelude.{◌≡◌, ℕ};
ghost use Rattle.bi_base.specs.CountSinks.{Counts, counts_nothing, counts_in_turn};

use crate::fault::Error;
use crate::sinks::Sink;
use std::marker::Model;

/// A sink that counts the bytes, up to the greatest u64, and does not keep them. Contracts see it
/// as the count.
#[derive(Clone, Copy, Debug, PartialEq, Eq)]
pub struct CountSink {
    count: u64,
}

impl Model for CountSink {
    ghost Value = { ℕ };

    ghost view = { λ sink. sink.count };

    ghost inverse = { λ count. record { count = count } };
}

impl CountSink {
    /// Returns a sink that has counted no bytes.
    pub fn new() -> CountSink
        ensures { result ≡ 0 }
    {
        CountSink { count: 0 }
    }

    /// Returns a sink that has counted `count` bytes.
    pub fn with_count(count: u64) -> CountSink
        ensures { result ≡ count }
    {
        CountSink { count }
    }

    /// Returns how many bytes were appended, or the greatest u64 if there were more.
    pub fn count(&self) -> u64
        ensures { result ≡ self.now }
    {
        self.count
    }
}

impl Sink for CountSink {
    ghost appends = { Counts };

    ghost fails = { λ _ _ _ _. ⊥ };

    /// Counts the given bytes. Never fails.
    fn put(&mut self, bytes: &[u8]) -> Result<(), Error> {
        self.count = self.count.saturating_add(bytes.len() as u64);
        Ok(())
    }

    ghost appends_nothing = { counts_nothing };

    ghost appends_in_turn = { counts_in_turn };

    ghost fails_after = { λ _ _ _ _ _ _ _ failed. failed };

    ghost fails_before = { λ _ _ _ _ _ failed. failed };
}
