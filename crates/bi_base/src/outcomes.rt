//! The outcomes of the calls of a reader or a writer.

ghost use Rattle.std.specs.Prelude.{◌↔◌, IsTrue};
ghost use Rattle.bi_base.specs.Traces.{RecordsFailure, CountsInterruptions, MustStop};

use std::io::{self, ErrorKind};

/// The number of interrupted calls in a row that is a reason to stop. After fewer, the call is made
/// again.
pub const MOST_INTERRUPTIONS: u32 = 1024;

/// The outcome of the calls so far: whether the last one failed with an error other than an
/// interruption, and how many in a row were interrupted, up to the last one.
#[derive(Clone, Copy, Default)]
pub(crate) struct CallOutcome {
    /// Whether the last call failed with an error other than an interruption.
    failed: bool,
    /// How many calls in a row were interrupted, up to the last one. The count stops at 2^32 - 1.
    interruptions: u32,
}

impl CallOutcome {
    /// Returns the outcome after one more call with this result.
    pub(crate) fn after<T>(self, call: &io::Result<T>) -> CallOutcome
        ensures failed { RecordsFailure result.failed call.now }
        ensures interruptions { CountsInterruptions self.interruptions result.interruptions
            call.now }
    {
        match call {
            Ok(_) => CallOutcome::default(),
            Err(error) if error.kind() == ErrorKind::Interrupted => CallOutcome {
                failed: false,
                interruptions: self.interruptions.saturating_add(1),
            },
            Err(_) => CallOutcome {
                failed: true,
                interruptions: 0,
            },
        }
    }

    /// Returns whether the last call is a reason to stop.
    pub(crate) fn must_stop(self) -> bool
        ensures { IsTrue result ↔ MustStop self.failed self.interruptions }
    {
        self.failed || self.interruptions >= MOST_INTERRUPTIONS
    }
}
