//! Sinks: what bytes are appended to.

ghost use Rattle.std.specs.Prelude.{ℕ, List};
ghost use Rattle.bi_base.specs.Sinks.{Wrote, AppendsNothing, AppendsInTurn, FailsAfter};
ghost use Rattle.bi_base.specs.Sinks.{FailsBefore};
ghost use Rattle.bi_base.specs.declared.fault.Error.{Error};

use crate::fault::Error;

/// Something that bytes are appended to.
pub trait Sink {
    // A call that succeeds: the sink before it, the bytes that were appended, and the sink after
    // it.
    ghost appends: { Self → List ℕ → Self → Type 0 };

    // A call that fails: the sink before it, the bytes that were to be appended, the sink after it,
    // and the error.
    ghost fails: { Self → List ℕ → Self → Error → Type 0 };

    /// Appends the given bytes, or fails as the sink does.
    fn put(&mut self, bytes: &[u8]) -> Result<(), Error>
        ensures { Wrote appends fails self.old bytes.now result self.new };

    // Appending nothing changes nothing.
    ghost appends_nothing: { AppendsNothing appends };

    // Two appends in turn are one append of both lists.
    ghost appends_in_turn: { AppendsInTurn appends };

    // A failure after some bytes were appended is a failure to append these and the others.
    ghost fails_after: { FailsAfter appends fails };

    // A failure to append some bytes is a failure to append these and more.
    ghost fails_before: { FailsBefore fails };
}
