//! Commands: calls that make an output from a whole input, over any sink.

ghost use Rattle.std.specs.Prelude.{◌≡◌, ◌≤◌, length, IfOk, IfErr};
ghost use Rattle.bi_base.specs.Commands.{Appended, CommandFailed, CommandPromise, PromiseLaws};
ghost use Rattle.bi_base.specs.declared.fault.Error.{Error as IoError};
ghost use Rattle.bi_base.specs.Limits.{Limits};

use crate::fault::Error;
use crate::limits::Limits;
use crate::sinks::Sink;
use std::alloc::Global;

/// A call that makes an output from a whole input. `pipe` runs it from a reader to a writer.
pub trait Command {
    /// What the command returns in addition to the output.
    type Value: Drop;

    /// How the command fails.
    type Failure: From<Error> + Drop;

    // Whether the command may be run.
    ghost can_run: { Self → Type 0 };

    // What the command promises within these limits.
    ghost promise: { Self → Limits → CommandPromise Self.Value Self.Failure };

    /// Appends the output for this input to a sink. Requires: the command may be run (`can_run`),
    /// and the input has at most `limits.file()` bytes.
    ///
    /// After an error of the command, the sink is unchanged. After an error of the sink, the sink
    /// is as a failed `put` of the output leaves it.
    fn run<S: Sink>(
        &self,
        alloc: Global,
        input: &[u8],
        limits: Limits,
        sink: &mut S,
    ) -> Result<Self::Value, Self::Failure>
        requires can { can_run self.now }
        requires short { length input.now ≤ limits.file }
        ensures appended { IfOk result (λ value. Appended S.appends
            ((promise self.now limits).is_output value input.now) sink.old sink.new) }
        ensures failed { IfErr result (CommandFailed S.fails (promise self.now limits).wraps
            ((promise self.now limits).is_text input.now)
            ((promise self.now limits).has_error input.now) sink.old sink.new) };

    // The failure for an error of a reader, a writer or a sink.
    ghost wraps_from: { (command : Self) (limits : Limits) (a : IoError) (b : Self.Failure)
        → Self.Failure.from_gives a b → b ≡ (promise command limits).wraps a };

    ghost laws: { (command : Self) (limits : Limits) → PromiseLaws (promise command limits) };
}
