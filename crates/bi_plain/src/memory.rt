//! The errors of calls that fail only if memory runs out.

ghost use Rattle.std.specs.Prelude.{◌≡◌, IfOk, IfErr, IsErr};
ghost use Rattle.bi_base.specs.declared.fault.Error.TheVariants.{OutOfMemory};

use bi_base::Error;
use std::alloc::AllocError;

/// Returns the result of a call. Requires: its error, if there is one, is `OutOfMemory`.
pub(crate) fn only_memory<T>(outcome: Result<T, Error>) -> Result<T, AllocError>
    requires { IfErr outcome (λ error. error ≡ OutOfMemory) }
    ensures value { IfOk result (λ value. outcome ≡ Ok value) }
    ensures failed { IfErr result (λ _. IsErr outcome) }
{
    match outcome {
        Ok(value) => Ok(value),
        Err(_) => Err(AllocError),
    }
}
