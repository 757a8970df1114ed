//! Zeros that pad what is written.

ghost use Rattle.std.specs.Prelude.{◌≡◌, ◌+◌, ◌*◌, ◌/◌, ◌%◌, ◌<◌, ◌≤◌, replicate};
ghost use Rattle.bi_base.specs.Sinks.{Wrote};

use crate::fault::Error;
use crate::sinks::Sink;

/// How many zeros are appended at once.
const MOST_AT_ONCE: usize = 64;

/// Appends this many zeros.
///
/// The only errors are those of the sink. After one, the sink is as a failed `put` of all zeros
/// leaves it.
pub fn put_zeros<S: Sink>(count: usize, sink: &mut S) -> Result<(), Error>
    ensures { Wrote S.appends S.fails sink.old (replicate count 0) result sink.new }
{
    let zeros = [0; MOST_AT_ONCE];
    for _ in 0..count / MOST_AT_ONCE {
        sink.put(&zeros)?;
    }
    sink.put(&zeros[..count % MOST_AT_ONCE])
}
