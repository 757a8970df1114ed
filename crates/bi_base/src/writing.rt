//! Writing bytes to writers that may write few of them at once, be interrupted or fail.

ghost use Rattle.std.specs.Prelude.{◌<◌, length, take, IfOk, OnOk, IfErr};
ghost use Rattle.std.specs.Io.{WritesAtMost};
ghost use Rattle.bi_base.specs.Sinks.{Wrote};
ghost use Rattle.bi_base.specs.Writing.{NothingWritten, WroteAll, WriteStopped, Flushed};
ghost use Rattle.bi_base.specs.Writing.{FlushStopped, WroteAndFlushed, WriteOrFlushStopped};

use crate::fault::Error;
use crate::outcomes::MOST_INTERRUPTIONS;
use crate::traced_write::TracedWrite;
use std::io::ErrorKind;

/// Writes once, and again after each interruption. The only error is `WriteFailed`.
fn write_some<T: TracedWrite>(target: &mut T, bytes: &[u8]) -> Result<usize, Error>
    ensures bound { WritesAtMost result bytes.now }
    ensures ok { IfOk result (λ count. WroteAll (T.trace target.old) (take count bytes.now)
        (T.trace target.new)) }
    ensures some { IfOk result (λ count. 0 < length bytes.now → 0 < count) }
    ensures failed { IfErr result (NothingWritten (T.trace target.old) (T.trace target.new)) }
{
    for _ in 0..MOST_INTERRUPTIONS {
        match target.write_once(bytes) {
            Ok(0) if !bytes.is_empty() => return Err(Error::WriteFailed),
            Ok(count) => return Ok(count),
            Err(error) if error.kind() == ErrorKind::Interrupted => {}
            Err(_) => return Err(Error::WriteFailed),
        }
    }
    Err(Error::WriteFailed)
}

/// Writes all of the given bytes, in as many calls as it takes.
///
/// The only error is `WriteFailed`, after a failed write. A prefix of the bytes was then written.
/// No failed write is ignored.
pub fn write_all<T: TracedWrite>(target: &mut T, bytes: &[u8]) -> Result<(), Error>
    ensures { Wrote WroteAll WriteStopped (T.trace target.old) bytes.now result
        (T.trace target.new) }
{
    let mut done = 0;
    while done < bytes.len() {
        done += write_some(target, &bytes[done..])?;
    }
    Ok(())
}

/// Flushes, and again after each interruption. No byte is written or lost.
///
/// The only error is `WriteFailed`, after a failed flush. No failed flush is ignored.
pub fn flush<T: TracedWrite>(target: &mut T) -> Result<(), Error>
    ensures flushed { OnOk result (Flushed (T.trace target.old) (T.trace target.new)) }
    ensures failed { IfErr result (FlushStopped (T.trace target.old) (T.trace target.new)) }
{
    for _ in 0..MOST_INTERRUPTIONS {
        match target.flush_once() {
            Ok(()) => return Ok(()),
            Err(error) if error.kind() == ErrorKind::Interrupted => {}
            Err(_) => return Err(Error::WriteFailed),
        }
    }
    Err(Error::WriteFailed)
}

/// Writes all of the given bytes, and flushes.
///
/// The only error is `WriteFailed`: that of `write_all`, after which a prefix of the bytes was
/// written, or that of `flush`, after which all of them were.
pub fn write_and_flush<T: TracedWrite>(target: &mut T, bytes: &[u8]) -> Result<(), Error>
    ensures { Wrote WroteAndFlushed WriteOrFlushStopped
        (T.trace target.old) bytes.now result (T.trace target.new) }
{
    write_all(target, bytes)?;
    flush(target)
}
