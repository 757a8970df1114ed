//! Reading a whole input, of as many bytes as the limits allow.

ghost use Rattle.std.specs.Prelude.{◌+◌, ◌≤◌, ⊤, vec_len, IfOk, IfErr};
ghost use Rattle.std.specs.Io.{ReadsAtMost};
ghost use Rattle.bi_base.specs.Reading.{IsInputRead, IsInputNotRead, IsReadError, NothingRead};
ghost use Rattle.bi_base.specs.Reading.{ReadSome, ReadWhole, TakesAtMost};

use crate::fault::{Cause, Error, Fault};
use crate::limits::Limits;
use crate::outcomes::MOST_INTERRUPTIONS;
use crate::traced_read::{TracedRead, TracedReader};
use std::alloc::Global;
use std::io::{ErrorKind, Read};

/// The most bytes that are read at once.
const CHUNK: usize = 0x1_0000;

/// Reads once, and again after each interruption. The only error is `ReadFailed`.
fn read_some<S: TracedRead>(source: &mut S, buffer: &mut [u8]) -> Result<usize, Error>
    ensures bound { ReadsAtMost result buffer.new }
    ensures ok { IfOk result (ReadSome (S.trace source.old) (S.trace source.new) buffer.new) }
    ensures failed { IfErr result (NothingRead (S.trace source.old) (S.trace source.new)) }
{
    for _ in 0..MOST_INTERRUPTIONS {
        match source.read_once(buffer) {
            Ok(count) => return Ok(count),
            Err(error) if error.kind() == ErrorKind::Interrupted => {}
            Err(_) => return Err(Error::ReadFailed),
        }
    }
    Err(Error::ReadFailed)
}

/// Reads a whole input up to its end, from a reader that records the outcome of its calls.
///
/// Errors: `Refused` with `TooLarge` at the limit for files, if the input is longer than that;
/// `ReadFailed` after a failed read (no failed read is ignored); `OutOfMemory` if the buffer cannot
/// grow. After an error, the bytes that were read are lost. At most one byte more than the limit is
/// read, even from an endless reader, and even if the call fails.
pub fn read_all_traced<S: TracedRead>(
    alloc: Global,
    source: &mut S,
    limits: Limits,
) -> Result<Vec<u8>, Error>
    ensures read { IfOk result (λ bytes.
        IsInputRead limits (S.trace source.old) (S.trace source.new) bytes.items) }
    ensures failed { IfErr result
        (IsInputNotRead limits (S.trace source.old) (S.trace source.new)) }
{
    let most = limits.file() as usize;
    let mut bytes = Vec::new(alloc);
    let mut chunk = [0u8; CHUNK];
    loop {
        // One byte more than is left shows that the input is longer than the limit.
        let room = (most - bytes.len()).saturating_add(1).min(CHUNK);
        let count = read_some(source, &mut chunk[..room])?;
        if count == 0 {
            return Ok(bytes);
        }
        if count > most - bytes.len() {
            return Err(Error::Refused(Fault {
                cause: Cause::TooLarge,
                offset: limits.file(),
            }));
        }
        bytes.extend_from_slice(&chunk[..count])?;
    }
}

/// Reads a whole input up to its end: `read_all_traced` over a plain reader, with the same errors.
///
/// A plain reader does not record a failed call, so the contract does not state why `ReadFailed`
/// occurs, or that no failure is ignored. `read_all_traced` promises both.
pub fn read_all<R: Read>(alloc: Global, reader: &mut R, limits: Limits) -> Result<Vec<u8>, Error>
    ensures whole { IfOk result (λ bytes.
        ReadWhole (R.remaining reader.old) (R.remaining reader.new) bytes.items) }
    ensures within { IfOk result (λ bytes. vec_len bytes ≤ limits.file) }
    ensures failed { IfErr result (IsReadError (R.remaining reader.old) limits.file ⊤) }
    ensures takes_at_most_one_byte_more { TakesAtMost (R.remaining reader.old)
        (R.remaining reader.new) (limits.file + 1) }
{
    let mut source = TracedReader::new(reader);
    read_all_traced(alloc, &mut source, limits)
}
