//! Running a command from a reader to a writer.

ghost use Rattle.std.specs.Prelude.{◌≡◌, ◌≤◌, [], length, IfOk, IfErr};
ghost use Rattle.bi_base.specs.BufferedSinks.{state_of};
ghost use Rattle.bi_base.specs.Commands.{Appended, CommandFailed};
ghost use Rattle.bi_base.specs.Pipes.{IsPiped, IsTracedPipe};
ghost use Rattle.bi_base.specs.Writing.{WroteAndFlushed, WriteOrFlushStopped};

use crate::buffered_sink::BufferedSink;
use crate::commands::Command;
use crate::limits::Limits;
use crate::reading::read_all_traced;
use crate::traced_read::{TracedRead, TracedReader};
use crate::traced_write::{TracedWrite, TracedWriter};
use std::alloc::Global;
use std::io::{Read, Write};

/// Reads an input to its end, runs a command on it, writes the output and flushes. The reader and
/// the writer record the outcome of their calls. Returns what the command returns. Requires: the
/// command may be run (`can_run`).
///
/// Errors:
///
/// - `ReadFailed` after a failed read;
/// - `Refused` with `TooLarge` at the limit for files, if the input is longer;
/// - those of the command;
/// - `WriteFailed` after a failed write or flush;
/// - `OutOfMemory` for any input, since reading it allocates.
///
/// No failed call is ignored. After `WriteFailed`, a prefix of the output was written: all of it if
/// the flush failed. After any other error, nothing was written. At most one byte more than the
/// limit is read.
pub fn pipe<C: Command, S: TracedRead, T: TracedWrite>(
    alloc: Global,
    command: &C,
    source: &mut S,
    target: &mut T,
    limits: Limits,
) -> Result<C::Value, C::Failure>
    requires { C.can_run command.now }
    ensures { IsTracedPipe (C.promise command.now limits) limits (S.trace source.old)
        (S.trace source.new) (T.trace target.old) (T.trace target.new) result }
{
    let input = read_all_traced(alloc, source, limits)?;
    let mut sink = BufferedSink::new(target);
    let value = command.run(alloc, &input, limits, &mut sink)?;
    sink.finish()?;
    Ok(value)
}

/// Reads an input to its end, runs a command on it, writes the output and flushes: `pipe` over a
/// plain reader and a plain writer, with the same errors. Requires: the command may be run
/// (`can_run`).
///
/// A plain reader or writer does not record a failed call, so the contract does not state why
/// `ReadFailed` and `WriteFailed` occur, that no failed call is ignored, or that the writer was
/// flushed. `pipe` promises all three.
pub fn pipe_to<C: Command, R: Read, W: Write>(
    alloc: Global,
    command: &C,
    reader: &mut R,
    writer: &mut W,
    limits: Limits,
) -> Result<C::Value, C::Failure>
    requires { C.can_run command.now }
    ensures { IsPiped (C.promise command.now limits) limits (R.remaining reader.old)
        (R.remaining reader.new) (W.contents writer.old) (W.contents writer.new) result }
{
    let mut source = TracedReader::new(reader);
    let mut target = TracedWriter::new(writer);
    pipe(alloc, command, &mut source, &mut target, limits)
}
