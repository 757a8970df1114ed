//! Converting a legacy image to a flattened image tree.

ghost use Rattle.std.specs.Prelude.{⊤};
ghost use Rattle.bi_base.specs.Pipes.{IsPiped};
ghost use Rattle.bi_commands.specs.BuildCommands.{convert_promise, convert_laws};

use bi_base::{Command, Error, Limits, Sink, pipe_to};
use bi_norm::convert_into;
use std::alloc::Global;
use std::io::{Read, Write};

/// Converting, as a command: `convert_into`.
#[derive(Clone, Copy, Debug, PartialEq, Eq)]
pub struct Converter;

impl Command for Converter {
    type Value = ();

    type Failure = Error;

    ghost can_run = { λ _. ⊤ };

    ghost promise = { λ _. convert_promise };

    fn run<S: Sink>(
        &self,
        alloc: Global,
        input: &[u8],
        limits: Limits,
        sink: &mut S,
    ) -> Result<(), Error> {
        convert_into(alloc, input, limits, sink)
    }

    ghost wraps_from = { λ _ _ _ _ same. same };

    ghost laws = { λ _. convert_laws };
}

/// Reads a legacy image to its end, writes the flattened image tree that it is converted to, with
/// its payloads embedded, and flushes: `pipe_to` with a `Converter`.
///
/// The errors are those of `pipe_to`, and of the file those of `convert`.
pub fn convert_to<R: Read, W: Write>(
    alloc: Global,
    reader: &mut R,
    writer: &mut W,
    limits: Limits,
) -> Result<(), Error>
    ensures { IsPiped (convert_promise limits) limits (R.remaining reader.old)
        (R.remaining reader.new) (W.contents writer.old) (W.contents writer.new) result }
{
    pipe_to(alloc, &Converter, reader, writer, limits)
}
