//! Building a legacy image of parts that are given or are in an input.

ghost use Rattle.std.specs.Prelude.{◌≤◌, ⊤, length, IfOk, OnOk, IfErr};
ghost use Rattle.std.specs.List.{AllByRecursion};
ghost use Rattle.bi_base.specs.Cells.{AreBytes};
ghost use Rattle.bi_base.specs.Commands.{Appended, AppendFailed};
ghost use Rattle.bi_base.specs.Pipes.{IsPiped};
ghost use Rattle.bi_base.specs.Slices.{bytes_of};
ghost use Rattle.bi_commands.specs.BuildCommands.{ArePartsOf, IsPartsError};
ghost use Rattle.bi_commands.specs.BuildCommands.{IsLegacyOutput, IsLegacyOutputError};
ghost use Rattle.bi_commands.specs.BuildCommands.{build_legacy_promise, build_legacy_laws};
ghost use Rattle.bi_commands.specs.Parts.{parts_of_lengths};

use crate::parts::{Part, fill, pieces};
use bi_base::{Command, Error, Limits, Sink, are_bytes, pipe_to};
use bi_legacy::{Fields, emit};
use std::alloc::Global;
use std::io::{Read, Write};

/// Building a legacy image, as a command: `bi_legacy::emit` with these fields. The parts are given,
/// or are consecutive pieces of the input; without parts the whole input is the one part.
#[derive(Clone, Copy, Debug, PartialEq, Eq)]
pub struct LegacyBuilder<'a> {
    /// The fields of the header.
    pub fields: Fields<'a>,
    /// The parts, in their order. Without any, the whole input is the one part.
    pub parts: &'a [Part<'a>],
}

impl<'a> Command for LegacyBuilder<'a> {
    type Value = ();

    type Failure = Error;

    ghost can_run = { λ _. ⊤ };

    ghost promise = { λ builder. build_legacy_promise builder.fields builder.parts.now };

    /// Appends the legacy image.
    ///
    /// Errors, the first that applies: with parts, BadPart at the beginning of the first piece of
    /// the input that does not fit, or at the end of the pieces, if bytes are left; those of
    /// `bi_legacy::emit`. OutOfMemory occurs only for an input that can be cut, or without parts,
    /// and then instead of any other error.
    fn run<S: Sink>(
        &self,
        alloc: Global,
        input: &[u8],
        limits: Limits,
        sink: &mut S,
    ) -> Result<(), Error> {
        build_legacy_into(alloc, input, self.fields, self.parts, limits, sink)
    }

    ghost wraps_from = { λ _ _ _ _ same. same };

    ghost laws = { λ builder. build_legacy_laws builder.fields builder.parts.now };
}

/// Reads the parts of a legacy image to the end of the input, writes the legacy image of these
/// fields and parts, and flushes: `pipe_to` with a `LegacyBuilder` whose parts are consecutive
/// pieces of the input, of these lengths in bytes.
///
/// The errors are those of `pipe_to`, and of the input those of `LegacyBuilder::run`. OutOfMemory
/// may also occur before anything is read.
pub fn build_legacy_to<R: Read, W: Write>(
    alloc: Global,
    reader: &mut R,
    writer: &mut W,
    fields: Fields<'_>,
    lengths: &[u32],
    limits: Limits,
) -> Result<(), Error>
    ensures { IsPiped (build_legacy_promise fields.entry (parts_of_lengths lengths.now) limits)
        limits (R.remaining reader.old) (R.remaining reader.new)
        (W.contents writer.old) (W.contents writer.new) result }
{
    let parts = pieces(alloc, lengths)?;
    let builder = LegacyBuilder {
        fields,
        parts: &parts,
    };
    pipe_to(alloc, &builder, reader, writer, limits)
}

/// Appends the legacy image of these fields and parts to a sink. Requires: the input has at most
/// `limits.file()` bytes.
fn build_legacy_into<S: Sink>(
    alloc: Global,
    input: &[u8],
    fields: Fields<'_>,
    parts: &[Part<'_>],
    limits: Limits,
    sink: &mut S,
) -> Result<(), Error>
    requires { length input.now ≤ limits.file }
    ensures appended { OnOk result (Appended S.appends
        (IsLegacyOutput limits fields.entry parts.now input.now) sink.old sink.new) }
    ensures failed { IfErr result (AppendFailed S.fails
        (IsLegacyOutput limits fields.entry parts.now input.now)
        (IsLegacyOutputError limits fields.entry parts.now input.now) sink.old sink.new) }
{
    let contents = contents_of(alloc, input, parts)?;
    are_bytes(fields.name);
    emit(fields, &contents, limits, sink)?;
    Ok(())
}

/// Returns the contents of the parts, with an input: without parts the whole input as the only one.
/// Fails as `fill` does. Requires: the input has at most 0x7fffffff bytes.
fn contents_of<'a>(
    alloc: Global,
    input: &'a [u8],
    parts: &[Part<'a>],
) -> Result<Vec<&'a [u8]>, Error>
    requires { length input.now ≤ 0x7fffffff }
    ensures contents { IfOk result (λ contents. ArePartsOf parts.now input.entry.now
        (bytes_of contents.items)) }
    ensures bytes { IfOk result (λ contents. AllByRecursion AreBytes (bytes_of contents.items)) }
    ensures failed { IfErr result (IsPartsError parts.now input.entry.now) }
{
    if parts.is_empty() {
        are_bytes(input);
        let mut contents = Vec::with_capacity(alloc, 1)?;
        contents.push(input)?;
        return Ok(contents);
    }
    fill(alloc, input, parts)
}
