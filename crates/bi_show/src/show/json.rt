//! The page of a boot image as one text of JSON.

mod configurations;
mod fit;
mod images;
mod legacy;
mod members;

ghost use Rattle.std.specs.Prelude.{⊤, IfErr, IfOk, OnOk, string_bytes};
ghost use Rattle.bi_base.specs.Commands.{Appended, AppendFailed};
ghost use Rattle.bi_base.specs.Pipes.{IsPiped};
ghost use Rattle.bi_report.specs.CheckedFiles.{IsCheckError};
ghost use Rattle.bi_show.specs.ShownObjects.{IsShownObject, show_json_laws, show_json_promise};

use bi_base::{Command, Error, Limits, Sink, VecSink, pipe_to};
use bi_norm::BootImage;
use fit::append_fit;
use legacy::append_legacy;
use std::alloc::Global;
use std::io::{Read, Write};

/// Returns what the page of a boot image says, without the layout of its file, as one text of JSON
/// and a newline. Numbers and codes are values of JSON, and texts are strings of their bytes.
///
/// Errors, the first that applies: those of `check`.
pub fn show_json(alloc: Global, file: &[u8], limits: Limits) -> Result<String, Error>
    ensures shown { IfOk result (λ text. IsShownObject limits file.now (string_bytes text)) }
    ensures failed { IfErr result (IsCheckError limits file.now) }
{
    let mut sink = VecSink::new(alloc);
    show_json_into(alloc, file, limits, &mut sink)?;
    match String::from_utf8(sink.into_vec()) {
        Ok(text) => Ok(text),
        Err(_) => unreachable!(),
    }
}

/// Appends what the page of a boot image says as JSON, piece by piece. Each refusal and each
/// allocation comes before the first byte.
fn show_json_into<S: Sink>(
    alloc: Global,
    file: &[u8],
    limits: Limits,
    sink: &mut S,
) -> Result<(), Error>
    ensures appended { OnOk result (Appended S.appends (IsShownObject limits file.now)
        sink.old sink.new) }
    ensures failed { IfErr result (AppendFailed S.fails (IsShownObject limits file.now)
        (IsCheckError limits file.now) sink.old sink.new) }
{
    match BootImage::read(alloc, file, limits)? {
        BootImage::Legacy(image) => append_legacy(file, &image, sink),
        BootImage::Fit(image) => append_fit(alloc, file, &image, limits, sink),
    }
}

/// Showing as JSON, as a command: `show --json`.
#[derive(Clone, Copy, Debug, PartialEq, Eq)]
pub struct JsonPresenter;

impl Command for JsonPresenter {
    type Value = ();

    type Failure = Error;

    ghost can_run = { λ _. ⊤ };

    ghost promise = { λ _. show_json_promise };

    /// Appends the text piece by piece. Each refusal and each allocation comes before the first
    /// byte.
    fn run<S: Sink>(
        &self,
        alloc: Global,
        input: &[u8],
        limits: Limits,
        sink: &mut S,
    ) -> Result<(), Error> {
        show_json_into(alloc, input, limits, sink)?;
        Ok(())
    }

    ghost wraps_from = { λ _ _ _ _ same. same };

    ghost laws = { λ _. show_json_laws };
}

/// Reads a boot image to its end, writes what its page says as one text of JSON and a newline, and
/// flushes: `pipe_to` with a `JsonPresenter`.
///
/// The errors are those of `pipe_to`, and of the file those of `show_json`.
pub fn show_json_to<R: Read, W: Write>(
    alloc: Global,
    reader: &mut R,
    writer: &mut W,
    limits: Limits,
) -> Result<(), Error>
    ensures { IsPiped (show_json_promise limits) limits (R.remaining reader.old)
        (R.remaining reader.new) (W.contents writer.old) (W.contents writer.new) result }
{
    pipe_to(alloc, &JsonPresenter, reader, writer, limits)
}
