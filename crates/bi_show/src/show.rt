//! The page of a boot image: tables for a person, with aligned columns. Its form may change from
//! version to version.

mod cells;
pub mod codes;
mod concerns;
mod configurations;
mod dates;
mod fit;
mod images;
mod json;
mod layout;
mod legacy;
mod signatures;
mod tables;

ghost use Rattle.std.specs.Prelude.{⊤, IfOk, IfErr, string_bytes};
ghost use Rattle.bi_base.specs.Pipes.{IsPiped};
ghost use Rattle.bi_report.specs.CheckedFiles.{IsCheckError};
ghost use Rattle.bi_show.specs.ShownFiles.{IsPage, show_laws, show_promise};

use bi_base::{Command, Error, Limits, Sink, pipe_to};
use bi_norm::BootImage;
use fit::fit_page;
pub use json::{JsonPresenter, show_json, show_json_to};
use legacy::legacy_page;
use std::alloc::Global;
use std::io::{Read, Write};

/// Returns the page of a boot image, for a person: what it is, its description, date and size; its
/// images or parts, with the verdict on each hash; its configurations and signature nodes; if
/// `layout`, the regions of the file by their offsets; and the lines that `check` gives.
///
/// Errors, the first that applies: those of `check`.
pub fn show(alloc: Global, file: &[u8], layout: bool, limits: Limits) -> Result<String, Error>
    ensures shown { IfOk result (λ text. IsPage layout limits file.now (string_bytes text)) }
    ensures failed { IfErr result (IsCheckError limits file.now) }
{
    match BootImage::read(alloc, file, limits)? {
        BootImage::Legacy(image) => Ok(legacy_page(alloc, file, &image, layout, limits)?),
        BootImage::Fit(image) => fit_page(alloc, file, &image, layout, limits),
    }
}

/// Showing, as a command: `show`.
#[derive(Clone, Copy, Debug, PartialEq, Eq)]
pub struct Presenter {
    /// Whether the page has the layout of the file.
    pub layout: bool,
}

impl Command for Presenter {
    type Value = ();

    type Failure = Error;

    ghost can_run = { λ _. ⊤ };

    ghost promise = { λ presenter. show_promise presenter.layout };

    /// Appends the page. Each refusal and each allocation comes before the first byte.
    fn run<S: Sink>(
        &self,
        alloc: Global,
        input: &[u8],
        limits: Limits,
        sink: &mut S,
    ) -> Result<(), Error> {
        let page = show(alloc, input, self.layout, limits)?;
        sink.put(page.as_bytes())?;
        Ok(())
    }

    ghost wraps_from = { λ _ _ _ _ same. same };

    ghost laws = { λ presenter. show_laws presenter.layout };
}

/// Reads a boot image to its end, writes its page, and flushes: `pipe_to` with a `Presenter`.
///
/// The errors are those of `pipe_to`, and of the file those of `show`.
pub fn show_to<R: Read, W: Write>(
    alloc: Global,
    reader: &mut R,
    writer: &mut W,
    layout: bool,
    limits: Limits,
) -> Result<(), Error>
    ensures { IsPiped (show_promise layout limits) limits (R.remaining reader.old)
        (R.remaining reader.new) (W.contents writer.old) (W.contents writer.new) result }
{
    let presenter = Presenter { layout };
    pipe_to(alloc, &presenter, reader, writer, limits)
}
