//! The listing of a boot image: a text with what the image is and where its parts are.

mod configurations;
mod fit;
mod legacy;

ghost use Rattle.std.specs.Prelude.{⊤, IfOk, OnOk, IfErr, string_bytes};
ghost use Rattle.bi_base.specs.Commands.{Appended, AppendFailed};
ghost use Rattle.bi_base.specs.Pipes.{IsPiped};
ghost use Rattle.bi_base.specs.Sinks.{Wrote};
ghost use Rattle.bi_norm.specs.Reading.{IsBootImageReadError};
ghost use Rattle.bi_common.specs.declared.format.Format.TheVariants.{Lines, Json};
ghost use Rattle.bi_common.specs.HeldImages.{IsHeldImage};
ghost use Rattle.bi_common.specs.JsonTokens.{json_tokens};
ghost use Rattle.bi_common.specs.LineTokens.{tokens_of_lines};
ghost use Rattle.bi_report.specs.ListedFiles.{IsListing, list_promise, list_laws, text_in};
ghost use Rattle.bi_report.specs.ReadListing.{lines_of_listing, read_object};

use bi_base::{Command, Error, Limits, Pen, Sink, SinkPen, VecSink, pipe_to};
use bi_common::format::Format;
use bi_common::json_writer::{JsonPen, JsonWriter};
use bi_common::lines::{LinePen, LineWriter};
use bi_norm::BootImage;
pub use configurations::put_keys_member;
pub use fit::put_payload_member;
use fit::{put_fit_lines, put_fit_object};
pub use legacy::put_parts_member;
use legacy::{put_legacy_lines, put_legacy_object};
use std::alloc::Global;
use std::io::{Read, Write};

/// Returns the listing of a boot image.
///
/// Errors, the first that applies: TooLarge at the limit, if the file is longer; Truncated at 0, if
/// it has fewer than four bytes; BadMagic at 0; those of `Legacy::read` or of `Fit::read`.
/// OutOfMemory may come instead of any of these, but only after the checks of a legacy image, or
/// of the header and the memory reservation block of a blob.
///
/// # Example
///
/// ```
/// use bi_base::Limits;
/// use bi_commands::list::listing;
///
/// let limits = Limits::new(0x7fff_ffff, 64).unwrap();
/// let text = listing(rt.alloc(), kernel, limits)?;
/// assert!(rt; text.as_str().starts_with("kind legacy\nname Linux%20example\n"));
/// ```
pub fn listing(alloc: Global, file: &[u8], limits: Limits) -> Result<String, Error>
    ensures lists { IfOk result (λ text. IsListing Lines limits file.now (string_bytes text)) }
    ensures failed { IfErr result (IsBootImageReadError limits file.now) }
{
    listing_as(alloc, file, limits, Format::Lines)
}

/// Returns the listing of a boot image, as one text of JSON and a newline. It says what the lines
/// of `listing` say, and the errors are those of `listing`.
pub fn listing_json(alloc: Global, file: &[u8], limits: Limits) -> Result<String, Error>
    ensures lists { IfOk result (λ text. IsListing Json limits file.now (string_bytes text)) }
    ensures failed { IfErr result (IsBootImageReadError limits file.now) }
{
    listing_as(alloc, file, limits, Format::Json)
}

/// Returns the listing of a boot image, in a form.
fn listing_as(alloc: Global, file: &[u8], limits: Limits, format: Format) -> Result<String, Error>
    ensures lists { IfOk result (λ text. IsListing format limits file.now (string_bytes text)) }
    ensures failed { IfErr result (IsBootImageReadError limits file.now) }
{
    let mut sink = VecSink::new(alloc);
    list_into(alloc, file, limits, format, &mut sink)?;
    match String::from_utf8(sink.into_vec()) {
        Ok(text) => Ok(text),
        Err(_) => unreachable!(),
    }
}

/// Appends the listing of a boot image, in a form. Each refusal and each allocation comes before
/// the first byte.
fn list_into<S: Sink>(
    alloc: Global,
    file: &[u8],
    limits: Limits,
    format: Format,
    sink: &mut S,
) -> Result<(), Error>
    ensures appended { OnOk result (Appended S.appends (IsListing format limits file.now)
        sink.old sink.new) }
    ensures failed { IfErr result (AppendFailed S.fails (IsListing format limits file.now)
        (IsBootImageReadError limits file.now) sink.old sink.new) }
{
    let image = BootImage::read(alloc, file, limits)?;
    append_listing(&image, format, sink)
}

/// Appends the listing of a boot image, in a form. Fails as the sink does. Requires: the image was
/// read.
fn append_listing<S: Sink>(image: &BootImage, format: Format, sink: &mut S) -> Result<(), Error>
    requires held { IsHeldImage image.now }
    ensures { Wrote S.appends S.fails sink.old
        (text_in format (lines_of_listing image.now) (read_object image.now)) result sink.new }
{
    let mut pen = SinkPen::new(sink);
    put_listing(image, format, &mut pen);
    pen.result()
}

/// Puts the listing of a boot image, in a form. Requires: the image was read.
fn put_listing<P: Pen>(image: &BootImage, format: Format, pen: &mut P)
    requires held { IsHeldImage image.now }
    ensures { P.puts pen.old (text_in format (lines_of_listing image.now) (read_object image.now))
        pen.new }
{
    match format {
        Format::Lines => put_lines(image, &mut LineWriter::new(pen)),
        Format::Json => {
            put_object(image, &mut JsonWriter::new(pen));
            pen.put(b"\n");
        }
    }
}

/// Puts the lines of a boot image. Requires: the image was read.
fn put_lines<L: LinePen>(image: &BootImage, pen: &mut L)
    requires held { IsHeldImage image.now }
    ensures { L.puts pen.old (tokens_of_lines (lines_of_listing image.now)) pen.new }
{
    match image {
        BootImage::Legacy(image) => put_legacy_lines(image, pen),
        BootImage::Fit(image) => put_fit_lines(image, pen),
    }
}

/// Puts the object of a boot image. Requires: the image was read.
fn put_object<J: JsonPen>(image: &BootImage, json: &mut J)
    requires held { IsHeldImage image.now }
    ensures { J.puts json.old (json_tokens (read_object image.now)) json.new }
{
    match image {
        BootImage::Legacy(image) => put_legacy_object(image, json),
        BootImage::Fit(image) => put_fit_object(image, json),
    }
}

/// Listing, as a command: `listing`, or `listing_json`.
#[derive(Clone, Copy, Debug, PartialEq, Eq)]
pub struct Lister {
    /// The form of the listing.
    pub format: Format,
}

impl Command for Lister {
    type Value = ();

    type Failure = Error;

    ghost can_run = { λ _. ⊤ };

    ghost promise = { λ lister. list_promise lister.format };

    /// Appends the listing piece by piece. Each refusal and each allocation comes before the first
    /// byte.
    fn run<S: Sink>(
        &self,
        alloc: Global,
        input: &[u8],
        limits: Limits,
        sink: &mut S,
    ) -> Result<(), Error> {
        list_into(alloc, input, limits, self.format, sink)?;
        Ok(())
    }

    ghost wraps_from = { λ _ _ _ _ same. same };

    ghost laws = { λ lister. list_laws lister.format };
}

/// Reads a boot image to its end, writes its listing, and flushes: `pipe_to` with a `Lister`.
///
/// The errors are those of `pipe_to`, and of the file those of `listing`.
pub fn list_to<R: Read, W: Write>(
    alloc: Global,
    reader: &mut R,
    writer: &mut W,
    limits: Limits,
) -> Result<(), Error>
    ensures { IsPiped (list_promise Lines limits) limits (R.remaining reader.old)
        (R.remaining reader.new) (W.contents writer.old) (W.contents writer.new) result }
{
    let lister = Lister {
        format: Format::Lines,
    };
    pipe_to(alloc, &lister, reader, writer, limits)
}

/// Reads a boot image to its end, writes its listing as one text of JSON and a newline, and
/// flushes. Its errors are those of `list_to`.
pub fn listing_json_to<R: Read, W: Write>(
    alloc: Global,
    reader: &mut R,
    writer: &mut W,
    limits: Limits,
) -> Result<(), Error>
    ensures { IsPiped (list_promise Json limits) limits (R.remaining reader.old)
        (R.remaining reader.new) (W.contents writer.old) (W.contents writer.new) result }
{
    let lister = Lister {
        format: Format::Json,
    };
    pipe_to(alloc, &lister, reader, writer, limits)
}
