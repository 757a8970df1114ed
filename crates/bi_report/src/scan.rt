//! The boot images inside a file: a text with a line for each of them, or one of JSON.

mod blob_claims;
mod claims;
mod image_starts;
mod images;
mod lines;

ghost use Rattle.std.specs.Prelude.{◌≡◌, ◌<◌, ◌≤◌, ⊤, IfErr, IfOk, OnOk};
ghost use Rattle.std.specs.Prelude.{length, string_bytes};
ghost use Rattle.bi_base.specs.Pipes.{IsPiped};
ghost use Rattle.bi_base.specs.Reading.{too_large};
ghost use Rattle.bi_common.specs.declared.format.Format.TheVariants.{Json, Lines};
ghost use Rattle.bi_report.specs.Scanning.{ClaimsNothing, IsScanError, IsScanOutput, IsScanText};
ghost use Rattle.bi_report.specs.Scanning.{PutsFirstFound, PutsScanText, scan_laws};
ghost use Rattle.bi_report.specs.Scanning.{scan_object_tokens, scan_promise};
ghost use Rattle.bi_base.specs.declared.fault.Error.TheVariants.{OutOfMemory};

use bi_base::{Cause, Command, Error, Fault, Limits, MemoryPen, Pen, Sink, pipe_to, refuse};
use bi_common::format::Format;
use bi_common::json_writer::{JsonPen, JsonToken, JsonWriter};
use bi_common::lines::LineWriter;
use claims::check_claims;
use lines::{put_lines, put_objects};
use std::alloc::Global;
use std::io::{Read, Write};

/// Returns a line for each boot image inside a file, in the order of their offsets, even for one
/// inside another. An image may begin at any offset, aligned or not. It is the file from there on,
/// and it is accepted if `BootImage::read` accepts that within the same limits. A legacy image ends
/// with its data. A flattened image tree ends where the blob ends, or the payload that ends last.
///
/// A line has the offset, `legacy` or `fit`, how many bytes the image has, and the name of a legacy
/// image or the number of images of a flattened image tree.
///
/// Error: TooLarge at the limit, if the file is longer, or if its images together claim more bytes
/// than that. A legacy image claims its header and its data, and a blob its total size, if the
/// header is right and the file has all of it. So the limit bounds the work, whatever the file
/// contains. OutOfMemory occurs only after these checks.
pub fn scan(alloc: Global, file: &[u8], limits: Limits) -> Result<String, Error>
    ensures scanned { IfOk result (λ text. IsScanText Lines limits file.now (string_bytes text)) }
    ensures failed { IfErr result (IsScanError limits file.now) }
{
    scan_as(alloc, file, limits, Format::Lines)
}

/// Returns the boot images inside a file, as one text of JSON and a newline. It says what the lines
/// of `scan` say, and the errors are those of `scan`.
pub fn scan_json(alloc: Global, file: &[u8], limits: Limits) -> Result<String, Error>
    ensures scanned { IfOk result (λ text. IsScanText Json limits file.now (string_bytes text)) }
    ensures failed { IfErr result (IsScanError limits file.now) }
{
    scan_as(alloc, file, limits, Format::Json)
}

/// Returns the boot images inside a file, in a form.
fn scan_as(alloc: Global, file: &[u8], limits: Limits, format: Format) -> Result<String, Error>
    ensures scanned { IfOk result (λ text. IsScanText format limits file.now (string_bytes text)) }
    ensures failed { IfErr result (IsScanError limits file.now) }
{
    let scan = scan_bytes(alloc, file, limits, format)?;
    match String::from_utf8(scan.text) {
        Ok(text) => Ok(text),
        Err(_) => unreachable!(),
    }
}

/// The text of a scan, and whether an image is found.
#[derive(Drop)]
struct ScanBytes {
    text: Vec<u8>,
    found: bool,
}

/// Returns the text of a scan, in a form.
fn scan_bytes(
    alloc: Global,
    file: &[u8],
    limits: Limits,
    format: Format,
) -> Result<ScanBytes, Error>
    ensures scanned { IfOk result
        (λ scan. IsScanOutput format limits scan.found file.now scan.text.items) }
    ensures failed { IfErr result (IsScanError limits file.now) }
{
    check_length(file, limits)?;
    let end = check_claims(file, limits)?;
    let mut pen = MemoryPen::new(alloc);
    let found = put_scan(alloc, file, end, limits, format, &mut pen)?;
    let text = pen.into_vec()?;
    Ok(ScanBytes { text, found })
}

/// Puts the text of a scan, in a form, and returns whether an image is found. Fails only with
/// OutOfMemory. Requires: `end` is at most the length of the file, and no image that begins there
/// or later claims any bytes.
fn put_scan<P: Pen>(
    alloc: Global,
    file: &[u8],
    end: usize,
    limits: Limits,
    format: Format,
    pen: &mut P,
) -> Result<bool, Error>
    requires within { end ≤ length file.now }
    requires nothing { ClaimsNothing file.now end (length file.now) }
    ensures text { IfOk result (λ any. PutsScanText P.puts format limits file.now any
        pen.old pen.new) }
    ensures failed { IfErr result (λ error. error ≡ OutOfMemory) }
{
    match format {
        Format::Lines => {
            let any = put_lines(alloc, file, end, limits, &mut LineWriter::new(pen))?;
            Ok(any)
        }
        Format::Json => {
            let any = put_scan_object(alloc, file, end, limits, &mut JsonWriter::new(pen))?;
            pen.put(b"\n");
            Ok(any)
        }
    }
}

/// Puts the object of a scan, and returns whether an image is found. Fails only with OutOfMemory.
/// Requires: as for `put_scan`.
fn put_scan_object<J: JsonPen>(
    alloc: Global,
    file: &[u8],
    end: usize,
    limits: Limits,
    json: &mut J,
) -> Result<bool, Error>
    requires within { end ≤ length file.now }
    requires nothing { ClaimsNothing file.now end (length file.now) }
    ensures object { IfOk result (λ any. PutsFirstFound J.puts scan_object_tokens limits file.now
        (length file.now) any json.old json.new) }
    ensures failed { IfErr result (λ error. error ≡ OutOfMemory) }
{
    json.put(JsonToken::BeginObject);
    json.put(JsonToken::Name("images"));
    json.put(JsonToken::BeginArray);
    let any = put_objects(alloc, file, end, limits, json)?;
    json.put(JsonToken::EndArray);
    json.put(JsonToken::EndObject);
    Ok(any)
}

/// Checks that a file is no longer than the limit.
///
/// Error: TooLarge at the limit, if it is longer.
fn check_length(file: &[u8], limits: Limits) -> Result<(), Fault>
    ensures ok { OnOk result (length file.now ≤ limits.file) }
    ensures fault { IfErr result (λ fault. (fault ≡ too_large limits.file)
        × (limits.file < length file.now)) }
{
    if file.len() > limits.file() as usize {
        refuse(Cause::TooLarge, limits.file())
    } else {
        Ok(())
    }
}

/// Scanning, as a command: `scan`, or `scan_json`. Its value is whether an image is found.
#[derive(Clone, Copy, Debug, PartialEq, Eq)]
pub struct Scanner {
    /// The form of the text.
    pub format: Format,
}

impl Command for Scanner {
    type Value = bool;

    type Failure = Error;

    ghost can_run = { λ _. ⊤ };

    ghost promise = { λ scanner. scan_promise scanner.format };

    /// Appends the text at once: it is made in memory.
    fn run<S: Sink>(
        &self,
        alloc: Global,
        input: &[u8],
        limits: Limits,
        sink: &mut S,
    ) -> Result<bool, Error> {
        let scan = scan_bytes(alloc, input, limits, self.format)?;
        sink.put(&scan.text)?;
        Ok(scan.found)
    }

    ghost wraps_from = { λ _ _ _ _ same. same };

    ghost laws = { λ scanner. scan_laws scanner.format };
}

/// Reads a file to its end, writes a line for each boot image inside it, and flushes: `pipe_to`
/// with a `Scanner`. Returns whether there is a line.
///
/// The errors are those of `pipe_to`, and of the file those of `scan`.
pub fn scan_to<R: Read, W: Write>(
    alloc: Global,
    reader: &mut R,
    writer: &mut W,
    limits: Limits,
) -> Result<bool, Error>
    ensures { IsPiped (scan_promise Lines limits) limits (R.remaining reader.old)
        (R.remaining reader.new) (W.contents writer.old) (W.contents writer.new) result }
{
    let scanner = Scanner {
        format: Format::Lines,
    };
    pipe_to(alloc, &scanner, reader, writer, limits)
}

/// Reads a file to its end, writes the boot images inside it as one text of JSON and a newline, and
/// flushes. Its value and its errors are those of `scan_to`.
pub fn scan_json_to<R: Read, W: Write>(
    alloc: Global,
    reader: &mut R,
    writer: &mut W,
    limits: Limits,
) -> Result<bool, Error>
    ensures { IsPiped (scan_promise Json limits) limits (R.remaining reader.old)
        (R.remaining reader.new) (W.contents writer.old) (W.contents writer.new) result }
{
    let scanner = Scanner {
        format: Format::Json,
    };
    pipe_to(alloc, &scanner, reader, writer, limits)
}
