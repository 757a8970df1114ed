//! The report on a boot image: a text with the verdict on each of its checksums and digests.

mod texts;

ghost use Rattle.std.specs.Prelude.{◌≡◌, ◌↔◌, ⊤, IfOk, IfErr, OnOk, IsTrue, string_bytes};
ghost use Rattle.bi_base.specs.Commands.{Appended, AppendFailed};
ghost use Rattle.bi_base.specs.declared.fault.Error.TheVariants.{OutOfMemory};
ghost use Rattle.bi_base.specs.Pipes.{IsPiped};
ghost use Rattle.bi_base.specs.Sinks.{Wrote};
ghost use Rattle.bi_fit.specs.Content.{AreAtTheirPlaces, IsHeld, tree_of};
ghost use Rattle.bi_fit.specs.Judgement.{verdicts_of};
ghost use Rattle.bi_norm.specs.Meaning.{OfFit};
ghost use Rattle.bi_norm.specs.Reading.{IsBootImageReadError};
ghost use Rattle.bi_common.specs.declared.format.Format.TheVariants.{Lines, Json};
ghost use Rattle.bi_common.specs.VerdictCounts.{hash_counts};
ghost use Rattle.bi_report.specs.Reports.{AreGood};
ghost use Rattle.bi_report.specs.VerifiedFiles.{IsReport, IsVerifyOutput, legacy_report_text};
ghost use Rattle.bi_report.specs.VerifiedFiles.{report_text, verify_laws, verify_promise};

use bi_base::{Command, Error, Limits, Sink, SinkPen, VecSink, pipe_to};
use bi_common::format::Format;
use bi_common::verdict_counts::{Counts, judge_hashes};
use bi_fit::Fit;
use bi_hash::RegionDigests;
use bi_norm::BootImage;
use std::alloc::Global;
use std::io::{Read, Write};
pub use texts::verdict_word;
use texts::{put_fit_report, put_legacy_report};

/// A report on the checksums and digests of a boot image.
#[derive(Drop)]
pub struct Report {
    /// Its lines.
    pub text: String,
    /// Whether no verdict in it is other than Good.
    pub all_good: bool,
}

/// Returns the report on a boot image. It has a line for each hash node of a flattened image tree,
/// with the verdict on it, and a last line with the number of each verdict. Of a legacy image it
/// has a line for each of the two checksums, both good, since an image with a wrong one is refused.
///
/// Errors, the first that applies: TooLarge at the limit, if the file is longer; Truncated at 0, if
/// it has fewer than four bytes; BadMagic at 0; those of `Legacy::read` or of `Fit::read`.
/// OutOfMemory may come instead of any of these, but only after the checks of a legacy image, or
/// of the header and the memory reservation block of a blob.
///
/// # Example
///
/// ```
/// use bi_base::Limits;
/// use bi_commands::verify::verify;
///
/// let limits = Limits::new(0x7fff_ffff, 64).unwrap();
/// let report = verify(rt.alloc(), kernel, limits)?;
/// assert!(rt; report.all_good);
/// assert!(rt; report.text.as_str() == "header crc32 good\ndata crc32 good\n");
/// ```
pub fn verify(alloc: Global, file: &[u8], limits: Limits) -> Result<Report, Error>
    ensures verified { IfOk result (λ report. IsVerifyOutput Lines limits report.all_good file.now
        (string_bytes report.text)) }
    ensures failed { IfErr result (IsBootImageReadError limits file.now) }
{
    verify_as(alloc, file, limits, Format::Lines)
}

/// Returns the report on a boot image, as one text of JSON and a newline. It says what the lines of
/// `verify` say, and the errors are those of `verify`.
pub fn verify_json(alloc: Global, file: &[u8], limits: Limits) -> Result<Report, Error>
    ensures verified { IfOk result (λ report. IsVerifyOutput Json limits report.all_good file.now
        (string_bytes report.text)) }
    ensures failed { IfErr result (IsBootImageReadError limits file.now) }
{
    verify_as(alloc, file, limits, Format::Json)
}

/// Returns the report on a boot image, in a form.
fn verify_as(alloc: Global, file: &[u8], limits: Limits, format: Format) -> Result<Report, Error>
    ensures verified { IfOk result (λ report. IsVerifyOutput format limits report.all_good file.now
        (string_bytes report.text)) }
    ensures failed { IfErr result (IsBootImageReadError limits file.now) }
{
    let mut sink = VecSink::new(alloc);
    let all_good = verify_into(alloc, file, limits, format, &mut sink)?;
    match String::from_utf8(sink.into_vec()) {
        Ok(text) => Ok(Report { text, all_good }),
        Err(_) => unreachable!(),
    }
}

/// Appends the report on a boot image in a form, piece by piece, and returns whether no verdict in
/// it is other than Good. Each refusal and each allocation comes before the first byte, and no
/// memory is taken for the report.
fn verify_into<S: Sink>(
    alloc: Global,
    file: &[u8],
    limits: Limits,
    format: Format,
    sink: &mut S,
) -> Result<bool, Error>
    ensures appended { IfOk result (λ good. Appended S.appends
        (IsVerifyOutput format limits good file.now) sink.old sink.new) }
    ensures failed { IfErr result (AppendFailed S.fails (IsReport format limits file.now)
        (IsBootImageReadError limits file.now) sink.old sink.new) }
{
    match BootImage::read(alloc, file, limits)? {
        BootImage::Legacy(_image) => {
            append_legacy_report(format, sink)?;
            Ok(true)
        }
        BootImage::Fit(image) => verify_fit(alloc, &image, format, sink),
    }
}

/// Verifying, as a command: `verify`, or `verify_json`. Its value is whether no verdict is other
/// than Good.
#[derive(Clone, Copy, Debug, PartialEq, Eq)]
pub struct Verifier {
    /// The form of the report.
    pub format: Format,
}

impl Command for Verifier {
    type Value = bool;

    type Failure = Error;

    ghost can_run = { λ _. ⊤ };

    ghost promise = { λ verifier. verify_promise verifier.format };

    /// Appends the report piece by piece. Each refusal and each allocation comes before the first
    /// byte.
    fn run<S: Sink>(
        &self,
        alloc: Global,
        input: &[u8],
        limits: Limits,
        sink: &mut S,
    ) -> Result<bool, Error> {
        let all_good = verify_into(alloc, input, limits, self.format, sink)?;
        Ok(all_good)
    }

    ghost wraps_from = { λ _ _ _ _ same. same };

    ghost laws = { λ verifier. verify_laws verifier.format };
}

/// Reads a boot image to its end, writes the report on it, and flushes: `pipe_to` with a
/// `Verifier`. Returns whether no verdict is other than Good.
///
/// The errors are those of `pipe_to`, and of the file those of `verify`.
pub fn verify_to<R: Read, W: Write>(
    alloc: Global,
    reader: &mut R,
    writer: &mut W,
    limits: Limits,
) -> Result<bool, Error>
    ensures { IsPiped (verify_promise Lines limits) limits (R.remaining reader.old)
        (R.remaining reader.new) (W.contents writer.old) (W.contents writer.new) result }
{
    let verifier = Verifier {
        format: Format::Lines,
    };
    pipe_to(alloc, &verifier, reader, writer, limits)
}

/// Reads a boot image to its end, writes the report on it as one text of JSON and a newline, and
/// flushes. Its value and its errors are those of `verify_to`.
pub fn verify_json_to<R: Read, W: Write>(
    alloc: Global,
    reader: &mut R,
    writer: &mut W,
    limits: Limits,
) -> Result<bool, Error>
    ensures { IsPiped (verify_promise Json limits) limits (R.remaining reader.old)
        (R.remaining reader.new) (W.contents writer.old) (W.contents writer.new) result }
{
    let verifier = Verifier {
        format: Format::Json,
    };
    pipe_to(alloc, &verifier, reader, writer, limits)
}

/// Appends the report on any legacy image that was read, so that its checksums are right. Fails as
/// the sink does.
fn append_legacy_report<S: Sink>(format: Format, sink: &mut S) -> Result<(), Error>
    ensures { Wrote S.appends S.fails sink.old (legacy_report_text format) result sink.new }
{
    let mut pen = SinkPen::new(sink);
    put_legacy_report(format, &mut pen);
    pen.result()
}

/// Appends the report on a flattened image tree, and returns whether no verdict is other than Good.
/// Fails with OutOfMemory before the first byte, or as the sink does. Requires: the tree was read.
fn verify_fit<S: Sink>(
    alloc: Global,
    fit: &Fit,
    format: Format,
    sink: &mut S,
) -> Result<bool, Error>
    requires held { IsHeld fit.now }
    ensures appended { OnOk result
        (S.appends sink.old (report_text format (OfFit (tree_of fit.now))) sink.new) }
    ensures good { IfOk result (λ good. IsTrue good ↔ AreGood (verdicts_of (tree_of fit.now))) }
    ensures failed { IfErr result (AppendFailed S.fails
        (λ text. text ≡ report_text format (OfFit (tree_of fit.now)))
        (λ error. error ≡ OutOfMemory) sink.old sink.new) }
{
    let (digests, counts) = judge_hashes(alloc, fit)?;
    append_fit_report(fit, &digests, counts, format, sink)?;
    Ok(counts.are_good())
}

/// Appends the report on a flattened image tree with this number of each verdict. Fails as the sink
/// does. Requires: in the file of the digests, the payload of each image is at its place, and
/// `counts` are the numbers of the verdicts of the tree.
fn append_fit_report<'a, S: Sink>(
    fit: &Fit<'a>,
    digests: &RegionDigests<'a>,
    counts: Counts,
    format: Format,
    sink: &mut S,
) -> Result<(), Error>
    requires placed { AreAtTheirPlaces digests.now fit.now.images }
    requires counted { counts ≡ hash_counts (verdicts_of (tree_of fit.now)) }
    ensures { Wrote S.appends S.fails sink.old (report_text format (OfFit (tree_of fit.now))) result
        sink.new }
{
    let mut pen = SinkPen::new(sink);
    put_fit_report(fit, digests, counts, format, &mut pen);
    pen.result()
}
