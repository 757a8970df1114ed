//! The normal form of a boot image.

ghost use Rattle.std.specs.Prelude.{ℕ, List, ⊤, IfOk, IfErr};
ghost use Rattle.bi_base.specs.Commands.{Appended, AppendFailed};
ghost use Rattle.bi_base.specs.Pipes.{IsPiped};
ghost use Rattle.bi_fit.specs.declared.form.Form.{Form};
ghost use Rattle.bi_fit.specs.declared.form.Form.TheVariants.{Aligned};
ghost use Rattle.bi_fit.specs.Reading.{IsReadFit};
ghost use Rattle.bi_legacy.specs.Reading.{IsReadLegacy};
ghost use Rattle.bi_norm.specs.NormalForm.{IsNormalForm, IsNormaliseError, IsNormaliseOutput};
ghost use Rattle.bi_norm.specs.NormalForm.{IsNormaliseKept, normalise_promise, normalise_laws};

use crate::image::BootImage;
use crate::legacy_text::append_legacy;
use bi_base::{Align, Command, Error, Limits, Sink, VecSink, pipe_to};
use bi_fit::{Fit, Form, Kept};
use bi_legacy::Legacy;
use std::alloc::Global;
use std::io::{Read, Write};

/// Returns the normal form of a boot image. Two accepted files have the same normal form if and
/// only if they mean the same thing. `form` says where the normal form of a flattened image tree
/// has the payloads; it has no effect on a legacy image.
///
/// Fails with the first of these errors that applies, each as `Error::Refused`:
///
/// - TooLarge at the limit, if the file is longer;
/// - Truncated at 0, if it has fewer than four bytes;
/// - BadMagic at 0;
/// - those of `Legacy::read` or of `Fit::read`;
/// - TooLarge at the limit, if the normal form of a flattened image tree is longer.
///
/// OutOfMemory occurs only after the checks of a legacy image, or of the header and the memory
/// reservation block of a blob.
///
/// # Example
///
/// ```
/// use bi_base::Limits;
/// use bi_norm::{Form, normalise};
///
/// let limits = Limits::new(0x7fff_ffff, 64).unwrap();
/// let text = normalise(rt.alloc(), board, Form::Embedded, limits)?;
/// let external = normalise(rt.alloc(), board, Form::External, limits)?;
/// assert!(rt; external != text);
/// assert!(rt; normalise(rt.alloc(), &external, Form::Embedded, limits)? == text);
/// ```
pub fn normalise(alloc: Global, file: &[u8], form: Form, limits: Limits) -> Result<Vec<u8>, Error>
    ensures normal_form { IfOk result (λ text. IsNormalForm limits form file.now text.items) }
    ensures failed { IfErr result (IsNormaliseError limits form file.now) }
{
    let mut sink = VecSink::new(alloc);
    normalise_into(alloc, file, form, limits, &mut sink)?;
    Ok(sink.into_vec())
}

/// Returns the text that `normalise` returns in the form External, but with this alignment instead
/// of four: the length of the blob is a multiple of it, and each payload, even an empty one, begins
/// at a multiple of it in the text. With the alignment 4 it is the text in the form External; with
/// any other it is not a normal form. `align` has no effect on a legacy image.
///
/// The errors are those of `normalise`, for this text.
pub fn normalise_aligned(
    alloc: Global,
    file: &[u8],
    align: Align,
    limits: Limits,
) -> Result<Vec<u8>, Error>
    ensures text { IfOk result (λ text.
        IsNormalForm limits (Aligned align) file.now text.items) }
    ensures failed { IfErr result (IsNormaliseError limits (Aligned align) file.now) }
{
    normalise(alloc, file, Form::Aligned(align), limits)
}

/// Appends the normal form of a boot image to a sink. Returns the number of signature nodes, which
/// is 0 for a legacy image. No signature is checked.
///
/// The errors are those of `normalise`, and those of the sink. After an error of the file, which
/// occurs before the first byte is appended, the sink is unchanged. After an error of the sink, the
/// sink is as a failed `put` of the normal form leaves it. All allocations, except those of the
/// sink, are made before the first byte is appended.
pub fn normalise_into<S: Sink>(
    alloc: Global,
    file: &[u8],
    form: Form,
    limits: Limits,
    sink: &mut S,
) -> Result<usize, Error>
    ensures appended { IfOk result (λ count. Appended S.appends
        (IsNormaliseOutput limits form count file.now) sink.old sink.new) }
    ensures failed { IfErr result (AppendFailed S.fails (IsNormalForm limits form file.now)
        (IsNormaliseError limits form file.now) sink.old sink.new) }
{
    let kept = normalise_with_kept(alloc, file, form, limits, sink)?;
    Ok(kept.signatures)
}

/// Appends the normal form of a boot image to a sink, as `normalise_into` does. Returns what a user
/// should know beyond the meaning of the file: the number of signature nodes, and the alignment and
/// the positions of payloads that the text does not keep. For a legacy image there are none of
/// these.
///
/// The errors are those of `normalise_into`.
pub fn normalise_with_kept<S: Sink>(
    alloc: Global,
    file: &[u8],
    form: Form,
    limits: Limits,
    sink: &mut S,
) -> Result<Kept, Error>
    ensures appended { IfOk result (λ kept. Appended S.appends
        (IsNormaliseKept limits form kept file.now) sink.old sink.new) }
    ensures failed { IfErr result (AppendFailed S.fails (IsNormalForm limits form file.now)
        (IsNormaliseError limits form file.now) sink.old sink.new) }
{
    match BootImage::read(alloc, file, limits)? {
        BootImage::Legacy(image) => emit_legacy(alloc, &image, limits, sink),
        BootImage::Fit(fit) => emit_fit(alloc, &fit, form, limits, sink),
    }
}

/// Appends the normal form of a legacy image that was read under the limits, and returns a `Kept`
/// that says nothing.
fn emit_legacy<S: Sink>(
    alloc: Global,
    image: &Legacy<'_>,
    limits: Limits,
    sink: &mut S,
) -> Result<Kept, Error>
    ensures appended { (form : Form) (file : List ℕ) → IsReadLegacy limits file image.now →
        IfOk result (λ kept. Appended S.appends (IsNormaliseKept limits form kept file)
        sink.old sink.new) }
    ensures failed { (form : Form) (file : List ℕ) → IsReadLegacy limits file image.now →
        IfErr result (AppendFailed S.fails (IsNormalForm limits form file)
        (IsNormaliseError limits form file) sink.old sink.new) }
{
    append_legacy(alloc, image, image.fields().time, limits, sink)?;
    Ok(Kept::default())
}

/// Appends the normal form of a flattened image tree that was read under the limits, and returns
/// its `Kept`. All allocations are made before the first byte is appended.
fn emit_fit<S: Sink>(
    alloc: Global,
    fit: &Fit<'_>,
    form: Form,
    limits: Limits,
    sink: &mut S,
) -> Result<Kept, Error>
    ensures appended { (file : List ℕ) → IsReadFit limits file fit.now →
        IfOk result (λ kept. Appended S.appends (IsNormaliseKept limits form kept file)
        sink.old sink.new) }
    ensures failed { (file : List ℕ) → IsReadFit limits file fit.now →
        IfErr result (AppendFailed S.fails (IsNormalForm limits form file)
        (IsNormaliseError limits form file) sink.old sink.new) }
{
    let text = fit.text(alloc, form, limits)?;
    text.emit(sink)?;
    Ok(fit.kept(form, text.size()))
}

/// Normalising, as a command: `normalise_into` with `form`.
#[derive(Clone, Copy, Debug, PartialEq, Eq)]
pub struct Normaliser {
    /// Where the normal form of a flattened image tree has the payloads.
    pub form: Form,
}

impl Command for Normaliser {
    type Value = usize;

    type Failure = Error;

    ghost can_run = { λ _. ⊤ };

    ghost promise = { λ normaliser. normalise_promise normaliser.form };

    fn run<S: Sink>(
        &self,
        alloc: Global,
        input: &[u8],
        limits: Limits,
        sink: &mut S,
    ) -> Result<usize, Error> {
        normalise_into(alloc, input, self.form, limits, sink)
    }

    ghost wraps_from = { λ _ _ _ _ same. same };

    ghost laws = { λ normaliser. normalise_laws normaliser.form };
}

/// Reads a boot image to its end, writes its normal form, and flushes: `pipe_to` with a
/// `Normaliser`. Returns the number of signature nodes, which is 0 for a legacy image.
///
/// The errors are those of `pipe_to`. The errors of the file are those of `normalise`.
pub fn normalise_to<R: Read, W: Write>(
    alloc: Global,
    reader: &mut R,
    writer: &mut W,
    form: Form,
    limits: Limits,
) -> Result<usize, Error>
    ensures { IsPiped (normalise_promise form limits) limits (R.remaining reader.old)
        (R.remaining reader.new) (W.contents writer.old) (W.contents writer.new) result }
{
    pipe_to(alloc, &Normaliser { form }, reader, writer, limits)
}
