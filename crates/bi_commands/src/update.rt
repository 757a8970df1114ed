//! Updating a boot image: its time, and the digests in its hash nodes.

ghost use Rattle.std.specs.Prelude.{⊤, ℕ, List, IfOk, IfErr};
ghost use Rattle.bi_base.specs.Commands.{Appended, AppendFailed};
ghost use Rattle.bi_base.specs.Pipes.{IsPiped};
ghost use Rattle.bi_fit.specs.declared.form.Form.TheVariants.{Aligned};
ghost use Rattle.bi_fit.specs.Content.{tree_of};
ghost use Rattle.bi_fit.specs.Reading.{IsReadFit};
ghost use Rattle.bi_legacy.specs.Reading.{IsReadLegacy};
ghost use Rattle.bi_commands.specs.UpdatedFiles.{IsUpdated, IsUpdateOutput, IsUpdateError};
ghost use Rattle.bi_commands.specs.UpdatedFiles.{HasNewDigests, IsDigestsError};
ghost use Rattle.bi_commands.specs.UpdatedFiles.{IsUpdateKept, update_promise, update_laws};

use bi_base::{Align, Command, Error, Limits, Sink, VecSink, pipe_to};
use bi_common::payload_bounds::BoundedFit;
pub use bi_fit::Changes;
use bi_fit::{Fit, Form, Kept};
use bi_legacy::Legacy;
use bi_norm::{BootImage, append_legacy};
use std::alloc::Global;
use std::io::{Read, Write};

/// Returns the normal text of a boot image with these changes. `form` is where that of a flattened
/// image tree has the payloads; it has no effect on a legacy image, and `changes.hashes` has none
/// either, since a legacy image has no hash nodes. Without changes it is the normal form.
///
/// Errors, each `Error::Refused`, the first that applies: those of `BootImage::read`; TooLarge at
/// the limit, if `changes.hashes` is set and the payloads of a flattened image tree together are
/// longer than that, each counted for each image that has it; TooLarge at the limit, if the text of
/// a flattened image tree is longer. OutOfMemory occurs only after the checks of a legacy image, or
/// of the header and the memory reservation block of a blob. No payload is hashed before the
/// lengths of the payloads are checked: this is tested, and in no clause.
///
/// # Example
///
/// ```
/// use bi_base::Limits;
/// use bi_commands::update::{Changes, update};
/// use bi_fit::Form;
///
/// let limits = Limits::new(0x7fff_ffff, 64).unwrap();
/// let time = Changes { time: Some(1), hashes: false };
/// let text = update(rt.alloc(), kernel, time, Form::Embedded, limits)?;
/// assert_eq!(rt; &text[8..12], b"\0\0\0\x01".as_slice());
/// ```
pub fn update(
    alloc: Global,
    file: &[u8],
    changes: Changes,
    form: Form,
    limits: Limits,
) -> Result<Vec<u8>, Error>
    ensures updated { IfOk result (λ text. IsUpdated changes limits form file.now text.items) }
    ensures failed { IfErr result (IsUpdateError changes limits form file.now) }
{
    let mut sink = VecSink::new(alloc);
    update_into(alloc, file, changes, form, limits, &mut sink)?;
    Ok(sink.into_vec())
}

/// Returns the text that `update` returns in the form External, but with this alignment instead of
/// four: the length of the blob is a multiple of it, and each payload, even an empty one, begins at
/// a multiple of it in the text. With the alignment 4 it is the text in the form External. `align`
/// has no effect on a legacy image.
///
/// The errors are those of `update`, for this text.
pub fn update_aligned(
    alloc: Global,
    file: &[u8],
    changes: Changes,
    align: Align,
    limits: Limits,
) -> Result<Vec<u8>, Error>
    ensures updated { IfOk result (λ text.
        IsUpdated changes limits (Aligned align) file.now text.items) }
    ensures failed { IfErr result (IsUpdateError changes limits (Aligned align) file.now) }
{
    update(alloc, file, changes, Form::Aligned(align), limits)
}

/// Appends the normal text of a boot image with these changes to a sink. Returns the number of
/// signature nodes, which is 0 for a legacy image. No signature is checked.
///
/// The errors are those of `update`, and those of the sink. After an error of the file, which comes
/// before the first byte is appended, the sink is unchanged. After an error of the sink, it is as a
/// failed `put` of the text leaves it. All allocations but those of the sink are made before the
/// first byte is appended.
pub fn update_into<S: Sink>(
    alloc: Global,
    file: &[u8],
    changes: Changes,
    form: Form,
    limits: Limits,
    sink: &mut S,
) -> Result<usize, Error>
    ensures appended { IfOk result (λ count. Appended S.appends
        (IsUpdateOutput changes limits form count file.now) sink.old sink.new) }
    ensures failed { IfErr result (AppendFailed S.fails (IsUpdated changes limits form file.now)
        (IsUpdateError changes limits form file.now) sink.old sink.new) }
{
    let kept = update_with_kept(alloc, file, changes, form, limits, sink)?;
    Ok(kept.signatures)
}

/// Appends the normal text of a boot image with these changes to a sink, as `update_into` does.
/// Returns what a user should know beyond the meaning of the file: the number of signature nodes,
/// and the alignment and the positions of payloads that the text does not keep. For a legacy image
/// there are none of these.
///
/// The errors are those of `update_into`.
pub fn update_with_kept<S: Sink>(
    alloc: Global,
    file: &[u8],
    changes: Changes,
    form: Form,
    limits: Limits,
    sink: &mut S,
) -> Result<Kept, Error>
    ensures appended { IfOk result (λ kept. Appended S.appends
        (IsUpdateKept changes limits form kept file.now) sink.old sink.new) }
    ensures failed { IfErr result (AppendFailed S.fails (IsUpdated changes limits form file.now)
        (IsUpdateError changes limits form file.now) sink.old sink.new) }
{
    match BootImage::read(alloc, file, limits)? {
        BootImage::Legacy(image) => update_legacy(alloc, &image, changes, limits, sink),
        BootImage::Fit(fit) => update_fit(alloc, &fit, changes, form, limits, sink),
    }
}

/// Updating, as a command: `update_into` with these changes and this form.
#[derive(Clone, Copy, Debug, PartialEq, Eq)]
pub struct Updater {
    /// What changes.
    pub changes: Changes,
    /// Where the text of a flattened image tree has the payloads.
    pub form: Form,
}

impl Command for Updater {
    type Value = usize;

    type Failure = Error;

    ghost can_run = { λ _. ⊤ };

    ghost promise = { λ updater. update_promise updater.changes updater.form };

    fn run<S: Sink>(
        &self,
        alloc: Global,
        input: &[u8],
        limits: Limits,
        sink: &mut S,
    ) -> Result<usize, Error> {
        update_into(alloc, input, self.changes, self.form, limits, sink)
    }

    ghost wraps_from = { λ _ _ _ _ same. same };

    ghost laws = { λ updater. update_laws updater.changes updater.form };
}

/// Reads a boot image to its end, writes its normal text with these changes, and flushes: `pipe_to`
/// with an `Updater`. Returns the number of signature nodes, which is 0 for a legacy image.
///
/// The errors are those of `pipe_to`, and of the file those of `update`.
pub fn update_to<R: Read, W: Write>(
    alloc: Global,
    reader: &mut R,
    writer: &mut W,
    changes: Changes,
    form: Form,
    limits: Limits,
) -> Result<usize, Error>
    ensures { IsPiped (update_promise changes form limits) limits (R.remaining reader.old)
        (R.remaining reader.new) (W.contents writer.old) (W.contents writer.new) result }
{
    pipe_to(alloc, &Updater { changes, form }, reader, writer, limits)
}

/// Appends the normal text of a legacy image that was read under the limits, with these changes,
/// and returns a `Kept` that says nothing.
fn update_legacy<S: Sink>(
    alloc: Global,
    image: &Legacy<'_>,
    changes: Changes,
    limits: Limits,
    sink: &mut S,
) -> Result<Kept, Error>
    ensures appended { (form : Form) (file : List ℕ) → IsReadLegacy limits file image.now →
        IfOk result (λ kept. Appended S.appends (IsUpdateKept changes limits form kept file)
        sink.old sink.new) }
    ensures failed { (form : Form) (file : List ℕ) → IsReadLegacy limits file image.now →
        IfErr result (AppendFailed S.fails (IsUpdated changes limits form file)
        (IsUpdateError changes limits form file) sink.old sink.new) }
{
    let time = changes.time.unwrap_or(image.fields().time);
    append_legacy(alloc, image, time, limits, sink)?;
    Ok(Kept::default())
}

/// Appends the normal text of a flattened image tree that was read under the limits, with these
/// changes, and returns its `Kept`.
fn update_fit<S: Sink>(
    alloc: Global,
    fit: &Fit<'_>,
    changes: Changes,
    form: Form,
    limits: Limits,
    sink: &mut S,
) -> Result<Kept, Error>
    ensures appended { (file : List ℕ) → IsReadFit limits file fit.now →
        IfOk result (λ kept. Appended S.appends (IsUpdateKept changes limits form kept file)
        sink.old sink.new) }
    ensures failed { (file : List ℕ) → IsReadFit limits file fit.now →
        IfErr result (AppendFailed S.fails (IsUpdated changes limits form file)
        (IsUpdateError changes limits form file) sink.old sink.new) }
{
    let digests = new_digests(alloc, fit, changes, limits)?;
    let text = fit.updated_text(alloc, changes, &digests, form, limits)?;
    text.emit(sink)?;
    Ok(fit.kept(form, text.size()))
}

/// Returns the digests that the hash nodes get by these changes, one after another. Fails with
/// TooLarge at the limit, if they need payloads that together are longer than that, or with
/// OutOfMemory.
fn new_digests(
    alloc: Global,
    fit: &Fit<'_>,
    changes: Changes,
    limits: Limits,
) -> Result<Vec<u8>, Error>
    ensures digests { IfOk result (λ digests.
        HasNewDigests changes limits (tree_of fit.now) digests.items) }
    ensures failed { IfErr result (IsDigestsError changes limits (tree_of fit.now)) }
{
    if !changes.hashes {
        return Ok(Vec::new(alloc));
    }
    BoundedFit::new(fit, limits)?
        .fit()
        .new_digests(alloc, changes)
}
