//! Editing a boot image.

ghost use Rattle.std.specs.Prelude.{⊤, ℕ, List, IfOk, IfErr};
ghost use Rattle.bi_base.specs.Commands.{Appended, CommandFailed};
ghost use Rattle.bi_base.specs.Pipes.{IsPiped};
ghost use Rattle.bi_fit.specs.Reading.{IsReadFit};
ghost use Rattle.bi_legacy.specs.Reading.{IsReadLegacy};
ghost use Rattle.bi_edit.specs.declared.edit_error.EditError.TheVariants.{Failed};
ghost use Rattle.bi_edit.specs.EditedFiles.{IsEdited, IsEditFileError, IsEditOutput};
ghost use Rattle.bi_edit.specs.EditedFiles.{edit_laws, edit_promise};
ghost use Rattle.bi_edit.specs.EditedFits.{WasReadWithin};

use crate::edit::Edit;
use crate::edit_error::EditError;
use crate::edit_notes::{EditNotes, notes_of};
use crate::edited_fit::edit_fit;
use crate::edited_legacy::LegacyContent;
use crate::form_choice::{FormChoice, chosen_form};
use crate::kinds::check_legacy_kind;
use crate::know::{know_edits, know_limits};
use bi_base::{Command, Limits, Sink, VecSink, pipe_to};
use bi_fit::Fit;
use bi_legacy::{Legacy, emit};
use bi_norm::BootImage;
use std::alloc::Global;
use std::io::{Read, Write};

/// Returns the normal text of a boot image after edits. They are made in the order of their turns,
/// whatever their order in the list: removals, new values, payloads, times, digests. Those with the
/// same turn are made in their order. `choice` says where the text of a flattened image tree has
/// the payloads; it has no effect on a legacy image. The text is accepted under the limits and
/// means what the edits make of the file. All that no edit names is as it was.
///
/// Errors, the first that applies: Failed with those of `BootImage::read`; WrongKind, if an edit is
/// of the other kind of boot image, or of a part by what is no number below 2^64 in decimal digits;
/// Failed with TooDeep at 0, if one sets a property of a node with `limits.depth()` names or more
/// in its path; FindsNothing with the index of the first, in the order in which they are made, that
/// finds nothing to remove, no image or no part; Failed with TooLarge at the limit, if digests are
/// computed and the payloads after the edits are together longer than that, each counted for each
/// image that has it; Failed with TooLarge at the limit, if the text of a flattened image tree is
/// longer; for a legacy image Failed with the refusals of `bi_legacy::emit`. OutOfMemory occurs
/// only after the checks of a legacy image, or of the header and the memory reservation block of a
/// blob.
///
/// # Example
///
/// ```
/// use bi_base::Limits;
/// use bi_edit::{Edit, FormChoice, edit_file};
/// use bi_fit::Form;
///
/// let limits = Limits::new(0x7fff_ffff, 64).unwrap();
/// let edits = [Edit::SetTime(1)];
/// let text = edit_file(rt.alloc(), kernel, &edits, FormChoice::Keep, limits)?;
/// assert_eq!(rt; &text[8..12], b"\0\0\0\x01".as_slice());
/// ```
pub fn edit_file<'a>(
    alloc: Global,
    file: &'a [u8],
    edits: &'a [Edit<'a>],
    choice: FormChoice,
    limits: Limits,
) -> Result<Vec<u8>, EditError>
    ensures edited { IfOk result (λ text.
        IsEdited edits.entry.now choice limits file.entry.now text.items) }
    ensures failed { IfErr result
        (IsEditFileError edits.entry.now choice limits file.entry.now) }
{
    let mut sink = VecSink::new(alloc);
    edit_file_into(alloc, file, edits, choice, limits, &mut sink)?;
    Ok(sink.into_vec())
}

/// Appends the normal text of a boot image after edits to a sink, as `edit_file` does. Returns what
/// a user should know beyond the meaning of the text.
///
/// The errors are those of `edit_file`, and Failed with those of the sink. After an error of the
/// file or of the edits, which comes before the first byte is appended, the sink is unchanged.
/// After an error of the sink, it is as a failed `put` of the text leaves it. All allocations but
/// those of the sink are made before the first byte is appended.
pub fn edit_file_into<'a, S: Sink>(
    alloc: Global,
    file: &'a [u8],
    edits: &'a [Edit<'a>],
    choice: FormChoice,
    limits: Limits,
    sink: &mut S,
) -> Result<EditNotes, EditError>
    ensures appended { IfOk result (λ notes. Appended S.appends
        (IsEditOutput edits.entry.now choice limits notes file.entry.now) sink.old sink.new) }
    ensures failed { IfErr result (CommandFailed S.fails (λ cause. Failed cause)
        (IsEdited edits.entry.now choice limits file.entry.now)
        (IsEditFileError edits.entry.now choice limits file.entry.now) sink.old sink.new) }
{
    match BootImage::read(alloc, file, limits)? {
        BootImage::Legacy(image) => edit_legacy(alloc, &image, edits, choice, limits, sink),
        BootImage::Fit(fit) => edit_tree(alloc, &fit, edits, choice, limits, sink),
    }
}

/// Appends the normal text of a legacy image after edits, and returns notes that say nothing.
fn edit_legacy<'a, S: Sink>(
    alloc: Global,
    image: &Legacy<'a>,
    edits: &'a [Edit<'a>],
    choice: FormChoice,
    limits: Limits,
    sink: &mut S,
) -> Result<EditNotes, EditError>
    ensures appended { (file : List ℕ) → IsReadLegacy limits file image.now →
        IfOk result (λ notes. Appended S.appends
        (IsEditOutput edits.entry.now choice limits notes file) sink.old sink.new) }
    ensures failed { (file : List ℕ) → IsReadLegacy limits file image.now →
        IfErr result (CommandFailed S.fails (λ cause. Failed cause)
        (IsEdited edits.entry.now choice limits file)
        (IsEditFileError edits.entry.now choice limits file) sink.old sink.new) }
{
    know_limits(limits);
    know_edits(edits);
    check_legacy_kind(alloc, edits)?;
    let mut content = LegacyContent::of(alloc, image)?;
    content.apply(alloc, edits)?;
    emit(content.fields, &content.parts, limits, sink)?;
    Ok(EditNotes::default())
}

/// Appends the normal text of a flattened image tree after edits, and returns the notes. All
/// allocations but those of the sink are made before the first byte is appended. Requires: the tree
/// was read under the limits.
fn edit_tree<'a, S: Sink>(
    alloc: Global,
    fit: &Fit<'a>,
    edits: &'a [Edit<'a>],
    choice: FormChoice,
    limits: Limits,
    sink: &mut S,
) -> Result<EditNotes, EditError>
    requires { WasReadWithin limits fit.now }
    ensures appended { (file : List ℕ) → IsReadFit limits file fit.now →
        IfOk result (λ notes. Appended S.appends
        (IsEditOutput edits.entry.now choice limits notes file) sink.old sink.new) }
    ensures failed { (file : List ℕ) → IsReadFit limits file fit.now →
        IfErr result (CommandFailed S.fails (λ cause. Failed cause)
        (IsEdited edits.entry.now choice limits file)
        (IsEditFileError edits.entry.now choice limits file) sink.old sink.new) }
{
    know_edits(edits);
    let form = chosen_form(alloc, choice, fit)?;
    let blob = edit_fit(alloc, fit, edits, limits)?;
    let edited = Fit::read(alloc, &blob, limits)?;
    let text = edited.text(alloc, form, limits)?;
    let notes = notes_of(alloc, choice, fit, &edited, text.size())?;
    text.emit(sink)?;
    Ok(notes)
}

/// Editing, as a command: `edit_file_into` with these edits and this choice.
#[derive(Clone, Copy)]
pub struct Editor<'a> {
    /// The edits.
    pub edits: &'a [Edit<'a>],
    /// Where the text of a flattened image tree has the payloads.
    pub choice: FormChoice,
}

impl<'a> Command for Editor<'a> {
    type Value = EditNotes;

    type Failure = EditError;

    ghost can_run = { λ _. ⊤ };

    ghost promise = { λ editor. edit_promise editor.edits.now editor.choice };

    fn run<S: Sink>(
        &self,
        alloc: Global,
        input: &[u8],
        limits: Limits,
        sink: &mut S,
    ) -> Result<EditNotes, EditError> {
        edit_file_into(alloc, input, self.edits, self.choice, limits, sink)
    }

    ghost wraps_from = { λ _ _ _ _ same. same };

    ghost laws = { λ editor. edit_laws editor.edits.now editor.choice };
}

/// Reads a boot image to its end, writes its normal text after edits, and flushes: `pipe_to` with
/// an `Editor`. Returns what a user should know beyond the meaning of the text.
///
/// The errors are those of `pipe_to`, and of the file and the edits those of `edit_file`.
pub fn edit_file_to<R: Read, W: Write>(
    alloc: Global,
    reader: &mut R,
    writer: &mut W,
    edits: &[Edit<'_>],
    choice: FormChoice,
    limits: Limits,
) -> Result<EditNotes, EditError>
    ensures { IsPiped (edit_promise edits.now choice limits) limits (R.remaining reader.old)
        (R.remaining reader.new) (W.contents writer.old) (W.contents writer.new) result }
{
    pipe_to(alloc, &Editor { edits, choice }, reader, writer, limits)
}
