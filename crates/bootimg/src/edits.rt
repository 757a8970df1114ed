//! Editing the image that the arguments name.

ghost use Rattle.std.specs.Prelude.{◌≡◌, ◌≤◌, ◌++◌, ℕ, IfOk, IfErr, List, length};
ghost use Rattle.bi_base.specs.Commands.{CommandFailed};
ghost use Rattle.bi_base.specs.Traces.{ReadTrace};
ghost use Rattle.bi_base.specs.Writing.{WroteAndFlushed, WriteOrFlushStopped};
ghost use Rattle.bi_edit.specs.declared.edit.Edit.{Edit as EditModel};
ghost use Rattle.bi_edit.specs.declared.edit_error.EditError.TheVariants.{Failed};
ghost use Rattle.bi_edit.specs.EditedFiles.{IsEdited, IsEditFileError, IsEditOutput};
ghost use Rattle.bootimg.specs.EditedImages.{ArePayloadEdits, IsFailureOfEditing};
ghost use Rattle.bootimg.specs.EditedImages.{IsWithoutImage, contents_of};
ghost use Rattle.bootimg.specs.Runs.{ArePayloadsRead, IsEditedWork, IsEditWork};
ghost use Rattle.bootimg.specs.Runs.{IsPayloadsFailure};

use crate::command_line::{EditPlan, ImageSource};
use crate::failure::Failure;
use crate::jobs::{SourceFailure, job_failed, read_file, read_image};
use crate::tasks::Done;
use bi_base::{BufferedSink, Command, Limits, TracedRead, TracedWrite};
use bi_commands::at_offset::image_at;
use bi_edit::words::PayloadWord;
use bi_edit::{Edit, EditError, EditNotes, Editor};
use bi_files::FileSystem;
use bi_norm::{Kind, kind_of};
use std::alloc::{AllocError, Global};

/// Edits an image, and returns how that ended. First the image is read, then the files of the
/// payloads, in the order of their words.
pub fn edit_image<'a, S: TracedRead, T: TracedWrite, F: FileSystem>(
    alloc: Global,
    plan: EditPlan<'a>,
    limits: Limits,
    files: &mut F,
    input: &mut S,
    output: &mut T,
) -> Result<Done, SourceFailure<'a>>
    ensures work { IsEditWork (F.known files.old) plan.entry limits
        (record {
          input = S.trace input.old;
          new_input = S.trace input.new;
          output = T.trace output.old;
          new_output = T.trace output.new;
          outcome = result;
        })
        (F.steps files.old) (F.steps files.new) }
    ensures same_files { F.known files.new ≡ F.known files.old }
{
    let image = match read_image(alloc, plan.source, limits, files, input) {
        Ok(image) => image,
        Err(failure) => return job_failed(plan.source, failure),
    };
    let contents = read_payloads(alloc, &plan.payloads, limits, files)?;
    edit_with(alloc, plan, &image, &contents, limits, output)
}

/// Reads the files of these payloads, in their order. Fails as `read_file` does for the first for
/// which it fails, with the name of the file, or with OutOfMemory.
fn read_payloads<'a, F: FileSystem>(
    alloc: Global,
    words: &[PayloadWord<'a>],
    limits: Limits,
    files: &mut F,
) -> Result<Vec<Vec<u8>>, SourceFailure<'a>>
    ensures read { IfOk result (λ contents. ArePayloadsRead (F.known files.old) limits words.now
        (contents_of contents.items) (F.steps files.old) (F.steps files.new)) }
    ensures failed { IfErr result (λ failed.
        IsPayloadsFailure (F.known files.old) limits words.now failed
        (F.steps files.old) (F.steps files.new)) }
    ensures same_files { F.known files.new ≡ F.known files.old }
{
    let mut contents = Vec::with_capacity(alloc, words.len())?;
    for word in words {
        match read_file(alloc, word.file, limits, files) {
            Ok(bytes) => contents.push(bytes)?,
            Err(failure) => {
                return Err(SourceFailure {
                    source: ImageSource::File(word.file),
                    failure,
                });
            }
        }
    }
    Ok(contents)
}

/// Edits an image with payloads of these contents, writes the text, and returns how that ended.
/// Requires: the image is not longer than the limit on files, and there are as many contents as
/// payloads.
fn edit_with<'a, T: TracedWrite>(
    alloc: Global,
    plan: EditPlan<'a>,
    image: &[u8],
    contents: &[Vec<u8>],
    limits: Limits,
    output: &mut T,
) -> Result<Done, SourceFailure<'a>>
    requires short { length image.now ≤ limits.file }
    requires one_each { length contents.now ≡ length plan.payloads.items }
    ensures { (old new : ReadTrace) → IsEditedWork plan.entry limits image.now
        (contents_of contents.now) (record {
          input = old;
          new_input = new;
          output = T.trace output.old;
          new_output = T.trace output.new;
          outcome = result;
        }) }
{
    let EditPlan {
        edits,
        removal_words,
        payloads,
        choice,
        offset,
        source,
    } = plan;
    let edits = with_payloads(alloc, edits, payloads, contents)?;
    let editor = Editor {
        edits: &edits,
        choice,
    };
    let file = image_at(image, offset as usize);
    match run_editor(alloc, editor, file, limits, output) {
        Ok(notes) => Ok(Done::with_notes(notes)),
        Err(error) => job_failed(source, failure_of(&removal_words, file, error)),
    }
}

/// Runs an editor on a file, writes the text and flushes. Requires: the file is not longer than the
/// limit on files.
fn run_editor<T: TracedWrite>(
    alloc: Global,
    editor: Editor<'_>,
    file: &[u8],
    limits: Limits,
    output: &mut T,
) -> Result<EditNotes, EditError>
    requires short { length file.now ≤ limits.file }
    ensures written { IfOk result (λ notes. (text : List ℕ)
        × IsEditOutput editor.entry.edits.now editor.entry.choice limits notes file.now text
        × WroteAndFlushed (T.trace output.old) text (T.trace output.new)) }
    ensures failed { IfErr result (CommandFailed WriteOrFlushStopped (λ cause. Failed cause)
        (IsEdited editor.entry.edits.now editor.entry.choice limits file.now)
        (IsEditFileError editor.entry.edits.now editor.entry.choice limits file.now)
        (T.trace output.old) (T.trace output.new)) }
{
    let mut sink = BufferedSink::new(output);
    let notes = editor.run(alloc, file, limits, &mut sink)?;
    sink.finish()?;
    Ok(notes)
}

/// Returns these edits, and after them those that give the images of these words the contents of
/// their files. Fails if memory runs out. Requires: there are as many contents as words.
fn with_payloads<'r, 'a: 'r>(
    alloc: Global,
    edits: Vec<Edit<'a>>,
    words: Vec<PayloadWord<'a>>,
    contents: &'r [Vec<u8>],
) -> Result<Vec<Edit<'r>>, AllocError>
    requires { length contents.now ≡ length words.items }
    ensures { IfOk result (λ all. (given : List EditModel)
        × (all.items ≡ edits.entry.items ++ given)
        × ArePayloadEdits words.entry.items (contents_of contents.entry.now) given) }
{
    let mut all = edits_for(alloc, edits)?;
    let mut index = 0;
    for word in words {
        all.push(Edit::SetPayload(word.image, &contents[index]))?;
        index += 1;
    }
    Ok(all)
}

/// Returns these edits for a shorter time. Fails if memory runs out.
fn edits_for<'r, 'a: 'r>(alloc: Global, edits: Vec<Edit<'a>>) -> Result<Vec<Edit<'r>>, AllocError>
    ensures { IfOk result (λ all. all.items ≡ edits.entry.items) }
{
    let mut all = Vec::new(alloc);
    for edit in edits {
        all.push(edit_for(edit))?;
    }
    Ok(all)
}

/// Returns an edit for a shorter time.
fn edit_for<'r, 'a: 'r>(edit: Edit<'a>) -> Edit<'r>
    ensures { result ≡ edit.entry }
{
    match edit {
        Edit::RemoveNode(place) => Edit::RemoveNode(place),
        Edit::RemoveProperty(place) => Edit::RemoveProperty(place),
        Edit::SetProperty(place, value) => Edit::SetProperty(place, value),
        Edit::SetField(value) => Edit::SetField(value),
        Edit::SetPayload(image, payload) => Edit::SetPayload(image, payload),
        Edit::SetTime(time) => Edit::SetTime(time),
        Edit::SetDigests => Edit::SetDigests,
    }
}

/// Returns the failure for an error of editing a file. The words are those for the removals, which
/// are the first edits.
fn failure_of<'a>(words: &[&'a str], file: &[u8], error: EditError) -> Failure<'a>
    ensures { IsFailureOfEditing words.now file.now error result }
{
    match error {
        EditError::Failed(cause) => Failure::Call(cause),
        EditError::WrongKind => Failure::WrongKind,
        EditError::FindsNothing(index) => match words.get(index) {
            Some(word) => Failure::NothingToRemove(word),
            None => without_image(file),
        },
    }
}

/// Returns the failure if no image has the name of a payload, or no part the number.
fn without_image<'a>(file: &[u8]) -> Failure<'a>
    ensures { IsWithoutImage file.now result }
{
    match kind_of(file) {
        Ok(Kind::Legacy) => Failure::NoPart,
        Ok(Kind::Fit) => Failure::NoImage,
        Err(_) => Failure::NoImage,
    }
}
