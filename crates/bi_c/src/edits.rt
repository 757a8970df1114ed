//! Edits of a boot image.

ghost use Rattle.std.specs.Prelude.{◌≡◌, ◌<◌, ◌≤◌, ◌^◌, ◌↔◌, ℕ, List};
ghost use Rattle.std.specs.Prelude.{IfErr, IfNone, IfOk, IfSome, IsTrue};
ghost use Rattle.std.specs.List.{AllByRecursion, AllZip};
ghost use Rattle.bi_edit.specs.declared.edit.Edit.{Edit};
ghost use Rattle.bi_edit.specs.declared.edit.Edit.TheVariants.{SetField};
ghost use Rattle.bi_edit.specs.declared.form_choice.FormChoice.{FormChoice};
ghost use Rattle.bi_c.specs.Answers.{FillsBuffer, Sets};
ghost use Rattle.bi_c.specs.Checks.{IsFirstWrong};
ghost use Rattle.bi_c.specs.EditCalls.{AreEditNumbers, AreEditsFailure, GivesPayload};
ghost use Rattle.bi_c.specs.EditCalls.{IsBadElement, IsEditCallFailure, IsEditElement, IsEditOf};
ghost use Rattle.bi_c.specs.EditCalls.{IsEditText, IsEditedFile, IsSetting, edit_note_numbers};
ghost use Rattle.bi_c.specs.EditCalls.{failure_of_edit_error, number_of_choice};
ghost use Rattle.bi_c.specs.PieceBuilding.{IsPieceInside, bytes_of_piece};

use crate::answer::{Answer, fail, fill, succeed};
use crate::argument::{Argument, wrong_limit};
use crate::arguments::{form_of, limits_of};
use crate::building::is_inside;
use crate::failure::{Failure, WRONG_KIND};
use crate::region::Region;
use bi_base::{Error, VecSink};
use bi_edit::words::{child_name, parse_removal, parse_setting};
use bi_edit::{Edit, EditError, EditNotes, FieldValue, FormChoice, ImageName, edit_file_into};
use std::alloc::Global;

/// The number of the reason that the word of an edit is for none.
const BAD_EDIT: u32 = 17;

/// The number of the reason that an edit finds nothing to remove, no image or no part.
const FINDS_NOTHING: u32 = 18;

/// The number of the form that keeps the payloads where the file has them.
const KEEP_FORM: u32 = 2;

/// The kind of an edit that removes a node or a property.
const REMOVE: u32 = 0;

/// The kind of an edit that sets a property.
const SET: u32 = 1;

/// The kind of an edit that gives an image or a part a payload.
const PAYLOAD: u32 = 2;

/// The kind of an edit that sets the time of creation.
const TIME: u32 = 3;

/// The kind of an edit that computes the digests again.
const HASHES: u32 = 4;

/// The kind of an edit that sets the name of a legacy image.
const NAME: u32 = 5;

/// The kind of an edit that sets the load address of a legacy image.
const LOAD: u32 = 6;

/// The kind of an edit that sets the entry point of a legacy image.
const ENTRY: u32 = 7;

/// The kind of an edit that sets the operating system of a legacy image. From here on the number is
/// a code.
const OS: u32 = 8;

/// The kind of an edit that sets the processor architecture of a legacy image.
const ARCH: u32 = 9;

/// The kind of an edit that sets the compression of a legacy image.
const COMPRESSION: u32 = 10;

/// An edit of a boot image. Its word and its payload are regions of the input.
#[repr(C)]
#[derive(Clone, Copy, Debug, PartialEq, Eq)]
pub struct EditElement {
    /// Where the word is in the input: for a removal, for a new value, the name of an image or of a
    /// legacy image.
    pub word: Region,
    /// Where the payload is in the input.
    pub payload: Region,
    /// What the edit does.
    pub kind: u32,
    /// The time, the address or the code.
    pub number: u32,
}

/// What the notes on an edited file say.
#[repr(C)]
#[derive(Clone, Copy, Debug, PartialEq, Eq)]
pub struct EditNoteNumbers {
    /// The number of signature nodes, which are kept and not checked.
    pub signatures: usize,
    /// The number of payloads whose fixed position is not kept.
    pub lost_positions: usize,
    /// The number of payloads after the blob of the file that are inside the blob of the text.
    pub inside: usize,
    /// The alignment in bytes that payloads have in the file and lose, or 0 if they lose none.
    pub lost_alignment: u32,
}

/// Writes the normal form of a file after edits to a buffer, and sets `answer.value` to the number
/// of its signature nodes. Returns the status.
#[unsafe(no_mangle)]
pub extern "C" fn bootimg_edit(
    alloc: Global,
    file: &[u8],
    input: &[u8],
    edits: &[EditElement],
    form: u32,
    limit: u32,
    depth: u32,
    buffer: &mut [u8],
    answer: &mut Answer,
) -> u32
    ensures { FillsBuffer (IsEditText limit depth form input.now edits.now file.now)
        (IsEditCallFailure limit depth form input.now edits.now file.now)
        buffer.old buffer.new answer.new result }
{
    match edited_file(alloc, file, input, edits, form, limit, depth) {
        Ok(made) => fill(&made.text, made.notes.kept.signatures, buffer, answer),
        Err(failure) => fail(failure, answer),
    }
}

/// Sets a struct to the numbers in the notes on the normal form of a file after edits. The numbers
/// and the edits are those of `bootimg_edit`. Returns the status.
#[unsafe(no_mangle)]
pub extern "C" fn bootimg_edit_notes(
    alloc: Global,
    file: &[u8],
    input: &[u8],
    edits: &[EditElement],
    form: u32,
    limit: u32,
    depth: u32,
    notes: &mut EditNoteNumbers,
    answer: &mut Answer,
) -> u32
    ensures { Sets (AreEditNumbers limit depth form input.now edits.now file.now)
        (IsEditCallFailure limit depth form input.now edits.now file.now)
        notes.old notes.new answer.new result }
{
    match edited_file(alloc, file, input, edits, form, limit, depth) {
        Ok(made) => {
            *notes = numbers_of(made.notes);
            succeed(0, 0, answer)
        }
        Err(failure) => fail(failure, answer),
    }
}

/// An edited file.
#[derive(Drop)]
struct EditedFile {
    /// The text.
    text: Vec<u8>,
    /// What a user should know beyond the meaning of the text.
    notes: EditNotes,
}

/// Returns a file after edits.
///
/// Errors: WrongArgument, if a number is not one that the argument may be, or an element is not one
/// of an edit; NotFound, with the index of the first edit whose word is for none; those of editing.
fn edited_file(
    alloc: Global,
    file: &[u8],
    input: &[u8],
    elements: &[EditElement],
    form: u32,
    limit: u32,
    depth: u32,
) -> Result<EditedFile, Failure>
    ensures made { IfOk result (λ made. IsEditedFile limit depth form input.now elements.now
        file.now made.text.items made.notes) }
    ensures failed { IfErr result
        (IsEditCallFailure limit depth form input.now elements.now file.now) }
{
    let Some(limits) = limits_of(limit, depth) else {
        return Err(Failure::WrongArgument(wrong_limit(limit), 0));
    };
    let Some(choice) = choice_of(form) else {
        return Err(Failure::WrongArgument(Argument::Form, 0));
    };
    if let Some(index) = wrong_element(input, elements) {
        return Err(Failure::WrongArgument(Argument::Edits, index));
    }
    let edits = match edits_of(alloc, input, elements) {
        Ok(edits) => edits,
        Err(failure) => return Err(failure),
    };
    let mut sink = VecSink::new(alloc);
    match edit_file_into(alloc, file, &edits, choice, limits, &mut sink) {
        Ok(notes) => Ok(EditedFile {
            text: sink.into_vec(),
            notes,
        }),
        Err(error) => Err(failure_of_edit(error)),
    }
}

/// Returns the choice of the form with this number, if there is one.
fn choice_of(number: u32) -> Option<FormChoice>
    ensures some { IfSome result (λ choice. number_of_choice choice ≡ number) }
    ensures none { IfNone result ((choice : FormChoice) → ¬ (number_of_choice choice ≡ number)) }
{
    if number == KEEP_FORM {
        return Some(FormChoice::Keep);
    }
    match form_of(number) {
        Some(form) => Some(FormChoice::Given(form)),
        None => None,
    }
}

/// Returns the index of the first of these that is not an element of an edit, if there is one.
fn wrong_element(input: &[u8], elements: &[EditElement]) -> Option<usize>
    ensures some { IfSome result (IsFirstWrong (IsEditElement input.now) elements.now) }
    ensures none { IfNone result (AllByRecursion (IsEditElement input.now) elements.now) }
{
    let mut index = 0;
    for element in elements {
        if !is_element(input, element) {
            return Some(index);
        }
        index += 1;
    }
    None
}

/// Returns whether this is an element of an edit: its kind is one, its regions are inside the
/// input, and a code is below 256.
fn is_element(input: &[u8], element: &EditElement) -> bool
    ensures { IsTrue result ↔ IsEditElement input.now element.now }
{
    element.kind <= COMPRESSION
        && (element.kind < OS || element.number < 256)
        && is_inside(input, element.word)
        && is_inside(input, element.payload)
}

/// Returns the bytes of a region of an input. Requires: it is inside the input.
fn bytes_inside<'a>(input: &'a [u8], region: Region) -> &'a [u8]
    requires { IsPieceInside input.now region }
    ensures { result.now ≡ bytes_of_piece input.entry.now region }
{
    &input[region.offset..region.offset + region.size]
}

/// Returns the edits that these elements are for.
///
/// Errors: OutOfMemory; NotFound, with the index of the first edit whose word is for none.
/// Requires: they are elements of edits.
fn edits_of<'a>(
    alloc: Global,
    input: &'a [u8],
    elements: &[EditElement],
) -> Result<Vec<Edit<'a>>, Failure>
    requires { AllByRecursion (IsEditElement input.now) elements.now }
    ensures edits { IfOk result (λ edits.
        AllZip (IsEditOf input.entry.now) elements.now edits.items) }
    ensures failed { IfErr result (AreEditsFailure input.entry.now elements.now) }
{
    let mut edits = Vec::new(alloc);
    let mut index = 0;
    for element in elements {
        let Ok(found) = edit_of(alloc, input, element) else {
            return Err(Failure::OutOfMemory);
        };
        let Some(edit) = found else {
            return Err(Failure::NotFound(BAD_EDIT, index));
        };
        match edits.push(edit) {
            Ok(()) => {}
            Err(_) => return Err(Failure::OutOfMemory),
        }
        index += 1;
    }
    Ok(edits)
}

/// Returns the edit that an element is for. Returns None if and only if its word is for none.
///
/// Fails only with OutOfMemory. Requires: it is an element of an edit.
fn edit_of<'a>(
    alloc: Global,
    input: &'a [u8],
    element: &EditElement,
) -> Result<Option<Edit<'a>>, Error>
    requires { IsEditElement input.now element.now }
    ensures some { IfOk result (λ found. IfSome found (IsEditOf input.entry.now element.now)) }
    ensures none { IfOk result (λ found. IfNone found
        (IsBadElement input.entry.now element.now)) }
{
    let word = bytes_inside(input, element.word);
    match element.kind {
        REMOVE => parse_removal(alloc, word),
        SET => setting(alloc, word),
        PAYLOAD => new_payload(alloc, word, bytes_inside(input, element.payload)),
        TIME => Ok(Some(Edit::SetTime(element.number))),
        HASHES => Ok(Some(Edit::SetDigests)),
        NAME => Ok(Some(Edit::SetField(FieldValue::Name(word.to_vec(alloc)?)))),
        _ => Ok(Some(Edit::SetField(number_field(element)))),
    }
}

/// Returns the edit for the word of a new value of a property. Returns None if and only if the word
/// is for none. Fails if memory runs out.
fn setting<'a>(alloc: Global, word: &[u8]) -> Result<Option<Edit<'a>>, Error>
    ensures some { IfOk result (λ found. IfSome found (IsSetting word.now)) }
    ensures none { IfOk result (λ found. IfNone found
        ((edit : Edit) → ¬ (IsSetting word.now edit))) }
{
    match parse_setting(alloc, word)? {
        Some(setting) => Ok(Some(Edit::SetProperty(setting.place, setting.value))),
        None => Ok(None),
    }
}

/// Returns the edit that gives the image that is printed as this word a payload. Returns None if
/// and only if the word is not a name. Fails if memory runs out.
fn new_payload<'a>(alloc: Global, word: &[u8], payload: &'a [u8]) -> Result<Option<Edit<'a>>, Error>
    ensures some { IfOk result (λ found. IfSome found
        (GivesPayload word.now payload.entry.now)) }
    ensures none { IfOk result (λ found. IfNone found
        ((edit : Edit) → ¬ (GivesPayload word.now payload.entry.now edit))) }
{
    let Some(name) = child_name(alloc, word)? else {
        return Ok(None);
    };
    match ImageName::new(name) {
        Some(image) => Ok(Some(Edit::SetPayload(image, payload))),
        None => Ok(None),
    }
}

/// Returns the value of the field of a legacy header that an element sets to its number. Requires:
/// its kind is that of such a field, and a code is below 256.
fn number_field(element: &EditElement) -> FieldValue
    requires kind { (6 ≤ element.now.kind) × (element.now.kind < 11) }
    requires code { 8 ≤ element.now.kind → element.now.number < 2 ^ 8 }
    ensures { (input : List ℕ) → IsEditOf input element.now (SetField result) }
{
    match element.kind {
        LOAD => FieldValue::Load(element.number),
        ENTRY => FieldValue::Entry(element.number),
        OS => FieldValue::Os(element.number as u8),
        ARCH => FieldValue::Arch(element.number as u8),
        _ => FieldValue::Compression(element.number as u8),
    }
}

/// Returns the failure for an error of editing.
fn failure_of_edit(error: EditError) -> Failure
    ensures { result ≡ failure_of_edit_error error }
{
    match error {
        EditError::WrongKind => Failure::NotFound(WRONG_KIND, 0),
        EditError::FindsNothing(index) => Failure::NotFound(FINDS_NOTHING, index),
        EditError::Failed(Error::Refused(fault)) => Failure::Refused(1, fault),
        EditError::Failed(_) => Failure::OutOfMemory,
    }
}

/// Returns the numbers in the notes on an edited file.
fn numbers_of(notes: EditNotes) -> EditNoteNumbers
    ensures { result ≡ edit_note_numbers notes }
{
    EditNoteNumbers {
        signatures: notes.kept.signatures,
        lost_positions: notes.kept.lost_positions,
        inside: notes.inside,
        lost_alignment: notes.kept.lost_alignment.unwrap_or(0),
    }
}
