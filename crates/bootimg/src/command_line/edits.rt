//! The options of `update` that edit an image.

ghost use Rattle.std.specs.Prelude.{◌≡◌, ◌++◌, ◌↔◌, IfOk, IfErr, OnOk, IsTrue, IsFalse, List};
ghost use Rattle.std.specs.Prelude.{map, option_map};
ghost use Rattle.std.specs.List.{AllZip};
ghost use Rattle.bi_blob.specs.Tree.{AreDistinct};
ghost use Rattle.bi_edit.specs.declared.edit.Edit.{Edit as EditModel};
ghost use Rattle.bi_edit.specs.EditWords.{IsRemovalWord};
ghost use Rattle.bootimg.specs.CommandLine.{AsksForEdits, AsksForNoEdit, HasBadEdits};
ghost use Rattle.bootimg.specs.CommandLine.{HasNoFormChoice, IsBadValue, IsEditPlan};
ghost use Rattle.bootimg.specs.CommandLine.{IsEditPlanFailure, IsFailureOutcome, IsFormChoice};
ghost use Rattle.bootimg.specs.CommandLine.{IsNewTime, texts_of};
ghost use Rattle.bootimg.specs.EditOptions.{ArePayloadWords, IsNewPayload, changing_edits};
ghost use Rattle.bootimg.specs.declared.failure.Failure.TheVariants.{BadValue};

mod settings;

use crate::command_line::options::{all_values, flag, form, number};
use crate::command_line::source::source;
use crate::command_line::{ImageSource, NoRequest};
use crate::failure::Failure;
use crate::numbers::parse_number;
use bi_commands::update::Changes;
use bi_edit::words::{PayloadWord, parse_payload, parse_removal};
use bi_edit::{Edit, FormChoice};
use bi_norm::Form;
use clap::ArgMatches;
use settings::add_settings;
pub use settings::parse_set_word;
use std::alloc::{AllocError, Global};
use std::collections::BTreeSet;

/// What `update` edits.
#[derive(Drop)]
pub struct EditPlan<'a> {
    /// All edits but those of payloads: removals, new values, the time, the digests.
    pub edits: Vec<Edit<'a>>,
    /// The words for the removals, which are the first edits.
    pub removal_words: Vec<&'a str>,
    /// The images that get a payload, and the names of the files that have them.
    pub payloads: Vec<PayloadWord<'a>>,
    /// Where the text of a flattened image tree has the payloads.
    pub choice: FormChoice,
    /// Where the image begins in the input: an offset in bytes.
    pub offset: u32,
    /// Where the input is read from.
    pub source: ImageSource<'a>,
}

/// Returns what the options of `update` edit. Fails with NoChange if they request nothing, else
/// with BadValue if one of their values is malformed, if two are of one place, or if `--keep-form`
/// is given with another form, or with OutOfMemory.
///
/// Takes n log n time for n words.
pub fn edit_plan<'a>(alloc: Global, options: &ArgMatches<'a>) -> Result<EditPlan<'a>, NoRequest>
    ensures plan { IfOk result (λ plan. AsksForEdits options.now × IsEditPlan options.now plan) }
    ensures failure { IfErr result (IsFailureOutcome (IsEditPlanFailure options.now)) }
{
    if asks_for_edits(options) {
        requested_edits(alloc, options)
    } else {
        Err(NoRequest::Failure(Failure::NoChange))
    }
}

/// Returns whether `--remove`, `--set`, `--payload`, `--time`, `--hashes` or `--keep-form` is
/// given.
fn asks_for_edits(options: &ArgMatches<'_>) -> bool
    ensures edits { IsTrue result → AsksForEdits options.now }
    ensures no_edit { IsFalse result → AsksForNoEdit options.now }
{
    if !all_values(options, "remove").is_empty() {
        return true;
    }
    if !all_values(options, "set").is_empty() {
        return true;
    }
    if !all_values(options, "payload").is_empty() {
        return true;
    }
    if options.get_str("time").is_some() {
        return true;
    }
    if flag(options, "hashes") {
        return true;
    }
    flag(options, "keep-form")
}

/// Returns what the options of `update` edit. Fails as `edit_plan` does if they request something.
fn requested_edits<'a>(alloc: Global, options: &ArgMatches<'a>) -> Result<EditPlan<'a>, NoRequest>
    ensures plan { IfOk result (IsEditPlan options.now) }
    ensures failure { IfErr result (IsFailureOutcome
        (λ failure. (failure ≡ BadValue) × HasBadEdits options.now)) }
{
    let removals = all_values(options, "remove");
    let changes = Changes {
        time: new_time(options.get_str("time"))?,
        hashes: flag(options, "hashes"),
    };
    let mut edits = Vec::new(alloc);
    add_removals(alloc, removals, &mut edits)?;
    add_settings(alloc, all_values(options, "set"), &mut edits)?;
    add_changes(changes, &mut edits)?;
    Ok(EditPlan {
        edits,
        removal_words: copy_words(alloc, removals)?,
        payloads: parse_payloads(alloc, all_values(options, "payload"))?,
        choice: form_choice(options)?,
        offset: number(options, "offset")?,
        source: source(options, "file"),
    })
}

/// Returns the new time, if `--time` has this value. Fails with BadValue if it is not a number.
fn new_time(argument: Option<&str>) -> Result<Option<u32>, Failure<'static>>
    ensures time { IfOk result (IsNewTime (option_map (λ text. text.now) argument.entry)) }
    ensures bad { IfErr result
        (IsBadValue (IsNewTime (option_map (λ text. text.now) argument.entry))) }
{
    match argument {
        None => Ok(None),
        Some(argument) => {
            let time = parse_number(argument).ok_or(Failure::BadValue)?;
            Ok(Some(time))
        }
    }
}

/// Returns these words.
fn copy_words<'a>(alloc: Global, words: &[&'a str]) -> Result<Vec<&'a str>, AllocError>
    ensures { IfOk result (λ copied. texts_of copied.items ≡ texts_of words.now) }
{
    Vec::from_slice(alloc, words)
}

/// Adds the removals for these words. Fails with BadValue at a word for none, or with OutOfMemory.
fn add_removals<'a>(
    alloc: Global,
    words: &[&str],
    edits: &mut Vec<Edit<'a>>,
) -> Result<(), NoRequest>
    ensures added { OnOk result ((added : List EditModel)
        × (edits.new.items ≡ edits.old.items ++ added)
        × AllZip IsRemovalWord (texts_of words.now) added) }
    ensures failure { IfErr result (IsFailureOutcome
        (IsBadValue (AllZip IsRemovalWord (texts_of words.now)))) }
{
    for word in words {
        let Some(edit) = parse_removal(alloc, word.as_bytes())? else {
            return Err(NoRequest::Failure(Failure::BadValue));
        };
        edits.push(edit)?;
    }
    Ok(())
}

/// Adds the edits of the time and the digests. Fails if memory runs out.
fn add_changes<'a>(changes: Changes, edits: &mut Vec<Edit<'a>>) -> Result<(), AllocError>
    ensures { OnOk result (edits.new.items ≡ edits.old.items ++ changing_edits changes) }
{
    if let Some(time) = changes.time {
        edits.push(Edit::SetTime(time))?;
    }
    if changes.hashes {
        edits.push(Edit::SetDigests)?;
    }
    Ok(())
}

/// Parses new payloads. Fails with BadValue at a word for none, or if two are of one image, or with
/// OutOfMemory.
fn parse_payloads<'a>(alloc: Global, words: &[&'a str]) -> Result<Vec<PayloadWord<'a>>, NoRequest>
    ensures payloads { IfOk result (λ payloads.
        ArePayloadWords (texts_of words.now) payloads.items) }
    ensures failure { IfErr result (IsFailureOutcome
        (IsBadValue (ArePayloadWords (texts_of words.now)))) }
{
    let payloads = parse_each_payload(alloc, words)?;
    if !are_of_distinct_images(alloc, &payloads)? {
        return Err(NoRequest::Failure(Failure::BadValue));
    }
    Ok(payloads)
}

/// Parses new payloads. Fails with BadValue at a word for none, or with OutOfMemory.
fn parse_each_payload<'a>(
    alloc: Global,
    words: &[&'a str],
) -> Result<Vec<PayloadWord<'a>>, NoRequest>
    ensures payloads { IfOk result (λ payloads.
        AllZip IsNewPayload (texts_of words.now) payloads.items) }
    ensures failure { IfErr result (IsFailureOutcome
        (IsBadValue (AllZip IsNewPayload (texts_of words.now)))) }
{
    let mut payloads = Vec::with_capacity(alloc, words.len())?;
    for word in words {
        let found = parse_payload(alloc, word)?;
        let payload = found.ok_or(Failure::BadValue)?;
        payloads.push(payload)?;
    }
    Ok(payloads)
}

/// Returns whether no two payloads are of one image. Fails if memory runs out.
fn are_of_distinct_images(alloc: Global, payloads: &[PayloadWord<'_>]) -> Result<bool, AllocError>
    ensures { IfOk result (λ are. IsTrue are
        ↔ AreDistinct (map (λ payload. payload.image) payloads.now)) }
{
    let mut images = BTreeSet::new(alloc);
    for payload in payloads {
        if !images.insert(payload.image.as_bytes())? {
            return Ok(false);
        }
    }
    Ok(true)
}

/// Returns where the options put the payloads. Fails with BadValue as `form` does, or if
/// `--keep-form` is given with another form.
fn form_choice(options: &ArgMatches<'_>) -> Result<FormChoice, Failure<'static>>
    ensures choice { IfOk result (IsFormChoice options.now) }
    ensures bad { IfErr result (λ failure. (failure ≡ BadValue) × HasNoFormChoice options.now) }
{
    let given = form(options)?;
    if !flag(options, "keep-form") {
        return Ok(FormChoice::Given(given));
    }
    match given {
        Form::Embedded => Ok(FormChoice::Keep),
        _ => Err(Failure::BadValue),
    }
}
