//! Single values of a boot image.

ghost use Rattle.std.specs.Prelude.{◌≡◌, ◌↔◌, ◌<◌, IsSome, IfErr, IfNone, IfOk, IfSome};
ghost use Rattle.bi_base.specs.declared.fault.Error.TheVariants.{OutOfMemory};
ghost use Rattle.bi_values.specs.NameWords.{AreNoWords, AreWordsOf};
ghost use Rattle.bi_values.specs.ValueNames.{value_name_models};
ghost use Rattle.bi_c.specs.Answers.{FillsBuffer, IsFailureOf, IsTextOf};
ghost use Rattle.bi_c.specs.ValueCalls.{IsValueFailure, IsGotten, IsOneName, NameNothing};
ghost use Rattle.bi_c.specs.ValueCalls.{failure_of_get_error, words_of_place};
ghost use Rattle.bi_c.specs.ValueCalls.{value_form_of as value_form_of_number};

use crate::answer::{Answer, fail, fill};
use crate::argument::{Argument, wrong_limit};
use crate::arguments::limits_of;
use crate::failure::{Failure, NO_PROPERTY, WRONG_KIND, failure_of};
use bi_base::Error;
use bi_values::{GetError, ValueForm, ValueName, get};
use std::alloc::Global;

/// The number of the reason that a value is not one or more texts.
const NO_TEXT: u32 = 12;

/// The number of the reason that a value is not a number.
const NO_NUMBER: u32 = 13;

/// Writes a value of a boot image in a form to a buffer: the property of a node, by the path and
/// the name as a description prints them, or the field of a legacy image that `place` names, with
/// an empty `name`. Returns the status.
#[unsafe(no_mangle)]
pub extern "C" fn bootimg_get(
    alloc: Global,
    file: &[u8],
    place: &[u8],
    name: &[u8],
    form: u32,
    limit: u32,
    depth: u32,
    buffer: &mut [u8],
    answer: &mut Answer,
) -> u32
    ensures { FillsBuffer (IsGotten limit depth form place.now name.now file.now)
        (IsValueFailure limit depth form place.now name.now file.now)
        buffer.old buffer.new answer.new result }
{
    let Some(limits) = limits_of(limit, depth) else {
        return fail(Failure::WrongArgument(wrong_limit(limit), 0), answer);
    };
    let Some(form) = value_form_of(form) else {
        return fail(Failure::WrongArgument(Argument::Form, 0), answer);
    };
    match one_name(alloc, place, name) {
        Ok(Some(names)) => fill_value(get(alloc, file, &names, form, limits), buffer, answer),
        Ok(None) => fail(Failure::WrongArgument(Argument::Place, 0), answer),
        Err(error) => fail(failure_of(error), answer),
    }
}

/// Returns the form with this number, if there is one.
fn value_form_of(number: u32) -> Option<ValueForm>
    ensures in_range { IsSome result ↔ number < 4 }
    ensures value { IfSome result (λ form. form ≡ value_form_of_number number) }
{
    match number {
        0 => Some(ValueForm::Shown),
        1 => Some(ValueForm::Text),
        2 => Some(ValueForm::Number),
        3 => Some(ValueForm::Raw),
        _ => None,
    }
}

/// Returns the list of the one value that these words name, if they name one and no other. Fails if
/// memory runs out.
fn one_name(alloc: Global, place: &[u8], name: &[u8]) -> Result<Option<Vec<ValueName>>, Error>
    ensures some { IfOk result (λ found. IfSome found (λ names.
        IsOneName place.now name.now (value_name_models names.items))) }
    ensures none { IfOk result (λ found. IfNone found (NameNothing place.now name.now)) }
    ensures failed { IfErr result (λ error. error ≡ OutOfMemory) }
{
    let Some(names) = names_of(alloc, place, name)? else {
        return Ok(None);
    };
    if names.len() != 1 {
        return Ok(None);
    }
    Ok(Some(names))
}

/// Returns the values that these words name, if they name values: a place alone if the name is
/// empty, and otherwise both. Fails if memory runs out.
fn names_of(alloc: Global, place: &[u8], name: &[u8]) -> Result<Option<Vec<ValueName>>, Error>
    ensures some { IfOk result (λ found. IfSome found (λ names.
        AreWordsOf (words_of_place place.now name.now) (value_name_models names.items))) }
    ensures none { IfOk result (λ found. IfNone found
        (AreNoWords (words_of_place place.now name.now))) }
    ensures failed { IfErr result (λ error. error ≡ OutOfMemory) }
{
    if name.is_empty() {
        return ValueName::parse_all(alloc, &[place]);
    }
    ValueName::parse_all(alloc, &[place, name])
}

/// Writes the value that getting it made to a buffer, and the answer. Returns the status.
fn fill_value(made: Result<Vec<u8>, GetError>, buffer: &mut [u8], answer: &mut Answer) -> u32
    ensures { FillsBuffer (IsTextOf (λ text. text.items) (λ _. 0) made)
        (IsFailureOf failure_of_get_error made) buffer.old buffer.new answer.new result }
{
    match made {
        Ok(text) => fill(&text, 0, buffer, answer),
        Err(error) => fail(failure_of_getting(error), answer),
    }
}

/// Returns the failure for an error of getting a value.
fn failure_of_getting(error: GetError) -> Failure
    ensures { result ≡ failure_of_get_error error }
{
    match error {
        GetError::Failed(error) => failure_of(error),
        GetError::WrongKind => Failure::NotFound(WRONG_KIND, 0),
        GetError::NoProperty(_) => Failure::NotFound(NO_PROPERTY, 0),
        GetError::NoText(_) => Failure::NotFound(NO_TEXT, 0),
        GetError::NoNumber(_) => Failure::NotFound(NO_NUMBER, 0),
    }
}
