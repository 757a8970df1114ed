//! The command `get`.

ghost use Rattle.std.specs.Prelude.{◌≡◌, ◌≢◌, Some, IfOk, IfErr, IfSome, IsFalse, IsTrue};
ghost use Rattle.std.specs.Prelude.{flat_map, map, option_map};
ghost use Rattle.bi_common.specs.MadeFields.{bytes_of_names};
ghost use Rattle.bi_values.specs.NameWords.{AreNoWords, AreWordsOf};
ghost use Rattle.bi_values.specs.ValueNames.{value_name_model, value_name_models, words_of_value};
ghost use Rattle.bi_values.specs.declared.value_form.ValueForm.{ValueForm as Form};
ghost use Rattle.bi_values.specs.declared.value_form.ValueForm.TheVariants.{Raw};
ghost use Rattle.bootimg.specs.CommandLine.{IsBadValue, IsFailureOutcome, IsGetPlan};
ghost use Rattle.bootimg.specs.CommandLine.{texts_of};
ghost use Rattle.bootimg.specs.ValueWords.{BeginWithWords, form_argument, texts_of_value};
ghost use Rattle.bootimg.specs.declared.failure.Failure.TheVariants.{BadValue};

use crate::command_line::NoRequest;
use crate::command_line::options::all_values;
use crate::command_line::values::{GetPlan, ValueWords};
use crate::failure::Failure;
use bi_values::{ValueForm, ValueName};
use clap::ArgMatches;
use std::alloc::{AllocError, Global};

/// Returns which values the options name, and their form. Fails with BadValue if the form is not
/// known, if the words do not name values, or if several values are to be written raw, or with
/// OutOfMemory.
pub fn get_plan<'a>(alloc: Global, options: &ArgMatches<'a>) -> Result<GetPlan<'a>, NoRequest>
    ensures plan { IfOk result (IsGetPlan options.now) }
    ensures failure { IfErr result (IsFailureOutcome (IsBadValue (IsGetPlan options.now))) }
{
    let form = parse_form(options.get_str("as")).ok_or(Failure::BadValue)?;
    let words = all_values(options, "where");
    let names = parse_names(alloc, words)?;
    if !can_write(form, names.len()) {
        return Err(NoRequest::Failure(Failure::BadValue));
    }
    let words = words_of_names(alloc, &names, words)?;
    Ok(GetPlan { names, words, form })
}

/// Parses the value of `--as`, or its absence. Returns None for any other text.
pub fn parse_form(argument: Option<&str>) -> Option<ValueForm>
    ensures some { IfSome result (λ form. option_map (λ text. text.now) argument.entry
        ≡ form_argument form) }
    ensures exactly { (form : Form)
        → option_map (λ text. text.now) argument.entry ≡ form_argument form → result ≡ Some form }
{
    match argument {
        None => Some(ValueForm::Shown),
        Some("text") => Some(ValueForm::Text),
        Some("number") => Some(ValueForm::Number),
        Some("raw") => Some(ValueForm::Raw),
        Some(_) => None,
    }
}

/// Returns whether so many values can be written in a form: raw only one can.
fn can_write(form: ValueForm, count: usize) -> bool
    ensures can { IsTrue result → form ≡ Raw → count ≡ 1 }
    ensures cannot { IsFalse result → (form ≡ Raw) × (count ≢ 1) }
{
    match form {
        ValueForm::Raw => count == 1,
        _ => true,
    }
}

/// Parses words for values. Fails with BadValue if they name none, or with OutOfMemory.
fn parse_names(alloc: Global, words: &[&str]) -> Result<Vec<ValueName>, NoRequest>
    ensures names { IfOk result (λ names.
        AreWordsOf (texts_of words.now) (value_name_models names.items)) }
    ensures failure { IfErr result (IsFailureOutcome
        (λ failure. (failure ≡ BadValue) × AreNoWords (texts_of words.now))) }
{
    let bytes = bytes_of_words(alloc, words)?;
    match ValueName::parse_all(alloc, &bytes) {
        Ok(Some(names)) => Ok(names),
        Ok(None) => Err(NoRequest::Failure(Failure::BadValue)),
        Err(error) => Err(NoRequest::Failure(Failure::Call(error))),
    }
}

/// Returns the bytes of words.
pub fn bytes_of_words<'a>(alloc: Global, words: &[&'a str]) -> Result<Vec<&'a [u8]>, AllocError>
    ensures { IfOk result (λ bytes. bytes_of_names bytes.items ≡ texts_of words.now) }
{
    let mut bytes = Vec::with_capacity(alloc, words.len())?;
    for word in words {
        bytes.push(word.as_bytes())?;
    }
    Ok(bytes)
}

/// Returns the words for each of these names. Requires: they are these words, one after the other.
fn words_of_names<'a>(
    alloc: Global,
    names: &[ValueName],
    words: &[&'a str],
) -> Result<Vec<ValueWords<'a>>, AllocError>
    requires { texts_of words.now ≡ flat_map words_of_value (value_name_models names.now) }
    ensures { IfOk result (λ found. map texts_of_value found.items
        ≡ map words_of_value (value_name_models names.now)) }
{
    let mut found = Vec::with_capacity(alloc, names.len())?;
    let mut at = 0;
    for index in 0..names.len() {
        let first = first_words(&names[index], &words[at..]);
        found.push(first)?;
        at += first.count();
    }
    Ok(found)
}

/// Returns the words for a name. Requires: the words begin with them.
fn first_words<'a>(name: &ValueName, words: &[&'a str]) -> ValueWords<'a>
    requires { BeginWithWords (texts_of words.now) (words_of_value (value_name_model name.now)) }
    ensures { texts_of_value result ≡ words_of_value (value_name_model name.now) }
{
    match name {
        ValueName::Property { .. } => ValueWords::Property(words[0], words[1]),
        ValueName::Field(_) => ValueWords::Field(words[0]),
    }
}
