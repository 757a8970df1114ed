//! The option `--set` of `update`.

ghost use Rattle.std.specs.Prelude.{◌≡◌, ◌≢◌, ◌++◌, ◌↔◌, IfOk, IfErr, IfSome, IfNone, OnOk, IsTrue};
ghost use Rattle.std.specs.Prelude.{List, codes, map};
ghost use Rattle.std.specs.List.{AllZip};
ghost use Rattle.bi_blob.specs.Tree.{AreDistinct};
ghost use Rattle.bi_base.specs.declared.fault.Error.TheVariants.{OutOfMemory};
ghost use Rattle.bi_edit.specs.declared.edit.Edit.{Edit as EditModel};
ghost use Rattle.bi_edit.specs.declared.edit.FieldValue.{FieldValue as FieldModel};
ghost use Rattle.bootimg.specs.CommandLine.{IsBadValue, IsFailureOutcome, texts_of};
ghost use Rattle.bootimg.specs.EditOptions.{AreSetWords, IsFieldText, IsFieldWord, IsSetWord};
ghost use Rattle.bootimg.specs.EditOptions.{field_to_set, set_place};

use crate::codes::{CodeField, parse_code};
use crate::command_line::NoRequest;
use crate::failure::Failure;
use crate::numbers::parse_number;
use bi_base::Error;
use bi_commands::unshown::name_shown_as;
use bi_edit::words::parse_setting;
use bi_edit::{Edit, FieldValue};
use std::alloc::{AllocError, Global};
use std::collections::BTreeSet;

/// Adds the new values for these words. Fails with BadValue at a word for none, or if two are of
/// one place, or with OutOfMemory.
pub fn add_settings<'a>(
    alloc: Global,
    words: &[&str],
    edits: &mut Vec<Edit<'a>>,
) -> Result<(), NoRequest>
    ensures added { OnOk result ((added : List EditModel)
        × (edits.new.items ≡ edits.old.items ++ added)
        × AreSetWords (texts_of words.now) added) }
    ensures failure { IfErr result (IsFailureOutcome
        (IsBadValue (AreSetWords (texts_of words.now)))) }
{
    add_each_setting(alloc, words, edits)?;
    if !are_of_distinct_places(alloc, words)? {
        return Err(NoRequest::Failure(Failure::BadValue));
    }
    Ok(())
}

/// Adds the new values for these words. Fails with BadValue at a word for none, or with
/// OutOfMemory.
fn add_each_setting<'a>(
    alloc: Global,
    words: &[&str],
    edits: &mut Vec<Edit<'a>>,
) -> Result<(), NoRequest>
    ensures added { OnOk result ((added : List EditModel)
        × (edits.new.items ≡ edits.old.items ++ added)
        × AllZip IsSetWord (texts_of words.now) added) }
    ensures failure { IfErr result (IsFailureOutcome
        (IsBadValue (AllZip IsSetWord (texts_of words.now)))) }
{
    for word in words {
        let Some(edit) = parse_set_word(alloc, word)? else {
            return Err(NoRequest::Failure(Failure::BadValue));
        };
        edits.push(edit)?;
    }
    Ok(())
}

/// Parses the word for a new value: of a property if it begins with a slash, and else of a field.
/// Returns None exactly for any other word. Fails only with OutOfMemory.
pub fn parse_set_word<'a>(alloc: Global, word: &str) -> Result<Option<Edit<'a>>, Error>
    ensures some { IfOk result (λ found. IfSome found (IsSetWord word.now)) }
    ensures none { IfOk result (λ found. IfNone found
        ((edit : EditModel) → IsSetWord word.now edit → ⊥)) }
    ensures failed { IfErr result (λ error. error ≡ OutOfMemory) }
{
    if word.starts_with('/') {
        return Ok(match parse_setting(alloc, word.as_bytes())? {
            Some(setting) => Some(Edit::SetProperty(setting.place, setting.value)),
            None => None,
        });
    }
    Ok(match parse_field(alloc, word)? {
        Some(value) => Some(Edit::SetField(value)),
        None => None,
    })
}

/// Parses the word for a new value of a field. Returns None exactly for any other word. Fails only
/// with OutOfMemory.
fn parse_field(alloc: Global, word: &str) -> Result<Option<FieldValue>, Error>
    ensures some { IfOk result (λ found. IfSome found (IsFieldWord word.now)) }
    ensures none { IfOk result (λ found. IfNone found
        ((value : FieldModel) → IsFieldWord word.now value → ⊥)) }
    ensures failed { IfErr result (λ error. error ≡ OutOfMemory) }
{
    let Some((field, text)) = word.split_once(' ') else {
        return Ok(None);
    };
    if field != "name" {
        return Ok(parse_other_field(field, text));
    }
    match name_shown_as(alloc, text.as_bytes())? {
        Some(name) => Ok(Some(FieldValue::Name(name))),
        None => Ok(None),
    }
}

/// Parses the text for a value of this field, which is not the name. Returns None exactly for any
/// other field and any other text.
fn parse_other_field(field: &str, text: &str) -> Option<FieldValue>
    requires { field.now ≢ codes "name" }
    ensures some { IfSome result (λ value. (field.now ≡ field_to_set value)
        × IsFieldText text.now value) }
    ensures none { IfNone result ((value : FieldModel) → field.now ≡ field_to_set value
        → IsFieldText text.now value → ⊥) }
{
    match field {
        "time" => Some(FieldValue::Time(parse_number(text)?)),
        "load" => Some(FieldValue::Load(parse_number(text)?)),
        "entry" => Some(FieldValue::Entry(parse_number(text)?)),
        "os" => Some(FieldValue::Os(parse_code(CodeField::Os, text)?)),
        "arch" => Some(FieldValue::Arch(parse_code(CodeField::Arch, text)?)),
        "compression" => Some(FieldValue::Compression(parse_code(CodeField::Compression, text)?)),
        _ => None,
    }
}

/// Returns whether no two words for new values are of one place. Fails if memory runs out.
fn are_of_distinct_places(alloc: Global, words: &[&str]) -> Result<bool, AllocError>
    ensures { (edits : List EditModel) → AllZip IsSetWord (texts_of words.now) edits →
        IfOk result (λ are. IsTrue are ↔ AreDistinct (map set_place edits)) }
{
    let mut places = BTreeSet::new(alloc);
    for word in words {
        if !places.insert(place_of_word(word))? {
            return Ok(false);
        }
    }
    Ok(true)
}

/// Returns what a word for a new value is of, as it begins: what it has before its second space if
/// it begins with a slash, and else what it has before its first. Without such a space it is the
/// whole word.
fn place_of_word(word: &str) -> &[u8]
    ensures { (edit : EditModel) → IsSetWord word.now edit → result.now ≡ set_place edit }
{
    let Some((first, rest)) = word.split_once(' ') else {
        return word.as_bytes();
    };
    if !word.starts_with('/') {
        return first.as_bytes();
    }
    match rest.split_once(' ') {
        Some((second, _)) => &word.as_bytes()[..first.len() + 1 + second.len()],
        None => word.as_bytes(),
    }
}
