//! The options `--compatible`, `--describe-config` and `--describe-image` of `build-fit`.

ghost use Rattle.std.specs.Prelude.{◌≡◌, ◌↔◌, ℕ, IsTrue, List, map, option_map};
ghost use Rattle.std.specs.Prelude.{IfOk, IfErr, IfSome, IfNone};
ghost use Rattle.bi_base.specs.Slices.{bytes_of};
ghost use Rattle.bi_blob.specs.NameSets.{HoldsNames};
ghost use Rattle.bi_blob.specs.Tree.{AreDistinct};
ghost use Rattle.bootimg.specs.CommandLine.{texts_of, AreOwnTexts, IsBadValue};
ghost use Rattle.bootimg.specs.CommandLine.{IsFailureOutcome, NoneIs};
ghost use Rattle.bootimg.specs.ConfigurationWords.{name_of_word as name_of};
ghost use Rattle.bootimg.specs.OwnTexts.{AreDescriptions, AreNamedTexts, IsNamedText};
ghost use Rattle.bootimg.specs.OwnTexts.{text_named as text_for, texts_named as texts_for};

use crate::command_line::NoRequest;
use crate::command_line::configurations::name_of_word;
use crate::command_line::options::all_values;
use crate::failure::Failure;
use clap::ArgMatches;
use std::alloc::{AllocError, Global};
use std::collections::BTreeSet;

/// A text for one image or one configuration, as a word gives it.
#[derive(Clone, Copy)]
pub struct NamedText<'a> {
    /// The name of the image or the configuration.
    pub name: &'a [u8],
    /// The text, which is not empty.
    pub text: &'a [u8],
}

/// The texts of `build-fit` that are for one image or one configuration.
#[derive(Drop)]
pub struct OwnTexts<'a> {
    /// What configurations are compatible with.
    pub compatibles: Vec<NamedText<'a>>,
    /// Descriptions of configurations. No two have the same name.
    pub configurations: Vec<NamedText<'a>>,
    /// Descriptions of images. No two have the same name.
    pub images: Vec<NamedText<'a>>,
}

/// Returns the texts for one image or one configuration that the options give. Fails with BadValue
/// if a word has no colon, no text after it, or before it a name that no image or configuration
/// has, or if two words describe the same one. Or with OutOfMemory.
///
/// Takes n log n time for n words.
pub fn own_texts<'a>(alloc: Global, options: &ArgMatches<'a>) -> Result<OwnTexts<'a>, NoRequest>
    ensures texts { IfOk result (AreOwnTexts options.now) }
    ensures failure { IfErr result (IsFailureOutcome (IsBadValue (AreOwnTexts options.now))) }
{
    let configurations = names_of_words(alloc, all_values(options, "config"))?;
    let images = names_of_words(alloc, all_values(options, "images"))?;
    Ok(OwnTexts {
        compatibles: parse_texts(alloc, all_values(options, "compatible"), &configurations)?,
        configurations: parse_descriptions(
            alloc,
            all_values(options, "describe-config"),
            &configurations,
        )?,
        images: parse_descriptions(alloc, all_values(options, "describe-image"), &images)?,
    })
}

/// Returns what words have before their first colons.
fn names_of_words<'a>(alloc: Global, words: &[&'a str]) -> Result<BTreeSet<&'a [u8]>, AllocError>
    ensures { IfOk result (λ names. HoldsNames names (map name_of (texts_of words.now))) }
{
    let mut names = BTreeSet::new(alloc);
    for word in words {
        names.insert(name_of_word(word).as_bytes())?;
    }
    Ok(names)
}

/// Parses descriptions, each for one of these names. Fails with BadValue as `parse_texts` does, or
/// if two are for the same name, or with OutOfMemory.
fn parse_descriptions<'a>(
    alloc: Global,
    words: &[&'a str],
    names: &BTreeSet<&[u8]>,
) -> Result<Vec<NamedText<'a>>, NoRequest>
    ensures texts { (held : List (List ℕ)) → HoldsNames names.now held →
        IfOk result (λ texts. AreDescriptions held (texts_of words.now) texts.items) }
    ensures failure { (held : List (List ℕ)) → HoldsNames names.now held →
        IfErr result (IsFailureOutcome
        (IsBadValue (λ texts. AreDescriptions held (texts_of words.now) texts))) }
{
    let texts = parse_texts(alloc, words, names)?;
    if !have_distinct_names(alloc, words)? {
        return Err(NoRequest::Failure(Failure::BadValue));
    }
    Ok(texts)
}

/// Returns whether no two words have the same bytes before their first colons.
fn have_distinct_names(alloc: Global, words: &[&str]) -> Result<bool, AllocError>
    ensures { IfOk result (λ are. IsTrue are ↔ AreDistinct (map name_of (texts_of words.now))) }
{
    let mut names = BTreeSet::new(alloc);
    for word in words {
        if !names.insert(name_of_word(word).as_bytes())? {
            return Ok(false);
        }
    }
    Ok(true)
}

/// Parses texts, each for one of these names. Fails with BadValue at a word that is no text, or
/// that is for another name, or with OutOfMemory.
fn parse_texts<'a>(
    alloc: Global,
    words: &[&'a str],
    names: &BTreeSet<&[u8]>,
) -> Result<Vec<NamedText<'a>>, NoRequest>
    ensures texts { (held : List (List ℕ)) → HoldsNames names.now held →
        IfOk result (λ texts. AreNamedTexts held (texts_of words.now) texts.items) }
    ensures failure { (held : List (List ℕ)) → HoldsNames names.now held →
        IfErr result (IsFailureOutcome
        (IsBadValue (λ texts. AreNamedTexts held (texts_of words.now) texts))) }
{
    let mut texts = Vec::with_capacity(alloc, words.len())?;
    for word in words {
        let named = parse_text(word).ok_or(Failure::BadValue)?;
        if !names.contains(named.name) {
            return Err(NoRequest::Failure(Failure::BadValue));
        }
        texts.push(named)?;
    }
    Ok(texts)
}

/// Parses a text: `NAME:TEXT`. Returns None exactly for a word without a colon, or with nothing
/// after the first.
pub fn parse_text(word: &str) -> Option<NamedText<'_>>
    ensures some { IfSome result (IsNamedText word.now) }
    ensures none { IfNone result (NoneIs (IsNamedText word.now)) }
{
    let (name, text) = word.split_once(':')?;
    if text.is_empty() {
        return None;
    }
    Some(NamedText {
        name: name.as_bytes(),
        text: text.as_bytes(),
    })
}

/// Returns the texts for a name, in their order.
pub fn texts_named<'a>(
    alloc: Global,
    texts: &[NamedText<'a>],
    name: &[u8],
) -> Result<Vec<&'a [u8]>, AllocError>
    ensures { IfOk result (λ found. bytes_of found.items ≡ texts_for texts.now name.now) }
{
    let mut found = Vec::new(alloc);
    for named in texts {
        if named.name == name {
            found.push(named.text)?;
        }
    }
    Ok(found)
}

/// Returns the first text for a name, if there is one.
pub fn text_named<'a>(texts: &[NamedText<'a>], name: &[u8]) -> Option<&'a [u8]>
    ensures { option_map (λ text. text.now) result ≡ text_for texts.now name.now }
{
    for named in texts {
        if named.name == name {
            return Some(named.text);
        }
    }
    None
}
