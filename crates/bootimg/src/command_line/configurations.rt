//! The options `--config` and `--default` of `build-fit`.

ghost use Rattle.std.specs.Prelude.{◌≡◌, ◌≢◌, ◌++◌, ℕ, List, codes, bytes_eq};
ghost use Rattle.std.specs.Prelude.{option_map, IfOk, IfErr, IfSome, IfNone};
ghost use Rattle.std.specs.List.{list_any};
ghost use Rattle.bi_base.specs.Slices.{bytes_of};
ghost use Rattle.bi_blob.specs.NameSets.{HoldsNames};
ghost use Rattle.bi_fit.specs.Names.{key_name};
ghost use Rattle.bi_fit.specs.NamedImages.{configuration_spec_model};
ghost use Rattle.bi_fit.specs.declared.key.Key.{Key};
ghost use Rattle.bi_norm.specs.FitBuilding.{names_of_specs};
ghost use Rattle.bootimg.specs.CommandLine.{option_of, texts_of, IsBad, IsBadConfiguration};
ghost use Rattle.bootimg.specs.CommandLine.{IsBadValue, IsFailureOutcome};
ghost use Rattle.bootimg.specs.ConfigurationWords.{configuration_model, name_of_word as name_of};
ghost use Rattle.bootimg.specs.ConfigurationWords.{names_under as names_in, AreConfigurations};
ghost use Rattle.bootimg.specs.ConfigurationWords.{AreLists, IsConfigurationWord, IsDefault};
ghost use Rattle.bootimg.specs.ConfigurationWords.{IsListText};
ghost use Rattle.bootimg.specs.Words.{listed_words, parts_of};

use crate::command_line::NoRequest;
use crate::command_line::extract::parse_key;
use crate::command_line::image::split_field;
use crate::failure::Failure;
use bi_base::are_bytes;
use bi_blob::is_child_name;
use bi_fit::Key;
use bi_norm::{ConfigurationSpec, ImageSpec, lists_only};
use clap::ArgMatches;
use std::alloc::{AllocError, Global};
use std::collections::BTreeSet;

/// The names of images that a configuration lists under a key.
#[derive(Drop)]
pub struct KeyList<'a> {
    /// The key.
    pub key: Key,
    /// The names.
    pub names: Vec<&'a [u8]>,
}

/// A configuration of `build-fit`, as a word gives it.
#[derive(Drop)]
pub struct ConfigurationWord<'a> {
    /// The name of the configuration.
    pub name: &'a [u8],
    /// Its lists. No two have the same key.
    pub lists: Vec<KeyList<'a>>,
}

impl<'a> ConfigurationWord<'a> {
    /// Returns the configuration to be built, without texts of its own.
    pub fn spec(&self) -> ConfigurationSpec<'_>
        ensures { configuration_spec_model result ≡ configuration_model self.now }
    {
        ConfigurationSpec {
            name: self.name,
            description: None,
            compatible: &[],
            kernel: names_under(&self.lists, Key::Kernel),
            fdt: names_under(&self.lists, Key::Fdt),
            ramdisk: names_under(&self.lists, Key::Ramdisk),
            firmware: names_under(&self.lists, Key::Firmware),
            loadables: names_under(&self.lists, Key::Loadables),
            script: names_under(&self.lists, Key::Script),
        }
    }
}

/// Returns the names that lists have under a key: none if there is no list with this key.
fn names_under<'r>(lists: &'r [KeyList<'_>], key: Key) -> &'r [&'r [u8]]
    ensures { bytes_of result.now ≡ names_in lists.now key }
{
    for list in lists {
        if list.key.name() == key.name() {
            return &list.names;
        }
    }
    &[]
}

/// Parses configurations of these images. Fails with BadConfiguration at the first word that is not
/// a configuration, that lists a name that no image has, or whose name is not allowed or is that of
/// a configuration before it, or with OutOfMemory.
pub fn parse_configurations<'a>(
    alloc: Global,
    words: &[&'a str],
    images: &[ImageSpec<'a>],
) -> Result<Vec<ConfigurationWord<'a>>, NoRequest>
    ensures configurations { IfOk result (λ configurations.
        AreConfigurations (names_of_specs images.now) (texts_of words.now) configurations.items) }
    ensures failure { IfErr result (IsFailureOutcome
        (IsBadConfiguration (names_of_specs images.now) (texts_of words.now))) }
{
    let image_names = names_of(alloc, images)?;
    let mut names = BTreeSet::new(alloc);
    let mut configurations = Vec::with_capacity(alloc, words.len())?;
    for (index, word) in words.iter().enumerate() {
        let bad = Failure::BadConfiguration(index);
        let configuration = parse_configuration(alloc, word, bad)?;
        let name = configuration.name;
        are_bytes(name);
        if !is_child_name(name) || !lists_only(&configuration.spec(), &image_names) {
            return Err(NoRequest::Failure(bad));
        }
        if !names.insert(name)? {
            return Err(NoRequest::Failure(bad));
        }
        configurations.push(configuration)?;
    }
    Ok(configurations)
}

/// Returns the names of images.
fn names_of<'a>(alloc: Global, images: &[ImageSpec<'a>]) -> Result<BTreeSet<&'a [u8]>, AllocError>
    ensures { IfOk result (λ names. HoldsNames names (names_of_specs images.now)) }
{
    let mut names = BTreeSet::new(alloc);
    for image in images {
        names.insert(image.name)?;
    }
    Ok(names)
}

/// Parses a configuration: `NAME:KEY=IMAGE[,IMAGE]..[:KEY=IMAGE[,IMAGE]..]..`. Fails with the given
/// failure for any other text, or with OutOfMemory.
pub fn parse_configuration<'a>(
    alloc: Global,
    word: &'a str,
    bad: Failure<'static>,
) -> Result<ConfigurationWord<'a>, NoRequest>
    ensures configuration { IfOk result (IsConfigurationWord word.now) }
    ensures failure { IfErr result (IsFailureOutcome
        (IsBad bad.entry (IsConfigurationWord word.now))) }
{
    let (name, lists) = split_field(word).ok_or(bad)?;
    Ok(ConfigurationWord {
        name: name.as_bytes(),
        lists: parse_lists(alloc, lists, bad)?,
    })
}

/// Parses lists, with a colon between each two. Fails with the given failure at a text that is not
/// a list, or whose key a list before it has, or with OutOfMemory.
fn parse_lists<'a>(
    alloc: Global,
    text: &'a str,
    bad: Failure<'static>,
) -> Result<Vec<KeyList<'a>>, NoRequest>
    ensures lists { IfOk result (λ lists. AreLists (parts_of text.now) lists.items) }
    ensures failure { IfErr result (IsFailureOutcome
        (IsBad bad.entry (λ lists. AreLists (parts_of text.now) lists))) }
{
    let mut lists = Vec::new(alloc);
    for part in text.split(':') {
        let list = parse_list(alloc, part, bad)?;
        if has_key(&lists, list.key) {
            return Err(NoRequest::Failure(bad));
        }
        lists.push(list)?;
    }
    Ok(lists)
}

/// Returns whether one of these lists has a key.
fn has_key(lists: &[KeyList<'_>], key: Key) -> bool
    ensures { result
        ≡ list_any (λ list. bytes_eq (key_name list.key) (key_name key)) lists.now }
{
    lists.iter().any(|list| list.key.name() == key.name())
}

/// Parses a list: `KEY=IMAGE[,IMAGE]..`. Fails with the given failure for any other text, or with
/// OutOfMemory.
fn parse_list<'a>(
    alloc: Global,
    text: &'a str,
    bad: Failure<'static>,
) -> Result<KeyList<'a>, NoRequest>
    ensures list { IfOk result (IsListText text.now) }
    ensures failure { IfErr result (IsFailureOutcome (IsBad bad.entry (IsListText text.now))) }
{
    let (key, names) = split_list(text).ok_or(bad)?;
    Ok(KeyList {
        key,
        names: split_names(alloc, names)?,
    })
}

/// Splits a list after its key. Returns None if the text is not a list.
fn split_list(text: &str) -> Option<(Key, &str)>
    ensures some { IfSome result (λ split.
        text.now ≡ key_name split.0 ++ (codes "=" ++ split.1.now)) }
    ensures none { IfNone result ((key : Key) (names : List ℕ) →
        text.now ≢ key_name key ++ (codes "=" ++ names)) }
{
    let (name, names) = text.split_once('=')?;
    Some((parse_key(name)?, names))
}

/// Splits names at the commas between them.
fn split_names<'a>(alloc: Global, text: &'a str) -> Result<Vec<&'a [u8]>, AllocError>
    ensures { IfOk result (λ names. bytes_of names.items ≡ listed_words text.now) }
{
    let mut names = Vec::new(alloc);
    for name in text.split(',') {
        names.push(name.as_bytes())?;
    }
    Ok(names)
}

/// Returns the name of the default configuration, if `--default` is given. Fails with BadValue if
/// none of the words begins with this name.
pub fn default_name<'a>(
    options: &ArgMatches<'a>,
    words: &[&'a str],
) -> Result<Option<&'a [u8]>, Failure<'static>>
    ensures name { IfOk result (λ name. IsDefault (texts_of words.now)
        (option_of options.now (codes "default")) (option_map (λ bytes. bytes.now) name)) }
    ensures bad { IfErr result (IsBadValue
        (IsDefault (texts_of words.now) (option_of options.now (codes "default")))) }
{
    let Some(name) = options.get_str("default") else {
        return Ok(None);
    };
    if !names_one(words, name) {
        return Err(Failure::BadValue);
    }
    Ok(Some(name.as_bytes()))
}

/// Returns whether one of these words has a name before its first colon.
fn names_one(words: &[&str], name: &str) -> bool
    ensures { result ≡ list_any (λ word. bytes_eq (name_of word.now) name.now) words.now }
{
    words.iter().any(|word| name_of_word(word) == name)
}

/// Returns what a word has before its first colon, or the word if it has none.
pub fn name_of_word(word: &str) -> &str
    ensures { result.now ≡ name_of word.now }
{
    match word.split_once(':') {
        Some((name, _)) => name,
        None => word,
    }
}
