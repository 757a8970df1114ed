//! What the words of options and arguments have to be.

ghost use Rattle.std.specs.Prelude.{◌≡◌, ◌↔◌, IfOk, IsTrue, List, map};
ghost use Rattle.bi_common.specs.MadeFields.{bytes_of_names};
ghost use Rattle.bi_describe.specs.IgnoredWords.{AreWordsOfValues};
ghost use Rattle.bi_describe.specs.Ignoring.{Ignored as IgnoredModel};
ghost use Rattle.bootimg.specs.TakenWords.{IsTaken, names_taken};
ghost use Rattle.bootimg.specs.TakenWords.{words_after_names, words_before_names};
ghost use Rattle.bootimg.specs.declared.command_line.takes.Takes.TheVariants.{Algorithms, Removal};
ghost use Rattle.bootimg.specs.declared.command_line.takes.Takes.TheVariants.{Configuration};
ghost use Rattle.bootimg.specs.declared.command_line.takes.Takes.TheVariants.{LeftOut};
ghost use Rattle.bootimg.specs.declared.command_line.takes.Takes.TheVariants.{NewPayload, NewValue};

use crate::codes::{CodeField, names_of_field, parse_code};
use crate::command_line::NoRequest;
use crate::command_line::allowed::parse_allowed;
use crate::command_line::configurations::parse_configuration;
use crate::command_line::edits::parse_set_word;
use crate::command_line::explain::parse_topic;
use crate::command_line::extract::parse_key;
use crate::command_line::get::parse_form;
use crate::command_line::hashes::parse_hashes;
use crate::command_line::image::parse_address;
use crate::command_line::options::{parse_align, parse_limits};
use crate::command_line::part::parse_part;
use crate::command_line::texts::parse_text;
use crate::failure::Failure;
use crate::numbers::parse_number;
use bi_commands::ignored::{Ignored, IgnoredError};
use bi_edit::words::{parse_payload, parse_removal};
use std::alloc::{AllocError, Global};

/// Which words an option or an argument takes.
#[derive(Clone, Copy)]
pub enum Takes {
    /// Any word, or one that cannot be judged by itself.
    Anything,
    /// A number.
    Number,
    /// A limit on the bytes of an image.
    Limit,
    /// An alignment.
    Alignment,
    /// An address, or `-` for none.
    Address,
    /// The length of a part, or `@FILE`.
    Part,
    /// A code of this field of a header.
    Code(CodeField),
    /// The key of a list of a configuration.
    Key,
    /// A form of values.
    ValueForm,
    /// Kinds of concerns, with a comma between each two.
    Kinds,
    /// Algorithms of hash nodes, with a comma between each two, or none.
    Algorithms,
    /// What `explain` can explain.
    Topic,
    /// What is to be removed.
    Removal,
    /// A new value of a property or a field.
    NewValue,
    /// A new payload.
    NewPayload,
    /// What is left out of two images.
    LeftOut,
    /// A configuration.
    Configuration,
    /// A text for one image or one configuration.
    OwnText,
}

/// Where a word stands.
#[derive(Clone, Copy)]
pub enum Place {
    /// After the option of this name, without `--`.
    Option(&'static str),
    /// Where the usage has an argument of this name.
    Argument(&'static str),
    /// In this field of the image word at this index, counted from 0.
    Field(usize, &'static str),
}

/// The keys of lists.
static KEYS: [&str; 6] = [
    "kernel",
    "fdt",
    "ramdisk",
    "firmware",
    "loadables",
    "script",
];

/// The forms of values.
static VALUE_FORMS: [&str; 3] = ["text", "number", "raw"];

/// The kinds of concerns.
static KINDS: [&str; 15] = [
    "bad-hash",
    "skipped-hash",
    "unhashed",
    "weak-hash",
    "bad-list",
    "missing",
    "unsigned",
    "no-nodes",
    "no-images",
    "uncovered",
    "foreign",
    "strings",
    "unit-address",
    "bad-default",
    "trailing",
];

/// The algorithms of hash nodes.
static ALGORITHMS: [&str; 6] = ["crc32", "md5", "sha1", "sha256", "sha384", "sha512"];

impl Takes {
    /// Returns whether this word is taken.
    pub fn takes(self, alloc: Global, word: &str) -> Result<bool, AllocError>
        ensures { IfOk result (λ is_taken. IsTrue is_taken ↔ IsTaken self word.now) }
    {
        match self {
            Takes::Anything => Ok(true),
            Takes::Number => Ok(parse_number(word).is_some()),
            Takes::Limit => Ok(parse_limits(word).is_some()),
            Takes::Alignment => Ok(parse_align(word).is_some()),
            Takes::Address => Ok(parse_address(word).is_some()),
            Takes::Part => Ok(parse_part(word).is_some()),
            Takes::Code(field) => Ok(parse_code(field, word).is_some()),
            Takes::Key => Ok(parse_key(word).is_some()),
            Takes::ValueForm => Ok(parse_form(Some(word)).is_some()),
            Takes::Kinds => Ok(parse_allowed(word).is_some()),
            Takes::Algorithms => are_algorithms(alloc, word),
            Takes::Topic => Ok(parse_topic(word).is_some()),
            Takes::Removal => is_removal(alloc, word),
            Takes::NewValue => is_new_value(alloc, word),
            Takes::NewPayload => is_new_payload(alloc, word),
            Takes::LeftOut => is_left_out(alloc, word),
            Takes::Configuration => is_configuration(alloc, word),
            Takes::OwnText => Ok(parse_text(word).is_some()),
        }
    }

    /// Returns the names that are taken, if only names are, or names among other words.
    pub fn names(self) -> &'static [&'static str]
        ensures { map (λ name. name.now) result.now ≡ names_taken self }
    {
        match self {
            Takes::Code(field) => names_of_field(field),
            Takes::Key => &KEYS,
            Takes::ValueForm => &VALUE_FORMS,
            Takes::Kinds => &KINDS,
            Takes::Algorithms => &ALGORITHMS,
            _ => &[],
        }
    }

    /// Returns what is said of the words that are taken, before their names.
    pub fn before_names(self) -> &'static str
        ensures { result.now ≡ words_before_names self }
    {
        match self {
            Takes::Anything => "any word",
            Takes::Number => "a number below 2^32: decimal, or hexadecimal with 0x",
            Takes::Limit => "a number from 64 to 2147483647",
            Takes::Alignment => "a power of two from 4 to 1048576",
            Takes::Address => "an address, or - for none",
            Takes::Part => "a length in bytes, and a file is given as @",
            Takes::Code(_) | Takes::Key | Takes::ValueForm => "one of ",
            Takes::Kinds => "a comma-separated list of ",
            Takes::Algorithms => "none, or a comma-separated list without repetition of ",
            Takes::Topic => "a name that bootimg explain prints, or a line of bootimg",
            Takes::Removal => "the PATH of a node, or 'PATH NAME' of a property",
            Takes::NewValue => "'PATH NAME', 'PATH NAME VALUE' or 'FIELD VALUE'",
            Takes::NewPayload => "IMAGE=@FILE",
            Takes::LeftOut => "time, signatures, a PATH, or 'PATH NAME' of a property",
            Takes::Configuration => "NAME:KEY=IMAGE, a new NAME and names of images that are built",
            Takes::OwnText => "NAME:TEXT, the NAME of what the TEXT is for",
        }
    }

    /// Returns what is said of them after their names.
    pub fn after_names(self) -> &'static str
        ensures { result.now ≡ words_after_names self }
    {
        match self {
            Takes::Code(_) => ", or a number of at most 255",
            _ => "",
        }
    }
}

/// Returns whether a word gives algorithms of hash nodes.
fn are_algorithms(alloc: Global, word: &str) -> Result<bool, AllocError>
    ensures { IfOk result (λ is_taken. IsTrue is_taken ↔ IsTaken Algorithms word.now) }
{
    match parse_hashes(alloc, word) {
        Ok(_) => Ok(true),
        Err(NoRequest::Failure(Failure::BadValue)) => Ok(false),
        Err(_) => Err(AllocError),
    }
}

/// Returns whether a word is for a removal.
fn is_removal(alloc: Global, word: &str) -> Result<bool, AllocError>
    ensures { IfOk result (λ is_taken. IsTrue is_taken ↔ IsTaken Removal word.now) }
{
    match parse_removal(alloc, word.as_bytes()) {
        Ok(found) => Ok(found.is_some()),
        Err(_) => Err(AllocError),
    }
}

/// Returns whether a word is for a new value of a property or a field.
fn is_new_value(alloc: Global, word: &str) -> Result<bool, AllocError>
    ensures { IfOk result (λ is_taken. IsTrue is_taken ↔ IsTaken NewValue word.now) }
{
    match parse_set_word(alloc, word) {
        Ok(found) => Ok(found.is_some()),
        Err(_) => Err(AllocError),
    }
}

/// Returns whether a word is for a new payload.
fn is_new_payload(alloc: Global, word: &str) -> Result<bool, AllocError>
    ensures { IfOk result (λ is_taken. IsTrue is_taken ↔ IsTaken NewPayload word.now) }
{
    match parse_payload(alloc, word) {
        Ok(found) => Ok(found.is_some()),
        Err(_) => Err(AllocError),
    }
}

/// Returns whether a word is for what is left out of two images.
fn is_left_out(alloc: Global, word: &str) -> Result<bool, AllocError>
    ensures { IfOk result (λ is_taken. IsTrue is_taken ↔ IsTaken LeftOut word.now) }
{
    are_left_out(alloc, &[word.as_bytes()])
}

/// Returns whether values are for what is left out of two images.
fn are_left_out(alloc: Global, values: &[&[u8]]) -> Result<bool, AllocError>
    ensures { IfOk result (λ are. IsTrue are ↔ ((words : List IgnoredModel)
        × AreWordsOfValues (bytes_of_names values.now) words)) }
{
    match Ignored::parse_all(alloc, values) {
        Ok(_words) => Ok(true),
        Err(IgnoredError::BadValue(_)) => Ok(false),
        Err(IgnoredError::OutOfMemory) => Err(AllocError),
    }
}

/// Returns whether a word is a configuration.
fn is_configuration(alloc: Global, word: &str) -> Result<bool, AllocError>
    ensures { IfOk result (λ is_taken. IsTrue is_taken ↔ IsTaken Configuration word.now) }
{
    match parse_configuration(alloc, word, Failure::BadValue) {
        Ok(_) => Ok(true),
        Err(NoRequest::Failure(Failure::BadValue)) => Ok(false),
        Err(_) => Err(AllocError),
    }
}
