//! The word that an option, an argument or a field of an image word does not take.

ghost use Rattle.std.specs.Prelude.{◌≡◌, IfNone, IfOk, IfSome, codes, map, option_map, slice_get};
ghost use Rattle.bootimg.specs.CommandLine.{NoneIs, texts_of, values_of};
ghost use Rattle.bootimg.specs.RefusedWords.{FindsField, FindsFirst, FindsReason, FindsRefused};
ghost use Rattle.bootimg.specs.RefusedWords.{FindsRefusedWord, HasFields, all_option_words};
ghost use Rattle.bootimg.specs.RefusedWords.{configuration_given, field_given};
ghost use Rattle.bootimg.specs.RefusedWords.{fields_given, first_near, given_word, near_name};
ghost use Rattle.bootimg.specs.RefusedWords.{refused_model, option_text_model, words_given};
ghost use Rattle.bootimg.specs.RefusedWords.{taking_options as all_taking_options};
ghost use Rattle.bootimg.specs.RefusedWords.{with_near as with_near_of};

use crate::codes::CodeField;
use crate::command_line::image::{ImageFields, split_image};
use crate::command_line::options::all_values;
use crate::command_line::table::{OptionText, TAKING_OPTIONS, program};
use crate::command_line::takes::{Place, Takes};
use crate::failure::Failure;
use clap::ArgMatches;
use std::alloc::{AllocError, Global};
use strsim::levenshtein;

/// A word that is not taken where it stands.
#[derive(Clone, Copy)]
pub struct RefusedWord<'a> {
    /// Where it stands.
    pub place: Place,
    /// What is taken there.
    pub takes: Takes,
    /// The word.
    pub word: &'a str,
    /// A name that is taken there and is near the word, if there is one.
    pub near: Option<&'static str>,
}

/// A word with its place.
#[derive(Clone, Copy)]
struct GivenWord<'a> {
    place: Place,
    takes: Takes,
    word: &'a str,
}

/// Returns the word that is the reason for a failure of these arguments, which are without the
/// program's own name: for BadValue the first word that its option or argument does not take, and
/// for BadImage the first field of the image word that is not taken, for BadConfiguration the word
/// of the configuration. Returns None if there is none.
/// Fails if memory runs out.
pub fn refused_word<'a>(
    alloc: Global,
    arguments: &'a [&'a str],
    failure: Failure<'static>,
) -> Result<Option<RefusedWord<'a>>, AllocError>
    ensures { IfOk result (λ refused. FindsRefusedWord (texts_of arguments.entry.now)
        failure.entry (option_map refused_model refused)) }
{
    match program(alloc)?.try_get_matches_from(arguments) {
        Ok(matches) => match matches.subcommand() {
            Some((_, options)) => refused_by_options(alloc, options, failure),
            None => Err(AllocError),
        },
        Err(_) => Err(AllocError),
    }
}

/// Returns the word that is the reason for a failure of these options, as `refused_word` does.
fn refused_by_options<'a>(
    alloc: Global,
    options: &ArgMatches<'a>,
    failure: Failure<'static>,
) -> Result<Option<RefusedWord<'a>>, AllocError>
    ensures { IfOk result (λ refused. FindsRefused options.now failure.entry
        (option_map refused_model refused)) }
{
    let given = reason(alloc, options, failure)?;
    with_near(alloc, given)
}

/// Returns the word that is the reason for a failure of these options.
fn reason<'a>(
    alloc: Global,
    options: &ArgMatches<'a>,
    failure: Failure<'static>,
) -> Result<Option<GivenWord<'a>>, AllocError>
    ensures { IfOk result (λ found. FindsReason options.now failure.entry
        (option_map given_word found)) }
{
    match failure {
        Failure::BadValue => refused_value(alloc, options),
        Failure::BadImage(index) => refused_field(alloc, options, index),
        Failure::BadConfiguration(index) => Ok(configuration_at(options, index)),
        _ => Ok(None),
    }
}

/// Adds the name that is near a word.
fn with_near<'a>(
    alloc: Global,
    given: Option<GivenWord<'a>>,
) -> Result<Option<RefusedWord<'a>>, AllocError>
    ensures { IfOk result (λ refused. option_map refused_model refused
        ≡ option_map with_near_of (option_map given_word given.entry)) }
{
    let Some(given) = given else {
        return Ok(None);
    };
    let near = nearest(alloc, given.takes.names(), given.word)?;
    Ok(Some(RefusedWord {
        place: given.place,
        takes: given.takes,
        word: given.word,
        near,
    }))
}

/// Returns the first word that one of the options or arguments does not take, in the order of
/// `TAKING_OPTIONS`.
fn refused_value<'a>(
    alloc: Global,
    options: &ArgMatches<'a>,
) -> Result<Option<GivenWord<'a>>, AllocError>
    ensures { IfOk result (λ found. FindsFirst (all_option_words (values_of options.now))
        (option_map given_word found)) }
{
    let table = taking_options();
    for option in table {
        let words = all_values(options, option.name);
        let found = refused_of(alloc, option, words)?;
        if found.is_some() {
            return Ok(found);
        }
    }
    Ok(None)
}

/// Returns the options and arguments whose words can be judged one by one.
fn taking_options() -> &'static [OptionText]
    ensures { map option_text_model result.now ≡ all_taking_options }
{
    &TAKING_OPTIONS
}

/// Returns the first of these words that an option does not take.
fn refused_of<'a>(
    alloc: Global,
    option: &OptionText,
    words: &[&'a str],
) -> Result<Option<GivenWord<'a>>, AllocError>
    ensures { IfOk result (λ found. FindsFirst
        (words_given (option_text_model option.now) (texts_of words.now))
        (option_map given_word found)) }
{
    for word in words {
        if !option.takes.takes(alloc, word)? {
            return Ok(Some(GivenWord {
                place: option.place(),
                takes: option.takes,
                word,
            }));
        }
    }
    Ok(None)
}

/// Returns the word of the configuration at this index, if there is one.
fn configuration_at<'a>(options: &ArgMatches<'a>, index: usize) -> Option<GivenWord<'a>>
    ensures { option_map given_word result ≡ option_map configuration_given
        (slice_get (values_of options.now (codes "config")) index) }
{
    let word = all_values(options, "config").get(index)?;
    Some(GivenWord {
        place: Place::Option("config"),
        takes: Takes::Configuration,
        word,
    })
}

/// Returns the first field of the image word at this index that is not taken. Returns None if the
/// word does not have the fields of an image.
fn refused_field<'a>(
    alloc: Global,
    options: &ArgMatches<'a>,
    index: usize,
) -> Result<Option<GivenWord<'a>>, AllocError>
    ensures { IfOk result (λ found. FindsField options.now index
        (option_map given_word found)) }
{
    match image_fields(options, index) {
        Some(fields) => first_refused(alloc, &given_fields(fields, index)),
        None => Ok(None),
    }
}

/// Returns the fields of the image word at this index. Returns None if there is no such word, or it
/// does not have the fields of an image.
fn image_fields<'a>(options: &ArgMatches<'a>, index: usize) -> Option<ImageFields<'a>>
    ensures some { IfSome result (HasFields options.now index) }
    ensures none { IfNone result (NoneIs (HasFields options.now index)) }
{
    let argument = all_values(options, "images").get(index)?;
    split_image(argument)
}

/// Returns the first of these words that is not taken where it stands.
fn first_refused<'a>(
    alloc: Global,
    words: &[GivenWord<'a>],
) -> Result<Option<GivenWord<'a>>, AllocError>
    ensures { IfOk result (λ found. FindsFirst (map given_word words.now)
        (option_map given_word found)) }
{
    for given in words {
        if !given.takes.takes(alloc, given.word)? {
            return Ok(Some(*given));
        }
    }
    Ok(None)
}

/// Returns the fields of an image word with this index, without its name, which may be any word.
fn given_fields<'a>(fields: ImageFields<'a>, index: usize) -> [GivenWord<'a>; 7]
    ensures { map given_word result ≡ fields_given fields.entry index }
{
    [
        field(
            index,
            "TYPE",
            Takes::Code(CodeField::ImageType),
            fields.image_type,
        ),
        field(index, "ARCH", Takes::Code(CodeField::Arch), fields.arch),
        field(index, "OS", Takes::Code(CodeField::Os), fields.os),
        field(
            index,
            "COMPRESSION",
            Takes::Code(CodeField::Compression),
            fields.compression,
        ),
        field(index, "LOAD", Takes::Address, fields.load),
        field(index, "ENTRY", Takes::Address, fields.entry),
        field(index, "LEN", Takes::Part, fields.length),
    ]
}

/// Returns a field of the image word at this index.
fn field<'a>(index: usize, name: &'static str, takes: Takes, word: &'a str) -> GivenWord<'a>
    ensures { given_word result ≡ field_given index name.now takes word.now }
{
    GivenWord {
        place: Place::Field(index, name),
        takes,
        word,
    }
}

/// Returns the first of these names that is near a word: the first that one edit makes of it, or
/// else the first that two edits make of it.
fn nearest(
    alloc: Global,
    names: &'static [&'static str],
    word: &str,
) -> Result<Option<&'static str>, AllocError>
    ensures { IfOk result (λ near. option_map (λ name. name.now) near
        ≡ near_name (texts_of names.now) word.now) }
{
    match first_within(alloc, names, word, 1)? {
        Some(name) => Ok(Some(name)),
        None => first_within(alloc, names, word, 2),
    }
}

/// Returns the first of these names that at most so many edits make of a word.
fn first_within(
    alloc: Global,
    names: &'static [&'static str],
    word: &str,
    most: usize,
) -> Result<Option<&'static str>, AllocError>
    ensures { IfOk result (λ near. option_map (λ name. name.now) near
        ≡ first_near most (texts_of names.now) word.now) }
{
    for name in names {
        if levenshtein(alloc, word, name)? <= most {
            return Ok(Some(name));
        }
    }
    Ok(None)
}
