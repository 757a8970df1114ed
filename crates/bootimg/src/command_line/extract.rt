//! The command `extract`.

ghost use Rattle.std.specs.Prelude.{◌≡◌, Some, IfSome, IfOk, IfErr, OnOk};
ghost use Rattle.bi_fit.specs.declared.key.Key.{Key};
ghost use Rattle.bi_fit.specs.Names.{key_name};
ghost use Rattle.bi_norm.specs.Meaning.{Meaning};
ghost use Rattle.bi_commands.specs.Extracting.{choice_of};
ghost use Rattle.bootimg.specs.CommandLine.{IsFailureOutcome, IsBadValue, IsEntry, IsNameOf};
ghost use Rattle.bootimg.specs.CommandLine.{IsAllFailure, IsAllRequest, IsNoneGiven, IsSelected};
ghost use Rattle.bootimg.specs.CommandLine.{IsSelectionFailure};
ghost use Rattle.bootimg.specs.Selections.{select_of};

use crate::command_line::options::{flag, limits, number, value};
use crate::command_line::source::source;
use crate::command_line::table::KERNEL_KEY;
use crate::command_line::{ImageSource, NoRequest};
use crate::failure::Failure;
use crate::numbers::parse_number;
use bi_base::Limits;
use bi_commands::extract::Select;
use bi_commands::unshown::name_shown_as;
use bi_fit::Key;
use clap::ArgMatches;
use std::alloc::Global;

/// What is to be extracted: a `Select` that owns its name.
#[derive(Drop)]
pub enum Selected {
    /// The part of this index, counted from 0, of a legacy image.
    Part(u32),
    /// The payload of the image of this name of a flattened image tree.
    Image(Vec<u8>),
    /// A payload that a configuration of a flattened image tree lists: by the name of the
    /// configuration, the key, and the index, counted from 0, in what it lists under the key.
    Config(Vec<u8>, Key, u32),
    /// The same of the default configuration.
    Default(Key, u32),
}

/// What `extract --all` is to do: extract every payload of an image into a new directory.
#[derive(Clone, Copy)]
pub struct AllRequest<'a> {
    /// The name of the directory.
    pub directory: &'a str,
    /// Where the image begins in the input: an offset in bytes.
    pub offset: u32,
    /// Where the input is read from.
    pub source: ImageSource<'a>,
    /// The limits for what is read, and for all payloads together.
    pub limits: Limits,
}

impl Selected {
    /// Returns the selection as the library takes it.
    pub fn select(&self) -> Select<'_>
        ensures { (meaning : Meaning) → choice_of result meaning
            ≡ choice_of (select_of self.now) meaning }
    {
        match self {
            Selected::Part(index) => Select::Part(*index),
            Selected::Image(name) => Select::Image(name),
            Selected::Config(name, key, index) => Select::Config(name, *key, *index),
            Selected::Default(key, index) => Select::Default(*key, *index),
        }
    }
}

/// Returns the selection that the options give. Fails with NoSelection if there is not exactly one,
/// else with BadValue for the value of any of the options, or with OutOfMemory. The key and the
/// index have no effect on a part or an image, and `--escaped` has none without a name.
pub fn selection(alloc: Global, options: &ArgMatches<'_>) -> Result<Selected, NoRequest>
    ensures selection { IfOk result (IsSelected options.now) }
    ensures failure { IfErr result (IsFailureOutcome (IsSelectionFailure options.now)) }
{
    let part = options.get_str("part");
    let image = options.get_str("image");
    let config = options.get_str("config");
    let default = flag(options, "default");
    let escaped = flag(options, "escaped");
    let entry = entry(options);
    match (part, image, config, default) {
        (Some(argument), None, None, false) => {
            entry?;
            let index = parse_number(argument).ok_or(Failure::BadValue)?;
            Ok(Selected::Part(index))
        }
        (None, Some(argument), None, false) => {
            entry?;
            Ok(Selected::Image(name(alloc, argument, escaped)?))
        }
        (None, None, Some(argument), false) => {
            let (key, index) = entry?;
            Ok(Selected::Config(name(alloc, argument, escaped)?, key, index))
        }
        (None, None, None, true) => {
            let (key, index) = entry?;
            Ok(Selected::Default(key, index))
        }
        _ => Err(NoRequest::Failure(Failure::NoSelection)),
    }
}

/// Returns what the options of `extract --all` request. Fails with NoSelection if something else is
/// selected, too, or else with BadValue for the value of any of the options, or if no output is
/// named. The key and the index have no effect.
pub fn all_request<'a>(options: &ArgMatches<'a>) -> Result<AllRequest<'a>, Failure<'static>>
    ensures request { IfOk result (IsAllRequest options.now) }
    ensures none { OnOk result (IsNoneGiven options.now) }
    ensures failure { IfErr result (IsAllFailure options.now) }
{
    let part = options.get_str("part");
    let image = options.get_str("image");
    let config = options.get_str("config");
    let default = flag(options, "default");
    match (part, image, config, default) {
        (None, None, None, false) => all_values(options),
        _ => Err(Failure::NoSelection),
    }
}

/// Returns what the values of the options of `extract --all` request. Fails with BadValue.
fn all_values<'a>(options: &ArgMatches<'a>) -> Result<AllRequest<'a>, Failure<'static>>
    ensures request { IfOk result (IsAllRequest options.now) }
    ensures bad { IfErr result (IsBadValue (IsAllRequest options.now)) }
{
    entry(options)?;
    let directory = options.get_str("output").ok_or(Failure::BadValue)?;
    let offset = number(options, "offset")?;
    let limits = limits(options)?;
    Ok(AllRequest {
        directory,
        offset,
        source: source(options, "file"),
        limits,
    })
}

/// Returns the name that the argument is, or the one that is printed as the argument if it is
/// escaped. Fails with BadValue if there is none, or with OutOfMemory.
fn name(alloc: Global, argument: &str, escaped: bool) -> Result<Vec<u8>, NoRequest>
    ensures name { IfOk result (λ name. IsNameOf escaped argument.now name.items) }
    ensures failure { IfErr result (IsFailureOutcome (IsBadValue (IsNameOf escaped argument.now))) }
{
    if !escaped {
        return Ok(Vec::from_slice(alloc, argument.as_bytes())?);
    }
    match name_shown_as(alloc, argument.as_bytes()) {
        Ok(Some(name)) => Ok(name),
        Ok(None) => Err(NoRequest::Failure(Failure::BadValue)),
        Err(error) => Err(NoRequest::Failure(Failure::Call(error))),
    }
}

/// Returns the key and the index that the options give. Fails with BadValue.
fn entry(options: &ArgMatches<'_>) -> Result<(Key, u32), Failure<'static>>
    ensures entry { IfOk result (IsEntry options.now) }
    ensures bad { IfErr result (IsBadValue (IsEntry options.now)) }
{
    let key = parse_key(value(options, "key", KERNEL_KEY)).ok_or(Failure::BadValue)?;
    Ok((key, number(options, "index")?))
}

/// Parses the name of a key. Returns None exactly for any other text.
pub fn parse_key(name: &str) -> Option<Key>
    ensures some { IfSome result (λ key. name.now ≡ key_name key) }
    ensures exactly { (key : Key) → name.now ≡ key_name key → result ≡ Some key }
{
    match name {
        "kernel" => Some(Key::Kernel),
        "fdt" => Some(Key::Fdt),
        "ramdisk" => Some(Key::Ramdisk),
        "firmware" => Some(Key::Firmware),
        "loadables" => Some(Key::Loadables),
        "script" => Some(Key::Script),
        _ => None,
    }
}
