//! The option `--ignore` of the command `compare`.

ghost use Rattle.std.specs.Prelude.{IfErr, IfOk};
ghost use Rattle.bi_describe.specs.MadeWords.{ignored_words as words_of};
ghost use Rattle.bootimg.specs.CommandLine.{IsBadValue, IsFailureOutcome, IsIgnored};

use crate::command_line::NoRequest;
use crate::command_line::get::bytes_of_words;
use crate::command_line::options::all_values;
use crate::failure::Failure;
use bi_base::Error;
use bi_commands::ignored::{Ignored, IgnoredError};
use clap::ArgMatches;
use std::alloc::Global;

/// Returns what the options leave out of both images: nothing without `--ignore`. Fails with
/// BadValue if one of its values is for no words, or with OutOfMemory.
pub fn ignored_words(alloc: Global, options: &ArgMatches<'_>) -> Result<Vec<Ignored>, NoRequest>
    ensures words { IfOk result (λ words. IsIgnored options.now (words_of words.items)) }
    ensures failure { IfErr result (IsFailureOutcome (IsBadValue (IsIgnored options.now))) }
{
    let values = bytes_of_words(alloc, all_values(options, "ignore"))?;
    match Ignored::parse_all(alloc, &values) {
        Ok(words) => Ok(words),
        Err(IgnoredError::BadValue(_)) => Err(NoRequest::Failure(Failure::BadValue)),
        Err(IgnoredError::OutOfMemory) => {
            Err(NoRequest::Failure(Failure::Call(Error::OutOfMemory)))
        }
    }
}
