//! The option `--hash` of `build-fit`.

ghost use Rattle.std.specs.Prelude.{◌≡◌, codes, bytes_eq, IfOk, IfErr};
ghost use Rattle.std.specs.List.{list_any};
ghost use Rattle.bi_hash.specs.Algos.{algorithm_name};
ghost use Rattle.bootimg.specs.CommandLine.{option_of, IsBadValue, IsFailureOutcome};
ghost use Rattle.bootimg.specs.ConfigurationWords.{AreAlgorithms, AreHashes, AreHashesOf};
ghost use Rattle.bootimg.specs.Words.{listed_words};

use crate::command_line::NoRequest;
use crate::failure::Failure;
use bi_hash::Algo;
use clap::ArgMatches;
use std::alloc::Global;

/// Returns the algorithms of the hash nodes of each image: SHA-256 without `--hash`, and none for
/// `none`. Fails with BadValue if another value does not list names of algorithms, each once, or
/// with OutOfMemory.
pub fn algorithms(alloc: Global, options: &ArgMatches<'_>) -> Result<Vec<Algo>, NoRequest>
    ensures algorithms { IfOk result (λ algorithms.
        AreHashes (option_of options.now (codes "hash")) algorithms.items) }
    ensures failure { IfErr result (IsFailureOutcome
        (IsBadValue (AreHashes (option_of options.now (codes "hash"))))) }
{
    match options.get_str("hash") {
        None => Ok(Vec::from_slice(alloc, &[Algo::Sha256])?),
        Some(text) => parse_hashes(alloc, text),
    }
}

/// Parses `none`, or names of algorithms. Fails as `parse_algorithms` does.
pub fn parse_hashes(alloc: Global, text: &str) -> Result<Vec<Algo>, NoRequest>
    ensures algorithms { IfOk result (λ algorithms. AreHashesOf text.now algorithms.items) }
    ensures failure { IfErr result (IsFailureOutcome (IsBadValue (AreHashesOf text.now))) }
{
    if text == "none" {
        return Ok(Vec::new(alloc));
    }
    parse_algorithms(alloc, text)
}

/// Parses names of algorithms, with a comma between each two. Fails with BadValue at a text that is
/// none, or that is there twice, or with OutOfMemory.
fn parse_algorithms(alloc: Global, text: &str) -> Result<Vec<Algo>, NoRequest>
    ensures algorithms { IfOk result (λ algorithms.
        AreAlgorithms (listed_words text.now) algorithms.items) }
    ensures failure { IfErr result (IsFailureOutcome
        (IsBadValue (AreAlgorithms (listed_words text.now)))) }
{
    let mut algorithms = Vec::new(alloc);
    for name in text.split(',') {
        let algorithm = Algo::from_name(name.as_bytes()).ok_or(Failure::BadValue)?;
        if has_name(&algorithms, name) {
            return Err(NoRequest::Failure(Failure::BadValue));
        }
        algorithms.push(algorithm)?;
    }
    Ok(algorithms)
}

/// Returns whether one of these algorithms has a name.
fn has_name(algorithms: &[Algo], name: &str) -> bool
    ensures { result
        ≡ list_any (λ algorithm. bytes_eq (algorithm_name algorithm) name.now) algorithms.now }
{
    algorithms.iter().any(|algorithm| algorithm.name() == name)
}
