//! The options `--allow` and `--signed` of the command `check`.

ghost use Rattle.std.specs.Prelude.{◌≡◌, ◌↔◌, ◌⊎◌, IfOk, IfErr, IfSome, IfNone, IsTrue, Some};
ghost use Rattle.bi_report.specs.Checking.{allows, kind_word};
ghost use Rattle.bootimg.specs.CommandLine.{allow_option, IsAllowed, IsAllowedBy};
ghost use Rattle.bootimg.specs.Words.{listed_words};
ghost use Rattle.bootimg.specs.CommandLine.{IsBadValue, IsPolicy, NoneIs};

use crate::command_line::options::flag;
use crate::failure::Failure;
use bi_commands::check::{Allowed, ConcernKind, Policy};
use clap::ArgMatches;

/// Returns what the options ask of an image, and what they do not. Fails with BadValue if a word of
/// the value of `--allow` is not that for a kind.
pub fn policy(options: &ArgMatches<'_>) -> Result<Policy, Failure<'static>>
    ensures value { IfOk result (IsPolicy options.now) }
    ensures bad { IfErr result (IsBadValue (IsAllowedBy (allow_option options.now))) }
{
    Ok(Policy {
        allowed: allowed_kinds(options)?,
        signed: flag(options, "signed"),
    })
}

/// Returns the kinds of concerns that the options allow: none without `--allow`. Fails with
/// BadValue if a word of its value is not that for a kind.
fn allowed_kinds(options: &ArgMatches<'_>) -> Result<Allowed, Failure<'static>>
    ensures value { IfOk result (IsAllowedBy (allow_option options.now)) }
    ensures bad { IfErr result (IsBadValue (IsAllowedBy (allow_option options.now))) }
{
    match options.get_str("allow") {
        None => Ok(Allowed::default()),
        Some(text) => parse_allowed(text).ok_or(Failure::BadValue),
    }
}

/// Parses words for kinds of concerns, with a comma between each two. Returns None if one of them
/// is not that for a kind.
pub fn parse_allowed(text: &str) -> Option<Allowed>
    ensures some { IfSome result (IsAllowed (listed_words text.now)) }
    ensures none { IfNone result (NoneIs (IsAllowed (listed_words text.now))) }
{
    let mut allowed = Allowed::default();
    for word in text.split(',') {
        allow(&mut allowed, parse_kind(word)?);
    }
    Some(allowed)
}

/// Parses the word for a kind. Returns None exactly for any other text.
pub fn parse_kind(word: &str) -> Option<ConcernKind>
    ensures some { IfSome result (λ kind. word.now ≡ kind_word kind) }
    ensures exactly { (kind : ConcernKind) → word.now ≡ kind_word kind → result ≡ Some kind }
{
    match word {
        "bad-hash" => Some(ConcernKind::BadHash),
        "skipped-hash" => Some(ConcernKind::SkippedHash),
        "unhashed" => Some(ConcernKind::Unhashed),
        "weak-hash" => Some(ConcernKind::WeakHash),
        "bad-list" => Some(ConcernKind::BadList),
        "missing" => Some(ConcernKind::Missing),
        "unsigned" => Some(ConcernKind::Unsigned),
        "no-nodes" => Some(ConcernKind::NoNodes),
        "no-images" => Some(ConcernKind::NoImages),
        "uncovered" => Some(ConcernKind::Uncovered),
        "foreign" => Some(ConcernKind::Foreign),
        "strings" => Some(ConcernKind::Strings),
        "unit-address" => Some(ConcernKind::UnitAddress),
        "bad-default" => Some(ConcernKind::BadDefault),
        "trailing" => Some(ConcernKind::Trailing),
        _ => None,
    }
}

/// Allows one more kind.
fn allow(allowed: &mut Allowed, kind: ConcernKind)
    ensures { (other : ConcernKind) → IsTrue (allows allowed.new other)
        ↔ (IsTrue (allows allowed.old other) ⊎ (other ≡ kind)) }
{
    match kind {
        ConcernKind::BadHash => allowed.bad_hash = true,
        ConcernKind::SkippedHash => allowed.skipped_hash = true,
        ConcernKind::Unhashed => allowed.unhashed = true,
        ConcernKind::WeakHash => allowed.weak_hash = true,
        ConcernKind::BadList => allowed.bad_list = true,
        ConcernKind::Missing => allowed.missing = true,
        ConcernKind::Unsigned => allowed.unsigned = true,
        ConcernKind::NoNodes => allowed.no_nodes = true,
        ConcernKind::NoImages => allowed.no_images = true,
        ConcernKind::Uncovered => allowed.uncovered = true,
        ConcernKind::Foreign => allowed.foreign = true,
        ConcernKind::Strings => allowed.strings = true,
        ConcernKind::UnitAddress => allowed.unit_address = true,
        ConcernKind::BadDefault => allowed.bad_default = true,
        ConcernKind::Trailing => allowed.trailing = true,
    }
}
