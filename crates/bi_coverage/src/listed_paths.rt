//! The paths that a signature node records.

ghost use Rattle.std.specs.Prelude.{◌≡◌, ◌∷◌, ◌++◌, map, true, IfOk, IfSome};
ghost use Rattle.bi_fit.specs.Judgement.{listed_names};
ghost use Rattle.bi_coverage.specs.Coverage.{is_covered};
ghost use Rattle.bi_coverage.specs.Paths.{each_once};
ghost use Rattle.bi_coverage.specs.NeededParts.{part_value};
ghost use Rattle.bi_coverage.specs.Signatures.{paths_of_part, paths_of_parts};

use crate::name_set::NameSet;
use crate::needed_part::NeededPart;
use bi_fit::split_name;
use std::alloc::{AllocError, Global};

/// Returns the paths that a value lists, each once. Fails if memory runs out.
pub(crate) fn listed_paths<'a>(alloc: Global, value: &'a [u8]) -> Result<NameSet<'a>, AllocError>
    ensures { IfOk result (λ paths. paths ≡ each_once (listed_names value.entry.now)) }
{
    // A path of an image has about sixteen bytes.
    let mut paths = NameSet::new(alloc, value.len() / 16)?;
    let mut rest = value;
    while let Some((path, later)) = split_name(rest) {
        paths.add(path)?;
        rest = later;
    }
    Ok(paths)
}

/// Returns whether all paths of a part are recorded.
pub(crate) fn is_covered(recorded: &NameSet, part: &NeededPart) -> bool
    ensures { result ≡ is_covered recorded.now (part_value part.now) }
{
    if !recorded.contains(&part.path) {
        return false;
    }
    for path in &part.below {
        if !recorded.contains(path) {
            return false;
        }
    }
    true
}

/// Returns the rest of a value after a path, only if this is the first that the value lists.
fn after_path<'v>(value: &'v [u8], path: &[u8]) -> Option<&'v [u8]>
    ensures { IfSome result (λ later.
        listed_names value.now ≡ path.now ∷ listed_names later.now) }
{
    let (first, later) = split_name(value)?;
    if first != path {
        return None;
    }
    Some(later)
}

/// Returns the rest of a value after the paths of a part, only if these are the first that the
/// value lists, in order.
fn after_part<'v>(value: &'v [u8], part: &NeededPart) -> Option<&'v [u8]>
    ensures { IfSome result (λ later. listed_names value.now
        ≡ paths_of_part (part_value part.now) ++ listed_names later.now) }
{
    let mut rest = after_path(value, &part.path)?;
    for path in &part.below {
        rest = after_path(rest, path)?;
    }
    Some(rest)
}

/// Returns true only if a value lists the paths of these parts, in order, and no others.
pub(crate) fn lists_parts(value: &[u8], parts: &[NeededPart]) -> bool
    ensures { result ≡ true
        → listed_names value.now ≡ paths_of_parts (map part_value parts.now) }
{
    let mut rest = value;
    for part in parts {
        let Some(later) = after_part(rest, part) else {
            return false;
        };
        rest = later;
    }
    rest.is_empty()
}
