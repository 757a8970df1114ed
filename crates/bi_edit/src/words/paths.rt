//! Paths as they are printed.

ghost use Rattle.std.specs.Prelude.{◌≡◌, ℕ, List, IfOk, IfErr, IfSome, IfNone};
ghost use Rattle.bi_base.specs.declared.fault.Error.TheVariants.{OutOfMemory};
ghost use Rattle.bi_edit.specs.EditWords.{ArePathNamesIn, IsPathWord};
ghost use Rattle.bi_edit.specs.Places.{names_of_path};

use crate::places::{MOST_NAMES, NodePath};
use crate::words::cut::cut;
use crate::words::names::child_name;
use bi_base::Error;
use std::alloc::Global;

/// Returns the path of a node that is printed as this text: `/` for the root, and for any other
/// node `/` and the printed name of each node from a child of the root down to it. Returns None if
/// there is none.
///
/// Fails only with OutOfMemory.
pub fn node_path(alloc: Global, text: &[u8]) -> Result<Option<NodePath>, Error>
    ensures some { IfOk result (λ found. IfSome found (λ path. IsPathWord text.now path)) }
    ensures none { IfOk result (λ found. IfNone found
        ((names : List (List ℕ)) → IsPathWord text.now names → ⊥)) }
    ensures failed { IfErr result (λ error. error ≡ OutOfMemory) }
{
    match text {
        [b'/'] => Ok(NodePath::new(Vec::new(alloc))),
        [b'/', rest @ ..] => match names_in(alloc, rest)? {
            Some(names) => Ok(NodePath::new(names)),
            None => Ok(None),
        },
        _ => Ok(None),
    }
}

/// Returns the names that are printed in a text with a slash between each two. Returns None if
/// there are none, or more than 63. Fails only with OutOfMemory.
fn names_in(alloc: Global, text: &[u8]) -> Result<Option<Vec<Vec<u8>>>, Error>
    ensures some { IfOk result (λ found. IfSome found
        (λ names. ArePathNamesIn text.now (names_of_path names.items))) }
    ensures none { IfOk result (λ found. IfNone found
        ((names : List (List ℕ)) → ArePathNamesIn text.now names → ⊥)) }
    ensures failed { IfErr result (λ error. error ≡ OutOfMemory) }
{
    let mut names = Vec::new(alloc);
    let mut left = Some(text);
    while let Some(rest) = left {
        let (shown, later) = cut(rest, b'/');
        let Some(name) = child_name(alloc, shown)? else {
            return Ok(None);
        };
        if names.len() == MOST_NAMES {
            return Ok(None);
        }
        names.push(name)?;
        left = later;
    }
    Ok(Some(names))
}
