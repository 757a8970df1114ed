//! The nodes of a devicetree that stay.

ghost use Rattle.std.specs.Prelude.{◌≡◌, ◌↔◌, IfOk, IsTrue};
ghost use Rattle.bi_describe.specs.MadeInsides.{entries_inside, entries_that_stay};
ghost use Rattle.bi_describe.specs.MadeWords.{ignored_words};

use super::InsideNodes;
use crate::describe::kept::{are_same_entries, kept_root};
use crate::ignored::Ignored;
use std::alloc::{AllocError, Global};

/// Returns the nodes that stay once these words are left out, unless the root is left out.
///
/// Fails only if memory runs out.
pub(super) fn nodes_that_stay<'a>(
    alloc: Global,
    nodes: &Option<InsideNodes<'a>>,
    words: &[Ignored],
) -> Result<Option<InsideNodes<'a>>, AllocError>
    ensures { IfOk result (λ kept. entries_inside kept
        ≡ entries_that_stay (ignored_words words.now) (entries_inside nodes.now)) }
{
    let Some(nodes) = nodes else {
        return Ok(None);
    };
    match kept_root(alloc, &nodes.entries, words)? {
        Some(entries) => Ok(Some(InsideNodes::new(alloc, entries)?)),
        None => Ok(None),
    }
}

/// Returns whether there are two trees with the same entries, or none.
pub(super) fn have_same_nodes(one: &Option<InsideNodes>, other: &Option<InsideNodes>) -> bool
    ensures { IsTrue result ↔ (entries_inside one.now ≡ entries_inside other.now) }
{
    match (one, other) {
        (Some(one), Some(other)) => are_same_entries(&one.entries, &other.entries),
        (None, None) => true,
        _ => false,
    }
}
