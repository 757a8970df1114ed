//! The cell of the hash nodes of an image.

ghost use Rattle.std.specs.Prelude.{◌≡◌, IfOk, string_bytes};
ghost use Rattle.bi_common.specs.HashedImages.{found_hash_of, found_left};
ghost use Rattle.bi_show.specs.PageCells.{hash_word as word_of_hash};
ghost use Rattle.bi_show.specs.PageCells.{hashes_cell as cell_of_hashes};

use super::name_cell;
use crate::show::tables::join_cells;
use bi_common::hash_nodes::HashNodes;
use bi_fdt::NodeRef;
use bi_fit::Checked;
use bi_report::used_hashes::is_skipped;
use bi_report::verify::verdict_word;
use std::alloc::{AllocError, Global};

/// Returns the cell of the hash nodes of an image: the algorithm of each, the verdict on it, and a
/// mark if U-Boot skips it.
pub(in crate::show) fn hashes_cell(alloc: Global, hashes: HashNodes) -> Result<String, AllocError>
    ensures { IfOk result (λ text. string_bytes text ≡ cell_of_hashes (found_left hashes.entry)) }
{
    let mut words = Vec::new(alloc);
    let mut left = hashes;
    while let Some((node, hash)) = left.next_node() {
        words.push(hash_word(alloc, node, &hash)?)?;
    }
    if words.is_empty() {
        String::from_str(alloc, "-")
    } else {
        join_cells(alloc, &words)
    }
}

/// Returns the algorithm of a hash node, the verdict on it, and a mark if U-Boot skips it.
fn hash_word(alloc: Global, node: NodeRef, hash: &Checked) -> Result<String, AllocError>
    ensures { IfOk result (λ text. string_bytes text
        ≡ word_of_hash (found_hash_of (node.entry, hash.now))) }
{
    let algorithm = name_cell(alloc, hash.algo)?;
    let verdict = verdict_word(hash.verdict);
    let mark = if is_skipped(node) { ":skipped" } else { "" };
    format!(in alloc; "{algorithm}:{verdict}{mark}")
}
