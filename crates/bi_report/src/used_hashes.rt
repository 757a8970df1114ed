//! The hash nodes of an image that U-Boot does not skip.

ghost use Rattle.std.specs.Prelude.{◌≡◌, ◌==◌};
ghost use Rattle.std.specs.Iterator.{YieldsFirstBy, item_count};
ghost use Rattle.std.specs.List.{list_all};
ghost use Rattle.std.specs.Option.{option_map};
ghost use Rattle.bi_common.specs.HashedImages.{found_left};
ghost use Rattle.bi_fdt.specs.Views.{node_of};
ghost use Rattle.bi_fit.specs.JudgementCalls.{checked_hash_of};
ghost use Rattle.bi_report.specs.Checking.{skips as skips_hash};
ghost use Rattle.bi_report.specs.ConcernValues.{used_left};
ghost use Rattle.bi_report.specs.FoundConcerns.{is_skipped as is_skipped_hash, used_found};

use bi_common::hash_nodes::HashNodes;
use bi_fdt::NodeRef;
use bi_fit::Checked;

/// The hash nodes that are left of those of an image that U-Boot does not skip, with the verdicts
/// on them, in their order in the file.
#[derive(Clone, Copy)]
pub struct UsedHashes<'a, 'b> {
    hashes: HashNodes<'a, 'b>,
}

impl<'a, 'b> UsedHashes<'a, 'b> {
    /// Returns those of these hash nodes that U-Boot does not skip.
    pub(crate) fn new(hashes: HashNodes<'a, 'b>) -> UsedHashes<'a, 'b>
        ensures { used_left result ≡ used_found (found_left hashes.entry) }
    {
        UsedHashes { hashes }
    }
}

impl<'a, 'b> Iterator for UsedHashes<'a, 'b> {
    type Item = Checked<'a>;

    ghost next_gives = { YieldsFirstBy checked_hash_of used_left };

    ghost remaining = { item_count used_left };

    fn next(&mut self) -> Option<Checked<'a>> {
        while let Some((node, hash)) = self.hashes.next_node() {
            if !is_skipped(node) {
                return Some(hash);
            }
        }
        None
    }
}

/// Returns whether U-Boot skips a hash node.
pub fn is_skipped(hash: NodeRef) -> bool
    ensures { result ≡ is_skipped_hash (node_of hash.entry) }
{
    skips(hash.property(b"uboot-ignore"))
}

/// Returns whether a value of `uboot-ignore` makes U-Boot skip the node.
fn skips(value: Option<&[u8]>) -> bool
    ensures { result ≡ skips_hash (option_map (λ value. value.now) value.entry) }
{
    match value {
        Some(value) => value.len() == 4 && !are_zeros(value),
        None => false,
    }
}

/// Returns whether each of these bytes is zero.
pub(crate) fn are_zeros(bytes: &[u8]) -> bool
    ensures { result ≡ list_all (λ byte. byte == 0) bytes.now }
{
    bytes.iter().all(|byte| *byte == 0)
}
