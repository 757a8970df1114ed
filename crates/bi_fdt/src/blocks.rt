//! The blocks of a blob that hold its tree, and what a single token in them holds.

ghost use Rattle.std.specs.Prelude.{◌≡◌, ◌+◌, ◌≤◌, List, ◌↔◌, length, IsTrue, IfOk, IfErr};
ghost use Rattle.std.specs.Prelude.{OnOk};
ghost use Rattle.bi_base.specs.Cells.{u32_at};
ghost use Rattle.bi_base.specs.Checks.{IsFirstFault, HasNoFault};
ghost use Rattle.bi_blob.specs.Tokens.{name_from};
ghost use Rattle.bi_blob.specs.Stages.{OpenNode, BeforeRoot, Inside};
ghost use Rattle.bi_blob.specs.BlobFaults.{TokenPasses, token_fault, HasTokenNumber, begin_checks};
ghost use Rattle.bi_fdt.specs.Blocks.{blocks_of, AreBlocks, node_name_checks};
ghost use Rattle.bi_fdt.specs.Blocks.{IsPropertyAt, IsPropertyFault};

use crate::names::name_at;
use crate::strings::Strings;
use crate::table::PropertyEntry;
use bi_base::{Cause, Fault, cell_at, refuse};
use bi_blob::is_child_name;

/// Where a file has its tree: the structure block, from `begin` to `end`, and the strings block,
/// from `strings_begin` on (Devicetree Specification, 5.4, 5.5).
#[derive(Clone, Copy)]
pub(crate) struct Blocks<'a, 's> {
    pub(crate) file: &'a [u8],
    pub(crate) begin: usize,
    pub(crate) end: usize,
    pub(crate) strings: &'s Strings<'a>,
    pub(crate) strings_begin: usize,
}

/// Returns the number of the token at `place`. Fails with Truncated if the structure block ends
/// before the number does. Requires: the blocks are within a file of fewer than 2^31 bytes, and
/// `place` is at most three bytes after the end of the structure block.
pub(crate) fn number_at(blocks: Blocks, place: usize) -> Result<u32, Fault>
    requires blocks { AreBlocks blocks }
    requires within { place ≤ blocks.end + 3 }
    ensures within { OnOk result (place + 4 ≤ blocks.entry.end) }
    ensures number { IfOk result (λ number. number ≡ u32_at blocks.entry.file.now place) }
    ensures fault { IfErr result (λ fault. (blocks.entry.end + 1 ≤ place + 4)
        × (fault ≡ token_fault place HasTokenNumber)) }
{
    if place + 4 > blocks.end {
        return refuse(Cause::Truncated, place as u32);
    }
    Ok(cell_at(blocks.file, place))
}

/// Returns the name of the root. Its token is at `place`. Requires: the blocks are within a file of
/// fewer than 2^31 bytes, the number of the token is within the structure block, and the limit on
/// the depth is at least 1.
pub(crate) fn root_name<'a>(
    blocks: Blocks<'a, '_>,
    place: usize,
    depth_limit: usize,
) -> Result<&'a [u8], Fault>
    requires blocks { AreBlocks blocks }
    requires within { place + 4 ≤ blocks.end }
    requires depth { 1 ≤ depth_limit }
    ensures name { IfOk result (λ name. name.now ≡ name_from blocks.entry.file.now (place + 4)) }
    ensures ok { OnOk result (HasNoFault
        (TokenPasses (blocks_of blocks.entry) depth_limit place BeforeRoot) begin_checks) }
    ensures fault { IfErr result (IsFirstFault
        (TokenPasses (blocks_of blocks.entry) depth_limit place BeforeRoot)
        (token_fault place) begin_checks) }
{
    let Some(name) = name_at(blocks.file, place + 4, blocks.end) else {
        return refuse(Cause::Truncated, place as u32);
    };
    if !name.is_empty() {
        return refuse(Cause::BadName, place as u32);
    }
    Ok(name)
}

/// Returns the name of a child, while `depth` nodes are open. Its token is at `place`. Requires:
/// the blocks are within a file of fewer than 2^31 bytes, and the number of the token is within the
/// structure block.
pub(crate) fn child_name<'a>(
    blocks: Blocks<'a, '_>,
    place: usize,
    depth: usize,
    depth_limit: usize,
) -> Result<&'a [u8], Fault>
    requires blocks { AreBlocks blocks }
    requires within { place + 4 ≤ blocks.end }
    ensures name { IfOk result (λ name. name.now ≡ name_from blocks.entry.file.now (place + 4)) }
    ensures ok { OnOk result ((innermost : OpenNode) (outer : List OpenNode)
        → length outer + 1 ≡ depth
        → HasNoFault (TokenPasses (blocks_of blocks.entry) depth_limit place
        (Inside innermost outer)) node_name_checks) }
    ensures fault { IfErr result (λ fault. (innermost : OpenNode) (outer : List OpenNode)
        → length outer + 1 ≡ depth
        → IsFirstFault (TokenPasses (blocks_of blocks.entry) depth_limit place
        (Inside innermost outer)) (token_fault place) begin_checks fault) }
{
    if depth >= depth_limit {
        return refuse(Cause::TooDeep, place as u32);
    }
    let Some(name) = name_at(blocks.file, place + 4, blocks.end) else {
        return refuse(Cause::Truncated, place as u32);
    };
    if !is_child_name(name) {
        return refuse(Cause::BadName, place as u32);
    }
    Ok(name)
}

/// Returns the property whose token is at `place`. Requires: the blocks are within a file of fewer
/// than 2^31 bytes, and the number of the token is within the structure block.
pub(crate) fn property_at(
    blocks: Blocks,
    place: usize,
    is_childless: bool,
) -> Result<PropertyEntry, Fault>
    requires blocks { AreBlocks blocks }
    requires within { place + 4 ≤ blocks.end }
    ensures property { IfOk result (IsPropertyAt (blocks_of blocks.entry) place) }
    ensures childless { OnOk result (IsTrue is_childless) }
    ensures fault { IfErr result (IsPropertyFault (blocks_of blocks.entry) place is_childless) }
{
    if !is_childless {
        return refuse(Cause::PropertyAfterChild, place as u32);
    }
    if place + 12 > blocks.end {
        return refuse(Cause::Truncated, place as u32);
    }
    let value_length = cell_at(blocks.file, place + 4);
    if value_length as usize > blocks.end - (place + 12) {
        return refuse(Cause::Truncated, place as u32);
    }
    let name_offset = cell_at(blocks.file, place + 8) as usize;
    let Some(name) = blocks.strings.name_at(name_offset) else {
        return refuse(Cause::BadNameOffset, place as u32);
    };
    if name.is_empty() {
        return refuse(Cause::BadName, place as u32);
    }
    Ok(PropertyEntry {
        place: place as u32,
        name_begin: (blocks.strings_begin + name_offset) as u32,
        name_length: name.len() as u32,
        value_length,
    })
}
