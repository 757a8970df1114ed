//! The structure block as a whole (Devicetree Specification, 5.4.2).

ghost use Rattle.std.specs.Prelude.{ℕ, ◌+◌, ◌≤◌, IfOk, IfErr, OnOk};
ghost use Rattle.bi_base.specs.Errors.{IsFaultOrNoMemory};
ghost use Rattle.bi_blob.specs.Tokens.{begin_node_number};
ghost use Rattle.bi_blob.specs.Tree.{Root, FileNode, depth_of};
ghost use Rattle.bi_blob.specs.Blob.{HoldsTree};
ghost use Rattle.bi_blob.specs.BlobFaults.{IsStructureFault};
ghost use Rattle.bi_blob.specs.OpenNodes.{IsOpenAt, NoTree, WholeTree};
ghost use Rattle.bi_fdt.specs.Blocks.{blocks_of, AreBlocks, IsNumberAt};
ghost use Rattle.bi_fdt.specs.Reading.{IsReading, IsAfter, HasTable};

use crate::blocks::{Blocks, number_at, root_name};
use crate::growing::Growing;
use crate::table::Entry;
use crate::tokens::{Reading, step};
use crate::used_names::UsedNames;
use bi_base::{Cause, Error, Fault, refuse, up4};
use bi_blob::format::{BEGIN_NODE, END, NOP};
use std::alloc::Global;

/// Returns the table of the tree that the structure block holds, and the names of its properties.
/// The fault is that of the first check that fails. Requires: the blocks are within a file of fewer
/// than 2^31 bytes, the structure block does not end before it begins, and the limit on the depth
/// is from 1 to 64.
pub(crate) fn read_tree<'a>(
    alloc: Global,
    blocks: Blocks<'a, '_>,
    depth_limit: usize,
) -> Result<(Vec<Entry>, UsedNames<'a>), Error>
    requires blocks { AreBlocks blocks }
    requires ordered { blocks.begin ≤ blocks.end }
    requires least { 1 ≤ depth_limit }
    requires most { depth_limit ≤ 64 }
    ensures ok { IfOk result (λ table. HasTable
        (blocks_of blocks.entry) depth_limit table.0.items table.1.used) }
    ensures failed { IfErr result (IsFaultOrNoMemory
        (IsStructureFault (blocks_of blocks.entry) depth_limit)) }
{
    let place = skip_to_root(blocks)?;
    let mut reading = begin_root(alloc, blocks, depth_limit, place)?;
    read_root(alloc, blocks, depth_limit, &mut reading)?;
    check_after_root(blocks, reading.place)?;
    Ok(reading.growing.into_table())
}

/// Returns the offset of the token of the root. Requires: the blocks are within a file of fewer
/// than 2^31 bytes, and the structure block does not end before it begins.
fn skip_to_root(blocks: Blocks) -> Result<usize, Fault>
    requires blocks { AreBlocks blocks }
    requires ordered { blocks.begin ≤ blocks.end }
    ensures number { IfOk result
        (λ place. IsNumberAt (blocks_of blocks.entry) place begin_node_number) }
    ensures ok { IfOk result (λ place. (depth_limit : ℕ)
        → IsOpenAt (blocks_of blocks.entry) depth_limit place NoTree) }
    ensures fault { IfErr result (λ fault. (depth_limit : ℕ)
        → IsStructureFault (blocks_of blocks.entry) depth_limit fault) }
{
    let mut place = blocks.begin;
    loop {
        let number = number_at(blocks, place)?;
        if number == BEGIN_NODE {
            return Ok(place);
        }
        if number != NOP {
            return refuse(Cause::BadToken, place as u32);
        }
        place += 4;
    }
}

/// Reads the token of the root, which is at `place`. Requires: the blocks are within a file of
/// fewer than 2^31 bytes, the limit on the depth is at least 1, the token is FDT_BEGIN_NODE, and
/// the tokens before it pass their checks and begin no node.
fn begin_root<'a>(
    alloc: Global,
    blocks: Blocks<'a, '_>,
    depth_limit: usize,
    place: usize,
) -> Result<Reading<'a>, Error>
    requires blocks { AreBlocks blocks }
    requires depth { 1 ≤ depth_limit }
    requires number { IsNumberAt (blocks_of blocks) place begin_node_number }
    requires position { IsOpenAt (blocks_of blocks) depth_limit place NoTree }
    ensures ok { IfOk result (IsReading (blocks_of blocks.entry) depth_limit) }
    ensures failed { IfErr result (IsFaultOrNoMemory
        (IsStructureFault (blocks_of blocks.entry) depth_limit)) }
{
    let name = root_name(blocks, place, depth_limit)?;
    let growing = Growing::new(alloc, blocks.strings, name, place as u32)?;
    Ok(Reading {
        place: place + up4(name.len() + 5),
        growing,
    })
}

/// Reads the tokens inside the root. Requires: the blocks are within a file of fewer than 2^31
/// bytes, the limit on the depth is at most 64, and `reading` is that of a reader inside the root.
fn read_root<'a>(
    alloc: Global,
    blocks: Blocks<'a, '_>,
    depth_limit: usize,
    reading: &mut Reading<'a>,
) -> Result<(), Error>
    requires blocks { AreBlocks blocks }
    requires depth { depth_limit ≤ 64 }
    requires reading { IsReading (blocks_of blocks) depth_limit reading.old }
    ensures ok { OnOk result (IsAfter (blocks_of blocks.entry) depth_limit reading.new) }
    ensures failed { IfErr result (IsFaultOrNoMemory
        (IsStructureFault (blocks_of blocks.entry) depth_limit)) }
{
    loop {
        let has_ended = step(alloc, blocks, depth_limit, reading)?;
        if has_ended {
            return Ok(());
        }
    }
}

/// Checks the tokens after the root, from `place` on. Requires: the blocks are within a file of
/// fewer than 2^31 bytes, and `place` is at most three bytes after the end of the structure block.
fn check_after_root(blocks: Blocks, place: usize) -> Result<(), Fault>
    requires blocks { AreBlocks blocks }
    requires within { place ≤ blocks.end + 3 }
    ensures ok { OnOk result ((depth_limit : ℕ) (root : Root FileNode)
        → IsOpenAt (blocks_of blocks.entry) depth_limit place (WholeTree root)
        → HoldsTree (blocks_of blocks.entry) root × (depth_of root ≤ depth_limit)) }
    ensures fault { IfErr result (λ fault. (depth_limit : ℕ) (root : Root FileNode)
        → IsOpenAt (blocks_of blocks.entry) depth_limit place (WholeTree root)
        → IsStructureFault (blocks_of blocks.entry) depth_limit fault) }
{
    let mut place = place;
    loop {
        let number = number_at(blocks, place)?;
        if number == END {
            return Ok(());
        }
        if number != NOP {
            return refuse(Cause::BadToken, place as u32);
        }
        place += 4;
    }
}
