//! The tokens of the structure block, one at a time (Devicetree Specification, 5.4.1).

ghost use Rattle.std.specs.Prelude.{◌≤◌, IfOk, IfErr, OnOk, false};
ghost use Rattle.bi_base.specs.Errors.{IsFaultOrNoMemory};
ghost use Rattle.bi_blob.specs.BlobFaults.{IsStructureFault};
ghost use Rattle.bi_blob.specs.Tokens.{begin_node_number, prop_number};
ghost use Rattle.bi_fdt.specs.Blocks.{blocks_of, AreBlocks, IsNumberAt};
ghost use Rattle.bi_fdt.specs.Reading.{IsReading, IsAhead};

use crate::blocks::{Blocks, child_name, number_at, property_at};
use crate::growing::Growing;
use bi_base::{Cause, Error, cell_at, refuse, up4};
use bi_blob::format::{BEGIN_NODE, END_NODE, NOP, PROP};
use std::alloc::Global;

/// How far reading has come: the offset of the next token, and the tree so far.
#[derive(Drop)]
pub(crate) struct Reading<'a> {
    pub(crate) place: usize,
    pub(crate) growing: Growing<'a>,
}

/// Reads the token at `reading.place`, inside the root. Returns whether the root has ended. Fails
/// with the fault of the first of its checks that fails, or if memory runs out. Requires: the
/// blocks are within a file of fewer than 2^31 bytes, the limit on the depth is at most 64, and
/// `reading` is that of a reader inside the root.
pub(crate) fn step<'a>(
    alloc: Global,
    blocks: Blocks<'a, '_>,
    depth_limit: usize,
    reading: &mut Reading<'a>,
) -> Result<bool, Error>
    requires blocks { AreBlocks blocks }
    requires depth { depth_limit ≤ 64 }
    requires reading { IsReading (blocks_of blocks) depth_limit reading.old }
    ensures ok { IfOk result (λ has_ended.
        IsAhead (blocks_of blocks.entry) depth_limit reading.old.place has_ended reading.new) }
    ensures failed { IfErr result (IsFaultOrNoMemory
        (IsStructureFault (blocks_of blocks.entry) depth_limit)) }
{
    let number = number_at(blocks, reading.place)?;
    if number == BEGIN_NODE {
        begin_node(alloc, blocks, depth_limit, reading)?;
        return Ok(false);
    }
    if number == PROP {
        add_property(blocks, depth_limit, reading)?;
        return Ok(false);
    }
    if number == NOP {
        reading.place += 4;
        return Ok(false);
    }
    if number != END_NODE {
        return refuse(Cause::BadToken, reading.place as u32).map_err(Error::from);
    }
    let has_ended = reading.growing.end_node();
    reading.place += 4;
    Ok(has_ended)
}

/// Reads the token FDT_BEGIN_NODE at `reading.place`, with the same errors. Requires: the blocks
/// are within a file of fewer than 2^31 bytes, the limit on the depth is at most 64, `reading` is
/// that of a reader inside the root, and the token is FDT_BEGIN_NODE.
fn begin_node<'a>(
    alloc: Global,
    blocks: Blocks<'a, '_>,
    depth_limit: usize,
    reading: &mut Reading<'a>,
) -> Result<(), Error>
    requires blocks { AreBlocks blocks }
    requires depth { depth_limit ≤ 64 }
    requires reading { IsReading (blocks_of blocks) depth_limit reading.old }
    requires number { IsNumberAt (blocks_of blocks) reading.old.place begin_node_number }
    ensures ok { OnOk result
        (IsAhead (blocks_of blocks.entry) depth_limit reading.old.place false reading.new) }
    ensures failed { IfErr result (IsFaultOrNoMemory
        (IsStructureFault (blocks_of blocks.entry) depth_limit)) }
{
    let name = child_name(blocks, reading.place, reading.growing.depth(), depth_limit)?;
    reading
        .growing
        .begin_node(alloc, name, reading.place as u32)?;
    // Besides the name, the token has its number of four bytes and a zero byte.
    reading.place += up4(name.len() + 5);
    Ok(())
}

/// Reads the token FDT_PROP at `reading.place`, with the same errors. Requires: the blocks are
/// within a file of fewer than 2^31 bytes, `reading` is that of a reader inside the root, and the
/// token is FDT_PROP.
fn add_property<'a>(
    blocks: Blocks<'a, '_>,
    depth_limit: usize,
    reading: &mut Reading<'a>,
) -> Result<(), Error>
    requires blocks { AreBlocks blocks }
    requires reading { IsReading (blocks_of blocks) depth_limit reading.old }
    requires number { IsNumberAt (blocks_of blocks) reading.old.place prop_number }
    ensures added { OnOk result
        (IsAhead (blocks_of blocks.entry) depth_limit reading.old.place false reading.new) }
    ensures failed { IfErr result (IsFaultOrNoMemory
        (IsStructureFault (blocks_of blocks.entry) depth_limit)) }
{
    let property = property_at(blocks, reading.place, reading.growing.is_childless())?;
    let at = cell_at(blocks.file, reading.place + 8) as usize;
    let name = property.name_in(blocks.file);
    reading.growing.add_property(property, at, name)?;
    // Besides the value, the token has its number and two cells.
    reading.place += up4(property.value_length as usize + 12);
    Ok(())
}
