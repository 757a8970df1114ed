//! Tails of names, and their numbers.
//!
//! Names of properties may share a run of the strings block that is nearly as long as the file. So
//! numbers are made only at the multiples of 64, each from the one after it, and the number of the
//! tail of any name is one of them.

ghost use Rattle.std.specs.Prelude.{◌≡◌, ◌<◌, ◌≤◌, ◌/◌, ◌+◌, ℕ, List, length, IfOk};
ghost use Rattle.bi_blob.specs.Tokens.{name_from};
ghost use Rattle.bi_fdt.specs.NameParts.{NamePart, AreMoreParts};
ghost use Rattle.bi_fdt.specs.NameTails.{AreAllBlocks, IsTail, AreBlockNumbers};
ghost use Rattle.bi_fdt.specs.Strings.{end_of, AreEnds};

use crate::name_parts::NameParts;
use crate::strings::{STRIDE, index_of_later_blocks};
use std::alloc::{AllocError, Global};

/// The number of no blocks.
const NO_BLOCKS: usize = 0;

/// Returns the number of all blocks together of the name at offset `at`, which ends at `end`, from
/// the number for the name 64 bytes later. Fails if memory runs out. Requires: the offset is within
/// the strings, the name ends at `end`, and `later` is that number, if there is a name 64 bytes
/// later.
fn blocks_before<'a>(
    tails: &mut NameParts<'a>,
    strings: &'a [u8],
    at: usize,
    end: usize,
    later: usize,
) -> Result<usize, AllocError>
    requires at { at ≤ length strings.now }
    requires end { end ≡ end_of strings.now at }
    requires later { at + 64 ≤ length strings.now
        → AreAllBlocks tails.old later (name_from strings.now (at + 64)) }
    ensures blocks { IfOk result (λ number.
        AreAllBlocks tails.new number (name_from strings.entry.now at)) }
    ensures more { AreMoreParts tails.old tails.new }
{
    let name = &strings[at..end];
    if name.len() < STRIDE {
        return Ok(NO_BLOCKS);
    }
    let begin = name.len() % STRIDE;
    let index = tails.add(later, &name[begin..begin + STRIDE])?;
    Ok(index + 1)
}

/// Returns, for each name at the first multiples of 64, the number of all of its blocks together.
/// The last name comes first. Fails if memory runs out. Requires: the names end at these offsets,
/// and there is one offset for each name.
pub(crate) fn block_numbers<'a>(
    alloc: Global,
    tails: &mut NameParts<'a>,
    strings: &'a [u8],
    ends: &[usize],
) -> Result<Vec<usize>, AllocError>
    requires ends { AreEnds strings.now ends.now }
    requires count { length ends.now ≡ length strings.now / 64 + 1 }
    ensures blocks { IfOk result (λ numbers.
        AreBlockNumbers tails.new strings.entry.now numbers.items) }
    ensures more { AreMoreParts tails.old tails.new }
{
    let mut numbers = Vec::with_capacity(alloc, ends.len())?;
    let mut later = NO_BLOCKS;
    for turn in 0..ends.len() {
        let index = ends.len() - 1 - turn;
        later = blocks_before(tails, strings, STRIDE * index, ends[index], later)?;
        numbers.push(later)?;
    }
    Ok(numbers)
}

/// Returns the number of the tail of the name at offset `at`, which ends at `end`. `numbers` are
/// those of the blocks of the names at the multiples of 64. Requires: the name does not end before
/// it begins, and there are more than `end / 64` numbers.
pub(crate) fn tail_at(numbers: &[usize], at: usize, end: usize) -> usize
    requires order { at ≤ end }
    requires within { end / 64 < length numbers.now }
    ensures { (tails : List NamePart) (strings : List ℕ)
        → AreBlockNumbers tails strings numbers.now → end ≡ end_of strings at
        → IsTail tails result (name_from strings at) }
{
    if end - at < 2 * STRIDE {
        return NO_BLOCKS;
    }
    numbers[numbers.len() - 1 - index_of_later_blocks(at, end - at)]
}
