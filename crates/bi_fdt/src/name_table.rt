//! A table of the names of properties.

ghost use Rattle.std.specs.Prelude.{◌≡◌, ◌+◌, ◌/◌, ◌<◌, [], IfOk, OnErr, Some, length, map};
ghost use Rattle.std.specs.Prelude.{slice_get, take};
ghost use Rattle.bi_fdt.specs.NameTables.{names_in_table, IsNameTable, HasMoreNames};
ghost use Rattle.bi_fdt.specs.NameTables.{HasAtMostMore};
ghost use Rattle.bi_fdt.specs.NameTails.{IsTail, AreBlockNumbers, head_length};
ghost use Rattle.bi_fdt.specs.Strings.{AreEnds};

use crate::name_parts::NameParts;
use crate::name_tails::block_numbers;
use crate::strings::STRIDE;
use std::alloc::{AllocError, Global};

/// The number of bytes in a strings block for which one name is expected.
const USUAL_LENGTH: usize = 8;

/// Names, each once, in the order in which they were added. A name is found by its head of fewer
/// than 128 bytes and the number of its tail, so no more of it is read.
#[derive(Drop)]
pub(crate) struct NameTable<'a> {
    /// The blocks of the names at the multiples of 64, each with the number of those after it.
    pub(crate) tails: NameParts<'a>,
    /// The head of each name, with the number of its tail.
    pub(crate) heads: NameParts<'a>,
    pub(crate) names: Vec<&'a [u8]>,
}

impl<'a> NameTable<'a> {
    /// Returns an empty table, which is suited to a strings block of this length. Fails if memory
    /// runs out.
    pub(crate) fn new(alloc: Global, length: usize) -> Result<NameTable<'a>, AllocError>
        ensures names { IfOk result (λ table. names_in_table table ≡ []) }
        ensures is_table { IfOk result IsNameTable }
    {
        Ok(NameTable {
            tails: NameParts::new(alloc, length / STRIDE)?,
            heads: NameParts::new(alloc, length / USUAL_LENGTH)?,
            names: Vec::new(alloc),
        })
    }

    /// Returns, for each name at the first multiples of 64, the number of all of its blocks
    /// together. The last name comes first. Fails if memory runs out. Requires: the names end at
    /// these offsets, there is one offset for each name, and the heads and the tails of the table
    /// are those of its names.
    pub(crate) fn block_numbers(
        &mut self,
        alloc: Global,
        strings: &'a [u8],
        ends: &[usize],
    ) -> Result<Vec<usize>, AllocError>
        requires table { IsNameTable self.old }
        requires ends { AreEnds strings.now ends.now }
        requires count { length ends.now ≡ length strings.now / 64 + 1 }
        ensures blocks { IfOk result (λ numbers.
            AreBlockNumbers self.new.tails strings.entry.now numbers.items) }
        ensures table { IsNameTable self.new }
        ensures names { names_in_table self.new ≡ names_in_table self.old }
    {
        block_numbers(alloc, &mut self.tails, strings, ends)
    }

    /// Adds a name if it is not there yet, and returns its number. Fails if memory runs out. The
    /// names are then unchanged. Requires: the tail of the name has the number `tail`, and the
    /// heads and the tails of the table are those of its names.
    pub(crate) fn add(&mut self, name: &'a [u8], tail: usize) -> Result<usize, AllocError>
        requires table { IsNameTable self.old }
        requires tail { IsTail self.old.tails tail name.now }
        ensures added { IfOk result (λ number.
            slice_get (names_in_table self.new) number ≡ Some name.entry.now) }
        ensures more { HasMoreNames self.old self.new }
        ensures only { HasAtMostMore (names_in_table self.old) (names_in_table self.new)
            name.entry.now }
        ensures failed { OnErr result (names_in_table self.new ≡ names_in_table self.old) }
    {
        self.names.reserve(1)?;
        let number = self.heads.add(tail, head_of(name))?;
        if number == self.names.len() {
            self.names.push(name).unwrap();
        }
        Ok(number)
    }
}

/// Returns the bytes of a name before its tail.
fn head_of(name: &[u8]) -> &[u8]
    ensures { result.now ≡ take (head_length name.entry.now) name.entry.now }
{
    let later_blocks = (name.len() / STRIDE).saturating_sub(1);
    &name[..name.len() - STRIDE * later_blocks]
}
