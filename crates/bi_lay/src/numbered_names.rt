//! The names of properties. Each may be given by its bytes, and some by a number.

ghost use Rattle.std.specs.Prelude.{◌≡◌, ◌<◌, [], IfOk, OnOk, IfErr, length};
ghost use Rattle.bi_blob.specs.Layout.{offset_in, strings_of};

use crate::name_hasher_builder::NameHasherBuilder;
use crate::names::Names;
use std::alloc::{AllocError, Global};
use std::marker::Model;

/// The names that the strings block has, and the names that may be given by number.
#[derive(Drop)]
pub(crate) struct NumberedNames<'a> {
    by_number: Vec<&'a [u8]>,
    /// The offset in the strings block of the name of each number that was used.
    offsets: Vec<Option<usize>>,
    in_block: Names<'a>,
}

impl<'a> Model for NumberedNames<'a> {
    ghost use Rattle.bi_lay.specs.NumberedNames.{NumberedNames};

    ghost Value = { NumberedNames };

    ghost use Rattle.bi_lay.specs.NumberedNames.{numbered_names, AreNumberedNames};

    ghost view = { numbered_names };

    ghost invariant = { AreNumberedNames };
}

impl<'a> NumberedNames<'a> {
    ghost use Rattle.bi_base.specs.Slices.{bytes_of};
    ghost use Rattle.bi_lay.specs.Contents.{name_numbered};
    ghost use Rattle.bi_lay.specs.Names.{saturated_usize};
    ghost use Rattle.bi_lay.specs.NumberedNames.{with_use};

    /// Returns these names, with an empty strings block. The number of each name is its index.
    pub(crate) fn new(
        alloc: Global,
        by_number: Vec<&'a [u8]>,
    ) -> Result<NumberedNames<'a>, AllocError>
        ensures numbers { IfOk result (λ names. names.by_number ≡ bytes_of by_number.entry.items) }
        ensures block { IfOk result (λ names. names.in_block ≡ []) }
    {
        let hasher_builder = NameHasherBuilder::new(&by_number);
        let offsets = vec![in alloc; None; by_number.len()]?;
        Ok(NumberedNames {
            by_number,
            offsets,
            in_block: Names::new(alloc, hasher_builder),
        })
    }

    /// Returns the length of the strings block in bytes, or the greatest `usize` if it is longer
    /// than that.
    pub(crate) fn block_length(&self) -> usize
        ensures { result ≡ saturated_usize (length (strings_of self.now.in_block)) }
    {
        self.in_block.length()
    }

    /// Returns the names that the strings block has, in the order of their first use.
    pub(crate) fn block_names(&self) -> &[&'a [u8]]
        ensures { bytes_of result.now ≡ self.now.in_block }
    {
        self.in_block.as_slice()
    }

    /// Returns the name with this number. Requires: a name has this number.
    pub(crate) fn name(&self, number: usize) -> &'a [u8]
        requires { number < length self.now.by_number }
        ensures { result.now ≡ name_numbered self.now.by_number number }
    {
        self.by_number[number]
    }

    /// Adds a name to the strings block if it is not there yet, and returns its offset, as
    /// `Names::add` does.
    ///
    /// If memory runs out, the names are unchanged.
    pub(crate) fn add(&mut self, name: &'a [u8]) -> Result<usize, AllocError>
        ensures offset { IfOk result (λ offset.
            offset ≡ saturated_usize (offset_in self.new.in_block name.entry.now)) }
        ensures names { OnOk result (self.new ≡ with_use self.old name.entry.now) }
        ensures failed { IfErr result (λ _. self.new ≡ self.old) }
    {
        self.in_block.add(name)
    }

    /// Adds the name with this number, as `add` does. Takes a constant number of steps, except at
    /// the first use of a number, which looks the name up by its bytes. Requires: a name has this
    /// number.
    ///
    /// If memory runs out, the names are unchanged.
    pub(crate) fn add_numbered(&mut self, number: usize) -> Result<usize, AllocError>
        requires { number < length self.old.by_number }
        ensures offset { let name = name_numbered self.old.by_number number in
            IfOk result (λ offset. offset ≡ saturated_usize (offset_in self.new.in_block name)) }
        ensures names { let name = name_numbered self.old.by_number number in
            OnOk result (self.new ≡ with_use self.old name) }
        ensures failed { IfErr result (λ _. self.new ≡ self.old) }
    {
        if let Some(offset) = self.offsets[number] {
            return Ok(offset);
        }
        let name = self.name(number);
        let offset = self.in_block.add(name)?;
        self.offsets[number] = Some(offset);
        Ok(offset)
    }
}
