//! Parts of names, and their numbers.

ghost use Rattle.std.specs.Prelude.{◌≡◌, ◌<◌, ◌^◌, [], IfOk, IfErr, length};

use crate::part_numbers::PartNumbers;
use std::alloc::{AllocError, Global};
use std::marker::Model;

/// Parts of names, each once. The number of a part is its index in the order of their first use.
#[derive(Drop)]
pub(crate) struct NameParts<'a> {
    /// The number of the blocks after each part, and the bytes of the part.
    parts: Vec<(usize, &'a [u8])>,
    numbers: PartNumbers<'a>,
}

impl<'a> Model for NameParts<'a> {
    ghost use Rattle.std.specs.Prelude.{List};
    ghost use Rattle.bi_fdt.specs.NameParts.{NamePart, name_parts_of, AreNameParts};

    ghost Value = { List NamePart };

    ghost view = { name_parts_of };

    ghost invariant = { AreNameParts };
}

impl<'a> NameParts<'a> {
    ghost use Rattle.bi_fdt.specs.NameParts.{AreOnce, IsPlaced, FindsPart, parts_of_slices};
    ghost use Rattle.bi_fdt.specs.OtherNames.{FindsAfter, FindsTail};

    /// Returns an empty list of parts, which is suited to `parts` parts. Fails if memory runs out.
    pub(crate) fn new(alloc: Global, parts: usize) -> Result<NameParts<'a>, AllocError>
        ensures { IfOk result (λ made. made ≡ []) }
    {
        Ok(NameParts {
            parts: Vec::new(alloc),
            numbers: PartNumbers::new(alloc, parts)?,
        })
    }

    /// Returns these parts. Requires: they are distinct. Fails if memory runs out.
    pub(crate) fn of_parts(
        alloc: Global,
        parts: &[(usize, &'a [u8])],
    ) -> Result<NameParts<'a>, AllocError>
        requires { AreOnce (parts_of_slices parts.now) }
        ensures { IfOk result (λ made. made ≡ parts_of_slices parts.now) }
    {
        let mut made = NameParts::new(alloc, parts.len())?;
        for (tail, bytes) in parts {
            made.add(*tail, bytes)?;
        }
        Ok(made)
    }

    /// Returns the parts. The number of each is its index.
    pub(crate) fn into_parts(self) -> Vec<(usize, &'a [u8])>
        ensures { parts_of_slices result.items ≡ self.entry }
    {
        let NameParts { parts, numbers: _ } = self;
        parts
    }

    /// Adds a part if it is not there yet, and returns its number. The part has the given bytes,
    /// and the blocks after it have the number `tail`. Takes log n comparisons for n parts. If
    /// memory runs out, the parts are unchanged.
    pub(crate) fn add(&mut self, tail: usize, bytes: &'a [u8]) -> Result<usize, AllocError>
        ensures added { IfOk result (λ number.
            IsPlaced self.old (tail, bytes.entry.now) number self.new) }
        ensures small { length self.new < 2 ^ 63 }
        ensures failed { IfErr result (λ _. self.new ≡ self.old) }
    {
        if let Some(number) = self.numbers.get(tail, bytes) {
            return Ok(number);
        }
        self.parts.reserve(1)?;
        let number = self.parts.len();
        self.numbers.insert(tail, bytes, number)?;
        self.parts.push((tail, bytes)).unwrap();
        Ok(number)
    }

    /// Returns the number of a part, if it is there. Takes log n comparisons for n parts.
    pub(crate) fn find(&self, tail: usize, bytes: &'a [u8]) -> Option<usize>
        ensures { FindsPart self.now (tail, bytes.now) result }
    {
        self.numbers.get(tail, bytes)
    }

    /// Returns the number of a part, if it is there. The blocks after it have the number `tail`, or
    /// are not there.
    pub(crate) fn find_after(&self, tail: Option<usize>, bytes: &'a [u8]) -> Option<usize>
        ensures { FindsAfter self.now tail bytes.now result }
    {
        self.find(tail?, bytes)
    }

    /// Returns the number that a block and those after it have together, if they are there.
    pub(crate) fn find_tail(&self, tail: Option<usize>, block: &'a [u8]) -> Option<usize>
        ensures { FindsTail self.now tail block.now result }
    {
        // The call tells the proof that the length fits.
        let _ = self.parts.len();
        let index = self.find_after(tail, block)?;
        Some(index + 1)
    }
}
