//! The names of properties, each once, with their offsets in the strings block.

ghost use Rattle.std.specs.Prelude.{◌≡◌, [], IfOk, OnOk, IfErr, length};
ghost use Rattle.bi_blob.specs.Layout.{offset_in, strings_of};

use crate::name_hasher_builder::NameHasherBuilder;
use indexmap::IndexMap;
use std::alloc::{AllocError, Global};
use std::marker::Model;

/// The names that the strings block has, in the order of their first use (Devicetree
/// Specification, 5.5). Contracts see the list of the names.
#[derive(Drop)]
pub(crate) struct Names<'a> {
    /// The offset of each name.
    offsets: IndexMap<&'a [u8], usize, NameHasherBuilder>,
    length: usize,
}

impl<'a> Model for Names<'a> {
    ghost use Rattle.std.specs.Prelude.{ℕ, List};

    ghost Value = { List (List ℕ) };

    ghost use Rattle.bi_lay.specs.Names.{names_of, AreNames};

    ghost view = { names_of };

    ghost invariant = { AreNames };
}

impl<'a> Names<'a> {
    ghost use Rattle.bi_lay.specs.Names.{with_name, saturated_usize};
    ghost use Rattle.bi_base.specs.Slices.{bytes_of};

    /// Returns an empty list of names. Allocates nothing yet.
    pub(crate) fn new(alloc: Global, hasher_builder: NameHasherBuilder) -> Names<'a>
        ensures { result ≡ [] }
    {
        Names {
            offsets: IndexMap::with_hasher(alloc, hasher_builder),
            length: 0,
        }
    }

    /// Returns the length of the strings block in bytes, or the greatest `usize` if it is longer
    /// than that.
    pub(crate) fn length(&self) -> usize
        ensures { result ≡ saturated_usize (length (strings_of self.now)) }
    {
        self.length
    }

    /// Returns the names in the order of their first use.
    pub(crate) fn as_slice(&self) -> &[&'a [u8]]
        ensures { bytes_of result.now ≡ self.now }
    {
        self.offsets.keys().as_slice()
    }

    /// Adds a name if it is not there yet, and returns its offset in the strings block, or the
    /// greatest `usize` if it is greater than that. Takes time linear in the length of the name,
    /// unless many of the names have equal hashes.
    ///
    /// If memory runs out, the names are unchanged.
    pub(crate) fn add(&mut self, name: &'a [u8]) -> Result<usize, AllocError>
        ensures offset { IfOk result (λ offset.
            offset ≡ saturated_usize (offset_in self.new name.entry.now)) }
        ensures names { OnOk result (self.new ≡ with_name self.old name.entry.now) }
        ensures failed { IfErr result (λ _. self.new ≡ self.old) }
    {
        if let Some(offset) = self.offsets.get(&name) {
            return Ok(*offset);
        }
        let offset = self.length;
        self.offsets.insert(name, offset)?;
        self.length = offset.saturating_add(name.len()).saturating_add(1);
        Ok(offset)
    }
}
