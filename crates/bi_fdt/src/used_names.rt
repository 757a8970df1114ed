//! The names of the properties of a blob, each with its number.

ghost use Rattle.std.specs.Prelude.{◌≡◌, [], length, IfOk, OnOk, OnErr};
ghost use Rattle.bi_blob.specs.Tokens.{name_from};
ghost use Rattle.bi_blob.specs.Tree.{AreDistinct};
ghost use Rattle.bi_blob.specs.BlobFaults.{HasName};
ghost use Rattle.bi_fdt.specs.Numbers.{IsNumberOf, with_used_name};

use crate::kept_names::KeptNames;
use crate::name_table::NameTable;
use crate::name_tails::tail_at;
use crate::strings::Strings;
use std::alloc::{AllocError, Global};
use std::marker::Model;

/// A strings block (Devicetree Specification, 5.5), and the names in it that properties have had so
/// far, each once. The number of a name is its index in the order of first use. So two names are
/// equal if and only if their numbers are.
#[derive(Drop)]
pub(crate) struct UsedNames<'a> {
    strings: &'a [u8],
    /// The number of the blocks of the name at each multiple of 64, the last of them first.
    blocks: Vec<usize>,
    table: NameTable<'a>,
}

impl<'a> Model for UsedNames<'a> {
    ghost use Rattle.bi_fdt.specs.UsedNames.{UsedNames as Used};
    ghost use Rattle.bi_fdt.specs.NameTables.{names_in_table, IsNameTable};
    ghost use Rattle.bi_fdt.specs.NameTails.{AreBlockNumbers};

    ghost Value = { Used };

    ghost view = { λ names. record {
      strings = names.strings.now;
      used = names_in_table names.table;
    } };

    ghost invariant = { λ names. IsNameTable names.table
        × AreBlockNumbers names.table.tails names.strings.now names.blocks.items };
}

impl<'a> UsedNames<'a> {
    /// Returns a strings block with no name used yet. Takes time and memory linear in its length.
    pub(crate) fn new(alloc: Global, strings: &Strings<'a>) -> Result<UsedNames<'a>, AllocError>
        ensures { IfOk result (λ names. names ≡ record { strings = strings.now; used = [] }) }
    {
        let mut table = NameTable::new(alloc, strings.bytes().len())?;
        let blocks = table.block_numbers(alloc, strings.bytes(), strings.ends())?;
        Ok(UsedNames {
            strings: strings.bytes(),
            blocks,
            table,
        })
    }

    /// Returns the number of the name at offset `at`. A name that was not used before gets the next
    /// number. Reads at most 127 bytes of the name, however long it is. Fails if memory runs out.
    /// Requires: `name` is the name at offset `at`, which a zero byte ends.
    pub(crate) fn number_at(&mut self, at: usize, name: &'a [u8]) -> Result<usize, AllocError>
        requires there { HasName self.old.strings at (length self.old.strings) }
        requires name { name.now ≡ name_from self.old.strings at }
        ensures number { IfOk result (IsNumberOf self.new.used name.entry.now) }
        ensures used { OnOk result (self.new.used ≡ with_used_name self.old.used name.entry.now) }
        ensures failed { OnErr result (self.new.used ≡ self.old.used) }
        ensures distinct { AreDistinct self.new.used }
        ensures strings { self.new.strings ≡ self.old.strings }
    {
        let tail = tail_at(&self.blocks, at, at + name.len());
        self.table.add(name, tail)
    }

    /// Returns the names in the form in which they are kept.
    pub(crate) fn into_kept(self) -> KeptNames<'a>
        ensures { result ≡ self.entry.used }
    {
        let UsedNames {
            strings: _,
            blocks: _,
            table,
        } = self;
        KeptNames::new(table)
    }
}
