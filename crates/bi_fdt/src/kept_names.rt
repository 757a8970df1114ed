//! The names of the properties of a blob that was read.

ghost use Rattle.std.specs.Prelude.{◌≡◌, IfOk};
ghost use Rattle.std.specs.List.{AllZip};
ghost use Rattle.bi_base.specs.Slices.{bytes_of};
ghost use Rattle.bi_blob.specs.Tree.{AreDistinct};
ghost use Rattle.bi_fdt.specs.NameTables.{names_in_table, IsNameTable};
ghost use Rattle.bi_fdt.specs.Numbers.{FindsNumber};

use crate::name_parts::NameParts;
use crate::name_table::NameTable;
use crate::other_names::{have_same_parts, own_numbers, parts_among, tails_among};
use std::alloc::{AllocError, Global};
use std::marker::Model;

/// The names of the properties of a blob, each once, with their heads and tails. The number of a
/// name is its index.
#[derive(Drop)]
pub(crate) struct KeptNames<'a> {
    pub(crate) tails: Vec<(usize, &'a [u8])>,
    pub(crate) heads: Vec<(usize, &'a [u8])>,
    pub(crate) names: Vec<&'a [u8]>,
}

impl<'a> Model for KeptNames<'a> {
    ghost use Rattle.std.specs.Prelude.{ℕ, List};
    ghost use Rattle.bi_base.specs.Slices.{bytes_of};
    ghost use Rattle.bi_fdt.specs.NameParts.{parts_of_slices};
    ghost use Rattle.bi_fdt.specs.NameTails.{AreHeads};

    ghost Value = { List (List ℕ) };

    ghost view = { λ names. bytes_of names.names.items };

    ghost invariant = { λ names. AreHeads (parts_of_slices names.tails.items)
        (parts_of_slices names.heads.items) (bytes_of names.names.items) };
}

impl<'a> KeptNames<'a> {
    /// Returns the names of a table. Requires: the heads and the tails of the table are those of
    /// its names, which are distinct.
    pub(crate) fn new(table: NameTable<'a>) -> KeptNames<'a>
        requires { IsNameTable table }
        ensures { result ≡ names_in_table table.entry }
    {
        let NameTable {
            tails,
            heads,
            names,
        } = table;
        KeptNames {
            tails: tails.into_parts(),
            heads: heads.into_parts(),
            names,
        }
    }

    /// Returns the names.
    pub(crate) fn names(&self) -> &[&'a [u8]]
        ensures names { bytes_of result.now ≡ self.now }
        ensures distinct { AreDistinct self.now }
    {
        &self.names
    }

    /// Returns the number of a name, if it is there. Takes time linear in the number of the names.
    pub(crate) fn find(&self, name: &[u8]) -> Option<usize>
        ensures { FindsNumber self.now name.now result }
    {
        for (number, other) in self.names.iter().enumerate() {
            if *other == name {
                return Some(number);
            }
        }
        None
    }

    /// Returns, for each name, its number among other names, if it is there. If the other names are
    /// the same, in the same order, as in most builds of the same image, none is looked up. Fails
    /// if memory runs out.
    pub(crate) fn in_terms_of(
        &self,
        alloc: Global,
        other: &KeptNames<'a>,
    ) -> Result<Vec<Option<usize>>, AllocError>
        ensures { IfOk result (λ numbers.
            AllZip (FindsNumber other.now) self.now numbers.items) }
    {
        if have_same_parts(&self.tails, &other.tails, &self.heads, &other.heads) {
            return own_numbers(alloc, self.names.len());
        }
        self.look_up_in(alloc, other)
    }

    /// Returns, for each name, its number among other names, if it is there. Each block and each
    /// head is looked up once. Fails if memory runs out.
    fn look_up_in(
        &self,
        alloc: Global,
        other: &KeptNames<'a>,
    ) -> Result<Vec<Option<usize>>, AllocError>
        ensures { IfOk result (λ numbers.
            AllZip (FindsNumber other.now) self.now numbers.items) }
    {
        let other_tails = NameParts::of_parts(alloc, &other.tails)?;
        let tails = tails_among(alloc, &self.tails, &other_tails)?;
        let other_heads = NameParts::of_parts(alloc, &other.heads)?;
        parts_among(alloc, &self.heads, &other_heads, &tails)
    }
}
