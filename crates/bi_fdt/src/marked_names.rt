//! The names of the properties of a node, while the node is read.

ghost use Rattle.std.specs.Prelude.{◌≡◌, [], length, IfOk};
ghost use Rattle.bi_blob.specs.Tokens.{name_from};
ghost use Rattle.bi_blob.specs.BlobFaults.{HasName};
ghost use Rattle.bi_fdt.specs.PropertyMarks.{AddsName};

use crate::strings::Strings;
use crate::used_names::UsedNames;
use std::alloc::{AllocError, Global};
use std::marker::Model;

/// The names that properties have had so far, each with the mark of the last node that has a
/// property with that name. So it is known at once whether a node has a name, and nothing is
/// cleared when a node begins.
#[derive(Drop)]
pub(crate) struct MarkedNames<'a> {
    names: UsedNames<'a>,
    /// The mark of each name, by its number.
    marks: Vec<u32>,
}

impl<'a> Model for MarkedNames<'a> {
    ghost use Rattle.std.specs.Prelude.{◌≡◌, length};
    ghost use Rattle.bi_fdt.specs.PropertyMarks.{MarkedNames as Marked};

    ghost Value = { Marked };

    ghost view = { λ names. record {
      strings = names.names.strings;
      used = names.names.used;
      marks = names.marks.items;
    } };

    ghost invariant = { λ names. length names.marks.items ≡ length names.names.used };
}

impl<'a> MarkedNames<'a> {
    /// Returns a strings block with no name used yet. Takes time and memory linear in its length.
    pub(crate) fn new(alloc: Global, strings: &Strings<'a>) -> Result<MarkedNames<'a>, AllocError>
        ensures { IfOk result (λ names.
            names ≡ record { strings = strings.now; used = []; marks = [] }) }
    {
        Ok(MarkedNames {
            names: UsedNames::new(alloc, strings)?,
            marks: Vec::new(alloc),
        })
    }

    /// Adds the name at offset `at` to those of the properties of the node with this mark, and
    /// returns its number. Returns None if the node already has the name. Reads at most 127 bytes
    /// of the name, however long it is. Fails if memory runs out. Requires: `name` is the name at
    /// offset `at`, which a zero byte ends.
    pub(crate) fn insert(
        &mut self,
        at: usize,
        name: &'a [u8],
        mark: u32,
    ) -> Result<Option<usize>, AllocError>
        requires there { HasName self.old.strings at (length self.old.strings) }
        requires name { name.now ≡ name_from self.old.strings at }
        ensures added { IfOk result (λ number.
            AddsName self.old name.entry.now mark number self.new) }
        ensures strings { self.new.strings ≡ self.old.strings }
    {
        self.marks.reserve(1)?;
        let number = self.names.number_at(at, name)?;
        if number == self.marks.len() {
            self.marks.push(mark).unwrap();
            return Ok(Some(number));
        }
        if self.marks[number] == mark {
            return Ok(None);
        }
        self.marks[number] = mark;
        Ok(Some(number))
    }

    /// Returns the names without their marks.
    pub(crate) fn into_names(self) -> UsedNames<'a>
        ensures strings { result.strings ≡ self.entry.strings }
        ensures used { result.used ≡ self.entry.used }
    {
        let MarkedNames { names, marks: _ } = self;
        names
    }
}
