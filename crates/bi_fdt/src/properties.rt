//! The properties of a node, one after the other.

ghost use Rattle.std.specs.Prelude.{◌≡◌, drop, length, map, List};
ghost use Rattle.std.specs.Iterator.{at_most};
ghost use Rattle.bi_blob.specs.Tree.{FileProperty};
ghost use Rattle.bi_fdt.specs.Table.{item_in};
ghost use Rattle.bi_fdt.specs.TableItems.{first_properties};
ghost use Rattle.bi_fdt.specs.Properties.{GivesProperty};

use crate::table::{Entry, Property};
use std::marker::Model;

/// An iterator over the properties of a node, in their order in the file.
#[derive(Drop)]
pub struct Properties<'a, 'b> {
    file: &'a [u8],
    entries: &'b [Entry],
    index: usize,
}

impl<'a, 'b> Model for Properties<'a, 'b> {
    ghost Value = { List FileProperty };

    ghost view = { λ properties. first_properties
        (map (item_in properties.file.now) (drop properties.index properties.entries.now)) };
}

impl<'a, 'b> Properties<'a, 'b> {
    /// Returns the properties that these entries of a file begin with.
    pub(crate) fn new(file: &'a [u8], entries: &'b [Entry]) -> Properties<'a, 'b>
        ensures { result
            ≡ first_properties (map (item_in file.entry.now) entries.entry.now) }
    {
        Properties {
            file,
            entries,
            index: 0,
        }
    }
}

impl<'a, 'b> Iterator for Properties<'a, 'b> {
    type Item = Property<'a>;

    ghost next_gives = { GivesProperty };

    ghost remaining = { λ properties. at_most (length properties) };

    fn next(&mut self) -> Option<Property<'a>> {
        let entry = *self.entries.get(self.index)?;
        match entry {
            Entry::Property(property, _) => {
                self.index += 1;
                Some(property.property_in(self.file))
            }
            Entry::Node(_) => None,
        }
    }
}
