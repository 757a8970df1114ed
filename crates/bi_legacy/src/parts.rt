//! The parts of an image, in their order.

ghost use Rattle.std.specs.Prelude.{◌≡◌, ◌^◌, ◌<◌, List, length, map};
ghost use Rattle.std.specs.Iterator.{YieldsFirstBy, at_most};
ghost use Rattle.std.specs.List.{AllByRecursion};
ghost use Rattle.bi_legacy.specs.PartRanges.{IsPartTable, EndsWithin, placed_slice, placed_slices};
ghost use Rattle.bi_legacy.specs.PartRanges.{part_sizes, first_part_offset};
ghost use Rattle.bi_legacy.specs.PlacedParts.{PartModel, part_model};

use crate::header::HEADER_SIZE;
use crate::part_ranges::PartRanges;
use crate::part_table::PartTable;
use std::marker::Model;

/// A part of a legacy image.
#[derive(Clone, Copy, Debug, PartialEq, Eq)]
pub struct Part<'a> {
    /// The offset of the part's first byte in the file.
    pub place: u32,
    /// The bytes of the part.
    pub bytes: &'a [u8],
}

/// An iterator over the parts of a legacy image, in their order.
#[derive(Drop)]
pub struct Parts<'a> {
    body: &'a [u8],
    ranges: PartRanges<'a>,
}

impl<'a> Model for Parts<'a> {
    ghost Value = { List PartModel };

    ghost view = { λ parts. map (placed_slice parts.body.now) parts.ranges };

    ghost invariant = { λ parts. let size = length parts.body.now in
        AllByRecursion (EndsWithin size) parts.ranges × size < 2 ^ 31 };
}

impl<'a> Parts<'a> {
    /// Returns the parts of some data: those in its part table, or the whole as the one part.
    /// Requires: the table is that of the data, which has fewer than 2^31 bytes, and all parts end
    /// within the data.
    pub(crate) fn new(body: &'a [u8], has_table: bool, table: PartTable) -> Parts<'a>
        requires { IsPartTable has_table body.now table }
        ensures { let body = body.entry.now in
            let first = first_part_offset has_table body in
            result ≡ placed_slices body first (part_sizes has_table body) }
    {
        Parts {
            body,
            ranges: PartRanges::new(body, has_table, table.part_count),
        }
    }
}

impl<'a> Iterator for Parts<'a> {
    type Item = Part<'a>;

    ghost next_gives = { YieldsFirstBy part_model (λ parts. parts) };

    ghost remaining = { λ parts. at_most (length parts) };

    fn next(&mut self) -> Option<Part<'a>> {
        let range = self.ranges.next()?;
        Some(Part {
            place: (HEADER_SIZE + range.start) as u32,
            bytes: &self.body[range.start..range.start + range.size],
        })
    }
}
