//! Where the parts of an image are in its data, by their sizes.

ghost use Rattle.std.specs.Prelude.{◌≡◌, ◌+◌, ◌*◌, ◌^◌, ◌<◌, ◌≤◌, List, ◌∷◌, length, drop};
ghost use Rattle.std.specs.Prelude.{if◌then◌else◌};
ghost use Rattle.std.specs.Iterator.{YieldsFirst, at_most};
ghost use Rattle.bi_legacy.specs.PartRanges.{IsRangesState, part_sizes, first_part_offset};
ghost use Rattle.bi_legacy.specs.PartRanges.{part_ranges};
ghost use Rattle.bi_legacy.specs.declared.part_ranges.PartRange.{PartRange};

use bi_base::{cell_at, up4};
use std::marker::Model;

/// Where a part is in the data of an image, in bytes. It may end after the data.
#[derive(Clone, Copy)]
pub(crate) struct PartRange {
    pub(crate) start: usize,
    pub(crate) size: usize,
}

/// The ranges of the parts of some data, in their order.
#[derive(Drop)]
pub(crate) struct PartRanges<'a> {
    body: &'a [u8],
    has_table: bool,
    part_count: usize,
    index: usize,
    start: usize,
}

impl<'a> Model for PartRanges<'a> {
    ghost Value = { List PartRange };

    ghost view = { λ ranges. part_ranges ranges.start
        (drop ranges.index (part_sizes ranges.has_table ranges.body.now)) };

    ghost invariant = { λ ranges. IsRangesState
        ranges.has_table ranges.body.now ranges.part_count ranges.index ranges.start };
}

impl<'a> PartRanges<'a> {
    /// Returns the ranges of the parts in the part table, or that of the whole data as the one
    /// part. Requires: `part_count` is the number of the parts, the part table, if there is one, is
    /// within the data, and the data has fewer than 2^31 bytes.
    pub(crate) fn new(body: &'a [u8], has_table: bool, part_count: usize) -> PartRanges<'a>
        requires count { part_count ≡ length (part_sizes has_table body.now) }
        requires room { first_part_offset has_table body.now ≤ length body.now }
        requires small { length body.now < 2 ^ 31 }
        ensures { let body = body.entry.now in
            result ≡ part_ranges (first_part_offset has_table body) (part_sizes has_table body) }
    {
        PartRanges {
            body,
            has_table,
            part_count,
            index: 0,
            start: table_size(has_table, part_count),
        }
    }
}

impl<'a> Iterator for PartRanges<'a> {
    type Item = PartRange;

    ghost next_gives = { YieldsFirst (λ ranges. ranges) };

    ghost remaining = { λ ranges. at_most (length ranges) };

    fn next(&mut self) -> Option<PartRange> {
        if self.index == self.part_count {
            return None;
        }
        let start = self.start;
        let size = size_at(self.body, self.has_table, self.index);
        self.index += 1;
        self.start = up4(start + size);
        Some(PartRange { start, size })
    }
}

/// Returns the size of the part table of this many parts, or 0 for data without one. Requires: a
/// part table of this many parts has fewer than 2^64 bytes.
pub(crate) fn table_size(has_table: bool, part_count: usize) -> usize
    requires { 4 * (part_count + 1) < 2 ^ 64 }
    ensures { result ≡ if has_table then 4 * (part_count + 1) else 0 }
{
    if has_table { 4 * (part_count + 1) } else { 0 }
}

/// Returns the size of part `index`: that in the part table, or the size of the data. Requires:
/// there is a part with this index, the part table, if there is one, is within the data, and the
/// data has fewer than 2^31 bytes.
fn size_at(body: &[u8], has_table: bool, index: usize) -> usize
    requires within { index < length (part_sizes has_table body.now) }
    requires room { first_part_offset has_table body.now ≤ length body.now }
    requires small { length body.now < 2 ^ 31 }
    ensures size { let sizes = part_sizes has_table body.now in
        drop index sizes ≡ result ∷ drop (index + 1) sizes }
    ensures small { result < 2 ^ 32 }
{
    if has_table {
        cell_at(body, 4 * index) as usize
    } else {
        body.len()
    }
}
