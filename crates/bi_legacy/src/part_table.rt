//! The part table of multi-file images and scripts: how many parts there are, and where the last
//! one ends in the data.

ghost use Rattle.std.specs.Prelude.{◌≡◌, true, ◌+◌, ◌*◌, ◌^◌, ◌<◌, ◌≤◌, ◌↔◌, length, IsSome};
ghost use Rattle.std.specs.Prelude.{IfSome, IfOk, OnOk, IfErr};
ghost use Rattle.std.specs.List.{Contains};
ghost use Rattle.bi_base.specs.Checks.{IsFirstFault, HasNoFault};
ghost use Rattle.bi_legacy.specs.Meaning.{has_part_table};
ghost use Rattle.bi_legacy.specs.Parts.{parts_end_from};
ghost use Rattle.bi_legacy.specs.PartTables.{TablePasses, table_fault, table_checks, body_checks};
ghost use Rattle.bi_legacy.specs.PartTables.{part_checks, cells_of, table_sizes};
ghost use Rattle.bi_legacy.specs.PartRanges.{FitWithin, IsPartTable};

use crate::fields::has_part_table;
use crate::header::HEADER_SIZE;
use crate::part_ranges::PartRanges;
use bi_base::{Cause, Fault, be32_at, refuse};

/// The number of parts of some data, and the offset in the data at which the last one ends, or at
/// which the part table ends if there are no parts.
#[derive(Clone, Copy)]
pub(crate) struct PartTable {
    pub(crate) part_count: usize,
    pub(crate) end: usize,
}

/// Counts the parts in the data of an image of this type, and finds the end of the last one. The
/// data of an image without a part table is one part. Requires: the data has fewer than 2^31 bytes.
///
/// Fails with BadPartTable at 64 if the part table has no end, else with BadPart at `64 + 4 * k`
/// for the first part k that ends after the data.
pub(crate) fn find_parts(image_type: u8, body: &[u8]) -> Result<PartTable, Fault>
    requires { length body.now < 2 ^ 31 }
    ensures ok { OnOk result (HasNoFault (TablePasses body.now) (body_checks image_type body.now)) }
    ensures table { IfOk result (IsPartTable (has_part_table image_type) body.now) }
    ensures fault { IfErr result
        (IsFirstFault (TablePasses body.now) table_fault (body_checks image_type body.now)) }
{
    if has_part_table(image_type) {
        read_part_table(body)
    } else {
        Ok(PartTable {
            part_count: 1,
            end: body.len(),
        })
    }
}

/// Reads the part table at the start of some data. The errors are those of `find_parts`. Requires:
/// the data has fewer than 2^31 bytes.
fn read_part_table(body: &[u8]) -> Result<PartTable, Fault>
    requires { length body.now < 2 ^ 31 }
    ensures ok { OnOk result (HasNoFault (TablePasses body.now) (table_checks body.now)) }
    ensures table { IfOk result (IsPartTable true body.now) }
    ensures fault { IfErr result
        (IsFirstFault (TablePasses body.now) table_fault (table_checks body.now)) }
{
    let Some(part_count) = count_sizes(body) else {
        return refuse(Cause::BadPartTable, HEADER_SIZE as u32);
    };
    let end = end_of_parts(body, part_count)?;
    Ok(PartTable { part_count, end })
}

/// Returns the number of sizes in the part table, which ends at the first cell of zero. Returns
/// None if no whole cell of the data is zero.
fn count_sizes(body: &[u8]) -> Option<usize>
    ensures ends { IsSome result ↔ Contains (cells_of body.now) 0 }
    ensures count { IfSome result (λ count. count ≡ length (table_sizes body.now)) }
    ensures room { IfSome result (λ count. 4 * (count + 1) ≤ length body.now) }
{
    let mut count = 0;
    while let Some(size) = be32_at(body, 4 * count) {
        if size == 0 {
            return Some(count);
        }
        count += 1;
    }
    None
}

/// Returns the end of the last of the parts in a part table, or of the table itself if there are no
/// parts. Fails with BadPart for the first part that ends after the data. Requires: `part_count` is
/// the number of the parts, the part table is within the data, and the data has fewer than 2^31
/// bytes.
fn end_of_parts(body: &[u8], part_count: usize) -> Result<usize, Fault>
    requires count { part_count ≡ length (table_sizes body.now) }
    requires room { 4 * (part_count + 1) ≤ length body.now }
    requires small { length body.now < 2 ^ 31 }
    ensures fit { let sizes = table_sizes body.now in
        OnOk result (FitWithin (length body.now) (4 * (part_count + 1)) sizes) }
    ensures end { let sizes = table_sizes body.now in
        IfOk result (λ end.
        (end ≡ parts_end_from (4 * (part_count + 1)) sizes) × (end ≤ length body.now)) }
    ensures fault { let checks = part_checks 0 (4 * (part_count + 1)) (table_sizes body.now) in
        IfErr result (IsFirstFault (TablePasses body.now) table_fault checks) }
{
    let mut end = 4 * (part_count + 1);
    for (index, range) in PartRanges::new(body, true, part_count).enumerate() {
        end = range.start + range.size;
        if end > body.len() {
            return refuse(Cause::BadPart, table_offset(index));
        }
    }
    Ok(end)
}

/// Returns the offset in the file of the size of part `index`, a cell of the part table. Requires:
/// the offset is less than 2^32.
pub(crate) fn table_offset(index: usize) -> u32
    requires { 64 + 4 * index < 2 ^ 32 }
    ensures { result ≡ 64 + 4 * index }
{
    (HEADER_SIZE + 4 * index) as u32
}
