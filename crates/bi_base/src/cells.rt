//! Cells: big-endian numbers, read at an offset and appended to a sink.
#![tactic(auto, unfolding(crate::specs::Cells::cell, crate::specs::Cells::u32_at))]

ghost use Rattle.std.specs.Prelude.{◌≡◌, ◌+◌, ◌^◌, ◌<◌, ◌≤◌, ◌↔◌, length, IsSome, IfSome};
ghost use Rattle.std.specs.List.{flat_map};
ghost use Rattle.bi_base.specs.Cells.{cell, cell8, slice, u32_at, u64_at, up4 as up4_of};
ghost use Rattle.bi_base.specs.Sinks.{Wrote};

use crate::fault::Error;
use crate::sinks::Sink;

/// Returns the number in the cell at offset `at`, which is four bytes, the highest first
/// (Devicetree Specification, 2.2.4.2: u32). Returns None if the bytes end before the cell does.
pub fn be32_at(bytes: &[u8], at: usize) -> Option<u32>
    ensures within { IsSome result ↔ (at + 4 ≤ length bytes.now) }
    ensures value { IfSome result (λ number. number ≡ u32_at bytes.now at) }
    ensures inverse { IfSome result (λ number. cell number ≡ slice bytes.now at 4) }
{
    let cell = bytes.get(at..)?.first_chunk::<4>()?;
    Some(u32::from_be_bytes(*cell))
}

/// Returns the least multiple of four that is at least `n`. Requires: `n` is at most
/// `usize::MAX - 3`.
pub fn up4(n: usize) -> usize
    requires { n + 3 < 2 ^ 64 }
    ensures { result ≡ up4_of n }
{
    (n + 3) / 4 * 4
}

/// Returns the number in the two cells at offset `at`, which are eight bytes, the highest first
/// (Devicetree Specification, 2.2.4.2: u64). Returns None if the bytes end before the two cells do.
#[tactic(auto, unfolding(crate::specs::Cells::u64_at))]
pub fn be64_at(bytes: &[u8], at: usize) -> Option<u64>
    ensures within { IsSome result ↔ (at + 8 ≤ length bytes.now) }
    ensures value { IfSome result (λ number. number ≡ u64_at bytes.now at) }
    ensures inverse { IfSome result (λ number. cell8 number ≡ slice bytes.now at 8) }
{
    let cells = bytes.get(at..)?.first_chunk::<8>()?;
    Some(u64::from_be_bytes(*cells))
}

/// Returns the number in the cell at offset `at`. Requires: the bytes do not end before the cell
/// does.
pub fn cell_at(bytes: &[u8], at: usize) -> u32
    requires { at + 4 ≤ length bytes.now }
    ensures { result ≡ u32_at bytes.now at }
{
    be32_at(bytes, at).unwrap()
}

/// Returns the number in the two cells at offset `at`. Requires: the bytes do not end before the
/// cells do.
pub fn two_cells_at(bytes: &[u8], at: usize) -> u64
    requires { at + 8 ≤ length bytes.now }
    ensures { result ≡ u64_at bytes.now at }
{
    be64_at(bytes, at).unwrap()
}

/// Appends a number as a cell: its four bytes, the highest first (Devicetree Specification,
/// 2.2.4.2: u32).
///
/// The only errors are those of the sink. After one, the sink is as a failed `put` of the cell
/// leaves it.
pub fn put_cell<S: Sink>(sink: &mut S, number: u32) -> Result<(), Error>
    ensures { Wrote S.appends S.fails sink.old (cell number) result sink.new }
{
    sink.put(&number.to_be_bytes())
}

/// Appends each number as a cell, in order.
///
/// The only errors are those of the sink. After one, the sink is as a failed `put` of all cells
/// leaves it.
pub fn put_cells<S: Sink>(sink: &mut S, numbers: &[u32]) -> Result<(), Error>
    ensures { Wrote S.appends S.fails sink.old (flat_map cell numbers.now) result sink.new }
{
    for &number in numbers {
        put_cell(sink, number)?;
    }
    Ok(())
}
