//! The numbers that names have among other names, by their parts.

ghost use Rattle.std.specs.Prelude.{◌≡◌, ◌↔◌, ℕ, IfOk, IsTrue, Option, Some, length, slice_get};
ghost use Rattle.bi_fdt.specs.NameParts.{AreOnce, AreAfterTails, parts_of_slices};
ghost use Rattle.bi_fdt.specs.OtherNames.{AreOtherNumbers, AreFoundAmong, AreOwnNumbers};

use crate::name_parts::NameParts;
use std::alloc::{AllocError, Global};

/// Returns the numbers among other parts of these parts, which are blocks, each with the blocks
/// after it. The number of no blocks comes first. Fails if memory runs out. Requires: the blocks
/// after each part have the number of a part before it, and no other part is given twice.
pub(crate) fn tails_among<'a>(
    alloc: Global,
    parts: &[(usize, &'a [u8])],
    others: &NameParts<'a>,
) -> Result<Vec<Option<usize>>, AllocError>
    requires order { AreAfterTails (parts_of_slices parts.now) }
    requires once { AreOnce others.now }
    ensures { IfOk result (λ numbers.
        AreOtherNumbers (parts_of_slices parts.now) others.now numbers.items) }
{
    let mut numbers = Vec::with_capacity(alloc, parts.len())?;
    numbers.push(Some(0))?;
    for (tail, block) in parts {
        let later = option_at(&numbers, *tail);
        numbers.push(others.find_tail(later, block))?;
    }
    Ok(numbers)
}

/// Returns the numbers of these parts among other parts. `tails` has the numbers, among the others,
/// of the blocks after them, by their numbers here. Fails if memory runs out.
pub(crate) fn parts_among<'a>(
    alloc: Global,
    parts: &[(usize, &'a [u8])],
    others: &NameParts<'a>,
    tails: &[Option<usize>],
) -> Result<Vec<Option<usize>>, AllocError>
    ensures { IfOk result (λ numbers.
        AreFoundAmong (parts_of_slices parts.now) others.now tails.now numbers.items) }
{
    let mut numbers = Vec::with_capacity(alloc, parts.len())?;
    for (tail, bytes) in parts {
        let later = option_at(tails, *tail);
        numbers.push(others.find_after(later, bytes))?;
    }
    Ok(numbers)
}

/// Returns the value at an index, if there is one.
fn option_at(values: &[Option<usize>], index: usize) -> Option<usize>
    ensures { (value : Option ℕ) → slice_get values.now index ≡ Some value → result ≡ value }
{
    *values.get(index)?
}

/// Returns the numbers of this many names among themselves. Fails if memory runs out.
pub(crate) fn own_numbers(alloc: Global, count: usize) -> Result<Vec<Option<usize>>, AllocError>
    ensures { IfOk result (λ numbers. AreOwnNumbers count numbers.items) }
{
    let mut numbers = Vec::with_capacity(alloc, count)?;
    for number in 0..count {
        numbers.push(Some(number))?;
    }
    Ok(numbers)
}

/// Returns whether two lists of tails are the same, and two lists of heads.
pub(crate) fn have_same_parts(
    tails: &[(usize, &[u8])],
    other_tails: &[(usize, &[u8])],
    heads: &[(usize, &[u8])],
    other_heads: &[(usize, &[u8])],
) -> bool
    ensures { IsTrue result ↔ (
        (parts_of_slices tails.now ≡ parts_of_slices other_tails.now)
        × (parts_of_slices heads.now ≡ parts_of_slices other_heads.now)) }
{
    are_same_parts(tails, other_tails) && are_same_parts(heads, other_heads)
}

/// Returns whether two lists have the same parts in the same order.
fn are_same_parts(parts: &[(usize, &[u8])], others: &[(usize, &[u8])]) -> bool
    ensures { IsTrue result ↔ (parts_of_slices parts.now ≡ parts_of_slices others.now) }
{
    parts == others
}
