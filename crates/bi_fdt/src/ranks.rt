//! The ranks of the names of properties: names with lower ranks are first in byte order.

ghost use Rattle.std.specs.Prelude.{◌≡◌, ℕ, List, length, map, slice_index, IfOk};
ghost use Rattle.std.specs.List.{AllZip};
ghost use Rattle.bi_base.specs.Slices.{bytes_of};
ghost use Rattle.bi_blob.specs.Tree.{AreDistinct};
ghost use Rattle.bi_fdt.specs.Numbers.{AreNumbered, IsNumberOf};
ghost use Rattle.bi_fdt.specs.Ranks.{AreRanksOf, IsOrderOfNames, slices_in, names_in};
ghost use Rattle.bi_fdt.specs.TableItems.{TableItem};

use bi_base::are_bytes;
use bi_blob::name_prefix;
use std::alloc::{AllocError, Global};

/// Names in byte order, and their ranks: their indices in this order.
#[derive(Drop)]
pub struct NameRanks<'a> {
    /// The names in byte order.
    pub names: Vec<&'a [u8]>,
    /// The rank of each name, by its number.
    pub ranks: Vec<usize>,
}

/// Returns these names in byte order, each with its number, which is its index. Fails if memory
/// runs out. Requires: the names are distinct.
fn order_names<'a>(
    alloc: Global,
    names: &[&'a [u8]],
) -> Result<Vec<(u64, &'a [u8], usize)>, AllocError>
    requires { AreDistinct (bytes_of names.now) }
    ensures { IfOk result (λ order. IsOrderOfNames names.now order.items) }
{
    let mut order = Vec::with_capacity(alloc, names.len())?;
    for (number, name) in names.iter().enumerate() {
        // The call tells the proof that the name is of bytes, so that prefixes keep their order.
        are_bytes(name);
        order.push((name_prefix(name), *name, number))?;
    }
    order.sort()?;
    Ok(order)
}

/// Returns the names in this order. Fails if memory runs out.
fn names_of_order<'a>(
    alloc: Global,
    order: &[(u64, &'a [u8], usize)],
) -> Result<Vec<&'a [u8]>, AllocError>
    ensures { IfOk result (λ sorted. sorted.items ≡ slices_in order.now) }
{
    order.iter().map(|numbered| numbered.1).collect(alloc)
}

/// Returns the index of each name in this order, by its number. Fails if memory runs out. Requires:
/// the order is that of these names.
fn ranks_of_order(
    alloc: Global,
    names: &[&[u8]],
    order: &[(u64, &[u8], usize)],
) -> Result<Vec<usize>, AllocError>
    requires { IsOrderOfNames names.now order.now }
    ensures { IfOk result (λ ranks.
        AllZip (IsNumberOf (names_in order.now)) (bytes_of names.now) ranks.items) }
{
    let mut ranks = vec![in alloc; 0; order.len()]?;
    for (rank, (_, _, number)) in order.iter().enumerate() {
        ranks[*number] = rank;
    }
    Ok(ranks)
}

/// Returns these names in byte order, and the rank of each by its number: its index in `names`.
/// Takes n log n comparisons for n names; most of them compare numbers. Fails if memory runs out.
/// Requires: the names are distinct.
pub fn rank_names<'a>(alloc: Global, names: &[&'a [u8]]) -> Result<NameRanks<'a>, AllocError>
    requires { AreDistinct (bytes_of names.now) }
    ensures { IfOk result (λ ranked.
        AreRanksOf (bytes_of names.now) (bytes_of ranked.names.items) ranked.ranks.items) }
{
    let order = order_names(alloc, names)?;
    Ok(NameRanks {
        names: names_of_order(alloc, &order)?,
        ranks: ranks_of_order(alloc, names, &order)?,
    })
}

/// Returns the key at each of these numbers, or 0 if there is none. So if the keys are the numbers
/// of names in another list, the result has the numbers in that list of the names that `numbers`
/// gives. Fails if memory runs out.
pub fn keys_at(alloc: Global, keys: &[usize], numbers: &[usize]) -> Result<Vec<usize>, AllocError>
    ensures count { IfOk result (λ found. length found.items ≡ length numbers.now) }
    ensures numbers { (names others : List (List ℕ)) → (table : List TableItem)
        → AllZip (IsNumberOf others) names keys.now → AreNumbered names table numbers.now
        → IfOk result (λ found. AreNumbered others table found.items) }
{
    pick_keys(alloc, keys, numbers)
}

/// Returns the key at each of these numbers, or 0 if there is none. Fails if memory runs out.
fn pick_keys(alloc: Global, keys: &[usize], numbers: &[usize]) -> Result<Vec<usize>, AllocError>
    ensures { IfOk result (λ found. found.items ≡ map (slice_index keys.now) numbers.now) }
{
    numbers
        .iter()
        .map(|number| keys.get(*number).copied().unwrap_or(0))
        .collect(alloc)
}
