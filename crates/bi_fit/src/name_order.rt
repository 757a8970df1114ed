//! The order of the names of a file's properties.

ghost use Rattle.std.specs.Prelude.{◌≡◌, ◌<◌, ◌≤◌, ℕ, List, slice_index_or, length, flat_map};
ghost use Rattle.std.specs.Prelude.{OnOk, IfOk, IfErr};
ghost use Rattle.std.specs.List.{AllZip};
ghost use Rattle.bi_base.specs.Errors.{IsFaultOrNoMemory};
ghost use Rattle.bi_base.specs.Reading.{too_large};
ghost use Rattle.bi_base.specs.Slices.{bytes_of};
ghost use Rattle.bi_fdt.specs.Content.{root_of};
ghost use Rattle.bi_fdt.specs.Numbers.{IsNumberOf, names_of_table};
ghost use Rattle.bi_fit.specs.ChangedNames.{AreChangedNumbers, with_missing, with_changed_names};
ghost use Rattle.bi_fdt.specs.Numbers.{BeginsWith};
ghost use Rattle.bi_fit.specs.LongNames.{name_if_long, HasLongerNames};

use crate::fit::Fit;
use crate::long_names::check_long_names;
use crate::property_names::{ChangedNumbers, PropertyNames};
use bi_base::Error;
use bi_fdt::{Blob, NameRanks, PropertyOrder, keys_at, rank_names};
use std::alloc::{AllocError, Global};

/// The names of a file's properties in byte order, and the order of the properties of each node by
/// their names.
#[derive(Drop)]
pub struct NameOrder<'a> {
    /// The names of the properties, and those of the properties that a text adds or leaves out.
    pub names: PropertyNames<'a>,
    /// The properties of each node in the order of the ranks of their names.
    pub properties: PropertyOrder,
}

impl<'a> Fit<'a> {
    ghost use Rattle.bi_fit.specs.NameOrders.{IsNameOrder};

    /// Puts the names of the properties in byte order, and the properties of each node in the order
    /// of their names. The long names (of 64 bytes or more) are together no longer than the limit,
    /// which is checked before they are compared. Makes n log n comparisons of names, for n
    /// different names.
    ///
    /// Errors: TooLarge at the limit, only if the different long names together are longer than
    /// that; OutOfMemory.
    pub fn name_order(&self, alloc: Global, limit: u32) -> Result<NameOrder<'a>, Error>
        ensures order { IfOk result (IsNameOrder self.now.blob.table) }
        ensures short { IfOk result (λ order. length (flat_map name_if_long order.names) ≤ limit) }
        ensures failed { IfErr result (IsFaultOrNoMemory
            (λ fault. (fault ≡ too_large limit) × HasLongerNames limit (root_of self.now.blob))) }
    {
        NameOrder::new(alloc, self.blob(), limit)
    }
}

impl<'a> NameOrder<'a> {
    ghost use Rattle.bi_fit.specs.NameOrders.{IsNameOrder};

    /// Does what `Fit::name_order` does, for a blob.
    pub(crate) fn new(alloc: Global, blob: &Blob<'a>, limit: u32) -> Result<NameOrder<'a>, Error>
        ensures order { IfOk result (IsNameOrder blob.now.table) }
        ensures short { IfOk result (λ order. length (flat_map name_if_long order.names) ≤ limit) }
        ensures failed { IfErr result (IsFaultOrNoMemory
            (λ fault. (fault ≡ too_large limit) × HasLongerNames limit (root_of blob.now))) }
    {
        check_long_names(blob.names(), limit)?;
        let mut names = Vec::with_capacity(alloc, blob.names().len())?;
        names.extend_from_slice(blob.names())?;
        let numbers = number_changed(blob, &mut names)?;
        let ranked = rank_names(alloc, &names)?;
        let keys = keys_at(alloc, &ranked.ranks, &blob.name_numbers(alloc)?)?;
        let properties = PropertyOrder::new(alloc, blob, &keys)?;
        let ranks = ranks_at(&ranked.ranks, numbers);
        Ok(NameOrder {
            names: PropertyNames::new(ranked.names, ranks),
            properties,
        })
    }
}

/// Adds the names of the properties that a text adds, changes or leaves out to those of the
/// properties of a blob, except those that a property of the blob has. Returns the number of each.
/// Fails if memory runs out. Requires: the names are those of the properties of the blob.
fn number_changed<'a>(
    blob: &Blob<'a>,
    names: &mut Vec<&'a [u8]>,
) -> Result<ChangedNumbers, AllocError>
    requires { bytes_of names.old.items ≡ names_of_table blob.now.table }
    ensures numbers { IfOk result (AreChangedNumbers (bytes_of names.new.items)) }
    ensures names { OnOk result
        (bytes_of names.new.items ≡ with_changed_names (names_of_table blob.now.table)) }
{
    Ok(ChangedNumbers {
        payload: number_name(blob, names, b"data")?,
        offset: number_name(blob, names, b"data-offset")?,
        position: number_name(blob, names, b"data-position")?,
        size: number_name(blob, names, b"data-size")?,
        time: number_name(blob, names, b"timestamp")?,
        digest: number_name(blob, names, b"value")?,
    })
}

/// Returns the number of a name. If no property of the blob has the name, it is added to the names.
/// Fails if memory runs out. Requires: the name has fewer than 128 bytes, and the names begin with
/// those of the blob.
fn number_name<'a>(
    blob: &Blob<'a>,
    names: &mut Vec<&'a [u8]>,
    name: &'a [u8],
) -> Result<usize, AllocError>
    requires short { length name.now < 128 }
    requires begin { BeginsWith (bytes_of names.old.items) (names_of_table blob.now.table) }
    ensures number { IfOk result (IsNumberOf (bytes_of names.new.items) name.entry.now) }
    ensures names { let base = names_of_table blob.now.table in OnOk result
        (bytes_of names.new.items ≡ with_missing base (bytes_of names.old.items) name.entry.now) }
{
    if let Some(number) = blob.name_number(name) {
        return Ok(number);
    }
    let number = names.len();
    names.push(name)?;
    Ok(number)
}

/// Returns the ranks of the names with these numbers. `ranks` is by number.
fn ranks_at(ranks: &[usize], numbers: ChangedNumbers) -> ChangedNumbers
    ensures { (names sorted : List (List ℕ)) → AllZip (IsNumberOf sorted) names ranks.now
        → AreChangedNumbers names numbers → AreChangedNumbers sorted result }
{
    ChangedNumbers {
        payload: rank_at(ranks, numbers.payload),
        offset: rank_at(ranks, numbers.offset),
        position: rank_at(ranks, numbers.position),
        size: rank_at(ranks, numbers.size),
        time: rank_at(ranks, numbers.time),
        digest: rank_at(ranks, numbers.digest),
    }
}

/// Returns the rank at a number, or 0 if no name has the number.
fn rank_at(ranks: &[usize], number: usize) -> usize
    ensures { result ≡ slice_index_or ranks.now number 0 }
{
    ranks.get(number).copied().unwrap_or(0)
}
