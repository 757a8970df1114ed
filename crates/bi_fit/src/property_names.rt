//! The names of the properties that a text may have.

ghost use Rattle.std.specs.Prelude.{◌≡◌, IfOk};
ghost use Rattle.bi_base.specs.Slices.{bytes_of};
ghost use Rattle.bi_fit.specs.ChangedNames.{is_payload_rank};

use std::alloc::{AllocError, Global};
use std::marker::Model;

/// The names of the properties that a text may have, in byte order, each once. The rank of a name
/// is its index.
#[derive(Drop)]
pub struct PropertyNames<'a> {
    names: Vec<&'a [u8]>,
    ranks: ChangedNumbers,
}

/// A number for the name of each property that a text adds, changes or leaves out: its index in a
/// list of names. In a list in byte order it is the rank.
#[derive(Clone, Copy)]
pub(crate) struct ChangedNumbers {
    /// The number of `data`.
    pub(crate) payload: usize,
    /// The number of `data-offset`.
    pub(crate) offset: usize,
    /// The number of `data-position`.
    pub(crate) position: usize,
    /// The number of `data-size`.
    pub(crate) size: usize,
    /// The number of `timestamp`.
    pub(crate) time: usize,
    /// The number of `value`.
    pub(crate) digest: usize,
}

impl<'a> Model for PropertyNames<'a> {
    ghost use Rattle.std.specs.Prelude.{ℕ, List};
    ghost use Rattle.bi_base.specs.Slices.{bytes_of};
    ghost use Rattle.bi_fit.specs.ChangedNames.{AreRankedNames};

    ghost Value = { List (List ℕ) };

    ghost view = { λ names. bytes_of names.names.items };

    ghost invariant = { λ names. AreRankedNames (bytes_of names.names.items) names.ranks };
}

impl<'a> PropertyNames<'a> {
    ghost use Rattle.bi_fit.specs.ChangedNames.{AreRankedNames};

    /// Returns these names. The ranks are their indices. Requires: the names are in byte order,
    /// each once, and the ranks are those of the properties that a text adds, changes or leaves
    /// out.
    pub(crate) fn new(names: Vec<&'a [u8]>, ranks: ChangedNumbers) -> PropertyNames<'a>
        requires { AreRankedNames (bytes_of names.items) ranks }
        ensures { result ≡ bytes_of names.entry.items }
    {
        PropertyNames { names, ranks }
    }

    /// Returns the names. The rank of each is its index.
    pub fn as_slice(&self) -> &[&'a [u8]]
        ensures { bytes_of result.now ≡ self.now }
    {
        &self.names
    }

    /// Returns a copy of the list of the names. Fails if memory runs out.
    pub(crate) fn to_vec(&self, alloc: Global) -> Result<Vec<&'a [u8]>, AllocError>
        ensures { IfOk result (λ names. bytes_of names.items ≡ self.now) }
    {
        let mut names = Vec::with_capacity(alloc, self.names.len())?;
        names.extend_from_slice(&self.names)?;
        Ok(names)
    }

    /// Returns the ranks of the names of the properties that a text adds, changes or leaves out.
    pub(crate) fn ranks(&self) -> ChangedNumbers
        ensures { AreRankedNames self.now result }
    {
        self.ranks
    }
}

impl ChangedNumbers {
    /// Returns whether a property with the given rank holds a payload or names its region.
    pub(crate) fn is_payload(self, rank: usize) -> bool
        ensures { result ≡ is_payload_rank self rank }
    {
        rank == self.payload || rank == self.offset || rank == self.position || rank == self.size
    }
}
