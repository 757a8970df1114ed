//! Lists that have each name once.

ghost use Rattle.std.specs.Prelude.{◌≡◌, ◌<◌, [], IfOk, OnOk};
ghost use Rattle.bi_base.specs.Slices.{bytes_of};
ghost use Rattle.bi_blob.specs.Layout.{is_among};
ghost use Rattle.bi_coverage.specs.NameBuckets.{bucket_of_name};
ghost use Rattle.bi_coverage.specs.Paths.{with_new};

use bi_blob::name_prefix;
use std::alloc::{AllocError, Global};
use std::collections::BTreeSet;
use std::marker::Model;

/// Half the greatest number of buckets.
const MOST_PAIRS: usize = 1 << 17;

/// Names in the order in which they were added, each once.
#[derive(Drop)]
pub(crate) struct NameSet<'a> {
    names: Vec<&'a [u8]>,
    /// The same names. The last bytes of a name choose its bucket, so that most buckets are small.
    /// If all names choose the same, a name is still found in log n comparisons.
    buckets: Vec<BTreeSet<&'a [u8]>>,
}

impl<'a> Model for NameSet<'a> {
    ghost use Rattle.std.specs.Prelude.{ℕ, List};
    ghost use Rattle.bi_base.specs.Slices.{bytes_of};
    ghost use Rattle.bi_coverage.specs.NameBuckets.{HaveNames};

    ghost Value = { List (List ℕ) };

    ghost view = { λ set. bytes_of set.names.items };

    ghost invariant = { λ set. HaveNames set.buckets.items (bytes_of set.names.items) };
}

impl<'a> NameSet<'a> {
    /// Returns an empty set, with as many buckets as suit `names` names. Fails if memory runs out.
    pub(crate) fn new(alloc: Global, names: usize) -> Result<NameSet<'a>, AllocError>
        ensures { IfOk result (λ set. set ≡ []) }
    {
        let count = 2 * (names / 8).min(MOST_PAIRS) + 1;
        let mut buckets = Vec::with_capacity(alloc, count)?;
        for _ in 0..count {
            buckets.push(BTreeSet::new(alloc))?;
        }
        Ok(NameSet {
            names: Vec::new(alloc),
            buckets,
        })
    }

    /// Returns the names, in the order in which they were added.
    pub(crate) fn names(&self) -> &[&'a [u8]]
        ensures { bytes_of result.now ≡ self.now }
    {
        &self.names
    }

    /// Returns whether a name is among these.
    pub(crate) fn contains(&self, name: &[u8]) -> bool
        ensures { result ≡ is_among name.now self.now }
    {
        self.buckets[bucket_of(self.buckets.len(), name)].contains(name)
    }

    /// Adds a name, unless it is there. Fails if memory runs out.
    pub(crate) fn add(&mut self, name: &'a [u8]) -> Result<(), AllocError>
        ensures { OnOk result (self.new ≡ with_new self.old name.entry.now) }
    {
        self.names.reserve(1)?;
        let bucket = bucket_of(self.buckets.len(), name);
        if self.buckets[bucket].insert(name)? {
            self.names.push(name).unwrap();
        }
        Ok(())
    }
}

/// Returns the index, below `count`, of the bucket that a name chooses. Requires: `count` is not 0.
fn bucket_of(count: usize, name: &[u8]) -> usize
    requires { 0 < count }
    ensures bucket { result ≡ bucket_of_name count name.now }
    ensures within { result < count }
{
    let last = &name[name.len().saturating_sub(8)..];
    let before = &name[name.len().saturating_sub(16)..];
    let sum = name_prefix(before) / 2 + name_prefix(last) / 2;
    (sum % count as u64) as usize
}
