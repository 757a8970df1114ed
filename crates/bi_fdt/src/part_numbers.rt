//! The numbers of parts of names.

ghost use Rattle.std.specs.Prelude.{◌≡◌, ◌<◌, ℕ, List, cond, None, Some, IfOk, OnOk, OnErr};
ghost use Rattle.std.specs.Borrow.{Bor};
ghost use Rattle.bi_fdt.specs.PartNumbers.{bucket_of, bucket_count, is_same_key, number_in};

use bi_blob::name_prefix;
use std::alloc::{AllocError, Global};
use std::collections::BTreeMap;

/// The number of bytes at the beginning and at the end of a part that choose its map.
const CHOOSING: usize = 8;

/// Half the greatest number of maps.
const MOST_PAIRS: usize = 1 << 15;

/// The number of each part, in one of many ordered maps. The first and the last bytes of a part
/// choose its map, so that most maps are small. If a file has parts that all choose the same map, a
/// look-up still takes log n comparisons.
#[derive(Drop)]
pub(crate) struct PartNumbers<'a> {
    /// The maps. Each finds the number of a part by the number of its tail, its first bytes as a
    /// number, and all of its bytes, which are compared only if both numbers are the same.
    buckets: Vec<BTreeMap<(usize, u64, &'a [u8]), usize>>,
}

impl<'a> PartNumbers<'a> {
    /// Returns no numbers, with as many maps as suit `parts` parts. Fails if memory runs out.
    pub(crate) fn new(alloc: Global, parts: usize) -> Result<PartNumbers<'a>, AllocError>
        ensures some { IfOk result (λ numbers. 0 < bucket_count numbers) }
        ensures none { IfOk result (λ numbers. (part : ℕ × Bor (List ℕ))
            → number_in numbers part ≡ None) }
    {
        // An odd number, since the first bytes of a short part are a multiple of a power of two.
        let count = 2 * (parts / 32).min(MOST_PAIRS) + 1;
        let mut buckets = Vec::with_capacity(alloc, count)?;
        for _ in 0..count {
            buckets.push(BTreeMap::new(alloc))?;
        }
        Ok(PartNumbers { buckets })
    }

    /// Returns the number of the part with the given bytes and a tail with the number `tail`.
    /// Returns None if it does not have one. Requires: there is at least one map.
    pub(crate) fn get(&self, tail: usize, bytes: &'a [u8]) -> Option<usize>
        requires { 0 < bucket_count self.now }
        ensures { result ≡ number_in self.now (tail, bytes.entry) }
    {
        let key = (tail, name_prefix(bytes), bytes);
        let bucket = bucket_at(tail, bytes, self.buckets.len());
        self.buckets[bucket].get(&key).copied()
    }

    /// Gives a number to the part with the given bytes and a tail with the number `tail`. If memory
    /// runs out, the numbers are unchanged. Requires: there is at least one map.
    pub(crate) fn insert(
        &mut self,
        tail: usize,
        bytes: &'a [u8],
        number: usize,
    ) -> Result<(), AllocError>
        requires { 0 < bucket_count self.old }
        ensures inserted { OnOk result ((part : ℕ × Bor (List ℕ)) → number_in self.new part
            ≡ cond (is_same_key (tail, bytes.entry) part) (Some number)
            (number_in self.old part)) }
        ensures failed { OnErr result ((part : ℕ × Bor (List ℕ)) → number_in self.new part
            ≡ number_in self.old part) }
        ensures count { bucket_count self.new ≡ bucket_count self.old }
    {
        let key = (tail, name_prefix(bytes), bytes);
        let bucket = bucket_at(tail, bytes, self.buckets.len());
        self.buckets[bucket].insert(key, number)?;
        Ok(())
    }
}

/// Returns the index, below `count`, of the map of the part with the given bytes and a tail with
/// the number `tail`. Requires: `count` is not 0.
fn bucket_at(tail: usize, bytes: &[u8], count: usize) -> usize
    requires { 0 < count }
    ensures bucket { result ≡ bucket_of count (tail, bytes.entry.now) }
    ensures within { result < count }
{
    let last = &bytes[bytes.len().saturating_sub(CHOOSING)..];
    let sum = name_prefix(bytes) / 4 + name_prefix(last) / 4 + tail as u64 / 2;
    (sum % count as u64) as usize
}
