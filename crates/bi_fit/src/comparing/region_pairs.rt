//! Comparing regions of two files.

ghost use Rattle.std.specs.Prelude.{◌↔◌, ◌+◌, ◌<◌, ◌^◌, length, IsSome, IfSome, IsTrue};
ghost use Rattle.std.specs.List.{AllByRecursion};
ghost use Rattle.bi_fit.specs.RegionPairs.{AreInFiles, HasSameBytes, BeginsWithin};

/// A region of a file, and a region of the same length of another file.
#[derive(Clone, Copy, PartialEq, Eq, PartialOrd, Ord)]
pub(super) struct RegionPair {
    /// The offset of the other region and the length of the file, less the offset of the region.
    pub(super) distance: usize,
    /// The offset of the region.
    pub(super) begin: usize,
    /// The offset of its end.
    pub(super) end: usize,
}

/// Returns whether the two regions of each of these pairs have the same bytes. Pairs with the same
/// distance that follow one another in the order of their offsets, as after a sort, are compared in
/// time linear in the bytes of the file that they cover, even if they share bytes. Requires: the
/// files together have fewer than 2^64 bytes, and both regions of each pair are within their files.
pub(super) fn have_same_bytes(file: &[u8], other: &[u8], pairs: &[RegionPair]) -> bool
    requires small { length other.now + length file.now < 2 ^ 64 }
    requires within { AllByRecursion (AreInFiles file.now other.now) pairs.now }
    ensures { IsTrue result ↔ AllByRecursion (HasSameBytes file.now other.now) pairs.now }
{
    let mut compared = RegionPair {
        distance: file.len(),
        begin: 0,
        end: 0,
    };
    for pair in pairs {
        match compare_pair(file, other, compared, *pair) {
            Some(next) => compared = next,
            None => return false,
        }
    }
    true
}

/// Compares the two regions of a pair, except for bytes that are in the pair `compared`. Returns a
/// pair of regions with the same bytes, or None if the regions of this pair differ. Requires: the
/// files together have fewer than 2^64 bytes, both regions of each pair are within their files, and
/// the regions of `compared` have the same bytes.
fn compare_pair(
    file: &[u8],
    other: &[u8],
    compared: RegionPair,
    pair: RegionPair,
) -> Option<RegionPair>
    requires small { length other.now + length file.now < 2 ^ 64 }
    requires within { AreInFiles file.now other.now compared }
    requires pair_within { AreInFiles file.now other.now pair }
    requires same { HasSameBytes file.now other.now compared }
    ensures some { IsSome result ↔ HasSameBytes file.now other.now pair }
    ensures within { IfSome result (AreInFiles file.now other.now) }
    ensures same { IfSome result (HasSameBytes file.now other.now) }
{
    if !begins_within(compared, pair) {
        return is_same_pair(file, other, pair).then_some(pair);
    }
    if pair.end <= compared.end {
        return Some(compared);
    }
    let rest = RegionPair {
        begin: compared.end,
        ..pair
    };
    let both = RegionPair {
        end: pair.end,
        ..compared
    };
    is_same_pair(file, other, rest).then_some(both)
}

/// Returns whether a pair of the same distance begins within another pair, or at its end.
fn begins_within(compared: RegionPair, pair: RegionPair) -> bool
    ensures { IsTrue result ↔ BeginsWithin compared pair }
{
    pair.distance == compared.distance && compared.begin <= pair.begin && pair.begin <= compared.end
}

/// Returns whether the two regions of a pair have the same bytes. Requires: the files together have
/// fewer than 2^64 bytes, and both regions are within their files.
fn is_same_pair(file: &[u8], other: &[u8], pair: RegionPair) -> bool
    requires small { length other.now + length file.now < 2 ^ 64 }
    requires within { AreInFiles file.now other.now pair }
    ensures { IsTrue result ↔ HasSameBytes file.now other.now pair }
{
    let begin = pair.begin + pair.distance - file.len();
    let end = pair.end + pair.distance - file.len();
    file[pair.begin..pair.end] == other[begin..end]
}
