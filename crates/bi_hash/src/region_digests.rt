//! The digests of regions of a file.

ghost use Rattle.std.specs.Prelude.{◌≡◌, ◌++◌, OnOk, OnErr, IfOk, IfSome};
ghost use Rattle.std.specs.Option.{option_copied, option_map};
ghost use Rattle.bi_hash.specs.Digests.{digest_or_nothing, padded_digest};
ghost use Rattle.bi_hash.specs.KeptDigests.{AreDigestsOf, KeepsDigest, KeepsAll, digest_key};
ghost use Rattle.bi_hash.specs.Regions.{IsRegionOf, bytes_of_region};
ghost use Rattle.bi_hash.specs.Verdicts.{verdict_of};

use crate::algo::Algo;
use crate::hash_node::StatedDigest;
use crate::verdicts::Verdict;
use std::alloc::{AllocError, Global};
use std::collections::BTreeMap;
use std::marker::Model;

/// A region of a file.
#[derive(Clone, Copy, Debug, PartialEq, Eq)]
pub struct Region {
    /// The offset of its first byte.
    pub begin: usize,
    /// Its length in bytes.
    pub length: usize,
}

/// The digests of regions of a file. Each is computed once, when it is first needed.
///
/// A digest is kept by its algorithm and by the offset and the length of its region. So each
/// look-up takes log n comparisons for n kept digests, and each kept digest takes 88 bytes in a
/// map. Regions that share bytes, or that have equal bytes, have separate digests.
#[derive(Drop)]
pub struct RegionDigests<'a> {
    file: &'a [u8],
    /// Each digest that was computed, with zeros after it, by the offset and the length of its
    /// region and the index of its algorithm.
    digests: BTreeMap<(usize, usize, usize), [u8; 64]>,
}

impl<'a> Model for RegionDigests<'a> {
    ghost use Rattle.std.specs.Prelude.{List, ℕ};

    ghost Value = { List ℕ };

    ghost use Rattle.bi_hash.specs.KeptDigests.{AreKept};

    ghost view = { λ digests. digests.file.now };

    ghost invariant = { AreKept };
}

impl<'a> RegionDigests<'a> {
    /// Returns the digests of the regions of a file. No digest is computed yet, and nothing is
    /// allocated.
    pub fn new(alloc: Global, file: &'a [u8]) -> RegionDigests<'a>
        ensures { result ≡ file.entry.now }
    {
        RegionDigests {
            file,
            digests: BTreeMap::new(alloc),
        }
    }

    /// Judges a hash node by the values of its properties `algo` and `value`, as the function
    /// `verdict` does. Its payload, if there is one, is a region. Reads the region if the verdict
    /// needs a digest that was not computed before. Fails if memory runs out. Requires: the region
    /// is within the file.
    pub fn verdict(
        &mut self,
        algo: Option<&[u8]>,
        value: Option<&[u8]>,
        payload: Option<Region>,
    ) -> Result<Verdict, AllocError>
        requires within { IfSome payload (IsRegionOf self.old) }
        ensures verdict { IfOk result (λ verdict. verdict ≡ verdict_of
            (option_copied algo.entry)
            (option_copied value.entry)
            (option_map (bytes_of_region self.old) payload)) }
        ensures same { self.new ≡ self.old }
    {
        let stated = match StatedDigest::read(algo, value) {
            Ok(stated) => stated,
            Err(verdict) => return Ok(verdict),
        };
        let Some(payload) = payload else {
            return Ok(Verdict::NoPayload);
        };
        let digest = self.digest(stated.algo, payload)?;
        Ok(stated.judge(&digest))
    }

    /// Adds the digest of a payload with this algorithm to the end of `bytes`, or nothing if there
    /// is no payload. Reads the region of the payload if the digest was not computed before. Fails
    /// if memory runs out. `bytes` is then unchanged. Requires: the region is within the file.
    pub fn append_digest(
        &mut self,
        algo: Algo,
        payload: Option<Region>,
        bytes: &mut Vec<u8>,
    ) -> Result<(), AllocError>
        requires within { IfSome payload (IsRegionOf self.old) }
        ensures added { OnOk result (bytes.new.items ≡ bytes.old.items
            ++ digest_or_nothing algo (option_map (bytes_of_region self.old) payload)) }
        ensures failed { OnErr result (bytes.new.items ≡ bytes.old.items) }
        ensures same { self.new ≡ self.old }
    {
        if let Some(payload) = payload {
            let digest = self.digest(algo, payload)?;
            bytes.extend_from_slice(&digest[..algo.digest_size()])?;
        }
        Ok(())
    }

    /// Judges a hash node, as `verdict` does, but allocates nothing: a digest that was not computed
    /// before is computed and not kept. Takes no longer than a look-up if `verdict` has judged a
    /// node with the same algorithm and the same payload. Requires: the region is within the file.
    pub fn judge(
        &self,
        algo: Option<&[u8]>,
        value: Option<&[u8]>,
        payload: Option<Region>,
    ) -> Verdict
        requires within { IfSome payload (IsRegionOf self.now) }
        ensures { result ≡ verdict_of
            (option_copied algo.entry)
            (option_copied value.entry)
            (option_map (bytes_of_region self.now) payload) }
    {
        let stated = match StatedDigest::read(algo, value) {
            Ok(stated) => stated,
            Err(verdict) => return verdict,
        };
        match payload {
            Some(payload) => stated.judge(&self.kept_or_computed(stated.algo, payload)),
            None => Verdict::NoPayload,
        }
    }

    /// Returns the digest of a region with this algorithm, with zeros after it. Reads the region if
    /// the digest was not computed before. Fails if memory runs out. Requires: the region is within
    /// the file.
    pub fn digest(&mut self, algo: Algo, region: Region) -> Result<[u8; 64], AllocError>
        requires within { IsRegionOf self.old region }
        ensures digest { IfOk result (λ digest. digest
            ≡ padded_digest algo (bytes_of_region self.old region)) }
        ensures same { self.new ≡ self.old }
    {
        keep_digest(&mut self.digests, self.file, algo, region)
    }

    /// Returns the digest of a region with this algorithm, with zeros after it. Reads the region if
    /// the digest was not computed before. It does not then keep the digest. Requires: the region
    /// is within the file.
    fn kept_or_computed(&self, algo: Algo, region: Region) -> [u8; 64]
        requires within { IsRegionOf self.now region }
        ensures { result ≡ padded_digest algo (bytes_of_region self.now region) }
    {
        let kept = self
            .digests
            .get(&(region.begin, region.length, algo.index()));
        match kept {
            Some(digest) => *digest,
            None => compute_digest(self.file, algo, region),
        }
    }
}

/// Returns the digest of a region of a file with this algorithm, with zeros after it. The digest is
/// then in the map, beside all that was there. Reads the region only if the digest was not there.
/// Fails if memory runs out. Requires: the region is within the file, and the digests in the map
/// are those of their regions.
fn keep_digest(
    digests: &mut BTreeMap<(usize, usize, usize), [u8; 64]>,
    file: &[u8],
    algo: Algo,
    region: Region,
) -> Result<[u8; 64], AllocError>
    requires within { IsRegionOf file.now region }
    requires right { AreDigestsOf file.now digests.old }
    ensures digest { IfOk result (λ digest. digest
        ≡ padded_digest algo (bytes_of_region file.now region)) }
    ensures kept { IfOk result (KeepsDigest digests.new (digest_key region algo)) }
    ensures others { KeepsAll digests.old digests.new }
    ensures right { AreDigestsOf file.now digests.new }
{
    let key = (region.begin, region.length, algo.index());
    if let Some(digest) = digests.get(&key) {
        return Ok(*digest);
    }
    let digest = compute_digest(file, algo, region);
    digests.insert(key, digest)?;
    Ok(digest)
}

/// Computes the digest of a region of a file with this algorithm, with zeros after it. Reads the
/// region. Requires: the region is within the file.
fn compute_digest(file: &[u8], algo: Algo, region: Region) -> [u8; 64]
    requires within { IsRegionOf file.now region }
    ensures { result ≡ padded_digest algo (bytes_of_region file.now region) }
{
    let bytes = &file[region.begin..region.begin + region.length];
    let mut digest = [0; 64];
    algo.digest(bytes, &mut digest);
    digest
}
