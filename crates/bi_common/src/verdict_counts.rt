//! How many hash nodes have each verdict.

ghost use Rattle.std.specs.Prelude.{◌≡◌, ◌<◌, ◌≤◌, ◌+◌, ◌^◌, [], ◌∷◌, ℕ, List, IfOk, IfSome};
ghost use Rattle.std.specs.Prelude.{OnOk, length};
ghost use Rattle.std.specs.Option.{option_map};
ghost use Rattle.bi_blob.specs.Lookups.{siblings};
ghost use Rattle.bi_fdt.specs.Views.{node_of};
ghost use Rattle.bi_fit.specs.Content.{AreAtTheirPlaces, IsHeld, tree_of};
ghost use Rattle.bi_fit.specs.HashNodes.{file_hashes};
ghost use Rattle.bi_fit.specs.Judgement.{verdicts_of};
ghost use Rattle.bi_hash.specs.Regions.{IsRegionOf, bytes_of_region};
ghost use Rattle.bi_common.specs.VerdictCounts.{are_good as are_good_of, hash_counts, total};
ghost use Rattle.bi_common.specs.VerdictCounts.{one_more_verdict, plus_hashes};

use crate::hash_nodes::is_hash;
use crate::payload_bounds::BoundedFit;
use bi_fdt::NodeRef;
use bi_fit::Fit;
use bi_hash::{Region, RegionDigests, Verdict};
use std::alloc::{AllocError, Global};

/// How many hash nodes have each verdict.
#[derive(Clone, Copy, Default)]
pub struct Counts {
    pub good: u64,
    pub bad: u64,
    pub unknown_algorithm: u64,
    pub no_payload: u64,
    pub malformed: u64,
}

impl Counts {
    /// Adds a hash node with this verdict. Requires: fewer than 2^31 are counted.
    pub(crate) fn add(&mut self, verdict: Verdict)
        requires { total self.old < 2 ^ 31 }
        ensures { self.new ≡ one_more_verdict verdict self.old }
    {
        match verdict {
            Verdict::Good => self.good += 1,
            Verdict::Bad => self.bad += 1,
            Verdict::UnknownAlgo => self.unknown_algorithm += 1,
            Verdict::NoPayload => self.no_payload += 1,
            Verdict::Malformed => self.malformed += 1,
        }
    }

    /// Returns whether no verdict is other than Good.
    pub fn are_good(self) -> bool
        ensures { result ≡ are_good_of self }
    {
        self.bad == 0 && self.unknown_algorithm == 0 && self.no_payload == 0 && self.malformed == 0
    }
}

/// Returns the digests of a flattened image tree. Each that a verdict needs is computed. Fails if
/// memory runs out. Requires: the tree was read.
pub fn digests_of_verdicts<'a>(
    alloc: Global,
    bounded: BoundedFit<'_, 'a>,
) -> Result<RegionDigests<'a>, AllocError>
    requires held { IsHeld bounded.fit.now }
    ensures placed { IfOk result (λ digests.
        AreAtTheirPlaces digests bounded.entry.fit.now.images) }
{
    let (digests, _) = judge_hashes(alloc, bounded.fit())?;
    Ok(digests)
}

/// Judges each hash node of a flattened image tree. Returns the digests of the tree, of which each
/// that a verdict needs is computed, and how many hash nodes have each verdict. Fails if memory
/// runs out. Requires: the tree was read.
pub fn judge_hashes<'a>(
    alloc: Global,
    fit: &Fit<'a>,
) -> Result<(RegionDigests<'a>, Counts), AllocError>
    requires held { IsHeld fit.now }
    ensures placed { IfOk result (λ judged. AreAtTheirPlaces judged.0 fit.now.images) }
    ensures counts { IfOk result (λ judged.
        judged.1 ≡ hash_counts (verdicts_of (tree_of fit.now))) }
{
    let mut digests = fit.region_digests(alloc);
    let mut counts = Counts::default();
    for (node, image) in fit.images_with_nodes() {
        count_image(&mut counts, node, image.region(), &mut digests)?;
    }
    Ok((digests, counts))
}

/// Judges each hash node of an image with this payload, and counts the verdicts. Fails if memory
/// runs out. Requires: with the children of the image, fewer than 2^31 are counted, and the
/// payload, if there is one, is within the file of the digests.
fn count_image<'a>(
    counts: &mut Counts,
    image: NodeRef<'a, '_>,
    payload: Option<Region>,
    digests: &mut RegionDigests<'a>,
) -> Result<(), AllocError>
    requires within { IfSome payload (IsRegionOf digests.old) }
    requires few { total counts.old + length (siblings (node_of image).children) < 2 ^ 31 }
    ensures counts { OnOk result (counts.new ≡ plus_hashes counts.old (file_hashes
        (node_of image.entry).name
        (option_map (bytes_of_region digests.old) payload)
        (siblings (node_of image.entry).children))) }
    ensures few { OnOk result (total counts.new
        ≤ total counts.old + length (siblings (node_of image.entry).children)) }
    ensures same { digests.new ≡ digests.old }
{
    let mut next = image.first_child();
    while let Some(child) = next {
        count_child(counts, child, payload, digests)?;
        next = child.next_sibling();
    }
    Ok(())
}

/// Judges a child of an image node with this payload, if it is a hash node, and counts the verdict.
/// Fails if memory runs out. Requires: fewer than 2^31 are counted, and the payload, if there is
/// one, is within the file of the digests.
fn count_child(
    counts: &mut Counts,
    child: NodeRef,
    payload: Option<Region>,
    digests: &mut RegionDigests,
) -> Result<(), AllocError>
    requires within { IfSome payload (IsRegionOf digests.old) }
    requires few { total counts.old < 2 ^ 31 }
    ensures counts { OnOk result ((image : List ℕ) → counts.new ≡ plus_hashes counts.old
        (file_hashes image (option_map (bytes_of_region digests.old) payload)
        (node_of child.entry ∷ []))) }
    ensures few { OnOk result (total counts.new ≤ total counts.old + 1) }
    ensures same { digests.new ≡ digests.old }
{
    if !is_hash(child) {
        return Ok(());
    }
    let (algo, value) = (child.property(b"algo"), child.property(b"value"));
    let verdict = digests.verdict(algo, value, payload)?;
    counts.add(verdict);
    Ok(())
}
