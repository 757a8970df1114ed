//! The hash nodes of a flattened image tree, and the verdicts on them.

ghost use Rattle.std.specs.Prelude.{◌≡◌, ◌++◌, map, IfOk, IfErr, IfSome, OnOk};
ghost use Rattle.std.specs.Option.{option_map};
ghost use Rattle.bi_base.specs.declared.fault.Error.TheVariants.{OutOfMemory};
ghost use Rattle.bi_blob.specs.Lookups.{siblings};
ghost use Rattle.bi_fdt.specs.Views.{node_of};
ghost use Rattle.bi_hash.specs.Regions.{IsRegionOf, bytes_of_region};
ghost use Rattle.bi_fit.specs.Content.{tree_of};
ghost use Rattle.bi_fit.specs.Judgement.{verdicts_of};
ghost use Rattle.bi_fit.specs.JudgementCalls.{checked_hash_of};
ghost use Rattle.bi_fit.specs.HashNodes.{file_hash, file_hashes};

use crate::fit::Fit;
use crate::nodes::Siblings;
use bi_base::{Error, text_before_nul};
use bi_fdt::NodeRef;
use bi_hash::{Region, RegionDigests, Verdict};
use std::alloc::{AllocError, Global};

/// A hash node, and the verdict on it.
#[derive(Clone, Copy, Debug, PartialEq, Eq)]
pub struct Checked<'a> {
    /// The name of the image node.
    pub image: &'a [u8],
    /// The name of the hash node.
    pub node: &'a [u8],
    /// The name of the algorithm: the bytes of `algo` before its first zero. None if there is no
    /// `algo`, or `algo` has no zero.
    pub algo: Option<&'a [u8]>,
    /// The bytes of `value`, if there is one.
    pub value: Option<&'a [u8]>,
    /// Whether the value is the digest of the payload.
    pub verdict: Verdict,
}

impl<'a> Fit<'a> {
    /// Returns each hash node with the verdict on it: images in their order, and the hash nodes of
    /// each image in their order. A region of the file is read once for each algorithm that its
    /// hash nodes name, however many images have it as their payload.
    ///
    /// The only error is OutOfMemory.
    pub fn verdicts(&self, alloc: Global) -> Result<Vec<Checked<'a>>, Error>
        ensures verdicts { IfOk result (λ checked. map checked_hash_of checked.items
            ≡ verdicts_of (tree_of self.now)) }
        ensures failed { IfErr result (λ error. error ≡ OutOfMemory) }
    {
        let mut digests = self.region_digests(alloc);
        let mut checked = Vec::new(alloc);
        for (node, image) in self.images_with_nodes() {
            check_image(&mut checked, node, image.region(), &mut digests)?;
        }
        Ok(checked)
    }
}

/// Adds the hash nodes of an image with the given payload, with their verdicts. Requires: the
/// payload, if there is one, is within the file of the digests.
fn check_image<'a>(
    checked: &mut Vec<Checked<'a>>,
    image: NodeRef<'a, '_>,
    payload: Option<Region>,
    digests: &mut RegionDigests,
) -> Result<(), AllocError>
    requires within { IfSome payload (IsRegionOf digests.old) }
    ensures ok { OnOk result (map checked_hash_of checked.new.items
        ≡ map checked_hash_of checked.old.items ++ file_hashes
        (node_of image.entry).name
        (option_map (bytes_of_region digests.old) payload)
        (siblings (node_of image.entry).children)) }
    ensures same { digests.new ≡ digests.old }
{
    for node in Siblings::children(image) {
        if node.name().starts_with(b"hash") {
            checked.push(check_hash(image.name(), node, payload, digests)?)?;
        }
    }
    Ok(())
}

/// Judges a hash node of an image with the given name and payload. Requires: the payload, if there
/// is one, is within the file of the digests.
fn check_hash<'a>(
    image: &'a [u8],
    node: NodeRef<'a, '_>,
    payload: Option<Region>,
    digests: &mut RegionDigests,
) -> Result<Checked<'a>, AllocError>
    requires within { IfSome payload (IsRegionOf digests.old) }
    ensures checked { IfOk result (λ checked. checked_hash_of checked ≡ file_hash
        image.entry.now
        (option_map (bytes_of_region digests.old) payload)
        (node_of node.entry)) }
    ensures same { digests.new ≡ digests.old }
{
    let algo = node.property(b"algo");
    let value = node.property(b"value");
    let verdict = digests.verdict(algo, value, payload)?;
    Ok(Checked {
        image,
        node: node.name(),
        algo: algo.and_then(|algo| text_before_nul(algo)),
        value,
        verdict,
    })
}
