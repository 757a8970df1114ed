//! The digests that an update writes to hash nodes.

ghost use Rattle.std.specs.Prelude.{◌≡◌, ◌++◌, IfOk, IfErr, IfSome, OnOk};
ghost use Rattle.std.specs.Option.{option_map};
ghost use Rattle.bi_base.specs.declared.fault.Error.TheVariants.{OutOfMemory};
ghost use Rattle.bi_fdt.specs.Views.{node_of};
ghost use Rattle.bi_hash.specs.Regions.{IsRegionOf, bytes_of_region};
ghost use Rattle.bi_fit.specs.Content.{tree_of};
ghost use Rattle.bi_fit.specs.NewDigests.{hash_algorithm, digests_of_image, new_digests};
ghost use Rattle.bi_fit.specs.NormalNodes.{nodes_by_name, properties_by_name};

use crate::changes::Changes;
use crate::fit::Fit;
use crate::nodes::Siblings;
use bi_base::{Error, text_before_nul};
use bi_fdt::NodeRef;
use bi_hash::{Algo, Region, RegionDigests};
use std::alloc::{AllocError, Global};

impl<'a> Fit<'a> {
    /// Returns the digests that an update writes to the hash nodes, one after another: images in
    /// their order, and the hash nodes of each image in their order. Returns none if
    /// `changes.hashes` is not set. A region of the file is read once for each algorithm that its
    /// hash nodes name, however many images have it as their payload.
    ///
    /// The only error is OutOfMemory.
    pub fn new_digests(&self, alloc: Global, changes: Changes) -> Result<Vec<u8>, Error>
        ensures digests { IfOk result (λ digests. digests.items
            ≡ new_digests changes (tree_of self.now)) }
        ensures failed { IfErr result (λ error. error ≡ OutOfMemory) }
    {
        let mut digests = Vec::new(alloc);
        if !changes.hashes {
            return Ok(digests);
        }
        let mut region_digests = self.region_digests(alloc);
        for (node, image) in self.images_with_nodes() {
            append_digests(&mut digests, node, image.region(), &mut region_digests)?;
        }
        Ok(digests)
    }
}

/// Adds the digests for the hash nodes of an image node with the given payload, in their order.
/// Requires: the payload, if there is one, is within the file of the digests.
fn append_digests(
    digests: &mut Vec<u8>,
    image: NodeRef<'_, '_>,
    payload: Option<Region>,
    region_digests: &mut RegionDigests,
) -> Result<(), AllocError>
    requires within { IfSome payload (IsRegionOf region_digests.old) }
    ensures added { OnOk result (digests.new.items ≡ digests.old.items ++ digests_of_image
        (option_map (bytes_of_region region_digests.old) payload)
        (nodes_by_name (node_of image.entry).children)) }
    ensures same { region_digests.new ≡ region_digests.old }
{
    for node in Siblings::children(image) {
        if let Some(algo) = hash_algo(node) {
            region_digests.append_digest(algo, payload, digests)?;
        }
    }
    Ok(())
}

/// Returns the algorithm of a child of an image node. Returns None if the child is not a hash node,
/// or does not name a known algorithm.
pub(crate) fn hash_algo(node: NodeRef<'_, '_>) -> Option<Algo>
    ensures { result ≡ hash_algorithm
        (node_of node.entry).name
        (properties_by_name (node_of node.entry).own) }
{
    if !node.name().starts_with(b"hash") {
        return None;
    }
    Algo::from_name(text_before_nul(node.property(b"algo")?)?)
}
