//! The hash nodes of images with the verdicts on them, one at a time: no list of them is made in
//! memory.

ghost use Rattle.std.specs.Prelude.{◌≡◌, IfSome, filter, map, true};
ghost use Rattle.std.specs.Option.{option_map};
ghost use Rattle.std.proofs.Props.{props};
ghost use Rattle.bi_blob.specs.Lookups.{siblings, siblings_from};
ghost use Rattle.bi_fdt.specs.Views.{node_of};
ghost use Rattle.bi_fit.specs.Content.{AreAtTheirPlaces, IsAtItsPlace, image_model};
ghost use Rattle.bi_fit.specs.HashNodes.{file_hash, file_hashes};
ghost use Rattle.bi_fit.specs.ImagesWithNodes.{models_left};
ghost use Rattle.bi_fit.specs.JudgementCalls.{checked_hash_of};
ghost use Rattle.bi_fit.specs.Names.{is_hash_name};
ghost use Rattle.bi_hash.specs.Regions.{IsRegionOf, bytes_of_region};
ghost use Rattle.bi_common.specs.PlacedImages.{places-prop};

use bi_base::text_before_nul;
use bi_fdt::NodeRef;
use bi_fit::nodes::ImagesWithNodes;
use bi_fit::{Checked, Fit, Image};
use bi_hash::{Region, RegionDigests};

/// The hash nodes that are left of an image, with the verdicts on them, in their order in the file.
/// Each verdict is found when the iterator comes to it, by digests that are kept.
#[derive(Clone, Copy)]
pub struct HashNodes<'a, 'b> {
    /// The name of the image node.
    image: &'a [u8],
    /// The payload of the image.
    payload: Option<Region>,
    /// The next child of the image node, which need not be a hash node.
    next: Option<NodeRef<'a, 'b>>,
    digests: &'b RegionDigests<'a>,
    // The payload is a region of the file.
    ghost within: { IfSome payload (IsRegionOf digests.now) } by { Prim.hlevel props },
}

impl<'a, 'b> HashNodes<'a, 'b> {
    ghost use Rattle.std.specs.Iterator.{YieldsFirstBy};
    ghost use Rattle.bi_common.specs.HashedImages.{found_hash_of, found_hashes, found_left};
    ghost use Rattle.bi_common.specs.HashedImages.{hashes_left};

    /// Returns the hash nodes of the image of a node. Requires: in the file of the digests, the
    /// payload of the image is at its place.
    pub fn new(
        node: NodeRef<'a, 'b>,
        image: &Image<'a>,
        digests: &'b RegionDigests<'a>,
    ) -> HashNodes<'a, 'b>
        requires placed { IsAtItsPlace digests.now (image_model image.now) }
        ensures hashes { hashes_left result ≡ file_hashes (node_of node.entry).name
            (image_model image.now).payload (siblings (node_of node.entry).children) }
        ensures found { found_left result ≡ found_hashes (node_of node.entry).name
            (image_model image.now).payload (siblings (node_of node.entry).children) }
    {
        HashNodes {
            image: node.name(),
            payload: image.region(),
            next: node.first_child(),
            digests,
        }
    }

    /// Takes the first hash node that is left, with the verdict on it.
    pub fn next_node(&mut self) -> Option<(NodeRef<'a, 'b>, Checked<'a>)>
        ensures { YieldsFirstBy found_hash_of found_left self.old result self.new }
    {
        match first_hash_node(self.next) {
            Some(node) => {
                self.next = node.next_sibling();
                Some((node, judge(self.image, node, self.payload, self.digests)))
            }
            None => None,
        }
    }
}

impl<'a, 'b> Iterator for HashNodes<'a, 'b> {
    ghost use Rattle.std.specs.Iterator.{YieldsFirstBy, item_count};
    ghost use Rattle.bi_common.specs.HashedImages.{hashes_left};

    type Item = Checked<'a>;

    ghost next_gives = { YieldsFirstBy checked_hash_of hashes_left };

    ghost remaining = { item_count hashes_left };

    fn next(&mut self) -> Option<Checked<'a>> {
        match self.next_node() {
            Some((_node, hash)) => Some(hash),
            None => None,
        }
    }
}

/// Returns the first hash node of some siblings, if there is one.
fn first_hash_node<'a, 'b>(first: Option<NodeRef<'a, 'b>>) -> Option<NodeRef<'a, 'b>>
    ensures hash { IfSome result (λ node. is_hash_name (node_of node).name ≡ true) }
    ensures left { filter (λ child. is_hash_name child.name)
        (siblings_from (option_map node_of result))
        ≡ filter (λ child. is_hash_name child.name)
        (siblings_from (option_map node_of first.entry)) }
{
    let mut next = first;
    while let Some(node) = next {
        if is_hash(node) {
            return Some(node);
        }
        next = node.next_sibling();
    }
    None
}

/// Returns whether a child of an image node is a hash node.
pub(crate) fn is_hash(child: NodeRef) -> bool
    ensures { result ≡ is_hash_name (node_of child.entry).name }
{
    child.name().starts_with(b"hash")
}

/// Judges a hash node of the image of this name with this payload. Requires: the payload, if there
/// is one, is within the file of the digests.
fn judge<'a>(
    image: &'a [u8],
    node: NodeRef<'a, '_>,
    payload: Option<Region>,
    digests: &RegionDigests,
) -> Checked<'a>
    requires within { IfSome payload (IsRegionOf digests.now) }
    ensures { checked_hash_of result ≡ file_hash image.entry.now
        (option_map (bytes_of_region digests.now) payload) (node_of node.entry) }
{
    let algo = node.property(b"algo");
    let value = node.property(b"value");
    Checked {
        image,
        node: node.name(),
        algo: algo.and_then(|algo| text_before_nul(algo)),
        value,
        verdict: digests.judge(algo, value, payload),
    }
}

/// An image with its hash nodes.
#[derive(Clone, Copy)]
pub struct HashedImage<'a, 'b> {
    /// The image node.
    pub node: NodeRef<'a, 'b>,
    /// The payload, if there is one.
    pub payload: Option<&'a [u8]>,
    /// The hash nodes.
    pub hashes: HashNodes<'a, 'b>,
}

/// The images that are left of a flattened image tree, in their order in the file.
#[derive(Drop)]
pub struct HashedImages<'a, 'b> {
    images: ImagesWithNodes<'a, 'b>,
    digests: &'b RegionDigests<'a>,
    // The payloads are regions of the file.
    ghost placed: { AreAtTheirPlaces digests.now (models_left images) } by { places-prop _ _ },
}

impl<'a, 'b> HashedImages<'a, 'b> {
    ghost use Rattle.bi_common.specs.HashedImages.{hashed_left, images_of_blob};

    /// Returns the images of a flattened image tree, whose hash nodes are judged by these digests
    /// of regions of its file. Requires: the payload of each image is in this file at its place.
    pub fn new(fit: &'b Fit<'a>, digests: &'b RegionDigests<'a>) -> HashedImages<'a, 'b>
        requires placed { AreAtTheirPlaces digests.now fit.now.images }
        ensures { hashed_left result ≡ images_of_blob fit.entry.now }
    {
        HashedImages {
            images: fit.images_with_nodes(),
            digests,
        }
    }
}

impl<'a, 'b> Iterator for HashedImages<'a, 'b> {
    ghost use Rattle.std.specs.Iterator.{YieldsFirstBy, item_count};
    ghost use Rattle.bi_common.specs.HashedImages.{hashed_left, image_value};

    type Item = HashedImage<'a, 'b>;

    ghost next_gives = { YieldsFirstBy image_value hashed_left };

    ghost remaining = { item_count hashed_left };

    fn next(&mut self) -> Option<HashedImage<'a, 'b>> {
        let (node, image) = self.images.next()?;
        Some(HashedImage {
            node,
            payload: image.payload,
            hashes: HashNodes::new(node, image, self.digests),
        })
    }
}
