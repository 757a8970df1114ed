//! The concerns about the images of a flattened image tree.

ghost use Rattle.std.specs.Prelude.{◌≡◌, flat_map};
ghost use Rattle.std.specs.Iterator.{YieldsFirstBy, item_count};
ghost use Rattle.std.specs.List.{list_any};
ghost use Rattle.std.specs.Option.{option_map};
ghost use Rattle.bi_fdt.specs.Views.{node_of};
ghost use Rattle.bi_fit.specs.Content.{AreAtTheirPlaces};
ghost use Rattle.bi_fit.specs.JudgementCalls.{checked_hash_of};
ghost use Rattle.bi_common.specs.HashedImages.{found_hash_of, found_left, image_value};
ghost use Rattle.bi_common.specs.HashedImages.{images_of_blob};
ghost use Rattle.bi_report.specs.Checking.{is_good as is_good_hash, is_strong as is_strong_hash};
ghost use Rattle.bi_report.specs.Checking.{is_strong_algorithm, protection_concerns};
ghost use Rattle.bi_report.specs.Checking.{payload_concerns};
ghost use Rattle.bi_report.specs.Checking.{skip_concerns};
ghost use Rattle.bi_report.specs.ConcernValues.{found_or_none, found_value, used_left};
ghost use Rattle.bi_report.specs.ConcernsLeft.{image_left, images_left};
ghost use Rattle.bi_report.specs.FoundConcerns.{HashOf, NodeItself, concerns_about};
ghost use Rattle.bi_report.specs.FoundConcerns.{found_in_image, judged_found};
ghost use Rattle.bi_report.specs.FoundConcerns.{used_found};

use super::concern::Concern;
use crate::details::is_good;
use crate::used_hashes::{UsedHashes, is_skipped};
use bi_common::hash_nodes::{HashNodes, HashedImage, HashedImages};
use bi_fdt::NodeRef;
use bi_fit::{Checked, Fit};
use bi_hash::RegionDigests;

/// The concerns that are left about an image: about its hash nodes, and then about its payload.
#[derive(Clone, Copy)]
pub(super) struct ImageConcerns<'a, 'b> {
    image: NodeRef<'a, 'b>,
    /// The concern that is left about the hash node that the iterator has come to.
    of_skipped: Option<Concern<'a, 'b>>,
    /// The hash nodes that are left.
    hashes: HashNodes<'a, 'b>,
    of_payload: Option<Concern<'a, 'b>>,
}

impl<'a, 'b> ImageConcerns<'a, 'b> {
    /// Returns the concerns about an image.
    fn new(image: HashedImage<'a, 'b>) -> ImageConcerns<'a, 'b>
        ensures { image_left result ≡ found_in_image (image_value image.entry) }
    {
        ImageConcerns {
            image: image.node,
            of_skipped: None,
            hashes: image.hashes,
            of_payload: payload_concern(image),
        }
    }
}

impl<'a, 'b> Iterator for ImageConcerns<'a, 'b> {
    type Item = Concern<'a, 'b>;

    ghost next_gives = { YieldsFirstBy found_value image_left };

    ghost remaining = { item_count image_left };

    fn next(&mut self) -> Option<Concern<'a, 'b>> {
        if let Some(concern) = self.of_skipped.take() {
            return Some(concern);
        }
        while let Some((node, hash)) = self.hashes.next_node() {
            let of_skipped = skip_concern(self.image, node, hash);
            if !is_good(hash.verdict) {
                self.of_skipped = of_skipped;
                return Some(Concern::BadHash(self.image, node, hash));
            }
            if let Some(concern) = of_skipped {
                return Some(concern);
            }
        }
        self.of_payload.take()
    }
}

/// The concerns that are left about the images of a flattened image tree.
#[derive(Drop)]
pub(super) struct AllImageConcerns<'a, 'b> {
    /// Those about the image that the iterator has come to.
    current: Option<ImageConcerns<'a, 'b>>,
    /// The images after it.
    images: HashedImages<'a, 'b>,
}

impl<'a, 'b> AllImageConcerns<'a, 'b> {
    /// Returns the concerns about the images of a flattened image tree, whose hash nodes are judged
    /// by these digests. Requires: in the file of the digests, the payload of each image is at its
    /// place.
    pub(super) fn new(fit: &'b Fit<'a>, digests: &'b RegionDigests<'a>) -> AllImageConcerns<'a, 'b>
        requires placed { AreAtTheirPlaces digests.now fit.now.images }
        ensures { images_left result ≡ flat_map found_in_image (images_of_blob fit.entry.now) }
    {
        AllImageConcerns {
            current: None,
            images: HashedImages::new(fit, digests),
        }
    }
}

impl<'a, 'b> Iterator for AllImageConcerns<'a, 'b> {
    type Item = Concern<'a, 'b>;

    ghost next_gives = { YieldsFirstBy found_value images_left };

    ghost remaining = { item_count images_left };

    fn next(&mut self) -> Option<Concern<'a, 'b>> {
        loop {
            if let Some(concerns) = &mut self.current {
                if let Some(concern) = concerns.next() {
                    return Some(concern);
                }
            }
            self.current = Some(ImageConcerns::new(self.images.next()?));
        }
    }
}

/// Returns the concern that U-Boot skips a hash node of an image, if it does.
fn skip_concern<'a, 'b>(
    image: NodeRef<'a, 'b>,
    node: NodeRef<'a, 'b>,
    hash: Checked<'a>,
) -> Option<Concern<'a, 'b>>
    ensures { found_or_none result
        ≡ concerns_about (HashOf (node_of image.entry) (node_of node.entry))
        (skip_concerns (judged_found (found_hash_of (node.entry, hash.entry)))) }
{
    if is_skipped(node) {
        Some(Concern::SkippedHash(image, node, hash))
    } else {
        None
    }
}

/// Returns the concern about the payload of an image, if there is one.
fn payload_concern<'a, 'b>(image: HashedImage<'a, 'b>) -> Option<Concern<'a, 'b>>
    ensures { let entry = node_of image.entry.node in
        found_or_none result ≡ concerns_about (NodeItself entry) (payload_concerns entry.name
        (option_map (λ payload. payload.now) image.entry.payload)
        (used_found (found_left image.entry.hashes))) }
{
    match image.payload {
        Some(_) => protection_concern(image.node, UsedHashes::new(image.hashes)),
        None => None,
    }
}

/// Returns the concern about the image of a node with a payload and these hash nodes, if there is
/// one.
fn protection_concern<'a, 'b>(
    image: NodeRef<'a, 'b>,
    hashes: UsedHashes<'a, 'b>,
) -> Option<Concern<'a, 'b>>
    ensures { let entry = node_of image.entry in
        found_or_none result ≡ concerns_about (NodeItself entry)
        (protection_concerns entry.name (used_left hashes.entry)) }
{
    if !has_good(hashes) {
        Some(Concern::UnhashedImage(image))
    } else if !has_strong(hashes) {
        Some(Concern::WeakHash(image, hashes))
    } else {
        None
    }
}

/// Returns whether the verdict on one of these hash nodes is Good.
fn has_good(hashes: UsedHashes) -> bool
    ensures { result ≡ list_any is_good_hash (used_left hashes.entry) }
{
    for hash in hashes {
        if is_good(hash.verdict) {
            return true;
        }
    }
    false
}

/// Returns whether the verdict on one of these hash nodes is Good and its algorithm is strong.
fn has_strong(hashes: UsedHashes) -> bool
    ensures { result ≡ list_any is_strong_hash (used_left hashes.entry) }
{
    for hash in hashes {
        if is_strong(&hash) {
            return true;
        }
    }
    false
}

/// Returns whether the verdict on a hash node is Good and its algorithm is strong.
fn is_strong(hash: &Checked) -> bool
    ensures { result ≡ is_strong_hash (checked_hash_of hash.now) }
{
    is_good(hash.verdict) && is_strong_name(hash.algo)
}

/// Returns whether this is the name of a strong algorithm.
fn is_strong_name(algo: Option<&[u8]>) -> bool
    ensures { result ≡ is_strong_algorithm (option_map (λ name. name.now) algo.entry) }
{
    match algo {
        Some(name) => {
            name == b"sha256".as_slice()
                || name == b"sha384".as_slice()
                || name == b"sha512".as_slice()
        }
        None => false,
    }
}
