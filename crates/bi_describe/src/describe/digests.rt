//! The digests of payloads in a description.

ghost use Rattle.std.specs.Prelude.{◌≡◌, List, ℕ, IfOk};
ghost use Rattle.bi_hash.specs.declared.algo.Algo.TheVariants.{Sha256};
ghost use Rattle.bi_hash.specs.Digests.{digest_of as digest_by, padded_digest};
ghost use Rattle.bi_fit.specs.Content.{image_model, tree_of, IsAtItsPlace};
ghost use Rattle.bi_describe.specs.Descriptions.{digest_of_payload};
ghost use Rattle.bi_describe.specs.ImagePayloads.{bytes_of_payload, bytes_of_payloads};
ghost use Rattle.bi_describe.specs.MadeDigests.{digest_made};

use super::entries::PayloadDigest;
use super::image_payload::ImagePayload;
use bi_common::payload_bounds::BoundedFit;
use bi_fit::Image;
use bi_hash::{Algo, RegionDigests};
use std::alloc::{AllocError, Global};

/// Returns the payload of each image with its digest. A region of the file is read once, however
/// many images have it as their payload.
pub(super) fn payloads_of<'a>(
    alloc: Global,
    bounded: BoundedFit<'_, 'a>,
) -> Result<Vec<ImagePayload<'a>>, AllocError>
    ensures { IfOk result (λ payloads. bytes_of_payloads payloads.items
        ≡ (tree_of bounded.entry.fit.now).payloads) }
{
    let fit = bounded.fit();
    let mut digests = fit.region_digests(alloc);
    let mut payloads = Vec::with_capacity(alloc, fit.image_count())?;
    for image in fit.images() {
        payloads.push(payload_of(image, &mut digests)?)?;
    }
    Ok(payloads)
}

/// Returns the payload of an image with its digest, which is one of the digests of its file.
/// Requires: the payload of the image is at its place in the file of the digests.
fn payload_of<'a>(
    image: &Image<'a>,
    digests: &mut RegionDigests,
) -> Result<ImagePayload<'a>, AllocError>
    requires placed { IsAtItsPlace digests.old (image_model image.now) }
    ensures payload { IfOk result (λ payload. bytes_of_payload payload
        ≡ (image_model image.now).payload) }
    ensures same { digests.new ≡ digests.old }
{
    let bytes = image.payload;
    let Some(region) = image.region() else {
        return Ok(ImagePayload {
            bytes,
            digest: None,
        });
    };
    let digest = digests.digest(Algo::Sha256, region)?;
    let digest = Some(PayloadDigest {
        size: region.length,
        sha256: first_half(&digest),
    });
    Ok(ImagePayload { bytes, digest })
}

/// Returns the size and the SHA-256 of a payload.
pub(super) fn digest_of(payload: &[u8]) -> PayloadDigest
    ensures { digest_made result ≡ digest_of_payload payload.now }
{
    let mut digest = [0; 64];
    Algo::Sha256.digest(payload, &mut digest);
    PayloadDigest {
        size: payload.len(),
        sha256: first_half(&digest),
    }
}

/// Returns the first half of a SHA-256 with zeros after it: the SHA-256.
fn first_half(digest: &[u8; 64]) -> [u8; 32]
    ensures { (payload : List ℕ) → digest.now ≡ padded_digest Sha256 payload
        → result ≡ digest_by Sha256 payload }
{
    let mut half = [0; 32];
    let (first, _) = digest.split_at(32);
    half.copy_from_slice(first);
    half
}
