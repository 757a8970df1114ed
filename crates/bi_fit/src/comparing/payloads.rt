//! Comparing the payloads of images.

ghost use Rattle.std.specs.Prelude.{◌≡◌, ◌≢◌, ◌↔◌, ◌+◌, ◌<◌, ◌^◌, ℕ, Some, length, map};
ghost use Rattle.std.specs.Prelude.{IfOk, IsTrue, MatchOption};
ghost use Rattle.bi_fit.specs.Content.{image_model, offset_of_place, payloads_of_models};
ghost use Rattle.bi_fit.specs.Content.{IsAtItsPlace, AreAtTheirPlaces};
ghost use Rattle.bi_fit.specs.RegionPairs.{ArePairsOfPayloads, IsPairOfPayloads};

use crate::comparing::region_pairs::{RegionPair, have_same_bytes};
use crate::fit::Fit;
use crate::image::{Image, Place};
use std::alloc::{AllocError, Global};

/// Returns whether the images of two trees have the same payloads, or none, in the same order.
///
/// Takes time n log n in the number of images, and time linear in the bytes of the first file for
/// each distance between the offsets of two payloads. So regions that many images share are
/// compared once, if the distance is the same for all of them.
pub(super) fn have_same_payloads(
    alloc: Global,
    fit: &Fit<'_>,
    other: &Fit<'_>,
) -> Result<bool, AllocError>
    ensures { IfOk result (λ same. IsTrue same
        ↔ (payloads_of_models fit.now.images ≡ payloads_of_models other.now.images)) }
{
    fit.give_invariant();
    other.give_invariant();
    let file = fit.blob().file();
    let other_file = other.blob().file();
    let Some(mut pairs) = pair_payloads(alloc, file, other_file, fit.images(), other.images())?
    else {
        return Ok(false);
    };
    pairs.sort()?;
    Ok(have_same_bytes(file, other_file, &pairs))
}

/// Returns the pairs of the payloads of these images of two files. Returns None if the files have
/// different numbers of images, if two payloads differ in length, or if only one of two payloads is
/// there. Requires: the payload of each image is in its file at its place, and the first file has
/// fewer than 2^32 bytes.
fn pair_payloads(
    alloc: Global,
    file: &[u8],
    other_file: &[u8],
    images: &[Image<'_>],
    others: &[Image<'_>],
) -> Result<Option<Vec<RegionPair>>, AllocError>
    requires small { length file.now < 2 ^ 32 }
    requires placed { AreAtTheirPlaces file.now (map image_model images.now) }
    requires others_placed { AreAtTheirPlaces other_file.now (map image_model others.now) }
    ensures { let payloads = payloads_of_models (map image_model images.now) in
        let other_payloads = payloads_of_models (map image_model others.now) in
        IfOk result (λ pairs. MatchOption pairs (payloads ≢ other_payloads)
        (λ pairs.
        ArePairsOfPayloads file.now other_file.now payloads other_payloads pairs.items)) }
{
    if images.len() != others.len() {
        return Ok(None);
    }
    let mut pairs = Vec::with_capacity(alloc, images.len())?;
    for (image, other) in images.iter().zip(others) {
        let Some(pair) = pair_of_payloads(file, other_file, image, other) else {
            return Ok(None);
        };
        pairs.push(pair)?;
    }
    Ok(Some(pairs))
}

/// Returns the pair of the payloads of two images of two files. It is empty if both have none.
/// Returns None if the payloads differ in length, or if only one of them is there. Requires: each
/// payload is in its file at its place, and the first file has fewer than 2^32 bytes.
fn pair_of_payloads(
    file: &[u8],
    other_file: &[u8],
    image: &Image<'_>,
    other: &Image<'_>,
) -> Option<RegionPair>
    requires small { length file.now < 2 ^ 32 }
    requires placed { IsAtItsPlace file.now (image_model image.now) }
    requires other_placed { IsAtItsPlace other_file.now (image_model other.now) }
    ensures { let payload = (image_model image.now).payload in
        let other_payload = (image_model other.now).payload in
        MatchOption result (payload ≢ other_payload)
        (IsPairOfPayloads file.now other_file.now payload other_payload) }
{
    match (image.payload, other.payload) {
        (Some(payload), Some(other_payload)) => {
            if payload.len() != other_payload.len() {
                return None;
            }
            let begin = begin_of(image.place);
            Some(RegionPair {
                distance: begin_of(other.place) + file.len() - begin,
                begin,
                end: begin + payload.len(),
            })
        }
        (None, None) => Some(RegionPair {
            distance: file.len(),
            begin: 0,
            end: 0,
        }),
        _ => None,
    }
}

/// Returns the offset of the first byte of a payload, or zero if there is none.
fn begin_of(place: Place) -> usize
    ensures offset { (offset : ℕ) → offset_of_place place ≡ Some offset → result ≡ offset }
    ensures small { result < 2 ^ 32 }
{
    match place {
        Place::Absent => 0,
        Place::Data(offset) | Place::DataOffset(offset) | Place::DataPosition(offset) => {
            offset as usize
        }
    }
}
