//! The digests of the payloads of images to be built.

ghost use Rattle.std.specs.Prelude.{◌≡◌, ◌++◌, map, OnOk, IfOk};
ghost use Rattle.bi_hash.specs.Digests.{digest_of};
ghost use Rattle.bi_fit.specs.BuiltNodes.{built_digests};

use crate::building::NamedImage;
use bi_hash::Algo;
use std::alloc::{AllocError, Global};

/// Returns, for each image in their order, the digests of its payload with these algorithms, one
/// after another. Fails if memory runs out.
pub(super) fn digest_payloads(
    alloc: Global,
    images: &[NamedImage<'_>],
    algorithms: &[Algo],
) -> Result<Vec<Vec<u8>>, AllocError>
    ensures { IfOk result (λ digests. map (λ each. each.items) digests.items
        ≡ map (λ image. built_digests algorithms.now image.payload.now) images.now) }
{
    let mut digests = Vec::with_capacity(alloc, images.len())?;
    for image in images {
        digests.push(digest_payload(alloc, image.payload, algorithms)?)?;
    }
    Ok(digests)
}

/// Returns the digests of a payload with these algorithms, one after another. Fails if memory runs
/// out.
fn digest_payload(alloc: Global, payload: &[u8], algorithms: &[Algo]) -> Result<Vec<u8>, AllocError>
    ensures { IfOk result (λ digests.
        digests.items ≡ built_digests algorithms.now payload.now) }
{
    let mut digests = Vec::new(alloc);
    for algo in algorithms {
        append_digest(&mut digests, *algo, payload)?;
    }
    Ok(digests)
}

/// Appends the digest of a payload. Fails if memory runs out.
fn append_digest(digests: &mut Vec<u8>, algo: Algo, payload: &[u8]) -> Result<(), AllocError>
    ensures { OnOk result
        (digests.new.items ≡ digests.old.items ++ digest_of algo payload.now) }
{
    let mut buffer = [0; 64];
    let size = algo.digest(payload, &mut buffer);
    digests.extend_from_slice(&buffer[..size])
}
