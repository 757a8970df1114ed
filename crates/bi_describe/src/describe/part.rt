//! A part of a legacy image in a description.

ghost use Rattle.std.specs.Prelude.{◌≡◌};
ghost use Rattle.bi_describe.specs.Descriptions.{digest_of_payload};
ghost use Rattle.bi_describe.specs.MadeDigests.{digest_made};

use super::entries::PayloadDigest;

/// A part of a legacy image, with its size and its SHA-256.
#[derive(Clone, Copy)]
pub(crate) struct DescribedPart<'a> {
    pub(crate) bytes: &'a [u8],
    pub(crate) digest: PayloadDigest,
    ghost is_digest: { digest_made digest ≡ digest_of_payload bytes.now },
}
