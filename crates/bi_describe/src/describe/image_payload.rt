//! The payload of an image in a description.

ghost use Rattle.std.specs.Prelude.{◌≡◌};
ghost use Rattle.std.specs.Option.{option_map};
ghost use Rattle.bi_describe.specs.Descriptions.{digest_of_payload};
ghost use Rattle.bi_describe.specs.MadeDigests.{digest_made};

use super::entries::PayloadDigest;

/// The payload of an image, if it has one, with its size and its SHA-256.
#[derive(Clone, Copy)]
pub(crate) struct ImagePayload<'a> {
    pub(crate) bytes: Option<&'a [u8]>,
    pub(crate) digest: Option<PayloadDigest>,
    ghost is_digest: { option_map digest_made digest
        ≡ option_map digest_of_payload (option_map (λ bytes. bytes.now) bytes) },
}
