//! What the kinds of concerns mean.

ghost use Rattle.std.specs.Prelude.{◌≡◌};
ghost use Rattle.bi_commands.specs.ConcernSentences.{sentence_of_kind};

use bi_report::check::ConcernKind;

/// Returns what a concern of this kind means, and what a user can do. The manual page has the same
/// sentence.
pub fn concern_sentence(kind: ConcernKind) -> &'static str
    ensures { result.now ≡ sentence_of_kind kind }
{
    match kind {
        ConcernKind::BadHash => {
            "The verdict on a hash node is not good: it is the last word of the line. If \
             it is bad, the payload or the digest has changed: fetch the image again, or \
             run update --hashes if you changed the payload."
        }
        ConcernKind::SkippedHash => {
            "A hash node has a property uboot-ignore that is not zero, so U-Boot does not \
             verify it: remove the property, unless another hash node of the image is \
             verified and this one must be skipped."
        }
        ConcernKind::Unhashed => {
            "An image with a payload has no good digest that U-Boot verifies, so no error \
             in the payload is found: add a hash node with algo sha256 in the source, or \
             build the image with build-fit."
        }
        ConcernKind::WeakHash => {
            "An image has good digests, and none of sha256, sha384 or sha512. The others \
             find errors of a copy, and do not stop somebody who makes another payload on \
             purpose: add a hash node with algo sha256 in the source."
        }
        ConcernKind::BadList => {
            "A property of a configuration that names images is not a list of texts that \
             each end with a zero byte: correct it in the source."
        }
        ConcernKind::Missing => {
            "A configuration names an image that is not there: add the image, or correct \
             the name. The number counts the names of the list from 0."
        }
        ConcernKind::Unsigned => {
            "A configuration has no signature node with a value, or there is no \
             configuration, as in each legacy image: sign the image with mkimage -F -k. \
             The line is there only with --signed."
        }
        ConcernKind::NoNodes => {
            "A signature node of a configuration has no list of names in hashed-nodes, so \
             it does not say which nodes were signed: sign the image again with mkimage -F \
             -k."
        }
        ConcernKind::NoImages => {
            "A configuration with a signature names no image that is there, so the \
             signature covers no payload: name the images in the configuration, and sign \
             the image again."
        }
        ConcernKind::Uncovered => {
            "A signature of a configuration does not cover this node, or a hash node or \
             the node cipher below it, so somebody can change it and the signature stays \
             valid: sign the image again with mkimage -F -k, and do not trust the image \
             until then."
        }
        ConcernKind::Foreign => {
            "A signature of a configuration covers a node that the configuration does not \
             use. A newer U-Boot makes the list of nodes itself, and then finds the \
             signature wrong: sign the image again with mkimage -F -k."
        }
        ConcernKind::Strings => {
            "A signature of a configuration does not cover the names of all properties of \
             its nodes, since hashed-strings is missing or its size is too small: sign the \
             image again with mkimage -F -k."
        }
        ConcernKind::UnitAddress => {
            "The name of a node has an @, and the image has a signature: U-Boot refuses \
             such names where it verifies signatures. Use names as kernel-1 in the source, \
             and sign the image again."
        }
        ConcernKind::BadDefault => {
            "There are configurations, and default is missing or names none of them: set \
             it to the name of one, or give the name of a configuration to U-Boot."
        }
        ConcernKind::Trailing => {
            "Bytes that are not all zero follow the image, and nothing protects them: cut \
             them off. If another image begins in them, scan finds it."
        }
    }
}
