//! Laws about digests and verdicts. The functions do nothing: what each one ensures is the law.

ghost use Rattle.bi_hash.specs.Digests.{DigestsAreBytes};
ghost use Rattle.bi_hash.specs.Verdicts.{GoodMeansDigest};

/// The verdict is Good if and only if `algo` is the name of an algorithm, a NUL and anything after
/// it, there is a payload, and `value` is the digest of the payload by that algorithm.
pub fn good_means_the_digest()
    ensures { GoodMeansDigest }
{}

/// A digest is a list of bytes, of the length that its algorithm has: 4, 16, 20, 32, 48 or 64.
pub fn digests_are_bytes()
    ensures { DigestsAreBytes }
{}
