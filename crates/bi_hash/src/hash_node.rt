//! The verdict on a hash node.
#![tactic(auto, unfolding(crate::specs::Verdicts::verdict_of))]

ghost use Rattle.std.specs.Prelude.{◌≡◌, List, ℕ, Option, Some, MatchResult};
ghost use Rattle.std.specs.Option.{option_copied};
ghost use Rattle.bi_hash.specs.Digests.{padded_digest};
ghost use Rattle.bi_hash.specs.Verdicts.{verdict_by_algorithm, verdict_of};

use crate::algo::Algo;
use crate::verdicts::Verdict;
use bi_base::text_before_nul;

/// Judges a hash node by the values of its properties `algo` and `value`, and by the payload of its
/// image. Each of the three may be missing (Flattened Image Tree Specification, hash nodes).
///
/// The verdict is the first of these that holds:
/// - `Malformed`: there is no algo, no value, or no NUL in algo;
/// - `UnknownAlgo`: the bytes of algo before its first NUL name no algorithm;
/// - `NoPayload`: there is no payload;
/// - `Good`: the value is the payload's digest, of the same length;
/// - `Bad`: none of these.
pub fn verdict(algo: Option<&[u8]>, value: Option<&[u8]>, payload: Option<&[u8]>) -> Verdict
    ensures { result ≡ verdict_of (option_copied algo.entry) (option_copied value.entry)
        (option_copied payload.entry) }
{
    let stated = match StatedDigest::read(algo, value) {
        Ok(stated) => stated,
        Err(verdict) => return verdict,
    };
    let Some(payload) = payload else {
        return Verdict::NoPayload;
    };
    let mut digest = [0; 64];
    stated.algo.digest(payload, &mut digest);
    stated.judge(&digest)
}

/// The digest that a hash node states: an algorithm, and the value of the payload's digest.
#[derive(Clone, Copy)]
pub(crate) struct StatedDigest<'a> {
    pub(crate) algo: Algo,
    value: &'a [u8],
}

impl<'a> StatedDigest<'a> {
    /// Returns the digest that a hash node states by its properties `algo` and `value`. If it
    /// states none, fails with the verdict on the node, which is then the same for any payload.
    pub(crate) fn read(
        algo: Option<&[u8]>,
        value: Option<&'a [u8]>,
    ) -> Result<StatedDigest<'a>, Verdict>
        ensures { (payload : Option (List ℕ)) → let verdict = verdict_of
            (option_copied algo.entry) (option_copied value.entry) payload in
            MatchResult result
            (λ stated. verdict ≡ verdict_by_algorithm (Some stated.algo) stated.value.now payload)
            (λ error. verdict ≡ error) }
    {
        let (Some(algo), Some(value)) = (algo, value) else {
            return Err(Verdict::Malformed);
        };
        let Some(name) = text_before_nul(algo) else {
            return Err(Verdict::Malformed);
        };
        match Algo::from_name(name) {
            Some(algo) => Ok(StatedDigest { algo, value }),
            None => Err(Verdict::UnknownAlgo),
        }
    }

    /// Judges the hash node by the digest of the payload with its algorithm, with zeros after the
    /// digest.
    pub(crate) fn judge(self, digest: &[u8; 64]) -> Verdict
        ensures { let stated = self.entry in (payload : List ℕ)
            → digest.now ≡ padded_digest stated.algo payload →
            result ≡ verdict_by_algorithm (Some stated.algo) stated.value.now (Some payload) }
    {
        if self.value == &digest[..self.algo.digest_size()] {
            Verdict::Good
        } else {
            Verdict::Bad
        }
    }
}
