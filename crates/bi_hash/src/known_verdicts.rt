//! Hash nodes with known verdicts. Each function does nothing: what it ensures is a fact about the
//! definitions.

ghost use Rattle.bi_hash.specs.KnownVerdicts.{VerdictsAreKnown, VerdictsHaveOrder};
ghost use Rattle.bi_hash.specs.KnownVerdicts.{EachAlgorithmIsKnown};

/// Small hash nodes have known verdicts: each verdict is the one on some of them.
pub fn verdicts_are_known()
    ensures { VerdictsAreKnown }
{}

/// Of two verdicts that apply, the first in their order is given: Malformed before UnknownAlgo,
/// and UnknownAlgo before NoPayload.
pub fn verdicts_have_order()
    ensures { VerdictsHaveOrder }
{}

/// The name of each algorithm gives the digest of `abc` that the standards state.
pub fn each_algorithm_is_known()
    ensures { EachAlgorithmIsKnown }
{}
