//! What the calls return for small files that compare without what words name, and the deep calls.
//! Each function does nothing: what it ensures is a fact about the definitions. It calls the
//! functions of other facts, from which its own follows.

ghost use Rattle.bi_c.specs.KnownDeepCalls.{DeepCallsAreKnown};
ghost use Rattle.bi_c.specs.KnownIgnoringCalls.{IgnoringCallsAreKnown};

/// What the calls that compare small files without what words name return is known, and why they
/// fail.
pub fn ignoring_calls_are_known()
    ensures { IgnoringCallsAreKnown }
{
    bi_legacy::laws::one_meaning();
}

/// What the deep calls return for small files with a devicetree inside is known.
pub fn deep_calls_are_known()
    ensures { DeepCallsAreKnown }
{
    bi_legacy::laws::one_meaning();
}
