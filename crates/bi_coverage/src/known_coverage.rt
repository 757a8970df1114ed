//! A small flattened image tree with known coverage. The function does nothing: what it ensures
//! is a fact about the definitions.

ghost use Rattle.bi_coverage.specs.KnownCoverage.{CoverageIsKnown};

/// A signature that records all that its configuration needs has no concern. Each thing that is
/// missing, is too much, or is not covered by `hashed-strings` is a concern.
pub fn coverage_is_known()
    ensures coverage { CoverageIsKnown }
{}
