//! The causes with their numbers and names. The function does nothing: what it ensures is a fact
//! about the definitions.

ghost use Rattle.bi_base.specs.KnownCauses.{CausesAreKnown};

/// The causes have the numbers 1 to 26 and known names.
pub fn causes_are_known()
    ensures { CausesAreKnown }
{}
