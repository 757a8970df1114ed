//! Small boot images that are over the bounds of commands or within them. Each function does
//! nothing: what it ensures is a fact about the definitions.

ghost use Rattle.bi_commands.specs.KnownBounds.{PayloadBoundsAreKnown, UpdateBoundsAreKnown};

/// Payloads that are together as long as the limit are within it, and longer ones are not. Equal
/// payloads count once for each image. An update only of the time has no such bound.
pub fn payload_bounds_are_known()
    ensures { PayloadBoundsAreKnown }
{}

/// An update whose text is as long as the limit is not refused, and a longer one is.
pub fn update_bounds_are_known()
    ensures { UpdateBoundsAreKnown }
{}
