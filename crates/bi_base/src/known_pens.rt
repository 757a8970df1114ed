//! What pens may do with a small text. The function does nothing: what it ensures is a fact about
//! the definitions.

ghost use Rattle.bi_base.specs.KnownPens.{PutsAreKnown};

/// What putting a small text to a pen over a sink, or to one in memory, may leave, and what it may
/// not.
pub fn puts_are_known()
    ensures { PutsAreKnown }
{}
