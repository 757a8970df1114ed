//! Paths of nodes. The function does nothing: what it ensures is a fact about the definition of a
//! path.

ghost use Rattle.bi_c.specs.KnownPaths.{PathsAreKnown};

/// The nodes at some paths of a small tree are known.
pub fn paths_are_known()
    ensures { PathsAreKnown }
{}
