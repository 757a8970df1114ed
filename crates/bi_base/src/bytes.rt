//! What is true of any slice of bytes.

ghost use Rattle.bi_base.specs.Cells.{AreBytes};

/// Does nothing. Its contract states that each element of a slice of bytes is below 256.
pub fn are_bytes(bytes: &[u8])
    ensures { AreBytes bytes.now }
{}
