//! The names of the properties that hold a payload or name its region.

ghost use Rattle.std.specs.Prelude.{◌≡◌};
ghost use Rattle.bi_fit.specs.Names.{is_payload_name as is_payload_name_of};

/// Returns whether a property of an image node with the given name holds the payload or names its
/// region. `data`, `data-offset`, `data-position` and `data-size` are these names.
pub fn is_payload_name(name: &[u8]) -> bool
    ensures { result ≡ is_payload_name_of name.now }
{
    name == b"data".as_slice()
        || name == b"data-offset".as_slice()
        || name == b"data-position".as_slice()
        || name == b"data-size".as_slice()
}
