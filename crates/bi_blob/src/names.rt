//! Names that nodes and properties may have.

ghost use Rattle.std.specs.Prelude.{◌≡◌, ◌↔◌, IsTrue};
ghost use Rattle.bi_blob.specs.NamesByPrefix.{prefix_of_name};
ghost use Rattle.bi_blob.specs.Tree.{IsChildName, IsPropertyName};

/// Returns whether a node other than the root may have this name: it is not empty, and no byte is
/// zero or `/` (Devicetree Specification, 2.2.1).
pub fn is_child_name(name: &[u8]) -> bool
    ensures { IsTrue result ↔ IsChildName name.now }
{
    is_property_name(name) && !name.contains(&b'/')
}

/// Returns whether a property may have this name: it is not empty, and no byte is zero (Devicetree
/// Specification, 2.2.4).
pub fn is_property_name(name: &[u8]) -> bool
    ensures { IsTrue result ↔ IsPropertyName name.now }
{
    !name.is_empty() && !name.contains(&0)
}

/// Returns the first eight bytes of a name as a number, the highest byte first, with zeros after a
/// shorter name. Two names with different prefixes are different, so their other bytes need not be
/// read.
pub fn name_prefix(name: &[u8]) -> u64
    ensures { result ≡ prefix_of_name name.now }
{
    let mut bytes = [0; 8];
    let length = name.len().min(8);
    bytes[..length].copy_from_slice(&name[..length]);
    u64::from_be_bytes(bytes)
}
