//! The signed nodes of configurations, and the lists in them.

ghost use Rattle.std.specs.Prelude.{◌≡◌, map, IfOk};
ghost use Rattle.std.specs.List.{list_any};
ghost use Rattle.std.specs.Option.{option_map};
ghost use Rattle.bi_blob.specs.Lookups.{siblings};
ghost use Rattle.bi_coverage.specs.Signatures.{is_signed, has_bytes, signed_nodes, names_of_value};
ghost use Rattle.bi_coverage.specs.Signatures.{recorded_paths};
ghost use Rattle.bi_coverage.specs.Values.{meaning_of_node, names_listed_by};

use bi_fdt::NodeRef;
use bi_fit::nodes::Siblings;
use std::alloc::{AllocError, Global};

/// Returns whether a child of a configuration node is signed: its name begins with `signature`, and
/// it has a property `value` that is not empty.
fn is_signed(child: NodeRef) -> bool
    ensures { result ≡ is_signed (meaning_of_node child.entry) }
{
    if !child.name().starts_with(b"signature") {
        return false;
    }
    has_bytes(child.property(b"value"))
}

/// Returns whether there is a value, and it is not empty.
fn has_bytes(value: Option<&[u8]>) -> bool
    ensures { result ≡ has_bytes (option_map (λ value. value.now) value.entry) }
{
    match value {
        Some(value) => !value.is_empty(),
        None => false,
    }
}

/// Returns whether a configuration has a signed node.
pub(crate) fn has_signed_node(configuration: NodeRef) -> bool
    ensures { result ≡ list_any is_signed
        (siblings (meaning_of_node configuration.entry).children) }
{
    for child in Siblings::children(configuration) {
        if is_signed(child) {
            return true;
        }
    }
    false
}

/// Returns the signed nodes of a configuration, in order. Fails if memory runs out.
pub(crate) fn signed_nodes<'a, 'b>(
    alloc: Global,
    configuration: NodeRef<'a, 'b>,
) -> Result<Vec<NodeRef<'a, 'b>>, AllocError>
    ensures { IfOk result (λ found. map meaning_of_node found.items
        ≡ signed_nodes (meaning_of_node configuration.entry)) }
{
    let mut found = Vec::new(alloc);
    for child in Siblings::children(configuration) {
        if is_signed(child) {
            found.push(child)?;
        }
    }
    Ok(found)
}

/// Returns a value if it is a list of names: its last byte is a zero.
pub(crate) fn list_of_names(value: &[u8]) -> Option<&[u8]>
    ensures { option_map names_listed_by result ≡ names_of_value value.now }
{
    if value.ends_with(b"\0") {
        Some(value)
    } else {
        None
    }
}

/// Returns the list of the paths that a signature node records. Returns None if it records no list.
pub(crate) fn recorded_list<'a>(signature: NodeRef<'a, '_>) -> Option<&'a [u8]>
    ensures { option_map names_listed_by result ≡ recorded_paths (meaning_of_node signature.entry) }
{
    match signature.property(b"hashed-nodes") {
        Some(value) => list_of_names(value),
        None => None,
    }
}
