//! The properties of nodes of trees that can be changed.

ghost use Rattle.std.specs.Prelude.{◌≡◌, ◌≤◌, length, map, option_map};
ghost use Rattle.std.specs.Prelude.{OnOk, OnErr};
ghost use Rattle.bi_tree.specs.Properties.{tree_properties, tree_property, with_property_in};
ghost use Rattle.bi_tree.specs.Properties.{without_property_in};
ghost use Rattle.bi_tree.specs.TreeNodes.{index_named};
ghost use Rattle.bi_tree.specs.Trees.{first_value};

use std::alloc::{AllocError, Global};
use std::borrow::CowSlice;

/// A property.
#[derive(Drop)]
pub struct TreeProperty<'a> {
    /// The name.
    pub name: &'a [u8],
    /// The number of the name: its index among the names of the tree.
    pub number: usize,
    /// The value.
    pub value: CowSlice<'a, u8, Global>,
}

/// Returns the value of the first of these properties with this name. Returns None if there is
/// none.
pub(crate) fn value_of<'b>(properties: &'b [TreeProperty<'_>], name: &[u8]) -> Option<&'b [u8]>
    ensures { option_map (λ value. value.now) result
        ≡ first_value (tree_properties properties.now) name.now }
{
    let index = find_property(properties, name);
    match properties.get(index) {
        Some(property) => Some(property.value.as_slice()),
        None => None,
    }
}

/// Puts this property in the place of the first of these with its name. If there is none, it is
/// added as the last. Fails if memory runs out, and then changes nothing.
pub(crate) fn set_value<'a>(
    properties: &mut Vec<TreeProperty<'a>>,
    property: TreeProperty<'a>,
) -> Result<(), AllocError>
    ensures set { OnOk result (tree_properties properties.new.items
        ≡ with_property_in (tree_property property.entry)
        (tree_properties properties.old.items)) }
    ensures failed { OnErr result (properties.new.items ≡ properties.old.items) }
{
    let index = find_property(properties, property.name);
    if index < properties.len() {
        properties[index] = property;
    } else {
        properties.push(property)?;
    }
    Ok(())
}

/// Removes the first of these properties with this name. If there is none, nothing changes.
pub(crate) fn remove_value(properties: &mut Vec<TreeProperty<'_>>, name: &[u8])
    ensures { tree_properties properties.new.items
        ≡ without_property_in name.now (tree_properties properties.old.items) }
{
    let index = find_property(properties, name);
    if index < properties.len() {
        let _ = properties.remove(index);
    }
}

/// Returns the index of the first of these properties with this name, or their number if there is
/// none.
fn find_property(properties: &[TreeProperty<'_>], name: &[u8]) -> usize
    ensures index { result
        ≡ index_named name.now (map (λ property. property.name.now) properties.now) }
    ensures within { result ≤ length properties.now }
{
    for (index, property) in properties.iter().enumerate() {
        if property.name == name {
            return index;
        }
    }
    properties.len()
}
