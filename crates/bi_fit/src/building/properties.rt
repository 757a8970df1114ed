//! The properties of the nodes of a tree to be built.

ghost use Rattle.std.specs.Prelude.{◌≡◌, IsTrue, ◌++◌, ◌∷◌, [], ℕ, List, OnOk, IfOk, codes};
ghost use Rattle.std.specs.Option.{option_map};
ghost use Rattle.std.specs.FinMap.{from_entries};
ghost use Rattle.bi_blob.specs.Layout.{is_among, strings_of};
ghost use Rattle.bi_blob.specs.Tree.{Property};
ghost use Rattle.bi_fit.specs.Building.{description_of, list_property};
ghost use Rattle.bi_fit.specs.Building.{built_root_properties, built_image_properties};
ghost use Rattle.bi_fit.specs.Building.{built_configuration_properties, built_hash_properties};
ghost use Rattle.bi_fit.specs.Building.{text_value};
ghost use Rattle.bi_fit.specs.Names.{default_name};
ghost use Rattle.bi_fit.specs.BuiltNodes.{AreListValues, with_cell_property};
ghost use Rattle.bi_fit.specs.NamedImages.{head_model, named_model, configuration_spec_model};
ghost use Rattle.bi_fit.specs.PropertyMapModels.{among, with_property_value};
ghost use Rattle.bi_lay.specs.Values.{value_bytes};
ghost use Rattle.bi_fit.specs.BuiltNames.{built_names};

use crate::building::lists::ListValues;
use crate::building::names::index_of;
use crate::building::{ConfigurationSpec, Head, NamedImage};
use crate::document::PropertyMap;
use crate::property_names::PropertyNames;
use bi_hash::Algo;
use bi_lay::Value;
use std::alloc::{AllocError, Global};

/// Returns the properties of the root. Requires: the names are those of a built tree.
pub(super) fn root_properties<'a, 'b>(
    alloc: Global,
    names: &'b PropertyNames<'a>,
    head: Head<'a>,
) -> Result<PropertyMap<'a, 'b>, AllocError>
    requires { names.now ≡ built_names }
    ensures { IfOk result (λ properties. properties
        ≡ among built_names (from_entries (built_root_properties (head_model head.entry)))) }
{
    let mut properties = PropertyMap::new(alloc, names);
    insert(&mut properties, b"timestamp", Value::Cell(head.time))?;
    insert(
        &mut properties,
        b"description",
        Value::Text(head.description),
    )?;
    insert(&mut properties, b"#address-cells", Value::Cell(1))?;
    Ok(properties)
}

/// Returns the properties of an image node, without those that give its payload. Requires: the
/// names are those of a built tree.
pub(super) fn image_properties<'a, 'b>(
    alloc: Global,
    names: &'b PropertyNames<'a>,
    head: Head<'a>,
    image: &NamedImage<'a>,
) -> Result<PropertyMap<'a, 'b>, AllocError>
    requires { names.now ≡ built_names }
    ensures { IfOk result (λ properties. properties
        ≡ among built_names (from_entries
        (built_image_properties (head_model head.entry) (named_model image.now)))) }
{
    let mut properties = PropertyMap::new(alloc, names);
    insert_cell(&mut properties, b"entry", image.entry)?;
    insert_cell(&mut properties, b"load", image.load)?;
    insert(&mut properties, b"type", Value::Text(image.image_type))?;
    insert(&mut properties, b"os", Value::Text(image.os))?;
    insert_description(&mut properties, head, image.description)?;
    insert(
        &mut properties,
        b"compression",
        Value::Text(image.compression),
    )?;
    insert(&mut properties, b"arch", Value::Text(image.arch))?;
    Ok(properties)
}

/// Returns the properties of the node `configurations`, with the name of the default. Requires: the
/// names are those of a built tree.
pub(super) fn default_properties<'a, 'b>(
    alloc: Global,
    names: &'b PropertyNames<'a>,
    default: &'a [u8],
) -> Result<PropertyMap<'a, 'b>, AllocError>
    requires { names.now ≡ built_names }
    ensures { IfOk result (λ properties. properties
        ≡ among built_names (from_entries ((default_name, text_value default.entry.now) ∷ []))) }
{
    let mut properties = PropertyMap::new(alloc, names);
    insert(&mut properties, b"default", Value::Text(default))?;
    Ok(properties)
}

/// Returns the properties of a configuration. Requires: the names are those of a built tree, and
/// the lists are those of the configuration.
pub(super) fn configuration_properties<'a, 'b>(
    alloc: Global,
    names: &'b PropertyNames<'a>,
    head: Head<'a>,
    configuration: &ConfigurationSpec<'a>,
    lists: &'a ListValues,
) -> Result<PropertyMap<'a, 'b>, AllocError>
    requires names { names.now ≡ built_names }
    requires lists { AreListValues (configuration_spec_model configuration.now) lists.now }
    ensures { let model = configuration_spec_model configuration.entry.now in
        IfOk result (λ properties. properties
        ≡ among built_names (from_entries
        (built_configuration_properties (head_model head.entry) model))) }
{
    let mut properties = PropertyMap::new(alloc, names);
    insert_list(&mut properties, b"script", &lists.script)?;
    insert_list(&mut properties, b"loadables", &lists.loadables)?;
    insert_list(&mut properties, b"firmware", &lists.firmware)?;
    insert_list(&mut properties, b"ramdisk", &lists.ramdisk)?;
    insert_list(&mut properties, b"fdt", &lists.fdt)?;
    insert_list(&mut properties, b"kernel", &lists.kernel)?;
    insert_list(&mut properties, b"compatible", &lists.compatible)?;
    insert_description(&mut properties, head, configuration.description)?;
    Ok(properties)
}

/// Returns the properties of a hash node with this algorithm and this digest. Requires: the names
/// are those of a built tree.
pub(super) fn hash_properties<'a, 'b>(
    alloc: Global,
    names: &'b PropertyNames<'a>,
    algo: Algo,
    digest: &'a [u8],
) -> Result<PropertyMap<'a, 'b>, AllocError>
    requires { names.now ≡ built_names }
    ensures { IfOk result (λ properties. properties
        ≡ among built_names (from_entries (built_hash_properties algo digest.entry.now))) }
{
    let mut properties = PropertyMap::new(alloc, names);
    insert(&mut properties, b"value", Value::Slice(digest))?;
    insert(
        &mut properties,
        b"algo",
        Value::Text(algo.name().as_bytes()),
    )?;
    Ok(properties)
}

/// Adds a property, or sets the value of the property with the given name. Requires: the names of
/// the properties are those of a built tree, and the given name is one of them.
fn insert<'a>(
    properties: &mut PropertyMap<'a, '_>,
    name: &[u8],
    value: Value<'a>,
) -> Result<(), AllocError>
    requires names { properties.old.names ≡ built_names }
    requires known { IsTrue (is_among name.now built_names) }
    ensures { OnOk result (properties.new
        ≡ with_property_value name.entry.now (value_bytes value.entry) properties.old) }
{
    let rank = index_of(properties.names().as_slice(), name);
    properties.insert(rank, value)
}

/// Adds a property of one cell, if there is a number. Requires: the names of the properties are
/// those of a built tree, and the given name is one of them.
fn insert_cell<'a>(
    properties: &mut PropertyMap<'a, '_>,
    name: &[u8],
    number: Option<u32>,
) -> Result<(), AllocError>
    requires names { properties.old.names ≡ built_names }
    requires known { IsTrue (is_among name.now built_names) }
    ensures { OnOk result
        (properties.new ≡ with_cell_property name.entry.now number properties.old) }
{
    match number {
        Some(number) => insert(properties, name, Value::Cell(number)),
        None => Ok(()),
    }
}

/// Adds the description of an image or a configuration: its own, or else that of the tree.
/// Requires: the names of the properties are those of a built tree.
fn insert_description<'a>(
    properties: &mut PropertyMap<'a, '_>,
    head: Head<'a>,
    own: Option<&'a [u8]>,
) -> Result<(), AllocError>
    requires { properties.old.names ≡ built_names }
    ensures { let text = description_of (head_model head.entry)
        (option_map (λ text. text.now) own.entry) in
        OnOk result (properties.new
        ≡ with_property_value (codes "description") (text_value text) properties.old) }
{
    let text = own.unwrap_or(head.description);
    insert(properties, b"description", Value::Text(text))
}

/// Adds the property with the given name that lists texts, if it lists at least one. Requires: the
/// names of the properties are those of a built tree, and the given name is one of them.
fn insert_list<'a>(
    properties: &mut PropertyMap<'a, '_>,
    name: &[u8],
    list: &'a [u8],
) -> Result<(), AllocError>
    requires names { properties.old.names ≡ built_names }
    requires known { IsTrue (is_among name.now built_names) }
    ensures same_names { OnOk result (properties.new.names ≡ properties.old.names) }
    ensures inserted { (texts : List (List ℕ)) (rest : List Property)
        → list.entry.now ≡ strings_of texts
        → properties.old ≡ among built_names (from_entries rest) →
        OnOk result (properties.new
        ≡ among built_names (from_entries (list_property name.entry.now texts ++ rest))) }
{
    if list.is_empty() {
        return Ok(());
    }
    insert(properties, name, Value::Slice(list))
}
