//! The references of configurations.

ghost use Rattle.std.specs.Prelude.{◌≡◌, [], filter, IfOk, OnOk, MatchOption};
ghost use Rattle.bi_blob.specs.Layout.{is_among};
ghost use Rattle.bi_blob.specs.Tree.{names};
ghost use Rattle.bi_fdt.specs.Views.{node_of, table_of_node};
ghost use Rattle.bi_fit.specs.Content.{IsHeld, tree_of};
ghost use Rattle.bi_fit.specs.Judgement.{listed_names};
ghost use Rattle.bi_fit.specs.NormalNodes.{HasDistinctNames};
ghost use Rattle.bi_coverage.specs.Paths.{with_all_new};
ghost use Rattle.bi_coverage.specs.ReferenceOrders.{IsNamesOrder};
ghost use Rattle.bi_coverage.specs.Signatures.{images_in, names_in_property, other_names};
ghost use Rattle.bi_coverage.specs.Signatures.{references as references_of};
ghost use Rattle.bi_coverage.specs.Values.{meaning_of_node};

use crate::name_set::NameSet;
use crate::signed::list_of_names;
use bi_fdt::{Blob, NodeRef, Property, PropertyOrder, keys_at, rank_names};
use bi_fit::{Fit, split_name};
use std::alloc::{AllocError, Global};

/// Returns the order of the properties of each node of a blob by their names. Makes n log n
/// comparisons of names, for n different names. Fails if memory runs out.
pub(crate) fn order_by_names(alloc: Global, blob: &Blob<'_>) -> Result<PropertyOrder, AllocError>
    ensures { IfOk result (IsNamesOrder blob.now.table) }
{
    let ranked = rank_names(alloc, blob.names())?;
    let keys = keys_at(alloc, &ranked.ranks, &blob.name_numbers(alloc)?)?;
    let order = PropertyOrder::new(alloc, blob, &keys)?;
    Ok(order)
}

/// Returns the names of the images that the properties of a configuration list, each once, in byte
/// order of the names of the properties. Fails if memory runs out. Requires: the tree was read, the
/// order is that of its blob, and no two properties of the configuration have the same name.
pub(crate) fn references<'a>(
    alloc: Global,
    fit: &Fit<'a>,
    configuration: NodeRef<'a, '_>,
    order: &PropertyOrder,
) -> Result<NameSet<'a>, AllocError>
    requires held { IsHeld fit.now }
    requires order { IsNamesOrder (table_of_node configuration) order.now }
    requires distinct { HasDistinctNames (node_of configuration).own }
    ensures { IfOk result (λ found. found
        ≡ references_of (tree_of fit.now) (meaning_of_node configuration.entry)) }
{
    let mut found = NameSet::new(alloc, 0)?;
    for (_, property) in configuration.properties_in(order) {
        if let Some(list) = image_list(property) {
            add_images(&mut found, fit, list)?;
        }
    }
    Ok(found)
}

/// Returns the value of a property of a configuration if it is a list of names that may be those of
/// images.
fn image_list(property: Property<'_>) -> Option<&[u8]>
    ensures { MatchOption result
        (names_in_property (property.entry.name.now, property.entry.value.now) ≡ [])
        (λ list. names_in_property (property.entry.name.now, property.entry.value.now)
        ≡ listed_names list.now) }
{
    if is_other_name(property.name) {
        return None;
    }
    list_of_names(property.value)
}

/// Returns whether a property of a configuration with this name lists no images, whatever its value
/// is.
fn is_other_name(name: &[u8]) -> bool
    ensures { result ≡ is_among name.now other_names }
{
    b"description".as_slice() == name
        || b"compatible".as_slice() == name
        || b"default".as_slice() == name
}

/// Adds the names of images that a value lists. Fails if memory runs out. Requires: the tree was
/// read.
fn add_images<'a>(found: &mut NameSet<'a>, fit: &Fit<'a>, value: &'a [u8]) -> Result<(), AllocError>
    requires held { IsHeld fit.now }
    ensures { OnOk result (found.new ≡ with_all_new found.old
        (filter (λ name. is_among name (names (images_in (tree_of fit.now))))
        (listed_names value.entry.now))) }
{
    let mut rest = value;
    while let Some((name, later)) = split_name(rest) {
        if fit.image(name).is_some() {
            found.add(name)?;
        }
        rest = later;
    }
    Ok(())
}
