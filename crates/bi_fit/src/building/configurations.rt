//! The configurations of a tree to be built.

ghost use Rattle.std.specs.Prelude.{◌≡◌, map, IfOk};
ghost use Rattle.std.specs.List.{AllByRecursion, AllZip};
ghost use Rattle.bi_fit.specs.BuiltNames.{built_names};
ghost use Rattle.bi_fit.specs.BuiltNodes.{AreListValues, built_configuration_leaves};
ghost use Rattle.bi_fit.specs.Leaves.{leaf_model};
ghost use Rattle.bi_fit.specs.NamedImages.{head_model, configuration_spec_models};

use crate::building::lists::ListValues;
use crate::building::properties::configuration_properties;
use crate::building::{ConfigurationSpec, Head};
use crate::document::Leaf;
use crate::property_names::PropertyNames;
use std::alloc::{AllocError, Global};

/// Returns the nodes of configurations with these values. Fails if memory runs out. Requires:
/// `names` are the names of a built tree, and the lists are those of the configurations.
pub(super) fn configuration_leaves<'a, 'b>(
    alloc: Global,
    names: &'b PropertyNames<'a>,
    head: Head<'a>,
    configurations: &[ConfigurationSpec<'a>],
    lists: &'a [ListValues],
) -> Result<Vec<Leaf<'a, 'b>>, AllocError>
    requires names { names.now ≡ built_names }
    requires lists { AllZip AreListValues (configuration_spec_models configurations.now) lists.now }
    ensures leaves { IfOk result (λ leaves. map leaf_model leaves.items
        ≡ built_configuration_leaves (head_model head.entry)
        (configuration_spec_models configurations.entry.now)) }
    ensures same_names { IfOk result (λ leaves.
        AllByRecursion (λ leaf. leaf.properties.names ≡ built_names) leaves.items) }
{
    let mut leaves = Vec::with_capacity(alloc, configurations.len())?;
    for (index, configuration) in configurations.iter().enumerate() {
        leaves.push(Leaf {
            name: configuration.name,
            properties: configuration_properties(alloc, names, head, configuration, &lists[index])?,
        })?;
    }
    Ok(leaves)
}
