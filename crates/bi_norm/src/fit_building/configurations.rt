//! The checks of configurations to be built.

ghost use Rattle.std.specs.Prelude.{◌≡◌, ◌↔◌, ◌^◌, ◌<◌, ℕ, List, [], length, bytes_eq};
ghost use Rattle.std.specs.Prelude.{IfErr, IsTrue, OnOk};
ghost use Rattle.std.specs.List.{AllByRecursion, list_all, list_any};
ghost use Rattle.std.specs.Option.{option_map};
ghost use Rattle.bi_base.specs.declared.fault.Cause.TheVariants.{BadField};
ghost use Rattle.bi_base.specs.Errors.{IsFaultOrNoMemory};
ghost use Rattle.bi_blob.specs.NameSets.{HoldsNames};
ghost use Rattle.bi_blob.specs.Tree.{AreDistinct};
ghost use Rattle.bi_fit.specs.Building.{configuration_names};
ghost use Rattle.bi_fit.specs.NamedImages.{configuration_spec_model, configuration_spec_models};
ghost use Rattle.bi_norm.specs.FitBuilding.{configuration_checks, HasKnownDefault, ListsOnly};
ghost use Rattle.bi_norm.specs.BuildChecks.{AllPass, IsFirstFailure, holds_name};
ghost use Rattle.bi_norm.specs.BuildChecks.{IsPlainConfiguration};

use bi_base::{Cause, Error, Fault, are_bytes, refuse};
use bi_blob::is_child_name;
use bi_fit::ConfigurationSpec;
use std::alloc::Global;
use std::collections::BTreeSet;

/// Makes the checks of each configuration in turn, except those of its texts. `image_names` are the
/// names of the images.
/// Requires: there are fewer than 2^32 configurations.
///
/// Errors, at the index of the configuration: BadField, if a node may not have its name or it lists
/// a name that no image has; DuplicateNode, if an earlier configuration has its name. Or
/// OutOfMemory.
pub(super) fn check_configurations(
    alloc: Global,
    configurations: &[ConfigurationSpec<'_>],
    image_names: &BTreeSet<&[u8]>,
) -> Result<(), Error>
    requires { length configurations.now < 2 ^ 32 }
    ensures passed { let models = configuration_spec_models configurations.now in
        OnOk result ((held : List (List ℕ)) → HoldsNames image_names.now held →
        AllPass (configuration_checks held 0 [] models)) }
    ensures can { let models = configuration_spec_models configurations.now in
        OnOk result ((held : List (List ℕ)) → HoldsNames image_names.now held →
        AllByRecursion (IsPlainConfiguration held) models) }
    ensures distinct { let models = configuration_spec_models configurations.now in
        OnOk result (AreDistinct (configuration_names models)) }
    ensures failed { let models = configuration_spec_models configurations.now in
        (held : List (List ℕ)) → HoldsNames image_names.now held →
        IfErr result (IsFaultOrNoMemory (IsFirstFailure (configuration_checks held 0 [] models))) }
{
    let mut names = BTreeSet::new(alloc);
    for (index, configuration) in configurations.iter().enumerate() {
        let offset = index as u32;
        are_bytes(configuration.name);
        if !is_child_name(configuration.name) || !lists_only(configuration, image_names) {
            return refuse(Cause::BadField, offset).map_err(Error::from);
        }
        if !names.insert(configuration.name)? {
            return refuse(Cause::DuplicateNode, offset).map_err(Error::from);
        }
    }
    Ok(())
}

/// Returns whether each name that a configuration lists, under whatever key, is in a set.
pub fn lists_only(configuration: &ConfigurationSpec<'_>, image_names: &BTreeSet<&[u8]>) -> bool
    ensures { (held : List (List ℕ)) → HoldsNames image_names.now held
        → IsTrue result ↔ ListsOnly held (configuration_spec_model configuration.now) }
{
    let lists = [
        configuration.kernel,
        configuration.fdt,
        configuration.ramdisk,
        configuration.firmware,
        configuration.loadables,
        configuration.script,
    ];
    are_all_among(&lists, image_names)
}

/// Returns whether all names of each list are in a set.
fn are_all_among(lists: &[&[&[u8]]], set: &BTreeSet<&[u8]>) -> bool
    ensures { result ≡ list_all (λ names. list_all (holds_name set.now) names.now) lists.now }
{
    lists.iter().all(|names| are_among(names, set))
}

/// Returns whether all names are in a set.
fn are_among(names: &[&[u8]], set: &BTreeSet<&[u8]>) -> bool
    ensures { result ≡ list_all (holds_name set.now) names.now }
{
    names.iter().all(|name| set.contains(*name))
}

/// Fails with BadField at the number of configurations, if there is a default and no configuration
/// has this name. Requires: there are fewer than 2^32 configurations.
pub(super) fn check_default(
    configurations: &[ConfigurationSpec<'_>],
    default: Option<&[u8]>,
) -> Result<(), Fault>
    requires { length configurations.now < 2 ^ 32 }
    ensures ok { let models = configuration_spec_models configurations.now in
        OnOk result (HasKnownDefault models (option_map (λ name. name.now) default.entry)) }
    ensures fault { let models = configuration_spec_models configurations.now in
        IfErr result (λ fault.
        ¬ (HasKnownDefault models (option_map (λ name. name.now) default.entry))
        × (fault ≡ record { cause = BadField; offset = length configurations.now })) }
{
    let Some(name) = default else {
        return Ok(());
    };
    if !is_name_of_one(configurations, name) {
        return refuse(Cause::BadField, configurations.len() as u32);
    }
    Ok(())
}

/// Returns whether one of these configurations has the given name.
fn is_name_of_one(configurations: &[ConfigurationSpec<'_>], name: &[u8]) -> bool
    ensures { result ≡ list_any
        (λ configuration. bytes_eq configuration.name.now name.now) configurations.now }
{
    configurations
        .iter()
        .any(|configuration| configuration.name == name)
}
