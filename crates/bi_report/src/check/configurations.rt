//! The concerns about the configurations of a flattened image tree.

ghost use Rattle.std.specs.Prelude.{◌≡◌, flat_map};
ghost use Rattle.std.specs.Iterator.{YieldsFirstBy, item_count};
ghost use Rattle.std.specs.Option.{option_map};
ghost use Rattle.bi_blob.specs.Lookups.{siblings};
ghost use Rattle.bi_blob.specs.Tree.{names};
ghost use Rattle.bi_fdt.specs.Properties.{file_property_of};
ghost use Rattle.bi_fdt.specs.Views.{node_of};
ghost use Rattle.bi_fit.specs.Content.{tree_of};
ghost use Rattle.bi_fit.specs.HashNodes.{file_configurations};
ghost use Rattle.bi_fit.specs.Judgement.{configuration_nodes as nodes_of_configurations};
ghost use Rattle.bi_report.specs.Checking.{names_one_of};
ghost use Rattle.bi_report.specs.ConcernValues.{found_or_none, found_value};
ghost use Rattle.bi_report.specs.ConcernsLeft.{configuration_left, configurations_left};
ghost use Rattle.bi_report.specs.FoundConcerns.{default_property as property_of_default};
ghost use Rattle.bi_report.specs.FoundConcerns.{found_in_configuration, found_in_default};
ghost use Rattle.bi_report.specs.FoundConcerns.{found_in_key};

use super::concern::Concern;
use crate::listed::{KeyList, listed_under};
use bi_fdt::{NodeRef, Property};
use bi_fit::nodes::Siblings;
use bi_fit::{Fit, Key};

/// The concerns that are left about a configuration, key by key.
#[derive(Clone, Copy)]
pub(super) struct ConfigurationConcerns<'a, 'b> {
    fit: &'b Fit<'a>,
    node: NodeRef<'a, 'b>,
    /// The index of the first key that is left.
    index: usize,
}

impl<'a, 'b> Iterator for ConfigurationConcerns<'a, 'b> {
    type Item = Concern<'a, 'b>;

    ghost next_gives = { YieldsFirstBy found_value configuration_left };

    ghost remaining = { item_count configuration_left };

    fn next(&mut self) -> Option<Concern<'a, 'b>> {
        while self.index < Key::ALL.len() {
            let key = Key::ALL[self.index];
            self.index += 1;
            if let Some(concern) = key_concern(self.fit, self.node, key) {
                return Some(concern);
            }
        }
        None
    }
}

/// The concerns that are left about the configurations of a flattened image tree.
#[derive(Drop)]
pub(super) struct AllConfigurationConcerns<'a, 'b> {
    fit: &'b Fit<'a>,
    /// Those about the configuration that the iterator has come to.
    current: Option<ConfigurationConcerns<'a, 'b>>,
    /// The nodes of the configurations after it.
    nodes: Siblings<'a, 'b>,
}

impl<'a, 'b> AllConfigurationConcerns<'a, 'b> {
    /// Returns the concerns about the configurations of a flattened image tree.
    pub(super) fn new(fit: &'b Fit<'a>) -> AllConfigurationConcerns<'a, 'b>
        ensures { configurations_left result ≡ flat_map
            (found_in_configuration fit.entry.now.images)
            (siblings (file_configurations fit.entry.now.blob)) }
    {
        AllConfigurationConcerns {
            fit,
            current: None,
            nodes: fit.configuration_nodes(),
        }
    }
}

impl<'a, 'b> Iterator for AllConfigurationConcerns<'a, 'b> {
    type Item = Concern<'a, 'b>;

    ghost next_gives = { YieldsFirstBy found_value configurations_left };

    ghost remaining = { item_count configurations_left };

    fn next(&mut self) -> Option<Concern<'a, 'b>> {
        loop {
            if let Some(concerns) = &mut self.current {
                if let Some(concern) = concerns.next() {
                    return Some(concern);
                }
            }
            self.current = Some(ConfigurationConcerns {
                fit: self.fit,
                node: self.nodes.next()?,
                index: 0,
            });
        }
    }
}

/// Returns the concern about what the configuration of a node lists under a key, if there is one.
fn key_concern<'a, 'b>(fit: &Fit<'a>, node: NodeRef<'a, 'b>, key: Key) -> Option<Concern<'a, 'b>>
    ensures { found_or_none result ≡ found_in_key fit.now.images (node_of node.entry) key }
{
    match listed_under(fit, node, key) {
        KeyList::NoKey => None,
        KeyList::Images(_names) => None,
        KeyList::BadList => Some(Concern::BadKey(node, key)),
        KeyList::Missing(index) => Some(Concern::MissingImage(node, key, index)),
    }
}

/// Returns the concern about the default, if there is one.
pub(super) fn default_concern<'a, 'b>(fit: &Fit<'a>) -> Option<Concern<'a, 'b>>
    ensures { found_or_none result ≡ found_in_default fit.now }
{
    let default = fit.default_config();
    if fit.config_count() == 0 || names_configuration(fit, default) {
        None
    } else {
        Some(Concern::BadDefault(default, default_property(fit)))
    }
}

/// Returns the property that has the default, if there is one.
fn default_property<'a>(fit: &Fit<'a>) -> Option<Property<'a>>
    ensures { option_map file_property_of result ≡ property_of_default fit.now.blob }
{
    let node = fit.blob().root().child(b"configurations")?;
    node.find_property(b"default")
}

/// Returns whether the default is the name of a configuration.
fn names_configuration(fit: &Fit, default: Option<&[u8]>) -> bool
    ensures { result ≡ names_one_of (option_map (λ name. name.now) default.entry)
        (names (nodes_of_configurations (tree_of fit.now))) }
{
    let Some(name) = default else {
        return false;
    };
    for configuration in fit.configurations() {
        if name == configuration.name() {
            return true;
        }
    }
    false
}
