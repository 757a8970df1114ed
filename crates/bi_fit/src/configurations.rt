//! The configurations of a flattened image tree.

ghost use Rattle.std.specs.Prelude.{◌≡◌, length, map, slice_get, IfOk, IfErr};
ghost use Rattle.std.specs.Option.{option_map};
ghost use Rattle.bi_blob.specs.Tree.{names};
ghost use Rattle.bi_fit.specs.Content.{tree_of};
ghost use Rattle.bi_fit.specs.Judgement.{configuration_nodes, default_of, listed_of, ListedImages};

use crate::fit::Fit;
use crate::key::Key;
use crate::lists::list_images;
use crate::nodes::Siblings;
use bi_base::text_before_nul;
use bi_fdt::NodeRef;
use std::alloc::{AllocFailed, Global};
use std::marker::Model;

/// A name that a configuration lists, and the payload of the image with that name.
#[derive(Clone, Copy, Debug, PartialEq, Eq)]
pub struct Named<'a> {
    /// The name.
    pub name: &'a [u8],
    /// The payload of the image, if it has one.
    pub payload: Option<&'a [u8]>,
}

/// Why a configuration lists no images under a key.
#[derive(Clone, Copy, Debug, PartialEq, Eq, thiserror::Error)]
pub enum ConfigError {
    /// There is no such configuration.
    #[error("no such configuration")]
    NoConfig,
    /// The configuration does not have the key.
    #[error("no such key")]
    NoKey,
    /// The value of the key is empty, or its last byte is not zero.
    #[error("bad list")]
    BadList,
    /// No image has the name at this index of the list, counted from 0. It is the first such name.
    #[error("missing image")]
    Missing(usize),
    /// Memory ran out.
    #[error("out of memory")]
    OutOfMemory,
}

impl<T: Drop> From<AllocFailed<T>> for ConfigError {
    ghost use Rattle.bi_fit.specs.declared.configurations.ConfigError.TheVariants.{OutOfMemory};

    ghost from_gives = { λ _ error. error ≡ OutOfMemory };

    fn from(_error: AllocFailed<T>) -> ConfigError {
        ConfigError::OutOfMemory
    }
}

/// A configuration of a flattened image tree.
#[derive(Drop)]
pub struct Configuration<'a, 'b> {
    fit: &'b Fit<'a>,
    node: NodeRef<'a, 'b>,
}

impl<'a, 'b> Model for Configuration<'a, 'b> {
    ghost use Rattle.bi_fdt.specs.Views.{node_of};
    ghost use Rattle.bi_fit.specs.JudgementCalls.{ConfigurationModel};
    ghost use Rattle.bi_fit.specs.HashNodes.{IsConfiguration};

    ghost Value = { ConfigurationModel };

    ghost view = { λ configuration. record {
      content = configuration.fit.now;
      name = (node_of configuration.node).name;
    } };

    ghost invariant = { λ configuration. IsConfiguration
        configuration.fit.now (node_of configuration.node) };
}

impl<'a, 'b> Configuration<'a, 'b> {
    ghost use Rattle.bi_fit.specs.JudgementCalls.{listed_image, IsListError};

    /// Returns the name.
    pub fn name(&self) -> &'a [u8]
        ensures { result.now ≡ self.now.name }
    {
        self.node.name()
    }

    /// Returns the images that the configuration lists under a key, in their order.
    ///
    /// Errors, the first that applies: NoKey; BadList; Missing. OutOfMemory occurs only if neither
    /// of the first two applies.
    pub fn payloads(&self, alloc: Global, key: Key) -> Result<Vec<Named<'a>>, ConfigError>
        ensures listed { IfOk result (λ listed. listed_of (tree_of self.now.content) self.now.name
            key ≡ ListedImages (map listed_image listed.items)) }
        ensures failed { IfErr result (IsListError
            (listed_of (tree_of self.now.content) self.now.name key)) }
    {
        self.fit.give_invariant();
        list_images(alloc, self.fit, self.node, key)
    }
}

/// An iterator over the configurations, in their order in the file.
#[derive(Drop)]
pub struct Configurations<'a, 'b> {
    fit: &'b Fit<'a>,
    nodes: Siblings<'a, 'b>,
}

impl<'a, 'b> Model for Configurations<'a, 'b> {
    ghost use Rattle.std.specs.Prelude.{List, map};
    ghost use Rattle.std.specs.List.{AllByRecursion};
    ghost use Rattle.bi_fit.specs.JudgementCalls.{ConfigurationModel};
    ghost use Rattle.bi_fit.specs.HashNodes.{IsConfiguration};
    ghost use Rattle.bi_fit.specs.Siblings.{siblings_left};

    ghost Value = { List ConfigurationModel };

    ghost view = { λ configurations. map
        (λ node. record { content = configurations.fit.now; name = node.name })
        (siblings_left configurations.nodes) };

    ghost invariant = { λ configurations. AllByRecursion
        (IsConfiguration configurations.fit.now) (siblings_left configurations.nodes) };
}

impl<'a, 'b> Iterator for Configurations<'a, 'b> {
    ghost use Rattle.std.specs.Iterator.{YieldsFirst, item_count};

    type Item = Configuration<'a, 'b>;

    ghost next_gives = { YieldsFirst (λ configurations. configurations) };

    ghost remaining = { item_count (λ configurations. configurations) };

    fn next(&mut self) -> Option<Configuration<'a, 'b>> {
        let node = self.nodes.next()?;
        Some(Configuration {
            fit: self.fit,
            node,
        })
    }
}

impl<'a> Fit<'a> {
    ghost use Rattle.bi_fit.specs.JudgementCalls.{configurations_of, listed_image, IsListError};

    /// Returns the configurations, in their order in the file. Iterating over all of them takes
    /// time linear in their number.
    pub fn configurations<'b>(&'b self) -> Configurations<'a, 'b>
        ensures { result ≡ configurations_of self.now }
    {
        self.give_invariant();
        Configurations {
            fit: self,
            nodes: self.configuration_nodes(),
        }
    }

    /// Returns the number of configurations. Takes time linear in it.
    pub fn config_count(&self) -> usize
        ensures { result ≡ length (names (configuration_nodes (tree_of self.now))) }
    {
        match self.configurations_node() {
            Some(node) => node.child_count(),
            None => 0,
        }
    }

    /// Returns the name of configuration `index`, counted from 0. Returns None if there is no such
    /// configuration. Takes time linear in the number of configurations before it.
    pub fn config_name(&self, index: usize) -> Option<&'a [u8]>
        ensures { option_map (λ name. name.now) result
            ≡ slice_get (names (configuration_nodes (tree_of self.now))) index }
    {
        Some(self.configurations_node()?.child_at(index)?.name())
    }

    /// Returns the name of the default configuration: the bytes of the property `default` of
    /// `/configurations` before its first zero. Returns None if there is no such node or property,
    /// or no zero in it. There may be no configuration with this name.
    pub fn default_config(&self) -> Option<&'a [u8]>
        ensures { option_map (λ name. name.now) result ≡ default_of (tree_of self.now) }
    {
        text_before_nul(self.configurations_node()?.property(b"default")?)
    }

    /// Returns the images that the configuration with the given name lists under a key, in their
    /// order.
    ///
    /// Errors, the first that applies: NoConfig; NoKey; BadList; Missing. OutOfMemory occurs only
    /// if none of the first three applies.
    pub fn config_payloads(
        &self,
        alloc: Global,
        conf: &[u8],
        key: Key,
    ) -> Result<Vec<Named<'a>>, ConfigError>
        ensures listed { IfOk result (λ listed. listed_of (tree_of self.now) conf.now key
            ≡ ListedImages (map listed_image listed.items)) }
        ensures failed { IfErr result (IsListError (listed_of (tree_of self.now) conf.now key)) }
    {
        self.give_invariant();
        match self.configuration_node(conf) {
            Some(node) => list_images(alloc, self, node, key),
            None => Err(ConfigError::NoConfig),
        }
    }
}
