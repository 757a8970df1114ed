//! What is known of the signatures of a flattened image tree.

ghost use Rattle.std.specs.Prelude.{◌≡◌, ◌≤◌, ◌<◌, IfOk, IfErr, OnOk, if◌then◌else◌, map};
ghost use Rattle.std.specs.List.{list_any};
ghost use Rattle.bi_base.specs.Errors.{IsFaultOrNoMemory};
ghost use Rattle.bi_base.specs.Reading.{too_large};
ghost use Rattle.bi_coverage.specs.Signatures.{all_needed_length};
ghost use Rattle.bi_coverage.specs.Values.{configuration_value};
ghost use Rattle.bi_fit.specs.Content.{IsHeld, tree_of};
ghost use Rattle.bi_report.specs.ConcernValues.{IsCoverageOf};
ghost use Rattle.bi_report.specs.SignedTrees.{has_signatures};
ghost use Rattle.bi_report.specs.SignedTrees.{is_any_signed as has_signed_node};

use super::addresses::{Paths, unit_addresses};
use bi_base::{Error, Limits};
use bi_coverage::{ConfigurationCoverage, read_coverage};
use bi_fit::Fit;
use std::alloc::Global;

/// What the signatures of a flattened image tree cover, and the unit addresses in it.
#[derive(Drop)]
pub struct FitCoverage<'a> {
    /// The configurations, in their order in the file, each with its signed nodes.
    pub configurations: Vec<ConfigurationCoverage<'a>>,
    /// The paths of the nodes whose names have unit addresses. There are none if no configuration
    /// has a signed node.
    pub(super) addresses: Paths<'a>,
}

impl<'a> FitCoverage<'a> {
    /// Reads what the signatures cover. Requires: the tree was read.
    ///
    /// Errors: TooLarge at the limit, only if the paths are longer that the signed nodes must
    /// cover, for each of them those of its configuration; OutOfMemory.
    pub fn read(alloc: Global, fit: &Fit<'a>, limits: Limits) -> Result<FitCoverage<'a>, Error>
        requires held { IsHeld fit.now }
        ensures read { IfOk result (λ coverage. IsCoverageOf fit.now coverage) }
        ensures within { IfOk result (λ _. all_needed_length (tree_of fit.now) ≤ limits.file) }
        ensures failed { IfErr result (IsFaultOrNoMemory (λ fault. (fault ≡ too_large limits.file)
            × (limits.file < all_needed_length (tree_of fit.now)))) }
    {
        let configurations = read_coverage(alloc, fit, limits)?;
        let addresses = if is_any_signed(&configurations) {
            unit_addresses(alloc, fit.blob())?
        } else {
            Vec::new(alloc)
        };
        Ok(FitCoverage {
            configurations,
            addresses,
        })
    }
}

/// Returns whether one of these configurations has a signed node.
fn is_any_signed(configurations: &[ConfigurationCoverage]) -> bool
    ensures { result ≡ has_signed_node (map configuration_value configurations.now) }
{
    for configuration in configurations {
        if is_signed(configuration) {
            return true;
        }
    }
    false
}

/// Returns whether a configuration has a signed node.
fn is_signed(configuration: &ConfigurationCoverage) -> bool
    ensures { result ≡ has_signatures (configuration_value configuration.now).signatures }
{
    !configuration.signatures.is_empty()
}
