//! The concerns about the signatures of the configurations of a flattened image tree.

ghost use Rattle.std.specs.Prelude.{◌≡◌, flat_map, map};
ghost use Rattle.std.specs.Iterator.{YieldsFirstBy, item_count};
ghost use Rattle.bi_coverage.specs.Values.{configuration_value, signature_value};
ghost use Rattle.bi_report.specs.Checking.{absence_concerns, unsigned_concerns};
ghost use Rattle.bi_report.specs.ConcernValues.{found_or_none, found_value, left_or_none};
ghost use Rattle.bi_report.specs.ConcernsLeft.{addresses_left, coverage_left, signature_left};
ghost use Rattle.bi_report.specs.ConcernsLeft.{signatures_left, found_in_paths, found_in_signed};
ghost use Rattle.bi_report.specs.FoundConcerns.{NamedNodes, concerns_about, found_in_coverage};

use super::addresses::Paths;
use super::concern::Concern;
use bi_coverage::{ConfigurationCoverage, SignatureConcern, SignatureCoverage};

/// The concerns that are left about a signed node of a configuration.
#[derive(Clone, Copy)]
pub(super) struct SignatureConcerns<'a, 'b> {
    /// The name of the configuration.
    configuration: &'a [u8],
    /// The name of the signed node.
    name: &'a [u8],
    concerns: &'b [SignatureConcern<'a>],
    /// The index of the first concern that is left.
    index: usize,
}

impl<'a, 'b> SignatureConcerns<'a, 'b> {
    /// Returns the concerns about a signed node of the configuration with this name.
    fn new(
        configuration: &'a [u8],
        signature: &'b SignatureCoverage<'a>,
    ) -> SignatureConcerns<'a, 'b>
        ensures { signature_left result
            ≡ found_in_signed configuration.now (signature_value signature.entry.now) }
    {
        SignatureConcerns {
            configuration,
            name: signature.name,
            concerns: &signature.concerns,
            index: 0,
        }
    }
}

impl<'a, 'b> Iterator for SignatureConcerns<'a, 'b> {
    type Item = Concern<'a, 'b>;

    ghost next_gives = { YieldsFirstBy found_value signature_left };

    ghost remaining = { item_count signature_left };

    fn next(&mut self) -> Option<Concern<'a, 'b>> {
        let concern = self.concerns.get(self.index)?;
        self.index += 1;
        Some(Concern::OfSignature(self.configuration, self.name, concern))
    }
}

/// The concerns that are left about the signatures of a configuration.
#[derive(Clone, Copy)]
pub(super) struct CoverageConcerns<'a, 'b> {
    configuration: &'a [u8],
    of_absence: Option<Concern<'a, 'b>>,
    /// Those about the signed node that the iterator has come to.
    current: Option<SignatureConcerns<'a, 'b>>,
    signatures: &'b [SignatureCoverage<'a>],
    /// The index of the first signed node after it.
    index: usize,
}

impl<'a, 'b> CoverageConcerns<'a, 'b> {
    /// Returns the concerns about the signatures of a configuration.
    fn new(configuration: &'b ConfigurationCoverage<'a>) -> CoverageConcerns<'a, 'b>
        ensures { coverage_left result
            ≡ found_in_coverage (configuration_value configuration.entry.now) }
    {
        CoverageConcerns {
            configuration: configuration.name,
            of_absence: unsigned_concern(configuration),
            current: None,
            signatures: &configuration.signatures,
            index: 0,
        }
    }
}

impl<'a, 'b> Iterator for CoverageConcerns<'a, 'b> {
    type Item = Concern<'a, 'b>;

    ghost next_gives = { YieldsFirstBy found_value coverage_left };

    ghost remaining = { item_count coverage_left };

    fn next(&mut self) -> Option<Concern<'a, 'b>> {
        if let Some(concern) = self.of_absence.take() {
            return Some(concern);
        }
        loop {
            if let Some(concern) = next_of_signature(&mut self.current) {
                return Some(concern);
            }
            let signature = self.signatures.get(self.index)?;
            self.index += 1;
            self.current = Some(SignatureConcerns::new(self.configuration, signature));
        }
    }
}

/// Takes the first concern that is left about a signed node, if there is one.
fn next_of_signature<'a, 'b>(
    concerns: &mut Option<SignatureConcerns<'a, 'b>>,
) -> Option<Concern<'a, 'b>>
    ensures { YieldsFirstBy found_value (left_or_none signature_left)
        concerns.old result concerns.new }
{
    match concerns {
        Some(concerns) => concerns.next(),
        None => None,
    }
}

/// The concerns that are left about the signatures of configurations.
#[derive(Drop)]
pub(super) struct AllSignatureConcerns<'a, 'b> {
    /// Those about the configuration that the iterator has come to.
    current: Option<CoverageConcerns<'a, 'b>>,
    configurations: &'b [ConfigurationCoverage<'a>],
    /// The index of the first configuration after it.
    index: usize,
}

impl<'a, 'b> AllSignatureConcerns<'a, 'b> {
    /// Returns the concerns about the signatures of these configurations.
    pub(super) fn new(
        configurations: &'b [ConfigurationCoverage<'a>],
    ) -> AllSignatureConcerns<'a, 'b>
        ensures { signatures_left result
            ≡ flat_map found_in_coverage (map configuration_value configurations.entry.now) }
    {
        AllSignatureConcerns {
            current: None,
            configurations,
            index: 0,
        }
    }
}

impl<'a, 'b> Iterator for AllSignatureConcerns<'a, 'b> {
    type Item = Concern<'a, 'b>;

    ghost next_gives = { YieldsFirstBy found_value signatures_left };

    ghost remaining = { item_count signatures_left };

    fn next(&mut self) -> Option<Concern<'a, 'b>> {
        loop {
            if let Some(concerns) = &mut self.current {
                if let Some(concern) = concerns.next() {
                    return Some(concern);
                }
            }
            let configuration = self.configurations.get(self.index)?;
            self.index += 1;
            self.current = Some(CoverageConcerns::new(configuration));
        }
    }
}

/// Returns the concern that a configuration has no signed node, if it has none.
fn unsigned_concern<'a, 'b>(configuration: &ConfigurationCoverage<'a>) -> Option<Concern<'a, 'b>>
    ensures { let value = configuration_value configuration.now in
        found_or_none result ≡ concerns_about NamedNodes
        (unsigned_concerns value.name value.signatures) }
{
    if configuration.signatures.is_empty() {
        Some(Concern::Unsigned(Some(configuration.name)))
    } else {
        None
    }
}

/// Returns the concern that there are no configurations, if there are none.
pub(super) fn absence_concern<'a, 'b>(
    configurations: &[ConfigurationCoverage<'a>],
) -> Option<Concern<'a, 'b>>
    ensures { found_or_none result ≡ concerns_about NamedNodes
        (absence_concerns (map configuration_value configurations.now)) }
{
    if configurations.is_empty() {
        Some(Concern::Unsigned(None))
    } else {
        None
    }
}

/// The concerns that are left about unit addresses.
#[derive(Clone, Copy)]
pub(super) struct AddressConcerns<'a, 'b> {
    paths: &'b [Vec<&'a [u8]>],
    /// The index of the first path that is left.
    index: usize,
}

impl<'a, 'b> AddressConcerns<'a, 'b> {
    /// Returns the concerns about the nodes with these paths.
    pub(super) fn new(paths: &'b Paths<'a>) -> AddressConcerns<'a, 'b>
        ensures { addresses_left result ≡ found_in_paths paths.entry.now.items }
    {
        AddressConcerns { paths, index: 0 }
    }
}

impl<'a, 'b> Iterator for AddressConcerns<'a, 'b> {
    type Item = Concern<'a, 'b>;

    ghost next_gives = { YieldsFirstBy found_value addresses_left };

    ghost remaining = { item_count addresses_left };

    fn next(&mut self) -> Option<Concern<'a, 'b>> {
        let path = self.paths.get(self.index)?;
        self.index += 1;
        Some(Concern::UnitAddress(path))
    }
}
