//! The concerns about a boot image, one at a time.

ghost use Rattle.std.specs.Prelude.{◌≡◌};
ghost use Rattle.std.specs.Iterator.{YieldsFirstBy, item_count};
ghost use Rattle.bi_fit.specs.Content.{AreAtTheirPlaces};
ghost use Rattle.bi_report.specs.CheckedImages.{concerns_left, kept_left};
ghost use Rattle.bi_report.specs.ConcernValues.{IsCoverageOf, found_value, left_or_none};
ghost use Rattle.bi_report.specs.ConcernsLeft.{addresses_left, configurations_left, images_left};
ghost use Rattle.bi_report.specs.ConcernsLeft.{signatures_left};
ghost use Rattle.bi_report.specs.FoundConcerns.{found_in_fit, found_in_legacy, kept_found};

use super::Allowed;
use super::concern::Concern;
use super::configurations::{AllConfigurationConcerns, default_concern};
use super::fit_coverage::FitCoverage;
use super::images::AllImageConcerns;
use super::signatures::{AddressConcerns, AllSignatureConcerns, absence_concern};
use super::trailing::{bytes_after_fit, bytes_after_legacy, rest_concern};
use bi_fit::Fit;
use bi_hash::RegionDigests;
use bi_legacy::Legacy;

/// The concerns that are left about a boot image, in their order: about each image of a flattened
/// image tree, each of its configurations, their signatures, its unit addresses and its default,
/// and then about the bytes of the file after the image. A lack of signatures is among them,
/// whether it is asked for or not.
#[derive(Drop)]
pub struct Concerns<'a, 'b> {
    /// None for a legacy image.
    of_images: Option<AllImageConcerns<'a, 'b>>,
    /// None for a legacy image.
    of_configurations: Option<AllConfigurationConcerns<'a, 'b>>,
    /// That there are no configurations.
    of_absence: Option<Concern<'a, 'b>>,
    /// None for a legacy image.
    of_signatures: Option<AllSignatureConcerns<'a, 'b>>,
    /// None for a legacy image.
    of_addresses: Option<AddressConcerns<'a, 'b>>,
    of_default: Option<Concern<'a, 'b>>,
    of_rest: Option<Concern<'a, 'b>>,
}

impl<'a, 'b> Concerns<'a, 'b> {
    /// Returns the concerns about a legacy image that was read from this file.
    pub fn of_legacy(file: &[u8], image: &'b Legacy<'a>) -> Concerns<'a, 'b>
        ensures { concerns_left result ≡ found_in_legacy file.now image.now }
    {
        Concerns {
            of_images: None,
            of_configurations: None,
            of_absence: Some(Concern::Unsigned(None)),
            of_signatures: None,
            of_addresses: None,
            of_default: None,
            of_rest: rest_concern(bytes_after_legacy(file, image)),
        }
    }

    /// Returns the concerns about a flattened image tree that was read from this file, whose hash
    /// nodes are judged by these digests, and whose signatures have this coverage. Requires: in the
    /// file of the digests, the payload of each image is at its place; the coverage is that of the
    /// tree.
    pub fn of_fit(
        file: &[u8],
        fit: &'b Fit<'a>,
        digests: &'b RegionDigests<'a>,
        coverage: &'b FitCoverage<'a>,
    ) -> Concerns<'a, 'b>
        requires placed { AreAtTheirPlaces digests.now fit.now.images }
        requires covered { IsCoverageOf fit.now coverage.now }
        ensures { concerns_left result ≡ found_in_fit file.now fit.entry.now }
    {
        Concerns {
            of_images: Some(AllImageConcerns::new(fit, digests)),
            of_configurations: Some(AllConfigurationConcerns::new(fit)),
            of_absence: absence_concern(&coverage.configurations),
            of_signatures: Some(AllSignatureConcerns::new(&coverage.configurations)),
            of_addresses: Some(AddressConcerns::new(&coverage.addresses)),
            of_default: default_concern(fit),
            of_rest: rest_concern(bytes_after_fit(file, fit)),
        }
    }

    /// Returns those of the concerns whose kind is not allowed.
    pub fn kept(self, allowed: Allowed) -> KeptConcerns<'a, 'b>
        ensures { kept_left result ≡ kept_found allowed (concerns_left self.entry) }
    {
        KeptConcerns {
            concerns: self,
            allowed,
        }
    }
}

impl<'a, 'b> Iterator for Concerns<'a, 'b> {
    type Item = Concern<'a, 'b>;

    ghost next_gives = { YieldsFirstBy found_value concerns_left };

    ghost remaining = { item_count concerns_left };

    fn next(&mut self) -> Option<Concern<'a, 'b>> {
        if let Some(concern) = next_of_images(&mut self.of_images) {
            return Some(concern);
        }
        if let Some(concern) = next_of_configurations(&mut self.of_configurations) {
            return Some(concern);
        }
        if let Some(concern) = self.of_absence.take() {
            return Some(concern);
        }
        if let Some(concern) = next_of_signatures(&mut self.of_signatures) {
            return Some(concern);
        }
        if let Some(concern) = next_of_addresses(&mut self.of_addresses) {
            return Some(concern);
        }
        if let Some(concern) = self.of_default.take() {
            return Some(concern);
        }
        self.of_rest.take()
    }
}

/// Takes the first concern that is left about images, if there is one.
fn next_of_images<'a, 'b>(
    concerns: &mut Option<AllImageConcerns<'a, 'b>>,
) -> Option<Concern<'a, 'b>>
    ensures { YieldsFirstBy found_value (left_or_none images_left)
        concerns.old result concerns.new }
{
    match concerns {
        Some(concerns) => concerns.next(),
        None => None,
    }
}

/// Takes the first concern that is left about configurations, if there is one.
fn next_of_configurations<'a, 'b>(
    concerns: &mut Option<AllConfigurationConcerns<'a, 'b>>,
) -> Option<Concern<'a, 'b>>
    ensures { YieldsFirstBy found_value (left_or_none configurations_left)
        concerns.old result concerns.new }
{
    match concerns {
        Some(concerns) => concerns.next(),
        None => None,
    }
}

/// Takes the first concern that is left about signatures, if there is one.
fn next_of_signatures<'a, 'b>(
    concerns: &mut Option<AllSignatureConcerns<'a, 'b>>,
) -> Option<Concern<'a, 'b>>
    ensures { YieldsFirstBy found_value (left_or_none signatures_left)
        concerns.old result concerns.new }
{
    match concerns {
        Some(concerns) => concerns.next(),
        None => None,
    }
}

/// Takes the first concern that is left about unit addresses, if there is one.
fn next_of_addresses<'a, 'b>(
    concerns: &mut Option<AddressConcerns<'a, 'b>>,
) -> Option<Concern<'a, 'b>>
    ensures { YieldsFirstBy found_value (left_or_none addresses_left)
        concerns.old result concerns.new }
{
    match concerns {
        Some(concerns) => concerns.next(),
        None => None,
    }
}

/// The concerns that are left about a boot image and that are not allowed.
#[derive(Drop)]
pub struct KeptConcerns<'a, 'b> {
    concerns: Concerns<'a, 'b>,
    allowed: Allowed,
}

impl<'a, 'b> Iterator for KeptConcerns<'a, 'b> {
    type Item = Concern<'a, 'b>;

    ghost next_gives = { YieldsFirstBy found_value kept_left };

    ghost remaining = { item_count kept_left };

    fn next(&mut self) -> Option<Concern<'a, 'b>> {
        while let Some(concern) = self.concerns.next() {
            if !self.allowed.allows(concern.kind()) {
                return Some(concern);
            }
        }
        None
    }
}
