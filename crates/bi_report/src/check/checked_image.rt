//! A boot image whose concerns are known.

ghost use Rattle.std.specs.Prelude.{◌≡◌, IfOk, IfErr, OnOk};
ghost use Rattle.bi_fit.specs.Content.{IsHeld, tree_of};
ghost use Rattle.bi_norm.specs.Meaning.{OfFit};
ghost use Rattle.bi_report.specs.ReadChecking.{IsReadCheckError};
ghost use Rattle.bi_report.specs.SignedTrees.{IsOverCheckBound};

use super::concerns::Concerns;
use super::fit_coverage::FitCoverage;
use bi_base::{Error, Limits};
use bi_common::payload_bounds::BoundedFit;
use bi_common::verdict_counts::digests_of_verdicts;
use bi_fit::Fit;
use bi_hash::RegionDigests;
use bi_legacy::Legacy;
use bi_norm::BootImage;
use std::alloc::Global;
use std::marker::Model;

/// A boot image that was read, with each digest that a verdict on a hash node of it needs, and with
/// what its signatures cover.
#[derive(Drop)]
pub struct CheckedImage<'a> {
    file: &'a [u8],
    content: CheckedContent<'a>,
}

/// What was read.
#[derive(Drop)]
enum CheckedContent<'a> {
    Legacy(Legacy<'a>),
    Fit(JudgedFit<'a>),
}

impl<'a> CheckedImage<'a> {
    ghost use Rattle.bi_report.specs.CheckedFiles.{IsCheckError};
    ghost use Rattle.bi_report.specs.CheckedImages.{concerns_left, found_of};
    ghost use Rattle.bi_report.specs.FoundConcerns.{HasConcerns};

    /// Reads a boot image and what its signatures cover, and computes the digests. The errors are
    /// those of `check`.
    pub fn read(alloc: Global, file: &'a [u8], limits: Limits) -> Result<CheckedImage<'a>, Error>
        ensures read { IfOk result (λ image. HasConcerns limits file.entry.now (found_of image)) }
        ensures failed { IfErr result (IsCheckError limits file.entry.now) }
    {
        match BootImage::read(alloc, file, limits)? {
            BootImage::Legacy(image) => Ok(CheckedImage {
                file,
                content: CheckedContent::Legacy(image),
            }),
            BootImage::Fit(image) => {
                let judged = JudgedFit::new(alloc, image, limits)?;
                Ok(CheckedImage {
                    file,
                    content: CheckedContent::Fit(judged),
                })
            }
        }
    }

    /// Returns the concerns about the image, in their order.
    pub fn concerns<'b>(&'b self) -> Concerns<'a, 'b>
        ensures { concerns_left result ≡ found_of self.entry.now }
    {
        match &self.content {
            CheckedContent::Legacy(image) => Concerns::of_legacy(self.file, image),
            CheckedContent::Fit(judged) => judged.concerns(self.file),
        }
    }
}

/// A flattened image tree that was read, with each digest that a verdict needs, and with what its
/// signatures cover. Contracts see the tree.
#[derive(Drop)]
struct JudgedFit<'a> {
    fit: Fit<'a>,
    digests: RegionDigests<'a>,
    coverage: FitCoverage<'a>,
}

impl<'a> Model for JudgedFit<'a> {
    ghost use Rattle.bi_fit.specs.Content.{FitModel};

    ghost Value = { FitModel };

    ghost view = { λ judged. judged.fit };

    ghost use Rattle.bi_report.specs.CheckedImages.{IsJudged};

    ghost invariant = { λ judged. IsJudged judged.fit judged.digests judged.coverage };
}

impl<'a> JudgedFit<'a> {
    ghost use Rattle.bi_report.specs.CheckedImages.{concerns_left};
    ghost use Rattle.bi_report.specs.FoundConcerns.{found_in_fit};

    /// Reads what the signatures cover, and computes the digests. Requires: the tree was read.
    ///
    /// Errors: TooLarge at the limit, if the payloads are longer, or the paths that the signed
    /// nodes must cover; OutOfMemory.
    fn new(alloc: Global, fit: Fit<'a>, limits: Limits) -> Result<JudgedFit<'a>, Error>
        requires held { IsHeld fit }
        ensures same { IfOk result (λ judged. judged ≡ fit.entry) }
        ensures within { OnOk result (¬ (IsOverCheckBound limits (OfFit (tree_of fit.entry)))) }
        ensures failed { IfErr result (IsReadCheckError limits fit.entry) }
    {
        let bounded = BoundedFit::new(&fit, limits)?;
        let coverage = FitCoverage::read(alloc, &fit, limits)?;
        let digests = digests_of_verdicts(alloc, bounded)?;
        Ok(JudgedFit {
            fit,
            digests,
            coverage,
        })
    }

    /// Returns the concerns about the tree, which was read from this file.
    fn concerns<'b>(&'b self, file: &[u8]) -> Concerns<'a, 'b>
        ensures { concerns_left result ≡ found_in_fit file.now self.entry.now }
    {
        Concerns::of_fit(file, &self.fit, &self.digests, &self.coverage)
    }
}
