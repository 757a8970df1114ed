//! What stays of a boot image once something is left out of it.

ghost use Rattle.std.specs.Prelude.{◌↔◌, ◌≡◌, Bool, IfOk, IsAscii, IsTrue, List, OnOk, Option};
ghost use Rattle.bi_norm.specs.Meaning.{Meaning};
ghost use Rattle.bi_norm.specs.Reading.{meaning_of};
ghost use Rattle.bi_common.specs.HeldImages.{IsHeldImage};
ghost use Rattle.bi_common.specs.Lines.{text_of_lines};
ghost use Rattle.bi_common.specs.LineTokens.{tokens_of_lines};
ghost use Rattle.bi_describe.specs.DescribedImages.{HoldsMeaning};
ghost use Rattle.bi_describe.specs.Ignoring.{Ignored as Word};
ghost use Rattle.bi_describe.specs.MadeWords.{ignored_words};
ghost use Rattle.bi_describe.specs.KeptImages.{IsKeptImage};
ghost use Rattle.bi_describe.specs.Ignoring.{PayloadPlace as Place};
ghost use Rattle.bi_describe.specs.DeepDescriptions.{lines_with_inside};
ghost use Rattle.bi_describe.specs.MadeInsides.{HoldInsides, is_one_of_places, shown_by};
ghost use Rattle.bi_describe.specs.Devicetrees.{AreInside, Insides as Trees};
ghost use Rattle.bi_describe.specs.OpenedPayloads.{deep_lines_without, unless_opened};
ghost use Rattle.bi_describe.specs.ReducedMeanings.{ReducedMeaning, ReducedTree};
ghost use Rattle.bi_describe.specs.ReducedMeanings.{meaning_without, reduced_lines};

mod entries;
mod legacy;
mod tree;

use super::DescribedImage;
use super::deep_pen::DeepPen;
use super::insides::Insides;
use crate::ignored::{Ignored, PayloadPlace};
use bi_base::{Limits, are_bytes};
use bi_common::lines::LinePen;
use bi_norm::BootImage;
pub(super) use entries::are_same_entries;
use legacy::KeptLegacy;
use std::alloc::{AllocError, Global};
use tree::KeptFit;
pub(super) use tree::{have_same_heads, kept_root};

/// What stays of a boot image.
#[derive(Drop)]
pub(crate) enum KeptImage<'a, 'b> {
    /// Of a legacy image.
    Legacy(KeptLegacy<'a>),
    /// Of a flattened image tree.
    Fit(KeptFit<'a, 'b>),
}

impl<'a, 'b> KeptImage<'a, 'b> {
    /// Returns what stays of an image once these words are left out of it.
    ///
    /// Fails only if memory runs out.
    pub(crate) fn new(
        alloc: Global,
        described: &DescribedImage<'a, 'b>,
        words: &[Ignored],
    ) -> Result<KeptImage<'a, 'b>, AllocError>
        ensures { IfOk result (λ image. (meaning : Meaning) → HoldsMeaning meaning described.now
            → IsKeptImage (meaning_without (ignored_words words.now) meaning) image) }
    {
        Ok(match described {
            DescribedImage::Legacy(image) => {
                KeptImage::Legacy(KeptLegacy::new(alloc, image, words)?)
            }
            DescribedImage::Fit(fit) => KeptImage::Fit(KeptFit::new(alloc, fit, words)?),
        })
    }

    /// Puts the lines.
    ///
    /// Fails only if memory runs out.
    pub(crate) fn put_lines<L: LinePen>(&self, alloc: Global, pen: &mut L) -> Result<(), AllocError>
        ensures { OnOk result ((meaning : ReducedMeaning) → IsKeptImage meaning self.now
            → L.puts pen.old (tokens_of_lines (reduced_lines meaning)) pen.new) }
    {
        match self {
            KeptImage::Legacy(image) => {
                image.put_lines(pen);
                Ok(())
            }
            KeptImage::Fit(fit) => fit.put_lines(alloc, pen),
        }
    }

    /// Puts the lines, but for those of these payloads, and those of what is inside the payloads.
    ///
    /// Fails only if memory runs out.
    pub(crate) fn put_deep_lines<L: DeepPen>(
        &self,
        alloc: Global,
        insides: &mut Insides,
        opened: &[&PayloadPlace],
        pen: &mut L,
    ) -> Result<(), AllocError>
        ensures { OnOk result ((meaning : ReducedMeaning)
            (trees : Place → Option ReducedTree) → IsKeptImage meaning self.now
            → HoldInsides trees insides.old → L.puts pen.old (tokens_of_lines
            (lines_with_inside (shown_by trees opened.now) (reduced_lines meaning))) pen.new) }
    {
        match self {
            KeptImage::Legacy(image) => {
                image.put_deep_lines(insides, opened, pen);
                Ok(())
            }
            KeptImage::Fit(fit) => fit.put_deep_lines(alloc, insides, opened, pen),
        }
    }

    /// Returns whether what stays of two images is the same but for these payloads. The others are
    /// compared byte by byte.
    pub(crate) fn is_same_unless_opened(
        &self,
        other: &KeptImage<'_, '_>,
        opened: &[&PayloadPlace],
    ) -> bool
        ensures { (meaning other_meaning : ReducedMeaning) → IsKeptImage meaning self.now
            → IsKeptImage other_meaning other.now → IsTrue result
            ↔ (unless_opened (is_one_of_places opened.now) meaning
            ≡ unless_opened (is_one_of_places opened.now) other_meaning) }
    {
        match (self, other) {
            (KeptImage::Legacy(image), KeptImage::Legacy(other)) => {
                image.is_same_unless_opened(other, opened)
            }
            (KeptImage::Fit(fit), KeptImage::Fit(other)) => {
                fit.is_same_unless_opened(other, opened)
            }
            _ => false,
        }
    }

    /// Returns whether what stays of two images is the same. Payloads are compared byte by byte.
    pub(crate) fn is_same(&self, other: &KeptImage<'_, '_>) -> bool
        ensures { (meaning other_meaning : ReducedMeaning) → IsKeptImage meaning self.now
            → IsKeptImage other_meaning other.now
            → IsTrue result ↔ (meaning ≡ other_meaning) }
    {
        match (self, other) {
            (KeptImage::Legacy(image), KeptImage::Legacy(other)) => image.is_same(other),
            (KeptImage::Fit(fit), KeptImage::Fit(other)) => fit.is_same(other),
            _ => false,
        }
    }
}

/// Does nothing. Its contract states that the lines of what stays of an image are ASCII, whatever
/// is left out. Requires: the image was read.
pub(crate) fn kept_is_ascii(image: &BootImage)
    requires held { IsHeldImage image.now }
    ensures { (words : List Word)
        → IsAscii (text_of_lines (reduced_lines (meaning_without words (meaning_of image.now)))) }
{
    if let BootImage::Legacy(image) = image {
        are_bytes(image.fields().name);
    }
}

/// Does nothing. Its contract states that the lines of what stays of an image, and of what is
/// inside its payloads, are ASCII, whatever is left out. Requires: the image was read.
pub(crate) fn kept_deep_is_ascii(image: &BootImage, limits: Limits)
    requires held { IsHeldImage image.now }
    ensures { (words : List Word) (insides : Trees) (is_opened : Place → Bool)
        → AreInside limits (meaning_of image.now) insides → IsAscii
        (text_of_lines (deep_lines_without words is_opened
        (record { meaning = meaning_of image.now; insides = insides }))) }
{
    if let BootImage::Legacy(image) = image {
        are_bytes(image.fields().name);
    }
}
