//! Comparing two boot images with the devicetrees inside their payloads.

ghost use Rattle.std.specs.Prelude.{◌≡◌, ◌↔◌, ◌⊎◌, ◌&&◌, ◌||◌, IfErr, IfOk, IsTrue, List, [], OnOk};
ghost use Rattle.std.specs.Prelude.{false, if◌then◌else◌, string_bytes};
ghost use Rattle.bi_norm.specs.Meaning.{Meaning};
ghost use Rattle.bi_norm.specs.Reading.{meaning_of};
ghost use Rattle.bi_common.specs.declared.format.Format.TheVariants.{Lines};
ghost use Rattle.bi_common.specs.HeldImages.{IsHeldImage};
ghost use Rattle.bi_describe.specs.ComparingWithout.{text_without};
ghost use Rattle.bi_describe.specs.DeepAscii.{IsAsciiShown};
ghost use Rattle.bi_describe.specs.DeepComparing.{IsDeepComparisonOf, IsDeepComparisonWithout};
ghost use Rattle.bi_describe.specs.DeepComparing.{IsDeepDescribingError, IsDeepDifference};
ghost use Rattle.bi_describe.specs.DeepComparing.{IsDescribedDeep, deep_comparison_by};
ghost use Rattle.bi_describe.specs.Devicetrees.{DeepMeaning, Insides as Trees};
ghost use Rattle.bi_describe.specs.Ignoring.{Ignored as Word, PayloadPlace as Place};
ghost use Rattle.bi_describe.specs.DeepDescribing.{IsDeepImageError};
ghost use Rattle.bi_describe.specs.KeptDeep.{KeepsDeep, KeepsDeepLines};
ghost use Rattle.bi_describe.specs.KeptLines.{KeepsLines};
ghost use Rattle.bi_describe.specs.MadeInsides.{HoldInsides, HoldsDeep, IsDeepOf, has_place};
ghost use Rattle.bi_describe.specs.MadeInsides.{is_one_of_places, whole_devicetrees};
ghost use Rattle.bi_describe.specs.MadeOptions.{ignoring_model};
ghost use Rattle.bi_describe.specs.MadeWords.{ignored_word, ignored_words, place_of_payload};
ghost use Rattle.bi_describe.specs.OpenedPayloads.{AreSameDeep, can_open as can_open_at};
ghost use Rattle.bi_describe.specs.OpenedPayloads.{deep_lines_without, is_opened, is_word_inside};

use super::ignoring::{IgnoringOptions, lines_of_kept};
use super::kept_lines::KeptLines;
use super::{CompareError, Comparison, differing_lines, print};
use crate::describe::deep::DeepImage;
use crate::describe::insides::Insides;
use crate::describe::kept::{KeptImage, kept_deep_is_ascii};
use crate::describe::{check_deep_length, deep_image, deep_is_ascii, read_deep};
use crate::ignored::{Ignored, PayloadPlace, is_payload_ignored, payload_of_word};
use bi_base::{Error, Limits};
use bi_common::format::Format;
use bi_norm::BootImage;
use std::alloc::{AllocError, Global};

/// Returns the text of what differs between two images that do not mean the same, with what is
/// inside, in a form. Requires: the images were read.
pub(super) fn compare_deep_images(
    alloc: Global,
    image: &BootImage<'_>,
    other: &BootImage<'_>,
    limits: Limits,
    format: Format,
) -> Result<String, CompareError>
    requires held { IsHeldImage image.now }
    requires other_held { IsHeldImage other.now }
    ensures compared { IfOk result (λ text. IsDeepComparisonOf format limits
        (meaning_of image.now) (meaning_of other.now) false (string_bytes text)) }
    ensures failed { IfErr result (λ error. (error ≡ CompareError.OutOfMemory)
        ⊎ IsDeepDescribingError limits (meaning_of image.now) (meaning_of other.now) error) }
{
    let kept = lines_of_one(alloc, image, limits)?;
    let other_kept = lines_of_other(alloc, other, limits)?;
    let lines = differing_lines(alloc, image, other, &kept, &other_kept)?;
    Ok(print(alloc, format, false, &lines)?)
}

/// Returns the lines of the deep description of the first image. Requires: the image was read.
fn lines_of_one(
    alloc: Global,
    image: &BootImage<'_>,
    limits: Limits,
) -> Result<KeptLines, CompareError>
    requires held { IsHeldImage image.now }
    ensures kept { IfOk result (KeepsDeepLines limits (meaning_of image.now)) }
    ensures failed { IfErr result (λ error. (error ≡ CompareError.OutOfMemory)
        ⊎ ((other : Meaning) → IsDeepDescribingError limits (meaning_of image.now) other error)) }
{
    match lines_of_deep(alloc, image, limits) {
        Ok(kept) => Ok(kept),
        Err(Error::Refused(fault)) => Err(CompareError::One(fault)),
        Err(_) => Err(CompareError::OutOfMemory),
    }
}

/// Returns the lines of the deep description of the second image. Requires: the image was read.
fn lines_of_other(
    alloc: Global,
    image: &BootImage<'_>,
    limits: Limits,
) -> Result<KeptLines, CompareError>
    requires held { IsHeldImage image.now }
    ensures kept { IfOk result (KeepsDeepLines limits (meaning_of image.now)) }
    ensures failed { IfErr result (λ error. (error ≡ CompareError.OutOfMemory)
        ⊎ ((one : Meaning) → IsDescribedDeep limits one
        → IsDeepDescribingError limits one (meaning_of image.now) error)) }
{
    match lines_of_deep(alloc, image, limits) {
        Ok(kept) => Ok(kept),
        Err(Error::Refused(fault)) => Err(CompareError::Other(fault)),
        Err(_) => Err(CompareError::OutOfMemory),
    }
}

/// Returns the lines of the deep description of an image. The description is put once, unless it is
/// too long or memory runs out: then it is put again, to tell these two. Requires: the image was
/// read.
///
/// Errors: TooLarge at the limit, if the payloads or the deep description are longer; OutOfMemory.
fn lines_of_deep(alloc: Global, image: &BootImage<'_>, limits: Limits) -> Result<KeptLines, Error>
    requires held { IsHeldImage image.now }
    ensures kept { IfOk result (KeepsDeepLines limits (meaning_of image.now)) }
    ensures failed { IfErr result (IsDeepImageError Lines limits (meaning_of image.now)) }
{
    let mut deep = read_deep(alloc, image, limits)?;
    deep_is_ascii(image, limits, Format::Lines);
    match KeptLines::of_deep(alloc, &mut deep, limits.file() as usize) {
        Ok(kept) => Ok(kept),
        Err(_) => {
            check_deep_length(&mut deep, limits, Format::Lines)?;
            Err(Error::OutOfMemory)
        }
    }
}

/// Compares what stays of two images and of what is inside. Requires: the images were read.
pub(super) fn compare_deep_without(
    alloc: Global,
    image: &BootImage<'_>,
    other: &BootImage<'_>,
    limits: Limits,
    options: IgnoringOptions,
) -> Result<Comparison, CompareError>
    requires held { IsHeldImage image.now }
    requires other_held { IsHeldImage other.now }
    ensures compared { IfOk result (λ comparison. IsDeepComparisonWithout
        (ignoring_model options.entry) limits (meaning_of image.now) (meaning_of other.now)
        comparison.same (string_bytes comparison.differences)) }
    ensures failed { IfErr result (λ error. (error ≡ CompareError.OutOfMemory)
        ⊎ IsDeepDescribingError limits (meaning_of image.now) (meaning_of other.now) error) }
{
    let deep = deep_one(alloc, image, limits)?;
    let other_deep = deep_other(alloc, other, limits)?;
    kept_deep_is_ascii(image, limits);
    kept_deep_is_ascii(other, limits);
    let words = options.words;
    let opened = opened_payloads(alloc, words, &deep.insides, &other_deep.insides)?;
    let mut kept = KeptDeep::new(alloc, deep, words)?;
    let mut other_kept = KeptDeep::new(alloc, other_deep, words)?;
    Ok(compare_kept(alloc, &mut kept, &mut other_kept, &opened, options)?)
}

/// Compares what stays of two images and of what is inside. Requires: the lines of both without
/// those of these payloads are ASCII.
///
/// Fails only if memory runs out.
fn compare_kept(
    alloc: Global,
    kept: &mut KeptDeep,
    other: &mut KeptDeep,
    opened: &[&PayloadPlace],
    options: IgnoringOptions,
) -> Result<Comparison, AllocError>
    requires ascii { IsAsciiShown kept.old.image kept.old.insides opened.now }
    requires other_ascii { IsAsciiShown other.old.image other.old.insides opened.now }
    ensures { IfOk result (λ comparison. (meaning others : DeepMeaning)
        → KeepsDeep (ignored_words options.entry.words.now) meaning kept.old
        → KeepsDeep (ignored_words options.entry.words.now) others other.old
        → ((place : Place) → is_one_of_places opened.now place
        ≡ is_opened (ignored_words options.entry.words.now) meaning.insides others.insides place)
        → IsDeepDifference (ignoring_model options.entry) meaning others comparison.same
        (string_bytes comparison.differences)) }
{
    let same = kept.is_same(other, opened);
    let differences = written_differences(alloc, kept, other, opened, same, options)?;
    Ok(Comparison { same, differences })
}

/// Returns the text that is written of what differs between what stays of two images and of what is
/// inside. Requires: the lines of both without those of these payloads are ASCII.
///
/// Fails only if memory runs out.
fn written_differences(
    alloc: Global,
    kept: &mut KeptDeep,
    other: &mut KeptDeep,
    opened: &[&PayloadPlace],
    same: bool,
    options: IgnoringOptions,
) -> Result<String, AllocError>
    requires ascii { IsAsciiShown kept.old.image kept.old.insides opened.now }
    requires other_ascii { IsAsciiShown other.old.image other.old.insides opened.now }
    ensures { IfOk result (λ text. (words : List Word) (meaning others : DeepMeaning)
        → KeepsDeep words meaning kept.old → KeepsDeep words others other.old
        → string_bytes text ≡ text_without (ignoring_model options.entry) same (if same then []
        else deep_comparison_by words (is_one_of_places opened.now) meaning others)) }
{
    if options.quiet {
        return Ok(String::new(alloc));
    }
    if same {
        return print(alloc, options.format, true, &[]);
    }
    let lines = kept.lines(alloc, opened)?;
    let other_lines = other.lines(alloc, opened)?;
    let differing = lines_of_kept(alloc, &kept.image, &other.image, &lines, &other_lines)?;
    print(alloc, options.format, false, &differing)
}

/// What stays of a boot image and of what is inside its payloads.
#[derive(Drop)]
struct KeptDeep<'a, 'b> {
    image: KeptImage<'a, 'b>,
    insides: Insides<'a, 'b>,
}

impl<'a, 'b> KeptDeep<'a, 'b> {
    /// Returns what stays of an image once these words are left out.
    ///
    /// Fails only if memory runs out.
    fn new(
        alloc: Global,
        deep: DeepImage<'a, 'b>,
        words: &[Ignored],
    ) -> Result<KeptDeep<'a, 'b>, AllocError>
        ensures { IfOk result (λ kept. (meaning : DeepMeaning) → HoldsDeep meaning deep.entry
            → KeepsDeep (ignored_words words.now) meaning kept) }
    {
        let DeepImage {
            described,
            mut insides,
        } = deep;
        let image = KeptImage::new(alloc, &described, words)?;
        insides.leave_out(alloc, words)?;
        Ok(KeptDeep { image, insides })
    }

    /// Returns whether what stays of two images is the same, if these payloads are compared by the
    /// devicetrees inside them, and all others byte by byte.
    fn is_same(&self, other: &KeptDeep<'_, '_>, opened: &[&PayloadPlace]) -> bool
        ensures { (words : List Word) (meaning others : DeepMeaning)
            → KeepsDeep words meaning self.now → KeepsDeep words others other.now
            → ((place : Place) → is_one_of_places opened.now place
            ≡ is_opened words meaning.insides others.insides place)
            → IsTrue result ↔ AreSameDeep words meaning others }
    {
        self.image.is_same_unless_opened(&other.image, opened)
            && self.insides.are_same_at(&other.insides, opened)
    }

    /// Keeps the lines, of which those of these payloads are left out.
    ///
    /// Fails only if memory runs out.
    fn lines(&mut self, alloc: Global, opened: &[&PayloadPlace]) -> Result<KeptLines, AllocError>
        requires { IsAsciiShown self.old.image self.old.insides opened.now }
        ensures kept { IfOk result (λ lines. (words : List Word) (meaning : DeepMeaning)
            → KeepsDeep words meaning self.old → KeepsLines
            (deep_lines_without words (is_one_of_places opened.now) meaning) lines) }
        ensures same { self.new.image ≡ self.old.image }
    {
        KeptLines::of_kept_deep(alloc, &self.image, &mut self.insides, opened)
    }
}

/// Returns the payloads that are compared by the devicetrees inside them: those that stay, are
/// devicetrees in both images, and have a word for something inside.
///
/// Fails only if memory runs out.
fn opened_payloads<'w>(
    alloc: Global,
    words: &'w [Ignored],
    insides: &Insides,
    other: &Insides,
) -> Result<Vec<&'w PayloadPlace>, AllocError>
    ensures { IfOk result (λ places. (trees others : Trees) → HoldInsides (whole_devicetrees trees)
        insides.now → HoldInsides (whole_devicetrees others) other.now → (place : Place)
        → is_one_of_places places.items place
        ≡ is_opened (ignored_words words.now) trees others place) }
{
    let mut places = Vec::new(alloc);
    for word in words {
        let place = opened_by(word, words, insides, other);
        push_if_there(&mut places, place)?;
    }
    Ok(places)
}

/// Appends a place, if there is one.
///
/// Fails only if memory runs out.
fn push_if_there<'w>(
    places: &mut Vec<&'w PayloadPlace>,
    place: Option<&'w PayloadPlace>,
) -> Result<(), AllocError>
    ensures { OnOk result ((payload : Place) → is_one_of_places places.new.items payload
        ≡ (is_one_of_places places.old.items payload || has_place payload place.entry)) }
{
    match place {
        Some(place) => {
            places.push(place)?;
            Ok(())
        }
        None => Ok(()),
    }
}

/// Returns the payload that a word is for something inside of, if it is compared by the devicetree
/// inside it.
fn opened_by<'w>(
    word: &'w Ignored,
    words: &[Ignored],
    insides: &Insides,
    other: &Insides,
) -> Option<&'w PayloadPlace>
    ensures { (trees others : Trees) → HoldInsides (whole_devicetrees trees) insides.now
        → HoldInsides (whole_devicetrees others) other.now → (place : Place)
        → has_place place result ≡ (is_word_inside place (ignored_word word.now)
        && can_open_at (ignored_words words.now) trees others place) }
{
    let place = payload_of_word(word)?;
    if can_open(place, words, insides, other) {
        return Some(place);
    }
    None
}

/// Returns whether a payload stays, and is a devicetree in both images.
fn can_open(place: &PayloadPlace, words: &[Ignored], insides: &Insides, other: &Insides) -> bool
    ensures { (trees others : Trees) → HoldInsides (whole_devicetrees trees) insides.now
        → HoldInsides (whole_devicetrees others) other.now
        → result ≡ can_open_at (ignored_words words.now) trees others (place_of_payload place.now) }
{
    !is_payload_ignored(words, place) && insides.has_tree_at(place) && other.has_tree_at(place)
}

/// Returns what the deep description of the first image is made from. Requires: the image was read.
fn deep_one<'a, 'b>(
    alloc: Global,
    image: &'b BootImage<'a>,
    limits: Limits,
) -> Result<DeepImage<'a, 'b>, CompareError>
    requires held { IsHeldImage image.now }
    ensures described { IfOk result (IsDeepOf Lines limits (meaning_of image.entry.now)) }
    ensures failed { IfErr result (λ error. (error ≡ CompareError.OutOfMemory)
        ⊎ ((other : Meaning) → IsDeepDescribingError limits (meaning_of image.now) other error)) }
{
    match deep_image(alloc, image, limits, Format::Lines) {
        Ok(deep) => Ok(deep),
        Err(Error::Refused(fault)) => Err(CompareError::One(fault)),
        Err(_) => Err(CompareError::OutOfMemory),
    }
}

/// Returns what the deep description of the second image is made from. Requires: the image was
/// read.
fn deep_other<'a, 'b>(
    alloc: Global,
    image: &'b BootImage<'a>,
    limits: Limits,
) -> Result<DeepImage<'a, 'b>, CompareError>
    requires held { IsHeldImage image.now }
    ensures described { IfOk result (IsDeepOf Lines limits (meaning_of image.entry.now)) }
    ensures failed { IfErr result (λ error. (error ≡ CompareError.OutOfMemory)
        ⊎ ((one : Meaning) → IsDescribedDeep limits one
        → IsDeepDescribingError limits one (meaning_of image.now) error)) }
{
    match deep_image(alloc, image, limits, Format::Lines) {
        Ok(deep) => Ok(deep),
        Err(Error::Refused(fault)) => Err(CompareError::Other(fault)),
        Err(_) => Err(CompareError::OutOfMemory),
    }
}
