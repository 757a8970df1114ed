//! Comparing what two boot images mean: whether it is the same, and what differs.

mod deep;
mod differences;
mod ignoring;
mod json;
mod kept_lines;
mod line_keeper;
mod reasons;
mod signed_lines;

ghost use Rattle.std.specs.Prelude.{◌≡◌, ◌↔◌, ◌⊎◌, IsTrue, List, ℕ, IfOk, OnOk, IfErr, false};
ghost use Rattle.std.specs.Prelude.{codes, string_bytes};
ghost use Rattle.bi_base.specs.Limits.{Limits};
ghost use Rattle.bi_norm.specs.Comparing.{AreCompared};
ghost use Rattle.bi_norm.specs.Meaning.{Meaning, Means};
ghost use Rattle.bi_norm.specs.Reading.{IsBootImageReadError, meaning_of, IsReadBootImage};
ghost use Rattle.bi_common.specs.declared.format.Format.TheVariants.{Lines, Json};
ghost use Rattle.bi_common.specs.HeldImages.{IsHeldImage};
ghost use Rattle.bi_common.specs.Lines.{Line};
ghost use Rattle.bi_describe.specs.Comparing.{IsComparison, IsComparisonError, IsComparisonOf};
ghost use Rattle.bi_describe.specs.Comparing.{IsReadingError, IsDescribingError};
ghost use Rattle.bi_describe.specs.Comparing.{comparison_by_lines, comparison_text};
ghost use Rattle.bi_describe.specs.ComparingWithout.{AreComparedWithout, IsComparisonWithout};
ghost use Rattle.bi_describe.specs.ComparingWithout.{IsIgnoringError};
ghost use Rattle.bi_describe.specs.DeepComparing.{AreComparedDeepWithout, IsDeepComparison};
ghost use Rattle.bi_describe.specs.DeepComparing.{IsDeepComparisonError, IsDeepIgnoringError};
ghost use Rattle.bi_describe.specs.DescribedImages.{IsDescribed};
ghost use Rattle.bi_describe.specs.Describing.{CanBeDescribed};
ghost use Rattle.bi_describe.specs.Descriptions.{description_lines};
ghost use Rattle.bi_describe.specs.KeptLines.{KeepsLines};
ghost use Rattle.bi_describe.specs.MadeLines.{made_lines};
ghost use Rattle.bi_describe.specs.MadeOptions.{ignoring_model};

use crate::describe::kept::{KeptImage, kept_is_ascii};
use crate::describe::{DescribedImage, describe_image, description_is_ascii};
use bi_base::{Error, Fault, Limits};
use bi_common::format::Format;
use bi_norm::BootImage;
use deep::{compare_deep_images, compare_deep_without};
pub use ignoring::IgnoringOptions;
use ignoring::compare_kept;
use json::comparison_json;
use kept_lines::KeptLines;
use reasons::{differences_or_reason, kinds_differ};
pub use signed_lines::Sign;
use signed_lines::{SignedLine, text_of_lines};
use std::alloc::{AllocError, Global};

/// Why two boot images were not compared.
#[derive(Clone, Copy, Debug, PartialEq, Eq, thiserror::Error)]
pub enum CompareError {
    /// The first file is refused.
    #[error("the first file is refused")]
    One(Fault),
    /// The second file is refused.
    #[error("the second file is refused")]
    Other(Fault),
    /// Memory ran out.
    #[error("out of memory")]
    OutOfMemory,
}

/// What differs between two boot images.
#[derive(Drop)]
pub struct Comparison {
    /// Whether both mean the same.
    pub same: bool,
    /// The differences of their descriptions: empty if and only if both mean the same. Of
    /// `compare_json`, the text of JSON.
    pub differences: String,
}

/// Returns whether two boot images mean the same. Images of different kinds do not.
///
/// Errors, the first that applies: One with the fault of the first file; Other with that of the
/// second one. OutOfMemory may come instead of any of these, but only after the first file has
/// passed the checks of a legacy image, or of the header and the memory reservation block of a
/// blob.
pub fn have_same_meaning(
    alloc: Global,
    one: &[u8],
    other: &[u8],
    limits: Limits,
) -> Result<bool, CompareError>
    ensures compared { IfOk result (AreCompared limits one.now other.now) }
    ensures failed { IfErr result (IsReadingError limits one.now other.now) }
{
    let image = read_one(alloc, one, limits)?;
    let other_image = read_other(alloc, other, limits)?;
    Ok(mean_the_same(alloc, &image, &other_image)?)
}

/// Returns what differs between what two boot images mean: the differences of their descriptions,
/// which are empty if and only if both mean the same. No limit applies to them.
///
/// Errors, the first that applies: One with the fault of the first file; Other with that of the
/// second one; if the meanings differ, One and then Other with TooLarge at the limit, if a meaning
/// is too long to describe. OutOfMemory may come instead of any of these, but only after the first
/// file has passed the checks of a legacy image, or of the header and the memory reservation block
/// of a blob.
///
/// # Example
///
/// ```
/// use bi_base::Limits;
/// use bi_commands::compare::compare;
///
/// let limits = Limits::new(0x7fff_ffff, 64).unwrap();
/// let comparison = compare(rt.alloc(), kernel, board, limits)?;
/// assert!(rt; !comparison.same);
/// assert!(rt; comparison.differences.as_str().starts_with("-kind legacy\n"));
/// ```
pub fn compare(
    alloc: Global,
    one: &[u8],
    other: &[u8],
    limits: Limits,
) -> Result<Comparison, CompareError>
    ensures compared { IfOk result (λ comparison. IsComparison Lines limits one.now other.now
        comparison.same (string_bytes comparison.differences)) }
    ensures failed { IfErr result (IsComparisonError limits one.now other.now) }
{
    compare_as(alloc, one, other, limits, Format::Lines)
}

/// Returns whether two boot images mean the same, and what differs between them, as one text of
/// JSON and a newline. It says what the lines of `compare` say, and the errors are those of
/// `compare`.
pub fn compare_json(
    alloc: Global,
    one: &[u8],
    other: &[u8],
    limits: Limits,
) -> Result<Comparison, CompareError>
    ensures compared { IfOk result (λ comparison. IsComparison Json limits one.now other.now
        comparison.same (string_bytes comparison.differences)) }
    ensures failed { IfErr result (IsComparisonError limits one.now other.now) }
{
    compare_as(alloc, one, other, limits, Format::Json)
}

/// Returns whether two boot images mean the same once something is left out of both, and what
/// differs then: the differences of the lines of their descriptions that stay. They are empty if
/// and only if both mean the same, or if `quiet` is set. Payloads that stay are compared byte by
/// byte. Images of different kinds differ, and nothing is left out of them.
///
/// Errors, the first that applies: One with the fault of the first file; Other with that of the
/// second one; One and then Other with TooLarge at the limit, if a meaning is too long to describe,
/// whatever is left out or written. OutOfMemory may come instead of any of these, but only after
/// the first file has passed the checks of a legacy image, or of the header and the memory
/// reservation block of a blob.
pub fn compare_ignoring(
    alloc: Global,
    one: &[u8],
    other: &[u8],
    limits: Limits,
    options: IgnoringOptions,
) -> Result<Comparison, CompareError>
    ensures compared { IfOk result (λ comparison. AreComparedWithout (ignoring_model options.entry)
        limits one.now other.now comparison.same (string_bytes comparison.differences)) }
    ensures failed { IfErr result (IsIgnoringError limits one.now other.now) }
{
    let image = read_one(alloc, one, limits)?;
    let other_image = read_other(alloc, other, limits)?;
    Ok(compare_without(alloc, &image, &other_image, limits, options)?)
}

/// Returns what differs between what two boot images mean, in a form: the differences of their deep
/// descriptions, which are empty if and only if both mean the same. No limit applies to them.
///
/// The errors are those of `compare`, but it is the deep descriptions that may be too long.
pub fn compare_deep(
    alloc: Global,
    one: &[u8],
    other: &[u8],
    limits: Limits,
    format: Format,
) -> Result<Comparison, CompareError>
    ensures compared { IfOk result (λ comparison. IsDeepComparison format limits one.now other.now
        comparison.same (string_bytes comparison.differences)) }
    ensures failed { IfErr result (IsDeepComparisonError limits one.now other.now) }
{
    let image = read_one(alloc, one, limits)?;
    let other_image = read_other(alloc, other, limits)?;
    let same = mean_the_same(alloc, &image, &other_image)?;
    if same {
        return Ok(Comparison {
            same,
            differences: print(alloc, format, true, &[])?,
        });
    }
    let differences = compare_deep_images(alloc, &image, &other_image, limits, format)?;
    Ok(Comparison { same, differences })
}

/// Does what `compare_ignoring` does, with the devicetrees that are inside payloads or parts. A
/// word for something inside a payload opens it, if it is a devicetree in both images: then it is
/// compared by its boot processor, its memory reservations and its tree, without what the words
/// leave out, and not by its bytes. The differences are those of the lines of the deep descriptions
/// that stay, without the lines of the payloads that are opened.
///
/// The errors are those of `compare_ignoring`, but it is the deep descriptions that may be too
/// long.
pub fn compare_ignoring_deep(
    alloc: Global,
    one: &[u8],
    other: &[u8],
    limits: Limits,
    options: IgnoringOptions,
) -> Result<Comparison, CompareError>
    ensures compared { IfOk result (λ comparison. AreComparedDeepWithout
        (ignoring_model options.entry) limits one.now other.now comparison.same
        (string_bytes comparison.differences)) }
    ensures failed { IfErr result (IsDeepIgnoringError limits one.now other.now) }
{
    let image = read_one(alloc, one, limits)?;
    let other_image = read_other(alloc, other, limits)?;
    Ok(compare_deep_without(alloc, &image, &other_image, limits, options)?)
}

/// Compares what stays of two images. Requires: the images were read.
fn compare_without(
    alloc: Global,
    image: &BootImage<'_>,
    other: &BootImage<'_>,
    limits: Limits,
    options: IgnoringOptions,
) -> Result<Comparison, CompareError>
    requires held { IsHeldImage image.now }
    requires other_held { IsHeldImage other.now }
    ensures within { OnOk result (CanBeDescribed Lines limits (meaning_of image.now)) }
    ensures other_within { OnOk result (CanBeDescribed Lines limits (meaning_of other.now)) }
    ensures compared { IfOk result (λ comparison. IsComparisonWithout
        (ignoring_model options.entry) (meaning_of image.now) (meaning_of other.now)
        comparison.same (string_bytes comparison.differences)) }
    ensures failed { IfErr result (λ error. (error ≡ CompareError.OutOfMemory)
        ⊎ IsDescribingError limits (meaning_of image.now) (meaning_of other.now) error) }
{
    let described = describe_one(alloc, image, limits)?;
    let other_described = describe_other(alloc, other, limits)?;
    let kept = KeptImage::new(alloc, &described, options.words)?;
    let other_kept = KeptImage::new(alloc, &other_described, options.words)?;
    kept_is_ascii(image);
    kept_is_ascii(other);
    Ok(compare_kept(alloc, &kept, &other_kept, options)?)
}

impl From<AllocError> for CompareError {
    ghost use Rattle.bi_describe.specs.declared.compare.CompareError.TheVariants.{OutOfMemory};

    ghost from_gives = { λ _ error. error ≡ OutOfMemory };

    fn from(_error: AllocError) -> CompareError {
        CompareError::OutOfMemory
    }
}

/// Reads the first file.
fn read_one(alloc: Global, file: &[u8], limits: Limits) -> Result<BootImage<'_>, CompareError>
    ensures read { IfOk result (IsReadBootImage limits file.entry.now) }
    ensures failed { IfErr result (λ error. (other : List ℕ)
        → IsReadingError limits file.entry.now other error) }
{
    match BootImage::read(alloc, file, limits) {
        Ok(image) => Ok(image),
        Err(error) => Err(reading_failure(error)),
    }
}

/// Returns the failure for an error of reading the first file.
fn reading_failure(error: Error) -> CompareError
    ensures { (limits : Limits) (file other : List ℕ) → IsBootImageReadError limits file error
        → IsReadingError limits file other result }
{
    match error {
        Error::Refused(fault) => CompareError::One(fault),
        _ => CompareError::OutOfMemory,
    }
}

/// Reads the second file.
fn read_other(alloc: Global, file: &[u8], limits: Limits) -> Result<BootImage<'_>, CompareError>
    ensures read { IfOk result (IsReadBootImage limits file.entry.now) }
    ensures failed { IfErr result (λ error. (one : List ℕ) (meaning : Meaning)
        → Means limits one meaning → IsReadingError limits one file.entry.now error) }
{
    match BootImage::read(alloc, file, limits) {
        Ok(image) => Ok(image),
        Err(Error::Refused(fault)) => Err(CompareError::Other(fault)),
        Err(_) => Err(CompareError::OutOfMemory),
    }
}

/// Returns whether two images that were read mean the same. It fails if memory runs out.
fn mean_the_same(
    alloc: Global,
    image: &BootImage<'_>,
    other: &BootImage<'_>,
) -> Result<bool, AllocError>
    ensures { IfOk result (λ same. IsTrue same
        ↔ (meaning_of image.now ≡ meaning_of other.now)) }
{
    match image.has_same_meaning(alloc, other) {
        Ok(same) => Ok(same),
        Err(_) => Err(AllocError),
    }
}

/// Compares two files, in a form.
fn compare_as(
    alloc: Global,
    one: &[u8],
    other: &[u8],
    limits: Limits,
    format: Format,
) -> Result<Comparison, CompareError>
    ensures compared { IfOk result (λ comparison. IsComparison format limits one.now other.now
        comparison.same (string_bytes comparison.differences)) }
    ensures failed { IfErr result (IsComparisonError limits one.now other.now) }
{
    let image = read_one(alloc, one, limits)?;
    let other_image = read_other(alloc, other, limits)?;
    let same = mean_the_same(alloc, &image, &other_image)?;
    if same {
        return Ok(Comparison {
            same,
            differences: print(alloc, format, true, &[])?,
        });
    }
    let differences = compare_images(alloc, &image, &other_image, limits, format)?;
    Ok(Comparison { same, differences })
}

/// Returns the text of what differs between two images that do not mean the same, in a form.
/// Requires: the images were read.
fn compare_images(
    alloc: Global,
    image: &BootImage<'_>,
    other: &BootImage<'_>,
    limits: Limits,
    format: Format,
) -> Result<String, CompareError>
    requires held { IsHeldImage image.now }
    requires other_held { IsHeldImage other.now }
    ensures compared { IfOk result (λ text. IsComparisonOf format limits (meaning_of image.now)
        (meaning_of other.now) false (string_bytes text)) }
    ensures failed { IfErr result (λ error. (error ≡ CompareError.OutOfMemory)
        ⊎ IsDescribingError limits (meaning_of image.now) (meaning_of other.now) error) }
{
    let kept = keep_one(alloc, image, limits)?;
    let other_kept = keep_other(alloc, other, limits)?;
    let lines = differing_lines(alloc, image, other, &kept, &other_kept)?;
    Ok(print(alloc, format, false, &lines)?)
}

/// Keeps the lines of the first image. Requires: the image was read.
fn keep_one(alloc: Global, image: &BootImage<'_>, limits: Limits) -> Result<KeptLines, CompareError>
    requires held { IsHeldImage image.now }
    ensures within { OnOk result (CanBeDescribed Lines limits (meaning_of image.now)) }
    ensures kept { IfOk result (KeepsLines (description_lines (meaning_of image.now))) }
    ensures failed { IfErr result (λ error. (error ≡ CompareError.OutOfMemory)
        ⊎ ((other : Meaning) → IsDescribingError limits (meaning_of image.now) other error)) }
{
    let mut described = describe_one(alloc, image, limits)?;
    Ok(keep_lines(alloc, image, &mut described)?)
}

/// Keeps the lines of the second image. Requires: the image was read.
fn keep_other(
    alloc: Global,
    image: &BootImage<'_>,
    limits: Limits,
) -> Result<KeptLines, CompareError>
    requires held { IsHeldImage image.now }
    ensures within { OnOk result (CanBeDescribed Lines limits (meaning_of image.now)) }
    ensures kept { IfOk result (KeepsLines (description_lines (meaning_of image.now))) }
    ensures failed { IfErr result (λ error. (error ≡ CompareError.OutOfMemory)
        ⊎ ((one : Meaning) → CanBeDescribed Lines limits one
        → IsDescribingError limits one (meaning_of image.now) error)) }
{
    let mut described = describe_other(alloc, image, limits)?;
    Ok(keep_lines(alloc, image, &mut described)?)
}

/// Keeps the lines of the description of an image, which is made from this. Requires: the image was
/// read.
///
/// Fails only if memory runs out.
fn keep_lines(
    alloc: Global,
    image: &BootImage<'_>,
    described: &mut DescribedImage,
) -> Result<KeptLines, AllocError>
    requires held { IsHeldImage image.now }
    requires described { IsDescribed (meaning_of image.now) described.old }
    ensures { IfOk result (KeepsLines (description_lines (meaning_of image.now))) }
{
    description_is_ascii(image, Format::Lines);
    KeptLines::new(alloc, described)
}

/// Returns what the description of the first image is made from. Requires: the image was read.
fn describe_one<'a, 'b>(
    alloc: Global,
    image: &'b BootImage<'a>,
    limits: Limits,
) -> Result<DescribedImage<'a, 'b>, CompareError>
    requires held { IsHeldImage image.now }
    ensures within { OnOk result (CanBeDescribed Lines limits (meaning_of image.now)) }
    ensures described { IfOk result (IsDescribed (meaning_of image.entry.now)) }
    ensures failed { IfErr result (λ error. (error ≡ CompareError.OutOfMemory)
        ⊎ ((other : Meaning) → IsDescribingError limits (meaning_of image.now) other error)) }
{
    match describe_image(alloc, image, limits, Format::Lines) {
        Ok(described) => Ok(described),
        Err(Error::Refused(fault)) => Err(CompareError::One(fault)),
        Err(_) => Err(CompareError::OutOfMemory),
    }
}

/// Returns what the description of the second image is made from. Requires: the image was read.
fn describe_other<'a, 'b>(
    alloc: Global,
    image: &'b BootImage<'a>,
    limits: Limits,
) -> Result<DescribedImage<'a, 'b>, CompareError>
    requires held { IsHeldImage image.now }
    ensures within { OnOk result (CanBeDescribed Lines limits (meaning_of image.now)) }
    ensures described { IfOk result (IsDescribed (meaning_of image.entry.now)) }
    ensures failed { IfErr result (λ error. (error ≡ CompareError.OutOfMemory)
        ⊎ ((one : Meaning) → CanBeDescribed Lines limits one
        → IsDescribingError limits one (meaning_of image.now) error)) }
{
    match describe_image(alloc, image, limits, Format::Lines) {
        Ok(described) => Ok(described),
        Err(Error::Refused(fault)) => Err(CompareError::Other(fault)),
        Err(_) => Err(CompareError::OutOfMemory),
    }
}

/// Returns what differs between two images that do not mean the same, whose lines are kept.
///
/// Fails only if memory runs out.
fn differing_lines<'a>(
    alloc: Global,
    image: &BootImage<'_>,
    other: &BootImage<'_>,
    kept: &'a KeptLines,
    other_kept: &'a KeptLines,
) -> Result<Vec<SignedLine<'a>>, AllocError>
    ensures { IfOk result (λ lines. (own others : List Line) → KeepsLines own kept.entry.now
        → KeepsLines others other_kept.entry.now → made_lines lines.items
        ≡ comparison_by_lines (meaning_of image.now) (meaning_of other.now) own others) }
{
    match (image, other) {
        (BootImage::Legacy(_), BootImage::Fit(_)) => {
            kinds_differ(alloc, "kind legacy", "kind fit")
        }
        (BootImage::Fit(_), BootImage::Legacy(_)) => {
            kinds_differ(alloc, "kind fit", "kind legacy")
        }
        (BootImage::Legacy(_), BootImage::Legacy(_)) => {
            differences_or_reason(alloc, kept, other_kept)
        }
        (BootImage::Fit(_), BootImage::Fit(_)) => differences_or_reason(alloc, kept, other_kept),
    }
}

/// Returns the text of a comparison, in a form.
///
/// Fails only if memory runs out.
fn print(
    alloc: Global,
    format: Format,
    same: bool,
    lines: &[SignedLine],
) -> Result<String, AllocError>
    ensures { IfOk result (λ text. string_bytes text
        ≡ comparison_text format same (made_lines lines.now)) }
{
    match format {
        Format::Lines => text_of_lines(alloc, lines),
        Format::Json => comparison_json(alloc, same, lines),
    }
}
