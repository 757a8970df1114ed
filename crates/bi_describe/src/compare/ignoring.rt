//! Comparing what stays of two boot images once something is left out of both.

ghost use Rattle.std.specs.Prelude.{◌≡◌, IfOk, List, string_bytes};
ghost use Rattle.bi_norm.specs.Meaning.{Meaning};
ghost use Rattle.bi_common.specs.Lines.{Line};
ghost use Rattle.bi_describe.specs.Comparing.{comparison_by_lines, comparison_text};
ghost use Rattle.bi_describe.specs.ComparingWithout.{IsComparisonWithout, lines_without};
ghost use Rattle.bi_describe.specs.ComparingWithout.{text_without};
ghost use Rattle.bi_describe.specs.Ignoring.{Ignored as Word};
ghost use Rattle.bi_describe.specs.KeptImages.{IsKeptImage, IsKeptAscii};
ghost use Rattle.bi_describe.specs.KeptLines.{KeepsLines};
ghost use Rattle.bi_describe.specs.MadeLines.{made_lines};
ghost use Rattle.bi_describe.specs.MadeOptions.{ignoring_model};
ghost use Rattle.bi_describe.specs.MadeWords.{ignored_words};
ghost use Rattle.bi_describe.specs.ReducedMeanings.{meaning_without};

use super::kept_lines::KeptLines;
use super::reasons::{differences_or_reason, kinds_differ};
use super::signed_lines::SignedLine;
use super::{Comparison, print};
use crate::describe::kept::KeptImage;
use crate::ignored::Ignored;
use bi_common::format::Format;
use std::alloc::{AllocError, Global};

/// What is left out of two boot images, and what is written of them.
#[derive(Clone, Copy)]
pub struct IgnoringOptions<'a> {
    /// What is left out of both images.
    pub words: &'a [Ignored],
    /// Whether only `same` is wanted: then no differences are written.
    pub quiet: bool,
    /// The form of the differences.
    pub format: Format,
}

/// Compares what stays of two images. Requires: this is what stays of two meanings, and the lines
/// of both are ASCII.
///
/// Fails only if memory runs out.
pub(super) fn compare_kept(
    alloc: Global,
    image: &KeptImage,
    other: &KeptImage,
    options: IgnoringOptions,
) -> Result<Comparison, AllocError>
    requires ascii { IsKeptAscii image.now }
    requires other_ascii { IsKeptAscii other.now }
    ensures { IfOk result (λ comparison. (meaning other_meaning : Meaning)
        → IsKeptImage (meaning_without (ignored_words options.entry.words.now) meaning) image.now
        → IsKeptImage (meaning_without (ignored_words options.entry.words.now) other_meaning)
        other.now
        → IsComparisonWithout (ignoring_model options.entry) meaning other_meaning comparison.same
        (string_bytes comparison.differences)) }
{
    let same = image.is_same(other);
    let differences = written_differences(alloc, image, other, same, options)?;
    Ok(Comparison { same, differences })
}

/// Returns the text that is written of what differs between what stays of two images. Requires: the
/// lines of both are ASCII.
///
/// Fails only if memory runs out.
fn written_differences(
    alloc: Global,
    image: &KeptImage,
    other: &KeptImage,
    same: bool,
    options: IgnoringOptions,
) -> Result<String, AllocError>
    requires ascii { IsKeptAscii image.now }
    requires other_ascii { IsKeptAscii other.now }
    ensures { IfOk result (λ text. (words : List Word) (meaning other_meaning : Meaning)
        → IsKeptImage (meaning_without words meaning) image.now
        → IsKeptImage (meaning_without words other_meaning) other.now
        → string_bytes text ≡ text_without (ignoring_model options.entry) same
        (lines_without words meaning other_meaning same)) }
{
    if options.quiet {
        return Ok(String::new(alloc));
    }
    text_of_kept(alloc, image, other, same, options.format)
}

/// Returns the text of what differs between what stays of two images, in a form. Requires: the
/// lines of both are ASCII.
///
/// Fails only if memory runs out.
fn text_of_kept(
    alloc: Global,
    image: &KeptImage,
    other: &KeptImage,
    same: bool,
    format: Format,
) -> Result<String, AllocError>
    requires ascii { IsKeptAscii image.now }
    requires other_ascii { IsKeptAscii other.now }
    ensures { IfOk result (λ text. (words : List Word) (meaning other_meaning : Meaning)
        → IsKeptImage (meaning_without words meaning) image.now
        → IsKeptImage (meaning_without words other_meaning) other.now
        → string_bytes text
        ≡ comparison_text format same (lines_without words meaning other_meaning same)) }
{
    if same {
        return print(alloc, format, true, &[]);
    }
    let kept = KeptLines::of_kept(alloc, image)?;
    let other_kept = KeptLines::of_kept(alloc, other)?;
    let lines = lines_of_kept(alloc, image, other, &kept, &other_kept)?;
    print(alloc, format, false, &lines)
}

/// Returns what differs between what stays of two images, whose lines are kept.
///
/// Fails only if memory runs out.
pub(super) fn lines_of_kept<'a>(
    alloc: Global,
    image: &KeptImage,
    other: &KeptImage,
    kept: &'a KeptLines,
    other_kept: &'a KeptLines,
) -> Result<Vec<SignedLine<'a>>, AllocError>
    ensures { IfOk result (λ lines. (words : List Word) (meaning other_meaning : Meaning)
        (own others : List Line) → IsKeptImage (meaning_without words meaning) image.now
        → IsKeptImage (meaning_without words other_meaning) other.now
        → KeepsLines own kept.entry.now → KeepsLines others other_kept.entry.now
        → made_lines lines.items ≡ comparison_by_lines meaning other_meaning own others) }
{
    match (image, other) {
        (KeptImage::Legacy(_), KeptImage::Fit(_)) => kinds_differ(alloc, "kind legacy", "kind fit"),
        (KeptImage::Fit(_), KeptImage::Legacy(_)) => kinds_differ(alloc, "kind fit", "kind legacy"),
        (KeptImage::Legacy(_), KeptImage::Legacy(_)) => {
            differences_or_reason(alloc, kept, other_kept)
        }
        (KeptImage::Fit(_), KeptImage::Fit(_)) => differences_or_reason(alloc, kept, other_kept),
    }
}
