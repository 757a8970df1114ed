//! What a text keeps of where the payloads of its file are.

ghost use Rattle.std.specs.Prelude.{◌≡◌, ◌+◌, ◌≤◌, ◌↔◌, ℕ, length, true, IfSome, IsNone};
ghost use Rattle.bi_blob.specs.Layout.{longest_text};
ghost use Rattle.bi_fit.specs.ImageTree.{ImageTree};
ghost use Rattle.bi_fit.specs.Content.{image_model, tree_of};
ghost use Rattle.bi_fit.specs.Documents.{length_after_blob as length_after_blob_of};
ghost use Rattle.bi_fit.specs.Judgement.{signature_count};
ghost use Rattle.bi_fit.specs.Kept.{IsKept, IsPower, LosesAlignment, AreAlignedInText};
ghost use Rattle.bi_fit.specs.KeptImages.{IsAlignmentOfImages, IsPowerWithin, placed_images};
ghost use Rattle.bi_fit.specs.KeptImages.{placed_offset as offset_of, has_position as is_fixed};
ghost use Rattle.bi_fit.specs.NormalNodes.{payloads_of};
ghost use Rattle.bi_fit.specs.Text.{fit_text, payloads_end};

use crate::fit::Fit;
use crate::form::Form;
use crate::image::{Image, Place};
use crate::payload_area::{PayloadArea, length_after_blob};

/// The greatest alignment that is looked for, in bytes.
const MOST: u32 = 0x10_0000;

/// The notes for a user after a file was replaced by the text of its image tree: the signature
/// nodes that the text still has, and what it does not keep of the places of the payloads. No part
/// of this is in the meaning of the file.
#[derive(Clone, Copy, Debug, Default, PartialEq, Eq)]
pub struct Kept {
    /// How many signature nodes the text has. No signature is checked.
    pub signatures: usize,
    /// The alignment in bytes that the payloads of the file lose: the greatest power of two up to
    /// 1048576 that divides the offset of each in the file, if the offset of one of them in the
    /// text is not a multiple of it. The payloads are those that are not empty and that
    /// `data-offset` or `data-position` of the file gives. None unless the form is External.
    pub lost_alignment: Option<u32>,
    /// How many of these payloads `data-position` gives. The text gives each by `data-offset`
    /// instead. 0 unless the form is External.
    pub lost_positions: usize,
}

impl<'a> Fit<'a> {
    /// Returns what the text of an image tree in this form, with this length in bytes, keeps of the
    /// file. Takes time linear in the number of images and of the children of image nodes and of
    /// configuration nodes, and allocates nothing. Requires: the image tree has the payloads and
    /// the signature nodes of the file, and `size` is the length of its text, at most 0x7fffffff.
    pub fn kept(&self, form: Form, size: u32) -> Kept
        requires after { length_after_blob_of form (tree_of self.now).payloads ≤ size }
        requires small { size ≤ longest_text }
        ensures signatures { result.signatures ≡ signature_count (tree_of self.now) }
        ensures kept { (new : ImageTree) → new.payloads ≡ (tree_of self.now).payloads
            → length (fit_text form new) ≡ size
            → IsKept form self.now.blob.file (tree_of self.now) new result }
    {
        self.give_invariant();
        let signatures = self.signature_count();
        let images = self.images();
        let Form::External = form else {
            return Kept {
                signatures,
                ..Kept::default()
            };
        };
        let Ok(after) = length_after_blob(images, form, size) else {
            unreachable!();
        };
        Kept {
            signatures,
            lost_alignment: lost_alignment(images, size - after),
            lost_positions: images.iter().filter(|image| has_position(image)).count(),
        }
    }
}

/// Returns the alignment that the payloads of images have in their file and lose in a text in the
/// form External. The blob of the text has `base` bytes. Requires: the text is not longer than the
/// longest text.
fn lost_alignment(images: &[Image<'_>], base: u32) -> Option<u32>
    requires { base + payloads_end 4 0 (payloads_of images.now) ≤ longest_text }
    ensures lost { IfSome result (LosesAlignment (placed_images base 0 images.now)) }
    ensures kept { IsNone result → (bytes : ℕ)
        → ¬ (LosesAlignment (placed_images base 0 images.now) bytes) }
{
    let alignment = alignment_of(images);
    if stay_aligned(images, base, alignment) {
        None
    } else {
        Some(alignment)
    }
}

/// Returns the alignment in bytes of the payloads of images in their file.
fn alignment_of(images: &[Image<'_>]) -> u32
    ensures { IsAlignmentOfImages images.now result }
{
    let mut power = MOST;
    for image in images {
        if let Some(offset) = placed_offset(image) {
            power = power_within(power, offset);
        }
    }
    power
}

/// Returns the greatest power of two up to `most` that divides an offset. Requires: `most` is a
/// power of two.
fn power_within(most: u32, offset: u32) -> u32
    requires { IsPower most }
    ensures { IsPowerWithin most offset result }
{
    let mut power = most;
    while offset % power != 0 {
        power /= 2;
    }
    power
}

/// Returns whether the payloads of images begin at multiples of `alignment` in a text in the form
/// External. The blob of the text has `base` bytes. Requires: the text is not longer than the
/// longest text, and `alignment` is a power of two.
fn stay_aligned(images: &[Image<'_>], base: u32, alignment: u32) -> bool
    requires within { base + payloads_end 4 0 (payloads_of images.now) ≤ longest_text }
    requires power { IsPower alignment }
    ensures { (result ≡ true) ↔ AreAlignedInText alignment (placed_images base 0 images.now) }
{
    let mut area = PayloadArea::new(Form::External);
    for image in images {
        let begin = base as usize + area.place(image.payload);
        if placed_offset(image).is_some() && begin % alignment as usize != 0 {
            return false;
        }
    }
    true
}

/// Returns the offset in the file of the payload of an image, if it is not empty and `data-offset`
/// or `data-position` gives it.
fn placed_offset(image: &Image<'_>) -> Option<u32>
    ensures { result ≡ offset_of (image_model image.now) }
{
    if image.payload?.is_empty() {
        return None;
    }
    match image.place {
        Place::DataOffset(offset) | Place::DataPosition(offset) => Some(offset),
        Place::Data(_) | Place::Absent => None,
    }
}

/// Returns whether the payload of an image is not empty and `data-position` gives it.
fn has_position(image: &Image<'_>) -> bool
    ensures { result ≡ is_fixed (image_model image.now) }
{
    matches!(image.place, Place::DataPosition(_)) && placed_offset(image).is_some()
}
