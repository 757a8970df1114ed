//! What a user should know after an edit.

ghost use Rattle.std.specs.Prelude.{◌≡◌, ◌↔◌, ◌+◌, ◌-◌, ◌≤◌, ◌++◌, ℕ, List, [], ◌∷◌, length};
ghost use Rattle.std.specs.Prelude.{Some, filter, IfOk, OnOk};
ghost use Rattle.std.specs.Option.{option_map};
ghost use Rattle.bi_base.specs.Limits.{Limits};
ghost use Rattle.bi_blob.specs.Layout.{longest_text};
ghost use Rattle.bi_fit.specs.declared.form.Form.{Form};
ghost use Rattle.bi_fit.specs.declared.form.Form.TheVariants.{External};
ghost use Rattle.bi_fit.specs.Content.{IsHeld, image_model, place_or_absent, tree_of};
ghost use Rattle.bi_fit.specs.Kept.{LosesAlignment};
ghost use Rattle.bi_fit.specs.NormalNodes.{payloads_of};
ghost use Rattle.bi_fit.specs.Reading.{IsReadFit};
ghost use Rattle.bi_fit.specs.Text.{end_after as end_after_of, fit_text, payloads_end};
ghost use Rattle.bi_edit.specs.declared.form_choice.FormChoice.TheVariants.{Given};
ghost use Rattle.bi_edit.specs.EditNotes.{AreTreeNotes, is_outside as is_outside_of};
ghost use Rattle.bi_edit.specs.OldImages.{comes_inside_from, loses_position_from, model_named};
ghost use Rattle.bi_edit.specs.OldImages.{payload_or_none, still_placed_from};
ghost use Rattle.bi_edit.specs.PlacedPayloads.{placed_list};

use crate::form_choice::FormChoice;
use crate::outside_payloads::{OutsidePayload, is_not_empty, lost_alignment, push_placed};
use bi_base::up4;
use bi_fit::{Fit, Form, Image, Kept, Place};
use std::alloc::{AllocError, Global};

/// What a user should know after a boot image was edited. Of a legacy image there is nothing to
/// know.
#[derive(Clone, Copy, Debug, Default, PartialEq, Eq)]
pub struct EditNotes {
    /// The signature nodes of the text, and what it does not keep of the places of the payloads
    /// that `data-offset` or `data-position` of the file gives, of the images that still have one.
    /// The alignment is None unless the form External was given. The positions are 0 unless it was,
    /// or the form is that of the file.
    pub kept: Kept,
    /// How many images have a payload that is not empty, and that was not empty in the file, where
    /// `data-offset` or `data-position` gave it. 0 unless the form Embedded was given.
    pub inside: usize,
}

/// Returns the notes after a file was edited. `new` was read from the edited blob, and `size` is
/// the length of its text in the form of the choice. Fails if memory runs out. Requires: the images
/// of `new` are those of its blob; and if the form External was given, the text in this form is
/// that long, and no longer than the longest.
pub(crate) fn notes_of(
    alloc: Global,
    choice: FormChoice,
    old: &Fit<'_>,
    new: &Fit<'_>,
    size: u32,
) -> Result<EditNotes, AllocError>
    requires held { IsHeld new.now }
    requires size { choice ≡ Given External
        → (length (fit_text External (tree_of new.now)) ≡ size) × (size ≤ longest_text) }
    ensures { IfOk result (λ notes. (limits : Limits) (file : List ℕ)
        → IsReadFit limits file old.now
        → AreTreeNotes choice file (tree_of old.now) (tree_of new.now) notes) }
{
    let signatures = new.signature_count();
    let nothing = Kept {
        signatures,
        lost_alignment: None,
        lost_positions: 0,
    };
    match choice {
        FormChoice::Given(Form::Embedded) => Ok(EditNotes {
            kept: nothing,
            inside: inside_count(old, new.images()),
        }),
        FormChoice::Given(Form::External) => {
            external_notes(alloc, old, new.images(), size, signatures)
        }
        FormChoice::Given(Form::Aligned(_)) => Ok(EditNotes {
            kept: nothing,
            inside: 0,
        }),
        FormChoice::Keep => Ok(EditNotes {
            kept: Kept {
                lost_positions: position_count(old, new.images()),
                ..nothing
            },
            inside: 0,
        }),
    }
}

/// Returns the notes if the form External was given. The new tree has these images and so many
/// signature nodes, and its text has `size` bytes. Fails if memory runs out. Requires: the payloads
/// are within the text, and that is no longer than the longest.
fn external_notes(
    alloc: Global,
    old: &Fit<'_>,
    images: &[Image<'_>],
    size: u32,
    signatures: usize,
) -> Result<EditNotes, AllocError>
    requires within { payloads_end 4 0 (payloads_of images.now) ≤ size }
    requires small { size ≤ longest_text }
    ensures signatures { IfOk result (λ notes. notes.kept.signatures ≡ signatures) }
    ensures alignment { let end = payloads_end 4 0 (payloads_of images.now) in
        let placed = still_placed_from old.now.images (size - end) 0 images.now in
        IfOk result (λ notes. (bytes : ℕ)
        → (notes.kept.lost_alignment ≡ Some bytes) ↔ LosesAlignment placed bytes) }
    ensures positions { IfOk result (λ notes. notes.kept.lost_positions ≡ length (filter
        (λ image. loses_position_from old.now.images (image_model image)) images.now)) }
    ensures inside { IfOk result (λ notes. notes.inside ≡ 0) }
{
    let placed = still_placed(alloc, old, images, size - external_end(images))?;
    Ok(EditNotes {
        kept: Kept {
            signatures,
            lost_alignment: lost_alignment(&placed),
            lost_positions: position_count(old, images),
        },
        inside: 0,
    })
}

/// Returns where the payload of the image with this name is in a file.
fn old_place(old: &Fit<'_>, name: &[u8]) -> Place
    ensures { result ≡ place_or_absent (model_named name.now old.now.images) }
{
    match old.image(name) {
        Some(index) => old.place(index),
        None => Place::Absent,
    }
}

/// Returns the payload of the image with this name, if there is one.
fn old_payload<'a>(old: &Fit<'a>, name: &[u8]) -> Option<&'a [u8]>
    ensures { option_map (λ payload. payload.now) result
        ≡ payload_or_none (model_named name.now old.now.images) }
{
    match old.image(name) {
        Some(index) => old.payload(index),
        None => None,
    }
}

/// Returns how many of these images have a payload that is not empty, and that was not empty in the
/// old tree, where `data-offset` or `data-position` gave it.
fn inside_count(old: &Fit<'_>, images: &[Image<'_>]) -> usize
    ensures { result ≡ length (filter
        (λ image. comes_inside_from old.now.images (image_model image)) images.now) }
{
    images
        .iter()
        .filter(|image| comes_inside(old, image))
        .count()
}

/// Returns whether an image has.
fn comes_inside(old: &Fit<'_>, image: &Image<'_>) -> bool
    ensures { result ≡ comes_inside_from old.now.images (image_model image.now) }
{
    is_outside(old_place(old, image.name))
        && is_not_empty(old_payload(old, image.name))
        && is_not_empty(image.payload)
}

/// Returns whether `data-offset` or `data-position` gives a place.
fn is_outside(place: Place) -> bool
    ensures { result ≡ is_outside_of place }
{
    matches!(place, Place::DataOffset(_) | Place::DataPosition(_))
}

/// Returns how many of these images have a payload that was not empty in the old tree, where
/// `data-position` gave it.
fn position_count(old: &Fit<'_>, images: &[Image<'_>]) -> usize
    ensures { result ≡ length (filter
        (λ image. loses_position_from old.now.images (image_model image)) images.now) }
{
    images
        .iter()
        .filter(|image| loses_position(old, image))
        .count()
}

/// Returns whether an image has.
fn loses_position(old: &Fit<'_>, image: &Image<'_>) -> bool
    ensures { result ≡ loses_position_from old.now.images (image_model image.now) }
{
    matches!(old_place(old, image.name), Place::DataPosition(_))
        && is_not_empty(old_payload(old, image.name))
        && image.payload.is_some()
}

/// Returns where the payloads of images end after the blob in the form External, counted from the
/// end of the blob. Requires: that is within the longest text.
fn external_end(images: &[Image<'_>]) -> u32
    requires { payloads_end 4 0 (payloads_of images.now) ≤ longest_text }
    ensures { result ≡ payloads_end 4 0 (payloads_of images.now) }
{
    let mut end = 0;
    for image in images {
        end = end_after(end, image.payload);
    }
    end as u32
}

/// Returns where the payloads end with one more, if it is there and they ended at `end` before it.
/// Requires: that is within the longest text.
fn end_after(end: usize, payload: Option<&[u8]>) -> usize
    requires { let given = option_map (λ payload. payload.now) payload in
        end_after_of 4 end given ≤ longest_text }
    ensures { result ≡ end_after_of 4 end (option_map (λ payload. payload.now) payload.entry) }
{
    match payload {
        Some(payload) => up4(end) + payload.len(),
        None => end,
    }
}

/// Returns the payloads of these images that were not empty in the old tree, where `data-offset` or
/// `data-position` gave them. The blob of the text has `base` bytes. Fails if memory runs out.
/// Requires: the text is within the longest text.
fn still_placed(
    alloc: Global,
    old: &Fit<'_>,
    images: &[Image<'_>],
    base: u32,
) -> Result<Vec<OutsidePayload>, AllocError>
    requires { base + payloads_end 4 0 (payloads_of images.now) ≤ longest_text }
    ensures { IfOk result (λ all.
        placed_list all.items ≡ still_placed_from old.now.images base 0 images.now) }
{
    let mut all = Vec::new(alloc);
    let mut end = 0;
    for image in images {
        push_still_placed(&mut all, old, image, base, end)?;
        end = end_after(end, image.payload);
    }
    Ok(all)
}

/// Adds the payload of an image, if it has one, if that was not empty in the old tree, and if
/// `data-offset` or `data-position` gave it. The payloads before it end at `end`. Fails if memory
/// runs out. Requires: it ends within the longest text.
fn push_still_placed(
    all: &mut Vec<OutsidePayload>,
    old: &Fit<'_>,
    image: &Image<'_>,
    base: u32,
    end: usize,
) -> Result<(), AllocError>
    requires { base + end_after_of 4 end (image_model image.now).payload ≤ longest_text }
    ensures { OnOk result (placed_list all.new.items ≡ placed_list all.old.items
        ++ still_placed_from old.now.images base end (image.now ∷ [])) }
{
    if image.payload.is_none() {
        return Ok(());
    }
    let place = old_place(old, image.name);
    let payload = old_payload(old, image.name);
    push_placed(all, place, payload, base + up4(end) as u32)
}
