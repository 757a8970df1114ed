//! Payloads outside the blob of a file.

ghost use Rattle.std.specs.Prelude.{◌≡◌, ◌≢◌, ◌++◌, ◌↔◌, ◌%◌, ℕ, Some, IsTrue, IfOk, IfSome};
ghost use Rattle.std.specs.Prelude.{IfNone};
ghost use Rattle.std.specs.Prelude.{IsNone, OnOk};
ghost use Rattle.std.specs.Option.{option_map};
ghost use Rattle.bi_fit.specs.Kept.{AreAlignedInFile, AreAlignedInText, IsAlignmentOf, IsPower};
ghost use Rattle.bi_fit.specs.Kept.{LosesAlignment, payload_if_placed};
ghost use Rattle.bi_edit.specs.EditNotes.{is_not_empty as is_not_empty_of};
ghost use Rattle.bi_edit.specs.PlacedPayloads.{placed_list, placed_of_images, placed_or_none};

use bi_fit::{Image, Place};
use std::alloc::{AllocError, Global};

/// The greatest alignment that is looked for, in bytes.
const MOST: u32 = 0x10_0000;

/// A payload that is not empty and that `data-offset` or `data-position` of a file gives.
#[derive(Clone, Copy)]
pub(crate) struct OutsidePayload {
    /// The offset of its first byte in the file.
    pub(crate) old_offset: u32,
    /// The offset of its first byte in a text.
    pub(crate) new_offset: u32,
    /// Whether `data-position` gives it.
    pub(crate) has_position: bool,
}

/// Returns the payload of an image, if it is not empty and `data-offset` or `data-position` gives
/// it. `new_offset` is its offset in a text.
fn placed_if(place: Place, payload: Option<&[u8]>, new_offset: u32) -> Option<OutsidePayload>
    ensures { placed_or_none result ≡ payload_if_placed place
        (option_map (λ payload. payload.now) payload.entry) (Some new_offset) }
{
    if !is_not_empty(payload) {
        return None;
    }
    match place {
        Place::DataOffset(old_offset) => Some(OutsidePayload {
            old_offset,
            new_offset,
            has_position: false,
        }),
        Place::DataPosition(old_offset) => Some(OutsidePayload {
            old_offset,
            new_offset,
            has_position: true,
        }),
        Place::Data(_) | Place::Absent => None,
    }
}

/// Returns whether there is a payload, and it is not empty.
pub(crate) fn is_not_empty(payload: Option<&[u8]>) -> bool
    ensures { result ≡ is_not_empty_of (option_map (λ payload. payload.now) payload.entry) }
{
    match payload {
        Some(payload) => !payload.is_empty(),
        None => false,
    }
}

/// Adds the payload of an image, if it is not empty and `data-offset` or `data-position` gives it.
/// Fails if memory runs out.
pub(crate) fn push_placed(
    all: &mut Vec<OutsidePayload>,
    place: Place,
    payload: Option<&[u8]>,
    new_offset: u32,
) -> Result<(), AllocError>
    ensures { let given = option_map (λ payload. payload.now) payload.entry in
        OnOk result (placed_list all.new.items
        ≡ placed_list all.old.items ++ payload_if_placed place given (Some new_offset)) }
{
    if let Some(placed) = placed_if(place, payload, new_offset) {
        all.push(placed)?;
    }
    Ok(())
}

/// Returns the payloads of images that are not empty and that `data-offset` or `data-position`
/// gives. Fails if memory runs out.
pub(crate) fn placed_in_file(
    alloc: Global,
    images: &[Image<'_>],
) -> Result<Vec<OutsidePayload>, AllocError>
    ensures { IfOk result (λ all. placed_list all.items ≡ placed_of_images images.now) }
{
    let mut all = Vec::new(alloc);
    for image in images {
        push_placed(&mut all, image.place, image.payload, 0)?;
    }
    Ok(all)
}

/// Returns the alignment in bytes that payloads have in their file: the greatest power of two up to
/// 1048576 that divides the offset of each.
pub(crate) fn alignment_of(placed: &[OutsidePayload]) -> u32
    ensures { IsAlignmentOf (placed_list placed.now) result }
{
    let mut power = MOST;
    while first_between(placed, power).is_some() {
        power /= 2;
    }
    power
}

/// Returns the first offset of payloads in their file that is not a multiple of a power of two.
/// Requires: `power` is one.
fn first_between(placed: &[OutsidePayload], power: u32) -> Option<u32>
    requires { IsPower power }
    ensures some { IfSome result (λ offset. (offset % power ≢ 0) × ((other : ℕ)
        → AreAlignedInFile other (placed_list placed.now) → offset % other ≡ 0)) }
    ensures none { IfNone result (AreAlignedInFile power (placed_list placed.now)) }
{
    for payload in placed {
        if payload.old_offset % power != 0 {
            return Some(payload.old_offset);
        }
    }
    None
}

/// Returns the alignment that payloads have in their file and lose in the text. Returns None if
/// they lose none.
pub(crate) fn lost_alignment(placed: &[OutsidePayload]) -> Option<u32>
    ensures lost { IfSome result (LosesAlignment (placed_list placed.now)) }
    ensures kept { IsNone result → (bytes : ℕ)
        → ¬ (LosesAlignment (placed_list placed.now) bytes) }
{
    let alignment = alignment_of(placed);
    if are_aligned(placed, alignment) {
        None
    } else {
        Some(alignment)
    }
}

/// Returns whether payloads begin at multiples of `alignment` in the text. Requires: `alignment` is
/// a power of two.
fn are_aligned(placed: &[OutsidePayload], alignment: u32) -> bool
    requires { IsPower alignment }
    ensures { IsTrue result ↔ AreAlignedInText alignment (placed_list placed.now) }
{
    for payload in placed {
        if payload.new_offset % alignment != 0 {
            return false;
        }
    }
    true
}
