//! Where the selected bytes of a boot image are.

ghost use Rattle.std.specs.Prelude.{◌≡◌, ◌⊎◌, ℕ, List, None, Some, slice_get, IfOk, IfErr, IfSome};
ghost use Rattle.std.specs.Prelude.{IfNone, MatchOption};
ghost use Rattle.std.specs.Option.{option_and_then};
ghost use Rattle.bi_base.specs.declared.fault.Error.TheVariants.{OutOfMemory};
ghost use Rattle.bi_base.specs.Limits.{Limits};
ghost use Rattle.bi_fit.specs.Content.{ArePlaced, IsHeld, offset_of_place, place_or_absent};
ghost use Rattle.bi_fit.specs.Content.{tree_of};
ghost use Rattle.bi_legacy.specs.Reading.{IsReadLegacy, part_places};
ghost use Rattle.bi_norm.specs.Meaning.{OfLegacy, OfFit};
ghost use Rattle.bi_commands.specs.declared.extract.ExtractError.TheVariants.{Failed};
ghost use Rattle.bi_commands.specs.Extracting.{HasNoPayload, IsExtractError, IsReason, choice_of};
ghost use Rattle.bi_commands.specs.Extracting.{choice_by_configuration, choice_by_default};
ghost use Rattle.bi_commands.specs.Extracting.{choice_by_name, choice_of_part, choice_of_payload};
ghost use Rattle.bi_c.specs.Extracting.{IsChosenAt, IsDefaultOffset, IsFound, IsListedOffset};
ghost use Rattle.bi_c.specs.Extracting.{IsNamedOffset, IsOffset, IsPayloadOffset};

use crate::region::Region;
use bi_base::Limits;
use bi_commands::extract::{ExtractError, Select};
use bi_fit::{ConfigError, Fit, Key, Place};
use bi_legacy::Legacy;
use bi_norm::BootImage;
use std::alloc::Global;

/// Reads a boot image, and returns where in its file the selected bytes are. The errors are those
/// of `extract`.
pub(crate) fn find(
    alloc: Global,
    file: &[u8],
    select: Select,
    limits: Limits,
) -> Result<Region, ExtractError>
    ensures found { IfOk result (λ region.
        IsFound limits select.entry file.now region.size region.offset) }
    ensures failed { IfErr result (IsExtractError select.entry limits file.now) }
{
    match BootImage::read(alloc, file, limits)? {
        BootImage::Legacy(image) => find_part(&image, select),
        BootImage::Fit(fit) => find_payload(alloc, &fit, select),
    }
}

/// Returns where the selected part is in a legacy image that was read.
fn find_part(image: &Legacy<'_>, select: Select) -> Result<Region, ExtractError>
    ensures found { (limits : Limits) (file : List ℕ) → IsReadLegacy limits file image.now →
        IfOk result (λ region. IsChosenAt file (choice_of select.entry (OfLegacy image.now.image))
        region.size region.offset) }
    ensures offset { (limits : Limits) (file : List ℕ) → IsReadLegacy limits file image.now →
        IfOk result (λ region. IsOffset limits select.entry file region.offset) }
    ensures failed { IfErr result (λ error. IsReason error
        (choice_of select.entry (OfLegacy image.now.image))) }
{
    match select {
        Select::Part(index) => part_at(image, index as usize).ok_or(ExtractError::NoPart),
        Select::Image(_) | Select::Config(..) | Select::Default(..) => Err(ExtractError::WrongKind),
    }
}

/// Returns where the part with the given index is in the file that the image was read from. Returns
/// None if there is no such part.
fn part_at(image: &Legacy<'_>, index: usize) -> Option<Region>
    ensures found { (limits : Limits) (file : List ℕ) → IsReadLegacy limits file image.now →
        IfSome result (λ region. IsChosenAt file
        (choice_of_part (slice_get image.now.image.parts index)) region.size region.offset) }
    ensures offset { IfSome result (λ region.
        slice_get (part_places image.now.image) index ≡ Some region.offset) }
    ensures none { IfNone result (slice_get image.now.image.parts index ≡ None) }
{
    let part = image.part(index)?;
    let place = image.part_place(index)?;
    Some(Region {
        offset: place as usize,
        size: part.len(),
    })
}

/// Returns where the selected payload is in a flattened image tree. Requires: the tree was read,
/// and the payload of each image is in its file at its place.
fn find_payload(alloc: Global, fit: &Fit<'_>, select: Select) -> Result<Region, ExtractError>
    requires held { IsHeld fit.now }
    requires placed { ArePlaced fit.now }
    ensures found { IfOk result (λ region. IsChosenAt fit.now.blob.file
        (choice_of select.entry (OfFit (tree_of fit.now))) region.size region.offset) }
    ensures offset { IfOk result (λ region.
        IsPayloadOffset select.entry fit.now region.offset) }
    ensures failed { IfErr result (λ error.
        IsReason error (choice_of select.entry (OfFit (tree_of fit.now)))
        ⊎ (error ≡ Failed OutOfMemory)) }
{
    match select {
        Select::Part(_) => Err(ExtractError::WrongKind),
        Select::Image(name) => find_by_name(fit, name),
        Select::Config(name, key, index) => find_by_configuration(alloc, fit, name, key, index),
        Select::Default(key, index) => find_by_default(alloc, fit, key, index),
    }
}

/// Returns where the payload of the image with the given name is, in a flattened image tree.
/// Requires: the tree was read, and the payload of each image is in its file at its place.
fn find_by_name(fit: &Fit<'_>, name: &[u8]) -> Result<Region, ExtractError>
    requires held { IsHeld fit.now }
    requires placed { ArePlaced fit.now }
    ensures found { IfOk result (λ region. IsChosenAt fit.now.blob.file
        (choice_by_name (tree_of fit.now) name.now) region.size region.offset) }
    ensures offset { IfOk result (λ region. IsNamedOffset fit.now name.now region.offset) }
    ensures failed { IfErr result (λ error. IsReason error
        (choice_by_name (tree_of fit.now) name.now)) }
{
    let Some(index) = fit.image(name) else {
        return Err(ExtractError::NoImage);
    };
    payload_at(fit, index).ok_or(ExtractError::NoPayload)
}

/// Returns where the payload of image `index` is, in a flattened image tree. Returns None if there
/// is no such image, or it has no payload. Requires: the payload of each image is in the file of
/// the tree at its place.
fn payload_at(fit: &Fit<'_>, index: usize) -> Option<Region>
    requires placed { ArePlaced fit.now }
    ensures found { let payload = option_and_then (λ image. image.payload)
        (slice_get fit.now.images index) in
        MatchOption result (choice_of_payload payload ≡ HasNoPayload)
        (λ region. IsChosenAt fit.now.blob.file (choice_of_payload payload) region.size
        region.offset) }
    ensures offset { IfSome result (λ region.
        offset_of_place (place_or_absent (slice_get fit.now.images index))
        ≡ Some region.offset) }
{
    let payload = fit.payload(index)?;
    let offset = offset_of(fit.place(index))?;
    Some(Region {
        offset: offset as usize,
        size: payload.len(),
    })
}

/// Returns the offset of a place. Returns None if there is no payload.
fn offset_of(place: Place) -> Option<u32>
    ensures { result ≡ offset_of_place place }
{
    match place {
        Place::Absent => None,
        Place::Data(offset) | Place::DataOffset(offset) | Place::DataPosition(offset) => {
            Some(offset)
        }
    }
}

/// Returns where the payload is of the image at the given index among those that the configuration
/// with the given name lists under a key, in a flattened image tree. Requires: the tree was read,
/// and the payload of each image is in its file at its place.
fn find_by_configuration(
    alloc: Global,
    fit: &Fit<'_>,
    name: &[u8],
    key: Key,
    index: u32,
) -> Result<Region, ExtractError>
    requires held { IsHeld fit.now }
    requires placed { ArePlaced fit.now }
    ensures found { IfOk result (λ region. IsChosenAt fit.now.blob.file
        (choice_by_configuration (tree_of fit.now) name.now key index) region.size
        region.offset) }
    ensures offset { IfOk result (λ region.
        IsListedOffset fit.now name.now key index region.offset) }
    ensures failed { IfErr result (λ error.
        IsReason error (choice_by_configuration (tree_of fit.now) name.now key index)
        ⊎ (error ≡ Failed OutOfMemory)) }
{
    let listed = fit.config_payloads(alloc, name, key)?;
    let named = listed.get(index as usize).ok_or(ExtractError::NoIndex)?;
    find_by_name(fit, named.name)
}

/// Returns where the payload is of the image at the given index among those that the default
/// configuration lists under a key, in a flattened image tree. Requires: the tree was read, and the
/// payload of each image is in its file at its place.
fn find_by_default(
    alloc: Global,
    fit: &Fit<'_>,
    key: Key,
    index: u32,
) -> Result<Region, ExtractError>
    requires held { IsHeld fit.now }
    requires placed { ArePlaced fit.now }
    ensures found { IfOk result (λ region. IsChosenAt fit.now.blob.file
        (choice_by_default (tree_of fit.now) key index) region.size region.offset) }
    ensures offset { IfOk result (λ region.
        IsDefaultOffset fit.now key index region.offset) }
    ensures failed { IfErr result (λ error.
        IsReason error (choice_by_default (tree_of fit.now) key index)
        ⊎ (error ≡ Failed OutOfMemory)) }
{
    let Some(name) = fit.default_config() else {
        return Err(ExtractError::Config(ConfigError::NoConfig));
    };
    find_by_configuration(alloc, fit, name, key, index)
}
