//! The checks of images to be built.

ghost use Rattle.std.specs.Prelude.{◌≡◌, ◌^◌, ◌<◌, ◌↔◌, [], Option, None, length, map, unwrap_or};
ghost use Rattle.std.specs.Prelude.{slice_get, OnOk, IfOk, IfErr, IsTrue, MatchOption};
ghost use Rattle.std.specs.List.{AllByRecursion};
ghost use Rattle.std.specs.Option.{option_map};
ghost use Rattle.bi_blob.specs.NameSets.{HoldsNames};
ghost use Rattle.bi_blob.specs.Tree.{HasNoZero, AreDistinct};
ghost use Rattle.bi_fit.specs.NamedImages.{named_model, named_models};
ghost use Rattle.bi_norm.specs.FitBuilding.{image_texts_model};
ghost use Rattle.bi_norm.specs.FitBuilding.{spec_model, texts_for};
ghost use Rattle.bi_norm.specs.FitBuilding.{names_of_codes as names_for_codes, names_of_specs};
ghost use Rattle.bi_norm.specs.FitBuilding.{spec_checks, HasTypeOrTexts, AreTexts, HasNames};
ghost use Rattle.bi_norm.specs.FitBuilding.{HasNamesIfNeeded};
ghost use Rattle.bi_norm.specs.BuildChecks.{AllPass, IsFirstFailure, IsImagesError};
ghost use Rattle.bi_norm.specs.BuildChecks.{fields_and_names, given_image, given_for};
ghost use Rattle.bi_norm.specs.BuildChecks.{IsPlainImage, TextsAreBytes};

use crate::fit_building::{ImageSpec, ImageTexts};
use bi_base::{Cause, Error, Fault, are_bytes, refuse};
use bi_blob::is_child_name;
use bi_fit::NamedImage;
use bi_legacy::codes::{IH_TYPE_MULTI, arch_name, compression_name, os_name, type_name};
use std::alloc::Global;
use std::collections::BTreeSet;

/// Images that passed their checks, with the texts of their nodes, and their names.
#[derive(Drop)]
pub(super) struct CheckedImages<'a> {
    /// The images, in their order.
    pub(super) named: Vec<NamedImage<'a>>,
    /// The names of the images.
    pub(super) names: BTreeSet<&'a [u8]>,
}

/// Makes the checks of each image in turn, except that of its own description, and returns the
/// images with the texts of their nodes and their descriptions. Requires: there are fewer than 2^32
/// images.
///
/// Errors, at the index of the image: those of `check_image`; DuplicateNode, if an earlier image
/// has its name. Or OutOfMemory, which occurs only after those checks of the first image that look
/// at no other image.
pub(super) fn check_images<'a>(
    alloc: Global,
    images: &[ImageSpec<'a>],
    texts: &[Option<ImageTexts<'a>>],
    descriptions: &[Option<&'a [u8]>],
) -> Result<CheckedImages<'a>, Error>
    requires { length images.now < 2 ^ 32 }
    ensures passed { let given = given_for texts.now descriptions.now images.now in
        OnOk result (AllPass (spec_checks 0 [] given)) }
    ensures can { let given = given_for texts.now descriptions.now images.now in
        OnOk result (AllByRecursion IsPlainImage (map spec_model given)) }
    ensures distinct { OnOk result (AreDistinct (names_of_specs images.now)) }
    ensures named { let given = given_for texts.now descriptions.now images.now in
        IfOk result (λ checked. named_models checked.named.items ≡ map spec_model given) }
    ensures names { IfOk result (λ checked.
        HoldsNames checked.names (names_of_specs images.now)) }
    ensures failed { let given = given_for texts.now descriptions.now images.now in
        IfErr result (IsImagesError given) }
{
    let mut names = BTreeSet::new(alloc);
    let mut named = Vec::new(alloc);
    for (index, image) in images.iter().enumerate() {
        let offset = index as u32;
        let description = element_at(descriptions, index);
        let next = check_image(image, element_at(texts, index), description, offset)?;
        if !names.insert(image.name)? {
            return refuse(Cause::DuplicateNode, offset).map_err(Error::from);
        }
        named.push(next)?;
    }
    Ok(CheckedImages { named, names })
}

/// Returns what is given at an index, if anything is.
fn element_at<T: Copy>(list: &[Option<T>], index: usize) -> Option<T>
    ensures { result ≡ unwrap_or (slice_get list.now index) None }
{
    match list.get(index) {
        Some(found) => *found,
        None => None,
    }
}

/// Makes the checks of an image that look at no other image, except that of its own description,
/// and returns it with the texts of its node and its description.
///
/// Errors: BadField at its index, if a node may not have its name, or one of its texts has a zero
/// byte, or it has no texts and its type is multi; else NoCodeName at its index, if it has no texts
/// and one of its codes has no name.
fn check_image<'a>(
    image: &ImageSpec<'a>,
    texts: Option<ImageTexts<'a>>,
    description: Option<&'a [u8]>,
    index: u32,
) -> Result<NamedImage<'a>, Fault>
    ensures passed { let given = given_image image.now texts.entry description.entry in
        OnOk result (AllPass (fields_and_names index given)) }
    ensures can { let given = given_image image.now texts.entry description.entry in
        OnOk result (IsPlainImage (spec_model given)) }
    ensures named { let given = given_image image.now texts.entry description.entry in
        IfOk result (λ named. named_model named ≡ spec_model given) }
    ensures fault { let given = given_image image.now texts.entry description.entry in
        IfErr result (IsFirstFailure (fields_and_names index given)) }
{
    if !is_child_name(image.name) || !has_type_or_texts(image, texts) {
        return refuse(Cause::BadField, index);
    }
    let Some(found) = texts_of(image, texts) else {
        return refuse(Cause::NoCodeName, index);
    };
    are_bytes(image.name);
    are_bytes(image.payload);
    have_bytes(found);
    Ok(with_texts(image, found, description))
}

/// Returns whether the texts of an image have no zero byte, or, if it has none, its type is not
/// multi.
fn has_type_or_texts(image: &ImageSpec<'_>, texts: Option<ImageTexts<'_>>) -> bool
    ensures { IsTrue result
        ↔ HasTypeOrTexts image.now (option_map image_texts_model texts.entry) }
{
    match texts {
        Some(texts) => are_texts(texts),
        None => image.image_type != IH_TYPE_MULTI,
    }
}

/// Returns whether no text has a zero byte.
fn are_texts(texts: ImageTexts<'_>) -> bool
    ensures { IsTrue result ↔ AreTexts (image_texts_model texts.entry) }
{
    has_no_zero(texts.image_type)
        && has_no_zero(texts.arch)
        && has_no_zero(texts.os)
        && has_no_zero(texts.compression)
}

/// Returns whether no byte is zero.
pub(super) fn has_no_zero(bytes: &[u8]) -> bool
    ensures { IsTrue result ↔ HasNoZero bytes.now }
{
    !bytes.contains(&0)
}

/// Returns the texts of an image, or, if it has none, the names of its codes. Returns None if it
/// has no texts and one of its codes has no name.
fn texts_of<'a>(image: &ImageSpec<'_>, texts: Option<ImageTexts<'a>>) -> Option<ImageTexts<'a>>
    ensures { let given = given_image image.now texts.entry None in
        MatchOption result (¬ (HasNamesIfNeeded given.spec given.texts))
        (λ found. HasNamesIfNeeded given.spec given.texts
        × (image_texts_model found ≡ texts_for given)) }
{
    match texts {
        Some(texts) => Some(texts),
        None => names_of_codes(image),
    }
}

/// Returns the names of the codes of an image. Returns None if one of them has no name.
fn names_of_codes<'a>(image: &ImageSpec<'_>) -> Option<ImageTexts<'a>>
    ensures { MatchOption result (¬ (HasNames image.now))
        (λ texts. HasNames image.now × (image_texts_model texts ≡ names_for_codes image.now)) }
{
    Some(ImageTexts {
        image_type: type_name(image.image_type)?.as_bytes(),
        arch: arch_name(image.arch)?.as_bytes(),
        os: os_name(image.os)?.as_bytes(),
        compression: compression_name(image.compression)?.as_bytes(),
    })
}

/// States that texts are bytes.
fn have_bytes(texts: ImageTexts<'_>)
    ensures { TextsAreBytes (image_texts_model texts.entry) }
{
    are_bytes(texts.image_type);
    are_bytes(texts.arch);
    are_bytes(texts.os);
    are_bytes(texts.compression);
}

/// Returns an image with these texts and this description.
fn with_texts<'a>(
    image: &ImageSpec<'a>,
    texts: ImageTexts<'a>,
    description: Option<&'a [u8]>,
) -> NamedImage<'a>
    ensures { (given : Option ImageTexts)
        → image_texts_model texts.entry ≡ texts_for (given_image image.now given description.entry)
        → named_model result ≡ spec_model (given_image image.now given description.entry) }
{
    NamedImage {
        name: image.name,
        description,
        image_type: texts.image_type,
        arch: texts.arch,
        os: texts.os,
        compression: texts.compression,
        load: image.load,
        entry: image.entry,
        payload: image.payload,
    }
}
