//! The checks of the texts that only one image or one configuration has.

ghost use Rattle.std.specs.Prelude.{◌≡◌, ◌^◌, ◌<◌, false, length, map, option_to_list};
ghost use Rattle.std.specs.Prelude.{IfErr, IfSome, IsTrue, OnOk};
ghost use Rattle.std.specs.List.{AllByRecursion};
ghost use Rattle.std.specs.Option.{option_map};
ghost use Rattle.bi_base.specs.Slices.{bytes_of};
ghost use Rattle.bi_blob.specs.Tree.{HasNoZero};
ghost use Rattle.bi_fit.specs.Building.{IsText};
ghost use Rattle.bi_fit.specs.NamedImages.{named_models, configuration_spec_models};
ghost use Rattle.bi_norm.specs.FitBuilding.{own_texts_checks, own_texts_of_image};
ghost use Rattle.bi_norm.specs.FitBuilding.{own_texts_of_configuration};
ghost use Rattle.bi_norm.specs.BuildChecks.{AllPass, IsFirstFailure, HasTextValues};

use crate::fit_building::images::has_no_zero;
use bi_base::{Cause, Fault, are_bytes, refuse};
use bi_fit::{ConfigurationSpec, NamedImage};

/// Fails with BadField at the index of the first image whose own description has a zero byte.
/// Requires: there are fewer than 2^32 images.
pub(super) fn check_image_texts(images: &[NamedImage<'_>]) -> Result<(), Fault>
    requires { length images.now < 2 ^ 32 }
    ensures passed { let texts = map own_texts_of_image (named_models images.now) in
        OnOk result (AllPass (own_texts_checks 0 texts)) }
    ensures texts { OnOk result
        (AllByRecursion (λ image. IfSome image.description IsText) (named_models images.now)) }
    ensures fault { let texts = map own_texts_of_image (named_models images.now) in
        IfErr result (IsFirstFailure (own_texts_checks 0 texts)) }
{
    for (index, image) in images.iter().enumerate() {
        if !has_text(image.description) {
            return refuse(Cause::BadField, index as u32);
        }
    }
    Ok(())
}

/// Fails with BadField at the index of the first configuration whose own description, or one of
/// whose texts under `compatible`, has a zero byte. Requires: there are fewer than 2^32
/// configurations.
pub(super) fn check_configuration_texts(
    configurations: &[ConfigurationSpec<'_>],
) -> Result<(), Fault>
    requires { length configurations.now < 2 ^ 32 }
    ensures passed { let models = configuration_spec_models configurations.now in
        OnOk result (AllPass (own_texts_checks 0 (map own_texts_of_configuration models))) }
    ensures texts { let models = configuration_spec_models configurations.now in
        OnOk result (AllByRecursion HasTextValues models) }
    ensures fault { let models = configuration_spec_models configurations.now in
        IfErr result
        (IsFirstFailure (own_texts_checks 0 (map own_texts_of_configuration models))) }
{
    for (index, configuration) in configurations.iter().enumerate() {
        if !has_text(configuration.description) || !are_texts(configuration.compatible) {
            return refuse(Cause::BadField, index as u32);
        }
    }
    Ok(())
}

/// Returns whether a text, if there is one, has no zero byte.
fn has_text(text: Option<&[u8]>) -> bool
    ensures text { IsTrue result → IfSome (option_map (λ text. text.now) text.entry) IsText }
    ensures other { result ≡ false →
        ¬ (AllByRecursion HasNoZero
        (option_to_list (option_map (λ text. text.now) text.entry))) }
{
    match text {
        Some(text) => is_text(text),
        None => true,
    }
}

/// Returns whether no text has a zero byte.
fn are_texts(texts: &[&[u8]]) -> bool
    ensures texts { IsTrue result → AllByRecursion IsText (bytes_of texts.now) }
    ensures other { result ≡ false → ¬ (AllByRecursion HasNoZero (bytes_of texts.now)) }
{
    for text in texts {
        if !is_text(text) {
            return false;
        }
    }
    true
}

/// Returns whether a text has no zero byte.
fn is_text(text: &[u8]) -> bool
    ensures text { IsTrue result → IsText text.now }
    ensures other { result ≡ false → ¬ (HasNoZero text.now) }
{
    are_bytes(text);
    has_no_zero(text)
}
