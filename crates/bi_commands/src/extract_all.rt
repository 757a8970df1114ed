//! Extracting every payload of a boot image, each with the name of a file for it.

ghost use Rattle.std.specs.Prelude.{◌≡◌, ◌++◌, [], ◌∷◌, map, IfOk, OnOk, IfErr, string_bytes};
ghost use Rattle.bi_fit.specs.Content.{IsHeld, image_model, tree_of};
ghost use Rattle.bi_norm.specs.Meaning.{OfFit};
ghost use Rattle.bi_norm.specs.Reading.{meaning_of};
ghost use Rattle.bi_common.specs.PayloadBounds.{IsOverPayloadBound};
ghost use Rattle.bi_common.specs.HeldImages.{IsHeldImage};
ghost use Rattle.bi_commands.specs.ExtractingAll.{AreAllPayloads, IsExtractAllError};
ghost use Rattle.bi_commands.specs.ExtractingAll.{image_file, part_file_name};
ghost use Rattle.bi_commands.specs.ExtractingAll.{part_files, payload_files};
ghost use Rattle.bi_commands.specs.ExtractingAll.{image_file_name as image_file_name_of};
ghost use Rattle.bi_commands.specs.Payloads.{IsPayloadError, payload_file, payloads_model};

use bi_base::{Error, Limits};
use bi_common::payload_bounds::BoundedFit;
use bi_common::shown::{put_bytes, shown_name};
use bi_fit::{Fit, Image};
use bi_legacy::Legacy;
use bi_norm::BootImage;
use itoa::Buffer;
use std::alloc::{AllocError, Global};

/// A payload of a boot image, and the name of a file for it.
#[derive(Drop)]
pub struct Payload<'a> {
    /// The name, as `extract_all` makes it.
    pub file_name: String,
    /// The bytes: a slice of the image.
    pub bytes: &'a [u8],
}

/// All payloads of a boot image, in their order.
#[derive(Drop)]
pub struct Payloads<'a> {
    /// The payloads.
    pub payloads: Vec<Payload<'a>>,
}

/// Returns every payload of a boot image: each part of a legacy image, and the payload of each
/// image of a flattened image tree that has one. No hash is checked.
///
/// The name of a file is `part-` and the index of the part, or the name of the image as it is
/// printed, in which a dot that comes first is `%2E`. The names are distinct. They are graphic
/// ASCII without a slash and without a dot that comes first, and none is empty.
///
/// Errors, the first that applies: those of `BootImage::read`; TooLarge at the limit, if the
/// payloads of a flattened image tree together are longer than that, each counted for each image
/// that has it. OutOfMemory may come instead of any of these, but only after the checks of a legacy
/// image, or of the header and the memory reservation block of a blob.
pub fn extract_all<'a>(alloc: Global, file: &'a [u8], limits: Limits) -> Result<Payloads<'a>, Error>
    ensures payloads { IfOk result (λ payloads. AreAllPayloads limits file.entry.now
        (payloads_model payloads)) }
    ensures failed { IfErr result (IsExtractAllError limits file.entry.now) }
{
    let image = BootImage::read(alloc, file, limits)?;
    payloads_of(alloc, &image, limits)
}

/// Returns the payloads of a boot image. Requires: the image was read.
///
/// Errors: TooLarge at the limit, if they are longer; OutOfMemory.
fn payloads_of<'a>(
    alloc: Global,
    image: &BootImage<'a>,
    limits: Limits,
) -> Result<Payloads<'a>, Error>
    requires held { IsHeldImage image.now }
    ensures within { OnOk result (¬ (IsOverPayloadBound limits (meaning_of image.now))) }
    ensures payloads { IfOk result (λ payloads. payloads_model payloads
        ≡ payload_files (meaning_of image.now)) }
    ensures failed { IfErr result (IsPayloadError limits (meaning_of image.now)) }
{
    match image {
        BootImage::Legacy(image) => Ok(payloads_of_legacy(alloc, image)?),
        BootImage::Fit(fit) => payloads_of_fit(alloc, fit, limits),
    }
}

/// Returns the parts of a legacy image. Fails if memory runs out.
fn payloads_of_legacy<'a>(alloc: Global, image: &Legacy<'a>) -> Result<Payloads<'a>, AllocError>
    ensures { IfOk result (λ payloads. payloads_model payloads
        ≡ part_files 0 image.now.image.parts) }
{
    let mut payloads = Vec::new(alloc);
    for part in image.parts() {
        let file_name = part_name(alloc, payloads.len() as u64)?;
        payloads.push(Payload {
            file_name,
            bytes: part.bytes,
        })?;
    }
    Ok(Payloads { payloads })
}

/// Returns the payloads of a flattened image tree. Requires: the tree was read.
///
/// Errors: TooLarge at the limit, if they are longer; OutOfMemory.
fn payloads_of_fit<'a>(alloc: Global, fit: &Fit<'a>, limits: Limits) -> Result<Payloads<'a>, Error>
    requires held { IsHeld fit.now }
    ensures within { OnOk result (¬ (IsOverPayloadBound limits (OfFit (tree_of fit.now)))) }
    ensures payloads { IfOk result (λ payloads. payloads_model payloads
        ≡ payload_files (OfFit (tree_of fit.now))) }
    ensures failed { IfErr result (IsPayloadError limits (OfFit (tree_of fit.now))) }
{
    let bounded = BoundedFit::new(fit, limits)?;
    let mut payloads = Vec::new(alloc);
    for image in bounded.fit().images() {
        add_payload(alloc, image, &mut payloads)?;
    }
    Ok(Payloads { payloads })
}

/// Appends the payload of an image, if it has one. Fails if memory runs out.
fn add_payload<'a>(
    alloc: Global,
    image: &Image<'a>,
    payloads: &mut Vec<Payload<'a>>,
) -> Result<(), AllocError>
    ensures { OnOk result (map payload_file payloads.new.items ≡ map payload_file payloads.old.items
        ++ image_file (image_model image.now).name (image_model image.now).payload) }
{
    if let Some(bytes) = image.payload {
        let file_name = image_file_name(alloc, image.name)?;
        payloads.push(Payload { file_name, bytes })?;
    }
    Ok(())
}

/// Returns the name of the file of the part of this index. Fails if memory runs out.
fn part_name(alloc: Global, index: u64) -> Result<String, AllocError>
    ensures { IfOk result (λ name. string_bytes name ≡ part_file_name index) }
{
    let mut buffer = Buffer::new();
    let mut name = "part-".to_string(alloc)?;
    name.push_str(buffer.format(index))?;
    Ok(name)
}

/// Returns the name of the file of an image of this name. Fails if memory runs out.
fn image_file_name(alloc: Global, name: &[u8]) -> Result<String, AllocError>
    ensures { IfOk result (λ text. string_bytes text ≡ image_file_name_of name.now) }
{
    match name {
        [b'.', rest @ ..] => {
            let mut text = "%2E".to_string(alloc)?;
            put_bytes(&mut text, rest)?;
            Ok(text)
        }
        _ => shown_name(alloc, name),
    }
}
