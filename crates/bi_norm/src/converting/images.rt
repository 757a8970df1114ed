//! The images that the parts of a legacy image become.

ghost use Rattle.std.specs.Prelude.{◌≡◌, [], IfOk};
ghost use Rattle.bi_legacy.specs.Meaning.{LegacyImage, image_of};
ghost use Rattle.bi_fit.specs.NamedImages.{named_model, named_models};
ghost use Rattle.bi_norm.specs.CodeNames.{AreCodeNames};
ghost use Rattle.bi_norm.specs.Converting.{image_name as name_for};
ghost use Rattle.bi_norm.specs.Converting.{has_addresses as keeps_addresses, CanBeConverted};
ghost use Rattle.bi_norm.specs.Converting.{first_image as first_specification};
ghost use Rattle.bi_norm.specs.Converting.{later_image as later_specification, converted_images};

use crate::keys::keys_of_type;
use bi_fit::{Key, NamedImage};
use bi_legacy::{Fields, Legacy};
use std::alloc::{AllocError, Global};

/// The names of the operating system, the architecture and the compression of a legacy image. Its
/// type is given by the keys.
#[derive(Clone, Copy)]
pub(super) struct CodeNames {
    pub(super) os: &'static str,
    pub(super) arch: &'static str,
    pub(super) compression: &'static str,
}

/// Returns the images of a legacy image, in the order of its parts. Fails if memory runs out.
/// Requires: it can be converted, and `names` are the names of its codes.
pub(super) fn images_of<'a>(
    alloc: Global,
    image: &Legacy<'a>,
    names: CodeNames,
) -> Result<Vec<NamedImage<'a>>, AllocError>
    requires can { CanBeConverted image.now.image }
    requires names { AreCodeNames image.now.image names }
    ensures { IfOk result (λ images.
        named_models images.items ≡ converted_images image.now.image) }
{
    let fields = image.fields();
    let keys = keys_of_type(fields.image_type);
    let mut images = Vec::with_capacity(alloc, keys.len())?;
    for part in image.parts() {
        let key = keys[images.len()];
        let next = if images.is_empty() {
            first_image(fields, names, key, part.bytes)
        } else {
            later_image(names, key, part.bytes)
        };
        images.push(next)?;
    }
    Ok(images)
}

/// Returns the image of the first part. It has the compression of the legacy image. Requires:
/// `names` are the names of the codes in these fields.
fn first_image<'a>(fields: Fields<'a>, names: CodeNames, key: Key, part: &'a [u8]) -> NamedImage<'a>
    requires { AreCodeNames (image_of fields []) names }
    ensures image { let image = image_of fields.entry [] in
        named_model result ≡ first_specification image key part.entry.now }
    ensures payload { result.payload.now ≡ part.entry.now }
{
    let has_addresses = has_addresses(key);
    NamedImage {
        name: image_name(key),
        description: None,
        image_type: key.type_name().as_bytes(),
        arch: names.arch.as_bytes(),
        os: names.os.as_bytes(),
        compression: names.compression.as_bytes(),
        load: has_addresses.then_some(fields.load),
        entry: has_addresses.then_some(fields.entry),
        payload: part,
    }
}

/// Returns the image of a later part, which is not compressed.
fn later_image<'a>(names: CodeNames, key: Key, part: &'a [u8]) -> NamedImage<'a>
    ensures image { (image : LegacyImage) → AreCodeNames image names →
        named_model result ≡ later_specification image key part.entry.now }
    ensures payload { result.payload.now ≡ part.entry.now }
{
    NamedImage {
        name: image_name(key),
        description: None,
        image_type: key.type_name().as_bytes(),
        arch: names.arch.as_bytes(),
        os: names.os.as_bytes(),
        compression: b"none",
        load: None,
        entry: None,
        payload: part,
    }
}

/// Returns the name of the image node of a key.
fn image_name(key: Key) -> &'static [u8]
    ensures { result.now ≡ name_for key }
{
    match key {
        Key::Kernel => b"kernel-1",
        Key::Fdt => b"fdt-1",
        Key::Ramdisk => b"ramdisk-1",
        Key::Firmware => b"firmware-1",
        Key::Loadables => b"standalone-1",
        Key::Script => b"script-1",
    }
}

/// Returns whether an image with this key keeps the load address and the entry point.
fn has_addresses(key: Key) -> bool
    ensures { result ≡ keeps_addresses key }
{
    matches!(key, Key::Kernel | Key::Firmware | Key::Loadables)
}
