//! The configuration that lists images by their types.

ghost use Rattle.std.specs.Prelude.{◌≡◌, List, IfOk};
ghost use Rattle.bi_base.specs.Slices.{bytes_of};
ghost use Rattle.bi_fit.specs.Building.{ImageSpecModel, configuration_by_types, type_name};
ghost use Rattle.bi_fit.specs.Building.{names_of_type as names_with_type};
ghost use Rattle.bi_fit.specs.BuiltNodes.{AreTypeLists};
ghost use Rattle.bi_fit.specs.NamedImages.{named_models, configuration_spec_model};

use crate::building::{ConfigurationSpec, NamedImage};
use crate::key::Key;
use std::alloc::{AllocError, Global};

/// The names of the images that are listed under each key by their types.
#[derive(Drop)]
pub(super) struct TypeLists<'a> {
    kernel: Vec<&'a [u8]>,
    fdt: Vec<&'a [u8]>,
    ramdisk: Vec<&'a [u8]>,
    firmware: Vec<&'a [u8]>,
    loadables: Vec<&'a [u8]>,
    script: Vec<&'a [u8]>,
}

impl<'a> TypeLists<'a> {
    /// Lists the names of images by their types. Fails if memory runs out.
    pub(super) fn new(alloc: Global, images: &[NamedImage<'a>]) -> Result<TypeLists<'a>, AllocError>
        ensures { IfOk result (AreTypeLists (named_models images.now)) }
    {
        Ok(TypeLists {
            kernel: names_of_type(alloc, images, Key::Kernel)?,
            fdt: names_of_type(alloc, images, Key::Fdt)?,
            ramdisk: names_of_type(alloc, images, Key::Ramdisk)?,
            firmware: names_of_type(alloc, images, Key::Firmware)?,
            loadables: names_of_type(alloc, images, Key::Loadables)?,
            script: names_of_type(alloc, images, Key::Script)?,
        })
    }

    /// Returns the configuration with these lists, `conf-1`.
    pub(super) fn configuration(&self) -> ConfigurationSpec<'_>
        ensures { (images : List ImageSpecModel) → AreTypeLists images self.entry.now →
            configuration_spec_model result ≡ configuration_by_types images }
    {
        ConfigurationSpec {
            name: b"conf-1",
            description: None,
            compatible: &[],
            kernel: &self.kernel,
            fdt: &self.fdt,
            ramdisk: &self.ramdisk,
            firmware: &self.firmware,
            loadables: &self.loadables,
            script: &self.script,
        }
    }
}

/// Returns the names of the images with the type of a key, in their order. Fails if memory runs
/// out.
fn names_of_type<'a>(
    alloc: Global,
    images: &[NamedImage<'a>],
    key: Key,
) -> Result<Vec<&'a [u8]>, AllocError>
    ensures { IfOk result (λ names. bytes_of names.items
        ≡ names_with_type (type_name key) (named_models images.now)) }
{
    let mut names = Vec::new(alloc);
    for image in images {
        if image.image_type == key.type_name().as_bytes() {
            names.push(image.name)?;
        }
    }
    Ok(names)
}
