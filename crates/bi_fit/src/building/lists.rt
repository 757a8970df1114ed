//! The values of the properties of configurations to be built that list texts.

ghost use Rattle.std.specs.Prelude.{◌≡◌, IfOk};
ghost use Rattle.std.specs.List.{AllZip};
ghost use Rattle.bi_base.specs.Slices.{bytes_of};
ghost use Rattle.bi_blob.specs.Layout.{strings_of};
ghost use Rattle.bi_fit.specs.BuiltNodes.{AreListValues};
ghost use Rattle.bi_fit.specs.NamedImages.{configuration_spec_model, configuration_spec_models};

use crate::building::ConfigurationSpec;
use std::alloc::{AllocError, Global};

/// The texts of a configuration to be built under `compatible`, and the names of the images that it
/// lists under each key, each followed by a zero.
#[derive(Drop)]
pub(super) struct ListValues {
    pub(super) compatible: Vec<u8>,
    pub(super) kernel: Vec<u8>,
    pub(super) fdt: Vec<u8>,
    pub(super) ramdisk: Vec<u8>,
    pub(super) firmware: Vec<u8>,
    pub(super) loadables: Vec<u8>,
    pub(super) script: Vec<u8>,
}

impl ListValues {
    /// Returns the values of a configuration. Fails if memory runs out.
    fn new(alloc: Global, configuration: &ConfigurationSpec<'_>) -> Result<ListValues, AllocError>
        ensures { IfOk result (AreListValues (configuration_spec_model configuration.now)) }
    {
        Ok(ListValues {
            compatible: join_texts(alloc, configuration.compatible)?,
            kernel: join_texts(alloc, configuration.kernel)?,
            fdt: join_texts(alloc, configuration.fdt)?,
            ramdisk: join_texts(alloc, configuration.ramdisk)?,
            firmware: join_texts(alloc, configuration.firmware)?,
            loadables: join_texts(alloc, configuration.loadables)?,
            script: join_texts(alloc, configuration.script)?,
        })
    }
}

/// Returns the values of each configuration, in their order. Fails if memory runs out.
pub(super) fn lists_of(
    alloc: Global,
    configurations: &[ConfigurationSpec<'_>],
) -> Result<Vec<ListValues>, AllocError>
    ensures { IfOk result (λ lists.
        AllZip AreListValues (configuration_spec_models configurations.now) lists.items) }
{
    let mut lists = Vec::with_capacity(alloc, configurations.len())?;
    for configuration in configurations {
        lists.push(ListValues::new(alloc, configuration)?)?;
    }
    Ok(lists)
}

/// Returns these texts, each followed by a zero. Fails if memory runs out.
fn join_texts(alloc: Global, texts: &[&[u8]]) -> Result<Vec<u8>, AllocError>
    ensures { IfOk result (λ list. list.items ≡ strings_of (bytes_of texts.now)) }
{
    let mut list = Vec::new(alloc);
    for text in texts {
        list.extend_from_slice(text)?;
        list.push(0)?;
    }
    Ok(list)
}
