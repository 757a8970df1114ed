//! The lists of images in configuration nodes.

ghost use Rattle.std.specs.Prelude.{◌≡◌, [], map, IfOk, IfErr, MatchOption};
ghost use Rattle.bi_fdt.specs.Views.{node_of};
ghost use Rattle.bi_fit.specs.Judgement.{listed_names, ListedImages, BeginsWithName};
ghost use Rattle.bi_fit.specs.JudgementCalls.{listed_image, IsListError};
ghost use Rattle.bi_fit.specs.HashNodes.{file_list, file_listed};

use crate::configurations::{ConfigError, Named};
use crate::fit::Fit;
use crate::key::Key;
use bi_base::text_before_nul;
use bi_fdt::NodeRef;
use std::alloc::Global;

/// Returns the images that a configuration node lists under a key, in their order.
pub(crate) fn list_images<'a>(
    alloc: Global,
    fit: &Fit<'a>,
    node: NodeRef<'a, '_>,
    key: Key,
) -> Result<Vec<Named<'a>>, ConfigError>
    ensures listed { IfOk result (λ listed. file_listed fit.now.images (node_of node.entry) key
        ≡ ListedImages (map listed_image listed.items)) }
    ensures failed { IfErr result (IsListError
        (file_listed fit.now.images (node_of node.entry) key)) }
{
    let Some(value) = node.property(key.name().as_bytes()) else {
        return Err(ConfigError::NoKey);
    };
    if !value.ends_with(b"\0") {
        return Err(ConfigError::BadList);
    }
    find_images(alloc, fit, value)
}

/// Returns the images with the names that a value lists, in their order.
fn find_images<'a>(
    alloc: Global,
    fit: &Fit<'a>,
    value: &'a [u8],
) -> Result<Vec<Named<'a>>, ConfigError>
    ensures listed { IfOk result
        (λ listed. file_list fit.now.images 0 (listed_names value.entry.now)
        ≡ ListedImages (map listed_image listed.items)) }
    ensures failed { IfErr result (IsListError
        (file_list fit.now.images 0 (listed_names value.entry.now))) }
{
    let mut listed = Vec::new(alloc);
    let mut rest = value;
    while let Some((name, later)) = split_name(rest) {
        let Some(index) = fit.image(name) else {
            return Err(ConfigError::Missing(listed.len()));
        };
        let payload = fit.payload(index);
        listed.push(Named { name, payload })?;
        rest = later;
    }
    Ok(listed)
}

/// Returns the first name that the value of a key lists, and the bytes after the zero that ends the
/// name. They list the later names, and are fewer than those of the value. Returns None if the
/// value has no zero: it then lists no name.
pub fn split_name(value: &[u8]) -> Option<(&[u8], &[u8])>
    ensures { MatchOption result
        (listed_names value.now ≡ [])
        (λ split. BeginsWithName value.now split.0.now split.1.now) }
{
    let name = text_before_nul(value)?;
    Some((name, &value[name.len() + 1..]))
}
