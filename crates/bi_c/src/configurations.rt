//! The configurations of a flattened image tree, and the images that they list.

ghost use Rattle.std.specs.Prelude.{◌≡◌, length, map, unwrap_or};
ghost use Rattle.std.specs.Option.{option_map};
ghost use Rattle.bi_blob.specs.Lookups.{node_named};
ghost use Rattle.bi_fdt.specs.Content.{root_of};
ghost use Rattle.bi_fdt.specs.Views.{node_of};
ghost use Rattle.bi_fit.specs.Content.{index_of, tree_of};
ghost use Rattle.bi_fit.specs.JudgementCalls.{listed_image};
ghost use Rattle.bi_fit.specs.Names.{configurations_name};
ghost use Rattle.bi_fit.specs.Reading.{IsFitReadError};
ghost use Rattle.bi_c.specs.Answers.{FillsBuffer, IsThisOutput};
ghost use Rattle.bi_c.specs.Calls.{IsFailureOfOne};
ghost use Rattle.bi_c.specs.FitElements.{AreConfigurationRegions, AreImageIndices, IsListFailure};
ghost use Rattle.bi_c.specs.FitElements.{AreReadIndices, IsListRefusal};
ghost use Rattle.bi_c.specs.FitElements.{default_index_of, index_among};

use crate::answer::{Answer, DONE, NO_ROOM, answer_with, fail};
use crate::argument::{Argument, wrong_limit};
use crate::arguments::{key_of, limits_of};
use crate::failure::{Failure, failure_of, failure_of_list};
use crate::nodes::fill_children;
use crate::region::Region;
use bi_fdt::NodeRef;
use bi_fit::{Fit, Key, Named};
use std::alloc::Global;

/// Writes where the name of each configuration of a flattened image tree is to the beginning of an
/// array, and sets `answer.value` to the index of the default one, or, if there is none, to the
/// number of configurations. Returns the status.
#[unsafe(no_mangle)]
pub extern "C" fn bootimg_configurations(
    alloc: Global,
    file: &[u8],
    limit: u32,
    depth: u32,
    names: &mut [Region],
    answer: &mut Answer,
) -> u32
    ensures { FillsBuffer (AreConfigurationRegions limit depth file.now)
        (IsFailureOfOne limit depth (λ limits. IsFitReadError limits file.now))
        names.old names.new answer.new result }
{
    let Some(limits) = limits_of(limit, depth) else {
        return fail(Failure::WrongArgument(wrong_limit(limit), 0), answer);
    };
    match Fit::read(alloc, file, limits) {
        Ok(fit) => fill_children(
            configurations_node(&fit),
            default_index(&fit),
            names,
            answer,
        ),
        Err(error) => fail(failure_of(error), answer),
    }
}

/// Returns the node that has the configurations, if there is one.
fn configurations_node<'a, 'b>(fit: &'b Fit<'a>) -> Option<NodeRef<'a, 'b>>
    ensures { option_map node_of result
        ≡ node_named (root_of fit.entry.now.blob).children configurations_name }
{
    fit.blob().root().child(b"configurations")
}

/// Returns the index of the default configuration, or, if there is none, the number of
/// configurations.
fn default_index(fit: &Fit<'_>) -> usize
    ensures { result ≡ default_index_of (tree_of fit.now) }
{
    let count = fit.config_count();
    let Some(default) = fit.default_config() else {
        return count;
    };
    let mut index = 0;
    for configuration in fit.configurations() {
        if configuration.name() == default {
            return index;
        }
        index += 1;
    }
    count
}

/// Writes the indices of the images that the configuration with the given name in a flattened image
/// tree lists under the key with the number `key`, in the order of the list, to the beginning of an
/// array. Returns the status.
#[unsafe(no_mangle)]
pub extern "C" fn bootimg_listed(
    alloc: Global,
    file: &[u8],
    name: &[u8],
    key: u32,
    limit: u32,
    depth: u32,
    images: &mut [usize],
    answer: &mut Answer,
) -> u32
    ensures { FillsBuffer (AreImageIndices limit depth key file.now name.now)
        (IsListFailure limit depth key file.now name.now)
        images.old images.new answer.new result }
{
    let Some(limits) = limits_of(limit, depth) else {
        return fail(Failure::WrongArgument(wrong_limit(limit), 0), answer);
    };
    let Some(listed) = key_of(key) else {
        return fail(Failure::WrongArgument(Argument::Key, 0), answer);
    };
    match Fit::read(alloc, file, limits) {
        Ok(fit) => list_images(alloc, &fit, name, listed, images, answer),
        Err(error) => fail(failure_of(error), answer),
    }
}

/// Writes the indices of the images that a configuration of a flattened image tree that was read
/// lists under a key to an array, and the answer. Returns the status.
fn list_images(
    alloc: Global,
    fit: &Fit<'_>,
    name: &[u8],
    key: Key,
    indices: &mut [usize],
    answer: &mut Answer,
) -> u32
    ensures { FillsBuffer (AreReadIndices fit.now name.now key) (IsListRefusal fit.now name.now key)
        indices.old indices.new answer.new result }
{
    match fit.config_payloads(alloc, name, key) {
        Ok(listed) => fill_indices(fit, &listed, indices, answer),
        Err(error) => fail(failure_of_list(error), answer),
    }
}

/// Writes the index of the image with each of these names to an array, and the answer. Returns the
/// status.
fn fill_indices(
    fit: &Fit<'_>,
    listed: &[Named<'_>],
    indices: &mut [usize],
    answer: &mut Answer,
) -> u32
    ensures { FillsBuffer (IsThisOutput (map (index_among fit.now) (map listed_image listed.now)) 0)
        (λ failure. ⊥) indices.old indices.new answer.new result }
{
    *answer = answer_with(listed.len(), 0);
    if indices.len() < listed.len() {
        return NO_ROOM;
    }
    for (index, named) in listed.iter().enumerate() {
        indices[index] = image_index(fit, named.name);
    }
    DONE
}

/// Returns the index of the image with the given name, or, if there is none, the number of images.
fn image_index(fit: &Fit<'_>, name: &[u8]) -> usize
    ensures { result ≡ unwrap_or (index_of name.now fit.now.images) (length fit.now.images) }
{
    fit.image(name).unwrap_or(fit.image_count())
}
