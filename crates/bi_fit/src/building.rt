//! Building a flattened image tree.

ghost use Rattle.std.specs.Prelude.{OnOk, IfErr};
ghost use Rattle.bi_base.specs.Commands.{Appended, AppendFailed};
ghost use Rattle.bi_base.specs.Errors.{IsFaultOrNoMemory};
ghost use Rattle.bi_fit.specs.Building.{CanBeBuilt, IsPlanFor, built_tree, names_of_images};
ghost use Rattle.bi_fit.specs.Building.{plan_by_types};
ghost use Rattle.bi_fit.specs.Documents.{IsTextOfTree, IsTextFault};
ghost use Rattle.bi_fit.specs.NamedImages.{head_model, named_models, plan_model};

mod by_types;
mod configurations;
mod digests;
mod document;
mod hash_nodes;
mod lists;
mod names;
mod payloads;
mod properties;

use crate::building::by_types::TypeLists;
use crate::building::digests::digest_payloads;
use crate::building::document::{BuiltParts, build_doc};
pub use crate::building::hash_nodes::few_algorithms;
use crate::building::hash_nodes::hash_node_names;
use crate::building::lists::lists_of;
use crate::building::payloads::images_of;
use crate::form::Form;
use crate::payload_area::length_after_blob;
use crate::text::FitText;
use bi_base::{Error, Limits, Sink};
use bi_hash::Algo;
use std::alloc::Global;

/// What a flattened image tree to be built has in addition to its images.
#[derive(Clone, Copy, Debug, PartialEq, Eq)]
pub struct Head<'a> {
    /// The description of the tree, and of each image and each configuration that has none of its
    /// own, without a zero byte.
    pub description: &'a [u8],
    /// The time of creation, in seconds since 1970.
    pub time: u32,
}

/// An image to be built. Its type, architecture, operating system and compression are the names in
/// its node, without a zero byte.
#[derive(Clone, Copy, Debug, PartialEq, Eq)]
pub struct NamedImage<'a> {
    /// The name of the image node.
    pub name: &'a [u8],
    /// The description of the image, without a zero byte, if it has one of its own.
    pub description: Option<&'a [u8]>,
    /// The name of the image type.
    pub image_type: &'a [u8],
    /// The name of the processor architecture.
    pub arch: &'a [u8],
    /// The name of the operating system.
    pub os: &'a [u8],
    /// The name of the compression.
    pub compression: &'a [u8],
    /// The load address, if there is one.
    pub load: Option<u32>,
    /// The entry point, if there is one.
    pub entry: Option<u32>,
    /// The payload.
    pub payload: &'a [u8],
}

/// A configuration to be built: its name, its description, the boards that it is for, and the names
/// of the images that it lists under each key. The property of a key without names is left out, and
/// so is `compatible` without a board.
#[derive(Clone, Copy, Debug, PartialEq, Eq)]
pub struct ConfigurationSpec<'a> {
    /// The name of the configuration node.
    pub name: &'a [u8],
    /// The description of the configuration, without a zero byte, if it has one of its own.
    pub description: Option<&'a [u8]>,
    /// The texts of the property `compatible`, each without a zero byte, in their order.
    pub compatible: &'a [&'a [u8]],
    /// The images under `kernel`.
    pub kernel: &'a [&'a [u8]],
    /// The images under `fdt`.
    pub fdt: &'a [&'a [u8]],
    /// The images under `ramdisk`.
    pub ramdisk: &'a [&'a [u8]],
    /// The images under `firmware`.
    pub firmware: &'a [&'a [u8]],
    /// The images under `loadables`.
    pub loadables: &'a [&'a [u8]],
    /// The images under `script`.
    pub script: &'a [&'a [u8]],
}

/// The configurations of a flattened image tree to be built, and the hash nodes of its images.
#[derive(Clone, Copy, Debug, PartialEq, Eq)]
pub struct Plan<'a> {
    /// The configurations, in their order.
    pub configurations: &'a [ConfigurationSpec<'a>],
    /// The name of the default configuration.
    pub default: &'a [u8],
    /// The algorithms of the hash nodes of each image: the first is that of `hash-1`, and so on.
    pub algorithms: &'a [Algo],
}

/// Appends the text of a flattened image tree with these images to a sink. Each image has the
/// digests of its payload by the algorithms of the plan, and `/configurations` has the
/// configurations of the plan.
///
/// Requires: the tree can be built. No description has a zero byte, each image has a different name
/// that a node may have, and no name of a type, an architecture, an operating system or a
/// compression has a zero byte. Each configuration has a different name that a node may have, lists
/// only names of images, and has no text under `compatible` with a zero byte. The default is one of
/// the configurations.
///
/// Takes time linear in the length of the text and in the number of images. It also digests each
/// payload once for each algorithm.
///
/// Errors: TooLarge at `limits.file()`, if the text is longer than that, unless memory runs out;
/// OutOfMemory; those of the sink. After an error of the sink, the sink is as a failed `put` of the
/// text leaves it. After any other error, the sink is unchanged. All allocations, except those of
/// the sink, are made before the first byte is appended.
pub fn append_built<S: Sink>(
    alloc: Global,
    head: Head<'_>,
    images: &[NamedImage<'_>],
    plan: Plan<'_>,
    form: Form,
    limits: Limits,
    sink: &mut S,
) -> Result<(), Error>
    requires can { CanBeBuilt (head_model head) (named_models images.now) }
    requires is_plan { IsPlanFor (names_of_images (named_models images.now)) (plan_model plan) }
    ensures appended { let images = named_models images.entry.now in
        let tree = built_tree (head_model head.entry) (plan_model plan.entry) images in
        OnOk result (Appended S.appends (IsTextOfTree limits form tree) sink.old sink.new) }
    ensures failed { let images = named_models images.entry.now in
        let tree = built_tree (head_model head.entry) (plan_model plan.entry) images in
        IfErr result (AppendFailed S.fails (IsTextOfTree limits form tree)
        (IsFaultOrNoMemory (IsTextFault limits form tree)) sink.old sink.new) }
{
    let placed = images_of(alloc, images)?;
    let after = length_after_blob(&placed, form, limits.file())?;
    let digests = digest_payloads(alloc, images, plan.algorithms)?;
    let hash_names = hash_node_names(alloc, plan.algorithms)?;
    let lists = lists_of(alloc, plan.configurations)?;
    let parts = BuiltParts {
        head,
        images,
        plan,
        digests: &digests,
        hash_names: &hash_names,
        lists: &lists,
    };
    let document = build_doc(alloc, parts, form)?;
    let text = FitText::new(document, form, &placed, after, limits.file())?;
    text.emit(sink)
}

/// Appends the text of a flattened image tree with these images to a sink. Each image has the
/// digests of its payload by these algorithms. One configuration, `conf-1`, which is the default,
/// lists the images by their types: each under the key for its type, if there is one.
///
/// Requires: the description and the images are as `append_built` requires them.
///
/// The time and the errors are those of `append_built`.
pub fn append_built_by_types<S: Sink>(
    alloc: Global,
    head: Head<'_>,
    images: &[NamedImage<'_>],
    algorithms: &[Algo],
    form: Form,
    limits: Limits,
    sink: &mut S,
) -> Result<(), Error>
    requires can { CanBeBuilt (head_model head) (named_models images.now) }
    ensures appended { let images = named_models images.entry.now in
        let plan = plan_by_types algorithms.now images in
        let tree = built_tree (head_model head.entry) plan images in
        OnOk result (Appended S.appends (IsTextOfTree limits form tree) sink.old sink.new) }
    ensures failed { let images = named_models images.entry.now in
        let plan = plan_by_types algorithms.now images in
        let tree = built_tree (head_model head.entry) plan images in
        IfErr result (AppendFailed S.fails (IsTextOfTree limits form tree)
        (IsFaultOrNoMemory (IsTextFault limits form tree)) sink.old sink.new) }
{
    few_algorithms(algorithms);
    let lists = TypeLists::new(alloc, images)?;
    let configurations = [lists.configuration()];
    let plan = Plan {
        configurations: &configurations,
        default: configurations[0].name,
        algorithms,
    };
    append_built(alloc, head, images, plan, form, limits, sink)
}
