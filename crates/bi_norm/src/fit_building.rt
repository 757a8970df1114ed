//! Building a flattened image tree from images with the codes of a legacy header or with texts, and
//! from a plan of its configurations and hash nodes.

ghost use Rattle.std.specs.Prelude.{◌≡◌, OnOk, IfOk, IfErr};
ghost use Rattle.bi_base.specs.Commands.{Appended, AppendFailed};
ghost use Rattle.bi_fit.specs.declared.form.Form.TheVariants.{Aligned};
ghost use Rattle.bi_base.specs.Errors.{IsFaultOrNoMemory};
ghost use Rattle.bi_fit.specs.Building.{CanBeBuilt, IsPlanFor, built_tree, names_of_images};
ghost use Rattle.bi_fit.specs.Documents.{IsTextOfTree, IsTextFault};
ghost use Rattle.bi_fit.specs.NamedImages.{head_model, named_models};
ghost use Rattle.bi_norm.specs.FitBuilding.{IsBuilt, IsBuildError, IsBuiltAs, IsBuildErrorAs};
ghost use Rattle.bi_norm.specs.FitBuilding.{plan_spec_model, plain_plan, plan_for};

mod checks;
mod configurations;
mod images;
mod texts;

use bi_base::{Align, Error, Limits, Sink, VecSink};
use bi_fit::{
    ConfigurationSpec, Form, Head, NamedImage, Plan, append_built, append_built_by_types,
};
use bi_hash::Algo;
use checks::check;
pub use configurations::lists_only;
use std::alloc::Global;

/// An image to be built. Its codes are those of a legacy header (U-Boot, include/image.h).
#[derive(Clone, Copy, Debug, PartialEq, Eq)]
pub struct ImageSpec<'a> {
    /// The name of the image node.
    pub name: &'a [u8],
    /// The code of the image type.
    pub image_type: u8,
    /// The code of the processor architecture.
    pub arch: u8,
    /// The code of the operating system.
    pub os: u8,
    /// The code of the compression.
    pub compression: u8,
    /// The load address, if there is one.
    pub load: Option<u32>,
    /// The entry point, if there is one.
    pub entry: Option<u32>,
    /// The payload.
    pub payload: &'a [u8],
}

/// The texts in an image node that say what kind of image it is.
#[derive(Clone, Copy, Debug, PartialEq, Eq)]
pub struct ImageTexts<'a> {
    /// The image type.
    pub image_type: &'a [u8],
    /// The processor architecture.
    pub arch: &'a [u8],
    /// The operating system.
    pub os: &'a [u8],
    /// The compression.
    pub compression: &'a [u8],
}

/// The configurations and the hash nodes of a flattened image tree to be built, and texts instead
/// of the codes of images.
#[derive(Clone, Copy, Debug, PartialEq, Eq)]
pub struct PlanSpec<'a> {
    /// The configurations, in their order. If there are none, one configuration, `conf-1`, lists
    /// the images by their types.
    pub configurations: &'a [ConfigurationSpec<'a>],
    /// The name of the default configuration. If none is given, the first configuration is the
    /// default.
    pub default: Option<&'a [u8]>,
    /// The algorithms of the hash nodes of each image: the first is that of `hash-1`, and so on.
    pub algorithms: &'a [Algo],
    /// For each image, in the order of the images: texts for its node instead of the names of its
    /// codes, if there are any. Images without an element have the names of their codes. Elements
    /// without an image are ignored.
    pub texts: &'a [Option<ImageTexts<'a>>],
    /// For each image, in the order of the images: its description instead of that of the tree, if
    /// it has one of its own. Images without an element have none. Elements without an image are
    /// ignored.
    pub descriptions: &'a [Option<&'a [u8]>],
}

impl<'a> PlanSpec<'a> {
    /// Returns the plan of `build_fit`: no configuration, no default, no texts and no descriptions,
    /// and SHA-256 as the only algorithm.
    pub fn new() -> PlanSpec<'a>
        ensures { plan_spec_model result ≡ plain_plan }
    {
        PlanSpec {
            configurations: &[],
            default: None,
            algorithms: &[Algo::Sha256],
            texts: &[],
            descriptions: &[],
        }
    }
}

/// Returns a flattened image tree with these images, each with the SHA-256 of its payload, and one
/// configuration, `conf-1`, that lists them by their types.
///
/// Fails with the first of these errors that applies:
///
/// - TooLarge at the limit, if there are more images than that;
/// - BadField at 0, if the description has a zero byte;
/// - for each image in order, at its index, counted from 0: BadField, if its name is empty or has a
///   zero byte or a `/`, or its type is multi; NoCodeName, if one of its codes has no name;
///   DuplicateNode, if an earlier image has its name;
/// - TooLarge at the limit, if the text is longer.
///
/// OutOfMemory occurs only if the number of images, the description, and the name, type and codes
/// of the first image are accepted, and then instead of any other error.
pub fn build_fit(
    alloc: Global,
    head: Head<'_>,
    images: &[ImageSpec<'_>],
    form: Form,
    limits: Limits,
) -> Result<Vec<u8>, Error>
    ensures built { IfOk result (λ text. IsBuilt limits form head.entry images.now text.items) }
    ensures failed { IfErr result (IsBuildError limits form head.entry images.now) }
{
    build_fit_as(alloc, head, images, PlanSpec::new(), form, limits)
}

/// Returns the flattened image tree that `build_fit` returns in the form External, but with this
/// alignment instead of four: the length of the blob is a multiple of it, and each payload, even an
/// empty one, begins at a multiple of it in the text. With the alignment 4 it is the text in the
/// form External.
///
/// The errors are those of `build_fit`, for this text.
pub fn build_fit_aligned(
    alloc: Global,
    head: Head<'_>,
    images: &[ImageSpec<'_>],
    align: Align,
    limits: Limits,
) -> Result<Vec<u8>, Error>
    ensures built { IfOk result (λ text.
        IsBuilt limits (Aligned align) head.entry images.now text.items) }
    ensures failed { IfErr result
        (IsBuildError limits (Aligned align) head.entry images.now) }
{
    build_fit(alloc, head, images, Form::Aligned(align), limits)
}

/// Appends the flattened image tree that `build_fit` returns to a sink.
///
/// The errors are those of `build_fit`, and those of the sink. After an error of the sink, the sink
/// is as a failed `put` of the text leaves it. After any other error, the sink is unchanged. All
/// allocations, except those of the sink, are made before the first byte is appended.
pub fn build_fit_into<S: Sink>(
    alloc: Global,
    head: Head<'_>,
    images: &[ImageSpec<'_>],
    form: Form,
    limits: Limits,
    sink: &mut S,
) -> Result<(), Error>
    ensures appended { OnOk result (Appended S.appends (IsBuilt limits form head.entry images.now)
        sink.old sink.new) }
    ensures failed { IfErr result (AppendFailed S.fails
        (IsBuilt limits form head.entry images.now)
        (IsBuildError limits form head.entry images.now) sink.old sink.new) }
{
    build_fit_as_into(alloc, head, images, PlanSpec::new(), form, limits, sink)
}

/// Returns a flattened image tree with these images and the configurations and hash nodes of a
/// plan.
///
/// Each configuration has its description, its texts under `compatible`, if there are any, and for
/// each key with at least one name, these names in their order. An image or a configuration without
/// a description of its own has that of the tree. Each image has a hash node for each algorithm, in
/// their order, even if an algorithm occurs twice: `hash-1`, `hash-2`, and so on.
///
/// Fails with the first of these errors that applies:
///
/// - TooLarge at the limit, if there are more images, or more configurations, than that;
/// - BadField at 0, if the description has a zero byte;
/// - for each image in order, at its index, counted from 0: BadField, if its name is empty or has a
///   zero byte or a `/`, or one of its texts has a zero byte, or it has no texts and its type is
///   multi; NoCodeName, if it has no texts and one of its codes has no name; DuplicateNode, if an
///   earlier image has its name;
/// - for each configuration in order, at its index, counted from 0: BadField, if its name is empty
///   or has a zero byte or a `/`, or it lists a name that no image has; DuplicateNode, if an
///   earlier configuration has its name;
/// - BadField at the number of configurations, if there is a default and no configuration has this
///   name;
/// - for each image in order, BadField at its index, if its own description has a zero byte;
/// - for each configuration in order, BadField at its index, if its own description, or one of its
///   texts under `compatible`, has a zero byte;
/// - TooLarge at the limit, if the text is longer.
///
/// OutOfMemory occurs only if the numbers of images and configurations, the description, and the
/// name, type and codes, or texts, of the first image are accepted, and then instead of any other
/// error.
///
/// Takes n log n time for n images, configurations and names that they list. Laying out takes time
/// linear in the length of the text, even if it is longer than the limit, and each algorithm reads
/// each payload once.
pub fn build_fit_as(
    alloc: Global,
    head: Head<'_>,
    images: &[ImageSpec<'_>],
    plan: PlanSpec<'_>,
    form: Form,
    limits: Limits,
) -> Result<Vec<u8>, Error>
    ensures built { IfOk result (λ text.
        IsBuiltAs limits form head.entry (plan_spec_model plan.entry) images.now text.items) }
    ensures failed { IfErr result
        (IsBuildErrorAs limits form head.entry (plan_spec_model plan.entry) images.now) }
{
    let mut sink = VecSink::new(alloc);
    build_fit_as_into(alloc, head, images, plan, form, limits, &mut sink)?;
    Ok(sink.into_vec())
}

/// Appends the flattened image tree that `build_fit_as` returns to a sink.
///
/// The errors are those of `build_fit_as`, and those of the sink. After an error of the sink, the
/// sink is as a failed `put` of the text leaves it. After any other error, the sink is unchanged.
/// All allocations, except those of the sink, are made before the first byte is appended.
pub fn build_fit_as_into<S: Sink>(
    alloc: Global,
    head: Head<'_>,
    images: &[ImageSpec<'_>],
    plan: PlanSpec<'_>,
    form: Form,
    limits: Limits,
    sink: &mut S,
) -> Result<(), Error>
    ensures appended { let plan = plan_spec_model plan.entry in
        OnOk result (Appended S.appends (IsBuiltAs limits form head.entry plan images.now)
        sink.old sink.new) }
    ensures failed { let plan = plan_spec_model plan.entry in
        IfErr result (AppendFailed S.fails
        (IsBuiltAs limits form head.entry plan images.now)
        (IsBuildErrorAs limits form head.entry plan images.now) sink.old sink.new) }
{
    let named = check(alloc, head, images, plan, limits)?;
    append_planned(alloc, head, &named, plan, form, limits, sink)
}

/// Appends the text of the tree of images with a plan.
///
/// Requires: the images and the plan passed their checks.
///
/// The errors are those of `append_built`.
fn append_planned<S: Sink>(
    alloc: Global,
    head: Head<'_>,
    images: &[NamedImage<'_>],
    plan: PlanSpec<'_>,
    form: Form,
    limits: Limits,
    sink: &mut S,
) -> Result<(), Error>
    requires can { CanBeBuilt (head_model head) (named_models images.now) }
    requires is_plan { let images = named_models images.now in
        IsPlanFor (names_of_images images) (plan_for (plan_spec_model plan) images) }
    ensures appended { let images = named_models images.entry.now in
        let plan = plan_for (plan_spec_model plan.entry) images in
        let tree = built_tree (head_model head.entry) plan images in
        OnOk result (Appended S.appends (IsTextOfTree limits form tree) sink.old sink.new) }
    ensures failed { let images = named_models images.entry.now in
        let plan = plan_for (plan_spec_model plan.entry) images in
        let tree = built_tree (head_model head.entry) plan images in
        IfErr result (AppendFailed S.fails (IsTextOfTree limits form tree)
        (IsFaultOrNoMemory (IsTextFault limits form tree)) sink.old sink.new) }
{
    let Some(first) = plan.configurations.first() else {
        return append_built_by_types(alloc, head, images, plan.algorithms, form, limits, sink);
    };
    let whole = Plan {
        configurations: plan.configurations,
        default: plan.default.unwrap_or(first.name),
        algorithms: plan.algorithms,
    };
    append_built(alloc, head, images, whole, form, limits, sink)
}
