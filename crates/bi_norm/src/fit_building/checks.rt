//! The checks of what is to be built, except that of the text's length.

ghost use Rattle.std.specs.Prelude.{◌≡◌, OnOk, IfOk, IfErr};
ghost use Rattle.bi_base.specs.declared.fault.Cause.TheVariants.{BadField};
ghost use Rattle.bi_base.specs.Checks.{HasNoFault};
ghost use Rattle.bi_blob.specs.Tree.{HasNoZero};
ghost use Rattle.bi_fit.specs.declared.form.Form.{Form};
ghost use Rattle.bi_fit.specs.Building.{CanBeBuilt, IsPlanFor, IsText, names_of_images};
ghost use Rattle.bi_fit.specs.NamedImages.{head_model, named_models};
ghost use Rattle.bi_norm.specs.FitBuilding.{plan_spec_model, spec_models, plan_of_tree};
ghost use Rattle.bi_norm.specs.FitBuilding.{BuildPasses, early_checks, IsBuildErrorAs};

use crate::fit_building::configurations::{check_configurations, check_default};
use crate::fit_building::images::check_images;
use crate::fit_building::texts::{check_configuration_texts, check_image_texts};
use crate::fit_building::{ImageSpec, PlanSpec};
use bi_base::{Cause, Error, Fault, Limits, refuse};
use bi_fit::{Head, NamedImage, few_algorithms};
use std::alloc::Global;

/// Makes all checks of what is to be built, except the last: that the text is within the limit.
/// Returns the images with the texts of their nodes.
///
/// Errors: those of `build_fit_as`, except TooLarge for the length of the text.
///
/// Takes n log n time for n images, configurations and names that they list.
pub(super) fn check<'a>(
    alloc: Global,
    head: Head<'_>,
    images: &[ImageSpec<'a>],
    plan: PlanSpec<'a>,
    limits: Limits,
) -> Result<Vec<NamedImage<'a>>, Error>
    ensures passed { (form : Form) → let plan = plan_spec_model plan.entry in
        OnOk result (HasNoFault (BuildPasses limits form head.entry plan images.now)
        (early_checks plan images.now)) }
    ensures can { let plan = plan_spec_model plan.entry in
        OnOk result (CanBeBuilt (head_model head.entry) (spec_models plan images.now)) }
    ensures is_plan { let plan = plan_spec_model plan.entry in
        OnOk result (IsPlanFor (names_of_images (spec_models plan images.now))
        (plan_of_tree plan images.now)) }
    ensures named { let plan = plan_spec_model plan.entry in
        IfOk result (λ named. named_models named.items ≡ spec_models plan images.now) }
    ensures failed { (form : Form) → let plan = plan_spec_model plan.entry in
        IfErr result (IsBuildErrorAs limits form head.entry plan images.now) }
{
    let limit = limits.file() as usize;
    if images.len() > limit || plan.configurations.len() > limit {
        return refuse(Cause::TooLarge, limits.file()).map_err(Error::from);
    }
    check_description(head.description)?;
    let checked = check_images(alloc, images, plan.texts, plan.descriptions)?;
    check_configurations(alloc, plan.configurations, &checked.names)?;
    check_default(plan.configurations, plan.default)?;
    check_image_texts(&checked.named)?;
    check_configuration_texts(plan.configurations)?;
    few_algorithms(plan.algorithms);
    Ok(checked.named)
}

/// Fails with BadField at 0, if a description has a zero byte.
fn check_description(description: &[u8]) -> Result<(), Fault>
    ensures ok { OnOk result (IsText description.now) }
    ensures fault { IfErr result (λ fault. ¬ (HasNoZero description.now)
        × (fault ≡ record { cause = BadField; offset = 0 })) }
{
    if description.contains(&0) {
        return refuse(Cause::BadField, 0);
    }
    Ok(())
}
