//! Small files and plans, and what is made of them: legacy images that are converted, inputs with
//! their pieces, plans, trees that cannot be built, files that are compared, and normal forms. Each
//! function does nothing: what it ensures is a fact about the definitions. Some of them call the
//! function of a law, from which the fact follows.

ghost use Rattle.bi_norm.specs.KnownConversions.{ConversionsAreKnown, ConvertFaultsAreKnown};
ghost use Rattle.bi_norm.specs.KnownConversions.{TypesHaveTheirKeys};
ghost use Rattle.bi_norm.specs.KnownBounds.{TextBoundsAreKnown};
ghost use Rattle.bi_norm.specs.KnownComparisons.{ComparedFilesAreKnown, CompareErrorsAreKnown};
ghost use Rattle.bi_norm.specs.KnownPieces.{CutsAreKnown, CutFaultsAreKnown, CutErrorsAreKnown};
ghost use Rattle.bi_norm.specs.KnownNormalForms.{NormalFormsAreKnown, NormaliseErrorsAreKnown};
ghost use Rattle.bi_norm.specs.KnownNormalForms.{KeptOfNormalFormsIsKnown};
ghost use Rattle.bi_norm.specs.KnownConvertedFiles.{ConvertedFilesAreKnown, ConvertErrorsAreKnown};
ghost use Rattle.bi_norm.specs.KnownBuiltTexts.{BuiltTextIsKnown, PlanFieldsAreKnown};
ghost use Rattle.bi_norm.specs.KnownBuiltTexts.{LegacyBuildErrorsAreKnown};
ghost use Rattle.bi_norm.specs.KnownBuildFaults.{BuildFaultsAreKnown, RefusalsAreKnown};
ghost use Rattle.bi_norm.specs.KnownPlans.{BuildPlansAreKnown, PlanFaultsAreKnown};
ghost use Rattle.bi_norm.specs.KnownPlans.{PlanRefusalsAreKnown};

/// Small legacy images of each type become images of known names, types, compressions and
/// addresses.
pub fn conversions_are_known()
    ensures { ConversionsAreKnown }
{}

/// Small legacy images that cannot be converted have known faults: each check is the first that
/// fails for one of them.
pub fn convert_faults_are_known()
    ensures { ConvertFaultsAreKnown }
{}

/// Each type of a legacy image that has a name, except multi, has exactly one key, and the images
/// under this key have this type.
pub fn types_have_their_keys()
    ensures { TypesHaveTheirKeys }
{}

/// Small inputs have known pieces.
pub fn cuts_are_known()
    ensures { CutsAreKnown }
{}

/// Small inputs that cannot be cut have known faults.
pub fn cut_faults_are_known()
    ensures { CutFaultsAreKnown }
{}

/// Small trees that cannot be built have known faults: each check, except that of the text's
/// length, is the first that fails for one of them. Of two checks that fail, the first in their
/// order gives the fault.
pub fn build_faults_are_known()
    ensures { BuildFaultsAreKnown }
{}

/// Small plans have known defaults, and images of known texts. If a plan gives no default, the
/// first configuration is the default.
pub fn build_plans_are_known()
    ensures { BuildPlansAreKnown }
{}

/// Small plans that cannot be built have known faults: each check of texts, of configurations and
/// of the default is the first that fails for one of them. Of two checks that fail, the first in
/// their order gives the fault.
pub fn plan_faults_are_known()
    ensures { PlanFaultsAreKnown }
{}

/// Building never runs out of memory if there are too many images or configurations, the
/// description has a zero byte, or the first image has a type, a code or a text that is refused.
pub fn refusals_need_no_memory()
    ensures refusals { RefusalsAreKnown }
    ensures plans { PlanRefusalsAreKnown }
{}

/// A kernel image means the same as one with bytes after it, and not the same as a multi-file
/// image.
pub fn compared_files_are_known()
    ensures { ComparedFilesAreKnown }
{
    bi_legacy::laws::one_meaning();
}

/// If two files are compared and one of them means nothing, the error has its fault. If neither
/// means anything, the error has the fault of the first, and no error has that of the second.
pub fn compare_errors_are_known()
    ensures { CompareErrorsAreKnown }
{}

/// A file is refused for its normal text if that is longer than the limit, and not if it is as long
/// as that.
pub fn text_bounds_are_known()
    ensures { TextBoundsAreKnown }
{}

/// Small files of both kinds have known normal forms, and no others. A signature node is counted.
/// What the normal forms do not keep of where payloads are is known.
pub fn normal_forms_are_known()
    ensures forms { NormalFormsAreKnown }
    ensures kept { KeptOfNormalFormsIsKnown }
{
    bi_legacy::laws::one_meaning();
}

/// Normalising small files fails with known errors, and with no others: with one for a file that is
/// refused, by running out of memory for one that is accepted, and with either if the normal text
/// is longer than the limit.
pub fn normalise_errors_are_known()
    ensures { NormaliseErrorsAreKnown }
{}

/// The file of a legacy image with two parts is converted to a known text of 824 bytes, and to no
/// other. That of one without parts is not converted.
pub fn converted_files_are_known()
    ensures { ConvertedFilesAreKnown }
{
    bi_legacy::laws::one_meaning();
}

/// Converting small files fails with known errors, and with no others.
pub fn convert_errors_are_known()
    ensures { ConvertErrorsAreKnown }
{
    bi_legacy::laws::one_meaning();
}

/// Cutting small inputs fails with known errors, and with no others.
pub fn cut_errors_are_known()
    ensures { CutErrorsAreKnown }
{}

/// A kernel and a ramdisk are built as a known text of 824 bytes, and as no other.
pub fn built_text_is_known()
    ensures { BuiltTextIsKnown }
{}

/// Each field of a plan, as a call takes it, is that of what is planned.
pub fn plan_fields_are_known()
    ensures { PlanFieldsAreKnown }
{}

/// Building a small legacy image fails with a known error under a limit that is too low, and runs
/// out of memory only under a higher one.
pub fn legacy_build_errors_are_known()
    ensures { LegacyBuildErrorsAreKnown }
{}
