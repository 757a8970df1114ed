//! Small command lines of `build-fit` with what they request, which inputs commands read, and
//! what some write. Each function does nothing: what it ensures is a fact about the definitions.
//! One of them calls the function of a law, from which its facts follow.

ghost use Rattle.std.specs.Global.{Vec};
ghost use Rattle.bi_describe.specs.declared.ignored.Ignored.{Ignored};
ghost use Rattle.bootimg.specs.KnownBuildRequests.{HashOptionsAreKnown, ConfigurationsAreKnown};
ghost use Rattle.bootimg.specs.KnownBuildRequests.{NodeTextsAreKnown, FirstFailuresAreKnown};
ghost use Rattle.bootimg.specs.KnownBuildRequests.{NamedTextsAreKnown, OwnTextOptionsAreKnown};
ghost use Rattle.bootimg.specs.KnownBuildRequests.{TextsOfNamesAreKnown};
ghost use Rattle.bootimg.specs.KnownOrders.{RequestsAreKnown, RejectionsAreKnown};
ghost use Rattle.bootimg.specs.KnownInputs.{ComparedInputsAreKnown, ImagesAtAreKnown};
ghost use Rattle.bootimg.specs.KnownInputs.{ComparedOutputsAreKnown, DeepOutputsAreKnown};
ghost use Rattle.bootimg.specs.KnownInputs.{ExplanationsAreKnown};
ghost use Rattle.bootimg.specs.KnownInputs.{MessagesAreKnown};
ghost use Rattle.bootimg.specs.KnownRequests.{IgnoredOptionsAreKnown};
ghost use Rattle.bootimg.specs.KnownEditOptions.{EditFailuresAreKnown, EditOptionsAreKnown};
ghost use Rattle.bootimg.specs.KnownEditOptions.{FieldWordsAreKnown};

/// Small values of `--hash`, and its absence, give known algorithms, or none.
pub fn hash_options_are_known()
    ensures { HashOptionsAreKnown }
{}

/// Small values of `--config` and `--default` give known configurations, or are refused at a known
/// index.
pub fn configurations_are_known()
    ensures { ConfigurationsAreKnown }
{}

/// Small values of `--compatible`, `--describe-config` and `--describe-image` give known texts, or
/// are bad, and each name has known texts of them.
pub fn own_texts_are_known()
    ensures words { NamedTextsAreKnown }
    ensures options { OwnTextOptionsAreKnown }
    ensures names { TextsOfNamesAreKnown }
{}

/// Small images of `build-fit` have known texts in their nodes, or none.
pub fn node_texts_are_known()
    ensures { NodeTextsAreKnown }
{}

/// Command lines with two mistakes fail for the one that is known to come first.
pub fn first_failures_are_known()
    ensures { FirstFailuresAreKnown }
{}

/// Whole command lines have known requests.
pub fn requests_are_known()
    ensures { RequestsAreKnown }
{}

/// Command lines request nothing for known reasons, and clap has texts of known kinds for some.
pub fn rejections_are_known()
    ensures { RejectionsAreKnown }
{}

/// `compare` opens its first file before the second one, and no file over the limit is compared.
pub fn compared_inputs_are_known()
    ensures { (ignored : Vec Ignored) → ComparedInputsAreKnown ignored }
{}

/// Small values of `--ignore` give known words, or are bad.
pub fn ignored_options_are_known()
    ensures { IgnoredOptionsAreKnown }
{}

/// The outputs of `compare` for small files are known, and so are its errors.
pub fn compared_outputs_are_known()
    ensures { ComparedOutputsAreKnown }
{
    bi_legacy::laws::one_meaning();
}

/// The outputs of `compare --deep` for small files are known, and so are its errors.
pub fn deep_outputs_are_known()
    ensures { DeepOutputsAreKnown }
{
    bi_legacy::laws::one_meaning();
}

/// The images at small offsets of an input are known.
pub fn images_at_are_known()
    ensures { ImagesAtAreKnown }
{}

/// Causes have known explanations.
pub fn explanations_are_known()
    ensures { ExplanationsAreKnown }
{}

/// It is known what messages are about.
pub fn messages_are_known()
    ensures { MessagesAreKnown }
{}

/// Small words for new values of fields, small options of `update` and failures of edits are known.
pub fn edit_options_are_known()
    ensures words { FieldWordsAreKnown }
    ensures options { EditOptionsAreKnown }
    ensures failures { EditFailuresAreKnown }
{}
