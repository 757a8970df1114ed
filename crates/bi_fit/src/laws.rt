//! Laws of flattened image trees. The functions do nothing: what each one ensures is the law.

ghost use Rattle.bi_fit.specs.Laws.{OneFitMeaning, FitBeginsWithMagic, FitHasNoFault, OneFitFault};
ghost use Rattle.bi_fit.specs.Laws.{FitMeaningOrFault, FitMeaningWhereNoFault, FileMeansImageTree};
ghost use Rattle.bi_fit.specs.Laws.{FitTextIsAccepted, NormalFitTextIsAccepted, SameTextSameTree};
ghost use Rattle.bi_fit.specs.Laws.{TextKeepsJudgement, SameTextSameJudgement};
ghost use Rattle.bi_fit.specs.Laws.{AlignedByFourIsExternal, EachExternalTextHasItsLength};
ghost use Rattle.bi_fit.specs.Laws.{PayloadsEndLater};
ghost use Rattle.bi_fit.specs.Laws.{ExternalPayloadsArePlaced, PayloadsAreAtPlaces};
ghost use Rattle.bi_fit.specs.Laws.{BuiltIsAccepted, BuiltHasGoodPayloads, ReadsNames};
ghost use Rattle.bi_fit.specs.Laws.{BuiltHasConfigurations, BuiltByTypesHasConfiguration};

/// As a flattened image tree, a file has at most one meaning.
pub fn one_meaning()
    ensures { OneFitMeaning }
{}

/// A flattened image tree begins with the magic number of a blob, 0xd00dfeed. So a file that begins
/// with another number, as a legacy image does, is not one.
pub fn begins_with_magic()
    ensures { FitBeginsWithMagic }
{}

/// A file that is a flattened image tree within limits has no fault under them.
pub fn meaning_has_no_fault()
    ensures { FitHasNoFault }
{}

/// A file has at most one fault under limits.
pub fn one_fault()
    ensures { OneFitFault }
{}

/// A file of bytes is a flattened image tree within limits, or it has a fault under them.
pub fn meaning_or_fault()
    ensures { FitMeaningOrFault }
{}

/// A file of bytes is a flattened image tree within limits if and only if it has no fault under
/// them.
pub fn meaning_where_no_fault()
    ensures { FitMeaningWhereNoFault }
{}

/// The payload of each image node is in the file at its place: the value of `data` at the offset
/// after the three cells of its token, and a region of the file at the offset that its properties
/// name.
pub fn payloads_are_at_places()
    ensures { PayloadsAreAtPlaces }
{}

/// What a file means as a flattened image tree can be laid out as a text: numbers, names and
/// values are in their ranges, and each image node has one payload or none, apart from its
/// properties.
pub fn file_means_image_tree()
    ensures { FileMeansImageTree }
{}

/// The text of an image tree in any form, if it is no longer than the limit on files, is
/// accepted under limits of at least the depth of the tree, and means the tree. The limit on files
/// is at most 0x7fffffff.
pub fn text_is_accepted()
    ensures { FitTextIsAccepted }
{}

/// The normal text of a file in any form, if it is no longer than the limit on files, is
/// accepted under the limits under which the file is, and means what the file means.
pub fn normal_text_is_accepted()
    ensures { NormalFitTextIsAccepted }
{}

/// If one of two texts in the same form has at most 0x7fffffff bytes, the texts are the same if and
/// only if they are of the same image tree: the same boot processor, memory reservations, nodes in
/// order, properties by name and payloads.
pub fn same_text_same_tree()
    ensures { SameTextSameTree }
{}

/// The normal text of a file in any form, if it has at most 0x7fffffff bytes, has the verdicts,
/// configurations, default and signatures of the file.
pub fn text_keeps_judgement()
    ensures { TextKeepsJudgement }
{}

/// Two files with the same normal text in a form, of at most 0x7fffffff bytes, have the same
/// verdicts, configurations, default and signatures.
pub fn same_text_same_judgement()
    ensures { SameTextSameJudgement }
{}

/// The text in the form Aligned with the alignment 4 is the text in the form External.
pub fn aligned_by_four_is_external()
    ensures { AlignedByFourIsExternal }
{}

/// An external text is as long as its blob and, after it, its payloads: the length depends only on
/// the length of the blob and the sizes of the payloads. The length of the blob is a multiple of
/// the alignment, which is 4 in the form External.
pub fn each_external_text_has_its_length()
    ensures { EachExternalTextHasItsLength }
{}

/// Payloads that follow a blob end no earlier than the first few of them. So a text is too long as
/// soon as its blob and the first few payloads are.
pub fn payloads_end_later()
    ensures { PayloadsEndLater }
{}

/// Each payload of an external text is at the offset that the layout gives it: the first multiple
/// of the alignment, counted from the end of the blob, at or after the end of the previous payload.
/// The offset in the text is a multiple of the alignment too. The text has at most
/// 0x7fffffff bytes.
pub fn external_payloads_are_placed()
    ensures { ExternalPayloadsArePlaced }
{}

/// The text of a built tree in any form, if it is no longer than the limit on files, is
/// accepted under limits that allow four open nodes, and means the tree that was to be built. The
/// limit on files is at most 0x7fffffff.
pub fn built_is_accepted()
    ensures { BuiltIsAccepted }
{}

/// The payloads of a built tree are those of its images in their order. Each image has one hash
/// node for each entry of the plan's algorithms, in their order. It has the digest of the payload,
/// and the verdict on it is Good.
pub fn built_has_good_payloads()
    ensures { BuiltHasGoodPayloads }
{}

/// The value of a key lists names, each followed by a zero: names without zeros are listed as they
/// are, and a value whose last byte is a zero has only names.
pub fn reads_names()
    ensures names { ReadsNames }
{}

/// A built tree has the configurations of the plan in their order. Each of them lists, under each
/// key, the images with the names that the plan has there, in their order. The default is that of
/// the plan.
pub fn built_has_configurations()
    ensures { BuiltHasConfigurations }
{}

/// The configuration of a tree that is built by types lists, under each key, the images with the
/// type of that key in their order. It is the default.
pub fn built_by_types_has_configuration()
    ensures { BuiltByTypesHasConfiguration }
{}
