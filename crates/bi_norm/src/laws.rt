//! Laws of boot images of both kinds. The functions do nothing: what each one ensures is the law.
//! If a law follows from a law of legacy images, its body calls the function of that law.

ghost use Rattle.bi_norm.specs.Converting.{ConvertedHasItsParts, ConvertedIsAccepted};
ghost use Rattle.bi_norm.specs.Laws.{OneKind, OneFileMeaning, OneFileFault, FileHasNoFault};
ghost use Rattle.bi_norm.specs.Laws.{FileMeaningOrFault, FileMeaningWhereNoFault};
ghost use Rattle.bi_norm.specs.Laws.{NormalTextsDiffer, TextsOfKindsDiffer, TooLongIsRefused};
ghost use Rattle.bi_norm.specs.Laws.{MeaningAlignedByFourIsExternal};

/// No file is both a legacy image and a flattened image tree.
pub fn one_kind()
    ensures { OneKind }
{}

/// A file of either kind has at most one meaning, whatever the limits.
pub fn one_meaning()
    ensures { OneFileMeaning }
{
    bi_legacy::laws::one_meaning();
}

/// A file has at most one fault under limits.
pub fn one_fault()
    ensures { OneFileFault }
{}

/// A file that means something within limits has no fault under them.
pub fn meaning_has_no_fault()
    ensures { FileHasNoFault }
{}

/// A file of bytes means something within limits, or it has a fault under them.
pub fn meaning_or_fault()
    ensures { FileMeaningOrFault }
{
    bi_legacy::laws::meaning_or_fault();
}

/// A file of bytes means something within limits if and only if it has no fault under them.
pub fn meaning_where_no_fault()
    ensures { FileMeaningWhereNoFault }
{
    bi_legacy::laws::meaning_or_fault();
}

/// A file that is longer than the limit has the fault TooLarge at the limit and means nothing. A
/// conversion of the file has the same fault. So the calls on readers, which read at most one byte
/// more than the limit, refuse a longer input as the calls on bytes do.
pub fn too_long_is_refused()
    ensures { TooLongIsRefused }
{}

/// No normal text of a legacy image is the normal text of a flattened image tree, in any form.
pub fn texts_of_kinds_differ()
    ensures { TextsOfKindsDiffer }
{}

/// If one of the normal texts of two files in a form has at most 0x7fffffff bytes, the texts are
/// the same if and only if the files mean the same. The files may be of any kinds, each within its
/// own limits.
pub fn normal_texts_differ()
    ensures { NormalTextsDiffer }
{}

/// The text of what a file means in the form Aligned, with the alignment 4, is its text in the form
/// External.
pub fn aligned_by_four_is_external()
    ensures { MeaningAlignedByFourIsExternal }
{}

/// The flattened image tree that a legacy image is converted to has the parts as its payloads, in
/// their order. Each verdict in it is Good, and its configuration lists its images.
pub fn converted_has_its_parts()
    ensures { ConvertedHasItsParts }
{}

/// The text of this tree in any form, if it is no longer than the limit on files, is accepted
/// under limits that allow four open nodes, and means the tree. The limit on files is at most
/// 0x7fffffff.
pub fn converted_is_accepted()
    ensures { ConvertedIsAccepted }
{}
