//! Small boot images with what is extracted of them, and parts with what is built of them. Each
//! function does nothing: what it ensures is a fact about the definitions. Some of them call the
//! function of a law, from which their facts follow.

ghost use Rattle.bi_commands.specs.KnownPayloadFiles.{FileNamesAreKnown, ImageFilesAreKnown};
ghost use Rattle.bi_commands.specs.KnownPayloadFiles.{PartFilesAreKnown, SafeNamesAreKnown};
ghost use Rattle.bi_commands.specs.KnownChoices.{ChoicesAreKnown};
ghost use Rattle.bi_commands.specs.KnownExtracts.{AllExtractsAreKnown, ErrorReasonsAreKnown};
ghost use Rattle.bi_commands.specs.KnownExtracts.{ExtractsAreKnown};
ghost use Rattle.bi_commands.specs.KnownParts.{BuiltPartsAreKnown, FilledPartsAreKnown};

/// Selections choose known bytes of small boot images, or none for a known reason: each reason is
/// the first that applies to one of them.
pub fn choices_are_known()
    ensures { ChoicesAreKnown }
{}

/// The files of parts and images have known names: those of names with a first dot, another dot, a
/// space or a percent sign, and of the name `-`.
pub fn file_names_are_known()
    ensures { FileNamesAreKnown }
{}

/// Small names are safe names of files, or they are not: an empty one, one that begins with a dot,
/// and one with a slash or a space.
pub fn safe_names_are_known()
    ensures { SafeNamesAreKnown }
{}

/// The files of the parts of a kernel image and of a multi-file image are known.
pub fn part_files_are_known()
    ensures { PartFilesAreKnown }
{}

/// The files of the images of small trees are known: an image without a payload has none. Payloads
/// that are together as long as the limit are within it.
pub fn image_files_are_known()
    ensures { ImageFilesAreKnown }
{}

/// Small parts have known contents with an input, or the input has a known fault.
pub fn filled_parts_are_known()
    ensures { FilledPartsAreKnown }
{}

/// Images get small payloads in their order, and what is built is built of these parts or images.
pub fn built_parts_are_known()
    ensures { BuiltPartsAreKnown }
{}

/// Each error of extracting has its reason.
pub fn error_reasons_are_known()
    ensures { ErrorReasonsAreKnown }
{}

/// Known bytes are extracted of small files, or extracting fails with a known error.
pub fn extracts_are_known()
    ensures { ExtractsAreKnown }
{
    bi_legacy::laws::one_meaning();
}

/// All payloads of small files are in known files.
pub fn all_extracts_are_known()
    ensures { AllExtractsAreKnown }
{
    bi_legacy::laws::one_meaning();
}
