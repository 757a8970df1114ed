//! The laws of legacy images. The functions do nothing: what each one ensures is the law.

ghost use Rattle.bi_legacy.specs.Laws.{OneLegacyMeaning, NoMeaningWithoutMagic};
ghost use Rattle.bi_legacy.specs.Laws.{TextBeginsWithMagic};
ghost use Rattle.bi_legacy.specs.Laws.{MeaningWithoutFault, LegacyMeaningOrFault};
ghost use Rattle.bi_legacy.specs.Laws.{NoMeaningWithFault};
ghost use Rattle.bi_legacy.specs.Laws.{OneLegacyFault, ImagesOfFiles, TextMeansImage};
ghost use Rattle.bi_legacy.specs.Laws.{TextIsNoLonger};
ghost use Rattle.bi_legacy.specs.Laws.{TextIsItsOwnNormalForm, TextsDiffer, MeaningCanBeWritten};
ghost use Rattle.bi_legacy.specs.Laws.{WrittenTextMeansImage, UpdatedHasNormalForm};
ghost use Rattle.bi_legacy.specs.Laws.{UpdatedHasNewTime};
ghost use Rattle.bi_legacy.specs.KnownImages.{HasKernelText, HasMultiText, HasFirmwareText};

/// A file means at most one image.
pub fn one_meaning()
    ensures { OneLegacyMeaning }
{}

/// A file that is shorter than four bytes, or does not begin with the magic number, means no image
/// within any limits.
pub fn no_meaning_without_magic()
    ensures { NoMeaningWithoutMagic }
{}

/// A normal text begins with the magic number.
pub fn text_begins_with_magic()
    ensures { TextBeginsWithMagic }
{}

/// A file means an image within the limits if and only if no check fails.
pub fn meaning_without_fault()
    ensures { MeaningWithoutFault }
{}

/// Each file means an image within the limits or has a fault.
pub fn meaning_or_fault()
    ensures { LegacyMeaningOrFault }
{}

/// A file with a fault means no image within the limits.
pub fn no_meaning_with_fault()
    ensures { NoMeaningWithFault }
{}

/// A file has at most one fault.
pub fn one_fault()
    ensures { OneLegacyFault }
{}

/// An image fits the format if and only if some file means it.
pub fn images_of_files()
    ensures { ImagesOfFiles }
{}

/// The normal text of an image that a file means within the limits means it within the same limits.
pub fn text_means_image()
    ensures { TextMeansImage }
{}

/// The normal text of the image that a file means is no longer than the file.
pub fn text_no_longer()
    ensures { TextIsNoLonger }
{}

/// A normal text is its own normal text.
pub fn text_is_its_own_normal_form()
    ensures { TextIsItsOwnNormalForm }
{}

/// Two files have the same normal text if and only if they mean the same image.
pub fn texts_differ()
    ensures { TextsDiffer }
{}

/// An image that a file means within the limits, with another time, can be written within them, and
/// its normal text means it.
pub fn updated_has_normal_form()
    ensures { UpdatedHasNormalForm }
{}

/// An image with a new time has this time, and is otherwise as it was.
pub fn updated_has_new_time()
    ensures { UpdatedHasNewTime }
{}

/// An image that a file means within the limits can be written within them.
pub fn meaning_can_be_written()
    ensures { MeaningCanBeWritten }
{}

/// The normal text of an image that can be written within the limits means this image within them.
pub fn written_text_means_image()
    ensures { WrittenTextMeansImage }
{}

/// The normal text of a kernel image is the file that `mkimage` writes for it.
pub fn kernel_text()
    ensures { HasKernelText }
{}

/// The normal text of a multi-file image is the file that `mkimage` writes for it.
pub fn multi_text()
    ensures { HasMultiText }
{}

/// The normal text of a firmware image is the file that `mkimage` writes for it.
pub fn firmware_text()
    ensures { HasFirmwareText }
{}
