//! Laws of what is got, updated, extracted and built. Their functions do nothing: what each of them
//! ensures is the law.

ghost use Rattle.bi_commands.specs.DescribedValues.{ShownValuesAreDescribed};
ghost use Rattle.bi_commands.specs.ExtractingAll.{EachPayloadHasItsFile, FileNamesAreSafe};
ghost use Rattle.bi_commands.specs.Parts.{LengthsAreCut};
ghost use Rattle.bi_commands.specs.UpdatedFileLaws.{NoChangeNormalises};

/// An update without changes writes the normal form.
pub fn no_change_normalises()
    ensures { NoChangeNormalises }
{}

/// If each part of an image to be built is a piece of an input, their contents are the pieces that
/// `bi_norm::cut` cuts the input into.
pub fn lengths_are_cut()
    ensures { LengthsAreCut }
{}

/// Each payload of a boot image has a file: the part of each index, in the order of the parts, and
/// the payload of the image of each name.
pub fn each_payload_has_its_file()
    ensures { EachPayloadHasItsFile }
{}

/// The files of the payloads of a boot image have safe names, and no two have the same name.
pub fn file_names_are_safe()
    ensures { FileNamesAreSafe }
{}

/// The line of a value without another form is the end of a line of the description of the file:
/// what follows the path and the name of the property, or the key of the field.
pub fn shown_values_are_described()
    ensures { ShownValuesAreDescribed }
{}
