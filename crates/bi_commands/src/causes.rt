//! What the causes of refusals mean.

ghost use Rattle.std.specs.Prelude.{◌≡◌};
ghost use Rattle.bi_commands.specs.CauseSentences.{sentence_of};

use bi_base::Cause;

/// Returns what a cause means, and what a user can do. The manual page has the same sentence.
pub fn sentence(cause: Cause) -> &'static str
    ensures { result.now ≡ sentence_of cause }
{
    match cause {
        Cause::Truncated => {
            "The file ends before something that it must hold, for example before the end of \
             the data of a legacy image: copy it again, as a whole."
        }
        Cause::BadMagic => {
            "The file is not of a kind that the command reads: decompress it if it is \
             compressed, or remove what is before the image. convert reads only legacy \
             images."
        }
        Cause::BadHeaderCrc => {
            "The header checksum of a legacy image is wrong: fetch the image again, or build \
             it again after a change of its fields."
        }
        Cause::BadDataCrc => {
            "The data checksum of a legacy image is wrong: fetch the image again."
        }
        Cause::BadPartTable => {
            "The list of sizes of a multi-file image or a script has no end: build the image \
             with data, not with -s of mkimage."
        }
        Cause::BadPart => {
            "A part ends after the data of the image, as in images built with -x of mkimage: \
             build it again without -x. If build-legacy or build-fit says so, the given \
             lengths are not those of the input: give the length of each part, so that \
             together they are the whole input."
        }
        Cause::BadTotalSize => {
            "A devicetree blob says that it is shorter than its header: build it again with \
             dtc."
        }
        Cause::BadVersion => {
            "A devicetree blob is older than version 16, or asks for a reader that is newer \
             than version 17: write it as version 17 with dtc."
        }
        Cause::BadOffset => {
            "A block of a devicetree blob is in a place where it may not be: build the blob \
             again."
        }
        Cause::BadToken => {
            "The structure of a devicetree blob has an unknown token, or one in a wrong \
             place: build the blob again."
        }
        Cause::BadName => {
            "A node or a property of a devicetree blob has a name that it may not have, such \
             as an empty one: rename it in the source."
        }
        Cause::BadNameOffset => {
            "The name of a property is outside the strings of the devicetree blob: build the \
             blob again."
        }
        Cause::PropertyAfterChild => {
            "A property comes after a child of its node: build the blob again with dtc, \
             which writes properties first."
        }
        Cause::DuplicateProperty => {
            "A node has two properties of the same name: remove one from the source."
        }
        Cause::DuplicateNode => {
            "A node has two children of the same name, or two images of build-fit have the \
             same name, and the offset is then the number of the second, counted from 0: \
             rename one of them."
        }
        Cause::TooDeep => {
            "More than 64 nodes are inside one another: no real image is that deep, so treat \
             the file as hostile."
        }
        Cause::NoImages => {
            "The blob is a plain devicetree and not a FIT, since its root has no node \
             'images': read it with dtc."
        }
        Cause::BadCell => {
            "A property that gives the place or size of a payload is not a number of four \
             bytes: correct it in the source."
        }
        Cause::NoSize => {
            "An image has the offset of its payload but not its size: add 'data-size' to it."
        }
        Cause::OutsideFile => {
            "A payload ends after the end of the file: copy the whole file, not only the \
             tree before the payloads. If nothing is missing, mkimage -F was probably run \
             without -E on a FIT with payloads after the blob: build it again, and run \
             mkimage -F with -E."
        }
        Cause::TooLarge => {
            "The file, the image or description that would be written, the payloads \
             together (describe, show, check, compare, update --hashes) or the sizes that \
             headers name together (scan) are longer than --limit, which is the offset: give \
             a greater limit if you trust the file. If the file is too long, cut a part out \
             of it: scan finds the images in that part, and --offset reads one of them."
        }
        Cause::NoCodeName => {
            "A FIT stores names, and this code has none: the offset is that of the code in \
             the header for convert, and the number of the image, counted from 0, for \
             build-fit. Give a code that has a name."
        }
        Cause::TooManyParts => {
            "A multi-file image of more than three parts, or a script of more than one, \
             cannot be converted: extract the parts, and build a tree of them."
        }
        Cause::EmptyPart => {
            "A part is empty, which ends the list of sizes, or the image to be converted has \
             no part: leave the part out. The offset is in the image."
        }
        Cause::BadField => {
            "A field cannot be written as it is given: a name of more than 32 bytes (32), \
             several parts for a type that has one (30), or, with the number of the image, a \
             bad name or the type multi in build-fit: give another value."
        }
        Cause::Unsupported => "Reserved: no command of this version reports it.",
    }
}
