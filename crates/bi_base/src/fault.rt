//! Why a file is refused, and how else a call can fail.

ghost use Rattle.std.specs.Prelude.{◌≡◌};
ghost use Rattle.bi_base.specs.declared.fault.Error.TheVariants.{OutOfMemory, Refused};

use std::alloc::{AllocError, AllocFailed};

/// Why a file, or an argument of a call that writes one, is refused.
#[derive(Clone, Copy, Debug, PartialEq, Eq)]
pub enum Cause {
    /// The file ends before something that it must hold.
    Truncated = 1,
    /// The file does not begin with the right magic number.
    BadMagic = 2,
    /// The header checksum of a legacy image is not that of its header.
    BadHeaderCrc = 3,
    /// The data checksum of a legacy image is not that of its data.
    BadDataCrc = 4,
    /// The part table of a multi-file image or script has no end.
    BadPartTable = 5,
    /// A part ends after the data of the image, or the pieces that an input is cut into are not
    /// together the whole input.
    BadPart = 6,
    /// The `totalsize` of a blob is less than the length of its header.
    BadTotalSize = 7,
    /// The version of a blob is not one that can be read.
    BadVersion = 8,
    /// A block of a blob has an offset that it may not have.
    BadOffset = 9,
    /// A token of the structure block is unknown, or is where it may not be.
    BadToken = 10,
    /// A node or property has a name that it may not have.
    BadName = 11,
    /// A property's name is not in the strings block.
    BadNameOffset = 12,
    /// A property is after a child node.
    PropertyAfterChild = 13,
    /// A node has two properties with the same name.
    DuplicateProperty = 14,
    /// A node has two children with the same name, or two images to be built have the same name.
    DuplicateNode = 15,
    /// More nodes are open than the limit allows.
    TooDeep = 16,
    /// The root has no child `images`.
    NoImages = 17,
    /// A property that must be one cell is not four bytes long.
    BadCell = 18,
    /// An image node has the offset of its payload, but not its size.
    NoSize = 19,
    /// A payload ends after the file.
    OutsideFile = 20,
    /// The file, the text to be written or the description is longer than the limit, or, for some
    /// calls, the payloads together are.
    TooLarge = 21,
    /// A code that a flattened image tree must name has no name.
    NoCodeName = 22,
    /// A legacy image that is to be converted has too many parts: a multi-file image more than
    /// three, a script more than one.
    TooManyParts = 23,
    /// A part is empty, or there is none.
    EmptyPart = 24,
    /// A field cannot be written as it is given.
    BadField = 25,
    /// The file is of a kind that cannot be handled yet. No call of this version fails with this
    /// cause.
    Unsupported = 26,
}

impl Cause {
    ghost use Rattle.bi_base.specs.Causes.{number_of, name_of};

    /// Returns the number of the cause: 1 to 26.
    pub fn number(self) -> u8
        ensures { result ≡ number_of self }
    {
        self as u8
    }

    /// Returns the name of the cause, as the program prints it.
    pub fn name(self) -> &'static str
        ensures { result.now ≡ name_of self }
    {
        match self {
            Cause::Truncated => "Truncated",
            Cause::BadMagic => "BadMagic",
            Cause::BadHeaderCrc => "BadHeaderCrc",
            Cause::BadDataCrc => "BadDataCrc",
            Cause::BadPartTable => "BadPartTable",
            Cause::BadPart => "BadPart",
            Cause::BadTotalSize => "BadTotalSize",
            Cause::BadVersion => "BadVersion",
            Cause::BadOffset => "BadOffset",
            Cause::BadToken => "BadToken",
            Cause::BadName => "BadName",
            Cause::BadNameOffset => "BadNameOffset",
            Cause::PropertyAfterChild => "PropertyAfterChild",
            Cause::DuplicateProperty => "DuplicateProperty",
            Cause::DuplicateNode => "DuplicateNode",
            Cause::TooDeep => "TooDeep",
            Cause::NoImages => "NoImages",
            Cause::BadCell => "BadCell",
            Cause::NoSize => "NoSize",
            Cause::OutsideFile => "OutsideFile",
            Cause::TooLarge => "TooLarge",
            Cause::NoCodeName => "NoCodeName",
            Cause::TooManyParts => "TooManyParts",
            Cause::EmptyPart => "EmptyPart",
            Cause::BadField => "BadField",
            Cause::Unsupported => "Unsupported",
        }
    }
}

/// A refusal: why, and where.
#[derive(Clone, Copy, Debug, PartialEq, Eq)]
pub struct Fault {
    /// Why.
    pub cause: Cause,
    /// Where, in bytes from the beginning of the file, of the input that is cut, or of the image to
    /// be written. For TooLarge it is the limit. For NoCodeName, DuplicateNode and BadField of an
    /// image of `build_fit` it is the index of the image, counted from 0.
    pub offset: u32,
}

/// Returns the fault with this cause at this offset, as an error.
pub fn refuse<T>(cause: Cause, offset: u32) -> Result<T, Fault>
    ensures { result ≡ Err (record { cause = cause; offset = offset }) }
{
    Err(Fault { cause, offset })
}

/// The error of a call that reads, writes or allocates. Only `Refused` is about the file or the
/// arguments.
#[derive(Clone, Copy, Debug, PartialEq, Eq, thiserror::Error)]
pub enum Error {
    /// The file or the arguments are refused.
    #[error("refused")]
    Refused(Fault),
    /// An allocation failed.
    #[error("out of memory")]
    OutOfMemory,
    /// A read failed, with an error other than an interruption; or 1,024 reads in a row
    /// (`MOST_INTERRUPTIONS`) were interrupted. Only calls over a reader fail with it.
    #[error("read failed")]
    ReadFailed,
    /// A write or a flush failed, with an error other than an interruption; or a write wrote none
    /// of the remaining bytes; or 1,024 calls in a row (`MOST_INTERRUPTIONS`) were interrupted; or
    /// the slice of a `SliceSink` has no room. Only calls over a writer or a sink fail with it.
    #[error("write failed")]
    WriteFailed,
}

impl From<Fault> for Error {
    ghost from_gives = { λ fault error. error ≡ Refused fault };

    fn from(fault: Fault) -> Error {
        Error::Refused(fault)
    }
}

impl From<AllocError> for Error {
    ghost from_gives = { λ _ error. error ≡ OutOfMemory };

    fn from(_error: AllocError) -> Error {
        Error::OutOfMemory
    }
}

impl<T: Drop> From<AllocFailed<T>> for Error {
    ghost from_gives = { λ _ error. error ≡ OutOfMemory };

    fn from(_error: AllocFailed<T>) -> Error {
        Error::OutOfMemory
    }
}
