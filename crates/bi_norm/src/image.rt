//! Reading a boot image of any kind.

ghost use Rattle.std.specs.Prelude.{◌≡◌, ◌↔◌, IfOk, IfErr, IsTrue};
ghost use Rattle.bi_base.specs.declared.fault.Cause.TheVariants.{BadMagic};
ghost use Rattle.bi_base.specs.declared.fault.Error.TheVariants.{Refused};
ghost use Rattle.bi_norm.specs.Reading.{IsBootImageReadError, IsReadBootImage};

use bi_base::{Cause, Error, Limits};
use bi_fit::Fit;
use bi_legacy::Legacy;
use std::alloc::Global;

/// A boot image that was read.
#[derive(Drop)]
pub enum BootImage<'a> {
    /// A legacy image.
    Legacy(Legacy<'a>),
    /// A flattened image tree.
    Fit(Fit<'a>),
}

impl<'a> BootImage<'a> {
    /// Reads a boot image. The file may be longer than the image.
    ///
    /// Fails with the first of these errors that applies:
    ///
    /// - TooLarge at the limit, if the file is longer;
    /// - Truncated at 0, if it has fewer than four bytes;
    /// - BadMagic at 0;
    /// - those of `Legacy::read` or of `Fit::read`.
    ///
    /// OutOfMemory occurs only after the checks of a legacy image, or of the header and the memory
    /// reservation block of a blob.
    pub fn read(alloc: Global, file: &'a [u8], limits: Limits) -> Result<BootImage<'a>, Error>
        ensures read { IfOk result (IsReadBootImage limits file.entry.now) }
        ensures failed { IfErr result (IsBootImageReadError limits file.entry.now) }
    {
        match Fit::read(alloc, file, limits) {
            Ok(fit) => Ok(BootImage::Fit(fit)),
            Err(error) => {
                // It may be a legacy image. A file that is neither fails with the same fault there.
                if is_no_tree(error) {
                    return Ok(BootImage::Legacy(Legacy::read(file, limits)?));
                }
                Err(error)
            }
        }
    }
}

/// Returns whether this is the error of a file that does not begin with the magic number of a tree.
fn is_no_tree(error: Error) -> bool
    ensures { IsTrue result ↔ (error ≡ Refused (record { cause = BadMagic; offset = 0 })) }
{
    match error {
        Error::Refused(fault) => fault.cause == Cause::BadMagic && fault.offset == 0,
        _ => false,
    }
}
