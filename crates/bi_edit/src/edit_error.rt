//! Why a boot image cannot be edited.

ghost use Rattle.std.specs.Prelude.{◌≡◌};

use crate::applying::ApplyError;
use bi_base::{Error, Fault};
use std::alloc::AllocError;

/// Why a boot image cannot be edited.
#[derive(Clone, Copy, Debug, PartialEq, Eq)]
pub enum EditError {
    /// An edit is of the other kind of boot image: of a field of a legacy header or a part, or of a
    /// node, a property or an image of a flattened image tree.
    WrongKind,
    /// The edit with this index finds nothing to remove, no image, or no part.
    FindsNothing(usize),
    /// Reading, an edit that is too deep, the size or the fields of what is made, memory, or the
    /// sink.
    Failed(Error),
}

impl From<Fault> for EditError {
    ghost use Rattle.bi_base.specs.declared.fault.Error.TheVariants.{Refused};
    ghost use Rattle.bi_edit.specs.declared.edit_error.EditError.TheVariants.{Failed};

    ghost from_gives = { λ fault result. result ≡ Failed (Refused fault) };

    fn from(fault: Fault) -> EditError {
        EditError::Failed(Error::Refused(fault))
    }
}

impl From<Error> for EditError {
    ghost use Rattle.bi_edit.specs.declared.edit_error.EditError.TheVariants.{Failed};

    ghost from_gives = { λ error result. result ≡ Failed error };

    fn from(error: Error) -> EditError {
        EditError::Failed(error)
    }
}

impl From<AllocError> for EditError {
    ghost use Rattle.bi_base.specs.declared.fault.Error.TheVariants.{OutOfMemory};
    ghost use Rattle.bi_edit.specs.declared.edit_error.EditError.TheVariants.{Failed};

    ghost from_gives = { λ error result. result ≡ Failed OutOfMemory };

    fn from(error: AllocError) -> EditError {
        EditError::Failed(Error::OutOfMemory)
    }
}

impl From<ApplyError> for EditError {
    ghost use Rattle.bi_edit.specs.EditedFits.{edit_error_of};

    ghost from_gives = { λ error result. result ≡ edit_error_of error };

    fn from(error: ApplyError) -> EditError {
        match error {
            ApplyError::FindsNothing(index) => EditError::FindsNothing(index),
            ApplyError::OutOfMemory => EditError::Failed(Error::OutOfMemory),
        }
    }
}
