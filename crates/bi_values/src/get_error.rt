//! Why values are not written.

ghost use Rattle.std.specs.Prelude.{◌≡◌};
ghost use Rattle.bi_base.specs.declared.fault.Error.TheVariants.{OutOfMemory};
ghost use Rattle.bi_values.specs.declared.get_error.GetError.TheVariants.{Failed};

use bi_base::Error;
use std::alloc::AllocFailed;

/// Why nothing, or not all, was written. The numbers are indices in the list of the names of
/// values, counted from 0.
#[derive(Clone, Copy, Debug, PartialEq, Eq, thiserror::Error)]
pub enum GetError {
    /// The file is refused, memory ran out, or reading or writing failed.
    #[error("failed")]
    Failed(Error),
    /// A field is named of a flattened image tree, or a property of a legacy image.
    #[error("the selection does not fit this kind of image")]
    WrongKind,
    /// No node has this path, or the node has no such property.
    #[error("no such property")]
    NoProperty(usize),
    /// The value is not one or more texts.
    #[error("no text")]
    NoText(usize),
    /// The value has neither four nor eight bytes, or the field is the name.
    #[error("no number")]
    NoNumber(usize),
}

impl From<Error> for GetError {
    ghost from_gives = { λ error get_error. get_error ≡ Failed error };

    fn from(error: Error) -> GetError {
        GetError::Failed(error)
    }
}

impl<T: Drop> From<AllocFailed<T>> for GetError {
    ghost from_gives = { λ _ get_error. get_error ≡ Failed OutOfMemory };

    fn from(_error: AllocFailed<T>) -> GetError {
        GetError::Failed(Error::OutOfMemory)
    }
}
