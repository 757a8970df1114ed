//! Why a call fails.

ghost use Rattle.std.specs.Prelude.{◌≡◌};
ghost use Rattle.bi_c.specs.Answers.{failure_of_error};
ghost use Rattle.bi_c.specs.FitElements.{failure_of_list_error};

use crate::argument::Argument;
use bi_base::{Error, Fault};
use bi_fit::ConfigError;

/// The number of the reason that an image is of the other kind.
pub(crate) const WRONG_KIND: u32 = 1;

/// The number of the reason that no node has the path.
pub(crate) const NO_NODE: u32 = 10;

/// The number of the reason that the node has no property with the name.
pub(crate) const NO_PROPERTY: u32 = 11;

/// Why a call fails.
#[derive(Clone, Copy)]
pub(crate) enum Failure {
    /// An argument is out of its range, and, if it is an array, the index of the first element that
    /// is. Otherwise the index is 0.
    WrongArgument(Argument, usize),
    /// A file is refused: its index, counted from 1, and why.
    Refused(u32, Fault),
    /// An allocation failed.
    OutOfMemory,
    /// Nothing is found: the number of the reason, and, if a listed image is missing, the index of
    /// the name that no image has.
    NotFound(u32, usize),
}

/// Returns the failure for an error of a call on one file in memory. The call has neither a reader
/// nor a writer.
pub(crate) fn failure_of(error: Error) -> Failure
    ensures { result ≡ failure_of_error error }
{
    match error {
        Error::Refused(fault) => Failure::Refused(1, fault),
        _ => Failure::OutOfMemory,
    }
}

/// Returns the failure for an error of listing images.
pub(crate) fn failure_of_list(error: ConfigError) -> Failure
    ensures { result ≡ failure_of_list_error error }
{
    match error {
        ConfigError::NoConfig => Failure::NotFound(4, 0),
        ConfigError::NoKey => Failure::NotFound(5, 0),
        ConfigError::BadList => Failure::NotFound(6, 0),
        ConfigError::Missing(index) => Failure::NotFound(7, index),
        ConfigError::OutOfMemory => Failure::OutOfMemory,
    }
}
