// Why a call of a directory ended without an answer.
ghost use Rattle.std.specs.Prelude.{◌≡◌, Some};
ghost use Rattle.dir_io.specs.Faults.{error_text};
ghost use Rattle.dir_io.specs.declared.fault.DirError.TheVariants as errors;

use std::alloc::{AllocError, AllocFailed};
use std::error::Error;
use std::fmt;
use stream_io::Failed;

/// Why a call of a directory ended without an answer.
#[derive(Clone, Copy, Debug, PartialEq, Eq)]
pub enum DirError {
    /// There is no file of that name.
    Missing,

    /// The call failed, and the directory's count of faults rose.
    Failed,

    /// There was no memory for the call.
    NoMemory,
}

impl From<Failed> for DirError {
    ghost from_gives = { λ _ error. error ≡ errors.Failed };

    fn from(_: Failed) -> Self {
        DirError::Failed
    }
}

impl From<AllocError> for DirError {
    ghost from_gives = { λ _ error. error ≡ errors.NoMemory };

    fn from(_: AllocError) -> Self {
        DirError::NoMemory
    }
}

impl<T: Drop> From<AllocFailed<T>> for DirError {
    ghost from_gives = { λ _ error. error ≡ errors.NoMemory };

    fn from(_: AllocFailed<T>) -> Self {
        DirError::NoMemory
    }
}

impl fmt::Display for DirError {
    ghost output = { λ error. Some (error_text error) };

    fn fmt<W: fmt::Write>(&self, f: &mut fmt::Formatter<W>) -> fmt::Result {
        match self {
            DirError::Missing => f.write_str("no file of this name"),
            DirError::Failed => f.write_str("a call of the directory failed"),
            DirError::NoMemory => f.write_str("no memory"),
        }
    }
}

impl Error for DirError {}
