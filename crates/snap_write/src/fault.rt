// Why a snapshot was not written.
ghost use Rattle.std.specs.Prelude.{◌≡◌, Some};
ghost use Rattle.snap_write.specs.Faults.{snap_fault_of, snap_fault_text};
ghost use Rattle.snap_write.specs.declared.fault.SnapFault.TheVariants as faults;

use dir_io::DirError;
use std::alloc::{AllocError, AllocFailed};
use std::error::Error;
use std::fmt;

/// Why a snapshot was not written.
#[derive(Clone, Copy, Debug, PartialEq, Eq)]
pub enum SnapFault {
    /// A file of this snapshot's name is there already. Nothing was written.
    Exists,

    /// A call of the directory failed, and its count of faults rose.
    DirFault,

    /// There was no memory.
    NoMemory,
}

impl From<DirError> for SnapFault {
    ghost from_gives = { λ error fault. fault ≡ snap_fault_of error };

    fn from(error: DirError) -> Self {
        match error {
            DirError::NoMemory => SnapFault::NoMemory,
            DirError::Missing | DirError::Failed => SnapFault::DirFault,
        }
    }
}

impl From<AllocError> for SnapFault {
    ghost from_gives = { λ _ fault. fault ≡ faults.NoMemory };

    fn from(_: AllocError) -> Self {
        SnapFault::NoMemory
    }
}

impl<T: Drop> From<AllocFailed<T>> for SnapFault {
    ghost from_gives = { λ _ fault. fault ≡ faults.NoMemory };

    fn from(_: AllocFailed<T>) -> Self {
        SnapFault::NoMemory
    }
}

impl fmt::Display for SnapFault {
    ghost output = { λ fault. Some (snap_fault_text fault) };

    fn fmt<W: fmt::Write>(&self, f: &mut fmt::Formatter<W>) -> fmt::Result {
        match self {
            SnapFault::Exists => f.write_str("exists"),
            SnapFault::DirFault => f.write_str("directory fault"),
            SnapFault::NoMemory => f.write_str("no memory"),
        }
    }
}

impl Error for SnapFault {}
