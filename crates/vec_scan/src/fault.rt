// Why a file is no image.
use account_layout::RecordFault;
use std::alloc::{AllocError, AllocFailed};

/// Why the first bytes of a file are no image of a storage.
#[derive(Clone, Copy, Debug, PartialEq, Eq)]
pub enum LayoutFault {
    /// The file has `have` bytes, fewer than the `want` of the image.
    ShortFile { have: u64, want: u64 },

    /// Fewer than 136 bytes stand from `at`, where a record starts, to the image's end.
    HeaderCut { at: usize },

    /// The data of the record at `at`, of `len` bytes, goes past the image's end.
    DataCut { at: usize, len: u64 },

    /// A record's data has `len` bytes, more than an account's 10,485,760.
    DataTooLong { len: u64 },

    /// The executable byte of the record at `at` is neither 0 nor 1.
    BadExecutable { at: usize, byte: u8 },

    /// The image of `len` bytes ends behind the last record's end `at`, before the next multiple of eight.
    TailCut { at: usize, len: u64 },

    /// There was no memory for the offsets or the padding.
    NoMemory,
}

impl From<RecordFault> for LayoutFault {
    ghost use Rattle.std.specs.Prelude.{◌≡◌};
    ghost use Rattle.vec_scan.specs.Fault.{layout_fault};

    ghost from_gives = { λ fault gives. gives ≡ layout_fault fault };

    fn from(fault: RecordFault) -> Self {
        match fault {
            RecordFault::HeaderCut { at } => LayoutFault::HeaderCut { at },
            RecordFault::DataCut { at, len } => LayoutFault::DataCut { at, len },
            RecordFault::DataTooLong { len } => LayoutFault::DataTooLong { len },
            RecordFault::BadExecutable { at, byte } => LayoutFault::BadExecutable { at, byte },
        }
    }
}

impl From<AllocError> for LayoutFault {
    ghost use Rattle.std.specs.Prelude.{◌≡◌};
    ghost use Rattle.vec_scan.specs.declared.fault.LayoutFault.TheVariants.{NoMemory};

    ghost from_gives = { λ _ fault. fault ≡ NoMemory };

    fn from(_: AllocError) -> Self {
        LayoutFault::NoMemory
    }
}

impl<T: Drop> From<AllocFailed<T>> for LayoutFault {
    ghost use Rattle.std.specs.Prelude.{◌≡◌};
    ghost use Rattle.vec_scan.specs.declared.fault.LayoutFault.TheVariants.{NoMemory};

    ghost from_gives = { λ _ fault. fault ≡ NoMemory };

    fn from(_: AllocFailed<T>) -> Self {
        LayoutFault::NoMemory
    }
}
