// Why a call of a stream fails.
ghost use Rattle.std.specs.Prelude.{◌≡◌, ◌≤◌, Some, codes};
ghost use Rattle.stream_io.specs.Stream.{raised};
ghost use Rattle.stream_io.specs.Faults.{fault_text};
ghost use Rattle.stream_io.specs.declared.fault.ReadFault.TheVariants as read_faults;

use std::alloc::AllocError;
use std::error::Error;
use std::fmt;

/// A call of a source or a sink failed, and its count of faults rose.
#[derive(Clone, Copy, Debug, PartialEq, Eq)]
pub struct Failed;

/// Why a source was not read to its end.
#[derive(Clone, Copy, Debug, PartialEq, Eq)]
pub enum ReadFault {
    /// A read failed.
    Failed,

    /// The source had more than `most` bytes.
    TooLong { most: usize },

    /// There was no memory for the bytes.
    NoMemory,
}

impl From<Failed> for ReadFault {
    ghost from_gives = { λ _ fault. fault ≡ read_faults.Failed };

    fn from(_: Failed) -> Self {
        ReadFault::Failed
    }
}

impl From<AllocError> for ReadFault {
    ghost from_gives = { λ _ fault. fault ≡ read_faults.NoMemory };

    fn from(_: AllocError) -> Self {
        ReadFault::NoMemory
    }
}

impl fmt::Display for Failed {
    ghost output = { λ _. Some (codes "a call of the stream failed") };

    fn fmt<W: fmt::Write>(&self, f: &mut fmt::Formatter<W>) -> fmt::Result {
        f.write_str("a call of the stream failed")
    }
}

impl Error for Failed {}

impl fmt::Display for ReadFault {
    ghost output = { λ fault. Some (fault_text fault) };

    fn fmt<W: fmt::Write>(&self, f: &mut fmt::Formatter<W>) -> fmt::Result {
        match self {
            ReadFault::Failed => f.write_str("a read failed"),
            ReadFault::TooLong { most } => write!(f, "more than {most} bytes"),
            ReadFault::NoMemory => f.write_str("no memory"),
        }
    }
}

impl Error for ReadFault {}

/// Counts a fault. The count stops at its last value.
pub(crate) fn fail(faults: &mut u64) -> Failed
    ensures counted { faults.new ≡ raised faults.old }
    ensures later { faults.old ≤ faults.new }
{
    *faults = faults.saturating_add(1);
    Failed
}
