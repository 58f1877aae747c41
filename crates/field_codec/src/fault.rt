// Why bytes are no manifest.
ghost use Rattle.std.specs.Prelude.{Some};
ghost use Rattle.field_codec.specs.FormFaults.{field_fault_text};

use std::alloc::{AllocError, AllocFailed};
use std::error::Error;
use std::fmt;

/// Why bytes are no manifest: the first fault from left to right.
#[derive(Clone, Copy, Debug, PartialEq, Eq)]
pub enum FieldFault {
    /// The bytes end within a field that begins at `at`: a number, the 104 opaque bytes, or the 32 bytes of a pair.
    Cut { at: usize },

    /// A slot stands twice in the map.
    SlotTwice { slot: u64 },

    /// A slot has `count` storages, and not one.
    Storages { slot: u64, count: u64 },

    /// Bytes follow the last sequence, from `at` on.
    Trailing { at: usize },

    /// There was no memory for the storages.
    NoMemory,
}

impl From<AllocError> for FieldFault {
    ghost use Rattle.std.specs.Prelude.{◌≡◌};
    ghost use Rattle.field_codec.specs.declared.fault.FieldFault.TheVariants.{NoMemory};

    ghost from_gives = { λ _ fault. fault ≡ NoMemory };

    fn from(_: AllocError) -> Self {
        FieldFault::NoMemory
    }
}

impl<T: Drop> From<AllocFailed<T>> for FieldFault {
    ghost use Rattle.std.specs.Prelude.{◌≡◌};
    ghost use Rattle.field_codec.specs.declared.fault.FieldFault.TheVariants.{NoMemory};

    ghost from_gives = { λ _ fault. fault ≡ NoMemory };

    fn from(_: AllocFailed<T>) -> Self {
        FieldFault::NoMemory
    }
}

impl fmt::Display for FieldFault {
    ghost output = { λ fault. Some (field_fault_text fault) };

    fn fmt<W: fmt::Write>(&self, f: &mut fmt::Formatter<W>) -> fmt::Result {
        match self {
            FieldFault::Cut { at } => write!(f, "cut {at}"),
            FieldFault::SlotTwice { slot } => write!(f, "slot-twice {slot}"),
            FieldFault::Storages { slot, count } => write!(f, "storages {slot} {count}"),
            FieldFault::Trailing { at } => write!(f, "trailing {at}"),
            FieldFault::NoMemory => f.write_str("no memory"),
        }
    }
}

impl Error for FieldFault {}
