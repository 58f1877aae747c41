// Why files are no snapshot.
ghost use Rattle.std.specs.Prelude.{◌≡◌, Some};
ghost use Rattle.field_codec.specs.FormFaults.{form_fault_text, form_fault_of};
ghost use Rattle.field_codec.specs.declared.form_fault.FormFault.TheVariants as faults;

use crate::fault::FieldFault;
use std::alloc::{AllocError, AllocFailed};
use std::error::Error;
use std::fmt;

/// Why the files under a name are not the form of a snapshot: the first fault, in this order.
#[derive(Debug, Drop)]
pub enum FormFault {
    /// There is no file `version`.
    NoVersion,

    /// The file `version` has another text than `1.2.0`.
    BadVersion,

    /// There is no manifest.
    NoManifest,

    /// There are `count` manifests, more than one.
    ManyManifests { count: usize },

    /// The manifest's bytes are none.
    Manifest(FieldFault),

    /// The manifest's file is named for the slot `name`, and its slot is `field`.
    SlotMismatch { name: u64, field: u64 },

    /// The least slot of the manifest that is above the snapshot's.
    SlotAbove { slot: u64, snapshot: u64 },

    /// The file of the least slot that has none.
    NoFile { name: String },

    /// The least name of a file that is none of the snapshot's.
    UnknownFile { name: String },

    /// A call of the directory failed, at the place of that call.
    DirFault,

    /// A file that was listed was missing when it was read.
    Gone { name: String },

    /// There was no memory.
    NoMemory,
}

impl From<AllocError> for FormFault {
    ghost from_gives = { λ _ fault. fault ≡ faults.NoMemory };

    fn from(_: AllocError) -> Self {
        FormFault::NoMemory
    }
}

impl<T: Drop> From<AllocFailed<T>> for FormFault {
    ghost from_gives = { λ _ fault. fault ≡ faults.NoMemory };

    fn from(_: AllocFailed<T>) -> Self {
        FormFault::NoMemory
    }
}

impl From<FieldFault> for FormFault {
    ghost from_gives = { λ fault gives. gives ≡ form_fault_of fault };

    fn from(fault: FieldFault) -> Self {
        match fault {
            FieldFault::NoMemory => FormFault::NoMemory,
            _ => FormFault::Manifest(fault),
        }
    }
}

impl fmt::Display for FormFault {
    ghost output = { λ fault. Some (form_fault_text fault) };

    fn fmt<W: fmt::Write>(&self, f: &mut fmt::Formatter<W>) -> fmt::Result {
        match self {
            FormFault::NoVersion => f.write_str("no-version"),
            FormFault::BadVersion => f.write_str("bad-version"),
            FormFault::NoManifest => f.write_str("no-manifest"),
            FormFault::ManyManifests { count } => write!(f, "many-manifests {count}"),
            FormFault::Manifest(fault) => write!(f, "manifest {fault}"),
            FormFault::SlotMismatch { name, field } => write!(f, "slot-mismatch {name} {field}"),
            FormFault::SlotAbove { slot, snapshot } => write!(f, "slot-above {slot} {snapshot}"),
            FormFault::NoFile { name } => write!(f, "no-file {name}"),
            FormFault::UnknownFile { name } => write!(f, "unknown-file {name}"),
            FormFault::DirFault => f.write_str("directory fault"),
            FormFault::Gone { name } => write!(f, "gone {name}"),
            FormFault::NoMemory => f.write_str("no memory"),
        }
    }
}

impl Error for FormFault {}
