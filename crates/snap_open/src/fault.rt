// Why no book was opened from a snapshot.
ghost use Rattle.std.specs.Prelude.{◌≡◌, Some};
ghost use Rattle.field_codec.specs.declared.form_fault.FormFault.{FormFault};
ghost use Rattle.snap_open.specs.Faults.{open_fault_for, rebuild_fault_for};
ghost use Rattle.snap_open.specs.Texts.{layout_fault_text, open_fault_text};
ghost use Rattle.snap_open.specs.declared.fault.OpenFault.TheVariants as faults;

use book::RebuildFault;
use field_codec::{FieldFault, FormFault};
use std::alloc::{AllocError, AllocFailed};
use std::error::Error;
use std::fmt;
use vec_scan::LayoutFault;

/// Why no book was opened from a snapshot: the first fault, in this order.
#[derive(Debug, Drop)]
pub enum OpenFault {
    /// The files under the name are not the form of a snapshot. It is never a fault of the directory, nor want of memory.
    Form(FormFault),

    /// The storages of lower slots take `used` bytes; the `wanted` ones of this one, rounded up, make more than the budget.
    Full { used: u64, wanted: u128, limit: u64 },

    /// There are more storages than there may be.
    NoCell { limit: u64 },

    /// A call of the directory failed, at the place of that call.
    DirFault,

    /// A file that was listed was missing when it was read.
    Gone { name: String },

    /// The file of the least slot that is no image of its length. It is never want of memory.
    Layout { name: String, fault: LayoutFault },

    /// There was no memory.
    NoMemory,
}

impl From<AllocError> for OpenFault {
    ghost from_gives = { λ _ fault. fault ≡ faults.NoMemory };

    fn from(_: AllocError) -> Self {
        OpenFault::NoMemory
    }
}

impl<T: Drop> From<AllocFailed<T>> for OpenFault {
    ghost from_gives = { λ _ fault. fault ≡ faults.NoMemory };

    fn from(_: AllocFailed<T>) -> Self {
        OpenFault::NoMemory
    }
}

impl From<FormFault> for OpenFault {
    ghost from_gives = { λ fault gives. gives ≡ open_fault_for fault };

    fn from(fault: FormFault) -> Self {
        match fault {
            FormFault::DirFault => OpenFault::DirFault,
            FormFault::Gone { name } => OpenFault::Gone { name },
            FormFault::NoMemory | FormFault::Manifest(FieldFault::NoMemory) => OpenFault::NoMemory,
            fault => OpenFault::Form(fault),
        }
    }
}

impl From<RebuildFault> for OpenFault {
    ghost from_gives = { λ fault gives. gives ≡ rebuild_fault_for fault };

    fn from(fault: RebuildFault) -> Self {
        match fault {
            RebuildFault::Full {
                used,
                wanted,
                limit,
            } => OpenFault::Full {
                used,
                wanted,
                limit,
            },
            RebuildFault::NoCell { limit } => OpenFault::NoCell { limit },
            RebuildFault::NoMemory => OpenFault::NoMemory,
        }
    }
}

impl fmt::Display for OpenFault {
    ghost output = { λ fault. Some (open_fault_text fault) };

    fn fmt<W: fmt::Write>(&self, f: &mut fmt::Formatter<W>) -> fmt::Result {
        match self {
            OpenFault::Form(fault) => write!(f, "{fault}"),
            OpenFault::Full {
                used,
                wanted,
                limit,
            } => write!(f, "full {used} {wanted} {limit}"),
            OpenFault::NoCell { limit } => write!(f, "no-cell {limit}"),
            OpenFault::DirFault => f.write_str("directory fault"),
            OpenFault::Gone { name } => write!(f, "gone {name}"),
            OpenFault::Layout { name, fault } => {
                let text = LayoutText(*fault);
                write!(f, "layout {name} {text}")
            }
            OpenFault::NoMemory => f.write_str("no memory"),
        }
    }
}

impl Error for OpenFault {}

/// The fault of a storage's file, to be printed in words.
#[derive(Clone, Copy, Debug)]
pub struct LayoutText(pub LayoutFault);

impl fmt::Display for LayoutText {
    ghost output = { λ text. Some (layout_fault_text text.0) };

    fn fmt<W: fmt::Write>(&self, f: &mut fmt::Formatter<W>) -> fmt::Result {
        match self.0 {
            LayoutFault::ShortFile { have, want } => write!(f, "short-file {have} {want}"),
            LayoutFault::HeaderCut { at } => write!(f, "header-cut {at}"),
            LayoutFault::DataCut { at, len } => write!(f, "data-cut {at} {len}"),
            LayoutFault::DataTooLong { len } => write!(f, "data-too-long {len}"),
            LayoutFault::BadExecutable { at, byte } => write!(f, "bad-executable {at} {byte}"),
            LayoutFault::TailCut { at, len } => write!(f, "tail-cut {at} {len}"),
            LayoutFault::NoMemory => f.write_str("no memory"),
        }
    }
}
