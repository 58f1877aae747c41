use cell_table::CellFault;
use std::alloc::{AllocError, AllocFailed};

/// Why no book was opened from storages.
#[derive(Clone, Copy, Debug, PartialEq, Eq)]
pub enum RebuildFault {
    /// `used` bytes of the storages before this one and the `wanted` ones of it are above the budget.
    Full { used: u64, wanted: u128, limit: u64 },
    /// There are more storages than the `limit` that there may be.
    NoCell { limit: u64 },
    /// Want of memory.
    NoMemory,
}

impl From<CellFault> for RebuildFault {
    ghost use Rattle.std.specs.Prelude.{◌≡◌};
    ghost use Rattle.open_plan.specs.Causes.{cell_fault};

    ghost from_gives = { λ fault e. cell_fault e ≡ fault };

    fn from(fault: CellFault) -> Self {
        match fault {
            CellFault::Full {
                used,
                wanted,
                limit,
            } => RebuildFault::Full {
                used,
                wanted,
                limit,
            },
            CellFault::NoCell { limit } => RebuildFault::NoCell { limit },
            CellFault::NoMemory => RebuildFault::NoMemory,
        }
    }
}

impl From<AllocError> for RebuildFault {
    ghost use Rattle.std.specs.Prelude.{◌≡◌};
    ghost use Rattle.open_plan.specs.declared.fault.RebuildFault.TheVariants as faults;

    ghost from_gives = { λ _ e. e ≡ faults.NoMemory };

    fn from(_: AllocError) -> Self {
        RebuildFault::NoMemory
    }
}

impl<T: Drop> From<AllocFailed<T>> for RebuildFault {
    ghost use Rattle.std.specs.Prelude.{◌≡◌};
    ghost use Rattle.open_plan.specs.declared.fault.RebuildFault.TheVariants as faults;

    ghost from_gives = { λ _ e. e ≡ faults.NoMemory };

    fn from(_: AllocFailed<T>) -> Self {
        RebuildFault::NoMemory
    }
}
