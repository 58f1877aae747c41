use cell_table::CellFault;
use std::alloc::AllocError;

/// Why a shrink did not begin.
#[derive(Clone, Copy, Debug, PartialEq, Eq)]
pub enum BeginFault {
    /// `used` bytes of storages and the `wanted` ones are above the limit.
    Full { used: u64, wanted: u128, limit: u64 },
    /// None of so many cells is free.
    NoCell { limit: u64 },
    /// Want of memory.
    NoMemory,
}

impl From<CellFault> for BeginFault {
    ghost use Rattle.std.specs.Prelude.{◌≡◌};
    ghost use Rattle.shrink_plan.specs.Causes.{cell_fault};

    ghost from_gives = { λ fault e. cell_fault e ≡ fault };

    fn from(fault: CellFault) -> Self {
        match fault {
            CellFault::Full {
                used,
                wanted,
                limit,
            } => BeginFault::Full {
                used,
                wanted,
                limit,
            },
            CellFault::NoCell { limit } => BeginFault::NoCell { limit },
            CellFault::NoMemory => BeginFault::NoMemory,
        }
    }
}

impl From<AllocError> for BeginFault {
    ghost use Rattle.std.specs.Prelude.{◌≡◌};
    ghost use Rattle.shrink_plan.specs.declared.fault.BeginFault.TheVariants as faults;

    ghost from_gives = { λ _ e. e ≡ faults.NoMemory };

    fn from(_: AllocError) -> Self {
        BeginFault::NoMemory
    }
}
