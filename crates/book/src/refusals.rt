ghost use Rattle.std.specs.Prelude.{◌≡◌};

use adb_model::Slot;
use cell_table::CellFault;
use flush_plan::BeginFault;
use shrink_plan::BeginFault as CopyFault;
use std::alloc::AllocError;

/// Why nothing was stored.
#[derive(Clone, Copy, Debug, PartialEq, Eq)]
pub enum StoreRefusal {
    /// The slot isn't above the newest root.
    SlotRooted { slot: Slot, newest: Slot },
    /// Want of memory.
    NoMemory,
}

/// Why a slot did not become a root.
#[derive(Clone, Copy, Debug, PartialEq, Eq)]
pub enum RootRefusal {
    /// The slot isn't above the newest root.
    RootOrder { slot: Slot, newest: Slot },
    /// Want of memory.
    NoMemory,
}

/// The slot is a root, so its stores stay.
#[derive(Clone, Copy, Debug, PartialEq, Eq)]
pub struct Rooted {
    pub slot: Slot,
}

/// Why a load was not answered.
#[derive(Clone, Copy, Debug, PartialEq, Eq)]
pub enum LoadRefusal {
    /// The view's roots end below the slot up to which was cleaned.
    ViewTooOld { max_root: u64, cleaned: Slot },
    /// The pass has as many pins as a pass may have.
    TooManyPins { most: u64 },
    /// Want of memory.
    NoMemory,
}

/// The view's roots end below the slot up to which was cleaned.
#[derive(Clone, Copy, Debug, PartialEq, Eq)]
pub struct ViewTooOld {
    pub max_root: u64,
    pub cleaned: Slot,
}

/// The pass has no pin of the storage with this id.
#[derive(Clone, Copy, Debug, PartialEq, Eq)]
pub struct NotPinned {
    pub id: u64,
}

/// Why no lease began.
#[derive(Clone, Copy, Debug, PartialEq, Eq)]
pub enum LeaseRefusal {
    /// The views' roots end below the slot up to which was cleaned.
    ViewTooOld { max_root: u64, cleaned: Slot },
    /// Want of memory.
    NoMemory,
}

/// The pass has no lease of the views whose roots end at this slot.
#[derive(Clone, Copy, Debug, PartialEq, Eq)]
pub struct NotLeased {
    pub max_root: u64,
}

/// Why no more than before may be cleaned.
#[derive(Clone, Copy, Debug, PartialEq, Eq)]
pub enum RaiseRefusal {
    /// There is no root, or the slot is above the newest.
    PastRoot { upto: Slot, newest: Option<Slot> },
    /// A pass holds on to views below the slot; this is the least of their greatest roots.
    Leased { upto: Slot, least: u64 },
}

/// Why no flush began.
#[derive(Clone, Copy, Debug, PartialEq, Eq)]
pub enum FlushRefusal {
    /// The slot is no root.
    NotRooted { slot: Slot },
    /// Nothing of the slot is in the write cache.
    NothingCached { slot: Slot },
    /// A flush of the slot is open, which fills the storage with this id.
    Flushing { slot: Slot, id: u64 },
    /// `used` bytes of storages and the `wanted` ones are above the budget.
    Full { used: u64, wanted: u128, limit: u64 },
    /// There are as many storages as there may be.
    NoCell { limit: u64 },
    /// The last id was given out.
    IdsSpent,
    /// Want of memory.
    NoMemory,
}

/// Why no shrink began.
#[derive(Clone, Copy, Debug, PartialEq, Eq)]
pub enum ShrinkRefusal {
    /// No storage of the slot is in use.
    NoStorage { slot: Slot },
    /// A shrink of the slot is open, which fills the storage with this id.
    Shrinking { slot: Slot, id: u64 },
    /// Loads may find each row of the slot's storage.
    NothingDead { slot: Slot },
    /// `used` bytes of storages and the `wanted` ones are above the budget.
    Full { used: u64, wanted: u128, limit: u64 },
    /// There are as many storages as there may be.
    NoCell { limit: u64 },
    /// The last id was given out.
    IdsSpent,
    /// Want of memory.
    NoMemory,
}

/// Why no snapshot began.
#[derive(Clone, Copy, Debug, PartialEq, Eq)]
pub enum SnapRefusal {
    /// The snapshot of this slot is open.
    SnapOpen { slot: Slot },
    /// The slot is no root.
    NotRoot { slot: Slot },
    /// The slot is below the one up to which was cleaned.
    SnapTooOld { slot: Slot, cleaned: Slot },
    /// This root, the least of those up to the slot that are so, has rows in the write cache.
    Unflushed { slot: Slot },
    /// Want of memory.
    NoMemory,
}

/// How a shrink ended.
#[derive(Clone, Copy, Debug, PartialEq, Eq)]
pub enum ShrinkDone {
    /// The copy took the old storage's place.
    Installed,
    /// The storage with the id `old` was no longer in use, so the copy went.
    Superseded { slot: Slot, old: u64 },
}

impl From<AllocError> for StoreRefusal {
    ghost use Rattle.std.specs.Prelude.{◌≡◌};
    ghost use Rattle.book.specs.declared.refusals.StoreRefusal.TheVariants as stores;

    ghost from_gives = { λ _ e. e ≡ stores.NoMemory };

    fn from(_: AllocError) -> Self {
        StoreRefusal::NoMemory
    }
}

impl From<AllocError> for RootRefusal {
    ghost use Rattle.std.specs.Prelude.{◌≡◌};
    ghost use Rattle.book.specs.declared.refusals.RootRefusal.TheVariants as roots;

    ghost from_gives = { λ _ e. e ≡ roots.NoMemory };

    fn from(_: AllocError) -> Self {
        RootRefusal::NoMemory
    }
}

impl From<AllocError> for LoadRefusal {
    ghost use Rattle.std.specs.Prelude.{◌≡◌};
    ghost use Rattle.book.specs.declared.refusals.LoadRefusal.TheVariants as loads;

    ghost from_gives = { λ _ e. e ≡ loads.NoMemory };

    fn from(_: AllocError) -> Self {
        LoadRefusal::NoMemory
    }
}

impl From<AllocError> for LeaseRefusal {
    ghost use Rattle.std.specs.Prelude.{◌≡◌};
    ghost use Rattle.book.specs.declared.refusals.LeaseRefusal.TheVariants as leases;

    ghost from_gives = { λ _ e. e ≡ leases.NoMemory };

    fn from(_: AllocError) -> Self {
        LeaseRefusal::NoMemory
    }
}

impl From<AllocError> for SnapRefusal {
    ghost use Rattle.std.specs.Prelude.{◌≡◌};
    ghost use Rattle.book.specs.declared.refusals.SnapRefusal.TheVariants as snaps;

    ghost from_gives = { λ _ e. e ≡ snaps.NoMemory };

    fn from(_: AllocError) -> Self {
        SnapRefusal::NoMemory
    }
}

impl From<CellFault> for FlushRefusal {
    ghost use Rattle.std.specs.Prelude.{◌≡◌};
    ghost use Rattle.book.specs.Flushing.{refusal_for};

    ghost from_gives = { λ fault e. e ≡ refusal_for fault };

    fn from(fault: CellFault) -> Self {
        match fault {
            CellFault::Full {
                used,
                wanted,
                limit,
            } => FlushRefusal::Full {
                used,
                wanted,
                limit,
            },
            CellFault::NoCell { limit } => FlushRefusal::NoCell { limit },
            CellFault::NoMemory => FlushRefusal::NoMemory,
        }
    }
}

impl From<BeginFault> for FlushRefusal {
    ghost use Rattle.std.specs.Prelude.{◌≡◌};
    ghost use Rattle.flush_plan.specs.Causes.{cell_fault};
    ghost use Rattle.book.specs.Flushing.{refusal_for};

    ghost from_gives = { λ fault e. e ≡ refusal_for (cell_fault fault) };

    fn from(fault: BeginFault) -> Self {
        match fault {
            BeginFault::Full {
                used,
                wanted,
                limit,
            } => FlushRefusal::Full {
                used,
                wanted,
                limit,
            },
            BeginFault::NoCell { limit } => FlushRefusal::NoCell { limit },
            BeginFault::NoMemory => FlushRefusal::NoMemory,
        }
    }
}

impl From<CellFault> for ShrinkRefusal {
    ghost use Rattle.std.specs.Prelude.{◌≡◌};
    ghost use Rattle.book.specs.Shrinking.{refusal_for};

    ghost from_gives = { λ fault e. e ≡ refusal_for fault };

    fn from(fault: CellFault) -> Self {
        match fault {
            CellFault::Full {
                used,
                wanted,
                limit,
            } => ShrinkRefusal::Full {
                used,
                wanted,
                limit,
            },
            CellFault::NoCell { limit } => ShrinkRefusal::NoCell { limit },
            CellFault::NoMemory => ShrinkRefusal::NoMemory,
        }
    }
}

impl From<CopyFault> for ShrinkRefusal {
    ghost use Rattle.std.specs.Prelude.{◌≡◌};
    ghost use Rattle.shrink_plan.specs.Causes.{cell_fault};
    ghost use Rattle.book.specs.Shrinking.{refusal_for};

    ghost from_gives = { λ fault e. e ≡ refusal_for (cell_fault fault) };

    fn from(fault: CopyFault) -> Self {
        match fault {
            CopyFault::Full {
                used,
                wanted,
                limit,
            } => ShrinkRefusal::Full {
                used,
                wanted,
                limit,
            },
            CopyFault::NoCell { limit } => ShrinkRefusal::NoCell { limit },
            CopyFault::NoMemory => ShrinkRefusal::NoMemory,
        }
    }
}
