ghost use Rattle.std.specs.Prelude.{◌≡◌, IfOk};

use crate::account::Account;
use crate::key::{Key, Slot};
use crate::view::View;
use std::alloc::{AllocError, Global};
use std::sync::Arc;

/// What a caller asks of the store.
#[derive(Drop)]
pub enum Call {
    /// Store an account under a key in a slot.
    Store {
        slot: Slot,
        key: Key,
        account: Arc<Account>,
    },
    /// Make a slot the newest root.
    Root {
        slot: Slot,
    },
    /// Drop the stores of a slot that is no root.
    Purge {
        slot: Slot,
    },
    /// Load what a view sees of a key.
    Load {
        view: View,
        key: Key,
    },
    /// Give back a pin of a storage.
    Unpin {
        id: u64,
    },
    /// Hold on to the views from a greatest root on: what they see isn't cleaned away.
    Lease {
        max_root: u64,
    },
    /// Let go of these views.
    EndLease {
        max_root: u64,
    },
    /// Begin a flush: take a storage that the slot's cached accounts are to be written to.
    FlushBegin {
        slot: Slot,
    },
    /// End a flush: loads are answered from its storage from now on.
    FlushEnd {
        slot: Slot,
    },
    /// Give up a flush, and its storage.
    FlushAbort {
        slot: Slot,
    },
    /// Raise the slot up to which is cleaned.
    Raise {
        upto: Slot,
    },
    /// Drop what nobody can need any more of the first so many crowded keys above a key, or of all.
    Reclaim {
        after: Option<Key>,
        most: usize,
    },
    /// Begin a shrink: take a storage that the rows of the slot's storage are to be copied to which a load may find.
    ShrinkBegin {
        slot: Slot,
    },
    /// End a shrink: loads are answered from the copy from now on.
    ShrinkEnd {
        slot: Slot,
    },
    /// Give up a shrink, and its copy.
    ShrinkAbort {
        slot: Slot,
    },
    /// Begin a snapshot of a root: take hold of the storages that it is written from.
    SnapBegin {
        slot: Slot,
    },
    /// End a snapshot: let go of its storages.
    SnapEnd {
        slot: Slot,
    },
    /// Free the storages that are no longer of use and that nobody pins.
    Recycle,
    /// Count what the store has.
    Stats,
}

/// Where a loaded version stands.
#[derive(Clone, Copy, Debug, PartialEq, Eq)]
pub enum Place {
    /// In the write cache.
    Cached,
    /// In the storage with this id.
    InStorage { id: u64 },
}

/// Why an event changed nothing.
#[derive(Clone, Copy, Debug, PartialEq, Eq)]
pub enum Refusal {
    /// A store into a slot that isn't above the newest root.
    SlotRooted { slot: Slot, newest: Slot },
    /// A root that isn't above the newest root.
    RootOrder { slot: Slot, newest: Slot },
    /// A purge of a slot that is a root.
    Rooted { slot: Slot },
    /// A load at a view, or a lease of views, whose roots end below the slot up to which was cleaned.
    ViewTooOld { max_root: u64, cleaned: Slot },
    /// A load by a pass that has as many pins as a pass may have.
    TooManyPins { most: u64 },
    /// The pass has no pin of this storage.
    NotPinned { id: u64 },
    /// The pass has no lease of the views from this greatest root on.
    NotLeased { max_root: u64 },
    /// A flush of a slot that is no root.
    NotRooted { slot: Slot },
    /// A flush of a slot without stores, or of one that is flushed.
    NothingCached { slot: Slot },
    /// A flush of a slot whose flush into the storage with this id is open.
    Flushing { slot: Slot, id: u64 },
    /// The end of a flush that isn't open, or an abort of one.
    NotFlushing { slot: Slot },
    /// The storages have so many bytes, and with the wanted ones they would have more than they may.
    Full { used: u64, wanted: u128, limit: u64 },
    /// There are as many storages as there may be.
    NoCell { limit: u64 },
    /// No id is left for one more storage.
    IdsSpent,
    /// A raise above the newest root, or where there is no root.
    PastRoot { upto: Slot, newest: Option<Slot> },
    /// A raise above the least greatest root of all leases.
    Leased { upto: Slot, least: u64 },
    /// A shrink of a slot that has no storage to answer loads.
    NoStorage { slot: Slot },
    /// A shrink of a slot whose shrink into the storage with this id is open.
    Shrinking { slot: Slot, id: u64 },
    /// A shrink of a slot whose storage has no row that loads find no more.
    NothingDead { slot: Slot },
    /// The end of a shrink that isn't open, or an abort of one.
    NotShrinking { slot: Slot },
    /// A snapshot while the one of this slot is open.
    SnapOpen { slot: Slot },
    /// A snapshot of a slot that is no root.
    NotRoot { slot: Slot },
    /// A snapshot of a slot below the one up to which was cleaned.
    SnapTooOld { slot: Slot, cleaned: Slot },
    /// A snapshot while this root, the least of those up to its slot, has stores that are in no storage yet.
    Unflushed { slot: Slot },
    /// The end of a snapshot that isn't open.
    NotSnapping { slot: Slot },
}

/// What the store has at one time.
#[derive(Clone, Copy, Debug, PartialEq, Eq)]
pub struct Stats {
    /// Pairs of a slot and a key whose latest account stands in the write cache.
    pub cached: u64,
    /// Storages that are being filled.
    pub filling: u64,
    /// Storages that loads are answered from.
    pub live: u64,
    /// Storages that are no longer of use.
    pub retired: u64,
    /// Pairs of a slot and a key that a load finds in a storage.
    pub named: u64,
    /// Rows of the live storages, those that no load finds any more among them.
    pub rows: u64,
    /// Bytes that all storages have together.
    pub bytes: u64,
    /// What keeps storages as they are: pins of passes, open shrinks, and the storages of an open snapshot.
    pub pins: u64,
}

/// What a caller is told.
#[derive(Drop)]
pub enum Reply {
    /// It is done.
    Done,
    /// Nothing was changed.
    Refused {
        refusal: Refusal,
    },
    /// The slot's stores are gone, which were of so many different keys.
    Purged {
        keys: u64,
    },
    /// The view sees no account of the key.
    NotFound,
    /// The view sees this version.
    Found {
        slot: Slot,
        place: Place,
        account: Arc<Account>,
    },
    /// A flush began, into the storage with this id, which has so many bytes.
    FlushBegun {
        id: u64,
        bytes: u64,
    },
    /// So far is cleaned now.
    Raised {
        cleaned: Slot,
    },
    /// The crowded keys up to this one were looked at.
    Reclaimed {
        key: Key,
    },
    /// No crowded key was left.
    NothingLeft,
    /// A shrink began, of the storage with the old id into the one with the new id, which has so many bytes.
    ShrinkBegun {
        old: u64,
        new: u64,
        bytes: u64,
    },
    /// A shrink ended, and its copy is gone: the slot's old storage was no longer of use.
    Superseded {
        slot: Slot,
        old: u64,
    },
    /// A snapshot began, of so many storages.
    SnapBegun {
        storages: u64,
    },
    /// So many storages are free again.
    Recycled {
        storages: u64,
    },
    /// What the store has.
    Counted {
        stats: Stats,
    },
}

/// A call of a pass, and its reply. A pass is a number from 1 to 65,536 that names one caller.
#[derive(Drop)]
pub struct Event {
    pub pass: u64,
    pub call: Call,
    pub reply: Reply,
}

impl Call {
    ghost use Rattle.adb_model.specs.Seen.{call_of};

    /// An equal call, which shares the account's memory.
    pub fn try_copy(&self, alloc: Global) -> Result<Call, AllocError>
        ensures { IfOk result (λ call. call_of call ≡ call_of self.now) }
    {
        match self {
            Call::Store { slot, key, account } => Ok(Call::Store {
                slot: *slot,
                key: *key,
                account: account.clone()?,
            }),
            Call::Root { slot } => Ok(Call::Root { slot: *slot }),
            Call::Purge { slot } => Ok(Call::Purge { slot: *slot }),
            Call::Load { view, key } => Ok(Call::Load {
                view: view.try_copy(alloc)?,
                key: *key,
            }),
            Call::Unpin { id } => Ok(Call::Unpin { id: *id }),
            Call::Lease { max_root } => Ok(Call::Lease {
                max_root: *max_root,
            }),
            Call::EndLease { max_root } => Ok(Call::EndLease {
                max_root: *max_root,
            }),
            Call::FlushBegin { slot } => Ok(Call::FlushBegin { slot: *slot }),
            Call::FlushEnd { slot } => Ok(Call::FlushEnd { slot: *slot }),
            Call::FlushAbort { slot } => Ok(Call::FlushAbort { slot: *slot }),
            Call::Raise { upto } => Ok(Call::Raise { upto: *upto }),
            Call::Reclaim { after, most } => Ok(Call::Reclaim {
                after: *after,
                most: *most,
            }),
            Call::ShrinkBegin { slot } => Ok(Call::ShrinkBegin { slot: *slot }),
            Call::ShrinkEnd { slot } => Ok(Call::ShrinkEnd { slot: *slot }),
            Call::ShrinkAbort { slot } => Ok(Call::ShrinkAbort { slot: *slot }),
            Call::SnapBegin { slot } => Ok(Call::SnapBegin { slot: *slot }),
            Call::SnapEnd { slot } => Ok(Call::SnapEnd { slot: *slot }),
            Call::Recycle => Ok(Call::Recycle),
            Call::Stats => Ok(Call::Stats),
        }
    }
}
