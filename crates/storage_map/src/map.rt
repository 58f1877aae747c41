ghost use Rattle.std.specs.Prelude.{◌≡◌, ◌+◌, ◌%◌, ◌^◌, ◌<◌, ℕ, [], Some, None, option_map, IsSome, IsSomeAnd, OnOk, OnErr};
ghost use Rattle.storage_map.specs.Slots.{live_at, begun_at, HasEntry, alive_sum, total_sum, begun_with, published, one_less, Becomes, IsNextLive, TellsEmptied};

use crate::emptied::relist;
use crate::entry::{Begun, Entry, Live};
use crate::slots::{Slots, change_entry, entry_of, next_from, put_entry};
use adb_model::Slot;
use cell_table::Cell;
use std::alloc::{AllocError, Global};
use std::collections::BTreeMap;
use std::marker::Model;

/// The storages of slots: of each the one in use, and the one that is being filled.
#[derive(Drop)]
pub struct StorageMap {
    slots: Slots,

    // The slots whose storage in use has no row alive, with room for all slots.
    emptied: Vec<Slot>,

    // The sums over the live storages, modulo 2^64.
    alive: u64,
    total: u64,
}

impl Model for StorageMap {
    ghost use Rattle.storage_map.specs.Slots as seen;

    ghost Value = { seen.Slots };

    ghost use Rattle.std.specs.Vec.{vec_capacity};
    ghost use Rattle.storage_map.specs.Inside.{IsCounted, AreListed};

    ghost view = { λ m. m.slots.entries };

    ghost invariant = { λ m. IsCounted m.slots.entries m.alive m.total × AreListed m.slots.entries m.emptied.items (vec_capacity m.emptied) };
}

impl StorageMap {
    /// A map without storages.
    pub fn new(alloc: Global) -> StorageMap
        ensures { result ≡ [] }
    {
        StorageMap {
            slots: BTreeMap::new(alloc),
            emptied: Vec::new(alloc),
            alive: 0,
            total: 0,
        }
    }

    /// Begins a storage of a slot, of so many rows, in place of one that was begun before.
    ///
    /// # Errors
    /// `AllocError` where there is no memory; the map is as it was.
    pub fn begin(&mut self, slot: Slot, cell: Cell, rows: u64) -> Result<(), AllocError>
        ensures ok { OnOk result (Becomes self.old self.new slot (live_at self.old slot) (Some (begun_with cell rows))) }
        ensures err { OnErr result (self.new ≡ self.old) }
    {
        self.emptied.reserve(self.slots.len() + 1)?;
        let entry = Entry {
            live: entry_of(&self.slots, slot).live,
            begun: Some(Begun { cell, rows }),
        };
        put_entry(&mut self.slots, slot, entry)
    }

    /// The storage of a slot that is in use.
    pub fn live(&self, slot: Slot) -> Option<Live>
        ensures { result ≡ live_at self.now slot }
    {
        entry_of(&self.slots, slot).live
    }

    /// The storage of a slot that is being filled.
    pub fn begun(&self, slot: Slot) -> Option<Begun>
        ensures { result ≡ begun_at self.now slot }
    {
        entry_of(&self.slots, slot).begun
    }

    /// The storage that was begun becomes the one in use, with all its rows. As many of them are alive as in the
    /// storage that was in use before, or all where there was none. It takes no memory.
    pub fn publish(&mut self, slot: Slot)
        requires { IsSome (begun_at self.old slot) }
        ensures { Becomes self.old self.new slot (published (live_at self.old slot) (begun_at self.old slot)) None }
    {
        let old = entry_of(&self.slots, slot);
        let Some(begun) = old.begun else {
            unreachable!()
        };
        let live = Live {
            cell: begun.cell,
            alive: old.live.map_or(begun.rows, |live| live.alive),
            total: begun.rows,
        };
        let live = Some(live);
        self.change(slot, old, Entry { live, begun: None });
    }

    /// The storage that was begun leaves. It takes no memory.
    pub fn abandon(&mut self, slot: Slot)
        ensures { Becomes self.old self.new slot (live_at self.old slot) None }
    {
        let old = entry_of(&self.slots, slot);
        self.change(slot, old, Entry { begun: None, ..old });
    }

    /// One row of the storage in use is no longer alive; says how many are left. It takes no memory.
    pub fn lose(&mut self, slot: Slot) -> u64
        requires { IsSomeAnd (live_at self.old slot) (λ live. 0 < live.alive) }
        ensures left { option_map (λ live. live.alive) (live_at self.old slot) ≡ Some (result + 1) }
        ensures less { Becomes self.old self.new slot (option_map one_less (live_at self.old slot)) (begun_at self.old slot) }
    {
        let old = entry_of(&self.slots, slot);
        let Some(live) = old.live else { unreachable!() };
        let alive = live.alive - 1;
        let live = Some(Live { alive, ..live });
        self.change(slot, old, Entry { live, ..old });
        alive
    }

    /// The storage in use leaves. It takes no memory.
    pub fn remove(&mut self, slot: Slot)
        ensures { Becomes self.old self.new slot None (begun_at self.old slot) }
    {
        let old = entry_of(&self.slots, slot);
        self.change(slot, old, Entry { live: None, ..old });
    }

    /// The least slot, at or above `from`, that has a storage in use.
    pub fn next_live(&self, from: Slot) -> Option<Slot>
        ensures { IsNextLive self.now from result }
    {
        next_from(&self.slots, from)
    }

    /// A slot whose storage in use has no row alive, or `None` where there is none.
    pub fn emptied(&self) -> Option<Slot>
        ensures { TellsEmptied self.now result }
    {
        self.emptied.last().copied()
    }

    /// The sums of the alive rows and of all rows over the storages in use.
    pub fn sums(&self) -> (u64, u64)
        requires alive { alive_sum self.now < 2 ^ 64 }
        requires total { total_sum self.now < 2 ^ 64 }
        ensures alive { result.0 ≡ alive_sum self.now }
        ensures total { result.1 ≡ total_sum self.now }
    {
        (self.alive, self.total)
    }

    // Makes what a slot has another entry.
    fn change(&mut self, slot: Slot, old: Entry, new: Entry)
        requires was_live { old.live ≡ live_at self.old slot }
        requires was_begun { old.begun ≡ begun_at self.old slot }
        requires live { IsSome new.live → HasEntry self.old slot }
        requires begun { IsSome new.begun → HasEntry self.old slot }
        ensures { Becomes self.old self.new slot new.live new.begun }
    {
        self.alive = moved(self.alive, old.alive(), new.alive());
        self.total = moved(self.total, old.total(), new.total());
        change_entry(&mut self.slots, slot, new);
        relist(&mut self.emptied, slot, old.is_emptied(), new.is_emptied());
    }
}

// A sum, modulo 2^64, one of whose numbers became another.
fn moved(sum: u64, before: u64, after: u64) -> u64
    ensures { (old new : ℕ) → sum ≡ old % 2 ^ 64 → new + before ≡ old + after → result ≡ new % 2 ^ 64 }
{
    sum.wrapping_sub(before).wrapping_add(after)
}
