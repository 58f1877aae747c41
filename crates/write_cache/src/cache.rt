ghost use Rattle.std.specs.Prelude.{◌≡◌, ◌+◌, ◌-◌, ◌^◌, ◌<◌, if◌then◌else◌, [], length, take, option_map, option_copied, slice_get, None, IfOk, OnOk, OnErr, IsOk, IsErr, IsSome, is_some};
ghost use Rattle.adb_model.specs.Cache.{put_row};
ghost use Rattle.write_cache.specs.Inside.{borrowed_row};
ghost use Rattle.write_cache.specs.Rows.{rows, total, account_at, IsWith, IsNextSlot};

use crate::slots::{Slots, drop_rows, has_row, keep_rows, next_from, put_in, row_at};
use adb_model::{Account, Key, Slot};
use std::alloc::{AllocError, Global};
use std::collections::BTreeMap;
use std::marker::Model;
use std::sync::Arc;

/// Accounts by slot and key, the keys of a slot in the order of their first store.
#[derive(Drop)]
pub struct WriteCache {
    slots: Slots,
    total: u64,
    alloc: Global,
}

impl Model for WriteCache {
    ghost use Rattle.write_cache.specs.Inside.{seen, IsCounted};
    ghost use Rattle.write_cache.specs.Rows.{Cache};

    ghost Value = { Cache };

    ghost view = { λ c. seen c.slots.entries };

    ghost invariant = { λ c. IsCounted c.slots.entries c.total };
}

impl WriteCache {
    /// A cache without accounts.
    pub fn new(alloc: Global) -> WriteCache
        ensures { result ≡ [] }
    {
        WriteCache {
            slots: BTreeMap::new(alloc),
            total: 0,
            alloc,
        }
    }

    /// Stores an account, in place of the one that the key has in the slot, which takes no memory, or as
    /// the slot's last.
    pub fn put(&mut self, slot: Slot, key: Key, account: Arc<Account>) -> Result<(), AllocError>
        ensures rows { OnOk result (IsWith self.old self.new slot (put_row (rows self.old slot) key.0 account.value)) }
        ensures total { OnOk result (total self.new ≡ total self.old + (if is_some (account_at (rows self.old slot) key.0) then 0 else 1)) }
        ensures replaces { IsSome (account_at (rows self.old slot) key.0) → IsOk result }
        ensures full { total self.old ≡ 2 ^ 64 - 1 → account_at (rows self.old slot) key.0 ≡ None → IsErr result }
        ensures err { OnErr result (self.new ≡ self.old) }
    {
        let _ = self.insert(slot, key, account)?;
        Ok(())
    }

    /// Does what `put` does, and gives the account that was replaced.
    pub fn insert(
        &mut self,
        slot: Slot,
        key: Key,
        account: Arc<Account>,
    ) -> Result<Option<Arc<Account>>, AllocError>
        ensures replaced { IfOk result (λ replaced. option_map (λ a. a.value) replaced ≡ account_at (rows self.old slot) key.0) }
        ensures rows { OnOk result (IsWith self.old self.new slot (put_row (rows self.old slot) key.0 account.value)) }
        ensures total { OnOk result (total self.new ≡ total self.old + (if is_some (account_at (rows self.old slot) key.0) then 0 else 1)) }
        ensures replaces { IsSome (account_at (rows self.old slot) key.0) → IsOk result }
        ensures full { total self.old ≡ 2 ^ 64 - 1 → account_at (rows self.old slot) key.0 ≡ None → IsErr result }
        ensures err { OnErr result (self.new ≡ self.old) }
    {
        if self.total == u64::MAX && !has_row(&self.slots, slot, &key) {
            return Err(AllocError);
        }
        let replaced = put_in(&mut self.slots, self.alloc, slot, key, account)?;
        if replaced.is_none() {
            self.total += 1;
        }
        Ok(replaced)
    }

    /// Lets go of the last row of a slot, as before the `insert` that made it. It takes no memory.
    pub fn take_last(&mut self, slot: Slot)
        requires { 0 < length (rows self.old slot) }
        ensures rows { IsWith self.old self.new slot (take (length (rows self.old slot) - 1) (rows self.old slot)) }
        ensures total { total self.old ≡ total self.new + 1 }
    {
        let count = self.count(slot);
        if count == 1 {
            let _ = drop_rows(&mut self.slots, slot);
        } else {
            keep_rows(&mut self.slots, slot, count - 1);
        }
        self.total -= 1;
    }

    /// The account that a key has in a slot.
    pub fn get(&self, slot: Slot, key: &Key) -> Option<&Arc<Account>>
        ensures { option_map (λ a. a.value) (option_copied result) ≡ account_at (rows self.now slot) key.now.0 }
    {
        match self.slots.get(&slot) {
            Some(rows) => rows.get(key),
            None => None,
        }
    }

    /// How many keys have an account in a slot.
    pub fn count(&self, slot: Slot) -> usize
        ensures { result ≡ length (rows self.now slot) }
    {
        match self.slots.get(&slot) {
            Some(rows) => rows.len(),
            None => 0,
        }
    }

    /// The key of a slot that was first stored as number `at`, with its account.
    pub fn row(&self, slot: Slot, at: usize) -> Option<(Key, &Arc<Account>)>
        ensures { option_map borrowed_row result ≡ slice_get (rows self.now slot) at }
    {
        match self.slots.get(&slot) {
            Some(rows) => row_at(rows, at),
            None => None,
        }
    }

    /// Lets go of all accounts of a slot, and says how many there were. It takes no memory.
    pub fn drop_slot(&mut self, slot: Slot) -> usize
        ensures count { result ≡ length (rows self.old slot) }
        ensures rows { IsWith self.old self.new slot [] }
        ensures total { total self.old ≡ total self.new + result }
    {
        let count = drop_rows(&mut self.slots, slot);
        self.total -= count as u64;
        count
    }

    /// How many accounts there are in all slots.
    pub fn total(&self) -> u64
        ensures { result ≡ total self.now }
    {
        self.total
    }

    /// The least slot, at or above `from`, that has an account.
    pub fn next_slot(&self, from: Slot) -> Option<Slot>
        ensures { IsNextSlot self.now from result }
    {
        next_from(&self.slots, from)
    }
}
