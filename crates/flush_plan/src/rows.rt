// The rows of a flush, and what its steps change of them in the index.
ghost use Rattle.std.specs.Prelude.{◌≡◌, ◌≢◌, ◌*◌, ◌^◌, ◌≤◌, ℕ, List, true, false, length, AllPairs, IfOk, OnOk, OnErr, IsSome};
ghost use Rattle.accounts_index.specs.Index.{kept};
ghost use Rattle.adb_model.specs.Lists.{among};
ghost use Rattle.adb_model.specs.Presence.{has_row};
ghost use Rattle.adb_model.specs.Storages.{bytes_of};
ghost use Rattle.book_parts.specs.Changes.{SameIndex};
ghost use Rattle.book_parts.specs.Flushes.{Expects, Unexpects, Moves};
ghost use Rattle.write_cache.specs.Rows.{rows};
ghost use Rattle.append_vec.specs.Filled.{rows_of};
ghost use Rattle.flush_plan.specs.Moving.{CanMove};

use account_layout::stored_size;
use accounts_index::AccountsIndex;
use adb_model::{Account, Key, Slot};
use cell_table::Cell;
use slot_list::Place;
use std::alloc::{AllocError, Global};
use std::sync::Arc;
use write_cache::WriteCache;

/// The bytes that the records of a slot's cached rows take.
pub fn stored_bytes(cache: &WriteCache, slot: Slot) -> u128
    ensures { result ≡ bytes_of (rows cache.now slot) }
{
    let mut bytes = 0;
    for at in 0..cache.count(slot) {
        let Some((_, account)) = cache.row(slot, at) else {
            unreachable!();
        };
        bytes += stored_size(account) as u128;
    }
    bytes
}

/// The cached rows of a slot. The accounts are shared, and not copied.
pub fn cached_rows(
    alloc: Global,
    cache: &WriteCache,
    slot: Slot,
) -> Result<Vec<(Key, Arc<Account>)>, AllocError>
    ensures { IfOk result (λ accounts. rows_of accounts.items ≡ rows cache.now slot) }
{
    let mut accounts = Vec::with_capacity(alloc, cache.count(slot))?;
    for at in 0..cache.count(slot) {
        let Some((key, account)) = cache.row(slot, at) else {
            unreachable!();
        };
        accounts.push((key, account.clone()?))?;
    }
    Ok(accounts)
}

/// Expects the rows' keys to be held in the slot, all or none.
pub fn expect_rows(
    index: &mut AccountsIndex,
    slot: Slot,
    accounts: &[(Key, Arc<Account>)],
) -> Result<(), AllocError>
    requires { (k : List ℕ) → has_row k (rows_of accounts.now) ≡ true → among slot (kept index.old k).expected ≡ false }
    ensures ok { OnOk result (Expects slot (rows_of accounts.now) index.old index.new) }
    ensures err { OnErr result (SameIndex index.old index.new) }
{
    for (at, (key, _)) in accounts.iter().enumerate() {
        if let Err(error) = index.expect(key, slot) {
            unexpect_rows(index, slot, &accounts[..at]);
            return Err(error);
        }
    }
    Ok(())
}

/// Expects the rows' keys to be held in the slot no longer.
pub fn unexpect_rows(index: &mut AccountsIndex, slot: Slot, accounts: &[(Key, Arc<Account>)])
    ensures { Unexpects slot (rows_of accounts.now) index.old index.new }
{
    for (key, _) in accounts {
        index.unexpect(key, slot);
    }
}

/// Finds the rows' versions at their places in the cell, and holds their keys in the slot.
pub fn rehome_rows(
    index: &mut AccountsIndex,
    slot: Slot,
    cell: Cell,
    accounts: &[(Key, Arc<Account>)],
    places: &[usize],
)
    requires ready { CanMove slot (rows_of accounts.now) index.old }
    requires each { length places.now ≡ length accounts.now }
    ensures { Moves slot cell (rows_of accounts.now) places.now index.old index.new }
{
    for ((key, _), offset) in accounts.iter().zip(places) {
        let place = Place::Stored {
            cell,
            offset: *offset,
        };
        index.settle(key, slot, place);
    }
}
