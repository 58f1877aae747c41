ghost use Rattle.std.specs.Prelude.{◌≡◌, ◌+◌, ◌≤◌, ◌<◌, if◌then◌else◌, [], ◌∷◌, length, take, option_map, slice_get, OnOk, OnErr, IfOk, IsOk, IsSome, is_some};
ghost use Rattle.adb_model.specs.Cache.{put_row};
ghost use Rattle.write_cache.specs.Inside.{borrowed_row, rows_of, seen, AreFilled};
ghost use Rattle.write_cache.specs.Rows.{rows, total, account_at, IsWith, IsNextSlot};

use adb_model::{Account, Key, Slot};
use indexmap::IndexMap;
use std::alloc::{AllocError, Global};
use std::collections::BTreeMap;
use std::sync::Arc;

/// The accounts of a slot by key, in the order of their first store.
pub type Rows = IndexMap<Key, Arc<Account>>;

/// The rows of each slot that has some.
pub type Slots = BTreeMap<Slot, Rows>;

/// Whether a key has an account in a slot.
pub fn has_row(slots: &Slots, slot: Slot, key: &Key) -> bool
    ensures { result ≡ is_some (account_at (rows (seen slots.now.entries) slot) key.now.0) }
{
    match slots.get(&slot) {
        Some(rows) => rows.contains_key(key),
        None => false,
    }
}

/// Puts an account in, and gives the one that its key had in the slot before.
pub fn put_in(
    slots: &mut Slots,
    alloc: Global,
    slot: Slot,
    key: Key,
    account: Arc<Account>,
) -> Result<Option<Arc<Account>>, AllocError>
    requires { AreFilled slots.old.entries }
    ensures filled { AreFilled slots.new.entries }
    ensures replaced { IfOk result (λ replaced. option_map (λ a. a.value) replaced ≡ account_at (rows (seen slots.old.entries) slot) key.0) }
    ensures rows { OnOk result (IsWith (seen slots.old.entries) (seen slots.new.entries) slot (put_row (rows (seen slots.old.entries) slot) key.0 account.value)) }
    ensures total { IfOk result (λ replaced. total (seen slots.new.entries) ≡ total (seen slots.old.entries) + (if is_some replaced then 0 else 1)) }
    ensures replaces { IsSome (account_at (rows (seen slots.old.entries) slot) key.0) → IsOk result }
    ensures err { OnErr result (seen slots.new.entries ≡ seen slots.old.entries) }
{
    if let Some(rows) = slots.get_mut(&slot) {
        return put_in_rows(rows, key, account);
    }
    let rows = first_row(alloc, key, account)?;
    slots.insert(slot, rows)?;
    Ok(None)
}

fn put_in_rows(
    rows: &mut Rows,
    key: Key,
    account: Arc<Account>,
) -> Result<Option<Arc<Account>>, AllocError>
    ensures rows { OnOk result (rows_of rows.new ≡ put_row (rows_of rows.old) key.0 account.value) }
    ensures replaced { IfOk result (λ replaced. option_map (λ a. a.value) replaced ≡ account_at (rows_of rows.old) key.0) }
    ensures len { IfOk result (λ replaced. length rows.new.entries ≡ length rows.old.entries + (if is_some replaced then 0 else 1)) }
    ensures replaces { IsSome (account_at (rows_of rows.old) key.0) → IsOk result }
    ensures never_less { length rows.old.entries ≤ length rows.new.entries }
    ensures err { OnErr result (rows.new.entries ≡ rows.old.entries) }
{
    let replaced = rows.insert(key, account)?;
    Ok(replaced)
}

fn first_row(alloc: Global, key: Key, account: Arc<Account>) -> Result<Rows, AllocError>
    ensures { IfOk result (λ rows. rows_of rows ≡ record { key = key.0; account = account.value } ∷ []) }
{
    let mut rows = IndexMap::new(alloc);
    rows.insert(key, account)?;
    Ok(rows)
}

/// Lets go of the rows of a slot, and says how many there were.
pub fn drop_rows(slots: &mut Slots, slot: Slot) -> usize
    requires { AreFilled slots.old.entries }
    ensures filled { AreFilled slots.new.entries }
    ensures count { result ≡ length (rows (seen slots.old.entries) slot) }
    ensures rows { IsWith (seen slots.old.entries) (seen slots.new.entries) slot [] }
    ensures total { total (seen slots.old.entries) ≡ total (seen slots.new.entries) + result }
{
    match slots.remove(&slot) {
        Some(rows) => rows.len(),
        None => 0,
    }
}

/// Lets go of all rows of a slot but the first ones, so many.
pub fn keep_rows(slots: &mut Slots, slot: Slot, count: usize)
    requires filled { AreFilled slots.old.entries }
    requires some { 0 < count }
    requires fewer { count < length (rows (seen slots.old.entries) slot) }
    ensures filled { AreFilled slots.new.entries }
    ensures rows { IsWith (seen slots.old.entries) (seen slots.new.entries) slot (take count (rows (seen slots.old.entries) slot)) }
    ensures total { total (seen slots.old.entries) + count ≡ total (seen slots.new.entries) + length (rows (seen slots.old.entries) slot) }
{
    match slots.get_mut(&slot) {
        Some(rows) => rows.truncate(count),
        None => unreachable!(),
    }
}

/// The row that was first stored as number `at`.
pub fn row_at(rows: &Rows, at: usize) -> Option<(Key, &Arc<Account>)>
    ensures { option_map borrowed_row result ≡ slice_get (rows_of rows.now) at }
{
    match rows.get_index(at) {
        Some((key, account)) => Some((*key, account)),
        None => None,
    }
}

/// The least slot, at or above `from`, that has rows.
pub fn next_from(slots: &Slots, from: Slot) -> Option<Slot>
    requires { AreFilled slots.now.entries }
    ensures { IsNextSlot (seen slots.now.entries) from result }
{
    match slots.range(from..).next() {
        Some((slot, _)) => Some(*slot),
        None => None,
    }
}
