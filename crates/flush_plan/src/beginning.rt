ghost use Rattle.std.specs.Prelude.{◌≡◌, ◌+◌, ◌<◌, ℕ, List, true, false, None, Some, length, IfOk, IfErr, OnOk, OnErr, IsTrue};
ghost use Rattle.accounts_index.specs.Index.{kept};
ghost use Rattle.append_vec.specs.Filled.{KeysDiffer};
ghost use Rattle.adb_model.specs.Lists.{among};
ghost use Rattle.adb_model.specs.Presence.{has_row};
ghost use Rattle.adb_model.specs.State.{State};
ghost use Rattle.adb_model.specs.Storages.{bytes_of, open_flush};
ghost use Rattle.adb_model.specs.Flush.{flush_rows, has_cached_key, with_filling};
ghost use Rattle.adb_model.specs.Sound.{IsSound};
ghost use Rattle.book_parts.specs.Parts.{Parts};
ghost use Rattle.book_parts.specs.Reflects.{Reflects};
ghost use Rattle.book_parts.specs.Changes.{SameIndex};
ghost use Rattle.book_parts.specs.Flushes.{FlushBegins, SameSlots};
ghost use Rattle.cell_table.specs.Cells.{Begins, IsUnused};
ghost use Rattle.storage_map.specs.Slots.{live_at, begun_at, begun_with, Becomes};
ghost use Rattle.write_cache.specs.Rows.{rows};
ghost use Rattle.flush_plan.specs.Causes.{IsCauseOf};
ghost use Rattle.flush_plan.specs.States.{having, with_next};

use crate::fault::BeginFault;
use crate::job::FlushJob;
use crate::rows::{cached_rows, expect_rows, stored_bytes, unexpect_rows};
use accounts_index::AccountsIndex;
use adb_model::Slot;
use book_parts::begun_flush_reflects;
use cell_table::{Cell, CellTable};
use std::alloc::Global;
use std::sync::Arc;
use storage_map::StorageMap;
use vec_scan::Sealed;
use write_cache::WriteCache;

/// Begins a flush of the slot's cached rows into a storage under the id: a cell is being filled, and the index has
/// the room to hold each key. The accounts are shared with the cache, and not copied.
///
/// # Errors
/// What the cells refuse so many bytes for, `Full` before `NoCell`; else `NoMemory`. All parts are as they were.
///
/// Parts that reflect a state in which the slot has a cached key and no open flush then reflect the one in which the
/// flush has begun.
pub fn begin(
    alloc: Global,
    slot: Slot,
    id: u64,
    cache: &WriteCache,
    index: &mut AccountsIndex,
    cells: &mut CellTable<Arc<Sealed>>,
    map: &mut StorageMap,
) -> Result<FlushJob, BeginFault>
    requires some { 0 < length (rows cache.now slot) }
    requires differ { KeysDiffer (rows cache.now slot) }
    requires none { begun_at map.old slot ≡ None }
    requires unused { IsUnused id cells.old.cells }
    requires fresh { (k : List ℕ) → has_row k (rows cache.now slot) ≡ true → among slot (kept index.old k).expected ≡ false }
    ensures ok { IfOk result (λ job. (cell : ℕ) × FlushBegins slot id cell (rows cache.now slot) index.old index.new cells.old cells.new map.old map.new) }
    ensures job { IfOk result (λ job. job ≡ record { slot = slot; id = id; bytes = bytes_of (rows cache.now slot); rows = rows cache.now slot }) }
    ensures fault { IfErr result (IsCauseOf cells.old (bytes_of (rows cache.now slot))) }
    ensures index { OnErr result (SameIndex index.old index.new) }
    ensures cells { OnErr result (cells.new ≡ cells.old) }
    ensures map { OnErr result (SameSlots map.old map.new) }
    ensures begun { (p : Parts) (m : State) → IsSound m → Reflects (with_next (having p cache.now index.old cells.old map.old) id) m
        → IsTrue (has_cached_key m slot) → open_flush m slot ≡ None
        → OnOk result (Reflects (with_next (having p cache.now index.new cells.new map.new) (id + 1)) (with_filling m slot (flush_rows m slot))) }
    ensures kept { (p : Parts) (m : State) → Reflects (with_next (having p cache.now index.old cells.old map.old) id) m
        → OnErr result (Reflects (with_next (having p cache.now index.new cells.new map.new) id) m) }
{
    begun_flush_reflects();
    let bytes = stored_bytes(cache, slot);
    cells.check(bytes)?;
    // The bytes fit the limit, and so a u64.
    let _limit = cells.limit();
    let accounts = cached_rows(alloc, cache, slot)?;
    expect_rows(index, slot, &accounts)?;
    match begin_storage(slot, id, bytes, accounts.len() as u64, cells, map) {
        Ok(_) => Ok(FlushJob::new(slot, id, bytes as u64, accounts)),
        Err(fault) => {
            unexpect_rows(index, slot, &accounts);
            Err(fault)
        }
    }
}

// Begins a storage of so many bytes and rows in the cells and in the map, or in neither.
fn begin_storage(
    slot: Slot,
    id: u64,
    bytes: u128,
    rows: u64,
    cells: &mut CellTable<Arc<Sealed>>,
    map: &mut StorageMap,
) -> Result<Cell, BeginFault>
    requires { IsUnused id cells.old.cells }
    ensures cells { IfOk result (Begins cells.old cells.new id bytes) }
    ensures map { IfOk result (λ cell. Becomes map.old map.new slot (live_at map.old slot) (Some (begun_with cell rows))) }
    ensures fault { IfErr result (IsCauseOf cells.old bytes) }
    ensures same_cells { OnErr result (cells.new ≡ cells.old) }
    ensures same_map { OnErr result (map.new ≡ map.old) }
{
    let cell = cells.begin(id, bytes)?;
    if map.begin(slot, cell, rows).is_err() {
        cells.abandon(cell);
        return Err(BeginFault::NoMemory);
    }
    Ok(cell)
}
