ghost use Rattle.std.specs.Prelude.{◌≡◌, ◌+◌, ◌<◌, ◌-◌, ◌^◌, ℕ, true, None, Some, IfOk, IfErr, OnOk, OnErr, IsSomeAnd};
ghost use Rattle.adb_model.specs.State.{Storage, State};
ghost use Rattle.adb_model.specs.Storages.{bytes_of, live_storage, open_shrink};
ghost use Rattle.adb_model.specs.Shrink.{shrinking};
ghost use Rattle.adb_model.specs.Sound.{IsSound};
ghost use Rattle.book_parts.specs.Parts.{Parts};
ghost use Rattle.book_parts.specs.Reflects.{Reflects};
ghost use Rattle.book_parts.specs.Shrinks.{IsCopyIn, IsOpenCopy, ShrinkBegins, copied_rows, copy_of};
ghost use Rattle.cell_table.specs.Phases.{has_id, is_live};
ghost use Rattle.cell_table.specs.Cells.{cell_at, pins, Begins, IsUnused};
ghost use Rattle.storage_map.specs.Slots.{live_at, begun_at, begun_with, Becomes};
ghost use Rattle.shrink_plan.specs.Causes.{IsCauseOf};
ghost use Rattle.shrink_plan.specs.Sources.{OfStorage};
ghost use Rattle.shrink_plan.specs.States.{having, with_next};

use crate::fault::BeginFault;
use crate::job::ShrinkJob;
use crate::sorting::{bytes_to_copy, sort_rows};
use accounts_index::AccountsIndex;
use adb_model::Slot;
use book_parts::begun_shrink_reflects;
use cell_table::{Cell, CellTable};
use std::alloc::Global;
use std::sync::Arc;
use storage_map::StorageMap;
use vec_scan::Sealed;

/// Begins a shrink of the slot's storage in use into a storage under the id: a cell is being filled, and the old
/// storage's cell is pinned once more. The index stays as it is.
///
/// # Errors
/// What the cells refuse the bytes of the copy for, `Full` before `NoCell`; or `NoMemory`. All parts are as they were.
///
/// Parts that reflect a state in which no shrink of the slot is open then reflect the one in which the shrink has
/// begun, and the job is the shrink that is open there.
pub fn begin(
    alloc: Global,
    slot: Slot,
    id: u64,
    index: &AccountsIndex,
    cells: &mut CellTable<Arc<Sealed>>,
    map: &mut StorageMap,
) -> Result<ShrinkJob, BeginFault>
    requires in_use { IsSomeAnd (live_at map.old slot) (λ live. is_live (cell_at cells.old.cells live.cell) ≡ true) }
    requires none { begun_at map.old slot ≡ None }
    requires unused { IsUnused id cells.old.cells }
    requires pins { pins cells.old.cells < 2 ^ 64 - 1 }
    ensures ok { IfOk result (λ job. OfStorage slot cells.old map.old (λ live image.
        (cell : ℕ) × (job ≡ copy_of index.now slot live.cell image.value id)
        × ShrinkBegins slot id live.cell cell (copied_rows index.now slot live.cell image.value) cells.old cells.new map.old map.new)) }
    // What has begun is open, where the image has the id of its cell.
    ensures open { IfOk result (λ job. OfStorage slot cells.old map.old (λ live image.
        has_id image.value.id (cell_at cells.old.cells live.cell) ≡ true → (cell : ℕ) × IsCopyIn job live.cell cell cells.new map.new)) }
    ensures fault { IfErr result (λ fault. OfStorage slot cells.old map.old (λ live image.
        IsCauseOf cells.old (bytes_of (copied_rows index.now slot live.cell image.value)) fault)) }
    ensures cells { OnErr result (cells.new ≡ cells.old) }
    ensures map { OnErr result (map.new ≡ map.old) }
    ensures begun { (p : Parts) (m : State) (old : Storage) → IsSound m → Reflects (with_next (having p index.now cells.old map.old) id) m
        → live_storage m slot ≡ Some old → open_shrink m slot ≡ None
        → OnOk result (Reflects (with_next (having p index.now cells.new map.new) (id + 1)) (shrinking m old)) }
    ensures tied { (p : Parts) (m : State) (old : Storage) → IsSound m → Reflects (with_next (having p index.now cells.old map.old) id) m
        → live_storage m slot ≡ Some old → open_shrink m slot ≡ None
        → IfOk result (λ job. IsOpenCopy job (shrinking m old)) }
{
    begun_shrink_reflects();
    let Some(live) = map.live(slot) else {
        unreachable!();
    };
    let image = cells.get(live.cell);
    let rows = sort_rows(alloc, slot, live.cell, image, index)?;
    let image = image.clone()?;
    // The bytes fit the limit, and so a u64.
    let _limit = cells.limit();
    let copied = rows.copied.len() as u64;
    begin_storage(slot, id, rows.bytes, copied, cells, map)?;
    cells.pin(live.cell);
    Ok(ShrinkJob::new(slot, id, rows.bytes as u64, image, rows.copied, rows.dead))
}

/// The bytes that a copy of the slot's storage in use takes.
pub fn copied_bytes(
    slot: Slot,
    index: &AccountsIndex,
    cells: &CellTable<Arc<Sealed>>,
    map: &StorageMap,
) -> u128
    requires { IsSomeAnd (live_at map.now slot) (λ live. is_live (cell_at cells.now.cells live.cell) ≡ true) }
    ensures { OfStorage slot cells.now map.now (λ live image. result ≡ bytes_of (copied_rows index.now slot live.cell image.value)) }
{
    let Some(live) = map.live(slot) else {
        unreachable!();
    };
    bytes_to_copy(slot, live.cell, cells.get(live.cell), index)
}

// Begins a storage of so many bytes and rows in the cells and in the map, or in neither.
fn begin_storage(
    slot: Slot,
    id: u64,
    bytes: u128,
    rows: u64,
    cells: &mut CellTable<Arc<Sealed>>,
    map: &mut StorageMap,
) -> Result<Cell, BeginFault>
    requires { IsUnused id cells.old.cells }
    ensures cells { IfOk result (Begins cells.old cells.new id bytes) }
    ensures map { IfOk result (λ cell. Becomes map.old map.new slot (live_at map.old slot) (Some (begun_with cell rows))) }
    ensures fault { IfErr result (IsCauseOf cells.old bytes) }
    ensures same_cells { OnErr result (cells.new ≡ cells.old) }
    ensures same_map { OnErr result (map.new ≡ map.old) }
{
    let cell = cells.begin(id, bytes)?;
    if map.begin(slot, cell, rows).is_err() {
        cells.abandon(cell);
        return Err(BeginFault::NoMemory);
    }
    Ok(cell)
}
