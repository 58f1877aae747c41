// Storages without a row alive.
ghost use Rattle.std.specs.Prelude.{◌≡◌, ℕ, ◌+◌, Some, count_by};
ghost use Rattle.vec_scan.specs.Seal.{rows_in};
ghost use Rattle.cell_table.specs.Phases.{is_live};
ghost use Rattle.storage_map.specs.Slots.{TellsEmptied};
ghost use Rattle.adb_model.specs.State.{State};
ghost use Rattle.adb_model.specs.Sound.{IsSound};
ghost use Rattle.adb_model.specs.Reclaim.{retire_unnamed};
ghost use Rattle.book_parts.specs.Parts.{Parts};
ghost use Rattle.book_parts.specs.Reclaims.{Unholds};
ghost use Rattle.clean_plan.specs.Leaving.{StandWith};

use accounts_index::AccountsIndex;
use adb_model::{Slot, live_storages_stand, unnamed_storages_retire};
use book_parts::retired_storage_reflects;
use cell_table::CellTable;
use std::sync::Arc;
use storage_map::StorageMap;
use vec_scan::Sealed;

/// Retires each storage in use that has no row alive: its rows are held no longer, and its slot has no storage in
/// use. It takes no memory.
pub fn retire_unnamed(
    index: &mut AccountsIndex,
    cells: &mut CellTable<Arc<Sealed>>,
    map: &mut StorageMap,
)
    requires { (p : Parts) × (m : State) × StandWith p index.old cells.old map.old m }
    ensures sound { (p : Parts) (m : State) → StandWith p index.old cells.old map.old m → IsSound (retire_unnamed m) }
    ensures parts { (p : Parts) (m : State) → StandWith p index.old cells.old map.old m
        → StandWith p index.new cells.new map.new (retire_unnamed m) }
{
    retired_storage_reflects();
    unnamed_storages_retire();
    while let Some(slot) = map.emptied() {
        retire(slot, index, cells, map);
    }
}

// Retires the storage of one slot.
fn retire(
    slot: Slot,
    index: &mut AccountsIndex,
    cells: &mut CellTable<Arc<Sealed>>,
    map: &mut StorageMap,
)
    requires some { (p : Parts) × (m : State) × StandWith p index.old cells.old map.old m }
    requires emptied { TellsEmptied map.old (Some slot) }
    ensures parts { (p : Parts) (m : State) → StandWith p index.old cells.old map.old m
        → (n : State) × StandWith p index.new cells.new map.new n × (retire_unnamed n ≡ retire_unnamed m) }
    ensures fewer { count_by is_live cells.new.cells + 1 ≡ count_by is_live cells.old.cells }
{
    retired_storage_reflects();
    unnamed_storages_retire();
    live_storages_stand();
    let Some(live) = map.live(slot) else {
        unreachable!();
    };
    unhold_rows(cells.get(live.cell), slot, index);
    cells.retire(live.cell);
    map.remove(slot);
}

// Holds the rows of an image no longer.
fn unhold_rows(image: &Sealed, slot: Slot, index: &mut AccountsIndex)
    ensures { Unholds slot (rows_in image.now) index.old index.new }
{
    for offset in image.offsets() {
        let record = image.record_at(*offset);
        index.unhold(&record.key, slot);
    }
}
