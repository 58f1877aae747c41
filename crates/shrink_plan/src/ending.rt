ghost use Rattle.std.specs.Prelude.{◌≡◌, ℕ, true, false};
ghost use Rattle.adb_model.specs.State.{State};
ghost use Rattle.adb_model.specs.Shrink.{is_current, copy_dropped};
ghost use Rattle.adb_model.specs.Sound.{IsSound};
ghost use Rattle.book_parts.specs.Parts.{Parts};
ghost use Rattle.book_parts.specs.Cells.{IsImageOf};
ghost use Rattle.book_parts.specs.Reflects.{Reflects};
ghost use Rattle.book_parts.specs.Shrinks.{IsCopyIn, IsOpenCopy, ShrinkInstalls, ShrinkLeaves, is_in_use_at, shrink_of, storage_of};
ghost use Rattle.shrink_plan.specs.Places.{StandAt};
ghost use Rattle.shrink_plan.specs.States.{having, ended};

use crate::job::ShrinkJob;
use accounts_index::AccountsIndex;
use adb_model::Slot;
use book_parts::{dropped_shrink_reflects, installed_shrink_reflects, open_shrink_reflects};
use cell_table::{Cell, CellTable};
use std::sync::Arc;
use storage_map::StorageMap;
use vec_scan::Sealed;

/// Ends a shrink. Where the old storage is in use still, it is retired, the copy is live with the image, and the
/// copied versions that are there still are found in it; the keys that it leaves out are held no longer. Where the
/// old storage is not in use, the shrink is given up. Says whether the copy is in use. It takes no memory.
pub fn end(
    job: ShrinkJob,
    sealed: Arc<Sealed>,
    places: &[usize],
    index: &mut AccountsIndex,
    cells: &mut CellTable<Arc<Sealed>>,
    map: &mut StorageMap,
) -> bool
    requires open { (from : ℕ) × (cell : ℕ) × IsCopyIn job from cell cells.old map.old }
    requires placed { StandAt sealed.value places.now job.rows }
    ensures current { (from cell : ℕ) → IsCopyIn job from cell cells.old map.old → result ≡ is_in_use_at map.old job.slot from }
    ensures installed { (from cell : ℕ) → IsCopyIn job from cell cells.old map.old → result ≡ true
        → ShrinkInstalls job from cell sealed places.now index.old index.new cells.old cells.new map.old map.new }
    ensures superseded { (from cell : ℕ) → IsCopyIn job from cell cells.old map.old → result ≡ false
        → (index.new ≡ index.old) × ShrinkLeaves job.slot from cell cells.old cells.new map.old map.new }
    ensures answer { (p : Parts) (m : State) → IsSound m → Reflects (having p index.old cells.old map.old) m → IsOpenCopy job m
        → result ≡ is_current m (shrink_of job) }
    ensures state { (p : Parts) (m : State) → IsSound m → Reflects (having p index.old cells.old map.old) m → IsOpenCopy job m
        → IsImageOf (storage_of job) sealed.value
        → Reflects (having p index.new cells.new map.new) (ended m (shrink_of job)) }
{
    open_shrink_reflects();
    installed_shrink_reflects();
    dropped_shrink_reflects();
    let slot = job.slot();
    let Some(from) = cells.cell_of(job.old()) else {
        unreachable!();
    };
    let Some(begun) = map.begun(slot) else {
        unreachable!();
    };
    if !is_in_use_at(map, slot, from) {
        abort(job, cells, map);
        return false;
    }
    job.rehome_rows(index, begun.cell, places);
    job.unhold_dead(index);
    cells.unpin(from);
    cells.retire(from);
    cells.publish(begun.cell, sealed);
    map.publish(slot);
    true
}

/// Gives a shrink up: its cell is free again, and the old storage's cell is pinned once less. It takes no memory.
pub fn abort(job: ShrinkJob, cells: &mut CellTable<Arc<Sealed>>, map: &mut StorageMap)
    requires { (from : ℕ) × (cell : ℕ) × IsCopyIn job from cell cells.old map.old }
    ensures parts { (from cell : ℕ) → IsCopyIn job from cell cells.old map.old → ShrinkLeaves job.slot from cell cells.old cells.new map.old map.new }
    ensures state { (p : Parts) (m : State) → IsSound m → Reflects (having p p.index cells.old map.old) m → IsOpenCopy job m
        → Reflects (having p p.index cells.new map.new) (copy_dropped m (shrink_of job)) }
{
    open_shrink_reflects();
    dropped_shrink_reflects();
    let slot = job.slot();
    let Some(pinned) = cells.cell_of(job.old()) else {
        unreachable!();
    };
    let Some(begun) = map.begun(slot) else {
        unreachable!();
    };
    cells.unpin(pinned);
    cells.abandon(begun.cell);
    map.abandon(slot);
}

// Whether the slot's storage in use is in the cell.
fn is_in_use_at(map: &StorageMap, slot: Slot, cell: Cell) -> bool
    ensures { result ≡ is_in_use_at map.now slot cell }
{
    match map.live(slot) {
        Some(live) => live.cell == cell,
        None => false,
    }
}
