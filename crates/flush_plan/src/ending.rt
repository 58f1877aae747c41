ghost use Rattle.std.specs.Prelude.{ℕ};
ghost use Rattle.book_parts.specs.Flushes.{IsOpenIn, FlushEnds, FlushLeaves};
ghost use Rattle.book_parts.specs.Parts.{Parts};
ghost use Rattle.book_parts.specs.Cells.{IsImageOf};
ghost use Rattle.book_parts.specs.Reflects.{Reflects};
ghost use Rattle.adb_model.specs.State.{State};
ghost use Rattle.adb_model.specs.Flush.{flushed_with, flush_dropped};
ghost use Rattle.adb_model.specs.Sound.{IsSound};
ghost use Rattle.adb_model.specs.Once.{IsOnce};
ghost use Rattle.flush_plan.specs.Jobs.{StandAt, IsOpenJob, storage_of};
ghost use Rattle.flush_plan.specs.States.{having};

use crate::job::FlushJob;
use crate::rows::{rehome_rows, unexpect_rows};
use accounts_index::AccountsIndex;
use book_parts::{ended_flush_reflects, open_flush_reflects};
use cell_table::CellTable;
use std::sync::Arc;
use storage_map::StorageMap;
use vec_scan::Sealed;
use write_cache::WriteCache;

/// Ends a flush: its cell is live with the image, its rows are found there and held, and the slot's cached rows go.
/// It takes no memory.
pub fn end(
    job: FlushJob,
    sealed: Arc<Sealed>,
    places: &[usize],
    cache: &mut WriteCache,
    index: &mut AccountsIndex,
    cells: &mut CellTable<Arc<Sealed>>,
    map: &mut StorageMap,
)
    requires open { (cell : ℕ) × IsOpenIn job.slot job.id cell job.rows index.old cells.old map.old }
    requires placed { StandAt sealed.value places.now job.rows }
    ensures parts { (cell : ℕ) → IsOpenIn job.slot job.id cell job.rows index.old cells.old map.old
        → FlushEnds job.slot cell job.rows sealed places.now cache.old cache.new index.old index.new cells.old cells.new map.old map.new }
    ensures state { (p : Parts) (m : State) → IsSound m → IsOnce m → Reflects (having p cache.old index.old cells.old map.old) m
        → IsOpenJob job m → IsImageOf (storage_of job) sealed.value
        → Reflects (having p cache.new index.new cells.new map.new) (flushed_with m (storage_of job)) }
{
    open_flush_reflects();
    ended_flush_reflects();
    let slot = job.slot();
    let Some(begun) = map.begun(slot) else {
        unreachable!();
    };
    rehome_rows(index, slot, begun.cell, job.accounts(), places);
    cells.publish(begun.cell, sealed);
    map.publish(slot);
    let _ = cache.drop_slot(slot);
}

/// Gives a flush up: its cell is free again, and its rows are expected no longer. It takes no memory.
pub fn abort(
    job: FlushJob,
    index: &mut AccountsIndex,
    cells: &mut CellTable<Arc<Sealed>>,
    map: &mut StorageMap,
)
    requires { (cell : ℕ) × IsOpenIn job.slot job.id cell job.rows index.old cells.old map.old }
    ensures parts { (cell : ℕ) → IsOpenIn job.slot job.id cell job.rows index.old cells.old map.old
        → FlushLeaves job.slot cell job.rows index.old index.new cells.old cells.new map.old map.new }
    ensures state { (p : Parts) (m : State) → IsSound m → IsOnce m → Reflects (having p p.cache index.old cells.old map.old) m → IsOpenJob job m
        → Reflects (having p p.cache index.new cells.new map.new) (flush_dropped m (storage_of job)) }
{
    open_flush_reflects();
    ended_flush_reflects();
    let slot = job.slot();
    let Some(begun) = map.begun(slot) else {
        unreachable!();
    };
    unexpect_rows(index, slot, job.accounts());
    cells.abandon(begun.cell);
    map.abandon(slot);
}
