ghost use Rattle.std.specs.Prelude.{◌≡◌, ◌<◌, ◌≤◌, ◌+◌, true, false, length, Some, None, MatchOption, count_by};
ghost use Rattle.adb_model.specs.Lists.{among};
ghost use Rattle.adb_model.specs.Storages.{bytes_of};
ghost use Rattle.cell_table.specs.Phases.{is_free};
ghost use Rattle.cell_table.specs.Cells.{cell_at, used};
ghost use Rattle.storage_map.specs.declared.entry.Begun as begun;
ghost use Rattle.storage_map.specs.Slots.{begun_at};
ghost use Rattle.write_cache.specs.Rows.{rows};
ghost use Rattle.book.specs.Flushing.{IsWhy, IsLackOf};

use crate::refusals::FlushRefusal;
use adb_model::Slot;
use cell_table::CellTable;
use flush_plan::stored_bytes;
use std::sync::Arc;
use storage_map::StorageMap;
use vec_scan::Sealed;
use view_sets::RootSet;
use write_cache::WriteCache;

/// Why no flush of a slot can begin, room aside: it is no root, has nothing in the cache, or is being flushed.
pub fn why_not(
    roots: &RootSet,
    cache: &WriteCache,
    cells: &CellTable<Arc<Sealed>>,
    map: &StorageMap,
    slot: Slot,
) -> Option<FlushRefusal>
    requires { (b : begun.Begun) → begun_at map.now slot ≡ Some b → is_free (cell_at cells.now.cells b.cell) ≡ false }
    ensures { MatchOption result
        ((among slot roots.now ≡ true) × (0 < length (rows cache.now slot)) × (begun_at map.now slot ≡ None))
        (IsWhy roots.now cache.now cells.now map.now slot) }
{
    if !roots.contains(slot) {
        return Some(FlushRefusal::NotRooted { slot });
    }
    if cache.count(slot) == 0 {
        return Some(FlushRefusal::NothingCached { slot });
    }
    match map.begun(slot) {
        Some(begun) => Some(FlushRefusal::Flushing {
            slot,
            id: cells.id(begun.cell),
        }),
        None => None,
    }
}

/// Why no flush of a slot can begin where no id is left: want of room comes first.
pub fn spent(cache: &WriteCache, cells: &CellTable<Arc<Sealed>>, slot: Slot) -> FlushRefusal
    ensures { IsLackOf cells.now (bytes_of (rows cache.now slot)) result }
{
    match cells.check(stored_bytes(cache, slot)) {
        Err(fault) => FlushRefusal::from(fault),
        Ok(()) => FlushRefusal::IdsSpent,
    }
}
