ghost use Rattle.std.specs.Prelude.{◌≡◌, false, Some, MatchOption, IsSomeAnd, true};
ghost use Rattle.adb_model.specs.Storages.{bytes_of};
ghost use Rattle.book_parts.specs.Shrinks.{copied_rows, IsInUse};
ghost use Rattle.cell_table.specs.Phases.{is_free, is_live};
ghost use Rattle.cell_table.specs.Cells.{cell_at};
ghost use Rattle.storage_map.specs.declared.entry.Begun as begun;
ghost use Rattle.storage_map.specs.Slots.{live_at, begun_at};
ghost use Rattle.shrink_plan.specs.Sources.{OfStorage};
ghost use Rattle.book.specs.Shrinking.{MayShrink, IsWhyNotShrunk, IsLackOf};

use crate::pinning::Cells;
use crate::refusals::ShrinkRefusal;
use accounts_index::AccountsIndex;
use adb_model::Slot;
use shrink_plan::copied_bytes;
use storage_map::StorageMap;

/// Why no shrink of a slot can begin, room aside: it has no storage in use, is being shrunk, or has only living rows.
pub fn why_not_shrunk(cells: &Cells, map: &StorageMap, slot: Slot) -> Option<ShrinkRefusal>
    requires { (b : begun.Begun) → begun_at map.now slot ≡ Some b → is_free (cell_at cells.now.cells b.cell) ≡ false }
    ensures { MatchOption result (MayShrink map.now slot) (IsWhyNotShrunk cells.now map.now slot) }
{
    let Some(live) = map.live(slot) else {
        return Some(ShrinkRefusal::NoStorage { slot });
    };
    if let Some(begun) = map.begun(slot) {
        return Some(ShrinkRefusal::Shrinking {
            slot,
            id: cells.id(begun.cell),
        });
    }
    if live.alive == live.total {
        return Some(ShrinkRefusal::NothingDead { slot });
    }
    None
}

/// Why no shrink of a slot can begin where no id is left: want of room comes first.
pub fn no_id_for(
    slot: Slot,
    index: &AccountsIndex,
    cells: &Cells,
    map: &StorageMap,
) -> ShrinkRefusal
    requires { IsSomeAnd (live_at map.now slot) (λ live. is_live (cell_at cells.now.cells live.cell) ≡ true) }
    ensures { OfStorage slot cells.now map.now (λ live image. IsLackOf cells.now (bytes_of (copied_rows index.now slot live.cell image.value)) result) }
{
    match cells.check(copied_bytes(slot, index, cells, map)) {
        Err(fault) => ShrinkRefusal::from(fault),
        Ok(()) => ShrinkRefusal::IdsSpent,
    }
}
