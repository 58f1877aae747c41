ghost use Rattle.std.specs.Prelude.{◌≡◌, ◌≤◌, ◌-◌, length, ℕ, option_map, IfOk, IfErr, OnOk, IsSomeAnd};
ghost use Rattle.cell_table.specs.Cells.{IsUnused};
ghost use Rattle.storage_map.specs.Slots.{live_at, begun_at, Becomes};
ghost use Rattle.vec_scan.specs.Image.{IsImage};
ghost use Rattle.book_parts.specs.Opening.{ImageOpens};
ghost use Rattle.open_plan.specs.Causes.{IsCauseOf};
ghost use Rattle.open_plan.specs.Parts.{HasNothing, fewer};

use crate::fault::RebuildFault;
use crate::indexing::index_rows;
use accounts_index::AccountsIndex;
use adb_model::Slot;
use cell_table::CellTable;
use std::sync::Arc;
use storage_map::StorageMap;
use vec_scan::Sealed;

/// Puts a sealed storage into use: it takes a free cell under its id, the index finds its rows there and holds their
/// keys, and the map counts its different keys as alive.
///
/// # Errors
/// What the cells refuse the bytes of the image for, `Full` before `NoCell`; or `NoMemory`. What the parts are then is
/// not told, so they are to be let go.
pub fn add(
    image: Arc<Sealed>,
    index: &mut AccountsIndex,
    cells: &mut CellTable<Arc<Sealed>>,
    map: &mut StorageMap,
) -> Result<(), RebuildFault>
    requires id { IsUnused image.value.id cells.old.cells }
    requires slot { HasNothing image.value.slot index.old map.old }
    ensures ok { OnOk result ((cell : ℕ) × ImageOpens cell image index.old index.new cells.old cells.new map.old map.new) }
    ensures fault { IfErr result (IsCauseOf cells.old (length image.value.bytes)) }
    ensures image { IsImage image.value.bytes image.value.rows }
{
    let slot = image.slot();
    let cell = cells.begin(image.id(), image.bytes().len() as u128)?;
    let repeated = index_rows(index, cell, &image)?;
    map.begin(slot, cell, image.row_count() as u64)?;
    map.publish(slot);
    lose_rows(map, slot, repeated);
    cells.publish(cell, image);
    Ok(())
}

// So many rows of the slot's storage in use are no longer alive.
fn lose_rows(map: &mut StorageMap, slot: Slot, count: u64)
    requires { IsSomeAnd (live_at map.old slot) (λ live. count ≤ live.alive) }
    ensures { Becomes map.old map.new slot (option_map (fewer count) (live_at map.old slot)) (begun_at map.old slot) }
{
    for _ in 0..count {
        let _ = map.lose(slot);
    }
}
