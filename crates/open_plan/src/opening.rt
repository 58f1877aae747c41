ghost use Rattle.std.specs.Prelude.{◌≡◌, ◌+◌, [], length, map, All, IfOk, IfErr};
ghost use Rattle.adb_model.specs.Opened.{opened};
ghost use Rattle.cell_table.specs.declared.phase.Phase.TheVariants as phases;
ghost use Rattle.vec_scan.specs.Shown.{stored};
ghost use Rattle.book_parts.specs.Stands.{Stands};
ghost use Rattle.book_parts.specs.Opening.{AreOpenable, sizes_of};
ghost use Rattle.open_plan.specs.Causes.{IsWhyNotRebuilt};
ghost use Rattle.open_plan.specs.Parts.{parts_of};

use crate::adding::add;
use crate::fault::RebuildFault;
use crate::roots::roots_of;
use accounts_index::AccountsIndex;
use adb_model::Slot;
use book_parts::{opened_parts_reflect, opened_parts_stand};
use cell_table::CellTable;
use std::alloc::Global;
use std::sync::Arc;
use storage_map::StorageMap;
use vec_scan::{Sealed, rows_take_bytes};
use view_sets::RootSet;

/// The parts of a book that are made of storages.
#[derive(Drop)]
pub struct Opened {
    pub index: AccountsIndex,
    pub cells: CellTable<Arc<Sealed>>,
    pub map: StorageMap,
    pub roots: RootSet,
}

/// Opens the parts of a book at a slot from storages, which take cells of a table that is free yet. The roots are the
/// slots of the storages, the further ones, and the slot itself.
///
/// # Errors
/// `Full` and `NoCell` exactly where the limit or the cells don't suffice, at the first storage that meets it.
pub fn open(
    alloc: Global,
    slot: Slot,
    storages: Vec<Sealed>,
    more_roots: &[Slot],
    cells: CellTable<Arc<Sealed>>,
) -> Result<Opened, RebuildFault>
    requires storages { AreOpenable slot storages.items }
    requires all { length cells.cells ≡ 1048576 }
    requires free { All (λ cell. cell ≡ phases.Free) cells.cells }
    ensures ok { IfOk result (λ parts. Stands (parts_of parts slot (length storages.items + 1))
        (opened cells.limit slot (map stored storages.items) more_roots.now) []) }
    ensures fault { IfErr result (IsWhyNotRebuilt cells.limit (sizes_of storages.items)) }
{
    opened_parts_reflect();
    opened_parts_stand();
    rows_take_bytes();
    let roots = roots_of(alloc, slot, &storages, more_roots)?;
    let mut index = AccountsIndex::new(alloc)?;
    let mut cells = cells;
    let mut map = StorageMap::new(alloc);
    for storage in storages {
        let image = Arc::new(alloc, storage)?;
        add(image, &mut index, &mut cells, &mut map)?;
    }
    Ok(Opened {
        index,
        cells,
        map,
        roots,
    })
}
