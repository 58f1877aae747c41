ghost use Rattle.std.specs.Prelude.{◌≡◌, ◌-◌, ◌<◌, ◌^◌, true, Some, option_map, slice_set, IfOk, OnOk, OnErr};
ghost use Rattle.cell_table.specs.Phases.{has_id, is_live, pinned, value_of};
ghost use Rattle.cell_table.specs.Cells.{cell_at, pins};

use cell_table::{Cell, CellTable};
use std::alloc::AllocError;
use std::sync::Arc;
use vec_scan::Sealed;

/// The images of storages, each in a cell.
pub type Cells = CellTable<Arc<Sealed>>;

/// The image of a live cell, and the cell's id.
#[derive(Drop)]
pub struct Held {
    pub id: u64,
    pub sealed: Arc<Sealed>,
}

/// One pin more of a live cell, for its image.
pub fn pin(cells: &mut Cells, cell: Cell) -> Result<Held, AllocError>
    requires live { is_live (cell_at cells.old.cells cell) ≡ true }
    requires fits { pins cells.old.cells < 2 ^ 64 - 1 }
    ensures id { IfOk result (λ held. has_id held.id (cell_at cells.old.cells cell) ≡ true) }
    ensures image { IfOk result (λ held. option_map (λ s. s.value) (value_of (cell_at cells.old.cells cell)) ≡ Some held.sealed.value) }
    ensures pinned { OnOk result (cells.new ≡ record cells.old { cells = slice_set cells.old.cells cell (pinned (cell_at cells.old.cells cell)) }) }
    ensures same { OnErr result (cells.new ≡ cells.old) }
{
    let sealed = cells.get(cell).clone()?;
    let id = cells.id(cell);
    cells.pin(cell);
    Ok(Held { id, sealed })
}
