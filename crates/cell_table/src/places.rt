ghost use Rattle.std.specs.Prelude.{◌≡◌, ◌+◌, ◌<◌, ◌≤◌, ◌++◌, ◌∷◌, [], length, vec_len, IfErr, OnOk, OnErr, if◌then◌else◌};
ghost use Rattle.cell_table.specs.Phases.{is_idle};
ghost use Rattle.std.specs.Vec.{vec_capacity};
ghost use Rattle.cell_table.specs.Inside.{Grows, HaveRoom, IsLack};

use crate::phase::Phase;
use crate::table::CellFault;
use std::alloc::AllocError;

/// Puts a place at the end of a list that has room for it.
pub fn put(places: &mut Vec<usize>, place: usize)
    requires { vec_len places.old < vec_capacity places.old }
    ensures items { places.new.items ≡ places.old.items ++ place ∷ [] }
    ensures room { vec_capacity places.new ≡ vec_capacity places.old }
{
    if places.insert(places.len(), place).is_err() {
        unreachable!();
    }
}

/// Puts the place of a cell at the end where it is idle, and says how many places that makes.
pub fn put_idle<T>(places: &mut Vec<usize>, phase: &Phase<T>, place: usize) -> u64
    requires { vec_len places.old < vec_capacity places.old }
    ensures items { places.new.items ≡ (if is_idle phase.now then places.old.items ++ place ∷ [] else places.old.items) }
    ensures count { result ≡ (if is_idle phase.now then 1 else 0) }
    ensures room { vec_capacity places.new ≡ vec_capacity places.old }
{
    if phase.is_idle() {
        put(places, place);
        1
    } else {
        0
    }
}

/// A free cell is at hand, and both lists have room for every cell.
pub fn ready<T: Drop>(
    cells: &mut Vec<Phase<T>>,
    free: &mut Vec<usize>,
    idle: &mut Vec<usize>,
    most: usize,
) -> Result<(), CellFault>
    requires { HaveRoom cells.old.items most (vec_capacity free.old) (vec_capacity idle.old) }
    ensures room { HaveRoom cells.new.items most (vec_capacity free.new) (vec_capacity idle.new) }
    ensures grows { Grows most cells.old.items free.old.items cells.new.items free.new.items }
    ensures idle { idle.new.items ≡ idle.old.items }
    ensures ok { OnOk result (0 < length free.new.items) }
    ensures err { IfErr result (IsLack most cells.old.items free.old.items) }
{
    if !free.is_empty() {
        return Ok(());
    }
    if cells.len() == most {
        return Err(CellFault::NoCell { limit: most as u64 });
    }
    if grow(cells, free, idle).is_err() {
        return Err(CellFault::NoMemory);
    }
    Ok(())
}

/// One more cell, and room for it in both lists.
fn grow<T: Drop>(
    cells: &mut Vec<Phase<T>>,
    free: &mut Vec<usize>,
    idle: &mut Vec<usize>,
) -> Result<(), AllocError>
    requires none { free.old.items ≡ [] }
    requires room { HaveRoom cells.old.items (length cells.old.items) (vec_capacity free.old) (vec_capacity idle.old) }
    ensures room { HaveRoom cells.new.items (length cells.old.items + 1) (vec_capacity free.new) (vec_capacity idle.new) }
    ensures ok { OnOk result ((cells.new.items ≡ cells.old.items ++ Phase.Free ∷ []) × (free.new.items ≡ length cells.old.items ∷ [])) }
    ensures err { OnErr result ((cells.new.items ≡ cells.old.items) × (free.new.items ≡ free.old.items)) }
    ensures idle { idle.new.items ≡ idle.old.items }
{
    free.reserve(cells.len() + 1)?;
    idle.reserve(cells.len() + 1)?;
    cells.push(Phase::Free)?;
    put(free, cells.len() - 1);
    Ok(())
}
