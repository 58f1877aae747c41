ghost use Rattle.std.specs.Prelude.{◌≡◌, ◌≢◌, ℕ, ◌+◌, ◌-◌, ◌<◌, ◌≤◌, ◌^◌, ◌↔◌, true, false, All, Some, length, map, count_by, slice_set, IfOk, IfErr, OnOk, OnErr, IsSome};
ghost use Rattle.cell_table.specs.Phases.{has_id, id_of, cell_id, pins_of, is_free, is_filling, is_live, is_idle, published, retired, pinned, unpinned, recycled, value_of};
ghost use Rattle.cell_table.specs.Cells.{cell_at, used, pins, counts_of, IsUnused, Begins, CanBegin, IsCause};
ghost use Rattle.cell_table.specs.declared.phase.Phase.TheVariants.{Free};
ghost use Rattle.cell_table.specs.declared.table.CellFault.TheVariants.{Full, NoMemory};

use crate::phase::Phase;
use crate::places::{put, put_idle, ready};
use std::alloc::Global;
use std::collections::BTreeMap;
use std::marker::Model;

/// The place of a cell.
pub type Cell = usize;

/// Why no cell was begun.
#[derive(Debug, Drop)]
pub enum CellFault {
    /// `used` bytes and the `wanted` ones are above the limit.
    Full { used: u64, wanted: u128, limit: u64 },
    /// None of so many cells is free.
    NoCell { limit: u64 },
    NoMemory,
}

/// How many cells are of each phase, how many retired ones are free to be used again, and all pins.
#[derive(Clone, Copy, Debug, PartialEq, Eq)]
pub struct Counts {
    pub filling: u64,
    pub live: u64,
    pub retired: u64,
    /// The retired cells without pins.
    pub free: u64,
    pub pins: u64,
}

/// Cells that are used for values, and used again.
///
/// Contracts see the list of all cells, and the limit of their bytes.
#[derive(Drop)]
pub struct CellTable<T> {
    /// The cells that were used once; the others are free.
    cells: Vec<Phase<T>>,
    /// The places of those that are free.
    free: Vec<usize>,
    /// The places of the retired ones without pins.
    idle: Vec<usize>,
    /// The place of each id in use.
    ids: BTreeMap<u64, usize>,
    most: usize,
    limit: u64,
    /// The bytes of all cells.
    used: u64,
    counts: Counts,
}

impl<T> Model for CellTable<T> {
    ghost use Rattle.std.specs.Vec.{vec_capacity};
    ghost use Rattle.std.specs.Ordering.{nat_cmp};
    ghost use Rattle.std.specs.BTreeMap.{get};
    ghost use Rattle.cell_table.specs.Cells.{Table};
    ghost use Rattle.cell_table.specs.Inside.{all_cells, HaveRoom, IsSound};

    ghost Value = { Table T };

    ghost view = { λ t. record { cells = all_cells t.most t.cells.items; limit = t.limit } };

    ghost invariant = { λ t.
        HaveRoom t.cells.items t.most (vec_capacity t.free) (vec_capacity t.idle)
        × IsSound t.cells.items t.free.items t.idle.items (get nat_cmp t.ids) t.used t.limit t.counts };
}

impl<T: Drop> CellTable<T> {
    /// A table of so many free cells. It takes memory as they are used for the first time.
    pub fn new(alloc: Global, limit: u64, cells: usize) -> CellTable<T>
        ensures cells { length result.cells ≡ cells }
        ensures free { All (λ cell. cell ≡ Free) result.cells }
        ensures limit { result.limit ≡ limit }
    {
        CellTable {
            cells: Vec::new(alloc),
            free: Vec::new(alloc),
            idle: Vec::new(alloc),
            ids: BTreeMap::new(alloc),
            most: cells,
            limit,
            used: 0,
            counts: Counts {
                filling: 0,
                live: 0,
                retired: 0,
                free: 0,
                pins: 0,
            },
        }
    }

    /// Begins to fill a free cell under an id that is not in use. Refused where the bytes of all cells would be above the
    /// limit; else where no cell is free; else for want of memory.
    pub fn begin(&mut self, id: u64, bytes: u128) -> Result<Cell, CellFault>
        requires { IsUnused id self.old.cells }
        ensures ok { IfOk result (Begins self.old self.new id bytes) }
        ensures err { IfErr result (IsCause self.old bytes) }
        ensures same { OnErr result (self.new ≡ self.old) }
    {
        fit(self.used, bytes, self.limit)?;
        ready(&mut self.cells, &mut self.free, &mut self.idle, self.most)?;
        let place = self.free[self.free.len() - 1];
        if self.ids.insert(id, place).is_err() {
            return Err(CellFault::NoMemory);
        }
        let _ = self.free.pop();
        let cell = &mut self.cells[place];
        cell.fill(id, bytes as u64);
        self.used += bytes as u64;
        self.counts.filling += 1;
        Ok(place)
    }

    /// What `begin` of so many bytes would be refused for now, other than want of memory.
    pub fn check(&self, bytes: u128) -> Result<(), CellFault>
        ensures ok { OnOk result (CanBegin self.now bytes) }
        ensures err { IfErr result (IsCause self.now bytes) }
        ensures memory { IfErr result (λ fault. fault ≢ NoMemory) }
    {
        fit(self.used, bytes, self.limit)?;
        if self.free.is_empty() && self.cells.len() == self.most {
            return Err(CellFault::NoCell {
                limit: self.most as u64,
            });
        }
        Ok(())
    }

    /// A filling cell gets its value, and is live.
    pub fn publish(&mut self, cell: Cell, value: T)
        requires { is_filling (cell_at self.old.cells cell) ≡ true }
        ensures { self.new ≡ record self.old { cells = slice_set self.old.cells cell (published value (cell_at self.old.cells cell)) } }
    {
        let phase = &mut self.cells[cell];
        phase.publish(value);
        self.counts.filling -= 1;
        self.counts.live += 1;
    }

    /// A filling cell is freed.
    pub fn abandon(&mut self, cell: Cell)
        requires { is_filling (cell_at self.old.cells cell) ≡ true }
        ensures { self.new ≡ record self.old { cells = slice_set self.old.cells cell Free } }
    {
        let phase = &mut self.cells[cell];
        let _ = self.ids.remove(&phase.id());
        self.used -= phase.bytes();
        phase.clear();
        put(&mut self.free, cell);
        self.counts.filling -= 1;
    }

    /// A live cell is retired.
    pub fn retire(&mut self, cell: Cell)
        requires { is_live (cell_at self.old.cells cell) ≡ true }
        ensures { self.new ≡ record self.old { cells = slice_set self.old.cells cell (retired (cell_at self.old.cells cell)) } }
    {
        let phase = &mut self.cells[cell];
        phase.retire();
        self.counts.free += put_idle(&mut self.idle, phase, cell);
        self.counts.live -= 1;
        self.counts.retired += 1;
    }

    /// One pin more of a live cell.
    pub fn pin(&mut self, cell: Cell)
        requires live { is_live (cell_at self.old.cells cell) ≡ true }
        requires fits { pins self.old.cells < 2 ^ 64 - 1 }
        ensures { self.new ≡ record self.old { cells = slice_set self.old.cells cell (pinned (cell_at self.old.cells cell)) } }
    {
        let phase = &mut self.cells[cell];
        phase.pin();
        self.counts.pins += 1;
    }

    /// One pin less of a cell.
    pub fn unpin(&mut self, cell: Cell)
        requires { 0 < pins_of (cell_at self.old.cells cell) }
        ensures { self.new ≡ record self.old { cells = slice_set self.old.cells cell (unpinned (cell_at self.old.cells cell)) } }
    {
        let phase = &mut self.cells[cell];
        phase.unpin();
        self.counts.free += put_idle(&mut self.idle, phase, cell);
        self.counts.pins -= 1;
    }

    /// Frees the retired cells without pins, and says how many.
    pub fn recycle(&mut self) -> u64
        ensures freed { result ≡ count_by is_idle self.old.cells }
        ensures cells { self.new ≡ record self.old { cells = map recycled self.old.cells } }
    {
        let freed = self.counts.free;
        while let Some(place) = self.idle.pop() {
            let phase = &mut self.cells[place];
            let _ = self.ids.remove(&phase.id());
            self.used -= phase.bytes();
            phase.clear();
            put(&mut self.free, place);
            self.counts.retired -= 1;
            self.counts.free -= 1;
        }
        freed
    }

    /// The value of a live or retired cell.
    pub fn get(&self, cell: Cell) -> &T
        requires { IsSome (value_of (cell_at self.now.cells cell)) }
        ensures { value_of (cell_at self.now.cells cell) ≡ Some result.now }
    {
        self.cells[cell].value()
    }

    /// The id of a cell in use.
    pub fn id(&self, cell: Cell) -> u64
        requires { is_free (cell_at self.now.cells cell) ≡ false }
        ensures id { result ≡ id_of (cell_at self.now.cells cell) }
        ensures some { cell_id (cell_at self.now.cells cell) ≡ Some result }
        ensures there { has_id result (cell_at self.now.cells cell) ≡ true }
    {
        self.cells[cell].id()
    }

    /// The bytes of all cells.
    pub fn used(&self) -> u64
        ensures used { result ≡ used self.now.cells }
        ensures within { result ≤ self.now.limit }
    {
        self.used
    }

    /// The most bytes of all cells.
    pub fn limit(&self) -> u64
        ensures { result ≡ self.now.limit }
    {
        self.limit
    }

    /// The cell that is in use under an id.
    pub fn cell_of(&self, id: u64) -> Option<Cell>
        ensures { (cell : ℕ) → (result ≡ Some cell) ↔ (has_id id (cell_at self.now.cells cell) ≡ true) }
    {
        self.ids.get(&id).copied()
    }

    pub fn counts(&self) -> Counts
        ensures { result ≡ counts_of self.now.cells }
    {
        self.counts
    }
}

// Whether so many bytes more are within the limit.
fn fit(used: u64, wanted: u128, limit: u64) -> Result<(), CellFault>
    requires { used ≤ limit }
    ensures ok { OnOk result (used + wanted ≤ limit) }
    ensures err { IfErr result (λ fault. (fault ≡ Full used wanted limit) × (limit < used + wanted)) }
{
    if wanted > u128::from(limit - used) {
        return Err(CellFault::Full {
            used,
            wanted,
            limit,
        });
    }
    Ok(())
}
