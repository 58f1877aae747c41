ghost use Rattle.std.specs.Prelude.{◌≡◌, ◌≢◌, ◌+◌, ◌<◌, ◌≤◌, ◌^◌, ◌-◌, ℕ, List, true, false, length, map, count_by, Some, None, IsSome};
ghost use Rattle.accounts_index.specs.Index.{Index};
ghost use Rattle.vec_scan.specs.Seal.{row_there};
ghost use Rattle.cell_table.specs.Phases.{has_id, is_free, is_live, is_idle, value_of};
ghost use Rattle.cell_table.specs.Cells.{Table, IsUnused, cell_at, used, pins};
ghost use Rattle.storage_map.specs.declared.entry.Begun as begun;
ghost use Rattle.storage_map.specs.declared.entry.Live as entry;
ghost use Rattle.storage_map.specs.Slots.{Slots, live_at, begun_at};
ghost use Rattle.adb_model.specs.State.{State};
ghost use Rattle.adb_model.specs.Storages.{bytes_of};
ghost use Rattle.adb_model.specs.Call as machine;
ghost use Rattle.adb_model.specs.Call.{Refused};
ghost use Rattle.adb_model.specs.History.{state_after};
ghost use Rattle.book_parts.specs.Parts.{Parts, Shared};
ghost use Rattle.book_parts.specs.Cells.{IsImageOf};
ghost use Rattle.book_parts.specs.Shrinks.{IsInUse, copied_rows, copy_of, storage_of, Copy, IsOpenCopy, IsCopyIn, is_in_use_at, ShrinkBegins, ShrinkInstalls, ShrinkLeaves, Recycles};
ghost use Rattle.book_parts.specs.Stands.{Stands, After, with_event};

use crate::flushing::begun_flush_reflects;
use crate::laws::step_stands;
use crate::pinning::stored_load_stands;
use crate::shrinking::{
    begun_shrink_reflects, dropped_shrink_reflects, installed_shrink_reflects,
    open_shrink_reflects, recycled_storages_reflect, used_storage_reflects,
};
use adb_model::{histories_go_on, open_shrinks_stand, shrinks_copy_named_rows, storages_leave};

/// A law: how parts stand before and after a shrink begins, and each refusal's cause in the parts.
pub fn shrink_begin_stands()
    ensures none { (p : Parts) (m0 : State) (h : List machine.Event) (pass slot : ℕ)
        → Stands p m0 h → live_at p.map slot ≡ None
        → After p m0 h pass (machine.ShrinkBegin slot) (Some (Refused (machine.NoStorage slot))) }
    ensures in_use { (p : Parts) (m0 : State) (h : List machine.Event) (slot : ℕ) (b : begun.Begun)
        → Stands p m0 h → begun_at p.map slot ≡ Some b → is_free (cell_at p.cells.cells b.cell) ≡ false }
    ensures is_open { (p : Parts) (m0 : State) (h : List machine.Event) (pass slot id : ℕ) (live : entry.Live) (b : begun.Begun)
        → Stands p m0 h → live_at p.map slot ≡ Some live → begun_at p.map slot ≡ Some b → has_id id (cell_at p.cells.cells b.cell) ≡ true
        → After p m0 h pass (machine.ShrinkBegin slot) (Some (Refused (machine.Shrinking slot id))) }
    ensures nothing_dead { (p : Parts) (m0 : State) (h : List machine.Event) (pass slot : ℕ) (live : entry.Live)
        → Stands p m0 h → live_at p.map slot ≡ Some live → begun_at p.map slot ≡ None → live.alive ≡ live.total
        → After p m0 h pass (machine.ShrinkBegin slot) (Some (Refused (machine.NothingDead slot))) }
    ensures may { (p : Parts) (m0 : State) (h : List machine.Event) (slot : ℕ) (live : entry.Live)
        → Stands p m0 h → live_at p.map slot ≡ Some live
        → (is_live (cell_at p.cells.cells live.cell) ≡ true) × IsSome (value_of (cell_at p.cells.cells live.cell))
        × (live.alive ≤ live.total) × IsUnused p.next_id p.cells.cells × (pins p.cells.cells < 2 ^ 64 - 1) }
    ensures full { (p : Parts) (m0 : State) (h : List machine.Event) (pass slot : ℕ) (live : entry.Live) (image : Shared)
        → Stands p m0 h → IsInUse slot live image p.cells p.map → begun_at p.map slot ≡ None → live.alive < live.total
        → p.cells.limit < used p.cells.cells + bytes_of (copied_rows p.index slot live.cell image.value)
        → After p m0 h pass (machine.ShrinkBegin slot) (Some (Refused (machine.Full (used p.cells.cells) (bytes_of (copied_rows p.index slot live.cell image.value)) p.cells.limit))) }
    ensures no_cell { (p : Parts) (m0 : State) (h : List machine.Event) (pass slot : ℕ) (live : entry.Live) (image : Shared)
        → Stands p m0 h → IsInUse slot live image p.cells p.map → begun_at p.map slot ≡ None → live.alive < live.total
        → used p.cells.cells + bytes_of (copied_rows p.index slot live.cell image.value) ≤ p.cells.limit → count_by is_free p.cells.cells ≡ 0
        → After p m0 h pass (machine.ShrinkBegin slot) (Some (Refused (machine.NoCell (length p.cells.cells)))) }
    ensures spent { (p : Parts) (m0 : State) (h : List machine.Event) (pass slot : ℕ) (live : entry.Live) (image : Shared)
        → Stands p m0 h → IsInUse slot live image p.cells p.map → begun_at p.map slot ≡ None → live.alive < live.total
        → used p.cells.cells + bytes_of (copied_rows p.index slot live.cell image.value) ≤ p.cells.limit → 0 < count_by is_free p.cells.cells
        → p.next_id ≡ 18446744073709551615
        → After p m0 h pass (machine.ShrinkBegin slot) (Some (Refused machine.IdsSpent)) }
    ensures done { (p : Parts) (m0 : State) (h : List machine.Event) (pass slot cell : ℕ) (live : entry.Live) (image : Shared) (table : Table Shared) (slots : Slots)
        → Stands p m0 h → IsInUse slot live image p.cells p.map → begun_at p.map slot ≡ None → live.alive < live.total → p.next_id ≢ 18446744073709551615
        → ShrinkBegins slot p.next_id live.cell cell (copied_rows p.index slot live.cell image.value) p.cells table p.map slots
        → After (record p { cells = table; map = slots; next_id = p.next_id + 1 }) m0 h pass (machine.ShrinkBegin slot)
        (Some (machine.ShrinkBegun image.value.id p.next_id (bytes_of (copied_rows p.index slot live.cell image.value)))) }
    ensures tied { (p : Parts) (m0 : State) (h : List machine.Event) (pass slot cell : ℕ) (live : entry.Live) (image : Shared) (table : Table Shared) (slots : Slots)
        → Stands p m0 h → IsInUse slot live image p.cells p.map → begun_at p.map slot ≡ None → live.alive < live.total → p.next_id ≢ 18446744073709551615
        → ShrinkBegins slot p.next_id live.cell cell (copied_rows p.index slot live.cell image.value) p.cells table p.map slots
        → IsOpenCopy (copy_of p.index slot live.cell image.value p.next_id)
        (state_after m0 (with_event h pass (machine.ShrinkBegin slot) (Some (machine.ShrinkBegun image.value.id p.next_id (bytes_of (copied_rows p.index slot live.cell image.value)))))) }
{
    step_stands();
    begun_flush_reflects();
    stored_load_stands();
    used_storage_reflects();
    begun_shrink_reflects();
    histories_go_on();
    open_shrinks_stand();
    shrinks_copy_named_rows();
}

/// A law: how parts stand before and after a shrink ends, in time or too late, and before and after it is given up.
pub fn shrink_end_stands()
    ensures may { (p : Parts) (m0 : State) (h : List machine.Event) (copy : Copy)
        → Stands p m0 h → IsOpenCopy copy (state_after m0 h) → (from : ℕ) × (cell : ℕ) × IsCopyIn copy from cell p.cells p.map }
    ensures done { (p : Parts) (m0 : State) (h : List machine.Event) (pass : ℕ) (copy : Copy) (from cell : ℕ) (image : Shared) (places : List ℕ)
        (index : Index) (table : Table Shared) (slots : Slots)
        → Stands p m0 h → IsOpenCopy copy (state_after m0 h) → IsCopyIn copy from cell p.cells p.map → is_in_use_at p.map copy.slot from ≡ true
        → IsImageOf (storage_of copy) image.value → map (row_there image.value.rows) places ≡ map Some copy.rows
        → ShrinkInstalls copy from cell image places p.index index p.cells table p.map slots
        → After (record p { index = index; cells = table; map = slots }) m0 h pass (machine.ShrinkEnd copy.slot) (Some machine.Done) }
    ensures superseded { (p : Parts) (m0 : State) (h : List machine.Event) (pass : ℕ) (copy : Copy) (from cell : ℕ) (index : Index) (table : Table Shared) (slots : Slots)
        → Stands p m0 h → IsOpenCopy copy (state_after m0 h) → IsCopyIn copy from cell p.cells p.map → is_in_use_at p.map copy.slot from ≡ false
        → index ≡ p.index → ShrinkLeaves copy.slot from cell p.cells table p.map slots
        → After (record p { index = index; cells = table; map = slots }) m0 h pass (machine.ShrinkEnd copy.slot) (Some (machine.Superseded copy.slot copy.old)) }
    ensures dropped { (p : Parts) (m0 : State) (h : List machine.Event) (pass : ℕ) (copy : Copy) (from cell : ℕ) (table : Table Shared) (slots : Slots)
        → Stands p m0 h → IsOpenCopy copy (state_after m0 h) → IsCopyIn copy from cell p.cells p.map
        → ShrinkLeaves copy.slot from cell p.cells table p.map slots
        → After (record p { cells = table; map = slots }) m0 h pass (machine.ShrinkAbort copy.slot) (Some machine.Done) }
{
    step_stands();
    open_shrink_reflects();
    installed_shrink_reflects();
    dropped_shrink_reflects();
}

/// A law: how parts stand before and after the retired cells without pins are freed, of which the reply tells how many.
pub fn recycle_stands()
    ensures { (p : Parts) (m0 : State) (h : List machine.Event) (pass : ℕ) (table : Table Shared)
        → Stands p m0 h → Recycles p.cells table
        → After (record p { cells = table }) m0 h pass machine.Recycle (Some (machine.Recycled (count_by is_idle p.cells.cells))) }
{
    step_stands();
    recycled_storages_reflect();
    storages_leave();
}
