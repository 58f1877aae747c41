ghost use Rattle.std.specs.Prelude.{◌≡◌, ◌≢◌, ◌+◌, ◌<◌, ◌≤◌, ◌&&◌, not, ℕ, List, true, false, length, map, count_by, AllPairs, Option, Some, None, IsSome};
ghost use Rattle.accounts_index.specs.Index.{Index};
ghost use Rattle.vec_scan.specs.Seal.{row_there};
ghost use Rattle.cell_table.specs.Phases.{has_id, is_live, is_idle, value_of};
ghost use Rattle.cell_table.specs.Cells.{Table, cell_at};
ghost use Rattle.storage_map.specs.declared.entry.Live as entry;
ghost use Rattle.storage_map.specs.Slots.{Slots, live_at, begun_at};
ghost use Rattle.adb_model.specs.State.{Storage, State};
ghost use Rattle.adb_model.specs.Presence.{has_row};
ghost use Rattle.adb_model.specs.Storages.{bytes_of, live_storage, open_shrink};
ghost use Rattle.adb_model.specs.Call as machine;
ghost use Rattle.adb_model.specs.Shrink.{named_in, shrink_rows, shrinking, is_current, installed, copy_dropped};
ghost use Rattle.adb_model.specs.Snap.{recycled};
ghost use Rattle.adb_model.specs.Recycling.{spares};
ghost use Rattle.adb_model.specs.Step.{step};
ghost use Rattle.adb_model.specs.History.{state_after, IsPass, AreOfPasses};
ghost use Rattle.adb_model.specs.Laws.{SameRows};
ghost use Rattle.adb_model.specs.Sound.{IsSound};
ghost use Rattle.adb_model.specs.Once.{IsOnce};
ghost use Rattle.book_parts.specs.Parts.{Parts, Shared};
ghost use Rattle.book_parts.specs.Cells.{IsImageOf};
ghost use Rattle.book_parts.specs.Reflects.{Reflects};
ghost use Rattle.book_parts.specs.Shrinks.{IsInUse, copied_rows, dead_rows, copy_of, shrink_of, storage_of, Copy, IsOpenCopy, IsCopyIn, is_in_use_at, ShrinkBegins, ShrinkInstalls, ShrinkLeaves, Recycles};

use adb_model::{
    counts_are_bounded, ids_are_fresh, live_storages_stand, open_shrinks_stand,
    pinned_storages_stand, pinned_storages_stay, reclaims_are_sound, shrinks_are_given_up,
    shrinks_begin, shrinks_copy_named_rows, shrinks_install, spares_leave, states_are_sound,
    storages_leave,
};

/// A law: the entry of a slot's storage in use. It stands in a live cell, and the entry counts its rows and those that
/// are named. Where a slot has no entry in use it has no storage in use.
pub fn used_storage_reflects()
    ensures there { (p : Parts) (m : State) (slot : ℕ) (live : entry.Live) → IsSound m → IsOnce m → Reflects p m → live_at p.map slot ≡ Some live
        → (old : Storage) × (live_storage m slot ≡ Some old) × (has_id old.id (cell_at p.cells.cells live.cell) ≡ true)
        × (is_live (cell_at p.cells.cells live.cell) ≡ true) × (live.alive ≡ named_in m slot) × (live.total ≡ length old.rows) × (live.alive ≤ live.total) }
    ensures none { (p : Parts) (m : State) (slot : ℕ) → Reflects p m → live_at p.map slot ≡ None → live_storage m slot ≡ None }
    ensures filled { (p : Parts) (cell : ℕ) → is_live (cell_at p.cells.cells cell) ≡ true → IsSome (value_of (cell_at p.cells.cells cell)) }
{
    counts_are_bounded();
}

/// A law: what a shrink needs to begin in parts that reflect a state. The rows that the index finds in the storage's
/// image are those that the machine copies, one of each key, so they take as many bytes; the keys of the storage are
/// copied or left out. And which state the parts reflect once it has begun.
pub fn begun_shrink_reflects()
    ensures image { (p : Parts) (m : State) (slot : ℕ) (live : entry.Live) (image : Shared) (old : Storage)
        → IsSound m → Reflects p m → IsInUse slot live image p.cells p.map → live_storage m slot ≡ Some old → IsImageOf old image.value }
    ensures same { (p : Parts) (m : State) (slot : ℕ) (live : entry.Live) (image : Shared) (old : Storage)
        → IsSound m → Reflects p m → IsInUse slot live image p.cells p.map → live_storage m slot ≡ Some old
        → SameRows (copied_rows p.index slot live.cell image.value) (shrink_rows m old) }
    ensures differ { (p : Parts) (m : State) (slot : ℕ) (live : entry.Live) (image : Shared) (old : Storage)
        → IsSound m → Reflects p m → IsInUse slot live image p.cells p.map → live_storage m slot ≡ Some old
        → AllPairs (λ r q. r.key ≢ q.key) (copied_rows p.index slot live.cell image.value) }
    ensures left { (p : Parts) (m : State) (slot : ℕ) (live : entry.Live) (image : Shared) (old : Storage)
        → IsSound m → Reflects p m → IsInUse slot live image p.cells p.map → live_storage m slot ≡ Some old → (k : List ℕ)
        → has_row k (dead_rows p.index slot image.value) ≡ (has_row k old.rows && not (has_row k (copied_rows p.index slot live.cell image.value))) }
    ensures bytes { (p : Parts) (m : State) (slot : ℕ) (live : entry.Live) (image : Shared) (old : Storage)
        → IsSound m → Reflects p m → IsInUse slot live image p.cells p.map → live_storage m slot ≡ Some old
        → bytes_of (copied_rows p.index slot live.cell image.value) ≡ bytes_of (shrink_rows m old) }
    ensures done { (p : Parts) (m : State) (slot cell : ℕ) (live : entry.Live) (image : Shared) (old : Storage) (table : Table Shared) (slots : Slots)
        → IsSound m → Reflects p m → IsInUse slot live image p.cells p.map → live_storage m slot ≡ Some old → open_shrink m slot ≡ None
        → ShrinkBegins slot p.next_id live.cell cell (copied_rows p.index slot live.cell image.value) p.cells table p.map slots
        → Reflects (record p { cells = table; map = slots; next_id = p.next_id + 1 }) (shrinking m old) }
    ensures tied { (p : Parts) (m : State) (slot : ℕ) (live : entry.Live) (image : Shared) (old : Storage)
        → IsSound m → Reflects p m → IsInUse slot live image p.cells p.map → live_storage m slot ≡ Some old → open_shrink m slot ≡ None
        → IsOpenCopy (copy_of p.index slot live.cell image.value p.next_id) (shrinking m old) }
{
    ids_are_fresh();
    reclaims_are_sound();
    live_storages_stand();
    shrinks_copy_named_rows();
    shrinks_begin();
}

/// A law: a shrink that is open in a state is open in the parts that reflect it, and so is what its end needs. The
/// slot's storage in use is in the old storage's cell exactly where the shrink is current. And where the same shrink is
/// open after more events, the one in hand is the one that is open still.
pub fn open_shrink_reflects()
    ensures cells { (p : Parts) (m : State) (copy : Copy) → IsSound m → Reflects p m → IsOpenCopy copy m
        → (from : ℕ) × (cell : ℕ) × IsCopyIn copy from cell p.cells p.map }
    ensures current { (p : Parts) (m : State) (copy : Copy) (from cell : ℕ) → IsSound m → Reflects p m → IsOpenCopy copy m → IsCopyIn copy from cell p.cells p.map
        → is_in_use_at p.map copy.slot from ≡ is_current m (shrink_of copy) }
    ensures stays { (m : State) (pass : ℕ) (c : machine.Call) (copy : Copy) → IsSound m → IsPass pass
        → open_shrink (step m pass c).0 copy.slot ≡ open_shrink m copy.slot → IsOpenCopy copy m → IsOpenCopy copy (step m pass c).0 }
    ensures stays_after { (m : State) (events : List machine.Event) (copy : Copy) → IsSound m → AreOfPasses events
        → open_shrink (state_after m events) copy.slot ≡ open_shrink m copy.slot → IsOpenCopy copy m → IsOpenCopy copy (state_after m events) }
{
    open_shrinks_stand();
    pinned_storages_stay();
    states_are_sound();
}

/// A law: which state parts reflect once a shrink has ended whose old storage is in use.
pub fn installed_shrink_reflects()
    ensures { (p : Parts) (m : State) (copy : Copy) (from cell : ℕ) (image : Shared) (places : List ℕ) (index : Index) (table : Table Shared) (slots : Slots)
        → IsSound m → Reflects p m → IsOpenCopy copy m → IsCopyIn copy from cell p.cells p.map → is_in_use_at p.map copy.slot from ≡ true
        → IsImageOf (storage_of copy) image.value → map (row_there image.value.rows) places ≡ map Some copy.rows
        → ShrinkInstalls copy from cell image places p.index index p.cells table p.map slots
        → Reflects (record p { index = index; cells = table; map = slots }) (installed m (shrink_of copy)) }
{
    open_shrink_reflects();
    open_shrinks_stand();
    reclaims_are_sound();
    live_storages_stand();
    shrinks_install();
}

/// A law: which state parts reflect once a shrink was given up, or ended too late.
pub fn dropped_shrink_reflects()
    ensures { (p : Parts) (m : State) (copy : Copy) (from cell : ℕ) (table : Table Shared) (slots : Slots)
        → IsSound m → Reflects p m → IsOpenCopy copy m → IsCopyIn copy from cell p.cells p.map
        → ShrinkLeaves copy.slot from cell p.cells table p.map slots
        → Reflects (record p { cells = table; map = slots }) (copy_dropped m (shrink_of copy)) }
{
    open_shrinks_stand();
    shrinks_are_given_up();
}

/// A law: which state parts reflect once the retired cells without pins are free. As many cells are as storages leave.
pub fn recycled_storages_reflect()
    ensures done { (p : Parts) (m : State) (table : Table Shared) → IsSound m → Reflects p m → Recycles p.cells table
        → Reflects (record p { cells = table }) (recycled m) }
    ensures count { (p : Parts) (m : State) → IsSound m → Reflects p m → count_by is_idle p.cells.cells ≡ length (spares m) }
{
    pinned_storages_stand();
    spares_leave();
    storages_leave();
}
