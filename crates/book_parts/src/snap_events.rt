ghost use Rattle.std.specs.Prelude.{◌≡◌, ◌+◌, ◌-◌, ◌<◌, ◌≤◌, ◌^◌, ℕ, List, true, false, length, map, Some, None, IsSome};
ghost use Rattle.vec_scan.specs.Image.{Image};
ghost use Rattle.vec_scan.specs.Shown.{shown};
ghost use Rattle.cell_table.specs.Phases.{value_of};
ghost use Rattle.cell_table.specs.Cells.{Table, cell_at, pins};
ghost use Rattle.storage_map.specs.declared.entry.Live as entry;
ghost use Rattle.storage_map.specs.Slots.{live_at};
ghost use Rattle.adb_model.specs.Lists.{among};
ghost use Rattle.adb_model.specs.State.{State};
ghost use Rattle.adb_model.specs.Call as machine;
ghost use Rattle.adb_model.specs.Call.{Refused};
ghost use Rattle.adb_model.specs.History.{state_after};
ghost use Rattle.adb_model.specs.Laws.{ShowLive};
ghost use Rattle.book_parts.specs.Parts.{Parts, Shared};
ghost use Rattle.book_parts.specs.Snaps.{Snapshot, IsOpenSnap, AreUpto, IsFirstUnflushed, MaySnap, MayPin, MayUnpin, PinsEach, UnpinsEach, ids_of};
ghost use Rattle.book_parts.specs.Stands.{Stands, After, with_event};

use crate::flushing::begun_flush_reflects;
use crate::laws::step_stands;
use crate::shrinking::used_storage_reflects;
use crate::snapping::{begun_snap_reflects, ended_snap_reflects};
use adb_model::{
    histories_go_on, named_pairs_stand_once, pinned_storages_stand, rows_are_last_stores,
    snaps_begin, snaps_stay_open, states_are_sound,
};

/// A law: how parts stand before and after a snapshot begins, and each refusal's cause in the parts. The images that
/// it is written from are in the cells, and show what is in use.
pub fn snap_begin_stands()
    ensures is_open { (p : Parts) (m0 : State) (h : List machine.Event) (pass slot s : ℕ)
        → Stands p m0 h → p.snap ≡ Some s
        → After p m0 h pass (machine.SnapBegin slot) (Some (Refused (machine.SnapOpen s))) }
    ensures no_root { (p : Parts) (m0 : State) (h : List machine.Event) (pass slot : ℕ)
        → Stands p m0 h → p.snap ≡ None → among slot p.roots ≡ false
        → After p m0 h pass (machine.SnapBegin slot) (Some (Refused (machine.NotRoot slot))) }
    ensures too_old { (p : Parts) (m0 : State) (h : List machine.Event) (pass slot : ℕ)
        → Stands p m0 h → p.snap ≡ None → among slot p.roots ≡ true → slot < p.cleaned
        → After p m0 h pass (machine.SnapBegin slot) (Some (Refused (machine.SnapTooOld slot p.cleaned))) }
    ensures unflushed { (p : Parts) (m0 : State) (h : List machine.Event) (pass slot r : ℕ)
        → Stands p m0 h → p.snap ≡ None → among slot p.roots ≡ true → p.cleaned ≤ slot → IsFirstUnflushed p.roots p.cache slot (Some r)
        → After p m0 h pass (machine.SnapBegin slot) (Some (Refused (machine.Unflushed r))) }
    ensures filled { (p : Parts) (m0 : State) (h : List machine.Event) (s : ℕ) (live : entry.Live)
        → Stands p m0 h → live_at p.map s ≡ Some live → IsSome (value_of (cell_at p.cells.cells live.cell)) }
    ensures may { (p : Parts) (m0 : State) (h : List machine.Event) (slot : ℕ) (images : List Image)
        → Stands p m0 h → MaySnap p.snap p.roots p.cleaned p.cache slot → AreUpto slot p.cells p.map images
        → MayPin images p.cells × (pins p.cells.cells + length images < 2 ^ 64 - 1) }
    ensures done { (p : Parts) (m0 : State) (h : List machine.Event) (pass slot : ℕ) (images : List Image) (table : Table Shared)
        → Stands p m0 h → MaySnap p.snap p.roots p.cleaned p.cache slot → AreUpto slot p.cells p.map images → PinsEach (ids_of images) p.cells table
        → After (record p { cells = table; snap = Some slot }) m0 h pass (machine.SnapBegin slot) (Some (machine.SnapBegun (length images))) }
    ensures tied { (p : Parts) (m0 : State) (h : List machine.Event) (pass slot : ℕ) (images : List Image)
        → Stands p m0 h → MaySnap p.snap p.roots p.cleaned p.cache slot → AreUpto slot p.cells p.map images
        → IsOpenSnap (record { slot = slot; storages = images })
        (state_after m0 (with_event h pass (machine.SnapBegin slot) (Some (machine.SnapBegun (length images))))) }
    ensures shows { (p : Parts) (m0 : State) (h : List machine.Event) (slot : ℕ) (images : List Image)
        → Stands p m0 h → AreUpto slot p.cells p.map images → ShowLive (state_after m0 h) slot (map shown images) }
{
    step_stands();
    begun_flush_reflects();
    used_storage_reflects();
    begun_snap_reflects();
    histories_go_on();
    states_are_sound();
    named_pairs_stand_once();
    rows_are_last_stores();
    pinned_storages_stand();
    snaps_begin();
}

/// A law: how parts stand before and after a snapshot ends.
pub fn snap_end_stands()
    ensures may { (p : Parts) (m0 : State) (h : List machine.Event) (job : Snapshot)
        → Stands p m0 h → IsOpenSnap job (state_after m0 h) → MayUnpin job.storages p.cells }
    ensures done { (p : Parts) (m0 : State) (h : List machine.Event) (pass : ℕ) (job : Snapshot) (table : Table Shared)
        → Stands p m0 h → IsOpenSnap job (state_after m0 h) → UnpinsEach (ids_of job.storages) p.cells table
        → After (record p { cells = table; snap = None }) m0 h pass (machine.SnapEnd job.slot) (Some machine.Done) }
{
    step_stands();
    ended_snap_reflects();
    snaps_stay_open();
}
