ghost use Rattle.std.specs.Prelude.{◌≡◌, ℕ, List, map, None};
ghost use Rattle.vec_scan.specs.Image.{Image};
ghost use Rattle.vec_scan.specs.Shown.{shown};
ghost use Rattle.cell_table.specs.Cells.{Table};
ghost use Rattle.adb_model.specs.State.{State};
ghost use Rattle.adb_model.specs.Call as machine;
ghost use Rattle.adb_model.specs.Snap.{live_ids, with_snap, without_snap};
ghost use Rattle.adb_model.specs.Step.{step};
ghost use Rattle.adb_model.specs.History.{IsPass};
ghost use Rattle.adb_model.specs.Laws.{ShowLive};
ghost use Rattle.adb_model.specs.Sound.{IsSound};
ghost use Rattle.adb_model.specs.Once.{IsOnce};
ghost use Rattle.book_parts.specs.Parts.{Parts, Shared};
ghost use Rattle.book_parts.specs.Reflects.{Reflects};
ghost use Rattle.book_parts.specs.Snaps.{Snapshot, IsOpenSnap, AreUpto, MayPin, MayUnpin, PinsEach, UnpinsEach, ids_of};

use adb_model::{pinned_storages_stand, pinned_storages_stay, snaps_begin, snaps_stay_open};

/// A law: the images of the storages in use of the slots up to one are those of the storages that a snapshot of this
/// slot holds, in their order, and show what is in use there. Each is in a live cell. And which state the parts
/// reflect once these cells are pinned.
pub fn begun_snap_reflects()
    ensures ids { (p : Parts) (m : State) (slot : ℕ) (images : List Image) → IsSound m → Reflects p m → AreUpto slot p.cells p.map images
        → live_ids m slot ≡ ids_of images }
    ensures shows { (p : Parts) (m : State) (slot : ℕ) (images : List Image) → IsSound m → Reflects p m → AreUpto slot p.cells p.map images
        → ShowLive m slot (map shown images) }
    ensures may_pin { (p : Parts) (m : State) (slot : ℕ) (images : List Image) → IsSound m → Reflects p m → AreUpto slot p.cells p.map images
        → MayPin images p.cells }
    ensures done { (p : Parts) (m : State) (slot : ℕ) (images : List Image) (table : Table Shared) → IsSound m → Reflects p m → m.snap ≡ None
        → AreUpto slot p.cells p.map images → PinsEach (ids_of images) p.cells table
        → Reflects (record p { cells = table; snap = Some slot }) (with_snap m slot) }
    ensures tied { (p : Parts) (m : State) (slot : ℕ) (images : List Image) → IsSound m → Reflects p m → AreUpto slot p.cells p.map images
        → IsOpenSnap (record { slot = slot; storages = images }) (with_snap m slot) }
{
    snaps_begin();
}

/// A law: a snapshot that is open in a state has its storages pinned in the parts that reflect it, so it can end, and
/// which state they reflect then. And where the same snapshot is open after a call, the one in hand is the one that is
/// open still, with the same images.
pub fn ended_snap_reflects()
    ensures may_unpin { (p : Parts) (m : State) (job : Snapshot) → IsSound m → IsOnce m → Reflects p m → IsOpenSnap job m → MayUnpin job.storages p.cells }
    ensures done { (p : Parts) (m : State) (job : Snapshot) (table : Table Shared) → Reflects p m → IsOpenSnap job m
        → UnpinsEach (ids_of job.storages) p.cells table → Reflects (record p { cells = table; snap = None }) (without_snap m) }
    ensures stays { (m : State) (pass : ℕ) (c : machine.Call) (job : Snapshot) → IsSound m → IsPass pass
        → (step m pass c).0.snap ≡ m.snap → IsOpenSnap job m → IsOpenSnap job (step m pass c).0 }
{
    pinned_storages_stand();
    pinned_storages_stay();
    snaps_stay_open();
}
