ghost use Rattle.std.specs.Prelude.{◌≡◌, ◌≢◌, ◌<◌, ◌≤◌, ◌==◌, nat_le, ◌&&◌, true, ℕ, List, length, filter_map, AllPairs, Some, None, is_some, IsTrue, IsFalse};
ghost use Rattle.adb_model.specs.Lists.{among};
ghost use Rattle.adb_model.specs.State.{Snap, State};
ghost use Rattle.adb_model.specs.Storages.{live_storage, is_pinned};
ghost use Rattle.adb_model.specs.Call as machine;
ghost use Rattle.adb_model.specs.Flush.{has_cached_key};
ghost use Rattle.adb_model.specs.Snap.{live_upto, live_ids, first_unflushed, open_snap, without_snap};
ghost use Rattle.adb_model.specs.Step.{step};
ghost use Rattle.adb_model.specs.Sound.{IsSound};
ghost use Rattle.adb_model.specs.Laws.{IsFlushedUpto};
ghost use Rattle.adb_model.specs.Snapping.{snapped, snaps_stay};

/// A law: the storages of a snapshot are what the slots up to its own that have a storage in use lead to, if these
/// rise; so their ids differ. It has to wait for the least root up to its slot that has a cached key, and for none
/// exactly where all these roots are flushed.
pub fn snaps_begin()
    ensures storages { (m : State) (slot : ℕ) (slots : List ℕ) → AllPairs (λ a b. a < b) slots
        → ((s : ℕ) → among s slots ≡ (nat_le s slot && is_some (live_storage m s))) → live_upto m slot ≡ filter_map (live_storage m) slots }
    ensures differ { (m : State) → IsSound m → (slot : ℕ) → AllPairs (λ a b. a ≢ b) (live_ids m slot) }
    ensures waits { (m : State) → IsSound m → (slot r : ℕ) → IsTrue (among r m.roots) → r ≤ slot → IsTrue (has_cached_key m r)
        → ((q : ℕ) → q < r → IsTrue (among q m.roots) → IsFalse (has_cached_key m q)) → first_unflushed m slot ≡ Some r }
    ensures none_waits { (m : State) (slot : ℕ) → IsFlushedUpto m slot → first_unflushed m slot ≡ None }
    ensures flushed { (m : State) (slot : ℕ) → first_unflushed m slot ≡ None → IsFlushedUpto m slot }
{}

/// A law: a snapshot is open from its begin to its end, and no other call changes which one is. While it is open, its
/// storages are pinned, so they stay. A begin tells how many they are; its slot is a root, which is not below the
/// cleaned slot, and all roots up to it are flushed. An end is refused exactly where no snapshot of the slot is open.
/// What is refused changes nothing.
pub fn snaps_stay_open()
    ensures same { (m : State) (pass : ℕ) (c : machine.Call) → snaps_stay c ≡ true → (step m pass c).0.snap ≡ m.snap }
    ensures pinned { (m : State) (n : Snap) → m.snap ≡ Some n → (id : ℕ) → IsTrue (among id n.ids) → IsTrue (is_pinned m id) }
    ensures begun { (m : State) (pass slot storages : ℕ) → (step m pass (machine.SnapBegin slot)).1 ≡ machine.SnapBegun storages
        → (m.snap ≡ None) × (storages ≡ length (live_ids m slot)) × ((step m pass (machine.SnapBegin slot)).0 ≡ snapped m slot (live_ids m slot)) }
    ensures may { (m : State) (pass slot storages : ℕ) → (step m pass (machine.SnapBegin slot)).1 ≡ machine.SnapBegun storages
        → IsTrue (among slot m.roots) × (m.cleaned ≤ slot) × IsFlushedUpto m slot }
    ensures refused { (m : State) (pass slot : ℕ) (refusal : machine.Refusal)
        → (step m pass (machine.SnapBegin slot)).1 ≡ machine.Refused refusal → (step m pass (machine.SnapBegin slot)).0 ≡ m }
    ensures ended { (m : State) (pass : ℕ) (n : Snap) → m.snap ≡ Some n → step m pass (machine.SnapEnd n.slot) ≡ (without_snap m, machine.Done) }
    ensures no_end { (m : State) (pass slot : ℕ) → open_snap m slot ≡ None
        → step m pass (machine.SnapEnd slot) ≡ (m, machine.Refused (machine.NotSnapping slot)) }
{}
