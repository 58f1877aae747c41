ghost use Rattle.std.specs.Prelude.{◌≡◌, ◌+◌, ◌<◌, ◌≤◌, ◌==◌, if◌then◌else◌, ℕ, List, length, Some, None, option_and_then, sum_by, IsTrue, IsFalse};
ghost use Rattle.adb_model.specs.State.{Storage, State};
ghost use Rattle.adb_model.specs.Presence.{is_named, has_row, is_held};
ghost use Rattle.adb_model.specs.Storages.{is_pinned, used, storage_with, live_storage, filling_storage, open_flush};
ghost use Rattle.adb_model.specs.Call as machine;
ghost use Rattle.adb_model.specs.Snap.{recycled};
ghost use Rattle.adb_model.specs.Stats.{counts_of};
ghost use Rattle.adb_model.specs.Step.{step};
ghost use Rattle.adb_model.specs.History.{state_after, IsPass, AreOfPasses};
ghost use Rattle.adb_model.specs.Sound.{IsSound};
ghost use Rattle.adb_model.specs.Once.{IsOnce};
ghost use Rattle.adb_model.specs.RowBytes.{HaveBytes};
ghost use Rattle.adb_model.specs.Shrinking.{FillsOnce};
ghost use Rattle.adb_model.specs.Recycling.{is_spare, spares, without_storage, StandsIn, StaysPinned};

/// A law: what recycling frees are the storages that are Retired and not pinned. Their ids lead to none then, and
/// they leave with their bytes; the reply counts them. All other ids and every slot lead to what they did, and the
/// pairs that are held and the other counts stay.
pub fn storages_leave()
    ensures with_id { (m : State) → IsSound m → (id : ℕ)
        → storage_with (recycled m) id ≡ option_and_then (λ t. if is_spare m t then None else Some t) (storage_with m id) }
    ensures live { (m : State) (s : ℕ) → live_storage (recycled m) s ≡ live_storage m s }
    ensures filling { (m : State) (s : ℕ) → filling_storage (recycled m) s ≡ filling_storage m s }
    ensures flush { (m : State) (s : ℕ) → open_flush (recycled m) s ≡ open_flush m s }
    ensures held { (m : State) (s : ℕ) (k : List ℕ) → is_held (recycled m) s k ≡ is_held m s k }
    ensures bytes { (m : State) → used m ≡ used (recycled m) + sum_by (λ t. t.bytes) (spares m) }
    ensures storages { (m : State) → length m.storages ≡ length (recycled m).storages + length (spares m) }
    ensures filling_count { (m : State) → (counts_of (recycled m)).filling ≡ (counts_of m).filling }
    ensures live_count { (m : State) → (counts_of (recycled m)).live ≡ (counts_of m).live }
    ensures retired_count { (m : State) → (counts_of m).retired ≡ (counts_of (recycled m)).retired + length (spares m) }
    ensures row_count { (m : State) → (counts_of (recycled m)).rows ≡ (counts_of m).rows }
    ensures reply { (m : State) (pass : ℕ) → step m pass machine.Recycle ≡ (recycled m, machine.Recycled (length (spares m))) }
{}

/// A law: storages that recycling frees may leave one by one. Where one has left, its id leads to none, its bytes
/// are gone, and there is one such storage fewer; all else is as it was, and recycling leads to the same state.
/// Where none is left, it changes nothing.
pub fn spares_leave()
    ensures sound { (m : State) → IsSound m → (t : Storage) → storage_with m t.id ≡ Some t → IsTrue (is_spare m t) → IsSound (without_storage m t) }
    ensures once { (m : State) (t : Storage) → IsOnce m → IsOnce (without_storage m t) }
    ensures fills_once { (m : State) (t : Storage) → FillsOnce m → FillsOnce (without_storage m t) }
    ensures have_bytes { (m : State) (t : Storage) → HaveBytes m → HaveBytes (without_storage m t) }
    ensures with_id { (m : State) (t : Storage) (id : ℕ) → storage_with (without_storage m t) id ≡ (if t.id == id then None else storage_with m id) }
    ensures live { (m : State) → IsSound m → (t : Storage) → storage_with m t.id ≡ Some t → IsTrue (is_spare m t) → (s : ℕ)
        → live_storage (without_storage m t) s ≡ live_storage m s }
    ensures filling { (m : State) → IsSound m → (t : Storage) → storage_with m t.id ≡ Some t → IsTrue (is_spare m t) → (s : ℕ)
        → filling_storage (without_storage m t) s ≡ filling_storage m s }
    ensures flush { (m : State) → IsSound m → (t : Storage) → storage_with m t.id ≡ Some t → IsTrue (is_spare m t) → (s : ℕ)
        → open_flush (without_storage m t) s ≡ open_flush m s }
    ensures held { (m : State) → IsSound m → (t : Storage) → storage_with m t.id ≡ Some t → IsTrue (is_spare m t) → (s : ℕ) (k : List ℕ)
        → is_held (without_storage m t) s k ≡ is_held m s k }
    ensures bytes { (m : State) → IsSound m → (t : Storage) → storage_with m t.id ≡ Some t → used m ≡ used (without_storage m t) + t.bytes }
    ensures storages { (m : State) → IsSound m → (t : Storage) → storage_with m t.id ≡ Some t → length m.storages ≡ length (without_storage m t).storages + 1 }
    ensures filling_count { (m : State) → IsSound m → (t : Storage) → storage_with m t.id ≡ Some t → IsTrue (is_spare m t)
        → (counts_of (without_storage m t)).filling ≡ (counts_of m).filling }
    ensures live_count { (m : State) → IsSound m → (t : Storage) → storage_with m t.id ≡ Some t → IsTrue (is_spare m t)
        → (counts_of (without_storage m t)).live ≡ (counts_of m).live }
    ensures retired_count { (m : State) → IsSound m → (t : Storage) → storage_with m t.id ≡ Some t → IsTrue (is_spare m t)
        → (counts_of m).retired ≡ (counts_of (without_storage m t)).retired + 1 }
    ensures row_count { (m : State) → IsSound m → (t : Storage) → storage_with m t.id ≡ Some t → IsTrue (is_spare m t)
        → (counts_of (without_storage m t)).rows ≡ (counts_of m).rows }
    ensures fewer { (m : State) → IsSound m → (t : Storage) → storage_with m t.id ≡ Some t → IsTrue (is_spare m t)
        → length (spares m) ≡ length (spares (without_storage m t)) + 1 }
    ensures rest { (m : State) → IsSound m → (t : Storage) → storage_with m t.id ≡ Some t → IsTrue (is_spare m t)
        → recycled (without_storage m t) ≡ recycled m }
    ensures none { (m : State) → IsSound m → ((id : ℕ) (t : Storage) → storage_with m id ≡ Some t → IsFalse (is_spare m t)) → recycled m ≡ m }
{}

/// A law: reclamation is safe. A storage that is pinned in each state of a history stands in the last with its
/// slot, its rows and its bytes. An id is given to one storage alone: ids below the next one only lose their
/// storages, so an id that has left never comes again, and what is put in a place that was freed has another id.
/// And no storage in which a load finds a pair is ever recycled.
pub fn pinned_storages_stay()
    ensures step { (m : State) → IsSound m → (pass : ℕ) → IsPass pass → (c : machine.Call) (id : ℕ) → IsTrue (is_pinned m id)
        → (t : Storage) → storage_with m id ≡ Some t → StandsIn (step m pass c).0 t }
    ensures history { (m : State) (events : List machine.Event) → AreOfPasses events → IsSound m → (id : ℕ) → StaysPinned m events id
        → (t : Storage) → storage_with m id ≡ Some t → StandsIn (state_after m events) t }
    ensures ids_grow { (m : State) (events : List machine.Event) → m.next_id ≤ (state_after m events).next_id }
    ensures known { (m : State) (events : List machine.Event) → AreOfPasses events → IsSound m → (id : ℕ) → id < m.next_id
        → (t : Storage) → storage_with (state_after m events) id ≡ Some t → StandsIn m t }
    ensures one { (m : State) (events : List machine.Event) → AreOfPasses events → IsSound m → (id : ℕ) (t u : Storage)
        → storage_with m id ≡ Some t → storage_with (state_after m events) id ≡ Some u → (u.slot ≡ t.slot) × (u.rows ≡ t.rows) }
    ensures gone { (m : State) (events : List machine.Event) → AreOfPasses events → IsSound m → (id : ℕ) → id < m.next_id
        → storage_with m id ≡ None → storage_with (state_after m events) id ≡ None }
    ensures named { (m : State) → IsSound m → (s : ℕ) (k : List ℕ) → IsTrue (is_named m s k)
        → (t : Storage) × (live_storage m s ≡ Some t) × IsTrue (has_row k t.rows) × (storage_with (recycled m) t.id ≡ Some t) }
{}
