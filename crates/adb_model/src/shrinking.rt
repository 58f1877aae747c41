ghost use Rattle.std.specs.Prelude.{◌≡◌, ◌≢◌, ◌+◌, ◌==◌, if◌then◌else◌, true, ℕ, List, length, Some, None, IsSome, option_map, IsTrue, IsFalse, AllPairs, Contains};
ghost use Rattle.adb_model.specs.Lists.{among};
ghost use Rattle.adb_model.specs.State.{Row, Live, Retired, Storage, Shrink, State, fresh};
ghost use Rattle.adb_model.specs.Presence.{is_named, has_row, is_held};
ghost use Rattle.adb_model.specs.Storages.{bytes_of, used, storage_with, live_storage, filling_storage, open_flush, open_shrink, pin_count};
ghost use Rattle.adb_model.specs.Call as machine;
ghost use Rattle.adb_model.specs.Flush.{filling_with};
ghost use Rattle.adb_model.specs.Shrink.{named_in, shrink_rows, shrinking, is_current, exchanged, installed, copy_dropped};
ghost use Rattle.adb_model.specs.Stats.{counts_of};
ghost use Rattle.adb_model.specs.Step.{step};
ghost use Rattle.adb_model.specs.History.{state_after};
ghost use Rattle.adb_model.specs.Opened.{Image, opened};
ghost use Rattle.adb_model.specs.Sound.{IsSound, last_account, last_row};
ghost use Rattle.adb_model.specs.Once.{IsOnce};
ghost use Rattle.adb_model.specs.Shrinking.{IsOpenShrink, FillsOnce, shrinks_stay};

/// A law: the rows that a shrink copies are one of each key that is named in the slot, with the account of the
/// key's last store. The slot of a storage in use is flushed, so no flush of it is open, and while no shrink of
/// it is open either, nothing of the slot is being filled.
pub fn shrinks_copy_named_rows()
    ensures slot { (m : State) (slot : ℕ) (old : Storage) → live_storage m slot ≡ Some old → old.slot ≡ slot }
    ensures keys { (m : State) → IsSound m → (slot : ℕ) (old : Storage) → live_storage m slot ≡ Some old → (k : List ℕ)
        → has_row k (shrink_rows m old) ≡ is_named m slot k }
    ensures differ { (m : State) (old : Storage) → AllPairs (λ r q. r.key ≢ q.key) (shrink_rows m old) }
    ensures count { (m : State) → IsSound m → IsOnce m → (slot : ℕ) (old : Storage) → live_storage m slot ≡ Some old
        → length (shrink_rows m old) ≡ named_in m slot }
    ensures accounts { (m : State) → IsSound m → (slot : ℕ) (old : Storage) → live_storage m slot ≡ Some old → (r : Row)
        → Contains (shrink_rows m old) r → last_account m slot r.key ≡ Some r.account }
    ensures last { (m : State) → IsSound m → (slot : ℕ) (old : Storage) → live_storage m slot ≡ Some old → (k : List ℕ)
        → IsTrue (is_named m slot k) → last_row k (shrink_rows m old) ≡ last_account m slot k }
    ensures flushed { (m : State) → IsSound m → (slot : ℕ) (old : Storage) → live_storage m slot ≡ Some old → IsTrue (among slot m.flushed) }
    ensures no_flush { (m : State) → IsSound m → (slot : ℕ) (old : Storage) → live_storage m slot ≡ Some old → open_flush m slot ≡ None }
    ensures none_filling { (m : State) → IsSound m → (slot : ℕ) (old : Storage) → live_storage m slot ≡ Some old → open_shrink m slot ≡ None
        → filling_storage m slot ≡ None }
{}

/// A law: a storage that is being filled, by a flush or by a shrink, has one row of each of its keys, in any state
/// that is reached.
pub fn filling_rows_differ()
    ensures start { (budget id : ℕ) → FillsOnce (fresh budget id) }
    ensures open { (budget root : ℕ) (images : List Image) (more : List ℕ) → FillsOnce (opened budget root images more) }
    ensures step { (m : State) (pass : ℕ) (c : machine.Call) → FillsOnce m → FillsOnce (step m pass c).0 }
    ensures history { (m : State) (events : List machine.Event) → FillsOnce m → FillsOnce (state_after m events) }
{}

/// A law: as a shrink begins, one more storage is being filled, with the rows of the slot's named keys, and its
/// id and its slot lead to it. The shrink is open, and pins the storage that it copies once more. All other ids
/// and slots lead to what they did, and the flushes that are open, the pairs that are held and the other counts
/// stay.
pub fn shrinks_begin()
    ensures with_id { (m : State) → IsSound m → (old : Storage) (id : ℕ)
        → storage_with (shrinking m old) id ≡ (if m.next_id == id then Some (filling_with m old.slot (shrink_rows m old)) else storage_with m id) }
    ensures live { (m : State) (old : Storage) (s : ℕ) → live_storage (shrinking m old) s ≡ live_storage m s }
    ensures filling { (m : State) → IsSound m → (slot : ℕ) (old : Storage) → live_storage m slot ≡ Some old → open_shrink m slot ≡ None → (s : ℕ)
        → filling_storage (shrinking m old) s ≡ (if slot == s then Some (filling_with m slot (shrink_rows m old)) else filling_storage m s) }
    ensures flush { (m : State) → IsSound m → (old : Storage) (s : ℕ) → open_flush (shrinking m old) s ≡ open_flush m s }
    ensures shrink { (m : State) (slot : ℕ) (old : Storage) → live_storage m slot ≡ Some old → open_shrink m slot ≡ None → (s : ℕ)
        → open_shrink (shrinking m old) s ≡ (if slot == s then Some (record { slot = slot; old = old.id; new = m.next_id }) else open_shrink m s) }
    ensures held { (m : State) (old : Storage) (s : ℕ) (k : List ℕ) → is_held (shrinking m old) s k ≡ is_held m s k }
    ensures pinned { (m : State) (old : Storage) (id : ℕ) → pin_count (shrinking m old) id ≡ pin_count m id + (if old.id == id then 1 else 0) }
    ensures bytes { (m : State) (old : Storage) → used (shrinking m old) ≡ used m + bytes_of (shrink_rows m old) }
    ensures storages { (m : State) (old : Storage) → length (shrinking m old).storages ≡ length m.storages + 1 }
    ensures filling_count { (m : State) (old : Storage) → (counts_of (shrinking m old)).filling ≡ (counts_of m).filling + 1 }
    ensures live_count { (m : State) (old : Storage) → (counts_of (shrinking m old)).live ≡ (counts_of m).live }
    ensures retired_count { (m : State) (old : Storage) → (counts_of (shrinking m old)).retired ≡ (counts_of m).retired }
    ensures row_count { (m : State) (old : Storage) → (counts_of (shrinking m old)).rows ≡ (counts_of m).rows }
    ensures pin_total { (m : State) (old : Storage) → (counts_of (shrinking m old)).pins ≡ (counts_of m).pins + 1 }
{}

/// A law: in a sound state an open shrink stands between two storages of its slot: the old one, which is in use or
/// retired and is pinned, and the copy, which is the slot's only one that is being filled, and which nothing pins.
/// The copy has a row of each key that is named in the slot, no key that the old storage has not, and the last row
/// of a key is its last store.
///
/// The shrink is current exactly while the old storage is in use, and then it is the slot's.
pub fn open_shrinks_stand()
    ensures between { (m : State) → IsSound m → (slot : ℕ) (h : Shrink) → open_shrink m slot ≡ Some h
        → (old : Storage) × (copy : Storage) × IsOpenShrink m slot h old copy }
    ensures current { (m : State) → IsSound m → (slot : ℕ) (h : Shrink) → open_shrink m slot ≡ Some h → (old : Storage)
        → live_storage m slot ≡ Some old → is_current m h ≡ (old.id == h.old) }
    ensures not_current { (m : State) → IsSound m → (slot : ℕ) (h : Shrink) → open_shrink m slot ≡ Some h
        → live_storage m slot ≡ None → IsFalse (is_current m h) }
{}

/// A law: as a shrink ends whose old storage is in use, that one is retired and the copy takes its place: the slot
/// leads to the copy as its storage in use, and the keys of its rows are held in the slot and no others. No shrink
/// of the slot is open then, and the old storage has one pin fewer. All other slots lead to what they did, ids lead
/// to the same storages, and the flushes that are open, the bytes and the other counts stay.
pub fn shrinks_install()
    ensures held { (m : State) → IsSound m → (slot : ℕ) (h : Shrink) → open_shrink m slot ≡ Some h → IsTrue (is_current m h)
        → (copy : Storage) → storage_with m h.new ≡ Some copy → (s : ℕ) (k : List ℕ)
        → is_held (installed m h) s k ≡ (if slot == s then has_row k copy.rows else is_held m s k) }
    ensures with_id { (m : State) (h : Shrink) (id : ℕ) → storage_with (installed m h) id ≡ option_map (exchanged h) (storage_with m id) }
    ensures retired { (m : State) → IsSound m → (slot : ℕ) (h : Shrink) → open_shrink m slot ≡ Some h → (old : Storage) → storage_with m h.old ≡ Some old
        → storage_with (installed m h) h.old ≡ Some (record old { phase = Retired }) }
    ensures used { (m : State) (h : Shrink) (copy : Storage) → storage_with m h.new ≡ Some copy
        → storage_with (installed m h) h.new ≡ Some (record copy { phase = Live }) }
    ensures others { (m : State) (h : Shrink) (id : ℕ) → h.old ≢ id → h.new ≢ id → storage_with (installed m h) id ≡ storage_with m id }
    ensures live { (m : State) → IsSound m → (slot : ℕ) (h : Shrink) → open_shrink m slot ≡ Some h → IsTrue (is_current m h)
        → (copy : Storage) → storage_with m h.new ≡ Some copy → (s : ℕ)
        → live_storage (installed m h) s ≡ (if slot == s then Some (record copy { phase = Live }) else live_storage m s) }
    ensures filling { (m : State) → IsSound m → (slot : ℕ) (h : Shrink) → open_shrink m slot ≡ Some h → (s : ℕ)
        → filling_storage (installed m h) s ≡ (if slot == s then None else filling_storage m s) }
    ensures flush { (m : State) → IsSound m → (slot : ℕ) (h : Shrink) → open_shrink m slot ≡ Some h → (s : ℕ)
        → open_flush (installed m h) s ≡ open_flush m s }
    ensures shrink { (m : State) (slot : ℕ) (h : Shrink) → open_shrink m slot ≡ Some h → (s : ℕ)
        → open_shrink (installed m h) s ≡ (if slot == s then None else open_shrink m s) }
    ensures pinned { (m : State) → IsSound m → (slot : ℕ) (h : Shrink) → open_shrink m slot ≡ Some h → (id : ℕ)
        → pin_count m id ≡ pin_count (installed m h) id + (if h.old == id then 1 else 0) }
    ensures bytes { (m : State) (h : Shrink) → used (installed m h) ≡ used m }
    ensures storages { (m : State) (h : Shrink) → length (installed m h).storages ≡ length m.storages }
    ensures filling_count { (m : State) → IsSound m → (slot : ℕ) (h : Shrink) → open_shrink m slot ≡ Some h
        → (counts_of m).filling ≡ (counts_of (installed m h)).filling + 1 }
    ensures live_count { (m : State) → IsSound m → (slot : ℕ) (h : Shrink) → open_shrink m slot ≡ Some h → IsTrue (is_current m h)
        → (counts_of (installed m h)).live ≡ (counts_of m).live }
    ensures retired_count { (m : State) → IsSound m → (slot : ℕ) (h : Shrink) → open_shrink m slot ≡ Some h → IsTrue (is_current m h)
        → (counts_of (installed m h)).retired ≡ (counts_of m).retired + 1 }
    ensures row_count { (m : State) → IsSound m → (slot : ℕ) (h : Shrink) → open_shrink m slot ≡ Some h → IsTrue (is_current m h)
        → (old copy : Storage) → storage_with m h.old ≡ Some old → storage_with m h.new ≡ Some copy
        → (counts_of (installed m h)).rows + length old.rows ≡ (counts_of m).rows + length copy.rows }
    ensures pin_total { (m : State) → IsSound m → (slot : ℕ) (h : Shrink) → open_shrink m slot ≡ Some h
        → (counts_of m).pins ≡ (counts_of (installed m h)).pins + 1 }
{}

/// A law: where a shrink is given up, or ends too late, its copy leaves with its bytes, and neither its id nor its
/// slot leads to it any more. No shrink of the slot is open then, and the old storage has one pin fewer. All other
/// ids and slots lead to what they did, and the flushes that are open, the pairs that are held and the other counts
/// stay.
pub fn shrinks_are_given_up()
    ensures held { (m : State) → IsSound m → (slot : ℕ) (h : Shrink) → open_shrink m slot ≡ Some h → (s : ℕ) (k : List ℕ)
        → is_held (copy_dropped m h) s k ≡ is_held m s k }
    ensures with_id { (m : State) (h : Shrink) (id : ℕ) → storage_with (copy_dropped m h) id ≡ (if h.new == id then None else storage_with m id) }
    ensures live { (m : State) → IsSound m → (slot : ℕ) (h : Shrink) → open_shrink m slot ≡ Some h → (s : ℕ)
        → live_storage (copy_dropped m h) s ≡ live_storage m s }
    ensures filling { (m : State) → IsSound m → (slot : ℕ) (h : Shrink) → open_shrink m slot ≡ Some h → (s : ℕ)
        → filling_storage (copy_dropped m h) s ≡ (if slot == s then None else filling_storage m s) }
    ensures flush { (m : State) → IsSound m → (slot : ℕ) (h : Shrink) → open_shrink m slot ≡ Some h → (s : ℕ)
        → open_flush (copy_dropped m h) s ≡ open_flush m s }
    ensures shrink { (m : State) (slot : ℕ) (h : Shrink) → open_shrink m slot ≡ Some h → (s : ℕ)
        → open_shrink (copy_dropped m h) s ≡ (if slot == s then None else open_shrink m s) }
    ensures pinned { (m : State) → IsSound m → (slot : ℕ) (h : Shrink) → open_shrink m slot ≡ Some h → (id : ℕ)
        → pin_count m id ≡ pin_count (copy_dropped m h) id + (if h.old == id then 1 else 0) }
    ensures bytes { (m : State) → IsSound m → (slot : ℕ) (h : Shrink) → open_shrink m slot ≡ Some h
        → (copy : Storage) → storage_with m h.new ≡ Some copy → used m ≡ used (copy_dropped m h) + copy.bytes }
    ensures storages { (m : State) → IsSound m → (slot : ℕ) (h : Shrink) → open_shrink m slot ≡ Some h
        → length m.storages ≡ length (copy_dropped m h).storages + 1 }
    ensures filling_count { (m : State) → IsSound m → (slot : ℕ) (h : Shrink) → open_shrink m slot ≡ Some h
        → (counts_of m).filling ≡ (counts_of (copy_dropped m h)).filling + 1 }
    ensures live_count { (m : State) → IsSound m → (slot : ℕ) (h : Shrink) → open_shrink m slot ≡ Some h
        → (counts_of (copy_dropped m h)).live ≡ (counts_of m).live }
    ensures retired_count { (m : State) → IsSound m → (slot : ℕ) (h : Shrink) → open_shrink m slot ≡ Some h
        → (counts_of (copy_dropped m h)).retired ≡ (counts_of m).retired }
    ensures row_count { (m : State) → IsSound m → (slot : ℕ) (h : Shrink) → open_shrink m slot ≡ Some h
        → (counts_of (copy_dropped m h)).rows ≡ (counts_of m).rows }
    ensures pin_total { (m : State) → IsSound m → (slot : ℕ) (h : Shrink) → open_shrink m slot ≡ Some h
        → (counts_of m).pins ≡ (counts_of (copy_dropped m h)).pins + 1 }
{}

/// A law: a shrink of a slot is open from its begin to its end, or until it is given up, and no other call changes
/// which are open, nor do the three change which flushes are. A begin copies the slot's storage in use to one with
/// the next id. An end or an abort is refused exactly where no shrink of the slot is open, and an end tells whether
/// the old storage was in use still. What is refused changes nothing.
pub fn shrinks_stay_open()
    ensures same { (m : State) (pass : ℕ) (c : machine.Call) → shrinks_stay c ≡ true → (s : ℕ) → open_shrink (step m pass c).0 s ≡ open_shrink m s }
    ensures begun { (m : State) (pass slot old new bytes : ℕ) → (step m pass (machine.ShrinkBegin slot)).1 ≡ machine.ShrinkBegun old new bytes → (s : ℕ)
        → open_shrink (step m pass (machine.ShrinkBegin slot)).0 s ≡ (if slot == s then Some (record { slot = slot; old = old; new = new }) else open_shrink m s) }
    ensures told { (m : State) (pass slot old new bytes : ℕ) → (step m pass (machine.ShrinkBegin slot)).1 ≡ machine.ShrinkBegun old new bytes
        → (t : Storage) × (live_storage m slot ≡ Some t) × (open_shrink m slot ≡ None) × (old ≡ t.id) × (new ≡ m.next_id) × (bytes ≡ bytes_of (shrink_rows m t)) }
    ensures refused { (m : State) (pass slot : ℕ) (refusal : machine.Refusal)
        → (step m pass (machine.ShrinkBegin slot)).1 ≡ machine.Refused refusal → (step m pass (machine.ShrinkBegin slot)).0 ≡ m }
    ensures ended { (m : State) (pass slot : ℕ) → IsSome (open_shrink m slot) → (s : ℕ)
        → open_shrink (step m pass (machine.ShrinkEnd slot)).0 s ≡ (if slot == s then None else open_shrink m s) }
    ensures end_told { (m : State) (pass slot : ℕ) (h : Shrink) → open_shrink m slot ≡ Some h
        → (step m pass (machine.ShrinkEnd slot)).1 ≡ (if is_current m h then machine.Done else machine.Superseded slot h.old) }
    ensures aborted { (m : State) (pass slot : ℕ) → IsSome (open_shrink m slot) → (s : ℕ)
        → open_shrink (step m pass (machine.ShrinkAbort slot)).0 s ≡ (if slot == s then None else open_shrink m s) }
    ensures abort_done { (m : State) (pass slot : ℕ) → IsSome (open_shrink m slot) → (step m pass (machine.ShrinkAbort slot)).1 ≡ machine.Done }
    ensures no_end { (m : State) (pass slot : ℕ) → open_shrink m slot ≡ None
        → step m pass (machine.ShrinkEnd slot) ≡ (m, machine.Refused (machine.NotShrinking slot)) }
    ensures no_abort { (m : State) (pass slot : ℕ) → open_shrink m slot ≡ None
        → step m pass (machine.ShrinkAbort slot) ≡ (m, machine.Refused (machine.NotShrinking slot)) }
    ensures flush_begun { (m : State) → IsSound m → (pass slot s : ℕ) → open_flush (step m pass (machine.ShrinkBegin slot)).0 s ≡ open_flush m s }
    ensures flush_ended { (m : State) → IsSound m → (pass slot s : ℕ) → open_flush (step m pass (machine.ShrinkEnd slot)).0 s ≡ open_flush m s }
    ensures flush_aborted { (m : State) → IsSound m → (pass slot s : ℕ) → open_flush (step m pass (machine.ShrinkAbort slot)).0 s ≡ open_flush m s }
{}
