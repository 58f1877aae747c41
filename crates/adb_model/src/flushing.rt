ghost use Rattle.std.specs.Prelude.{◌≡◌, ◌+◌, ◌<◌, ◌==◌, ◌&&◌, ◌||◌, not, if◌then◌else◌, ℕ, List, length, Some, None, option_map, IsTrue};
ghost use Rattle.adb_model.specs.Lists.{among};
ghost use Rattle.adb_model.specs.State.{Row, Live, Storage, State};
ghost use Rattle.adb_model.specs.Presence.{is_cached, is_named, is_present, has_row, is_held};
ghost use Rattle.adb_model.specs.Storages.{is_filling, bytes_of, used, storage_with, live_storage, filling_storage, open_flush, pin_count, in_phase};
ghost use Rattle.adb_model.specs.Callers.{keys_of};
ghost use Rattle.adb_model.specs.Flush.{has_cached_key, filling_with, with_filling, flushed_with, flush_dropped};
ghost use Rattle.adb_model.specs.Shrink.{named_in};
ghost use Rattle.adb_model.specs.Stats.{counts_of};
ghost use Rattle.adb_model.specs.Sound.{IsSound};
ghost use Rattle.adb_model.specs.Laws.{IsOpenFlush};

/// A law: the next id is of no storage yet, each storage's id is below it, and nothing pins the next id or a
/// storage that is being filled.
pub fn ids_are_fresh()
    ensures next { (m : State) → IsSound m → storage_with m m.next_id ≡ None }
    ensures below { (m : State) → IsSound m → (id : ℕ) (t : Storage) → storage_with m id ≡ Some t → id < m.next_id }
    ensures next_unpinned { (m : State) → IsSound m → pin_count m m.next_id ≡ 0 }
    ensures filling_unpinned { (m : State) → IsSound m → (id : ℕ) (t : Storage) → storage_with m id ≡ Some t → IsTrue (is_filling t) → pin_count m id ≡ 0 }
{}

/// A law: as a flush begins, one more storage is being filled, with the bytes of its rows, and its id and its
/// slot lead to it. All other ids and slots lead to what they did, and the pairs that are held and the other
/// counts stay.
pub fn flushes_begin()
    ensures with_id { (m : State) → IsSound m → (slot : ℕ) (rows : List Row) (id : ℕ)
        → storage_with (with_filling m slot rows) id ≡ (if m.next_id == id then Some (filling_with m slot rows) else storage_with m id) }
    ensures live { (m : State) (slot : ℕ) (rows : List Row) (s : ℕ) → live_storage (with_filling m slot rows) s ≡ live_storage m s }
    ensures filling { (m : State) (slot : ℕ) (rows : List Row) → filling_storage m slot ≡ None → (s : ℕ)
        → filling_storage (with_filling m slot rows) s ≡ (if slot == s then Some (filling_with m slot rows) else filling_storage m s) }
    ensures flush { (m : State) → IsSound m → (slot : ℕ) (rows : List Row) → open_flush m slot ≡ None → (s : ℕ)
        → open_flush (with_filling m slot rows) s ≡ (if slot == s then Some (filling_with m slot rows) else open_flush m s) }
    ensures none_filling { (m : State) → IsSound m → (slot : ℕ) → IsTrue (has_cached_key m slot) → open_flush m slot ≡ None → filling_storage m slot ≡ None }
    ensures held { (m : State) (slot : ℕ) (rows : List Row) (s : ℕ) (k : List ℕ) → is_held (with_filling m slot rows) s k ≡ is_held m s k }
    ensures bytes { (m : State) (slot : ℕ) (rows : List Row) → used (with_filling m slot rows) ≡ used m + bytes_of rows }
    ensures storages { (m : State) (slot : ℕ) (rows : List Row) → length (with_filling m slot rows).storages ≡ length m.storages + 1 }
    ensures filling_count { (m : State) (slot : ℕ) (rows : List Row) → (counts_of (with_filling m slot rows)).filling ≡ (counts_of m).filling + 1 }
    ensures live_count { (m : State) (slot : ℕ) (rows : List Row) → (counts_of (with_filling m slot rows)).live ≡ (counts_of m).live }
    ensures retired_count { (m : State) (slot : ℕ) (rows : List Row) → (counts_of (with_filling m slot rows)).retired ≡ (counts_of m).retired }
    ensures row_count { (m : State) (slot : ℕ) (rows : List Row) → (counts_of (with_filling m slot rows)).rows ≡ (counts_of m).rows }
{}

/// A law: in a sound state the storage that a flush of a slot is filling is the only one of the slot that is
/// being filled. It has a row of each key that has a store in the slot, the last row of a key is its last
/// store, and nothing of the slot is flushed, in use, held or named.
pub fn open_flushes_stand()
    ensures { (m : State) → IsSound m → (slot : ℕ) (t : Storage) → open_flush m slot ≡ Some t → IsOpenFlush m slot t }
{}

/// A law: as a flush ends, its storage comes into use, its slot is flushed, and its rows' keys are named there.
/// The same pairs are present: those of the slot were cached, and are named and held then. The slot leads to
/// its storage as the one in use, and to none that is being filled.
pub fn flushes_end()
    ensures present { (m : State) → IsSound m → (slot : ℕ) (t : Storage) → open_flush m slot ≡ Some t → (s : ℕ) (k : List ℕ)
        → is_present (flushed_with m t) s k ≡ is_present m s k }
    ensures cached { (m : State) → IsSound m → (slot : ℕ) (t : Storage) → open_flush m slot ≡ Some t → (s : ℕ) (k : List ℕ)
        → is_cached (flushed_with m t) s k ≡ (is_cached m s k && not (slot == s)) }
    ensures named { (m : State) → IsSound m → (slot : ℕ) (t : Storage) → open_flush m slot ≡ Some t → (s : ℕ) (k : List ℕ)
        → is_named (flushed_with m t) s k ≡ (is_named m s k || (slot == s && has_row k t.rows)) }
    ensures held { (m : State) → IsSound m → (slot : ℕ) (t : Storage) → open_flush m slot ≡ Some t → (s : ℕ) (k : List ℕ)
        → is_held (flushed_with m t) s k ≡ ((slot == s && has_row k t.rows) || is_held m s k) }
    ensures flushed { (m : State) → IsSound m → (slot : ℕ) (t : Storage) → open_flush m slot ≡ Some t → (s : ℕ)
        → among s (flushed_with m t).flushed ≡ (slot == s || among s m.flushed) }
    ensures with_id { (m : State) → IsSound m → (slot : ℕ) (t : Storage) → open_flush m slot ≡ Some t → (id : ℕ)
        → storage_with (flushed_with m t) id ≡ option_map (in_phase t.id Live) (storage_with m id) }
    ensures live { (m : State) → IsSound m → (slot : ℕ) (t : Storage) → open_flush m slot ≡ Some t → (s : ℕ)
        → live_storage (flushed_with m t) s ≡ (if slot == s then Some (record t { phase = Live }) else live_storage m s) }
    ensures filling { (m : State) → IsSound m → (slot : ℕ) (t : Storage) → open_flush m slot ≡ Some t → (s : ℕ)
        → filling_storage (flushed_with m t) s ≡ (if slot == s then None else filling_storage m s) }
    ensures flush { (m : State) → IsSound m → (slot : ℕ) (t : Storage) → open_flush m slot ≡ Some t → (s : ℕ)
        → open_flush (flushed_with m t) s ≡ (if slot == s then None else open_flush m s) }
    ensures bytes { (m : State) → IsSound m → (slot : ℕ) (t : Storage) → open_flush m slot ≡ Some t → used (flushed_with m t) ≡ used m }
    ensures storages { (m : State) → IsSound m → (slot : ℕ) (t : Storage) → open_flush m slot ≡ Some t → length (flushed_with m t).storages ≡ length m.storages }
    ensures filling_count { (m : State) → IsSound m → (slot : ℕ) (t : Storage) → open_flush m slot ≡ Some t
        → (counts_of m).filling ≡ (counts_of (flushed_with m t)).filling + 1 }
    ensures live_count { (m : State) → IsSound m → (slot : ℕ) (t : Storage) → open_flush m slot ≡ Some t
        → (counts_of (flushed_with m t)).live ≡ (counts_of m).live + 1 }
    ensures retired_count { (m : State) → IsSound m → (slot : ℕ) (t : Storage) → open_flush m slot ≡ Some t
        → (counts_of (flushed_with m t)).retired ≡ (counts_of m).retired }
    ensures row_count { (m : State) → IsSound m → (slot : ℕ) (t : Storage) → open_flush m slot ≡ Some t
        → (counts_of (flushed_with m t)).rows ≡ (counts_of m).rows + length t.rows }
    ensures named_count { (m : State) → IsSound m → (slot : ℕ) (t : Storage) → open_flush m slot ≡ Some t
        → (counts_of (flushed_with m t)).named ≡ (counts_of m).named + length t.rows }
    ensures named_in { (m : State) → IsSound m → (slot : ℕ) (t : Storage) → open_flush m slot ≡ Some t → (s : ℕ)
        → named_in (flushed_with m t) s ≡ (if slot == s then length t.rows else named_in m s) }
    ensures cached_count { (m : State) → IsSound m → (slot : ℕ) (t : Storage) → open_flush m slot ≡ Some t
        → (counts_of m).cached ≡ (counts_of (flushed_with m t)).cached + length (keys_of m slot) }
{}

/// A law: where a flush is given up its storage leaves with its bytes, and neither its id nor its slot leads
/// to it any more. All other ids and slots lead to what they did, and the pairs that are held and the other
/// counts stay.
pub fn flushes_are_given_up()
    ensures held { (m : State) → IsSound m → (slot : ℕ) (t : Storage) → open_flush m slot ≡ Some t → (s : ℕ) (k : List ℕ)
        → is_held (flush_dropped m t) s k ≡ is_held m s k }
    ensures with_id { (m : State) → IsSound m → (slot : ℕ) (t : Storage) → open_flush m slot ≡ Some t → (id : ℕ)
        → storage_with (flush_dropped m t) id ≡ (if t.id == id then None else storage_with m id) }
    ensures live { (m : State) → IsSound m → (slot : ℕ) (t : Storage) → open_flush m slot ≡ Some t → (s : ℕ) → live_storage (flush_dropped m t) s ≡ live_storage m s }
    ensures filling { (m : State) → IsSound m → (slot : ℕ) (t : Storage) → open_flush m slot ≡ Some t → (s : ℕ)
        → filling_storage (flush_dropped m t) s ≡ (if slot == s then None else filling_storage m s) }
    ensures flush { (m : State) → IsSound m → (slot : ℕ) (t : Storage) → open_flush m slot ≡ Some t → (s : ℕ)
        → open_flush (flush_dropped m t) s ≡ (if slot == s then None else open_flush m s) }
    ensures bytes { (m : State) → IsSound m → (slot : ℕ) (t : Storage) → open_flush m slot ≡ Some t → used m ≡ used (flush_dropped m t) + t.bytes }
    ensures storages { (m : State) → IsSound m → (slot : ℕ) (t : Storage) → open_flush m slot ≡ Some t → length m.storages ≡ length (flush_dropped m t).storages + 1 }
    ensures filling_count { (m : State) → IsSound m → (slot : ℕ) (t : Storage) → open_flush m slot ≡ Some t
        → (counts_of m).filling ≡ (counts_of (flush_dropped m t)).filling + 1 }
    ensures live_count { (m : State) → IsSound m → (slot : ℕ) (t : Storage) → open_flush m slot ≡ Some t → (counts_of (flush_dropped m t)).live ≡ (counts_of m).live }
    ensures retired_count { (m : State) → IsSound m → (slot : ℕ) (t : Storage) → open_flush m slot ≡ Some t
        → (counts_of (flush_dropped m t)).retired ≡ (counts_of m).retired }
    ensures row_count { (m : State) → IsSound m → (slot : ℕ) (t : Storage) → open_flush m slot ≡ Some t → (counts_of (flush_dropped m t)).rows ≡ (counts_of m).rows }
{}
