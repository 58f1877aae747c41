ghost use Rattle.std.specs.Prelude.{◌≡◌, ◌↔◌, ◌+◌, ◌<◌, ◌==◌, ◌&&◌, not, if◌then◌else◌, ℕ, List, length, Option, Some, None, option_map, IsTrue, IsFalse, Contains, AllPairs};
ghost use Rattle.std.specs.List.{list_any};
ghost use Rattle.std.specs.Str.{bytes_eq};
ghost use Rattle.std.specs.declared.cmp.Ordering.TheVariants.{Less};
ghost use Rattle.adb_model.specs.Lists.{among, last};
ghost use Rattle.adb_model.specs.State.{Retired, Storage, State};
ghost use Rattle.adb_model.specs.Presence.{is_named, is_present, is_live, has_row, is_held, ends_in_tomb};
ghost use Rattle.adb_model.specs.Storages.{used, storage_with, live_storage, filling_storage, open_flush, in_phase};
ghost use Rattle.adb_model.specs.Call as machine;
ghost use Rattle.adb_model.specs.Reclaimable.{is_shadowed, is_spent, present_slots, is_crowded, key_cmp, crowded_keys};
ghost use Rattle.adb_model.specs.Reclaim.{keys_taken, is_taken, retire_unnamed, drop_shadowed, drop_spent, reclaimed};
ghost use Rattle.adb_model.specs.Cleaning.{without_name, with_retired, crowded_above};
ghost use Rattle.adb_model.specs.Shrink.{named_in};
ghost use Rattle.adb_model.specs.Stats.{counts_of};
ghost use Rattle.adb_model.specs.Step.{step};
ghost use Rattle.adb_model.specs.Sound.{IsSound, IsSoundMidway};
ghost use Rattle.adb_model.specs.Once.{IsOnce};
ghost use Rattle.adb_model.specs.RowBytes.{HaveBytes};

/// A law: where a named pair leaves, it alone is named and present no longer, and its slot has one named pair
/// fewer, as the whole state has.
pub fn names_leave()
    ensures named { (m : State) (slot : ℕ) (key : List ℕ) (s : ℕ) (k : List ℕ)
        → is_named (without_name m slot key) s k ≡ (not (slot == s && bytes_eq key k) && is_named m s k) }
    ensures present { (m : State) → IsSoundMidway m → (slot : ℕ) (key : List ℕ) → IsTrue (is_named m slot key) → (s : ℕ) (k : List ℕ)
        → is_present (without_name m slot key) s k ≡ (not (slot == s && bytes_eq key k) && is_present m s k) }
    ensures once { (m : State) (slot : ℕ) (key : List ℕ) → IsOnce m → IsOnce (without_name m slot key) }
    ensures named_in { (m : State) → IsOnce m → (slot : ℕ) (key : List ℕ) → IsTrue (is_named m slot key) → (s : ℕ)
        → named_in m s ≡ named_in (without_name m slot key) s + (if slot == s then 1 else 0) }
    ensures named_count { (m : State) → IsOnce m → (slot : ℕ) (key : List ℕ) → IsTrue (is_named m slot key)
        → (counts_of m).named ≡ (counts_of (without_name m slot key)).named + 1 }
{}

/// A law: where a shadowed pair leaves, the state stays sound, the other pairs are shadowed as before, and what
/// is left to drop of the taken keys leads to the same state. Where none of the taken keys' pairs is shadowed,
/// nothing is left to drop.
pub fn shadowed_pairs_leave()
    ensures sound { (m : State) → IsSoundMidway m → (slot : ℕ) (key : List ℕ) → IsTrue (is_shadowed m slot key) → IsSoundMidway (without_name m slot key) }
    ensures others { (m : State) → IsSoundMidway m → (slot : ℕ) (key : List ℕ) → IsTrue (is_shadowed m slot key) → (s : ℕ) (k : List ℕ)
        → is_shadowed (without_name m slot key) s k ≡ (not (slot == s && bytes_eq key k) && is_shadowed m s k) }
    ensures rest { (m : State) → IsSoundMidway m → (slot : ℕ) (key : List ℕ) → IsTrue (is_shadowed m slot key)
        → (keys : List (List ℕ)) → IsTrue (is_taken keys key) → drop_shadowed keys (without_name m slot key) ≡ drop_shadowed keys m }
    ensures none { (m : State) (keys : List (List ℕ)) → ((s : ℕ) (k : List ℕ) → IsTrue (is_taken keys k) → IsFalse (is_shadowed m s k))
        → drop_shadowed keys m ≡ m }
{}

/// A law: where a spent pair leaves, the state stays sound, the other pairs are spent as before, since its row
/// is held still, and what is left to drop of the taken keys leads to the same state. Where none of the taken
/// keys' pairs is spent, nothing is left to drop.
pub fn spent_pairs_leave()
    ensures sound { (m : State) → IsSoundMidway m → (slot : ℕ) (key : List ℕ) → IsTrue (is_spent m slot key) → IsSoundMidway (without_name m slot key) }
    ensures others { (m : State) → IsSoundMidway m → (slot : ℕ) (key : List ℕ) → IsTrue (is_spent m slot key) → (s : ℕ) (k : List ℕ)
        → is_spent (without_name m slot key) s k ≡ (not (slot == s && bytes_eq key k) && is_spent m s k) }
    ensures rest { (m : State) → IsSoundMidway m → (slot : ℕ) (key : List ℕ) → IsTrue (is_spent m slot key)
        → (keys : List (List ℕ)) → IsTrue (is_taken keys key) → drop_spent keys (without_name m slot key) ≡ drop_spent keys m }
    ensures none { (m : State) (keys : List (List ℕ)) → ((s : ℕ) (k : List ℕ) → IsTrue (is_taken keys k) → IsFalse (is_spent m s k))
        → drop_spent keys m ≡ m }
{}

/// A law: a slot's storage in use is of that slot, its id leads to it, and what is held in the slot are its
/// rows.
pub fn live_storages_stand()
    ensures slot { (m : State) (s : ℕ) (t : Storage) → live_storage m s ≡ Some t → t.slot ≡ s }
    ensures is_live { (m : State) (s : ℕ) (t : Storage) → live_storage m s ≡ Some t → IsTrue (is_live t) }
    ensures with_id { (m : State) → IsSoundMidway m → (s : ℕ) (t : Storage) → live_storage m s ≡ Some t → storage_with m t.id ≡ Some t }
    ensures rows { (m : State) → IsSoundMidway m → (s : ℕ) (t : Storage) → live_storage m s ≡ Some t → (k : List ℕ) → is_held m s k ≡ has_row k t.rows }
{}

/// A law: where a storage in use retires, its slot leads to none in use and holds no pair any more. Its id still
/// leads to it, and all other ids and slots lead to what they did. If none of its pairs is named, the state
/// stays sound, and what is left to retire leads to the same state. Where each storage in use has a named pair,
/// nothing is left to retire.
pub fn unnamed_storages_retire()
    ensures sound { (m : State) → IsSoundMidway m → (t : Storage) → live_storage m t.slot ≡ Some t → named_in m t.slot ≡ 0 → IsSoundMidway (with_retired m t) }
    ensures once { (m : State) (t : Storage) → IsOnce m → IsOnce (with_retired m t) }
    ensures have_bytes { (m : State) (t : Storage) → HaveBytes m → HaveBytes (with_retired m t) }
    ensures rest { (m : State) → IsSoundMidway m → (t : Storage) → live_storage m t.slot ≡ Some t → named_in m t.slot ≡ 0
        → retire_unnamed (with_retired m t) ≡ retire_unnamed m }
    ensures none { (m : State) → IsSoundMidway m → ((s : ℕ) (t : Storage) → live_storage m s ≡ Some t → 0 < named_in m s) → (retire_unnamed m ≡ m) × IsSound m }
    ensures held { (m : State) → IsSoundMidway m → (t : Storage) → live_storage m t.slot ≡ Some t → (s : ℕ) (k : List ℕ)
        → is_held (with_retired m t) s k ≡ (not (t.slot == s) && is_held m s k) }
    ensures with_id { (m : State) (t : Storage) (id : ℕ) → storage_with (with_retired m t) id ≡ option_map (in_phase t.id Retired) (storage_with m id) }
    ensures live { (m : State) → IsSoundMidway m → (t : Storage) → live_storage m t.slot ≡ Some t → (s : ℕ)
        → live_storage (with_retired m t) s ≡ (if t.slot == s then None else live_storage m s) }
    ensures filling { (m : State) → IsSoundMidway m → (t : Storage) → live_storage m t.slot ≡ Some t → (s : ℕ)
        → filling_storage (with_retired m t) s ≡ filling_storage m s }
    ensures flush { (m : State) → IsSoundMidway m → (t : Storage) → live_storage m t.slot ≡ Some t → (s : ℕ)
        → open_flush (with_retired m t) s ≡ open_flush m s }
    ensures bytes { (m : State) (t : Storage) → used (with_retired m t) ≡ used m }
    ensures storages { (m : State) (t : Storage) → length (with_retired m t).storages ≡ length m.storages }
    ensures filling_count { (m : State) → IsSoundMidway m → (t : Storage) → live_storage m t.slot ≡ Some t
        → (counts_of (with_retired m t)).filling ≡ (counts_of m).filling }
    ensures live_count { (m : State) → IsSoundMidway m → (t : Storage) → live_storage m t.slot ≡ Some t
        → (counts_of m).live ≡ (counts_of (with_retired m t)).live + 1 }
    ensures retired_count { (m : State) → IsSoundMidway m → (t : Storage) → live_storage m t.slot ≡ Some t
        → (counts_of (with_retired m t)).retired ≡ (counts_of m).retired + 1 }
    ensures row_count { (m : State) → IsSoundMidway m → (t : Storage) → live_storage m t.slot ≡ Some t
        → (counts_of m).rows ≡ (counts_of (with_retired m t)).rows + length t.rows }
{}

/// A law: a sound state stays sound between the parts of a reclaim, but that a storage in use may have no named
/// pair, and is sound again once those have retired. Each part leaves what stands once standing once.
pub fn reclaims_are_sound()
    ensures midway { (m : State) → IsSound m → IsSoundMidway m }
    ensures shadowed { (m : State) (keys : List (List ℕ)) → IsSoundMidway m → IsSoundMidway (drop_shadowed keys m) }
    ensures spent { (m : State) (keys : List (List ℕ)) → IsSoundMidway m → IsSoundMidway (drop_spent keys m) }
    ensures retired { (m : State) → IsSoundMidway m → IsSound (retire_unnamed m) }
    ensures once_shadowed { (m : State) (keys : List (List ℕ)) → IsOnce m → IsOnce (drop_shadowed keys m) }
    ensures once_spent { (m : State) (keys : List (List ℕ)) → IsOnce m → IsOnce (drop_spent keys m) }
    ensures once_retired { (m : State) → IsOnce m → IsOnce (retire_unnamed m) }
{}

/// A law: the crowded keys rise, and are all those that are crowded. Any rising list of the slots that have a
/// key present tells how many they are, and a key has a named pair that ends in a tomb exactly where some slot
/// has one.
pub fn crowded_keys_follow()
    ensures rise { (m : State) → AllPairs (λ a b. key_cmp a b ≡ Less) (crowded_keys m) }
    ensures each { (m : State) (k : List ℕ) → Contains (crowded_keys m) k ↔ IsTrue (is_crowded m k) }
    ensures slots { (m : State) (k : List ℕ) (slots : List ℕ) → AllPairs (λ a b. a < b) slots → ((s : ℕ) → among s slots ≡ is_present m s k)
        → length (present_slots m k) ≡ length slots }
    ensures tomb { (m : State) (k : List ℕ)
        → IsTrue (list_any (λ p. bytes_eq p.key k && ends_in_tomb m p.slot k) m.named) ↔ ((s : ℕ) × IsTrue (is_named m s k) × IsTrue (ends_in_tomb m s k)) }
{}

/// A law: where a reclaim tells the last key that it took, fewer keys are left above that key than there were
/// for it, so that reclaims which go on from there come to an end. No reclaim changes which flushes are open.
pub fn reclaims_go_on()
    ensures fewer { (m : State) (after : Option (List ℕ)) (most : ℕ) (key : List ℕ) → last (keys_taken m after most) ≡ Some key
        → length (crowded_above (reclaimed (keys_taken m after most) m) (Some key)) < length (crowded_above m after) }
    ensures flushes { (m : State) (pass : ℕ) (after : Option (List ℕ)) (most s : ℕ)
        → open_flush (step m pass (machine.Reclaim after most)).0 s ≡ open_flush m s }
{}
