ghost use Rattle.std.specs.Prelude.{◌≡◌, ◌↔◌, ◌+◌, ◌<◌, ◌≤◌, ◌==◌, nat_lt, ◌&&◌, if◌then◌else◌, ℕ, length, Some, None, is_some, IsTrue, IsFalse, count_by};
ghost use Rattle.std.specs.List.{list_any};
ghost use Rattle.adb_model.specs.State.{Storage, State};
ghost use Rattle.adb_model.specs.Storages.{is_filling, storage_with, pin_count, is_pinned};
ghost use Rattle.adb_model.specs.Call.{InStorage};
ghost use Rattle.adb_model.specs.Callers.{pinned, is_pin, unpinned};
ghost use Rattle.adb_model.specs.Stats.{counts_of};
ghost use Rattle.adb_model.specs.Sound.{IsSound};
ghost use Rattle.adb_model.specs.Once.{IsOnce};

/// A law: where a pass pins a storage, the storage is pinned once more, the pass has one pin more, and it has
/// one more on this storage; where it lets go, each is one fewer. Nothing else changes of how often storages
/// are pinned and how many pins passes have.
pub fn pins_follow()
    ensures pinned { (m : State) (pass id i : ℕ) → pin_count (pinned m pass (InStorage id)) i ≡ pin_count m i + (if id == i then 1 else 0) }
    ensures pinned_by { (m : State) (pass id p i : ℕ)
        → count_by (is_pin p i) (pinned m pass (InStorage id)).pins ≡ count_by (is_pin p i) m.pins + (if pass == p && id == i then 1 else 0) }
    ensures pinned_of { (m : State) (pass id p : ℕ)
        → count_by (λ q. q.pass == p) (pinned m pass (InStorage id)).pins ≡ count_by (λ q. q.pass == p) m.pins + (if pass == p then 1 else 0) }
    ensures pinned_length { (m : State) (pass id : ℕ) → length (pinned m pass (InStorage id)).pins ≡ length m.pins + 1 }
    ensures taken { (m : State) (pass id : ℕ) → IsTrue (list_any (is_pin pass id) m.pins) → (i : ℕ)
        → pin_count m i ≡ pin_count (unpinned m pass id) i + (if id == i then 1 else 0) }
    ensures taken_by { (m : State) (pass id : ℕ) → IsTrue (list_any (is_pin pass id) m.pins) → (p i : ℕ)
        → count_by (is_pin p i) m.pins ≡ count_by (is_pin p i) (unpinned m pass id).pins + (if pass == p && id == i then 1 else 0) }
    ensures taken_of { (m : State) (pass id : ℕ) → IsTrue (list_any (is_pin pass id) m.pins) → (p : ℕ)
        → count_by (λ q. q.pass == p) m.pins ≡ count_by (λ q. q.pass == p) (unpinned m pass id).pins + (if pass == p then 1 else 0) }
    ensures taken_length { (m : State) (pass id : ℕ) → IsTrue (list_any (is_pin pass id) m.pins)
        → length m.pins ≡ length (unpinned m pass id).pins + 1 }
{}

/// A law: a storage is pinned exactly where a pin of it is counted, and in a sound state a pinned storage is
/// there and has been filled. There are at most 4,194,304 pins of passes, and as many shrinks as storages
/// at most, and a snapshot of as many, so there are at most 6,291,456 pins of every kind.
pub fn pinned_storages_stand()
    ensures own { (m : State) (pass id : ℕ) → IsTrue (list_any (is_pin pass id) m.pins) → IsTrue (is_pinned m id) }
    ensures counted { (m : State) (id : ℕ) → is_pinned m id ≡ nat_lt 0 (pin_count m id) }
    ensures own_counted { (m : State) (pass id : ℕ) → (0 < count_by (is_pin pass id) m.pins) ↔ IsTrue (list_any (is_pin pass id) m.pins) }
    ensures there { (m : State) → IsSound m → (id : ℕ) → IsTrue (is_pinned m id) → IsTrue (is_some (storage_with m id)) }
    ensures filled { (m : State) → IsSound m → (id : ℕ) → IsTrue (is_pinned m id) → (t : Storage) → storage_with m id ≡ Some t → IsFalse (is_filling t) }
    ensures few { (m : State) → IsSound m → length m.pins ≤ 4194304 }
    ensures few_shrinks { (m : State) → IsSound m → length m.shrinks ≤ length m.storages }
    ensures few_counted { (m : State) → IsSound m → IsOnce m → (counts_of m).pins ≤ 6291456 }
{}
