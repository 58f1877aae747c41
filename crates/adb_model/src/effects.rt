ghost use Rattle.std.specs.Prelude.{◌≡◌, ◌≢◌, ◌+◌, ◌==◌, ◌&&◌, ◌||◌, not, if◌then◌else◌, ℕ, List, [], ◌∷◌, ◌++◌, length, find, AllPairs, Option, Some, None, option_map, is_some, IsFalse};
ghost use Rattle.std.specs.Str.{bytes_eq};
ghost use Rattle.adb_model.specs.Lists.{among};
ghost use Rattle.adb_model.specs.Account.{Account, is_tomb};
ghost use Rattle.adb_model.specs.State.{State};
ghost use Rattle.adb_model.specs.Load.{last_store};
ghost use Rattle.adb_model.specs.Presence.{has_store, is_cached, is_named, is_present, ends_in_tomb};
ghost use Rattle.adb_model.specs.Call as machine;
ghost use Rattle.adb_model.specs.Callers.{rooted_by, keys_of, with_store, without_stores};
ghost use Rattle.adb_model.specs.Flush.{flush_rows};
ghost use Rattle.adb_model.specs.Stats.{counts_of};
ghost use Rattle.adb_model.specs.Step.{step};
ghost use Rattle.adb_model.specs.History.{state_after, IsLegal, IsPass, AreOfPasses};
ghost use Rattle.adb_model.specs.Sound.{IsSound};
ghost use Rattle.adb_model.specs.Cache.{put_row};

/// A law: a history that goes on, by one event or by another history, leads to where this goes on from
/// where it led, and is legal where each part is legal where it begins.
pub fn histories_go_on()
    ensures state { (m : State) (h : List machine.Event) (e : machine.Event) → state_after m (h ++ e ∷ []) ≡ (step (state_after m h) e.pass e.call).0 }
    ensures legal { (m : State) (h : List machine.Event) (e : machine.Event)
        → IsLegal m h → e.reply ≡ (step (state_after m h) e.pass e.call).1 → IsLegal m (h ++ e ∷ []) }
    ensures passes { (h : List machine.Event) (e : machine.Event) → AreOfPasses h → IsPass e.pass → AreOfPasses (h ++ e ∷ []) }
    ensures state_of_both { (m : State) (h g : List machine.Event) → state_after m (h ++ g) ≡ state_after (state_after m h) g }
    ensures both_legal { (m : State) (h g : List machine.Event) → IsLegal m h → IsLegal (state_after m h) g → IsLegal m (h ++ g) }
    ensures each_legal { (m : State) (h g : List machine.Event) → IsLegal m (h ++ g) → IsLegal m h × IsLegal (state_after m h) g }
{}

/// A law: in a sound state, only roots are flushed; a slot that a store or a root may go to is no root;
/// and no load finds a version of a slot that isn't flushed in a storage.
pub fn only_roots_are_flushed()
    ensures flushed { (m : State) → IsSound m → (slot : ℕ) → IsFalse (among slot m.roots) → IsFalse (among slot m.flushed) }
    ensures free { (m : State) → IsSound m → (slot : ℕ) → rooted_by m slot ≡ None → IsFalse (among slot m.roots) }
    ensures named { (m : State) → IsSound m → (slot : ℕ) → IsFalse (among slot m.flushed) → (k : List ℕ) → IsFalse (is_named m slot k) }
{}

/// A law: a store is the last one of its slot and key then, a purge leaves none in its slot, and the last
/// stores of all other pairs stay. A pair has a store exactly where it has a last one.
pub fn last_stores_follow()
    ensures store { (m : State) (slot : ℕ) (key : List ℕ) (account : Account) (s : ℕ) (k : List ℕ)
        → last_store (with_store m slot key account) s k
        ≡ (if slot == s && bytes_eq key k then Some (record { slot = slot; key = key; account = account }) else last_store m s k) }
    ensures purge { (m : State) (slot s : ℕ) (k : List ℕ) → last_store (without_stores m slot) s k ≡ (if slot == s then None else last_store m s k) }
    ensures there { (m : State) (s : ℕ) (k : List ℕ) → has_store m s k ≡ is_some (last_store m s k) }
{}

/// A law: by a store into a slot that isn't flushed, its slot and key become cached and present, and end
/// in a tomb exactly where the account is one; nothing else changes of which pairs have a store, are
/// cached, are present or end in a tomb.
pub fn pairs_follow_stores()
    ensures stored { (m : State) (slot : ℕ) (key : List ℕ) (account : Account) (s : ℕ) (k : List ℕ)
        → has_store (with_store m slot key account) s k ≡ (slot == s && bytes_eq key k || has_store m s k) }
    ensures cached { (m : State) (slot : ℕ) (key : List ℕ) (account : Account) → IsFalse (among slot m.flushed) → (s : ℕ) (k : List ℕ)
        → is_cached (with_store m slot key account) s k ≡ (slot == s && bytes_eq key k || is_cached m s k) }
    ensures present { (m : State) (slot : ℕ) (key : List ℕ) (account : Account) → IsFalse (among slot m.flushed) → (s : ℕ) (k : List ℕ)
        → is_present (with_store m slot key account) s k ≡ (slot == s && bytes_eq key k || is_present m s k) }
    ensures tomb { (m : State) (slot : ℕ) (key : List ℕ) (account : Account) (s : ℕ) (k : List ℕ)
        → ends_in_tomb (with_store m slot key account) s k ≡ (if slot == s && bytes_eq key k then is_tomb account else ends_in_tomb m s k) }
{}

/// A law: by a purge of a slot that isn't flushed, none of its pairs has a store, is cached, is present or
/// ends in a tomb any more, and nothing changes of the pairs of other slots.
pub fn pairs_follow_purges()
    ensures stored { (m : State) (slot s : ℕ) (k : List ℕ) → has_store (without_stores m slot) s k ≡ (not (slot == s) && has_store m s k) }
    ensures cached { (m : State) (slot s : ℕ) (k : List ℕ) → is_cached (without_stores m slot) s k ≡ (not (slot == s) && is_cached m s k) }
    ensures present { (m : State) → IsSound m → (slot : ℕ) → IsFalse (among slot m.flushed) → (s : ℕ) (k : List ℕ)
        → is_present (without_stores m slot) s k ≡ (not (slot == s) && is_present m s k) }
    ensures tomb { (m : State) (slot s : ℕ) (k : List ℕ) → ends_in_tomb (without_stores m slot) s k ≡ (not (slot == s) && ends_in_tomb m s k) }
{}

/// A law: a store puts its row at its key's place among the rows that a flush of the slot would write,
/// or at their end; a purge leaves the slot none; and the rows of every other slot stay.
pub fn rows_follow_stores()
    ensures here { (m : State) (slot : ℕ) (key : List ℕ) (account : Account)
        → flush_rows (with_store m slot key account) slot ≡ put_row (flush_rows m slot) key account }
    ensures elsewhere { (m : State) (slot : ℕ) (key : List ℕ) (account : Account) (s : ℕ) → slot ≢ s
        → flush_rows (with_store m slot key account) s ≡ flush_rows m s }
    ensures purge { (m : State) (slot s : ℕ) → flush_rows (without_stores m slot) s ≡ (if slot == s then [] else flush_rows m s) }
{}

/// A law: a flush of a slot would write one row of each key that has a store there, with the account of
/// the key's last store.
pub fn rows_are_last_stores()
    ensures account { (m : State) (s : ℕ) (k : List ℕ)
        → option_map (λ r. r.account) (find (λ r. bytes_eq r.key k) (flush_rows m s)) ≡ option_map (λ t. t.account) (last_store m s k) }
    ensures differ { (m : State) (s : ℕ) → AllPairs (λ r q. r.key ≢ q.key) (flush_rows m s) }
    ensures length { (m : State) (s : ℕ) → length (flush_rows m s) ≡ length (keys_of m s) }
{}

/// A law: a store into a slot that isn't flushed makes one cached pair more, unless the pair had a store
/// there; a purge of such a slot makes as many fewer as the slot has keys.
pub fn cached_pairs_are_counted()
    ensures store { (m : State) (slot : ℕ) (key : List ℕ) (account : Account) → IsFalse (among slot m.flushed)
        → (counts_of (with_store m slot key account)).cached ≡ (counts_of m).cached + (if has_store m slot key then 0 else 1) }
    ensures purge { (m : State) (slot : ℕ) → IsFalse (among slot m.flushed)
        → (counts_of m).cached ≡ (counts_of (without_stores m slot)).cached + length (keys_of m slot) }
{}
