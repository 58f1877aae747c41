ghost use Rattle.std.specs.Prelude.{count_by, ◌==◌, ◌≡◌, ◌≢◌, ◌<◌, ◌≤◌, ◌^◌, ◌∷◌, ◌++◌, ℕ, List, [], true, false, length, All, AllPairs, Option, Some, None, IsSome};
ghost use Rattle.slot_list.specs.declared.Version as version;
ghost use Rattle.slot_list.specs.declared.Place.TheVariants as places;
ghost use Rattle.slot_list.specs.Versions.{at};
ghost use Rattle.slot_list.specs.Latest as slots;
ghost use Rattle.slot_list.specs.Latest.{IsLatest};
ghost use Rattle.accounts_index.specs.Index.{Index, IsOrdered, kept};
ghost use Rattle.accounts_index.specs.Index as index;
ghost use Rattle.write_cache.specs.Rows.{Cache, rows, account_at};
ghost use Rattle.pass_pins.specs.Pins.{Pins};
ghost use Rattle.cell_table.specs.declared.phase.Phase.TheVariants as phases;
ghost use Rattle.cell_table.specs.Cells.{Table};
ghost use Rattle.storage_map.specs.Slots.{alive_sum, total_sum};
ghost use Rattle.adb_model.specs.Lists.{among};
ghost use Rattle.adb_model.specs.Account.{Account};
ghost use Rattle.adb_model.specs.View.{View};
ghost use Rattle.adb_model.specs.State.{State, fresh};
ghost use Rattle.adb_model.specs.Call as machine;
ghost use Rattle.adb_model.specs.Call.{Refused};
ghost use Rattle.adb_model.specs.Step.{step};
ghost use Rattle.adb_model.specs.History.{state_after, IsPass};
ghost use Rattle.book_parts.specs.Parts.{Parts, Shared, new_parts};
ghost use Rattle.book_parts.specs.Reflects.{Reflects, counts_in};
ghost use Rattle.book_parts.specs.Pins.{HoldsPins};
ghost use Rattle.book_parts.specs.Stands.{Stands, After, AfterWithPins};
ghost use Rattle.book_parts.specs.Changes.{rooted_by, AgreeIn, CachedIn, SameIndex, SameCache, Enters, Leaves};
ghost use Rattle.book_parts.specs.Keys.{IsNextKey};

use crate::answering::latest_versions_answer;
use adb_model::{
    cached_pairs_are_counted, counts_are_bounded, histories_go_on, last_stores_follow,
    named_pairs_stand_once, only_roots_are_flushed, pairs_follow_purges, pairs_follow_stores,
    rows_are_last_stores, rows_follow_stores, rows_have_bytes, states_are_sound,
};

/// A law: parts that stand for a history and then reflect what a call's step makes of its state, stand for
/// the history with that call. The pass is free where the step is the same for every pass, and where the call is refused.
pub fn step_stands()
    ensures of_pass { (old new : Parts) (m0 : State) (h : List machine.Event) (pass : ℕ) (call : machine.Call) (reply : machine.Reply)
        → IsPass pass → Stands old m0 h → (step (state_after m0 h) pass call).1 ≡ reply → Reflects new (step (state_after m0 h) pass call).0
        → After new m0 h pass call (Some reply) }
    ensures of_any { (old new : Parts) (m0 : State) (h : List machine.Event) (pass : ℕ) (call : machine.Call) (reply : machine.Reply)
        → (step (state_after m0 h) pass call).0 ≡ (step (state_after m0 h) 1 call).0
        → Stands old m0 h → (step (state_after m0 h) pass call).1 ≡ reply → Reflects new (step (state_after m0 h) pass call).0
        → After new m0 h pass call (Some reply) }
    ensures refused { (p : Parts) (m0 : State) (h : List machine.Event) (pass : ℕ) (call : machine.Call) (refusal : machine.Refusal)
        → Stands p m0 h → (step (state_after m0 h) pass call).0 ≡ state_after m0 h → (step (state_after m0 h) pass call).1 ≡ Refused refusal
        → After p m0 h pass call (Some (Refused refusal)) }
{
    states_are_sound();
    named_pairs_stand_once();
    rows_have_bytes();
    histories_go_on();
}

/// A law: the parts of a new book, whose cells are free, stand for no events from the fresh state.
pub fn new_parts_stand()
    ensures { (cells : Table Shared) (id : ℕ) → length cells.cells ≡ 1048576 → All (λ cell. cell ≡ phases.Free) cells.cells
        → Stands (new_parts cells id) (fresh cells.limit id) [] }
{
    states_are_sound();
    named_pairs_stand_once();
    rows_have_bytes();
}

/// A law: how parts stand before and after a store.
pub fn store_stands()
    ensures agree { (p : Parts) (m0 : State) (h : List machine.Event) (slot : ℕ) → Stands p m0 h → rooted_by p.roots slot ≡ None → AgreeIn slot p.index p.cache }
    ensures cached { (p : Parts) (m0 : State) (h : List machine.Event) (slot : ℕ) → Stands p m0 h → rooted_by p.roots slot ≡ None → CachedIn slot p.index p.cache }
    ensures refused { (p : Parts) (m0 : State) (h : List machine.Event) (pass slot : ℕ) (key : List ℕ) (account : Account) (newest : ℕ)
        → Stands p m0 h → rooted_by p.roots slot ≡ Some newest
        → After p m0 h pass (machine.Store slot key account) (Some (Refused (machine.SlotRooted slot newest))) }
    ensures done { (p : Parts) (new_index : Index) (new_cache : Cache) (m0 : State) (h : List machine.Event) (pass slot : ℕ) (key : List ℕ) (account : Account)
        → Stands p m0 h → rooted_by p.roots slot ≡ None → Enters p.index new_index p.cache new_cache slot key account
        → After (record p { index = new_index; cache = new_cache }) m0 h pass (machine.Store slot key account) (Some machine.Done) }
    ensures kept { (p : Parts) (new_index : Index) (m0 : State) (h : List machine.Event)
        → Stands p m0 h → SameIndex p.index new_index → Stands (record p { index = new_index }) m0 h }
    ensures undone { (p : Parts) (new_index : Index) (new_cache : Cache) (m0 : State) (h : List machine.Event)
        → Stands p m0 h → SameIndex p.index new_index → SameCache p.cache new_cache → Stands (record p { index = new_index; cache = new_cache }) m0 h }
{
    step_stands();
    only_roots_are_flushed();
    last_stores_follow();
    pairs_follow_stores();
    rows_follow_stores();
    rows_are_last_stores();
    cached_pairs_are_counted();
}

/// A law: how parts stand before and after a slot becomes a root.
pub fn root_stands()
    ensures refused { (p : Parts) (m0 : State) (h : List machine.Event) (pass slot newest : ℕ)
        → Stands p m0 h → rooted_by p.roots slot ≡ Some newest
        → After p m0 h pass (machine.Root slot) (Some (Refused (machine.RootOrder slot newest))) }
    ensures done { (p : Parts) (m0 : State) (h : List machine.Event) (pass slot : ℕ)
        → Stands p m0 h → rooted_by p.roots slot ≡ None
        → After (record p { roots = p.roots ++ slot ∷ [] }) m0 h pass (machine.Root slot) (Some machine.Done) }
{
    step_stands();
}

/// A law: how parts stand before and after a purge.
pub fn purge_stands()
    ensures agree { (p : Parts) (m0 : State) (h : List machine.Event) (slot : ℕ) → Stands p m0 h → among slot p.roots ≡ false → AgreeIn slot p.index p.cache }
    ensures differ { (p : Parts) (m0 : State) (h : List machine.Event) (slot : ℕ) → Stands p m0 h → AllPairs (λ r q. r.key ≢ q.key) (rows p.cache slot) }
    ensures refused { (p : Parts) (m0 : State) (h : List machine.Event) (pass slot : ℕ)
        → Stands p m0 h → among slot p.roots ≡ true → After p m0 h pass (machine.Purge slot) (Some (Refused (machine.Rooted slot))) }
    ensures done { (p : Parts) (new_index : Index) (new_cache : Cache) (m0 : State) (h : List machine.Event) (pass slot keys : ℕ)
        → Stands p m0 h → among slot p.roots ≡ false → Leaves p.index new_index p.cache new_cache slot keys
        → After (record p { index = new_index; cache = new_cache }) m0 h pass (machine.Purge slot) (Some (machine.Purged keys)) }
{
    step_stands();
    only_roots_are_flushed();
    last_stores_follow();
    pairs_follow_purges();
    rows_follow_stores();
    rows_are_last_stores();
    cached_pairs_are_counted();
}

/// A law: a pass that has no pins in a state holds what a new list of pins has; and the pins in hand are
/// those of their pass as long as the state's pins stay.
pub fn pins_are_held()
    ensures new { (m : State) (pass : ℕ) → IsPass pass → count_by (λ p. p.pass == pass) m.pins ≡ 0 → HoldsPins (record { pass = pass; pins = [] }) m }
    ensures stay { (pins : Pins) (m n : State) → n.pins ≡ m.pins → HoldsPins pins m → HoldsPins pins n }
    ensures fresh { (budget id pass : ℕ) → IsPass pass → HoldsPins (record { pass = pass; pins = [] }) (fresh budget id) }
{}

/// A law: the latest version that a view sees of a key answers its load.
pub fn load_stands()
    ensures too_old { (p : Parts) (pins : Pins) (m0 : State) (h : List machine.Event) (view : View) (key : List ℕ)
        → Stands p m0 h → HoldsPins pins (state_after m0 h) → view.max_root < p.cleaned
        → AfterWithPins p pins m0 h (machine.Load view key) (Some (Refused (machine.ViewTooOld view.max_root p.cleaned))) }
    ensures many { (p : Parts) (pins : Pins) (m0 : State) (h : List machine.Event) (view : View) (key : List ℕ)
        → Stands p m0 h → HoldsPins pins (state_after m0 h) → p.cleaned ≤ view.max_root → 64 ≤ length pins.pins
        → AfterWithPins p pins m0 h (machine.Load view key) (Some (Refused (machine.TooManyPins 64))) }
    ensures none { (p : Parts) (pins : Pins) (m0 : State) (h : List machine.Event) (view : View) (key : List ℕ)
        → Stands p m0 h → HoldsPins pins (state_after m0 h) → p.cleaned ≤ view.max_root → length pins.pins < 64
        → IsLatest (slots.sees view.ancestors p.roots view.max_root) (kept p.index key).versions None
        → AfterWithPins p pins m0 h (machine.Load view key) (Some machine.NotFound) }
    ensures tomb { (p : Parts) (pins : Pins) (m0 : State) (h : List machine.Event) (view : View) (key : List ℕ) (v : version.Version)
        → Stands p m0 h → HoldsPins pins (state_after m0 h) → p.cleaned ≤ view.max_root → length pins.pins < 64
        → IsLatest (slots.sees view.ancestors p.roots view.max_root) (kept p.index key).versions (Some v) → v.tomb ≡ true
        → AfterWithPins p pins m0 h (machine.Load view key) (Some machine.NotFound) }
    ensures there { (p : Parts) (m0 : State) (h : List machine.Event) (key : List ℕ) (v : version.Version)
        → Stands p m0 h → at v.slot (kept p.index key).versions ≡ Some v → v.place ≡ places.Cached → IsSome (account_at (rows p.cache v.slot) key) }
    ensures cached { (p : Parts) (pins : Pins) (m0 : State) (h : List machine.Event) (view : View) (key : List ℕ) (v : version.Version) (account : Account)
        → Stands p m0 h → HoldsPins pins (state_after m0 h) → p.cleaned ≤ view.max_root → length pins.pins < 64
        → IsLatest (slots.sees view.ancestors p.roots view.max_root) (kept p.index key).versions (Some v) → v.tomb ≡ false
        → v.place ≡ places.Cached → account_at (rows p.cache v.slot) key ≡ Some account
        → AfterWithPins p pins m0 h (machine.Load view key) (Some (machine.Found v.slot machine.Cached account)) }
{
    step_stands();
    histories_go_on();
    last_stores_follow();
    only_roots_are_flushed();
    rows_are_last_stores();
    latest_versions_answer();
}

/// A law: the counts that the parts keep are those of the state.
pub fn stats_stand()
    ensures { (p : Parts) (m0 : State) (h : List machine.Event) (pass : ℕ)
        → Stands p m0 h → After p m0 h pass machine.Stats (Some (machine.Counted (counts_in p))) }
{
    step_stands();
}

/// A law: where the bytes of the storages are a number below 2^64, so are the sums of the rows.
pub fn sums_fit()
    ensures alive { (p : Parts) (m0 : State) (h : List machine.Event) → Stands p m0 h → p.cells.limit < 2 ^ 64 → alive_sum p.map < 2 ^ 64 }
    ensures total { (p : Parts) (m0 : State) (h : List machine.Event) → Stands p m0 h → p.cells.limit < 2 ^ 64 → total_sum p.map < 2 ^ 64 }
{
    counts_are_bounded();
}

/// A law: the first key of an ordered index that is above another and has a version is the next key present.
pub fn next_key_stands()
    ensures { (p : Parts) (m0 : State) (h : List machine.Event) (after : Option (List ℕ))
        → Stands p m0 h → IsOrdered p.index → IsNextKey (state_after m0 h) after (index.key_after p.index after) }
{}
