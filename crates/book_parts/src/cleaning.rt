ghost use Rattle.std.specs.Prelude.{◌≡◌, ◌↔◌, ◌<◌, ◌&&◌, nat_lt, ℕ, List, Option, Some, None, is_some, option_map, IsSomeAnd, IsTrue, IsFalse};
ghost use Rattle.std.specs.Option.{option_map_or};
ghost use Rattle.slot_list.specs.declared.Version as version;
ghost use Rattle.slot_list.specs.Versions.{at, VersionsRise};
ghost use Rattle.accounts_index.specs.Index.{Index, IsOrdered, kept, crowded_after};
ghost use Rattle.cell_table.specs.Phases.{value_of};
ghost use Rattle.cell_table.specs.Cells.{Table, cell_at};
ghost use Rattle.storage_map.specs.declared.entry.Live as entry;
ghost use Rattle.storage_map.specs.Slots.{Slots, live_at, begun_at, one_less, Becomes};
ghost use Rattle.adb_model.specs.Lists.{last};
ghost use Rattle.adb_model.specs.State.{Storage, State};
ghost use Rattle.adb_model.specs.Presence.{is_named, is_present, ends_in_tomb};
ghost use Rattle.adb_model.specs.Storages.{live_storage};
ghost use Rattle.adb_model.specs.Shrink.{named_in};
ghost use Rattle.adb_model.specs.Reclaimable.{is_shadowed, is_spent};
ghost use Rattle.adb_model.specs.Reclaim.{keys_taken, reclaim_step};
ghost use Rattle.adb_model.specs.Cleaning.{without_name, with_retired, crowded_above};
ghost use Rattle.adb_model.specs.Call as machine;
ghost use Rattle.adb_model.specs.History.{state_after};
ghost use Rattle.book_parts.specs.Parts.{Parts, Shared};
ghost use Rattle.book_parts.specs.Reflects.{Reflects};
ghost use Rattle.book_parts.specs.Stands.{Stands, After};
ghost use Rattle.book_parts.specs.Reclaims.{IsMidway, is_stored_at, IsShadow, IsNewestShadow, IsLowestTomb, DropsVersion, IsEmptied, Retires};

use crate::laws::step_stands;
use adb_model::{crowded_keys_follow, live_storages_stand, names_leave, unnamed_storages_retire};
use slot_list::lookups_follow_edits;

/// A law: what an index tells of pairs. The named ones are those whose version is stored. Such a one is shadowed
/// exactly where a root above its slot, up to the cleaned one, has a version of the key, so by the newest such
/// root all are told; and spent exactly where it is a tomb, not above the cleaned slot, and the lowest of all
/// versions and held slots of its key.
pub fn stored_versions_stand()
    ensures present { (p : Parts) (m : State) → Reflects p m → (s : ℕ) (k : List ℕ) → is_present m s k ≡ is_some (at s (kept p.index k).versions) }
    ensures named { (p : Parts) (m : State) → IsMidway m → Reflects p m → (s : ℕ) (k : List ℕ) → is_named m s k ≡ is_stored_at (kept p.index k).versions s }
    ensures tomb { (p : Parts) (m : State) → Reflects p m → (s : ℕ) (k : List ℕ) (v : version.Version) → at s (kept p.index k).versions ≡ Some v → ends_in_tomb m s k ≡ v.tomb }
    ensures shadowed { (p : Parts) (m : State) → IsMidway m → Reflects p m → (s : ℕ) (k : List ℕ)
        → IsTrue (is_shadowed m s k) ↔ (IsTrue (is_stored_at (kept p.index k).versions s) × ((root : ℕ) × (s < root) × IsShadow p.roots p.cleaned (kept p.index k).versions root)) }
    ensures newest { (p : Parts) (m : State) → IsMidway m → Reflects p m → (k : List ℕ) (root : ℕ) → IsNewestShadow p.roots p.cleaned (kept p.index k).versions (Some root)
        → (s : ℕ) → is_shadowed m s k ≡ (is_stored_at (kept p.index k).versions s && nat_lt s root) }
    ensures none { (p : Parts) (m : State) → IsMidway m → Reflects p m → (k : List ℕ) → IsNewestShadow p.roots p.cleaned (kept p.index k).versions None
        → (s : ℕ) → IsFalse (is_shadowed m s k) }
    ensures spent { (p : Parts) (m : State) → IsMidway m → Reflects p m → (s : ℕ) (k : List ℕ)
        → IsTrue (is_spent m s k) ↔ IsLowestTomb p.cleaned (kept p.index k).versions (kept p.index k).held s }
{}

/// A law: the storage of a named pair's slot has a row alive; and once the pair's version is gone, and one row
/// of that storage fewer is alive, the parts reflect the state in which the pair is named no longer.
pub fn dropped_version_reflects()
    ensures alive { (p : Parts) (m : State) → IsMidway m → Reflects p m → (slot : ℕ) (key : List ℕ) → IsTrue (is_named m slot key)
        → IsSomeAnd (live_at p.map slot) (λ live. 0 < live.alive) }
    ensures done { (p : Parts) (m : State) (slot : ℕ) (key : List ℕ) (index : Index) (slots : Slots)
        → IsMidway m → Reflects p m → IsTrue (is_named m slot key) → DropsVersion slot key p.index index
        → Becomes p.map slots slot (option_map one_less (live_at p.map slot)) (begun_at p.map slot)
        → Reflects (record p { index = index; map = slots }) (without_name m slot key) }
{
    names_leave();
    lookups_follow_edits();
}

/// A law: a storage in use of which the map counts no row alive has no named pair, and stands in a live cell;
/// once that is retired, and its rows are held no longer, the parts reflect the state in which the storage is
/// retired. Where the map counts a row alive of each, each storage in use has a named pair.
pub fn retired_storage_reflects()
    ensures emptied { (p : Parts) (m : State) → IsMidway m → Reflects p m → (slot : ℕ) (live : entry.Live) → live_at p.map slot ≡ Some live → live.alive ≡ 0
        → (t : Storage) × IsEmptied p m slot live.cell t }
    ensures all_named { (p : Parts) (m : State) → Reflects p m → ((q : ℕ) (live : entry.Live) → live_at p.map q ≡ Some live → 0 < live.alive)
        → (s : ℕ) (t : Storage) → live_storage m s ≡ Some t → 0 < named_in m s }
    ensures done { (p : Parts) (m : State) (slot cell : ℕ) (t : Storage) (image : Shared) (index : Index) (table : Table Shared) (slots : Slots)
        → IsMidway m → Reflects p m → IsEmptied p m slot cell t → value_of (cell_at p.cells.cells cell) ≡ Some image
        → Retires slot cell image p.index index p.cells table p.map slots
        → Reflects (record p { index = index; cells = table; map = slots }) (with_retired m t) }
{
    live_storages_stand();
    unnamed_storages_retire();
}

/// A law: the crowded keys of an ordered index, whose keys' versions rise by slot, are those of the state.
pub fn crowded_keys_reflect()
    ensures { (p : Parts) (m : State) → IsMidway m → Reflects p m → IsOrdered p.index → ((k : List ℕ) → VersionsRise (kept p.index k).versions)
        → (after : Option (List ℕ)) → crowded_after p.index after ≡ crowded_above m after }
{
    crowded_keys_follow();
}

/// A law: what stands is as sound as a reclaim asks, and stands after it where the parts then reflect the state
/// that the reclaim leads to and its answer is the last key that was taken, if any was.
pub fn reclaim_stands()
    ensures midway { (p : Parts) (m0 : State) (h : List machine.Event) → Stands p m0 h → IsMidway (state_after m0 h) }
    ensures done { (old new : Parts) (m0 : State) (h : List machine.Event) (pass most : ℕ) (after answer : Option (List ℕ))
        → Stands old m0 h → answer ≡ last (keys_taken (state_after m0 h) after most) → Reflects new (reclaim_step (state_after m0 h) after most).0
        → After new m0 h pass (machine.Reclaim after most) (Some (option_map_or machine.Reclaimed answer machine.NothingLeft)) }
{
    step_stands();
}
