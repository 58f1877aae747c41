ghost use Rattle.std.specs.Prelude.{◌≡◌, ◌≢◌, ◌+◌, ◌<◌, ◌≤◌, ℕ, List, ◌∷◌, [], true, false, length, map, AllPairs, count_by, Option, Some, None};
ghost use Rattle.accounts_index.specs.Index.{Index, kept};
ghost use Rattle.write_cache.specs.Rows.{Cache, rows};
ghost use Rattle.vec_scan.specs.Seal.{row_there};
ghost use Rattle.cell_table.specs.Phases.{has_id, is_free};
ghost use Rattle.cell_table.specs.Cells.{Table, IsUnused, cell_at, used};
ghost use Rattle.storage_map.specs.declared.entry.Begun as begun;
ghost use Rattle.storage_map.specs.Slots.{Slots, begun_at};
ghost use Rattle.adb_model.specs.Lists.{among};
ghost use Rattle.adb_model.specs.State.{Row, Storage, State, Filling};
ghost use Rattle.adb_model.specs.Presence.{has_row};
ghost use Rattle.adb_model.specs.Storages.{open_flush, bytes_of};
ghost use Rattle.adb_model.specs.Call as machine;
ghost use Rattle.adb_model.specs.Call.{Refused};
ghost use Rattle.adb_model.specs.History.{state_after};
ghost use Rattle.book_parts.specs.Parts.{Parts, Shared};
ghost use Rattle.book_parts.specs.Cells.{IsImageOf};
ghost use Rattle.book_parts.specs.Changes.{AgreeIn, SameIndex};
ghost use Rattle.book_parts.specs.Flushes.{FlushBegins, IsOpenIn, SameSlots, FlushEnds, FlushLeaves};
ghost use Rattle.book_parts.specs.Stands.{Stands, After, with_event};

use crate::flushing::{begun_flush_reflects, ended_flush_reflects, open_flush_reflects};
use crate::laws::step_stands;
use adb_model::{
    flushes_begin, flushes_stay_open, histories_go_on, last_stores_follow, only_roots_are_flushed,
    open_flushes_stand, rows_are_last_stores,
};

/// A law: how parts stand before and after a flush begins, and each refusal's cause in the parts.
pub fn flush_begin_stands()
    ensures unrooted { (p : Parts) (m0 : State) (h : List machine.Event) (pass slot : ℕ)
        → Stands p m0 h → among slot p.roots ≡ false
        → After p m0 h pass (machine.FlushBegin slot) (Some (Refused (machine.NotRooted slot))) }
    ensures empty { (p : Parts) (m0 : State) (h : List machine.Event) (pass slot : ℕ)
        → Stands p m0 h → among slot p.roots ≡ true → length (rows p.cache slot) ≡ 0
        → After p m0 h pass (machine.FlushBegin slot) (Some (Refused (machine.NothingCached slot))) }
    ensures is_open { (p : Parts) (m0 : State) (h : List machine.Event) (pass slot id : ℕ) (b : begun.Begun)
        → Stands p m0 h → among slot p.roots ≡ true → 0 < length (rows p.cache slot)
        → begun_at p.map slot ≡ Some b → has_id id (cell_at p.cells.cells b.cell) ≡ true
        → After p m0 h pass (machine.FlushBegin slot) (Some (Refused (machine.Flushing slot id))) }
    ensures in_use { (p : Parts) (m0 : State) (h : List machine.Event) (slot : ℕ) (b : begun.Begun)
        → Stands p m0 h → begun_at p.map slot ≡ Some b → is_free (cell_at p.cells.cells b.cell) ≡ false }
    ensures full { (p : Parts) (m0 : State) (h : List machine.Event) (pass slot : ℕ)
        → Stands p m0 h → among slot p.roots ≡ true → 0 < length (rows p.cache slot) → begun_at p.map slot ≡ None
        → p.cells.limit < used p.cells.cells + bytes_of (rows p.cache slot)
        → After p m0 h pass (machine.FlushBegin slot) (Some (Refused (machine.Full (used p.cells.cells) (bytes_of (rows p.cache slot)) p.cells.limit))) }
    ensures no_cell { (p : Parts) (m0 : State) (h : List machine.Event) (pass slot : ℕ)
        → Stands p m0 h → among slot p.roots ≡ true → 0 < length (rows p.cache slot) → begun_at p.map slot ≡ None
        → used p.cells.cells + bytes_of (rows p.cache slot) ≤ p.cells.limit → count_by is_free p.cells.cells ≡ 0
        → After p m0 h pass (machine.FlushBegin slot) (Some (Refused (machine.NoCell (length p.cells.cells)))) }
    ensures spent { (p : Parts) (m0 : State) (h : List machine.Event) (pass slot : ℕ)
        → Stands p m0 h → among slot p.roots ≡ true → 0 < length (rows p.cache slot) → begun_at p.map slot ≡ None
        → used p.cells.cells + bytes_of (rows p.cache slot) ≤ p.cells.limit → 0 < count_by is_free p.cells.cells
        → p.next_id ≡ 18446744073709551615
        → After p m0 h pass (machine.FlushBegin slot) (Some (Refused machine.IdsSpent)) }
    ensures may { (p : Parts) (m0 : State) (h : List machine.Event) (slot : ℕ)
        → Stands p m0 h → among slot p.roots ≡ true → 0 < length (rows p.cache slot) → begun_at p.map slot ≡ None
        → AgreeIn slot p.index p.cache × AllPairs (λ r q. r.key ≢ q.key) (rows p.cache slot) × IsUnused p.next_id p.cells.cells
        × ((k : List ℕ) → among slot (kept p.index k).expected ≡ false) }
    ensures done { (p : Parts) (m0 : State) (h : List machine.Event) (pass slot cell : ℕ) (index : Index) (table : Table Shared) (slots : Slots)
        → Stands p m0 h → among slot p.roots ≡ true → 0 < length (rows p.cache slot) → begun_at p.map slot ≡ None → p.next_id ≢ 18446744073709551615
        → FlushBegins slot p.next_id cell (rows p.cache slot) p.index index p.cells table p.map slots
        → After (record p { index = index; cells = table; map = slots; next_id = p.next_id + 1 }) m0 h pass (machine.FlushBegin slot)
        (Some (machine.FlushBegun p.next_id (bytes_of (rows p.cache slot)))) }
    ensures tied { (p : Parts) (m0 : State) (h : List machine.Event) (pass slot cell : ℕ) (index : Index) (table : Table Shared) (slots : Slots)
        → Stands p m0 h → among slot p.roots ≡ true → 0 < length (rows p.cache slot) → begun_at p.map slot ≡ None → p.next_id ≢ 18446744073709551615
        → FlushBegins slot p.next_id cell (rows p.cache slot) p.index index p.cells table p.map slots
        → open_flush (state_after m0 (with_event h pass (machine.FlushBegin slot) (Some (machine.FlushBegun p.next_id (bytes_of (rows p.cache slot)))))) slot
        ≡ Some (record { id = p.next_id; slot = slot; rows = rows p.cache slot; bytes = bytes_of (rows p.cache slot); phase = Filling }) }
    ensures kept { (p : Parts) (m0 : State) (h : List machine.Event) (index : Index) (slots : Slots)
        → Stands p m0 h → SameIndex p.index index → SameSlots p.map slots → Stands (record p { index = index; map = slots }) m0 h }
{
    step_stands();
    begun_flush_reflects();
    histories_go_on();
    flushes_stay_open();
    open_flushes_stand();
    flushes_begin();
    only_roots_are_flushed();
    last_stores_follow();
    rows_are_last_stores();
}

/// A law: how parts stand before and after a flush ends, and before and after it is given up.
pub fn flush_end_stands()
    ensures may { (p : Parts) (m0 : State) (h : List machine.Event) (slot : ℕ) (t : Storage)
        → Stands p m0 h → open_flush (state_after m0 h) slot ≡ Some t → (cell : ℕ) × IsOpenIn slot t.id cell t.rows p.index p.cells p.map }
    ensures done { (p : Parts) (m0 : State) (h : List machine.Event) (pass slot cell : ℕ) (t : Storage) (image : Shared) (places : List ℕ)
        (cache : Cache) (index : Index) (table : Table Shared) (slots : Slots)
        → Stands p m0 h → open_flush (state_after m0 h) slot ≡ Some t → IsOpenIn slot t.id cell t.rows p.index p.cells p.map
        → IsImageOf t image.value → map (row_there image.value.rows) places ≡ map Some t.rows
        → FlushEnds slot cell t.rows image places p.cache cache p.index index p.cells table p.map slots
        → After (record p { index = index; cache = cache; cells = table; map = slots }) m0 h pass (machine.FlushEnd slot) (Some machine.Done) }
    ensures dropped { (p : Parts) (m0 : State) (h : List machine.Event) (pass slot cell : ℕ) (t : Storage) (index : Index) (table : Table Shared) (slots : Slots)
        → Stands p m0 h → open_flush (state_after m0 h) slot ≡ Some t → IsOpenIn slot t.id cell t.rows p.index p.cells p.map
        → FlushLeaves slot cell t.rows p.index index p.cells table p.map slots
        → After (record p { index = index; cells = table; map = slots }) m0 h pass (machine.FlushAbort slot) (Some machine.Done) }
{
    step_stands();
    open_flush_reflects();
    ended_flush_reflects();
}
