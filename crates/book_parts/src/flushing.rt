ghost use Rattle.std.specs.Prelude.{◌≡◌, ◌≢◌, ◌+◌, ◌<◌, ℕ, List, true, false, length, map, AllPairs, Option, Some, None, IsTrue};
ghost use Rattle.accounts_index.specs.Index.{Index};
ghost use Rattle.write_cache.specs.Rows.{Cache, rows};
ghost use Rattle.vec_scan.specs.Seal.{row_there};
ghost use Rattle.cell_table.specs.Cells.{Table, IsUnused};
ghost use Rattle.storage_map.specs.Slots.{Slots, begun_at};
ghost use Rattle.adb_model.specs.Lists.{among};
ghost use Rattle.adb_model.specs.State.{Row, Storage, State};
ghost use Rattle.adb_model.specs.Storages.{open_flush};
ghost use Rattle.adb_model.specs.Flush.{flush_rows, has_cached_key, with_filling, flushed_with, flush_dropped};
ghost use Rattle.adb_model.specs.Sound.{IsSound};
ghost use Rattle.adb_model.specs.Once.{IsOnce};
ghost use Rattle.book_parts.specs.Parts.{Parts, Shared};
ghost use Rattle.book_parts.specs.Cells.{IsImageOf};
ghost use Rattle.book_parts.specs.Reflects.{Reflects};
ghost use Rattle.book_parts.specs.Changes.{SameIndex};
ghost use Rattle.book_parts.specs.Flushes.{FlushBegins, IsOpenIn, SameSlots, FlushEnds, FlushLeaves};

use adb_model::{
    flushes_are_given_up, flushes_begin, flushes_end, ids_are_fresh, last_stores_follow,
    open_flushes_stand, rows_are_last_stores,
};

/// A law: what a flush needs to begin in parts that reflect a state, and which state they reflect once it has.
pub fn begun_flush_reflects()
    ensures unused { (p : Parts) (m : State) → IsSound m → Reflects p m → IsUnused p.next_id p.cells.cells }
    ensures some { (p : Parts) (m : State) (slot : ℕ) → IsSound m → Reflects p m → IsTrue (has_cached_key m slot)
        → (rows p.cache slot ≡ flush_rows m slot) × (0 < length (rows p.cache slot)) }
    ensures none { (p : Parts) (m : State) (slot : ℕ) → IsSound m → Reflects p m → IsTrue (has_cached_key m slot) → open_flush m slot ≡ None
        → begun_at p.map slot ≡ None }
    ensures differ { (p : Parts) (m : State) (slot : ℕ) → Reflects p m → AllPairs (λ r q. r.key ≢ q.key) (rows p.cache slot) }
    ensures done { (p : Parts) (m : State) (slot cell : ℕ) (index : Index) (table : Table Shared) (slots : Slots)
        → IsSound m → Reflects p m → IsTrue (has_cached_key m slot) → open_flush m slot ≡ None
        → FlushBegins slot p.next_id cell (rows p.cache slot) p.index index p.cells table p.map slots
        → Reflects (record p { index = index; cells = table; map = slots; next_id = p.next_id + 1 }) (with_filling m slot (flush_rows m slot)) }
    ensures kept { (p : Parts) (m : State) (index : Index) (slots : Slots) → Reflects p m → SameIndex p.index index → SameSlots p.map slots
        → Reflects (record p { index = index; map = slots }) m }
{
    ids_are_fresh();
    flushes_begin();
    last_stores_follow();
    rows_are_last_stores();
}

/// A law: a flush that is open in a state is open in the parts that reflect it, and so is what its end needs.
pub fn open_flush_reflects()
    ensures cell { (p : Parts) (m : State) (slot : ℕ) (t : Storage) → IsSound m → IsOnce m → Reflects p m → open_flush m slot ≡ Some t
        → (cell : ℕ) × IsOpenIn slot t.id cell t.rows p.index p.cells p.map }
    ensures at { (p : Parts) (m : State) (slot cell id : ℕ) (t : Storage) → IsSound m → Reflects p m → open_flush m slot ≡ Some t
        → IsOpenIn slot id cell t.rows p.index p.cells p.map → id ≡ t.id }
{
    open_flushes_stand();
}

/// A law: which state parts reflect once a flush has ended, and once it was given up.
pub fn ended_flush_reflects()
    ensures done { (p : Parts) (m : State) (slot cell : ℕ) (t : Storage) (image : Shared) (places : List ℕ) (cache : Cache) (index : Index) (table : Table Shared) (slots : Slots)
        → IsSound m → Reflects p m → open_flush m slot ≡ Some t → IsOpenIn slot t.id cell t.rows p.index p.cells p.map
        → IsImageOf t image.value → map (row_there image.value.rows) places ≡ map Some t.rows
        → FlushEnds slot cell t.rows image places p.cache cache p.index index p.cells table p.map slots
        → Reflects (record p { index = index; cache = cache; cells = table; map = slots }) (flushed_with m t) }
    ensures dropped { (p : Parts) (m : State) (slot cell : ℕ) (t : Storage) (index : Index) (table : Table Shared) (slots : Slots)
        → IsSound m → Reflects p m → open_flush m slot ≡ Some t → IsOpenIn slot t.id cell t.rows p.index p.cells p.map
        → FlushLeaves slot cell t.rows p.index index p.cells table p.map slots
        → Reflects (record p { index = index; cells = table; map = slots }) (flush_dropped m t) }
{
    ids_are_fresh();
    open_flushes_stand();
    flushes_end();
    flushes_are_given_up();
    rows_are_last_stores();
}
