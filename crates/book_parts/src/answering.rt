ghost use Rattle.std.specs.Prelude.{◌≡◌, ◌≤◌, ℕ, List, true, false, Some, None};
ghost use Rattle.slot_list.specs.declared.Version as version;
ghost use Rattle.slot_list.specs.declared.Place.TheVariants as places;
ghost use Rattle.slot_list.specs.Latest as slots;
ghost use Rattle.slot_list.specs.Latest.{IsLatest};
ghost use Rattle.accounts_index.specs.Index.{kept};
ghost use Rattle.write_cache.specs.Rows.{rows, account_at};
ghost use Rattle.cell_table.specs.Cells.{cell_at};
ghost use Rattle.adb_model.specs.Account.{Account};
ghost use Rattle.adb_model.specs.View.{View};
ghost use Rattle.adb_model.specs.State.{Row, State};
ghost use Rattle.adb_model.specs.Call as machine;
ghost use Rattle.adb_model.specs.Load.{answer};
ghost use Rattle.adb_model.specs.History.{state_after};
ghost use Rattle.book_parts.specs.Parts.{Parts};
ghost use Rattle.book_parts.specs.Cells.{row_in};
ghost use Rattle.book_parts.specs.Stands.{Stands};

use adb_model::{present_pairs_answer, rows_are_last_stores};

/// A law: the latest version that a view sees of a key is its answer, which is the row at the version's place.
pub fn latest_versions_answer()
    ensures none { (p : Parts) (m0 : State) (h : List machine.Event) (view : View) (key : List ℕ)
        → Stands p m0 h → p.cleaned ≤ view.max_root
        → IsLatest (slots.sees view.ancestors p.roots view.max_root) (kept p.index key).versions None
        → answer (state_after m0 h) view key ≡ None }
    ensures tomb { (p : Parts) (m0 : State) (h : List machine.Event) (view : View) (key : List ℕ) (v : version.Version)
        → Stands p m0 h → p.cleaned ≤ view.max_root
        → IsLatest (slots.sees view.ancestors p.roots view.max_root) (kept p.index key).versions (Some v) → v.tomb ≡ true
        → answer (state_after m0 h) view key ≡ None }
    ensures cached { (p : Parts) (m0 : State) (h : List machine.Event) (view : View) (key : List ℕ) (v : version.Version) (account : Account)
        → Stands p m0 h → p.cleaned ≤ view.max_root
        → IsLatest (slots.sees view.ancestors p.roots view.max_root) (kept p.index key).versions (Some v) → v.tomb ≡ false
        → account_at (rows p.cache v.slot) key ≡ Some account
        → answer (state_after m0 h) view key ≡ Some (record { slot = v.slot; key = key; account = account }) }
    ensures stored { (p : Parts) (m0 : State) (h : List machine.Event) (view : View) (key : List ℕ) (v : version.Version) (cell offset : ℕ) (row : Row)
        → Stands p m0 h → p.cleaned ≤ view.max_root
        → IsLatest (slots.sees view.ancestors p.roots view.max_root) (kept p.index key).versions (Some v) → v.tomb ≡ false
        → v.place ≡ places.Stored cell offset → row_in (cell_at p.cells.cells cell) offset ≡ Some row
        → answer (state_after m0 h) view key ≡ Some (record { slot = v.slot; key = key; account = row.account }) }
{
    present_pairs_answer();
    rows_are_last_stores();
}
