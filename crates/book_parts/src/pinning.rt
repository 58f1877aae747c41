ghost use Rattle.std.specs.Prelude.{◌≡◌, ◌+◌, ◌-◌, ◌<◌, ◌≤◌, ◌^◌, ◌==◌, ◌∷◌, ◌++◌, ℕ, List, [], true, false, if◌then◌else◌, length, Option, Some};
ghost use Rattle.std.specs.List.{list_any};
ghost use Rattle.slot_list.specs.declared.Version as version;
ghost use Rattle.slot_list.specs.declared.Place.TheVariants as places;
ghost use Rattle.slot_list.specs.Versions.{at};
ghost use Rattle.slot_list.specs.Latest as slots;
ghost use Rattle.slot_list.specs.Latest.{IsLatest};
ghost use Rattle.accounts_index.specs.Index.{kept};
ghost use Rattle.pass_pins.specs.Pins.{Pins, has_id, count_of};
ghost use Rattle.cell_table.specs.Phases as cells;
ghost use Rattle.cell_table.specs.Phases.{is_live, pins_of, pinned, unpinned};
ghost use Rattle.cell_table.specs.Cells.{cell_at, pins};
ghost use Rattle.adb_model.specs.View.{View};
ghost use Rattle.adb_model.specs.State.{Row, State};
ghost use Rattle.adb_model.specs.Call as machine;
ghost use Rattle.adb_model.specs.Call.{Refused};
ghost use Rattle.adb_model.specs.History.{state_after};
ghost use Rattle.adb_model.specs.Passing.{pins_stay as leaves_pins};
ghost use Rattle.book_parts.specs.Parts.{Parts};
ghost use Rattle.book_parts.specs.Cells.{row_in};
ghost use Rattle.book_parts.specs.Pins.{HoldsPins};
ghost use Rattle.book_parts.specs.Changes.{with_cell};
ghost use Rattle.book_parts.specs.Stands.{Stands, After, AfterWithPins, HasHistoryWithPins, with_event};

use crate::answering::latest_versions_answer;
use crate::laws::step_stands;
use adb_model::{histories_go_on, pinned_storages_stand, pins_are_own, pins_follow};

/// A law: a version that isn't in the cache is the row at its place in a live cell; where it is the latest that
/// a view sees, that row answers the load, which pins the cell.
pub fn stored_load_stands()
    ensures live { (p : Parts) (m0 : State) (h : List machine.Event) (key : List ℕ) (v : version.Version) (cell offset : ℕ)
        → Stands p m0 h → at v.slot (kept p.index key).versions ≡ Some v → v.place ≡ places.Stored cell offset
        → is_live (cell_at p.cells.cells cell) ≡ true }
    ensures room { (p : Parts) (m0 : State) (h : List machine.Event) → Stands p m0 h → pins p.cells.cells < 2 ^ 64 - 1 }
    ensures row { (p : Parts) (m0 : State) (h : List machine.Event) (key : List ℕ) (v : version.Version) (cell offset : ℕ)
        → Stands p m0 h → at v.slot (kept p.index key).versions ≡ Some v → v.place ≡ places.Stored cell offset
        → (row : Row) × (row_in (cell_at p.cells.cells cell) offset ≡ Some row) × (row.key ≡ key) }
    ensures done { (p : Parts) (in_hand after : Pins) (m0 : State) (h : List machine.Event) (view : View) (key : List ℕ) (v : version.Version) (cell offset id : ℕ) (row : Row)
        → Stands p m0 h → HoldsPins in_hand (state_after m0 h) → p.cleaned ≤ view.max_root → length in_hand.pins < 64
        → IsLatest (slots.sees view.ancestors p.roots view.max_root) (kept p.index key).versions (Some v) → v.tomb ≡ false
        → v.place ≡ places.Stored cell offset → cells.has_id id (cell_at p.cells.cells cell) ≡ true → row_in (cell_at p.cells.cells cell) offset ≡ Some row
        → after ≡ record in_hand { pins = in_hand.pins ++ record { id = id; finished = false } ∷ [] }
        → ((q : ℕ) → count_of q after.pins ≡ count_of q in_hand.pins + (if id == q then 1 else 0))
        → AfterWithPins (with_cell p cell (pinned (cell_at p.cells.cells cell))) after m0 h (machine.Load view key) (Some (machine.Found v.slot (machine.InStorage id) row.account)) }
{
    step_stands();
    histories_go_on();
    latest_versions_answer();
    pins_follow();
    pinned_storages_stand();
}

/// A law: the pins in hand are those of their pass after a call, too, that neither loads nor lets go.
pub fn pins_stay()
    ensures of_history { (pins : Pins) (m0 : State) (h : List machine.Event) (pass : ℕ) (call : machine.Call) (reply : Option machine.Reply)
        → leaves_pins call ≡ true → HoldsPins pins (state_after m0 h) → HoldsPins pins (state_after m0 (with_event h pass call reply)) }
    ensures of_parts { (old new : Parts) (pins : Pins) (call : machine.Call) (reply : Option machine.Reply)
        → leaves_pins call ≡ true → ((m0 : State) (h : List machine.Event) (pass : ℕ) → Stands old m0 h → After new m0 h pass call reply)
        → HasHistoryWithPins old pins → HasHistoryWithPins new pins }
{
    pins_are_own();
    histories_go_on();
}

/// A law: how parts stand before and after a pass lets go of a storage. It can exactly where it has a pin of it.
pub fn unpin_stands()
    ensures none { (p : Parts) (in_hand : Pins) (m0 : State) (h : List machine.Event) (id : ℕ)
        → Stands p m0 h → HoldsPins in_hand (state_after m0 h) → list_any (has_id id) in_hand.pins ≡ false
        → AfterWithPins p in_hand m0 h (machine.Unpin id) (Some (Refused (machine.NotPinned id))) }
    ensures there { (p : Parts) (in_hand : Pins) (m0 : State) (h : List machine.Event) (id : ℕ)
        → Stands p m0 h → HoldsPins in_hand (state_after m0 h) → list_any (has_id id) in_hand.pins ≡ true
        → (cell : ℕ) × (cells.has_id id (cell_at p.cells.cells cell) ≡ true) }
    ensures pinned { (p : Parts) (in_hand : Pins) (m0 : State) (h : List machine.Event) (id cell : ℕ)
        → Stands p m0 h → HoldsPins in_hand (state_after m0 h) → list_any (has_id id) in_hand.pins ≡ true
        → cells.has_id id (cell_at p.cells.cells cell) ≡ true → 0 < pins_of (cell_at p.cells.cells cell) }
    ensures done { (p : Parts) (in_hand after : Pins) (m0 : State) (h : List machine.Event) (id cell : ℕ)
        → Stands p m0 h → HoldsPins in_hand (state_after m0 h) → list_any (has_id id) in_hand.pins ≡ true
        → cells.has_id id (cell_at p.cells.cells cell) ≡ true → after.pass ≡ in_hand.pass
        → ((q : ℕ) → count_of q in_hand.pins ≡ count_of q after.pins + (if id == q then 1 else 0))
        → length in_hand.pins ≡ length after.pins + 1
        → AfterWithPins (with_cell p cell (unpinned (cell_at p.cells.cells cell))) after m0 h (machine.Unpin id) (Some machine.Done) }
{
    step_stands();
    histories_go_on();
    pins_follow();
    pinned_storages_stand();
}
