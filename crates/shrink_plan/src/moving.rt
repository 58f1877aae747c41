// What the end of a shrink changes of its rows in the index.
ghost use Rattle.std.specs.Prelude.{◌≡◌, ◌&&◌, ◌==◌, ℕ, if◌then◌else◌, List, length, option_map};
ghost use Rattle.std.specs.Str.{bytes_eq};
ghost use Rattle.append_vec.specs.Filled.{KeysDiffer};
ghost use Rattle.book_parts.specs.Changes.{SameHolds};
ghost use Rattle.book_parts.specs.Reclaims.{Unholds};
ghost use Rattle.book_parts.specs.Reflects.{indexed};
ghost use Rattle.shrink_plan.specs.Moving.{FindsAt, at_place};
ghost use Rattle.shrink_plan.specs.Places.{AreRows, rows_at};

use accounts_index::AccountsIndex;
use adb_model::{Key, Slot};
use cell_table::Cell;
use slot_list::Place;
use vec_scan::Sealed;

/// Finds the versions of the copied rows that are there still at their places in the cell.
pub fn rehome_rows(
    index: &mut AccountsIndex,
    slot: Slot,
    image: &Sealed,
    copied: &[usize],
    cell: Cell,
    places: &[usize],
)
    requires there { AreRows image.now copied.now }
    requires differ { KeysDiffer (rows_at image.now copied.now) }
    requires each { length places.now ≡ length copied.now }
    ensures { FindsAt slot cell (rows_at image.now copied.now) places.now index.old index.new }
{
    for (from, offset) in copied.iter().zip(places) {
        let key = image.record_at(*from).key;
        let place = Place::Stored {
            cell,
            offset: *offset,
        };
        rehome_if_there(index, &key, slot, place);
    }
}

/// Holds the keys of rows in the slot no longer.
pub fn unhold_rows(index: &mut AccountsIndex, slot: Slot, image: &Sealed, dead: &[usize])
    requires { AreRows image.now dead.now }
    ensures { Unholds slot (rows_at image.now dead.now) index.old index.new }
{
    for offset in dead {
        let key = image.record_at(*offset).key;
        index.unhold(&key, slot);
    }
}

// Gives the version of a key in the slot another place, unless it was dropped.
fn rehome_if_there(index: &mut AccountsIndex, key: &Key, slot: Slot, place: Place)
    ensures versions { (k : List ℕ) (s : ℕ) → indexed index.new s k
        ≡ (if slot == s && bytes_eq key.now.0 k then option_map (at_place place) (indexed index.old s k) else indexed index.old s k) }
    ensures holds { SameHolds index.old index.new }
{
    if index.version(key, slot).is_some() {
        index.rehome(key, slot, place);
    }
}
