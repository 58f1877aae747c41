// Tombs that hide nothing below.
ghost use Rattle.std.specs.Prelude.{ℕ};
ghost use Rattle.adb_model.specs.State.{State};
ghost use Rattle.adb_model.specs.Reclaimable.{is_spent};
ghost use Rattle.adb_model.specs.Reclaim.{drop_spent};
ghost use Rattle.book_parts.specs.Parts.{Parts};
ghost use Rattle.clean_plan.specs.Leaving.{bytes_of, rooted, StandAs, Leave};

use crate::lists::lowest_tomb;
use crate::pairs::drop_pair;
use accounts_index::AccountsIndex;
use adb_model::{Key, Slot, names_leave, spent_pairs_leave};
use book_parts::stored_versions_stand;
use storage_map::StorageMap;

/// Drops of each key the lowest version, where it is a stored tomb up to the cleaned slot and the key is held in
/// no lower slot. It takes no memory.
pub fn drop_spent(keys: &[Key], cleaned: Slot, index: &mut AccountsIndex, map: &mut StorageMap)
    requires { (p : Parts) × (m : State) × StandAs (rooted p p.roots cleaned) index.old map.old m }
    ensures { (p : Parts) (m : State) → StandAs (rooted p p.roots cleaned) index.old map.old m
        → StandAs (rooted p p.roots cleaned) index.new map.new (drop_spent (bytes_of keys.now) m) }
{
    spent_pairs_leave();
    for key in keys {
        drop_spent_of(key, cleaned, index, map);
    }
}

// Drops the spent version of one key, if it has one; it has no other then, since its row is held still.
fn drop_spent_of(key: &Key, cleaned: Slot, index: &mut AccountsIndex, map: &mut StorageMap)
    requires { (p : Parts) × (m : State) × StandAs (rooted p p.roots cleaned) index.old map.old m }
    ensures { (p : Parts) (m : State) → StandAs (rooted p p.roots cleaned) index.old map.old m
        → (n : State) × StandAs (rooted p p.roots cleaned) index.new map.new n × Leave is_spent drop_spent key.now.0 m n }
{
    stored_versions_stand();
    spent_pairs_leave();
    names_leave();
    if let Some(slot) = lowest_tomb(key, cleaned, index) {
        drop_pair(key, slot, index, map);
    }
}
