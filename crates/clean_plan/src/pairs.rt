// One pair leaves.
ghost use Rattle.std.specs.Prelude.{ℕ, IsTrue};
ghost use Rattle.adb_model.specs.State.{State};
ghost use Rattle.adb_model.specs.Presence.{is_named};
ghost use Rattle.adb_model.specs.Cleaning.{without_name};
ghost use Rattle.book_parts.specs.Parts.{Parts};
ghost use Rattle.book_parts.specs.Reflects.{Reflects};
ghost use Rattle.book_parts.specs.Reclaims.{DropsVersion};
ghost use Rattle.clean_plan.specs.Leaving.{StandAs};

use accounts_index::AccountsIndex;
use adb_model::{Key, Slot};
use book_parts::{dropped_version_reflects, stored_versions_stand};
use storage_map::StorageMap;

/// A stored version of a key is dropped, and one row alive of its slot's storage with it.
pub fn drop_pair(key: &Key, slot: Slot, index: &mut AccountsIndex, map: &mut StorageMap)
    requires { (p : Parts) × (m : State) × StandAs p index.old map.old m × IsTrue (is_named m slot key.now.0) }
    ensures index { DropsVersion slot key.now.0 index.old index.new }
    ensures parts { (p : Parts) (m : State) → StandAs p index.old map.old m → IsTrue (is_named m slot key.now.0)
        → Reflects (record p { index = index.new; map = map.new }) (without_name m slot key.now.0) }
{
    stored_versions_stand();
    dropped_version_reflects();
    index.drop_version(key, slot);
    let _ = map.lose(slot);
}
