ghost use Rattle.std.specs.Prelude.{◌≡◌, ℕ, ◌≤◌, ◌<◌, Some, length, option_map, IfSome};
ghost use Rattle.accounts_index.specs.Index.{crowded_after};
ghost use Rattle.adb_model.specs.Lists.{last};
ghost use Rattle.adb_model.specs.State.{State};
ghost use Rattle.adb_model.specs.Sound.{IsSound};
ghost use Rattle.adb_model.specs.Reclaim.{keys_taken, reclaim_step};
ghost use Rattle.book_parts.specs.Parts.{Parts};
ghost use Rattle.clean_plan.specs.Leaving.{rooted, StandWith};

use crate::retiring::retire_unnamed;
use crate::shadowed::drop_shadowed;
use crate::spent::drop_spent;
use accounts_index::AccountsIndex;
use adb_model::{Key, Slot, reclaims_are_sound, reclaims_go_on};
use arrayvec::ArrayVec;
use book_parts::crowded_keys_reflect;
use cell_table::CellTable;
use std::sync::Arc;
use storage_map::StorageMap;
use vec_scan::Sealed;
use view_sets::RootSet;

/// Takes the first `most` crowded keys above a key, or of all keys, drops their versions that no view needs, and
/// retires the storages without a row alive. It answers the last key that it took, from which the next call goes
/// on; or `None` where no key was left. It takes no memory.
pub fn reclaim(
    after: Option<&Key>,
    most: usize,
    cleaned: Slot,
    roots: &RootSet,
    index: &mut AccountsIndex,
    cells: &mut CellTable<Arc<Sealed>>,
    map: &mut StorageMap,
) -> Option<Key>
    requires most { most ≤ 256 }
    requires parts { (p : Parts) × (m : State) × StandWith (rooted p roots.now cleaned) index.old cells.old map.old m }
    ensures parts { (p : Parts) (m : State) → StandWith (rooted p roots.now cleaned) index.old cells.old map.old m
        → StandWith (rooted p roots.now cleaned) index.new cells.new map.new (reclaim_step m (option_map (λ k. k.now.0) after.entry) most).0 }
    ensures last { (p : Parts) (m : State) → StandWith (rooted p roots.now cleaned) index.old cells.old map.old m
        → option_map (λ k. k.0) result ≡ last (keys_taken m (option_map (λ k. k.now.0) after.entry) most) }
    ensures fewer { IfSome result (λ key. length (crowded_after index.new (Some key.0))
        < length (crowded_after index.old (option_map (λ k. k.now.0) after.entry))) }
{
    crowded_keys_reflect();
    reclaims_are_sound();
    reclaims_go_on();
    let mut keys: ArrayVec<Key, 256> = ArrayVec::new();
    index.crowded_after(after, &mut keys, most);
    drop_shadowed(keys.as_slice(), cleaned, roots, index, map);
    retire_unnamed(index, cells, map);
    drop_spent(keys.as_slice(), cleaned, index, map);
    retire_unnamed(index, cells, map);
    index.in_order();
    keys.as_slice().last().copied()
}
