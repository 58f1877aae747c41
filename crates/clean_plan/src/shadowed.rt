// Versions that a newer root shadows.
ghost use Rattle.std.specs.Prelude.{ℕ, Some};
ghost use Rattle.accounts_index.specs.Index.{kept};
ghost use Rattle.adb_model.specs.State.{State};
ghost use Rattle.adb_model.specs.Reclaimable.{is_shadowed};
ghost use Rattle.adb_model.specs.Reclaim.{drop_shadowed};
ghost use Rattle.book_parts.specs.Parts.{Parts};
ghost use Rattle.book_parts.specs.Reclaims.{IsNewestShadow};
ghost use Rattle.clean_plan.specs.Leaving.{bytes_of, rooted, StandAs, Leave};

use crate::lists::{newest_shadow, next_stored};
use crate::pairs::drop_pair;
use accounts_index::AccountsIndex;
use adb_model::{Key, Slot, names_leave, shadowed_pairs_leave};
use book_parts::stored_versions_stand;
use slot_list::lookups_follow_edits;
use storage_map::StorageMap;
use view_sets::RootSet;

/// Drops of each key every stored version below the newest root, up to the cleaned slot, that has a version of
/// the key. It takes no memory.
pub fn drop_shadowed(
    keys: &[Key],
    cleaned: Slot,
    roots: &RootSet,
    index: &mut AccountsIndex,
    map: &mut StorageMap,
)
    requires { (p : Parts) × (m : State) × StandAs (rooted p roots.now cleaned) index.old map.old m }
    ensures { (p : Parts) (m : State) → StandAs (rooted p roots.now cleaned) index.old map.old m
        → StandAs (rooted p roots.now cleaned) index.new map.new (drop_shadowed (bytes_of keys.now) m) }
{
    shadowed_pairs_leave();
    for key in keys {
        drop_shadowed_of(key, cleaned, roots, index, map);
    }
}

// Drops the shadowed versions of one key.
fn drop_shadowed_of(
    key: &Key,
    cleaned: Slot,
    roots: &RootSet,
    index: &mut AccountsIndex,
    map: &mut StorageMap,
)
    requires { (p : Parts) × (m : State) × StandAs (rooted p roots.now cleaned) index.old map.old m }
    ensures { (p : Parts) (m : State) → StandAs (rooted p roots.now cleaned) index.old map.old m
        → (n : State) × StandAs (rooted p roots.now cleaned) index.new map.new n × Leave is_shadowed drop_shadowed key.now.0 m n }
{
    stored_versions_stand();
    if let Some(root) = newest_shadow(key, cleaned, roots, index) {
        drop_below(key, root, index, map);
    }
}

// Drops the stored versions of a key below the root by which they are shadowed.
fn drop_below(key: &Key, root: Slot, index: &mut AccountsIndex, map: &mut StorageMap)
    requires { (p : Parts) × (m : State) × StandAs p index.old map.old m
        × IsNewestShadow p.roots p.cleaned (kept index.old key.now.0).versions (Some root) }
    ensures { (p : Parts) (m : State) → StandAs p index.old map.old m
        → IsNewestShadow p.roots p.cleaned (kept index.old key.now.0).versions (Some root)
        → (n : State) × StandAs p index.new map.new n × Leave is_shadowed drop_shadowed key.now.0 m n }
{
    stored_versions_stand();
    shadowed_pairs_leave();
    names_leave();
    lookups_follow_edits();
    let mut from = 0;
    while from < root {
        let Some((slot, next)) = next_stored(key, from, root, index) else {
            return;
        };
        drop_pair(key, slot, index, map);
        from = next;
    }
}
