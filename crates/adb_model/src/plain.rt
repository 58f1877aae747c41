ghost use Rattle.std.specs.Prelude.{◌≡◌, ◌==◌, ◌&&◌, [], map, filter, find, reverse, option_map};
ghost use Rattle.std.specs.Option.{option_copied};
ghost use Rattle.std.specs.Str.{bytes_eq};
ghost use Rattle.adb_model.specs.Lists.{greatest};
ghost use Rattle.adb_model.specs.Load as machine;
ghost use Rattle.adb_model.specs.Seen.{stored_of, found_of, place_in, state_with};

use crate::account::Account;
use crate::key::{Key, Slot};
use crate::view::View;
use std::sync::Arc;

fn sees(roots: &[Slot], view: &View, slot: Slot) -> bool
    ensures { result ≡ machine.sees (state_with [] roots.now) view.now slot }
{
    view.ancestors().contains(&slot) || (roots.contains(&slot) && slot <= view.max_root())
}

// The greatest slot that the view sees and that has a store of the key.
fn latest_slot(
    stores: &[(Slot, Key, Arc<Account>)],
    roots: &[Slot],
    view: &View,
    key: &Key,
) -> Option<Slot>
    ensures { result ≡ greatest (filter (machine.sees (state_with [] roots.now) view.now) (map (λ t. t.0) (filter (λ t. bytes_eq t.1.0 key.now.0) stores.now))) }
{
    stores
        .iter()
        .filter(|stored| stored.1 == *key)
        .map(|stored| stored.0)
        .filter(|slot| sees(roots, view, *slot))
        .max()
}

// The last store of the key in the slot.
fn last_store<'a>(
    stores: &'a [(Slot, Key, Arc<Account>)],
    slot: Slot,
    key: &Key,
) -> Option<&'a (Slot, Key, Arc<Account>)>
    ensures { option_copied result ≡ find (λ t. t.0 == slot && bytes_eq t.1.0 key.now.0) (reverse stores.now) }
{
    stores
        .iter()
        .rev()
        .find(|stored| stored.0 == slot && stored.1 == *key)
}

// The slot and the account of a store, unless that is a tomb.
fn unless_tomb<'a>(stored: &'a (Slot, Key, Arc<Account>)) -> Option<(Slot, &'a Arc<Account>)>
    ensures { option_map found_of result ≡ option_map place_in (machine.unless_tomb (stored_of stored.now)) }
{
    if stored.2.head().lamports == 0 {
        None
    } else {
        Some((stored.0, &stored.2))
    }
}

/// What a load of the key answers at the view, by a search of all stores: the slot and the account of the
/// last store in the greatest slot that the view sees and that has a store of the key, where that is no tomb.
///
/// It is slow and plain: the store that serves is judged by it.
pub fn plain_answer<'a>(
    stores: &'a [(Slot, Key, Arc<Account>)],
    roots: &[Slot],
    view: &View,
    key: &Key,
) -> Option<(Slot, &'a Arc<Account>)>
    ensures { option_map found_of result ≡ option_map place_in (machine.answer (state_with stores.now roots.now) view.now key.now.0) }
{
    let slot = latest_slot(stores, roots, view, key)?;
    let stored = last_store(stores, slot, key)?;
    unless_tomb(stored)
}
