ghost use Rattle.std.specs.Prelude.{◌≡◌, ◌≤◌, ◌<◌, ◌++◌, true, false, nat_lt, length, take, map, find, filter, option_map};
ghost use Rattle.std.specs.List.{AllWithin};
ghost use Rattle.accounts_index.specs.Index.{IsOrdered, is_above, is_crowded, key_after, crowded_after};
ghost use Rattle.accounts_index.specs.Inside.{seen, KeysRise};

use crate::entry::Entry;
use crate::search::find_place;
use adb_model::Key;
use arrayvec::ArrayVec;

/// The place of the first entry above a key.
fn start_after(entries: &[Entry], after: Option<&Key>) -> usize
    requires { KeysRise entries.now }
    ensures within { result ≤ length entries.now }
    ensures before { AllWithin (λ e. is_above (option_map (λ k. k.now.0) after.entry) e.key.0 ≡ false) entries.now 0 result }
    ensures from { AllWithin (λ e. is_above (option_map (λ k. k.now.0) after.entry) e.key.0 ≡ true) entries.now result (length entries.now) }
{
    match after {
        None => 0,
        Some(key) => match find_place(entries, key) {
            Ok(place) => place + 1,
            Err(place) => place,
        },
    }
}

/// The first key above another that has a version.
pub fn key_after(entries: &[Entry], after: Option<&Key>) -> Option<Key>
    requires { KeysRise entries.now }
    ensures first { option_map (λ k. k.0) result ≡ key_after (seen entries.now) (option_map (λ k. k.now.0) after.entry) }
    ensures rise { IsOrdered (seen entries.now) }
{
    let start = start_after(entries, after);
    first_present(&entries[start..])
}

fn first_present(entries: &[Entry]) -> Option<Key>
    ensures { option_map (λ k. k.0) result ≡ option_map (λ e. e.key.0) (find (λ e. nat_lt 0 (length e.lists.value.list.versions)) entries.now) }
{
    entries
        .iter()
        .find(|entry| entry.has_versions())
        .map(|entry| entry.key)
}

/// Adds crowded keys above another, rising, while `into` has fewer than `most`.
pub fn crowded_after(
    entries: &[Entry],
    after: Option<&Key>,
    into: &mut ArrayVec<Key, 256>,
    most: usize,
)
    requires rise { KeysRise entries.now }
    requires few { length into.old.items ≤ most }
    requires most { most ≤ 256 }
    ensures first { map (λ k. k.0) into.new.items
        ≡ take most (map (λ k. k.0) into.old.items ++ crowded_after (seen entries.now) (option_map (λ k. k.now.0) after.entry)) }
    ensures rise { IsOrdered (seen entries.now) }
{
    let start = start_after(entries, after);
    first_crowded(&entries[start..], into, most);
}

fn first_crowded(entries: &[Entry], into: &mut ArrayVec<Key, 256>, most: usize)
    requires few { length into.old.items ≤ most }
    requires most { most ≤ 256 }
    ensures { map (λ k. k.0) into.new.items
        ≡ take most (map (λ k. k.0) into.old.items ++ map (λ e. e.key.0) (filter (λ e. is_crowded e.lists.value.list.versions) entries.now)) }
{
    for entry in entries {
        if into.len() == most {
            return;
        }
        if entry.is_crowded() {
            into.push(entry.key);
        }
    }
}
