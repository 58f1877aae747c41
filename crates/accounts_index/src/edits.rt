ghost use Rattle.std.specs.Prelude.{◌≡◌, ℕ, ◌+◌, ◌<◌, ◌≤◌, ◌++◌, ◌∷◌, [], true, false, List, length, OnOk, OnErr, IfOk, IsOk, IsSome};
ghost use Rattle.view_sets.specs.Slots.{among};
ghost use Rattle.slot_list.specs.Versions.{at, put, without, rehomed, with_slot, without_slot};
ghost use Rattle.accounts_index.specs.Index.{kept, IsWith};
ghost use Rattle.accounts_index.specs.Inside.{seen, AreEntries, AreEntriesBut};
ghost use Rattle.accounts_index.specs.Places.{IsGap};

use crate::entry::{Entry, Lists};
use crate::search::find_place;
use adb_model::{Key, Slot};
use slot_list::{Place, SlotList, Version};
use smallvec::SmallVec;
use std::alloc::{AllocError, Global};

/// Puts a version in, in place of the one that the key has in its slot.
pub fn upsert(
    entries: &mut Vec<Entry>,
    alloc: Global,
    key: &Key,
    version: Version,
) -> Result<(), AllocError>
    requires { AreEntries entries.old.items }
    ensures entries { AreEntries entries.new.items }
    ensures ok { OnOk result (let old = kept (seen entries.old.items) key.now.0 in
        IsWith (seen entries.old.items) (seen entries.new.items) key.now.0 (record old { versions = put version old.versions })) }
    ensures err { OnErr result (seen entries.new.items ≡ seen entries.old.items) }
    ensures replaces { IsSome (at version.slot (kept (seen entries.old.items) key.now.0).versions) → IsOk result }
{
    match find_place(entries, key) {
        Ok(place) => {
            let lists = &mut *entries[place].lists;
            lists.list.put(version)
        }
        Err(place) => {
            let mut list = SlotList::new(alloc);
            list.put(version)?;
            insert(entries, alloc, place, *key, list, SmallVec::new(alloc))
        }
    }
}

/// Takes the version of a slot out.
pub fn drop_version(entries: &mut Vec<Entry>, key: &Key, slot: Slot)
    requires entries { AreEntries entries.old.items }
    requires there { IsSome (at slot (kept (seen entries.old.items) key.now.0).versions) }
    ensures entries { AreEntries entries.new.items }
    ensures kept { let old = kept (seen entries.old.items) key.now.0 in
        IsWith (seen entries.old.items) (seen entries.new.items) key.now.0 (record old { versions = without slot old.versions }) }
{
    match find_place(entries, key) {
        Ok(place) => {
            let lists = &mut *entries[place].lists;
            let _ = lists.list.take(slot);
            drop_unused(entries, place);
        }
        Err(_) => unreachable!(),
    }
}

/// Lets an entry go of whose key nothing is kept.
fn drop_unused(entries: &mut Vec<Entry>, place: usize)
    requires { AreEntriesBut entries.old.items place }
    ensures entries { AreEntries entries.new.items }
    ensures kept { (q : List ℕ) → kept (seen entries.new.items) q ≡ kept (seen entries.old.items) q }
{
    if !entries[place].is_used() {
        let _ = entries.remove(place);
    }
}

/// A new entry at its place.
fn insert(
    entries: &mut Vec<Entry>,
    alloc: Global,
    place: usize,
    key: Key,
    list: SlotList,
    expected: SmallVec<u64, 1>,
) -> Result<(), AllocError>
    requires entries { AreEntries entries.old.items }
    requires gap { IsGap entries.old.items key.0 place }
    requires room { length expected.items ≤ list.spare }
    requires used { 0 < length list.versions + length list.held + length expected.items }
    ensures entries { AreEntries entries.new.items }
    ensures ok { OnOk result (IsWith (seen entries.old.items) (seen entries.new.items) key.0
        (record { versions = list.versions; held = list.held; expected = expected.items })) }
    ensures err { OnErr result (seen entries.new.items ≡ seen entries.old.items) }
{
    let lists = Box::new(alloc, Lists { list, expected })?;
    entries.insert(place, Entry { key, lists })?;
    Ok(())
}

/// Gives the version of a slot another place.
pub fn rehome(entries: &mut Vec<Entry>, key: &Key, slot: Slot, place: Place)
    requires entries { AreEntries entries.old.items }
    requires there { IsSome (at slot (kept (seen entries.old.items) key.now.0).versions) }
    ensures entries { AreEntries entries.new.items }
    ensures kept { let old = kept (seen entries.old.items) key.now.0 in
        IsWith (seen entries.old.items) (seen entries.new.items) key.now.0 (record old { versions = rehomed slot place old.versions }) }
{
    match find_place(entries, key) {
        Ok(found) => {
            let lists = &mut *entries[found].lists;
            lists.list.rehome(slot, place);
        }
        Err(_) => unreachable!(),
    }
}

/// Expects a key to be held in a slot, and makes the room for it.
pub fn expect(
    entries: &mut Vec<Entry>,
    alloc: Global,
    key: &Key,
    slot: Slot,
) -> Result<(), AllocError>
    requires { AreEntries entries.old.items }
    ensures entries { AreEntries entries.new.items }
    ensures ok { OnOk result (let old = kept (seen entries.old.items) key.now.0 in
        IsWith (seen entries.old.items) (seen entries.new.items) key.now.0 (record old { expected = old.expected ++ slot ∷ [] })) }
    ensures err { OnErr result (seen entries.new.items ≡ seen entries.old.items) }
{
    match find_place(entries, key) {
        Ok(place) => {
            let lists = &mut *entries[place].lists;
            lists.list.room(lists.expected.as_slice().len() + 1)?;
            lists.expected.push(slot)?;
            Ok(())
        }
        Err(place) => {
            let mut list = SlotList::new(alloc);
            list.room(1)?;
            let mut expected = SmallVec::new(alloc);
            expected.push(slot)?;
            insert(entries, alloc, place, *key, list, expected)
        }
    }
}

/// Expects a key to be held in a slot no longer.
pub fn unexpect(entries: &mut Vec<Entry>, key: &Key, slot: Slot)
    requires { AreEntries entries.old.items }
    ensures entries { AreEntries entries.new.items }
    ensures kept { let old = kept (seen entries.old.items) key.now.0 in
        IsWith (seen entries.old.items) (seen entries.new.items) key.now.0 (record old { expected = without_slot slot old.expected }) }
{
    if let Ok(place) = find_place(entries, key) {
        let lists = &mut *entries[place].lists;
        forget(&mut lists.expected, slot);
        drop_unused(entries, place);
    }
}

/// Holds a key in a slot in which it is expected.
pub fn hold(entries: &mut Vec<Entry>, key: &Key, slot: Slot)
    requires entries { AreEntries entries.old.items }
    requires expected { among slot (kept (seen entries.old.items) key.now.0).expected ≡ true }
    requires absent { among slot (kept (seen entries.old.items) key.now.0).held ≡ false }
    ensures entries { AreEntries entries.new.items }
    ensures kept { let old = kept (seen entries.old.items) key.now.0 in
        IsWith (seen entries.old.items) (seen entries.new.items) key.now.0
        (record old { held = with_slot slot old.held; expected = without_slot slot old.expected }) }
{
    match find_place(entries, key) {
        Ok(place) => {
            let lists = &mut *entries[place].lists;
            lists.list.hold(slot);
            forget(&mut lists.expected, slot);
        }
        Err(_) => unreachable!(),
    }
}

/// Gives the version of a slot another place, and holds the key in the slot, in which it is expected.
pub fn settle(entries: &mut Vec<Entry>, key: &Key, slot: Slot, place: Place)
    requires entries { AreEntries entries.old.items }
    requires there { IsSome (at slot (kept (seen entries.old.items) key.now.0).versions) }
    requires expected { among slot (kept (seen entries.old.items) key.now.0).expected ≡ true }
    requires absent { among slot (kept (seen entries.old.items) key.now.0).held ≡ false }
    ensures entries { AreEntries entries.new.items }
    ensures kept { let old = kept (seen entries.old.items) key.now.0 in
        IsWith (seen entries.old.items) (seen entries.new.items) key.now.0
        (record { versions = rehomed slot place old.versions; held = with_slot slot old.held; expected = without_slot slot old.expected }) }
{
    match find_place(entries, key) {
        Ok(found) => {
            let lists = &mut *entries[found].lists;
            lists.list.rehome(slot, place);
            lists.list.hold(slot);
            forget(&mut lists.expected, slot);
        }
        Err(_) => unreachable!(),
    }
}

/// Puts a version in, in place of the one that the key has in its slot, and holds the key in this slot. Says whether it
/// was held there already.
pub fn put_held(
    entries: &mut Vec<Entry>,
    alloc: Global,
    key: &Key,
    version: Version,
) -> Result<bool, AllocError>
    requires { AreEntries entries.old.items }
    ensures entries { AreEntries entries.new.items }
    ensures ok { OnOk result (let old = kept (seen entries.old.items) key.now.0 in
        IsWith (seen entries.old.items) (seen entries.new.items) key.now.0
        (record old { versions = put version old.versions; held = with_slot version.slot old.held })) }
    ensures was { IfOk result (λ was. was ≡ among version.slot (kept (seen entries.old.items) key.now.0).held) }
    ensures err { OnErr result (seen entries.new.items ≡ seen entries.old.items) }
{
    match find_place(entries, key) {
        Ok(place) => {
            let lists = &mut *entries[place].lists;
            let expected = lists.expected.as_slice().len();
            lists.list.room(expected + 1)?;
            lists.list.put(version)?;
            Ok(lists.list.keep_held(version.slot))
        }
        Err(place) => {
            let mut list = SlotList::new(alloc);
            list.room(1)?;
            list.put(version)?;
            list.hold(version.slot);
            insert(entries, alloc, place, *key, list, SmallVec::new(alloc))?;
            Ok(false)
        }
    }
}

/// Holds a key in a slot no longer.
pub fn unhold(entries: &mut Vec<Entry>, key: &Key, slot: Slot)
    requires { AreEntries entries.old.items }
    ensures entries { AreEntries entries.new.items }
    ensures kept { let old = kept (seen entries.old.items) key.now.0 in
        IsWith (seen entries.old.items) (seen entries.new.items) key.now.0 (record old { held = without_slot slot old.held }) }
{
    if let Ok(place) = find_place(entries, key) {
        let lists = &mut *entries[place].lists;
        let _ = lists.list.unhold(slot);
        drop_unused(entries, place);
    }
}

/// Takes a slot out of a list.
fn forget(slots: &mut SmallVec<u64, 1>, slot: u64)
    ensures { slots.new.items ≡ without_slot slot slots.old.items }
{
    slots.retain(|s| *s != slot);
}
