ghost use Rattle.std.specs.Prelude.{◌≡◌, ◌<◌};

use crate::{AccountsIndex, Steps};
use adb_model::Key;
use arrayvec::ArrayVec;
use slot_list::{Place, Version};
use std::marker::Brand;
use std::sync::ledger::{Blank, Ledger};
use std::test::Fail;

const STORED: Place = Place::Stored {
    cell: 1,
    offset: 144,
};

fn key(first: u8) -> Key {
    let mut bytes = [0; 32];
    bytes[0] = first;
    Key(bytes)
}

fn version(slot: u64, place: Place, tomb: bool) -> Version {
    Version { slot, place, tomb }
}

fn find_by<L: Ledger>(index: &AccountsIndex, key: &Key, blank: Blank) -> Option<(usize, usize)>
    requires name { blank.name ≡ L.name }
    requires parts { blank.parts ≡ L.parts }
    requires some { 0 < L.parts }
{
    let mut steps = Steps::<L>::new(blank);
    index
        .find(key, &mut steps)
        .map(|list| (list.versions().len(), list.held().len()))
}

// How many versions and held slots a key has.
fn find(index: &AccountsIndex, key: &Key) -> Option<(usize, usize)> {
    find_by::<Brand>(index, key, Blank::new(1))
}

#[test]
fn keys_rise(rt: HostRuntime) -> Result<(), Fail> {
    let mut index = AccountsIndex::new(rt.alloc())?;
    assert_eq!(rt; find(&index, &key(1)), None);
    for first in [255, 1] {
        index.upsert(&key(first), version(5, Place::Cached, false))?;
    }
    index.expect(&key(2), 5)?;
    for (after, expected) in [
        (None, Some(key(1))),
        (Some(key(1)), Some(key(255))),
        (Some(key(255)), None),
    ] {
        assert_eq!(rt; index.key_after(after.as_ref()), expected);
    }
    let least = key(1);
    assert!(rt; index.version(&least, 5).is_some());
    index.drop_version(&least, 5);
    assert_eq!(rt; index.key_after(None), Some(key(255)));
    assert_eq!(rt; find(&index, &key(1)), None);
    Ok(())
}

#[test]
fn crowded_keys_rise(rt: HostRuntime) -> Result<(), Fail> {
    let mut index = AccountsIndex::new(rt.alloc())?;
    for (first, slot, place, tomb) in [
        (9, 5, Place::Cached, false),
        (9, 4, STORED, false),
        (3, 5, STORED, true),
        (4, 5, Place::Cached, true),
        (6, 5, STORED, false),
        (7, 5, STORED, false),
        (7, 8, STORED, false),
    ] {
        index.upsert(&key(first), version(slot, place, tomb))?;
    }
    let cached = key(4);
    assert!(rt; index.version(&cached, 5).is_some());
    index.rehome(&cached, 5, STORED);
    for (after, most, expected) in [
        (None, 3, [3, 4, 7].as_slice()),
        (None, 256, [3, 4, 7, 9].as_slice()),
        (Some(key(4)), 256, [7, 9].as_slice()),
        (Some(key(9)), 256, [].as_slice()),
    ] {
        let mut into = ArrayVec::new();
        index.crowded_after(after.as_ref(), &mut into, most);
        assert_eq!(rt; into.len(), expected.len());
        for (key, first) in into.as_slice().iter().zip(expected) {
            assert_eq!(rt; key.0[0], *first);
        }
    }
    Ok(())
}

#[test]
fn an_expected_slot_is_held_and_let_go(rt: HostRuntime) -> Result<(), Fail> {
    let key = key(1);
    let mut index = AccountsIndex::new(rt.alloc())?;
    index.expect(&key, 5)?;
    index.hold(&key, 5);
    index.expect(&key, 9)?;
    index.unhold(&key, 9);
    index.upsert(&key, version(8, STORED, false))?;
    assert_eq!(rt; find(&index, &key), Some((1, 1)));
    let held = index.list(&key).map(|list| list.held().len());
    assert_eq!(rt; held, Some(1));
    assert_eq!(rt; index.version(&key, 8), Some(version(8, STORED, false)));
    assert!(rt; index.version(&key, 5).is_none());
    index.unexpect(&key, 9);
    index.unhold(&key, 5);
    assert_eq!(rt; find(&index, &key), Some((1, 0)));
    assert!(rt; index.version(&key, 8).is_some());
    index.drop_version(&key, 8);
    assert_eq!(rt; find(&index, &key), None);
    Ok(())
}

#[test]
fn a_settled_version_has_its_place_and_is_held(rt: HostRuntime) -> Result<(), Fail> {
    let key = key(1);
    let mut index = AccountsIndex::new(rt.alloc())?;
    index.expect(&key, 5)?;
    index.upsert(&key, version(5, Place::Cached, true))?;
    assert!(rt; index.version(&key, 5).is_some());
    index.settle(&key, 5, STORED);
    assert_eq!(rt; index.version(&key, 5), Some(version(5, STORED, true)));
    assert_eq!(rt; find(&index, &key), Some((1, 1)));
    Ok(())
}

#[test]
fn a_version_is_put_in_and_held_at_once(rt: HostRuntime) -> Result<(), Fail> {
    let key = key(1);
    let mut index = AccountsIndex::new(rt.alloc())?;
    for (tomb, was) in [(false, false), (true, true)] {
        assert_eq!(rt; index.put_held(&key, version(5, STORED, tomb))?, was);
        assert_eq!(rt; index.version(&key, 5), Some(version(5, STORED, tomb)));
        assert_eq!(rt; find(&index, &key), Some((1, 1)));
    }
    Ok(())
}

// A key that begins with four bytes, and goes on high.
fn key_from(first: [u8; 4]) -> Key {
    let mut bytes = [255; 32];
    bytes[0] = first[0];
    bytes[1] = first[1];
    bytes[2] = first[2];
    bytes[3] = first[3];
    Key(bytes)
}

#[test]
fn walks_pass_over_groups(rt: HostRuntime) -> Result<(), Fail> {
    let mut index = AccountsIndex::new(rt.alloc())?;
    // In the first and the last bin of all, and at both ends of groups between them.
    let keys = [
        key_from([0, 0, 0, 0]),
        key_from([0, 0, 3, 255]),
        key_from([0, 0, 4, 0]),
        key_from([0, 0, 255, 255]),
        key_from([0, 1, 0, 0]),
        key_from([128, 0, 255, 255]),
        key_from([128, 1, 0, 0]),
        key_from([255, 255, 255, 255]),
    ];
    for key in &keys {
        assert!(rt; index.version(key, 5).is_none());
        index.unhold(key, 5);
        index.unexpect(key, 5);
        index.upsert(key, version(5, STORED, true))?;
    }
    let mut after = None;
    for key in &keys {
        after = index.key_after(after.as_ref());
        assert_eq!(rt; after, Some(*key));
    }
    assert_eq!(rt; index.key_after(after.as_ref()), None);
    for (start, key) in keys.iter().enumerate() {
        let mut into = ArrayVec::new();
        index.crowded_after(Some(key), &mut into, 3);
        let rest = &keys[start + 1..];
        assert_eq!(rt; into.as_slice(), &rest[..rest.len().min(3)]);
    }
    Ok(())
}

#[test]
fn iter_gives_each_key_once(rt: HostRuntime) -> Result<(), Fail> {
    let mut index = AccountsIndex::new(rt.alloc())?;
    for (first, slot) in [(255, 5), (9, 8), (0, 5), (9, 5), (1, 5)] {
        index.upsert(&key(first), version(slot, STORED, false))?;
    }
    index.expect(&key(77), 5)?;
    let expected = [(0, 1), (1, 1), (9, 2), (77, 0), (255, 1)];
    let mut found = Vec::new(rt.alloc());
    for (key, list) in index.iter() {
        found.push((key.0[0], list.versions().len()))?;
    }
    assert_eq!(rt; found.as_slice(), expected.as_slice());
    Ok(())
}
