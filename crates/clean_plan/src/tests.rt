use crate::lists::{lowest_tomb, newest_shadow, next_stored};
use accounts_index::AccountsIndex;
use adb_model::Key;
use slot_list::{Place, Version};
use std::test::Fail;
use view_sets::RootSet;

const KEY: Key = Key([1; 32]);

const STORED: Place = Place::Stored {
    cell: 1,
    offset: 144,
};

// The slots of some roots.
fn rooted(roots: &mut RootSet, slots: &[u64]) -> Result<(), Fail> {
    for slot in slots {
        if roots.newest().is_none_or(|newest| newest < *slot) {
            roots.add(*slot)?;
        }
    }
    Ok(())
}

#[test]
fn the_newest_root_up_to_the_cleaned_slot_shadows(rt: HostRuntime) -> Result<(), Fail> {
    let mut index = AccountsIndex::new(rt.alloc())?;
    let mut roots = RootSet::new(rt.alloc());
    rooted(&mut roots, &[3, 4, 7, 9])?;
    for (slot, place) in [
        (3, STORED),
        (5, Place::Cached),
        (7, Place::Cached),
        (9, STORED),
    ] {
        let tomb = false;
        index.upsert(&KEY, Version { slot, place, tomb })?;
    }
    for (cleaned, shadow) in [(2, None), (6, Some(3)), (8, Some(7)), (9, Some(9))] {
        let found = newest_shadow(&KEY, cleaned, &roots, &index);
        assert_eq!(rt; found, shadow, "cleaned {cleaned}");
    }
    for (from, bound, stored) in [
        (0, 3, None),
        (0, 4, Some((3, 4))),
        (0, 10, Some((3, 9))),
        (4, 9, None),
        (4, 10, Some((9, 10))),
    ] {
        let found = next_stored(&KEY, from, bound, &index);
        assert_eq!(rt; found, stored, "from {from} to {bound}");
    }
    assert_eq!(rt; newest_shadow(&Key([2; 32]), 9, &roots, &index), None);
    Ok(())
}

#[test]
fn a_tomb_is_spent_where_nothing_is_below(rt: HostRuntime) -> Result<(), Fail> {
    let mut index = AccountsIndex::new(rt.alloc())?;
    index.expect(&KEY, 3)?;
    index.hold(&KEY, 3);
    for (slot, tomb) in [(5, true), (8, true)] {
        let place = STORED;
        index.upsert(&KEY, Version { slot, place, tomb })?;
    }
    assert_eq!(rt; lowest_tomb(&KEY, 9, &index), None);
    index.unhold(&KEY, 3);
    for (cleaned, slot) in [(4, None), (5, Some(5)), (9, Some(5))] {
        let found = lowest_tomb(&KEY, cleaned, &index);
        assert_eq!(rt; found, slot, "cleaned {cleaned}");
    }
    let (slot, place, tomb) = (4, Place::Cached, true);
    index.upsert(&KEY, Version { slot, place, tomb })?;
    assert_eq!(rt; lowest_tomb(&KEY, 9, &index), None);
    Ok(())
}
