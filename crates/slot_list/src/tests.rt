use crate::{Place, SlotList, Version};
use std::test::Fail;
use view_sets::RootSet;

fn cached(slot: u64) -> Version {
    Version {
        slot,
        place: Place::Cached,
        tomb: false,
    }
}

#[test]
fn the_latest_seen_version_is_taken(rt: HostRuntime) -> Result<(), Fail> {
    let mut list = SlotList::new(rt.alloc());
    for slot in [7, 4, 9] {
        list.put(cached(slot))?;
    }
    let mut roots = RootSet::new(rt.alloc());
    roots.add(7)?;
    let fork: [u64; 1] = [4];
    let none: [u64; 0] = [];
    assert_eq!(rt; list.latest(&fork, &roots, u64::MAX), Some(cached(7)));
    assert_eq!(rt; list.latest(&fork, &roots, 6), Some(cached(4)));
    assert_eq!(rt; list.latest(&none, &roots, 6), None);
    Ok(())
}

#[test]
fn versions_rise(rt: HostRuntime) -> Result<(), Fail> {
    let mut list = SlotList::new(rt.alloc());
    for slot in [7, 4, 7] {
        list.put(cached(slot))?;
    }
    assert_eq!(rt; list.versions(), [cached(4), cached(7)].as_slice());
    let stored = Place::Stored {
        cell: 1,
        offset: 144,
    };
    assert!(rt; list.version(4).is_some());
    list.rehome(4, stored);
    assert_eq!(rt; list.version(4).map(|version| version.place), Some(stored));
    assert!(rt; list.take(7) && !list.take(7));
    Ok(())
}

#[test]
fn held_slots_rise(rt: HostRuntime) -> Result<(), Fail> {
    let mut list = SlotList::new(rt.alloc());
    list.room(2)?;
    list.hold(7);
    list.hold(4);
    assert_eq!(rt; list.held(), [4, 7].as_slice());
    assert!(rt; list.unhold(4) && !list.unhold(4));
    Ok(())
}
