use crate::{Begun, Live, StorageMap};
use cell_table::Cell;
use std::test::Fail;

fn live(cell: Cell, alive: u64, total: u64) -> Option<Live> {
    Some(Live { cell, alive, total })
}

// Fills a storage of a slot.
fn fill(map: &mut StorageMap, slot: u64, cell: Cell, rows: u64) -> Result<(), Fail> {
    map.begin(slot, cell, rows)?;
    map.publish(slot);
    Ok(())
}

// Loses a row where one is alive, and says how many are left.
fn lose(map: &mut StorageMap, slot: u64) -> Option<u64> {
    match map.live(slot) {
        Some(live) if live.alive > 0 => Some(map.lose(slot)),
        _ => None,
    }
}

#[test]
fn a_slot_goes_from_one_storage_to_the_next(rt: HostRuntime) -> Result<(), Fail> {
    let mut map = StorageMap::new(rt.alloc());
    assert_eq!(rt; map.sums(), (0, 0));
    fill(&mut map, 5, 3, 2)?;
    assert_eq!(rt; map.live(5), live(3, 2, 2));
    assert_eq!(rt; lose(&mut map, 5), Some(1));
    assert_eq!(rt; map.live(5), live(3, 1, 2));
    fill(&mut map, 5, 4, 1)?;
    assert_eq!(rt; map.live(5), live(4, 1, 1));
    map.begin(5, 6, 1)?;
    assert_eq!(rt; map.begun(5), Some(Begun { cell: 6, rows: 1 }));
    map.abandon(5);
    assert_eq!(rt; map.begun(5), None);
    assert_eq!(rt; map.live(5), live(4, 1, 1));
    assert_eq!(rt; lose(&mut map, 5), Some(0));
    assert_eq!(rt; lose(&mut map, 5), None);
    map.remove(5);
    assert_eq!(rt; map.live(5), None);
    Ok(())
}

#[test]
fn the_next_storage_in_use_passes_those_that_have_begun(rt: HostRuntime) -> Result<(), Fail> {
    let mut map = StorageMap::new(rt.alloc());
    fill(&mut map, 9, 1, 1)?;
    map.begin(7, 2, 1)?;
    fill(&mut map, 5, 3, 1)?;
    for (from, next) in [(0, Some(5)), (5, Some(5)), (6, Some(9)), (10, None)] {
        assert_eq!(rt; map.next_live(from), next, "from {from}");
    }
    fill(&mut map, 7, 4, 1)?;
    assert_eq!(rt; map.next_live(6), Some(7));
    map.remove(7);
    map.remove(8);
    assert_eq!(rt; map.next_live(6), Some(9));
    Ok(())
}

#[test]
fn emptied_slots_are_told_until_they_are_removed(rt: HostRuntime) -> Result<(), Fail> {
    let mut map = StorageMap::new(rt.alloc());
    fill(&mut map, 9, 1, 1)?;
    fill(&mut map, 5, 3, 2)?;
    assert_eq!(rt; map.emptied(), None);
    assert_eq!(rt; lose(&mut map, 5), Some(1));
    assert_eq!(rt; map.emptied(), None);
    assert_eq!(rt; lose(&mut map, 9), Some(0));
    assert_eq!(rt; map.emptied(), Some(9));
    assert_eq!(rt; lose(&mut map, 5), Some(0));
    map.remove(9);
    assert_eq!(rt; map.emptied(), Some(5));
    map.remove(5);
    assert_eq!(rt; map.emptied(), None);
    fill(&mut map, 5, 3, 0)?;
    assert_eq!(rt; map.emptied(), Some(5));
    Ok(())
}
