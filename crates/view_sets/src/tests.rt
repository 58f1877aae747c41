use crate::{AncestorSet, RootSet};
use std::test::Fail;

#[test]
fn ancestors_are_the_slots_given(rt: HostRuntime) -> Result<(), Fail> {
    let ancestors = AncestorSet::of(rt.alloc(), &[9000, 1, 9000])?;
    for (slot, expected) in [
        (1, true),
        (2, false),
        (808, false),
        (9000, true),
        (9001, false),
    ] {
        assert_eq!(rt; ancestors.contains(slot), expected, "slot {slot}");
    }
    let ends = AncestorSet::of(rt.alloc(), &[0, u64::MAX])?;
    for (slot, expected) in [(0, true), (1, false), (u64::MAX, true)] {
        assert_eq!(rt; ends.contains(slot), expected, "slot {slot}");
    }
    Ok(())
}

#[test]
fn roots_are_the_slots_added(rt: HostRuntime) -> Result<(), Fail> {
    let mut roots = RootSet::new(rt.alloc());
    assert_eq!(rt; roots.newest(), None);
    roots.add(4)?;
    roots.add(7)?;
    assert_eq!(rt; roots.newest(), Some(7));
    for (slot, expected) in [(3, false), (4, true), (5, false), (7, true), (8, false)] {
        assert_eq!(rt; roots.contains(slot), expected, "slot {slot}");
    }
    Ok(())
}

#[test]
fn roots_are_made_of_slots_in_any_order(rt: HostRuntime) -> Result<(), Fail> {
    let slots = vec![in rt.alloc(); 7, 4, 7]?;
    let roots = RootSet::of(slots);
    assert_eq!(rt; roots.newest(), Some(7));
    assert!(rt; roots.contains(4) && !roots.contains(5));
    Ok(())
}
