use crate::WriteCache;
use adb_model::{Account, Key};
use std::sync::Arc;
use std::test::Fail;

fn account(rt: &HostRuntime, lamports: u64) -> Result<Arc<Account>, Fail> {
    match Account::new(lamports, [7; 32], false, 0, Vec::new(rt.alloc())) {
        Ok(account) => Ok(Arc::new(rt.alloc(), account)?),
        Err(_) => Err("too long")?,
    }
}

fn key(first: u8) -> Key {
    let mut bytes = [0; 32];
    bytes[0] = first;
    Key(bytes)
}

#[test]
fn a_slot_keeps_its_keys_in_order_of_first_store(rt: HostRuntime) -> Result<(), Fail> {
    let mut cache = WriteCache::new(rt.alloc());
    for (slot, first, lamports) in [(5, 9, 1), (5, 2, 2), (8, 9, 3), (5, 9, 4)] {
        cache.put(slot, key(first), account(&rt, lamports)?)?;
    }
    assert_eq!(rt; cache.total(), 3);
    assert_eq!(rt; cache.count(5), 2);
    for (slot, at, expected) in [
        (5, 0, Some((9, 4))),
        (5, 1, Some((2, 2))),
        (5, 2, None),
        (8, 0, Some((9, 3))),
        (7, 0, None),
    ] {
        let row = cache
            .row(slot, at)
            .map(|(key, account)| (key.0[0], account.head().lamports));
        assert_eq!(rt; row, expected, "slot {slot}, row {at}");
    }
    let found = cache.get(8, &key(9)).map(|account| account.head().lamports);
    assert_eq!(rt; found, Some(3));
    assert!(rt; cache.get(8, &key(2)).is_none());
    Ok(())
}

#[test]
fn a_dropped_slot_lets_go_of_its_accounts(rt: HostRuntime) -> Result<(), Fail> {
    let mut cache = WriteCache::new(rt.alloc());
    let mut kept = account(&rt, 1)?;
    cache.put(5, key(1), kept.clone()?)?;
    cache.put(8, key(1), account(&rt, 2)?)?;
    assert_eq!(rt; cache.next_slot(0), Some(5));
    assert_eq!(rt; cache.next_slot(6), Some(8));
    assert_eq!(rt; cache.drop_slot(5), 1);
    assert_eq!(rt; cache.drop_slot(5), 0);
    assert!(rt; Arc::get_mut(&mut kept).is_some());
    assert_eq!(rt; cache.next_slot(0), Some(8));
    assert_eq!(rt; cache.next_slot(9), None);
    assert_eq!(rt; cache.total(), 1);
    Ok(())
}

#[test]
fn an_insert_gives_the_account_before_and_is_undone(rt: HostRuntime) -> Result<(), Fail> {
    let mut cache = WriteCache::new(rt.alloc());
    for (slot, first, lamports, before) in [
        (5, 9, 1, None),
        (5, 9, 2, Some(1)),
        (5, 2, 3, None),
        (8, 9, 4, None),
    ] {
        let replaced = cache.insert(slot, key(first), account(&rt, lamports)?)?;
        let replaced = replaced.map(|account| account.head().lamports);
        assert_eq!(rt; replaced, before);
    }
    for (slot, left, total) in [(5, 1, 2), (5, 0, 1), (8, 0, 0)] {
        assert!(rt; cache.count(slot) > 0);
        cache.take_last(slot);
        assert_eq!(rt; cache.count(slot), left);
        assert_eq!(rt; cache.total(), total);
    }
    assert_eq!(rt; cache.next_slot(0), None);
    Ok(())
}
