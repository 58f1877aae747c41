use super::*;
use std::alloc::Global;
use std::sync::Arc;
use std::test::Fail;

// The key whose first byte is this one.
fn key(first: u8) -> Key {
    let mut bytes = [0; 32];
    bytes[0] = first;
    Key(bytes)
}

// An account without data.
fn account(alloc: Global, lamports: u64) -> Result<Arc<Account>, Fail> {
    let account = Account::new(lamports, [0; 32], false, 0, Vec::new(alloc))?;
    Ok(Arc::new(alloc, account)?)
}

// What a reader at the view is answered, by the lamports.
fn answered(
    alloc: Global,
    stores: &[(u64, u8, u64)],
    roots: &[u64],
    ancestors: &[u64],
    max_root: u64,
    first: u8,
) -> Result<Option<(u64, u64)>, Fail> {
    let mut list = Vec::new(alloc);
    for (slot, first, lamports) in stores {
        list.push((*slot, key(*first), account(alloc, *lamports)?))?;
    }
    let view = View::new(alloc, ancestors, max_root)?;
    let answer = plain_answer(&list, roots, &view, &key(first));
    Ok(answer.map(|(slot, account)| (slot, account.head().lamports)))
}

#[test]
fn answers_come_from_the_greatest_slot_seen(rt: HostRuntime) -> Result<(), Fail> {
    let alloc = rt.alloc();
    let all = u64::MAX;
    let forks: [(u64, u8, u64); 2] = [(4, 1, 40), (7, 1, 70)];
    let twice: [(u64, u8, u64); 3] = [(5, 2, 1), (5, 2, 2), (5, 3, 9)];
    let deleted: [(u64, u8, u64); 2] = [(5, 2, 1), (5, 2, 0)];
    assert_eq!(rt;
        answered(alloc, &[(5, 1, 100)], &[], &[5], all, 1)?,
        Some((5, 100)),
        "an ancestor"
    );
    assert_eq!(rt;
        answered(alloc, &[(5, 1, 100)], &[], &[], all, 1)?,
        None,
        "no ancestor and no root"
    );
    assert_eq!(rt;
        answered(alloc, &[(5, 1, 100)], &[5], &[], all, 1)?,
        Some((5, 100)),
        "a root"
    );
    assert_eq!(rt;
        answered(alloc, &[(5, 1, 100)], &[5], &[], 5, 1)?,
        Some((5, 100)),
        "the greatest root"
    );
    assert_eq!(rt;
        answered(alloc, &[(5, 1, 100)], &[5], &[], 4, 1)?,
        None,
        "a root above the view's"
    );
    assert_eq!(rt;
        answered(alloc, &forks, &[7], &[4], all, 1)?,
        Some((7, 70)),
        "a root above an ancestor"
    );
    assert_eq!(rt;
        answered(alloc, &forks, &[7], &[4], 6, 1)?,
        Some((4, 40)),
        "an ancestor below a root not seen"
    );
    assert_eq!(rt;
        answered(alloc, &twice, &[], &[5], all, 2)?,
        Some((5, 2)),
        "the last store of a slot"
    );
    assert_eq!(rt;
        answered(alloc, &deleted, &[], &[5], all, 2)?,
        None,
        "a tomb"
    );
    Ok(())
}

#[test]
fn accounts_have_so_many_bytes(rt: HostRuntime) -> Result<(), Fail> {
    let alloc = rt.alloc();
    for (lamports, len, taken) in [
        (1, 10_485_760, true),
        (0, 10_485_760, true),
        (1, 10_485_761, false),
        (0, 10_485_761, false),
    ] {
        let data = vec![in alloc; 7u8; len]?;
        match Account::new(lamports, [0; 32], true, 9, data) {
            Ok(account) => {
                assert!(rt; taken, "{lamports} lamports, {len} bytes");
                let kept = if lamports == 0 { 0 } else { len };
                assert_eq!(rt; account.data().len(), kept);
                assert_eq!(rt; account.head().executable, lamports != 0);
            }
            Err(fault) => {
                assert!(rt; !taken, "{lamports} lamports, {len} bytes");
                assert_eq!(rt; fault.len, len);
                assert_eq!(rt; fault.bytes.len(), len);
            }
        }
    }
    Ok(())
}

#[test]
fn views_have_so_many_ancestors(rt: HostRuntime) -> Result<(), Fail> {
    let alloc = rt.alloc();
    let view = View::new(alloc, &[9, 5, 7, 5], 6)?.try_copy(alloc)?;
    assert_eq!(rt; view.ancestors(), [5, 7, 9].as_slice());
    assert_eq!(rt; view.max_root(), 6);
    let mut slots = vec![in alloc; 3u64; 8192]?;
    assert_eq!(rt; View::new(alloc, &slots, 0)?.ancestors(), [3].as_slice());
    slots.push(3)?;
    let refused = View::new(alloc, &slots, 0).err();
    assert_eq!(rt; refused, Some(ViewFault::TooManyAncestors { count: 8193 }));
    let refused = View::from_vec(alloc, slots, 0).err();
    assert_eq!(rt; refused, Some(ViewFault::TooManyAncestors { count: 8193 }));
    let risen = View::from_vec(alloc, vec![in alloc; 4u64, 6, 7]?, 5)?;
    assert_eq!(rt; risen.ancestors(), [4, 6, 7].as_slice());
    Ok(())
}

#[test]
fn a_copied_call_shares_its_account(rt: HostRuntime) -> Result<(), Fail> {
    let alloc = rt.alloc();
    let account = account(alloc, 4)?;
    let call = Call::Store {
        slot: 5,
        key: key(1),
        account,
    };
    match call.try_copy(alloc)? {
        Call::Store { account, .. } => assert_eq!(rt; Arc::strong_count(&account), 2),
        _ => assert!(rt; false, "another call"),
    }
    let root = Call::Root { slot: 5 }.try_copy(alloc)?;
    assert!(rt; matches!(&root, Call::Root { slot: 5 }));
    let purge = Call::Purge { slot: 5 }.try_copy(alloc)?;
    assert!(rt; matches!(&purge, Call::Purge { slot: 5 }));
    let lease = Call::Lease { max_root: 7 }.try_copy(alloc)?;
    assert!(rt; matches!(&lease, Call::Lease { max_root: 7 }));
    let end = Call::EndLease { max_root: 7 }.try_copy(alloc)?;
    assert!(rt; matches!(&end, Call::EndLease { max_root: 7 }));
    let raise = Call::Raise { upto: 5 }.try_copy(alloc)?;
    assert!(rt; matches!(&raise, Call::Raise { upto: 5 }));
    let reclaim = Call::Reclaim {
        after: Some(key(1)),
        most: 256,
    };
    match reclaim.try_copy(alloc)? {
        Call::Reclaim { after, most } => assert_eq!(rt; (after, most), (Some(key(1)), 256)),
        _ => assert!(rt; false, "another call"),
    }
    let shrink = Call::ShrinkBegin { slot: 5 }.try_copy(alloc)?;
    assert!(rt; matches!(&shrink, Call::ShrinkBegin { slot: 5 }));
    let end = Call::ShrinkEnd { slot: 5 }.try_copy(alloc)?;
    assert!(rt; matches!(&end, Call::ShrinkEnd { slot: 5 }));
    let abort = Call::ShrinkAbort { slot: 5 }.try_copy(alloc)?;
    assert!(rt; matches!(&abort, Call::ShrinkAbort { slot: 5 }));
    let snap = Call::SnapBegin { slot: 5 }.try_copy(alloc)?;
    assert!(rt; matches!(&snap, Call::SnapBegin { slot: 5 }));
    let end = Call::SnapEnd { slot: 5 }.try_copy(alloc)?;
    assert!(rt; matches!(&end, Call::SnapEnd { slot: 5 }));
    let recycle = Call::Recycle.try_copy(alloc)?;
    assert!(rt; matches!(&recycle, Call::Recycle));
    let stats = Call::Stats.try_copy(alloc)?;
    assert!(rt; matches!(&stats, Call::Stats));
    Ok(())
}
