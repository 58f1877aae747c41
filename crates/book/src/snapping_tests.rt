use crate::tests::{account, flushed, key};
use crate::{Book, SnapRefusal};
use std::test::Fail;

// Begins a snapshot and ends it, and tells its slot, and how many storages it has.
fn snapped(book: &mut Book, slot: u64) -> Result<(u64, usize), SnapRefusal> {
    book.has_history();
    match book.snap_begin(slot) {
        Ok(job) => {
            let told = (job.slot(), job.storages().len());
            book.snap_end(job);
            Ok(told)
        }
        Err(refusal) => Err(refusal),
    }
}

#[test]
fn a_snapshot_has_the_storages_up_to_its_slot(rt: HostRuntime) -> Result<(), Fail> {
    let mut book = Book::new(rt.alloc(), 1000, 1)?;
    for slot in [2, 4] {
        assert!(rt; book.store(slot, key(1), account(rt.alloc(), 1)?).is_ok());
        assert!(rt; book.root(slot).is_ok());
        assert!(rt; flushed(&rt, &mut book, slot)?);
    }
    assert_eq!(rt; snapped(&mut book, 2), Ok((2, 1)));
    assert_eq!(rt; snapped(&mut book, 4), Ok((4, 2)));
    assert_eq!(rt;
        snapped(&mut book, 3),
        Err(SnapRefusal::NotRoot { slot: 3 })
    );
    assert_eq!(rt; book.stats().pins, 0);
    Ok(())
}
