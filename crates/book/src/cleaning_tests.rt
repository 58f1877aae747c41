use crate::tests::{ALL, account, flushed, key};
use crate::{Book, LeaseRefusal, RaiseRefusal};
use std::alloc::AllocGlobal;
use std::test::Fail;

// What is asked; a lease is of a pass.
#[derive(Clone, Copy, Debug)]
enum Ask {
    Store(u64, u8, u64),
    Root(u64),
    Flush(u64),
    Lease(u64),
    EndLease(u64),
    Raise(u64),
    Reclaim(Option<u8>),
    Storages,
}

// What is answered; storages are told by how many are in use, how many retired, and their named pairs, rows and bytes.
#[derive(Clone, Copy, Debug, PartialEq, Eq)]
enum Answer {
    Done,
    Refused,
    TooOld(u64, u64),
    NotLeased(u64),
    PastRoot(u64, Option<u64>),
    Leased(u64, u64),
    Cleaned(u64),
    Key(u8),
    Nothing,
    Storages(u64, u64, u64, u64, u64),
}

fn done(is_done: bool) -> Answer {
    if is_done {
        Answer::Done
    } else {
        Answer::Refused
    }
}

fn leased(book: &mut Book, max_root: u64) -> Result<Answer, Fail> {
    match book.lease(3, max_root) {
        Ok(()) => Ok(Answer::Done),
        Err(LeaseRefusal::ViewTooOld { max_root, cleaned }) => {
            Ok(Answer::TooOld(max_root, cleaned))
        }
        Err(LeaseRefusal::NoMemory) => Err("memory")?,
    }
}

fn raised(book: &mut Book, upto: u64) -> Answer {
    match book.raise(upto) {
        Ok(cleaned) => Answer::Cleaned(cleaned),
        Err(RaiseRefusal::PastRoot { upto, newest }) => Answer::PastRoot(upto, newest),
        Err(RaiseRefusal::Leased { upto, least }) => Answer::Leased(upto, least),
    }
}

fn reclaimed(book: &mut Book, after: Option<u8>) -> Answer {
    match book.reclaim(after.map(key).as_ref(), 256) {
        Some(key) => Answer::Key(key.0[0]),
        None => Answer::Nothing,
    }
}

fn answered<R: AllocGlobal>(rt: &R, book: &mut Book, ask: Ask) -> Result<Answer, Fail> {
    match ask {
        Ask::Store(slot, first, lamports) => {
            let account = account(rt.alloc(), lamports)?;
            Ok(done(book.store(slot, key(first), account).is_ok()))
        }
        Ask::Root(slot) => Ok(done(book.root(slot).is_ok())),
        Ask::Flush(slot) => Ok(done(flushed(rt, book, slot)?)),
        Ask::Lease(max_root) => leased(book, max_root),
        Ask::EndLease(max_root) => match book.end_lease(3, max_root) {
            Ok(()) => Ok(Answer::Done),
            Err(refusal) => Ok(Answer::NotLeased(refusal.max_root)),
        },
        Ask::Raise(upto) => Ok(raised(book, upto)),
        Ask::Reclaim(after) => Ok(reclaimed(book, after)),
        Ask::Storages => {
            let s = book.stats();
            Ok(Answer::Storages(s.live, s.retired, s.named, s.rows, s.bytes))
        }
    }
}

// Each row begins with a new book.
#[test]
fn a_book_cleans_as_the_rows_say(rt: HostRuntime) -> Result<(), Fail> {
    let rows = [
        // A lease holds a raise back, and a raise never lowers.
        [
            (Ask::Raise(0), Answer::PastRoot(0, None)),
            (Ask::Store(8, 1, 1), Answer::Done),
            (Ask::Root(8), Answer::Done),
            (Ask::Lease(7), Answer::Done),
            (Ask::Lease(ALL), Answer::Done),
            (Ask::Raise(8), Answer::Leased(8, 7)),
            (Ask::EndLease(6), Answer::NotLeased(6)),
            (Ask::EndLease(7), Answer::Done),
            (Ask::EndLease(7), Answer::NotLeased(7)),
            (Ask::Raise(9), Answer::PastRoot(9, Some(8))),
            (Ask::Raise(8), Answer::Cleaned(8)),
            (Ask::Lease(7), Answer::TooOld(7, 8)),
            (Ask::Raise(3), Answer::Cleaned(8)),
        ]
        .as_slice(),
        // The tomb in slot 6 stays, since the storage of slot 2 has a row of its key.
        [
            (Ask::Store(2, 1, 10), Answer::Done),
            (Ask::Store(2, 2, 20), Answer::Done),
            (Ask::Root(2), Answer::Done),
            (Ask::Flush(2), Answer::Done),
            (Ask::Store(6, 1, 0), Answer::Done),
            (Ask::Root(6), Answer::Done),
            (Ask::Flush(6), Answer::Done),
            (Ask::Raise(6), Answer::Cleaned(6)),
            (Ask::Reclaim(None), Answer::Key(1)),
            (Ask::Reclaim(Some(1)), Answer::Nothing),
            (Ask::Storages, Answer::Storages(2, 0, 2, 3, 408)),
        ]
        .as_slice(),
        // Both storages retire: the older one's row is hidden by the tomb, which then hides nothing.
        [
            (Ask::Store(2, 1, 10), Answer::Done),
            (Ask::Root(2), Answer::Done),
            (Ask::Flush(2), Answer::Done),
            (Ask::Store(6, 1, 0), Answer::Done),
            (Ask::Root(6), Answer::Done),
            (Ask::Flush(6), Answer::Done),
            (Ask::Raise(6), Answer::Cleaned(6)),
            (Ask::Reclaim(None), Answer::Key(1)),
            (Ask::Storages, Answer::Storages(0, 2, 0, 0, 272)),
        ]
        .as_slice(),
    ];
    for row in rows {
        let mut book = Book::new(rt.alloc(), 1000, 1)?;
        for (ask, expected) in row {
            let answer = answered(&rt, &mut book, *ask)?;
            assert_eq!(rt; answer, *expected, "{ask:?}");
        }
    }
    Ok(())
}
