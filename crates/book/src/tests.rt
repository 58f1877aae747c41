ghost use Rattle.std.specs.Prelude.{IfOk, OnOk};
ghost use Rattle.book_parts.specs.Stands.{HasHistoryWithPins};

use crate::{
    Batch, Book, FlushRefusal, Found, FoundAt, NotPinned, RootRefusal, Rooted, StoreRefusal,
};
use adb_model::{Account, Key, View};
use append_vec::fill;
use book_parts::{pins_are_held, pins_stay};
use pass_pins::PassPins;
use std::alloc::Global;
use std::sync::Arc;
use std::test::Fail;

// What is asked; a load is at a view of one fork's slot, or of none, and the roots up to another slot.
#[derive(Clone, Copy, Debug)]
enum Ask {
    Store(u64, u8, u64),
    Root(u64),
    Purge(u64),
    Load(Option<u64>, u64, u8),
    Unpin(u64),
    Cached,
    KeyAfter(Option<u8>),
}

// What is answered; an account is told by its lamports.
#[derive(Clone, Copy, Debug, PartialEq, Eq)]
enum Answer {
    Done,
    NotAbove(u64, u64),
    IsRoot(u64),
    NotPinned(u64),
    Count(u64),
    Nothing,
    Found(u64, u64),
    Key(u8),
}

/// The greatest root of a view of all roots.
pub const ALL: u64 = u64::MAX;

/// The key whose first byte is this.
pub fn key(first: u8) -> Key {
    let mut bytes = [0; 32];
    bytes[0] = first;
    Key(bytes)
}

/// An account of so many lamports.
pub fn account(alloc: Global, lamports: u64) -> Result<Arc<Account>, Fail> {
    match Account::new(lamports, [7; 32], true, 9, Vec::new(alloc)) {
        Ok(account) => Ok(Arc::new(alloc, account)?),
        Err(_) => Err("too long")?,
    }
}

// A new book, and the pins of a pass.
fn begun(alloc: Global) -> Result<(Book, PassPins), Fail>
    ensures { IfOk result (λ b. HasHistoryWithPins b.0 b.1) }
{
    pins_are_held();
    Ok((Book::new(alloc, 408, 1)?, PassPins::new(3)))
}

// What the pass is answered.
fn loaded(
    alloc: Global,
    book: &mut Book,
    pins: &mut PassPins,
    fork: Option<u64>,
    max_root: u64,
    first: u8,
) -> Result<Answer, Fail>
    requires { HasHistoryWithPins book.old pins.old }
    ensures { OnOk result (HasHistoryWithPins book.new pins.new) }
{
    let view = match fork {
        Some(slot) => View::new(alloc, &[slot], max_root)?,
        None => View::new(alloc, &[], max_root)?,
    };
    match book.load(pins, &view, &key(first)) {
        Ok(
            Some(
                Found {
                    slot,
                    at: FoundAt::Cached(account),
                },
            ),
        ) => Ok(Answer::Found(slot, account.head().lamports)),
        Ok(Some(_)) => Err("in a storage")?,
        Ok(None) => Ok(Answer::Nothing),
        Err(_) => Err("refused")?,
    }
}

fn answered(alloc: Global, book: &mut Book, pins: &mut PassPins, ask: Ask) -> Result<Answer, Fail>
    requires { HasHistoryWithPins book.old pins.old }
    ensures { OnOk result (HasHistoryWithPins book.new pins.new) }
{
    pins_stay();
    match ask {
        Ask::Store(slot, first, lamports) => {
            let account = account(alloc, lamports)?;
            match book.store(slot, key(first), account) {
                Ok(()) => Ok(Answer::Done),
                Err(StoreRefusal::SlotRooted { slot, newest }) => Ok(Answer::NotAbove(
                    slot, newest,
                )),
                Err(StoreRefusal::NoMemory) => Err("memory")?,
            }
        }
        Ask::Root(slot) => match book.root(slot) {
            Ok(()) => Ok(Answer::Done),
            Err(RootRefusal::RootOrder { slot, newest }) => Ok(Answer::NotAbove(slot, newest)),
            Err(RootRefusal::NoMemory) => Err("memory")?,
        },
        Ask::Purge(slot) => match book.purge(slot) {
            Ok(keys) => Ok(Answer::Count(keys)),
            Err(Rooted { slot }) => Ok(Answer::IsRoot(slot)),
        },
        Ask::Load(fork, max_root, first) => loaded(alloc, book, pins, fork, max_root, first),
        Ask::Unpin(id) => match book.unpin(pins, id) {
            Ok(()) => Ok(Answer::Done),
            Err(NotPinned { id }) => Ok(Answer::NotPinned(id)),
        },
        Ask::Cached => Ok(Answer::Count(book.stats().cached)),
        Ask::KeyAfter(after) => match book.key_after(after.map(key).as_ref()) {
            Some(key) => Ok(Answer::Key(key.0[0])),
            None => Ok(Answer::Nothing),
        },
    }
}

// Each row begins with a new book.
#[test]
fn a_book_answers_as_the_rows_say(rt: HostRuntime) -> Result<(), Fail> {
    let alloc = rt.alloc();
    let rows = [
        [
            (Ask::Store(5, 1, 100), Answer::Done),
            (Ask::Load(Some(5), ALL, 1), Answer::Found(5, 100)),
            (Ask::Load(None, ALL, 1), Answer::Nothing),
            (Ask::Root(5), Answer::Done),
            (Ask::Load(None, ALL, 1), Answer::Found(5, 100)),
            (Ask::Unpin(1), Answer::NotPinned(1)),
        ]
        .as_slice(),
        [
            (Ask::Store(4, 1, 40), Answer::Done),
            (Ask::Store(7, 1, 70), Answer::Done),
            (Ask::Root(7), Answer::Done),
            (Ask::Load(Some(4), ALL, 1), Answer::Found(7, 70)),
            (Ask::Load(Some(4), 6, 1), Answer::Found(4, 40)),
        ]
        .as_slice(),
        [
            (Ask::Store(5, 2, 1), Answer::Done),
            (Ask::Store(5, 2, 2), Answer::Done),
            (Ask::Load(Some(5), ALL, 2), Answer::Found(5, 2)),
            (Ask::Store(5, 2, 0), Answer::Done),
            (Ask::Load(Some(5), ALL, 2), Answer::Nothing),
            (Ask::Cached, Answer::Count(1)),
        ]
        .as_slice(),
        [
            (Ask::Root(7), Answer::Done),
            (Ask::Root(7), Answer::NotAbove(7, 7)),
            (Ask::Store(7, 1, 1), Answer::NotAbove(7, 7)),
            (Ask::Store(6, 1, 1), Answer::NotAbove(6, 7)),
            (Ask::Store(8, 1, 1), Answer::Done),
        ]
        .as_slice(),
        [
            (Ask::Store(5, 1, 9), Answer::Done),
            (Ask::Purge(5), Answer::Count(1)),
            (Ask::Load(Some(5), ALL, 1), Answer::Nothing),
            (Ask::Purge(5), Answer::Count(0)),
            (Ask::Store(5, 1, 3), Answer::Done),
            (Ask::Load(Some(5), ALL, 1), Answer::Found(5, 3)),
            (Ask::Root(5), Answer::Done),
            (Ask::Purge(5), Answer::IsRoot(5)),
        ]
        .as_slice(),
        [
            (Ask::Store(5, 1, 1), Answer::Done),
            (Ask::Store(5, 2, 2), Answer::Done),
            (Ask::Store(5, 1, 3), Answer::Done),
            (Ask::Store(6, 9, 0), Answer::Done),
            (Ask::Cached, Answer::Count(3)),
            (Ask::KeyAfter(None), Answer::Key(1)),
            (Ask::KeyAfter(Some(2)), Answer::Key(9)),
            (Ask::KeyAfter(Some(9)), Answer::Nothing),
            (Ask::Purge(5), Answer::Count(2)),
            (Ask::KeyAfter(None), Answer::Key(9)),
        ]
        .as_slice(),
    ];
    for row in rows {
        let (mut book, mut pins) = begun(alloc)?;
        for (ask, expected) in row {
            let answer = answered(alloc, &mut book, &mut pins, *ask)?;
            assert_eq!(rt; answer, *expected, "{ask:?}");
        }
    }
    Ok(())
}

/// Flushes a slot to its end, and says whether it could.
pub fn flushed<R: AllocGlobal>(rt: &R, book: &mut Book, slot: u64) -> Result<bool, Fail> {
    book.has_history();
    match book.flush_begin(slot) {
        Ok(job) => {
            let filled = fill(rt, slot, job.id(), job.accounts(), 1)?;
            book.flush_end(job, filled);
            Ok(true)
        }
        Err(_) => Ok(false),
    }
}

#[test]
fn a_book_lets_go_of_what_it_no_longer_needs(rt: HostRuntime) -> Result<(), Fail> {
    let alloc = rt.alloc();
    let mut book = Book::new(alloc, 408, 1)?;
    let mut stored_over = account(alloc, 1)?;
    let mut purged = account(alloc, 2)?;
    let mut flushed_out = account(alloc, 3)?;
    book.store(1, key(1), stored_over.clone()?)?;
    book.store(2, key(1), purged.clone()?)?;
    book.store(3, key(1), flushed_out.clone()?)?;
    book.store(1, key(1), account(alloc, 4)?)?;
    assert_eq!(rt; book.purge(2), Ok(1));
    assert_eq!(rt; book.root(3), Ok(()));
    assert!(rt; Arc::get_mut(&mut flushed_out).is_none());
    assert!(rt; flushed(&rt, &mut book, 3)?);
    assert!(rt; Arc::get_mut(&mut stored_over).is_some());
    assert!(rt; Arc::get_mut(&mut purged).is_some());
    assert!(rt; Arc::get_mut(&mut flushed_out).is_some());
    Ok(())
}

#[test]
fn the_last_id_is_not_given(rt: HostRuntime) -> Result<(), Fail> {
    let alloc = rt.alloc();
    let mut book = Book::new(alloc, 1000, u64::MAX - 1)?;
    for slot in [1, 2] {
        book.store(slot, key(1), account(alloc, slot)?)?;
        assert_eq!(rt; book.root(slot), Ok(()));
    }
    assert!(rt; flushed(&rt, &mut book, 1)?);
    assert_eq!(rt; book.flush_begin(2).err(), Some(FlushRefusal::IdsSpent));
    assert_eq!(rt; (book.stats().live, book.stats().bytes), (1, 136));
    Ok(())
}

// The account of key 7 is a tomb. The view doesn't see slot 6, in which key 3 is stored again, and key 50 alone.
#[test]
fn accounts_come_by_rising_key_in_batches(rt: HostRuntime) -> Result<(), Fail> {
    let alloc = rt.alloc();
    let mut book = Book::new(alloc, 100_000, 1)?;
    for before_last in 0..40 {
        let first = 39 - before_last;
        let lamports = if first == 7 { 0 } else { u64::from(first) + 1 };
        book.store(5, key(first), account(alloc, lamports)?)?;
    }
    for first in [3, 50] {
        book.store(6, key(first), account(alloc, 100)?)?;
    }
    for slot in [5, 6] {
        assert_eq!(rt; book.root(slot), Ok(()));
    }
    assert!(rt; flushed(&rt, &mut book, 5)?);
    let view = View::new(alloc, &[], 5)?;
    let Ok(mut accounts) = book.accounts(&view) else {
        return Err("too old")?;
    };
    let mut batch = Batch::new();
    let mut last = None;
    for expected in [32, 9, 0] {
        accounts.read_on(&mut batch);
        assert_eq!(rt; batch.len(), expected);
        for (key, answer) in batch.as_slice() {
            let first = key.0[0];
            assert!(rt; last < Some(first));
            last = Some(first);
            let found = answer.map(|found| (found.slot, found.head.lamports));
            let seen = first < 40 && first != 7;
            assert_eq!(rt; found, seen.then_some((5, u64::from(first) + 1)));
        }
    }
    Ok(())
}
