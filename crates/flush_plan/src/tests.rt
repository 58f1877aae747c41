ghost use Rattle.std.specs.Prelude.{◌≡◌, ◌≢◌, ◌∷◌, ℕ, List, true, false, replicate, AllPairs, IfOk, OnErr, IsSome};
ghost use Rattle.accounts_index.specs.Index.{kept};
ghost use Rattle.adb_model.specs.Lists.{among};
ghost use Rattle.adb_model.specs.Presence.{has_row};
ghost use Rattle.book_parts.specs.Changes.{SameIndex};
ghost use Rattle.book_parts.specs.Flushes.{FlushBegins, IsOpenIn};
ghost use Rattle.book_parts.specs.Reflects.{indexed};
ghost use Rattle.write_cache.specs.Rows.{rows};

use crate::{BeginFault, FlushJob, abort, begin, end};
use accounts_index::AccountsIndex;
use adb_model::{Account, Key};
use append_vec::fill;
use cell_table::CellTable;
use slot_list::{Place, Version};
use std::alloc::Global;
use std::process::Abort;
use std::sync::Arc;
use std::test::Fail;
use storage_map::{Begun, Live, StorageMap};
use vec_scan::Sealed;
use write_cache::WriteCache;

// The parts of a book.
#[derive(Drop)]
struct Parts {
    cache: WriteCache,
    index: AccountsIndex,
    cells: CellTable<Arc<Sealed>>,
    map: StorageMap,
}

fn account(alloc: Global, lamports: u64) -> Result<Arc<Account>, Fail> {
    match Account::new(lamports, [7; 32], false, 0, vec![in alloc; 5; 1]?) {
        Ok(account) => Ok(Arc::new(alloc, account)?),
        Err(_) => Err("too long")?,
    }
}

fn key(first: u8) -> Key
    ensures { result.0 ≡ first ∷ replicate 31 0 }
{
    let mut bytes = [0; 32];
    bytes[0] = first;
    Key(bytes)
}

fn cached(slot: u64) -> Version {
    Version {
        slot,
        place: Place::Cached,
        tomb: false,
    }
}

// Two keys are cached in slot 5.
fn cached_parts<R: Abort + AllocGlobal>(rt: &R, limit: u64) -> Result<Parts, Fail>
    ensures differ { IfOk result (λ p. AllPairs (λ r q. r.key ≢ q.key) (rows p.cache 5)) }
    ensures there { IfOk result (λ p. (k : List ℕ) → has_row k (rows p.cache 5) ≡ true → IsSome (indexed p.index 5 k)) }
    ensures fresh { IfOk result (λ p. (k : List ℕ) → among 5 (kept p.index k).expected ≡ false) }
    ensures unheld { IfOk result (λ p. (k : List ℕ) → among 5 (kept p.index k).held ≡ false) }
{
    let alloc = rt.alloc();
    let mut index = AccountsIndex::new(alloc)?;
    let mut cache = WriteCache::new(alloc);
    let first = key(2);
    let second = key(1);
    index.upsert(&first, cached(5))?;
    index.upsert(&second, cached(5))?;
    cache.put(5, first, account(alloc, 3)?)?;
    cache.put(5, second, account(alloc, 4)?)?;
    assert!(rt; index.version(&first, 5).is_some());
    assert!(rt; index.version(&second, 5).is_some());
    Ok(Parts {
        cache,
        index,
        cells: CellTable::new(alloc, limit, 2),
        map: StorageMap::new(alloc),
    })
}

// Begins a flush of slot 5 under the id 1.
fn begin_flush<R: Abort + AllocGlobal>(rt: &R, parts: &mut Parts) -> Result<FlushJob, BeginFault>
    requires differ { AllPairs (λ r q. r.key ≢ q.key) (rows parts.old.cache 5) }
    requires fresh { (k : List ℕ) → has_row k (rows parts.old.cache 5) ≡ true → among 5 (kept parts.old.index k).expected ≡ false }
    ensures begins { IfOk result (λ job. (cell : ℕ) × FlushBegins 5 1 cell (rows parts.old.cache 5) parts.old.index parts.new.index
        parts.old.cells parts.new.cells parts.old.map parts.new.map) }
    ensures slot { IfOk result (λ job. job.slot ≡ 5) }
    ensures id { IfOk result (λ job. job.id ≡ 1) }
    ensures rows { IfOk result (λ job. job.rows ≡ rows parts.new.cache 5) }
    ensures cache { parts.new.cache ≡ parts.old.cache }
    ensures refused { OnErr result (SameIndex parts.old.index parts.new.index) }
{
    assert!(rt; parts.cache.count(5) > 0);
    assert!(rt; parts.map.begun(5).is_none());
    assert!(rt; parts.cells.cell_of(1).is_none());
    begin(
        rt.alloc(),
        5,
        1,
        &parts.cache,
        &mut parts.index,
        &mut parts.cells,
        &mut parts.map,
    )
}

// A flush of two rows that has begun.
fn begun<R: Abort + AllocGlobal>(rt: &R) -> Result<(Parts, FlushJob), Fail>
    ensures open { IfOk result (λ b. (cell : ℕ) × IsOpenIn b.1.slot b.1.id cell b.1.rows b.0.index b.0.cells b.0.map) }
    ensures slot { IfOk result (λ b. b.1.slot ≡ 5) }
    ensures rows { IfOk result (λ b. b.1.rows ≡ rows b.0.cache 5) }
{
    let mut parts = cached_parts(rt, 288)?;
    match begin_flush(rt, &mut parts) {
        Ok(job) => Ok((parts, job)),
        Err(_) => Err("refused")?,
    }
}

#[test]
fn a_flush_moves_the_rows_of_its_slot(rt: HostRuntime) -> Result<(), Fail> {
    let (mut parts, job) = begun(&rt)?;
    assert_eq!(rt; (job.slot(), job.id(), job.bytes()), (5, 1, 288));
    assert_eq!(rt; parts.map.begun(5), Some(Begun { cell: 0, rows: 2 }));
    let filled = fill(&rt, 5, 1, job.accounts(), 1)?;
    end(
        job,
        filled.sealed,
        &filled.places,
        &mut parts.cache,
        &mut parts.index,
        &mut parts.cells,
        &mut parts.map,
    );
    assert_eq!(rt; parts.cache.count(5), 0);
    for (first, offset) in [(2, 0), (1, 144)] {
        let place = parts
            .index
            .version(&key(first), 5)
            .map(|version| version.place);
        assert_eq!(rt;
            place,
            Some(Place::Stored { cell: 0, offset }),
            "key {first}"
        );
    }
    let live = Live {
        cell: 0,
        alive: 2,
        total: 2,
    };
    assert_eq!(rt; parts.map.live(5), Some(live));
    assert_eq!(rt; parts.cells.cell_of(1), Some(0));
    assert_eq!(rt; (parts.cells.counts().live, parts.cells.used()), (1, 288));
    Ok(())
}

#[test]
fn a_flush_that_was_given_up_begins_again(rt: HostRuntime) -> Result<(), Fail> {
    let (mut parts, job) = begun(&rt)?;
    abort(job, &mut parts.index, &mut parts.cells, &mut parts.map);
    assert_eq!(rt; parts.cells.used(), 0);
    assert!(rt; begin_flush(&rt, &mut parts).is_ok());
    assert_eq!(rt; (parts.cells.used(), parts.cache.count(5)), (288, 2));
    Ok(())
}

#[test]
fn bytes_above_the_limit_are_refused(rt: HostRuntime) -> Result<(), Fail> {
    let mut parts = cached_parts(&rt, 287)?;
    let full = BeginFault::Full {
        used: 0,
        wanted: 288,
        limit: 287,
    };
    assert_eq!(rt; begin_flush(&rt, &mut parts).err(), Some(full));
    assert!(rt; parts.map.begun(5).is_none());
    Ok(())
}

#[test]
fn a_begin_that_wanted_memory_begins_again(rt: HostRuntime) -> Result<(), Fail> {
    let mut parts = cached_parts(&rt, 288)?;
    if begin_flush(&rt, &mut parts).is_err() {
        assert_eq!(rt; parts.cells.used(), 0);
        assert!(rt; parts.map.begun(5).is_none());
        assert!(rt; begin_flush(&rt, &mut parts).is_ok());
    }
    assert_eq!(rt; (parts.cells.used(), parts.cache.count(5)), (288, 2));
    Ok(())
}
