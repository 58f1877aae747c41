ghost use Rattle.std.specs.Prelude.{◌≡◌, ◌∷◌, ℕ, true, false, None, Some, replicate, IfOk, OnOk, OnErr, IsSomeAnd};
ghost use Rattle.book_parts.specs.Parts.{Shared};
ghost use Rattle.book_parts.specs.Shrinks.{IsCopyIn};
ghost use Rattle.cell_table.specs.Cells.{IsUnused, cell_at};
ghost use Rattle.cell_table.specs.Phases.{has_id, is_live, value_of};
ghost use Rattle.storage_map.specs.declared.entry.Live as entry;
ghost use Rattle.storage_map.specs.Slots.{live_at, begun_at};

use crate::{BeginFault, ShrinkJob, abort, begin, copied_bytes, end};
use account_layout::{stored_size, write_record};
use accounts_index::AccountsIndex;
use adb_model::{Account, Key};
use append_vec::fill;
use cell_table::{Cell, CellTable};
use slot_list::{Place, Version};
use std::alloc::Global;
use std::process::Abort;
use std::sync::Arc;
use std::test::Fail;
use storage_map::{Live, StorageMap};
use vec_scan::{Sealed, seal};

// The parts of a book that a shrink changes.
#[derive(Drop)]
struct Parts {
    index: AccountsIndex,
    cells: CellTable<Arc<Sealed>>,
    map: StorageMap,
}

fn key(first: u8) -> Key
    ensures { result.0 ≡ first ∷ replicate 31 0 }
{
    let mut bytes = [0; 32];
    bytes[0] = first;
    Key(bytes)
}

// The image of storage 1 of slot 5, in which the records of these keys stand, each of 144 bytes.
fn image<R: Abort + AllocGlobal>(rt: &R, keys: &[u8]) -> Result<Arc<Sealed>, Fail> {
    let alloc = rt.alloc();
    let mut bytes = Vec::new(alloc);
    for (at, first) in keys.iter().enumerate() {
        let lamports = at as u64 + 1;
        let data = vec![in alloc; 1; 5]?;
        let Ok(account) = Account::new(lamports, [7; 32], false, 0, data) else {
            return Err("too long")?;
        };
        let mut record = [0; 144];
        assert!(rt; stored_size(&account) == 144);
        write_record(&key(*first), &account, &mut record);
        bytes.extend_from_slice(&record)?;
    }
    let len = bytes.len() as u64;
    match seal(alloc, 5, 1, bytes, len) {
        Ok(sealed) => Ok(Arc::new(alloc, sealed)?),
        Err(_) => Err("no image")?,
    }
}

// A live cell with an image.
fn live_cell(cells: &mut CellTable<Arc<Sealed>>, image: Arc<Sealed>) -> Result<Cell, Fail>
    requires { IsUnused image.value.id cells.old.cells }
    ensures live { IfOk result (λ cell. is_live (cell_at cells.new.cells cell) ≡ true) }
    ensures value { IfOk result (λ cell. value_of (cell_at cells.new.cells cell) ≡ Some image) }
    ensures id { IfOk result (λ cell. has_id image.value.id (cell_at cells.new.cells cell) ≡ true) }
{
    let bytes = image.bytes().len() as u128;
    match cells.begin(image.id(), bytes) {
        Ok(cell) => {
            cells.publish(cell, image);
            Ok(cell)
        }
        Err(_) => Err("no cell")?,
    }
}

// One row less is alive of the storage in use of slot 5.
fn lose_one(map: &mut StorageMap) -> Result<(), Fail> {
    match map.live(5) {
        Some(live) if live.alive > 0 => {
            let _ = map.lose(5);
            Ok(())
        }
        _ => Err("no row is alive")?,
    }
}

// The storage in use of slot 5 is in the cell, and 2 of its 4 rows are alive.
fn mapped(alloc: Global, cell: Cell) -> Result<StorageMap, Fail>
    ensures live { IfOk result (λ map. IsSomeAnd (live_at map 5) (λ live. live.cell ≡ cell)) }
    ensures none { IfOk result (λ map. begun_at map 5 ≡ None) }
{
    let mut map = StorageMap::new(alloc);
    map.begin(5, cell, 4)?;
    map.publish(5);
    lose_one(&mut map)?;
    lose_one(&mut map)?;
    match (map.live(5), map.begun(5)) {
        (Some(live), None) if live.cell == cell => Ok(map),
        _ => Err("another storage")?,
    }
}

// The storage in use of slot 5 has rows of the keys 2, 1, 2 and 3, of which the key 1 was dropped.
fn stored_parts<R: Abort + AllocGlobal>(rt: &R, limit: u64) -> Result<Parts, Fail>
    ensures live { IfOk result (λ p. IsSomeAnd (live_at p.map 5) (λ live. is_live (cell_at p.cells.cells live.cell) ≡ true)) }
    ensures named { IfOk result (λ p. (live : entry.Live) (image : Shared) → live_at p.map 5 ≡ Some live
        → value_of (cell_at p.cells.cells live.cell) ≡ Some image → has_id image.value.id (cell_at p.cells.cells live.cell) ≡ true) }
    ensures none { IfOk result (λ p. begun_at p.map 5 ≡ None) }
{
    let alloc = rt.alloc();
    let image = image(rt, &[2, 1, 2, 3])?;
    let mut cells = CellTable::new(alloc, limit, 2);
    assert!(rt; cells.cell_of(image.id()).is_none());
    let cell = live_cell(&mut cells, image)?;
    let map = mapped(alloc, cell)?;
    let mut index = AccountsIndex::new(alloc)?;
    for (first, offset) in [(2, 288), (3, 432)] {
        let version = Version {
            slot: 5,
            place: Place::Stored { cell, offset },
            tomb: false,
        };
        index.upsert(&key(first), version)?;
    }
    Ok(Parts { index, cells, map })
}

// Begins a shrink of slot 5 under the id 2.
fn begin_shrink<R: Abort + AllocGlobal>(rt: &R, parts: &mut Parts) -> Result<ShrinkJob, BeginFault>
    requires live { IsSomeAnd (live_at parts.old.map 5) (λ live. is_live (cell_at parts.old.cells.cells live.cell) ≡ true) }
    requires named { (live : entry.Live) (image : Shared) → live_at parts.old.map 5 ≡ Some live
        → value_of (cell_at parts.old.cells.cells live.cell) ≡ Some image → has_id image.value.id (cell_at parts.old.cells.cells live.cell) ≡ true }
    requires none { begun_at parts.old.map 5 ≡ None }
    ensures open { IfOk result (λ job. (from : ℕ) × (cell : ℕ) × IsCopyIn job from cell parts.new.cells parts.new.map) }
    ensures slot { IfOk result (λ job. job.slot ≡ 5) }
    ensures cells { OnErr result (parts.new.cells ≡ parts.old.cells) }
    ensures map { OnErr result (parts.new.map ≡ parts.old.map) }
{
    assert!(rt; parts.cells.cell_of(2).is_none());
    assert!(rt; parts.cells.counts().pins < u64::MAX);
    begin(
        rt.alloc(),
        5,
        2,
        &parts.index,
        &mut parts.cells,
        &mut parts.map,
    )
}

// A shrink of slot 5 that has begun.
fn begun<R: Abort + AllocGlobal>(rt: &R) -> Result<(Parts, ShrinkJob), Fail>
    ensures open { IfOk result (λ b. (from : ℕ) × (cell : ℕ) × IsCopyIn b.1 from cell b.0.cells b.0.map) }
    ensures slot { IfOk result (λ b. b.1.slot ≡ 5) }
{
    let mut parts = stored_parts(rt, 864)?;
    match begin_shrink(rt, &mut parts) {
        Ok(job) => Ok((parts, job)),
        Err(_) => Err("refused")?,
    }
}

// The storage of slot 5 is in use no longer.
fn leave_use(parts: &mut Parts, job: &ShrinkJob)
    requires slot { job.now.slot ≡ 5 }
    requires open { (from : ℕ) × (cell : ℕ) × IsCopyIn job.now from cell parts.old.cells parts.old.map }
    ensures { (from : ℕ) × (cell : ℕ) × IsCopyIn job.now from cell parts.new.cells parts.new.map }
{
    let _ = job;
    parts.map.remove(5);
}

// Fills the copy, and ends the shrink.
fn fill_and_end<R: AllocGlobal>(rt: &R, parts: &mut Parts, job: ShrinkJob) -> Result<bool, Fail>
    requires { (from : ℕ) × (cell : ℕ) × IsCopyIn job from cell parts.old.cells parts.old.map }
{
    let accounts = job.accounts(rt.alloc())?;
    let filled = fill(rt, job.slot(), job.id(), &accounts, 1)?;
    let is_installed = end(
        job,
        filled.sealed,
        &filled.places,
        &mut parts.index,
        &mut parts.cells,
        &mut parts.map,
    );
    Ok(is_installed)
}

// Where the index finds a key in slot 5.
fn place_of(index: &AccountsIndex, first: u8) -> Option<Place> {
    let version = index.version(&key(first), 5)?;
    Some(version.place)
}

#[test]
fn a_copy_takes_the_place_of_its_storage(rt: HostRuntime) -> Result<(), Fail> {
    let (mut parts, job) = begun(&rt)?;
    assert_eq!(rt;
        (job.slot(), job.old(), job.id(), job.bytes()),
        (5, 1, 2, 288)
    );
    assert_eq!(rt; (parts.cells.used(), parts.cells.counts().pins), (864, 1));
    assert!(rt; fill_and_end(&rt, &mut parts, job)?);
    for (first, offset) in [(2, 0), (3, 144)] {
        let place = Some(Place::Stored { cell: 1, offset });
        assert_eq!(rt; place_of(&parts.index, first), place, "key {first}");
    }
    let live = Live {
        cell: 1,
        alive: 2,
        total: 2,
    };
    assert_eq!(rt; parts.map.live(5), Some(live));
    assert_eq!(rt; parts.cells.recycle(), 1);
    assert_eq!(rt; (parts.cells.used(), parts.cells.counts().pins), (288, 0));
    Ok(())
}

#[test]
fn a_copy_that_comes_too_late_goes(rt: HostRuntime) -> Result<(), Fail> {
    let (mut parts, job) = begun(&rt)?;
    leave_use(&mut parts, &job);
    assert!(rt; !fill_and_end(&rt, &mut parts, job)?);
    let place = Some(Place::Stored {
        cell: 0,
        offset: 288,
    });
    assert_eq!(rt; place_of(&parts.index, 2), place);
    assert_eq!(rt; (parts.cells.used(), parts.cells.counts().pins), (576, 0));
    Ok(())
}

#[test]
fn a_shrink_that_was_given_up_leaves_its_storage(rt: HostRuntime) -> Result<(), Fail> {
    let (mut parts, job) = begun(&rt)?;
    abort(job, &mut parts.cells, &mut parts.map);
    assert!(rt; parts.map.begun(5).is_none());
    assert_eq!(rt; parts.map.live(5).map(|live| live.cell), Some(0));
    assert_eq!(rt; (parts.cells.used(), parts.cells.counts().pins), (576, 0));
    Ok(())
}

#[test]
fn bytes_above_the_limit_are_refused(rt: HostRuntime) -> Result<(), Fail> {
    let mut parts = stored_parts(&rt, 863)?;
    let full = BeginFault::Full {
        used: 576,
        wanted: 288,
        limit: 863,
    };
    let wanted = copied_bytes(5, &parts.index, &parts.cells, &parts.map);
    assert_eq!(rt; wanted, 288);
    assert_eq!(rt; begin_shrink(&rt, &mut parts).err(), Some(full));
    assert!(rt; parts.map.begun(5).is_none());
    assert_eq!(rt; parts.cells.counts().pins, 0);
    Ok(())
}
