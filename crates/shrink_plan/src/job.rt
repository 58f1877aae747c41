ghost use Rattle.std.specs.Prelude.{◌≡◌, length, IfOk};
ghost use Rattle.append_vec.specs.Filled.{KeysDiffer, rows_of};
ghost use Rattle.book_parts.specs.Reclaims.{Unholds};
ghost use Rattle.shrink_plan.specs.Moving.{FindsAt};
ghost use Rattle.shrink_plan.specs.Places.{AreRows, rows_at};

use crate::moving::{rehome_rows, unhold_rows};
use accounts_index::AccountsIndex;
use adb_model::{Account, Key, Slot};
use cell_table::Cell;
use std::alloc::{AllocError, Global};
use std::marker::Model;
use std::sync::Arc;
use vec_scan::Sealed;

/// A shrink that has begun.
///
/// Contracts see its slot, the ids of the old storage and of the copy, the bytes and the rows of the copy, and rows
/// of the keys that it leaves out.
#[derive(Drop)]
pub struct ShrinkJob {
    slot: Slot,
    id: u64,
    bytes: u64,
    /// The old storage's.
    image: Arc<Sealed>,
    /// Where the rows stand in it that are copied, and those whose keys are left out.
    copied: Vec<usize>,
    dead: Vec<usize>,
}

impl Model for ShrinkJob {
    ghost use Rattle.append_vec.specs.Filled.{KeysDiffer};
    ghost use Rattle.book_parts.specs.Shrinks.{Copy};
    ghost use Rattle.shrink_plan.specs.Places.{AreRows, rows_at};

    ghost Value = { Copy };

    ghost view = { λ j. record {
      slot = j.slot;
      old = j.image.value.id;
      id = j.id;
      bytes = j.bytes;
      rows = rows_at j.image.value j.copied.items;
      dead = rows_at j.image.value j.dead.items;
    } };

    ghost invariant = { λ j.
        AreRows j.image.value j.copied.items × AreRows j.image.value j.dead.items × KeysDiffer (rows_at j.image.value j.copied.items) };
}

impl ShrinkJob {
    pub(crate) fn new(
        slot: Slot,
        id: u64,
        bytes: u64,
        image: Arc<Sealed>,
        copied: Vec<usize>,
        dead: Vec<usize>,
    ) -> ShrinkJob
        requires copied { AreRows image.value copied.items }
        requires dead { AreRows image.value dead.items }
        requires differ { KeysDiffer (rows_at image.value copied.items) }
        ensures { result ≡ record {
          slot = slot;
          old = image.value.id;
          id = id;
          bytes = bytes;
          rows = rows_at image.value copied.items;
          dead = rows_at image.value dead.items;
        } }
    {
        ShrinkJob {
            slot,
            id,
            bytes,
            image,
            copied,
            dead,
        }
    }

    /// The slot whose storage is copied.
    pub fn slot(&self) -> Slot
        ensures { result ≡ self.now.slot }
    {
        self.slot
    }

    /// The id of the storage that is copied.
    pub fn old(&self) -> u64
        ensures { result ≡ self.now.old }
    {
        self.image.id()
    }

    /// The id of the copy.
    pub fn id(&self) -> u64
        ensures { result ≡ self.now.id }
    {
        self.id
    }

    /// The bytes that the records of the copy take.
    pub fn bytes(&self) -> u64
        ensures { result ≡ self.now.bytes }
    {
        self.bytes
    }

    /// The accounts that the copy is filled with, read from the old storage, in the order in which they stand there.
    pub fn accounts(&self, alloc: Global) -> Result<Vec<(Key, Arc<Account>)>, AllocError>
        ensures rows { IfOk result (λ accounts. rows_of accounts.items ≡ self.now.rows) }
        ensures differ { IfOk result (λ accounts. KeysDiffer (rows_of accounts.items)) }
    {
        read_accounts(alloc, &self.image, &self.copied)
    }

    /// Finds the versions of the rows that are there still at their places in the cell.
    pub(crate) fn rehome_rows(&self, index: &mut AccountsIndex, cell: Cell, places: &[usize])
        requires { length places.now ≡ length self.now.rows }
        ensures { FindsAt self.now.slot cell self.now.rows places.now index.old index.new }
    {
        rehome_rows(index, self.slot, &self.image, &self.copied, cell, places);
    }

    /// Holds the keys that are left out in the slot no longer.
    pub(crate) fn unhold_dead(&self, index: &mut AccountsIndex)
        ensures { Unholds self.now.slot self.now.dead index.old index.new }
    {
        unhold_rows(index, self.slot, &self.image, &self.dead);
    }
}

// The accounts of the rows at some places of an image.
fn read_accounts(
    alloc: Global,
    image: &Sealed,
    offsets: &[usize],
) -> Result<Vec<(Key, Arc<Account>)>, AllocError>
    requires { AreRows image.now offsets.now }
    ensures { IfOk result (λ accounts. rows_of accounts.items ≡ rows_at image.now offsets.now) }
{
    let mut accounts = Vec::with_capacity(alloc, offsets.len())?;
    for offset in offsets {
        let record = image.record_at(*offset);
        let account = Arc::new(alloc, record.account(alloc)?)?;
        accounts.push((record.key, account))?;
    }
    Ok(accounts)
}
