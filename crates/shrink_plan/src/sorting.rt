// Which rows of an image a shrink copies.
ghost use Rattle.std.specs.Prelude.{◌≡◌, ◌+◌, ◌<◌, ◌^◌, ◌++◌, ◌∷◌, [], if◌then◌else◌, is_some, not, IfOk, OnOk};
ghost use Rattle.std.specs.List.Sorted.{IsStrictlyIncreasing};
ghost use Rattle.account_layout.specs.Reading.{fields_of};
ghost use Rattle.account_layout.specs.Record.{account_in};
ghost use Rattle.accounts_index.specs.Index.{kept};
ghost use Rattle.adb_model.specs.Account.{size};
ghost use Rattle.adb_model.specs.Storages.{bytes_of};
ghost use Rattle.append_vec.specs.Filled.{KeysDiffer};
ghost use Rattle.book_parts.specs.Shrinks.{copied_rows, dead_rows};
ghost use Rattle.slot_list.specs.Versions.{at};
ghost use Rattle.vec_scan.specs.Seal.{offsets_of};
ghost use Rattle.shrink_plan.specs.Places.{StandAt};
ghost use Rattle.shrink_plan.specs.Sources.{is_found_at};

use account_layout::Record;
use accounts_index::AccountsIndex;
use adb_model::Slot;
use cell_table::Cell;
use slot_list::{Place, Version};
use std::alloc::{AllocError, Global};
use vec_scan::Sealed;

/// The places of the rows that a shrink copies and of those whose keys it leaves out, and the bytes of the copy.
#[derive(Drop)]
pub struct SortedRows {
    pub copied: Vec<usize>,
    pub dead: Vec<usize>,
    pub bytes: u128,
}

/// Sorts the rows of an image in a cell by what the index finds of their keys in the slot: a row is copied where just
/// this row is found, and its key is left out where none is. An earlier row of a key that is found stays behind.
pub fn sort_rows(
    alloc: Global,
    slot: Slot,
    cell: Cell,
    image: &Sealed,
    index: &AccountsIndex,
) -> Result<SortedRows, AllocError>
    ensures copied { IfOk result (λ rows. StandAt image.now rows.copied.items (copied_rows index.now slot cell image.now)) }
    ensures dead { IfOk result (λ rows. StandAt image.now rows.dead.items (dead_rows index.now slot image.now)) }
    ensures bytes { IfOk result (λ rows. rows.bytes ≡ bytes_of (copied_rows index.now slot cell image.now)) }
    ensures differ { IfOk result (λ _. KeysDiffer (copied_rows index.now slot cell image.now)) }
    ensures places { IsStrictlyIncreasing (offsets_of image.now.rows) }
{
    let mut rows = SortedRows {
        copied: Vec::new(alloc),
        dead: Vec::new(alloc),
        bytes: 0,
    };
    for offset in image.offsets() {
        let record = image.record_at(*offset);
        let version = index.version(&record.key, slot);
        rows.put(version, cell, *offset, record.stored_size())?;
    }
    Ok(rows)
}

/// The bytes of the rows of an image in a cell that a shrink copies.
pub fn bytes_to_copy(slot: Slot, cell: Cell, image: &Sealed, index: &AccountsIndex) -> u128
    ensures bytes { result ≡ bytes_of (copied_rows index.now slot cell image.now) }
    ensures places { IsStrictlyIncreasing (offsets_of image.now.rows) }
{
    let mut bytes = 0;
    for offset in image.offsets() {
        let record = image.record_at(*offset);
        bytes += size_to_copy(slot, cell, *offset, &record, index) as u128;
    }
    bytes
}

// The bytes of a record where the index finds it in the slot, else none.
fn size_to_copy(
    slot: Slot,
    cell: Cell,
    offset: usize,
    found: &Record<'_>,
    index: &AccountsIndex,
) -> usize
    ensures { result ≡ (if is_found_at cell offset (at slot (kept index.now found.now.key.0).versions) then size (account_in (fields_of found.now)) else 0) }
{
    if is_found_at(index.version(&found.key, slot), cell, offset) {
        found.stored_size()
    } else {
        0
    }
}

impl SortedRows {
    // Puts a row of this size where it belongs, by the version that is found of its key.
    fn put(
        &mut self,
        version: Option<Version>,
        cell: Cell,
        offset: usize,
        size: usize,
    ) -> Result<(), AllocError>
        requires { self.old.bytes + size < 2 ^ 128 }
        ensures copied { OnOk result (self.new.copied.items
            ≡ (if is_found_at cell offset version then self.old.copied.items ++ offset ∷ [] else self.old.copied.items)) }
        ensures dead { OnOk result (self.new.dead.items
            ≡ (if not (is_some version) then self.old.dead.items ++ offset ∷ [] else self.old.dead.items)) }
        ensures bytes { OnOk result (self.new.bytes ≡ self.old.bytes + (if is_found_at cell offset version then size else 0)) }
    {
        if is_found_at(version, cell, offset) {
            self.copied.push(offset)?;
            self.bytes += size as u128;
            return Ok(());
        }
        if version.is_some() {
            return Ok(());
        }
        self.dead.push(offset)?;
        Ok(())
    }
}

// Whether a version is there, whose record stands at this place of this cell.
fn is_found_at(version: Option<Version>, cell: Cell, offset: usize) -> bool
    ensures { result ≡ is_found_at cell offset version }
{
    match version {
        Some(version) => version.place == Place::Stored { cell, offset },
        None => false,
    }
}
