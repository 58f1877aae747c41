ghost use Rattle.std.specs.Prelude.{◌≡◌, ◌+◌, ◌∷◌, [], ℕ, List, false, length, IfOk, OnOk};
ghost use Rattle.std.specs.List.Sorted.{IsStrictlyIncreasing};
ghost use Rattle.accounts_index.specs.Index.{kept};
ghost use Rattle.adb_model.specs.Lists.{among};
ghost use Rattle.book_parts.specs.Opening.{Indexes, distinct_keys};
ghost use Rattle.vec_scan.specs.Seal.{offsets_of, placed, rows_in};

use account_layout::Record;
use accounts_index::AccountsIndex;
use adb_model::Slot;
use cell_table::Cell;
use slot_list::{Place, Version, lookups_follow_edits};
use std::alloc::AllocError;
use vec_scan::Sealed;

/// Puts the rows of an image in a cell into the index, so that each key is found where its last row stands, and is
/// held. Says how many rows have the key of an earlier one.
pub fn index_rows(index: &mut AccountsIndex, cell: Cell, image: &Sealed) -> Result<u64, AllocError>
    requires { (k : List ℕ) → among image.now.slot (kept index.old k).held ≡ false }
    ensures index { OnOk result (Indexes image.now.slot cell image.now.rows index.old index.new) }
    ensures repeated { IfOk result (λ repeated. repeated + distinct_keys (rows_in image.now) ≡ length image.now.rows) }
    ensures places { IsStrictlyIncreasing (offsets_of image.now.rows) }
{
    let slot = image.slot();
    let mut repeated = 0;
    for offset in image.offsets() {
        let record = image.record_at(*offset);
        let was_held = index_row(index, slot, cell, *offset, &record)?;
        repeated += u64::from(was_held);
    }
    Ok(repeated)
}

// Puts a row into the index, and says whether its key was held in the slot already.
fn index_row(
    index: &mut AccountsIndex,
    slot: Slot,
    cell: Cell,
    offset: usize,
    found: &Record<'_>,
) -> Result<bool, AllocError>
    ensures index { OnOk result (Indexes slot cell (placed offset found.now ∷ []) index.old index.new) }
    ensures was { IfOk result (λ was. was ≡ among slot (kept index.old found.now.key.0).held) }
{
    lookups_follow_edits();
    let version = Version {
        slot,
        place: Place::Stored { cell, offset },
        tomb: found.head.lamports == 0,
    };
    index.put_held(&found.key, version)
}
