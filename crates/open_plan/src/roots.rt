ghost use Rattle.std.specs.Prelude.{◌≡◌, map, IfOk};
ghost use Rattle.adb_model.specs.Opened.{opened_roots};
ghost use Rattle.vec_scan.specs.Shown.{stored};

use adb_model::Slot;
use std::alloc::{AllocError, Global};
use vec_scan::Sealed;
use view_sets::RootSet;

/// The roots of a book that is opened at a slot: the slots of its storages, the further ones, and the slot itself.
pub fn roots_of(
    alloc: Global,
    slot: Slot,
    storages: &[Sealed],
    more_roots: &[Slot],
) -> Result<RootSet, AllocError>
    ensures { IfOk result (λ roots. roots ≡ opened_roots slot (map stored storages.now) more_roots.now) }
{
    let mut slots = Vec::new(alloc);
    for storage in storages {
        slots.push(storage.slot())?;
    }
    slots.extend_from_slice(more_roots)?;
    slots.push(slot)?;
    Ok(RootSet::of(slots))
}
