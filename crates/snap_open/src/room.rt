// Room for the storages of a snapshot.
ghost use Rattle.std.specs.Prelude.{◌≡◌, IfErr, OnOk, map};
ghost use Rattle.open_plan.specs.Causes.{IsWhyNotRebuilt};
ghost use Rattle.field_codec.specs.FormFaults.{file_seen};
ghost use Rattle.snap_open.specs.Sizes as sizes;
ghost use Rattle.snap_open.specs.Sizes.{HasRoom, sizes_in};

use book::{MAX_STORAGES, RebuildFault};
use field_codec::FormFile;
use le_fields::align8;

// The greatest length that rounded up has room in eight bytes.
const MAX_LEN: u64 = u64::MAX - 7;

// Each storage has a cell and room in the budget, by rising slot.
pub(crate) fn check_room(budget: u64, files: &[FormFile]) -> Result<(), RebuildFault>
    ensures room { OnOk result (HasRoom budget (sizes_in (map file_seen files.now))) }
    ensures refused { IfErr result (IsWhyNotRebuilt budget (sizes_in (map file_seen files.now))) }
{
    let mut used = 0;
    let mut cells = 0;
    for file in files {
        if file.len == 0 {
            continue;
        }
        let wanted = size_of(file.len);
        if budget - used < wanted {
            return Err(RebuildFault::Full {
                used,
                wanted: u128::from(wanted),
                limit: budget,
            });
        }
        if cells == MAX_STORAGES {
            return Err(RebuildFault::NoCell {
                limit: MAX_STORAGES as u64,
            });
        }
        used += wanted;
        cells += 1;
    }
    Ok(())
}

// How many bytes an image of this length takes.
fn size_of(len: u64) -> u64
    ensures { result ≡ sizes.size_of len }
{
    align8(len.min(MAX_LEN))
}
