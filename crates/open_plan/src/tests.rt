ghost use Rattle.std.specs.Prelude.{◌≡◌, ◌<◌, length, IfOk};

use crate::{Opened, RebuildFault, open};
use account_layout::{stored_size, write_record};
use adb_model::{Account, Key};
use cell_table::CellTable;
use slot_list::{Place, Version};
use std::alloc::Global;
use std::test::Fail;
use storage_map::Live;
use vec_scan::{Sealed, seal};

fn key(first: u8) -> Key {
    let mut bytes = [0; 32];
    bytes[0] = first;
    Key(bytes)
}

// Storage 1 of slot 5, in which the records of these keys and lamports stand, each of 136 bytes.
fn storage(alloc: Global, rows: &[(u8, u64)]) -> Result<Sealed, Fail>
    ensures slot { IfOk result (λ storage. storage.slot ≡ 5) }
    ensures id { IfOk result (λ storage. storage.id ≡ 1) }
    ensures some { IfOk result (λ storage. 0 < length storage.rows) }
{
    let mut bytes = Vec::new(alloc);
    for (first, lamports) in rows {
        let Ok(account) = Account::new(*lamports, [0; 32], false, 0, Vec::new(alloc)) else {
            return Err("too long")?;
        };
        if stored_size(&account) != 136 {
            return Err("another size")?;
        }
        let mut record = [0; 136];
        write_record(&key(*first), &account, &mut record);
        bytes.extend_from_slice(&record)?;
    }
    let len = bytes.len() as u64;
    let Ok(sealed) = seal(alloc, 5, 1, bytes, len) else {
        return Err("no image")?;
    };
    if sealed.row_count() == 0 {
        return Err("no rows")?;
    }
    Ok(sealed)
}

// The parts that are opened at slot 7 from a storage, with the further root 6.
fn opened(
    alloc: Global,
    budget: u64,
    rows: &[(u8, u64)],
) -> Result<Result<Opened, RebuildFault>, Fail> {
    let mut storages = Vec::new(alloc);
    storages.push(storage(alloc, rows)?)?;
    let cells = CellTable::new(alloc, budget, 1_048_576);
    Ok(open(alloc, 7, storages, &[6], cells))
}

#[test]
fn the_last_row_of_a_key_counts(rt: HostRuntime) -> Result<(), Fail> {
    let rows = [(1, 5), (2, 0), (1, 7)];
    let Ok(parts) = opened(rt.alloc(), 408, &rows)? else {
        return Err("refused")?;
    };
    let Some(
        Live {
            cell,
            alive: 2,
            total: 3,
        },
    ) = parts.map.live(5)
    else {
        return Err("other counts")?;
    };
    for (first, offset, tomb) in [(1, 272, false), (2, 136, true)] {
        let version = Version {
            slot: 5,
            place: Place::Stored { cell, offset },
            tomb,
        };
        assert_eq!(rt; parts.index.version(&key(first), 5), Some(version));
    }
    for (slot, is_root) in [(4, false), (5, true), (6, true), (7, true)] {
        assert_eq!(rt; parts.roots.contains(slot), is_root, "slot {slot}");
    }
    Ok(())
}

#[test]
fn a_storage_above_the_budget_is_refused(rt: HostRuntime) -> Result<(), Fail> {
    let fault = opened(rt.alloc(), 135, &[(1, 5)])?.err();
    let full = RebuildFault::Full {
        used: 0,
        wanted: 136,
        limit: 135,
    };
    assert_eq!(rt; fault, Some(full));
    Ok(())
}
