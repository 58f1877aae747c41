ghost use Rattle.std.specs.Prelude.{◌≡◌, ◌≤◌, ◌∷◌, replicate, IfOk};
ghost use Rattle.append_vec.specs.Filled.{KeysDiffer, rows_of};

use crate::{Filled, fill};
use adb_model::{Account, Key};
use std::alloc::Global;
use std::sync::Arc;
use std::test::Fail;

fn account(alloc: Global, data: usize) -> Result<Arc<Account>, Fail> {
    match Account::new(7, [0; 32], false, 0, vec![in alloc; 5; data]?) {
        Ok(account) => Ok(Arc::new(alloc, account)?),
        Err(_) => Err("the data is too long")?,
    }
}

fn key(first: u8) -> Key
    ensures { result.0 ≡ first ∷ replicate 31 0 }
{
    let mut bytes = [0; 32];
    bytes[0] = first;
    Key(bytes)
}

// So many accounts under keys that differ, each with so many bytes of data.
fn accounts(alloc: Global, count: u8, data: usize) -> Result<Vec<(Key, Arc<Account>)>, Fail>
    ensures { IfOk result (λ accounts. KeysDiffer (rows_of accounts.items)) }
{
    let mut accounts = Vec::new(alloc);
    for first in 0..count {
        accounts.push((key(first), account(alloc, data)?))?;
    }
    Ok(accounts)
}

// An image of storage 9 of slot 5.
fn filled(rt: &HostRuntime, count: u8, data: usize, workers: usize) -> Result<Filled, Fail>
    requires some_worker { 1 ≤ workers }
    requires few_workers { workers ≤ 16 }
{
    let accounts = accounts(rt.alloc(), count, data)?;
    Ok(fill(rt, 5, 9, &accounts, workers)?)
}

#[test]
fn accounts_stand_one_after_another(rt: HostRuntime) -> Result<(), Fail> {
    for (filled, count, size) in [
        (filled(&rt, 0, 0, 1)?, 0, 136),
        (filled(&rt, 200, 0, 1)?, 200, 136),
        (filled(&rt, 200, 0, 16)?, 200, 136),
        (filled(&rt, 3, 1, 2)?, 3, 144),
        (filled(&rt, 2, 10_485_760, 1)?, 2, 10_485_896),
    ] {
        let sealed = &filled.sealed;
        assert_eq!(rt; (sealed.slot(), sealed.id()), (5, 9));
        assert_eq!(rt; sealed.row_count(), count);
        assert_eq!(rt; sealed.bytes().len(), count.wrapping_mul(size));
        assert_eq!(rt; filled.places.len(), count);
        for (i, place) in filled.places.iter().enumerate() {
            assert_eq!(rt; *place, i.wrapping_mul(size), "account {i} of {count}");
        }
    }
    Ok(())
}
