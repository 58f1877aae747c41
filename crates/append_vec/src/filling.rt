// Filling an image.
ghost use Rattle.std.specs.Prelude.{◌≡◌, ◌+◌, ◌≤◌, ◌<◌, ◌^◌, ◌++◌, length, take, IfOk, IsErr, MatchOption};
ghost use Rattle.adb_model.specs.Account.{size};
ghost use Rattle.account_layout.specs.Written.{IsWritable, written_record};
ghost use Rattle.vec_scan.specs.Written.{IsWritten};
ghost use Rattle.append_vec.specs.Filled.{Fills, InOrder, KeysDiffer, rows_of, total_size};

use account_layout::{stored_size, write_record};
use adb_model::{Account, Key, Slot};
use std::alloc::{AllocError, Global};
use std::sync::Arc;
use vec_scan::{Sealed, seal_written};

// The most bytes that an image has.
const MAX_IMAGE_LEN: usize = (1 << 63) - 1;

/// A sealed image, and where the record of each account starts in it.
#[derive(Drop)]
pub struct Filled {
    pub sealed: Arc<Sealed>,

    /// The place of each account's record, in the order in which the accounts were given.
    pub places: Vec<usize>,
}

/// Writes accounts into the image of a storage, each record once into its place, and seals it.
///
/// With one worker the records stand in the accounts' order. With more they may stand in any; today the caller
/// does all the work, and keeps that order too.
///
/// # Errors
/// `AllocError` where memory is wanted, and where the records have 2^63 bytes or more.
pub fn fill<R: AllocGlobal>(
    rt: &R,
    slot: Slot,
    id: u64,
    accounts: &[(Key, Arc<Account>)],
    workers: usize,
) -> Result<Filled, AllocError>
    requires differ { KeysDiffer (rows_of accounts.now) }
    requires some_worker { 1 ≤ workers }
    requires few_workers { workers ≤ 16 }
    ensures filled { IfOk result (λ filled. Fills slot id (rows_of accounts.now) filled.sealed.value filled.places.items) }
    ensures order { workers ≡ 1 → IfOk result (λ filled. InOrder (rows_of accounts.now) filled.sealed.value filled.places.items) }
    ensures too_large { 2 ^ 63 ≤ total_size (rows_of accounts.now) → IsErr result }
{
    let alloc = rt.alloc();
    let Some(len) = image_len(accounts) else {
        return Err(AllocError);
    };
    let (bytes, places) = write_all(alloc, accounts, len)?;
    let offsets = Vec::from_slice(alloc, &places)?;
    let sealed = Arc::new(alloc, seal_written(slot, id, bytes, offsets))?;
    Ok(Filled { sealed, places })
}

// How many bytes the records of accounts take, unless an image can't have so many.
fn image_len(accounts: &[(Key, Arc<Account>)]) -> Option<usize>
    ensures { MatchOption result (2 ^ 63 ≤ total_size (rows_of accounts.now))
        (λ len. (len ≡ total_size (rows_of accounts.now)) × (len < 2 ^ 63)) }
{
    let mut len = 0;
    for (_, account) in accounts {
        let size = stored_size(account);
        if size > MAX_IMAGE_LEN - len {
            return None;
        }
        len += size;
    }
    Some(len)
}

// The records of accounts, one after another, and the places at which they start.
fn write_all(
    alloc: Global,
    accounts: &[(Key, Arc<Account>)],
    len: usize,
) -> Result<(Vec<u8>, Vec<usize>), AllocError>
    requires { len ≡ total_size (rows_of accounts.now) }
    ensures { IfOk result (λ written. IsWritten (rows_of accounts.now) written.0.items written.1.items) }
{
    let mut bytes = vec![in alloc; 0; len]?;
    let mut places = Vec::with_capacity(alloc, accounts.len())?;
    let mut at = 0;
    for (key, account) in accounts {
        places.push(at)?;
        at = write_at(&mut bytes, at, key, account);
    }
    Ok((bytes, places))
}

// Writes a record into its place, and says where it ends.
fn write_at(bytes: &mut [u8], at: usize, key: &Key, account: &Account) -> usize
    requires { at + size account.now ≤ length bytes.old }
    ensures end { result ≡ at + size account.now }
    ensures front { take result bytes.new ≡ take at bytes.old ++ written_record key.now.0 account.now }
    ensures writable { IsWritable key.now.0 account.now }
{
    let end = at + stored_size(account);
    write_record(key, account, &mut bytes[at..end]);
    end
}
