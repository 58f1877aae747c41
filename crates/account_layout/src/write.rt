// Writing a record.
ghost use Rattle.std.specs.Prelude.{◌≡◌, length};
ghost use Rattle.adb_model.specs.Account.{size};
ghost use Rattle.account_layout.specs.Record.{header_bytes};
ghost use Rattle.account_layout.specs.Written.{IsWritable, written_record, zeroed};

use crate::record::{
    EXECUTABLE_AT, HEADER_LEN, KEY_AT, LAMPORTS_AT, LEN_AT, OWNER_AT, RENT_EPOCH_AT,
};
use adb_model::{Account, Key};
use le_fields::{align8, put_u64};

/// How many bytes the written record of an account takes: 136 and its data, rounded up to a multiple of
/// eight.
pub fn stored_size(account: &Account) -> usize
    ensures { result ≡ size account.now }
{
    align8((HEADER_LEN + account.data().len()) as u64) as usize
}

/// Writes the record of a key and its account over a slice of [`stored_size`] bytes. Zeros stand wherever
/// readers skip, and after the data; each key and account has this one written form.
pub fn write_record(key: &Key, account: &Account, into: &mut [u8])
    requires { length into.old ≡ size account.now }
    ensures written { into.new ≡ written_record key.now.0 account.now }
    ensures writable { IsWritable key.now.0 account.now }
{
    let data = account.data();
    let (header, rest) = into.split_at_mut(HEADER_LEN);
    let (body, gap) = rest.split_at_mut(data.len());
    write_header(key, account, header);
    body.copy_from_slice(data);
    gap.fill(0);
}

// Writes all of a record that stands before its data.
fn write_header(key: &Key, account: &Account, into: &mut [u8])
    requires { length into.old ≡ 136 }
    ensures written { into.new ≡ header_bytes zeroed key.now.0 account.now }
    ensures writable { IsWritable key.now.0 account.now }
{
    let head = account.head();
    into.fill(0);
    put_u64(into, LEN_AT, account.data().len() as u64);
    into[KEY_AT..KEY_AT + 32].copy_from_slice(&key.0);
    put_u64(into, LAMPORTS_AT, head.lamports);
    put_u64(into, RENT_EPOCH_AT, head.rent_epoch);
    into[OWNER_AT..OWNER_AT + 32].copy_from_slice(&head.owner);
    into[EXECUTABLE_AT] = u8::from(head.executable);
}
