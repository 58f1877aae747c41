// Images, written anew.
ghost use Rattle.std.specs.Prelude.{◌≡◌, ◌≤◌, ◌++◌, length, IfOk, OnOk};
ghost use Rattle.std.specs.List.{AllByRecursion};
ghost use Rattle.account_layout.specs.Written.{IsWritable, written_record};
ghost use Rattle.adb_model.specs.Storages.{bytes_of};
ghost use Rattle.vec_scan.specs.Seal.{rows_in};
ghost use Rattle.vec_scan.specs.Written.{IsWritableRow, written_image};

use account_layout::{stored_size, write_record};
use adb_model::{Account, Key};
use std::alloc::{AllocError, Global};
use vec_scan::{Sealed, written_images_are_read};

// The records of an image's rows, each written anew, in the order of the rows.
pub(crate) fn write_image(alloc: Global, image: &Sealed) -> Result<Vec<u8>, AllocError>
    ensures written { IfOk result (λ bytes. bytes.items ≡ written_image (rows_in image.now)) }
    ensures len { IfOk result (λ bytes. length bytes.items ≡ bytes_of (rows_in image.now)) }
    ensures writable { OnOk result (AllByRecursion IsWritableRow (rows_in image.now)) }
{
    let mut bytes = Vec::with_capacity(alloc, image.bytes().len())?;
    for offset in image.offsets() {
        let record = image.record_at(*offset);
        push_record(&mut bytes, &record.key, &record.account(alloc)?)?;
    }
    written_images_are_read();
    Ok(bytes)
}

// Adds the record of a key and its account.
fn push_record(bytes: &mut Vec<u8>, key: &Key, account: &Account) -> Result<(), AllocError>
    requires { length account.now.bytes ≤ 10485760 }
    ensures written { OnOk result (bytes.new.items ≡ bytes.old.items ++ written_record key.now.0 account.now) }
    ensures writable { OnOk result (IsWritable key.now.0 account.now) }
{
    let start = bytes.len();
    let end = start + stored_size(account);
    bytes.resize(end, 0)?;
    write_record(key, account, &mut bytes[start..end]);
    Ok(())
}
