ghost use Rattle.std.specs.Prelude.{◌≡◌, IfOk, vec_len};

use crate::{RecordFault, read_record, stored_size, write_record};
use adb_model::{Account, Key};
use std::alloc::Global;
use std::test::Fail;

// The key whose first byte is 1.
const KEY: Key = Key([
    1, 0, 0, 0, 0, 0, 0, 0, 0, 0, 0, 0, 0, 0, 0, 0, 0, 0, 0, 0, 0, 0, 0, 0, 0, 0, 0, 0, 0, 0, 0, 0,
]);

fn account(alloc: Global, lamports: u64, data: &[u8]) -> Result<Account, Fail> {
    let bytes = Vec::from_slice(alloc, data)?;
    match Account::new(lamports, [0; 32], false, 0, bytes) {
        Ok(account) => Ok(account),
        Err(_) => Err("the data is too long")?,
    }
}

fn filled(alloc: Global, byte: u8, len: usize) -> Result<Vec<u8>, Fail>
    ensures { IfOk result (λ bytes. vec_len bytes ≡ len) }
{
    Ok(vec![in alloc; byte; len]?)
}

#[test]
fn a_record_is_written_byte_for_byte(rt: HostRuntime) -> Result<(), Fail> {
    let account = account(rt.alloc(), 100, &[0xaa])?;
    let mut bytes = filled(rt.alloc(), 0xff, stored_size(&account))?;
    write_record(&KEY, &account, &mut bytes);
    assert_eq!(rt; bytes.len(), 144);
    for (at, byte) in bytes.iter().enumerate() {
        let wanted = match at {
            8 | 16 => 1,
            48 => 0x64,
            136 => 0xaa,
            _ => 0,
        };
        assert_eq!(rt; *byte, wanted, "at {at}");
    }
    let record = read_record(&bytes, 0, 144).ok().ok_or("no record")?;
    assert_eq!(rt; record.end, 137);
    assert_eq!(rt; record.stored_size(), 144);
    assert_eq!(rt; record.key, KEY);
    let read = record.account(rt.alloc())?;
    assert_eq!(rt; read.head(), account.head());
    assert_eq!(rt; read.data(), [0xaa].as_slice());
    Ok(())
}

#[test]
fn sizes_are_rounded_to_eight(rt: HostRuntime) -> Result<(), Fail> {
    for (len, size) in [(0, 136), (1, 144), (8, 144), (10_485_760, 10_485_896)] {
        let data = filled(rt.alloc(), 7, len)?;
        assert_eq!(rt;
            stored_size(&account(rt.alloc(), 1, &data)?),
            size,
            "{len} bytes"
        );
    }
    Ok(())
}

#[test]
fn faults_come_in_their_order(rt: HostRuntime) -> Result<(), Fail> {
    let cut = |len| RecordFault::DataCut { at: 0, len };
    let mut bytes = filled(rt.alloc(), 0, 10_485_904)?;
    for (end, len, byte, fault) in [
        (135, u64::MAX, 2, RecordFault::HeaderCut { at: 0 }),
        (136, u64::MAX, 2, cut(u64::MAX)),
        (136, 1, 2, cut(1)),
        (144, 10_485_761, 2, cut(10_485_761)),
        (
            10_485_904,
            10_485_761,
            2,
            RecordFault::DataTooLong { len: 10_485_761 },
        ),
        (136, 0, 2, RecordFault::BadExecutable { at: 0, byte: 2 }),
    ] {
        le_fields::put_u64(&mut bytes, 8, len);
        bytes[96] = byte;
        assert_eq!(rt;
            read_record(&bytes, 0, end).err(),
            Some(fault),
            "{len} before {end}"
        );
    }
    Ok(())
}

#[test]
fn no_lamports_are_the_tomb(rt: HostRuntime) -> Result<(), Fail> {
    let mut bytes = [7; 144];
    bytes[96] = 1;
    le_fields::put_u64(&mut bytes, 8, 8);
    le_fields::put_u64(&mut bytes, 48, 0);
    let record = read_record(&bytes, 0, 144).ok().ok_or("no record")?;
    assert_eq!(rt; record.body, [7; 8].as_slice());
    assert_eq!(rt; record.stored_size(), 136);
    let tomb = account(rt.alloc(), 0, &[])?;
    let read = record.account(rt.alloc())?;
    assert_eq!(rt; read.head(), tomb.head());
    assert!(rt; read.data().is_empty());
    Ok(())
}
