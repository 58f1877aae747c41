ghost use Rattle.std.specs.Prelude.{◌≡◌, ◌≤◌, map, All, IfOk};
ghost use Rattle.std.specs.List.Sorted.{IsStrictlyIncreasing};
ghost use Rattle.vec_scan.specs.Shown.{images_of};

use crate::write_snapshot;
use dir_io::{Dir, MemDir};
use field_codec::read_form;
use std::alloc::{AllocError, Global};
use std::sync::Arc;
use std::test::Fail;
use vec_scan::{Sealed, seal};

// So many bytes, which are zeros but for those at some places.
fn bytes(alloc: Global, len: usize, places: &[(usize, u8)]) -> Result<Vec<u8>, AllocError> {
    let mut bytes = vec![in alloc; 0; len]?;
    for (at, byte) in places {
        if let Some(place) = bytes.get_mut(*at) {
            *place = *byte;
        }
    }
    Ok(bytes)
}

// The storage of a slot with this file.
fn storage(alloc: Global, slot: u64, id: u64, file: Vec<u8>) -> Result<Arc<Sealed>, Fail>
    ensures { IfOk result (λ sealed. sealed.value.slot ≡ slot) }
{
    let len = file.len() as u64;
    match seal(alloc, slot, id, file, len) {
        Ok(sealed) => Ok(Arc::new(alloc, sealed)?),
        Err(_) => Err("no image")?,
    }
}

// The file of two accounts as a snapshot has it: 100 lamports under key 01, and under 02 what has something in each field.
fn accounts(alloc: Global) -> Result<Vec<u8>, AllocError> {
    let first = [(16, 1), (48, 100)];
    let mut file = bytes(alloc, 136, &first)?;
    let second = [
        (8, 1),
        (16, 2),
        (48, 7),
        (56, 3),
        (64, 0xaa),
        (96, 1),
        (136, 0xff),
    ];
    file.extend_from_slice(&bytes(alloc, 144, &second)?)?;
    Ok(file)
}

// The same two accounts in a file that has other bytes wherever readers skip.
fn unclean_accounts(alloc: Global) -> Result<Vec<u8>, AllocError> {
    let mut file = accounts(alloc)?;
    for at in [0, 97, 104, 136, 233, 275] {
        if let Some(place) = file.get_mut(at) {
            *place = 9;
        }
    }
    Ok(file)
}

// The storages of slot 3, with a deleted account whose record has an owner and data, of slot 5, with the two accounts, and
// of slot 8, without a row.
fn storages(alloc: Global) -> Result<Vec<Arc<Sealed>>, Fail>
    ensures rise { IfOk result (λ storages. IsStrictlyIncreasing (map (λ image. image.slot) (images_of storages.items))) }
    ensures upto { IfOk result (λ storages. All (λ image. image.slot ≤ 9) (images_of storages.items)) }
{
    let deleted = [(8, 2), (16, 1), (64, 8), (136, 9), (137, 9)];
    let mut storages = Vec::new(alloc);
    storages.push(storage(alloc, 3, 4, bytes(alloc, 144, &deleted)?)?)?;
    storages.push(storage(alloc, 5, 1, unclean_accounts(alloc)?)?)?;
    storages.push(storage(alloc, 8, 6, Vec::new(alloc))?)?;
    Ok(storages)
}

// A directory with a file of another snapshot, which fails at these calls.
fn directory(alloc: Global, failing: &[u64]) -> Result<MemDir, AllocError> {
    let mut files = Vec::new(alloc);
    files.push((
        String::from_str(alloc, "s/version")?,
        Vec::from_slice(alloc, b"1.2.0")?,
    ))?;
    Ok(MemDir::new(files, Vec::from_slice(alloc, failing)?))
}

// The bytes of a file.
fn read(dir: &mut MemDir, name: &str) -> Result<Vec<u8>, Fail> {
    match dir.read(name) {
        Ok(bytes) => Ok(bytes),
        Err(_) => Err("no such file")?,
    }
}

// How many files have names that begin so.
fn count(dir: &mut MemDir, prefix: &str) -> Result<usize, Fail> {
    match dir.list(prefix) {
        Ok(names) => Ok(names.len()),
        Err(_) => Err("no listing")?,
    }
}

#[test]
fn a_snapshot_has_its_bytes(rt: HostRuntime) -> Result<(), Fail> {
    let alloc = rt.alloc();
    let mut storages = Vec::new(alloc);
    storages.push(storage(alloc, 5, 1, unclean_accounts(alloc)?)?)?;
    let mut dir = directory(alloc, &[])?;
    assert!(rt; write_snapshot(alloc, "s1", 5, &storages, &mut dir).is_ok());
    assert_eq!(rt; count(&mut dir, "s1/")?, 3);
    assert_eq!(rt; read(&mut dir, "s1/accounts/5.1")?, accounts(alloc)?);
    let manifest = [(0, 1), (8, 5), (16, 1), (24, 1), (32, 24), (33, 1), (48, 5)];
    assert_eq!(rt;
        read(&mut dir, "s1/snapshots/5/5")?,
        bytes(alloc, 176, &manifest)?
    );
    assert_eq!(rt;
        read(&mut dir, "s1/version")?.as_slice(),
        b"1.2.0".as_slice()
    );
    Ok(())
}

#[test]
fn records_are_written_anew_by_rising_slot(rt: HostRuntime) -> Result<(), Fail> {
    let alloc = rt.alloc();
    let storages = storages(alloc)?;
    let mut dir = directory(alloc, &[])?;
    assert!(rt; write_snapshot(alloc, "s1", 9, &storages, &mut dir).is_ok());
    assert_eq!(rt;
        read(&mut dir, "s1/accounts/3.4")?,
        bytes(alloc, 136, &[(16, 1)])?
    );
    assert_eq!(rt; read(&mut dir, "s1/accounts/5.1")?, accounts(alloc)?);
    assert_eq!(rt; read(&mut dir, "s1/accounts/8.6")?.len(), 0);
    let form = match read_form(alloc, "s1", &mut dir) {
        Ok(form) => form,
        Err(fault) => return Err(fault.to_string(alloc)?)?,
    };
    let mut text = form.slot.to_string(alloc)?;
    for file in &form.files {
        let slot = file.slot;
        let len = file.len;
        let name = &file.name;
        text.push_str(&format!(in alloc; " {slot} {len} {name}")?)?;
    }
    let wanted = "9 3 136 s1/accounts/3.4 5 280 s1/accounts/5.1 8 0 s1/accounts/8.6";
    assert_eq!(rt; text.as_str(), wanted);
    Ok(())
}

#[test]
fn each_call_of_a_directory_may_fail(rt: HostRuntime) -> Result<(), Fail> {
    let alloc = rt.alloc();
    let storages = storages(alloc)?;
    for (call, wanted, files) in [
        (0, "directory fault", 0),
        (1, "directory fault", 0),
        (2, "directory fault", 1),
        (3, "directory fault", 2),
        (4, "directory fault", 3),
        (5, "directory fault", 4),
        (6, "directory fault", 5),
        (7, "ok", 5),
    ] {
        let mut dir = directory(alloc, &[call])?;
        let answer = match write_snapshot(alloc, "s1", 9, &storages, &mut dir) {
            Ok(()) => String::from_str(alloc, "ok")?,
            Err(fault) => fault.to_string(alloc)?,
        };
        assert_eq!(rt; answer.as_str(), wanted, "call {call}");
        if call < 7 {
            assert_eq!(rt; count(&mut dir, "s1/")?, files, "call {call}");
        }
    }
    Ok(())
}

#[test]
fn a_name_is_taken_once(rt: HostRuntime) -> Result<(), Fail> {
    let alloc = rt.alloc();
    let storages = storages(alloc)?;
    let mut dir = directory(alloc, &[])?;
    for (name, wanted) in [("s", "exists"), ("s1", "ok"), ("s1", "exists")] {
        let answer = match write_snapshot(alloc, name, 9, &storages, &mut dir) {
            Ok(()) => String::from_str(alloc, "ok")?,
            Err(fault) => fault.to_string(alloc)?,
        };
        assert_eq!(rt; answer.as_str(), wanted, "{name}");
    }
    Ok(())
}
