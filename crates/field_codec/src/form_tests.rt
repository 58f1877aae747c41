use crate::read_form;
use dir_io::MemDir;
use std::alloc::{AllocError, Global};
use std::test::Fail;

// These numbers, of eight bytes each, and zeros behind them up to a manifest's length for one slot.
fn manifest(alloc: Global, numbers: &[u64]) -> Result<Vec<u8>, AllocError> {
    let mut bytes = Vec::new(alloc);
    for number in numbers {
        bytes.extend_from_slice(&number.to_le_bytes())?;
    }
    bytes.resize(176, 0)?;
    Ok(bytes)
}

// The files of a snapshot `s` of slot 5 with one storage, and of another one. One file has other bytes, or is gone.
fn files(
    alloc: Global,
    changed: &str,
    bytes: Option<&[u8]>,
) -> Result<Vec<(String, Vec<u8>)>, AllocError> {
    let one = manifest(alloc, &[1, 5, 1, 1, 280, 0, 5])?;
    let mut files = Vec::new(alloc);
    if let Some(bytes) = bytes {
        files.push((String::from_str(alloc, changed)?, bytes.to_vec(alloc)?))?;
    }
    for (name, bytes) in [
        ("s/accounts/5.1", b"".as_slice()),
        ("s/snapshots/5/5", one.as_slice()),
        ("s/snapshots/status_cache", b"?".as_slice()),
        ("s/version", b"1.2.0".as_slice()),
        ("s2/version", b"1.2.0".as_slice()),
    ] {
        if name != changed {
            files.push((String::from_str(alloc, name)?, bytes.to_vec(alloc)?))?;
        }
    }
    Ok(files)
}

// The slot and the storages' files in words, or the fault.
fn answer(alloc: Global, dir: &mut MemDir) -> Result<String, AllocError> {
    let form = match read_form(alloc, "s", dir) {
        Ok(form) => form,
        Err(fault) => return fault.to_string(alloc),
    };
    let mut text = form.slot.to_string(alloc)?;
    for file in &form.files {
        let slot = file.slot;
        let len = file.len;
        let name = &file.name;
        text.push_str(&format!(in alloc; " {slot} {len} {name}")?)?;
    }
    Ok(text)
}

#[test]
fn the_first_fault_of_a_directory_is_answered(rt: HostRuntime) -> Result<(), Fail> {
    let alloc = rt.alloc();
    let ok = "5 5 280 s/accounts/5.1";
    let other = manifest(alloc, &[1, 5, 1, 1, 280, 0, 6])?;
    let above = manifest(alloc, &[1, 7, 1, 1, 280, 0, 5])?;
    let twice = manifest(alloc, &[2, 5, 1, 1, 280, 5, 1])?;
    let two = manifest(alloc, &[1, 5, 2, 1, 280, 0, 5])?;
    let moved = manifest(alloc, &[1, 5, 1, 2, 280, 0, 5])?;
    let empty = Some(b"".as_slice());
    for (name, bytes, wanted) in [
        ("t", empty, ok),
        ("s/version", None, "no-version"),
        ("s/version", Some(b"1.2.1".as_slice()), "bad-version"),
        ("s/version", Some(b"1.2.0\n\n".as_slice()), "bad-version"),
        ("s/version", Some(b"1.2.0\n".as_slice()), ok),
        ("s/snapshots/5/5", None, "no-manifest"),
        ("s/snapshots/4/4", empty, "many-manifests 2"),
        ("s/snapshots/5/5", empty, "manifest cut 0"),
        (
            "s/snapshots/5/5",
            Some(twice.as_slice()),
            "manifest slot-twice 5",
        ),
        (
            "s/snapshots/5/5",
            Some(two.as_slice()),
            "manifest storages 5 2",
        ),
        (
            "s/snapshots/5/5",
            Some(other.as_slice()),
            "slot-mismatch 5 6",
        ),
        ("s/snapshots/5/5", Some(above.as_slice()), "slot-above 7 5"),
        ("s/accounts/5.1", None, "no-file s/accounts/5.1"),
        (
            "s/snapshots/5/5",
            Some(moved.as_slice()),
            "no-file s/accounts/5.2",
        ),
        ("s/accounts/5.2", empty, "unknown-file s/accounts/5.2"),
        ("s/snapshots/05/05", empty, "unknown-file s/snapshots/05/05"),
        ("s/", empty, "unknown-file s/"),
        (
            "s/snapshots/18446744073709551616/18446744073709551616",
            empty,
            "unknown-file s/snapshots/18446744073709551616/18446744073709551616",
        ),
    ] {
        let mut dir = MemDir::new(files(alloc, name, bytes)?, Vec::new(alloc));
        let found = answer(alloc, &mut dir)?;
        assert_eq!(rt; found.as_str(), wanted, "{name}");
    }
    Ok(())
}

#[test]
fn each_call_of_a_directory_may_fail(rt: HostRuntime) -> Result<(), Fail> {
    let alloc = rt.alloc();
    for (call, wanted) in [
        (0, "directory fault"),
        (1, "directory fault"),
        (2, "directory fault"),
        (3, "5 5 280 s/accounts/5.1"),
    ] {
        let failing = Vec::from_slice(alloc, &[call])?;
        let mut dir = MemDir::new(files(alloc, "t", None)?, failing);
        let found = answer(alloc, &mut dir)?;
        assert_eq!(rt; found.as_str(), wanted, "call {call}");
    }
    Ok(())
}
