use crate::open_snapshot;
use dir_io::MemDir;
use std::alloc::{AllocError, Global};
use std::test::Fail;

// A manifest of these numbers, of eight bytes each; zeros stand behind them.
fn manifest(alloc: Global, numbers: &[u64]) -> Result<Vec<u8>, AllocError> {
    let mut bytes = Vec::new(alloc);
    for number in numbers {
        bytes.extend_from_slice(&number.to_le_bytes())?;
    }
    bytes.resize(240, 0)?;
    Ok(bytes)
}

// The numbers of a manifest of slot 9: three storages, of which this is the length of the second one.
fn numbers(len: u64) -> [u64; 15] {
    [3, 3, 1, 4, 136, 5, 1, 1, len, 8, 1, 6, 0, 0, 9]
}

// So many bytes, in which the first record has a byte of data.
fn image(alloc: Global, len: usize) -> Result<Vec<u8>, AllocError> {
    let mut bytes = vec![in alloc; 0; len]?;
    if let Some(place) = bytes.get_mut(8) {
        *place = 1;
    }
    Ok(bytes)
}

// The files of a snapshot `s` with this manifest. One file has other bytes, or is gone.
fn files(
    alloc: Global,
    numbers: &[u64],
    changed: &str,
    bytes: Option<&[u8]>,
) -> Result<Vec<(String, Vec<u8>)>, AllocError> {
    let first = vec![in alloc; 0; 136]?;
    let second = image(alloc, 137)?;
    let manifest = manifest(alloc, numbers)?;
    let mut files = Vec::new(alloc);
    if let Some(bytes) = bytes {
        files.push((String::from_str(alloc, changed)?, bytes.to_vec(alloc)?))?;
    }
    for (name, bytes) in [
        ("s/accounts/3.4", first.as_slice()),
        ("s/accounts/5.1", second.as_slice()),
        ("s/accounts/8.6", b"?".as_slice()),
        ("s/snapshots/9/9", manifest.as_slice()),
        ("s/version", b"1.2.0".as_slice()),
    ] {
        if name != changed {
            files.push((String::from_str(alloc, name)?, bytes.to_vec(alloc)?))?;
        }
    }
    Ok(files)
}

// The slot of the opened book, or the fault.
fn answer(alloc: Global, budget: u64, dir: &mut MemDir) -> Result<String, AllocError> {
    match open_snapshot(alloc, "s", budget, dir) {
        Ok((_, slot)) => slot.to_string(alloc),
        Err(fault) => fault.to_string(alloc),
    }
}

#[test]
fn the_first_fault_of_a_file_is_answered(rt: HostRuntime) -> Result<(), Fail> {
    let alloc = rt.alloc();
    let cut = b"\x03\0\0\0\0\0\0\0".as_slice();
    let long = image(alloc, 140)?;
    for (changed, bytes, wanted) in [
        ("s/version", None, "no-version"),
        ("s/version", Some(b"1.2".as_slice()), "bad-version"),
        ("s/snapshots/9/9", None, "no-manifest"),
        ("s/snapshots/9/9", Some(cut), "manifest cut 8"),
        ("s/snapshots/7/7", Some(cut), "many-manifests 2"),
        ("s/accounts/5.1", None, "no-file s/accounts/5.1"),
        ("s/accounts/5.2", Some(cut), "unknown-file s/accounts/5.2"),
        (
            "s/accounts/5.1",
            Some(cut),
            "layout s/accounts/5.1 short-file 8 137",
        ),
        (
            "s/accounts/3.4",
            Some(long.as_slice()),
            "layout s/accounts/3.4 data-cut 0 1",
        ),
        ("s/accounts/5.1", Some(long.as_slice()), "9"),
    ] {
        let mut dir = MemDir::new(
            files(alloc, &numbers(137), changed, bytes)?,
            Vec::new(alloc),
        );
        assert_eq!(rt;
            answer(alloc, 1000, &mut dir)?.as_str(),
            wanted,
            "{changed}"
        );
    }
    Ok(())
}

#[test]
fn lengths_are_looked_at_before_files(rt: HostRuntime) -> Result<(), Fail> {
    let alloc = rt.alloc();
    for (len, budget, wanted) in [
        (1 << 63, 1000, "full 136 9223372036854775808 1000"),
        (u64::MAX, 1000, "full 136 18446744073709551608 1000"),
        (137, 279, "full 136 144 279"),
        (137, 280, "9"),
        (0, 136, "9"),
        (8, 1000, "layout s/accounts/5.1 header-cut 0"),
    ] {
        let mut dir = MemDir::new(
            files(alloc, &numbers(len), "s/version", Some(b"1.2.0\n"))?,
            Vec::new(alloc),
        );
        assert_eq!(rt; answer(alloc, budget, &mut dir)?.as_str(), wanted, "{len}");
    }
    Ok(())
}

#[test]
fn what_a_manifest_says_is_checked(rt: HostRuntime) -> Result<(), Fail> {
    let alloc = rt.alloc();
    for (slot, count, snapshot, wanted) in [
        (8, 0, 9, "manifest storages 8 0"),
        (8, 2, 9, "manifest storages 8 2"),
        (5, 1, 9, "manifest slot-twice 5"),
        (8, 1, 8, "slot-mismatch 9 8"),
        (10, 1, 9, "slot-above 10 9"),
        (7, 1, 9, "no-file s/accounts/7.6"),
    ] {
        let numbers = [
            3, 3, 1, 4, 136, 5, 1, 1, 137, slot, count, 6, 0, 0, snapshot,
        ];
        let mut dir = MemDir::new(
            files(alloc, &numbers, "s/version", Some(b"1.2.0"))?,
            Vec::new(alloc),
        );
        assert_eq!(rt; answer(alloc, 1000, &mut dir)?.as_str(), wanted);
    }
    Ok(())
}

#[test]
fn each_call_of_a_directory_may_fail(rt: HostRuntime) -> Result<(), Fail> {
    let alloc = rt.alloc();
    for (call, len, wanted) in [
        (0, 137, "directory fault"),
        (1, 137, "directory fault"),
        (2, 137, "directory fault"),
        (3, 137, "directory fault"),
        (4, 137, "directory fault"),
        (5, 137, "directory fault"),
        // Each file is read before a fault of one is told.
        (5, 8, "directory fault"),
        (6, 8, "layout s/accounts/5.1 header-cut 0"),
        (6, 137, "9"),
    ] {
        let mut dir = MemDir::new(
            files(alloc, &numbers(len), "s/version", Some(b"1.2.0"))?,
            Vec::from_slice(alloc, &[call])?,
        );
        assert_eq!(rt;
            answer(alloc, 1000, &mut dir)?.as_str(),
            wanted,
            "call {call}"
        );
    }
    Ok(())
}
