use crate::{FieldFault, FieldStorage, Fields, decode_fields, encode_fields};
use std::alloc::{AllocError, Global};
use std::test::Fail;

const MOST: u64 = u64::MAX;

// These numbers, of eight bytes each.
fn numbers(alloc: Global, list: &[u64]) -> Result<Vec<u8>, AllocError> {
    let mut bytes = Vec::new(alloc);
    for number in list {
        bytes.extend_from_slice(&number.to_le_bytes())?;
    }
    Ok(bytes)
}

// A manifest of slot 5 up to its sequences, with one storage of 280 bytes and id 1, and these numbers behind it.
fn manifest(alloc: Global, behind: &[u64]) -> Result<Vec<u8>, AllocError> {
    let mut bytes = numbers(alloc, &[1, 5, 1, 1, 280, 0, 5])?;
    bytes.extend_from_slice(&[0; 104])?;
    let rest = numbers(alloc, behind)?;
    bytes.extend_from_slice(&rest)?;
    Ok(bytes)
}

// The slot and the number of storages, or the fault.
fn read(alloc: Global, bytes: &[u8]) -> Result<(u64, usize), FieldFault> {
    let fields = decode_fields(alloc, bytes)?;
    Ok((fields.slot, fields.storages.len()))
}

#[test]
fn a_manifest_ends_with_its_last_sequence(rt: HostRuntime) -> Result<(), Fail> {
    for (len, wanted) in [
        (176, Ok((5, 1))),
        (168, Ok((5, 1))),
        (160, Ok((5, 1))),
        (159, Err(FieldFault::Cut { at: 56 })),
        (164, Err(FieldFault::Cut { at: 160 })),
        (175, Err(FieldFault::Cut { at: 168 })),
        (177, Err(FieldFault::Trailing { at: 176 })),
        (56, Err(FieldFault::Cut { at: 56 })),
        (47, Err(FieldFault::Cut { at: 40 })),
        (39, Err(FieldFault::Cut { at: 32 })),
        (8, Err(FieldFault::Cut { at: 8 })),
        (0, Err(FieldFault::Cut { at: 0 })),
    ] {
        let mut bytes = manifest(rt.alloc(), &[0, 0])?;
        bytes.push(0)?;
        bytes.truncate(len);
        assert_eq!(rt; read(rt.alloc(), &bytes), wanted, "{len} bytes");
    }
    Ok(())
}

#[test]
fn the_first_fault_of_a_map_comes_at_once(rt: HostRuntime) -> Result<(), Fail> {
    let twice = FieldFault::SlotTwice { slot: 5 };
    for (list, fault) in [
        ([2, 5, 1, 1, 280, 5, 1, 2, 8, 0], twice),
        ([2, 5, 1, 1, 280, 5, 2, 2, 8, 0], twice),
        ([3, 5, 1, 1, 280, 4, 1, 2, 8, 5], twice),
        (
            [1, 5, 2, 1, 280, 0, 0, 0, 0, 0],
            FieldFault::Storages { slot: 5, count: 2 },
        ),
        (
            [1, 5, 0, 1, 280, 0, 0, 0, 0, 0],
            FieldFault::Storages { slot: 5, count: 0 },
        ),
        (
            [2, 5, 1, 1, 280, 4, MOST, 2, 8, 5],
            FieldFault::Storages {
                slot: 4,
                count: MOST,
            },
        ),
        (
            [MOST, 5, 1, 1, 280, 0, 5, 0, 0, 0],
            FieldFault::Storages { slot: 0, count: 5 },
        ),
        (
            [MOST, 5, 1, 1, 280, 4, 1, 2, 8, 3],
            FieldFault::Cut { at: 80 },
        ),
    ] {
        let bytes = numbers(rt.alloc(), &list)?;
        assert_eq!(rt; read(rt.alloc(), &bytes), Err(fault));
    }
    Ok(())
}

#[test]
fn sequences_are_skipped_as_far_as_they_go(rt: HostRuntime) -> Result<(), Fail> {
    for (list, len, wanted) in [
        // Two numbers, and one pair.
        ([2, 7, 7, 1, 7, 7, 7, 7, 7], 232, Ok((5, 1))),
        ([2, 7, 7, 1, 7, 7, 7, 7, 7], 184, Ok((5, 1))),
        (
            [2, 7, 7, 1, 7, 7, 7, 7, 7],
            183,
            Err(FieldFault::Cut { at: 176 }),
        ),
        (
            [2, 7, 7, 1, 7, 7, 7, 7, 7],
            199,
            Err(FieldFault::Cut { at: 192 }),
        ),
        (
            [2, 7, 7, 1, 7, 7, 7, 7, 7],
            231,
            Err(FieldFault::Cut { at: 200 }),
        ),
        (
            [0, 0, 7, 7, 7, 7, 7, 7, 7],
            232,
            Err(FieldFault::Trailing { at: 176 }),
        ),
        (
            [MOST, 7, 7, 7, 7, 7, 7, 7, 7],
            232,
            Err(FieldFault::Cut { at: 232 }),
        ),
        (
            [0, MOST, 7, 7, 7, 7, 7, 7, 7],
            176,
            Err(FieldFault::Cut { at: 176 }),
        ),
        (
            [0, MOST, 7, 7, 7, 7, 7, 7, 7],
            232,
            Err(FieldFault::Cut { at: 224 }),
        ),
    ] {
        let mut bytes = manifest(rt.alloc(), &list)?;
        bytes.truncate(len);
        assert_eq!(rt; read(rt.alloc(), &bytes), wanted, "{len} bytes");
    }
    Ok(())
}

#[test]
fn slots_are_taken_in_any_order(rt: HostRuntime) -> Result<(), Fail> {
    let map = [3, 9, 1, 4, 8, 5, 1, 6, 0, 2, 1, 7, MOST, MOST, 11];
    let mut bytes = numbers(rt.alloc(), &map)?;
    bytes.extend_from_slice(&[9; 104])?;
    let fields = decode_fields(rt.alloc(), &bytes).ok().ok_or("no manifest")?;
    assert_eq!(rt; fields.slot, 11);
    assert_eq!(rt;
        fields.storages.as_slice(),
        [
            FieldStorage {
                slot: 2,
                id: 7,
                len: MOST
            },
            FieldStorage {
                slot: 5,
                id: 6,
                len: 0
            },
            FieldStorage {
                slot: 9,
                id: 4,
                len: 8
            },
        ]
        .as_slice()
    );
    Ok(())
}

#[test]
fn fields_are_written_in_one_form(rt: HostRuntime) -> Result<(), Fail> {
    let mut storages = Vec::new(rt.alloc());
    let empty = encode_fields(rt.alloc(), &Fields { slot: 7, storages })?;
    assert_eq!(rt; empty.len(), 144);
    assert_eq!(rt; read(rt.alloc(), &empty), Ok((7, 0)));
    storages = Vec::from_slice(
        rt.alloc(),
        &[FieldStorage {
            slot: 5,
            id: 1,
            len: 280,
        }],
    )?;
    let one = encode_fields(rt.alloc(), &Fields { slot: 5, storages })?;
    let wanted = manifest(rt.alloc(), &[0, 0])?;
    assert_eq!(rt; one.as_slice(), wanted.as_slice());
    Ok(())
}
