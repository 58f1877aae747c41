ghost use Rattle.std.specs.Prelude.{◌≡◌, IfOk, vec_len};

use crate::{LayoutFault, seal};
use le_fields::put_u64;
use std::alloc::Global;
use std::test::Fail;

fn zeros(alloc: Global, len: usize) -> Result<Vec<u8>, Fail>
    ensures { IfOk result (λ bytes. vec_len bytes ≡ len) }
{
    Ok(vec![in alloc; 0; len]?)
}

// A record of key 01 with 100 lamports and the data `aa`, which ends at 137, and zeros behind it.
fn one_record(alloc: Global) -> Result<Vec<u8>, Fail>
    ensures { IfOk result (λ bytes. vec_len bytes ≡ 200) }
{
    let mut bytes = zeros(alloc, 200)?;
    bytes[8] = 1;
    bytes[16] = 1;
    bytes[48] = 100;
    bytes[136] = 0xaa;
    Ok(bytes)
}

#[test]
fn images_end_where_their_last_record_does(rt: HostRuntime) -> Result<(), Fail> {
    let short = LayoutFault::ShortFile {
        have: 143,
        want: 144,
    };
    for (have, executable, len, wanted) in [
        (144, 0, 137, Ok(1)),
        (144, 0, 144, Ok(1)),
        (144, 0, 0, Ok(0)),
        (144, 0, 140, Err(LayoutFault::TailCut { at: 137, len: 140 })),
        (144, 0, 136, Err(LayoutFault::DataCut { at: 0, len: 1 })),
        (144, 0, 100, Err(LayoutFault::HeaderCut { at: 0 })),
        (143, 0, 144, Err(short)),
        (
            144,
            2,
            144,
            Err(LayoutFault::BadExecutable { at: 0, byte: 2 }),
        ),
        (200, 0, 144, Ok(1)),
        (145, 0, 145, Err(LayoutFault::HeaderCut { at: 144 })),
    ] {
        let mut file = one_record(rt.alloc())?;
        file[96] = executable;
        file.truncate(have);
        let rows = seal(rt.alloc(), 5, 1, file, len).map(|image| image.row_count());
        assert_eq!(rt; rows, wanted, "{len} of {have} bytes");
    }
    Ok(())
}

#[test]
fn an_image_is_padded_with_zeros(rt: HostRuntime) -> Result<(), Fail> {
    let mut file = one_record(rt.alloc())?;
    file[137] = 7;
    let image = seal(rt.alloc(), 5, 9, file, 137).ok().ok_or("no image")?;
    assert_eq!(rt; (image.slot(), image.id()), (5, 9));
    assert_eq!(rt; image.bytes().len(), 144);
    assert!(rt; image.bytes()[137..].iter().all(|byte| *byte == 0));
    Ok(())
}

#[test]
fn rows_come_by_their_offsets(rt: HostRuntime) -> Result<(), Fail> {
    let mut file = zeros(rt.alloc(), 416)?;
    put_u64(&mut file, 48, 1);
    put_u64(&mut file, 136 + 48, 2);
    put_u64(&mut file, 272 + 8, 3);
    put_u64(&mut file, 272 + 48, 3);
    let image = seal(rt.alloc(), 1, 1, file, 416).ok().ok_or("no image")?;
    assert_eq!(rt; image.row_count(), 3);
    let mut found = Vec::new(rt.alloc());
    for offset in image.offsets() {
        found.push((*offset, image.record_at(*offset).head.lamports))?;
    }
    assert_eq!(rt; found.as_slice(), [(0, 1), (136, 2), (272, 3)].as_slice());
    Ok(())
}

#[test]
fn data_has_a_greatest_length(rt: HostRuntime) -> Result<(), Fail> {
    for (data, wanted) in [
        (10_485_760, Ok(1)),
        (
            10_485_761,
            Err(LayoutFault::DataTooLong { len: 10_485_761 }),
        ),
    ] {
        let mut file = zeros(rt.alloc(), 10_485_904)?;
        put_u64(&mut file, 8, data);
        let rows = seal(rt.alloc(), 5, 1, file, 136 + data).map(|image| image.row_count());
        assert_eq!(rt; rows, wanted, "{data} bytes of data");
    }
    Ok(())
}
