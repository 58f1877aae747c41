// A sealed image.
ghost use Rattle.std.specs.Prelude.{◌≡◌, ◌%◌, ◌⊎◌, List, Ok, IsSome, Some, IfOk, IfErr, MatchResult, IsErrAnd, EachIndex, length, slice_get, slice_index};
ghost use Rattle.std.specs.List.{All};
ghost use Rattle.std.specs.List.Sorted.{IsStrictlyIncreasing};
ghost use Rattle.adb_model.specs.State.{Row};
ghost use Rattle.account_layout.specs.Reading as reading;
ghost use Rattle.vec_scan.specs.Fault.{HasFault};
ghost use Rattle.vec_scan.specs.Image.{HasImage, IsImage, Placed};
ghost use Rattle.vec_scan.specs.Seal.{Seals, offsets_of, placed, row_at};
ghost use Rattle.vec_scan.specs.Written.{IsWritten, written_rows};

use crate::fault::LayoutFault;
use crate::scan::{gap_len, scan};
use account_layout::{Record, read_record, records_are_read, written_records_are_read};
use adb_model::Slot;
use std::alloc::Global;
use std::marker::Model;

/// The image of a storage, each record of which can be read. Contracts see it as the list of its rows with
/// their offsets, beside its bytes, its slot and its id.
#[derive(Drop)]
pub struct Sealed {
    slot: Slot,
    id: u64,
    bytes: Vec<u8>,
    offsets: Vec<usize>,
}

impl Model for Sealed {
    ghost use Rattle.vec_scan.specs.Image.{Image};

    ghost Value = { Image };

    ghost use Rattle.vec_scan.specs.Inside.{IsSealed, image_of};

    ghost view = { image_of };

    ghost invariant = { IsSealed };
}

/// Checks that the first `len` bytes of a file are an image of a storage, and keeps them with the offsets of
/// their records: one pass over the headers, in which no data is copied. Bytes past `len` are let go.
///
/// # Errors
/// `ShortFile` where the file has fewer than `len` bytes; else the fault of the first record that has one, or
/// `TailCut`; `NoMemory` where there was none for the offsets or the padding.
pub fn seal(
    alloc: Global,
    slot: Slot,
    id: u64,
    mut bytes: Vec<u8>,
    len: u64,
) -> Result<Sealed, LayoutFault>
    ensures sealed { IfOk result (Seals slot id bytes.items len) }
    ensures fault { IfErr result (λ fault. HasFault bytes.items len fault ⊎ (fault ≡ LayoutFault.NoMemory)) }

    // An image is sealed with its rows, and a fault is answered, unless memory is wanted.
    ensures only_image { (rows : List Placed)
        → HasImage bytes.items len rows
        → MatchResult result (λ image. image.rows ≡ rows) (λ fault. fault ≡ LayoutFault.NoMemory) }
    ensures only_fault { (fault : LayoutFault)
        → HasFault bytes.items len fault
        → IsErrAnd result (λ other. (other ≡ fault) ⊎ (other ≡ LayoutFault.NoMemory)) }
{
    let have = bytes.len() as u64;
    if have < len {
        return Err(LayoutFault::ShortFile { have, want: len });
    }
    let len = len as usize;
    bytes.truncate(len);
    let offsets = scan(alloc, &bytes)?;
    bytes.extend_from_slice(&[0; 8][..gap_len(len)])?;
    // The padding leaves each record as the scan read it.
    records_are_read();
    Ok(Sealed {
        slot,
        id,
        bytes,
        offsets,
    })
}

/// Seals an image that was written, with the offsets of its records, which its writer knows: no record is
/// read, and nothing is copied.
pub fn seal_written(slot: Slot, id: u64, bytes: Vec<u8>, offsets: Vec<usize>) -> Sealed
    requires { (rows : List Row) × IsWritten rows bytes.items offsets.items }
    ensures { (rows : List Row) → IsWritten rows bytes.items offsets.items
        → result ≡ record { slot = slot; id = id; bytes = bytes.items; rows = written_rows 0 rows } }
{
    written_records_are_read();
    records_are_read();
    Sealed {
        slot,
        id,
        bytes,
        offsets,
    }
}

impl Sealed {
    /// The slot whose accounts these are.
    pub fn slot(&self) -> Slot
        ensures { result ≡ self.now.slot }
    {
        self.slot
    }

    /// The storage's number.
    pub fn id(&self) -> u64
        ensures { result ≡ self.now.id }
    {
        self.id
    }

    /// The image, padded with zeros to a multiple of eight.
    pub fn bytes(&self) -> &[u8]
        ensures bytes { result.now ≡ self.now.bytes }
        ensures image { IsImage result.now self.now.rows }
        ensures aligned { length result.now % 8 ≡ 0 }
    {
        &self.bytes
    }

    /// How many rows the image has.
    pub fn row_count(&self) -> usize
        ensures { result ≡ length self.now.rows }
    {
        self.offsets.len()
    }

    /// The offsets of the records, in their order.
    pub fn offsets(&self) -> &[usize]
        ensures offsets { result.now ≡ offsets_of self.now.rows }
        ensures rise { IsStrictlyIncreasing result.now }

        // A record can be read at each of them, and the record at the i-th is that of the i-th row.
        ensures records { All (λ offset. IsSome (row_at self.now.rows offset)) result.now }
        ensures rows { EachIndex result.now (λ i. row_at self.now.rows (slice_index result.now i) ≡ slice_get self.now.rows i) }
    {
        &self.offsets
    }

    /// The record that starts at `offset`, read where it lies.
    pub fn record_at(&self, offset: usize) -> Record<'_>
        requires { IsSome (row_at self.now.rows offset) }
        ensures row { row_at self.now.rows offset ≡ Some (placed offset result) }
        ensures entry { reading.record_at self.now.bytes offset (length self.now.bytes) ≡ Ok (reading.entry_of result) }
    {
        match read_record(&self.bytes, offset, self.bytes.len()) {
            Ok(record) => record,
            Err(_) => unreachable!(),
        }
    }
}
