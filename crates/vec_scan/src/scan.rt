// A scan of an image, record by record.
ghost use Rattle.std.specs.Prelude.{◌≡◌, ◌+◌, ◌%◌, ◌<◌, ◌≤◌, length, MatchResult};
ghost use Rattle.le_fields.specs.Fields.{rounded};
ghost use Rattle.vec_scan.specs.Forward.{Scans, Steps};
ghost use Rattle.vec_scan.specs.Gaps.{IsGapEnd};

use crate::fault::LayoutFault;
use account_layout::read_record;
use std::alloc::Global;

/// The offsets of the records of an image, or its first fault, in one pass over the headers.
pub fn scan(alloc: Global, image: &[u8]) -> Result<Vec<usize>, LayoutFault>
    ensures { Scans image.now result }
{
    let mut offsets = Vec::new(alloc);
    let mut at = 0;
    while at < image.len() {
        let next = row_end(image, at)?;
        offsets.push(at)?;
        at = next;
    }
    Ok(offsets)
}

// Where the row at a place ends: its record, and the gap behind it.
fn row_end(image: &[u8], at: usize) -> Result<usize, LayoutFault>
    requires inside { at < length image.now }
    requires aligned { at % 8 ≡ 0 }
    ensures { Steps image.now at result }
{
    let record = read_record(image, at, image.len())?;
    gap_end(record.end, image.len())
}

// Where the gap behind a record ends: at a multiple of eight, or with the record at the image's end.
fn gap_end(end: usize, len: usize) -> Result<usize, LayoutFault>
    requires { end ≤ len }
    ensures { MatchResult result (IsGapEnd end len)
        (λ fault. (fault ≡ LayoutFault.TailCut end len) × (end < len) × (len < rounded end)) }
{
    let gap = gap_len(end);
    if end == len {
        return Ok(len);
    }
    if len - end < gap {
        return Err(LayoutFault::TailCut {
            at: end,
            len: len as u64,
        });
    }
    Ok(end + gap)
}

/// How many bytes stand from a place up to a multiple of eight.
pub fn gap_len(place: usize) -> usize
    ensures { place + result ≡ rounded place }
{
    (8 - place % 8) % 8
}
