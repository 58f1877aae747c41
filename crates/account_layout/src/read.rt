// Reading a record.
ghost use Rattle.std.specs.Prelude.{◌≡◌, ◌+◌, ◌%◌, ◌≤◌, length, slice_range, ℕ, IfOk, IsOkAnd, List};
ghost use Rattle.adb_model.specs.Account as machine;
ghost use Rattle.le_fields.specs.Fields.{number_at};
ghost use Rattle.account_layout.specs.Record.{HasFields};
ghost use Rattle.account_layout.specs.Reading.{Gives, entry_at, entry_of, fields_of, record_at};

use crate::record::{
    EXECUTABLE_AT, HEADER_LEN, KEY_AT, LAMPORTS_AT, LEN_AT, OWNER_AT, RENT_EPOCH_AT, Record,
    RecordFault,
};
use adb_model::{Head, Key, MAX_DATA_LEN};
use le_fields::get_u64;

/// The record that starts at `at` and ends at `end` or before.
///
/// Nothing is copied but the key and the owner. Sums of places are exact: no length that a header gives
/// makes one wrap.
///
/// # Errors
/// The first fault that holds, in the order of [`RecordFault`].
pub fn read_record(bytes: &[u8], at: usize, end: usize) -> Result<Record<'_>, RecordFault>
    requires ordered { at ≤ end }
    requires within { end ≤ length bytes.now }
    requires aligned { at % 8 ≡ 0 }
    // The answer: the first fault of a record that starts here, or what stands at its places.
    ensures exact { Gives result (record_at bytes.now at end) }
    ensures places { IfOk result (λ r. entry_of r ≡ entry_at bytes.now at) }
    ensures inside { IfOk result (λ r. (at + 136 ≤ r.end) × (r.end ≤ end)) }

    // What is read is a record, from its place to its end.
    ensures found { IfOk result (λ r. HasFields (slice_range bytes.now at r.end) r.key.0 (fields_of r)) }

    // A record that stands there is read, and so has no fault.
    ensures only { (to : ℕ) (key : List ℕ) (fields : machine.Account)
        → to ≤ end → HasFields (slice_range bytes.now at to) key fields
        → IsOkAnd result (λ r. entry_of r ≡ record { key = key; fields = fields; end = to }) }
{
    parse(bytes, at, end)
}

// The record by its places.
fn parse(bytes: &[u8], at: usize, end: usize) -> Result<Record<'_>, RecordFault>
    requires ordered { at ≤ end }
    requires within { end ≤ length bytes.now }
    ensures { Gives result (record_at bytes.now at end) }
{
    let room = end - at;
    if room < HEADER_LEN {
        return Err(RecordFault::HeaderCut { at });
    }
    let len = number(bytes, at + LEN_AT);
    if len > (room - HEADER_LEN) as u64 {
        return Err(RecordFault::DataCut { at, len });
    }
    if len > MAX_DATA_LEN as u64 {
        return Err(RecordFault::DataTooLong { len });
    }
    let byte = bytes[at + EXECUTABLE_AT];
    if byte > 1 {
        return Err(RecordFault::BadExecutable { at, byte });
    }
    let head = Head {
        lamports: number(bytes, at + LAMPORTS_AT),
        owner: bytes_32(bytes, at + OWNER_AT),
        executable: byte == 1,
        rent_epoch: number(bytes, at + RENT_EPOCH_AT),
    };
    let end = at + HEADER_LEN + len as usize;
    Ok(Record {
        key: Key(bytes_32(bytes, at + KEY_AT)),
        head,
        body: &bytes[at + HEADER_LEN..end],
        end,
    })
}

// The number in the eight bytes at `at`.
fn number(bytes: &[u8], at: usize) -> u64
    requires { at + 8 ≤ length bytes.now }
    ensures { result ≡ number_at bytes.now at }
{
    get_u64(bytes, at).unwrap()
}

// The 32 bytes at `at`.
fn bytes_32(bytes: &[u8], at: usize) -> [u8; 32]
    requires { at + 32 ≤ length bytes.now }
    ensures { result ≡ slice_range bytes.now at (at + 32) }
{
    let mut out = [0; 32];
    out.copy_from_slice(&bytes[at..at + 32]);
    out
}
