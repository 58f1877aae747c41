//! Records of accounts: the bytes of one account under its key, as they stand in a storage.
//!
//! A record is a header of 136 bytes and the account's data. Its fields stand where Agave's append
//! vectors have them; numbers are little-endian.
//!
//! | Offset | Bytes | Field | Written as | Read as |
//! |---|---|---|---|---|
//! | 0 | 8 | write version | 0 | skipped |
//! | 8 | 8 | length of the data | as is | at most 10,485,760 |
//! | 16 | 32 | key | as is | as is |
//! | 48 | 8 | lamports | as is | as is |
//! | 56 | 8 | rent epoch | as is | as is |
//! | 64 | 32 | owner | as is | as is |
//! | 96 | 1 | executable | 0 or 1 | 0 or 1 |
//! | 97 | 7 | padding | zeros | skipped |
//! | 104 | 32 | hash | zeros | skipped |
//! | 136 | its length | data | as is | as is |
//!
//! Records start at multiples of eight: the bytes from a record's end to the next one are written as
//! zeros and skipped by readers. A record without lamports is that of the tomb, whatever else it has.
//!
//! `specs/Record.antt` says which bytes are a record, by concatenation of its parts; reading and writing
//! are proved to agree with it both ways.
#![tactic(auto)]

mod laws;
mod read;
mod record;
mod write;

pub use laws::{records_are_read, records_have_one_reading, written_records_are_read};
pub use read::read_record;
pub use record::{Record, RecordFault};
pub use write::{stored_size, write_record};

#[cfg(test)]
mod tests;
