// A record as it lies in the bytes of a storage, and what can be wrong with one.
ghost use Rattle.std.specs.Prelude.{◌≤◌, length};

use adb_model::{Account, Head, Key};
use le_fields::align8;
use std::alloc::{AllocError, Global};

// Bytes of a record before its data.
pub(crate) const HEADER_LEN: usize = 136;

// Where the fields of a header stand in it; what readers skip stands between.
pub(crate) const LEN_AT: usize = 8;

pub(crate) const KEY_AT: usize = 16;

pub(crate) const LAMPORTS_AT: usize = 48;

pub(crate) const RENT_EPOCH_AT: usize = 56;

pub(crate) const OWNER_AT: usize = 64;

pub(crate) const EXECUTABLE_AT: usize = 96;

/// Why no record stands at a place. The first that holds is answered, in this order. `at` is the place,
/// in bytes from the start of the storage, and `len` the length of the data that the header gives.
#[derive(Clone, Copy, Debug, PartialEq, Eq)]
pub enum RecordFault {
    /// Fewer than 136 bytes stand from `at` to the bound.
    HeaderCut { at: usize },

    /// The data goes past the bound.
    DataCut { at: usize, len: u64 },

    /// The data is longer than an account's: more than 10,485,760 bytes.
    DataTooLong { len: u64 },

    /// The executable byte is neither 0 nor 1.
    BadExecutable { at: usize, byte: u8 },
}

/// A record that was read, with its data where it lies in the bytes.
#[derive(Clone, Copy, Debug)]
pub struct Record<'a> {
    pub key: Key,

    /// The fields as they stand in the record, also where it has no lamports.
    pub head: Head,

    /// The data as it stands in the record, also where it has no lamports.
    pub body: &'a [u8],

    /// The place right after the data.
    pub end: usize,

    ghost most: { length body.now ≤ 10485760 },
}

impl Record<'_> {
    ghost use Rattle.std.specs.Prelude.{◌≡◌, IfOk};
    ghost use Rattle.account_layout.specs.Record.{account_in};
    ghost use Rattle.account_layout.specs.Reading.{fields_of};
    ghost use Rattle.adb_model.specs.Account.{size};

    /// How many bytes the written record of the account takes, as [`stored_size`](crate::stored_size) says.
    pub fn stored_size(&self) -> usize
        ensures { result ≡ size (account_in (fields_of self.now)) }
    {
        let len = if self.head.lamports == 0 {
            0
        } else {
            self.body.len()
        };
        align8((HEADER_LEN + len) as u64) as usize
    }

    /// The account, with a copy of the data: the tomb where the record has no lamports, for which nothing
    /// is copied.
    ///
    /// # Errors
    /// `AllocError` where there is no memory for the data.
    pub fn account(&self, alloc: Global) -> Result<Account, AllocError>
        ensures { IfOk result (λ account. account ≡ account_in (fields_of self.now)) }
    {
        let Head {
            lamports,
            owner,
            executable,
            rent_epoch,
        } = self.head;
        let data = if lamports == 0 { &[] } else { self.body };
        let bytes = Vec::from_slice(alloc, data)?;
        match Account::new(lamports, owner, executable, rent_epoch, bytes) {
            Ok(account) => Ok(account),
            Err(_) => unreachable!(),
        }
    }
}
