ghost use Rattle.std.specs.Prelude.{◌≡◌};
ghost use Rattle.append_vec.specs.Filled.{KeysDiffer, rows_of};

use adb_model::{Account, Key, Slot};
use std::marker::Model;
use std::sync::Arc;

/// A flush that has begun.
///
/// Contracts see its slot, the id of its storage, its bytes and its rows.
#[derive(Drop)]
pub struct FlushJob {
    slot: Slot,
    id: u64,
    bytes: u64,
    accounts: Vec<(Key, Arc<Account>)>,
}

impl Model for FlushJob {
    ghost use Rattle.append_vec.specs.Filled.{KeysDiffer, rows_of};
    ghost use Rattle.flush_plan.specs.Jobs.{Job};

    ghost Value = { Job };

    ghost view = { λ j. record { slot = j.slot; id = j.id; bytes = j.bytes; rows = rows_of j.accounts.items } };

    ghost invariant = { λ j. KeysDiffer (rows_of j.accounts.items) };
}

impl FlushJob {
    pub(crate) fn new(
        slot: Slot,
        id: u64,
        bytes: u64,
        accounts: Vec<(Key, Arc<Account>)>,
    ) -> FlushJob
        requires { KeysDiffer (rows_of accounts.items) }
        ensures { result ≡ record { slot = slot; id = id; bytes = bytes; rows = rows_of accounts.items } }
    {
        FlushJob {
            slot,
            id,
            bytes,
            accounts,
        }
    }

    /// The slot whose rows are flushed.
    pub fn slot(&self) -> Slot
        ensures { result ≡ self.now.slot }
    {
        self.slot
    }

    /// The id of the storage that is filled.
    pub fn id(&self) -> u64
        ensures { result ≡ self.now.id }
    {
        self.id
    }

    /// The bytes that the records of the accounts take.
    pub fn bytes(&self) -> u64
        ensures { result ≡ self.now.bytes }
    {
        self.bytes
    }

    /// The accounts that the storage is filled with, in the order in which their keys were first stored.
    pub fn accounts(&self) -> &[(Key, Arc<Account>)]
        ensures rows { rows_of result.now ≡ self.now.rows }
        ensures differ { KeysDiffer (rows_of result.now) }
    {
        &self.accounts
    }
}
