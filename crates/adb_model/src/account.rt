ghost use Rattle.std.specs.Prelude.{◌≡◌, ◌<◌, ◌≤◌, ◌↔◌, length, IfOk, IfErr, IsErr};
ghost use Rattle.adb_model.specs.Account.{account_of, tomb};

use std::marker::Model;

/// The most bytes of data that an account has.
pub const MAX_DATA_LEN: usize = 10_485_760;

/// One version of an account. Contracts see it as the record of its fields.
///
/// An account without lamports doesn't exist to a reader: it is the tomb, whose other fields are all
/// zero or empty, and storing it is how an account is deleted.
#[derive(Drop)]
pub struct Account {
    lamports: u64,
    owner: [u8; 32],
    executable: bool,
    rent_epoch: u64,
    bytes: Vec<u8>,
}

impl Model for Account {
    ghost use Rattle.adb_model.specs.Account as machine;

    ghost Value = { machine.Account };

    ghost use Rattle.adb_model.specs.Inside.{account_seen, IsAccount};

    ghost view = { account_seen };

    ghost invariant = { IsAccount };
}

/// The fields of an account but for its data.
#[derive(Clone, Copy, Debug, PartialEq, Eq)]
pub struct Head {
    pub lamports: u64,
    pub owner: [u8; 32],
    pub executable: bool,
    pub rent_epoch: u64,
}

/// The data had `len` bytes, more than an account may have; `bytes` hands it back.
#[derive(Debug, Drop)]
pub struct TooLong {
    pub len: usize,
    pub bytes: Vec<u8>,
}

impl Account {
    /// The account with these fields, `bytes` being its data. Zero lamports give the tomb, whatever the
    /// other fields are.
    ///
    /// # Errors
    /// `TooLong` exactly where the data has more than [`MAX_DATA_LEN`] bytes, also for zero lamports.
    pub fn new(
        lamports: u64,
        owner: [u8; 32],
        executable: bool,
        rent_epoch: u64,
        bytes: Vec<u8>,
    ) -> Result<Account, TooLong>
        ensures ok { IfOk result (λ account. account ≡ account_of lamports owner executable rent_epoch bytes.items) }
        ensures too_long { IsErr result ↔ (10485760 < length bytes.items) }
        ensures handed_back { IfErr result (λ fault.
            (fault.len ≡ length bytes.items) × (fault.bytes.items ≡ bytes.items)) }
    {
        let len = bytes.len();
        if len > MAX_DATA_LEN {
            return Err(TooLong { len, bytes });
        }
        if lamports == 0 {
            return Ok(buried(bytes));
        }
        Ok(Account {
            lamports,
            owner,
            executable,
            rent_epoch,
            bytes,
        })
    }

    /// The fields but for the data.
    pub fn head(&self) -> Head
        ensures lamports { result.lamports ≡ self.now.lamports }
        ensures owner { result.owner ≡ self.now.owner }
        ensures executable { result.executable ≡ self.now.executable }
        ensures rent_epoch { result.rent_epoch ≡ self.now.rent_epoch }
        ensures tomb { self.now.lamports ≡ 0 → self.now ≡ tomb }
    {
        Head {
            lamports: self.lamports,
            owner: self.owner,
            executable: self.executable,
            rent_epoch: self.rent_epoch,
        }
    }

    /// The data.
    pub fn data(&self) -> &[u8]
        ensures data { result.now ≡ self.now.bytes }
        ensures most { length result.now ≤ 10485760 }
    {
        &self.bytes
    }
}

// The tomb. The data's memory is given up at once.
fn buried(bytes: Vec<u8>) -> Account
    ensures { result ≡ tomb }
{
    let alloc = *bytes.allocator();
    drop(bytes);
    Account {
        lamports: 0,
        owner: [0; 32],
        executable: false,
        rent_epoch: 0,
        bytes: Vec::new(alloc),
    }
}
