// What holds of all records. A law is a function that does nothing: its contract is the law, and a call
// tells it to the caller's proof.
ghost use Rattle.std.specs.Prelude.{◌≡◌, ◌+◌, ◌≤◌, ◌++◌, ℕ, List, Ok, length};
ghost use Rattle.adb_model.specs.Account as machine;
ghost use Rattle.account_layout.specs.Reading.{entry_at, record_at};
ghost use Rattle.account_layout.specs.Record.{HasFields, IsRecord, record_bytes};
ghost use Rattle.account_layout.specs.Written.{IsWritable, written_record, zeroed};

/// A record is read wherever it stands, and it is as long as its header and its data.
pub fn records_are_read()
    ensures read { (front part rest key : List ℕ) (fields : machine.Account) (end : ℕ)
        → HasFields part key fields → length front + length part ≤ end
        → record_at (front ++ (part ++ rest)) (length front) end
        ≡ Ok (record { key = key; fields = fields; end = length front + length part }) }
    ensures places { (front part rest key : List ℕ) (fields : machine.Account)
        → HasFields part key fields
        → entry_at (front ++ (part ++ rest)) (length front)
        ≡ record { key = key; fields = fields; end = length front + length part } }
    ensures len { (part key : List ℕ) (fields : machine.Account)
        → HasFields part key fields → length part ≡ 136 + length fields.bytes }
{}

/// No record begins another: bytes that begin with a record have one reading of it.
pub fn records_have_one_reading()
    ensures { (a b rest more key key2 : List ℕ) (fields fields2 : machine.Account)
        → HasFields a key fields → HasFields b key2 fields2 → a ++ rest ≡ b ++ more
        → (a ≡ b) × (key ≡ key2) × (fields ≡ fields2) }
{}

/// What is written is a record of its key and account, is read again wherever it stands and whatever
/// follows, and begins no other written record.
pub fn written_records_are_read()
    ensures record { (key : List ℕ) (account : machine.Account)
        → IsWritable key account → IsRecord (record_bytes zeroed key account) key account }
    ensures again { (front rest key : List ℕ) (account : machine.Account) (end : ℕ)
        → IsWritable key account → length front + 136 + length account.bytes ≤ end
        → record_at (front ++ (written_record key account ++ rest)) (length front) end
        ≡ Ok (record { key = key; fields = account; end = length front + 136 + length account.bytes }) }
    ensures one_form { (key key2 rest more : List ℕ) (account account2 : machine.Account)
        → IsWritable key account → IsWritable key2 account2
        → written_record key account ++ rest ≡ written_record key2 account2 ++ more
        → (key ≡ key2) × (account ≡ account2) × (rest ≡ more) }
    ensures len { (key : List ℕ) (account : machine.Account)
        → IsWritable key account → length (written_record key account) ≡ machine.size account }
{}
