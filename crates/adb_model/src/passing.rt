ghost use Rattle.std.specs.Prelude.{◌≡◌, ◌≢◌, ◌==◌, if◌then◌else◌, ℕ, List, true, count_by, Some, None, IsSome};
ghost use Rattle.adb_model.specs.Account.{Account};
ghost use Rattle.adb_model.specs.View.{View};
ghost use Rattle.adb_model.specs.State.{State};
ghost use Rattle.adb_model.specs.Storages.{bytes_of, open_flush};
ghost use Rattle.adb_model.specs.Call as machine;
ghost use Rattle.adb_model.specs.Callers.{is_pin};
ghost use Rattle.adb_model.specs.Flush.{flush_rows, filling_with};
ghost use Rattle.adb_model.specs.Step.{step};
ghost use Rattle.adb_model.specs.Sound.{IsSound};
ghost use Rattle.adb_model.specs.Passing.{pins_stay, storages_stay};

/// A law: pins come and go by loads and unpins alone, and a call of one pass changes neither how often another
/// pass pins a storage nor how many pins that pass has.
pub fn pins_are_own()
    ensures same { (m : State) (pass : ℕ) (c : machine.Call) → pins_stay c ≡ true → (step m pass c).0.pins ≡ m.pins }
    ensures others { (m : State) (pass p : ℕ) (c : machine.Call) → pass ≢ p → (id : ℕ)
        → count_by (is_pin p id) (step m pass c).0.pins ≡ count_by (is_pin p id) m.pins }
    ensures others_of { (m : State) (pass p : ℕ) (c : machine.Call) → pass ≢ p
        → count_by (λ q. q.pass == p) (step m pass c).0.pins ≡ count_by (λ q. q.pass == p) m.pins }
{}

/// A law: a load that found its answer in a storage is undone by the unpin of that storage. Any other load
/// changes nothing: one that found its answer in the write cache, found none, or was refused.
pub fn loads_are_given_back()
    ensures back { (m : State) (pass slot id : ℕ) (view : View) (key : List ℕ) (account : Account)
        → (step m pass (machine.Load view key)).1 ≡ machine.Found slot (machine.InStorage id) account
        → step (step m pass (machine.Load view key)).0 pass (machine.Unpin id) ≡ (m, machine.Done) }
    ensures cached { (m : State) (pass slot : ℕ) (view : View) (key : List ℕ) (account : Account)
        → (step m pass (machine.Load view key)).1 ≡ machine.Found slot machine.Cached account → (step m pass (machine.Load view key)).0 ≡ m }
    ensures none { (m : State) (pass : ℕ) (view : View) (key : List ℕ)
        → (step m pass (machine.Load view key)).1 ≡ machine.NotFound → (step m pass (machine.Load view key)).0 ≡ m }
    ensures refused { (m : State) (pass : ℕ) (view : View) (key : List ℕ) (refusal : machine.Refusal)
        → (step m pass (machine.Load view key)).1 ≡ machine.Refused refusal → (step m pass (machine.Load view key)).0 ≡ m }
{}

/// A law: a flush of a slot is open from its begin to its end, or until it is given up, and only begins, ends
/// and aborts of flushes and shrinks, reclaims and recycling could change which are open. A begin fills a storage
/// that has the next id with the slot's rows. An end or an abort is refused exactly where no flush of the slot
/// is open. What is refused changes nothing, and no call changes the budget.
pub fn flushes_stay_open()
    ensures same { (m : State) (pass : ℕ) (c : machine.Call) → storages_stay c ≡ true → (s : ℕ) → open_flush (step m pass c).0 s ≡ open_flush m s }
    ensures begun { (m : State) → IsSound m → (pass slot id bytes : ℕ) → (step m pass (machine.FlushBegin slot)).1 ≡ machine.FlushBegun id bytes → (s : ℕ)
        → open_flush (step m pass (machine.FlushBegin slot)).0 s ≡ (if slot == s then Some (filling_with m slot (flush_rows m slot)) else open_flush m s) }
    ensures id { (m : State) (pass slot id bytes : ℕ) → (step m pass (machine.FlushBegin slot)).1 ≡ machine.FlushBegun id bytes → id ≡ m.next_id }
    ensures bytes { (m : State) (pass slot id bytes : ℕ) → (step m pass (machine.FlushBegin slot)).1 ≡ machine.FlushBegun id bytes → bytes ≡ bytes_of (flush_rows m slot) }
    ensures refused { (m : State) (pass slot : ℕ) (refusal : machine.Refusal)
        → (step m pass (machine.FlushBegin slot)).1 ≡ machine.Refused refusal → (step m pass (machine.FlushBegin slot)).0 ≡ m }
    ensures ended { (m : State) → IsSound m → (pass slot : ℕ) → IsSome (open_flush m slot) → (s : ℕ)
        → open_flush (step m pass (machine.FlushEnd slot)).0 s ≡ (if slot == s then None else open_flush m s) }
    ensures end_done { (m : State) (pass slot : ℕ) → IsSome (open_flush m slot) → (step m pass (machine.FlushEnd slot)).1 ≡ machine.Done }
    ensures aborted { (m : State) → IsSound m → (pass slot : ℕ) → IsSome (open_flush m slot) → (s : ℕ)
        → open_flush (step m pass (machine.FlushAbort slot)).0 s ≡ (if slot == s then None else open_flush m s) }
    ensures abort_done { (m : State) (pass slot : ℕ) → IsSome (open_flush m slot) → (step m pass (machine.FlushAbort slot)).1 ≡ machine.Done }
    ensures no_end { (m : State) (pass slot : ℕ) → open_flush m slot ≡ None
        → step m pass (machine.FlushEnd slot) ≡ (m, machine.Refused (machine.NotFlushing slot)) }
    ensures no_abort { (m : State) (pass slot : ℕ) → open_flush m slot ≡ None
        → step m pass (machine.FlushAbort slot) ≡ (m, machine.Refused (machine.NotFlushing slot)) }
    ensures budget { (m : State) (pass : ℕ) (c : machine.Call) → (step m pass c).0.budget ≡ m.budget }
{}
