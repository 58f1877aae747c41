ghost use Rattle.std.specs.Prelude.{◌≡◌, ◌*◌, ◌≤◌, ℕ, List, length, Some};
ghost use Rattle.adb_model.specs.State.{Storage, State, fresh};
ghost use Rattle.adb_model.specs.Storages.{live_storage};
ghost use Rattle.adb_model.specs.Call as machine;
ghost use Rattle.adb_model.specs.Shrink.{named_in};
ghost use Rattle.adb_model.specs.Stats.{counts_of};
ghost use Rattle.adb_model.specs.Step.{step};
ghost use Rattle.adb_model.specs.History.{state_after};
ghost use Rattle.adb_model.specs.Opened.{Image, opened};
ghost use Rattle.adb_model.specs.Sound.{IsSound};
ghost use Rattle.adb_model.specs.Once.{IsOnce};
ghost use Rattle.adb_model.specs.RowBytes.{HaveBytes, ImagesHaveBytes};

/// A law: each storage has at least 136 bytes for each of its rows, in any state that is reached.
pub fn rows_have_bytes()
    ensures start { (budget id : ℕ) → HaveBytes (fresh budget id) }
    ensures open { (budget root : ℕ) (images : List Image) (more : List ℕ) → ImagesHaveBytes images → HaveBytes (opened budget root images more) }
    ensures step { (m : State) (pass : ℕ) (c : machine.Call) → HaveBytes m → HaveBytes (step m pass c).0 }
    ensures history { (m : State) (events : List machine.Event) → HaveBytes m → HaveBytes (state_after m events) }
{}

/// A law: the rows of the storages in use are bounded by the budget, at 136 bytes each, and the named pairs
/// by these rows: all of them, and those of each slot by the rows of its storage in use.
pub fn counts_are_bounded()
    ensures rows { (m : State) → IsSound m → HaveBytes m → 136 * (counts_of m).rows ≤ m.budget }
    ensures named { (m : State) → IsSound m → IsOnce m → (counts_of m).named ≤ (counts_of m).rows }
    ensures named_in { (m : State) → IsSound m → IsOnce m → (s : ℕ) (t : Storage) → live_storage m s ≡ Some t → named_in m s ≤ length t.rows }
{}
