ghost use Rattle.std.specs.Prelude.{◌≡◌, ◌<◌, ◌≤◌, ◌↔◌, ℕ, List, map, Some, None, option_and_then, IsTrue, IsFalse, Contains, Any};
ghost use Rattle.adb_model.specs.Lists.{among};
ghost use Rattle.adb_model.specs.View.{View};
ghost use Rattle.adb_model.specs.State.{Stored, Storage, Lease, Shrink, State, fresh};
ghost use Rattle.adb_model.specs.Load.{sees, last_store, unless_tomb, answer};
ghost use Rattle.adb_model.specs.Presence.{is_named, is_present};
ghost use Rattle.adb_model.specs.Storages.{is_retired, is_pinned, open_shrink};
ghost use Rattle.adb_model.specs.Call as machine;
ghost use Rattle.adb_model.specs.Shrink.{is_current};
ghost use Rattle.adb_model.specs.Snap.{live_upto};
ghost use Rattle.adb_model.specs.Step.{step};
ghost use Rattle.adb_model.specs.History.{state_after, IsLegal, IsPass, AreOfPasses};
ghost use Rattle.adb_model.specs.Plays.{Line, Plays};
ghost use Rattle.adb_model.specs.Opened.{Image, opened};
ghost use Rattle.adb_model.specs.Sound.{IsSound};
ghost use Rattle.adb_model.specs.Once.{IsOnce};
ghost use Rattle.adb_model.specs.Laws.{answer_of_present, IsKept, at_root, IsFlushedUpto, image_of, ShowLive, MayOpen, IsPlacedIn};

/// A law: from one state the lines of a script are played by one legal history at the most.
pub fn one_history_plays()
    ensures { (m : State) (lines : List Line) (h g : List machine.Event)
        → IsLegal m h → Plays lines h → IsLegal m g → Plays lines g → h ≡ g }
{}

/// A law: a new state and one that is opened from a snapshot are sound, and what any call of a pass does
/// to a sound state leaves it sound, so each history does.
///
/// So in every state that is reached, the limits hold, a flushed slot has one live storage at the most,
/// what is pinned is there, rows agree with the stores that they were made from, and a flushed pair that
/// loads no longer find is one that no view needs.
pub fn states_are_sound()
    ensures start { (budget id : ℕ) → IsSound (fresh budget id) }
    ensures open { (budget root : ℕ) (images : List Image) (more : List ℕ) → MayOpen budget images → IsSound (opened budget root images more) }
    ensures step { (m : State) (pass : ℕ) (c : machine.Call) → IsPass pass → IsSound m → IsSound (step m pass c).0 }
    ensures history { (m : State) (events : List machine.Event) → AreOfPasses events → IsSound m → IsSound (state_after m events) }
{}

/// A law: in a sound state a view that isn't too old is answered by the pairs alone that are cached or
/// stand in a storage, as if all stores were searched. A pair that answers is in one of these two places
/// and not in both, and if in a storage, its slot has exactly one live storage.
///
/// So the answer is the last store in the greatest slot that the view sees and that has the key in one of
/// the two places, unless that is a tomb; and there is none where no such slot has it.
pub fn present_pairs_answer()
    ensures same { (m : State) → IsSound m → (v : View) (k : List ℕ) → m.cleaned ≤ v.max_root → answer m v k ≡ answer_of_present m v k }
    ensures kept { (m : State) → IsSound m → (v : View) (k : List ℕ) → m.cleaned ≤ v.max_root
        → (t : Stored) → answer m v k ≡ Some t → IsKept m t.slot k }
    ensures none { (m : State) → IsSound m → (v : View) (k : List ℕ) → m.cleaned ≤ v.max_root
        → ((s : ℕ) → IsTrue (sees m v s) → IsFalse (is_present m s k)) → answer m v k ≡ None }
    ensures some { (m : State) → IsSound m → (v : View) (k : List ℕ) → m.cleaned ≤ v.max_root
        → (s : ℕ) → IsTrue (sees m v s) → IsTrue (is_present m s k) → ((q : ℕ) → s < q → IsTrue (sees m v q) → IsFalse (is_present m q k))
        → answer m v k ≡ option_and_then unless_tomb (last_store m s k) }
{}

/// A law: while a lease stands, no load at a view that it covers is refused as too old.
pub fn leased_views_are_answered()
    ensures { (m : State) → IsSound m → (l : Lease) → Contains m.leases l → (pass : ℕ) (v : View) (k : List ℕ) → l.max_root ≤ v.max_root
        → (max_root cleaned : ℕ) → (step m pass (machine.Load v k)).1 ≡ machine.Refused (machine.ViewTooOld max_root cleaned) → ⊥ }
{}

/// A law: no deleted or older account comes back. What is opened from the live storages up to a root
/// answers at that root as the state does that they are taken from, in whatever order their rows stand
/// as long as rows of one key keep theirs; and what a root answers, it answers in each later state.
pub fn nothing_returns()
    ensures opened { (m : State) → IsSound m → (root : ℕ) → IsTrue (among root m.roots) → m.cleaned ≤ root → IsFlushedUpto m root
        → (images : List Image) → ShowLive m root images → (budget : ℕ) (more : List ℕ) (k : List ℕ)
        → answer (opened budget root images more) (at_root root) k ≡ answer m (at_root root) k }
    ensures images { (m : State) (root : ℕ) → ShowLive m root (map image_of (live_upto m root)) }
    ensures later { (m : State) (events : List machine.Event) → AreOfPasses events → IsSound m → (root : ℕ) → IsTrue (among root m.roots)
        → (k : List ℕ) → answer (state_after m events) (at_root root) k ≡ answer m (at_root root) k }
{}

/// A law: where a load finds a pair in a storage, the storage is live and its last row of the key is the
/// last store; recycling frees only what is retired and held by nobody; and a copy takes its storage's
/// place exactly where that is live still.
pub fn stored_places_stand()
    ensures place { (m : State) → IsSound m → (s : ℕ) (k : List ℕ) → IsTrue (is_named m s k) → Any (IsPlacedIn m s k) m.storages }
    ensures freed { (m : State) (t : Storage) → Contains m.storages t
        → (Contains (step m 1 machine.Recycle).0.storages t → ⊥) → IsTrue (is_retired t) × IsFalse (is_pinned m t.id) }
    ensures installed { (m : State) (pass slot : ℕ) (h : Shrink) → open_shrink m slot ≡ Some h
        → ((step m pass (machine.ShrinkEnd slot)).1 ≡ machine.Done) ↔ IsTrue (is_current m h) }
{}

/// A law: no pair is named twice, in any state that is reached, so that counting names counts pairs; and no
/// snapshot has a storage twice.
pub fn named_pairs_stand_once()
    ensures start { (budget id : ℕ) → IsOnce (fresh budget id) }
    ensures open { (budget root : ℕ) (images : List Image) (more : List ℕ) → MayOpen budget images → IsOnce (opened budget root images more) }
    ensures step { (m : State) (pass : ℕ) (c : machine.Call) → IsSound m → IsOnce m → IsOnce (step m pass c).0 }
    ensures history { (m : State) (events : List machine.Event) → AreOfPasses events → IsSound m → IsOnce m → IsOnce (state_after m events) }
{}
