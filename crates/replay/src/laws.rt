ghost use Rattle.std.specs.Prelude.{◌≡◌, ◌≢◌, ◌-◌, ◌∷◌, ◌++◌, ℕ, List, [], true, find, position, set, slice_get, AllPairs, Option, Some, None, Err};
ghost use Rattle.std.specs.List.{remove};
ghost use Rattle.adb_model.specs.Account.{Account};
ghost use Rattle.adb_model.specs.View.{View};
ghost use Rattle.adb_model.specs.State.{State};
ghost use Rattle.adb_model.specs.Call as machine;
ghost use Rattle.adb_model.specs.History.{state_after};
ghost use Rattle.adb_model.specs.Passing.{pins_stay, storages_stay};
ghost use Rattle.adb_model.specs.Shrinking.{shrinks_stay};
ghost use Rattle.adb_model.specs.Snapping.{snaps_stay};
ghost use Rattle.pass_pins.specs.Pins.{Pins};
ghost use Rattle.book_parts.specs.Parts.{Parts};
ghost use Rattle.book_parts.specs.Pins.{HoldsPins};
ghost use Rattle.book_parts.specs.Shrinks.{Copy, IsOpenCopy};
ghost use Rattle.book_parts.specs.Snaps.{Snapshot, IsOpenSnap};
ghost use Rattle.book_parts.specs.Stands.{Stands, After, AfterWithPins, with_event};
ghost use Rattle.flush_plan.specs.Jobs.{Job, IsOpenJob};
ghost use Rattle.book.specs.declared.refusals.FlushRefusal.{FlushRefusal};
ghost use Rattle.book.specs.declared.refusals.ShrinkRefusal.{ShrinkRefusal};
ghost use Rattle.book.specs.declared.refusals.SnapRefusal.{SnapRefusal};
ghost use Rattle.book.specs.Replies.{flush_reply, shrink_reply, snap_reply};
ghost use Rattle.replay.specs.Standing.{IsLane, Lanes, PlayerStands, is_of, is_shrink_of};

use adb_model::{
    flushes_stay_open, histories_go_on, loads_are_given_back, pins_are_own, reclaims_go_on,
    shrinks_stay_open, snaps_stay_open, storages_leave,
};
use book_parts::{ended_snap_reflects, flush_end_stands, open_shrink_reflects};

/// A law: how a player stands after a call of a lane that begins, ends and gives up no flush, no shrink and no
/// snapshot. A reclaim and a recycling are none.
pub fn lanes_go_on()
    ensures steady { (p : Lanes) (new : Parts) (start : State) (h : List machine.Event) (pass : ℕ) (call : machine.Call) (reply : Option machine.Reply)
        → IsLane pass → pins_stay call ≡ true → storages_stay call ≡ true → shrinks_stay call ≡ true → snaps_stay call ≡ true → PlayerStands p start h → After new start h pass call reply
        → PlayerStands (record p { book = new }) start (with_event h pass call reply) }
    ensures reclaimed { (p : Lanes) (new : Parts) (start : State) (h : List machine.Event) (pass : ℕ) (after : Option (List ℕ)) (most : ℕ) (reply : Option machine.Reply)
        → IsLane pass → PlayerStands p start h → After new start h pass (machine.Reclaim after most) reply
        → PlayerStands (record p { book = new }) start (with_event h pass (machine.Reclaim after most) reply) }
    ensures recycled { (p : Lanes) (new : Parts) (start : State) (h : List machine.Event) (pass : ℕ) (reply : Option machine.Reply)
        → IsLane pass → PlayerStands p start h → After new start h pass machine.Recycle reply
        → PlayerStands (record p { book = new }) start (with_event h pass machine.Recycle reply) }
    ensures of_lane { (p : Lanes) (new : Parts) (after : Pins) (start : State) (h : List machine.Event) (lane : ℕ) (call : machine.Call) (reply : Option machine.Reply)
        → storages_stay call ≡ true → shrinks_stay call ≡ true → snaps_stay call ≡ true → IsLane lane → PlayerStands p start h → after.pass ≡ lane → AfterWithPins new after start h call reply
        → PlayerStands (record p { book = new; pins = set p.pins (lane - 1) after }) start (with_event h lane call reply) }
    ensures given_back { (old mid new : Parts) (after : Pins) (start : State) (h : List machine.Event) (pass slot id : ℕ) (view : View) (key : List ℕ) (account : Account) (reply : machine.Reply)
        → Stands old start h → after.pass ≡ pass
        → After mid start h pass (machine.Load view key) (Some (machine.Found slot (machine.InStorage id) account))
        → AfterWithPins new after start (with_event h pass (machine.Load view key) (Some (machine.Found slot (machine.InStorage id) account))) (machine.Unpin id) (Some reply)
        → AfterWithPins new after start h (machine.Load view key) None }
{
    histories_go_on();
    pins_are_own();
    flushes_stay_open();
    reclaims_go_on();
    storages_leave();
    shrinks_stay_open();
    open_shrink_reflects();
    snaps_stay_open();
    ended_snap_reflects();
    loads_are_given_back();
}

/// A law: how a player stands after a flush began, ended, was given up, or was refused.
pub fn flushes_go_on()
    ensures refused { (p : Lanes) (new : Parts) (start : State) (h : List machine.Event) (pass slot : ℕ) (refusal : FlushRefusal)
        → IsLane pass → PlayerStands p start h → After new start h pass (machine.FlushBegin slot) (flush_reply (Err refusal))
        → PlayerStands (record p { book = new }) start (with_event h pass (machine.FlushBegin slot) (flush_reply (Err refusal))) }
    ensures begun { (p : Lanes) (new : Parts) (job : Job) (start : State) (h : List machine.Event) (pass slot : ℕ)
        → IsLane pass → PlayerStands p start h → job.slot ≡ slot → After new start h pass (machine.FlushBegin slot) (Some (machine.FlushBegun job.id job.bytes))
        → IsOpenJob job (state_after start (with_event h pass (machine.FlushBegin slot) (Some (machine.FlushBegun job.id job.bytes))))
        → PlayerStands (record p { book = new; jobs = p.jobs ++ job ∷ [] }) start (with_event h pass (machine.FlushBegin slot) (Some (machine.FlushBegun job.id job.bytes))) }
    ensures in_hand { (p : Lanes) (start : State) (h : List machine.Event) (slot place : ℕ) (job : Job)
        → PlayerStands p start h → position (is_of slot) p.jobs ≡ Some place → slice_get p.jobs place ≡ Some job
        → IsOpenJob job (state_after start h) × (job.slot ≡ slot) × AllPairs (λ r q. r.key ≢ q.key) job.rows }
    ensures ended { (p : Lanes) (new : Parts) (start : State) (h : List machine.Event) (pass slot place : ℕ) (job : Job)
        → IsLane pass → PlayerStands p start h → position (is_of slot) p.jobs ≡ Some place → slice_get p.jobs place ≡ Some job → After new start h pass (machine.FlushEnd slot) (Some machine.Done)
        → PlayerStands (record p { book = new; jobs = remove p.jobs place }) start (with_event h pass (machine.FlushEnd slot) (Some machine.Done)) }
    ensures given_up { (p : Lanes) (new : Parts) (start : State) (h : List machine.Event) (pass slot place : ℕ) (job : Job)
        → IsLane pass → PlayerStands p start h → position (is_of slot) p.jobs ≡ Some place → slice_get p.jobs place ≡ Some job → After new start h pass (machine.FlushAbort slot) (Some machine.Done)
        → PlayerStands (record p { book = new; jobs = remove p.jobs place }) start (with_event h pass (machine.FlushAbort slot) (Some machine.Done)) }
    ensures none_ended { (p : Lanes) (start : State) (h : List machine.Event) (pass slot : ℕ) → PlayerStands p start h → position (is_of slot) p.jobs ≡ None
        → PlayerStands p start (with_event h pass (machine.FlushEnd slot) (Some (machine.Refused (machine.NotFlushing slot)))) }
    ensures none_given_up { (p : Lanes) (start : State) (h : List machine.Event) (pass slot : ℕ) → PlayerStands p start h → position (is_of slot) p.jobs ≡ None
        → PlayerStands p start (with_event h pass (machine.FlushAbort slot) (Some (machine.Refused (machine.NotFlushing slot)))) }
{
    histories_go_on();
    pins_are_own();
    flushes_stay_open();
    shrinks_stay_open();
    open_shrink_reflects();
    snaps_stay_open();
    ended_snap_reflects();
    flush_end_stands();
}

/// A law: how a player stands after a shrink began, ended, in time or too late, was given up, or was refused.
pub fn shrinks_go_on()
    ensures refused { (p : Lanes) (new : Parts) (start : State) (h : List machine.Event) (pass slot : ℕ) (refusal : ShrinkRefusal)
        → IsLane pass → PlayerStands p start h → After new start h pass (machine.ShrinkBegin slot) (shrink_reply (Err refusal))
        → PlayerStands (record p { book = new }) start (with_event h pass (machine.ShrinkBegin slot) (shrink_reply (Err refusal))) }
    ensures begun { (p : Lanes) (new : Parts) (copy : Copy) (start : State) (h : List machine.Event) (pass slot : ℕ)
        → IsLane pass → PlayerStands p start h → copy.slot ≡ slot → After new start h pass (machine.ShrinkBegin slot) (Some (machine.ShrinkBegun copy.old copy.id copy.bytes))
        → IsOpenCopy copy (state_after start (with_event h pass (machine.ShrinkBegin slot) (Some (machine.ShrinkBegun copy.old copy.id copy.bytes))))
        → PlayerStands (record p { book = new; shrinks = p.shrinks ++ copy ∷ [] }) start (with_event h pass (machine.ShrinkBegin slot) (Some (machine.ShrinkBegun copy.old copy.id copy.bytes))) }
    ensures in_hand { (p : Lanes) (start : State) (h : List machine.Event) (slot place : ℕ) (copy : Copy)
        → PlayerStands p start h → position (is_shrink_of slot) p.shrinks ≡ Some place → slice_get p.shrinks place ≡ Some copy
        → IsOpenCopy copy (state_after start h) × (copy.slot ≡ slot) }
    ensures ended { (p : Lanes) (new : Parts) (start : State) (h : List machine.Event) (pass slot place : ℕ) (copy : Copy) (reply : machine.Reply)
        → IsLane pass → PlayerStands p start h → position (is_shrink_of slot) p.shrinks ≡ Some place → slice_get p.shrinks place ≡ Some copy → After new start h pass (machine.ShrinkEnd slot) (Some reply)
        → PlayerStands (record p { book = new; shrinks = remove p.shrinks place }) start (with_event h pass (machine.ShrinkEnd slot) (Some reply)) }
    ensures given_up { (p : Lanes) (new : Parts) (start : State) (h : List machine.Event) (pass slot place : ℕ) (copy : Copy)
        → IsLane pass → PlayerStands p start h → position (is_shrink_of slot) p.shrinks ≡ Some place → slice_get p.shrinks place ≡ Some copy → After new start h pass (machine.ShrinkAbort slot) (Some machine.Done)
        → PlayerStands (record p { book = new; shrinks = remove p.shrinks place }) start (with_event h pass (machine.ShrinkAbort slot) (Some machine.Done)) }
    ensures none_ended { (p : Lanes) (start : State) (h : List machine.Event) (pass slot : ℕ) → PlayerStands p start h → position (is_shrink_of slot) p.shrinks ≡ None
        → PlayerStands p start (with_event h pass (machine.ShrinkEnd slot) (Some (machine.Refused (machine.NotShrinking slot)))) }
    ensures none_given_up { (p : Lanes) (start : State) (h : List machine.Event) (pass slot : ℕ) → PlayerStands p start h → position (is_shrink_of slot) p.shrinks ≡ None
        → PlayerStands p start (with_event h pass (machine.ShrinkAbort slot) (Some (machine.Refused (machine.NotShrinking slot)))) }
{
    histories_go_on();
    pins_are_own();
    shrinks_stay_open();
    open_shrink_reflects();
    snaps_stay_open();
    ended_snap_reflects();
}

/// A law: how a player stands after a snapshot began, ended, or was refused.
pub fn snaps_go_on()
    ensures refused { (p : Lanes) (new : Parts) (start : State) (h : List machine.Event) (pass slot : ℕ) (refusal : SnapRefusal)
        → IsLane pass → PlayerStands p start h → After new start h pass (machine.SnapBegin slot) (snap_reply (Err refusal))
        → PlayerStands (record p { book = new }) start (with_event h pass (machine.SnapBegin slot) (snap_reply (Err refusal))) }
    ensures begun { (p : Lanes) (new : Parts) (job : Snapshot) (start : State) (h : List machine.Event) (pass slot storages : ℕ)
        → IsLane pass → PlayerStands p start h → After new start h pass (machine.SnapBegin slot) (Some (machine.SnapBegun storages))
        → IsOpenSnap job (state_after start (with_event h pass (machine.SnapBegin slot) (Some (machine.SnapBegun storages))))
        → PlayerStands (record p { book = new; snap = Some job }) start (with_event h pass (machine.SnapBegin slot) (Some (machine.SnapBegun storages))) }
    ensures in_hand { (p : Lanes) (start : State) (h : List machine.Event) (job : Snapshot)
        → PlayerStands p start h → p.snap ≡ Some job → IsOpenSnap job (state_after start h) }
    ensures ended { (p : Lanes) (new : Parts) (job : Snapshot) (start : State) (h : List machine.Event) (pass : ℕ)
        → IsLane pass → PlayerStands p start h → p.snap ≡ Some job → After new start h pass (machine.SnapEnd job.slot) (Some machine.Done)
        → PlayerStands (record p { book = new; snap = None }) start (with_event h pass (machine.SnapEnd job.slot) (Some machine.Done)) }
    ensures none_ended { (p : Lanes) (start : State) (h : List machine.Event) (pass slot : ℕ)
        → PlayerStands p start h → ((job : Snapshot) → p.snap ≡ Some job → job.slot ≢ slot)
        → PlayerStands p start (with_event h pass (machine.SnapEnd slot) (Some (machine.Refused (machine.NotSnapping slot)))) }
{
    histories_go_on();
    pins_are_own();
    flushes_stay_open();
    shrinks_stay_open();
    open_shrink_reflects();
    snaps_stay_open();
    ended_snap_reflects();
}
