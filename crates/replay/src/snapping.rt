// The snapshot that a player has in hand.
ghost use Rattle.std.specs.Prelude.{◌≡◌, ◌==◌, ℕ, List, false, IfOk, IfSome, IsSome, IsTrue, OnOk};
ghost use Rattle.std.specs.Option.{option_map_or};
ghost use Rattle.adb_model.specs.State.{State};
ghost use Rattle.adb_model.specs.Call as machine;
ghost use Rattle.adb_model.specs.History.{state_after};
ghost use Rattle.adb_model.specs.Seen.{reply_of};
ghost use Rattle.book_parts.specs.Stands.{with_event};
ghost use Rattle.snap_write.specs.Faults.{HasSnapCause};
ghost use Rattle.replay.specs.Standing.{IsLane, Lanes, PlayerStands, HasHistory, ShowsLive, SnapStands, told};
ghost use Rattle.replay.specs.Saved.{Writes};

use crate::laws::snaps_go_on;
use crate::replies::{refused, snap_refused};
use adb_model::{Refusal, Reply, Slot};
use book::{Book, SnapJob};
use dir_io::Dir;
use snap_write::{SnapFault, write_snapshot};
use std::alloc::{AllocError, Global};

/// Begins a snapshot of a root. After want of memory nothing has changed.
pub fn begin(book: &mut Book, snap: &mut Option<SnapJob>, slot: Slot) -> Result<Reply, AllocError>
    ensures stands { (p : Lanes) (start : State) (h : List machine.Event) (pass : ℕ) → IsLane pass → PlayerStands (record p { book = book.old; snap = snap.old }) start h
        → PlayerStands (record p { book = book.new; snap = snap.new }) start (with_event h pass (machine.SnapBegin slot) (told result)) }
    ensures shows { (p : Lanes) (start : State) (h : List machine.Event) → PlayerStands (record p { book = book.old; snap = snap.old }) start h
        → IfOk result (λ reply. ShowsLive (machine.SnapBegin slot) (reply_of reply) (state_after start h) snap.new) }
{
    snaps_go_on();
    match book.snap_begin(slot) {
        Ok(job) => {
            let storages = job.storages().len() as u64;
            *snap = Some(job);
            Ok(Reply::SnapBegun { storages })
        }
        Err(refusal) => snap_refused(refusal),
    }
}

/// Ends the snapshot of a slot. Where there is none in hand, it is refused.
pub fn end(book: &mut Book, snap: &mut Option<SnapJob>, slot: Slot) -> Result<Reply, AllocError>
    requires { (p : Lanes) × HasHistory (record p { book = book.old; snap = snap.old }) }
    ensures { (p : Lanes) (start : State) (h : List machine.Event) (pass : ℕ) → IsLane pass → PlayerStands (record p { book = book.old; snap = snap.old }) start h
        → PlayerStands (record p { book = book.new; snap = snap.new }) start (with_event h pass (machine.SnapEnd slot) (told result)) }
{
    snaps_go_on();
    if !is_of(snap, slot) {
        return refused(Refusal::NotSnapping { slot });
    }
    let Some(job) = snap.take() else {
        unreachable!();
    };
    book.snap_end(job);
    Ok(Reply::Done)
}

/// Writes the snapshot in hand to a directory, under a name.
pub fn write<D: Dir>(
    alloc: Global,
    snap: &Option<SnapJob>,
    name: &str,
    dir: &mut D,
) -> Result<(), SnapFault>
    requires some { IsSome snap.now }
    requires stands { (m : State) × SnapStands snap.now m }
    ensures written { IfSome snap.now (λ job. Writes job name.now (D.files dir.old) (D.files dir.new) result) }
    ensures synced { OnOk result (IsTrue (D.synced dir.new)) }
    ensures cause { HasSnapCause (D.faults dir.old) (D.faults dir.new) result }
{
    let Some(job) = snap else {
        unreachable!();
    };
    write_snapshot(alloc, name, job.slot(), job.storages(), dir)
}

// Whether a snapshot of the slot is in hand.
fn is_of(snap: &Option<SnapJob>, slot: Slot) -> bool
    ensures { result ≡ option_map_or (λ job. job.slot == slot) snap.now false }
{
    match snap {
        Some(job) => job.slot() == slot,
        None => false,
    }
}
