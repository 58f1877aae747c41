// The flushes that a player has in hand.
ghost use Rattle.std.specs.Prelude.{◌≡◌, ◌<◌, ◌≤◌, ◌++◌, ◌∷◌, [], ℕ, List, position, vec_len};
ghost use Rattle.std.specs.Vec.{vec_capacity};
ghost use Rattle.adb_model.specs.State.{State};
ghost use Rattle.adb_model.specs.Call as machine;
ghost use Rattle.book_parts.specs.Stands.{with_event};
ghost use Rattle.replay.specs.Standing.{IsLane, Lanes, PlayerStands, HasHistory, is_of, told};

use crate::laws::flushes_go_on;
use crate::replies::{flush_refused, refused};
use adb_model::{Refusal, Reply, Slot};
use append_vec::fill;
use book::Book;
use flush_plan::FlushJob;
use std::alloc::AllocError;

// The place of the flush of a slot.
fn place_of(jobs: &[FlushJob], slot: Slot) -> Option<usize>
    ensures { result ≡ position (is_of slot) jobs.now }
{
    jobs.iter().position(|job| job.slot() == slot)
}

// Puts a flush at the end of a list that has room for it.
fn put(jobs: &mut Vec<FlushJob>, job: FlushJob)
    requires { vec_len jobs.old < vec_capacity jobs.old }
    ensures { jobs.new.items ≡ jobs.old.items ++ job ∷ [] }
{
    if jobs.insert(jobs.len(), job).is_err() {
        unreachable!();
    }
}

/// Begins to flush a slot. After want of memory nothing has changed.
pub fn begin(book: &mut Book, jobs: &mut Vec<FlushJob>, slot: Slot) -> Result<Reply, AllocError>
    ensures { (p : Lanes) (start : State) (h : List machine.Event) (pass : ℕ) → IsLane pass → PlayerStands (record p { book = book.old; jobs = jobs.old.items }) start h
        → PlayerStands (record p { book = book.new; jobs = jobs.new.items }) start (with_event h pass (machine.FlushBegin slot) (told result)) }
{
    flushes_go_on();
    jobs.reserve(1)?;
    match book.flush_begin(slot) {
        Ok(job) => {
            let reply = Reply::FlushBegun {
                id: job.id(),
                bytes: job.bytes(),
            };
            put(jobs, job);
            Ok(reply)
        }
        Err(refusal) => flush_refused(refusal),
    }
}

/// Fills the storage of a slot's flush by so many workers, and ends the flush. Where there is none in hand,
/// it is refused. After want of memory nothing has changed.
pub fn end<R: AllocGlobal>(
    rt: &R,
    book: &mut Book,
    jobs: &mut Vec<FlushJob>,
    slot: Slot,
    workers: usize,
) -> Result<Reply, AllocError>
    requires some_worker { 1 ≤ workers }
    requires few_workers { workers ≤ 16 }
    requires some { (p : Lanes) × HasHistory (record p { book = book.old; jobs = jobs.old.items }) }
    ensures { (p : Lanes) (start : State) (h : List machine.Event) (pass : ℕ) → IsLane pass → PlayerStands (record p { book = book.old; jobs = jobs.old.items }) start h
        → PlayerStands (record p { book = book.new; jobs = jobs.new.items }) start (with_event h pass (machine.FlushEnd slot) (told result)) }
{
    flushes_go_on();
    let Some(place) = place_of(jobs, slot) else {
        return refused(Refusal::NotFlushing { slot });
    };
    let job = &jobs[place];
    let filled = fill(rt, job.slot(), job.id(), job.accounts(), workers)?;
    let job = jobs.remove(place);
    book.flush_end(job, filled);
    Ok(Reply::Done)
}

/// Gives the flush of a slot up. Where there is none in hand, it is refused.
pub fn abort(book: &mut Book, jobs: &mut Vec<FlushJob>, slot: Slot) -> Result<Reply, AllocError>
    requires { (p : Lanes) × HasHistory (record p { book = book.old; jobs = jobs.old.items }) }
    ensures { (p : Lanes) (start : State) (h : List machine.Event) (pass : ℕ) → IsLane pass → PlayerStands (record p { book = book.old; jobs = jobs.old.items }) start h
        → PlayerStands (record p { book = book.new; jobs = jobs.new.items }) start (with_event h pass (machine.FlushAbort slot) (told result)) }
{
    flushes_go_on();
    let Some(place) = place_of(jobs, slot) else {
        return refused(Refusal::NotFlushing { slot });
    };
    let job = jobs.remove(place);
    book.flush_abort(job);
    Ok(Reply::Done)
}
