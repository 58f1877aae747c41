// The shrinks that a player has in hand.
ghost use Rattle.std.specs.Prelude.{◌≡◌, ◌<◌, ◌++◌, ◌∷◌, [], ℕ, List, position, vec_len};
ghost use Rattle.std.specs.Vec.{vec_capacity};
ghost use Rattle.adb_model.specs.State.{State};
ghost use Rattle.adb_model.specs.Call as machine;
ghost use Rattle.book_parts.specs.Stands.{with_event};
ghost use Rattle.replay.specs.Standing.{IsLane, Lanes, PlayerStands, HasHistory, is_shrink_of, told};

use crate::laws::shrinks_go_on;
use crate::replies::{refused, shrink_ended, shrink_refused};
use adb_model::{Refusal, Reply, Slot};
use append_vec::fill;
use book::Book;
use shrink_plan::ShrinkJob;
use std::alloc::AllocError;

// The place of the shrink of a slot.
fn place_of(shrinks: &[ShrinkJob], slot: Slot) -> Option<usize>
    ensures { result ≡ position (is_shrink_of slot) shrinks.now }
{
    shrinks.iter().position(|job| job.slot() == slot)
}

// Puts a shrink at the end of a list that has room for it.
fn put(shrinks: &mut Vec<ShrinkJob>, job: ShrinkJob)
    requires { vec_len shrinks.old < vec_capacity shrinks.old }
    ensures { shrinks.new.items ≡ shrinks.old.items ++ job ∷ [] }
{
    if shrinks.insert(shrinks.len(), job).is_err() {
        unreachable!();
    }
}

/// Begins to shrink a slot's storage. After want of memory nothing has changed.
pub fn begin(book: &mut Book, shrinks: &mut Vec<ShrinkJob>, slot: Slot) -> Result<Reply, AllocError>
    ensures { (p : Lanes) (start : State) (h : List machine.Event) (pass : ℕ) → IsLane pass → PlayerStands (record p { book = book.old; shrinks = shrinks.old.items }) start h
        → PlayerStands (record p { book = book.new; shrinks = shrinks.new.items }) start (with_event h pass (machine.ShrinkBegin slot) (told result)) }
{
    shrinks_go_on();
    shrinks.reserve(1)?;
    match book.shrink_begin(slot) {
        Ok(job) => {
            let reply = Reply::ShrinkBegun {
                old: job.old(),
                new: job.id(),
                bytes: job.bytes(),
            };
            put(shrinks, job);
            Ok(reply)
        }
        Err(refusal) => shrink_refused(refusal),
    }
}

/// Fills the copy of a slot's storage from the old one, and ends the shrink. Where there is none in hand, it is
/// refused. After want of memory nothing has changed.
pub fn end<R: AllocGlobal>(
    rt: &R,
    book: &mut Book,
    shrinks: &mut Vec<ShrinkJob>,
    slot: Slot,
) -> Result<Reply, AllocError>
    requires { (p : Lanes) × HasHistory (record p { book = book.old; shrinks = shrinks.old.items }) }
    ensures { (p : Lanes) (start : State) (h : List machine.Event) (pass : ℕ) → IsLane pass → PlayerStands (record p { book = book.old; shrinks = shrinks.old.items }) start h
        → PlayerStands (record p { book = book.new; shrinks = shrinks.new.items }) start (with_event h pass (machine.ShrinkEnd slot) (told result)) }
{
    shrinks_go_on();
    let Some(place) = place_of(shrinks, slot) else {
        return refused(Refusal::NotShrinking { slot });
    };
    let job = &shrinks[place];
    let accounts = job.accounts(rt.alloc())?;
    let filled = fill(rt, job.slot(), job.id(), &accounts, 1)?;
    let job = shrinks.remove(place);
    Ok(shrink_ended(book.shrink_end(job, filled)))
}

/// Gives the shrink of a slot up. Where there is none in hand, it is refused.
pub fn abort(book: &mut Book, shrinks: &mut Vec<ShrinkJob>, slot: Slot) -> Result<Reply, AllocError>
    requires { (p : Lanes) × HasHistory (record p { book = book.old; shrinks = shrinks.old.items }) }
    ensures { (p : Lanes) (start : State) (h : List machine.Event) (pass : ℕ) → IsLane pass → PlayerStands (record p { book = book.old; shrinks = shrinks.old.items }) start h
        → PlayerStands (record p { book = book.new; shrinks = shrinks.new.items }) start (with_event h pass (machine.ShrinkAbort slot) (told result)) }
{
    shrinks_go_on();
    let Some(place) = place_of(shrinks, slot) else {
        return refused(Refusal::NotShrinking { slot });
    };
    let job = shrinks.remove(place);
    book.shrink_abort(job);
    Ok(Reply::Done)
}
