ghost use Rattle.std.specs.Prelude.{◌≤◌, ℕ, List, All, IfOk, IfSome, IsSome, IsTrue, OnErr, OnOk, map};
ghost use Rattle.adb_model.specs.State.{State};
ghost use Rattle.adb_model.specs.Call as machine;
ghost use Rattle.adb_model.specs.History.{state_after};
ghost use Rattle.adb_model.specs.Seen.{call_of, reply_of};
ghost use Rattle.book_parts.specs.Stands.{Stands, with_event};
ghost use Rattle.replay.specs.Standing.{IsLane, IsOfFewKeys, IsQuiet, PlayerStands, HasHistory, HaveNoPins, HasMade, HasMadeFirst, FewerLeft, ShowsLive, asked, told};
ghost use Rattle.snap_write.specs.Faults.{HasSnapCause};
ghost use Rattle.replay.specs.Saved.{Writes};

use crate::laws::lanes_go_on;
use crate::passes::{load, unpin};
use crate::replies::{lease_ended, leased, purged, raised, reclaimed, rooted, stored};
use crate::{flushes, shrinking, snapping};
use adb_model::{Call, Reply};
use book::{Book, SnapJob};
use dir_io::Dir;
use flush_plan::FlushJob;
use pass_pins::PassPins;
use shrink_plan::ShrinkJob;
use snap_write::SnapFault;
use std::alloc::{AllocError, Global};
use std::marker::Model;

/// The greatest number of a lane. The lanes are numbered from 1.
pub const MAX_LANES: u64 = 64;

/// Plays calls of up to 64 lanes over a book, one after another. A lane's number is its pass.
#[derive(Drop)]
pub struct Player {
    book: Book,
    // What each lane has pinned, lane 1 first.
    pins: Vec<PassPins>,
    // The flushes that have begun and are open.
    jobs: Vec<FlushJob>,
    // The shrinks that have begun and are open.
    shrinks: Vec<ShrinkJob>,
    // The snapshot that has begun and is open.
    snap: Option<SnapJob>,
}

impl Model for Player {
    ghost use Rattle.replay.specs.Standing.{Lanes, HasHistory};

    ghost Value = { Lanes };

    ghost view = { λ p. record { book = p.book; pins = p.pins.items; jobs = p.jobs.items; shrinks = p.shrinks.items; snap = p.snap } };

    ghost invariant = { λ p. HasHistory (record { book = p.book; pins = p.pins.items; jobs = p.jobs.items; shrinks = p.shrinks.items; snap = p.snap }) };
}

// Makes one event. So many workers fill the storage of a flush that ends.
fn step_filled<R: AllocGlobal>(
    rt: &R,
    book: &mut Book,
    pins: &mut Vec<PassPins>,
    jobs: &mut Vec<FlushJob>,
    shrinks: &mut Vec<ShrinkJob>,
    snap: &mut Option<SnapJob>,
    lane: u64,
    call: &Call,
    workers: usize,
) -> Result<Reply, AllocError>
    requires lane { IsLane lane }
    requires some_worker { 1 ≤ workers }
    requires few_workers { workers ≤ 16 }
    requires few_keys { IsOfFewKeys (call_of call.now) }
    requires some { HasHistory (record { book = book.old; pins = pins.old.items; jobs = jobs.old.items; shrinks = shrinks.old.items; snap = snap.old }) }
    ensures stands { (start : State) (h : List machine.Event) → PlayerStands (record { book = book.old; pins = pins.old.items; jobs = jobs.old.items; shrinks = shrinks.old.items; snap = snap.old }) start h
        → PlayerStands (record { book = book.new; pins = pins.new.items; jobs = jobs.new.items; shrinks = shrinks.new.items; snap = snap.new }) start (with_event h lane (call_of call.now) (told result)) }
    ensures fewer { IfOk result (λ reply. FewerLeft (call_of call.now) (reply_of reply) book.old book.new) }
    ensures shows { (start : State) (h : List machine.Event) → PlayerStands (record { book = book.old; pins = pins.old.items; jobs = jobs.old.items; shrinks = shrinks.old.items; snap = snap.old }) start h
        → IfOk result (λ reply. ShowsLive (call_of call.now) (reply_of reply) (state_after start h) snap.new) }
{
    lanes_go_on();
    match call {
        Call::Store { slot, key, account } => { stored(book.store(*slot, *key, account.clone()?)) }
        Call::Root { slot } => rooted(book.root(*slot)),
        Call::Purge { slot } => purged(book.purge(*slot)),
        Call::Load { view, key } => load(rt.alloc(), book, pins, lane, view, key),
        Call::Unpin { id } => unpin(book, pins, lane, *id),
        Call::Lease { max_root } => leased(book.lease(lane, *max_root)),
        Call::EndLease { max_root } => lease_ended(book.end_lease(lane, *max_root)),
        Call::FlushBegin { slot } => flushes::begin(book, jobs, *slot),
        Call::FlushEnd { slot } => flushes::end(rt, book, jobs, *slot, workers),
        Call::FlushAbort { slot } => flushes::abort(book, jobs, *slot),
        Call::Raise { upto } => raised(book.raise(*upto)),
        Call::Reclaim { after, most } => reclaimed(book.reclaim(after.as_ref(), *most)),
        Call::ShrinkBegin { slot } => shrinking::begin(book, shrinks, *slot),
        Call::ShrinkEnd { slot } => shrinking::end(rt, book, shrinks, *slot),
        Call::ShrinkAbort { slot } => shrinking::abort(book, shrinks, *slot),
        Call::SnapBegin { slot } => snapping::begin(book, snap, *slot),
        Call::SnapEnd { slot } => snapping::end(book, snap, *slot),
        Call::Recycle => Ok(Reply::Recycled {
            storages: book.recycle(),
        }),
        Call::Stats => Ok(Reply::Counted {
            stats: book.stats(),
        }),
    }
}

impl Player {
    /// A player of this book, whose state has no pins, no open flush or shrink, and no snapshot.
    pub fn new(alloc: Global, book: Book) -> Result<Player, AllocError>
        requires { (start : State) × (history : List machine.Event) × Stands book start history × IsQuiet (state_after start history) }
        ensures { (start : State) (history : List machine.Event) → Stands book start history → IsQuiet (state_after start history)
            → IfOk result (λ player. PlayerStands player start history) }
    {
        let pins = no_pins(alloc)?;
        let jobs = Vec::new(alloc);
        let shrinks = Vec::new(alloc);
        Ok(Player {
            book,
            pins,
            jobs,
            shrinks,
            snap: None,
        })
    }

    /// A law: each player stands for some history.
    pub(crate) fn has_history(&self)
        ensures { HasHistory self.now }
    {
        let _ = &self.pins;
    }

    /// Makes one event, and gives its reply. After want of memory nothing has changed.
    pub fn step<R: AllocGlobal>(
        &mut self,
        rt: &R,
        lane: u64,
        call: &Call,
    ) -> Result<Reply, AllocError>
        requires lane { IsLane lane }
        requires few_keys { IsOfFewKeys (call_of call.now) }
        ensures { (start : State) (history : List machine.Event) → PlayerStands self.old start history
            → PlayerStands self.new start (with_event history lane (call_of call.now) (told result)) }
    {
        self.step_by(rt, lane, call, 1)
    }

    /// Makes one event, and gives its reply. So many workers fill the storage of a flush that ends. After want of
    /// memory nothing has changed.
    pub(crate) fn step_by<R: AllocGlobal>(
        &mut self,
        rt: &R,
        lane: u64,
        call: &Call,
        workers: usize,
    ) -> Result<Reply, AllocError>
        requires lane { IsLane lane }
        requires some_worker { 1 ≤ workers }
        requires few_workers { workers ≤ 16 }
        requires few_keys { IsOfFewKeys (call_of call.now) }
        ensures stands { (start : State) (history : List machine.Event) → PlayerStands self.old start history
            → PlayerStands self.new start (with_event history lane (call_of call.now) (told result)) }
        ensures fewer { IfOk result (λ reply. FewerLeft (call_of call.now) (reply_of reply) self.old.book self.new.book) }
        ensures shows { (start : State) (history : List machine.Event) → PlayerStands self.old start history
            → IfOk result (λ reply. ShowsLive (call_of call.now) (reply_of reply) (state_after start history) self.new.snap) }
    {
        step_filled(
            rt,
            &mut self.book,
            &mut self.pins,
            &mut self.jobs,
            &mut self.shrinks,
            &mut self.snap,
            lane,
            call,
            workers,
        )
    }

    /// Writes the snapshot in hand to a directory, under a name. It is no event.
    pub(crate) fn write_snapshot<D: Dir>(
        &self,
        alloc: Global,
        name: &str,
        dir: &mut D,
    ) -> Result<(), SnapFault>
        requires { IsSome self.now.snap }
        ensures written { IfSome self.now.snap (λ job. Writes job name.now (D.files dir.old) (D.files dir.new) result) }
        ensures synced { OnOk result (IsTrue (D.synced dir.new)) }
        ensures cause { HasSnapCause (D.faults dir.old) (D.faults dir.new) result }
    {
        snapping::write(alloc, &self.snap, name, dir)
    }

    /// Makes the events of calls, each of a lane, in order, and gives their replies. After want of memory some of
    /// the first calls were made.
    pub fn run<R: AllocGlobal>(
        &mut self,
        rt: &R,
        calls: &[(u64, Call)],
    ) -> Result<Vec<Reply>, AllocError>
        requires lanes { All (λ c. IsLane c.0) calls.now }
        requires few_keys { All (λ c. IsOfFewKeys (call_of c.1)) calls.now }
        ensures ok { (start : State) (history : List machine.Event) → PlayerStands self.old start history
            → IfOk result (λ replies. HasMade self.new start history (map asked calls.now) replies.items) }
        ensures err { (start : State) (history : List machine.Event) → PlayerStands self.old start history
            → OnErr result (HasMadeFirst self.new start history (map asked calls.now)) }
    {
        let mut replies = Vec::with_capacity(rt.alloc(), calls.len())?;
        for (lane, call) in calls {
            let reply = self.step(rt, *lane, call)?;
            replies.push(reply)?;
        }
        Ok(replies)
    }
}

// The pins of lanes that have pinned nothing.
fn no_pins(alloc: Global) -> Result<Vec<PassPins>, AllocError>
    ensures { IfOk result (λ pins. HaveNoPins pins.items) }
{
    let mut pins = Vec::with_capacity(alloc, MAX_LANES as usize)?;
    for lane in 1..=MAX_LANES {
        pins.push(PassPins::new(lane))?;
    }
    Ok(pins)
}
