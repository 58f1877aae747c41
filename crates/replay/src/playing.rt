// The events of a line, one after another.
ghost use Rattle.std.specs.Prelude.{◌≡◌, ◌≤◌, ℕ, List, OnOk, OnErr, IfOk, IfSome, IsErrOf, Some, None, option_map};
ghost use Rattle.adb_model.specs.State.{State};
ghost use Rattle.adb_model.specs.Call as machine;
ghost use Rattle.adb_model.specs.History.{state_after};
ghost use Rattle.adb_model.specs.Plays.{next_call};
ghost use Rattle.adb_model.specs.Seen.{call_of, reply_of};
ghost use Rattle.script.specs.Said.{line_played, order_played};
ghost use Rattle.script.specs.Seen.{line_seen, order_seen};
ghost use Rattle.stream_io.specs.Stream.{Rose};
ghost use Rattle.replay.specs.Standing.{IsLane, IsOfFewKeys, PlayerStands, FewerLeft, ShowsLive};
ghost use Rattle.replay.specs.Playing.{IsWithinLimits, IsPlayable, PlayedCall, CutCall, PlayedLine, CutLine, snap_asked};

use crate::player::Player;
use crate::saving::end_of;
use crate::stops::Stop;
use adb_model::{Call, Place, Reply, histories_go_on, reclaims_go_on};
use script::{JournalPrinter, Line, Order};
use stream_io::{Sink, write_whole};

/// The most keys of one reclaim of a clean.
const MOST_KEYS: usize = 256;

/// Makes one event, hands its line to the sink, and gives its reply. So many workers fill the storage of a flush
/// that ends.
pub fn play_call<R: AllocGlobal, K: Sink>(
    rt: &R,
    player: &mut Player,
    lane: u64,
    call: &Call,
    workers: usize,
    printer: &mut JournalPrinter,
    sink: &mut K,
) -> Result<Reply, Stop>
    requires lane { IsLane lane }
    requires some_worker { 1 ≤ workers }
    requires few_workers { workers ≤ 16 }
    requires few_keys { IsOfFewKeys (call_of call.now) }
    ensures ok { (start : State) (history : List machine.Event) → PlayerStands player.old start history
        → IfOk result (λ reply. PlayedCall player.new start history (K.taken sink.old) (K.taken sink.new) lane (call_of call.now) (reply_of reply)) }
    ensures err { (start : State) (history : List machine.Event) → PlayerStands player.old start history
        → OnErr result (CutCall start history (K.taken sink.old) (K.taken sink.new) lane (call_of call.now)) }
    ensures fewer { IfOk result (λ reply. FewerLeft (call_of call.now) (reply_of reply) player.old.book player.new.book) }
    ensures shows { (start : State) (history : List machine.Event) → PlayerStands player.old start history
        → IfOk result (λ reply. ShowsLive (call_of call.now) (reply_of reply) (state_after start history) player.new.snap) }
    ensures later { K.faults sink.old ≤ K.faults sink.new }
    ensures kept { OnOk result (K.faults sink.new ≡ K.faults sink.old) }
    ensures unfailed { IsErrOf result Stop.NoMemory → K.faults sink.new ≡ K.faults sink.old }
    ensures cause { IsErrOf result Stop.SinkFault → Rose (K.faults sink.old) (K.faults sink.new) }
{
    // Whatever stops it, the history with this call's event is legal.
    histories_go_on();
    let reply = player.step_by(rt, lane, call, workers)?;
    let line = printer.print(rt.alloc(), lane, call, &reply)?;
    write_whole(sink, line)?;
    Ok(reply)
}

// How many workers fill the storage of an order's flush.
fn workers_of(order: &Order) -> usize
    requires { IsWithinLimits (order_seen order.now) }
    ensures least { 1 ≤ result }
    ensures most { result ≤ 16 }
{
    match order {
        Order::Flush { workers, .. } => *workers,
        _ => 1,
    }
}

// The call that an order asks for after the reply to its last one.
fn call_after(order: &Order, reply: &Reply) -> Option<Call>
    ensures few_keys { IfSome result (λ call. IsOfFewKeys (call_of call)) }
    ensures call { option_map call_of result ≡ next_call (order_played (order_seen order.now)) (Some (reply_of reply.now)) }
{
    match (order, reply) {
        (
            Order::Get { .. },
            Reply::Found {
                place: Place::InStorage { id },
                ..
            },
        ) => Some(Call::Unpin { id: *id }),
        (Order::Flush { slot, .. }, Reply::FlushBegun { .. }) => Some(Call::FlushEnd {
            slot: *slot,
        }),
        (Order::Shrink { slot }, Reply::ShrinkBegun { .. }) => Some(Call::ShrinkEnd {
            slot: *slot,
        }),
        (Order::Snap { slot, .. }, reply) => end_of(*slot, reply),
        (Order::Clean { .. }, Reply::Raised { .. }) => Some(Call::Reclaim {
            after: None,
            most: MOST_KEYS,
        }),
        (Order::Clean { .. }, Reply::Reclaimed { key }) => Some(Call::Reclaim {
            after: Some(*key),
            most: MOST_KEYS,
        }),
        _ => None,
    }
}

/// Makes the events of a line, whose first call this is.
pub fn play_from<R: AllocGlobal, K: Sink>(
    rt: &R,
    player: &mut Player,
    line: &Line,
    first: &Call,
    printer: &mut JournalPrinter,
    sink: &mut K,
) -> Result<(), Stop>
    requires line { IsPlayable (line_seen line.now) }
    requires few_keys { IsOfFewKeys (call_of first.now) }
    requires first { next_call (order_played (order_seen line.now.order)) None ≡ Some (call_of first.now) }
    ensures ok { (start : State) (history : List machine.Event) → PlayerStands player.old start history
        → OnOk result (PlayedLine player.new start history (K.taken sink.old) (K.taken sink.new) (line_played (line_seen line.now))) }
    ensures err { (start : State) (history : List machine.Event) → PlayerStands player.old start history
        → OnErr result (CutLine start history (K.taken sink.old) (K.taken sink.new) (line_played (line_seen line.now))) }
    ensures later { K.faults sink.old ≤ K.faults sink.new }
    ensures kept { OnOk result (K.faults sink.new ≡ K.faults sink.old) }
    ensures unfailed { IsErrOf result Stop.NoMemory → K.faults sink.new ≡ K.faults sink.old }
    ensures cause { IsErrOf result Stop.SinkFault → Rose (K.faults sink.old) (K.faults sink.new) }
{
    histories_go_on();
    reclaims_go_on();
    let workers = workers_of(&line.order);
    let mut reply = play_call(rt, player, line.lane, first, workers, printer, sink)?;
    while let Some(call) = call_after(&line.order, &reply) {
        player.has_history();
        reply = play_call(rt, player, line.lane, &call, workers, printer, sink)?;
    }
    Ok(())
}

/// Makes the events of a line that doesn't ask for a snapshot.
pub fn play_events<R: AllocGlobal, K: Sink>(
    rt: &R,
    player: &mut Player,
    line: &Line,
    printer: &mut JournalPrinter,
    sink: &mut K,
) -> Result<(), Stop>
    requires line { IsPlayable (line_seen line.now) }
    requires no_snapshot { snap_asked (order_seen line.now.order) ≡ None }
    ensures ok { (start : State) (history : List machine.Event) → PlayerStands player.old start history
        → OnOk result (PlayedLine player.new start history (K.taken sink.old) (K.taken sink.new) (line_played (line_seen line.now))) }
    ensures err { (start : State) (history : List machine.Event) → PlayerStands player.old start history
        → OnErr result (CutLine start history (K.taken sink.old) (K.taken sink.new) (line_played (line_seen line.now))) }
    ensures later { K.faults sink.old ≤ K.faults sink.new }
    ensures kept { OnOk result (K.faults sink.new ≡ K.faults sink.old) }
    ensures unfailed { IsErrOf result Stop.NoMemory → K.faults sink.new ≡ K.faults sink.old }
    ensures cause { IsErrOf result Stop.SinkFault → Rose (K.faults sink.old) (K.faults sink.new) }
{
    histories_go_on();
    reclaims_go_on();
    match &line.order {
        Order::Event(call) => play_from(rt, player, line, call, printer, sink),
        Order::Get { view, key } => {
            let view = view.try_copy(rt.alloc())?;
            let call = Call::Load { view, key: *key };
            play_from(rt, player, line, &call, printer, sink)
        }
        Order::Flush { slot, .. } => {
            let call = Call::FlushBegin { slot: *slot };
            play_from(rt, player, line, &call, printer, sink)
        }
        Order::Clean { upto } => {
            let call = Call::Raise { upto: *upto };
            play_from(rt, player, line, &call, printer, sink)
        }
        Order::Shrink { slot } => {
            let call = Call::ShrinkBegin { slot: *slot };
            play_from(rt, player, line, &call, printer, sink)
        }
        Order::Snap { .. } => unreachable!(),
    }
}
