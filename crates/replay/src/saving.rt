// A line that asks for a snapshot.
ghost use Rattle.std.specs.Prelude.{◌≡◌, ℕ, List, Some, OnOk, IfOk, IfErr, IsTrue, option_map, string_bytes};
ghost use Rattle.adb_model.specs.State.{State};
ghost use Rattle.adb_model.specs.Call as machine;
ghost use Rattle.adb_model.specs.Plays as plays;
ghost use Rattle.adb_model.specs.Plays.{next_call};
ghost use Rattle.adb_model.specs.Seen.{call_of, reply_of};
ghost use Rattle.replay.specs.Standing.{IsLane, PlayerStands};
ghost use Rattle.replay.specs.Saved.{snap_line};
ghost use Rattle.replay.specs.Journaled.{exists_line};
ghost use Rattle.replay.specs.Ending.{HasCounts};
ghost use Rattle.replay.specs.Playing.{SavedLine, HaltsLine, Judges};

use crate::player::Player;
use crate::playing::play_call;
use crate::stops::{Halt, Stop};
use adb_model::{
    Call, Reply, Slot, histories_go_on, nothing_returns, reclaims_go_on, snaps_stay_open,
};
use dir_io::Dir;
use script::JournalPrinter;
use snap_write::SnapFault;
use std::alloc::{AllocError, Global};
use stream_io::Sink;

/// The end of a snapshot, where the reply to its begin says that it began.
pub fn end_of(slot: Slot, reply: &Reply) -> Option<Call>
    ensures { option_map call_of result ≡ next_call (plays.Snap slot) (Some (reply_of reply.now)) }
{
    match reply {
        Reply::SnapBegun { .. } => Some(Call::SnapEnd { slot }),
        _ => None,
    }
}

// The last line of a run that finds a file under a snapshot's name.
#[tactic(auto, unfolding(crate::specs::Journaled::exists_line))]
fn exists_text(alloc: Global, name: &str) -> Result<String, AllocError>
    ensures { IfOk result (λ line. string_bytes line ≡ exists_line name.now) }
{
    let mut line = format!(in alloc; "snapshot {name} exists")?;
    line.push_str("\n")?;
    Ok(line)
}

// Whether the run goes on after the writing of a snapshot.
fn judge(alloc: Global, name: &str, written: Result<(), SnapFault>) -> Result<(), Halt>
    ensures { Judges name.now written result }
{
    match written {
        Ok(()) => Ok(()),
        Err(SnapFault::Exists) => {
            let line = exists_text(alloc, name)?;
            Err(Halt::Refused { line })
        }
        Err(SnapFault::DirFault) => Err(Halt::DirFault),
        Err(SnapFault::NoMemory) => Err(Halt::Cut(Stop::NoMemory)),
    }
}

/// Makes the events of a line that asks for a snapshot. Where it begins, it is written to the directory, and it ends
/// whatever comes of that.
pub fn play_snap<R: AllocGlobal, K: Sink, D: Dir>(
    rt: &R,
    player: &mut Player,
    lane: u64,
    slot: Slot,
    name: &str,
    printer: &mut JournalPrinter,
    sink: &mut K,
    dir: &mut D,
) -> Result<(), Halt>
    requires { IsLane lane }
    ensures ok { (start : State) (history : List machine.Event) → PlayerStands player.old start history
        → OnOk result (SavedLine player.new start history (K.taken sink.old) (K.taken sink.new) (D.files dir.old) (D.files dir.new) (snap_line lane slot name.now)) }
    ensures err { (start : State) (history : List machine.Event) → PlayerStands player.old start history
        → IfErr result (HaltsLine start history (K.taken sink.old) (K.taken sink.new) (D.files dir.old) (D.files dir.new) (snap_line lane slot name.now)) }
    ensures synced { OnOk result (IsTrue (D.synced dir.old) → IsTrue (D.synced dir.new)) }
    ensures counts { HasCounts (K.faults sink.old) (K.faults sink.new) (D.faults dir.old) (D.faults dir.new) result }
{
    histories_go_on();
    reclaims_go_on();
    snaps_stay_open();
    nothing_returns();
    player.has_history();
    let begin = Call::SnapBegin { slot };
    let reply = play_call(rt, player, lane, &begin, 1, printer, sink)?;
    let Some(end) = end_of(slot, &reply) else {
        return Ok(());
    };
    let written = player.write_snapshot(rt.alloc(), name, dir);
    play_call(rt, player, lane, &end, 1, printer, sink)?;
    judge(rt.alloc(), name, written)
}
