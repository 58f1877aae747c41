// The lines of a script, one after another.
ghost use Rattle.std.specs.Prelude.{◌≡◌, ℕ, List, [], All, map, OnOk, IfErr, IsTrue, Option, option_map};
ghost use Rattle.adb_model.specs.State.{State};
ghost use Rattle.adb_model.specs.Call as machine;
ghost use Rattle.dir_io.specs.Files.{Files};
ghost use Rattle.script.specs.Seen.{line_seen, order_seen};
ghost use Rattle.replay.specs.Standing.{PlayerStands};
ghost use Rattle.replay.specs.Ending.{HasCounts, HaltsLines};
ghost use Rattle.replay.specs.Playing.{IsPlayable, HasPlayed, SavedLine, HaltsLine, snap_asked};

use crate::player::Player;
use crate::playing::play_events;
use crate::saving::play_snap;
use crate::stops::Halt;
use adb_model::Slot;
use dir_io::Dir;
use script::{JournalPrinter, Line, Order};
use snap_write::snapshots_stand_apart;
use stream_io::Sink;

// The slot and the name of the snapshot that an order asks for, if it asks for one.
fn snapshot_asked(order: &Order) -> Option<(Slot, &str)>
    ensures { option_map (λ s. (s.0, s.1.now)) result ≡ snap_asked (order_seen order.now) }
{
    match order {
        Order::Snap { slot, name } => Some((*slot, name.as_str())),
        _ => None,
    }
}

// Makes the events of one line, and writes the snapshot that it asks for.
fn play_line<R: AllocGlobal, K: Sink, D: Dir>(
    rt: &R,
    player: &mut Player,
    line: &Line,
    printer: &mut JournalPrinter,
    sink: &mut K,
    dir: &mut D,
) -> Result<(), Halt>
    requires { IsPlayable (line_seen line.now) }
    ensures ok { (start : State) (history : List machine.Event) → PlayerStands player.old start history
        → OnOk result (SavedLine player.new start history (K.taken sink.old) (K.taken sink.new) (D.files dir.old) (D.files dir.new) (line_seen line.now)) }
    ensures err { (start : State) (history : List machine.Event) → PlayerStands player.old start history
        → IfErr result (HaltsLine start history (K.taken sink.old) (K.taken sink.new) (D.files dir.old) (D.files dir.new) (line_seen line.now)) }
    ensures synced { OnOk result (IsTrue (D.synced dir.old) → IsTrue (D.synced dir.new)) }
    ensures counts { HasCounts (K.faults sink.old) (K.faults sink.new) (D.faults dir.old) (D.faults dir.new) result }
{
    match snapshot_asked(&line.order) {
        Some((slot, name)) => play_snap(rt, player, line.lane, slot, name, printer, sink, dir),
        None => {
            play_events(rt, player, line, printer, sink)?;
            Ok(())
        }
    }
}

/// Makes the events of all lines, and writes the snapshots that they ask for.
pub fn play_lines<R: AllocGlobal, K: Sink, D: Dir>(
    rt: &R,
    player: &mut Player,
    lines: &[Line],
    printer: &mut JournalPrinter,
    sink: &mut K,
    dir: &mut D,
) -> Result<(), Halt>
    requires { All (λ line. IsPlayable (line_seen line)) lines.now }
    ensures ok { (files : Option Files) (before : Option (List ℕ)) (budget : Option ℕ) (opened : Option (List ℕ))
        → HasPlayed player.old files (D.files dir.old) before (K.taken sink.old) (record { budget = budget; opened = opened; lines = [] })
        → OnOk result (HasPlayed player.new files (D.files dir.new) before (K.taken sink.new) (record { budget = budget; opened = opened; lines = map line_seen lines.now })) }
    ensures err { (files : Option Files) (before : Option (List ℕ)) (budget : Option ℕ) (opened : Option (List ℕ))
        → HasPlayed player.old files (D.files dir.old) before (K.taken sink.old) (record { budget = budget; opened = opened; lines = [] })
        → IfErr result (HaltsLines files (D.files dir.new) before (K.taken sink.new) (record { budget = budget; opened = opened; lines = map line_seen lines.now })) }
    ensures synced { OnOk result (IsTrue (D.synced dir.old) → IsTrue (D.synced dir.new)) }
    ensures counts { HasCounts (K.faults sink.old) (K.faults sink.new) (D.faults dir.old) (D.faults dir.new) result }
{
    snapshots_stand_apart();
    for line in lines {
        play_line(rt, player, line, printer, sink, dir)?;
    }
    Ok(())
}
