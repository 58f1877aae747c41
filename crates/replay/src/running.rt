// A script, from its header to its end.
ghost use Rattle.std.specs.Prelude.{◌≡◌, ◌≤◌, ◌⊎◌, ℕ, List, [], All, Option, IfOk, IfErr, IsTrue, string_bytes};
ghost use Rattle.adb_model.specs.State.{fresh};
ghost use Rattle.dir_io.specs.Files.{Files};
ghost use Rattle.stream_io.specs.Stream.{Rose};
ghost use Rattle.script.specs.Grammar.{IsScript};
ghost use Rattle.script.specs.Seen.{line_seen, script_seen};
ghost use Rattle.replay.specs.Standing.{PlayerStands};
ghost use Rattle.replay.specs.Journaled.{IsStatus, PlayedAll, CutShort, DirectoryFailed, SnapshotRefused, not_opened_line};
ghost use Rattle.replay.specs.Ending.{HasCounts, HaltsHeader, EndsBy};
ghost use Rattle.replay.specs.Playing.{IsPlayable, HasPlayed, HasOpened, HaltsOpening, HaltsOpened, without_lines};

use crate::lines::play_lines;
use crate::player::Player;
use crate::stops::{Halt, Stop, end_halted};
use book::Book;
use dir_io::Dir;
use script::{JournalPrinter, Script};
use snap_open::{OpenFault, open_snapshot};
use std::alloc::{AllocError, Global};
use stream_io::{Sink, write_whole};

// A player of a book without accounts, whose storages may have so many bytes together.
fn fresh_player(alloc: Global, budget: u64) -> Result<Player, AllocError>
    ensures { IfOk result (λ player. PlayerStands player (fresh budget 1) []) }
{
    let book = Book::new(alloc, budget, 1)?;
    Player::new(alloc, book)
}

/// The last line of a run that opens no snapshot.
#[tactic(auto, unfolding(crate::specs::Journaled::not_opened_line))]
pub fn not_opened_text(alloc: Global, name: &str, fault: &OpenFault) -> Result<String, AllocError>
    ensures { IfOk result (λ line. string_bytes line ≡ not_opened_line name.now fault.now) }
{
    let mut line = format!(in alloc; "open {name} = {fault}")?;
    line.push_str("\n")?;
    Ok(line)
}

// Why a run ends whose header opens no snapshot.
fn halt_of(alloc: Global, name: &str, fault: OpenFault) -> Halt
    ensures { HaltsOpening name.now fault result }
{
    match fault {
        OpenFault::DirFault => Halt::DirFault,
        OpenFault::NoMemory => Halt::Cut(Stop::NoMemory),
        fault => match not_opened_text(alloc, name, &fault) {
            Ok(line) => Halt::Refused { line },
            Err(AllocError) => Halt::Cut(Stop::NoMemory),
        },
    }
}

// A player of the snapshot of this name, whose line of the journal it hands to the sink.
fn opened_player<R: AllocGlobal, K: Sink, D: Dir>(
    rt: &R,
    name: &str,
    budget: u64,
    printer: &mut JournalPrinter,
    sink: &mut K,
    dir: &mut D,
) -> Result<Player, Halt>
    ensures ok { IfOk result (λ player. HasOpened player (D.files dir.old) (K.taken sink.old) (K.taken sink.new) name.now budget) }
    ensures err { IfErr result (HaltsOpened (D.files dir.old) (K.taken sink.old) (K.taken sink.new) name.now budget) }
    ensures files { D.files dir.new ≡ D.files dir.old }
    ensures synced { D.synced dir.new ≡ D.synced dir.old }
    ensures counts { HasCounts (K.faults sink.old) (K.faults sink.new) (D.faults dir.old) (D.faults dir.new) result }
{
    let (book, slot) = match open_snapshot(rt.alloc(), name, budget, dir) {
        Ok(opened) => opened,
        Err(fault) => return Err(halt_of(rt.alloc(), name, fault)),
    };
    let player = Player::new(rt.alloc(), book)?;
    let line = printer.print_opened(name, slot)?;
    write_whole(sink, line)?;
    Ok(player)
}

// The header's lines, and a player who has played no line.
fn begin_script<R: AllocGlobal, K: Sink, D: Dir>(
    rt: &R,
    script: &Script,
    printer: &mut JournalPrinter,
    sink: &mut K,
    dir: &mut D,
) -> Result<Player, Halt>
    ensures ok { IfOk result (λ player. HasPlayed player (D.files dir.old) (D.files dir.new) (K.taken sink.old) (K.taken sink.new) (without_lines (script_seen script.now))) }
    ensures err { IfErr result (HaltsHeader (D.files dir.old) (D.files dir.new) (K.taken sink.old) (K.taken sink.new) (script_seen script.now)) }
    ensures synced { D.synced dir.new ≡ D.synced dir.old }
    ensures counts { HasCounts (K.faults sink.old) (K.faults sink.new) (D.faults dir.old) (D.faults dir.new) result }
{
    let line = printer.print_budget(script.budget)?;
    write_whole(sink, line)?;
    match &script.opened {
        None => Ok(fresh_player(rt.alloc(), script.byte_budget())?),
        Some(name) => opened_player(rt, name, script.byte_budget(), printer, sink, dir),
    }
}

// The lines after the header, and the last line of a run that is halted; and the status.
fn play_script<R: AllocGlobal, K: Sink, D: Dir>(
    rt: &R,
    player: &mut Player,
    script: &Script,
    printer: &mut JournalPrinter,
    sink: &mut K,
    dir: &mut D,
) -> u8
    requires { All (λ line. IsPlayable (line_seen line)) script.now.lines.items }
    ensures ends { (files : Option Files) (before : Option (List ℕ))
        → HasPlayed player.old files (D.files dir.old) before (K.taken sink.old) (without_lines (script_seen script.now))
        → EndsBy files (D.files dir.new) before (K.taken sink.new) (K.faults sink.old) (K.faults sink.new) (D.faults dir.old) (D.faults dir.new) (script_seen script.now) result }
    ensures synced { result ≡ 0 → IsTrue (D.synced dir.old) → IsTrue (D.synced dir.new) }
{
    match play_lines(rt, player, &script.lines, printer, sink, dir) {
        Ok(()) => 0,
        Err(halt) => end_halted(&halt, sink),
    }
}

// The whole script, and its status.
fn run_to_end<R: AllocGlobal, K: Sink, D: Dir>(
    rt: &R,
    script: &Script,
    sink: &mut K,
    dir: &mut D,
) -> (u8, Option<Player>)
    requires { (bytes : List ℕ) × IsScript bytes (script_seen script.now) }
    ensures ends { EndsBy (D.files dir.old) (D.files dir.new) (K.taken sink.old) (K.taken sink.new) (K.faults sink.old) (K.faults sink.new) (D.faults dir.old) (D.faults dir.new) (script_seen script.now) result.0 }
    ensures synced { result.0 ≡ 0 → IsTrue (D.synced dir.old) → IsTrue (D.synced dir.new) }
{
    let mut printer = JournalPrinter::new(rt.alloc());
    match begin_script(rt, script, &mut printer, sink, dir) {
        Err(halt) => (end_halted(&halt, sink), None),
        Ok(mut player) => {
            let status = play_script(rt, &mut player, script, &mut printer, sink, dir);
            (status, Some(player))
        }
    }
}

/// Makes the events of a script's lines in order, from the fresh state with the script's budget, or from the snapshot
/// that its header names, and writes the snapshots that its lines ask for. It hands the header's journal lines, if
/// there are any, to the sink before the first event, and each other line when its event is done. It doesn't flush
/// the sink.
///
/// The status is
///
/// - 0 where all lines were played. Each snapshot that began stands in the directory, no other file changed, and all is
///   synced where it was before;
/// - 4 where the sink failed at a line of the journal, which it took some of the front of;
/// - 5 where the directory failed at a snapshot that was written or opened;
/// - 6 for want of memory; the sink took some of the front of the journal;
/// - 7 where a snapshot's name is there at its line, or where the snapshot that the header names is refused.
///
/// With 5 and 7 a last line says so, which the sink may fail at. After the line of a snapshot that wasn't written no
/// further one is played; the earlier snapshots stand.
pub fn run_replay<R: AllocGlobal, K: Sink, D: Dir>(
    rt: &R,
    script: &Script,
    sink: &mut K,
    dir: &mut D,
) -> u8
    requires { (bytes : List ℕ) × IsScript bytes (script_seen script.now) }
    ensures which { IsStatus result }
    ensures done { result ≡ 0 → PlayedAll (D.files dir.old) (D.files dir.new) (K.taken sink.old) (K.taken sink.new) (script_seen script.now) }
    ensures synced { result ≡ 0 → IsTrue (D.synced dir.old) → IsTrue (D.synced dir.new) }
    ensures cut { (result ≡ 4) ⊎ (result ≡ 6) → CutShort (D.files dir.old) (D.files dir.new) (K.taken sink.old) (K.taken sink.new) (script_seen script.now) }
    ensures failed { result ≡ 5 → DirectoryFailed (D.files dir.old) (D.files dir.new) (K.taken sink.old) (K.taken sink.new) (K.faults sink.old) (K.faults sink.new) (script_seen script.now) }
    ensures refused { result ≡ 7 → SnapshotRefused (D.files dir.old) (D.files dir.new) (K.taken sink.old) (K.taken sink.new) (K.faults sink.old) (K.faults sink.new) (script_seen script.now) }
    ensures sink_later { K.faults sink.old ≤ K.faults sink.new }
    ensures sink_kept { (result ≡ 0) ⊎ (result ≡ 6) → K.faults sink.new ≡ K.faults sink.old }
    ensures sink_fault { result ≡ 4 → Rose (K.faults sink.old) (K.faults sink.new) }
    ensures dir_later { D.faults dir.old ≤ D.faults dir.new }
    ensures dir_kept { (result ≡ 0) ⊎ (result ≡ 7) → D.faults dir.new ≡ D.faults dir.old }
    ensures dir_fault { result ≡ 5 → Rose (D.faults dir.old) (D.faults dir.new) }
{
    let (status, _player) = run_replay_with_player(rt, script, sink, dir);
    status
}

/// As [`run_replay`], and hands the player back, unless there was none. A program that ends then can forget it: to
/// give back all that its book has takes time.
pub fn run_replay_with_player<R: AllocGlobal, K: Sink, D: Dir>(
    rt: &R,
    script: &Script,
    sink: &mut K,
    dir: &mut D,
) -> (u8, Option<Player>)
    requires { (bytes : List ℕ) × IsScript bytes (script_seen script.now) }
    ensures which { IsStatus result.0 }
    ensures done { result.0 ≡ 0 → PlayedAll (D.files dir.old) (D.files dir.new) (K.taken sink.old) (K.taken sink.new) (script_seen script.now) }
    ensures synced { result.0 ≡ 0 → IsTrue (D.synced dir.old) → IsTrue (D.synced dir.new) }
    ensures cut { (result.0 ≡ 4) ⊎ (result.0 ≡ 6) → CutShort (D.files dir.old) (D.files dir.new) (K.taken sink.old) (K.taken sink.new) (script_seen script.now) }
    ensures failed { result.0 ≡ 5 → DirectoryFailed (D.files dir.old) (D.files dir.new) (K.taken sink.old) (K.taken sink.new) (K.faults sink.old) (K.faults sink.new) (script_seen script.now) }
    ensures refused { result.0 ≡ 7 → SnapshotRefused (D.files dir.old) (D.files dir.new) (K.taken sink.old) (K.taken sink.new) (K.faults sink.old) (K.faults sink.new) (script_seen script.now) }
    ensures sink_later { K.faults sink.old ≤ K.faults sink.new }
    ensures sink_kept { (result.0 ≡ 0) ⊎ (result.0 ≡ 6) → K.faults sink.new ≡ K.faults sink.old }
    ensures sink_fault { result.0 ≡ 4 → Rose (K.faults sink.old) (K.faults sink.new) }
    ensures dir_later { D.faults dir.old ≤ D.faults dir.new }
    ensures dir_kept { (result.0 ≡ 0) ⊎ (result.0 ≡ 7) → D.faults dir.new ≡ D.faults dir.old }
    ensures dir_fault { result.0 ≡ 5 → Rose (D.faults dir.old) (D.faults dir.new) }
{
    run_to_end(rt, script, sink, dir)
}
