ghost use Rattle.std.specs.Prelude.{◌≡◌, ◌≢◌, ◌≤◌, ◌↔◌, ◌⊎◌, ℕ, List, [], map, option_map, Some, None, IsTrue};
ghost use Rattle.std.specs.String.{string_bytes};
ghost use Rattle.std.specs.Io.KnownBytes.{Keeps};
ghost use Rattle.stream_io.specs.Stream.{Rose};
ghost use Rattle.replay.specs.Journaled.{EndsWith};
ghost use Rattle.adb.specs.Run.{Replay, Open, is_replay as asks_replay, name_asked as asks_open, command_of, usage_line, read_fault_line, IsDone, IsCut, IsLost, IsSnapRefused, IsRefused, TellsScript, TellsNoScript, IsStatus, HasCauses, PlayedBytes, IsUnused, Ended};

use crate::ending::End;
use crate::opening::open;
use dir_io::Dir;
use replay::{end_with, run_replay_with_player};
use script::{ScriptFault, parse};
use std::mem::forget;
use stream_io::{ReadFault, Sink, Source, read_whole};
use text_fields::is_name;

/// The most bytes that a script has.
const MAX_SCRIPT_LEN: usize = 268_435_456;

// Whether the words are those of the command `replay`.
fn is_replay(words: &[String]) -> bool
    ensures { result ≡ asks_replay (map (λ word. string_bytes word) words.now) }
{
    match words {
        [word] => word.as_str() == "replay",
        _ => false,
    }
}

// The name of the snapshot that the words of the command `open` ask for.
fn name_asked(words: &[String]) -> Option<&str>
    ensures { option_map (λ name. name.now) result ≡ asks_open (map (λ word. string_bytes word) words.now) }
{
    match words {
        [word, name] => {
            if word.as_str() == "open" && is_name(name.as_bytes()) {
                Some(name.as_str())
            } else {
                None
            }
        }
        _ => None,
    }
}

// Plays the script that some bytes are. Their memory is given up before the first line is played.
fn play<R: AllocGlobal, K: Sink, D: Dir>(rt: &R, bytes: Vec<u8>, sink: &mut K, dir: &mut D) -> End
    ensures played { PlayedBytes bytes.items (D.files dir.old) (D.files dir.new) (K.taken sink.old) (K.taken sink.new) (K.faults sink.old) (K.faults sink.new) result }
    ensures causes { (s : ℕ) → HasCauses s s (D.faults dir.old) (D.faults dir.new) (K.faults sink.old) (K.faults sink.new) result }
    ensures synced { result ≡ End.Done → IsTrue (D.synced dir.old) → IsTrue (D.synced dir.new) }
    ensures unused { IsUnused result → dir.new ≡ dir.old }
    ensures sink_unfailed { result ≡ End.NoMemory → K.faults sink.new ≡ K.faults sink.old }
{
    let parsed = parse(rt.alloc(), &bytes);
    drop(bytes);
    match parsed {
        Err(ScriptFault::NoMemory) => End::NoMemory,
        Err(ScriptFault::Form) => {
            end_with(sink, "script: refused\n");
            End::Refused
        }
        Ok(script) => {
            let (status, player) = run_replay_with_player(rt, &script, sink, dir);
            // The run ends here: to give back what the book and each line hold would only take time.
            forget(player);
            forget(script);
            match status {
                0 => End::Done,
                4 => End::SinkFault,
                5 => End::DirFault,
                7 => End::SnapRefused,
                _ => End::NoMemory,
            }
        }
    }
}

// Reads a script, and plays it.
fn replay<R: AllocGlobal, S: Source, K: Sink, D: Dir>(
    rt: &R,
    source: &mut S,
    sink: &mut K,
    dir: &mut D,
) -> End
    ensures ended { Ended (Some Replay) (S.left source.old) (S.left source.new) (D.files dir.old) (D.files dir.new)
        (K.taken sink.old) (K.taken sink.new) (K.faults sink.old) (K.faults sink.new) result }
    ensures causes { HasCauses (S.faults source.old) (S.faults source.new) (D.faults dir.old) (D.faults dir.new) (K.faults sink.old) (K.faults sink.new) result }
    ensures synced { result ≡ End.Done → IsTrue (D.synced dir.old) → IsTrue (D.synced dir.new) }
    ensures unused { IsUnused result → dir.new ≡ dir.old }
    ensures sink_unfailed { result ≡ End.NoMemory → K.faults sink.new ≡ K.faults sink.old }
{
    match read_whole(rt.alloc(), source, MAX_SCRIPT_LEN) {
        Ok(bytes) => play(rt, bytes, sink, dir),
        Err(ReadFault::Failed) => {
            end_with(sink, "adb: read fault\n");
            End::ReadFault
        }
        Err(ReadFault::TooLong { .. }) => {
            end_with(sink, "script: longer than 268435456 bytes\n");
            End::TooLong
        }
        Err(ReadFault::NoMemory) => End::NoMemory,
    }
}

// Does all that the program does, but for the flush of the sink.
fn run_unflushed<R: AllocGlobal, S: Source, K: Sink, D: Dir>(
    rt: &R,
    words: &[String],
    source: &mut S,
    sink: &mut K,
    dir: &mut D,
) -> End
    ensures ended { Ended (command_of (map (λ word. string_bytes word) words.now)) (S.left source.old) (S.left source.new) (D.files dir.old) (D.files dir.new)
        (K.taken sink.old) (K.taken sink.new) (K.faults sink.old) (K.faults sink.new) result }
    ensures causes { HasCauses (S.faults source.old) (S.faults source.new) (D.faults dir.old) (D.faults dir.new) (K.faults sink.old) (K.faults sink.new) result }
    ensures unread { command_of (map (λ word. string_bytes word) words.now) ≢ Some Replay → source.new ≡ source.old }
    ensures only_read { command_of (map (λ word. string_bytes word) words.now) ≢ Some Replay → D.files dir.new ≡ D.files dir.old }
    ensures synced { result ≡ End.Done → IsTrue (D.synced dir.old) → IsTrue (D.synced dir.new) }
    ensures unused { IsUnused result → dir.new ≡ dir.old }
    ensures sink_unfailed { result ≡ End.NoMemory → K.faults sink.new ≡ K.faults sink.old }
{
    if is_replay(words) {
        return replay(rt, source, sink, dir);
    }
    match name_asked(words) {
        Some(name) => open(rt, name, sink, dir),
        None => {
            end_with(sink, "adb: usage: adb replay | open NAME\n");
            End::Usage
        }
    }
}

// Does all that the program does. A flush that fails turns a run that was done into a fault of the sink.
fn run_to_end<R: AllocGlobal, S: Source, K: Sink, D: Dir>(
    rt: &R,
    words: &[String],
    source: &mut S,
    sink: &mut K,
    dir: &mut D,
) -> End
    ensures ended { Ended (command_of (map (λ word. string_bytes word) words.now)) (S.left source.old) (S.left source.new) (D.files dir.old) (D.files dir.new)
        (K.taken sink.old) (K.taken sink.new) (K.faults sink.old) (K.faults sink.new) result }
    ensures causes { HasCauses (S.faults source.old) (S.faults source.new) (D.faults dir.old) (D.faults dir.new) (K.faults sink.old) (K.faults sink.new) result }
    ensures unread { command_of (map (λ word. string_bytes word) words.now) ≢ Some Replay → source.new ≡ source.old }
    ensures only_read { command_of (map (λ word. string_bytes word) words.now) ≢ Some Replay → D.files dir.new ≡ D.files dir.old }
    ensures synced { result ≡ End.Done → IsTrue (D.synced dir.old) → IsTrue (D.synced dir.new) }
    ensures unused { IsUnused result → dir.new ≡ dir.old }
    ensures flushed { ¬ (Rose (K.faults sink.old) (K.faults sink.new)) → IsTrue (K.flushed sink.new) }
{
    let end = run_unflushed(rt, words, source, sink, dir);
    match sink.flush() {
        Ok(()) => end,
        Err(_) => match end {
            End::Done => End::SinkFault,
            _ => end,
        },
    }
}

/// The whole program. It takes the words of the command line without the program's name, reads the source, writes
/// to the sink and to the directory, flushes the sink once, and answers the exit status. The words are
///
/// - `replay`: the source's bytes are a script, whose journal goes to the sink;
/// - `open NAME`: the sink is told the snapshot of this name and its accounts. Nothing is read from the source, and no
///   file changes.
///
/// The first cause that is met gives the status:
///
/// - 0: all was done, and the sink took it whole;
/// - 1: the words are other ones;
/// - 2: the source's bytes are no script, or are more than 268,435,456;
/// - 3: the source failed;
/// - 4: the sink failed;
/// - 5: the directory failed;
/// - 6: want of memory;
/// - 7: the snapshot that is to be opened is refused, or the name of one that the script writes is there.
///
/// With 1, 2, 3, 5 and 7 a last line says so, which the sink may fail at.
pub fn run<R: AllocGlobal, S: Source, K: Sink, D: Dir>(
    rt: &R,
    words: &[String],
    source: &mut S,
    sink: &mut K,
    dir: &mut D,
) -> u8
    ensures which { IsStatus result }

    // The words are not those of a command. Nothing is read then, nor by `open`.
    ensures usage { (result ≡ 1) ↔ (command_of (map (λ word. string_bytes word) words.now) ≡ None) }
    ensures usage_line { result ≡ 1 → EndsWith (K.taken sink.old) (K.taken sink.new) (K.faults sink.old) (K.faults sink.new) [] usage_line }
    ensures unread { command_of (map (λ word. string_bytes word) words.now) ≢ Some Replay → source.new ≡ source.old }

    // The source gave a script, was read to its end, the sink took the whole journal, and the snapshots stand;
    // or the sink took the lines of the snapshot and of all its accounts.
    ensures done { result ≡ 0 → IsDone (command_of (map (λ word. string_bytes word) words.now)) (S.left source.old) (S.left source.new) (D.files dir.old) (D.files dir.new) (K.taken sink.old) (K.taken sink.new) }
    // All that was written is synced then, where it was so before.
    ensures synced { result ≡ 0 → IsTrue (D.synced dir.old) → IsTrue (D.synced dir.new) }
    // Nothing failed then, the flush included.
    ensures unfailed { result ≡ 0 → (S.faults source.new ≡ S.faults source.old) × (D.faults dir.new ≡ D.faults dir.old) × (K.faults sink.new ≡ K.faults sink.old) }

    // The source gave no script, or too many bytes, and the sink took the line that says so.
    ensures refused { result ≡ 2 → (command_of (map (λ word. string_bytes word) words.now) ≡ Some Replay) × IsRefused (S.left source.old) (S.left source.new) (K.taken sink.old) (K.taken sink.new) (K.faults sink.old) (K.faults sink.new) }
    ensures refuses { command_of (map (λ word. string_bytes word) words.now) ≡ Some Replay → TellsNoScript (S.left source.old)
        → ¬ (Rose (S.faults source.old) (S.faults source.new)) → (result ≡ 2) ⊎ (result ≡ 6) }

    // The source failed.
    ensures read_fault { result ≡ 3 → Rose (S.faults source.old) (S.faults source.new) }
    ensures no_read_fault { result ≢ 3 → S.faults source.new ≡ S.faults source.old }
    ensures read_fault_line { result ≡ 3 → EndsWith (K.taken sink.old) (K.taken sink.new) (K.faults sink.old) (K.faults sink.new) [] read_fault_line }

    // The sink failed: it took some of the front of what was due.
    ensures sink_fault { result ≡ 4 → Rose (K.faults sink.old) (K.faults sink.new) }
    ensures sink_front { result ≡ 4 → IsCut (command_of (map (λ word. string_bytes word) words.now)) (S.left source.old) (S.left source.new) (D.files dir.old) (D.files dir.new) (K.taken sink.old) (K.taken sink.new) }

    // The directory failed at a snapshot: the sink took the journal up to there, and the line that says so.
    ensures directory_fault { result ≡ 5 → Rose (D.faults dir.old) (D.faults dir.new) }
    ensures directory_fault_line { result ≡ 5 → IsLost (command_of (map (λ word. string_bytes word) words.now)) (S.left source.old) (S.left source.new) (D.files dir.old) (D.files dir.new)
        (K.taken sink.old) (K.taken sink.new) (K.faults sink.old) (K.faults sink.new) }

    // Want of memory: the sink took nothing, or some of the front of the journal.
    ensures no_memory { result ≡ 6 → (Keeps (K.taken sink.old) (K.taken sink.new) × (D.files dir.new ≡ D.files dir.old))
        ⊎ IsCut (command_of (map (λ word. string_bytes word) words.now)) (S.left source.old) (S.left source.new) (D.files dir.old) (D.files dir.new) (K.taken sink.old) (K.taken sink.new) }

    // A snapshot is refused, or its name is there: the sink took the journal up to there, and the line that says so.
    ensures snapshot_refused { result ≡ 7 → IsSnapRefused (command_of (map (λ word. string_bytes word) words.now)) (S.left source.old) (S.left source.new) (D.files dir.old) (D.files dir.new)
        (K.taken sink.old) (K.taken sink.new) (K.faults sink.old) (K.faults sink.new) }
    ensures no_directory_fault { result ≡ 7 → D.faults dir.new ≡ D.faults dir.old }

    // No file is changed by `open`.
    ensures only_read { command_of (map (λ word. string_bytes word) words.now) ≢ Some Replay → D.files dir.new ≡ D.files dir.old }

    // No call of the directory was made.
    ensures unused { (result ≡ 1) ⊎ (result ≡ 2) ⊎ (result ≡ 3) → dir.new ≡ dir.old }

    // With a script, and no fault of the streams and the directory, the run is done, unless memory is wanted or a snapshot refused.
    ensures complete { command_of (map (λ word. string_bytes word) words.now) ≡ Some Replay → TellsScript (S.left source.old)
        → ¬ (Rose (S.faults source.old) (S.faults source.new)) → ¬ (Rose (D.faults dir.old) (D.faults dir.new)) → ¬ (Rose (K.faults sink.old) (K.faults sink.new))
        → (result ≡ 0) ⊎ (result ≡ 6) ⊎ (result ≡ 7) }

    ensures complete_open { (name : List ℕ) → command_of (map (λ word. string_bytes word) words.now) ≡ Some (Open name)
        → ¬ (Rose (D.faults dir.old) (D.faults dir.new)) → ¬ (Rose (K.faults sink.old) (K.faults sink.new)) → (result ≡ 0) ⊎ (result ≡ 6) ⊎ (result ≡ 7) }

    // However the run ended, nothing is held back, unless the sink failed.
    ensures flushed { ¬ (Rose (K.faults sink.old) (K.faults sink.new)) → IsTrue (K.flushed sink.new) }

    ensures source_later { S.faults source.old ≤ S.faults source.new }
    ensures dir_later { D.faults dir.old ≤ D.faults dir.new }
    ensures sink_later { K.faults sink.old ≤ K.faults sink.new }
{
    run_to_end(rt, words, source, sink, dir).status()
}
