// The accounts of a snapshot, by rising key.
ghost use Rattle.std.specs.Prelude.{◌≡◌, ◌≤◌, ℕ, List, [], OnOk, OnErr, flat_map};
ghost use Rattle.stream_io.specs.Stream.{AppendsFront};
ghost use Rattle.std.specs.Io.KnownBytes.{Appends};
ghost use Rattle.adb_model.specs.State.{State, Stored};
ghost use Rattle.adb_model.specs.Call as machine;
ghost use Rattle.adb_model.specs.History.{state_after};
ghost use Rattle.adb_model.specs.Laws.{at_root};
ghost use Rattle.adb_model.specs.Opened.{Image, opened};
ghost use Rattle.book_parts.specs.Stands.{Stands};
ghost use Rattle.script.specs.Said.{default_budget};
ghost use Rattle.adb.specs.Opening.{HasStopCause, AreAnswers, line_of, read_line, ListedAll, ListedFront, OpenEnded, NotOpened};
ghost use Rattle.adb.specs.Run.{HasCauses};

use crate::ending::End;
use adb_model::{Key, Slot, View};
use book::{Answer, Batch, Book};
use dir_io::Dir;
use replay::{Stop, end_with, not_opened_text};
use script::{DEFAULT_BUDGET, JournalPrinter};
use snap_open::{OpenFault, open_snapshot};
use std::alloc::{AllocError, Global};
use std::mem::forget;
use stream_io::{Sink, write_whole};

// Hands the line of what was read of a key, if it has one, to the sink.
fn write_answer<K: Sink>(
    key: &Key,
    answer: &Option<Answer<'_>>,
    printer: &mut JournalPrinter,
    sink: &mut K,
) -> Result<(), Stop>
    ensures ok { OnOk result (Appends (K.taken sink.old) (K.taken sink.new) (read_line (key.now, answer.now))) }
    ensures err { OnErr result (AppendsFront (K.taken sink.old) (K.taken sink.new) (read_line (key.now, answer.now))) }
    ensures counts { HasStopCause (K.faults sink.old) (K.faults sink.new) result }
{
    if let Some(found) = answer {
        let line = printer.print_account(key, found.slot, &found.head, found.data)?;
        write_whole(sink, line)?;
    }
    Ok(())
}

// Hands the lines of what was read of some keys to the sink.
fn write_batch<K: Sink>(
    batch: &[(Key, Option<Answer<'_>>)],
    printer: &mut JournalPrinter,
    sink: &mut K,
) -> Result<(), Stop>
    ensures ok { OnOk result (Appends (K.taken sink.old) (K.taken sink.new) (flat_map read_line batch.now)) }
    ensures err { OnErr result (AppendsFront (K.taken sink.old) (K.taken sink.new) (flat_map read_line batch.now)) }
    ensures counts { HasStopCause (K.faults sink.old) (K.faults sink.new) result }
{
    for (key, answer) in batch {
        write_answer(key, answer, printer, sink)?;
    }
    Ok(())
}

// Hands the lines of all accounts at a slot, by rising key, to the sink.
fn write_answers<K: Sink>(
    book: &Book,
    view: &View,
    printer: &mut JournalPrinter,
    sink: &mut K,
) -> Result<(), Stop>
    requires view { view.now ≡ at_root view.now.max_root }
    requires cleaned { book.now.cleaned ≤ view.now.max_root }
    ensures ok { (start : State) (history : List machine.Event) → Stands book.now start history
        → OnOk result ((found : List Stored) × AreAnswers (state_after start history) view.now.max_root found
        × Appends (K.taken sink.old) (K.taken sink.new) (flat_map line_of found)) }
    ensures err { (start : State) (history : List machine.Event) → Stands book.now start history
        → OnErr result ((found : List Stored) × AreAnswers (state_after start history) view.now.max_root found
        × AppendsFront (K.taken sink.old) (K.taken sink.new) (flat_map line_of found)) }
    ensures counts { HasStopCause (K.faults sink.old) (K.faults sink.new) result }
{
    let Ok(mut accounts) = book.accounts(view) else {
        unreachable!()
    };
    let mut batch = Batch::new();
    loop {
        accounts.read_on(&mut batch);
        if batch.is_empty() {
            return Ok(());
        }
        write_batch(batch.as_slice(), printer, sink)?;
    }
}

// Hands the lines of a snapshot that was opened to the sink.
fn write_listing<K: Sink>(
    alloc: Global,
    book: &Book,
    name: &str,
    slot: Slot,
    sink: &mut K,
) -> Result<(), Stop>
    requires { (images : List Image) × (more : List ℕ) × Stands book.now (opened default_budget slot images more) [] }
    ensures ok { (images : List Image) (more : List ℕ) → Stands book.now (opened default_budget slot images more) []
        → OnOk result (ListedAll (opened default_budget slot images more) name.now slot (K.taken sink.old) (K.taken sink.new)) }
    ensures err { (images : List Image) (more : List ℕ) → Stands book.now (opened default_budget slot images more) []
        → OnErr result (ListedFront (opened default_budget slot images more) name.now slot (K.taken sink.old) (K.taken sink.new)) }
    ensures counts { HasStopCause (K.faults sink.old) (K.faults sink.new) result }
{
    let mut printer = JournalPrinter::new(alloc);
    let line = printer.print_opened(name, slot)?;
    write_whole(sink, line)?;
    let Ok(view) = View::new(alloc, &[], slot) else {
        return Err(Stop::NoMemory);
    };
    write_answers(book, &view, &mut printer, sink)
}

// Ends a run whose snapshot was not opened.
fn end_unopened<K: Sink>(alloc: Global, name: &str, fault: OpenFault, sink: &mut K) -> End
    ensures ends { NotOpened name.now fault (K.taken sink.old) (K.taken sink.new) (K.faults sink.old) (K.faults sink.new) result }
    ensures later { K.faults sink.old ≤ K.faults sink.new }
{
    match fault {
        OpenFault::DirFault => {
            end_with(sink, "adb: directory fault\n");
            End::DirFault
        }
        OpenFault::NoMemory => End::NoMemory,
        fault => match not_opened_text(alloc, name, &fault) {
            Ok(line) => {
                end_with(sink, &line);
                End::SnapRefused
            }
            Err(AllocError) => End::NoMemory,
        },
    }
}

/// Opens the snapshot of a name, and hands its line and those of all its accounts to the sink. No file changes.
pub fn open<R: AllocGlobal, K: Sink, D: Dir>(rt: &R, name: &str, sink: &mut K, dir: &mut D) -> End
    ensures ended { OpenEnded (D.files dir.old) (K.taken sink.old) (K.taken sink.new) (K.faults sink.old) (K.faults sink.new) name.now result }
    ensures files { D.files dir.new ≡ D.files dir.old }
    ensures synced { D.synced dir.new ≡ D.synced dir.old }
    ensures causes { (s : ℕ) → HasCauses s s (D.faults dir.old) (D.faults dir.new) (K.faults sink.old) (K.faults sink.new) result }
    ensures sink_unfailed { result ≡ End.NoMemory → K.faults sink.new ≡ K.faults sink.old }
{
    match open_snapshot(rt.alloc(), name, DEFAULT_BUDGET, dir) {
        Err(fault) => end_unopened(rt.alloc(), name, fault, sink),
        Ok((book, slot)) => {
            let listed = write_listing(rt.alloc(), &book, name, slot, sink);
            // The run ends here: to give back what the book holds would only take time.
            forget(book);
            match listed {
                Ok(()) => End::Done,
                Err(Stop::NoMemory) => End::NoMemory,
                Err(Stop::SinkFault) => End::SinkFault,
            }
        }
    }
}
