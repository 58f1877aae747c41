use super::*;
use crate::fault::{Kind, LineError, LineFault};
use crate::parsing::read_script;
use adb_model::{Account, Call, Key, Place, Refusal, Reply, Stats, View};
use std::alloc::Global;
use std::sync::Arc;
use std::test::Fail;

// What is answered to a call in these tests: most are done, and a load finds nothing.
fn reply_to(call: &Call) -> Reply {
    match call {
        Call::Store { .. } | Call::Root { .. } => Reply::Done,
        Call::Unpin { .. } | Call::FlushEnd { .. } | Call::FlushAbort { .. } => Reply::Done,
        Call::Lease { .. } | Call::EndLease { .. } => Reply::Done,
        Call::FlushBegin { .. } => Reply::FlushBegun { id: 3, bytes: 136 },
        Call::Purge { .. } => Reply::Purged { keys: 3 },
        Call::Load { .. } => Reply::NotFound,
        Call::Raise { upto } => Reply::Raised { cleaned: *upto },
        Call::Reclaim { after: None, .. } => Reply::NothingLeft,
        Call::Reclaim {
            after: Some(key),
            ..
        } => Reply::Reclaimed { key: *key },
        Call::ShrinkBegin { .. } => Reply::ShrinkBegun {
            old: 1,
            new: 3,
            bytes: 272,
        },
        Call::ShrinkEnd { slot } => Reply::Superseded {
            slot: *slot,
            old: 1,
        },
        Call::ShrinkAbort { .. } => Reply::Done,
        Call::SnapBegin { .. } => Reply::SnapBegun { storages: 4 },
        Call::SnapEnd { slot } => Reply::Refused {
            refusal: Refusal::NotSnapping { slot: *slot },
        },
        Call::Recycle => Reply::Recycled { storages: 2 },
        Call::Stats => Reply::Counted {
            stats: Stats {
                cached: 1,
                filling: 2,
                live: 3,
                retired: 4,
                named: 5,
                rows: 6,
                bytes: 7,
                pins: u64::MAX,
            },
        },
    }
}

// A script's header and lines as the journal has them, with these replies, and a flush, a clean, a shrink or a snapshot as
// it was read; none where the bytes are no script.
fn journal(alloc: Global, bytes: &[u8]) -> Result<Option<String>, Fail> {
    let script = match parse(alloc, bytes) {
        Ok(script) => script,
        Err(ScriptFault::Form) => return Ok(None),
        Err(ScriptFault::NoMemory) => return Err(Fail::from("memory")),
    };
    let mut all = String::new(alloc);
    let mut printer = JournalPrinter::new(alloc);
    let budget = printer.print_budget(script.budget)?;
    all.push_str(String::from_utf8(Vec::from_slice(alloc, budget)?)?.as_str())?;
    if let Some(name) = &script.opened {
        let opened = printer.print_opened(name, 120)?;
        all.push_str(String::from_utf8(Vec::from_slice(alloc, opened)?)?.as_str())?;
    }
    for line in &script.lines {
        let text = match &line.order {
            Order::Event(call) => line_text(alloc, line.lane, call, &reply_to(call))?,
            Order::Get { view, key } => {
                let view = view.try_copy(alloc)?;
                let call = Call::Load { view, key: *key };
                let text = printer.print(alloc, line.lane, &call, &reply_to(&call))?;
                Vec::from_slice(alloc, text)?
            }
            Order::Flush { slot, workers } => {
                let lane = line.lane;
                format!(in alloc; "{lane} flush {slot} {workers}\n")?.into_bytes()
            }
            Order::Clean { upto } => {
                let lane = line.lane;
                format!(in alloc; "{lane} clean {upto}\n")?.into_bytes()
            }
            Order::Shrink { slot } => {
                let lane = line.lane;
                format!(in alloc; "{lane} shrink {slot}\n")?.into_bytes()
            }
            Order::Snap { slot, name } => {
                let lane = line.lane;
                format!(in alloc; "{lane} snap {slot} {name}\n")?.into_bytes()
            }
        };
        all.push_str(String::from_utf8(text)?.as_str())?;
    }
    Ok(Some(all))
}

#[test]
fn scripts_say_these_lines(rt: HostRuntime) -> Result<(), Fail> {
    let alloc = rt.alloc();
    let rows = [
        ("", ""),
        ("\n\r\n \t \n# 2 purge\n  #\n= 1 root 5\n", ""),
        (
            "1 get 7,5@all 01\n1 get 7,5@all 02\n1 get 7,5@9 01\n1 get 5,7@all 03",
            "1 load 5,7@all 01 = none\n1 load 5,7@all 02 = none\n1 load 5,7@9 01 = none\n1 load 5,7@all 03 = none\n",
        ),
        ("1 store 5 01 100\n", "1 store 5 01 100 00 0 0 - = ok\n"),
        ("1 store 5 02 0", "1 store 5 02 0 00 0 0 - = ok\n"),
        ("1 store 5 02 0 aa 1 9 ff", "1 store 5 02 0 00 0 0 - = ok\n"),
        (
            "1 store 5 02 7 AA00 1 03 AbCd = ok",
            "1 store 5 02 7 aa 1 3 abcd = ok\n",
        ),
        (
            "1 store 5 02 7 aa\n1 store 5 02 7 aa 1\n1 store 5 02 7 aa 1 3",
            "1 store 5 02 7 aa 0 0 - = ok\n1 store 5 02 7 aa 1 0 - = ok\n1 store 5 02 7 aa 1 3 - = ok\n",
        ),
        (
            "1 store 5 01 1 00 0 0 -\n1 store 5 01 1 00 0 0 00*ab\n1 store 5 01 1 00 0 0 01*AB",
            "1 store 5 01 1 00 0 0 - = ok\n1 store 5 01 1 00 0 0 - = ok\n1 store 5 01 1 00 0 0 ab = ok\n",
        ),
        (
            "1 store 5 01 1 00 0 0 33*ab\n1 store 5 01 1 00 0 0 10485760*00",
            "1 store 5 01 1 00 0 0 33*ab = ok\n1 store 5 01 1 00 0 0 10485760*00 = ok\n",
        ),
        (
            "\t1  root\t5 \r\n1 root 6",
            "1 root 5 = ok\n1 root 6 = ok\n",
        ),
        (
            "1 root 5 = slot-rooted 5\n1 root 6 =\n",
            "1 root 5 = ok\n1 root 6 = ok\n",
        ),
        ("01 root 00000000000000000005", "1 root 5 = ok\n"),
        (
            "1 root 18446744073709551615",
            "1 root 18446744073709551615 = ok\n",
        ),
        ("2 purge 05", "2 purge 5 = ok 3\n"),
        ("budget 0", "budget 0 = ok\n"),
        (
            "# a header\n\n \tbudget 18446744073709551615 = full\r\n3 unpin 007",
            "budget 18446744073709551615 = ok\n3 unpin 7 = ok\n",
        ),
        (
            "budget 408\n#\n1 flush-begin 04 = full 272 144 408\n1 flush-end 4\n2 flush-abort 4\n",
            "budget 408 = ok\n1 flush-begin 4 = ok 3 136\n1 flush-end 4 = ok\n2 flush-abort 4 = ok\n",
        ),
        ("open s1", "open s1 = ok 120\n"),
        (
            "#\n budget 408 = ok\n\n\topen _A-9 = ok 5\r\n1 root 5",
            "budget 408 = ok\nopen _A-9 = ok 120\n1 root 5 = ok\n",
        ),
        (
            "1 snap 05 s1 = ok\n64 snap 6 abcdefghijklmnopqrstuvwxyzABCDEFGHIJKLMNOPQRSTUVWXYZ0123456789_-",
            "1 snap 5 s1\n64 snap 6 abcdefghijklmnopqrstuvwxyzABCDEFGHIJKLMNOPQRSTUVWXYZ0123456789_-\n",
        ),
        (
            "1 flush 05\n1 flush 5 1\n64 flush 6 00016 = 17",
            "1 flush 5 1\n1 flush 5 1\n64 flush 6 16\n",
        ),
        (
            "1 lease 07\n2 lease all\n3 lease 18446744073709551615 = ok",
            "1 lease 7 = ok\n2 lease all = ok\n3 lease all = ok\n",
        ),
        (
            "1 end-lease 18446744073709551614\n2 end-lease all\n",
            "1 end-lease 18446744073709551614 = ok\n2 end-lease all = ok\n",
        ),
        (
            "1 raise 18446744073709551615\n1 clean 06",
            "1 raise 18446744073709551615 = ok 18446744073709551615\n1 clean 6\n",
        ),
        (
            "1 reclaim - 256\n1 reclaim 0aB000 001 = done",
            "1 reclaim - 256 = done\n1 reclaim 0ab0 1 = ok 0ab0\n",
        ),
        (
            "1 shrink-begin 02\n1 shrink-end 2 = ok\n2 shrink-abort 2\n1 shrink 002",
            "1 shrink-begin 2 = ok 1 3 272\n1 shrink-end 2 = superseded 2 1\n2 shrink-abort 2 = ok\n1 shrink 2\n",
        ),
        (
            "1 snap-begin 08 = unflushed 8\n3 snap-end 8",
            "1 snap-begin 8 = ok 4\n3 snap-end 8 = not-snapping 8\n",
        ),
        ("1 recycle = ok 0\n", "1 recycle = ok 2\n"),
        (
            "064 stats",
            "64 stats = cached 1 filling 2 live 3 retired 4 named 5 rows 6 bytes 7 pins 18446744073709551615\n",
        ),
        ("1 get 7,05,7@all aB00", "1 load 5,7@all ab = none\n"),
        ("1 load 7,05,7@6 aB00", "1 load 5,7@6 ab = none\n"),
        (
            "1 get -@18446744073709551615 00",
            "1 load -@all 00 = none\n",
        ),
        (
            "1 get 0@0 FF00000000000000000000000000000000000000000000000000000000000001",
            "1 load 0@0 ff00000000000000000000000000000000000000000000000000000000000001 = none\n",
        ),
    ];
    for (script, lines) in rows {
        let said = journal(alloc, script.as_bytes())?.ok_or(script)?;
        assert_eq!(rt; said.as_str(), lines);
    }
    Ok(())
}

// The bytes are no script, and this is their first bad word.
fn has_fault(alloc: Global, script: &str, line: u64, word: u32, kind: Kind) -> Result<bool, Fail> {
    let fault = read_script(alloc, script.as_bytes()).err();
    let due = LineError::Fault(LineFault { line, word, kind });
    Ok(fault == Some(due) && journal(alloc, script.as_bytes())?.is_none())
}

#[test]
fn other_bytes_are_no_script(rt: HostRuntime) -> Result<(), Fail> {
    let alloc = rt.alloc();
    for (script, line, word, kind) in [
        ("0 root 5", 1, 1, Kind::Lane),
        ("65 stats", 1, 1, Kind::Lane),
        ("x", 1, 1, Kind::Lane),
        ("\u{e9}", 1, 1, Kind::Lane),
        ("1", 1, 2, Kind::Missing),
        ("1 stor 5 01 1", 1, 2, Kind::Unknown),
        ("1 Root 5", 1, 2, Kind::Unknown),
        ("1 root", 1, 3, Kind::Missing),
        ("1 root 5 6", 1, 4, Kind::Surplus),
        ("1 root 5=", 1, 3, Kind::Number),
        ("1 root +5", 1, 3, Kind::Number),
        ("1 root 5\r", 1, 3, Kind::Number),
        ("1 root 5\r\r\n", 1, 3, Kind::Number),
        ("1 root 18446744073709551616", 1, 3, Kind::Number),
        ("1 root 000000000000000000005", 1, 3, Kind::Number),
        ("1 root \u{e9}", 1, 3, Kind::Number),
        ("1 root 5\n#\n1 root 6\n\n1 root x\ny", 5, 3, Kind::Number),
        ("1 purge", 1, 3, Kind::Missing),
        ("1 purge x", 1, 3, Kind::Number),
        ("1 purge 5 6", 1, 4, Kind::Surplus),
        ("1 stats 1", 1, 3, Kind::Surplus),
        ("1 unpin", 1, 3, Kind::Missing),
        ("1 unpin x", 1, 3, Kind::Number),
        ("1 unpin 5 6", 1, 4, Kind::Surplus),
        ("budget", 1, 2, Kind::Missing),
        ("budget = 5", 1, 2, Kind::Missing),
        ("budget x", 1, 2, Kind::Number),
        ("budget 18446744073709551616", 1, 2, Kind::Number),
        ("budget 5 6", 1, 3, Kind::Surplus),
        ("budget 1\nbudget 2", 2, 1, Kind::Header),
        ("budget 1\n#\n1 stats\nbudget", 4, 1, Kind::Header),
        ("1 stats\nbudget x 5", 2, 1, Kind::Header),
        ("budget 1\nbudge 2", 2, 1, Kind::Lane),
        ("Budget 1", 1, 1, Kind::Lane),
        ("budget=1", 1, 1, Kind::Lane),
        ("1 budget 5", 1, 2, Kind::Unknown),
        ("open", 1, 2, Kind::Missing),
        ("open -a", 1, 2, Kind::Name),
        ("open a/b", 1, 2, Kind::Name),
        ("open \u{e9}", 1, 2, Kind::Name),
        ("open a b", 1, 3, Kind::Surplus),
        ("open a\nbudget 1", 2, 1, Kind::Header),
        ("open a\nopen b", 2, 1, Kind::Header),
        ("budget 1\n1 stats\nopen a", 3, 1, Kind::Header),
        ("1 store 5", 1, 4, Kind::Missing),
        ("1 store 5 01", 1, 5, Kind::Missing),
        ("1 store 5 0 1", 1, 4, Kind::Key),
        ("1 store 5 010 1", 1, 4, Kind::Key),
        ("1 store 5 0g 1", 1, 4, Kind::Key),
        (
            "1 store 5 000000000000000000000000000000000000000000000000000000000000000000 1",
            1,
            4,
            Kind::Key,
        ),
        ("1 store 5 01 x", 1, 5, Kind::Number),
        ("1 store 5 01 0 abc 2", 1, 6, Kind::Key),
        ("1 store 5 01 1 - 0", 1, 6, Kind::Key),
        ("1 store 5 01 1 00 2", 1, 7, Kind::Range),
        ("1 store 5 01 1 00 00", 1, 7, Kind::Range),
        ("1 store 5 01 1 00 x", 1, 7, Kind::Range),
        ("1 store 5 01 1 00 0 -", 1, 8, Kind::Number),
        ("1 store 5 01 1 00 0 0 a", 1, 9, Kind::Data),
        ("1 store 5 01 1 00 0 0 0g", 1, 9, Kind::Data),
        ("1 store 5 01 1 00 0 0 abc", 1, 9, Kind::Data),
        ("1 store 5 01 1 00 0 0 --", 1, 9, Kind::Data),
        ("1 store 5 01 1 00 0 0 *ab", 1, 9, Kind::Data),
        ("1 store 5 01 1 00 0 0 2*", 1, 9, Kind::Data),
        ("1 store 5 01 1 00 0 0 2*a", 1, 9, Kind::Data),
        ("1 store 5 01 1 00 0 0 2*abab", 1, 9, Kind::Data),
        ("1 store 5 01 1 00 0 0 2*ab*ab", 1, 9, Kind::Data),
        (
            "1 store 5 01 1 00 0 0 18446744073709551616*ab",
            1,
            9,
            Kind::Data,
        ),
        (
            "1 store 5 01 1 00 0 0 18446744073709551615*ab",
            1,
            9,
            Kind::DataTooLong,
        ),
        (
            "1 store 5 01 0 00 0 0 10485761*ab 5",
            1,
            9,
            Kind::DataTooLong,
        ),
        ("1 store 5 01 1 00 0 0 - -", 1, 10, Kind::Surplus),
        ("1 get 5 01", 1, 3, Kind::View),
        ("1 get @all 01", 1, 3, Kind::View),
        ("1 get 5,@all 01", 1, 3, Kind::View),
        ("1 get -,5@all 01", 1, 3, Kind::View),
        ("1 get 5@ 01", 1, 3, Kind::View),
        ("1 get 5@all@all 01", 1, 3, Kind::View),
        ("1 get 5@ALL 01", 1, 3, Kind::View),
        ("1 get 5@all", 1, 4, Kind::Missing),
        ("1 load 5@all 01 1", 1, 5, Kind::Surplus),
    ] {
        assert!(rt; has_fault(alloc, script, line, word, kind)?, "{script}");
    }
    assert!(rt; journal(alloc, b"1 root 5\n\xff\n")?.is_none());
    Ok(())
}

#[test]
fn other_words_are_no_order_of_storages(rt: HostRuntime) -> Result<(), Fail> {
    let alloc = rt.alloc();
    for (script, line, word, kind) in [
        ("1 flush-begin", 1, 3, Kind::Missing),
        ("1 flush-begin -", 1, 3, Kind::Number),
        ("1 flush-begin 5 1", 1, 4, Kind::Surplus),
        ("1 flush-end", 1, 3, Kind::Missing),
        ("1 flush-end 5x", 1, 3, Kind::Number),
        ("1 flush-end 5 6", 1, 4, Kind::Surplus),
        ("1 flush-abort = 5", 1, 3, Kind::Missing),
        ("1 flush-abort x", 1, 3, Kind::Number),
        ("1 flush-abort 5 6", 1, 4, Kind::Surplus),
        ("1 flush", 1, 3, Kind::Missing),
        ("1 flush x 0", 1, 3, Kind::Number),
        ("1 flush 5 x", 1, 4, Kind::Number),
        ("1 flush 5 18446744073709551616", 1, 4, Kind::Number),
        ("1 flush 5 0 1", 1, 4, Kind::Range),
        ("1 flush 5 17", 1, 4, Kind::Range),
        ("1 flush 5 16 16", 1, 5, Kind::Surplus),
        ("1 flush-start 5", 1, 2, Kind::Unknown),
        ("1 lease", 1, 3, Kind::Missing),
        ("1 lease ALL", 1, 3, Kind::Number),
        ("1 lease 18446744073709551616 x", 1, 3, Kind::Number),
        ("1 lease all all", 1, 4, Kind::Surplus),
        ("1 end-lease", 1, 3, Kind::Missing),
        ("1 end-lease -@all", 1, 3, Kind::Number),
        ("1 end-lease 7 8", 1, 4, Kind::Surplus),
        ("1 raise", 1, 3, Kind::Missing),
        ("1 raise all", 1, 3, Kind::Number),
        ("1 raise 8 7", 1, 4, Kind::Surplus),
        ("1 clean", 1, 3, Kind::Missing),
        ("1 clean all", 1, 3, Kind::Number),
        ("1 clean 8 256", 1, 4, Kind::Surplus),
        ("1 reclaim", 1, 3, Kind::Missing),
        ("1 reclaim -- x", 1, 3, Kind::Key),
        ("1 reclaim 0 256", 1, 3, Kind::Key),
        (
            "1 reclaim 000000000000000000000000000000000000000000000000000000000000000000 1",
            1,
            3,
            Kind::Key,
        ),
        ("1 reclaim -", 1, 4, Kind::Missing),
        ("1 reclaim 01 x", 1, 4, Kind::Number),
        ("1 reclaim - 18446744073709551616", 1, 4, Kind::Number),
        ("1 reclaim - 0", 1, 4, Kind::Range),
        ("1 reclaim - 257 1", 1, 4, Kind::Range),
        ("1 reclaim - 256 1", 1, 5, Kind::Surplus),
        ("1 shrink", 1, 3, Kind::Missing),
        ("1 shrink x", 1, 3, Kind::Number),
        ("1 shrink 2 2", 1, 4, Kind::Surplus),
        ("1 shrink-begin", 1, 3, Kind::Missing),
        ("1 shrink-begin -", 1, 3, Kind::Number),
        ("1 shrink-begin 2 1", 1, 4, Kind::Surplus),
        ("1 shrink-end = 2", 1, 3, Kind::Missing),
        ("1 shrink-end 18446744073709551616", 1, 3, Kind::Number),
        ("1 shrink-end 2 2", 1, 4, Kind::Surplus),
        ("1 shrink-abort", 1, 3, Kind::Missing),
        ("1 shrink-abort all", 1, 3, Kind::Number),
        ("1 shrink-abort 2 2", 1, 4, Kind::Surplus),
        ("1 shrink-", 1, 2, Kind::Unknown),
        ("1 snap x s", 1, 3, Kind::Number),
        ("1 snap 5", 1, 4, Kind::Missing),
        ("1 snap 5 -s", 1, 4, Kind::Name),
        ("1 snap 5 s s", 1, 5, Kind::Surplus),
        (
            "1 snap 5 abcdefghijklmnopqrstuvwxyzABCDEFGHIJKLMNOPQRSTUVWXYZ0123456789_-a",
            1,
            4,
            Kind::Name,
        ),
        ("1 snap-begin", 1, 3, Kind::Missing),
        ("1 snap-begin x", 1, 3, Kind::Number),
        ("1 snap-end 5 s", 1, 4, Kind::Surplus),
        ("1 snap-abort 5", 1, 2, Kind::Unknown),
        ("1 recycle 1", 1, 3, Kind::Surplus),
        ("1 recycled", 1, 2, Kind::Unknown),
    ] {
        assert!(rt; has_fault(alloc, script, line, word, kind)?, "{script}");
    }
    Ok(())
}

// A get whose view has so many ancestors as written, all of them slot 7.
fn get_of(alloc: Global, count: usize) -> Result<String, Fail> {
    let mut line = String::from_str(alloc, "1 get 7")?;
    for _ in 1..count {
        line.push_str(",7")?;
    }
    line.push_str("@all 01")?;
    Ok(line)
}

#[test]
fn a_view_has_so_many_ancestors_as_written(rt: HostRuntime) -> Result<(), Fail> {
    let alloc = rt.alloc();
    let most = journal(alloc, get_of(alloc, 8192)?.as_bytes())?.ok_or("8192")?;
    assert_eq!(rt; most.as_str(), "1 load 7@all 01 = none\n");
    assert!(rt; journal(alloc, get_of(alloc, 8193)?.as_bytes())?.is_none());
    Ok(())
}

// A value of 32 bytes that begins so.
fn bytes_of(first: u8, second: u8) -> [u8; 32] {
    let mut bytes = [0; 32];
    bytes[0] = first;
    bytes[1] = second;
    bytes
}

// The line of a load that found this account.
fn found(
    alloc: Global,
    place: Place,
    lamports: u64,
    owner: [u8; 32],
    executable: bool,
    epoch: u64,
    bytes: Vec<u8>,
) -> Result<String, Fail> {
    let account = Account::new(lamports, owner, executable, epoch, bytes)?;
    let call = Call::Load {
        view: View::new(alloc, &[9, 5], 7)?,
        key: Key(bytes_of(1, 0)),
    };
    let reply = Reply::Found {
        slot: 5,
        place,
        account: Arc::new(alloc, account)?,
    };
    Ok(String::from_utf8(line_text(alloc, 3, &call, &reply)?)?)
}

#[test]
fn accounts_are_printed_whole(rt: HostRuntime) -> Result<(), Fail> {
    let alloc = rt.alloc();
    let cached = Place::Cached;
    let stored = Place::InStorage { id: 12 };
    let zeros = bytes_of(0, 0);
    let plain = found(alloc, cached, 100, zeros, false, 0, Vec::new(alloc))?;
    assert_eq!(rt;
        plain.as_str(),
        "3 load 5,9@7 01 = some 5 cached 100 00 0 0 -\n"
    );
    let one = vec![in alloc; 255u8]?;
    let whole = found(alloc, stored, 7, bytes_of(0xa0, 0xbc), true, 3, one)?;
    assert_eq!(rt;
        whole.as_str(),
        "3 load 5,9@7 01 = some 5 12 7 a0bc 1 3 ff\n"
    );
    let tomb = found(
        alloc,
        cached,
        0,
        bytes_of(1, 2),
        true,
        3,
        vec![in alloc; 1u8]?,
    )?;
    assert_eq!(rt;
        tomb.as_str(),
        "3 load 5,9@7 01 = some 5 cached 0 00 0 0 -\n"
    );
    for (len, other, text) in [
        (2, 7, "0707"),
        (2, 8, "0708"),
        (
            32,
            7,
            "0707070707070707070707070707070707070707070707070707070707070707",
        ),
        (33, 7, "33*07"),
        (
            33,
            8,
            "070707070707070707070707070707070707070707070707070707070707070708",
        ),
        (1000, 7, "1000*07"),
    ] {
        let mut bytes = vec![in alloc; 7u8; len - 1]?;
        bytes.push(other)?;
        let line = found(alloc, cached, 1, zeros, false, 0, bytes)?;
        let due = format!(in alloc; "3 load 5,9@7 01 = some 5 cached 1 00 0 0 {text}\n")?;
        assert_eq!(rt; line, due);
    }
    Ok(())
}

#[test]
fn refusals_are_printed(rt: HostRuntime) -> Result<(), Fail> {
    let alloc = rt.alloc();
    for (refusal, line) in [
        (
            Refusal::SlotRooted { slot: 6, newest: 7 },
            "1 root 6 = slot-rooted 6 7\n",
        ),
        (
            Refusal::RootOrder { slot: 6, newest: 7 },
            "1 root 6 = root-order 6 7\n",
        ),
        (Refusal::Rooted { slot: 6 }, "1 root 6 = rooted 6\n"),
        (
            Refusal::ViewTooOld {
                max_root: 7,
                cleaned: 8,
            },
            "1 root 6 = view-too-old 7 8\n",
        ),
        (
            Refusal::TooManyPins { most: 64 },
            "1 root 6 = too-many-pins 64\n",
        ),
        (Refusal::NotPinned { id: 3 }, "1 root 6 = not-pinned 3\n"),
        (
            Refusal::NotLeased { max_root: 7 },
            "1 root 6 = not-leased 7\n",
        ),
        (
            Refusal::NotLeased { max_root: u64::MAX },
            "1 root 6 = not-leased all\n",
        ),
        (
            Refusal::PastRoot {
                upto: 9,
                newest: Some(8),
            },
            "1 root 6 = past-root 9 8\n",
        ),
        (
            Refusal::PastRoot {
                upto: 0,
                newest: None,
            },
            "1 root 6 = past-root 0 none\n",
        ),
        (
            Refusal::Leased { upto: 8, least: 7 },
            "1 root 6 = leased 8 7\n",
        ),
        (Refusal::NoStorage { slot: 2 }, "1 root 6 = no-storage 2\n"),
        (
            Refusal::Shrinking { slot: 2, id: 3 },
            "1 root 6 = shrinking 2 3\n",
        ),
        (
            Refusal::NothingDead { slot: 4 },
            "1 root 6 = nothing-dead 4\n",
        ),
        (
            Refusal::NotShrinking { slot: 2 },
            "1 root 6 = not-shrinking 2\n",
        ),
        (Refusal::NotRooted { slot: 7 }, "1 root 6 = not-rooted 7\n"),
        (
            Refusal::NothingCached { slot: 7 },
            "1 root 6 = nothing-cached 7\n",
        ),
        (
            Refusal::Flushing { slot: 7, id: 3 },
            "1 root 6 = flushing 7 3\n",
        ),
        (
            Refusal::NotFlushing { slot: 7 },
            "1 root 6 = not-flushing 7\n",
        ),
        (
            Refusal::Full {
                used: 272,
                wanted: 144,
                limit: 408,
            },
            "1 root 6 = full 272 144 408\n",
        ),
        (
            Refusal::Full {
                used: u64::MAX,
                wanted: 18_446_744_073_709_551_752,
                limit: 0,
            },
            "1 root 6 = full 18446744073709551615 18446744073709551752 0\n",
        ),
        (
            Refusal::NoCell { limit: 1_048_576 },
            "1 root 6 = no-cell 1048576\n",
        ),
        (Refusal::IdsSpent, "1 root 6 = ids-spent\n"),
    ] {
        let text = line_text(
            alloc,
            1,
            &Call::Root { slot: 6 },
            &Reply::Refused { refusal },
        )?;
        assert_eq!(rt; String::from_utf8(text)?.as_str(), line);
    }
    Ok(())
}
