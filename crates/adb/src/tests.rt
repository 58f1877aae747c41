ghost use Rattle.std.specs.Prelude.{None};

use crate::running::run;
use dir_io::MemDir;
use std::test::Fail;
use stream_io::{Failed, MemSink, MemSource, Sink, Source};

/// A source of so many `#`, which all together are one comment.
#[derive(Drop)]
struct Comment {
    left: usize,
}

impl Source for Comment {
    ghost left = { λ _. None };

    ghost faults = { λ _. 0 };

    fn read(&mut self, into: &mut [u8]) -> Result<usize, Failed> {
        let count = into.len().min(self.left);
        into.fill(b'#');
        self.left -= count;
        Ok(count)
    }
}

// What a run of the words over a directory wrote, and its status.
fn ran_over<S: Source>(
    rt: &HostRuntime,
    words: &[&str],
    source: &mut S,
    sink_fails: &[u64],
    dir: &mut MemDir,
) -> Result<(u8, Vec<u8>), Fail> {
    let alloc = rt.alloc();
    let mut texts = Vec::new(alloc);
    for word in words {
        texts.push(String::from_str(alloc, word)?)?;
    }
    let mut sink = MemSink::new(alloc, 10_000, sink_fails.to_vec(alloc)?)?;
    let status = run(rt, &texts, source, &mut sink, dir);
    Ok((status, sink.bytes().to_vec(alloc)?))
}

// The same over a directory without files.
fn ran<S: Source>(
    rt: &HostRuntime,
    words: &[&str],
    source: &mut S,
    sink_fails: &[u64],
) -> Result<(u8, Vec<u8>), Fail> {
    let alloc = rt.alloc();
    let mut dir = MemDir::new(Vec::new(alloc), Vec::new(alloc));
    ran_over(rt, words, source, sink_fails, &mut dir)
}

// The same of `replay` over a script, with calls of the source and the sink that fail.
fn replayed(
    rt: &HostRuntime,
    script: &str,
    source_fails: &[u64],
    sink_fails: &[u64],
) -> Result<(u8, Vec<u8>), Fail> {
    let alloc = rt.alloc();
    let bytes = script.as_bytes().to_vec(alloc)?;
    let mut source = MemSource::new(bytes, source_fails.to_vec(alloc)?);
    ran(rt, &["replay"], &mut source, sink_fails)
}

#[test]
fn scripts_have_these_journals(rt: HostRuntime) -> Result<(), Fail> {
    let table = [
        ("nothing", "", ""),
        (
            "a load before and after its root",
            "1 store 5 01 100\n1 get -@all 01\n1 root 5\n1 get -@all 01\n",
            "1 store 5 01 100 00 0 0 - = ok\n1 load -@all 01 = none\n1 root 5 = ok\n1 load -@all 01 = some 5 cached 100 00 0 0 -\n",
        ),
        (
            "a root above an ancestor, and one that isn't seen",
            "1 store 4 01 40\n1 store 7 01 70\n1 root 7\n1 get 4@all 01\n1 get 4@6 01\n",
            "1 store 4 01 40 00 0 0 - = ok\n1 store 7 01 70 00 0 0 - = ok\n1 root 7 = ok\n1 load 4@all 01 = some 7 cached 70 00 0 0 -\n1 load 4@6 01 = some 4 cached 40 00 0 0 -\n",
        ),
        (
            "the last store of a slot",
            "1 store 5 02 1\n1 store 5 02 2\n1 get 5@all 02\n",
            "1 store 5 02 1 00 0 0 - = ok\n1 store 5 02 2 00 0 0 - = ok\n1 load 5@all 02 = some 5 cached 2 00 0 0 -\n",
        ),
        (
            "a deleted key",
            "1 store 5 02 1\n1 store 5 02 0\n1 get 5@all 02\n",
            "1 store 5 02 1 00 0 0 - = ok\n1 store 5 02 0 00 0 0 - = ok\n1 load 5@all 02 = none\n",
        ),
        (
            "a tomb, whatever its other words say",
            "1 store 5 02 2\n1 store 5 02 0 aa 1 9 ff\n1 get 5@all 02\n",
            "1 store 5 02 2 00 0 0 - = ok\n1 store 5 02 0 00 0 0 - = ok\n1 load 5@all 02 = none\n",
        ),
        (
            "purges of an empty slot, of one with an account, and of a root",
            "1 store 5 01 9\n1 purge 5\n1 get 5@all 01\n1 purge 5\n1 store 5 01 3\n1 get 5@all 01\n1 root 5\n1 purge 5\n",
            "1 store 5 01 9 00 0 0 - = ok\n1 purge 5 = ok 1\n1 load 5@all 01 = none\n1 purge 5 = ok 0\n1 store 5 01 3 00 0 0 - = ok\n1 load 5@all 01 = some 5 cached 3 00 0 0 -\n1 root 5 = ok\n1 purge 5 = rooted 5\n",
        ),
        (
            "counts of what two lanes stored",
            "1 store 5 01 1\n2 store 5 02 2\n1 store 5 01 3\n1 stats\n",
            "1 store 5 01 1 00 0 0 - = ok\n2 store 5 02 2 00 0 0 - = ok\n1 store 5 01 3 00 0 0 - = ok\n1 stats = cached 2 filling 0 live 0 retired 0 named 0 rows 0 bytes 0 pins 0\n",
        ),
        (
            "every word of a store, and a load that is its own journal line",
            "064 store 5 01 7 aAbB 1 9 33*ab = ok\n64 load 5@6 01 = none\n",
            "64 store 5 01 7 aabb 1 9 33*ab = ok\n64 load 5@6 01 = some 5 cached 7 aabb 1 9 33*ab\n",
        ),
        (
            "roots out of order, and stores at and below the newest root",
            "1 root 7\n1 root 7\n1 store 7 01 1\n1 store 6 01 1\n1 store 8 01 1\n",
            "1 root 7 = ok\n1 root 7 = root-order 7 7\n1 store 7 01 1 00 0 0 - = slot-rooted 7 7\n1 store 6 01 1 00 0 0 - = slot-rooted 6 7\n1 store 8 01 1 00 0 0 - = ok\n",
        ),
        (
            "blanks, line ends, comments, what stands behind =",
            "1 store 5 02 1\r\n\t1  store\t5 03 4 = x y z\n\n# no\n=\n \t \n#1 root 9\n1 get 5@all 03",
            "1 store 5 02 1 00 0 0 - = ok\n1 store 5 03 4 00 0 0 - = ok\n1 load 5@all 03 = some 5 cached 4 00 0 0 -\n",
        ),
        (
            "leading zeros, digits of either case, ancestors in any order, the greatest numbers",
            "01 store 00000000000000000005 0A 18446744073709551615\n1 get 9,005,5@18446744073709551615 0a00\n1 get -@18446744073709551614 aBcD\n",
            "1 store 5 0a 18446744073709551615 00 0 0 - = ok\n1 load 5,9@all 0a = some 5 cached 18446744073709551615 00 0 0 -\n1 load -@18446744073709551614 abcd = none\n",
        ),
        (
            "replies that stand behind =",
            "1 store 5 01 100 = ok\n1 get 5@all 01 = some 5 cached 100 00 0 0 -\n",
            "1 store 5 01 100 00 0 0 - = ok\n1 load 5@all 01 = some 5 cached 100 00 0 0 -\n",
        ),
        (
            "a flush of a slot that is no root, is empty, is open, is done",
            "1 store 5 01 1\n1 flush-begin 5\n1 root 4\n1 flush-begin 4\n1 root 5\n1 flush-begin 5\n1 flush-begin 5\n1 flush-end 5\n1 flush-begin 5\n1 flush-end 5\n",
            "1 store 5 01 1 00 0 0 - = ok\n1 flush-begin 5 = not-rooted 5\n1 root 4 = ok\n1 flush-begin 4 = nothing-cached 4\n1 root 5 = ok\n1 flush-begin 5 = ok 1 136\n1 flush-begin 5 = flushing 5 1\n1 flush-end 5 = ok\n1 flush-begin 5 = nothing-cached 5\n1 flush-end 5 = not-flushing 5\n",
        ),
        (
            "a flush that is given up, twice, and one that isn't",
            "1 store 5 01 1\n1 root 5\n1 flush-begin 5\n1 flush-abort 5\n1 flush-abort 5\n1 flush 5\n",
            "1 store 5 01 1 00 0 0 - = ok\n1 root 5 = ok\n1 flush-begin 5 = ok 1 136\n1 flush-abort 5 = ok\n1 flush-abort 5 = not-flushing 5\n1 flush-begin 5 = ok 2 136\n1 flush-end 5 = ok\n",
        ),
        (
            "a budget of as many bytes as are wanted",
            "budget 136\n1 store 2 01 1\n1 root 2\n1 flush 2\n",
            "budget 136 = ok\n1 store 2 01 1 00 0 0 - = ok\n1 root 2 = ok\n1 flush-begin 2 = ok 1 136\n1 flush-end 2 = ok\n",
        ),
        (
            "a budget of one byte less",
            "budget 135\n1 store 2 01 1\n1 root 2\n1 flush 2\n",
            "budget 135 = ok\n1 store 2 01 1 00 0 0 - = ok\n1 root 2 = ok\n1 flush-begin 2 = full 0 136 135\n",
        ),
        (
            "loads of a stored account, and pins of two lanes",
            "1 store 2 01 1\n1 root 2\n1 flush 2 16\n1 load -@all 01\n2 get -@all 01\n2 unpin 1\n1 stats\n1 unpin 1\n1 unpin 1\n",
            "1 store 2 01 1 00 0 0 - = ok\n1 root 2 = ok\n1 flush-begin 2 = ok 1 136\n1 flush-end 2 = ok\n1 load -@all 01 = some 2 1 1 00 0 0 -\n2 load -@all 01 = some 2 1 1 00 0 0 -\n2 unpin 1 = ok\n2 unpin 1 = not-pinned 1\n1 stats = cached 0 filling 0 live 1 retired 0 named 1 rows 1 bytes 136 pins 1\n1 unpin 1 = ok\n1 unpin 1 = not-pinned 1\n",
        ),
        (
            "a deletion that stays while a storage has a row below it, and goes after a shrink",
            "1 store 2 01 10\n1 store 2 02 20\n1 root 2\n1 flush 2\n1 store 6 01 0\n1 root 6\n1 flush 6\n1 clean 6\n1 stats\n1 shrink 2\n1 clean 6\n1 stats\n1 recycle\n1 stats\n",
            "1 store 2 01 10 00 0 0 - = ok\n1 store 2 02 20 00 0 0 - = ok\n1 root 2 = ok\n1 flush-begin 2 = ok 1 272\n1 flush-end 2 = ok\n1 store 6 01 0 00 0 0 - = ok\n1 root 6 = ok\n1 flush-begin 6 = ok 2 136\n1 flush-end 6 = ok\n1 raise 6 = ok 6\n1 reclaim - 256 = ok 01\n1 reclaim 01 256 = done\n1 stats = cached 0 filling 0 live 2 retired 0 named 2 rows 3 bytes 408 pins 0\n1 shrink-begin 2 = ok 1 3 136\n1 shrink-end 2 = ok\n1 raise 6 = ok 6\n1 reclaim - 256 = ok 01\n1 reclaim 01 256 = done\n1 stats = cached 0 filling 0 live 1 retired 2 named 1 rows 1 bytes 544 pins 0\n1 recycle = ok 2\n1 stats = cached 0 filling 0 live 1 retired 0 named 1 rows 1 bytes 136 pins 0\n",
        ),
        (
            "a storage that a pin holds, and the budget that it takes",
            "budget 408\n1 store 2 01 1\n1 root 2\n1 flush 2\n1 load -@all 01\n1 store 3 01 2\n1 root 3\n1 flush 3\n1 clean 3\n1 recycle\n1 store 4 02 5 00 0 0 aa\n1 root 4\n1 flush 4\n1 unpin 1\n1 recycle\n1 flush 4\n1 unpin 1\n1 get -@all 02\n",
            "budget 408 = ok\n1 store 2 01 1 00 0 0 - = ok\n1 root 2 = ok\n1 flush-begin 2 = ok 1 136\n1 flush-end 2 = ok\n1 load -@all 01 = some 2 1 1 00 0 0 -\n1 store 3 01 2 00 0 0 - = ok\n1 root 3 = ok\n1 flush-begin 3 = ok 2 136\n1 flush-end 3 = ok\n1 raise 3 = ok 3\n1 reclaim - 256 = ok 01\n1 reclaim 01 256 = done\n1 recycle = ok 0\n1 store 4 02 5 00 0 0 aa = ok\n1 root 4 = ok\n1 flush-begin 4 = full 272 144 408\n1 unpin 1 = ok\n1 recycle = ok 1\n1 flush-begin 4 = ok 3 144\n1 flush-end 4 = ok\n1 unpin 1 = not-pinned 1\n1 load -@all 02 = some 4 3 5 00 0 0 aa\n1 unpin 3 = ok\n",
        ),
    ];
    for (name, script, journal) in table {
        let (status, wrote) = replayed(&rt, script, &[], &[])?;
        assert_eq!(rt; status, 0, "{name}");
        assert_eq!(rt; wrote.as_slice(), journal.as_bytes(), "{name}");
    }
    Ok(())
}

#[test]
fn what_is_no_script_is_refused_whole(rt: HostRuntime) -> Result<(), Fail> {
    let table = [
        "0 root 5",
        "65 root 5",
        "1 purge",
        "1 stats 5",
        "1 store 5 01 1 0",
        "1 store 5 01 1 00 2",
        "1 store 5 01 0 00 0 0 abc",
        "1 store 5 01 0 00 0 0 10485761*ab",
        "1 root",
        "1 root 5 6",
        "1 root 18446744073709551616",
        "1 store 5 0 1",
        "1 get 5@All 01",
        "1 get 5@5 é1",
        "1 flush 5 17",
        "budget 1",
    ];
    for bad in table {
        let alloc = rt.alloc();
        let script = format!(in alloc; "1 store 5 01 1\n{bad}\n1 root 9\n")?;
        let (status, wrote) = replayed(&rt, &script, &[], &[])?;
        assert_eq!(rt; status, 2, "{bad}");
        assert_eq!(rt; wrote.as_slice(), "script: refused\n".as_bytes(), "{bad}");
    }
    Ok(())
}

#[test]
fn other_words_are_told_the_usage(rt: HostRuntime) -> Result<(), Fail> {
    let table: [&[&str]; 9] = [
        &[],
        &["replay", "x"],
        &["make", "101"],
        &["Replay"],
        &[""],
        &["replay "],
        &["open"],
        &["open", "-s"],
        &["open", "s", "s"],
    ];
    for words in table {
        let mut source = Comment { left: 1 };
        let (status, wrote) = ran(&rt, words, &mut source, &[])?;
        assert_eq!(rt; status, 1);
        assert_eq!(rt;
            wrote.as_slice(),
            "adb: usage: adb replay | open NAME\n".as_bytes()
        );
        assert_eq!(rt; source.left, 1, "nothing is read");
    }
    Ok(())
}

const TWO_LINES: &str = "1 store 5 01 100\n1 get 5@all 01\n";

const TWO_EVENTS: [&str; 2] = [
    "1 store 5 01 100 00 0 0 - = ok\n",
    "1 load 5@all 01 = some 5 cached 100 00 0 0 -\n",
];

#[test]
fn a_stream_that_fails_gives_its_status(rt: HostRuntime) -> Result<(), Fail> {
    let alloc = rt.alloc();
    // The source fails at its first call, and at the one that would find its end.
    for call in [0, 1] {
        let (status, wrote) = replayed(&rt, TWO_LINES, &[call], &[])?;
        assert_eq!(rt; status, 3);
        assert_eq!(rt; wrote.as_slice(), "adb: read fault\n".as_bytes());
    }
    // The sink fails at each of its writes, and at the flush after them.
    let mut due = Vec::new(alloc);
    for (call, event) in [(0, TWO_EVENTS[0]), (1, TWO_EVENTS[1]), (2, "")] {
        let (status, wrote) = replayed(&rt, TWO_LINES, &[], &[call])?;
        assert_eq!(rt; status, 4, "call {call}");
        assert_eq!(rt; wrote.as_slice(), due.as_slice(), "call {call}");
        due.extend_from_slice(event.as_bytes())?;
    }
    // A sink that fails at a last line, or at the flush after it, changes no status.
    for call in [0, 1] {
        assert_eq!(rt; replayed(&rt, "1 stop\n", &[], &[call])?.0, 2);
        assert_eq!(rt; replayed(&rt, TWO_LINES, &[0], &[call])?.0, 3);
        assert_eq!(rt; ran(&rt, &[], &mut Comment { left: 0 }, &[call])?.0, 1);
    }
    Ok(())
}

#[test]
fn scripts_have_so_many_bytes(rt: HostRuntime) -> Result<(), Fail> {
    let table = [
        (268_435_456, 0, ""),
        (268_435_457, 2, "script: longer than 268435456 bytes\n"),
        (
            1_000_000_000_000,
            2,
            "script: longer than 268435456 bytes\n",
        ),
    ];
    for (left, status, text) in table {
        let (answered, wrote) = ran(&rt, &["replay"], &mut Comment { left }, &[])?;
        assert_eq!(rt; answered, status, "{left} bytes");
        assert_eq!(rt; wrote.as_slice(), text.as_bytes(), "{left} bytes");
    }
    Ok(())
}

#[test]
fn one_bad_word_at_the_end_refuses_all(rt: HostRuntime) -> Result<(), Fail> {
    let alloc = rt.alloc();
    let mut bytes = vec![in alloc; b'\n'; 100_000_000]?;
    bytes[0] = b'#';
    bytes.extend_from_slice("1 root 5\n1 root x".as_bytes())?;
    let mut source = MemSource::new(bytes, Vec::new(alloc));
    let (status, wrote) = ran(&rt, &["replay"], &mut source, &[])?;
    assert_eq!(rt; status, 2);
    assert_eq!(rt; wrote.as_slice(), "script: refused\n".as_bytes());
    Ok(())
}

const SNAP: &str = "1 store 5 01 1\n1 root 5\n1 flush 5\n1 snap 5 s1\n1 root 6\n";

const SNAP_BEGUN: &str =
    "1 store 5 01 1 00 0 0 - = ok\n1 root 5 = ok\n1 flush-begin 5 = ok 1 136\n1 flush-end 5 = ok\n1 snap-begin 5 = ok 1\n1 snap-end 5 = ok\n";

#[test]
fn a_snapshot_that_is_not_written_gives_its_status(rt: HostRuntime) -> Result<(), Fail> {
    let alloc = rt.alloc();
    let mut there = Vec::new(alloc);
    there.push((String::from_str(alloc, "s1/version")?, Vec::new(alloc)))?;
    let mut failing = Vec::new(alloc);
    failing.push(0)?;
    let table = [
        (Vec::new(alloc), failing, 5, "adb: directory fault\n"),
        (there, Vec::new(alloc), 7, "snapshot s1 exists\n"),
    ];
    for (files, failing, wanted, line) in table {
        let mut source = MemSource::new(SNAP.as_bytes().to_vec(alloc)?, Vec::new(alloc));
        let mut dir = MemDir::new(files, failing);
        let (status, wrote) = ran_over(&rt, &["replay"], &mut source, &[], &mut dir)?;
        assert_eq!(rt; status, wanted);
        let due = format!(in alloc; "{SNAP_BEGUN}{line}")?;
        assert_eq!(rt; wrote.as_slice(), due.as_bytes());
    }
    Ok(())
}

// The status of `open s1` over a directory without files, whose calls of these numbers fail, and what it wrote.
fn opened_nothing(rt: &HostRuntime, failing: &[u64]) -> Result<(u8, Vec<u8>), Fail> {
    let alloc = rt.alloc();
    let mut dir = MemDir::new(Vec::new(alloc), failing.to_vec(alloc)?);
    ran_over(rt, &["open", "s1"], &mut Comment { left: 1 }, &[], &mut dir)
}

#[test]
fn a_snapshot_that_is_not_opened_gives_its_status(rt: HostRuntime) -> Result<(), Fail> {
    let (status, wrote) = opened_nothing(&rt, &[0])?;
    assert_eq!(rt; status, 5);
    assert_eq!(rt; wrote.as_slice(), "adb: directory fault\n".as_bytes());
    let (status, wrote) = opened_nothing(&rt, &[])?;
    assert_eq!(rt; status, 7);
    assert_eq!(rt; wrote.as_slice(), "open s1 = no-version\n".as_bytes());
    Ok(())
}

const TWO_ACCOUNTS: &str =
    "1 store 5 02 7 aa 1 3 ff\n1 store 5 01 100\n1 store 5 03 1\n1 store 5 03 0\n1 root 5\n1 flush 5\n1 snap 5 s1\n";

#[test]
fn a_snapshot_is_listed_by_key(rt: HostRuntime) -> Result<(), Fail> {
    let alloc = rt.alloc();
    let mut dir = MemDir::new(Vec::new(alloc), Vec::new(alloc));
    let mut source = MemSource::new(TWO_ACCOUNTS.as_bytes().to_vec(alloc)?, Vec::new(alloc));
    let (status, _) = ran_over(&rt, &["replay"], &mut source, &[], &mut dir)?;
    assert_eq!(rt; status, 0);
    let words = ["open", "s1"];
    let (status, wrote) = ran_over(&rt, &words, &mut Comment { left: 1 }, &[], &mut dir)?;
    assert_eq!(rt; status, 0);
    assert_eq!(rt;
        wrote.as_slice(),
        "open s1 = ok 5\n01 5 100 00 0 0 -\n02 5 7 aa 1 3 ff\n".as_bytes()
    );
    Ok(())
}
