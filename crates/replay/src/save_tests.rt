use crate::tests::journal_over;
use dir_io::{Dir, MemDir};
use std::test::Fail;

const SAVED: &str =
    "1 store 5 01 100\n1 store 5 02 7 aa 1 3 ff\n1 root 5\n1 flush 5\n1 snap 5 s1\n";

const SAVED_JOURNAL: &str =
    "1 store 5 01 100 00 0 0 - = ok\n1 store 5 02 7 aa 1 3 ff = ok\n1 root 5 = ok\n1 flush-begin 5 = ok 1 280\n1 flush-end 5 = ok\n1 snap-begin 5 = ok 1\n1 snap-end 5 = ok\n";

// An empty directory, of which these calls fail.
fn directory(rt: &HostRuntime, failing: &[u64]) -> Result<MemDir, Fail> {
    let alloc = rt.alloc();
    Ok(MemDir::new(Vec::new(alloc), failing.to_vec(alloc)?))
}

// Each script is played over what the earlier ones left.
#[test]
fn snapshots_are_written_opened_and_refused(rt: HostRuntime) -> Result<(), Fail> {
    let mut dir = directory(&rt, &[])?;
    let table = [
        (SAVED, 0, SAVED_JOURNAL, ""),
        (SAVED, 7, SAVED_JOURNAL, "snapshot s1 exists\n"),
        (
            "open s1\n1 get -@5 01\n1 get -@all 02\n1 root 5\n1 snap 5 s-2\n1 snap 6 s1\n",
            0,
            "open s1 = ok 5\n1 load -@5 01 = some 5 1 100 00 0 0 -\n1 unpin 1 = ok\n1 load -@all 02 = some 5 1 7 aa 1 3 ff\n1 unpin 1 = ok\n1 root 5 = root-order 5 5\n1 snap-begin 5 = ok 1\n1 snap-end 5 = ok\n1 snap-begin 6 = not-root 6\n",
            "",
        ),
        (
            "budget 279\nopen s-2\n1 stats\n",
            7,
            "budget 279 = ok\n",
            "open s-2 = full 0 280 279\n",
        ),
        ("open s\n1 stats\n", 7, "", "open s = no-version\n"),
    ];
    for (text, status, journal, last) in table {
        let (answered, wrote) = journal_over(&rt, text, &mut dir, &[])?;
        let alloc = rt.alloc();
        let due = format!(in alloc; "{journal}{last}")?;
        assert_eq!(rt; answered, status, "{text}");
        assert_eq!(rt; str::from_utf8(&wrote), Ok(due.as_str()), "{text}");
    }
    let names = dir.list("s1/")?;
    assert_eq!(rt; names.len(), 3);
    for (name, len) in [
        ("s1/accounts/5.1", 280),
        ("s1/snapshots/5/5", 176),
        ("s1/version", 5),
    ] {
        assert_eq!(rt; dir.read(name)?.len(), len, "{name}");
    }
    Ok(())
}

const TWICE: &str = "1 root 5\n1 snap 5 a\n1 snap 5 b\n1 stats\n";

const ONE: &str = "1 root 5 = ok\n1 snap-begin 5 = ok 0\n1 snap-end 5 = ok\n";

const TWO: &str =
    "1 root 5 = ok\n1 snap-begin 5 = ok 0\n1 snap-end 5 = ok\n1 snap-begin 5 = ok 0\n1 snap-end 5 = ok\n";

// A snapshot without storages is written by four calls: its names are listed, the manifest and the version are
// written, and all is synced.
#[test]
fn a_directory_that_fails_ends_the_run(rt: HostRuntime) -> Result<(), Fail> {
    let fault = "adb: directory fault\n";
    for call in 0..8 {
        let mut dir = directory(&rt, &[call])?;
        let (status, wrote) = journal_over(&rt, TWICE, &mut dir, &[])?;
        let alloc = rt.alloc();
        let due = format!(in alloc; "{}{fault}", if call < 4 { ONE } else { TWO })?;
        assert_eq!(rt; status, 5, "call {call}");
        assert_eq!(rt; str::from_utf8(&wrote), Ok(due.as_str()), "call {call}");
        // What was saved before is there.
        let (opened, _) = journal_over(&rt, "open a\n", &mut dir, &[])?;
        assert_eq!(rt; opened == 0, call >= 3, "call {call}");
    }
    // The header's snapshot is opened by three calls: its names are listed, the version and the manifest are read.
    for call in 4..7 {
        let mut dir = directory(&rt, &[call])?;
        let (saved, _) = journal_over(&rt, "1 root 5\n1 snap 5 a\n", &mut dir, &[])?;
        assert_eq!(rt; saved, 0);
        let (status, wrote) = journal_over(&rt, "open a\n1 stats\n", &mut dir, &[])?;
        assert_eq!(rt; status, 5, "call {call}");
        assert_eq!(rt; str::from_utf8(&wrote), Ok(fault), "call {call}");
    }
    Ok(())
}

// A sink that fails at a line of the journal gives 4, and one that fails at a last line leaves the status.
#[test]
fn a_sink_that_fails_at_the_last_line_leaves_the_status(rt: HostRuntime) -> Result<(), Fail> {
    for (text, call, status) in [
        ("open a\n1 stats\n", 0, 7),
        ("budget 1\nopen a\n1 stats\n", 0, 4),
        ("budget 1\nopen a\n1 stats\n", 1, 7),
    ] {
        let mut dir = directory(&rt, &[])?;
        let (answered, wrote) = journal_over(&rt, text, &mut dir, &[call])?;
        assert_eq!(rt; answered, status, "{text} {call}");
        assert_eq!(rt;
            wrote.len(),
            if call == 0 { 0 } else { 14 },
            "{text} {call}"
        );
    }
    // The directory fails as the snapshot is written, and then the sink at its end or at the last line.
    for (call, status) in [(2, 4), (3, 5)] {
        let mut dir = directory(&rt, &[0])?;
        let (answered, _) = journal_over(&rt, TWICE, &mut dir, &[call])?;
        assert_eq!(rt; answered, status, "call {call}");
    }
    Ok(())
}
