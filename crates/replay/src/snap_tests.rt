use crate::tests::journal;
use std::test::Fail;

// Each table of calls is played on few slots and keys, and has the replies that the plain machine's rules give.
#[test]
fn scripts_with_snapshots_have_these_journals(rt: HostRuntime) -> Result<(), Fail> {
    let table = [
        (
            "a snapshot that is open while its storages are cleaned and shrunk",
            "1 store 2 01 10\n1 store 2 02 20\n1 root 2\n1 flush 2\n1 store 4 01 11\n1 root 4\n1 flush 4\n1 snap-begin 4\n1 clean 4\n1 shrink 2\n1 recycle\n1 stats\n1 snap-end 4\n1 recycle\n1 get -@4 01\n",
            "1 store 2 01 10 00 0 0 - = ok\n1 store 2 02 20 00 0 0 - = ok\n1 root 2 = ok\n1 flush-begin 2 = ok 1 272\n1 flush-end 2 = ok\n1 store 4 01 11 00 0 0 - = ok\n1 root 4 = ok\n1 flush-begin 4 = ok 2 136\n1 flush-end 4 = ok\n1 snap-begin 4 = ok 2\n1 raise 4 = ok 4\n1 reclaim - 256 = ok 01\n1 reclaim 01 256 = done\n1 shrink-begin 2 = ok 1 3 136\n1 shrink-end 2 = ok\n1 recycle = ok 0\n1 stats = cached 0 filling 0 live 2 retired 1 named 2 rows 2 bytes 544 pins 2\n1 snap-end 4 = ok\n1 recycle = ok 1\n1 load -@4 01 = some 4 2 11 00 0 0 -\n1 unpin 2 = ok\n",
        ),
        (
            "snapshots that are refused",
            "1 store 8 01 1\n1 root 5\n1 root 8\n1 snap-begin 8\n1 raise 8\n1 snap-begin 5\n1 snap-begin 6\n1 flush 8\n1 snap-begin 8\n1 snap-begin 8\n1 snap-end 5\n1 snap-end 8\n",
            "1 store 8 01 1 00 0 0 - = ok\n1 root 5 = ok\n1 root 8 = ok\n1 snap-begin 8 = unflushed 8\n1 raise 8 = ok 8\n1 snap-begin 5 = snap-too-old 5 8\n1 snap-begin 6 = not-root 6\n1 flush-begin 8 = ok 1 136\n1 flush-end 8 = ok\n1 snap-begin 8 = ok 1\n1 snap-begin 8 = snap-open 8\n1 snap-end 5 = not-snapping 5\n1 snap-end 8 = ok\n",
        ),
        (
            "a snapshot that another lane ends",
            "1 snap-end 5\n1 root 5\n3 snap-begin 5\n1 snap-begin 5\n2 snap-end 5\n3 snap-end 5\n",
            "1 snap-end 5 = not-snapping 5\n1 root 5 = ok\n3 snap-begin 5 = ok 0\n1 snap-begin 5 = snap-open 5\n2 snap-end 5 = ok\n3 snap-end 5 = not-snapping 5\n",
        ),
        (
            "a shrink of a storage that a snapshot holds",
            "1 store 2 01 10\n1 store 2 02 20\n1 store 2 03 30\n1 root 2\n1 flush 2\n1 store 4 01 11\n1 root 4\n1 flush 4\n1 clean 4\n1 snap-begin 4\n1 shrink-begin 2\n1 shrink-end 2\n1 recycle\n1 snap-end 4\n1 recycle\n",
            "1 store 2 01 10 00 0 0 - = ok\n1 store 2 02 20 00 0 0 - = ok\n1 store 2 03 30 00 0 0 - = ok\n1 root 2 = ok\n1 flush-begin 2 = ok 1 408\n1 flush-end 2 = ok\n1 store 4 01 11 00 0 0 - = ok\n1 root 4 = ok\n1 flush-begin 4 = ok 2 136\n1 flush-end 4 = ok\n1 raise 4 = ok 4\n1 reclaim - 256 = ok 01\n1 reclaim 01 256 = done\n1 snap-begin 4 = ok 2\n1 shrink-begin 2 = ok 1 3 272\n1 shrink-end 2 = ok\n1 recycle = ok 0\n1 snap-end 4 = ok\n1 recycle = ok 1\n",
        ),
    ];
    for (name, text, expected) in table {
        let (status, journal) = journal(&rt, text)?;
        assert_eq!(rt; status, 0, "{name}");
        assert_eq!(rt; str::from_utf8(&journal), Ok(expected), "{name}");
    }
    Ok(())
}
