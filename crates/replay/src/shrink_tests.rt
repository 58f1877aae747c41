use crate::tests::journal;
use std::test::Fail;

// Each table of calls is played on few slots and keys, and has the replies that the plain machine's rules give.
#[test]
fn scripts_with_shrinks_have_these_journals(rt: HostRuntime) -> Result<(), Fail> {
    let table = [
        (
            "a tomb over a held row",
            "1 store 2 01 10\n1 store 2 02 20\n1 root 2\n1 flush 2\n1 store 6 01 0\n1 root 6\n1 flush 6\n1 clean 6\n1 stats\n1 shrink 2\n1 clean 6\n1 stats\n1 recycle\n1 stats\n",
            "1 store 2 01 10 00 0 0 - = ok\n1 store 2 02 20 00 0 0 - = ok\n1 root 2 = ok\n1 flush-begin 2 = ok 1 272\n1 flush-end 2 = ok\n1 store 6 01 0 00 0 0 - = ok\n1 root 6 = ok\n1 flush-begin 6 = ok 2 136\n1 flush-end 6 = ok\n1 raise 6 = ok 6\n1 reclaim - 256 = ok 01\n1 reclaim 01 256 = done\n1 stats = cached 0 filling 0 live 2 retired 0 named 2 rows 3 bytes 408 pins 0\n1 shrink-begin 2 = ok 1 3 136\n1 shrink-end 2 = ok\n1 raise 6 = ok 6\n1 reclaim - 256 = ok 01\n1 reclaim 01 256 = done\n1 stats = cached 0 filling 0 live 1 retired 2 named 1 rows 1 bytes 544 pins 0\n1 recycle = ok 2\n1 stats = cached 0 filling 0 live 1 retired 0 named 1 rows 1 bytes 136 pins 0\n",
        ),
        (
            "a shrink that comes too late",
            "1 store 2 01 10\n1 store 2 02 20\n1 store 2 03 30\n1 root 2\n1 flush 2\n1 store 4 01 11\n1 root 4\n1 flush 4\n1 clean 4\n1 shrink-begin 2\n1 shrink-begin 2\n1 store 6 02 21\n1 store 6 03 0\n1 root 6\n1 flush 6\n1 clean 6\n1 recycle\n1 stats\n1 shrink-end 2\n1 recycle\n1 get -@6 03\n1 shrink-end 2\n1 shrink-begin 2\n1 shrink-begin 4\n",
            "1 store 2 01 10 00 0 0 - = ok\n1 store 2 02 20 00 0 0 - = ok\n1 store 2 03 30 00 0 0 - = ok\n1 root 2 = ok\n1 flush-begin 2 = ok 1 408\n1 flush-end 2 = ok\n1 store 4 01 11 00 0 0 - = ok\n1 root 4 = ok\n1 flush-begin 4 = ok 2 136\n1 flush-end 4 = ok\n1 raise 4 = ok 4\n1 reclaim - 256 = ok 01\n1 reclaim 01 256 = done\n1 shrink-begin 2 = ok 1 3 272\n1 shrink-begin 2 = shrinking 2 3\n1 store 6 02 21 00 0 0 - = ok\n1 store 6 03 0 00 0 0 - = ok\n1 root 6 = ok\n1 flush-begin 6 = ok 4 272\n1 flush-end 6 = ok\n1 raise 6 = ok 6\n1 reclaim - 256 = ok 03\n1 reclaim 03 256 = done\n1 recycle = ok 0\n1 stats = cached 0 filling 1 live 2 retired 1 named 2 rows 3 bytes 1088 pins 1\n1 shrink-end 2 = superseded 2 1\n1 recycle = ok 1\n1 load -@6 03 = none\n1 shrink-end 2 = not-shrinking 2\n1 shrink-begin 2 = no-storage 2\n1 shrink-begin 4 = nothing-dead 4\n",
        ),
        (
            "a shrink that is given up, and another",
            "1 store 2 01 10\n1 store 2 02 20\n1 store 2 03 30\n1 root 2\n1 flush 2\n1 store 4 01 11\n1 root 4\n1 flush 4\n1 clean 4\n1 shrink-begin 2\n1 shrink-abort 2\n1 shrink 2\n",
            "1 store 2 01 10 00 0 0 - = ok\n1 store 2 02 20 00 0 0 - = ok\n1 store 2 03 30 00 0 0 - = ok\n1 root 2 = ok\n1 flush-begin 2 = ok 1 408\n1 flush-end 2 = ok\n1 store 4 01 11 00 0 0 - = ok\n1 root 4 = ok\n1 flush-begin 4 = ok 2 136\n1 flush-end 4 = ok\n1 raise 4 = ok 4\n1 reclaim - 256 = ok 01\n1 reclaim 01 256 = done\n1 shrink-begin 2 = ok 1 3 272\n1 shrink-abort 2 = ok\n1 shrink-begin 2 = ok 1 4 272\n1 shrink-end 2 = ok\n",
        ),
        (
            "a key that was dropped since the shrink began",
            "1 store 2 01 10\n1 store 2 02 20\n1 store 2 03 30\n1 root 2\n1 flush 2\n1 store 4 01 11\n1 root 4\n1 flush 4\n1 clean 4\n1 shrink-begin 2\n1 store 6 02 21\n1 root 6\n1 flush 6\n1 clean 6\n1 shrink-end 2\n1 get -@all 02\n1 get -@all 03\n1 shrink 2\n1 recycle\n1 stats\n",
            "1 store 2 01 10 00 0 0 - = ok\n1 store 2 02 20 00 0 0 - = ok\n1 store 2 03 30 00 0 0 - = ok\n1 root 2 = ok\n1 flush-begin 2 = ok 1 408\n1 flush-end 2 = ok\n1 store 4 01 11 00 0 0 - = ok\n1 root 4 = ok\n1 flush-begin 4 = ok 2 136\n1 flush-end 4 = ok\n1 raise 4 = ok 4\n1 reclaim - 256 = ok 01\n1 reclaim 01 256 = done\n1 shrink-begin 2 = ok 1 3 272\n1 store 6 02 21 00 0 0 - = ok\n1 root 6 = ok\n1 flush-begin 6 = ok 4 136\n1 flush-end 6 = ok\n1 raise 6 = ok 6\n1 reclaim - 256 = ok 02\n1 reclaim 02 256 = done\n1 shrink-end 2 = ok\n1 load -@all 02 = some 6 4 21 00 0 0 -\n1 unpin 4 = ok\n1 load -@all 03 = some 2 3 30 00 0 0 -\n1 unpin 3 = ok\n1 shrink-begin 2 = ok 3 5 136\n1 shrink-end 2 = ok\n1 recycle = ok 2\n1 stats = cached 0 filling 0 live 3 retired 0 named 3 rows 3 bytes 408 pins 0\n",
        ),
        (
            "a pin that keeps a storage from being recycled",
            "budget 408\n1 store 2 01 1\n1 root 2\n1 flush 2\n1 load -@all 01\n1 store 3 01 2\n1 root 3\n1 flush 3\n1 clean 3\n1 recycle\n1 store 4 02 5 00 0 0 aa\n1 root 4\n1 flush 4\n1 unpin 1\n1 recycle\n1 flush 4\n1 unpin 1\n1 get -@all 02\n",
            "budget 408 = ok\n1 store 2 01 1 00 0 0 - = ok\n1 root 2 = ok\n1 flush-begin 2 = ok 1 136\n1 flush-end 2 = ok\n1 load -@all 01 = some 2 1 1 00 0 0 -\n1 store 3 01 2 00 0 0 - = ok\n1 root 3 = ok\n1 flush-begin 3 = ok 2 136\n1 flush-end 3 = ok\n1 raise 3 = ok 3\n1 reclaim - 256 = ok 01\n1 reclaim 01 256 = done\n1 recycle = ok 0\n1 store 4 02 5 00 0 0 aa = ok\n1 root 4 = ok\n1 flush-begin 4 = full 272 144 408\n1 unpin 1 = ok\n1 recycle = ok 1\n1 flush-begin 4 = ok 3 144\n1 flush-end 4 = ok\n1 unpin 1 = not-pinned 1\n1 load -@all 02 = some 4 3 5 00 0 0 aa\n1 unpin 3 = ok\n",
        ),
        (
            "a pin of a storage that is shrunk",
            "1 store 2 01 10\n1 store 2 02 20\n1 root 2\n1 flush 2\n1 store 4 01 11\n1 root 4\n1 flush 4\n1 clean 4\n2 load -@all 02\n1 shrink 2\n1 recycle\n2 load -@all 02\n1 stats\n2 unpin 1\n1 recycle\n2 unpin 1\n2 unpin 3\n1 recycle\n1 stats\n",
            "1 store 2 01 10 00 0 0 - = ok\n1 store 2 02 20 00 0 0 - = ok\n1 root 2 = ok\n1 flush-begin 2 = ok 1 272\n1 flush-end 2 = ok\n1 store 4 01 11 00 0 0 - = ok\n1 root 4 = ok\n1 flush-begin 4 = ok 2 136\n1 flush-end 4 = ok\n1 raise 4 = ok 4\n1 reclaim - 256 = ok 01\n1 reclaim 01 256 = done\n2 load -@all 02 = some 2 1 20 00 0 0 -\n1 shrink-begin 2 = ok 1 3 136\n1 shrink-end 2 = ok\n1 recycle = ok 0\n2 load -@all 02 = some 2 3 20 00 0 0 -\n1 stats = cached 0 filling 0 live 2 retired 1 named 2 rows 2 bytes 544 pins 2\n2 unpin 1 = ok\n1 recycle = ok 1\n2 unpin 1 = not-pinned 1\n2 unpin 3 = ok\n1 recycle = ok 0\n1 stats = cached 0 filling 0 live 2 retired 0 named 2 rows 2 bytes 272 pins 0\n",
        ),
        (
            "a copy for which there is room",
            "budget 544\n1 store 2 01 10\n1 store 2 02 20\n1 root 2\n1 flush 2\n1 store 4 01 11\n1 root 4\n1 flush 4\n1 clean 4\n1 shrink 2\n",
            "budget 544 = ok\n1 store 2 01 10 00 0 0 - = ok\n1 store 2 02 20 00 0 0 - = ok\n1 root 2 = ok\n1 flush-begin 2 = ok 1 272\n1 flush-end 2 = ok\n1 store 4 01 11 00 0 0 - = ok\n1 root 4 = ok\n1 flush-begin 4 = ok 2 136\n1 flush-end 4 = ok\n1 raise 4 = ok 4\n1 reclaim - 256 = ok 01\n1 reclaim 01 256 = done\n1 shrink-begin 2 = ok 1 3 136\n1 shrink-end 2 = ok\n",
        ),
        (
            "a copy for which there is none",
            "budget 543\n1 store 2 01 10\n1 store 2 02 20\n1 root 2\n1 flush 2\n1 store 4 01 11\n1 root 4\n1 flush 4\n1 clean 4\n1 shrink 2\n1 shrink-end 2\n",
            "budget 543 = ok\n1 store 2 01 10 00 0 0 - = ok\n1 store 2 02 20 00 0 0 - = ok\n1 root 2 = ok\n1 flush-begin 2 = ok 1 272\n1 flush-end 2 = ok\n1 store 4 01 11 00 0 0 - = ok\n1 root 4 = ok\n1 flush-begin 4 = ok 2 136\n1 flush-end 4 = ok\n1 raise 4 = ok 4\n1 reclaim - 256 = ok 01\n1 reclaim 01 256 = done\n1 shrink-begin 2 = full 408 136 543\n1 shrink-end 2 = not-shrinking 2\n",
        ),
        (
            "no shrink is open",
            "1 recycle\n1 shrink 5\n1 shrink-end 5\n1 shrink-abort 5\n1 store 5 01 1\n1 root 5\n1 flush-begin 5\n1 shrink-begin 5\n1 shrink-end 5\n1 shrink-abort 5\n1 flush-end 5\n1 shrink 5\n1 shrink-abort 5\n",
            "1 recycle = ok 0\n1 shrink-begin 5 = no-storage 5\n1 shrink-end 5 = not-shrinking 5\n1 shrink-abort 5 = not-shrinking 5\n1 store 5 01 1 00 0 0 - = ok\n1 root 5 = ok\n1 flush-begin 5 = ok 1 136\n1 shrink-begin 5 = no-storage 5\n1 shrink-end 5 = not-shrinking 5\n1 shrink-abort 5 = not-shrinking 5\n1 flush-end 5 = ok\n1 shrink-begin 5 = nothing-dead 5\n1 shrink-abort 5 = not-shrinking 5\n",
        ),
        (
            "two shrinks that are open at once",
            "1 store 2 01 1\n1 store 2 02 2\n1 store 3 03 3\n1 store 3 04 4\n1 root 2\n1 root 3\n1 flush 2\n1 flush 3\n1 store 4 01 5\n1 store 4 03 6\n1 root 4\n1 flush 4\n1 clean 4\n1 shrink-begin 2\n2 shrink-begin 3\n1 flush-end 2\n3 shrink-end 3\n1 recycle\n1 get -@all 04\n3 shrink-abort 2\n1 get -@all 02\n1 stats\n",
            "1 store 2 01 1 00 0 0 - = ok\n1 store 2 02 2 00 0 0 - = ok\n1 store 3 03 3 00 0 0 - = ok\n1 store 3 04 4 00 0 0 - = ok\n1 root 2 = ok\n1 root 3 = ok\n1 flush-begin 2 = ok 1 272\n1 flush-end 2 = ok\n1 flush-begin 3 = ok 2 272\n1 flush-end 3 = ok\n1 store 4 01 5 00 0 0 - = ok\n1 store 4 03 6 00 0 0 - = ok\n1 root 4 = ok\n1 flush-begin 4 = ok 3 272\n1 flush-end 4 = ok\n1 raise 4 = ok 4\n1 reclaim - 256 = ok 03\n1 reclaim 03 256 = done\n1 shrink-begin 2 = ok 1 4 136\n2 shrink-begin 3 = ok 2 5 136\n1 flush-end 2 = not-flushing 2\n3 shrink-end 3 = ok\n1 recycle = ok 1\n1 load -@all 04 = some 3 5 4 00 0 0 -\n1 unpin 5 = ok\n3 shrink-abort 2 = ok\n1 load -@all 02 = some 2 1 2 00 0 0 -\n1 unpin 1 = ok\n1 stats = cached 0 filling 0 live 3 retired 0 named 4 rows 5 bytes 680 pins 0\n",
        ),
    ];
    for (name, text, expected) in table {
        let (status, journal) = journal(&rt, text)?;
        assert_eq!(rt; status, 0, "{name}");
        assert_eq!(rt; str::from_utf8(&journal), Ok(expected), "{name}");
    }
    Ok(())
}
