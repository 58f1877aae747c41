use crate::tests::journal;
use std::test::Fail;

// Each table of calls is played on few slots and keys, and has the replies that the plain machine's rules give.
#[test]
fn scripts_with_cleans_have_these_journals(rt: HostRuntime) -> Result<(), Fail> {
    let table = [
        (
            "leases and raises",
            "1 store 8 01 1\n1 root 8\n1 lease 7\n1 raise 8\n1 end-lease 7\n1 raise 9\n1 raise 8\n1 get -@7 01\n1 get -@8 01\n1 lease 7\n1 end-lease 7\n1 raise 3\n",
            "1 store 8 01 1 00 0 0 - = ok\n1 root 8 = ok\n1 lease 7 = ok\n1 raise 8 = leased 8 7\n1 end-lease 7 = ok\n1 raise 9 = past-root 9 8\n1 raise 8 = ok 8\n1 load -@7 01 = view-too-old 7 8\n1 load -@8 01 = some 8 cached 1 00 0 0 -\n1 lease 7 = view-too-old 7 8\n1 end-lease 7 = not-leased 7\n1 raise 3 = ok 8\n",
        ),
        (
            "no root, no key, no lease",
            "1 raise 0\n1 clean 5\n1 reclaim - 256\n1 end-lease all\n",
            "1 raise 0 = past-root 0 none\n1 raise 5 = past-root 5 none\n1 reclaim - 256 = done\n1 end-lease all = not-leased all\n",
        ),
        (
            "leases of two lanes",
            "1 root 8\n1 lease 5\n2 lease 5\n1 lease all\n1 raise 6\n1 end-lease 6\n1 end-lease 5\n1 clean 6\n1 end-lease 5\n2 end-lease 5\n2 raise 6\n3 end-lease all\n1 end-lease 18446744073709551615\n1 lease 5\n1 lease 6\n1 raise 8\n",
            "1 root 8 = ok\n1 lease 5 = ok\n2 lease 5 = ok\n1 lease all = ok\n1 raise 6 = leased 6 5\n1 end-lease 6 = not-leased 6\n1 end-lease 5 = ok\n1 raise 6 = leased 6 5\n1 end-lease 5 = not-leased 5\n2 end-lease 5 = ok\n2 raise 6 = ok 6\n3 end-lease all = not-leased all\n1 end-lease all = ok\n1 lease 5 = view-too-old 5 6\n1 lease 6 = ok\n1 raise 8 = leased 8 6\n",
        ),
        (
            "a tomb over a held row",
            "1 store 2 01 10\n1 store 2 02 20\n1 root 2\n1 flush 2\n1 store 6 01 0\n1 root 6\n1 flush 6\n1 clean 6\n1 stats\n",
            "1 store 2 01 10 00 0 0 - = ok\n1 store 2 02 20 00 0 0 - = ok\n1 root 2 = ok\n1 flush-begin 2 = ok 1 272\n1 flush-end 2 = ok\n1 store 6 01 0 00 0 0 - = ok\n1 root 6 = ok\n1 flush-begin 6 = ok 2 136\n1 flush-end 6 = ok\n1 raise 6 = ok 6\n1 reclaim - 256 = ok 01\n1 reclaim 01 256 = done\n1 stats = cached 0 filling 0 live 2 retired 0 named 2 rows 3 bytes 408 pins 0\n",
        ),
        (
            "a dead fork below a tomb",
            "1 store 4 01 40\n1 store 5 01 0\n1 root 5\n1 flush 5\n1 clean 5\n1 get 4@all 01\n1 stats\n1 purge 4\n1 clean 5\n1 stats\n",
            "1 store 4 01 40 00 0 0 - = ok\n1 store 5 01 0 00 0 0 - = ok\n1 root 5 = ok\n1 flush-begin 5 = ok 1 136\n1 flush-end 5 = ok\n1 raise 5 = ok 5\n1 reclaim - 256 = ok 01\n1 reclaim 01 256 = done\n1 load 4@all 01 = none\n1 stats = cached 1 filling 0 live 1 retired 0 named 1 rows 1 bytes 136 pins 0\n1 purge 4 = ok 1\n1 raise 5 = ok 5\n1 reclaim - 256 = ok 01\n1 reclaim 01 256 = done\n1 stats = cached 0 filling 0 live 0 retired 1 named 0 rows 0 bytes 136 pins 0\n",
        ),
        (
            "tombs go once no row is held below them",
            "1 store 1 01 1\n1 store 1 02 2\n1 root 1\n1 flush 1\n2 store 3 01 0\n2 store 3 03 0\n2 root 3\n2 flush 3\n1 raise 3\n1 reclaim - 1\n1 reclaim 01 1\n1 reclaim 03 1\n1 stats\n1 get -@all 01\n1 get -@all 02\n1 store 5 02 0\n1 root 5\n1 flush 5\n1 clean 5\n1 stats\n",
            "1 store 1 01 1 00 0 0 - = ok\n1 store 1 02 2 00 0 0 - = ok\n1 root 1 = ok\n1 flush-begin 1 = ok 1 272\n1 flush-end 1 = ok\n2 store 3 01 0 00 0 0 - = ok\n2 store 3 03 0 00 0 0 - = ok\n2 root 3 = ok\n2 flush-begin 3 = ok 2 272\n2 flush-end 3 = ok\n1 raise 3 = ok 3\n1 reclaim - 1 = ok 01\n1 reclaim 01 1 = ok 03\n1 reclaim 03 1 = done\n1 stats = cached 0 filling 0 live 2 retired 0 named 2 rows 4 bytes 544 pins 0\n1 load -@all 01 = none\n1 load -@all 02 = some 1 1 2 00 0 0 -\n1 unpin 1 = ok\n1 store 5 02 0 00 0 0 - = ok\n1 root 5 = ok\n1 flush-begin 5 = ok 3 136\n1 flush-end 5 = ok\n1 raise 5 = ok 5\n1 reclaim - 256 = ok 02\n1 reclaim 02 256 = done\n1 stats = cached 0 filling 0 live 0 retired 3 named 0 rows 0 bytes 680 pins 0\n",
        ),
        (
            "only roots up to the cleaned slot hide",
            "1 store 1 01 1\n1 store 2 01 2\n1 store 3 01 3\n1 root 1\n1 root 2\n1 root 3\n1 flush 1\n1 flush 2\n1 flush 3\n1 raise 2\n1 reclaim - 256\n1 get -@1 01\n1 get -@2 01\n1 stats\n1 clean 3\n1 stats\n",
            "1 store 1 01 1 00 0 0 - = ok\n1 store 2 01 2 00 0 0 - = ok\n1 store 3 01 3 00 0 0 - = ok\n1 root 1 = ok\n1 root 2 = ok\n1 root 3 = ok\n1 flush-begin 1 = ok 1 136\n1 flush-end 1 = ok\n1 flush-begin 2 = ok 2 136\n1 flush-end 2 = ok\n1 flush-begin 3 = ok 3 136\n1 flush-end 3 = ok\n1 raise 2 = ok 2\n1 reclaim - 256 = ok 01\n1 load -@1 01 = view-too-old 1 2\n1 load -@2 01 = some 2 2 2 00 0 0 -\n1 unpin 2 = ok\n1 stats = cached 0 filling 0 live 2 retired 1 named 2 rows 2 bytes 408 pins 0\n1 raise 3 = ok 3\n1 reclaim - 256 = ok 01\n1 reclaim 01 256 = done\n1 stats = cached 0 filling 0 live 1 retired 2 named 1 rows 1 bytes 408 pins 0\n",
        ),
        (
            "a fork hides nothing",
            "1 store 1 01 1\n1 root 1\n1 flush 1\n1 store 2 01 9\n1 root 3\n1 clean 3\n1 get 2@all 01\n1 get -@all 01\n",
            "1 store 1 01 1 00 0 0 - = ok\n1 root 1 = ok\n1 flush-begin 1 = ok 1 136\n1 flush-end 1 = ok\n1 store 2 01 9 00 0 0 - = ok\n1 root 3 = ok\n1 raise 3 = ok 3\n1 reclaim - 256 = ok 01\n1 reclaim 01 256 = done\n1 load 2@all 01 = some 2 cached 9 00 0 0 -\n1 load -@all 01 = some 1 1 1 00 0 0 -\n1 unpin 1 = ok\n",
        ),
        (
            "a reclaim while a flush is open",
            "1 store 1 01 1\n1 root 1\n1 flush 1\n1 store 2 01 2\n1 root 2\n1 flush-begin 2\n2 clean 2\n1 flush-end 2\n1 get -@2 01\n1 stats\n",
            "1 store 1 01 1 00 0 0 - = ok\n1 root 1 = ok\n1 flush-begin 1 = ok 1 136\n1 flush-end 1 = ok\n1 store 2 01 2 00 0 0 - = ok\n1 root 2 = ok\n1 flush-begin 2 = ok 2 136\n2 raise 2 = ok 2\n2 reclaim - 256 = ok 01\n2 reclaim 01 256 = done\n1 flush-end 2 = ok\n1 load -@2 01 = some 2 2 2 00 0 0 -\n1 unpin 2 = ok\n1 stats = cached 0 filling 0 live 1 retired 1 named 1 rows 1 bytes 272 pins 0\n",
        ),
        (
            "a pin of a storage that is retired",
            "1 store 1 01 1\n1 root 1\n1 flush 1\n2 load -@1 01\n1 store 2 01 2\n1 root 2\n1 flush 2\n1 clean 2\n1 stats\n2 unpin 1\n2 unpin 1\n2 get -@all 01\n",
            "1 store 1 01 1 00 0 0 - = ok\n1 root 1 = ok\n1 flush-begin 1 = ok 1 136\n1 flush-end 1 = ok\n2 load -@1 01 = some 1 1 1 00 0 0 -\n1 store 2 01 2 00 0 0 - = ok\n1 root 2 = ok\n1 flush-begin 2 = ok 2 136\n1 flush-end 2 = ok\n1 raise 2 = ok 2\n1 reclaim - 256 = ok 01\n1 reclaim 01 256 = done\n1 stats = cached 0 filling 0 live 1 retired 1 named 1 rows 1 bytes 272 pins 1\n2 unpin 1 = ok\n2 unpin 1 = not-pinned 1\n2 load -@all 01 = some 2 2 2 00 0 0 -\n2 unpin 2 = ok\n",
        ),
    ];
    for (name, text, expected) in table {
        let (status, journal) = journal(&rt, text)?;
        assert_eq!(rt; status, 0, "{name}");
        assert_eq!(rt; str::from_utf8(&journal), Ok(expected), "{name}");
    }
    Ok(())
}

#[test]
fn a_clean_takes_256_keys_at_a_time(rt: HostRuntime) -> Result<(), Fail> {
    let alloc = rt.alloc();
    let mut text = String::new(alloc);
    for number in 0..257_u64 {
        for slot in [2, 4] {
            text.push_str(format!(in alloc; "1 store {slot} {number:04x} 1\n")?.as_str())?;
        }
    }
    text.push_str("1 root 2\n1 root 4\n1 flush 2\n1 flush 4\n2 clean 4\n1 stats\n")?;
    let (status, journal) = journal(&rt, &text)?;
    assert_eq!(rt; status, 0);
    let expected =
        "1 flush-begin 4 = ok 2 34952\n1 flush-end 4 = ok\n2 raise 4 = ok 4\n2 reclaim - 256 = ok 00ff\n2 reclaim 00ff 256 = ok 01\n2 reclaim 01 256 = done\n1 stats = cached 0 filling 0 live 1 retired 1 named 257 rows 257 bytes 69904 pins 0\n";
    assert!(rt; journal.ends_with(expected.as_bytes()));
    Ok(())
}
