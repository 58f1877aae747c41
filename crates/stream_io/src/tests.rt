//! What no clause says: that calls succeed, and what the adapters make of readers and writers.
ghost use Rattle.std.specs.Prelude.{None};

use crate::{
    Failed, MemSink, MemSource, ReadFault, Sink, Source, StdSink, StdSource, read_whole,
    write_whole,
};
use std::cell::Cell;
use std::io;
use std::io::{BufReader, BufWriter, ErrorKind, Read, Write};
use std::test::Fail;

/// A source whose bytes count up, at most `step` of them in one read.
#[derive(Drop)]
struct Counting {
    at: usize,
    end: usize,
    step: usize,
}

impl Source for Counting {
    ghost left = { λ _. None };

    ghost faults = { λ _. 0 };

    fn read(&mut self, into: &mut [u8]) -> Result<usize, Failed> {
        let count = self
            .end
            .saturating_sub(self.at)
            .min(self.step)
            .min(into.len());
        for byte in &mut into[..count] {
            *byte = (self.at % 251) as u8;
            self.at = self.at.saturating_add(1);
        }
        Ok(count)
    }
}

#[test]
fn a_source_is_read_to_its_limit_and_one_byte_more(rt: HostRuntime) -> Result<(), Fail> {
    // bytes of the source, at most so many in a read, the limit, bytes taken
    let table = [
        (0, 1, 0, 0),
        (1, 1, 0, 1),
        (5, 2, 5, 5),
        (6, 2, 5, 6),
        (9, 2, 5, 6),
        (300, 1, usize::MAX, 300),
        (65536, 65536, 65536, 65536),
        (65537, 65536, 65536, 65537),
        (400000, 100000, 400000, 400000),
        (400000, 3000, 399999, 400000),
        (900000, 100000, 400000, 400001),
    ];
    for (end, step, most, taken) in table {
        let mut source = Counting { at: 0, end, step };
        match read_whole(rt.alloc(), &mut source, most) {
            Ok(bytes) => {
                assert_eq!(rt; bytes.len(), end, "{end} bytes, limit {most}");
                assert!(rt; end <= most, "{end} bytes, limit {most}");
                for (i, byte) in bytes.iter().enumerate() {
                    assert_eq!(rt; *byte as usize, i % 251, "byte {i} of {end}");
                }
            }
            Err(fault) => {
                assert_eq!(rt; fault, ReadFault::TooLong { most }, "{end} bytes");
                assert!(rt; most < end, "{end} bytes, limit {most}");
            }
        }
        assert_eq!(rt; source.at, taken, "{end} bytes, limit {most}");
    }
    Ok(())
}

#[test]
fn a_source_in_memory_fails_at_the_listed_calls(rt: HostRuntime) -> Result<(), Fail> {
    let all = Ok(b"abcdef".to_vec(rt.alloc())?);
    let too_long = Err(ReadFault::TooLong { most: 5 });
    let failed = Err(ReadFault::Failed);
    let table = [
        ([7, 9], 6, &all),
        ([0, 9], 6, &failed),
        ([9, 1], 6, &failed),
        ([2, 3], 6, &all),
        ([1, 2], 5, &too_long),
        ([0, 1], 5, &failed),
    ];
    for (failing, most, want) in table {
        let bytes = b"abcdef".to_vec(rt.alloc())?;
        let mut source = MemSource::new(bytes, failing.to_vec(rt.alloc())?);
        let got = read_whole(rt.alloc(), &mut source, most);
        assert!(rt; got == *want, "failing {failing:?}, limit {most}");
    }
    Ok(())
}

fn pour<K: Sink>(sink: &mut K, pieces: &[&[u8]]) -> Result<(), Failed> {
    for piece in pieces {
        write_whole(sink, piece)?;
    }
    sink.flush()
}

#[test]
fn a_sink_in_memory_fails_at_the_listed_calls_and_where_it_is_full(
    rt: HostRuntime,
) -> Result<(), Fail> {
    let pieces: [&[u8]; 4] = [b"abc", b"def", b"", b"ghi"];
    let table = [
        (9, [8, 9], true, "abcdefghi"),
        (9, [0, 9], false, ""),
        (9, [9, 1], false, "abc"),
        (9, [2, 9], false, "abcdef"),
        (9, [3, 9], false, "abcdefghi"),
        (9, [4, 5], true, "abcdefghi"),
        (8, [8, 9], false, "abcdefgh"),
        (6, [8, 9], false, "abcdef"),
        (0, [8, 9], false, ""),
    ];
    for (room, failing, is_ok, taken) in table {
        let mut sink = MemSink::new(rt.alloc(), room, failing.to_vec(rt.alloc())?)?;
        let poured = pour(&mut sink, &pieces);
        assert_eq!(rt; poured.is_ok(), is_ok, "room {room}, failing {failing:?}");
        assert_eq!(rt;
            sink.bytes(),
            taken.as_bytes(),
            "room {room}, failing {failing:?}"
        );
    }
    Ok(())
}

/// A reader that gives one byte at a time and then fails.
#[derive(Drop)]
struct Breaking {
    good: usize,
}

impl Read for Breaking {
    fn read(&mut self, buf: &mut [u8]) -> io::Result<usize> {
        if self.good == 0 {
            return Err(io::Error::from(ErrorKind::Other));
        }
        self.good -= 1;
        Ok(buf.len().min(1))
    }
}

#[test]
fn a_reader_of_std_is_a_source(rt: HostRuntime) -> Result<(), Fail> {
    let text: &[u8] = b"store 1 1 aa 5 0\nroot 1\n";
    let mut source = StdSource::new(BufReader::new(rt.alloc(), text)?);
    let got = read_whole(rt.alloc(), &mut source, 100)?;
    assert_eq!(rt; got.as_slice(), text);

    let mut source = StdSource::new(Breaking { good: 3 });
    let got = read_whole(rt.alloc(), &mut source, 100);
    assert!(rt; got == Err(ReadFault::Failed));
    Ok(())
}

/// A writer that takes at most `step` bytes at a time, and notes what it takes and each flush.
#[derive(Drop)]
struct Noting<'a> {
    step: usize,
    taken: &'a Cell<usize>,
    flushes: &'a Cell<usize>,
}

impl Write for Noting<'_> {
    fn write(&mut self, buf: &[u8]) -> io::Result<usize> {
        let count = buf.len().min(self.step);
        self.taken.set(self.taken.get().saturating_add(count));
        Ok(count)
    }

    fn flush(&mut self) -> io::Result<()> {
        self.flushes.set(self.flushes.get().saturating_add(1));
        if self.flushes.get() == 2 {
            return Err(io::Error::from(ErrorKind::Other));
        }
        Ok(())
    }
}

#[test]
fn a_writer_of_std_is_a_sink(rt: HostRuntime) -> Result<(), Fail> {
    let mut out = Vec::new(rt.alloc());
    let mut sink = StdSink::new(BufWriter::new(rt.alloc(), &mut out)?);
    assert!(rt; pour(&mut sink, &[b"abc", b"", b"def"]).is_ok());
    drop(sink);
    assert_eq!(rt; out.as_slice(), b"abcdef".as_slice());

    let taken = Cell::new(0);
    let flushes = Cell::new(0);
    let mut sink = StdSink::new(Noting {
        step: 2,
        taken: &taken,
        flushes: &flushes,
    });
    assert!(rt; pour(&mut sink, &[b"abcde"]).is_ok());
    assert_eq!(rt; (taken.get(), flushes.get()), (5, 1));
    assert_eq!(rt; sink.flush(), Err(Failed));

    let mut sink = StdSink::new(Noting {
        step: 0,
        taken: &taken,
        flushes: &flushes,
    });
    assert_eq!(rt; sink.write(b""), Ok(0));
    assert_eq!(rt; sink.write(b"abc"), Err(Failed));
    Ok(())
}
