// Where bytes go.
ghost use Rattle.std.specs.Prelude.{◌<◌, Bool, List, ℕ, length, IfOk, OnOk, OnErr, IfSome, IsTrue};
ghost use Rattle.std.specs.declared.option.Option.{Option};
ghost use Rattle.std.specs.Io.{WritesAtMost};
ghost use Rattle.std.specs.Io.KnownBytes.{Appends, Keeps, WriteAppends};
ghost use Rattle.stream_io.specs.Stream.{HasCause, AppendsFront};

use crate::Failed;

/// A sink of bytes. It may tell which bytes it has taken.
pub trait Sink {
    /// The bytes that it has taken, where it tells them.
    ghost taken: { Self → Option (List ℕ) };

    /// How often it has failed. The count stops at 2^64 - 1.
    ghost faults: { Self → ℕ };

    /// Whether it holds nothing back: all that it has taken was passed on.
    ghost flushed: { Self → Bool };

    /// Takes some of the first bytes of a piece, and answers how many: at least one of a piece that isn't empty.
    /// After `Failed` none was taken.
    fn write(&mut self, bytes: &[u8]) -> Result<usize, Failed>
        ensures bound { WritesAtMost result bytes.now }
        ensures progress { 0 < length bytes.now → IfOk result (λ count. 0 < count) }
        ensures bytes { WriteAppends (taken self.old) (taken self.new) result bytes.now }
        ensures cause { HasCause (faults self.old) (faults self.new) result };

    /// Passes on what is held back. Whatever it answers, what was taken stays taken.
    fn flush(&mut self) -> Result<(), Failed>
        ensures bytes { Keeps (taken self.old) (taken self.new) }
        ensures flushed { OnOk result (IsTrue (flushed self.new)) }
        ensures cause { HasCause (faults self.old) (faults self.new) result };
}

/// Writes all the bytes, and leaves it to the caller to flush. After `Failed` some of the first were taken, and not all.
pub fn write_whole<K: Sink>(sink: &mut K, bytes: &[u8]) -> Result<(), Failed>
    ensures ok { OnOk result (Appends (K.taken sink.old) (K.taken sink.new) bytes.now) }
    ensures err { OnErr result (AppendsFront (K.taken sink.old) (K.taken sink.new) bytes.now) }
    ensures not_all { OnErr result (IfSome (K.taken sink.old) (λ _. ¬ Appends (K.taken sink.old) (K.taken sink.new) bytes.now)) }
    ensures cause { HasCause (K.faults sink.old) (K.faults sink.new) result }
{
    let mut done = 0;
    while done < bytes.len() {
        let (_, rest) = bytes.split_at(done);
        done += sink.write(rest)?;
    }
    Ok(())
}
