// A writer of std as a sink.
ghost use Rattle.std.specs.Prelude.{◌≡◌, ◌<◌, false, length, is_ok, IfOk, OnOk, IsTrue};
ghost use Rattle.std.specs.Io.{WritesAtMost};
ghost use Rattle.std.specs.Io.KnownBytes.{WriteAppends, Keeps};
ghost use Rattle.stream_io.specs.Stream.{HasCause, faults_after};

use crate::fault::fail;
use crate::{Failed, Sink};
use std::io::Write;
use std::marker::Model;

/// A writer of std as a sink. Each error of the writer is a fault, and so is a write that took nothing.
#[derive(Drop)]
pub struct StdSink<W: Write> {
    writer: W,
    faults: u64,
    // Whether the last call was a flush that was done.
    is_flushed: bool,
}

impl<W: Write> Model for StdSink<W> {
    ghost use Rattle.stream_io.specs.Adapters.{CountedSink};

    ghost Value = { CountedSink W };

    ghost view = { λ s. record { inner = s.writer; faults = s.faults; flushed = s.is_flushed } };
}

impl<W: Write> StdSink<W> {
    /// A sink over a writer, with no fault counted. What the writer holds back isn't known.
    pub fn new(writer: W) -> StdSink<W>
        ensures inner { result.inner ≡ writer }
        ensures faults { result.faults ≡ 0 }
        ensures held { result.flushed ≡ false }
    {
        StdSink {
            writer,
            faults: 0,
            is_flushed: false,
        }
    }
}

impl<W: Write> Sink for StdSink<W> {
    ghost taken = { λ s. W.contents s.inner };

    ghost faults = { λ s. s.faults };

    ghost flushed = { λ s. s.flushed };

    fn write(&mut self, bytes: &[u8]) -> Result<usize, Failed>
        ensures bound { WritesAtMost result bytes.now }
        ensures progress { 0 < length bytes.now → IfOk result (λ count. 0 < count) }
        ensures bytes { WriteAppends (W.contents self.old.inner) (W.contents self.new.inner) result bytes.now }
        ensures cause { HasCause self.old.faults self.new.faults result }

        // It counts each error and each write that took nothing, and nothing else.
        ensures counted { self.new.faults ≡ faults_after self.old.faults result }
        ensures held { self.new.flushed ≡ false }
    {
        self.is_flushed = false;
        match self.writer.write(bytes) {
            Ok(count) if count > 0 || bytes.is_empty() => Ok(count),
            _ => Err(fail(&mut self.faults)),
        }
    }

    fn flush(&mut self) -> Result<(), Failed>
        ensures bytes { Keeps (W.contents self.old.inner) (W.contents self.new.inner) }
        ensures flushed { OnOk result (IsTrue self.new.flushed) }
        ensures cause { HasCause self.old.faults self.new.faults result }
        ensures counted { self.new.faults ≡ faults_after self.old.faults result }
        ensures held { self.new.flushed ≡ is_ok result }
    {
        let flushed = self.writer.flush();
        self.is_flushed = flushed.is_ok();
        match flushed {
            Ok(()) => Ok(()),
            Err(_) => Err(fail(&mut self.faults)),
        }
    }
}
