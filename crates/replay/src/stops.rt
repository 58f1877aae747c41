// Why the playing of a script stops, and how its run ends then.
ghost use Rattle.std.specs.Prelude.{◌≡◌, ◌≤◌, []};
ghost use Rattle.replay.specs.Journaled.{EndsWith};
ghost use Rattle.replay.specs.Ending.{EndsHalted, status_of};
ghost use Rattle.replay.specs.declared.stops.Stop.TheVariants as stops;
ghost use Rattle.replay.specs.declared.stops.Halt.TheVariants as halts;

use std::alloc::{AllocError, AllocFailed};
use stream_io::{Failed, Sink, write_whole};

/// Why some of a journal was not written.
#[derive(Clone, Copy, Debug, PartialEq, Eq)]
pub enum Stop {
    NoMemory,
    SinkFault,
}

impl From<AllocError> for Stop {
    ghost from_gives = { λ _ e. e ≡ stops.NoMemory };

    fn from(_: AllocError) -> Self {
        Stop::NoMemory
    }
}

impl From<Failed> for Stop {
    ghost from_gives = { λ _ e. e ≡ stops.SinkFault };

    fn from(_: Failed) -> Self {
        Stop::SinkFault
    }
}

/// Why a script was not played to its end.
#[derive(Debug, Drop)]
pub enum Halt {
    /// Some of the journal was not written.
    Cut(Stop),
    /// The directory failed.
    DirFault,
    /// A snapshot is refused. The last line says why.
    Refused { line: String },
}

impl Halt {
    /// The status of the run.
    fn status(&self) -> u8
        ensures { result ≡ status_of self.now }
    {
        match self {
            Halt::Cut(Stop::NoMemory) => 6,
            Halt::Cut(Stop::SinkFault) => 4,
            Halt::DirFault => 5,
            Halt::Refused { .. } => 7,
        }
    }
}

impl From<Stop> for Halt {
    ghost from_gives = { λ stop e. e ≡ halts.Cut stop };

    fn from(stop: Stop) -> Self {
        Halt::Cut(stop)
    }
}

impl From<AllocError> for Halt {
    ghost from_gives = { λ _ e. e ≡ halts.Cut stops.NoMemory };

    fn from(_: AllocError) -> Self {
        Halt::Cut(Stop::NoMemory)
    }
}

impl From<Failed> for Halt {
    ghost from_gives = { λ _ e. e ≡ halts.Cut stops.SinkFault };

    fn from(_: Failed) -> Self {
        Halt::Cut(Stop::SinkFault)
    }
}

/// Writes a line that ends a run. That the sink fails here changes no status.
pub fn end_with<K: Sink>(sink: &mut K, line: &str)
    ensures line { EndsWith (K.taken sink.old) (K.taken sink.new) (K.faults sink.old) (K.faults sink.new) [] line.now }
    ensures later { K.faults sink.old ≤ K.faults sink.new }
{
    let _ = write_whole(sink, line.as_bytes());
}

/// Writes the last line of a run that was halted, where it has one, and gives the run's status.
pub(crate) fn end_halted<K: Sink>(halt: &Halt, sink: &mut K) -> u8
    ensures status { result ≡ status_of halt.now }
    ensures ends { EndsHalted (K.taken sink.old) (K.taken sink.new) (K.faults sink.old) (K.faults sink.new) halt.now }
    ensures later { K.faults sink.old ≤ K.faults sink.new }
{
    let status = halt.status();
    match halt {
        Halt::Cut(_) => status,
        Halt::DirFault => {
            end_with(sink, "adb: directory fault\n");
            status
        }
        Halt::Refused { line } => {
            end_with(sink, line);
            status
        }
    }
}
