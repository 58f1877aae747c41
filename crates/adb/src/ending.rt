// How a run ends.
ghost use Rattle.std.specs.Prelude.{◌≡◌};
ghost use Rattle.adb.specs.Run.{status_of};

/// How a run ended.
#[derive(Clone, Copy, Debug, PartialEq, Eq)]
pub enum End {
    Done,
    Usage,
    TooLong,
    Refused,
    ReadFault,
    SinkFault,
    DirFault,
    NoMemory,
    SnapRefused,
}

impl End {
    /// The exit status.
    pub fn status(self) -> u8
        ensures { result ≡ status_of self }
    {
        match self {
            End::Done => 0,
            End::Usage => 1,
            End::TooLong | End::Refused => 2,
            End::ReadFault => 3,
            End::SinkFault => 4,
            End::DirFault => 5,
            End::NoMemory => 6,
            End::SnapRefused => 7,
        }
    }
}
