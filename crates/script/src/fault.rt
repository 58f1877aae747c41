ghost use Rattle.std.specs.Prelude.{◌≡◌};
ghost use Rattle.script.specs.declared.fault.ReadError.TheVariants as read_errors;
ghost use Rattle.script.specs.declared.fault.LineError.TheVariants as line_errors;

use std::alloc::{AllocError, AllocFailed};

/// Why bytes give no script.
#[derive(Clone, Copy, Debug, PartialEq, Eq)]
pub enum ScriptFault {
    /// The bytes are no script.
    Form,
    /// Want of memory.
    NoMemory,
}

/// What is wrong with a word.
#[derive(Clone, Copy, Debug, PartialEq, Eq)]
pub enum Kind {
    Header,
    Lane,
    Unknown,
    Missing,
    Surplus,
    Number,
    Key,
    View,
    Range,
    Data,
    DataTooLong,
    Name,
}

/// The first bad word of a line; words count from 1.
#[derive(Clone, Copy, Debug, PartialEq, Eq)]
pub struct WordFault {
    pub word: u32,
    pub kind: Kind,
}

/// The first bad word of a script; lines count from 1, the skipped ones too.
#[derive(Clone, Copy, Debug, PartialEq, Eq)]
pub struct LineFault {
    pub line: u64,
    pub word: u32,
    pub kind: Kind,
}

/// Why a line was not read.
#[derive(Clone, Copy, Debug, PartialEq, Eq)]
pub enum ReadError {
    Memory,
    Fault(WordFault),
}

/// Why a script was not read.
#[derive(Clone, Copy, Debug, PartialEq, Eq)]
pub enum LineError {
    Memory,
    Fault(LineFault),
}

/// The fault of the word that has this place in its line.
pub fn fault(word: u32, kind: Kind) -> ReadError
    ensures { result ≡ ReadError.Fault (record { word = word; kind = kind }) }
{
    ReadError::Fault(WordFault { word, kind })
}

impl From<AllocError> for ReadError {
    ghost from_gives = { λ _ e. e ≡ read_errors.Memory };

    fn from(_: AllocError) -> Self {
        ReadError::Memory
    }
}

impl<T: Drop> From<AllocFailed<T>> for LineError {
    ghost from_gives = { λ _ e. e ≡ line_errors.Memory };

    fn from(_: AllocFailed<T>) -> Self {
        LineError::Memory
    }
}
