// A source in memory.
ghost use Rattle.std.specs.Prelude.{◌≡◌, ◌↔◌, ◌++◌, Some, length, take, drop, min, IsErr, IfOk, OnErr};
ghost use Rattle.std.specs.Io.{ReadsAtMost};
ghost use Rattle.std.specs.Io.KnownBytes.{ReadConsumes};
ghost use Rattle.stream_io.specs.Stream.{HasCause};
ghost use Rattle.stream_io.specs.Doubles.{no_calls, IsListed, after};

use crate::failing_calls::FailingCalls;
use crate::{Failed, Source};
use std::marker::Model;

/// A source of given bytes, which fails at the calls whose numbers, from 0, are listed.
#[derive(Drop)]
pub struct MemSource {
    bytes: Vec<u8>,
    at: usize,
    calls: FailingCalls,
}

impl Model for MemSource {
    ghost use Rattle.std.specs.Prelude.{◌≤◌, length, drop};
    ghost use Rattle.stream_io.specs.Doubles.{SourceState};

    ghost Value = { SourceState };

    ghost view = { λ s. record { left = drop s.at s.bytes.items; calls = s.calls } };

    ghost invariant = { λ s. s.at ≤ length s.bytes.items };
}

impl MemSource {
    /// A source that has all of `bytes` left.
    pub fn new(bytes: Vec<u8>, failing: Vec<u64>) -> MemSource
        ensures left { result.left ≡ bytes.items }
        ensures calls { result.calls ≡ no_calls failing.items }
    {
        MemSource {
            bytes,
            at: 0,
            calls: FailingCalls::new(failing),
        }
    }
}

impl Source for MemSource {
    ghost left = { λ s. Some s.left };

    ghost faults = { λ s. s.calls.faults };

    /// Gives as much as the piece and the bytes allow.
    fn read(&mut self, into: &mut [u8]) -> Result<usize, Failed>
        ensures bound { ReadsAtMost result into.new }
        ensures bytes { ReadConsumes (Some self.old.left) (Some self.new.left) result into.new }
        ensures cause { HasCause self.old.calls.faults self.new.calls.faults result }

        ensures fails { IsErr result ↔ IsListed self.old.calls }
        ensures calls { self.new.calls ≡ after self.old.calls result }
        ensures count { IfOk result (λ count. count ≡ min (length into.old) (length self.old.left)) }
        ensures piece { IfOk result (λ count. into.new ≡ take count self.old.left ++ drop count into.old) }
        ensures rest { IfOk result (λ count. self.new.left ≡ drop count self.old.left) }
        ensures err { OnErr result ((into.new ≡ into.old) × (self.new.left ≡ self.old.left)) }
    {
        self.calls.make(false)?;
        let (_, left) = self.bytes.split_at(self.at);
        let count = into.len().min(left.len());
        let (front, _) = left.split_at(count);
        into[..count].copy_from_slice(front);
        self.at += count;
        Ok(count)
    }
}
