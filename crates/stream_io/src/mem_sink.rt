// A sink in memory.
ghost use Rattle.std.specs.Prelude.{◌≡◌, ◌⊎◌, ◌↔◌, ◌+◌, ◌-◌, ◌<◌, [], ◌++◌, Some, true, length, take, min, IsErr, IfOk, OnErr, OnOk, IsTrue};
ghost use Rattle.std.specs.Io.{WritesAtMost};
ghost use Rattle.std.specs.Io.KnownBytes.{WriteAppends, Keeps};
ghost use Rattle.stream_io.specs.Stream.{HasCause};
ghost use Rattle.stream_io.specs.Doubles.{no_calls, IsListed, after};

use crate::failing_calls::FailingCalls;
use crate::{Failed, Sink};
use std::alloc::{AllocError, Global};
use std::marker::Model;

/// A sink with room for a number of bytes, which fails at the calls of `write` and `flush` whose numbers, from 0, are listed.
#[derive(Drop)]
pub struct MemSink {
    bytes: Vec<u8>,
    room: usize,
    calls: FailingCalls,
}

impl Model for MemSink {
    ghost use Rattle.std.specs.Prelude.{◌+◌, ◌≤◌, vec_len, vec_capacity};
    ghost use Rattle.stream_io.specs.Doubles.{SinkState};

    ghost Value = { SinkState };

    ghost view = { λ s. record { taken = s.bytes.items; room = s.room; calls = s.calls } };

    ghost invariant = { λ s. vec_len s.bytes + s.room ≤ vec_capacity s.bytes };
}

impl MemSink {
    /// A sink that has taken nothing. It takes the memory for its whole room here, and none later.
    pub fn new(alloc: Global, room: usize, failing: Vec<u64>) -> Result<MemSink, AllocError>
        ensures taken { IfOk result (λ sink. sink.taken ≡ []) }
        ensures room { IfOk result (λ sink. sink.room ≡ room) }
        ensures calls { IfOk result (λ sink. sink.calls ≡ no_calls failing.items) }
    {
        Ok(MemSink {
            bytes: Vec::with_capacity(alloc, room)?,
            room,
            calls: FailingCalls::new(failing),
        })
    }

    /// The bytes that it has taken.
    pub fn bytes(&self) -> &[u8]
        ensures { result.now ≡ self.now.taken }
    {
        &self.bytes
    }
}

impl Sink for MemSink {
    ghost taken = { λ s. Some s.taken };

    ghost faults = { λ s. s.calls.faults };

    ghost flushed = { λ _. true };

    /// Takes as much as the piece and the room allow.
    fn write(&mut self, bytes: &[u8]) -> Result<usize, Failed>
        ensures bound { WritesAtMost result bytes.now }
        ensures progress { 0 < length bytes.now → IfOk result (λ count. 0 < count) }
        ensures bytes { WriteAppends (Some self.old.taken) (Some self.new.taken) result bytes.now }
        ensures cause { HasCause self.old.calls.faults self.new.calls.faults result }

        ensures fails { IsErr result ↔ (IsListed self.old.calls ⊎ ((self.old.room ≡ 0) × (0 < length bytes.now))) }
        ensures calls { self.new.calls ≡ after self.old.calls result }
        ensures count { IfOk result (λ count. count ≡ min (length bytes.now) self.old.room) }
        ensures taken { IfOk result (λ count. self.new.taken ≡ self.old.taken ++ take count bytes.now) }
        ensures room { IfOk result (λ count. self.new.room ≡ self.old.room - count) }
        ensures err { OnErr result ((self.new.taken ≡ self.old.taken) × (self.new.room ≡ self.old.room)) }
    {
        let is_full = self.room == 0 && !bytes.is_empty();
        self.calls.make(is_full)?;
        let count = bytes.len().min(self.room);
        self.bytes.extend_from_slice(&bytes[..count]).unwrap();
        self.room -= count;
        Ok(count)
    }

    fn flush(&mut self) -> Result<(), Failed>
        ensures bytes { Keeps (Some self.old.taken) (Some self.new.taken) }
        ensures flushed { OnOk result (IsTrue true) }
        ensures cause { HasCause self.old.calls.faults self.new.calls.faults result }

        ensures fails { IsErr result ↔ IsListed self.old.calls }
        ensures calls { self.new.calls ≡ after self.old.calls result }
        ensures taken { self.new.taken ≡ self.old.taken }
        ensures room { self.new.room ≡ self.old.room }
    {
        self.calls.make(false)
    }
}
