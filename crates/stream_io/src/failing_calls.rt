// The calls of a double in memory.
ghost use Rattle.std.specs.Prelude.{◌≡◌, ◌⊎◌, ◌↔◌, IsErr, IsTrue};
ghost use Rattle.stream_io.specs.Stream.{HasCause};
ghost use Rattle.stream_io.specs.Doubles.{no_calls, IsListed, after};

use crate::Failed;
use crate::fault::fail;
use std::marker::Model;

/// The calls of a double in memory: it counts them and fails those whose numbers, from 0, are listed.
#[derive(Drop)]
pub struct FailingCalls {
    made: u64,
    failing: Vec<u64>,
    faults: u64,
}

impl Model for FailingCalls {
    ghost use Rattle.stream_io.specs.Doubles.{Calls};

    ghost Value = { Calls };

    ghost view = { λ calls. record { made = calls.made; failing = calls.failing.items; faults = calls.faults } };
}

impl FailingCalls {
    /// No call was made, and none failed.
    pub fn new(failing: Vec<u64>) -> FailingCalls
        ensures { result ≡ no_calls failing.items }
    {
        FailingCalls {
            made: 0,
            failing,
            faults: 0,
        }
    }

    /// Counts one more call. It fails where its number is listed, and where the double refuses it.
    pub fn make(&mut self, is_refused: bool) -> Result<(), Failed>
        ensures fails { IsErr result ↔ (IsListed self.old ⊎ IsTrue is_refused) }
        ensures counted { self.new ≡ after self.old result }
        ensures cause { HasCause self.old.faults self.new.faults result }
    {
        let number = self.made;
        self.made = number.saturating_add(1);
        if is_refused || self.failing.contains(&number) {
            return Err(fail(&mut self.faults));
        }
        Ok(())
    }
}
