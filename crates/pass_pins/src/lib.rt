//! The pins of one pass: the storages that a caller keeps from being recycled, at most 64 at a time.
#![tactic(auto)]

ghost use Rattle.std.specs.Prelude.{◌≡◌, ℕ, ◌+◌, ◌<◌, ◌≤◌, ◌==◌, ◌&&◌, false, if◌then◌else◌, [], ◌∷◌, ◌++◌, length};
ghost use Rattle.std.specs.List.{list_any};
ghost use Rattle.pass_pins.specs.Pins.{IsPass, has_id, is_unfinished, count_of, least_finished, with_finished, without_one};

use arrayvec::ArrayVec;
use std::marker::Model;

mod edits;
#[cfg(test)]
mod tests;

use edits::{finish_one, least_id, take_one};

/// The most pins of one pass.
pub const MAX_PINS: usize = 64;

/// A hold on the storage of an id. It is finished where its caller needs it no longer.
#[derive(Clone, Copy, Debug, Default, PartialEq, Eq)]
pub struct Pin {
    pub id: u64,
    pub finished: bool,
}

/// The pins of one pass, in the order in which they were made.
#[derive(Drop)]
pub struct PassPins {
    pass: u64,
    pins: ArrayVec<Pin, MAX_PINS>,
}

impl Model for PassPins {
    ghost use Rattle.std.specs.Prelude.{◌≤◌, length};
    ghost use Rattle.pass_pins.specs.Pins.{Pins, IsPass};

    ghost Value = { Pins };

    ghost view = { λ p. record { pass = p.pass; pins = p.pins.items } };

    ghost invariant = { λ p. IsPass p.pass × (length p.pins.items ≤ 64) };
}

impl PassPins {
    /// The pass of a number from 1 to 65,536, without pins.
    pub fn new(pass: u64) -> PassPins
        requires { IsPass pass }
        ensures { result ≡ record { pass = pass; pins = [] } }
    {
        PassPins {
            pass,
            pins: ArrayVec::new(),
        }
    }

    /// The number of the pass.
    pub fn pass(&self) -> u64
        ensures pass { result ≡ self.now.pass }
        ensures range { IsPass result }
    {
        self.pass
    }

    /// How many pins there are, finished ones included.
    pub fn count(&self) -> usize
        ensures count { result ≡ length self.now.pins }
        ensures most { result ≤ MAX_PINS }
    {
        self.pins.len()
    }

    /// Adds a pin of this id.
    pub fn add(&mut self, id: u64)
        requires { length self.old.pins < MAX_PINS }
        ensures pins { self.new ≡ record self.old { pins = self.old.pins ++ record { id = id; finished = false } ∷ [] } }
        ensures each { (q : ℕ) → count_of q self.new.pins ≡ count_of q self.old.pins + (if id == q then 1 else 0) }
    {
        self.pins.push(Pin {
            id,
            finished: false,
        });
    }

    /// Marks one pin of this id as finished, and says whether an unfinished one was there.
    pub fn finish(&mut self, id: u64) -> bool
        ensures there { result ≡ list_any (is_unfinished id) self.old.pins }
        ensures pins { self.new ≡ record self.old { pins = with_finished id self.old.pins } }
        ensures each { (q : ℕ) → count_of q self.new.pins ≡ count_of q self.old.pins }
    {
        finish_one(&mut self.pins, id)
    }

    /// The least id that has a finished pin.
    pub fn next_finished(&self) -> Option<u64>
        ensures { result ≡ least_finished self.now.pins }
    {
        least_id(self.pins.as_slice())
    }

    /// Takes one pin of this id out, a finished one before others, and says whether there was one.
    pub fn take(&mut self, id: u64) -> bool
        ensures there { result ≡ list_any (has_id id) self.old.pins }
        ensures pins { self.new ≡ record self.old { pins = without_one id self.old.pins } }
        ensures each { (q : ℕ) → count_of q self.old.pins ≡ count_of q self.new.pins + (if result && id == q then 1 else 0) }
        ensures count { length self.old.pins ≡ length self.new.pins + (if result then 1 else 0) }
    {
        take_one(&mut self.pins, id)
    }
}
