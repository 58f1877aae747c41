ghost use Rattle.std.specs.Prelude.{◌≡◌, ℕ, ◌<◌, [], ◌∷◌, ◌++◌, IfSome, OnOk, OnErr};
ghost use Rattle.std.specs.List.Sorted.{IsStrictlyIncreasing};
ghost use Rattle.view_sets.specs.Slots.{among, newest};

use crate::search::is_among;
use std::alloc::{AllocError, Global};
use std::marker::Model;

/// The roots, as the rising list of their slots.
#[derive(Drop)]
pub struct RootSet {
    slots: Vec<u64>,
}

impl Model for RootSet {
    ghost use Rattle.std.specs.Prelude.{List, ℕ};
    ghost use Rattle.std.specs.List.Sorted.{IsStrictlyIncreasing};

    ghost Value = { List ℕ };

    ghost view = { λ r. r.slots.items };

    ghost invariant = { λ r. IsStrictlyIncreasing r.slots.items };
}

impl RootSet {
    /// No roots.
    pub fn new(alloc: Global) -> RootSet
        ensures { result ≡ [] }
    {
        RootSet {
            slots: Vec::new(alloc),
        }
    }

    /// These slots, which may stand in any order and more than once. It takes no memory.
    pub fn of(slots: Vec<u64>) -> RootSet
        ensures rise { IsStrictlyIncreasing result }
        ensures each { (slot : ℕ) → among slot result ≡ among slot slots.items }
    {
        let mut sorted = slots;
        sorted.sort_unstable();
        sorted.dedup();
        RootSet { slots: sorted }
    }

    /// A slot above the newest root becomes the newest.
    pub fn add(&mut self, slot: u64) -> Result<(), AllocError>
        requires { IfSome (newest self.old) (λ root. root < slot) }
        ensures ok { OnOk result (self.new ≡ self.old ++ slot ∷ []) }
        ensures err { OnErr result (self.new ≡ self.old) }
    {
        self.slots.push(slot)?;
        Ok(())
    }

    /// Whether the slot is a root.
    pub fn contains(&self, slot: u64) -> bool
        ensures { result ≡ among slot self.now }
    {
        is_among(&self.slots, slot)
    }

    /// The greatest root, or `None` where there is no root.
    pub fn newest(&self) -> Option<u64>
        ensures last { result ≡ newest self.now }
        ensures rise { IsStrictlyIncreasing self.now }
    {
        self.slots.last().copied()
    }
}
