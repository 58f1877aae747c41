ghost use Rattle.std.specs.Prelude.{◌≡◌, IfOk};
ghost use Rattle.std.specs.FinSet as set;
ghost use Rattle.std.specs.Ordering.{nat_cmp};

use crate::search::is_among;
use std::alloc::{AllocError, Global};
use std::marker::Model;

/// The ancestors of a view, as a set of slots.
#[derive(Drop)]
pub struct AncestorSet {
    slots: Vec<u64>,
}

impl Model for AncestorSet {
    ghost use Rattle.std.specs.FinSet as set;
    ghost use Rattle.std.specs.Ordering.{nat_cmp};
    ghost use Rattle.std.specs.Coded.{coded_ℕ};
    ghost use Rattle.std.specs.List.Sorted.{IsStrictlyIncreasing};

    ghost Value = { set.FinSet nat_cmp };

    ghost coded = { set.code coded_ℕ };

    ghost view = { λ a. set.from_list a.slots.items };

    ghost invariant = { λ a. IsStrictlyIncreasing a.slots.items };
}

impl AncestorSet {
    /// The set of these slots, which may stand in any order and more than once.
    pub fn of(alloc: Global, slots: &[u64]) -> Result<AncestorSet, AllocError>
        ensures { IfOk result (λ ancestors. ancestors ≡ set.from_list slots.now) }
    {
        let mut sorted = Vec::from_slice(alloc, slots)?;
        sorted.sort_unstable();
        sorted.dedup();
        Ok(AncestorSet { slots: sorted })
    }

    /// Whether the slot is an ancestor.
    pub fn contains(&self, slot: u64) -> bool
        ensures { result ≡ set.contains self.now slot }
    {
        is_among(&self.slots, slot)
    }
}
