ghost use Rattle.std.specs.Prelude.{◌≡◌, ◌<◌, ◌≤◌, ◌↔◌, ◌⊎◌, length, IsOk, IfOk, IfErr, IsErrOf};
ghost use Rattle.std.specs.Bool.{OnTrue};
ghost use Rattle.std.specs.List.Sorted.{IsStrictlyIncreasing};
ghost use Rattle.adb_model.specs.View.{view_of};
ghost use Rattle.std.specs.Ordering.{nat_cmp};
ghost use Rattle.adb_model.specs.Lists.{rising};
ghost use Rattle.adb_model.specs.declared.view.ViewFault.TheVariants.{NoMemory};

use crate::key::Slot;
use std::alloc::{AllocError, Global};
use std::marker::Model;
use std::sync::Arc;

/// The most ancestors that a view is made of.
pub const MAX_ANCESTORS: usize = 8192;

/// What a reader sees: the slots of its own fork, and the roots up to one.
///
/// Contracts see it as the rising list of its ancestors, without repeats, and the greatest root.
#[derive(Drop)]
pub struct View {
    ancestors: Arc<Vec<Slot>>,
    max_root: u64,
}

impl Model for View {
    ghost use Rattle.adb_model.specs.View as machine;

    ghost Value = { machine.View };

    ghost use Rattle.adb_model.specs.Inside.{view_seen, IsView};

    ghost view = { view_seen };

    ghost invariant = { IsView };
}

/// Why a view can't be made.
#[derive(Clone, Copy, Debug, PartialEq, Eq)]
pub enum ViewFault {
    /// `count` ancestors were given, repeats included: more than [`MAX_ANCESTORS`].
    TooManyAncestors { count: usize },
    /// Want of memory.
    NoMemory,
}

impl From<AllocError> for ViewFault {
    ghost from_gives = { λ _ e. e ≡ NoMemory };

    fn from(_: AllocError) -> Self {
        ViewFault::NoMemory
    }
}

// Refuses more slots than a view is made of.
fn check_count(count: usize) -> Result<(), ViewFault>
    ensures few { IsOk result ↔ (count ≤ 8192) }
    ensures err { IfErr result (λ fault. fault ≡ ViewFault.TooManyAncestors count) }
{
    if count > MAX_ANCESTORS {
        return Err(ViewFault::TooManyAncestors { count });
    }
    Ok(())
}

// Whether each slot is below the next.
fn do_rise(slots: &[Slot]) -> bool
    ensures { OnTrue result (IsStrictlyIncreasing slots.now) }
{
    slots.is_sorted_by(|one, next| one < next)
}

// The slots, rising and each once. Those that rise already, as mostly, are only looked over.
fn rising_slots(slots: Vec<Slot>) -> Vec<Slot>
    ensures slots { result.items ≡ rising nat_cmp slots.items }
    ensures rise { IsStrictlyIncreasing result.items }
    ensures most { length result.items ≤ length slots.items }
{
    if do_rise(&slots) {
        return slots;
    }
    let mut made = slots;
    made.sort_unstable();
    made.dedup();
    made
}

impl View {
    /// The view of these ancestors, in any order and repeated at will, and of the roots up to `max_root`.
    ///
    /// # Errors
    /// `TooManyAncestors` exactly where more than [`MAX_ANCESTORS`] slots are given, repeats counted.
    pub fn new(alloc: Global, ancestors: &[Slot], max_root: u64) -> Result<View, ViewFault>
        ensures ok { IfOk result (λ view. view ≡ view_of ancestors.now max_root) }
        ensures too_many { IsErrOf result (ViewFault.TooManyAncestors (length ancestors.now)) ↔ (8192 < length ancestors.now) }
        ensures err { IfErr result (λ fault. (fault ≡ ViewFault.NoMemory) ⊎ (fault ≡ ViewFault.TooManyAncestors (length ancestors.now))) }
    {
        check_count(ancestors.len())?;
        View::from_vec(alloc, Vec::from_slice(alloc, ancestors)?, max_root)
    }

    /// The same of a list that the view takes over.
    ///
    /// # Errors
    /// `TooManyAncestors` exactly where more than [`MAX_ANCESTORS`] slots are given, repeats counted.
    pub fn from_vec(alloc: Global, ancestors: Vec<Slot>, max_root: u64) -> Result<View, ViewFault>
        ensures ok { IfOk result (λ view. view ≡ view_of ancestors.items max_root) }
        ensures too_many { IsErrOf result (ViewFault.TooManyAncestors (length ancestors.items)) ↔ (8192 < length ancestors.items) }
        ensures err { IfErr result (λ fault. (fault ≡ ViewFault.NoMemory) ⊎ (fault ≡ ViewFault.TooManyAncestors (length ancestors.items))) }
    {
        check_count(ancestors.len())?;
        match Arc::new(alloc, rising_slots(ancestors)) {
            Ok(ancestors) => Ok(View {
                ancestors,
                max_root,
            }),
            Err(_) => Err(ViewFault::NoMemory),
        }
    }

    /// The slots of the reader's own fork, rising and each once.
    pub fn ancestors(&self) -> &[Slot]
        ensures ancestors { result.now ≡ self.now.ancestors }
        ensures rise { IsStrictlyIncreasing self.now.ancestors }
        ensures most { length self.now.ancestors ≤ 8192 }
    {
        &self.ancestors
    }

    /// The greatest root that the reader takes.
    pub fn max_root(&self) -> u64
        ensures { result ≡ self.now.max_root }
    {
        self.max_root
    }

    /// An equal view, which shares the list of ancestors.
    pub fn try_copy(&self, _alloc: Global) -> Result<View, AllocError>
        ensures { IfOk result (λ view. view ≡ self.now) }
    {
        let ancestors = self.ancestors.clone()?;
        Ok(View {
            ancestors,
            max_root: self.max_root,
        })
    }
}
