ghost use Rattle.std.specs.Prelude.{◌≡◌, ℕ, ◌+◌, ◌-◌, ◌<◌, ◌≤◌, ◌==◌, [], false, if◌then◌else◌, Some, None, OnOk, OnErr, IsOk, IsSome, is_some};
ghost use Rattle.std.specs.List.Sorted.{IsStrictlyIncreasing};
ghost use Rattle.view_sets.specs.Slots.{among};
ghost use Rattle.slot_list.specs.Latest.{sees, IsLatest};
ghost use Rattle.slot_list.specs.Versions.{at, put, without, rehomed, with_slot, without_slot, VersionsRise};

use crate::edits::{put_slot, put_version, rehome_version, take_slot, take_version};
use crate::search::{latest_of, version_at};
use crate::{Place, Version};
use smallvec::SmallVec;
use std::alloc::{AllocError, Global};
use std::marker::Model;
use view_sets::RootSet;

/// What is kept of one key: its versions by rising slot, and the slots in which it is held.
#[derive(Drop)]
pub struct SlotList {
    /// The first two stand in the list itself: most keys have one, and one more between a store and the next clean.
    versions: SmallVec<Version, 2>,
    /// The first stands in the list itself: most keys are held in one slot.
    held: SmallVec<u64, 1>,
}

impl Model for SlotList {
    ghost use Rattle.std.specs.Prelude.{◌-◌};
    ghost use Rattle.smallvec.specs.SmallVec.{small_vec_len};
    ghost use Rattle.std.specs.List.Sorted.{IsStrictlyIncreasing};
    ghost use Rattle.slot_list.specs.Versions.{KeySlots, VersionsRise};

    ghost Value = { KeySlots };

    ghost view = { λ s. record {
      versions = s.versions.items;
      held = s.held.items;
      spare = s.held.capacity - small_vec_len s.held;
    } };

    ghost invariant = { λ s. VersionsRise s.versions.items × IsStrictlyIncreasing s.held.items };
}

impl SlotList {
    /// A key without versions, held nowhere.
    pub fn new(alloc: Global) -> SlotList
        ensures versions { result.versions ≡ [] }
        ensures held { result.held ≡ [] }
    {
        SlotList {
            versions: SmallVec::new(alloc),
            held: SmallVec::new(alloc),
        }
    }

    /// The versions, by rising slot.
    pub fn versions(&self) -> &[Version]
        ensures all { result.now ≡ self.now.versions }
        ensures rise { VersionsRise result.now }
    {
        self.versions.as_slice()
    }

    /// The slots in which the key is held, rising.
    pub fn held(&self) -> &[u64]
        ensures all { result.now ≡ self.now.held }
        ensures rise { IsStrictlyIncreasing result.now }
    {
        self.held.as_slice()
    }

    /// The version of a slot.
    pub fn version(&self, slot: u64) -> Option<Version>
        ensures { result ≡ at slot self.now.versions }
    {
        version_at(self.versions.as_slice(), slot)
    }

    /// The version that a view takes: of the greatest slot that is an ancestor, or a root up to `max_root`.
    pub fn latest(&self, ancestors: &[u64], roots: &RootSet, max_root: u64) -> Option<Version>
        requires { IsStrictlyIncreasing ancestors.now }
        ensures { IsLatest (sees ancestors.now roots.now max_root) self.now.versions result }
    {
        latest_of(self.versions.as_slice(), ancestors, roots, max_root)
    }

    /// Puts a version in, in place of one of its slot. To replace one takes no memory.
    pub fn put(&mut self, version: Version) -> Result<(), AllocError>
        ensures ok { OnOk result (self.new ≡ record self.old { versions = put version self.old.versions }) }
        ensures err { OnErr result (self.new ≡ self.old) }
        ensures replaces { IsSome (at version.slot self.old.versions) → IsOk result }
    {
        put_version(&mut self.versions, version)
    }

    /// Takes the version of a slot out, and says whether there was one.
    pub fn take(&mut self, slot: u64) -> bool
        ensures there { result ≡ is_some (at slot self.old.versions) }
        ensures list { self.new ≡ record self.old { versions = without slot self.old.versions } }
    {
        take_version(&mut self.versions, slot)
    }

    /// Gives the version of a slot another place.
    pub fn rehome(&mut self, slot: u64, place: Place)
        requires { IsSome (at slot self.old.versions) }
        ensures { self.new ≡ record self.old { versions = rehomed slot place self.old.versions } }
    {
        rehome_version(&mut self.versions, slot, place);
    }

    /// Makes room to hold at least `spare` more slots.
    pub fn room(&mut self, spare: usize) -> Result<(), AllocError>
        ensures ok { OnOk result (spare ≤ self.new.spare) }
        ensures never_less { self.old.spare ≤ self.new.spare }
        ensures versions { self.new.versions ≡ self.old.versions }
        ensures held { self.new.held ≡ self.old.held }
    {
        self.held.reserve(spare)
    }

    /// Holds the key in a slot, which uses one spare place.
    pub fn hold(&mut self, slot: u64)
        requires room { 0 < self.old.spare }
        requires absent { among slot self.old.held ≡ false }
        ensures { self.new ≡ record self.old { held = with_slot slot self.old.held; spare = self.old.spare - 1 } }
    {
        let _ = put_slot(&mut self.held, slot);
    }

    /// Holds the key in a slot, in which it may be held already, and says whether it was. It uses one spare place at
    /// most.
    pub fn keep_held(&mut self, slot: u64) -> bool
        requires { 0 < self.old.spare }
        ensures there { result ≡ among slot self.old.held }
        ensures held { self.new.held ≡ with_slot slot self.old.held }
        ensures versions { self.new.versions ≡ self.old.versions }
        ensures spare { self.old.spare ≤ self.new.spare + 1 }
    {
        put_slot(&mut self.held, slot)
    }

    /// Holds the key in a slot no longer, and says whether it was held there.
    pub fn unhold(&mut self, slot: u64) -> bool
        ensures there { result ≡ among slot self.old.held }
        ensures held { self.new.held ≡ without_slot slot self.old.held }
        ensures versions { self.new.versions ≡ self.old.versions }
        ensures never_less { self.old.spare ≤ self.new.spare }
    {
        take_slot(&mut self.held, slot)
    }
}
