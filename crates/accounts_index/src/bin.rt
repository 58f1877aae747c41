ghost use Rattle.std.specs.Prelude.{◌≡◌, ◌+◌, ◌-◌, ◌*◌, ◌^◌, ◌≤◌, ◌++◌, ◌∷◌, [], true, false, length, take, map, option_map, option_copied, MatchOption, IfOk, OnOk, OnErr, IsOk, IsSome};
ghost use Rattle.std.specs.Slice.Iter.{iter_rest};
ghost use Rattle.view_sets.specs.Slots.{among};
ghost use Rattle.slot_list.specs.Versions.{at, put, without, rehomed, with_slot, without_slot};
ghost use Rattle.accounts_index.specs.Bins.{AreUsed};
ghost use Rattle.accounts_index.specs.Index.{kept, nothing, IsWith, IsOrdered, key_after, crowded_after};
ghost use Rattle.accounts_index.specs.Inside.{seen};

use crate::entry::Entry;
use crate::search::{find_place, place_of};
use crate::steps::Steps;
use crate::{edits, walk};
use adb_model::{Key, Slot};
use arrayvec::ArrayVec;
use slot_list::{Place, SlotList, Version};
use std::alloc::{AllocError, Global};
use std::marker::Model;
use std::slice;
use std::sync::ledger::Ledger;

/// Some keys with what is kept of them, in a vector sorted by key.
#[derive(Drop)]
pub struct Bin {
    entries: Vec<Entry>,
    alloc: Global,
}

impl Model for Bin {
    ghost use Rattle.accounts_index.specs.Index.{Index};
    ghost use Rattle.accounts_index.specs.Inside.{seen, AreEntries};

    ghost Value = { Index };

    ghost view = { λ b. seen b.entries.items };

    ghost invariant = { λ b. AreEntries b.entries.items };
}

impl Bin {
    /// A bin without keys.
    pub fn new(alloc: Global) -> Bin
        ensures { result ≡ [] }
    {
        Bin {
            entries: Vec::new(alloc),
            alloc,
        }
    }

    /// The keys by rising key, each with what is kept of it.
    pub fn entries(&self) -> slice::Iter<'_, Entry>
        ensures { seen (iter_rest result) ≡ self.now }
    {
        self.entries.iter()
    }

    pub fn find<L: Ledger>(&self, key: &Key, steps: &mut Steps<L>) -> Option<&SlotList>
        ensures found { MatchOption (option_copied result)
            (kept self.now key.now.0 ≡ nothing)
            (λ list. (list.versions ≡ (kept self.now key.now.0).versions) × (list.held ≡ (kept self.now key.now.0).held)) }
        ensures later { steps.old ≤ steps.new }
        ensures cost { 2 ^ (steps.new - steps.old) ≤ 2 * length self.now + 1 }
    {
        match place_of(&self.entries, key, steps) {
            Ok(place) => Some(&self.entries[place].lists.list),
            Err(_) => None,
        }
    }

    pub fn list(&self, key: &Key) -> Option<&SlotList>
        ensures { MatchOption (option_copied result)
            (kept self.now key.now.0 ≡ nothing)
            (λ list. (list.versions ≡ (kept self.now key.now.0).versions) × (list.held ≡ (kept self.now key.now.0).held)) }
    {
        match find_place(&self.entries, key) {
            Ok(place) => Some(&self.entries[place].lists.list),
            Err(_) => None,
        }
    }

    pub fn version(&self, key: &Key, slot: Slot) -> Option<Version>
        ensures { result ≡ at slot (kept self.now key.now.0).versions }
    {
        match find_place(&self.entries, key) {
            Ok(place) => self.entries[place].lists.list.version(slot),
            Err(_) => None,
        }
    }

    #[tactic(auto, using(crate::proofs::Used::used_seen, crate::proofs::Ordered::seen_ordered))]
    pub fn upsert(&mut self, key: &Key, version: Version) -> Result<(), AllocError>
        ensures ok { OnOk result (let old = kept self.old key.now.0 in
            IsWith self.old self.new key.now.0 (record old { versions = put version old.versions })) }
        ensures err { OnErr result (self.new ≡ self.old) }
        ensures replaces { IsSome (at version.slot (kept self.old key.now.0).versions) → IsOk result }
        ensures used { AreUsed self.new }
        ensures rise { IsOrdered self.new }
    {
        edits::upsert(&mut self.entries, self.alloc, key, version)
    }

    #[tactic(auto, using(crate::proofs::Used::used_seen, crate::proofs::Ordered::seen_ordered))]
    pub fn drop_version(&mut self, key: &Key, slot: Slot)
        requires { IsSome (at slot (kept self.old key.now.0).versions) }
        ensures kept { let old = kept self.old key.now.0 in
            IsWith self.old self.new key.now.0 (record old { versions = without slot old.versions }) }
        ensures used { AreUsed self.new }
        ensures rise { IsOrdered self.new }
    {
        edits::drop_version(&mut self.entries, key, slot);
    }

    #[tactic(auto, using(crate::proofs::Used::used_seen, crate::proofs::Ordered::seen_ordered))]
    pub fn rehome(&mut self, key: &Key, slot: Slot, place: Place)
        requires { IsSome (at slot (kept self.old key.now.0).versions) }
        ensures kept { let old = kept self.old key.now.0 in
            IsWith self.old self.new key.now.0 (record old { versions = rehomed slot place old.versions }) }
        ensures used { AreUsed self.new }
        ensures rise { IsOrdered self.new }
    {
        edits::rehome(&mut self.entries, key, slot, place);
    }

    #[tactic(auto, using(crate::proofs::Used::used_seen, crate::proofs::Ordered::seen_ordered))]
    pub fn expect(&mut self, key: &Key, slot: Slot) -> Result<(), AllocError>
        ensures ok { OnOk result (let old = kept self.old key.now.0 in
            IsWith self.old self.new key.now.0 (record old { expected = old.expected ++ slot ∷ [] })) }
        ensures err { OnErr result (self.new ≡ self.old) }
        ensures used { AreUsed self.new }
        ensures rise { IsOrdered self.new }
    {
        edits::expect(&mut self.entries, self.alloc, key, slot)
    }

    #[tactic(auto, using(crate::proofs::Used::used_seen, crate::proofs::Ordered::seen_ordered))]
    pub fn unexpect(&mut self, key: &Key, slot: Slot)
        ensures kept { let old = kept self.old key.now.0 in
            IsWith self.old self.new key.now.0 (record old { expected = without_slot slot old.expected }) }
        ensures used { AreUsed self.new }
        ensures rise { IsOrdered self.new }
    {
        edits::unexpect(&mut self.entries, key, slot);
    }

    #[tactic(auto, using(crate::proofs::Used::used_seen, crate::proofs::Ordered::seen_ordered))]
    pub fn hold(&mut self, key: &Key, slot: Slot)
        requires expected { among slot (kept self.old key.now.0).expected ≡ true }
        requires absent { among slot (kept self.old key.now.0).held ≡ false }
        ensures kept { let old = kept self.old key.now.0 in
            IsWith self.old self.new key.now.0
            (record old { held = with_slot slot old.held; expected = without_slot slot old.expected }) }
        ensures used { AreUsed self.new }
        ensures rise { IsOrdered self.new }
    {
        edits::hold(&mut self.entries, key, slot);
    }

    #[tactic(auto, using(crate::proofs::Used::used_seen, crate::proofs::Ordered::seen_ordered))]
    pub fn settle(&mut self, key: &Key, slot: Slot, place: Place)
        requires there { IsSome (at slot (kept self.old key.now.0).versions) }
        requires expected { among slot (kept self.old key.now.0).expected ≡ true }
        requires absent { among slot (kept self.old key.now.0).held ≡ false }
        ensures kept { let old = kept self.old key.now.0 in
            IsWith self.old self.new key.now.0
            (record { versions = rehomed slot place old.versions; held = with_slot slot old.held; expected = without_slot slot old.expected }) }
        ensures used { AreUsed self.new }
        ensures rise { IsOrdered self.new }
    {
        edits::settle(&mut self.entries, key, slot, place);
    }

    #[tactic(auto, using(crate::proofs::Used::used_seen, crate::proofs::Ordered::seen_ordered))]
    pub fn put_held(&mut self, key: &Key, version: Version) -> Result<bool, AllocError>
        ensures ok { OnOk result (let old = kept self.old key.now.0 in
            IsWith self.old self.new key.now.0 (record old { versions = put version old.versions; held = with_slot version.slot old.held })) }
        ensures was { IfOk result (λ was. was ≡ among version.slot (kept self.old key.now.0).held) }
        ensures err { OnErr result (self.new ≡ self.old) }
        ensures used { AreUsed self.new }
        ensures rise { IsOrdered self.new }
    {
        edits::put_held(&mut self.entries, self.alloc, key, version)
    }

    #[tactic(auto, using(crate::proofs::Used::used_seen, crate::proofs::Ordered::seen_ordered))]
    pub fn unhold(&mut self, key: &Key, slot: Slot)
        ensures kept { let old = kept self.old key.now.0 in
            IsWith self.old self.new key.now.0 (record old { held = without_slot slot old.held }) }
        ensures used { AreUsed self.new }
        ensures rise { IsOrdered self.new }
    {
        edits::unhold(&mut self.entries, key, slot);
    }

    pub fn key_after(&self, after: Option<&Key>) -> Option<Key>
        ensures first { option_map (λ k. k.0) result ≡ key_after self.now (option_map (λ k. k.now.0) after.entry) }
        ensures rise { IsOrdered self.now }
    {
        walk::key_after(&self.entries, after)
    }

    /// Adds crowded keys above another, rising, while `into` has fewer than `most`.
    pub fn crowded_after(&self, after: Option<&Key>, into: &mut ArrayVec<Key, 256>, most: usize)
        requires few { length into.old.items ≤ most }
        requires most { most ≤ 256 }
        ensures first { map (λ k. k.0) into.new.items
            ≡ take most (map (λ k. k.0) into.old.items ++ crowded_after self.now (option_map (λ k. k.now.0) after.entry)) }
        ensures rise { IsOrdered self.now }
    {
        walk::crowded_after(&self.entries, after, into, most);
    }
}
