ghost use Rattle.std.specs.Prelude.{◌≡◌, ◌≢◌, ℕ, ◌+◌, ◌-◌, ◌*◌, ◌^◌, ◌≤◌, ◌++◌, ◌∷◌, [], true, false, List, length, take, map, option_map, option_copied, MatchOption, IfOk, OnOk, OnErr, IsOk, IsSome, All, AllPairs, Contains};
ghost use Rattle.std.specs.declared.cmp.Ordering.TheVariants.{Less};
ghost use Rattle.view_sets.specs.Slots.{among};
ghost use Rattle.slot_list.specs.Versions.{at, put, without, rehomed, with_slot, without_slot};
ghost use Rattle.accounts_index.specs.Bins.{AreUsed};
ghost use Rattle.accounts_index.specs.Index.{kept, nothing, versions_of, IsWith, key_cmp, IsOrdered, ListsRise, key_after, crowded_after};

use crate::bin::Bin;
use crate::bins::{GROUP, bin_of};
use crate::groups::{self, empty_groups, grow};
use crate::iter::Iter;
use crate::steps::Steps;
use adb_model::{Key, Slot};
use arrayvec::ArrayVec;
use slot_list::{Place, SlotList, Version};
use std::alloc::{AllocError, Global};
use std::marker::Model;
use std::sync::ledger::Ledger;

/// Keys with what is kept of them: versions by slot, and the slots in which a key is held or expected to be.
#[derive(Drop)]
pub struct AccountsIndex {
    /// The bins of keys by their first bytes, in groups. A group has no bins before a key comes into it.
    groups: Vec<Vec<Bin>>,
    alloc: Global,
}

impl Model for AccountsIndex {
    ghost use Rattle.accounts_index.specs.Index.{Index, ListsRise};
    ghost use Rattle.accounts_index.specs.Bins.{joined, all_bins, AreGroups};

    ghost Value = { Index };

    ghost view = { λ i. joined (all_bins i.groups.items) };

    ghost invariant = { λ i. AreGroups i.groups.items × ListsRise (joined (all_bins i.groups.items)) };
}

impl AccountsIndex {
    /// An index without keys.
    pub fn new(alloc: Global) -> Result<AccountsIndex, AllocError>
        ensures { IfOk result (λ index. index ≡ []) }
    {
        Ok(AccountsIndex {
            groups: empty_groups(alloc)?,
            alloc,
        })
    }

    /// The list of a key, or `None` where nothing is kept of it. Each comparison of two keys is a step. All keys of
    /// the index count for the bound, and something is kept of each.
    pub fn find<L: Ledger>(&self, key: &Key, steps: &mut Steps<L>) -> Option<&SlotList>
        ensures found { MatchOption (option_copied result)
            (kept self.now key.now.0 ≡ nothing)
            (λ list. (list.versions ≡ (kept self.now key.now.0).versions) × (list.held ≡ (kept self.now key.now.0).held)) }
        ensures later { steps.old ≤ steps.new }
        ensures cost { 2 ^ (steps.new - steps.old) ≤ 2 * length self.now + 1 }
        ensures used { AreUsed self.now }
    {
        let number = bin_of(key);
        let group = &self.groups[number / GROUP];
        if group.is_empty() {
            return None;
        }
        group[number % GROUP].find(key, steps)
    }

    /// The list of a key, as `find` gives it, where steps aren't counted.
    pub fn list(&self, key: &Key) -> Option<&SlotList>
        ensures { MatchOption (option_copied result)
            (kept self.now key.now.0 ≡ nothing)
            (λ list. (list.versions ≡ (kept self.now key.now.0).versions) × (list.held ≡ (kept self.now key.now.0).held)) }
    {
        let number = bin_of(key);
        let group = &self.groups[number / GROUP];
        if group.is_empty() {
            return None;
        }
        group[number % GROUP].list(key)
    }

    /// The version that a key has in a slot.
    pub fn version(&self, key: &Key, slot: Slot) -> Option<Version>
        ensures { result ≡ at slot (kept self.now key.now.0).versions }
    {
        let number = bin_of(key);
        let group = &self.groups[number / GROUP];
        if group.is_empty() {
            return None;
        }
        group[number % GROUP].version(key, slot)
    }

    /// Puts a version in, in place of the one that the key has in its slot, which takes no memory.
    pub fn upsert(&mut self, key: &Key, version: Version) -> Result<(), AllocError>
        ensures ok { OnOk result (let old = kept self.old key.now.0 in
            IsWith self.old self.new key.now.0 (record old { versions = put version old.versions })) }
        ensures err { OnErr result (self.new ≡ self.old) }
        ensures replaces { IsSome (at version.slot (kept self.old key.now.0).versions) → IsOk result }
    {
        let number = bin_of(key);
        let group = &mut self.groups[number / GROUP];
        grow(group, self.alloc)?;
        let bin = &mut group[number % GROUP];
        bin.upsert(key, version)
    }

    /// Takes a version out. It takes no memory.
    pub fn drop_version(&mut self, key: &Key, slot: Slot)
        requires { IsSome (at slot (kept self.old key.now.0).versions) }
        ensures { let old = kept self.old key.now.0 in
            IsWith self.old self.new key.now.0 (record old { versions = without slot old.versions }) }
    {
        let number = bin_of(key);
        let group = &mut self.groups[number / GROUP];
        let bin = &mut group[number % GROUP];
        bin.drop_version(key, slot);
    }

    /// Gives a version another place. It takes no memory.
    pub fn rehome(&mut self, key: &Key, slot: Slot, place: Place)
        requires { IsSome (at slot (kept self.old key.now.0).versions) }
        ensures { let old = kept self.old key.now.0 in
            IsWith self.old self.new key.now.0 (record old { versions = rehomed slot place old.versions }) }
    {
        let number = bin_of(key);
        let group = &mut self.groups[number / GROUP];
        let bin = &mut group[number % GROUP];
        bin.rehome(key, slot, place);
    }

    /// Expects a key to be held in a slot, and makes the room that `hold` needs.
    pub fn expect(&mut self, key: &Key, slot: Slot) -> Result<(), AllocError>
        ensures ok { OnOk result (let old = kept self.old key.now.0 in
            IsWith self.old self.new key.now.0 (record old { expected = old.expected ++ slot ∷ [] })) }
        ensures err { OnErr result (self.new ≡ self.old) }
    {
        let number = bin_of(key);
        let group = &mut self.groups[number / GROUP];
        grow(group, self.alloc)?;
        let bin = &mut group[number % GROUP];
        bin.expect(key, slot)
    }

    /// Expects a key to be held in a slot no longer.
    pub fn unexpect(&mut self, key: &Key, slot: Slot)
        ensures { let old = kept self.old key.now.0 in
            IsWith self.old self.new key.now.0 (record old { expected = without_slot slot old.expected }) }
    {
        let number = bin_of(key);
        let group = &mut self.groups[number / GROUP];
        if group.is_empty() {
            return;
        }
        let bin = &mut group[number % GROUP];
        bin.unexpect(key, slot);
    }

    /// Holds a key in a slot in which it is expected, and expects it there no longer. It takes no memory.
    pub fn hold(&mut self, key: &Key, slot: Slot)
        requires expected { among slot (kept self.old key.now.0).expected ≡ true }
        requires absent { among slot (kept self.old key.now.0).held ≡ false }
        ensures { let old = kept self.old key.now.0 in
            IsWith self.old self.new key.now.0
            (record old { held = with_slot slot old.held; expected = without_slot slot old.expected }) }
    {
        let number = bin_of(key);
        let group = &mut self.groups[number / GROUP];
        let bin = &mut group[number % GROUP];
        bin.hold(key, slot);
    }

    /// Does `rehome` and `hold` in one search. It takes no memory.
    pub fn settle(&mut self, key: &Key, slot: Slot, place: Place)
        requires there { IsSome (at slot (kept self.old key.now.0).versions) }
        requires expected { among slot (kept self.old key.now.0).expected ≡ true }
        requires absent { among slot (kept self.old key.now.0).held ≡ false }
        ensures { let old = kept self.old key.now.0 in
            IsWith self.old self.new key.now.0
            (record { versions = rehomed slot place old.versions; held = with_slot slot old.held; expected = without_slot slot old.expected }) }
    {
        let number = bin_of(key);
        let group = &mut self.groups[number / GROUP];
        let bin = &mut group[number % GROUP];
        bin.settle(key, slot, place);
    }

    /// Puts a version in, in place of the one that the key has in its slot, and holds the key in this slot, in one
    /// search. Says whether it was held there already.
    pub fn put_held(&mut self, key: &Key, version: Version) -> Result<bool, AllocError>
        ensures ok { OnOk result (let old = kept self.old key.now.0 in
            IsWith self.old self.new key.now.0 (record old { versions = put version old.versions; held = with_slot version.slot old.held })) }
        ensures was { IfOk result (λ was. was ≡ among version.slot (kept self.old key.now.0).held) }
        ensures err { OnErr result (self.new ≡ self.old) }
    {
        let number = bin_of(key);
        let group = &mut self.groups[number / GROUP];
        grow(group, self.alloc)?;
        let bin = &mut group[number % GROUP];
        bin.put_held(key, version)
    }

    /// Holds a key in a slot no longer.
    pub fn unhold(&mut self, key: &Key, slot: Slot)
        ensures { let old = kept self.old key.now.0 in
            IsWith self.old self.new key.now.0 (record old { held = without_slot slot old.held }) }
    {
        let number = bin_of(key);
        let group = &mut self.groups[number / GROUP];
        if group.is_empty() {
            return;
        }
        let bin = &mut group[number % GROUP];
        bin.unhold(key, slot);
    }

    /// Does nothing. It tells contracts that the keys of each index rise, and the versions of each key.
    pub fn in_order(&self)
        ensures keys { IsOrdered self.now }
        ensures lists { ListsRise self.now }
    {
        let _groups = &self.groups;
    }

    /// All keys by rising key, each with its list.
    pub fn iter(&self) -> Iter<'_>
        ensures all { result ≡ versions_of self.now }
        ensures rise { AllPairs (λ a b. key_cmp a.0 b.0 ≡ Less) result }
        ensures each { All (λ e. (kept self.now e.0).versions ≡ e.1) result }
        ensures every { (k : List ℕ) → (kept self.now k).versions ≢ [] → Contains result (k, (kept self.now k).versions) }
    {
        Iter::new(&self.groups)
    }

    /// The least key above another, or of all keys, that has a version.
    pub fn key_after(&self, after: Option<&Key>) -> Option<Key>
        ensures first { option_map (λ k. k.0) result ≡ key_after self.now (option_map (λ k. k.now.0) after.entry) }
        ensures rise { IsOrdered self.now }
    {
        groups::key_after(&self.groups, after)
    }

    /// Fills `into` with the first `most` crowded keys above another, or of all keys, rising: those that have two
    /// or more versions, or a stored one that is a tomb.
    pub fn crowded_after(&self, after: Option<&Key>, into: &mut ArrayVec<Key, 256>, most: usize)
        requires empty { into.old.items ≡ [] }
        requires most { most ≤ 256 }
        ensures first { map (λ k. k.0) into.new.items ≡ take most (crowded_after self.now (option_map (λ k. k.now.0) after.entry)) }
        ensures rise { IsOrdered self.now }
        ensures lists { ListsRise self.now }
    {
        groups::crowded_after(&self.groups, after, into, most);
    }
}
