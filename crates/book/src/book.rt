ghost use Rattle.std.specs.Prelude.{◌≡◌, ◌≢◌, ◌<◌, ◌≤◌, ◌↔◌, ℕ, List, [], length, map, Some, None, option_map, IfOk, IfErr, IsErr, IfSome, AllPairs, Contains};
ghost use Rattle.std.specs.declared.cmp.Ordering.TheVariants.{Less};
ghost use Rattle.slot_list.specs.Versions.{at};
ghost use Rattle.slot_list.specs.Latest.{sees, IsLatest};
ghost use Rattle.accounts_index.specs.Index.{kept, crowded_after};
ghost use Rattle.adb_model.specs.View.{View};
ghost use Rattle.adb_model.specs.Reclaimable.{key_cmp};
ghost use Rattle.adb_model.specs.State.{State, fresh};
ghost use Rattle.adb_model.specs.Opened.{opened};
ghost use Rattle.adb_model.specs.Call as machine;
ghost use Rattle.adb_model.specs.History.{state_after, IsPass};
ghost use Rattle.adb_model.specs.Laws.{ShowLive};
ghost use Rattle.adb_model.specs.Load.{answer};
ghost use Rattle.adb_model.specs.Seen.{counts_of};
ghost use Rattle.append_vec.specs.Filled.{Fills};
ghost use Rattle.flush_plan.specs.Jobs.{IsOpenJob};
ghost use Rattle.book_parts.specs.Stands.{Stands, After, with_event, AfterWithPins, HasHistory, HasHistoryWithPins};
ghost use Rattle.book_parts.specs.Pins.{HoldsPins};
ghost use Rattle.book_parts.specs.Keys.{IsNextKey};
ghost use Rattle.book_parts.specs.Shrinks.{IsOpenCopy};
ghost use Rattle.book_parts.specs.Snaps.{IsOpenSnap};
ghost use Rattle.book_parts.specs.Opening.{AreOpenable, AreFurther, sizes_of};
ghost use Rattle.vec_scan.specs.Shown.{shown, stored};
ghost use Rattle.pass_pins.specs.Pins.{without_one};
ghost use Rattle.book.specs.Replies.{store_reply, root_reply, purge_reply, load_reply, unpin_reply, lease_reply, end_lease_reply, raise_reply, reclaim_reply, flush_reply, shrink_reply, shrink_end_reply, snap_reply};
ghost use Rattle.open_plan.specs.Causes.{IsWhyNotRebuilt};
ghost use Rattle.book.specs.Answers.{told};
ghost use Rattle.book.specs.Listing.{IsSeen};
ghost use Rattle.book.specs.Pinned.{IsThere, pins_after};

use crate::flushing::{spent, why_not};
use crate::leasing::{self, Lease, why_not_raised};
use crate::listing::Accounts;
use crate::loading::{Answer, Found, FoundAt, latest};
use crate::pinning::{Cells, Held, pin};
use crate::purging::leave;
use crate::refusals::{
    FlushRefusal, LeaseRefusal, LoadRefusal, NotLeased, NotPinned, RaiseRefusal, RootRefusal,
    Rooted, ShrinkDone, ShrinkRefusal, SnapRefusal, StoreRefusal, ViewTooOld,
};
use crate::rooting::rooted_by;
use crate::shrinking::{no_id_for, why_not_shrunk};
use crate::snapping::{SnapJob, pin_each, storages_upto, unpin_each, why_not_snapped};
use crate::storing::enter;
use accounts_index::AccountsIndex;
use adb_model::{Account, Key, Slot, Stats, View};
use append_vec::{Filled, filled_rows_are_the_same};
use book_parts::{
    flush_begin_stands, flush_end_stands, latest_versions_answer, lease_stands, load_stands,
    new_parts_stand, next_key_stands, purge_stands, raise_stands, reclaim_stands, recycle_stands,
    root_stands, shrink_begin_stands, shrink_end_stands, snap_begin_stands, snap_end_stands,
    stats_stand, store_stands, stored_load_stands, sums_fit, unpin_stands,
};
use cell_table::CellTable;
use flush_plan::FlushJob;
use open_plan::RebuildFault;
use pass_pins::{MAX_PINS, PassPins};
use shrink_plan::ShrinkJob;
use slot_list::{Place, SlotList, Version};
use std::alloc::{AllocError, Global};
use std::marker::Model;
use std::sync::Arc;
use storage_map::StorageMap;
use vec_scan::Sealed;
use view_sets::RootSet;
use write_cache::WriteCache;

/// The most storages of a book.
pub const MAX_STORAGES: usize = 1_048_576;

/// The accounts of a store, by what the plain machine says of them.
///
/// Contracts see a book as the parts that it is made of, and say of each call: from whatever start and for
/// whatever history of events the book stands, it then stands for that history with the call's event, whose
/// reply is what the call answered. After want of memory it stands for what it stood for before.
#[derive(Drop)]
pub struct Book {
    index: AccountsIndex,
    cache: WriteCache,
    roots: RootSet,
    /// Versions that newer roots up to this slot hide may be dropped.
    cleaned: Slot,
    /// Of passes that hold on to older views, in the order in which they began.
    leases: Vec<Lease>,
    /// The storages, each in a cell.
    cells: Cells,
    /// Of each slot the storage in use, and the one that is being filled.
    map: StorageMap,
    /// The slot of the open snapshot.
    snap: Option<Slot>,
    /// The id of the next storage.
    next_id: u64,
    alloc: Global,
}

impl Model for Book {
    ghost use Rattle.book_parts.specs.Parts.{Parts};
    ghost use Rattle.book_parts.specs.Stands.{HasHistory};

    ghost Value = { Parts };

    ghost use Rattle.book.specs.Inside.{seen};

    ghost view = { seen };

    ghost invariant = { λ b. HasHistory (seen b) };
}

impl Book {
    /// A book without accounts. Its storages may have `budget` bytes together, and `first_id` is the id of
    /// the first one.
    pub fn new(alloc: Global, budget: u64, first_id: u64) -> Result<Book, AllocError>
        requires { 1 ≤ first_id }
        ensures { IfOk result (λ book. Stands book (fresh budget first_id) []) }
    {
        new_parts_stand();
        Ok(Book {
            index: AccountsIndex::new(alloc)?,
            cache: WriteCache::new(alloc),
            roots: RootSet::new(alloc),
            cleaned: 0,
            leases: Vec::new(alloc),
            cells: CellTable::new(alloc, budget, MAX_STORAGES),
            map: StorageMap::new(alloc),
            snap: None,
            next_id: first_id,
            alloc,
        })
    }

    /// A book of the accounts of these storages, as a snapshot at a slot has them. Its roots are the slots of the
    /// storages, the further ones, and the snapshot's; it is cleaned up to the snapshot's slot.
    ///
    /// # Errors
    /// `Full` and `NoCell` exactly where the budget or the cells don't suffice, at the first storage that meets it.
    pub fn rebuild(
        alloc: Global,
        budget: u64,
        slot: Slot,
        storages: Vec<Sealed>,
        more_roots: &[Slot],
    ) -> Result<Book, RebuildFault>
        requires storages { AreOpenable slot storages.items }
        requires more { AreFurther slot storages.items more_roots.now }
        ensures opened { IfOk result (λ book. Stands book (opened budget slot (map stored storages.items) more_roots.now) []) }
        ensures refused { IfErr result (IsWhyNotRebuilt budget (sizes_of storages.items)) }
    {
        let next_id = storages.len() as u64 + 1;
        let cells = CellTable::new(alloc, budget, MAX_STORAGES);
        let opened = open_plan::open(alloc, slot, storages, more_roots, cells)?;
        Ok(Book {
            index: opened.index,
            cache: WriteCache::new(alloc),
            roots: opened.roots,
            cleaned: slot,
            leases: Vec::new(alloc),
            cells: opened.cells,
            map: opened.map,
            snap: None,
            next_id,
            alloc,
        })
    }

    /// A law: each book stands for some history.
    pub fn has_history(&self)
        ensures { HasHistory self.now }
    {
        let _ = &self.cleaned;
    }

    /// Stores an account under a key in a slot. An account without lamports deletes the key there.
    ///
    /// # Errors
    /// `SlotRooted` exactly where there is a root and the slot isn't above the newest.
    pub fn store(&mut self, slot: Slot, key: Key, account: Arc<Account>) -> Result<(), StoreRefusal>
        ensures { (m0 : State) (h : List machine.Event) (pass : ℕ) → Stands self.old m0 h
            → After self.new m0 h pass (machine.Store slot key.0 account.value) (store_reply result) }
    {
        store_stands();
        if let Some(newest) = rooted_by(&self.roots, slot) {
            return Err(StoreRefusal::SlotRooted { slot, newest });
        }
        enter(&mut self.index, &mut self.cache, slot, key, account)?;
        Ok(())
    }

    /// Makes a slot the newest root.
    ///
    /// # Errors
    /// `RootOrder` exactly where there is a root and the slot isn't above the newest.
    pub fn root(&mut self, slot: Slot) -> Result<(), RootRefusal>
        ensures { (m0 : State) (h : List machine.Event) (pass : ℕ) → Stands self.old m0 h
            → After self.new m0 h pass (machine.Root slot) (root_reply result) }
    {
        root_stands();
        if let Some(newest) = rooted_by(&self.roots, slot) {
            return Err(RootRefusal::RootOrder { slot, newest });
        }
        self.roots.add(slot)?;
        Ok(())
    }

    /// Drops all that was stored in a slot, and says of how many keys it was. It takes no memory.
    ///
    /// # Errors
    /// `Rooted` exactly where the slot is a root.
    pub fn purge(&mut self, slot: Slot) -> Result<u64, Rooted>
        ensures { (m0 : State) (h : List machine.Event) (pass : ℕ) → Stands self.old m0 h
            → After self.new m0 h pass (machine.Purge slot) (Some (purge_reply result)) }
    {
        purge_stands();
        if self.roots.contains(slot) {
            return Err(Rooted { slot });
        }
        Ok(leave(&mut self.index, &mut self.cache, slot))
    }

    /// What a view sees of a key, for the pass whose pins are in hand: `None` where it sees no account. Where
    /// it is found in a storage, the pass has one pin more then, of this storage, which keeps it. The one memory
    /// that it takes is for an `Arc`, before anything changes.
    ///
    /// # Errors
    /// `ViewTooOld` exactly where the view's greatest root is below the slot up to which was cleaned; else
    /// `TooManyPins` exactly where the pass has 64 pins.
    pub fn load(
        &mut self,
        pins: &mut PassPins,
        view: &View,
        key: &Key,
    ) -> Result<Option<Found>, LoadRefusal>
        requires { HasHistoryWithPins self.old pins.old }
        ensures stands { (m0 : State) (h : List machine.Event) → Stands self.old m0 h → HoldsPins pins.old (state_after m0 h)
            → AfterWithPins self.new pins.new m0 h (machine.Load view.now key.now.0) (load_reply result) }
        ensures there { IfOk result (λ found. IfSome found (λ f. IsThere key.now.0 f.at)) }
        ensures pins { pins.new ≡ pins_after result pins.old }
        ensures pass { pins.new.pass ≡ pins.old.pass }
    {
        load_stands();
        stored_load_stands();
        let max_root = view.max_root();
        if max_root < self.cleaned {
            let cleaned = self.cleaned;
            return Err(LoadRefusal::ViewTooOld { max_root, cleaned });
        }
        if pins.count() == MAX_PINS {
            return Err(LoadRefusal::TooManyPins {
                most: MAX_PINS as u64,
            });
        }
        let Some(version) = latest(&self.index, &self.roots, view, key) else {
            return Ok(None);
        };
        if version.tomb {
            return Ok(None);
        }
        match version.place {
            Place::Cached => match self.cache.get(version.slot, key) {
                Some(account) => Ok(Some(Found {
                    slot: version.slot,
                    at: FoundAt::Cached(account.clone()?),
                })),
                None => unreachable!(),
            },
            Place::Stored { cell, offset } => {
                let Held { id, sealed } = pin(&mut self.cells, cell)?;
                pins.add(id);
                Ok(Some(Found {
                    slot: version.slot,
                    at: FoundAt::Stored { id, sealed, offset },
                }))
            }
        }
    }

    /// All keys by rising key, each with what a view sees of it, read where it stands while the book is held still.
    /// Each key that has an account to the view is among them. Nothing is pinned, and no memory is taken.
    ///
    /// # Errors
    /// `ViewTooOld` exactly where the view's greatest root is below the slot up to which was cleaned.
    pub fn accounts<'a>(&'a self, view: &'a View) -> Result<Accounts<'a>, ViewTooOld>
        ensures book { IfOk result (λ listing. listing.book ≡ self.now) }
        ensures view { IfOk result (λ listing. listing.view ≡ view.now) }
        ensures rise { IfOk result (λ listing. AllPairs (λ a b. key_cmp a b ≡ Less) listing.keys) }
        ensures every { (m0 : State) (h : List machine.Event) (key : List ℕ) → Stands self.now m0 h
            → answer (state_after m0 h) view.now key ≢ None → IfOk result (λ listing. Contains listing.keys key) }
        ensures too_old { IsErr result ↔ (view.now.max_root < self.now.cleaned) }
        ensures refusal { IfErr result (λ refusal. refusal ≡ record { max_root = view.now.max_root; cleaned = self.now.cleaned }) }
    {
        latest_versions_answer();
        let max_root = view.max_root();
        if max_root < self.cleaned {
            let cleaned = self.cleaned;
            return Err(ViewTooOld { max_root, cleaned });
        }
        Ok(Accounts::new(self, view, self.index.iter()))
    }

    /// The version that a view sees among those of a key.
    pub(crate) fn latest_of(&self, view: &View, list: &SlotList) -> Option<Version>
        ensures { IsLatest (sees view.now.ancestors self.now.roots view.now.max_root) list.now.versions result }
    {
        list.latest(view.ancestors(), &self.roots, view.max_root())
    }

    /// The account that a version of a key is, read where it stands; `None` for a tomb and for no version. Where it is
    /// the version that a view sees, this is what the view sees.
    pub(crate) fn read(&self, key: &Key, seen: Option<Version>) -> Option<Answer<'_>>
        requires { IfSome seen (λ version. at version.slot (kept self.now.index key.now.0).versions ≡ Some version) }
        ensures { (m0 : State) (h : List machine.Event) (view : View) → Stands self.now m0 h → self.now.cleaned ≤ view.max_root
            → IsSeen self.now view key.now.0 seen → option_map (told key.now.0) result ≡ answer (state_after m0 h) view key.now.0 }
    {
        load_stands();
        stored_load_stands();
        latest_versions_answer();
        let Some(version) = seen else {
            return None;
        };
        if version.tomb {
            return None;
        }
        let slot = version.slot;
        match version.place {
            Place::Cached => match self.cache.get(slot, key) {
                Some(account) => Some(Answer {
                    slot,
                    head: account.head(),
                    data: account.data(),
                }),
                None => unreachable!(),
            },
            Place::Stored { cell, offset } => {
                let record = self.cells.get(cell).record_at(offset);
                Some(Answer {
                    slot,
                    head: record.head,
                    data: record.body,
                })
            }
        }
    }

    /// The pass whose pins are in hand lets go of a storage, by its id. It takes no memory.
    ///
    /// # Errors
    /// `NotPinned` exactly where the pass has no pin of the storage.
    pub fn unpin(&mut self, pins: &mut PassPins, id: u64) -> Result<(), NotPinned>
        requires { HasHistoryWithPins self.old pins.old }
        ensures stands { (m0 : State) (h : List machine.Event) → Stands self.old m0 h → HoldsPins pins.old (state_after m0 h)
            → AfterWithPins self.new pins.new m0 h (machine.Unpin id) (Some (unpin_reply result)) }
        ensures pins { pins.new ≡ record pins.old { pins = without_one id pins.old.pins } }
        ensures pass { pins.new.pass ≡ pins.old.pass }
    {
        unpin_stands();
        if !pins.take(id) {
            return Err(NotPinned { id });
        }
        let Some(cell) = self.cells.cell_of(id) else {
            unreachable!();
        };
        self.cells.unpin(cell);
        Ok(())
    }

    /// A pass holds on to the views whose roots end at `max_root` or later: what they see isn't cleaned until the pass
    /// lets go.
    ///
    /// # Errors
    /// `ViewTooOld` exactly where that slot is below the one up to which was cleaned.
    pub fn lease(&mut self, pass: u64, max_root: u64) -> Result<(), LeaseRefusal>
        requires { IsPass pass }
        ensures { (m0 : State) (h : List machine.Event) → Stands self.old m0 h
            → After self.new m0 h pass (machine.Lease max_root) (lease_reply result) }
    {
        lease_stands();
        if max_root < self.cleaned {
            let cleaned = self.cleaned;
            return Err(LeaseRefusal::ViewTooOld { max_root, cleaned });
        }
        leasing::put(&mut self.leases, pass, max_root)?;
        Ok(())
    }

    /// A pass lets go of such views: the last of its leases of this `max_root` leaves. It takes no memory.
    ///
    /// # Errors
    /// `NotLeased` exactly where the pass has no such lease.
    pub fn end_lease(&mut self, pass: u64, max_root: u64) -> Result<(), NotLeased>
        requires { IsPass pass }
        ensures { (m0 : State) (h : List machine.Event) → Stands self.old m0 h
            → After self.new m0 h pass (machine.EndLease max_root) (Some (end_lease_reply result)) }
    {
        lease_stands();
        if !leasing::take(&mut self.leases, pass, max_root) {
            return Err(NotLeased { max_root });
        }
        Ok(())
    }

    /// Lets versions be dropped that roots up to this slot hide, and says up to which slot that is so then: this one,
    /// or an earlier call's that was higher. It takes no memory.
    ///
    /// # Errors
    /// `PastRoot` exactly where there is no root, or the slot is above the newest; else `Leased` exactly where a lease
    /// is of views below it, of which it names the least.
    pub fn raise(&mut self, upto: Slot) -> Result<Slot, RaiseRefusal>
        ensures { (m0 : State) (h : List machine.Event) (pass : ℕ) → Stands self.old m0 h
            → After self.new m0 h pass (machine.Raise upto) (Some (raise_reply result)) }
    {
        raise_stands();
        if let Some(refusal) = why_not_raised(&self.roots, &self.leases, upto) {
            return Err(refusal);
        }
        self.cleaned = self.cleaned.max(upto);
        Ok(self.cleaned)
    }

    /// Drops what nobody can need any more of the first `most` crowded keys above another, or of all keys: versions
    /// that a root up to the cleaned slot hides, and then tombs that hide nothing. Storages of which no row is found
    /// any more retire. Gives the last of these keys, from which the next call goes on. It takes no memory.
    pub fn reclaim(&mut self, after: Option<&Key>, most: usize) -> Option<Key>
        requires least { 1 ≤ most }
        requires most { most ≤ 256 }
        ensures stands { (m0 : State) (h : List machine.Event) (pass : ℕ) → Stands self.old m0 h
            → After self.new m0 h pass (machine.Reclaim (option_map (λ k. k.now.0) after.entry) most) (Some (reclaim_reply (option_map (λ k. k.0) result))) }
        ensures fewer { IfSome result (λ key. length (crowded_after self.new.index (Some key.0)) < length (crowded_after self.old.index (option_map (λ k. k.now.0) after.entry))) }
    {
        reclaim_stands();
        clean_plan::reclaim(
            after,
            most,
            self.cleaned,
            &self.roots,
            &mut self.index,
            &mut self.cells,
            &mut self.map,
        )
    }

    /// Begins to flush a root: its rows in the write cache are to go to a new storage, which the job is to be
    /// filled with. It takes all the room that the flush's end needs.
    ///
    /// # Errors
    /// `NotRooted` exactly where the slot is no root; else `NothingCached` exactly where nothing of it is in the
    /// write cache; else `Flushing` exactly where a flush of it is open; else `Full` exactly where its bytes and
    /// those of all storages are above the budget; else `NoCell` exactly where there are 1,048,576 storages; else
    /// `IdsSpent` exactly where the next id would be 2^64 - 1.
    pub fn flush_begin(&mut self, slot: Slot) -> Result<FlushJob, FlushRefusal>
        ensures stands { (m0 : State) (h : List machine.Event) (pass : ℕ) → Stands self.old m0 h
            → After self.new m0 h pass (machine.FlushBegin slot) (flush_reply result) }
        ensures opens { (m0 : State) (h : List machine.Event) (pass : ℕ) → Stands self.old m0 h
            → IfOk result (λ job. IsOpenJob job (state_after m0 (with_event h pass (machine.FlushBegin slot) (flush_reply result)))) }
        ensures slot { IfOk result (λ job. job.slot ≡ slot) }
    {
        flush_begin_stands();
        if let Some(refusal) = why_not(&self.roots, &self.cache, &self.cells, &self.map, slot) {
            return Err(refusal);
        }
        if self.next_id == u64::MAX {
            return Err(spent(&self.cache, &self.cells, slot));
        }
        let job = flush_plan::begin(
            self.alloc,
            slot,
            self.next_id,
            &self.cache,
            &mut self.index,
            &mut self.cells,
            &mut self.map,
        )?;
        self.next_id += 1;
        Ok(job)
    }

    /// Ends a flush: its storage comes into use, and the slot's rows are found there and no longer in the write
    /// cache. It takes no memory.
    pub fn flush_end(&mut self, job: FlushJob, filled: Filled)
        requires open { (m0 : State) × (h : List machine.Event) × Stands self.old m0 h × IsOpenJob job (state_after m0 h) }
        requires filled { Fills job.slot job.id job.rows filled.sealed.value filled.places.items }
        ensures { (m0 : State) (h : List machine.Event) (pass : ℕ) → Stands self.old m0 h → IsOpenJob job (state_after m0 h)
            → After self.new m0 h pass (machine.FlushEnd job.slot) (Some machine.Done) }
    {
        flush_end_stands();
        filled_rows_are_the_same();
        flush_plan::end(
            job,
            filled.sealed,
            &filled.places,
            &mut self.cache,
            &mut self.index,
            &mut self.cells,
            &mut self.map,
        );
    }

    /// Gives a flush up: its storage leaves. It takes no memory.
    pub fn flush_abort(&mut self, job: FlushJob)
        requires { (m0 : State) × (h : List machine.Event) × Stands self.old m0 h × IsOpenJob job (state_after m0 h) }
        ensures { (m0 : State) (h : List machine.Event) (pass : ℕ) → Stands self.old m0 h → IsOpenJob job (state_after m0 h)
            → After self.new m0 h pass (machine.FlushAbort job.slot) (Some machine.Done) }
    {
        flush_end_stands();
        flush_plan::abort(job, &mut self.index, &mut self.cells, &mut self.map);
    }

    /// Begins to copy the rows of a slot's storage that loads may find to a new storage, which the job is to be filled
    /// with. The old storage is pinned until the shrink ends. It takes all the room that the shrink's end needs.
    ///
    /// # Errors
    /// `NoStorage` exactly where no storage of the slot is in use; else `Shrinking` exactly where a shrink of it is
    /// open; else `NothingDead` exactly where loads may find each of its rows; else `Full` exactly where the bytes of
    /// the copy and those of all storages are above the budget; else `NoCell` exactly where there are 1,048,576
    /// storages; else `IdsSpent` exactly where the next id would be 2^64 - 1.
    pub fn shrink_begin(&mut self, slot: Slot) -> Result<ShrinkJob, ShrinkRefusal>
        ensures stands { (m0 : State) (h : List machine.Event) (pass : ℕ) → Stands self.old m0 h
            → After self.new m0 h pass (machine.ShrinkBegin slot) (shrink_reply result) }
        ensures opens { (m0 : State) (h : List machine.Event) (pass : ℕ) → Stands self.old m0 h
            → IfOk result (λ job. IsOpenCopy job (state_after m0 (with_event h pass (machine.ShrinkBegin slot) (shrink_reply result)))) }
        ensures slot { IfOk result (λ job. job.slot ≡ slot) }
    {
        shrink_begin_stands();
        if let Some(refusal) = why_not_shrunk(&self.cells, &self.map, slot) {
            return Err(refusal);
        }
        let id = self.next_id;
        if id == u64::MAX {
            return Err(no_id_for(slot, &self.index, &self.cells, &self.map));
        }
        let job = shrink_plan::begin(
            self.alloc,
            slot,
            id,
            &self.index,
            &mut self.cells,
            &mut self.map,
        )?;
        self.next_id = id + 1;
        Ok(job)
    }

    /// Ends a shrink: where the old storage is in use still, the copy takes its place, and the old one retires; else
    /// the copy goes. It takes no memory.
    pub fn shrink_end(&mut self, job: ShrinkJob, filled: Filled) -> ShrinkDone
        requires open { (m0 : State) × (h : List machine.Event) × Stands self.old m0 h × IsOpenCopy job (state_after m0 h) }
        requires filled { Fills job.slot job.id job.rows filled.sealed.value filled.places.items }
        ensures { (m0 : State) (h : List machine.Event) (pass : ℕ) → Stands self.old m0 h → IsOpenCopy job (state_after m0 h)
            → After self.new m0 h pass (machine.ShrinkEnd job.slot) (Some (shrink_end_reply result)) }
    {
        shrink_end_stands();
        filled_rows_are_the_same();
        let slot = job.slot();
        let old = job.old();
        let is_installed = shrink_plan::end(
            job,
            filled.sealed,
            &filled.places,
            &mut self.index,
            &mut self.cells,
            &mut self.map,
        );
        if is_installed {
            ShrinkDone::Installed
        } else {
            ShrinkDone::Superseded { slot, old }
        }
    }

    /// Gives a shrink up: its copy leaves. It takes no memory.
    pub fn shrink_abort(&mut self, job: ShrinkJob)
        requires { (m0 : State) × (h : List machine.Event) × Stands self.old m0 h × IsOpenCopy job (state_after m0 h) }
        ensures { (m0 : State) (h : List machine.Event) (pass : ℕ) → Stands self.old m0 h → IsOpenCopy job (state_after m0 h)
            → After self.new m0 h pass (machine.ShrinkAbort job.slot) (Some machine.Done) }
    {
        shrink_end_stands();
        shrink_plan::abort(job, &mut self.cells, &mut self.map);
    }

    /// Begins a snapshot of a root: its storages are those in use of the slots up to it, whose images the job shares,
    /// by rising slot. They stay until the snapshot ends, whatever is cleaned or shrunk meanwhile. It takes all the
    /// memory that the end needs.
    ///
    /// # Errors
    /// `SnapOpen` exactly where a snapshot is open, of whose slot it tells; else `NotRoot` exactly where the slot is no
    /// root; else `SnapTooOld` exactly where it is below the slot up to which was cleaned; else `Unflushed` exactly
    /// where a root up to it has rows in the write cache, of which it names the least.
    pub fn snap_begin(&mut self, slot: Slot) -> Result<SnapJob, SnapRefusal>
        ensures stands { (m0 : State) (h : List machine.Event) (pass : ℕ) → Stands self.old m0 h
            → After self.new m0 h pass (machine.SnapBegin slot) (snap_reply result) }
        ensures opens { (m0 : State) (h : List machine.Event) (pass : ℕ) → Stands self.old m0 h
            → IfOk result (λ job. IsOpenSnap job (state_after m0 (with_event h pass (machine.SnapBegin slot) (snap_reply result)))) }
        ensures shows { (m0 : State) (h : List machine.Event) → Stands self.old m0 h
            → IfOk result (λ job. ShowLive (state_after m0 h) slot (map shown job.storages)) }
        ensures slot { IfOk result (λ job. job.slot ≡ slot) }
    {
        snap_begin_stands();
        if let Some(refusal) = why_not_snapped(
            self.snap,
            &self.roots,
            self.cleaned,
            &self.cache,
            slot,
        ) {
            return Err(refusal);
        }
        let storages = storages_upto(self.alloc, slot, &self.cells, &self.map)?;
        pin_each(&mut self.cells, &storages);
        self.snap = Some(slot);
        Ok(SnapJob::new(slot, storages))
    }

    /// Ends a snapshot: its storages are let go of. It takes no memory.
    pub fn snap_end(&mut self, job: SnapJob)
        requires { (m0 : State) × (h : List machine.Event) × Stands self.old m0 h × IsOpenSnap job (state_after m0 h) }
        ensures { (m0 : State) (h : List machine.Event) (pass : ℕ) → Stands self.old m0 h → IsOpenSnap job (state_after m0 h)
            → After self.new m0 h pass (machine.SnapEnd job.slot) (Some machine.Done) }
    {
        snap_end_stands();
        unpin_each(&mut self.cells, job.storages());
        self.snap = None;
    }

    /// Lets every storage go that is no longer in use and that nobody has pinned, and says how many these are. It takes
    /// no memory.
    pub fn recycle(&mut self) -> u64
        ensures { (m0 : State) (h : List machine.Event) (pass : ℕ) → Stands self.old m0 h
            → After self.new m0 h pass machine.Recycle (Some (machine.Recycled result)) }
    {
        recycle_stands();
        self.cells.recycle()
    }

    /// What the book has, by counts that are kept.
    pub fn stats(&self) -> Stats
        ensures { (m0 : State) (h : List machine.Event) (pass : ℕ) → Stands self.now m0 h
            → After self.now m0 h pass machine.Stats (Some (machine.Counted (counts_of result))) }
    {
        stats_stand();
        sums_fit();
        let counts = self.cells.counts();
        // The sums are below 2^64, since the bytes of the storages are.
        let _limit = self.cells.limit();
        let (named, rows) = self.map.sums();
        Stats {
            cached: self.cache.total(),
            filling: counts.filling,
            live: counts.live,
            retired: counts.retired,
            named,
            rows,
            bytes: self.cells.used(),
            pins: counts.pins,
        }
    }

    /// The least key above another, or of all keys, that is present in some slot: that has an account or a tomb
    /// in the write cache or in a storage. It is no event.
    pub fn key_after(&self, after: Option<&Key>) -> Option<Key>
        ensures { (m0 : State) (h : List machine.Event) → Stands self.now m0 h
            → IsNextKey (state_after m0 h) (option_map (λ k. k.now.0) after.entry) (option_map (λ k. k.0) result) }
    {
        next_key_stands();
        self.index.key_after(after)
    }
}
