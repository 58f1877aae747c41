ghost use Rattle.std.specs.Prelude.{◌≡◌, ◌↔◌, ◌+◌, ◌-◌, ◌<◌, ◌≤◌, ◌^◌, ℕ, length, List, [], Some, None, IsSome, IfOk, MatchOption};
ghost use Rattle.cell_table.specs.Phases.{value_of};
ghost use Rattle.cell_table.specs.Cells.{cell_at, pins};
ghost use Rattle.storage_map.specs.declared.entry.Live as entry;
ghost use Rattle.storage_map.specs.Slots.{live_at};
ghost use Rattle.write_cache.specs.Rows.{rows};
ghost use Rattle.book_parts.specs.Snaps.{AreUpto, IsFirstUnflushed, MaySnap, MayPin, MayUnpin, PinsEach, UnpinsEach, ids_of, image_at};
ghost use Rattle.vec_scan.specs.Shown.{images_of};
ghost use Rattle.book.specs.Snapping.{IsAfter, IsNextUpto, IsWhyNotSnapped};

use crate::pinning::Cells;
use crate::refusals::SnapRefusal;
use adb_model::Slot;
use std::alloc::{AllocError, Global};
use std::marker::Model;
use std::sync::Arc;
use storage_map::StorageMap;
use vec_scan::Sealed;
use view_sets::RootSet;
use write_cache::WriteCache;

/// A snapshot that has begun. It shares the images of the storages that it is to be written from.
///
/// Contracts see its slot, and these images.
#[derive(Drop)]
pub struct SnapJob {
    slot: Slot,
    storages: Vec<Arc<Sealed>>,
}

impl Model for SnapJob {
    ghost use Rattle.book_parts.specs.Snaps.{Snapshot};
    ghost use Rattle.vec_scan.specs.Shown.{images_of};

    ghost Value = { Snapshot };

    ghost view = { λ j. record { slot = j.slot; storages = images_of j.storages.items } };
}

impl SnapJob {
    pub(crate) fn new(slot: Slot, storages: Vec<Arc<Sealed>>) -> SnapJob
        ensures { result ≡ record { slot = slot; storages = images_of storages.items } }
    {
        SnapJob { slot, storages }
    }

    /// The slot up to which the storages are.
    pub fn slot(&self) -> Slot
        ensures { result ≡ self.now.slot }
    {
        self.slot
    }

    /// The images of the storages, by rising slot.
    pub fn storages(&self) -> &[Arc<Sealed>]
        ensures { images_of result.now ≡ self.now.storages }
    {
        &self.storages
    }
}

/// Why no snapshot of a slot can begin: one is open, the slot is no root or below the cleaned one, or a root up to it
/// has rows in the cache.
pub fn why_not_snapped(
    snap: Option<Slot>,
    roots: &RootSet,
    cleaned: Slot,
    cache: &WriteCache,
    slot: Slot,
) -> Option<SnapRefusal>
    ensures { MatchOption result (MaySnap snap roots.now cleaned cache.now slot) (IsWhyNotSnapped snap roots.now cleaned cache.now slot) }
{
    if let Some(slot) = snap {
        return Some(SnapRefusal::SnapOpen { slot });
    }
    if !roots.contains(slot) {
        return Some(SnapRefusal::NotRoot { slot });
    }
    if slot < cleaned {
        return Some(SnapRefusal::SnapTooOld { slot, cleaned });
    }
    match first_unflushed(roots, cache, slot) {
        Some(slot) => Some(SnapRefusal::Unflushed { slot }),
        None => None,
    }
}

/// The images of the storages in use of the slots up to one, by rising slot.
pub fn storages_upto(
    alloc: Global,
    slot: Slot,
    cells: &Cells,
    map: &StorageMap,
) -> Result<Vec<Arc<Sealed>>, AllocError>
    requires { (s : ℕ) (live : entry.Live) → live_at map.now s ≡ Some live → IsSome (value_of (cell_at cells.now.cells live.cell)) }
    ensures { IfOk result (λ storages. AreUpto slot cells.now map.now (images_of storages.items)) }
{
    let mut storages = Vec::new(alloc);
    let mut at = next_in_use(map, None, slot);
    while let Some(found) = at {
        storages.push(share(cells, map, found)?)?;
        at = next_in_use(map, Some(found), slot);
    }
    Ok(storages)
}

/// Pins the cells of these images once more each.
pub fn pin_each(cells: &mut Cells, storages: &[Arc<Sealed>])
    requires live { MayPin (images_of storages.now) cells.old }
    requires fits { pins cells.old.cells + length storages.now < 2 ^ 64 - 1 }
    ensures { PinsEach (ids_of (images_of storages.now)) cells.old cells.new }
{
    for storage in storages {
        let Some(cell) = cells.cell_of(storage.id()) else {
            unreachable!();
        };
        cells.pin(cell);
    }
}

/// Pins the cells of these images once less each.
pub fn unpin_each(cells: &mut Cells, storages: &[Arc<Sealed>])
    requires { MayUnpin (images_of storages.now) cells.old }
    ensures { UnpinsEach (ids_of (images_of storages.now)) cells.old cells.new }
{
    for storage in storages {
        let Some(cell) = cells.cell_of(storage.id()) else {
            unreachable!();
        };
        cells.unpin(cell);
    }
}

// The image of a slot's storage in use.
fn share(cells: &Cells, map: &StorageMap, slot: Slot) -> Result<Arc<Sealed>, AllocError>
    requires there { IsSome (live_at map.now slot) }
    requires filled { (live : entry.Live) → live_at map.now slot ≡ Some live → IsSome (value_of (cell_at cells.now.cells live.cell)) }
    ensures { IfOk result (λ sealed. image_at cells.now map.now slot ≡ Some sealed.value) }
{
    let Some(live) = map.live(slot) else {
        unreachable!();
    };
    cells.get(live.cell).clone()
}

// The least root up to a slot that has rows in the cache.
fn first_unflushed(roots: &RootSet, cache: &WriteCache, upto: Slot) -> Option<Slot>
    ensures { IsFirstUnflushed roots.now cache.now upto result }
{
    let mut at = next_cached(cache, None, upto);
    while let Some(slot) = at {
        if roots.contains(slot) {
            return Some(slot);
        }
        at = next_cached(cache, Some(slot), upto);
    }
    None
}

// The least slot above another one, or of all, and up to a third, that has rows in the cache.
fn next_cached(cache: &WriteCache, after: Option<Slot>, upto: Slot) -> Option<Slot>
    ensures { IsNextUpto (λ q. rows cache.now q ≡ []) after upto result }
{
    let Some(from) = first_above(after, upto) else {
        return None;
    };
    match cache.next_slot(from) {
        Some(slot) if slot <= upto => Some(slot),
        _ => None,
    }
}

// The least slot above another one, or of all, and up to a third, that has a storage in use.
fn next_in_use(map: &StorageMap, after: Option<Slot>, upto: Slot) -> Option<Slot>
    ensures { IsNextUpto (λ q. live_at map.now q ≡ None) after upto result }
{
    let Some(from) = first_above(after, upto) else {
        return None;
    };
    match map.next_live(from) {
        Some(slot) if slot <= upto => Some(slot),
        _ => None,
    }
}

// The slot from which those begin that are above another one, or all, unless none of them is up to a third.
fn first_above(after: Option<Slot>, upto: Slot) -> Option<Slot>
    ensures { MatchOption result ((q : ℕ) → IsAfter after q → q ≤ upto → ⊥) (λ from. (q : ℕ) → IsAfter after q ↔ (from ≤ q)) }
{
    match after {
        None => Some(0),
        Some(after) if after < upto => Some(after + 1),
        Some(_) => None,
    }
}
