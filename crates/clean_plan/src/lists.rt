// What a reclaim looks up in the list of a key.
ghost use Rattle.std.specs.Prelude.{◌≡◌, ℕ, ◌<◌, ◌≤◌, ◌&&◌, false, nat_le, length, option_map, IfSome};
ghost use Rattle.std.specs.List.{AllWithin};
ghost use Rattle.std.specs.List.Sorted.{IsStrictlyIncreasing};
ghost use Rattle.slot_list.specs.Versions.{VersionsRise};
ghost use Rattle.accounts_index.specs.Index.{kept, is_stored};
ghost use Rattle.book_parts.specs.Reclaims.{is_stored_at, IsNewestShadow};
ghost use Rattle.clean_plan.specs.Lists.{IsNextStored, IsAloneBelow, TellsLowestTomb};

use accounts_index::AccountsIndex;
use adb_model::{Key, Slot};
use slot_list::{Place, Version};
use view_sets::RootSet;

/// The newest root, up to the cleaned slot, that has a version of the key.
pub fn newest_shadow(
    key: &Key,
    cleaned: Slot,
    roots: &RootSet,
    index: &AccountsIndex,
) -> Option<Slot>
    ensures { IsNewestShadow roots.now cleaned (kept index.now key.now.0).versions result }
{
    let list = index.list(key)?;
    let newest = list.latest(&[], roots, cleaned)?;
    Some(newest.slot)
}

/// The least slot from one on, below a bound, in which the key has a stored version, and the one from which to look
/// for the next, which is the bound where there is none.
pub fn next_stored(
    key: &Key,
    from: Slot,
    bound: Slot,
    index: &AccountsIndex,
) -> Option<(Slot, Slot)>
    ensures first { IsNextStored (kept index.now key.now.0).versions from bound (option_map (λ r. r.0) result) }
    ensures alone { IfSome result (λ r. IsAloneBelow (kept index.now key.now.0).versions r.0 r.1) }
{
    let list = index.list(key)?;
    let slot = stored_from(list.versions(), from, bound)?;
    let next = stored_or_bound(list.versions(), slot + 1, bound);
    Some((slot, next))
}

/// The slot of the key's lowest version, where it is a stored tomb up to the cleaned slot, and the key is held in
/// no lower slot.
pub fn lowest_tomb(key: &Key, cleaned: Slot, index: &AccountsIndex) -> Option<Slot>
    ensures { TellsLowestTomb cleaned (kept index.now key.now.0).versions (kept index.now key.now.0).held result }
{
    let list = index.list(key)?;
    tomb_in(list.versions(), list.held(), cleaned)
}

fn stored_from(versions: &[Version], from: Slot, bound: Slot) -> Option<Slot>
    requires { VersionsRise versions.now }
    ensures { IsNextStored versions.now from bound result }
{
    let start = place_from(versions, from);
    for place in start..versions.len() {
        let version = versions[place];
        if version.slot >= bound {
            return None;
        }
        if is_stored(version.place) {
            return Some(version.slot);
        }
    }
    None
}

// The slot that `stored_from` gives, or the bound.
fn stored_or_bound(versions: &[Version], from: Slot, bound: Slot) -> Slot
    requires rise { VersionsRise versions.now }
    requires within { from ≤ bound }
    ensures higher { from ≤ result }
    ensures none { (s : ℕ) → from ≤ s → s < result → is_stored_at versions.now s ≡ false }
{
    match stored_from(versions, from, bound) {
        Some(slot) => slot,
        None => bound,
    }
}

// The place of the first version that isn't below a slot.
fn place_from(versions: &[Version], from: Slot) -> usize
    requires { VersionsRise versions.now }
    ensures within { result ≤ length versions.now }
    ensures below { AllWithin (λ v. v.slot < from) versions.now 0 result }
    ensures above { AllWithin (λ v. from ≤ v.slot) versions.now result (length versions.now) }
{
    versions.partition_point(|version| version.slot < from)
}

fn tomb_in(versions: &[Version], held: &[Slot], cleaned: Slot) -> Option<Slot>
    requires versions { VersionsRise versions.now }
    requires held { IsStrictlyIncreasing held.now }
    ensures { TellsLowestTomb cleaned versions.now held.now result }
{
    let lowest = versions.first()?;
    if !is_buried(lowest, cleaned) {
        return None;
    }
    if let Some(slot) = held.first() {
        if *slot < lowest.slot {
            return None;
        }
    }
    Some(lowest.slot)
}

// Whether a version is a stored tomb, up to the cleaned slot.
fn is_buried(version: &Version, cleaned: Slot) -> bool
    ensures { result ≡ ((version.now.tomb && is_stored version.now.place) && nat_le version.now.slot cleaned) }
{
    version.tomb && is_stored(version.place) && version.slot <= cleaned
}

fn is_stored(place: Place) -> bool
    ensures { result ≡ is_stored place }
{
    matches!(place, Place::Stored { .. })
}
