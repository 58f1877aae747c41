ghost use Rattle.std.specs.Prelude.{◌≡◌, IfOk, IfErr, find, reverse};
ghost use Rattle.std.specs.List.Sorted.{IsStrictlyIncreasing};
ghost use Rattle.slot_list.specs.Latest.{sees, IsLatest};
ghost use Rattle.slot_list.specs.Places.{IsAt, IsGap};
ghost use Rattle.slot_list.specs.Versions.{at, VersionsRise};

use crate::Version;
use view_sets::{RootSet, is_among};

/// The place of a slot's version, or the place where it would stand.
pub fn place_of(versions: &[Version], slot: u64) -> Result<usize, usize>
    requires { VersionsRise versions.now }
    ensures found { IfOk result (IsAt (λ v. v.slot) versions.now slot) }
    ensures absent { IfErr result (IsGap (λ v. v.slot) versions.now slot) }
{
    versions.binary_search_by_key(&slot, |version| version.slot)
}

/// The place of a slot, or the place where it would stand.
pub fn place_of_slot(slots: &[u64], slot: u64) -> Result<usize, usize>
    requires { IsStrictlyIncreasing slots.now }
    ensures found { IfOk result (IsAt (λ s. s) slots.now slot) }
    ensures absent { IfErr result (IsGap (λ s. s) slots.now slot) }
{
    slots.binary_search(&slot)
}

/// The version of a slot.
pub fn version_at(versions: &[Version], slot: u64) -> Option<Version>
    requires { VersionsRise versions.now }
    ensures { result ≡ at slot versions.now }
{
    match place_of(versions, slot) {
        Ok(place) => Some(versions[place]),
        Err(_) => None,
    }
}

/// The version of the greatest slot that a view sees.
pub fn latest_of(
    versions: &[Version],
    ancestors: &[u64],
    roots: &RootSet,
    max_root: u64,
) -> Option<Version>
    requires versions_rise { VersionsRise versions.now }
    requires ancestors_rise { IsStrictlyIncreasing ancestors.now }
    ensures { IsLatest (sees ancestors.now roots.now max_root) versions.now result }
{
    last_seen(versions, ancestors, roots, max_root)
}

fn last_seen(
    versions: &[Version],
    ancestors: &[u64],
    roots: &RootSet,
    max_root: u64,
) -> Option<Version>
    requires { IsStrictlyIncreasing ancestors.now }
    ensures { result ≡ find (λ v. sees ancestors.now roots.now max_root v.slot) (reverse versions.now) }
{
    versions.iter().rev().copied().find(|version| is_seen(version.slot, ancestors, roots, max_root))
}

fn is_seen(slot: u64, ancestors: &[u64], roots: &RootSet, max_root: u64) -> bool
    requires { IsStrictlyIncreasing ancestors.now }
    ensures { result ≡ sees ancestors.now roots.now max_root slot }
{
    is_among(ancestors, slot) || (slot <= max_root && roots.contains(slot))
}
