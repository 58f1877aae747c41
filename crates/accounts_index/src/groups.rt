ghost use Rattle.std.specs.Prelude.{◌≡◌, ◌≤◌, ◌++◌, [], length, take, drop, map, option_map, All, IfOk, OnOk, OnErr};
ghost use Rattle.accounts_index.specs.Bins.{joined, bins_in, all_bins, AreGroups};
ghost use Rattle.accounts_index.specs.Index.{key_after, crowded_after};

use crate::bin::Bin;
use crate::bins::{self, GROUP, empty_bins, start_of};
use adb_model::Key;
use arrayvec::ArrayVec;
use std::alloc::{AllocError, Global};

/// The number of all groups, enough for the bins of all keys.
const GROUPS: usize = 320;

/// Groups that have no bins yet, and so take no memory.
pub fn empty_groups(alloc: Global) -> Result<Vec<Vec<Bin>>, AllocError>
    ensures every { IfOk result (λ groups. length groups.items ≡ 320) }
    ensures empty { IfOk result (λ groups. All (λ group. group.items ≡ []) groups.items) }
{
    let mut groups = Vec::with_capacity(alloc, GROUPS)?;
    for _ in 0..GROUPS {
        groups.push(Vec::new(alloc))?;
    }
    Ok(groups)
}

/// Gives a group its bins if it has none yet.
pub fn grow(group: &mut Vec<Bin>, alloc: Global) -> Result<(), AllocError>
    requires { length (bins_in group.old.items) ≡ 256 }
    ensures same { bins_in group.new.items ≡ bins_in group.old.items }
    ensures grown { OnOk result (length group.new.items ≡ 256) }
    ensures was_empty { OnErr result (group.old.items ≡ []) }
{
    if group.is_empty() {
        *group = empty_bins(alloc)?;
    }
    Ok(())
}

/// The bins of a group from a place on, as far as it has them.
fn rest_of(group: &[Bin], place: usize) -> &[Bin]
    ensures { joined result.now ≡ joined (drop place (bins_in group.now)) }
{
    &group[place.min(group.len())..]
}

/// The first key above another that has a version.
pub fn key_after(groups: &[Vec<Bin>], after: Option<&Key>) -> Option<Key>
    requires { AreGroups groups.now }
    ensures { option_map (λ k. k.0) result ≡ key_after (joined (all_bins groups.now)) (option_map (λ k. k.now.0) after.entry) }
{
    let start = start_of(after);
    let rest = rest_of(&groups[start / GROUP], start % GROUP);
    match bins::key_after(rest, after) {
        Some(key) => Some(key),
        None => later_key(&groups[start / GROUP + 1..], after),
    }
}

/// The same, of groups that are passed over whole.
fn later_key(groups: &[Vec<Bin>], after: Option<&Key>) -> Option<Key>
    ensures { option_map (λ k. k.0) result ≡ key_after (joined (all_bins groups.now)) (option_map (λ k. k.now.0) after.entry) }
{
    for group in groups {
        if let Some(key) = bins::key_after(group, after) {
            return Some(key);
        }
    }
    None
}

/// The first `most` crowded keys above another.
pub fn crowded_after(
    groups: &[Vec<Bin>],
    after: Option<&Key>,
    into: &mut ArrayVec<Key, 256>,
    most: usize,
)
    requires groups { AreGroups groups.now }
    requires empty { into.old.items ≡ [] }
    requires most { most ≤ 256 }
    ensures { map (λ k. k.0) into.new.items ≡ take most (crowded_after (joined (all_bins groups.now)) (option_map (λ k. k.now.0) after.entry)) }
{
    let start = start_of(after);
    let rest = rest_of(&groups[start / GROUP], start % GROUP);
    bins::crowded_after(rest, after, into, most);
    later_crowded(&groups[start / GROUP + 1..], after, into, most);
}

/// Adds crowded keys of groups that are passed over whole, while `into` has fewer than `most`.
fn later_crowded(
    groups: &[Vec<Bin>],
    after: Option<&Key>,
    into: &mut ArrayVec<Key, 256>,
    most: usize,
)
    requires few { length into.old.items ≤ most }
    requires most { most ≤ 256 }
    ensures { map (λ k. k.0) into.new.items
        ≡ take most (map (λ k. k.0) into.old.items ++ crowded_after (joined (all_bins groups.now)) (option_map (λ k. k.now.0) after.entry)) }
{
    for group in groups {
        if into.len() == most {
            return;
        }
        bins::crowded_after(group, after, into, most);
    }
}
