ghost use Rattle.std.specs.Prelude.{◌≡◌, ◌+◌, ◌≤◌, if◌then◌else◌, OnOk, OnErr, IsOk, IsSome, is_some, length};
ghost use Rattle.std.specs.List.{insert};
ghost use Rattle.std.specs.List.Sorted.{IsStrictlyIncreasing};
ghost use Rattle.smallvec.specs.SmallVec.{small_vec_len, HasRoomFor};
ghost use Rattle.view_sets.specs.Slots.{among};
ghost use Rattle.slot_list.specs.Versions.{at, put, without, rehomed, with_slot, without_slot, VersionsRise};

use crate::search::{place_of, place_of_slot};
use crate::{Place, Version};
use smallvec::SmallVec;
use std::alloc::AllocError;

/// Puts a version at its place, in place of one of its slot.
pub fn put_version(versions: &mut SmallVec<Version, 2>, version: Version) -> Result<(), AllocError>
    requires { VersionsRise versions.old.items }
    ensures rise { VersionsRise versions.new.items }
    ensures ok { OnOk result (versions.new.items ≡ put version versions.old.items) }
    ensures err { OnErr result (versions.new.items ≡ versions.old.items) }
    ensures there { IsSome (at version.slot versions.old.items) → IsOk result }
{
    match place_of(versions.as_slice(), version.slot) {
        Ok(place) => {
            let versions = versions.as_mut_slice();
            versions[place] = version;
            Ok(())
        }
        Err(place) => insert_version(versions, place, version),
    }
}

/// A new version at its place.
fn insert_version(
    versions: &mut SmallVec<Version, 2>,
    place: usize,
    version: Version,
) -> Result<(), AllocError>
    requires { place ≤ length versions.old.items }
    ensures ok { OnOk result (versions.new.items ≡ insert versions.old.items place version) }
    ensures err { OnErr result (versions.new.items ≡ versions.old.items) }
{
    versions.insert(place, version)?;
    Ok(())
}

/// Takes the version of a slot out, and says whether there was one.
pub fn take_version(versions: &mut SmallVec<Version, 2>, slot: u64) -> bool
    requires { VersionsRise versions.old.items }
    ensures rise { VersionsRise versions.new.items }
    ensures there { result ≡ is_some (at slot versions.old.items) }
    ensures items { versions.new.items ≡ without slot versions.old.items }
{
    match place_of(versions.as_slice(), slot) {
        Ok(place) => {
            let _ = versions.remove(place);
            true
        }
        Err(_) => false,
    }
}

/// Gives the version of a slot another place.
pub fn rehome_version(versions: &mut SmallVec<Version, 2>, slot: u64, place: Place)
    requires rise { VersionsRise versions.old.items }
    requires there { IsSome (at slot versions.old.items) }
    ensures rise { VersionsRise versions.new.items }
    ensures items { versions.new.items ≡ rehomed slot place versions.old.items }
{
    match place_of(versions.as_slice(), slot) {
        Ok(found) => {
            let versions = versions.as_mut_slice();
            versions[found].place = place;
        }
        Err(_) => unreachable!(),
    }
}

/// Puts a slot at its place, for which there is room, and says whether it was there already.
pub fn put_slot(slots: &mut SmallVec<u64, 1>, slot: u64) -> bool
    requires room { HasRoomFor slots.old 1 }
    requires rise { IsStrictlyIncreasing slots.old.items }
    ensures there { result ≡ among slot slots.old.items }
    ensures rise { IsStrictlyIncreasing slots.new.items }
    ensures items { slots.new.items ≡ with_slot slot slots.old.items }
    ensures len { small_vec_len slots.new ≡ (if result then small_vec_len slots.old else small_vec_len slots.old + 1) }
    ensures capacity { slots.new.capacity ≡ slots.old.capacity }
{
    match place_of_slot(slots.as_slice(), slot) {
        Ok(_) => true,
        Err(place) => {
            let _ = slots.insert(place, slot);
            false
        }
    }
}

/// Takes a slot out, and says whether it was there.
pub fn take_slot(slots: &mut SmallVec<u64, 1>, slot: u64) -> bool
    requires { IsStrictlyIncreasing slots.old.items }
    ensures rise { IsStrictlyIncreasing slots.new.items }
    ensures there { result ≡ among slot slots.old.items }
    ensures items { slots.new.items ≡ without_slot slot slots.old.items }
    ensures len { small_vec_len slots.new ≤ small_vec_len slots.old }
    ensures capacity { slots.new.capacity ≡ slots.old.capacity }
{
    match place_of_slot(slots.as_slice(), slot) {
        Ok(place) => {
            let _ = slots.remove(place);
            true
        }
        Err(_) => false,
    }
}
