// The entries of all slots.
ghost use Rattle.std.specs.Prelude.{◌≡◌, None, IsSome, OnOk, OnErr};
ghost use Rattle.storage_map.specs.Inside.{AreFilled, IsChanged};
ghost use Rattle.storage_map.specs.Slots.{live_at, begun_at, HasEntry, IsNextLive};

use crate::entry::Entry;
use adb_model::Slot;
use std::alloc::AllocError;
use std::collections::BTreeMap;

/// The entry of each slot that has one.
pub type Slots = BTreeMap<Slot, Entry>;

/// What a slot has.
pub fn entry_of(slots: &Slots, slot: Slot) -> Entry
    ensures live { result.live ≡ live_at slots.now.entries slot }
    ensures begun { result.begun ≡ begun_at slots.now.entries slot }
{
    match slots.get(&slot) {
        Some(entry) => *entry,
        None => Entry {
            live: None,
            begun: None,
        },
    }
}

/// Puts an entry in, in place of what the slot had.
pub fn put_entry(slots: &mut Slots, slot: Slot, entry: Entry) -> Result<(), AllocError>
    requires filled { AreFilled slots.old.entries }
    requires begun { IsSome entry.begun }
    ensures filled { AreFilled slots.new.entries }
    ensures ok { OnOk result (IsChanged slots.old.entries slots.new.entries slot entry 1) }
    ensures err { OnErr result (slots.new.entries ≡ slots.old.entries) }
{
    slots.insert(slot, entry)?;
    Ok(())
}

/// Makes the entry of a slot another, which takes no memory, and lets go of it where nothing is left in it.
pub fn change_entry(slots: &mut Slots, slot: Slot, entry: Entry)
    requires filled { AreFilled slots.old.entries }
    requires live { IsSome entry.live → HasEntry slots.old.entries slot }
    requires begun { IsSome entry.begun → HasEntry slots.old.entries slot }
    ensures filled { AreFilled slots.new.entries }
    ensures changed { IsChanged slots.old.entries slots.new.entries slot entry 0 }
{
    if !entry.is_filled() {
        slots.remove(&slot);
    } else if let Some(place) = slots.get_mut(&slot) {
        *place = entry;
    }
}

/// The least slot, at or above `from`, that has a live storage.
pub fn next_from(slots: &Slots, from: Slot) -> Option<Slot>
    ensures { IsNextLive slots.now.entries from result }
{
    for (slot, entry) in slots.range(from..) {
        if entry.live.is_some() {
            return Some(*slot);
        }
    }
    None
}
