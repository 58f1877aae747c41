// The slots whose storage in use has no row alive.
ghost use Rattle.std.specs.Prelude.{◌≡◌, ℕ, ◌+◌, ◌<◌, ◌==◌, ◌++◌, ◌∷◌, [], true, false, if◌then◌else◌, length, vec_len};
ghost use Rattle.std.specs.Vec.{vec_capacity};
ghost use Rattle.storage_map.specs.Inside.{times_in, once_if};

use adb_model::Slot;

/// Puts a slot into the list where its storage has come to have no row alive, and takes it out where it was one
/// of those and no longer is. It takes no memory.
pub fn relist(emptied: &mut Vec<Slot>, slot: Slot, was: bool, is: bool)
    requires there { was ≡ true → times_in slot emptied.old.items ≡ 1 }
    requires room { was ≡ false → is ≡ true → vec_len emptied.old < vec_capacity emptied.old }
    ensures each { (q : ℕ) → times_in q emptied.new.items + (if slot == q then once_if was else 0)
        ≡ times_in q emptied.old.items + (if slot == q then once_if is else 0) }
    ensures count { length emptied.new.items + once_if was ≡ length emptied.old.items + once_if is }
    ensures room { vec_capacity emptied.new ≡ vec_capacity emptied.old }
{
    if is && !was {
        put(emptied, slot);
    }
    if was && !is {
        take(emptied, slot);
    }
}

// Puts a slot at the end of a list that has room for it.
fn put(slots: &mut Vec<Slot>, slot: Slot)
    requires { vec_len slots.old < vec_capacity slots.old }
    ensures items { slots.new.items ≡ slots.old.items ++ slot ∷ [] }
    ensures room { vec_capacity slots.new ≡ vec_capacity slots.old }
{
    if slots.insert(slots.len(), slot).is_err() {
        unreachable!();
    }
}

// Takes a slot out, which is looked for from the end.
fn take(slots: &mut Vec<Slot>, slot: Slot)
    requires { times_in slot slots.old.items ≡ 1 }
    ensures each { (q : ℕ) → times_in q slots.new.items + (if slot == q then 1 else 0) ≡ times_in q slots.old.items }
    ensures count { length slots.new.items + 1 ≡ length slots.old.items }
    ensures room { vec_capacity slots.new ≡ vec_capacity slots.old }
{
    let mut at = slots.len();
    while at > 0 {
        at -= 1;
        if slots[at] == slot {
            let _ = slots.remove(at);
            return;
        }
    }
    unreachable!();
}
