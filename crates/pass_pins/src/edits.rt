ghost use Rattle.std.specs.Prelude.{◌≡◌, ◌+◌, if◌then◌else◌, length, position};
ghost use Rattle.std.specs.List.{list_any};
ghost use Rattle.std.specs.Option.{option_or};
ghost use Rattle.pass_pins.specs.Pins.{has_id, is_finished, is_unfinished, least_finished, with_finished, without_one};

use crate::{MAX_PINS, Pin};
use arrayvec::ArrayVec;

// The place of the first unfinished pin of an id.
fn place_of_unfinished(pins: &[Pin], id: u64) -> Option<usize>
    ensures { result ≡ position (is_unfinished id) pins.now }
{
    pins.iter().position(|pin| pin.id == id && !pin.finished)
}

// The place of the first finished pin of an id.
fn place_of_finished(pins: &[Pin], id: u64) -> Option<usize>
    ensures { result ≡ position (is_finished id) pins.now }
{
    pins.iter().position(|pin| pin.id == id && pin.finished)
}

// The place of the first pin of an id.
fn place_of(pins: &[Pin], id: u64) -> Option<usize>
    ensures { result ≡ position (has_id id) pins.now }
{
    pins.iter().position(|pin| pin.id == id)
}

// The place of the first finished pin of an id, or else of its first pin.
fn place_to_take(pins: &[Pin], id: u64) -> Option<usize>
    ensures { result ≡ option_or (position (is_finished id) pins.now) (position (has_id id) pins.now) }
{
    match place_of_finished(pins, id) {
        Some(place) => Some(place),
        None => place_of(pins, id),
    }
}

/// Finishes the first unfinished pin of an id.
pub fn finish_one(pins: &mut ArrayVec<Pin, MAX_PINS>, id: u64) -> bool
    ensures there { result ≡ list_any (is_unfinished id) pins.old.items }
    ensures pins { pins.new.items ≡ with_finished id pins.old.items }
    ensures len { length pins.new.items ≡ length pins.old.items }
{
    match place_of_unfinished(pins.as_slice(), id) {
        Some(place) => {
            pins[place].finished = true;
            true
        }
        None => false,
    }
}

/// Takes one pin of an id out, a finished one before others.
pub fn take_one(pins: &mut ArrayVec<Pin, MAX_PINS>, id: u64) -> bool
    ensures there { result ≡ list_any (has_id id) pins.old.items }
    ensures pins { pins.new.items ≡ without_one id pins.old.items }
    ensures len { length pins.old.items ≡ length pins.new.items + (if result then 1 else 0) }
{
    match place_to_take(pins.as_slice(), id) {
        Some(place) => {
            pins.remove(place);
            true
        }
        None => false,
    }
}

/// The least id that has a finished pin.
pub fn least_id(pins: &[Pin]) -> Option<u64>
    ensures { result ≡ least_finished pins.now }
{
    pins.iter()
        .filter(|pin| pin.finished)
        .map(|pin| pin.id)
        .min()
}
