ghost use Rattle.std.specs.Prelude.{◌≡◌, ◌+◌, ◌-◌, ◌*◌, ◌^◌, ◌≤◌, ◌<◌, length, IfOk, IfErr};
ghost use Rattle.accounts_index.specs.Inside.{KeysRise};
ghost use Rattle.accounts_index.specs.Places.{IsAt, IsGap};

use crate::entry::Entry;
use crate::steps::Steps;
use adb_model::Key;
use std::cmp::Ordering;
use std::marker::Brand;
use std::sync::ledger::{Blank, Ledger};

/// The place of a key's entry, or the place where it would stand. Each comparison of two keys is a step.
pub fn place_of<L: Ledger>(
    entries: &[Entry],
    key: &Key,
    steps: &mut Steps<L>,
) -> Result<usize, usize>
    requires { KeysRise entries.now }
    ensures found { IfOk result (IsAt entries.now key.now.0) }
    ensures absent { IfErr result (IsGap entries.now key.now.0) }
    ensures later { steps.old ≤ steps.new }
    ensures cost { 2 ^ (steps.new - steps.old) ≤ 2 * length entries.now + 1 }
{
    let mut low = 0;
    let mut high = entries.len();
    while low < high {
        let middle = low + (high - low) / 2;
        steps.tick();
        match entries[middle].key.cmp(key) {
            Ordering::Less => low = middle + 1,
            Ordering::Equal => return Ok(middle),
            Ordering::Greater => high = middle,
        }
    }
    Err(low)
}

fn place_by<L: Ledger>(entries: &[Entry], key: &Key, blank: Blank) -> Result<usize, usize>
    requires rise { KeysRise entries.now }
    requires name { blank.name ≡ L.name }
    requires parts { blank.parts ≡ L.parts }
    requires some { 0 < L.parts }
    ensures found { IfOk result (IsAt entries.now key.now.0) }
    ensures absent { IfErr result (IsGap entries.now key.now.0) }
{
    let mut steps = Steps::<L>::new(blank);
    place_of(entries, key, &mut steps)
}

/// As `place_of`, for callers that count no steps.
pub fn find_place(entries: &[Entry], key: &Key) -> Result<usize, usize>
    requires { KeysRise entries.now }
    ensures found { IfOk result (IsAt entries.now key.now.0) }
    ensures absent { IfErr result (IsGap entries.now key.now.0) }
{
    place_by::<Brand>(entries, key, Blank::new(1))
}
