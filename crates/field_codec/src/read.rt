// Reading a manifest.
ghost use Rattle.std.specs.Prelude.{◌≡◌, ◌+◌, ◌≤◌, ℕ, Ok, List, [], true, false, length, IfOk, MatchResult, ◌==◌};
ghost use Rattle.std.specs.Ordering.{nat_cmp};
ghost use Rattle.std.specs.List.{IsDistinct};
ghost use Rattle.std.specs.BTreeSet.{contains, Updates};
ghost use Rattle.le_fields.specs.Fields.{number_at};
ghost use Rattle.field_codec.specs.Manifest.{AreByRisingSlot, Content, IsManifest, content_of, slots_of};
ghost use Rattle.field_codec.specs.Reading.{Gives, GivesFields, field_end, items_end, manifest_in, number_in, one_in, pair_end, sequence_end, sequence_or_end, slot_in, storage_in, storages_in};

use crate::fault::FieldFault;
use crate::fields::{FieldStorage, Fields};
use le_fields::get_u64;
use std::alloc::{AllocError, Global};
use std::collections::BTreeSet;

// Bytes of a number, of the opaque part, and of what stands behind the number in a pair.
const NUMBER_LEN: usize = 8;

const OPAQUE_LEN: usize = 104;

const HASH_LEN: usize = 32;

/// The fields of a manifest.
///
/// Memory is taken for slots that were read, and never for a count alone. Each slot costs the logarithm of those
/// before it.
///
/// # Errors
/// The first fault from left to right; `NoMemory` where there was none for the storages.
pub fn decode_fields(alloc: Global, bytes: &[u8]) -> Result<Fields, FieldFault>
    // The answer: the first fault, or what the manifest says.
    ensures exact { GivesFields result (manifest_in bytes.now) }

    // What is read is a manifest that says it.
    ensures found { IfOk result (λ fields. IsManifest bytes.now (content_of fields)) }

    // A manifest is read, and so has no fault, unless memory is wanted.
    ensures only { (content : Content)
        → IsManifest bytes.now content
        → MatchResult result (λ fields. content_of fields ≡ content) (λ fault. fault ≡ FieldFault.NoMemory) }
{
    decode(alloc, bytes)
}

// The fields by reading from left to right.
fn decode(alloc: Global, bytes: &[u8]) -> Result<Fields, FieldFault>
    ensures { GivesFields result (manifest_in bytes.now) }
{
    let (slot, storages) = manifest(alloc, bytes)?;
    Ok(Fields {
        slot,
        storages: by_rising_slot(storages)?,
    })
}

// The slot of the snapshot, and the storages in the order of the bytes.
#[tactic(auto, unfolding(crate::specs::Reading::manifest_in))]
fn manifest(alloc: Global, bytes: &[u8]) -> Result<(u64, Vec<FieldStorage>), FieldFault>
    ensures exact { Gives (λ x. (x.0, x.1.items)) result (manifest_in bytes.now) }
    ensures different { IfOk result (λ x. IsDistinct (λ a b. a == b) (slots_of x.1.items)) }
{
    let count = number(bytes, 0)?;
    let (storages, version_at) = slots(alloc, bytes, count)?;
    let slot_at = skip(bytes, NUMBER_LEN, version_at)?;
    let slot = number(bytes, slot_at)?;
    let numbers_at = skip(bytes, OPAQUE_LEN, slot_at + NUMBER_LEN)?;
    let pairs_at = numbers_or_end(bytes, numbers_at)?;
    let end = pairs_or_end(bytes, pairs_at)?;
    if end == bytes.len() {
        Ok((slot, storages))
    } else {
        Err(FieldFault::Trailing { at: end })
    }
}

// The storages of that many slots, which differ, from the end of the first number on, and the place behind them.
fn slots(alloc: Global, bytes: &[u8], count: u64) -> Result<(Vec<FieldStorage>, usize), FieldFault>
    requires { 8 ≤ length bytes.now }
    ensures exact { Gives (λ x. (x.0.items, x.1)) result (storages_in bytes.now count [] 8) }
    ensures different { IfOk result (λ x. IsDistinct (λ a b. a == b) (slots_of x.0.items)) }
    ensures inside { IfOk result (λ x. x.1 ≤ length bytes.now) }
{
    let mut stood = BTreeSet::new(alloc);
    let mut storages = Vec::new(alloc);
    let mut at = NUMBER_LEN;
    for _ in 0..count {
        let slot = new_slot(bytes, at, &mut stood)?;
        storages.push(storage(bytes, slot, at + NUMBER_LEN)?)?;
        at += 4 * NUMBER_LEN;
    }
    Ok((storages, at))
}

// The slot at a place, which did not stand before.
#[tactic(auto, unfolding(crate::specs::Reading::slot_in))]
fn new_slot(bytes: &[u8], at: usize, stood: &mut BTreeSet<u64>) -> Result<u64, FieldFault>
    ensures exact { Gives (λ slot. slot) result (slot_in bytes.now (contains nat_cmp stood.old) at) }
    ensures fresh { IfOk result (λ slot. contains nat_cmp stood.old slot ≡ false) }
    ensures kept { IfOk result (λ slot. Updates nat_cmp stood.old stood.new slot true) }
    ensures inside { IfOk result (λ _. at + 8 ≤ length bytes.now) }
{
    let slot = number(bytes, at)?;
    if !stood.insert(slot)? {
        return Err(FieldFault::SlotTwice { slot });
    }
    Ok(slot)
}

// The one storage of a slot, from its number of storages on.
#[tactic(auto, unfolding(crate::specs::Reading::storage_in, crate::specs::Reading::one_in))]
fn storage(bytes: &[u8], slot: u64, at: usize) -> Result<FieldStorage, FieldFault>
    ensures exact { Gives (λ storage. storage) result (storage_in bytes.now slot at) }
    ensures slot { IfOk result (λ storage. storage.slot ≡ slot) }
    ensures inside { IfOk result (λ _. at + 24 ≤ length bytes.now) }
{
    let count = number(bytes, at)?;
    if count != 1 {
        return Err(FieldFault::Storages { slot, count });
    }
    let id = number(bytes, at + NUMBER_LEN)?;
    let len = number(bytes, at + 2 * NUMBER_LEN)?;
    Ok(FieldStorage { slot, id, len })
}

// The place behind a sequence of numbers, or this place where the bytes end.
#[tactic(auto, unfolding(crate::specs::Reading::sequence_end))]
fn numbers_or_end(bytes: &[u8], at: usize) -> Result<usize, FieldFault>
    requires { at ≤ length bytes.now }
    ensures exact { Gives (λ end. end) result (sequence_or_end bytes.now (field_end bytes.now 8) at) }
    ensures inside { IfOk result (λ end. end ≤ length bytes.now) }
{
    if at == bytes.len() {
        return Ok(at);
    }
    let count = number(bytes, at)?;
    skip_numbers(bytes, count, at + NUMBER_LEN)
}

// The place behind a sequence of pairs, or this place where the bytes end.
#[tactic(auto, unfolding(crate::specs::Reading::sequence_end))]
fn pairs_or_end(bytes: &[u8], at: usize) -> Result<usize, FieldFault>
    requires { at ≤ length bytes.now }
    ensures exact { Gives (λ end. end) result (sequence_or_end bytes.now (pair_end bytes.now) at) }
    ensures inside { IfOk result (λ end. end ≤ length bytes.now) }
{
    if at == bytes.len() {
        return Ok(at);
    }
    let count = number(bytes, at)?;
    skip_pairs(bytes, count, at + NUMBER_LEN)
}

// The place behind that many numbers.
fn skip_numbers(bytes: &[u8], count: u64, start: usize) -> Result<usize, FieldFault>
    requires { start ≤ length bytes.now }
    ensures exact { Gives (λ end. end) result (items_end (field_end bytes.now 8) count start) }
    ensures inside { IfOk result (λ end. end ≤ length bytes.now) }
{
    let mut at = start;
    for _ in 0..count {
        at = skip(bytes, NUMBER_LEN, at)?;
    }
    Ok(at)
}

// The place behind that many pairs.
fn skip_pairs(bytes: &[u8], count: u64, start: usize) -> Result<usize, FieldFault>
    requires { start ≤ length bytes.now }
    ensures exact { Gives (λ end. end) result (items_end (pair_end bytes.now) count start) }
    ensures inside { IfOk result (λ end. end ≤ length bytes.now) }
{
    let mut at = start;
    for _ in 0..count {
        at = skip_pair(bytes, at)?;
    }
    Ok(at)
}

// The place behind a pair of a number and 32 bytes.
fn skip_pair(bytes: &[u8], at: usize) -> Result<usize, FieldFault>
    requires { at ≤ length bytes.now }
    ensures exact { Gives (λ end. end) result (pair_end bytes.now at) }
    ensures inside { IfOk result (λ end. end ≤ length bytes.now) }
{
    let hash_at = skip(bytes, NUMBER_LEN, at)?;
    skip(bytes, HASH_LEN, hash_at)
}

// The place behind a field.
fn skip(bytes: &[u8], width: usize, at: usize) -> Result<usize, FieldFault>
    requires { at ≤ length bytes.now }
    ensures exact { Gives (λ end. end) result (field_end bytes.now width at) }
    ensures inside { IfOk result (λ end. end ≤ length bytes.now) }
{
    if bytes.len() - at < width {
        return Err(FieldFault::Cut { at });
    }
    Ok(at + width)
}

// The number at a place.
fn number(bytes: &[u8], at: usize) -> Result<u64, FieldFault>
    ensures exact { Gives (λ number. number) result (number_in bytes.now at) }
    ensures inside { IfOk result (λ _. at + 8 ≤ length bytes.now) }
{
    get_u64(bytes, at).ok_or(FieldFault::Cut { at })
}

// The storages by rising slot.
fn by_rising_slot(mut storages: Vec<FieldStorage>) -> Result<Vec<FieldStorage>, AllocError>
    requires { IsDistinct (λ a b. a == b) (slots_of storages.items) }
    ensures { IfOk result (λ sorted. AreByRisingSlot storages.items sorted.items) }
{
    storages.sort_by_key(|storage| storage.slot)?;
    Ok(storages)
}
