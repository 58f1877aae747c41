ghost use Rattle.std.specs.Prelude.{◌≡◌, ◌≤◌, ◌<◌, ◌++◌, [], length, take, map, option_map, All, IfOk};
ghost use Rattle.accounts_index.specs.Bins.{bin_of, start_of, joined};
ghost use Rattle.accounts_index.specs.Index.{key_after, crowded_after};

use crate::bin::Bin;
use adb_model::Key;
use arrayvec::ArrayVec;
use std::alloc::{AllocError, Global};

/// The number of bins for keys that begin with two zeros, one for each value of the 14 bits after these.
const ZERO_BINS: usize = 16384;

/// How many bins a group has.
pub const GROUP: usize = 256;

/// The bins of a group without keys.
pub fn empty_bins(alloc: Global) -> Result<Vec<Bin>, AllocError>
    ensures every { IfOk result (λ bins. length bins.items ≡ 256) }
    ensures empty { IfOk result (λ bins. All (λ bin. bin ≡ []) bins.items) }
{
    let mut bins = Vec::with_capacity(alloc, GROUP)?;
    for _ in 0..GROUP {
        bins.push(Bin::new(alloc))?;
    }
    Ok(bins)
}

/// The number of a key's bin.
pub fn bin_of(key: &Key) -> usize
    ensures number { result ≡ bin_of key.now.0 }
    ensures within { result < 81920 }
{
    let first = 256 * usize::from(key.0[0]) + usize::from(key.0[1]);
    if first == 0 {
        return 64 * usize::from(key.0[2]) + usize::from(key.0[3] / 4);
    }
    ZERO_BINS - 1 + first
}

/// The number of the first bin that may have a key above another.
pub fn start_of(after: Option<&Key>) -> usize
    ensures number { result ≡ start_of (option_map (λ k. k.now.0) after.entry) }
    ensures within { result < 81920 }
{
    match after {
        Some(key) => bin_of(key),
        None => 0,
    }
}

/// The first key above another that has a version.
pub fn key_after(bins: &[Bin], after: Option<&Key>) -> Option<Key>
    ensures { option_map (λ k. k.0) result ≡ key_after (joined bins.now) (option_map (λ k. k.now.0) after.entry) }
{
    for bin in bins {
        if let Some(key) = bin.key_after(after) {
            return Some(key);
        }
    }
    None
}

/// Adds crowded keys above another, rising, while `into` has fewer than `most`.
pub fn crowded_after(bins: &[Bin], after: Option<&Key>, into: &mut ArrayVec<Key, 256>, most: usize)
    requires few { length into.old.items ≤ most }
    requires most { most ≤ 256 }
    ensures { map (λ k. k.0) into.new.items
        ≡ take most (map (λ k. k.0) into.old.items ++ crowded_after (joined bins.now) (option_map (λ k. k.now.0) after.entry)) }
{
    for bin in bins {
        if into.len() == most {
            return;
        }
        bin.crowded_after(after, into, most);
    }
}
