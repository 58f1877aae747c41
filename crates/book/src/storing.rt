ghost use Rattle.std.specs.Prelude.{◌≡◌, OnOk, OnErr};
ghost use Rattle.adb_model.specs.Account.{is_tomb};
ghost use Rattle.book_parts.specs.Changes.{CachedIn, SameIndex, SameCache, Enters};

use accounts_index::AccountsIndex;
use adb_model::{Account, Key, Slot};
use slot_list::{Place, Version, lookups_follow_edits};
use std::alloc::AllocError;
use std::sync::Arc;
use write_cache::WriteCache;

/// Puts the version and the row of a pair in, both or neither.
pub fn enter(
    index: &mut AccountsIndex,
    cache: &mut WriteCache,
    slot: Slot,
    key: Key,
    account: Arc<Account>,
) -> Result<(), AllocError>
    requires { CachedIn slot index.old cache.old }
    ensures ok { OnOk result (Enters index.old index.new cache.old cache.new slot key.0 account.value) }
    ensures index { OnErr result (SameIndex index.old index.new) }
    ensures cache { OnErr result (SameCache cache.old cache.new) }
{
    lookups_follow_edits();
    let tomb = is_tomb(&account);
    if let Some(replaced) = cache.insert(slot, key, account)? {
        if is_tomb(&replaced) == tomb {
            // The version that is there stands, so the index isn't searched.
            return Ok(());
        }
    }
    let version = Version {
        slot,
        place: Place::Cached,
        tomb,
    };
    if let Err(error) = index.upsert(&key, version) {
        // The pair had no version, and so no row either, which would have to be put back.
        cache.take_last(slot);
        return Err(error);
    }
    Ok(())
}

fn is_tomb(account: &Account) -> bool
    ensures { result ≡ is_tomb account.now }
{
    account.head().lamports == 0
}
