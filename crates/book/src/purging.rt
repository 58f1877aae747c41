ghost use Rattle.book_parts.specs.Changes.{AgreeIn, Leaves};
ghost use Rattle.std.specs.Prelude.{◌≡◌, ◌≢◌, AllPairs};
ghost use Rattle.write_cache.specs.Rows.{rows};

use accounts_index::AccountsIndex;
use adb_model::Slot;
use slot_list::lookups_follow_edits;
use write_cache::WriteCache;

/// Takes the versions and the rows of a slot out, and says of how many keys they were.
pub fn leave(index: &mut AccountsIndex, cache: &mut WriteCache, slot: Slot) -> u64
    requires agree { AgreeIn slot index.old cache.old }
    requires differ { AllPairs (λ r q. r.key ≢ q.key) (rows cache.old slot) }
    ensures { Leaves index.old index.new cache.old cache.new slot result }
{
    lookups_follow_edits();
    for at in 0..cache.count(slot) {
        let Some((key, _)) = cache.row(slot, at) else {
            unreachable!();
        };
        index.drop_version(&key, slot);
    }
    cache.drop_slot(slot) as u64
}
