ghost use Rattle.std.specs.Prelude.{◌≡◌, Some, Err, option_map};
ghost use Rattle.adb_model.specs.Seen.{reply_of};
ghost use Rattle.book.specs.Replies.{store_reply, root_reply, purge_reply, load_reply, unpin_reply, lease_reply, end_lease_reply, raise_reply, reclaim_reply, flush_reply, shrink_reply, shrink_end_reply, snap_reply};
ghost use Rattle.replay.specs.Standing.{told};

use adb_model::{Key, Refusal, Reply, Slot};
use book::{
    FlushRefusal, LeaseRefusal, LoadRefusal, NotLeased, NotPinned, RaiseRefusal, RootRefusal,
    Rooted, ShrinkDone, ShrinkRefusal, SnapRefusal, StoreRefusal,
};
use std::alloc::AllocError;

/// The reply to a call that changes nothing.
pub fn refused(refusal: Refusal) -> Result<Reply, AllocError>
    ensures { told result ≡ Some (reply_of (Reply.Refused refusal)) }
{
    Ok(Reply::Refused { refusal })
}

/// The reply to a store.
pub fn stored(answer: Result<(), StoreRefusal>) -> Result<Reply, AllocError>
    ensures { told result ≡ store_reply answer }
{
    match answer {
        Ok(()) => Ok(Reply::Done),
        Err(StoreRefusal::SlotRooted { slot, newest }) => {
            refused(Refusal::SlotRooted { slot, newest })
        }
        Err(StoreRefusal::NoMemory) => Err(AllocError),
    }
}

/// The reply to a root.
pub fn rooted(answer: Result<(), RootRefusal>) -> Result<Reply, AllocError>
    ensures { told result ≡ root_reply answer }
{
    match answer {
        Ok(()) => Ok(Reply::Done),
        Err(RootRefusal::RootOrder { slot, newest }) => {
            refused(Refusal::RootOrder { slot, newest })
        }
        Err(RootRefusal::NoMemory) => Err(AllocError),
    }
}

/// The reply to a purge.
pub fn purged(answer: Result<u64, Rooted>) -> Result<Reply, AllocError>
    ensures { told result ≡ Some (purge_reply answer) }
{
    match answer {
        Ok(keys) => Ok(Reply::Purged { keys }),
        Err(Rooted { slot }) => refused(Refusal::Rooted { slot }),
    }
}

/// The reply to a load that was refused.
pub fn load_refused(refusal: LoadRefusal) -> Result<Reply, AllocError>
    ensures { told result ≡ load_reply (Err refusal) }
{
    match refusal {
        LoadRefusal::ViewTooOld { max_root, cleaned } => {
            refused(Refusal::ViewTooOld { max_root, cleaned })
        }
        LoadRefusal::TooManyPins { most } => refused(Refusal::TooManyPins { most }),
        LoadRefusal::NoMemory => Err(AllocError),
    }
}

/// The reply to a pass that lets go of a storage.
pub fn unpinned(answer: Result<(), NotPinned>) -> Result<Reply, AllocError>
    ensures { told result ≡ Some (unpin_reply answer) }
{
    match answer {
        Ok(()) => Ok(Reply::Done),
        Err(NotPinned { id }) => refused(Refusal::NotPinned { id }),
    }
}

/// The reply to a lease.
pub fn leased(answer: Result<(), LeaseRefusal>) -> Result<Reply, AllocError>
    ensures { told result ≡ lease_reply answer }
{
    match answer {
        Ok(()) => Ok(Reply::Done),
        Err(LeaseRefusal::ViewTooOld { max_root, cleaned }) => {
            refused(Refusal::ViewTooOld { max_root, cleaned })
        }
        Err(LeaseRefusal::NoMemory) => Err(AllocError),
    }
}

/// The reply to a pass that lets go of views.
pub fn lease_ended(answer: Result<(), NotLeased>) -> Result<Reply, AllocError>
    ensures { told result ≡ Some (end_lease_reply answer) }
{
    match answer {
        Ok(()) => Ok(Reply::Done),
        Err(NotLeased { max_root }) => refused(Refusal::NotLeased { max_root }),
    }
}

/// The reply to a raise.
pub fn raised(answer: Result<Slot, RaiseRefusal>) -> Result<Reply, AllocError>
    ensures { told result ≡ Some (raise_reply answer) }
{
    match answer {
        Ok(cleaned) => Ok(Reply::Raised { cleaned }),
        Err(RaiseRefusal::PastRoot { upto, newest }) => refused(Refusal::PastRoot { upto, newest }),
        Err(RaiseRefusal::Leased { upto, least }) => refused(Refusal::Leased { upto, least }),
    }
}

/// The reply to a reclaim.
pub fn reclaimed(last: Option<Key>) -> Result<Reply, AllocError>
    ensures { told result ≡ Some (reclaim_reply (option_map (λ k. k.0) last)) }
{
    match last {
        Some(key) => Ok(Reply::Reclaimed { key }),
        None => Ok(Reply::NothingLeft),
    }
}

/// The reply to a flush that did not begin.
pub fn flush_refused(refusal: FlushRefusal) -> Result<Reply, AllocError>
    ensures { told result ≡ flush_reply (Err refusal) }
{
    match refusal {
        FlushRefusal::NotRooted { slot } => refused(Refusal::NotRooted { slot }),
        FlushRefusal::NothingCached { slot } => refused(Refusal::NothingCached { slot }),
        FlushRefusal::Flushing { slot, id } => refused(Refusal::Flushing { slot, id }),
        FlushRefusal::Full {
            used,
            wanted,
            limit,
        } => refused(Refusal::Full {
            used,
            wanted,
            limit,
        }),
        FlushRefusal::NoCell { limit } => refused(Refusal::NoCell { limit }),
        FlushRefusal::IdsSpent => refused(Refusal::IdsSpent),
        FlushRefusal::NoMemory => Err(AllocError),
    }
}

/// The reply to a shrink that did not begin.
pub fn shrink_refused(refusal: ShrinkRefusal) -> Result<Reply, AllocError>
    ensures { told result ≡ shrink_reply (Err refusal) }
{
    match refusal {
        ShrinkRefusal::NoStorage { slot } => refused(Refusal::NoStorage { slot }),
        ShrinkRefusal::Shrinking { slot, id } => refused(Refusal::Shrinking { slot, id }),
        ShrinkRefusal::NothingDead { slot } => refused(Refusal::NothingDead { slot }),
        ShrinkRefusal::Full {
            used,
            wanted,
            limit,
        } => refused(Refusal::Full {
            used,
            wanted,
            limit,
        }),
        ShrinkRefusal::NoCell { limit } => refused(Refusal::NoCell { limit }),
        ShrinkRefusal::IdsSpent => refused(Refusal::IdsSpent),
        ShrinkRefusal::NoMemory => Err(AllocError),
    }
}

/// The reply to a shrink that ended.
pub fn shrink_ended(done: ShrinkDone) -> Reply
    ensures { reply_of result ≡ shrink_end_reply done }
{
    match done {
        ShrinkDone::Installed => Reply::Done,
        ShrinkDone::Superseded { slot, old } => Reply::Superseded { slot, old },
    }
}

/// The reply to the begin of a snapshot that was refused.
pub fn snap_refused(refusal: SnapRefusal) -> Result<Reply, AllocError>
    ensures { told result ≡ snap_reply (Err refusal) }
{
    match refusal {
        SnapRefusal::SnapOpen { slot } => refused(Refusal::SnapOpen { slot }),
        SnapRefusal::NotRoot { slot } => refused(Refusal::NotRoot { slot }),
        SnapRefusal::SnapTooOld { slot, cleaned } => refused(Refusal::SnapTooOld { slot, cleaned }),
        SnapRefusal::Unflushed { slot } => refused(Refusal::Unflushed { slot }),
        SnapRefusal::NoMemory => Err(AllocError),
    }
}
