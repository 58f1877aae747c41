//! The book: the store's parts for one thread, each call one event of the plain machine.
//!
//! Bodies call laws of the crates below: functions that do nothing, by whose call a proof learns the law.
#![tactic(auto)]

mod book;
#[cfg(test)]
mod cleaning_tests;
mod flushing;
mod leasing;
mod listing;
mod loading;
#[cfg(test)]
mod opening_tests;
mod pinning;
mod purging;
mod refusals;
mod rooting;
mod shrinking;
mod snapping;
#[cfg(test)]
mod snapping_tests;
mod storing;
#[cfg(test)]
mod tests;

pub use book::{Book, MAX_STORAGES};
pub use listing::{Accounts, BATCH, Batch};
pub use loading::{Answer, Found, FoundAt};
pub use open_plan::RebuildFault;
pub use refusals::{
    FlushRefusal, LeaseRefusal, LoadRefusal, NotLeased, NotPinned, RaiseRefusal, RootRefusal,
    Rooted, ShrinkDone, ShrinkRefusal, SnapRefusal, StoreRefusal, ViewTooOld,
};
pub use snapping::SnapJob;
