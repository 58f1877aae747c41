//! Accounts, keys, views, calls and replies, and the plain machine that the store is judged by.
//!
//! The machine's state, its steps and its histories are definitions (`specs/`): lists that are searched
//! anew at each load. What the values of this crate stand for there is in `specs/Seen.antt`.
#![tactic(auto)]

mod account;
mod call;
mod cleaning;
mod counting;
mod effects;
mod flushing;
mod key;
mod laws;
mod passing;
mod pinning;
mod plain;
mod recycling;
mod shrinking;
mod snapping;
mod view;

pub use account::{Account, Head, MAX_DATA_LEN, TooLong};
pub use call::{Call, Event, Place, Refusal, Reply, Stats};
pub use cleaning::{
    crowded_keys_follow, live_storages_stand, names_leave, reclaims_are_sound, reclaims_go_on,
    shadowed_pairs_leave, spent_pairs_leave, unnamed_storages_retire,
};
pub use counting::{counts_are_bounded, rows_have_bytes};
pub use effects::{
    cached_pairs_are_counted, histories_go_on, last_stores_follow, only_roots_are_flushed,
    pairs_follow_purges, pairs_follow_stores, rows_are_last_stores, rows_follow_stores,
};
pub use flushing::{
    flushes_are_given_up, flushes_begin, flushes_end, ids_are_fresh, open_flushes_stand,
};
pub use key::{Key, Slot};
pub use laws::{
    leased_views_are_answered, named_pairs_stand_once, nothing_returns, one_history_plays,
    present_pairs_answer, states_are_sound, stored_places_stand,
};
pub use passing::{flushes_stay_open, loads_are_given_back, pins_are_own};
pub use pinning::{pinned_storages_stand, pins_follow};
pub use plain::plain_answer;
pub use recycling::{pinned_storages_stay, spares_leave, storages_leave};
pub use shrinking::{
    filling_rows_differ, open_shrinks_stand, shrinks_are_given_up, shrinks_begin,
    shrinks_copy_named_rows, shrinks_install, shrinks_stay_open,
};
pub use snapping::{snaps_begin, snaps_stay_open};
pub use view::{MAX_ANCESTORS, View, ViewFault};

#[cfg(test)]
mod tests;
