//! What a book of accounts is made of, and the laws by which its parts follow the plain machine.
//!
//! A book is to contracts the record of its parts. The parts reflect a state of the machine where each look
//! into them finds what the state says, and stand for a history where they reflect the state after it. Each
//! law takes one call of a book: from what the call did to the parts it tells for which history they stand then.
#![tactic(auto)]

mod answering;
mod cleaning;
mod flush_events;
mod flushing;
mod laws;
mod leasing;
mod opening;
mod pinning;
mod shrink_events;
mod shrinking;
mod snap_events;
mod snapping;

pub use answering::latest_versions_answer;
pub use cleaning::{
    crowded_keys_reflect, dropped_version_reflects, reclaim_stands, retired_storage_reflects,
    stored_versions_stand,
};
pub use flush_events::{flush_begin_stands, flush_end_stands};
pub use flushing::{begun_flush_reflects, ended_flush_reflects, open_flush_reflects};
pub use laws::{
    load_stands, new_parts_stand, next_key_stands, pins_are_held, purge_stands, root_stands,
    stats_stand, step_stands, store_stands, sums_fit,
};
pub use leasing::{lease_stands, raise_stands};
pub use opening::{opened_parts_reflect, opened_parts_stand};
pub use pinning::{pins_stay, stored_load_stands, unpin_stands};
pub use shrink_events::{recycle_stands, shrink_begin_stands, shrink_end_stands};
pub use shrinking::{
    begun_shrink_reflects, dropped_shrink_reflects, installed_shrink_reflects,
    open_shrink_reflects, recycled_storages_reflect, used_storage_reflects,
};
pub use snap_events::{snap_begin_stands, snap_end_stands};
pub use snapping::{begun_snap_reflects, ended_snap_reflects};
