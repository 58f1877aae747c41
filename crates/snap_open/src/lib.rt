//! Snapshots opened from a directory: a book of the accounts in the images of their storages.
//!
//! [`open_snapshot`] checks the form of the files under a name, then that the storages have room, then reads their files by
//! rising slot, and then what stands in each. A book is opened exactly where all of this is sound, and of several faults the
//! first is answered. `specs/Faults.antt` says when each comes, and `specs/Opening.antt` what the book stands for.
#![tactic(auto)]

mod fault;
#[cfg(test)]
mod folder_tests;
mod images;
mod laws;
mod reading;
mod room;
mod snapshot;
#[cfg(test)]
mod tests;

pub use fault::{LayoutText, OpenFault};
pub use laws::held_snapshots_open;
pub use snapshot::open_snapshot;
