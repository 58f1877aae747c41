//! Snapshots written to a directory: the images of storages, a manifest and a version, under one name.
//!
//! | File | What it has |
//! |---|---|
//! | `NAME/accounts/SLOT.ID`, one for each storage | the rows' records, written anew one after another |
//! | `NAME/snapshots/SLOT/SLOT`, by the snapshot's slot | the manifest: each storage's slot, its id and the length of its file |
//! | `NAME/version` | `1.2.0` |
//!
//! They are written in this order, storages by rising slot, so a version stands only where all else does.
//! `specs/Written.antt` says which files these are, and `specs/Snapshot.antt` which files hold a snapshot, written by whom
//! ever; [`write_snapshot`] is proved to leave such files, and to touch no others.
#![tactic(auto)]

mod fault;
mod file;
mod image;
mod laws;
mod snapshot;
#[cfg(test)]
mod tests;

pub use fault::SnapFault;
pub use laws::snapshots_stand_apart;
pub use snapshot::write_snapshot;
