//! The storages of each slot: the one in use, and the one that is being filled.
#![tactic(auto)]

mod emptied;
mod entry;
mod map;
mod slots;
#[cfg(test)]
mod tests;

pub use entry::{Begun, Live};
pub use map::StorageMap;
