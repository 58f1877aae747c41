//! The versions of one key by rising slot, and the slots in which the key is held.
#![tactic(auto)]

mod edits;
mod laws;
mod list;
mod search;
#[cfg(test)]
mod tests;

pub use laws::lookups_follow_edits;
pub use list::SlotList;

/// Where the account of a version is.
#[derive(Clone, Copy, Debug, Default, PartialEq, Eq)]
pub enum Place {
    /// In the write cache.
    #[default]
    Cached,
    /// In the image of a cell, as the record that starts `offset` bytes from its front.
    Stored { cell: usize, offset: usize },
}

/// A key's account in a slot.
#[derive(Clone, Copy, Debug, Default, PartialEq, Eq)]
pub struct Version {
    pub slot: u64,
    pub place: Place,
    /// Whether the account is a tomb, one without lamports.
    pub tomb: bool,
}
