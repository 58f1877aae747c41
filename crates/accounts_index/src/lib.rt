//! The index: of each key, its versions by slot, and the slots in which it is held.
#![tactic(auto)]

mod bin;
mod bins;
mod edits;
mod entry;
mod groups;
mod index;
mod iter;
mod search;
mod steps;
#[cfg(test)]
mod tests;
mod walk;

pub use index::AccountsIndex;
pub use iter::Iter;
pub use steps::Steps;
