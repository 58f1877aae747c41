//! Opens the parts of a book from sealed storages, one storage after another.
//!
//! Each storage takes a cell, its rows are put into the index, and the map counts its keys. Records are read where they
//! lie, and no account's data is copied.
#![tactic(auto)]

mod adding;
mod fault;
mod indexing;
mod opening;
mod roots;
#[cfg(test)]
mod tests;

pub use adding::add;
pub use fault::RebuildFault;
pub use opening::{Opened, open};
