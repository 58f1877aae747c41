//! Append vectors: images of storages, filled with accounts.
//!
//! An image has each account's record once, written into its place, and is sealed without being read again.
//! `specs/Filled.antt` says what a filled image has.
#![tactic(auto)]

mod filling;
mod laws;

pub use filling::{Filled, fill};
pub use laws::filled_rows_are_the_same;

#[cfg(test)]
mod tests;
