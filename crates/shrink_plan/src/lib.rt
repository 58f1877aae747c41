//! The three steps of a shrink on the parts of a book: begin, end, give up.
//!
//! A shrink copies those rows of a slot's storage that the index finds into a storage of their own. Its begin takes
//! all the memory that the other two steps need, so these can't be refused. Between them the job is the shrink in
//! hand; it shares the image of the old storage, whose cell is pinned.
#![tactic(auto)]

mod beginning;
mod ending;
mod fault;
mod job;
mod moving;
mod sorting;
#[cfg(test)]
mod tests;

pub use beginning::{begin, copied_bytes};
pub use ending::{abort, end};
pub use fault::BeginFault;
pub use job::ShrinkJob;
