//! The three steps of a flush on the parts of a book: begin, end, give up.
//!
//! A flush writes the cached rows of a slot into a storage. Its begin takes all the memory that the other two
//! steps need, so these can't be refused. Between them the job is the flush in hand.
#![tactic(auto)]

mod beginning;
mod ending;
mod fault;
mod job;
mod rows;
#[cfg(test)]
mod tests;

pub use beginning::begin;
pub use ending::{abort, end};
pub use fault::BeginFault;
pub use job::FlushJob;
pub use rows::stored_bytes;
