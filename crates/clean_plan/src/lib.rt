//! The steps of a reclaim on the parts of a book: pairs that no view needs leave, and storages without a row alive
//! retire.
//!
//! A reclaim takes some crowded keys. Of each it drops the stored versions below the newest root that has one, up
//! to the cleaned slot, and then the lowest version, if it is a tomb that hides nothing below; and after each of
//! the two it retires the storages of which no row is alive. Each pair and each storage leaves by a change that
//! the laws of the parts know, and on the way the parts reflect a state in which the same is left to do. It takes
//! no memory, and can't be refused.
#![tactic(auto)]

mod lists;
mod pairs;
mod reclaiming;
mod retiring;
mod shadowed;
mod spent;
#[cfg(test)]
mod tests;

pub use reclaiming::reclaim;
pub use retiring::retire_unnamed;
pub use shadowed::drop_shadowed;
pub use spent::drop_spent;
