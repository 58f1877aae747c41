//! The slots by which a view chooses: the ancestors of a fork, and the roots.
#![tactic(auto)]

mod ancestors;
mod roots;
mod search;
#[cfg(test)]
mod tests;

pub use ancestors::AncestorSet;
pub use roots::RootSet;
pub use search::is_among;
