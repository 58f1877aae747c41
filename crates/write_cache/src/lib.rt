//! The write cache: the accounts that were stored and are not in a storage yet.
#![tactic(auto)]

mod cache;
mod slots;
#[cfg(test)]
mod tests;

pub use cache::WriteCache;
