//! A table of cells: each holds a value through the phases filling, live, retired and free, and pins keep it.
#![tactic(auto)]

mod phase;
mod places;
mod table;
#[cfg(test)]
mod tests;

pub use phase::Phase;
pub use table::{Cell, CellFault, CellTable, Counts};
