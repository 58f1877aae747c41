//! A lock whose holders take turns over one value, and whose contracts see one history.
//!
//! The value of a [`Turn`] stands for a list of entries, each with the number of the pass that added it. Who wants the
//! value hands in a [`Pass`], waits for its turn and gets a [`Hold`]; who leaves says which entries it added. All
//! callers' entries stand in one list, each once, in the order of the turns. A pass knows a beginning of that list, which
//! each of its turns makes the whole list of that moment. Its own entries in it are just those that its holds added.
//!
//! The lock is a ticket lock: one word has the next ticket, one the ticket that is being served, and one slot has the
//! value while nobody holds it. Passes have numbers from 1 to 65,536. A new turn has one pass, with number 1 and the
//! other numbers in its stock; [`Turn::split`] and [`Turn::join`] deal numbers out and gather them, and a pass that has
//! them all is the only one left, and may [close](Turn::close) the turn.
//!
//! Nothing here says that a waiting call returns, or in which order two callers that told each other nothing stand.
#![tactic(auto)]

mod numbers;
mod pass;
mod refusals;
mod rule;
mod standing;
mod steps;
mod turn;
mod waits;

pub use pass::{Hold, Pass};
pub use refusals::{Busy, NoMemory, TooManyPasses};
pub use standing::{Adds, Standing};
pub use turn::Turn;

#[cfg(test)]
mod tests;
