//! Scripts and journals: what the bytes of a script say, and the text of an event.
//!
//! A script is a text of lines, and a line is a list of words. What a script says is a relation on its
//! lines and words (`specs/Grammar.antt`), and [`parse`] answers it exactly where there is such a thing.
//! The text of an event is a line of the journal (`specs/Text.antt`), which is itself a line of a script.
#![tactic(auto)]

mod arguments;
mod data_words;
mod fault;
mod laws;
mod line;
mod parsing;
mod printed_view;
mod reading;
mod text;
mod view_words;
mod words;

pub use fault::ScriptFault;
pub use laws::{ended_lines_are_read, reads_the_grammar, spaced_words_are_read};
pub use line::{DEFAULT_BUDGET, Line, Order, Script};
pub use parsing::parse;
pub use text::{JournalPrinter, line_text};

#[cfg(test)]
mod tests;
