//! Words that are numbers, keys or names of snapshots, and the texts of numbers and of 32-byte values.
//!
//! A script's line, a command's words and the names of a snapshot's files have words of these kinds. A number is
//! read with leading zeros and printed without them; a 32-byte value is read from 2 to 64 hexadecimal digits of
//! either case and printed in lower case, its trailing zero bytes cut. What is printed is read again as the same
//! value. A name is its own word. Bytes of any number are read and printed in hexadecimal, too.
#![tactic(auto)]

mod hex_digits;
mod hex_text;
mod key;
mod laws;
mod names;
mod number;
#[cfg(test)]
mod tests;

pub use hex_digits::read_hex;
pub use hex_text::push_hex;
pub use key::{key_text, push_key, read_key};
pub use laws::{
    key_texts_are_keys, key_words_are_keys, name_words_are_names, number_texts_are_numbers,
    number_words_are_numbers,
};
pub use names::{is_name, read_name};
pub use number::{number_text, push_number, read_number};
