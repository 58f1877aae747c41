//! Images of storages: what an append vector has in its file and in memory.
//!
//! An image is a list of records ([`account_layout`] says which bytes are one), each followed by free bytes up
//! to a multiple of eight; after the last record they may be missing. In memory an image is padded with zeros
//! to that multiple. A key may stand in it twice, and then the later record counts.
//!
//! `specs/Image.antt` says which bytes are an image, by concatenation of its rows; [`seal`] is proved to take
//! exactly these, with the rows that stand in them.
#![tactic(auto)]

mod fault;
mod laws;
mod scan;
mod sealed;

pub use fault::LayoutFault;
pub use laws::{images_have_one_reading, rows_take_bytes, written_images_are_read};
pub use sealed::{Sealed, seal, seal_written};

#[cfg(test)]
mod tests;
