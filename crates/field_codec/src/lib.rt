//! Manifests of snapshots: which slots a snapshot has, with the id and the length of each one's storage.
//!
//! Numbers are little-endian, of eight bytes.
//!
//! | Part | Bytes | Written as | Read as |
//! |---|---|---|---|
//! | number of slots | 8 | as is | as is |
//! | for each slot: the slot, its number of storages, that storage's id, its length | 32 | by rising slot, one storage | in any order, each slot once, one storage |
//! | write version | 8 | zeros | skipped |
//! | slot of the snapshot | 8 | as is | as is |
//! | opaque | 104 | zeros | skipped |
//! | a count, and that many numbers | 8 and 8 for each | 0 | skipped; the file may end right before |
//! | a count, and that many pairs of a number and 32 bytes | 8 and 40 for each | 0 | skipped; the file may end right before |
//!
//! `specs/Manifest.antt` says which bytes are a manifest, by concatenation of its parts; [`decode_fields`] and
//! [`encode_fields`] are proved to agree with it both ways. No number in a file takes memory before the bytes that
//! it speaks of are read.
//!
//! [`read_form`] gives the form of the snapshot of a name in a directory: it looks through the names of the
//! snapshot's files, reads the version and the manifest, and answers the slot and the files of the storages, or the
//! first fault. `specs/Forms.antt` says which files hold a form, and what the first fault is.
#![tactic(auto)]

mod checks;
mod fault;
mod fields;
mod form;
mod form_fault;
mod laws;
mod name;
mod read;
mod write;

pub use fault::FieldFault;
pub use fields::{FieldStorage, Fields};
pub use form::{Form, FormFile, read_form};
pub use form_fault::FormFault;
pub use laws::{
    held_forms_are_found, manifests_are_read, manifests_have_one_reading, names_of_files_differ,
    written_manifests_are_read,
};
pub use name::{manifest_path, prefix_of, status_path, storage_path, version_path};
pub use read::decode_fields;
pub use text_fields::is_name;
pub use write::encode_fields;

#[cfg(test)]
mod form_tests;
#[cfg(test)]
mod tests;
