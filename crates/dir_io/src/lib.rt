//! Directories of files that count their faults.
//!
//! A call answers [`DirError::Failed`] only where the count of its directory rose in that call, so code over a [`Dir`] can't
//! give up by itself. Which files stand in a directory is told where the object knows it: [`MemDir`] does, and
//! [`FolderDir`], over a folder of the system, tells nothing.
#![tactic(auto)]

mod dir;
mod fault;
mod folder;
mod folder_dir;
mod listing;
mod mem_dir;
mod names;
#[cfg(test)]
mod tests;

pub use dir::Dir;
pub use fault::DirError;
pub use folder_dir::FolderDir;
pub use mem_dir::MemDir;
