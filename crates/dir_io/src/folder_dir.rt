// A folder of the system as a directory.
ghost use Rattle.std.specs.Prelude.{◌≡◌, ◌≢◌, true, false, [], None, is_ok, IfOk, OnOk, OnErr, IsErrOf, IsTrue};
ghost use Rattle.std.specs.Io.{ReadsAtMost};
ghost use Rattle.dir_io.specs.Files.{texts, IsListing};
ghost use Rattle.dir_io.specs.Faults.{HasCause, is_missing, faults_then};
ghost use Rattle.dir_io.specs.Kept.{is_synced};

use crate::{Dir, DirError, folder, listing};
use std::alloc::AllocError;
use std::collections::BTreeSet;
use std::marker::Model;
use std::rt::Files;

/// A folder of the system as a directory, which tells nothing of its files.
///
/// A name is a path below the folder, with `/` between its parts. What the system refuses is a fault. It keeps which files
/// and folders were written and aren't synced: all is synced where none is left and no sync failed.
#[derive(Drop)]
pub struct FolderDir<R: Files + AllocGlobal + Clone + Drop> {
    rt: R,
    path: String,
    written: BTreeSet<String>,
    is_lost: bool,
    faults: u64,
}

impl<R: Files + AllocGlobal + Clone + Drop> Model for FolderDir<R> {
    ghost use Rattle.std.specs.Prelude.{string_bytes};
    ghost use Rattle.dir_io.specs.Doubles.{FolderState};
    ghost use Rattle.dir_io.specs.Kept.{is_synced};

    ghost Value = { FolderState };

    ghost view = { λ d. record { path = string_bytes d.path; faults = d.faults; synced = is_synced d.written d.is_lost } };
}

impl<R: Files + AllocGlobal + Clone + Drop> FolderDir<R> {
    /// The folder at this path, with no fault counted. An empty path is the current folder. It has to be there before a file is written.
    pub fn new(rt: &R, path: &str) -> Result<FolderDir<R>, AllocError>
        ensures path { path.now ≢ [] → IfOk result (λ dir. dir.path ≡ path.now) }
        ensures faults { IfOk result (λ dir. dir.faults ≡ 0) }
        ensures synced { IfOk result (λ dir. dir.synced ≡ true) }
    {
        let path = if path.is_empty() { "." } else { path };
        Ok(FolderDir {
            rt: rt.clone()?,
            path: String::from_str(rt.alloc(), path)?,
            written: BTreeSet::new(rt.alloc()),
            is_lost: false,
            faults: 0,
        })
    }
}

impl<R: Files + AllocGlobal + Clone + Drop> Dir for FolderDir<R> {
    ghost files = { λ _. None };

    ghost faults = { λ d. d.faults };

    ghost synced = { λ d. d.synced };

    fn list(&mut self, prefix: &str) -> Result<Vec<String>, DirError>
        ensures names { IfOk result (λ names. IsListing None prefix.now (texts names.items)) }
        ensures never_missing { is_missing result ≡ false }
        ensures cause { HasCause self.old.faults self.new.faults result }
        ensures counted { self.new.faults ≡ faults_then self.old.faults result }
        ensures path { self.new.path ≡ self.old.path }
        ensures synced { self.new.synced ≡ self.old.synced }
    {
        let result = listing::list(&self.rt, &self.path, prefix);
        count(&mut self.faults, result)
    }

    fn read(&mut self, name: &str) -> Result<Vec<u8>, DirError>
        ensures cause { HasCause self.old.faults self.new.faults result }
        ensures counted { self.new.faults ≡ faults_then self.old.faults result }
        ensures path { self.new.path ≡ self.old.path }
        ensures synced { self.new.synced ≡ self.old.synced }
    {
        let result = folder::read(&self.rt, &self.path, name);
        count(&mut self.faults, result)
    }

    fn read_at(&mut self, name: &str, at: u64, into: &mut [u8]) -> Result<usize, DirError>
        ensures bound { ReadsAtMost result into.new }
        ensures cause { HasCause self.old.faults self.new.faults result }
        ensures counted { self.new.faults ≡ faults_then self.old.faults result }
        ensures path { self.new.path ≡ self.old.path }
        ensures synced { self.new.synced ≡ self.old.synced }
    {
        let result = folder::read_at(&self.rt, &self.path, name, at, into);
        count(&mut self.faults, result)
    }

    /// A name with a part that is empty, `.` or `..` fails, and so does one that leads over a link.
    fn write(&mut self, name: &str, bytes: &[u8]) -> Result<(), DirError>
        ensures never_missing { is_missing result ≡ false }
        ensures cause { HasCause self.old.faults self.new.faults result }
        ensures counted { self.new.faults ≡ faults_then self.old.faults result }
        ensures path { self.new.path ≡ self.old.path }
        ensures synced { IsTrue self.new.synced → IsTrue self.old.synced }
        ensures held { OnOk result (self.new.synced ≡ false) }
    {
        let result = folder::write(&self.rt, &self.path, name, bytes, &mut self.written);
        count(&mut self.faults, result)
    }

    /// Syncs every file and folder that was written since it last was done. Where it failed once it fails from then on, since
    /// the system may have let go of what it couldn't write.
    fn sync(&mut self) -> Result<(), DirError>
        ensures only_failed { OnErr result (IsErrOf result DirError.Failed) }
        ensures cause { HasCause self.old.faults self.new.faults result }
        ensures counted { self.new.faults ≡ faults_then self.old.faults result }
        ensures path { self.new.path ≡ self.old.path }
        ensures synced { OnOk result (IsTrue self.new.synced) }
        ensures held { self.new.synced ≡ is_ok result }
    {
        let result = sync_all(&self.rt, &mut self.written, &mut self.is_lost);
        count(&mut self.faults, result)
    }
}

// Syncs these paths one after another, and lets go of each, unless a sync failed before.
fn sync_all(
    rt: &impl Files,
    written: &mut BTreeSet<String>,
    is_lost: &mut bool,
) -> Result<(), DirError>
    ensures only_failed { OnErr result (IsErrOf result DirError.Failed) }
    ensures held { is_synced written.new is_lost.new ≡ is_ok result }
{
    while !*is_lost {
        let Some(path) = written.pop_first() else {
            return Ok(());
        };
        *is_lost = folder::sync(rt, &path).is_err();
    }
    Err(DirError::Failed)
}

// Counts a fault where the call failed. The count stops at its last value.
fn count<T>(faults: &mut u64, answer: Result<T, DirError>) -> Result<T, DirError>
    ensures same { result ≡ answer }
    ensures counted { faults.new ≡ faults_then faults.old answer }
    ensures cause { HasCause faults.old faults.new answer }
{
    if let Err(DirError::Failed) = &answer {
        *faults = faults.saturating_add(1);
    }
    answer
}
