// Where files stand.
ghost use Rattle.std.specs.Prelude.{◌≡◌, ℕ, Bool, false, IfOk, OnOk, OnErr, IsErrOf, IsTrue};
ghost use Rattle.std.specs.declared.option.Option.{Option};
ghost use Rattle.std.specs.Io.{ReadsAtMost};
ghost use Rattle.dir_io.specs.Files.{Files, texts, IsListing, IsFile, IsPieceOf, LeavesOthers};
ghost use Rattle.dir_io.specs.Faults.{HasCause, MissingIffNone, is_missing};

use crate::DirError;

/// A directory of files. It may tell which files stand in it.
///
/// Every call but `write` leaves the files as they are. A call answers `Missing` exactly where there is no file of the name
/// and it doesn't fail.
pub trait Dir {
    /// The files that stand in it, where it tells them.
    ghost files: { Self → Option Files };

    /// How often it has failed. The count stops at 2^64 - 1.
    ghost faults: { Self → ℕ };

    /// Whether all that was written is synced.
    ghost synced: { Self → Bool };

    /// All names that begin with the prefix, rising by their bytes.
    fn list(&mut self, prefix: &str) -> Result<Vec<String>, DirError>
        ensures names { IfOk result (λ names. IsListing (files self.old) prefix.now (texts names.items)) }
        ensures files { files self.new ≡ files self.old }
        ensures synced { synced self.new ≡ synced self.old }
        ensures never_missing { is_missing result ≡ false }
        ensures cause { HasCause (faults self.old) (faults self.new) result };

    /// The bytes of a file.
    fn read(&mut self, name: &str) -> Result<Vec<u8>, DirError>
        ensures bytes { IfOk result (λ bytes. IsFile (files self.old) name.now bytes.items) }
        ensures files { files self.new ≡ files self.old }
        ensures synced { synced self.new ≡ synced self.old }
        ensures missing { MissingIffNone (files self.old) name.now result }
        ensures cause { HasCause (faults self.old) (faults self.new) result };

    /// Puts the bytes of a file from a place on at the front of `into`, and answers how many: as many as the piece and the
    /// file allow, so none from the file's end on.
    fn read_at(&mut self, name: &str, at: u64, into: &mut [u8]) -> Result<usize, DirError>
        ensures bound { ReadsAtMost result into.new }
        ensures piece { IfOk result (λ count. IsPieceOf (files self.old) name.now at count into.old into.new) }
        ensures files { files self.new ≡ files self.old }
        ensures synced { synced self.new ≡ synced self.old }
        ensures missing { MissingIffNone (files self.old) name.now result }
        ensures cause { HasCause (faults self.old) (faults self.new) result };

    /// Makes a file of just these bytes, or puts them in place of what the file had. After an error the file of this name may
    /// have any bytes or be gone. All other files stay, whatever it answers, and nothing is synced by it.
    fn write(&mut self, name: &str, bytes: &[u8]) -> Result<(), DirError>
        ensures written { OnOk result (IsFile (files self.new) name.now bytes.now) }
        ensures others { LeavesOthers (files self.old) (files self.new) name.now }
        ensures synced { IsTrue (synced self.new) → IsTrue (synced self.old) }
        ensures never_missing { is_missing result ≡ false }
        ensures cause { HasCause (faults self.old) (faults self.new) result };

    /// Makes sure that what was written lasts. It is done or fails.
    fn sync(&mut self) -> Result<(), DirError>
        ensures files { files self.new ≡ files self.old }
        ensures synced { OnOk result (IsTrue (synced self.new)) }
        ensures only_failed { OnErr result (IsErrOf result DirError.Failed) }
        ensures cause { HasCause (faults self.old) (faults self.new) result };
}
