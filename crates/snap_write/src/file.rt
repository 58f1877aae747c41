// Calls of a directory that the writing of a snapshot makes.
ghost use Rattle.std.specs.Prelude.{◌≡◌, false, OnOk, IsTrue};
ghost use Rattle.dir_io.specs.Files.{IsFile, LeavesOthers};
ghost use Rattle.field_codec.specs.Paths as paths;
ghost use Rattle.snap_write.specs.Changes.{AnswersNew};
ghost use Rattle.snap_write.specs.Faults.{HasSnapCause, is_exists};

use crate::fault::SnapFault;
use dir_io::Dir;
use field_codec::prefix_of;
use std::alloc::Global;

// No file's name begins with the snapshot's.
pub(crate) fn check_new<D: Dir>(alloc: Global, name: &str, dir: &mut D) -> Result<(), SnapFault>
    ensures exact { AnswersNew (paths.prefix_of name.now) (D.files dir.old) result }
    ensures files { D.files dir.new ≡ D.files dir.old }
    ensures cause { HasSnapCause (D.faults dir.old) (D.faults dir.new) result }
{
    let names = dir.list(&prefix_of(alloc, name)?)?;
    if names.is_empty() {
        return Ok(());
    }
    Err(SnapFault::Exists)
}

// Writes a file.
pub(crate) fn put_file<D: Dir>(dir: &mut D, path: &str, bytes: &[u8]) -> Result<(), SnapFault>
    ensures written { OnOk result (IsFile (D.files dir.new) path.now bytes.now) }
    ensures others { LeavesOthers (D.files dir.old) (D.files dir.new) path.now }
    ensures cause { HasSnapCause (D.faults dir.old) (D.faults dir.new) result }
    ensures not_there { is_exists result ≡ false }
{
    dir.write(path, bytes)?;
    Ok(())
}

// Makes sure that what was written lasts.
pub(crate) fn sync<D: Dir>(dir: &mut D) -> Result<(), SnapFault>
    ensures files { D.files dir.new ≡ D.files dir.old }
    ensures synced { OnOk result (IsTrue (D.synced dir.new)) }
    ensures cause { HasSnapCause (D.faults dir.old) (D.faults dir.new) result }
    ensures not_there { is_exists result ≡ false }
{
    dir.sync()?;
    Ok(())
}
