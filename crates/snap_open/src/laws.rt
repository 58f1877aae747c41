// What holds of all snapshots. A law is a function that does nothing: its contract is the law, and a call tells it to the
// caller's proof.
ghost use Rattle.std.specs.Prelude.{◌≡◌, ◌⊎◌, ℕ, List};
ghost use Rattle.adb_model.specs.Laws.{MayOpen};
ghost use Rattle.adb_model.specs.Opened as machine;
ghost use Rattle.dir_io.specs.Files.{Files};
ghost use Rattle.snap_write.specs.Snapshot.{HoldsSnapshot};
ghost use Rattle.snap_open.specs.Faults.{WhyNotOpened};

use crate::fault::OpenFault;
use field_codec::held_forms_are_found;
use vec_scan::images_have_one_reading;

/// A snapshot that files hold, and that has room, is opened: nothing but a fault of the directory or want of memory is answered.
/// And files hold one snapshot under a name.
pub fn held_snapshots_open()
    ensures open { (files : Files) (name : List ℕ) (slot budget : ℕ) (images : List machine.Image) (more : List ℕ) (fault : OpenFault)
        → HoldsSnapshot files name slot images more → MayOpen budget images → WhyNotOpened files name budget fault
        → (fault ≡ OpenFault.DirFault) ⊎ (fault ≡ OpenFault.NoMemory) }
    ensures one { (files : Files) (name : List ℕ) (slot other : ℕ) (images others : List machine.Image) (more further : List ℕ)
        → HoldsSnapshot files name slot images more → HoldsSnapshot files name other others further
        → (slot ≡ other) × (images ≡ others) × (more ≡ further) }
{
    held_forms_are_found();
    images_have_one_reading();
}
