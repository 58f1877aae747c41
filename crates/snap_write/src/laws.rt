// What holds of all snapshots among the files of a directory. A law is a function that does nothing: its contract is the
// law, and a call tells it to the caller's proof.
ghost use Rattle.std.specs.Prelude.{◌≡◌, true, ℕ, List};
ghost use Rattle.adb_model.specs.Opened as machine;
ghost use Rattle.dir_io.specs.Files.{Files, file_of, has_prefix};
ghost use Rattle.field_codec.specs.Paths as paths;
ghost use Rattle.snap_write.specs.Changes.{HasSome};
ghost use Rattle.snap_write.specs.Snapshot.{HoldsSnapshot};
ghost use Rattle.text_fields.specs.Names.{is_name};

use field_codec::names_of_files_differ;

/// Snapshots of different names stand apart: files that hold one hold it still where those under its name are as they were,
/// and no file is under the names of two. A snapshot that files hold has a file.
pub fn snapshots_stand_apart()
    ensures kept { (old new : Files) (name : List ℕ) → ((path : List ℕ) → has_prefix (paths.prefix_of name) path ≡ true → file_of new path ≡ file_of old path)
        → (slot : ℕ) (images : List machine.Image) (more : List ℕ)
        → HoldsSnapshot old name slot images more → HoldsSnapshot new name slot images more }
    ensures one_name { (name other path : List ℕ) → is_name name ≡ true → is_name other ≡ true
        → has_prefix (paths.prefix_of name) path ≡ true → has_prefix (paths.prefix_of other) path ≡ true → name ≡ other }
    ensures there { (files : Files) (name : List ℕ) (slot : ℕ) (images : List machine.Image) (more : List ℕ)
        → HoldsSnapshot files name slot images more → HasSome (paths.prefix_of name) files }
{
    names_of_files_differ();
}
