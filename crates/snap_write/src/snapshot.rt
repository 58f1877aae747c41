// Writing a snapshot.
ghost use Rattle.std.specs.Prelude.{◌≡◌, ◌≤◌, ◌%◌, [], ◌∷◌, true, map, All, IfOk, IfSome, OnOk, IsTrue};
ghost use Rattle.std.specs.List.Sorted.{IsStrictlyIncreasing};
ghost use Rattle.field_codec.specs.Manifest as manifest;
ghost use Rattle.field_codec.specs.Paths as paths;
ghost use Rattle.snap_write.specs.Changes.{AnswersNew, HasSome, IsWriting, LeavesOutside, Puts, StandsLast, StillTold};
ghost use Rattle.snap_write.specs.Faults.{HasSnapCause, is_exists};
ghost use Rattle.snap_write.specs.Snapshot.{HoldsSnapshot};
ghost use Rattle.vec_scan.specs.Shown.{images_of, shown};
ghost use Rattle.snap_write.specs.Written as written;
ghost use Rattle.snap_write.specs.Written.{IsWrittenManifest};

use crate::fault::SnapFault;
use crate::file::{check_new, put_file, sync};
use crate::image::write_image;
use adb_model::Slot;
use dir_io::Dir;
use field_codec::{
    FieldStorage, Fields, encode_fields, manifest_path, names_of_files_differ, storage_path,
    version_path,
};
use std::alloc::Global;
use std::sync::Arc;
use vec_scan::{Sealed, written_images_are_read};

/// Writes the snapshot of a slot under a name: a file for each storage, in which its rows' records stand anew in their
/// order, by rising slot; then the manifest; then the version; and then all is synced.
///
/// # Errors
/// `Exists` exactly where a file's name begins with the snapshot's and `/`; all files are then as they were. `DirFault` where
/// a call of the directory failed, at its place. After it, or after `NoMemory`, some files of the snapshot may stand, with
/// any bytes.
pub fn write_snapshot<D: Dir>(
    alloc: Global,
    name: &str,
    slot: Slot,
    storages: &[Arc<Sealed>],
    dir: &mut D,
) -> Result<(), SnapFault>
    requires rise { IsStrictlyIncreasing (map (λ image. image.slot) (images_of storages.now)) }
    requires upto { All (λ image. image.slot ≤ slot) (images_of storages.now) }
    // The files are the snapshot's as it is written, and all others are as they were.
    ensures written { OnOk result (Puts (written.files_of name.now slot (images_of storages.now)) (D.files dir.old) (D.files dir.new)) }
    ensures holds { OnOk result (StillTold (D.files dir.old) (D.files dir.new) (λ told.
        HoldsSnapshot told name.now slot
        (written.with_rows (map shown (images_of storages.now)))
        (written.slots_without_rows (map shown (images_of storages.now))))) }
    ensures synced { OnOk result (IsTrue (D.synced dir.new)) }
    ensures exact { AnswersNew (paths.prefix_of name.now) (D.files dir.old) result }
    ensures exists { is_exists result ≡ true → D.files dir.new ≡ D.files dir.old }
    // So they are whatever it answers, where a file is under the name.
    ensures there { IfSome (D.files dir.old) (λ told. HasSome (paths.prefix_of name.now) told → D.files dir.new ≡ D.files dir.old) }
    ensures others { LeavesOutside (paths.prefix_of name.now) (D.files dir.old) (D.files dir.new) }
    // Whatever it answers: a version that wasn't there stands only where all the other files do.
    ensures last { StandsLast (paths.version_path name.now) (written.body_of name.now slot (images_of storages.now))
        (D.files dir.old) (D.files dir.new) }
    ensures cause { HasSnapCause (D.faults dir.old) (D.faults dir.new) result }
{
    names_of_files_differ();
    written_images_are_read();
    check_new(alloc, name, dir)?;
    write_files(alloc, name, slot, storages, dir)
}

// Writes all files of a snapshot, and syncs them.
fn write_files<D: Dir>(
    alloc: Global,
    name: &str,
    slot: Slot,
    storages: &[Arc<Sealed>],
    dir: &mut D,
) -> Result<(), SnapFault>
    requires { IsStrictlyIncreasing (map (λ image. image.slot) (images_of storages.now)) }
    ensures writing { IsWriting (written.files_of name.now slot (images_of storages.now))
        (D.files dir.old) (D.files dir.new) (D.faults dir.old) (D.faults dir.new) result }
    ensures last { StandsLast (paths.version_path name.now) (written.body_of name.now slot (images_of storages.now))
        (D.files dir.old) (D.files dir.new) }
    ensures fit { OnOk result (All written.IsFit (images_of storages.now)) }
    ensures manifest { OnOk result (IsWrittenManifest (written.content_of slot (images_of storages.now))) }
    ensures synced { OnOk result (IsTrue (D.synced dir.new)) }
{
    names_of_files_differ();
    write_body(alloc, name, slot, storages, dir)?;
    write_version(alloc, name, dir)?;
    sync(dir)
}

// Writes the files of the storages and of the manifest.
fn write_body<D: Dir>(
    alloc: Global,
    name: &str,
    slot: Slot,
    storages: &[Arc<Sealed>],
    dir: &mut D,
) -> Result<(), SnapFault>
    requires { IsStrictlyIncreasing (map (λ image. image.slot) (images_of storages.now)) }
    ensures writing { IsWriting (written.body_of name.now slot (images_of storages.now))
        (D.files dir.old) (D.files dir.new) (D.faults dir.old) (D.faults dir.new) result }
    ensures fit { OnOk result (All written.IsFit (images_of storages.now)) }
    ensures manifest { OnOk result (IsWrittenManifest (written.content_of slot (images_of storages.now))) }
{
    names_of_files_differ();
    let fields = write_storages(alloc, name, slot, storages, dir)?;
    write_manifest(alloc, name, &fields, dir)
}

// Writes the files of the storages. These are the fields of the manifest.
fn write_storages<D: Dir>(
    alloc: Global,
    name: &str,
    slot: Slot,
    storages: &[Arc<Sealed>],
    dir: &mut D,
) -> Result<Fields, SnapFault>
    requires { IsStrictlyIncreasing (map (λ image. image.slot) (images_of storages.now)) }
    ensures writing { IsWriting (map (written.storage_file name.now) (images_of storages.now))
        (D.files dir.old) (D.files dir.new) (D.faults dir.old) (D.faults dir.new) result }
    ensures fields { IfOk result (λ fields. manifest.content_of fields ≡ written.content_of slot (images_of storages.now)) }
    ensures fit { OnOk result (All written.IsFit (images_of storages.now)) }
{
    names_of_files_differ();
    let mut written = Vec::with_capacity(alloc, storages.len())?;
    for sealed in storages {
        written.push(write_storage(alloc, name, sealed, dir)?)?;
    }
    Ok(Fields {
        slot,
        storages: written,
    })
}

// Writes the file of a storage.
fn write_storage<D: Dir>(
    alloc: Global,
    name: &str,
    sealed: &Sealed,
    dir: &mut D,
) -> Result<FieldStorage, SnapFault>
    ensures writing { IsWriting (written.storage_file name.now sealed.now ∷ [])
        (D.files dir.old) (D.files dir.new) (D.faults dir.old) (D.faults dir.new) result }
    ensures storage { IfOk result (λ storage. storage ≡ written.storage_of sealed.now) }
    ensures fit { OnOk result (written.IsFit sealed.now) }
{
    let bytes = write_image(alloc, sealed)?;
    let slot = sealed.slot();
    let id = sealed.id();
    put_file(dir, &storage_path(alloc, name, slot, id)?, &bytes)?;
    let len = bytes.len() as u64;
    Ok(FieldStorage { slot, id, len })
}

// Writes the file of the manifest.
fn write_manifest<D: Dir>(
    alloc: Global,
    name: &str,
    fields: &Fields,
    dir: &mut D,
) -> Result<(), SnapFault>
    requires rise { IsStrictlyIncreasing (manifest.slots_of fields.now.storages.items) }
    requires lengths { All (λ s. s.len % 8 ≡ 0) fields.now.storages.items }
    ensures writing { IsWriting (written.manifest_file name.now (manifest.content_of fields.now) ∷ [])
        (D.files dir.old) (D.files dir.new) (D.faults dir.old) (D.faults dir.new) result }
    ensures manifest { OnOk result (IsWrittenManifest (manifest.content_of fields.now)) }
{
    let bytes = encode_fields(alloc, fields)?;
    put_file(dir, &manifest_path(alloc, name, fields.slot)?, &bytes)
}

// Writes the file of the version.
fn write_version<D: Dir>(alloc: Global, name: &str, dir: &mut D) -> Result<(), SnapFault>
    ensures { IsWriting (written.version_file name.now ∷ [])
        (D.files dir.old) (D.files dir.new) (D.faults dir.old) (D.faults dir.new) result }
{
    put_file(dir, &version_path(alloc, name)?, b"1.2.0")
}
