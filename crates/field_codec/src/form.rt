// The form of a snapshot: what its files are, before its storages are looked at.
ghost use Rattle.std.specs.Prelude.{◌≡◌, true, Ok, IfOk, IfSome, is_some, string_bytes};
ghost use Rattle.dir_io.specs.Files.{IsListing, file_of, is_among, texts};
ghost use Rattle.field_codec.specs.Paths as paths;
ghost use Rattle.field_codec.specs.Forms as forms;
ghost use Rattle.field_codec.specs.FormFaults.{Given, HasFormCause, OnlyLost, form_seen};

use crate::checks::{form_of, is_listed, is_version, one_manifest};
use crate::form_fault::FormFault;
use crate::name::{manifest_path, prefix_of, version_path};
use dir_io::{Dir, DirError};
use std::alloc::Global;

/// The form of a snapshot: its slot, and the files of its storages.
#[derive(Debug, Drop)]
pub struct Form {
    pub slot: u64,

    /// The files of the storages, by rising slot.
    pub files: Vec<FormFile>,
}

/// The file of the storage of a slot.
#[derive(Debug, Drop)]
pub struct FormFile {
    pub slot: u64,

    /// How many bytes of the file are the storage's image.
    pub len: u64,

    /// The name of the file, with that of the snapshot.
    pub name: String,
}

/// The form of the snapshot of this name: the slot of its manifest, and the files of its storages.
///
/// The version and the manifest are read, and nothing else is.
///
/// # Errors
/// The first fault, in the order of [`FormFault`]. A call of the directory that fails is `DirFault` at its place; `Gone`
/// where a file that was listed is missing when it is read, as never happens where the directory tells its files.
pub fn read_form<D: Dir>(alloc: Global, name: &str, dir: &mut D) -> Result<Form, FormFault>
    // Where the files are told: their first flaw, or the form that they hold.
    ensures exact { IfSome (D.files dir.old) (λ told. Given (Unit {0}) form_seen (forms.Finds told name.now) result) }
    ensures order { IfOk result (λ form. forms.IsInOrder (form_seen form)) }
    ensures files { D.files dir.new ≡ D.files dir.old }
    ensures synced { D.synced dir.new ≡ D.synced dir.old }
    ensures cause { HasFormCause (D.faults dir.old) (D.faults dir.new) result }
{
    let names = names_under(alloc, name, dir)?;
    let slot = slot_of(alloc, name, &names, dir)?;
    let manifest = read_listed(alloc, &manifest_path(alloc, name, slot)?, dir)?;
    form_of(alloc, name, &names, slot, &manifest)
}

// The names of all files of the snapshot.
fn names_under<D: Dir>(alloc: Global, name: &str, dir: &mut D) -> Result<Vec<String>, FormFault>
    ensures names { IfOk result (λ names. IsListing (D.files dir.old) (paths.prefix_of name.now) (texts names.items)) }
    ensures given { OnlyLost result }
    ensures files { D.files dir.new ≡ D.files dir.old }
    ensures synced { D.synced dir.new ≡ D.synced dir.old }
    ensures cause { HasFormCause (D.faults dir.old) (D.faults dir.new) result }
{
    match dir.list(&prefix_of(alloc, name)?) {
        Ok(names) => Ok(names),
        Err(DirError::NoMemory) => Err(FormFault::NoMemory),
        Err(_) => Err(FormFault::DirFault),
    }
}

// The slot of the one manifest, where there is a version.
fn slot_of<D: Dir>(
    alloc: Global,
    name: &str,
    names: &[String],
    dir: &mut D,
) -> Result<u64, FormFault>
    requires { IsListing (D.files dir.old) (paths.prefix_of name.now) (texts names.now) }
    ensures slot { IfSome (D.files dir.old) (λ told. Given (Unit {0}) (λ slot. slot) (λ found. found ≡ forms.slot_in name.now (texts names.now) told) result) }
    ensures listed { IfOk result (λ slot. is_among (texts names.now) (paths.manifest_path name.now slot) ≡ true) }
    ensures files { D.files dir.new ≡ D.files dir.old }
    ensures synced { D.synced dir.new ≡ D.synced dir.old }
    ensures cause { HasFormCause (D.faults dir.old) (D.faults dir.new) result }
{
    let path = version_path(alloc, name)?;
    if !is_listed(names, &path) {
        return Err(FormFault::NoVersion);
    }
    let version = read_listed(alloc, &path, dir)?;
    if !is_version(&version) {
        return Err(FormFault::BadVersion);
    }
    one_manifest(alloc, name, names)
}

// The bytes of a file that was listed.
fn read_listed<D: Dir>(alloc: Global, path: &str, dir: &mut D) -> Result<Vec<u8>, FormFault>
    requires { IfSome (D.files dir.old) (λ told. is_some (file_of told path.now) ≡ true) }
    ensures bytes { IfSome (D.files dir.old) (λ told. Given (Unit {0}) (λ bytes. bytes.items) (λ found. found ≡ Ok (forms.bytes_at told path.now)) result) }
    ensures files { D.files dir.new ≡ D.files dir.old }
    ensures synced { D.synced dir.new ≡ D.synced dir.old }
    ensures cause { HasFormCause (D.faults dir.old) (D.faults dir.new) result }
{
    match dir.read(path) {
        Ok(bytes) => Ok(bytes),
        Err(DirError::Missing) => Err(FormFault::Gone {
            name: String::from_str(alloc, path)?,
        }),
        Err(DirError::Failed) => Err(FormFault::DirFault),
        Err(DirError::NoMemory) => Err(FormFault::NoMemory),
    }
}
