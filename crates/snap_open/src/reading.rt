// Reading the files of storages.
ghost use Rattle.std.specs.Prelude.{◌≡◌, true, All, IfOk, IfErr, IfSome, OnErr, is_some, map, string_bytes};
ghost use Rattle.dir_io.specs.Files.{file_of};
ghost use Rattle.field_codec.specs.FormFaults.{file_seen};
ghost use Rattle.snap_open.specs.Faults.{HasOpenCause};
ghost use Rattle.snap_open.specs.Images.{HasBytes, files_of};
ghost use Rattle.snap_open.specs.Steps.{IsLost};

use crate::fault::OpenFault;
use dir_io::{Dir, DirError};
use field_codec::FormFile;
use std::alloc::Global;

// The file of a storage, as it was read.
#[derive(Drop)]
pub(crate) struct Loaded {
    pub file: FormFile,
    pub bytes: Vec<u8>,
}

// Reads all files, in their order.
pub(crate) fn read_files<D: Dir>(
    alloc: Global,
    files: Vec<FormFile>,
    dir: &mut D,
) -> Result<Vec<Loaded>, OpenFault>
    requires { IfSome (D.files dir.old) (λ told. All (λ file. is_some (file_of told file.path) ≡ true) (map file_seen files.items)) }
    ensures read { IfOk result (λ loaded. files_of loaded.items ≡ map file_seen files.items) }
    ensures bytes { IfOk result (λ loaded. All (HasBytes (D.files dir.old)) loaded.items) }
    ensures lost { IfErr result (IsLost (D.files dir.old)) }
    ensures files { D.files dir.new ≡ D.files dir.old }
    ensures synced { D.synced dir.new ≡ D.synced dir.old }
    ensures cause { HasOpenCause (D.faults dir.old) (D.faults dir.new) result }
{
    let mut read = Vec::with_capacity(alloc, files.len())?;
    for file in files {
        read.push(read_file(file, dir)?)?;
    }
    Ok(read)
}

// Reads a file.
fn read_file<D: Dir>(file: FormFile, dir: &mut D) -> Result<Loaded, OpenFault>
    requires { IfSome (D.files dir.old) (λ told. is_some (file_of told (string_bytes file.name)) ≡ true) }
    ensures file { IfOk result (λ loaded. loaded.file ≡ file) }
    ensures bytes { IfOk result (HasBytes (D.files dir.old)) }
    ensures lost { IfErr result (IsLost (D.files dir.old)) }
    ensures files { D.files dir.new ≡ D.files dir.old }
    ensures synced { D.synced dir.new ≡ D.synced dir.old }
    ensures cause { HasOpenCause (D.faults dir.old) (D.faults dir.new) result }
{
    match dir.read(&file.name) {
        Ok(bytes) => Ok(Loaded { file, bytes }),
        Err(DirError::Missing) => Err(OpenFault::Gone { name: file.name }),
        Err(DirError::Failed) => Err(OpenFault::DirFault),
        Err(DirError::NoMemory) => Err(OpenFault::NoMemory),
    }
}
