// The images of storages.
ghost use Rattle.std.specs.Prelude.{◌≡◌, ◌<◌, IfOk, IfErr};
ghost use Rattle.snap_open.specs.Images.{AreSealed, IsFileFault, IsFilesFault, IsStorage};

use crate::fault::OpenFault;
use crate::reading::Loaded;
use adb_model::Slot;
use std::alloc::Global;
use vec_scan::{LayoutFault, Sealed, seal};

// What the files of storages are.
#[derive(Drop)]
pub(crate) struct Images {
    // The images that have rows, by rising slot, with the ids 1, 2, and so on.
    pub storages: Vec<Sealed>,

    // The slots of those that have none.
    pub without_rows: Vec<Slot>,
}

// Checks that each file is an image, and keeps their bytes.
pub(crate) fn seal_files(alloc: Global, files: Vec<Loaded>) -> Result<Images, OpenFault>
    ensures sealed { IfOk result (λ images. AreSealed files.items images.storages.items images.without_rows.items) }
    ensures refused { IfErr result (IsFilesFault files.items) }
{
    let mut storages = Vec::new(alloc);
    let mut without_rows = Vec::new(alloc);
    for loaded in files {
        if loaded.file.len == 0 {
            without_rows.push(loaded.file.slot)?;
        } else {
            let id = storages.len() as u64 + 1;
            storages.push(seal_file(alloc, id, loaded)?)?;
        }
    }
    Ok(Images {
        storages,
        without_rows,
    })
}

// The storage that a file is.
fn seal_file(alloc: Global, id: u64, loaded: Loaded) -> Result<Sealed, OpenFault>
    requires { 0 < loaded.file.len }
    ensures storage { IfOk result (IsStorage id loaded) }
    ensures refused { IfErr result (IsFileFault loaded) }
{
    let Loaded { file, bytes } = loaded;
    match seal(alloc, file.slot, id, bytes, file.len) {
        Ok(sealed) => Ok(sealed),
        Err(LayoutFault::NoMemory) => Err(OpenFault::NoMemory),
        Err(fault) => Err(OpenFault::Layout {
            name: file.name,
            fault,
        }),
    }
}
