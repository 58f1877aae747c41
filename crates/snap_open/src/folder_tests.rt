//! A snapshot in a folder of the system.
ghost use Rattle.std.specs.Prelude.{◌≡◌, IfOk};

use crate::open_snapshot;
use dir_io::{Dir, FolderDir, MemDir};
use snap_write::write_snapshot;
use std::alloc::Global;
use std::fs;
use std::sync::Arc;
use std::test::Fail;
use vec_scan::{Sealed, seal};

// Storage 1 of slot 5, with 100 lamports under a key whose first byte is 2, and a byte of data.
fn storage(alloc: Global) -> Result<Arc<Sealed>, Fail>
    ensures { IfOk result (λ sealed. sealed.value.slot ≡ 5) }
{
    let mut file = vec![in alloc; 0; 137]?;
    for (at, byte) in [(8, 1), (16, 2), (48, 100), (136, 7)] {
        if let Some(place) = file.get_mut(at) {
            *place = byte;
        }
    }
    match seal(alloc, 5, 1, file, 137) {
        Ok(sealed) => Ok(Arc::new(alloc, sealed)?),
        Err(_) => Err("no image")?,
    }
}

// The names of the files; then the slot of the snapshot, the first byte of its first key, its rows and its bytes.
fn told<D: Dir>(alloc: Global, dir: &mut D) -> Result<String, Fail> {
    let Ok(names) = dir.list("") else {
        return Err("no listing")?;
    };
    let mut text = String::new(alloc);
    for name in names.iter() {
        text.push_str(name)?;
        text.push(' ')?;
    }
    let Ok((book, slot)) = open_snapshot(alloc, "s", 1000, dir) else {
        return Err("not opened")?;
    };
    let Some(key) = book.key_after(None) else {
        return Err("no key")?;
    };
    let first = key.0[0];
    let stats = book.stats();
    let rows = stats.named;
    let bytes = stats.bytes;
    text.push_str(&format!(in alloc; "{slot} {first} {rows} {bytes}")?)?;
    Ok(text)
}

#[test]
fn a_snapshot_in_a_folder_is_opened_again(rt: HostRuntime) -> Result<(), Fail> {
    let alloc = rt.alloc();
    let _ = fs::remove_dir_all(&rt, "snapshots");
    fs::create_dir(&rt, "snapshots")?;
    let mut storages = Vec::new(alloc);
    storages.push(storage(alloc)?)?;
    let mut folder = FolderDir::new(&rt, "snapshots")?;
    assert!(rt; write_snapshot(alloc, "s", 9, &storages, &mut folder).is_ok());
    let mut memory = MemDir::new(Vec::new(alloc), Vec::new(alloc));
    assert!(rt; write_snapshot(alloc, "s", 9, &storages, &mut memory).is_ok());

    let wanted = "s/accounts/5.1 s/snapshots/9/9 s/version 9 2 1 144";
    assert_eq!(rt; told(alloc, &mut folder)?.as_str(), wanted);
    assert_eq!(rt; told(alloc, &mut memory)?.as_str(), wanted);
    fs::remove_dir_all(&rt, "snapshots")?;
    Ok(())
}
