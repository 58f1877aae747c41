//! What no clause says: that calls succeed, and what a folder of the system holds.
use crate::{Dir, DirError, FolderDir, MemDir};
use std::alloc::{AllocError, Global};
use std::fs;
use std::os::unix::fs::symlink;
use std::process::Abort;
use std::test::Fail;

const NAMES: [&str; 5] = ["b", "a/c", "a/bb", "a/b", "ab"];

fn files(alloc: Global) -> Result<Vec<(String, Vec<u8>)>, AllocError> {
    let mut files = Vec::new(alloc);
    for name in NAMES {
        files.push((
            String::from_str(alloc, name)?,
            name.as_bytes().to_vec(alloc)?,
        ))?;
    }
    Ok(files)
}

fn mem_dir(alloc: Global, failing: &[u64]) -> Result<MemDir, AllocError> {
    Ok(MemDir::new(files(alloc)?, failing.to_vec(alloc)?))
}

// Puts the names of a listing into one text.
fn listed<D: Dir>(alloc: Global, dir: &mut D, prefix: &str) -> Result<String, DirError> {
    let mut text = String::new(alloc);
    for name in dir.list(prefix)?.iter() {
        text.push_str(name)?;
        text.push(' ')?;
    }
    Ok(text)
}

// What any directory of the files above answers.
fn answers<R: Abort + AllocGlobal, D: Dir>(rt: &R, dir: &mut D) -> Result<(), DirError> {
    let table = [
        ("", "a/b a/bb a/c ab b "),
        ("a", "a/b a/bb a/c ab "),
        ("a/", "a/b a/bb a/c "),
        ("a/b", "a/b a/bb "),
        ("a/bb", "a/bb "),
        ("c", ""),
        ("a/b/", ""),
        ("../", ""),
        ("/", ""),
    ];
    for (prefix, names) in table {
        let text = listed(rt.alloc(), dir, prefix)?;
        assert_eq!(rt; text.as_str(), names, "prefix {prefix:?}");
    }
    for name in NAMES {
        assert_eq!(rt; dir.read(name)?.as_slice(), name.as_bytes(), "{name}");
    }
    let mut piece = *b"....";
    let table = [
        ("a/bb", 0, 4, "a/bb"),
        ("a/b", 0, 3, "a/b."),
        ("a/bb", 2, 2, "bb.."),
        ("a/bb", 4, 0, "...."),
        ("a/bb", 5, 0, "...."),
        ("a/bb", u64::MAX, 0, "...."),
    ];
    for (name, at, count, front) in table {
        piece = *b"....";
        assert_eq!(rt; dir.read_at(name, at, &mut piece)?, count, "{name} at {at}");
        assert_eq!(rt; piece.as_slice(), front.as_bytes(), "{name} at {at}");
    }
    for name in [
        "", "c", "a", "a/", "a/b/", "/b", "a//b", "./b", "a/../b", "b\0",
    ] {
        assert!(rt; dir.read(name) == Err(DirError::Missing), "{name:?}");
        assert_eq!(rt; dir.read_at(name, 0, &mut piece), Err(DirError::Missing));
    }
    Ok(())
}

#[test]
fn a_directory_in_memory_gives_its_files(rt: HostRuntime) -> Result<(), Fail> {
    let mut dir = mem_dir(rt.alloc(), &[])?;
    answers(&rt, &mut dir)?;
    dir.write("a/b", b"new")?;
    dir.write("x", b"")?;
    dir.sync()?;
    assert_eq!(rt; dir.read("a/b")?.as_slice(), b"new".as_slice());
    assert_eq!(rt; dir.read("x")?.len(), 0);
    assert_eq!(rt; dir.list("")?.len(), 6);
    Ok(())
}

// Five calls, one of each kind.
fn five_calls<D: Dir>(dir: &mut D) -> Result<usize, DirError> {
    let names = dir.list("a")?;
    let bytes = dir.read("b")?;
    let count = dir.read_at("ab", 0, &mut [0; 9])?;
    dir.write("new", b"123")?;
    dir.sync()?;
    Ok(names.len() + bytes.len() + count)
}

#[test]
fn a_directory_in_memory_fails_at_the_listed_calls(rt: HostRuntime) -> Result<(), Fail> {
    for number in 0..7 {
        let mut dir = mem_dir(rt.alloc(), &[9, number])?;
        let want = if number < 5 {
            Err(DirError::Failed)
        } else {
            Ok(7)
        };
        assert_eq!(rt; five_calls(&mut dir), want, "call {number}");
        assert_eq!(rt; dir.sync().is_ok(), number != 5, "call {number}");
    }
    Ok(())
}

#[test]
fn a_folder_gives_what_was_written(rt: HostRuntime) -> Result<(), Fail> {
    let _ = fs::remove_dir_all(&rt, "store");
    fs::create_dir(&rt, "store")?;
    let mut dir = FolderDir::new(&rt, "store")?;
    for name in NAMES {
        dir.write(name, b"longer than the name")?;
        dir.write(name, name.as_bytes())?;
    }
    answers(&rt, &mut dir)?;
    dir.sync()?;
    dir.sync()?;
    assert_eq!(rt; fs::read(&rt, "store/a/bb")?.as_slice(), b"a/bb".as_slice());

    for name in [
        "", "/x", "x/", "x//y", "../x", "x/..", "./x", "x/./y", "x\0", "a", "b/x",
    ] {
        assert_eq!(rt; dir.write(name, b"1"), Err(DirError::Failed), "{name:?}");
    }
    assert!(rt; !fs::exists(&rt, "x")? && !fs::exists(&rt, "store/x")?);
    dir.sync()?;
    answers(&rt, &mut dir)?;
    fs::remove_dir_all(&rt, "store")?;
    Ok(())
}

#[test]
fn a_folder_follows_no_link(rt: HostRuntime) -> Result<(), Fail> {
    for folder in ["inner", "outer"] {
        let _ = fs::remove_dir_all(&rt, folder);
        fs::create_dir(&rt, folder)?;
    }
    fs::write(&rt, "outer/file", b"1".as_slice())?;
    symlink(&rt, "../outer", "inner/folder")?;
    symlink(&rt, "../outer/file", "inner/link")?;
    let mut dir = FolderDir::new(&rt, "inner")?;
    for prefix in ["", "folder/", "folder/f"] {
        assert_eq!(rt; dir.list(prefix)?.len(), 0, "{prefix}");
    }
    for name in ["folder/file", "link"] {
        assert!(rt; dir.read(name) == Err(DirError::Missing), "{name}");
        assert_eq!(rt; dir.write(name, b"2"), Err(DirError::Failed), "{name}");
    }
    assert_eq!(rt; fs::read(&rt, "outer/file")?.as_slice(), b"1".as_slice());
    for folder in ["inner", "outer"] {
        fs::remove_dir_all(&rt, folder)?;
    }
    Ok(())
}

#[test]
fn a_folder_that_is_not_there_has_no_files(rt: HostRuntime) -> Result<(), Fail> {
    let mut dir = FolderDir::new(&rt, "nowhere")?;
    assert_eq!(rt; dir.list("")?.len(), 0);
    assert!(rt; dir.read("a") == Err(DirError::Missing));
    assert_eq!(rt; dir.write("a", b"1"), Err(DirError::Failed));
    Ok(())
}

#[test]
fn a_folder_syncs_what_was_written(rt: HostRuntime) -> Result<(), Fail> {
    let _ = fs::remove_dir_all(&rt, "synced");
    fs::create_dir(&rt, "synced")?;
    let mut dir = FolderDir::new(&rt, "synced")?;
    dir.write("a/b", b"1")?;
    dir.sync()?;
    dir.write("a/c", b"1")?;
    fs::remove_file(&rt, "synced/a/c")?;
    for _ in 0..2 {
        assert_eq!(rt; dir.sync(), Err(DirError::Failed));
        dir.write("a/c", b"1")?;
    }
    fs::remove_dir_all(&rt, "synced")?;
    Ok(())
}
