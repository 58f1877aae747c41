// Files below a folder of the system.
ghost use Rattle.std.specs.Prelude.{◌≡◌, ◌≢◌, ◌<◌, ◌≤◌, length, not, IfOk, IfErr, OnOk, OnErr, IsTrue, true, string_cmp};
ghost use Rattle.std.specs.BTreeSet.{contains, Updates, IsUnchanged, IsSameSet, IsSubset};
ghost use Rattle.dir_io.specs.declared.fault.DirError.TheVariants.{Missing};

use crate::DirError;
use crate::names::is_proper;
use std::alloc::AllocError;
use std::collections::BTreeSet;
use std::fs::OpenFile;
use std::io::{ErrorKind, Read, Seek, SeekFrom, Write};
use std::rt::Files;
use std::{fs, io};

const LAST_OFFSET: u64 = (1 << 63) - 1;

// What stands at a path of the system, with no link followed.
#[derive(Clone, Copy, PartialEq, Eq)]
pub(crate) enum Kind {
    Nothing,
    Folder,
    File,
    Other,
}

// The error for what went wrong in the system, where there is a file.
pub(crate) fn fault_of(error: &io::Error) -> DirError
    ensures { result ≢ Missing }
{
    match error.kind() {
        ErrorKind::OutOfMemory => DirError::NoMemory,
        _ => DirError::Failed,
    }
}

// Nothing stands at the path.
pub(crate) fn is_absence(error: &io::Error) -> bool {
    matches!(error.kind(), ErrorKind::NotFound | ErrorKind::NotADirectory)
}

fn kind_at(rt: &impl Files, path: &str) -> Result<Kind, DirError>
    ensures { IfErr result (λ error. error ≢ Missing) }
{
    match fs::symlink_metadata(rt, path) {
        Ok(found) if found.is_dir() => Ok(Kind::Folder),
        Ok(found) if found.is_file() => Ok(Kind::File),
        Ok(_) => Ok(Kind::Other),
        Err(error) if is_absence(&error) => Ok(Kind::Nothing),
        Err(error) => Err(fault_of(&error)),
    }
}

// The path of a name below the folder, and what stands there: nothing where a part on the way is no folder.
pub(crate) fn find<R: Files + AllocGlobal>(
    rt: &R,
    base: &str,
    name: &str,
) -> Result<(String, Kind), DirError>
    ensures { IfErr result (λ error. error ≢ Missing) }
{
    let mut path = String::from_str(rt.alloc(), base)?;
    if !is_proper(name) {
        return Ok((path, Kind::Nothing));
    }
    let mut kind = Kind::Folder;
    for part in name.split('/') {
        if kind != Kind::Folder {
            return Ok((path, Kind::Nothing));
        }
        path.push('/')?;
        path.push_str(part)?;
        kind = kind_at(rt, &path)?;
    }
    Ok((path, kind))
}

fn open<R: Files + AllocGlobal>(rt: &R, base: &str, name: &str) -> Result<R::File, DirError> {
    match find(rt, base, name)? {
        (path, Kind::File) => match fs::open(rt, &path) {
            Ok(file) => Ok(file),
            Err(error) if is_absence(&error) => Err(DirError::Missing),
            Err(error) => Err(fault_of(&error)),
        },
        _ => Err(DirError::Missing),
    }
}

pub(crate) fn read<R: Files + AllocGlobal>(
    rt: &R,
    base: &str,
    name: &str,
) -> Result<Vec<u8>, DirError> {
    let mut file = open(rt, base, name)?;
    let mut bytes = Vec::new(rt.alloc());
    match file.read_to_end(&mut bytes) {
        Ok(_) => Ok(bytes),
        Err(error) => Err(fault_of(&error)),
    }
}

pub(crate) fn read_at<R: Files + AllocGlobal>(
    rt: &R,
    base: &str,
    name: &str,
    at: u64,
    into: &mut [u8],
) -> Result<usize, DirError>
    ensures { IfOk result (λ count. count ≤ length into.new) }
{
    let mut file = open(rt, base, name)?;
    if at > LAST_OFFSET {
        return Ok(0);
    }
    match file.seek(SeekFrom::Start(at)) {
        Ok(_) => fill(&mut file, into),
        Err(error) => Err(fault_of(&error)),
    }
}

// Reads until the piece is full or the file ends.
fn fill<F: Read>(file: &mut F, into: &mut [u8]) -> Result<usize, DirError>
    ensures { IfOk result (λ count. count ≤ length into.new) }
{
    let mut done = 0;
    while done < into.len() {
        match file.read(&mut into[done..]) {
            Ok(0) => break,
            Ok(count) => done += count,
            Err(error) => return Err(fault_of(&error)),
        }
    }
    Ok(done)
}

// Writes a file below the folder, and notes what has to be synced. The folders on the way are made where they are missing.
pub(crate) fn write<R: Files + AllocGlobal>(
    rt: &R,
    base: &str,
    name: &str,
    bytes: &[u8],
    written: &mut BTreeSet<String>,
) -> Result<(), DirError>
    ensures never_missing { IfErr result (λ error. error ≢ Missing) }
    ensures kept { IsSubset string_cmp written.old written.new }
    ensures noted { OnOk result (0 < length written.new.keys) }
{
    if !is_proper(name) {
        return Err(DirError::Failed);
    }
    let path = make_way(rt, base, name, written)?;
    match kind_at(rt, &path)? {
        Kind::Nothing | Kind::File => write_file(rt, &path, bytes, written),
        _ => Err(DirError::Failed),
    }
}

// The path of a name below the folder, whose folders on the way are made and noted.
fn make_way<R: Files + AllocGlobal>(
    rt: &R,
    base: &str,
    name: &str,
    written: &mut BTreeSet<String>,
) -> Result<String, DirError>
    ensures never_missing { IfErr result (λ error. error ≢ Missing) }
    ensures kept { IsSubset string_cmp written.old written.new }
{
    let mut path = String::from_str(rt.alloc(), base)?;
    let mut is_first = true;
    for part in name.split('/') {
        if !is_first {
            make_folder(rt, &path)?;
        }
        is_first = false;
        note(&path, written)?;
        path.push('/')?;
        path.push_str(part)?;
    }
    Ok(path)
}

fn make_folder(rt: &impl Files, path: &str) -> Result<(), DirError>
    ensures { IfErr result (λ error. error ≢ Missing) }
{
    match kind_at(rt, path)? {
        Kind::Folder => Ok(()),
        Kind::Nothing => match fs::create_dir(rt, path) {
            Ok(()) => Ok(()),
            Err(error) => Err(fault_of(&error)),
        },
        _ => Err(DirError::Failed),
    }
}

fn write_file(
    rt: &impl Files,
    path: &String,
    bytes: &[u8],
    written: &mut BTreeSet<String>,
) -> Result<(), DirError>
    ensures never_missing { IfErr result (λ error. error ≢ Missing) }
    ensures kept { IsSubset string_cmp written.old written.new }
    ensures noted { OnOk result (IsTrue (contains string_cmp written.new path.now)) }
{
    let mut file = create(rt, path, written)?;
    match file.write_all(bytes) {
        Ok(()) => Ok(()),
        Err(error) => Err(fault_of(&error)),
    }
}

// Makes a file, or empties the one that is there, and notes its path. It's noted first: else want of memory would leave a file
// that no sync looks at. Where no file is made a path that was new is taken out again, since a sync would fail at it.
fn create<R: Files>(
    rt: &R,
    path: &String,
    written: &mut BTreeSet<String>,
) -> Result<R::File, DirError>
    ensures never_missing { IfErr result (λ error. error ≢ Missing) }
    ensures noted { OnOk result (Updates string_cmp written.old written.new path.now true) }
    ensures err { OnErr result (IsSameSet string_cmp written.old written.new) }
{
    let is_new = note(path, written)?;
    match fs::create(rt, path) {
        Ok(file) => Ok(file),
        Err(error) => {
            if is_new {
                written.remove(path);
            }
            Err(fault_of(&error))
        }
    }
}

// Notes a path, and answers whether it is new.
fn note(path: &String, written: &mut BTreeSet<String>) -> Result<bool, AllocError>
    ensures new { IfOk result (λ is_new. is_new ≡ not (contains string_cmp written.old path.now)) }
    ensures noted { OnOk result (Updates string_cmp written.old written.new path.now true) }
    ensures err { OnErr result (IsUnchanged written.old written.new) }
{
    if written.contains(path) {
        return Ok(false);
    }
    Ok(written.insert(path.clone()?)?)
}

// Syncs a file or a folder.
pub(crate) fn sync(rt: &impl Files, path: &str) -> io::Result<()> {
    fs::open(rt, path)?.sync_all()
}
