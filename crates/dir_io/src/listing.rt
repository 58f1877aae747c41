// The names of files below a folder of the system.
ghost use Rattle.std.specs.Prelude.{◌≢◌, None, IfOk, IfErr};
ghost use Rattle.dir_io.specs.Files.{texts, IsListing, AllBegin};
ghost use Rattle.dir_io.specs.declared.fault.DirError.TheVariants.{Missing};

use crate::DirError;
use crate::folder::{Kind, fault_of, find, is_absence};
use crate::names::{below, in_order};
use std::collections::BTreeSet;
use std::fs;
use std::fs::DirEntry;
use std::rt::Files;

// The names of all files below the folder that begin with the prefix, rising. Only what is below the prefix's folder is looked at.
pub(crate) fn list<R: Files + AllocGlobal + Clone + Drop>(
    rt: &R,
    base: &str,
    prefix: &str,
) -> Result<Vec<String>, DirError>
    ensures names { IfOk result (λ names. IsListing None prefix.now (texts names.items)) }
    ensures never_missing { IfErr result (λ error. error ≢ Missing) }
{
    let mut names = BTreeSet::new(rt.alloc());
    let mut folders = Vec::new(rt.alloc());
    if let Some(start) = start_of(rt, base, prefix)? {
        folders.push(start)?;
    }
    for _ in 0..u64::MAX {
        let Some(folder) = folders.pop() else {
            return Ok(in_order(rt.alloc(), names)?);
        };
        walk(rt, base, prefix, &folder, &mut names, &mut folders)?;
    }
    Err(DirError::Failed)
}

// The name of the prefix's folder, where there is such a folder. That of the folder itself is empty.
fn start_of<R: Files + AllocGlobal>(
    rt: &R,
    base: &str,
    prefix: &str,
) -> Result<Option<String>, DirError>
    ensures { IfErr result (λ error. error ≢ Missing) }
{
    let Some((folder, _)) = prefix.rsplit_once('/') else {
        return Ok(Some(String::new(rt.alloc())));
    };
    match find(rt, base, folder)? {
        (_, Kind::Folder) => Ok(Some(String::from_str(rt.alloc(), folder)?)),
        _ => Ok(None),
    }
}

// Puts the names of a folder's files among the names, and those of its folders among the folders.
fn walk<R: Files + AllocGlobal + Clone + Drop>(
    rt: &R,
    base: &str,
    prefix: &str,
    folder: &str,
    names: &mut BTreeSet<String>,
    folders: &mut Vec<String>,
) -> Result<(), DirError>
    ensures begin { AllBegin prefix.now names.old.keys → AllBegin prefix.now names.new.keys }
    ensures never_missing { IfErr result (λ error. error ≢ Missing) }
{
    let path = below(rt.alloc(), base, folder)?;
    let entries = match fs::read_dir(rt, &path) {
        Ok(entries) => entries,
        Err(error) if is_absence(&error) => return Ok(()),
        Err(error) => return Err(fault_of(&error)),
    };
    for entry in entries {
        match entry {
            Ok(entry) => visit(rt, &entry, prefix, folder, names, folders)?,
            Err(error) => return Err(fault_of(&error)),
        }
    }
    Ok(())
}

// Puts the name of a file or a folder where it belongs, if it begins with the prefix. Links and the like are passed over.
fn visit<R: Files + AllocGlobal>(
    rt: &R,
    entry: &DirEntry<R>,
    prefix: &str,
    folder: &str,
    names: &mut BTreeSet<String>,
    folders: &mut Vec<String>,
) -> Result<(), DirError>
    ensures begin { AllBegin prefix.now names.old.keys → AllBegin prefix.now names.new.keys }
    ensures never_missing { IfErr result (λ error. error ≢ Missing) }
{
    let name = below(rt.alloc(), folder, entry.file_name())?;
    if !name.as_bytes().starts_with(prefix.as_bytes()) {
        return Ok(());
    }
    match entry.file_type() {
        Ok(kind) if kind.is_dir() => folders.push(name)?,
        Ok(kind) if kind.is_file() => {
            names.insert(name)?;
        }
        Ok(_) => {}
        Err(error) => return Err(fault_of(&error)),
    }
    Ok(())
}
