// A directory in memory.
ghost use Rattle.std.specs.Prelude.{◌≡◌, ◌≤◌, ◌↔◌, true, false, Some, IfOk, OnOk, OnErr, IsErrOf, IsTrue, length, option_map, string_bytes};
ghost use Rattle.std.specs.Io.{ReadsAtMost};
ghost use Rattle.std.specs.List.{position};
ghost use Rattle.std.specs.Str.{bytes_eq};
ghost use Rattle.stream_io.specs.Doubles.{no_calls, IsListed};
ghost use Rattle.dir_io.specs.Files.{texts, file_of, IsListing, IsFile, IsPiece, IsPieceOf, LeavesOthers, IsWith};
ghost use Rattle.dir_io.specs.Faults.{HasCause, MissingIffNone, is_missing, is_failed};
ghost use Rattle.dir_io.specs.Doubles.{called};
ghost use Rattle.dir_io.specs.Kept.{seen};

use crate::names::in_order;
use crate::{Dir, DirError};
use std::alloc::AllocError;
use std::collections::BTreeSet;
use std::marker::Model;
use stream_io::FailingCalls;

/// A directory of given files, which fails at the calls whose numbers, from 0, are listed.
#[derive(Drop)]
pub struct MemDir {
    files: Vec<(String, Vec<u8>)>,
    calls: FailingCalls,
    // Whether no file was written since the last sync that was done.
    is_synced: bool,
}

impl Model for MemDir {
    ghost use Rattle.dir_io.specs.Doubles.{DirState};
    ghost use Rattle.dir_io.specs.Kept.{seen};

    ghost Value = { DirState };

    ghost view = { λ d. record { files = seen d.files.items; calls = d.calls; synced = d.is_synced } };
}

impl MemDir {
    /// A directory of these files. Of two with one name the first counts.
    pub fn new(files: Vec<(String, Vec<u8>)>, failing: Vec<u64>) -> MemDir
        ensures files { result.files ≡ seen files.items }
        ensures calls { result.calls ≡ no_calls failing.items }
        ensures synced { result.synced ≡ true }
    {
        MemDir {
            files,
            calls: FailingCalls::new(failing),
            is_synced: true,
        }
    }
}

impl Dir for MemDir {
    ghost files = { λ d. Some d.files };

    ghost faults = { λ d. d.calls.faults };

    ghost synced = { λ d. d.synced };

    fn list(&mut self, prefix: &str) -> Result<Vec<String>, DirError>
        ensures names { IfOk result (λ names. IsListing (Some self.old.files) prefix.now (texts names.items)) }
        ensures files { Some self.new.files ≡ Some self.old.files }
        ensures synced { self.new.synced ≡ self.old.synced }
        ensures never_missing { is_missing result ≡ false }
        ensures cause { HasCause self.old.calls.faults self.new.calls.faults result }

        ensures fails { (is_failed result ≡ true) ↔ IsListed self.old.calls }
        ensures calls { self.new.calls ≡ called self.old.calls result }
        ensures left { self.new.files ≡ self.old.files }
    {
        self.calls.make(false)?;
        Ok(names_with(&self.files, prefix)?)
    }

    fn read(&mut self, name: &str) -> Result<Vec<u8>, DirError>
        ensures bytes { IfOk result (λ bytes. IsFile (Some self.old.files) name.now bytes.items) }
        ensures files { Some self.new.files ≡ Some self.old.files }
        ensures synced { self.new.synced ≡ self.old.synced }
        ensures missing { MissingIffNone (Some self.old.files) name.now result }
        ensures cause { HasCause self.old.calls.faults self.new.calls.faults result }

        ensures fails { (is_failed result ≡ true) ↔ IsListed self.old.calls }
        ensures calls { self.new.calls ≡ called self.old.calls result }
        ensures left { self.new.files ≡ self.old.files }
    {
        self.calls.make(false)?;
        let Some(bytes) = bytes_of(&self.files, name) else {
            return Err(DirError::Missing);
        };
        Ok(bytes.to_vec(*self.files.allocator())?)
    }

    fn read_at(&mut self, name: &str, at: u64, into: &mut [u8]) -> Result<usize, DirError>
        ensures bound { ReadsAtMost result into.new }
        ensures piece { IfOk result (λ count. IsPieceOf (Some self.old.files) name.now at count into.old into.new) }
        ensures files { Some self.new.files ≡ Some self.old.files }
        ensures synced { self.new.synced ≡ self.old.synced }
        ensures missing { MissingIffNone (Some self.old.files) name.now result }
        ensures cause { HasCause self.old.calls.faults self.new.calls.faults result }

        ensures fails { (is_failed result ≡ true) ↔ IsListed self.old.calls }
        ensures calls { self.new.calls ≡ called self.old.calls result }
        ensures left { self.new.files ≡ self.old.files }
        ensures err { OnErr result (into.new ≡ into.old) }
    {
        self.calls.make(false)?;
        let Some(bytes) = bytes_of(&self.files, name) else {
            return Err(DirError::Missing);
        };
        Ok(copy_piece(bytes, at, into))
    }

    /// After want of memory all files stay.
    fn write(&mut self, name: &str, bytes: &[u8]) -> Result<(), DirError>
        ensures written { OnOk result (IsFile (Some self.new.files) name.now bytes.now) }
        ensures others { LeavesOthers (Some self.old.files) (Some self.new.files) name.now }
        ensures synced { IsTrue self.new.synced → IsTrue self.old.synced }
        ensures never_missing { is_missing result ≡ false }
        ensures cause { HasCause self.old.calls.faults self.new.calls.faults result }

        ensures fails { (is_failed result ≡ true) ↔ IsListed self.old.calls }
        ensures calls { self.new.calls ≡ called self.old.calls result }
        ensures with { OnOk result (IsWith self.old.files self.new.files name.now bytes.now) }
        ensures held { OnOk result (self.new.synced ≡ false) }
        ensures err { OnErr result ((self.new.files ≡ self.old.files) × (self.new.synced ≡ self.old.synced)) }
    {
        self.calls.make(false)?;
        put_file(&mut self.files, name, bytes)?;
        self.is_synced = false;
        Ok(())
    }

    fn sync(&mut self) -> Result<(), DirError>
        ensures files { Some self.new.files ≡ Some self.old.files }
        ensures synced { OnOk result (IsTrue self.new.synced) }
        ensures only_failed { OnErr result (IsErrOf result DirError.Failed) }
        ensures cause { HasCause self.old.calls.faults self.new.calls.faults result }

        ensures fails { (is_failed result ≡ true) ↔ IsListed self.old.calls }
        ensures calls { self.new.calls ≡ called self.old.calls result }
        ensures left { self.new.files ≡ self.old.files }
        ensures err { OnErr result (self.new.synced ≡ self.old.synced) }
    {
        self.calls.make(false)?;
        self.is_synced = true;
        Ok(())
    }
}

// Copies the bytes from a place on to the front of the piece.
fn copy_piece(bytes: &[u8], at: u64, into: &mut [u8]) -> usize
    ensures bound { result ≤ length into.new }
    ensures piece { IsPiece bytes.now at result into.old into.new }
{
    let from = bytes.len().min(at as usize);
    let (_, rest) = bytes.split_at(from);
    let count = into.len().min(rest.len());
    let (front, _) = rest.split_at(count);
    into[..count].copy_from_slice(front);
    count
}

// The bytes of the first file of this name.
fn bytes_of<'a>(files: &'a [(String, Vec<u8>)], name: &str) -> Option<&'a [u8]>
    ensures { option_map (λ bytes. bytes.now) result ≡ file_of (seen files.now) name.now }
{
    match place_of(files, name) {
        Some(place) => Some(&files[place].1),
        None => None,
    }
}

// The names with this prefix, rising.
fn names_with(files: &Vec<(String, Vec<u8>)>, prefix: &str) -> Result<Vec<String>, AllocError>
    ensures { IfOk result (λ names. IsListing (Some (seen files.now.items)) prefix.now (texts names.items)) }
{
    let alloc = *files.allocator();
    let mut names = BTreeSet::new(alloc);
    for file in files {
        if file.0.as_bytes().starts_with(prefix.as_bytes()) {
            names.insert(file.0.clone()?)?;
        }
    }
    in_order(alloc, names)
}

// Puts the bytes in place of those of the first file of this name, or makes one.
fn put_file(files: &mut Vec<(String, Vec<u8>)>, name: &str, bytes: &[u8]) -> Result<(), AllocError>
    ensures with { OnOk result (IsWith (seen files.old.items) (seen files.new.items) name.now bytes.now) }
    ensures err { OnErr result (files.new.items ≡ files.old.items) }
{
    let alloc = *files.allocator();
    let copy = bytes.to_vec(alloc)?;
    match place_of(files, name) {
        Some(place) => files[place].1 = copy,
        None => files.push((String::from_str(alloc, name)?, copy))?,
    }
    Ok(())
}

// Where the first file of this name stands.
fn place_of(files: &[(String, Vec<u8>)], name: &str) -> Option<usize>
    ensures { result ≡ position (λ f. bytes_eq (string_bytes f.0) name.now) files.now }
{
    files.iter().position(|file| file.0.as_str() == name)
}
