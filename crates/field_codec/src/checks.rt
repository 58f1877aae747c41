// The checks of a form over names and a manifest's fields.
ghost use Rattle.std.specs.Prelude.{◌≡◌, ℕ, List, true, Ok, Err, IfOk, map, find, not, nat_lt, option_map, string_bytes};
ghost use Rattle.std.specs.BTreeSet.{contains_text};
ghost use Rattle.std.specs.List.Sorted.{IsStrictlyIncreasing};
ghost use Rattle.dir_io.specs.Files.{IsRising, is_among, texts};
ghost use Rattle.field_codec.specs.Manifest.{content_of, slots_of};
ghost use Rattle.field_codec.specs.Paths as paths;
ghost use Rattle.field_codec.specs.Forms as forms;
ghost use Rattle.field_codec.specs.FormFaults.{Given, PassesUnless, file_seen, form_seen};

use crate::fields::Fields;
use crate::form::{Form, FormFile};
use crate::form_fault::FormFault;
use crate::name::{manifest_path, slot_of_path, status_path, storage_path, version_path};
use crate::read::decode_fields;
use std::alloc::{AllocError, Global};
use std::collections::BTreeSet;

// The bytes are the text of the version, which a newline may follow.
pub(crate) fn is_version(bytes: &[u8]) -> bool
    ensures { result ≡ forms.is_version bytes.now }
{
    bytes == b"1.2.0".as_slice() || bytes == b"1.2.0\n".as_slice()
}

// The path is one of the names.
pub(crate) fn is_listed(names: &[String], path: &str) -> bool
    requires { IsRising (texts names.now) }
    ensures { result ≡ is_among (texts names.now) path.now }
{
    names
        .binary_search_by(|name| name.as_str().cmp(path))
        .is_ok()
}

// The slot of the one manifest.
pub(crate) fn one_manifest(alloc: Global, name: &str, names: &[String]) -> Result<u64, FormFault>
    ensures one { Given ⊥ (λ slot. slot) (λ found. found ≡ forms.one_slot (paths.manifest_slots name.now (texts names.now))) result }
    ensures listed { IfOk result (λ slot. is_among (texts names.now) (paths.manifest_path name.now slot) ≡ true) }
{
    let slots = manifest_slots(alloc, name, names)?;
    match slots.as_slice() {
        [] => Err(FormFault::NoManifest),
        [slot] => Ok(*slot),
        _ => Err(FormFault::ManyManifests { count: slots.len() }),
    }
}

// The slots of the manifests among the names.
fn manifest_slots(alloc: Global, name: &str, names: &[String]) -> Result<Vec<u64>, AllocError>
    ensures { IfOk result (λ slots. slots.items ≡ paths.manifest_slots name.now (texts names.now)) }
{
    let mut slots = Vec::new(alloc);
    for path in names {
        match slot_of_path(alloc, name, path)? {
            Some(slot) => slots.push(slot)?,
            None => {}
        }
    }
    Ok(slots)
}

// The form of a manifest, whose file is named for this slot, beside these names.
pub(crate) fn form_of(
    alloc: Global,
    name: &str,
    names: &[String],
    slot: u64,
    manifest: &[u8],
) -> Result<Form, FormFault>
    requires { IsRising (texts names.now) }
    ensures exact { Given ⊥ form_seen (forms.FindsAt name.now (texts names.now) slot manifest.now) result }
    ensures order { IfOk result (λ form. forms.IsInOrder (form_seen form)) }
{
    let fields = decode_fields(alloc, manifest)?;
    form_of_fields(alloc, name, names, slot, &fields)
}

// The form of what a manifest says.
fn form_of_fields(
    alloc: Global,
    name: &str,
    names: &[String],
    slot: u64,
    fields: &Fields,
) -> Result<Form, FormFault>
    requires names { IsRising (texts names.now) }
    requires slots { IsStrictlyIncreasing (slots_of fields.now.storages.items) }
    ensures exact { Given ⊥ form_seen (λ found. found ≡ forms.unless (forms.flaw_in name.now (texts names.now) slot (content_of fields.now)) (forms.form_in name.now (content_of fields.now))) result }
    ensures order { IfOk result (λ form. forms.IsInOrder (form_seen form)) }
{
    check_slots(slot, fields)?;
    let files = files_of(alloc, name, fields)?;
    check_listed(names, &files)?;
    check_known(alloc, name, names, fields, &files)?;
    Ok(Form {
        slot: fields.slot,
        files,
    })
}

// The manifest's file is named for its slot, and no slot of it is above.
fn check_slots(slot: u64, fields: &Fields) -> Result<(), FormFault>
    ensures { PassesUnless (forms.or_flaw (forms.mismatch slot (content_of fields.now)) (forms.above (content_of fields.now))) result }
{
    if slot != fields.slot {
        return Err(FormFault::SlotMismatch {
            name: slot,
            field: fields.slot,
        });
    }
    match first_above(fields) {
        Some(slot) => Err(FormFault::SlotAbove {
            slot,
            snapshot: fields.slot,
        }),
        None => Ok(()),
    }
}

// The least slot that is above the snapshot's.
fn first_above(fields: &Fields) -> Option<u64>
    ensures { result ≡ find (λ slot. nat_lt fields.now.slot slot) (slots_of fields.now.storages.items) }
{
    fields
        .storages
        .iter()
        .map(|storage| storage.slot)
        .find(|slot| *slot > fields.slot)
}

// The files of the storages.
fn files_of(alloc: Global, name: &str, fields: &Fields) -> Result<Vec<FormFile>, AllocError>
    ensures { IfOk result (λ files. map file_seen files.items ≡ map (forms.file_for name.now) fields.now.storages.items) }
{
    let mut files = Vec::new(alloc);
    for storage in &fields.storages {
        files.push(FormFile {
            slot: storage.slot,
            len: storage.len,
            name: storage_path(alloc, name, storage.slot, storage.id)?,
        })?;
    }
    Ok(files)
}

// Each file is among the names.
fn check_listed(names: &[String], files: &[FormFile]) -> Result<(), FormFault>
    requires { IsRising (texts names.now) }
    ensures { PassesUnless (forms.missing (texts names.now) (map (λ file. string_bytes file.name) files.now)) result }
{
    match first_missing(names, files) {
        Some(file) => Err(FormFault::NoFile {
            name: file.name.clone()?,
        }),
        None => Ok(()),
    }
}

// The first file whose name isn't among the names.
fn first_missing<'a>(names: &[String], files: &'a [FormFile]) -> Option<&'a FormFile>
    requires { IsRising (texts names.now) }
    ensures { option_map (λ file. file.now) result ≡ find (λ file. not (is_among (texts names.now) (string_bytes file.name))) files.now }
{
    for file in files {
        if !is_listed(names, &file.name) {
            return Some(file);
        }
    }
    None
}

// Each name is that of a file of the snapshot.
fn check_known(
    alloc: Global,
    name: &str,
    names: &[String],
    fields: &Fields,
    files: &[FormFile],
) -> Result<(), FormFault>
    ensures { PassesUnless (forms.unknown (forms.known_with name.now fields.now.slot (map (λ file. string_bytes file.name) files.now)) (texts names.now)) result }
{
    let paths = known_paths(alloc, name, fields.slot, files)?;
    let known = set_of(alloc, &paths)?;
    match first_unknown(&known, names) {
        Some(name) => Err(FormFault::UnknownFile {
            name: name.clone()?,
        }),
        None => Ok(()),
    }
}

// The names that the files of the snapshot may have.
fn known_paths(
    alloc: Global,
    name: &str,
    slot: u64,
    files: &[FormFile],
) -> Result<Vec<String>, AllocError>
    ensures { IfOk result (λ paths. texts paths.items ≡ forms.known_with name.now slot (map (λ file. string_bytes file.name) files.now)) }
{
    let mut paths = Vec::new(alloc);
    paths.push(version_path(alloc, name)?)?;
    paths.push(status_path(alloc, name)?)?;
    paths.push(manifest_path(alloc, name, slot)?)?;
    for file in files {
        paths.push(file.name.clone()?)?;
    }
    Ok(paths)
}

// The first name that isn't in the set.
fn first_unknown<'a>(known: &BTreeSet<String>, names: &'a [String]) -> Option<&'a String>
    ensures { option_map (λ name. name.now) result ≡ find (λ name. not (contains_text known.now (string_bytes name))) names.now }
{
    names.iter().find(|name| !known.contains(*name))
}

// The set of these names.
fn set_of(alloc: Global, names: &[String]) -> Result<BTreeSet<String>, AllocError>
    ensures { IfOk result (λ set. (path : List ℕ) → contains_text set path ≡ is_among (texts names.now) path) }
{
    let mut set = BTreeSet::new(alloc);
    for name in names {
        set.insert(name.clone()?)?;
    }
    Ok(set)
}
