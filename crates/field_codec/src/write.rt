// Writing a manifest.
ghost use Rattle.std.specs.Prelude.{◌≡◌, ◌%◌, ◌++◌, All, IfOk, OnOk};
ghost use Rattle.std.specs.List.Sorted.{IsStrictlyIncreasing};
ghost use Rattle.field_codec.specs.Manifest.{Fits, IsManifest, content_of, entry_bytes, map_bytes, slots_of};
ghost use Rattle.field_codec.specs.Written.{written_manifest};

use crate::fields::{FieldStorage, Fields};
use std::alloc::{AllocError, Global};

/// The manifest of these fields. Zeros stand wherever readers skip, and both sequences are empty: fields have this
/// one written form.
///
/// # Errors
/// `AllocError` where there is no memory for the bytes.
pub fn encode_fields(alloc: Global, fields: &Fields) -> Result<Vec<u8>, AllocError>
    requires rise { IsStrictlyIncreasing (slots_of fields.now.storages.items) }
    requires lengths { All (λ s. s.len % 8 ≡ 0) fields.now.storages.items }
    ensures written { IfOk result (λ bytes. bytes.items ≡ written_manifest (content_of fields.now)) }
    ensures manifest { IfOk result (λ bytes. IsManifest bytes.items (content_of fields.now)) }
{
    let mut bytes = Vec::new(alloc);
    put_map(&mut bytes, &fields.storages)?;
    bytes.extend_from_slice(&[0; 8])?;
    bytes.extend_from_slice(&fields.slot.to_le_bytes())?;
    bytes.extend_from_slice(&[0; 104])?;
    bytes.extend_from_slice(&[0; 16])?;
    Ok(bytes)
}

// Adds the number of slots, and the numbers of each one.
fn put_map(bytes: &mut Vec<u8>, storages: &[FieldStorage]) -> Result<(), AllocError>
    ensures written { OnOk result (bytes.new.items ≡ bytes.old.items ++ map_bytes storages.now) }
    ensures fit { OnOk result (All Fits storages.now) }
{
    bytes.extend_from_slice(&(storages.len() as u64).to_le_bytes())?;
    for storage in storages {
        put_entry(bytes, storage)?;
    }
    Ok(())
}

// Adds the numbers of one slot.
fn put_entry(bytes: &mut Vec<u8>, storage: &FieldStorage) -> Result<(), AllocError>
    ensures written { OnOk result (bytes.new.items ≡ bytes.old.items ++ entry_bytes storage.now) }
    ensures fits { Fits storage.now }
{
    let FieldStorage { slot, id, len } = *storage;
    bytes.extend_from_slice(&slot.to_le_bytes())?;
    bytes.extend_from_slice(&1u64.to_le_bytes())?;
    bytes.extend_from_slice(&id.to_le_bytes())?;
    bytes.extend_from_slice(&len.to_le_bytes())
}
