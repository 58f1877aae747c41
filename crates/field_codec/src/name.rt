// Names of the files of a snapshot.
ghost use Rattle.std.specs.Prelude.{◌≡◌, IfOk, string_bytes};
ghost use Rattle.field_codec.specs.Paths as paths;

use std::alloc::{AllocError, Global};
use text_fields::read_number;

/// What the names of all files of a snapshot begin with.
#[tactic(auto, unfolding(crate::specs::Paths::prefix_of))]
pub fn prefix_of(alloc: Global, name: &str) -> Result<String, AllocError>
    ensures { IfOk result (λ path. string_bytes path ≡ paths.prefix_of name.now) }
{
    format!(in alloc; "{name}/")
}

/// The name of the file of the version.
#[tactic(auto, unfolding(crate::specs::Paths::version_path))]
pub fn version_path(alloc: Global, name: &str) -> Result<String, AllocError>
    ensures { IfOk result (λ path. string_bytes path ≡ paths.version_path name.now) }
{
    format!(in alloc; "{name}/version")
}

/// The name of the file that is passed over unread.
#[tactic(auto, unfolding(crate::specs::Paths::status_path))]
pub fn status_path(alloc: Global, name: &str) -> Result<String, AllocError>
    ensures { IfOk result (λ path. string_bytes path ≡ paths.status_path name.now) }
{
    format!(in alloc; "{name}/snapshots/status_cache")
}

/// The name of the file of the manifest of a snapshot of this slot.
#[tactic(auto, unfolding(crate::specs::Paths::manifest_path))]
pub fn manifest_path(alloc: Global, name: &str, slot: u64) -> Result<String, AllocError>
    ensures { IfOk result (λ path. string_bytes path ≡ paths.manifest_path name.now slot) }
{
    format!(in alloc; "{name}/snapshots/{slot}/{slot}")
}

/// The name of the file of a slot's storage of this id.
#[tactic(auto, unfolding(crate::specs::Paths::storage_path))]
pub fn storage_path(alloc: Global, name: &str, slot: u64, id: u64) -> Result<String, AllocError>
    ensures { IfOk result (λ path. string_bytes path ≡ paths.storage_path name.now slot id) }
{
    format!(in alloc; "{name}/accounts/{slot}.{id}")
}

// The slot whose manifest's file this is, if it is one.
#[tactic(auto, unfolding(crate::specs::Paths::slot_of_path))]
pub(crate) fn slot_of_path(alloc: Global, name: &str, path: &str) -> Result<Option<u64>, AllocError>
    ensures { IfOk result (λ slot. slot ≡ paths.slot_of_path name.now path.now) }
{
    let Some(slot) = read_number(last_digits(path.as_bytes())) else {
        return Ok(None);
    };
    if path == manifest_path(alloc, name, slot)?.as_str() {
        Ok(Some(slot))
    } else {
        Ok(None)
    }
}

// The decimal digits that a path ends with.
fn last_digits(path: &[u8]) -> &[u8]
    ensures { result.now ≡ paths.last_digits path.now }
{
    let count = path
        .iter()
        .rev()
        .take_while(|byte| byte.is_ascii_digit())
        .count();
    let (_, digits) = path.split_at(path.len() - count);
    digits
}
