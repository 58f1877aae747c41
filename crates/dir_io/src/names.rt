// Names of files.
ghost use Rattle.std.specs.Prelude.{◌≡◌, IfOk, string_cmp};
ghost use Rattle.std.specs.List.Sorted.{IsStrictlySortedBy};

use std::alloc::{AllocError, Global};
use std::collections::BTreeSet;

// The names of a set, rising.
pub(crate) fn in_order(alloc: Global, names: BTreeSet<String>) -> Result<Vec<String>, AllocError>
    ensures all { IfOk result (λ all. all.items ≡ names.keys) }
    ensures rising { IsStrictlySortedBy string_cmp names.keys }
{
    names.into_iter().collect(alloc)
}

// The name leads to a place below its folder: no part is empty or a step, and no byte is NUL.
pub(crate) fn is_proper(name: &str) -> bool {
    for part in name.split('/') {
        if part.is_empty() || part == "." || part == ".." {
            return false;
        }
    }
    !name.as_bytes().contains(&0)
}

// The name of what stands in a folder; that of the outermost folder is empty.
pub(crate) fn below(alloc: Global, folder: &str, name: &str) -> Result<String, AllocError> {
    let mut path = String::from_str(alloc, folder)?;
    if !folder.is_empty() && !name.is_empty() {
        path.push('/')?;
    }
    path.push_str(name)?;
    Ok(path)
}
