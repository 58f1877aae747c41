ghost use Rattle.std.specs.Prelude.{◌≡◌};
ghost use Rattle.adb_model.specs.Lists.{last};
ghost use Rattle.book_parts.specs.Changes.{rooted_by};

use adb_model::Slot;
use view_sets::RootSet;

/// The newest root, where the slot isn't above it.
pub fn rooted_by(roots: &RootSet, slot: Slot) -> Option<Slot>
    ensures { result ≡ rooted_by roots.now slot }
{
    match newest(roots) {
        Some(newest) if slot <= newest => Some(newest),
        _ => None,
    }
}

/// The newest root.
pub fn newest(roots: &RootSet) -> Option<Slot>
    ensures { result ≡ last roots.now }
{
    roots.newest()
}
