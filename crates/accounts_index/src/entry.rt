ghost use Rattle.std.specs.Prelude.{◌≡◌, ◌&&◌, ◌↔◌, IsTrue, nat_lt, length};
ghost use Rattle.std.specs.List.{list_any};
ghost use Rattle.accounts_index.specs.Index.{is_crowded, is_stored};

use adb_model::Key;
use slot_list::{Place, SlotList, Version};
use smallvec::SmallVec;

/// A key with what is kept of it, which stands in a box: the keys of a bin are close together, so that a search reads
/// and an insertion moves little.
#[derive(Drop)]
pub struct Entry {
    pub key: Key,
    pub lists: Box<Lists>,
}

/// What is kept of a key.
#[derive(Drop)]
pub struct Lists {
    pub list: SlotList,
    /// The slots in which the key will be held, each with room in `list`. The first one stands here itself, since most
    /// keys are in one flush at a time.
    pub expected: SmallVec<u64, 1>,
}

impl Entry {
    ghost use Rattle.accounts_index.specs.Inside.{IsUsed};

    /// Whether anything is kept of the key.
    pub fn is_used(&self) -> bool
        ensures { IsTrue result ↔ IsUsed self.now.lists.value }
    {
        !self.lists.list.versions().is_empty()
            || !self.lists.list.held().is_empty()
            || !self.lists.expected.is_empty()
    }

    pub fn has_versions(&self) -> bool
        ensures { result ≡ nat_lt 0 (length self.now.lists.value.list.versions) }
    {
        !self.lists.list.versions().is_empty()
    }

    /// Whether the key has two or more versions, or a stored one that is a tomb.
    pub fn is_crowded(&self) -> bool
        ensures { result ≡ is_crowded self.now.lists.value.list.versions }
    {
        self.lists.list.versions().len() > 1 || has_stored_tomb(self.lists.list.versions())
    }
}

fn has_stored_tomb(versions: &[Version]) -> bool
    ensures { result ≡ list_any (λ v. v.tomb && is_stored v.place) versions.now }
{
    versions
        .iter()
        .any(|version| version.tomb && is_stored(version.place))
}

fn is_stored(place: Place) -> bool
    ensures { result ≡ is_stored place }
{
    matches!(place, Place::Stored { .. })
}
