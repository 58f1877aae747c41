ghost use Rattle.std.specs.Prelude.{◌≡◌, ◌<◌};
ghost use Rattle.slot_list.specs.Latest.{sees, IsLatest};
ghost use Rattle.accounts_index.specs.Index.{kept};

use accounts_index::{AccountsIndex, Steps};
use adb_model::{Account, Head, Key, Slot, View};
use slot_list::Version;
use std::marker::Brand;
use std::sync::Arc;
use std::sync::ledger::{Blank, Ledger};
use vec_scan::Sealed;
use view_sets::RootSet;

/// The version that a view sees of a key.
#[derive(Drop)]
pub struct Found {
    /// The slot in which it was stored.
    pub slot: Slot,
    pub at: FoundAt,
}

/// Where a version that was found stands.
#[derive(Drop)]
pub enum FoundAt {
    /// In the write cache; this is the account.
    Cached(Arc<Account>),
    /// In the image of the storage with this id, as the record at the offset.
    Stored {
        id: u64,
        sealed: Arc<Sealed>,
        offset: usize,
    },
}

/// An account that a view sees, read where it stands.
#[derive(Clone, Copy, Debug)]
pub struct Answer<'a> {
    /// The slot in which it was stored.
    pub slot: Slot,
    /// Its fields but for its data.
    pub head: Head,
    pub data: &'a [u8],
}

fn latest_by<L: Ledger>(
    index: &AccountsIndex,
    roots: &RootSet,
    view: &View,
    key: &Key,
    blank: Blank,
) -> Option<Version>
    requires name { blank.name ≡ L.name }
    requires parts { blank.parts ≡ L.parts }
    requires some { 0 < L.parts }
    ensures { IsLatest (sees view.now.ancestors roots.now view.now.max_root) (kept index.now key.now.0).versions result }
{
    let mut steps = Steps::<L>::new(blank);
    match index.find(key, &mut steps) {
        Some(list) => list.latest(view.ancestors(), roots, view.max_root()),
        None => None,
    }
}

/// The version of the greatest slot that a view sees and in which the key has one.
pub fn latest(index: &AccountsIndex, roots: &RootSet, view: &View, key: &Key) -> Option<Version>
    ensures { IsLatest (sees view.now.ancestors roots.now view.now.max_root) (kept index.now key.now.0).versions result }
{
    latest_by::<Brand>(index, roots, view, key, Blank::new(1))
}
