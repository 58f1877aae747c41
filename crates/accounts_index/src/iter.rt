ghost use Rattle.std.specs.Prelude.{◌≡◌, ◌++◌, ◌∷◌, [], length, flat_map, MatchOption};
ghost use Rattle.std.specs.Slice.Iter.{iter_rest};
ghost use Rattle.std.specs.Iterator.{at_most};
ghost use Rattle.std.specs.Map.Iter.{TakesFirst};
ghost use Rattle.accounts_index.specs.Bins.{joined};
ghost use Rattle.accounts_index.specs.Index.{shown, versions_of};
ghost use Rattle.accounts_index.specs.Inside.{bins_left};

use crate::bin::Bin;
use crate::entry::Entry;
use adb_model::Key;
use slot_list::SlotList;
use std::marker::Model;
use std::slice;

/// The keys of an index by rising key, each with its list. It is seen as those that are left, with their versions.
#[derive(Drop)]
pub struct Iter<'a> {
    /// What is left of the bin in hand.
    entries: slice::Iter<'a, Entry>,
    /// What is left of the group in hand, after this bin.
    bins: slice::Iter<'a, Bin>,
    groups: slice::Iter<'a, Vec<Bin>>,
}

impl<'a> Model for Iter<'a> {
    ghost use Rattle.std.specs.Prelude.{◌++◌, ℕ, List};
    ghost use Rattle.std.specs.Slice.Iter.{iter_rest};
    ghost use Rattle.slot_list.specs.declared.Version.{Version};
    ghost use Rattle.accounts_index.specs.Bins.{joined};
    ghost use Rattle.accounts_index.specs.Index.{versions_of};
    ghost use Rattle.accounts_index.specs.Inside.{seen, bins_left};

    ghost Value = { List (List ℕ × List Version) };

    ghost view = { λ i. versions_of (seen (iter_rest i.entries) ++ joined (bins_left (iter_rest i.bins) (iter_rest i.groups))) };
}

impl<'a> Iter<'a> {
    pub(crate) fn new(groups: &'a [Vec<Bin>]) -> Iter<'a>
        ensures { result ≡ versions_of (joined (bins_left [] groups.now)) }
    {
        Iter {
            entries: [].iter(),
            bins: [].iter(),
            groups: groups.iter(),
        }
    }
}

impl<'a> Iterator for Iter<'a> {
    type Item = (&'a Key, &'a SlotList);

    ghost next_gives = { TakesFirst shown };

    ghost remaining = { λ s. at_most (length s) };

    fn next(&mut self) -> Option<(&'a Key, &'a SlotList)> {
        loop {
            if let Some(entry) = self.entries.next() {
                return Some((&entry.key, &entry.lists.list));
            }
            self.entries = next_bin(&mut self.bins, &mut self.groups)?.entries();
        }
    }
}

/// The next bin of the group in hand, or of the groups after it.
fn next_bin<'a>(
    bins: &mut slice::Iter<'a, Bin>,
    groups: &mut slice::Iter<'a, Vec<Bin>>,
) -> Option<&'a Bin>
    ensures { MatchOption result
        ((bins_left (iter_rest bins.old) (iter_rest groups.old) ≡ []) × (bins_left (iter_rest bins.new) (iter_rest groups.new) ≡ []))
        (λ bin. bins_left (iter_rest bins.old) (iter_rest groups.old) ≡ bin.now ∷ bins_left (iter_rest bins.new) (iter_rest groups.new)) }
{
    loop {
        if let Some(bin) = bins.next() {
            return Some(bin);
        }
        *bins = groups.next()?.iter();
    }
}
