ghost use Rattle.std.specs.Prelude.{◌≡◌, ◌≢◌, ◌≤◌, ◌++◌, ℕ, List, None, length, min, map, All, AllPairs, Contains};
ghost use Rattle.std.specs.declared.cmp.Ordering.TheVariants.{Less};
ghost use Rattle.adb_model.specs.State.{State};
ghost use Rattle.adb_model.specs.Call as machine;
ghost use Rattle.adb_model.specs.History.{state_after};
ghost use Rattle.book_parts.specs.Stands.{Stands};
ghost use Rattle.book.specs.Listing.{HaveAnswers, AreKept, IsSeen};

use crate::book::Book;
use crate::loading::Answer;
use accounts_index::Iter;
use adb_model::{Key, View};
use arrayvec::ArrayVec;
use slot_list::Version;
use std::marker::Model;

/// How many keys are read at once. Their accounts stand in different places of the memory, so that reading one
/// goes on while others are waited for.
pub const BATCH: usize = 32;

/// Some keys by rising key, each with the account that a view sees of it, if it sees one.
pub type Batch<'a> = ArrayVec<(Key, Option<Answer<'a>>), 32>;

/// The keys of a book by rising key, each with what a view sees of it, read where it stands while the book is
/// held still. Nothing is pinned, and no memory is taken.
///
/// Contracts see the book, the view, and the keys that are still to come.
#[derive(Drop)]
pub struct Accounts<'a> {
    book: &'a Book,
    view: &'a View,
    keys: Iter<'a>,
}

impl<'a> Model for Accounts<'a> {
    ghost use Rattle.std.specs.Prelude.{◌≤◌, map};
    ghost use Rattle.book.specs.Listing.{Listing, AreKept};

    ghost Value = { Listing };

    ghost view = { λ a. record { book = a.book.now; view = a.view.now; keys = map (λ e. e.0) a.keys } };

    ghost invariant = { λ a. (a.book.now.cleaned ≤ a.view.now.max_root) × AreKept a.book.now.index a.keys };
}

impl<'a> Accounts<'a> {
    pub(crate) fn new(book: &'a Book, view: &'a View, keys: Iter<'a>) -> Accounts<'a>
        requires new { book.now.cleaned ≤ view.now.max_root }
        requires kept { AreKept book.now.index keys }
        ensures book { result.book ≡ book.now }
        ensures view { result.view ≡ view.now }
        ensures keys { result.keys ≡ map (λ e. e.0) keys.entry }
    {
        Accounts { book, view, keys }
    }

    /// Puts the next keys into a batch, in place of what it had, each with what the view sees of it: 32 of them, or
    /// as many as are still to come.
    pub fn read_on(&mut self, into: &mut Batch<'a>)
        ensures book { self.new.book ≡ self.old.book }
        ensures view { self.new.view ≡ self.old.view }
        ensures next { self.old.keys ≡ map (λ r. r.0.0) into.new.items ++ self.new.keys }
        ensures many { length into.new.items ≡ min 32 (length self.old.keys) }
        ensures answers { (m0 : State) (h : List machine.Event) → Stands self.old.book m0 h
            → HaveAnswers (state_after m0 h) self.old.view into.new.items }
    {
        let (book, view) = (self.book, self.view);
        let found = find_on(book, view, &mut self.keys);
        into.clear();
        for (key, seen) in found.as_slice() {
            into.push((*key, book.read(key, *seen)));
        }
    }
}

/// The next keys, as many as a batch has, each with the version that a view sees of it.
fn find_on(book: &Book, view: &View, keys: &mut Iter<'_>) -> ArrayVec<(Key, Option<Version>), 32>
    requires { AreKept book.now.index keys.old }
    ensures next { map (λ e. e.0) keys.old ≡ map (λ f. f.0.0) result.items ++ map (λ e. e.0) keys.new }
    ensures kept { AreKept book.now.index keys.new }
    ensures seen { All (λ f. IsSeen book.now view.now f.0.0 f.1) result.items }
    ensures many { length result.items ≡ min 32 (length keys.old) }
{
    let mut found = ArrayVec::new();
    while found.len() < BATCH {
        let Some((key, list)) = keys.next() else {
            return found;
        };
        found.push((*key, book.latest_of(view, list)));
    }
    found
}
