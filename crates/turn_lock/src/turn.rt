// The turn, and the calls of those who take it.
use crate::numbers::{MOST, Numbers};
use crate::pass::{Hold, Pass};
use crate::refusals::{Busy, NoMemory, TooManyPasses};
use crate::rule::{Counted, InTurn, Knows};
use crate::standing::{Adds, Standing};
use crate::steps;
use crate::waits::{self, Sleepers};
use atomic_table::{Refused, Table};
use std::alloc::Global;
use std::marker::{Brand, Model};
use std::snapshot::Snapshot;
use std::sync::Wait;

/// A value that callers take in turn. Contracts see it as its identity, and the value that it was made with.
#[derive(Drop)]
pub struct Turn<V: Standing> {
    table: Table<Option<Box<Counted<V>>>, Knows<V::Entry>, Snapshot<V>, InTurn, Global>,
    sleepers: Sleepers,
}

impl<V: Standing> Model for Turn<V> {
    ghost use Rattle.std.specs.Prelude.{◌≡◌};
    ghost use Rattle.turn_lock.specs.Passes.{TurnState};

    ghost Value = { TurnState V };

    ghost view = { λ t. record { id = t.table.shared.table_id; start = t.table.shared.key.value } };

    ghost invariant = { λ t. (t.table.shared.table_id.words ≡ 2) × (t.table.shared.table_id.slots ≡ 1) };
}

impl<V: Standing> Turn<V> {
    ghost use Rattle.std.specs.Prelude.{◌≡◌, ◌≢◌, ◌⊎◌, ◌↔◌, ◌+◌, ◌<◌, ◌++◌, [], length, IsErr, IfOk, IfErr};
    ghost use Rattle.std.specs.List.{All};
    ghost use Rattle.turn_lock.specs.Passes.{first_pass, mine_of, IsWhole, Enters, refused, seeing, kept_part, new_part, joined, Joins};

    /// A turn over a value that stands for the empty list, with its first pass, which has number 1 and every other
    /// number in its stock. Where there is no memory for the words and the slot, the value comes back.
    pub fn new(alloc: Global, value: V) -> Result<(Turn<V>, Pass<V>), (V, NoMemory)>
        requires stands { V.stands value [] value }
        ensures start { IfOk result (λ r. r.0.start ≡ value) }
        ensures pass { IfOk result (λ r. r.1 ≡ first_pass r.0.id) }
        ensures err { IfErr result (λ e. e.0 ≡ value) }
    {
        let key = Snapshot::of(&value);
        let counted = match Box::new(alloc, Counted { value, count: 0 }) {
            Ok(counted) => counted,
            Err(refused) => return Err((refused.value.value, NoMemory)),
        };
        let Ok(mut slots) = Vec::with_capacity(alloc, 1) else {
            return Err((Box::into_inner(counted).value, NoMemory));
        };
        slots.push_reserved(Some(counted));
        match Table::new(alloc, &[0, 0], slots, &key) {
            Ok((table, seat)) => Ok((
                Turn {
                    table,
                    sleepers: Sleepers::new(),
                },
                Pass {
                    numbers: Numbers::first(),
                    seat,
                },
            )),
            Err(Refused { mut slots }) => {
                let Some(Some(counted)) = slots.pop() else {
                    unreachable!()
                };
                slots.destroy_empty();
                Err((Box::into_inner(counted).value, NoMemory))
            }
        }
    }

    /// Waits for the pass's turn, and takes the value. It stands for the list that the pass has then seen, which begins
    /// with all that the pass had seen before.
    #[inline]
    pub fn enter<R: Wait>(&self, rt: &R, pass: Pass<V>) -> Hold<V>
        requires here { pass.turn ≡ self.now.id }
        ensures stands { V.stands self.now.start result.pass.seen result.value }
        ensures enters { Enters V.bears pass result.pass }
    {
        let Pass { numbers, mut seat } = pass;
        let words = &self.table.shared;
        let (counted, ticket) = match steps::take::<V, Brand>(words, &mut seat) {
            Ok(taken) => taken,
            Err(_) => waits::wait::<V, Brand, R>(rt, words, &self.sleepers, &mut seat),
        };
        Hold {
            counted,
            ticket,
            numbers,
            seat,
        }
    }

    /// Takes the turn at once, where nobody has it or waits for it. It never waits.
    ///
    /// Else the pass comes back, after one look at the ticket that is served and one exchange that found another ticket
    /// to be the next.
    pub fn try_enter(&self, pass: Pass<V>) -> Result<Hold<V>, (Pass<V>, Busy)>
        requires here { pass.turn ≡ self.now.id }
        ensures stands { IfOk result (λ h. V.stands self.now.start h.pass.seen h.value) }
        ensures enters { IfOk result (λ h. Enters V.bears pass h.pass) }
        ensures busy { IfErr result (λ e. (e.0 ≡ refused pass e.1.serving e.1.ticket) × (e.1.ticket ≢ e.1.serving)) }
    {
        let Pass { numbers, mut seat } = pass;
        let words = &self.table.shared;
        match steps::take::<V, Brand>(words, &mut seat) {
            Ok((counted, ticket)) => Ok(Hold {
                counted,
                ticket,
                numbers,
                seat,
            }),
            Err(busy) => Err((Pass { numbers, seat }, busy)),
        }
    }

    /// Ends a hold that added so many entries, and passes the turn on. `M` names the entries.
    #[inline]
    pub fn leave<M: Adds<V::Entry>>(&self, hold: Hold<V>, added: u64) -> Pass<V>
        requires here { hold.pass.turn ≡ self.now.id }
        requires added { length M.added ≡ added }
        requires own { All (λ e. V.bears e ≡ hold.pass.number) M.added }
        requires stands { V.stands self.now.start (hold.pass.seen ++ M.added) hold.value }
        ensures pass { result ≡ seeing hold.pass M.added }
        ensures mine { mine_of V.bears result ≡ mine_of V.bears hold.pass ++ M.added }
    {
        let Hold {
            mut counted,
            ticket,
            numbers,
            mut seat,
        } = hold;
        counted.count = counted.count.saturating_add(added);
        let words = &self.table.shared;
        steps::pass_on::<V, M>(words, &mut seat, counted, ticket);
        waits::wake(words, &self.sleepers);
        Pass { numbers, seat }
    }

    /// Makes a second pass, with the least number of the stock. Its own stock is the last `share` numbers of the stock,
    /// it has seen what the first has, and no entry is its own. Where the stock is empty, the pass comes back.
    pub fn split(
        &self,
        pass: Pass<V>,
        share: u64,
    ) -> Result<(Pass<V>, Pass<V>), (Pass<V>, TooManyPasses)>
        requires here { pass.turn ≡ self.now.id }
        requires share { (share ≡ 0) ⊎ (share < pass.stock.1) }
        ensures cause { IsErr result ↔ (pass.stock.1 ≡ 0) }
        ensures old { IfOk result (λ r. r.0 ≡ kept_part pass share) }
        ensures new { IfOk result (λ r. (r.1 ≡ new_part pass share) × (mine_of V.bears r.1 ≡ [])) }
        ensures err { IfErr result (λ e. (e.0 ≡ pass) × (e.1.most ≡ 65536)) }
    {
        let Pass { numbers, mut seat } = pass;
        if numbers.left == 0 {
            let most = u64::from(MOST);
            return Err((Pass { numbers, seat }, TooManyPasses { most }));
        }
        let words = &self.table.shared;
        steps::tell(words, &mut seat);
        let other = steps::cut::<V, Brand>(words, &mut seat, share);
        let (kept, dealt) = numbers.deal(share as u32);
        let pass = Pass {
            numbers: kept,
            seat,
        };
        let new = Pass {
            numbers: dealt,
            seat: other,
        };
        Ok((pass, new))
    }

    /// Makes one pass of two. It has seen the longer of the two lists, which the other begins, and its own entries are
    /// those of both. What was left of the second one's stock is never given out.
    pub fn join(&self, pass: Pass<V>, other: Pass<V>) -> Pass<V>
        requires here { (pass.turn ≡ self.now.id) × (other.turn ≡ self.now.id) }
        ensures pass { result ≡ joined pass other }
        ensures joins { Joins V.bears pass other result }
    {
        let Pass { numbers, mut seat } = pass;
        let words = &self.table.shared;
        steps::unite(words, &mut seat, other.seat);
        steps::tell(words, &mut seat);
        Pass { numbers, seat }
    }

    /// Gives the value back, once one pass has every number. It stands for the list that the pass has seen, and each
    /// entry of that list is the pass's own.
    pub fn close(self, pass: Pass<V>) -> V
        requires here { pass.turn ≡ self.id }
        requires whole { IsWhole pass }
        ensures stands { V.stands self.start pass.seen result }
        ensures mine { mine_of V.bears pass ≡ pass.seen }
    {
        let Turn { table, sleepers: _ } = self;
        let mut closed = table.close_with(pass.seat);
        let Some(counted) = closed.take(0) else {
            unreachable!()
        };
        closed.free();
        Box::into_inner(counted).value
    }
}
