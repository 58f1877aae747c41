// What callers carry: a pass, and a hold.
ghost use Rattle.std.specs.Prelude.{◌≡◌, ◌≤◌, length, min};

use crate::numbers::Numbers;
use crate::rule::{Counted, Knows};
use crate::standing::Standing;
use atomic_table::Seat;
use std::marker::Model;

/// A caller's place among those who take turns. Contracts see it as its turn, its numbers, its stock of numbers, the
/// history that it knows, and what its last look and exchange found; stored are its own number and its stock.
///
/// A pass that is dropped leaves a turn that can't be closed any more.
#[derive(Drop)]
pub struct Pass<V: Standing> {
    pub(crate) numbers: Numbers,
    pub(crate) seat: Seat<Option<Box<Counted<V>>>, Knows<V::Entry>>,
}

impl<V: Standing> Model for Pass<V> {
    ghost use Rattle.turn_lock.specs.Passes.{PassState};
    ghost use Rattle.turn_lock.specs.Steps.{Rests, Stores, state_of};

    ghost Value = { PassState V.Entry };

    ghost view = { λ p. state_of p.seat.table_id p.seat.me.0 };

    ghost invariant = { λ p. Rests p.seat.me × Stores p.seat.me.0 p.numbers };
}

impl<V: Standing> Pass<V> {
    /// The pass's own number, from 1 to 65,536.
    #[inline]
    pub fn number(&self) -> u64
        ensures number { result ≡ self.now.number }
        ensures range { (1 ≤ result) × (result ≤ 65536) }
    {
        u64::from(self.numbers.own)
    }
}

/// The value, and the right to change it until [`Turn::leave`](crate::Turn::leave). It can't be dropped.
pub struct Hold<V: Standing> {
    pub(crate) counted: Box<Counted<V>>,
    pub(crate) ticket: u64,
    pub(crate) numbers: Numbers,
    pub(crate) seat: Seat<Option<Box<Counted<V>>>, Knows<V::Entry>>,
}

impl<V: Standing> Model for Hold<V> {
    ghost use Rattle.turn_lock.specs.Passes.{HoldState};
    ghost use Rattle.turn_lock.specs.Steps.{Holds, Stores, state_of};

    ghost Value = { HoldState V V.Entry };

    ghost view = { λ h. record { value = h.counted.value.value; pass = state_of h.seat.table_id h.seat.me.0 } };

    ghost invariant = { λ h. Holds h.seat.me h.counted.value.count h.ticket × Stores h.seat.me.0 h.numbers };
}

impl<V: Standing> Hold<V> {
    ghost use Rattle.std.specs.Borrow.{sem, Lends};
    ghost use Rattle.turn_lock.specs.Passes.{with_value};
    ghost use Rattle.turn_lock.specs.contracts.pass.Hold.{the_row};

    /// The value.
    #[inline]
    pub fn value(&mut self) -> &mut V
        ensures* writes_back { sem 𝓛 (Lends (the_row V.row V.Entry.row V.Standing) V.row self.entry result (with_value self.old)) }
        ensures value { result.now ≡ self.old.value }
    {
        &mut self.counted.value
    }

    /// How many entries the history had when the turn was taken, or 2^64 - 1 where there were more.
    #[inline]
    pub fn count(&self) -> u64
        ensures { result ≡ min (length self.now.pass.seen) 18446744073709551615 }
    {
        self.counted.count
    }
}
