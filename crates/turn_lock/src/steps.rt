// The steps on the table that the calls are made of, each with what it does to the caller's seat.
ghost use Rattle.std.specs.Prelude.{◌≡◌, ◌≢◌, ◌⊎◌, ◌<◌, ◌≤◌, ◌++◌, List, [], length, min, true, IfOk, IfErr, IfSome, IfNone};
ghost use Rattle.turn_lock.specs.Rule.{Every, LAST};
ghost use Rattle.turn_lock.specs.Steps.{Rests, Queues, Holds, Stores, Took, SameNumbers, noting, finding, passing, left_of, right_of, both_of, told};

use crate::refusals::Busy;
use crate::rule::{
    Counted, Cut, Draw, Glance, InTurn, Knows, Look, PassOn, Reads, Shares, Tell, Together, Try,
};
use crate::standing::{Adds, Standing};
use atomic_table::{Seat, Shared};
use std::snapshot::Snapshot;

pub(crate) type Words<V> = Shared<
    Option<Box<Counted<V>>>,
    Knows<<V as Standing>::Entry>,
    Snapshot<V>,
    InTurn,
>;

pub(crate) type Place<V> = Seat<Option<Box<Counted<V>>>, Knows<<V as Standing>::Entry>>;

pub(crate) const SERVING: usize = 0;

pub(crate) const NEXT: usize = 1;

// The turn with this ticket is the last one that ends.
const LAST_TICKET: u64 = 18_446_744_073_709_486_078;

// Draws a ticket.
pub(crate) fn draw<V: Standing>(words: &Words<V>, seat: &mut Place<V>) -> u64
    requires table { (seat.old.table_id ≡ words.now.table_id) × (words.now.table_id.words ≡ 2) }
    requires rests { Rests seat.old.me }
    ensures table { seat.new.table_id ≡ seat.old.table_id }
    ensures queues { Queues seat.new.me result }
    ensures same { SameNumbers seat.old.me.0 seat.new.me.0 × (seat.new.me.0.seen ≡ seat.old.me.0.seen) }
{
    words.fetch_add::<Draw>(seat, NEXT, 1)
}

// Looks at serving, and takes the value out of the slot where that is the seat's ticket.
pub(crate) fn look<V: Standing, M: Reads<V, V::Entry>>(
    words: &Words<V>,
    seat: &mut Place<V>,
    ticket: u64,
) -> Option<Box<Counted<V>>>
    requires reads { (xs : List V.Entry) (x : V) → V.stands words.now.key.value xs x → M.reads xs x }
    requires table { (seat.old.table_id ≡ words.now.table_id) × (words.now.table_id.words ≡ 2) }
    requires queues { Queues seat.old.me ticket }
    ensures table { seat.new.table_id ≡ seat.old.table_id }
    ensures some { IfSome result (λ x. Took M.reads V.bears seat.old.me.0 seat.new.me x ticket) }
    ensures none { IfNone result (Queues seat.new.me ticket × SameNumbers seat.old.me.0 seat.new.me.0 × (seat.new.me.0.seen ≡ seat.old.me.0.seen)) }
{
    if words.load::<Look<M>>(seat, SERVING) == ticket {
        Some(words.exchange(seat, 0, None).unwrap())
    } else {
        None
    }
}

// Looks at serving, for a pass without a ticket.
#[inline]
fn glance<V: Standing>(words: &Words<V>, seat: &mut Place<V>) -> u64
    requires table { (seat.old.table_id ≡ words.now.table_id) × (words.now.table_id.words ≡ 2) }
    requires rests { Rests seat.old.me }
    ensures table { seat.new.table_id ≡ seat.old.table_id }
    ensures glanced { (seat.new.me ≡ (noting seat.old.me.0 result, seat.old.me.1)) × (result ≤ LAST) }
{
    words.load::<Glance>(seat, SERVING)
}

// Takes the next ticket and the value, where that ticket is the one that the last look found serving.
#[inline]
fn attempt<V: Standing, M: Reads<V, V::Entry>>(
    words: &Words<V>,
    seat: &mut Place<V>,
    serving: u64,
) -> Result<Box<Counted<V>>, u64>
    requires reads { (xs : List V.Entry) (x : V) → V.stands words.now.key.value xs x → M.reads xs x }
    requires table { (seat.old.table_id ≡ words.now.table_id) × (words.now.table_id.words ≡ 2) }
    requires rests { Rests seat.old.me }
    requires noted { (seat.old.me.0.noted ≡ serving) × (serving ≤ LAST) }
    ensures table { seat.new.table_id ≡ seat.old.table_id }
    ensures ok { IfOk result (λ x. Took M.reads V.bears seat.old.me.0 seat.new.me x serving) }
    ensures err { IfErr result (λ t. (seat.new.me ≡ (finding seat.old.me.0 t, seat.old.me.1)) × (t ≢ serving)) }
{
    let ticket = words.compare_exchange::<Try<M>>(seat, NEXT, serving, serving + 1);
    if ticket == serving {
        Ok(words.exchange(seat, 0, None).unwrap())
    } else {
        Err(ticket)
    }
}

// Takes the turn where nobody has it: a look, and an exchange. Else what the two found, which differs.
#[inline]
pub(crate) fn take<V: Standing, M: Reads<V, V::Entry>>(
    words: &Words<V>,
    seat: &mut Place<V>,
) -> Result<(Box<Counted<V>>, u64), Busy>
    requires reads { (xs : List V.Entry) (x : V) → V.stands words.now.key.value xs x → M.reads xs x }
    requires table { (seat.old.table_id ≡ words.now.table_id) × (words.now.table_id.words ≡ 2) }
    requires rests { Rests seat.old.me }
    ensures table { seat.new.table_id ≡ seat.old.table_id }
    ensures ok { IfOk result (λ r. Took M.reads V.bears seat.old.me.0 seat.new.me r.0 r.1) }
    ensures err { IfErr result (λ b. (seat.new.me ≡ (finding (noting seat.old.me.0 b.serving) b.ticket, seat.old.me.1)) × (b.ticket ≢ b.serving)) }
{
    let serving = glance(words, seat);
    match attempt::<V, M>(words, seat, serving) {
        Ok(counted) => Ok((counted, serving)),
        Err(ticket) => Err(Busy { serving, ticket }),
    }
}

// What serving grows by when this ticket passes on.
#[inline]
fn step_after(ticket: u64) -> u64
    ensures { ((result ≡ 1) × (ticket ≢ LAST)) ⊎ ((result ≡ 0) × (ticket ≡ LAST)) }
{
    if ticket == LAST_TICKET { 0 } else { 1 }
}

// Puts the value back, and passes the turn on.
#[inline]
pub(crate) fn pass_on<V: Standing, M: Adds<V::Entry>>(
    words: &Words<V>,
    seat: &mut Place<V>,
    counted: Box<Counted<V>>,
    ticket: u64,
)
    requires table { (seat.old.table_id ≡ words.now.table_id) × (words.now.table_id.words ≡ 2) × (words.now.table_id.slots ≡ 1) }
    requires holds { Holds seat.old.me (min (length seat.old.me.0.seen) 18446744073709551615) ticket }
    requires own { Every (λ e. V.bears e ≡ seat.old.me.0.own) M.added }
    requires stands { V.stands words.now.key.value (seat.old.me.0.seen ++ M.added) counted.value.value }
    requires counted { counted.value.count ≡ min (length (seat.old.me.0.seen ++ M.added)) 18446744073709551615 }
    ensures table { seat.new.table_id ≡ seat.old.table_id }
    ensures passed { seat.new.me ≡ (passing seat.old.me.0 M.added, []) }
{
    match words.exchange(seat, 0, Some(counted)) {
        None => {}
        Some(_) => unreachable!(),
    }
    words.fetch_add::<PassOn<M>>(seat, SERVING, step_after(ticket));
}

// Cuts a seat in two.
pub(crate) fn cut<V: Standing, M: Shares>(
    words: &Words<V>,
    seat: &mut Place<V>,
    share: u64,
) -> Place<V>
    requires table { (seat.old.table_id ≡ words.now.table_id) × (words.now.table_id.words ≡ 2) }
    requires rests { Rests seat.old.me }
    requires share { (M.share ≡ share) × (share < seat.old.me.0.stock.1) }
    ensures table { (seat.new.table_id ≡ seat.old.table_id) × (result.table_id ≡ seat.old.table_id) }
    ensures old { seat.new.me ≡ (left_of share seat.old.me.0, []) }
    ensures new { result.me ≡ (right_of share seat.old.me.0, []) }
{
    words.split_seat::<Cut<M>>(seat)
}

// Makes one seat of two.
pub(crate) fn unite<V: Standing>(words: &Words<V>, seat: &mut Place<V>, other: Place<V>)
    requires table { (seat.old.table_id ≡ words.now.table_id) × (other.table_id ≡ words.now.table_id) × (words.now.table_id.words ≡ 2) }
    requires rests { Rests seat.old.me × Rests other.me }
    ensures table { seat.new.table_id ≡ seat.old.table_id }
    ensures both { seat.new.me ≡ (both_of seat.old.me.0 other.me.0, []) }
{
    words.join_seat::<Together>(seat, other)
}

// Tells what the rule says of the histories that a seat's view was made of.
pub(crate) fn tell<V: Standing>(words: &Words<V>, seat: &mut Place<V>)
    requires table { (seat.old.table_id ≡ words.now.table_id) × (words.now.table_id.words ≡ 2) }
    requires live { (seat.old.me.0.live ≡ true) × (seat.old.me.1 ≡ []) }
    ensures table { seat.new.table_id ≡ seat.old.table_id }
    ensures told { told V.bears seat.old.me seat.new.me }
{
    words.load::<Tell>(seat, SERVING);
}
