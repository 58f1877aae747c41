// How a caller gets its turn, and how others are woken when it passes the turn on.
//
// A caller tries for a while, sleeps, and tries again, so that a turn that is free goes to whoever runs. After some
// sleeps it draws a ticket, and then no later caller comes first.
ghost use Rattle.std.specs.Prelude.{◌≡◌, List, IfSome, IfNone};
ghost use Rattle.turn_lock.specs.Steps.{Rests, Took, SameNumbers};

use crate::rule::{Counted, Reads};
use crate::standing::Standing;
use crate::steps::{self, NEXT, Place, SERVING, Words};
use std::hint::spin_loop;
use std::sync::Wait;
use std::sync::atomic::AtomicU64;
use std::sync::atomic::Ordering::SeqCst;

// How often a waiter looks before it sleeps. It pauses twice as long after each look, for some microseconds in all.
const LOOKS: u32 = 7;

// How often a waiter sleeps before it draws a ticket.
const SLEEPS: u32 = 64;

// Who sleeps. It tells who passes the turn on whether to wake somebody, and no contract speaks of it.
#[derive(Drop)]
pub(crate) struct Sleepers {
    // 1 where a caller without a ticket may sleep that nobody has been woken for
    waiting: AtomicU64,
    // how many callers with a ticket sleep
    queued: AtomicU64,
}

impl Sleepers {
    pub(crate) fn new() -> Sleepers {
        Sleepers {
            waiting: AtomicU64::new(0),
            queued: AtomicU64::new(0),
        }
    }
}

fn pause(times: u32) {
    for _ in 0..times {
        spin_loop();
    }
}

// Looks for a while whether nobody has the turn, and then tries to take it.
fn spin<V: Standing, M: Reads<V, V::Entry>>(
    words: &Words<V>,
    seat: &mut Place<V>,
) -> Option<(Box<Counted<V>>, u64)>
    requires reads { (xs : List V.Entry) (x : V) → V.stands words.now.key.value xs x → M.reads xs x }
    requires table { (seat.old.table_id ≡ words.now.table_id) × (words.now.table_id.words ≡ 2) }
    requires rests { Rests seat.old.me }
    ensures table { seat.new.table_id ≡ seat.old.table_id }
    ensures some { IfSome result (λ r. Took M.reads V.bears seat.old.me.0 seat.new.me r.0 r.1) }
    ensures none { IfNone result (Rests seat.new.me × SameNumbers seat.old.me.0 seat.new.me.0 × (seat.new.me.0.seen ≡ seat.old.me.0.seen)) }
{
    for look in 0..LOOKS {
        if words.peek(SERVING) == words.peek(NEXT) {
            if let Ok(taken) = steps::take::<V, M>(words, seat) {
                return Some(taken);
            }
        }
        pause(1 << look);
    }
    None
}

// Waits until nobody has the turn, and takes it. Gives up where others were often faster.
fn wait_free<V: Standing, M: Reads<V, V::Entry>, R: Wait>(
    rt: &R,
    words: &Words<V>,
    sleepers: &Sleepers,
    seat: &mut Place<V>,
) -> Option<(Box<Counted<V>>, u64)>
    requires reads { (xs : List V.Entry) (x : V) → V.stands words.now.key.value xs x → M.reads xs x }
    requires table { (seat.old.table_id ≡ words.now.table_id) × (words.now.table_id.words ≡ 2) }
    requires rests { Rests seat.old.me }
    ensures table { seat.new.table_id ≡ seat.old.table_id }
    ensures some { IfSome result (λ r. Took M.reads V.bears seat.old.me.0 seat.new.me r.0 r.1) }
    ensures none { IfNone result (Rests seat.new.me × SameNumbers seat.old.me.0 seat.new.me.0 × (seat.new.me.0.seen ≡ seat.old.me.0.seen)) }
{
    for _ in 0..SLEEPS {
        if let Some(taken) = spin::<V, M>(words, seat) {
            return Some(taken);
        }
        let serving = words.peek(SERVING);
        if serving != words.peek(NEXT) {
            sleepers.waiting.store(1, SeqCst);
            words.park(rt, SERVING, low_half(serving));
            sleepers.waiting.store(1, SeqCst);
        }
    }
    None
}

// Draws a ticket, and waits until it is served: no later caller comes first.
fn wait_turn<V: Standing, M: Reads<V, V::Entry>, R: Wait>(
    rt: &R,
    words: &Words<V>,
    sleepers: &Sleepers,
    seat: &mut Place<V>,
) -> (Box<Counted<V>>, u64)
    requires reads { (xs : List V.Entry) (x : V) → V.stands words.now.key.value xs x → M.reads xs x }
    requires table { (seat.old.table_id ≡ words.now.table_id) × (words.now.table_id.words ≡ 2) }
    requires rests { Rests seat.old.me }
    ensures table { seat.new.table_id ≡ seat.old.table_id }
    ensures took { Took M.reads V.bears seat.old.me.0 seat.new.me result.0 result.1 }
{
    let ticket = steps::draw(words, seat);
    for _ in rt.forever() {
        if let Some(counted) = steps::look::<V, M>(words, seat, ticket) {
            return (counted, ticket);
        }
        let serving = words.peek(SERVING);
        if serving != ticket {
            sleepers.queued.fetch_add(1, SeqCst);
            words.park(rt, SERVING, low_half(serving));
            sleepers.queued.fetch_sub(1, SeqCst);
        }
    }
    unreachable!()
}

// Waits for the turn, and takes it.
#[inline(never)]
pub(crate) fn wait<V: Standing, M: Reads<V, V::Entry>, R: Wait>(
    rt: &R,
    words: &Words<V>,
    sleepers: &Sleepers,
    seat: &mut Place<V>,
) -> (Box<Counted<V>>, u64)
    requires reads { (xs : List V.Entry) (x : V) → V.stands words.now.key.value xs x → M.reads xs x }
    requires table { (seat.old.table_id ≡ words.now.table_id) × (words.now.table_id.words ≡ 2) }
    requires rests { Rests seat.old.me }
    ensures table { seat.new.table_id ≡ seat.old.table_id }
    ensures took { Took M.reads V.bears seat.old.me.0 seat.new.me result.0 result.1 }
{
    match wait_free::<V, M, R>(rt, words, sleepers, seat) {
        Some(taken) => taken,
        None => wait_turn::<V, M, R>(rt, words, sleepers, seat),
    }
}

// The half of a word that a sleep looks at.
fn low_half(word: u64) -> u32 {
    (word & 0xffff_ffff) as u32
}

// Wakes who may be next: all, where one with a ticket sleeps, and else one, where the turn is free.
//
// Who is woken says again that one may wait, since others may. Where somebody took the turn while the word was cleared,
// a sleeper may have set it in vain, so it is set again, for that turn's end or for one look more.
#[inline(never)]
fn wake_next<V: Standing>(words: &Words<V>, sleepers: &Sleepers)
    requires { words.now.table_id.words ≡ 2 }
{
    if sleepers.queued.load(SeqCst) > 0 {
        words.wake_all(SERVING);
        return;
    }
    for _ in 0..u64::MAX {
        let serving = words.peek(SERVING);
        if sleepers.waiting.load(SeqCst) == 0 || words.peek(NEXT) != serving {
            return;
        }
        sleepers.waiting.store(0, SeqCst);
        words.wake_one(SERVING);
        if words.peek(NEXT) == serving {
            return;
        }
        sleepers.waiting.store(1, SeqCst);
    }
}

// Wakes who may be next, where anybody sleeps.
#[inline]
pub(crate) fn wake<V: Standing>(words: &Words<V>, sleepers: &Sleepers)
    requires { words.now.table_id.words ≡ 2 }
{
    if sleepers.queued.load(SeqCst) > 0 || sleepers.waiting.load(SeqCst) > 0 {
        wake_next(words, sleepers);
    }
}
