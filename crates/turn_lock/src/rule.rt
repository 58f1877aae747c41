// What a seat of the table knows, the rule of the table, and what each kind of step tells.
use crate::standing::{Adds, Standing};
use atomic_table::{Join, Play, Split, TableRule};
use std::collections::LinkedList;
use std::marker::{Brand, PhantomData};
use std::snapshot::Snapshot;

// What a seat knows. No value of it is made.
pub struct Knows<E> {
    pub live: bool,
    pub own: u64,
    pub joined: LinkedList<(u64, u64)>,
    pub stock: (u64, u64),
    pub ticket: Option<u64>,
    pub holds: bool,
    pub seen: LinkedList<E>,
    pub looks: u64,
    pub noted: u64,
    pub found: Option<u64>,
    pub parts: LinkedList<(LinkedList<(u64, u64)>, LinkedList<E>)>,
}

// The value, and how many entries it stands for, up to 2^64 - 1.
#[derive(Drop)]
pub struct Counted<V> {
    pub value: V,
    pub count: u64,
}

// The rule of a turn. Its key is the value that the turn was made with.
pub struct InTurn;

impl<V: Standing> TableRule<Option<Box<Counted<V>>>, Knows<V::Entry>, Snapshot<V>> for InTurn {
    ghost use Rattle.turn_lock.specs.Rule.{Kept, opener};

    ghost holds = { λ key. Kept V.stands V.bears key.value };

    ghost first = { λ _. opener };
}

// Names what the value in the slot is known to stand for, since a step can't read the table's key.
pub trait Reads<V, E> {
    ghost use Rattle.std.specs.Prelude.{List};

    ghost reads: { List E → V → Type 0 };
}

impl<V, E> Reads<V, E> for Brand {
    ghost reads = { λ _ _. Unit {0} };
}

// Names how much of a stock a new pass gets.
pub trait Shares {
    ghost use Rattle.std.specs.Prelude.{ℕ};

    ghost share: { ℕ };
}

impl Shares for Brand {
    ghost share = { 0 };
}

// The next ticket is drawn.
pub struct Draw;

impl<V: Standing> Play<Option<Box<Counted<V>>>, Knows<V::Entry>> for Draw {
    ghost use Rattle.turn_lock.specs.Steps.{drew};

    ghost then = { λ st m r n. drew m r n };
}

// A pass with a ticket looks at serving, and takes the value where that is its ticket.
pub struct Look<M> {
    marker: PhantomData<M>,
}

impl<V: Standing, M: Reads<V, V::Entry>> Play<Option<Box<Counted<V>>>, Knows<V::Entry>>
    for Look<M> {
    ghost use Rattle.turn_lock.specs.Steps.{looked};

    ghost then = { λ st m r n. looked M.reads V.bears m r n };
}

// A pass without a ticket looks at serving.
pub struct Glance;

impl<V: Standing> Play<Option<Box<Counted<V>>>, Knows<V::Entry>> for Glance {
    ghost use Rattle.turn_lock.specs.Steps.{glanced};

    ghost then = { λ st m r n. glanced m r n };
}

// The next ticket is exchanged, where it is the one that was noted, and the value is taken.
pub struct Try<M> {
    marker: PhantomData<M>,
}

impl<V: Standing, M: Reads<V, V::Entry>> Play<Option<Box<Counted<V>>>, Knows<V::Entry>> for Try<M> {
    ghost use Rattle.turn_lock.specs.Steps.{tried};

    ghost then = { λ st m r n. tried M.reads V.bears m r n };
}

// The value is put back, and the turn passed on.
pub struct PassOn<M> {
    marker: PhantomData<M>,
}

impl<V: Standing, M: Adds<V::Entry>> Play<Option<Box<Counted<V>>>, Knows<V::Entry>> for PassOn<M> {
    ghost use Rattle.turn_lock.specs.Steps.{passed};

    ghost then = { λ st m r n. passed M.added m n };
}

// A load that tells how the history goes on from the parts of a view.
pub struct Tell;

impl<V: Standing> Play<Option<Box<Counted<V>>>, Knows<V::Entry>> for Tell {
    ghost use Rattle.turn_lock.specs.Steps.{told};

    ghost then = { λ st m r n. told V.bears m n };
}

// A pass is cut in two.
pub struct Cut<M> {
    marker: PhantomData<M>,
}

impl<E, M: Shares> Split<Knows<E>> for Cut<M> {
    ghost use Rattle.turn_lock.specs.Steps.{left_of, right_of};

    ghost left = { λ v. left_of M.share v };

    ghost right = { λ v. right_of M.share v };
}

// Two passes are made one.
pub struct Together;

impl<E> Join<Knows<E>> for Together {
    ghost use Rattle.turn_lock.specs.Rule.{spent};
    ghost use Rattle.turn_lock.specs.Steps.{both_of};

    ghost both = { λ v w. both_of v w };

    ghost spent = { spent };
}
