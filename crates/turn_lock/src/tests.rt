// Turns over a value that stands for a list of numbers. An entry is a pass's number, and a number that it added.
ghost use Rattle.std.specs.Prelude.{◌≡◌, ◌≤◌, ◌++◌, map, IfOk};
ghost use Rattle.turn_lock.specs.Passes.{first_pass, seeing};

use crate::{Adds, Busy, Hold, NoMemory, Pass, Standing, TooManyPasses, Turn};
use std::alloc::{AllocError, Global};
use std::marker::Brand;
use std::sync::Wait;
use std::test::Fail;
use std::thread;
use std::thread::Threads;

#[derive(Drop)]
struct Log {
    numbers: Vec<u64>,
}

impl Standing for Log {
    type Entry = (u64, u64);

    ghost use Rattle.std.specs.Prelude.{◌≡◌, ◌++◌, map};

    ghost stands = { λ start entries now. now.numbers.items ≡ start.numbers.items ++ map (λ e. e.1) entries };

    ghost bears = { λ e. e.0 };
}

fn leave_as<M: Adds<(u64, u64)>>(turn: &Turn<Log>, hold: Hold<Log>, added: &[u64]) -> Pass<Log>
    requires named { M.added ≡ map (λ x. (hold.pass.number, x)) added.now }
    requires here { hold.pass.turn ≡ turn.now.id }
    requires stands { hold.value.numbers.items ≡ turn.now.start.numbers.items ++ map (λ e. e.1) (hold.pass.seen ++ M.added) }
    ensures { result ≡ seeing hold.pass M.added }
{
    turn.leave::<M>(hold, added.len() as u64)
}

// Ends a hold that added these numbers.
fn leave(turn: &Turn<Log>, hold: Hold<Log>, added: &[u64]) -> Pass<Log>
    requires here { hold.pass.turn ≡ turn.now.id }
    requires stands { hold.value.numbers.items ≡ turn.now.start.numbers.items ++ map (λ e. e.1) (hold.pass.seen ++ map (λ x. (hold.pass.number, x)) added.now) }
    ensures { result ≡ seeing hold.pass (map (λ x. (hold.pass.number, x)) added.now) }
{
    leave_as::<Brand>(turn, hold, added)
}

// Adds the numbers in one hold, and says whether there was memory for them.
fn add<R: Wait>(rt: &R, turn: &Turn<Log>, pass: Pass<Log>, numbers: &[u64]) -> (Pass<Log>, bool)
    requires here { pass.turn ≡ turn.now.id }
    ensures { (result.0.turn ≡ turn.now.id) × (result.0.numbers ≡ pass.numbers) × (result.0.stock ≡ pass.stock) }
{
    let mut hold = turn.enter(rt, pass);
    if hold.value().numbers.extend_from_slice(numbers).is_ok() {
        (leave(turn, hold, numbers), true)
    } else {
        (leave(turn, hold, &[]), false)
    }
}

fn new_log(alloc: Global) -> Result<(Turn<Log>, Pass<Log>), (Log, NoMemory)>
    ensures { IfOk result (λ r. r.1 ≡ first_pass r.0.id) }
{
    Turn::new(
        alloc,
        Log {
            numbers: Vec::new(alloc),
        },
    )
}

// Takes the turn and leaves at once, or says what was found where another has it.
fn try_turn(turn: &Turn<Log>, pass: Pass<Log>) -> (Pass<Log>, Option<Busy>)
    requires here { pass.turn ≡ turn.now.id }
    ensures { result.0.turn ≡ turn.now.id }
{
    match turn.try_enter(pass) {
        Ok(hold) => (leave(turn, hold, &[]), None),
        Err((pass, busy)) => (pass, Some(busy)),
    }
}

// One pass alone: what each call answers, from the first hold to the value at the end.
#[test]
fn one_pass_and_one_more(rt: HostRuntime) {
    let Ok((turn, pass)) = new_log(rt.alloc()) else {
        panic!(rt; "no memory");
    };
    let (pass, done) = add(&rt, &turn, pass, &[7, 9]);
    assert!(rt; done);
    let hold = turn.enter(&rt, pass);
    assert_eq!(rt; hold.count(), 2);
    let pass = leave(&turn, hold, &[]);
    let Ok((pass, other)) = turn.split(pass, 0) else {
        panic!(rt; "no number is left");
    };
    assert_eq!(rt; (pass.number(), other.number()), (1, 2));
    let pass = turn.join(pass, other);
    let log = turn.close(pass);
    assert!(rt; log.numbers.as_slice() == [7, 9].as_slice());
}

// Splits the pass until that is refused, and says how often it was not. The new passes are dropped.
fn spend(turn: &Turn<Log>, mut pass: Pass<Log>) -> (Pass<Log>, u64, Option<TooManyPasses>)
    requires here { pass.turn ≡ turn.now.id }
{
    for given in 0..65_536u64 {
        match turn.split(pass, 0) {
            Ok((rest, _new)) => pass = rest,
            Err((rest, refused)) => return (rest, given, Some(refused)),
        }
    }
    (pass, 65_536, None)
}

// A second pass finds the turn taken, until the first leaves. A pass has 65,535 numbers to give out.
#[test]
fn busy_and_out_of_numbers(rt: HostRuntime) {
    let Ok((turn, first)) = new_log(rt.alloc()) else {
        panic!(rt; "no memory");
    };
    let Ok((first, second)) = turn.split(first, 0) else {
        panic!(rt; "no number is left");
    };
    let Ok(hold) = turn.try_enter(first) else {
        panic!(rt; "nobody has the turn");
    };
    let (second, found) = try_turn(&turn, second);
    let taken = Busy {
        serving: 0,
        ticket: 1,
    };
    assert_eq!(rt; found, Some(taken));
    let first = leave(&turn, hold, &[]);
    let (_second, found) = try_turn(&turn, second);
    assert_eq!(rt; found, None);
    let (first, given, refused) = spend(&turn, first);
    assert_eq!(rt; (first.number(), given), (1, 65_534));
    assert_eq!(rt; refused, Some(TooManyPasses { most: 65_536 }));
}

// Adds one number a hold, which tells the pass and the place among its numbers. True if there was memory for all.
fn work<R: Wait>(rt: &R, turn: &Turn<Log>, mut pass: Pass<Log>, holds: u64) -> bool
    requires here { pass.turn ≡ turn.now.id }
    requires few { holds ≤ 1000000 }
{
    let first = pass.number() * 1_000_000;
    for k in 0..holds {
        let (next, done) = add(rt, turn, pass, &[first + k]);
        pass = next;
        if !done {
            return false;
        }
    }
    true
}

// Whether the numbers of each of the passes from 2 on stand once, in order.
fn each_once(alloc: Global, log: &Log, threads: usize, holds: u64) -> Result<bool, AllocError> {
    let mut next = Vec::new(alloc);
    for _ in 0..threads {
        next.push(0)?;
    }
    for number in &log.numbers {
        let pass = (number / 1_000_000).wrapping_sub(2);
        match next.get_mut(pass as usize) {
            Some(k) if *k == number % 1_000_000 => *k += 1,
            _ => return Ok(false),
        }
    }
    Ok(next.iter().all(|&k| k == holds))
}

// Runs so many threads over one turn, with so many holds each. The number of entries, if each stands once, in order.
fn race<R: Threads + Wait + Sync>(
    rt: &R,
    alloc: Global,
    turn: &Turn<Log>,
    mut pass: Pass<Log>,
    threads: usize,
    holds: u64,
) -> Result<Option<u64>, AllocError>
    requires here { pass.turn ≡ turn.now.id }
    requires few { holds ≤ 1000000 }
{
    let mut passes = Vec::new(alloc);
    for _ in 0..threads {
        let Ok((rest, new)) = turn.split(pass, 0) else {
            return Ok(None);
        };
        pass = rest;
        passes.push(new)?;
    }
    let done = thread::map_vec(
        rt,
        passes,
        &|pass: Pass<Log>| -> bool
            requires { (pass.turn ≡ turn.now.id) × (holds ≤ 1000000) }
        { work(rt, turn, pass, holds) },
    )?;
    let mut hold = turn.enter(rt, pass);
    let all = each_once(alloc, hold.value(), threads, holds);
    let count = hold.count();
    leave(turn, hold, &[]);
    if all? && done.iter().all(|&done| done) {
        Ok(Some(count))
    } else {
        Ok(None)
    }
}

// Many threads: every entry once, and those of one thread in its order.
#[test]
fn two_and_sixty_four_threads(rt: HostRuntime) -> Result<(), Fail> {
    for (threads, holds) in [(2usize, 20_000u64), (64, 500)] {
        let Ok((turn, pass)) = new_log(rt.alloc()) else {
            panic!(rt; "no memory");
        };
        let count = race(&rt, rt.alloc(), &turn, pass, threads, holds)?;
        assert_eq!(rt; count, Some(threads as u64 * holds));
    }
    Ok(())
}

// A turn may be shared, and its passes and holds sent, where its value may be sent.
fn crosses<V: Standing + Send>(turn: &Turn<V>, pass: Pass<V>, hold: Hold<V>) -> (Pass<V>, Hold<V>) {
    shared(turn);
    (sent(pass), sent(hold))
}

fn shared<X: Sync>(_x: &X) {}

fn sent<X: Send>(x: X) -> X {
    x
}
