// The leases of passes.
ghost use Rattle.std.specs.Prelude.{◌≡◌, false, List, length, map, MatchOption, OnOk, OnErr, ◌++◌, ◌∷◌, []};
ghost use Rattle.std.specs.List.{list_any, AllWithin};
ghost use Rattle.adb_model.specs.Lists.{least, without_last};
ghost use Rattle.adb_model.specs.Leases.{is_lease};
ghost use Rattle.book.specs.Leasing.{leases_of, is_of, IsLastPlace, MayRaise, IsWhyNotRaised};

use crate::refusals::RaiseRefusal;
use crate::rooting::newest;
use adb_model::Slot;
use std::alloc::AllocError;
use view_sets::RootSet;

/// A pass holds on to the views from a greatest root on.
#[derive(Clone, Copy, Debug, PartialEq, Eq)]
pub struct Lease {
    pub pass: u64,
    pub max_root: u64,
}

/// One more lease, the last of all.
pub fn put(leases: &mut Vec<Lease>, pass: u64, max_root: u64) -> Result<(), AllocError>
    ensures ok { OnOk result (leases_of leases.new.items ≡ leases_of leases.old.items ++ record { pass = pass; max_root = max_root } ∷ []) }
    ensures err { OnErr result (leases.new.items ≡ leases.old.items) }
{
    leases.push(Lease { pass, max_root })?;
    Ok(())
}

// The place of the last such lease of the pass.
fn place_of_last(leases: &[Lease], pass: u64, max_root: u64) -> Option<usize>
    ensures { MatchOption result (AllWithin (λ l. is_of pass max_root l ≡ false) leases.now 0 (length leases.now)) (IsLastPlace (is_of pass max_root) leases.now) }
{
    let mut place = leases.len();
    while 0 < place {
        place -= 1;
        let lease = &leases[place];
        if lease.pass == pass && lease.max_root == max_root {
            return Some(place);
        }
    }
    None
}

/// The last such lease of the pass leaves. Says whether there was one.
pub fn take(leases: &mut Vec<Lease>, pass: u64, max_root: u64) -> bool
    ensures there { result ≡ list_any (is_lease pass max_root) (leases_of leases.old.items) }
    ensures left { leases_of leases.new.items ≡ without_last (is_lease pass max_root) (leases_of leases.old.items) }
{
    match place_of_last(leases, pass, max_root) {
        Some(place) => {
            leases.remove(place);
            true
        }
        None => false,
    }
}

/// The least of the greatest roots of leases.
pub fn least_root(leases: &[Lease]) -> Option<u64>
    ensures { result ≡ least (map (λ l. l.max_root) (leases_of leases.now)) }
{
    leases.iter().map(|lease| lease.max_root).min()
}

/// Why no more than before may be cleaned: the slot is past the newest root, or a lease is of views below it.
pub fn why_not_raised(roots: &RootSet, leases: &[Lease], upto: Slot) -> Option<RaiseRefusal>
    ensures { MatchOption result (MayRaise roots.now (leases_of leases.now) upto) (IsWhyNotRaised roots.now (leases_of leases.now) upto) }
{
    match newest(roots) {
        Some(newest) if upto <= newest => {}
        newest => return Some(RaiseRefusal::PastRoot { upto, newest }),
    }
    match least_root(leases) {
        Some(least) if least < upto => Some(RaiseRefusal::Leased { upto, least }),
        _ => None,
    }
}
