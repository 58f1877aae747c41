ghost use Rattle.std.specs.Prelude.{◌≡◌, ◌<◌, ◌≤◌, ◌∷◌, ◌++◌, ℕ, List, [], true, false, map, max, Option, Some, None};
ghost use Rattle.std.specs.List.{list_any};
ghost use Rattle.adb_model.specs.Lists.{last, least, without_last};
ghost use Rattle.adb_model.specs.State.{State};
ghost use Rattle.adb_model.specs.Leases.{is_lease};
ghost use Rattle.adb_model.specs.Call as machine;
ghost use Rattle.adb_model.specs.Call.{Refused};
ghost use Rattle.adb_model.specs.History.{IsPass};
ghost use Rattle.book_parts.specs.Parts.{Parts};
ghost use Rattle.book_parts.specs.Stands.{Stands, After};

use crate::laws::step_stands;

/// A law: how parts stand before and after a pass leases the views from a greatest root on, and before and after
/// it lets go of them. It can exactly where it has such a lease.
pub fn lease_stands()
    ensures too_old { (p : Parts) (m0 : State) (h : List machine.Event) (pass max_root : ℕ)
        → Stands p m0 h → max_root < p.cleaned
        → After p m0 h pass (machine.Lease max_root) (Some (Refused (machine.ViewTooOld max_root p.cleaned))) }
    ensures done { (p : Parts) (m0 : State) (h : List machine.Event) (pass max_root : ℕ)
        → Stands p m0 h → IsPass pass → p.cleaned ≤ max_root
        → After (record p { leases = p.leases ++ record { pass = pass; max_root = max_root } ∷ [] }) m0 h pass (machine.Lease max_root) (Some machine.Done) }
    ensures none { (p : Parts) (m0 : State) (h : List machine.Event) (pass max_root : ℕ)
        → Stands p m0 h → list_any (is_lease pass max_root) p.leases ≡ false
        → After p m0 h pass (machine.EndLease max_root) (Some (Refused (machine.NotLeased max_root))) }
    ensures ended { (p : Parts) (m0 : State) (h : List machine.Event) (pass max_root : ℕ)
        → Stands p m0 h → IsPass pass → list_any (is_lease pass max_root) p.leases ≡ true
        → After (record p { leases = without_last (is_lease pass max_root) p.leases }) m0 h pass (machine.EndLease max_root) (Some machine.Done) }
{
    step_stands();
}

/// A law: how parts stand before and after the slot up to which is cleaned is raised, and each refusal's cause.
pub fn raise_stands()
    ensures no_root { (p : Parts) (m0 : State) (h : List machine.Event) (pass upto : ℕ)
        → Stands p m0 h → last p.roots ≡ None
        → After p m0 h pass (machine.Raise upto) (Some (Refused (machine.PastRoot upto None))) }
    ensures past { (p : Parts) (m0 : State) (h : List machine.Event) (pass upto newest : ℕ)
        → Stands p m0 h → last p.roots ≡ Some newest → newest < upto
        → After p m0 h pass (machine.Raise upto) (Some (Refused (machine.PastRoot upto (Some newest)))) }
    ensures leased { (p : Parts) (m0 : State) (h : List machine.Event) (pass upto newest l : ℕ)
        → Stands p m0 h → last p.roots ≡ Some newest → upto ≤ newest → least (map (λ l. l.max_root) p.leases) ≡ Some l → l < upto
        → After p m0 h pass (machine.Raise upto) (Some (Refused (machine.Leased upto l))) }
    ensures unleased { (p : Parts) (m0 : State) (h : List machine.Event) (pass upto newest : ℕ)
        → Stands p m0 h → last p.roots ≡ Some newest → upto ≤ newest → least (map (λ l. l.max_root) p.leases) ≡ None
        → After (record p { cleaned = max p.cleaned upto }) m0 h pass (machine.Raise upto) (Some (machine.Raised (max p.cleaned upto))) }
    ensures done { (p : Parts) (m0 : State) (h : List machine.Event) (pass upto newest l : ℕ)
        → Stands p m0 h → last p.roots ≡ Some newest → upto ≤ newest → least (map (λ l. l.max_root) p.leases) ≡ Some l → upto ≤ l
        → After (record p { cleaned = max p.cleaned upto }) m0 h pass (machine.Raise upto) (Some (machine.Raised (max p.cleaned upto))) }
{
    step_stands();
}
