ghost use Rattle.std.specs.Prelude.{◌≡◌, ℕ, ◌==◌, if◌then◌else◌, List, Some, None, option_map};
ghost use Rattle.slot_list.specs.declared.Place as place;
ghost use Rattle.slot_list.specs.declared.Version as version;
ghost use Rattle.slot_list.specs.Versions.{at, put, without, rehomed};

/// A law: a look-up finds the version that was put in last, none where one was taken out, the new place of
/// one that moved, and in every other slot what was there before, in whatever order the versions stand.
pub fn lookups_follow_edits()
    ensures put { (v : version.Version) (versions : List version.Version) (s : ℕ)
        → at s (put v versions) ≡ (if v.slot == s then Some v else at s versions) }
    ensures without { (slot s : ℕ) (versions : List version.Version)
        → at s (without slot versions) ≡ (if slot == s then None else at s versions) }
    ensures rehomed { (slot s : ℕ) (p : place.Place) (versions : List version.Version)
        → at s (rehomed slot p versions) ≡ option_map (λ v. if v.slot == slot then record v { place = p } else v) (at s versions) }
{}
