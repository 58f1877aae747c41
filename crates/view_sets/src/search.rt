ghost use Rattle.std.specs.Prelude.{◌≡◌};
ghost use Rattle.std.specs.List.Sorted.{IsStrictlyIncreasing};
ghost use Rattle.view_sets.specs.Slots.{among};

/// Whether a slot is in a rising list, by halving it.
pub fn is_among(slots: &[u64], slot: u64) -> bool
    requires { IsStrictlyIncreasing slots.now }
    ensures { result ≡ among slot slots.now }
{
    slots.binary_search(&slot).is_ok()
}
