// The numbers that a pass stores.
ghost use Rattle.std.specs.Prelude.{◌≡◌, ◌+◌, ◌-◌, ◌<◌, ◌≤◌};

// How many passes a turn may have at once.
pub(crate) const MOST: u32 = 65_536;

// A pass's own number, and its stock: so many further numbers, from the next one on.
#[derive(Clone, Copy)]
pub(crate) struct Numbers {
    pub(crate) own: u32,
    pub(crate) next: u32,
    pub(crate) left: u32,
}

impl Numbers {
    // Those of the first pass of a turn.
    pub(crate) fn first() -> Numbers
        ensures { (result.own ≡ 1) × (result.next ≡ 2) × (result.left ≡ 65535) }
    {
        Numbers {
            own: 1,
            next: 2,
            left: MOST - 1,
        }
    }

    // Deals out the next number, and with it the last ones of the stock.
    pub(crate) fn deal(self, share: u32) -> (Numbers, Numbers)
        requires { (share < self.left) × (self.next + self.left ≤ 65537) }
        ensures kept { (result.0.own ≡ self.own) × (result.0.next ≡ self.next + 1) × (result.0.left ≡ self.left - (1 + share)) }
        ensures dealt { (result.1.own ≡ self.next) × (result.1.next ≡ self.next + (self.left - share)) × (result.1.left ≡ share) }
    {
        let kept = Numbers {
            own: self.own,
            next: self.next + 1,
            left: self.left - (1 + share),
        };
        let dealt = Numbers {
            own: self.next,
            next: self.next + (self.left - share),
            left: share,
        };
        (kept, dealt)
    }
}
