// Why a call didn't do what it was asked.

/// Another pass has the turn, or waits for it.
#[derive(Clone, Copy, PartialEq, Eq, Debug, Drop)]
pub struct Busy {
    /// The ticket that was served when the call looked.
    pub serving: u64,
    /// The ticket that it then found to be the next, which is another.
    pub ticket: u64,
}

/// The pass has no number left to give out.
#[derive(Clone, Copy, PartialEq, Eq, Debug, Drop)]
pub struct TooManyPasses {
    /// How many passes a turn may have at once, 65,536.
    pub most: u64,
}

/// There was no memory for the value, the words or the slot.
#[derive(Clone, Copy, PartialEq, Eq, Debug, Drop)]
pub struct NoMemory;
