ghost use Rattle.std.specs.Prelude.{◌≡◌};
ghost use Rattle.script.specs.Said.{budget_of};

use adb_model::{Call, Key, Slot, View};

/// The most bytes that the storages have together, where no header says another number.
pub const DEFAULT_BUDGET: u64 = 4_294_967_296;

/// What a line of a script asks for.
#[derive(Drop)]
pub enum Order {
    /// One event.
    Event(Call),
    /// A load whose pin, if it takes one, is given back at once.
    Get { view: View, key: Key },
    /// A flush, begun and, where it began, ended. So many workers, 1 to 16, fill its storage.
    Flush { slot: Slot, workers: usize },
    /// What is cleaned is raised up to a slot and, where that was done, all crowded keys are looked at.
    Clean { upto: Slot },
    /// A shrink, begun and, where it began, ended.
    Shrink { slot: Slot },
    /// A snapshot, begun and, where it began, written under this name and ended.
    Snap { slot: Slot, name: String },
}

/// A line of a script: the lane that plays it, and what it asks for.
#[derive(Drop)]
pub struct Line {
    pub lane: u64,
    pub order: Order,
}

/// What a script says: its header, and its lines, but for the skipped ones.
#[derive(Drop)]
pub struct Script {
    /// The most bytes that the storages have together, where the header says so.
    pub budget: Option<u64>,

    /// The name of the snapshot that is opened before the first line, if one is.
    pub opened: Option<String>,

    pub lines: Vec<Line>,
}

impl Script {
    /// The header's budget, or the default where there is no header.
    pub fn byte_budget(&self) -> u64
        ensures { result ≡ budget_of self.now.budget }
    {
        self.budget.unwrap_or(DEFAULT_BUDGET)
    }
}
