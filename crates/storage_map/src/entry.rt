// What a slot has.
ghost use Rattle.std.specs.Prelude.{◌≡◌};
ghost use Rattle.storage_map.specs.Inside.{is_emptied};
ghost use Rattle.storage_map.specs.Slots.{alive_in, total_in, is_filled};

use cell_table::Cell;

/// A storage in use.
#[derive(Clone, Copy, Debug, PartialEq, Eq)]
pub struct Live {
    pub cell: Cell,

    /// How many of its rows are still alive: a load can find them.
    pub alive: u64,

    /// How many rows it has in all.
    pub total: u64,
}

/// A storage that is being filled.
#[derive(Clone, Copy, Debug, PartialEq, Eq)]
pub struct Begun {
    pub cell: Cell,

    /// How many rows it will have.
    pub rows: u64,
}

/// The storages of a slot.
#[derive(Clone, Copy)]
pub struct Entry {
    pub live: Option<Live>,
    pub begun: Option<Begun>,
}

impl Entry {
    pub fn is_filled(&self) -> bool
        ensures { result ≡ is_filled self.now }
    {
        self.begun.is_some() || self.live.is_some()
    }

    pub fn alive(&self) -> u64
        ensures { result ≡ alive_in self.now.live }
    {
        self.live.map_or(0, |live| live.alive)
    }

    pub fn total(&self) -> u64
        ensures { result ≡ total_in self.now.live }
    {
        self.live.map_or(0, |live| live.total)
    }
    /// Whether it has a storage in use without a row alive.
    pub fn is_emptied(&self) -> bool
        ensures { result ≡ is_emptied self.now.live }
    {
        self.live.is_some_and(|live| live.alive == 0)
    }
}
