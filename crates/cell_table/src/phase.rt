ghost use Rattle.std.specs.Prelude.{◌≡◌, ◌+◌, ◌-◌, ◌<◌, ◌^◌, true, Some, IsSome};
ghost use Rattle.cell_table.specs.Phases.{bytes_of, pins_of, id_of, is_idle, published, retired, pinned, unpinned, value_of};
ghost use Rattle.cell_table.specs.declared.phase.Phase.TheVariants.{Free, Filling};

use std::mem;

/// What a cell is used for, under an id, for so many bytes.
#[derive(Drop)]
pub enum Phase<T> {
    /// For nothing.
    Free,
    /// For a value that is still made.
    Filling {
        id: u64,
        bytes: u64,
    },
    /// For a value that can be pinned.
    Live {
        id: u64,
        bytes: u64,
        pins: u64,
        value: T,
    },
    /// For a value that no longer can be pinned, and stays as long as it is pinned.
    Retired {
        id: u64,
        bytes: u64,
        pins: u64,
        value: T,
    },
}

impl<T> Phase<T> {
    /// The id of a cell in use, or 0.
    pub fn id(&self) -> u64
        ensures { result ≡ id_of self.now }
    {
        match self {
            Phase::Free => 0,
            Phase::Filling { id, .. } | Phase::Live { id, .. } | Phase::Retired { id, .. } => *id,
        }
    }

    /// The bytes of a cell in use, or 0.
    pub fn bytes(&self) -> u64
        ensures { result ≡ bytes_of self.now }
    {
        match self {
            Phase::Free => 0,
            Phase::Filling { bytes, .. }
            | Phase::Live { bytes, .. }
            | Phase::Retired { bytes, .. } => *bytes,
        }
    }

    /// Whether it is retired without a pin.
    pub fn is_idle(&self) -> bool
        ensures { result ≡ is_idle self.now }
    {
        matches!(self, Phase::Retired { pins: 0, .. })
    }

    /// The value of a live or retired cell.
    pub fn value(&self) -> &T
        requires { IsSome (value_of self.now) }
        ensures { value_of self.now ≡ Some result.now }
    {
        match self {
            Phase::Live { value, .. } | Phase::Retired { value, .. } => value,
            _ => unreachable!(),
        }
    }
}

impl<T: Drop> Phase<T> {
    /// A free cell is used.
    pub fn fill(&mut self, id: u64, bytes: u64)
        ensures { self.new ≡ Filling id bytes }
    {
        *self = Phase::Filling { id, bytes };
    }

    /// A cell is used no longer.
    pub fn clear(&mut self)
        ensures { self.new ≡ Free }
    {
        *self = Phase::Free;
    }

    /// A filling cell gets its value.
    pub fn publish(&mut self, value: T)
        ensures { self.new ≡ published value self.old }
    {
        let before = mem::replace(self, Phase::Free);
        *self = published(before, value);
    }

    /// A live cell can be pinned no longer.
    pub fn retire(&mut self)
        ensures { self.new ≡ retired self.old }
    {
        let before = mem::replace(self, Phase::Free);
        *self = retired(before);
    }

    /// One pin more of a live cell.
    pub fn pin(&mut self)
        requires { pins_of self.old < 2 ^ 64 - 1 }
        ensures { self.new ≡ pinned self.old }
    {
        if let Phase::Live { pins, .. } = self {
            *pins += 1;
        }
    }

    /// One pin less.
    pub fn unpin(&mut self)
        requires { 0 < pins_of self.old }
        ensures { self.new ≡ unpinned self.old }
    {
        match self {
            Phase::Live { pins, .. } => *pins -= 1,
            Phase::Retired { pins, .. } => *pins -= 1,
            _ => unreachable!(),
        }
    }
}

fn published<T: Drop>(phase: Phase<T>, value: T) -> Phase<T>
    ensures { result ≡ published value phase }
{
    match phase {
        Phase::Filling { id, bytes } => Phase::Live {
            id,
            bytes,
            pins: 0,
            value,
        },
        other => other,
    }
}

fn retired<T>(phase: Phase<T>) -> Phase<T>
    ensures { result ≡ retired phase }
{
    match phase {
        Phase::Live {
            id,
            bytes,
            pins,
            value,
        } => Phase::Retired {
            id,
            bytes,
            pins,
            value,
        },
        other => other,
    }
}
