// Where bytes come from.
ghost use Rattle.std.specs.Prelude.{◌≡◌, ◌+◌, ◌≤◌, ◌<◌, ◌↔◌, List, ℕ, length, IfOk, OnOk, IfSome, IsErrOf, MatchResult, vec_len};
ghost use Rattle.std.specs.declared.option.Option.{Option};
ghost use Rattle.std.specs.Io.{ReadsAtMost};
ghost use Rattle.std.specs.Io.KnownBytes.{Consumes, IsAtEnd, ReadConsumes};
ghost use Rattle.stream_io.specs.Stream.{HasCause, Rose};
ghost use Rattle.stream_io.specs.Faults.{TakenBefore};

use crate::{Failed, ReadFault};
use std::alloc::Global;

/// A source of bytes. It may tell which bytes it has left.
pub trait Source {
    /// The bytes that are left, where the source tells them.
    ghost left: { Self → Option (List ℕ) };

    /// How often it has failed. The count stops at 2^64 - 1.
    ghost faults: { Self → ℕ };

    /// Moves some of the first bytes that are left to the front of `into`, and answers how many.
    /// 0 for a piece that isn't empty is the end. After `Failed` all that was left is still there.
    fn read(&mut self, into: &mut [u8]) -> Result<usize, Failed>
        ensures bound { ReadsAtMost result into.new }
        ensures bytes { ReadConsumes (left self.old) (left self.new) result into.new }
        ensures cause { HasCause (faults self.old) (faults self.new) result };
}

/// How many bytes are asked for at once.
const PIECE: usize = 65536;

/// Reads a source to its end, if it has at most `most` bytes left. It takes at most one byte more to find out.
pub fn read_whole<S: Source>(
    alloc: Global,
    source: &mut S,
    most: usize,
) -> Result<Vec<u8>, ReadFault>
    // `Ok` has all that was left, and leaves nothing.
    ensures bytes { IfOk result (λ bytes. IfSome (S.left source.old) (λ left. bytes.items ≡ left)) }
    ensures end { OnOk result (IsAtEnd (S.left source.new)) }
    ensures short { IfOk result (λ bytes. vec_len bytes ≤ most) }

    // `TooLong` names the limit, and comes exactly where more was left and no other fault is answered.
    ensures limit { (m : ℕ) → IsErrOf result (ReadFault.TooLong m) → m ≡ most }
    ensures too_long { IfSome (S.left source.old) (λ left. IsErrOf result (ReadFault.TooLong most)
        ↔ ((most < length left) × (¬ IsErrOf result ReadFault.Failed) × (¬ IsErrOf result ReadFault.NoMemory))) }

    // What it took is no longer left: at a fault at most one byte more than the limit.
    ensures taken { MatchResult result (λ bytes. Consumes (S.left source.old) (S.left source.new) bytes.items)
        (λ fault. (bytes : List ℕ) × Consumes (S.left source.old) (S.left source.new) bytes
        × TakenBefore fault most (length bytes)) }

    // The count of faults never falls, and stands still where no read failed.
    ensures later { S.faults source.old ≤ S.faults source.new }
    ensures kept { OnOk result (S.faults source.new ≡ S.faults source.old) }
    ensures unfailed { ¬ IsErrOf result ReadFault.Failed → S.faults source.new ≡ S.faults source.old }
    ensures failed { IsErrOf result ReadFault.Failed → Rose (S.faults source.old) (S.faults source.new) }
{
    let mut bytes = Vec::new(alloc);
    let mut piece = [0; PIECE];
    'pieces: loop {
        let room = most - bytes.len();
        let wanted = room.saturating_add(1).min(PIECE);
        let count = source.read(&mut piece[..wanted])?;
        if count == 0 {
            return Ok(bytes);
        }
        if count > room {
            return Err(ReadFault::TooLong { most });
        }
        bytes.extend_from_slice(&piece[..count])?;
    }
}
