//! Numbers of eight bytes in byte slices, and places that are multiples of eight.
//!
//! Account records and manifests keep their numbers little-endian, as Agave's append vectors and bincode's fixed-width integers
//! do.
#![tactic(auto)]

ghost use Rattle.std.specs.Prelude.{◌≡◌, ◌+◌, ◌-◌, ◌%◌, ◌^◌, ◌<◌, ◌≤◌, length, slice_range, IfSome};
ghost use Rattle.std.specs.Option.{SomeIff};
ghost use Rattle.le_fields.specs.Fields.{number_at, number_bytes, rounded, with_number};

use byteorder::{ByteOrder, LittleEndian};

/// The number in the eight bytes from `at` on, or `None` exactly where fewer than eight stand there.
pub fn get_u64(bytes: &[u8], at: usize) -> Option<u64>
    ensures value { SomeIff result (at + 8 ≤ length bytes.now) (number_at bytes.now at) }
    // These eight bytes are the number's own.
    ensures bytes { IfSome result (λ n. slice_range bytes.now at (at + 8) ≡ number_bytes n) }
{
    if at > bytes.len() || bytes.len() - at < 8 {
        return None;
    }
    Some(LittleEndian::read_u64(&bytes[at..]))
}

/// Writes a number over the eight bytes from `at` on. All other bytes stay.
pub fn put_u64(bytes: &mut [u8], at: usize, value: u64)
    requires { at + 8 ≤ length bytes.old }
    ensures written { bytes.new ≡ with_number bytes.old at value }
    ensures reads_back { number_at bytes.new at ≡ value }
{
    LittleEndian::write_u64(&mut bytes[at..at + 8], value);
}

/// The least multiple of eight that is not below `n`.
pub fn align8(n: u64) -> u64
    requires { n ≤ 2 ^ 64 - 8 }
    ensures value { result ≡ rounded n }
    ensures multiple { result % 8 ≡ 0 }
    ensures above { n ≤ result }
    ensures least { result < n + 8 }
{
    n.div_ceil(8) * 8
}

#[cfg(test)]
mod tests {
    use super::*;

    #[test]
    fn numbers_stand_lowest_byte_first(rt: HostRuntime) {
        let mut bytes = [0x64, 0, 0, 0, 0, 0, 0, 0x80];
        for (at, number) in [
            (0, Some(0x8000_0000_0000_0064)),
            (1, None),
            (8, None),
            (usize::MAX, None),
        ] {
            assert_eq!(rt; get_u64(&bytes, at), number, "at {at}");
        }
        put_u64(&mut bytes, 0, 0x0123_4567_89ab_cdef);
        assert_eq!(rt; bytes, [0xef, 0xcd, 0xab, 0x89, 0x67, 0x45, 0x23, 0x01]);
    }

    #[test]
    fn places_are_rounded_up(rt: HostRuntime) {
        for (place, rounded) in [
            (0, 0),
            (1, 8),
            (8, 8),
            (137, 144),
            (u64::MAX - 7, u64::MAX - 7),
        ] {
            assert_eq!(rt; align8(place), rounded, "{place}");
        }
    }
}
