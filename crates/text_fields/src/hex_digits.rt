ghost use Rattle.std.specs.Prelude.{◌≡◌, ◌*◌, ℕ, true, false, length, Ok, Err, None, IfOk, IfSome, IsNone, MatchOption, MatchResult, unwrap_or};
ghost use Rattle.std.specs.Result.{result_ok};
ghost use Rattle.hex.specs.Hex.{decode_of, decode_sized, hex_digit_value, pair_value};
ghost use Rattle.hex.specs.declared.error.FromHexError.{FromHexError};

use std::alloc::{AllocError, Global};

/// What stands in the table for a byte that is no digit.
const NO_DIGIT: u8 = 16;

/// For each byte the value of the hexadecimal digit that it is, in either case. A look-up here takes no branch,
/// and digits are hard to guess.
const VALUES: [u8; 256] = [
    16, 16, 16, 16, 16, 16, 16, 16, 16, 16, 16, 16, 16, 16, 16, 16, 16, 16, 16, 16, 16, 16, 16, 16,
    16, 16, 16, 16, 16, 16, 16, 16, 16, 16, 16, 16, 16, 16, 16, 16, 16, 16, 16, 16, 16, 16, 16, 16,
    0, 1, 2, 3, 4, 5, 6, 7, 8, 9, 16, 16, 16, 16, 16, 16, 16, 10, 11, 12, 13, 14, 15, 16, 16, 16,
    16, 16, 16, 16, 16, 16, 16, 16, 16, 16, 16, 16, 16, 16, 16, 16, 16, 16, 16, 16, 16, 16, 16, 10,
    11, 12, 13, 14, 15, 16, 16, 16, 16, 16, 16, 16, 16, 16, 16, 16, 16, 16, 16, 16, 16, 16, 16, 16,
    16, 16, 16, 16, 16, 16, 16, 16, 16, 16, 16, 16, 16, 16, 16, 16, 16, 16, 16, 16, 16, 16, 16, 16,
    16, 16, 16, 16, 16, 16, 16, 16, 16, 16, 16, 16, 16, 16, 16, 16, 16, 16, 16, 16, 16, 16, 16, 16,
    16, 16, 16, 16, 16, 16, 16, 16, 16, 16, 16, 16, 16, 16, 16, 16, 16, 16, 16, 16, 16, 16, 16, 16,
    16, 16, 16, 16, 16, 16, 16, 16, 16, 16, 16, 16, 16, 16, 16, 16, 16, 16, 16, 16, 16, 16, 16, 16,
    16, 16, 16, 16, 16, 16, 16, 16, 16, 16, 16, 16, 16, 16, 16, 16, 16, 16, 16, 16, 16, 16, 16, 16,
    16, 16, 16, 16, 16, 16, 16, 16, 16, 16, 16, 16, 16, 16,
];

fn digit_value(byte: u8) -> u8
    ensures { result ≡ unwrap_or (hex_digit_value byte) 16 }
{
    VALUES[byte as usize]
}

// The byte of two digits.
fn pair(high: u8, low: u8) -> Option<u8>
    ensures some { IfSome result (λ byte. (i : ℕ) → pair_value high low i ≡ Ok byte) }
    ensures none { IsNone result → (i : ℕ) → (e : FromHexError) × (pair_value high low i ≡ Err e) }
{
    let high = digit_value(high);
    let low = digit_value(low);
    if high >= NO_DIGIT {
        return None;
    }
    if low >= NO_DIGIT {
        return None;
    }
    Some(high * 16 + low)
}

/// Reads digits of either case, two for each byte of `out`, and says whether all are digits.
pub fn read_pairs(word: &[u8], out: &mut [u8]) -> bool
    requires { length word.now ≡ 2 * length out.old }
    ensures { MatchResult (decode_sized word.now (length out.old))
        (λ bytes. (result ≡ true) × (out.new ≡ bytes))
        (λ e. result ≡ false) }
{
    for i in 0..out.len() {
        match pair(word[2 * i], word[2 * i + 1]) {
            Some(byte) => out[i] = byte,
            None => return false,
        }
    }
    true
}

/// The bytes that a word is in hexadecimal, two digits of either case for each; `None` where it is no such word.
pub fn read_hex(alloc: Global, word: &[u8]) -> Result<Option<Vec<u8>>, AllocError>
    ensures { IfOk result (λ read. MatchOption read (result_ok (decode_of word.now) ≡ None)
        (λ bytes. decode_of word.now ≡ Ok bytes.items)) }
{
    if word.len() % 2 == 1 {
        return Ok(None);
    }
    let mut bytes = vec![in alloc; 0; word.len() / 2]?;
    if read_pairs(word, bytes.as_mut_slice()) {
        Ok(Some(bytes))
    } else {
        Ok(None)
    }
}
