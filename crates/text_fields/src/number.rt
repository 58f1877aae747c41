ghost use Rattle.std.specs.Prelude.{◌≡◌, ◌≤◌, ◌+◌, ◌-◌, ◌*◌, ◌^◌, ◌++◌, true, IfOk, OnOk, IfSome, IsNone};
ghost use Rattle.std.specs.Char.{is_ascii_digit};
ghost use Rattle.std.specs.Fmt.{decimal};
ghost use Rattle.std.specs.String.{string_bytes};
ghost use Rattle.text_fields.specs.Numbers.{number_of};

use itoa::Buffer;
use std::alloc::{AllocError, Global};

/// The most digits that a number's word may have, leading zeros included.
const MOST_DIGITS: usize = 20;

// The number with one more digit after it.
fn with_digit(number: u64, byte: u8) -> Option<u64>
    ensures more { IfSome result (λ n. (is_ascii_digit byte ≡ true) × (n ≡ number * 10 + (byte - 48))) }
    ensures none { IsNone result → is_ascii_digit byte ≡ true → 2 ^ 64 ≤ number * 10 + (byte - 48) }
{
    if !byte.is_ascii_digit() {
        return None;
    }
    let digit = u64::from(byte - b'0');
    number.checked_mul(10)?.checked_add(digit)
}

/// The number that a word is: 1 to 20 decimal digits, leading zeros allowed, below 2^64.
#[tactic(auto, unfolding(crate::specs::Numbers::number_of))]
pub fn read_number(word: &[u8]) -> Option<u64>
    ensures { result ≡ number_of word.now }
{
    if word.is_empty() || word.len() > MOST_DIGITS {
        return None;
    }
    let mut number = 0;
    for byte in word {
        number = with_digit(number, *byte)?;
    }
    Some(number)
}

/// Puts the number at the text's end, in decimal without leading zeros.
pub fn push_number(text: &mut String, n: u64) -> Result<(), AllocError>
    ensures { OnOk result (string_bytes text.new ≡ string_bytes text.old ++ decimal n) }
{
    // One digit needs no buffer.
    if n < 10 {
        return text.push(char::from(b'0' + n as u8));
    }
    let mut buffer = Buffer::new();
    text.push_str(buffer.format(n))
}

/// The number in decimal, without leading zeros.
pub fn number_text(alloc: Global, n: u64) -> Result<String, AllocError>
    ensures { IfOk result (λ text. string_bytes text ≡ decimal n) }
{
    n.to_string(alloc)
}
