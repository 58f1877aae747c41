ghost use Rattle.std.specs.Prelude.{◌≡◌, ◌≤◌, ◌++◌, length, OnOk, OnErr};
ghost use Rattle.std.specs.String.{string_bytes};
ghost use Rattle.hex.specs.Hex.{encode_lower};

use std::alloc::AllocError;

/// The most bytes that are put at once.
const PIECE: usize = 32;

/// Puts at most 32 bytes in lower-case hexadecimal at the end of a text. Where memory runs out the text is as
/// before.
pub fn push_piece(text: &mut String, bytes: &[u8]) -> Result<(), AllocError>
    requires { length bytes.now ≤ 32 }
    ensures pushed { OnOk result (string_bytes text.new ≡ string_bytes text.old ++ encode_lower bytes.now) }
    ensures kept { OnErr result (string_bytes text.new ≡ string_bytes text.old) }
{
    let mut room = [0; 2 * PIECE];
    let len = 2 * bytes.len();
    if hex::encode_to_slice(bytes, &mut room[..len]).is_err() {
        unreachable!()
    }
    // Digits are ASCII.
    let digits = unsafe { std::str::from_utf8_unchecked(&room[..len]) };
    text.push_str(digits)
}

/// Puts bytes in lower-case hexadecimal at the end of a text. It takes memory for the text alone.
pub fn push_hex(text: &mut String, bytes: &[u8]) -> Result<(), AllocError>
    ensures { OnOk result (string_bytes text.new ≡ string_bytes text.old ++ encode_lower bytes.now) }
{
    let mut left = bytes;
    while !left.is_empty() {
        let (piece, rest) = left.split_at(left.len().min(PIECE));
        push_piece(text, piece)?;
        left = rest;
    }
    Ok(())
}
