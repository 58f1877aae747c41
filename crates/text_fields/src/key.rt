ghost use Rattle.std.specs.Prelude.{◌≡◌, ◌<◌, ◌≤◌, ◌++◌, length, IfOk, OnOk, OnErr};
ghost use Rattle.std.specs.String.{string_bytes};
ghost use Rattle.text_fields.specs.Keys as keys;

use crate::hex_digits::read_pairs;
use crate::hex_text::push_piece;
use std::alloc::{AllocError, Global};

/// The value whose bytes are all zero.
const ZEROS: [u8; 32] = [0; 32];

/// The 32-byte value that a word is: an even number of 2 to 64 hexadecimal digits of either case;
/// zero bytes follow.
#[tactic(auto, unfolding(crate::specs::Keys::key_of))]
pub fn read_key(word: &[u8]) -> Option<[u8; 32]>
    ensures { result ≡ keys.key_of word.now }
{
    if word.len() < 2 || word.len() > 64 {
        return None;
    }
    if word.len() % 2 == 1 {
        return None;
    }
    let mut key = [0; 32];
    let half = word.len() / 2;
    if read_pairs(word, &mut key[..half]) {
        Some(key)
    } else {
        None
    }
}

// How many of the bytes are printed.
fn printed_len(bytes: &[u8]) -> usize
    requires { 0 < length bytes.now }
    ensures len { result ≡ keys.printed_len bytes.now }
    ensures within { result ≤ length bytes.now }
{
    let zeros = bytes.iter().rev().take_while(|byte| **byte == 0).count();
    bytes.len().saturating_sub(zeros).max(1)
}

/// The value in lower-case hexadecimal: trailing zero bytes are cut, and one byte is left.
#[tactic(auto, unfolding(crate::specs::Keys::key_text))]
pub fn key_text(alloc: Global, key: &[u8; 32]) -> Result<String, AllocError>
    ensures { IfOk result (λ text. string_bytes text ≡ keys.key_text key.now) }
{
    let (printed, _) = key.split_at(printed_len(key));
    hex::encode(alloc, printed)
}

/// Puts the value at the end of a text, as `key_text` prints it. Where memory runs out the text is
/// as before.
#[tactic(auto, unfolding(crate::specs::Keys::key_text))]
pub fn push_key(text: &mut String, key: &[u8; 32]) -> Result<(), AllocError>
    ensures pushed { OnOk result (string_bytes text.new ≡ string_bytes text.old ++ keys.key_text key.now) }
    ensures kept { OnErr result (string_bytes text.new ≡ string_bytes text.old) }
{
    // Most owners.
    if key.as_slice() == ZEROS.as_slice() {
        return text.push_str("00");
    }
    let (printed, _) = key.split_at(printed_len(key));
    push_piece(text, printed)
}
