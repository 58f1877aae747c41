ghost use Rattle.std.specs.Prelude.{◌≡◌, ◌≢◌, ◌≤◌, ◌<◌, ◌↔◌, length, replicate, IsTrue, IsOk, IfOk, IsSomeAnd};
ghost use Rattle.std.specs.Char.{is_ascii_hexdigit};
ghost use Rattle.std.specs.List.{list_all};
ghost use Rattle.hex.specs.Hex.{decode_of};
ghost use Rattle.script.specs.Arguments as words;
ghost use Rattle.script.specs.declared.data_words.DataError.TheVariants as data_errors;

use crate::words::halves;
use adb_model::MAX_DATA_LEN;
use std::alloc::{AllocError, Global};
use text_fields::{read_hex, read_number};

/// Why a word gives no data.
#[derive(Clone, Copy, Debug, PartialEq, Eq)]
pub enum DataError {
    /// Want of memory.
    Memory,
    /// It is no word of data.
    Form,
    /// It says more bytes than an account can have.
    TooLong,
}

impl From<AllocError> for DataError {
    ghost from_gives = { λ _ e. e ≡ data_errors.Memory };

    fn from(_: AllocError) -> Self {
        DataError::Memory
    }
}

// The byte that two digits are.
fn read_byte(word: &[u8]) -> Option<u8>
    ensures { result ≡ words.only_byte (decode_of word.now) }
{
    let mut byte = [0; 1];
    match hex::decode_to_slice(word, &mut byte) {
        Ok(()) => Some(byte[0]),
        Err(_) => None,
    }
}

// The length and the byte of `LEN*BB`.
#[tactic(auto, unfolding(crate::specs::Arguments::repeat_of))]
fn read_repeat(word: &[u8]) -> Option<(u64, u8)>
    ensures { result ≡ words.repeat_of word.now }
{
    let (front, back) = halves(word, b'*');
    let len = read_number(front)?;
    let byte = read_byte(back)?;
    Some((len, byte))
}

// So many bytes that are all the same, in one piece of memory.
fn repeated(alloc: Global, len: u64, byte: u8) -> Result<Vec<u8>, DataError>
    ensures data { IfOk result (λ bytes. (bytes.items ≡ replicate len byte) × (length bytes.items ≤ 10485760)) }
    ensures too_long { result ≡ Err DataError.TooLong → 10485760 < len }
    ensures no_form { result ≢ Err DataError.Form }
{
    if len > MAX_DATA_LEN as u64 {
        return Err(DataError::TooLong);
    }
    Ok(vec![in alloc; byte; len as usize]?)
}

fn all_digits(word: &[u8]) -> bool
    ensures { result ≡ list_all (λ b. is_ascii_hexdigit b) word.now }
{
    word.iter().all(|byte| byte.is_ascii_hexdigit())
}

// Whether the word is an even number of digits.
fn are_pairs(word: &[u8]) -> bool
    ensures { IsTrue result ↔ IsOk (decode_of word.now) }
{
    word.len() % 2 == 0 && all_digits(word)
}

// Bytes in hexadecimal. Too many of them are found before any room is taken.
#[tactic(auto, unfolding(crate::specs::Arguments::digits_of))]
fn read_digits(alloc: Global, word: &[u8]) -> Result<Vec<u8>, DataError>
    ensures data { IfOk result (λ bytes. (words.digits_of word.now ≡ Some bytes.items) × (length bytes.items ≤ 10485760)) }
    ensures form { result ≡ Err DataError.Form → words.digits_of word.now ≡ None }
    ensures too_long { result ≡ Err DataError.TooLong → IsSomeAnd (words.digits_of word.now) (λ bytes. 10485760 < length bytes) }
{
    if word.len() < 2 {
        return Err(DataError::Form);
    }
    if word.len() > 2 * MAX_DATA_LEN {
        let error = if are_pairs(word) {
            DataError::TooLong
        } else {
            DataError::Form
        };
        return Err(error);
    }
    match read_hex(alloc, word)? {
        Some(bytes) => Ok(bytes),
        None => Err(DataError::Form),
    }
}

/// The data that a word is: `-`, `LEN*BB`, or an even number of at least two digits.
#[tactic(auto, unfolding(crate::specs::Arguments::data_of))]
pub fn read_data(alloc: Global, word: &[u8]) -> Result<Vec<u8>, DataError>
    ensures data { IfOk result (λ bytes. (words.data_of word.now ≡ Some bytes.items) × (length bytes.items ≤ 10485760)) }
    ensures form { result ≡ Err DataError.Form → words.data_of word.now ≡ None }
    ensures too_long { result ≡ Err DataError.TooLong → IsSomeAnd (words.data_of word.now) (λ bytes. 10485760 < length bytes) }
{
    if word == b"-".as_slice() {
        return Ok(Vec::new(alloc));
    }
    match read_repeat(word) {
        Some((len, byte)) => repeated(alloc, len, byte),
        None => read_digits(alloc, word),
    }
}
