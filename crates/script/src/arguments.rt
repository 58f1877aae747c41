ghost use Rattle.std.specs.Prelude.{◌≡◌, ◌≤◌, false, List, ℕ, [], length, replicate, option_map, string_bytes, IfOk};
ghost use Rattle.script.specs.declared.fault.Kind.TheVariants as kinds;
ghost use Rattle.text_fields.specs.Keys.{key_of};
ghost use Rattle.text_fields.specs.Names.{name_of};
ghost use Rattle.text_fields.specs.Numbers.{number_of};
ghost use Rattle.script.specs.Arguments.{view_of, max_root_of, flag_of, after_of};
ghost use Rattle.script.specs.Reader as reader;
ghost use Rattle.script.specs.Seen.{Gives};
ghost use Rattle.script.specs.Words.{words};

use crate::data_words::{DataError, read_data};
use crate::fault::{Kind, ReadError, fault};
use crate::view_words::{LastView, read_max_root};
use crate::words::split_word;
use adb_model::{Key, View};
use std::alloc::Global;
use text_fields::{read_key, read_name, read_number};

/// The most workers of a flush.
const MOST_WORKERS: u64 = 16;

/// The number that the line's next word is, which has this place, and the rest of the line.
#[tactic(auto, unfolding(crate::specs::Reader::argument))]
pub fn number_at(word: u32, line: &[u8]) -> Result<(u64, &[u8]), ReadError>
    ensures { Gives (λ x. (x.0, words x.1.now)) result (reader.argument number_of kinds.Number word (words line.now)) }
{
    let Some((text, rest)) = split_word(line) else {
        return Err(fault(word, Kind::Missing));
    };
    match read_number(text) {
        Some(number) => Ok((number, rest)),
        None => Err(fault(word, Kind::Number)),
    }
}

/// The same of a key.
#[tactic(auto, unfolding(crate::specs::Reader::argument))]
pub fn key_at(word: u32, line: &[u8]) -> Result<(Key, &[u8]), ReadError>
    ensures { Gives (λ x. (x.0.0, words x.1.now)) result (reader.argument key_of kinds.Key word (words line.now)) }
{
    let Some((text, rest)) = split_word(line) else {
        return Err(fault(word, Kind::Missing));
    };
    match read_key(text) {
        Some(key) => Ok((Key(key), rest)),
        None => Err(fault(word, Kind::Key)),
    }
}

/// The same of a view.
#[tactic(auto, unfolding(crate::specs::Reader::argument))]
pub fn view_at<'a>(
    alloc: Global,
    last: &mut LastView<'a>,
    word: u32,
    line: &'a [u8],
) -> Result<(View, &'a [u8]), ReadError>
    ensures { Gives (λ x. (x.0, words x.1.now)) result (reader.argument view_of kinds.View word (words line.now)) }
{
    let Some((text, rest)) = split_word(line) else {
        return Err(fault(word, Kind::Missing));
    };
    match last.read(alloc, text)? {
        Some(view) => Ok((view, rest)),
        None => Err(fault(word, Kind::View)),
    }
}

/// The same of a greatest root.
#[tactic(auto, unfolding(crate::specs::Reader::argument))]
pub fn max_root_at(word: u32, line: &[u8]) -> Result<(u64, &[u8]), ReadError>
    ensures { Gives (λ x. (x.0, words x.1.now)) result (reader.argument max_root_of kinds.Number word (words line.now)) }
{
    let Some((text, rest)) = split_word(line) else {
        return Err(fault(word, Kind::Missing));
    };
    match read_max_root(text) {
        Some(max_root) => Ok((max_root, rest)),
        None => Err(fault(word, Kind::Number)),
    }
}

// The key that a word is after which to go on; none where it is `-`.
#[tactic(auto, unfolding(crate::specs::Arguments::after_of))]
fn read_after(word: &[u8]) -> Option<Option<Key>>
    ensures { option_map (λ after. option_map (λ k. k.0) after) result ≡ after_of word.now }
{
    if word == b"-".as_slice() {
        return Some(None);
    }
    match read_key(word) {
        Some(key) => Some(Some(Key(key))),
        None => None,
    }
}

/// The same of a key after which to go on, or none.
#[tactic(auto, unfolding(crate::specs::Reader::argument))]
pub fn after_at(word: u32, line: &[u8]) -> Result<(Option<Key>, &[u8]), ReadError>
    ensures { Gives (λ x. (option_map (λ k. k.0) x.0, words x.1.now)) result (reader.argument after_of kinds.Key word (words line.now)) }
{
    let Some((text, rest)) = split_word(line) else {
        return Err(fault(word, Kind::Missing));
    };
    match read_after(text) {
        Some(after) => Ok((after, rest)),
        None => Err(fault(word, Kind::Key)),
    }
}

/// The same of a number from 1 to the greatest that it may be.
#[tactic(auto, unfolding(crate::specs::Reader::argument, crate::specs::Reader::count_argument))]
pub fn count_at(greatest: u64, word: u32, line: &[u8]) -> Result<(usize, &[u8]), ReadError>
    ensures { Gives (λ x. (x.0, words x.1.now)) result (reader.count_argument greatest word (words line.now)) }
{
    let (count, rest) = number_at(word, line)?;
    if count < 1 || count > greatest {
        return Err(fault(word, Kind::Range));
    }
    Ok((count as usize, rest))
}

/// The owner that the line's next word is, which is its sixth; zeros where it has no more words.
#[tactic(auto, unfolding(crate::specs::Reader::argument))]
pub fn owner_at(line: &[u8]) -> Result<([u8; 32], &[u8]), ReadError>
    ensures { Gives (λ x. (x.0, words x.1.now)) result (reader.optional (replicate 32 0) (reader.argument key_of kinds.Key 6) (words line.now)) }
{
    let Some((text, rest)) = split_word(line) else {
        return Ok(([0; 32], line));
    };
    match read_key(text) {
        Some(owner) => Ok((owner, rest)),
        None => Err(fault(6, Kind::Key)),
    }
}

#[tactic(auto, unfolding(crate::specs::Arguments::flag_of))]
fn read_flag(word: &[u8]) -> Option<bool>
    ensures { result ≡ flag_of word.now }
{
    if word == b"0".as_slice() {
        Some(false)
    } else if word == b"1".as_slice() {
        Some(true)
    } else {
        None
    }
}

/// Whether the account is executable, by the seventh word; it isn't where there is none.
#[tactic(auto, unfolding(crate::specs::Reader::argument))]
pub fn executable_at(line: &[u8]) -> Result<(bool, &[u8]), ReadError>
    ensures { Gives (λ x. (x.0, words x.1.now)) result (reader.optional false (reader.argument flag_of kinds.Range 7) (words line.now)) }
{
    let Some((text, rest)) = split_word(line) else {
        return Ok((false, line));
    };
    match read_flag(text) {
        Some(executable) => Ok((executable, rest)),
        None => Err(fault(7, Kind::Range)),
    }
}

/// The rent epoch that the eighth word is; 0 where there is none.
#[tactic(auto, unfolding(crate::specs::Reader::argument))]
pub fn epoch_at(line: &[u8]) -> Result<(u64, &[u8]), ReadError>
    ensures { Gives (λ x. (x.0, words x.1.now)) result (reader.optional 0 (reader.argument number_of kinds.Number 8) (words line.now)) }
{
    let Some((text, rest)) = split_word(line) else {
        return Ok((0, line));
    };
    match read_number(text) {
        Some(epoch) => Ok((epoch, rest)),
        None => Err(fault(8, Kind::Number)),
    }
}

/// The same of the name of a snapshot.
#[tactic(auto, unfolding(crate::specs::Reader::argument))]
pub fn name_at(alloc: Global, word: u32, line: &[u8]) -> Result<(String, &[u8]), ReadError>
    ensures { Gives (λ x. (string_bytes x.0, words x.1.now)) result (reader.argument name_of kinds.Name word (words line.now)) }
{
    let Some((text, rest)) = split_word(line) else {
        return Err(fault(word, Kind::Missing));
    };
    match read_name(text) {
        Some(name) => Ok((String::from_str(alloc, name)?, rest)),
        None => Err(fault(word, Kind::Name)),
    }
}

/// The workers of a flush, by the fourth word; one where there is none.
pub fn workers_at(line: &[u8]) -> Result<(usize, &[u8]), ReadError>
    ensures { Gives (λ x. (x.0, words x.1.now)) result (reader.optional 1 (reader.count_argument 16 4) (words line.now)) }
{
    match split_word(line) {
        None => Ok((1, line)),
        Some(_) => count_at(MOST_WORKERS, 4, line),
    }
}

/// The data that the ninth word is; none where there is no such word.
#[tactic(auto, unfolding(crate::specs::Reader::argument, crate::specs::Reader::data_argument))]
pub fn data_at(alloc: Global, line: &[u8]) -> Result<(Vec<u8>, &[u8]), ReadError>
    ensures read { Gives (λ x. (x.0.items, words x.1.now)) result (reader.optional [] (reader.data_argument 9) (words line.now)) }
    ensures most { IfOk result (λ x. length x.0.items ≤ 10485760) }
{
    let Some((text, rest)) = split_word(line) else {
        return Ok((Vec::new(alloc), line));
    };
    match read_data(alloc, text) {
        Ok(bytes) => Ok((bytes, rest)),
        Err(DataError::Memory) => Err(ReadError::Memory),
        Err(DataError::Form) => Err(fault(9, Kind::Data)),
        Err(DataError::TooLong) => Err(fault(9, Kind::DataTooLong)),
    }
}

/// No word is left.
#[tactic(auto, unfolding(crate::specs::Reader::ended))]
pub fn end(word: u32, line: &[u8]) -> Result<(), ReadError>
    ensures { Gives (λ x. x) result (reader.ended word (words line.now)) }
{
    match split_word(line) {
        None => Ok(()),
        Some(_) => Err(fault(word, Kind::Surplus)),
    }
}
