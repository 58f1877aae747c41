ghost use Rattle.std.specs.Prelude.{◌≡◌, ◌==◌, ◌∷◌, not, length, slice_index, MatchOption, []};
ghost use Rattle.std.specs.List.{position_or_len, prefix_len, before_first, after_first};
ghost use Rattle.script.specs.Reader as reader;
ghost use Rattle.script.specs.Words as texts;

use memchr::{memchr, memchr2};

/// Most words end within so many bytes, in which their end is looked for byte by byte.
const NEAR: usize = 8;

fn is_blank(byte: u8) -> bool
    ensures { result ≡ texts.is_blank byte }
{
    byte == b' ' || byte == b'\t'
}

// How many blanks stand at the front.
fn blanks(line: &[u8]) -> usize
    ensures { result ≡ prefix_len (λ b. texts.is_blank b) line.now }
{
    line.iter().take_while(|byte| is_blank(**byte)).count()
}

// How many bytes stand before the first blank.
fn word_len(line: &[u8]) -> usize
    ensures { result ≡ position_or_len (λ b. texts.is_blank b) line.now }
{
    let (near, far) = line.split_at(line.len().min(NEAR));
    let len = near_len(near);
    if len == near.len() {
        len + far_len(far)
    } else {
        len
    }
}

// The same of a few bytes.
#[tactic(auto, using(crate::proofs::SearchLemmas::place_or_len))]
fn near_len(line: &[u8]) -> usize
    ensures { result ≡ position_or_len (λ b. texts.is_blank b) line.now }
{
    line.iter()
        .position(|byte| is_blank(*byte))
        .unwrap_or(line.len())
}

// The same of many bytes.
#[tactic(auto, using(crate::proofs::SearchLemmas::place_or_len))]
fn far_len(line: &[u8]) -> usize
    ensures { result ≡ position_or_len (λ b. texts.is_blank b) line.now }
{
    memchr2(b' ', b'\t', line).unwrap_or(line.len())
}

/// The first word of a line and what follows it, where the line has a word.
pub fn split_word(line: &[u8]) -> Option<(&[u8], &[u8])>
    ensures { MatchOption result (texts.words line.now ≡ []) (λ split.
        texts.words line.now ≡ split.0.now ∷ texts.words split.1.now) }
{
    let (_, line) = line.split_at(blanks(line));
    if line.is_empty() {
        return None;
    }
    let (word, rest) = line.split_at(word_len(line));
    if word == b"=".as_slice() {
        return None;
    }
    Some((word, rest))
}

// The index of the first separator, or the length.
#[tactic(auto, using(crate::proofs::SearchLemmas::place_or_len))]
fn separator_at(word: &[u8], separator: u8) -> usize
    ensures { result ≡ position_or_len (λ b. b == separator) word.now }
{
    memchr(separator, word).unwrap_or(word.len())
}

/// What stands before the first separator, and after it.
pub fn halves(word: &[u8], separator: u8) -> (&[u8], &[u8])
    ensures before { result.0.now ≡ before_first (λ b. b == separator) word.now }
    ensures after { result.1.now ≡ after_first (λ b. b == separator) word.now }
{
    let at = separator_at(word, separator);
    if at >= word.len() {
        return (word, &[]);
    }
    let (front, _) = word.split_at(at);
    let (_, back) = word.split_at(at + 1);
    (front, back)
}

/// Whether a line whose first word this is is a header line, or would be one at its place.
pub fn begins_header(word: &[u8]) -> bool
    ensures { result ≡ reader.is_header word.now }
{
    word == b"budget".as_slice() || word == b"open".as_slice()
}

/// Whether a line whose first word this is counts as a comment.
pub fn begins_comment(word: &[u8]) -> bool
    ensures { result ≡ (slice_index word.now 0 == 35) }
{
    match word {
        [] => false,
        [first, ..] => *first == b'#',
    }
}
