ghost use Rattle.std.specs.Prelude.{◌≡◌, ◌==◌, ◌≤◌, length, vec_len, map, count_by, IfOk, IfSome};
ghost use Rattle.std.specs.Option.{option_map};
ghost use Rattle.std.specs.List.{slice_split};
ghost use Rattle.script.specs.Arguments as words;

use crate::words::halves;
use adb_model::{MAX_ANCESTORS, View, ViewFault};
use std::alloc::{AllocError, Global};
use std::marker::Model;
use text_fields::read_number;

// The numbers of the parts, where each is one.
fn numbers(alloc: Global, parts: &[&[u8]]) -> Result<Option<Vec<u64>>, AllocError>
    ensures numbers { IfOk result (λ slots. option_map (λ v. v.items) slots ≡ words.numbers_of (map (λ p. p.now) parts.now)) }
    ensures len { IfOk result (λ slots. IfSome slots (λ v. vec_len v ≡ length parts.now)) }
{
    let mut slots = Vec::with_capacity(alloc, parts.len())?;
    for part in parts {
        match read_number(part) {
            Some(slot) => slots.push(slot)?,
            None => return Ok(None),
        }
    }
    Ok(Some(slots))
}

fn commas(word: &[u8]) -> usize
    ensures { result ≡ count_by (λ b. b == 44) word.now }
{
    word.iter().filter(|byte| **byte == b',').count()
}

fn comma_parts<'a>(alloc: Global, word: &'a [u8]) -> Result<Vec<&'a [u8]>, AllocError>
    ensures parts { IfOk result (λ v. map (λ p. p.now) v.items ≡ slice_split (λ b. b == 44) word.now) }
    ensures len { IfOk result (λ v. vec_len v ≡ length (slice_split (λ b. b == 44) word.now)) }
{
    word.split(|byte| *byte == b',').collect(alloc)
}

// The slots of `-`, or of numbers joined by commas. Too many of them are counted before any room is taken.
#[tactic(auto, unfolding(crate::specs::Arguments::ancestors_of))]
fn ancestors(alloc: Global, word: &[u8]) -> Result<Option<Vec<u64>>, AllocError>
    ensures slots { IfOk result (λ slots. option_map (λ v. v.items) slots ≡ words.ancestors_of word.now) }
    ensures most { IfOk result (λ slots. IfSome slots (λ v. vec_len v ≤ 8192)) }
{
    if word == b"-".as_slice() {
        return Ok(Some(Vec::new(alloc)));
    }
    if commas(word) >= MAX_ANCESTORS {
        return Ok(None);
    }
    let parts = comma_parts(alloc, word)?;
    numbers(alloc, &parts)
}

/// The greatest root that a word is: a number, or `all`.
#[tactic(auto, unfolding(crate::specs::Arguments::max_root_of))]
pub fn read_max_root(word: &[u8]) -> Option<u64>
    ensures { result ≡ words.max_root_of word.now }
{
    if word == b"all".as_slice() {
        return Some(u64::MAX);
    }
    read_number(word)
}

// The view that a word is: ancestors, `@` and the greatest root.
#[tactic(auto, unfolding(crate::specs::Arguments::view_of))]
fn read_view(alloc: Global, word: &[u8]) -> Result<Option<View>, AllocError>
    ensures { IfOk result (λ view. view ≡ words.view_of word.now) }
{
    let (front, back) = halves(word, b'@');
    let Some(slots) = ancestors(alloc, front)? else {
        return Ok(None);
    };
    let Some(most) = read_max_root(back) else {
        return Ok(None);
    };
    match View::from_vec(alloc, slots, most) {
        Ok(view) => Ok(Some(view)),
        Err(ViewFault::NoMemory) => Err(AllocError),
        Err(ViewFault::TooManyAncestors { .. }) => unreachable!(),
    }
}

/// The word that was last read as a view, with what it says, so that the same word isn't read again.
#[derive(Drop)]
pub struct LastView<'a> {
    word: &'a [u8],
    view: Option<View>,
}

impl<'a> Model for LastView<'a> {
    ghost use Rattle.std.specs.Prelude.{◌≡◌};
    ghost use Rattle.script.specs.Arguments as words;

    ghost Value = { Unit {0} };

    ghost view = { λ _. tt };

    ghost invariant = { λ last. last.view ≡ words.view_of last.word.now };
}

impl<'a> LastView<'a> {
    /// No word was read yet.
    pub fn new() -> LastView<'a> {
        LastView {
            word: &[],
            view: None,
        }
    }

    /// The view that a word is.
    pub fn read(&mut self, alloc: Global, word: &'a [u8]) -> Result<Option<View>, AllocError>
        ensures { IfOk result (λ view. view ≡ words.view_of word.now) }
    {
        if word != self.word {
            let view = read_view(alloc, word)?;
            *self = LastView { word, view };
        }
        match &self.view {
            Some(view) => Ok(Some(view.try_copy(alloc)?)),
            None => Ok(None),
        }
    }
}
