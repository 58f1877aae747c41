ghost use Rattle.std.specs.Prelude.{◌≡◌, ◌==◌, ◌<◌, ◌≤◌, ◌+◌, ◌^◌, ◌∷◌, length, map, string_bytes, IfOk, IfSome};
ghost use Rattle.std.specs.List.{position_or_len};
ghost use Rattle.std.specs.Option.{option_map};
ghost use Rattle.std.specs.Str.Lines.{lines as lines_of, strip_carriage_return};
ghost use Rattle.script.specs.Grammar.{IsScript, IsNoScript};
ghost use Rattle.script.specs.Reader as reader;
ghost use Rattle.script.specs.Seen.{Gives, GivesScript, line_seen, most_number, rest_seen, script_seen, error_at};
ghost use Rattle.script.specs.Words as texts;

use crate::fault::{LineError, LineFault, ReadError, ScriptFault};
use crate::line::{Line, Script};
use crate::reading::{only_name, only_number, read_line};
use crate::view_words::LastView;
use crate::words::{begins_comment, split_word};
use memchr::memchr;
use std::alloc::Global;

// The index of the first newline, or the length.
#[tactic(auto, using(crate::proofs::SearchLemmas::place_or_len))]
fn newline(bytes: &[u8]) -> usize
    ensures { result ≡ position_or_len (λ b. b == 10) bytes.now }
{
    memchr(b'\n', bytes).unwrap_or(bytes.len())
}

fn without_return(line: &[u8]) -> &[u8]
    ensures { result.now ≡ strip_carriage_return line.now }
{
    match line {
        [front @ .., b'\r'] => front,
        _ => line,
    }
}

// The first line, and the bytes after its end.
fn next_line(bytes: &[u8]) -> (&[u8], &[u8])
    requires { 0 < length bytes.now }
    ensures line { lines_of bytes.now ≡ result.0.now ∷ lines_of result.1.now }
    ensures rest { length result.1.now < length bytes.now }
{
    let at = newline(bytes);
    if at >= bytes.len() {
        return (bytes, &[]);
    }
    let (line, _) = bytes.split_at(at);
    let (_, rest) = bytes.split_at(at + 1);
    (without_return(line), rest)
}

// What a line says, if anything.
fn said<'a>(
    alloc: Global,
    last: &mut LastView<'a>,
    line: &'a [u8],
) -> Result<Option<Line>, ReadError>
    ensures { Gives (λ o. option_map line_seen o) result (reader.said_by (texts.words line.now)) }
{
    let Some((first, rest)) = split_word(line) else {
        return Ok(None);
    };
    if begins_comment(first) {
        return Ok(None);
    }
    Ok(Some(read_line(alloc, last, first, rest)?))
}

fn at_line(line: u64, error: ReadError) -> LineError
    ensures { result ≡ error_at line error }
{
    match error {
        ReadError::Memory => LineError::Memory,
        ReadError::Fault(fault) => LineError::Fault(LineFault {
            line,
            word: fault.word,
            kind: fault.kind,
        }),
    }
}

// The lines of a script from one on: the number of that line, and the bytes.
#[derive(Clone, Copy)]
struct Rest<'a> {
    number: u64,
    bytes: &'a [u8],
}

// Whether the line has no words, or is a comment.
fn is_skipped(line: &[u8]) -> bool
    ensures { result ≡ texts.is_skipped (texts.words line.now) }
{
    match split_word(line) {
        None => true,
        Some((first, _)) => begins_comment(first),
    }
}

// The lines from the first on that isn't skipped.
fn past_skipped(rest: Rest<'_>) -> Rest<'_>
    requires { most_number rest < 2 ^ 64 }
    ensures lines { reader.unskipped rest.entry.number (lines_of rest.entry.bytes.now) ≡ rest_seen result }
    ensures counted { most_number result ≤ most_number rest.entry }
{
    let Rest {
        mut number,
        mut bytes,
    } = rest;
    while !bytes.is_empty() {
        let (line, after) = next_line(bytes);
        if !is_skipped(line) {
            break;
        }
        number += 1;
        bytes = after;
    }
    Rest { number, bytes }
}

// What the first line has after this word, where it begins with it, and the lines after that one.
fn header<'a>(first: &[u8], rest: Rest<'a>) -> Option<(&'a [u8], Rest<'a>)>
    requires { most_number rest < 2 ^ 64 }
    ensures words { option_map (λ x. (texts.words x.0.now, rest_seen x.1)) result ≡ reader.header_words first.now (rest_seen rest.entry) }
    ensures counted { IfSome result (λ x. most_number x.1 ≤ most_number rest.entry) }
{
    if rest.bytes.is_empty() {
        return None;
    }
    let (line, bytes) = next_line(rest.bytes);
    match split_word(line) {
        Some((word, words)) if word == first => Some((
            words,
            Rest {
                number: rest.number + 1,
                bytes,
            },
        )),
        _ => None,
    }
}

// The budget, if the lines begin with one, and the lines after it.
#[tactic(auto, unfolding(crate::specs::Reader::budget_from))]
fn read_budget(rest: Rest<'_>) -> Result<(Option<u64>, Rest<'_>), LineError>
    requires { most_number rest < 2 ^ 64 }
    ensures read { GivesScript (λ x. (x.0, rest_seen x.1)) result (reader.budget_from (rest_seen rest.entry)) }
    ensures counted { IfOk result (λ x. most_number x.1 ≤ most_number rest.entry) }
{
    let rest = past_skipped(rest);
    let Some((words, after)) = header(b"budget", rest) else {
        return Ok((None, rest));
    };
    match only_number(2, words) {
        Ok(budget) => Ok((Some(budget), after)),
        Err(error) => Err(at_line(rest.number, error)),
    }
}

// The name of the snapshot that the lines open, if they begin so, and the lines after it.
#[tactic(auto, unfolding(crate::specs::Reader::opened_from))]
fn read_opened(alloc: Global, rest: Rest<'_>) -> Result<(Option<String>, Rest<'_>), LineError>
    requires { most_number rest < 2 ^ 64 }
    ensures read { GivesScript (λ x. (option_map string_bytes x.0, rest_seen x.1)) result (reader.opened_from (rest_seen rest.entry)) }
    ensures counted { IfOk result (λ x. most_number x.1 ≤ most_number rest.entry) }
{
    let rest = past_skipped(rest);
    let Some((words, after)) = header(b"open", rest) else {
        return Ok((None, rest));
    };
    match only_name(alloc, words) {
        Ok(name) => Ok((Some(name), after)),
        Err(error) => Err(at_line(rest.number, error)),
    }
}

// What the lines after the header say, or their first bad word.
fn read_lines(alloc: Global, first: u64, bytes: &[u8]) -> Result<Vec<Line>, LineError>
    requires { first + length bytes.now < 2 ^ 64 }
    ensures { GivesScript (λ lines. map line_seen lines.items) result (reader.lines_from first (lines_of bytes.now)) }
{
    let mut lines = Vec::new(alloc);
    let mut last = LastView::new();
    let mut rest = bytes;
    let mut number = first;
    while !rest.is_empty() {
        let (line, after) = next_line(rest);
        match said(alloc, &mut last, line) {
            Ok(Some(line)) => lines.push(line)?,
            Ok(None) => {}
            Err(error) => return Err(at_line(number, error)),
        }
        number += 1;
        rest = after;
    }
    Ok(lines)
}

/// What the bytes of a script say, or their first bad word.
#[tactic(auto, unfolding(crate::specs::Reader::script_of))]
pub fn read_script(alloc: Global, bytes: &[u8]) -> Result<Script, LineError>
    ensures { GivesScript script_seen result (reader.script_of bytes.now) }
{
    let (budget, rest) = read_budget(Rest { number: 1, bytes })?;
    let (opened, rest) = read_opened(alloc, rest)?;
    let lines = read_lines(alloc, rest.number, rest.bytes)?;
    Ok(Script {
        budget,
        opened,
        lines,
    })
}

/// What the bytes of a script say.
///
/// # Errors
/// `Form` exactly where the bytes are no script, unless memory runs out, which is `NoMemory`.
pub fn parse(alloc: Global, bytes: &[u8]) -> Result<Script, ScriptFault>
    ensures script { IfOk result (λ script. IsScript bytes.now (script_seen script)) }
    ensures form { result ≡ Err ScriptFault.Form → IsNoScript bytes.now }
{
    match read_script(alloc, bytes) {
        Ok(script) => Ok(script),
        Err(LineError::Memory) => Err(ScriptFault::NoMemory),
        Err(LineError::Fault(_)) => Err(ScriptFault::Form),
    }
}
