ghost use Rattle.std.specs.Prelude.{◌≡◌, ◌≤◌, ◌<◌, List, ℕ, [], ◌∷◌, length, string_bytes, IfOk};
ghost use Rattle.adb_model.specs.Account.{account_of};
ghost use Rattle.script.specs.Reader as reader;
ghost use Rattle.script.specs.Seen.{Gives, order_seen, line_seen};
ghost use Rattle.script.specs.Words.{words};

use crate::arguments::{
    after_at, count_at, data_at, end, epoch_at, executable_at, key_at, max_root_at, name_at,
    number_at, owner_at, view_at, workers_at,
};
use crate::fault::{Kind, ReadError, fault};
use crate::line::{Line, Order};
use crate::view_words::LastView;
use crate::words::{begins_header, split_word};
use adb_model::{Account, Call, Key, View};
use std::alloc::{AllocError, Global};
use std::sync::Arc;
use text_fields::read_number;

/// The greatest lane.
const MOST_LANES: u64 = 64;

/// The most keys of a reclaim.
const MOST_KEYS: u64 = 256;

fn account(
    alloc: Global,
    lamports: u64,
    owner: [u8; 32],
    executable: bool,
    rent_epoch: u64,
    bytes: Vec<u8>,
) -> Result<Arc<Account>, AllocError>
    requires { length bytes.items ≤ 10485760 }
    ensures { IfOk result (λ account. account.value ≡ account_of lamports owner executable rent_epoch bytes.items) }
{
    match Account::new(lamports, owner, executable, rent_epoch, bytes) {
        Ok(account) => Ok(Arc::new(alloc, account)?),
        Err(_) => unreachable!(),
    }
}

#[tactic(auto, unfolding(crate::specs::Reader::store_of))]
fn store(alloc: Global, line: &[u8]) -> Result<Order, ReadError>
    ensures { Gives order_seen result (reader.store_of (words line.now)) }
{
    let (slot, rest) = number_at(3, line)?;
    let (key, rest) = key_at(4, rest)?;
    let (lamports, rest) = number_at(5, rest)?;
    // Where no words follow, each that may be left out is.
    if rest.is_empty() {
        let account = account(alloc, lamports, [0; 32], false, 0, Vec::new(alloc))?;
        return Ok(Order::Event(Call::Store { slot, key, account }));
    }
    let (owner, rest) = owner_at(rest)?;
    let (executable, rest) = executable_at(rest)?;
    let (rent_epoch, rest) = epoch_at(rest)?;
    let (bytes, rest) = data_at(alloc, rest)?;
    end(10, rest)?;
    let account = account(alloc, lamports, owner, executable, rent_epoch, bytes)?;
    Ok(Order::Event(Call::Store { slot, key, account }))
}

/// The number that has this place in the line, where no more words follow.
#[tactic(auto, unfolding(crate::specs::Reader::only_number))]
pub fn only_number(word: u32, line: &[u8]) -> Result<u64, ReadError>
    requires { word < 10 }
    ensures { Gives (λ n. n) result (reader.only_number word (words line.now)) }
{
    let (number, rest) = number_at(word, line)?;
    end(word + 1, rest)?;
    Ok(number)
}

#[tactic(auto, unfolding(crate::specs::Reader::flush_of))]
fn flush(line: &[u8]) -> Result<Order, ReadError>
    ensures { Gives order_seen result (reader.flush_of (words line.now)) }
{
    let (slot, rest) = number_at(3, line)?;
    let (workers, rest) = workers_at(rest)?;
    end(5, rest)?;
    Ok(Order::Flush { slot, workers })
}

#[tactic(auto, unfolding(crate::specs::Reader::snap_of))]
fn snap(alloc: Global, line: &[u8]) -> Result<Order, ReadError>
    ensures { Gives order_seen result (reader.snap_of (words line.now)) }
{
    let (slot, rest) = number_at(3, line)?;
    let (name, rest) = name_at(alloc, 4, rest)?;
    end(5, rest)?;
    Ok(Order::Snap { slot, name })
}

/// The name of a header that has no more than that.
#[tactic(auto, unfolding(crate::specs::Reader::only_name))]
pub fn only_name(alloc: Global, line: &[u8]) -> Result<String, ReadError>
    ensures { Gives (λ name. string_bytes name) result (reader.only_name (words line.now)) }
{
    let (name, rest) = name_at(alloc, 2, line)?;
    end(3, rest)?;
    Ok(name)
}

#[tactic(auto, unfolding(crate::specs::Reader::reclaim_of))]
fn reclaim(line: &[u8]) -> Result<Order, ReadError>
    ensures { Gives order_seen result (reader.reclaim_of (words line.now)) }
{
    let (after, rest) = after_at(3, line)?;
    let (most, rest) = count_at(MOST_KEYS, 4, rest)?;
    end(5, rest)?;
    Ok(Order::Event(Call::Reclaim { after, most }))
}

// The greatest root of an order that has no more than that.
#[tactic(auto, unfolding(crate::specs::Reader::only_max_root))]
fn only_max_root(line: &[u8]) -> Result<u64, ReadError>
    ensures { Gives (λ n. n) result (reader.only_max_root (words line.now)) }
{
    let (max_root, rest) = max_root_at(3, line)?;
    end(4, rest)?;
    Ok(max_root)
}

// The view and the key of an order that has no more than that.
#[tactic(auto, unfolding(crate::specs::Reader::view_and_key_of))]
fn view_and_key<'a>(
    alloc: Global,
    last: &mut LastView<'a>,
    line: &'a [u8],
) -> Result<(View, Key), ReadError>
    ensures { Gives (λ x. (x.0, x.1.0)) result (reader.view_and_key_of (words line.now)) }
{
    let (view, rest) = view_at(alloc, last, 3, line)?;
    let (key, rest) = key_at(4, rest)?;
    end(5, rest)?;
    Ok((view, key))
}

// What a command of shrinks or of snapshots asks for.
#[tactic(auto, unfolding(crate::specs::Reader::copying_of))]
fn copying(alloc: Global, command: &[u8], line: &[u8]) -> Result<Order, ReadError>
    ensures { Gives order_seen result (reader.copying_of command.now (words line.now)) }
{
    if command == b"shrink-begin".as_slice() {
        let slot = only_number(3, line)?;
        Ok(Order::Event(Call::ShrinkBegin { slot }))
    } else if command == b"shrink-end".as_slice() {
        let slot = only_number(3, line)?;
        Ok(Order::Event(Call::ShrinkEnd { slot }))
    } else if command == b"shrink-abort".as_slice() {
        let slot = only_number(3, line)?;
        Ok(Order::Event(Call::ShrinkAbort { slot }))
    } else if command == b"shrink".as_slice() {
        let slot = only_number(3, line)?;
        Ok(Order::Shrink { slot })
    } else if command == b"snap".as_slice() {
        snap(alloc, line)
    } else if command == b"snap-begin".as_slice() {
        let slot = only_number(3, line)?;
        Ok(Order::Event(Call::SnapBegin { slot }))
    } else if command == b"snap-end".as_slice() {
        let slot = only_number(3, line)?;
        Ok(Order::Event(Call::SnapEnd { slot }))
    } else {
        Err(fault(2, Kind::Unknown))
    }
}

// What such a command asks for, or one that has a number and no more.
#[tactic(auto, unfolding(crate::specs::Reader::numbered_of))]
fn numbered(alloc: Global, command: &[u8], line: &[u8]) -> Result<Order, ReadError>
    ensures { Gives order_seen result (reader.numbered_of command.now (words line.now)) }
{
    if command == b"root".as_slice() {
        let slot = only_number(3, line)?;
        Ok(Order::Event(Call::Root { slot }))
    } else if command == b"purge".as_slice() {
        let slot = only_number(3, line)?;
        Ok(Order::Event(Call::Purge { slot }))
    } else if command == b"unpin".as_slice() {
        let id = only_number(3, line)?;
        Ok(Order::Event(Call::Unpin { id }))
    } else if command == b"flush-begin".as_slice() {
        let slot = only_number(3, line)?;
        Ok(Order::Event(Call::FlushBegin { slot }))
    } else if command == b"flush-end".as_slice() {
        let slot = only_number(3, line)?;
        Ok(Order::Event(Call::FlushEnd { slot }))
    } else if command == b"flush-abort".as_slice() {
        let slot = only_number(3, line)?;
        Ok(Order::Event(Call::FlushAbort { slot }))
    } else if command == b"raise".as_slice() {
        let upto = only_number(3, line)?;
        Ok(Order::Event(Call::Raise { upto }))
    } else if command == b"clean".as_slice() {
        let upto = only_number(3, line)?;
        Ok(Order::Clean { upto })
    } else {
        copying(alloc, command, line)
    }
}

#[tactic(auto, unfolding(crate::specs::Reader::order_of))]
fn order<'a>(alloc: Global, last: &mut LastView<'a>, line: &'a [u8]) -> Result<Order, ReadError>
    ensures { Gives order_seen result (reader.order_of (words line.now)) }
{
    let Some((command, rest)) = split_word(line) else {
        return Err(fault(2, Kind::Missing));
    };
    if command == b"store".as_slice() {
        store(alloc, rest)
    } else if command == b"get".as_slice() {
        let (view, key) = view_and_key(alloc, last, rest)?;
        Ok(Order::Get { view, key })
    } else if command == b"load".as_slice() {
        let (view, key) = view_and_key(alloc, last, rest)?;
        Ok(Order::Event(Call::Load { view, key }))
    } else if command == b"lease".as_slice() {
        let max_root = only_max_root(rest)?;
        Ok(Order::Event(Call::Lease { max_root }))
    } else if command == b"end-lease".as_slice() {
        let max_root = only_max_root(rest)?;
        Ok(Order::Event(Call::EndLease { max_root }))
    } else if command == b"flush".as_slice() {
        flush(rest)
    } else if command == b"reclaim".as_slice() {
        reclaim(rest)
    } else if command == b"recycle".as_slice() {
        end(3, rest)?;
        Ok(Order::Event(Call::Recycle))
    } else if command == b"stats".as_slice() {
        end(3, rest)?;
        Ok(Order::Event(Call::Stats))
    } else {
        numbered(alloc, command, rest)
    }
}

// What is wrong with a first word that is no lane.
#[tactic(auto, unfolding(crate::specs::Reader::first_fault))]
fn first_fault(word: &[u8]) -> Kind
    ensures { result ≡ reader.first_fault word.now }
{
    if begins_header(word) {
        Kind::Header
    } else {
        Kind::Lane
    }
}

fn lane(word: &[u8]) -> Result<u64, ReadError>
    ensures { Gives (λ n. (n, [])) result (reader.good 1 (reader.first_fault word.now) [] (reader.lane_of word.now)) }
{
    match read_number(word) {
        Some(lane @ 1..=MOST_LANES) => Ok(lane),
        _ => Err(fault(1, first_fault(word))),
    }
}

/// What a line says that isn't skipped, by its first word and what follows that.
#[tactic(auto, unfolding(crate::specs::Reader::line_of, crate::specs::Reader::lane_argument))]
pub fn read_line<'a>(
    alloc: Global,
    last: &mut LastView<'a>,
    first: &[u8],
    rest: &'a [u8],
) -> Result<Line, ReadError>
    ensures { Gives line_seen result (reader.line_of (first.now ∷ words rest.now)) }
{
    let lane = lane(first)?;
    let order = order(alloc, last, rest)?;
    Ok(Line { lane, order })
}
