ghost use Rattle.std.specs.Prelude.{◌≡◌, ◌++◌, ◌∷◌, [], option_map, IfOk, OnOk};
ghost use Rattle.std.specs.Fmt.{decimal};
ghost use Rattle.std.specs.String.{string_bytes};
ghost use Rattle.adb_model.specs.Seen.{call_of, counts_of, reply_of, place_of, refusal_of};
ghost use Rattle.script.specs.Said.{budget_line, open_line};
ghost use Rattle.script.specs.Printed.{account_with};
ghost use Rattle.script.specs.Text as texts;

use crate::printed_view::PrintedView;
use adb_model::{Account, Call, Head, Key, Place, Refusal, Reply, Slot, Stats};
use std::alloc::{AllocError, Global};
use std::fmt::Write;
use text_fields::{push_hex, push_key, push_number};

/// Data of more bytes than this is printed as `LEN*BB`, where all of them are equal.
const MOST_PLAIN: usize = 32;

/// The room that is taken for a line at first; most lines need no more.
const LINE_ROOM: usize = 128;

// Puts a number and a space at the end of a text.
fn push_spaced(text: &mut String, n: u64) -> Result<(), AllocError>
    ensures { OnOk result (string_bytes text.new ≡ string_bytes text.old ++ decimal n ++ 32 ∷ []) }
{
    push_number(text, n)?;
    text.push_str(" ")
}

fn are_equal(bytes: &[u8]) -> bool
    ensures { result ≡ texts.are_equal bytes.now }
{
    // Each is equal to the next one.
    match bytes {
        [] => true,
        [_, ..] => bytes[1..] == bytes[..bytes.len() - 1],
    }
}

#[tactic(auto, unfolding(crate::specs::Text::data_text))]
fn push_data(text: &mut String, bytes: &[u8]) -> Result<(), AllocError>
    ensures { OnOk result (string_bytes text.new ≡ string_bytes text.old ++ texts.data_text bytes.now) }
{
    if bytes.is_empty() {
        return text.push_str("-");
    }
    let len = bytes.len();
    if len > MOST_PLAIN && are_equal(bytes) {
        push_number(text, len as u64)?;
        text.push_str("*")?;
        let (first, _) = bytes.split_at(1);
        return push_hex(text, first);
    }
    push_hex(text, bytes)
}

// Puts the fields of an account at the end of a text.
#[tactic(auto, unfolding(crate::specs::Text::account_text))]
fn push_fields(text: &mut String, head: &Head, body: &[u8]) -> Result<(), AllocError>
    ensures { OnOk result (string_bytes text.new ≡ string_bytes text.old ++ texts.account_text (account_with head.now body.now)) }
{
    push_spaced(text, head.lamports)?;
    push_key(text, &head.owner)?;
    text.push_str(if head.executable { " 1 " } else { " 0 " })?;
    push_spaced(text, head.rent_epoch)?;
    push_data(text, body)
}

fn push_account(text: &mut String, account: &Account) -> Result<(), AllocError>
    ensures { OnOk result (string_bytes text.new ≡ string_bytes text.old ++ texts.account_text account.now) }
{
    push_fields(text, &account.head(), account.data())
}

/// Puts `all`, or the number, at the end of a text.
#[tactic(auto, unfolding(crate::specs::Text::max_root_text))]
pub fn push_max_root(text: &mut String, max_root: u64) -> Result<(), AllocError>
    ensures { OnOk result (string_bytes text.new ≡ string_bytes text.old ++ texts.max_root_text max_root) }
{
    if max_root == u64::MAX {
        return text.push_str("all");
    }
    push_number(text, max_root)
}

// Puts `-`, or the key after which to go on, at the end of a text.
fn push_after(text: &mut String, after: &Option<Key>) -> Result<(), AllocError>
    ensures { OnOk result (string_bytes text.new ≡ string_bytes text.old ++ texts.after_text (option_map (λ k. k.0) after.now)) }
{
    match after {
        None => text.push_str("-"),
        Some(key) => push_key(text, &key.0),
    }
}

#[tactic(auto, unfolding(crate::specs::Text::call_text))]
fn push_call(
    alloc: Global,
    text: &mut String,
    last: &mut PrintedView,
    call: &Call,
) -> Result<(), AllocError>
    ensures { OnOk result (string_bytes text.new ≡ string_bytes text.old ++ texts.call_text (call_of call.now)) }
{
    match call {
        Call::Store { slot, key, account } => {
            text.push_str("store ")?;
            push_spaced(text, *slot)?;
            push_key(text, &key.0)?;
            text.push_str(" ")?;
            push_account(text, account)
        }
        Call::Root { slot } => write!(text, "root {slot}"),
        Call::Purge { slot } => write!(text, "purge {slot}"),
        Call::Load { view, key } => {
            text.push_str("load ")?;
            last.push(alloc, text, view)?;
            text.push_str(" ")?;
            push_key(text, &key.0)
        }
        Call::Unpin { id } => {
            text.push_str("unpin ")?;
            push_number(text, *id)
        }
        Call::Lease { max_root } => {
            text.push_str("lease ")?;
            push_max_root(text, *max_root)
        }
        Call::EndLease { max_root } => {
            text.push_str("end-lease ")?;
            push_max_root(text, *max_root)
        }
        Call::FlushBegin { slot } => write!(text, "flush-begin {slot}"),
        Call::FlushEnd { slot } => write!(text, "flush-end {slot}"),
        Call::FlushAbort { slot } => write!(text, "flush-abort {slot}"),
        Call::Raise { upto } => write!(text, "raise {upto}"),
        Call::Reclaim { after, most } => {
            text.push_str("reclaim ")?;
            push_after(text, after)?;
            write!(text, " {most}")
        }
        Call::ShrinkBegin { slot } => write!(text, "shrink-begin {slot}"),
        Call::ShrinkEnd { slot } => write!(text, "shrink-end {slot}"),
        Call::ShrinkAbort { slot } => write!(text, "shrink-abort {slot}"),
        Call::SnapBegin { slot } => write!(text, "snap-begin {slot}"),
        Call::SnapEnd { slot } => write!(text, "snap-end {slot}"),
        Call::Recycle => text.push_str("recycle"),
        Call::Stats => text.push_str("stats"),
    }
}

fn push_place(text: &mut String, place: Place) -> Result<(), AllocError>
    ensures { OnOk result (string_bytes text.new ≡ string_bytes text.old ++ texts.place_text (place_of place)) }
{
    match place {
        Place::Cached => text.push_str("cached"),
        Place::InStorage { id } => push_number(text, id),
    }
}

// Puts the newest root, or `none`, at the end of a text.
fn push_newest(text: &mut String, newest: Option<Slot>) -> Result<(), AllocError>
    ensures { OnOk result (string_bytes text.new ≡ string_bytes text.old ++ texts.newest_text newest) }
{
    match newest {
        None => text.push_str("none"),
        Some(slot) => push_number(text, slot),
    }
}

#[tactic(auto, unfolding(crate::specs::Text::refusal_text))]
fn push_refusal(text: &mut String, refusal: Refusal) -> Result<(), AllocError>
    ensures { OnOk result (string_bytes text.new ≡ string_bytes text.old ++ texts.refusal_text (refusal_of refusal)) }
{
    match refusal {
        Refusal::SlotRooted { slot, newest } => write!(text, "slot-rooted {slot} {newest}"),
        Refusal::RootOrder { slot, newest } => write!(text, "root-order {slot} {newest}"),
        Refusal::Rooted { slot } => write!(text, "rooted {slot}"),
        Refusal::ViewTooOld { max_root, cleaned } => {
            text.push_str("view-too-old ")?;
            push_max_root(text, max_root)?;
            write!(text, " {cleaned}")
        }
        Refusal::TooManyPins { most } => write!(text, "too-many-pins {most}"),
        Refusal::NotPinned { id } => write!(text, "not-pinned {id}"),
        Refusal::NotLeased { max_root } => {
            text.push_str("not-leased ")?;
            push_max_root(text, max_root)
        }
        Refusal::NotRooted { slot } => write!(text, "not-rooted {slot}"),
        Refusal::NothingCached { slot } => write!(text, "nothing-cached {slot}"),
        Refusal::Flushing { slot, id } => write!(text, "flushing {slot} {id}"),
        Refusal::NotFlushing { slot } => write!(text, "not-flushing {slot}"),
        Refusal::Full {
            used,
            wanted,
            limit,
        } => write!(text, "full {used} {wanted} {limit}"),
        Refusal::NoCell { limit } => write!(text, "no-cell {limit}"),
        Refusal::IdsSpent => text.push_str("ids-spent"),
        Refusal::PastRoot { upto, newest } => {
            write!(text, "past-root {upto} ")?;
            push_newest(text, newest)
        }
        Refusal::Leased { upto, least } => write!(text, "leased {upto} {least}"),
        Refusal::NoStorage { slot } => write!(text, "no-storage {slot}"),
        Refusal::Shrinking { slot, id } => write!(text, "shrinking {slot} {id}"),
        Refusal::NothingDead { slot } => write!(text, "nothing-dead {slot}"),
        Refusal::NotShrinking { slot } => write!(text, "not-shrinking {slot}"),
        Refusal::SnapOpen { slot } => write!(text, "snap-open {slot}"),
        Refusal::NotRoot { slot } => write!(text, "not-root {slot}"),
        Refusal::SnapTooOld { slot, cleaned } => write!(text, "snap-too-old {slot} {cleaned}"),
        Refusal::Unflushed { slot } => write!(text, "unflushed {slot}"),
        Refusal::NotSnapping { slot } => write!(text, "not-snapping {slot}"),
    }
}

#[tactic(auto, unfolding(crate::specs::Text::counts_text))]
fn push_stats(text: &mut String, stats: &Stats) -> Result<(), AllocError>
    ensures { OnOk result (string_bytes text.new ≡ string_bytes text.old ++ texts.counts_text (counts_of stats.now)) }
{
    let Stats {
        cached,
        filling,
        live,
        retired,
        named,
        rows,
        bytes,
        pins,
    } = *stats;
    write!(
        text,
        "cached {cached} filling {filling} live {live} retired {retired} "
    )?;
    write!(text, "named {named} rows {rows} bytes {bytes} pins {pins}")
}

#[tactic(auto, unfolding(crate::specs::Text::reply_text))]
fn push_reply(text: &mut String, reply: &Reply) -> Result<(), AllocError>
    ensures { OnOk result (string_bytes text.new ≡ string_bytes text.old ++ texts.reply_text (reply_of reply.now)) }
{
    match reply {
        Reply::Done => text.push_str("ok"),
        Reply::Refused { refusal } => push_refusal(text, *refusal),
        Reply::Purged { keys } => write!(text, "ok {keys}"),
        Reply::NotFound => text.push_str("none"),
        Reply::Found {
            slot,
            place,
            account,
        } => {
            text.push_str("some ")?;
            push_spaced(text, *slot)?;
            push_place(text, *place)?;
            text.push_str(" ")?;
            push_account(text, account)
        }
        Reply::FlushBegun { id, bytes } => write!(text, "ok {id} {bytes}"),
        Reply::Raised { cleaned } => write!(text, "ok {cleaned}"),
        Reply::Reclaimed { key } => {
            text.push_str("ok ")?;
            push_key(text, &key.0)
        }
        Reply::NothingLeft => text.push_str("done"),
        Reply::ShrinkBegun { old, new, bytes } => write!(text, "ok {old} {new} {bytes}"),
        Reply::Superseded { slot, old } => write!(text, "superseded {slot} {old}"),
        Reply::SnapBegun { storages } => write!(text, "ok {storages}"),
        Reply::Recycled { storages } => write!(text, "ok {storages}"),
        Reply::Counted { stats } => push_stats(text, stats),
    }
}

// Puts the line of an event at the end of a text.
#[tactic(auto, unfolding(crate::specs::Text::text_of))]
fn push_line(
    alloc: Global,
    text: &mut String,
    last: &mut PrintedView,
    lane: u64,
    call: &Call,
    reply: &Reply,
) -> Result<(), AllocError>
    ensures { OnOk result (string_bytes text.new ≡ string_bytes text.old ++ texts.text_of (record { pass = lane; call = call_of call.now; reply = reply_of reply.now })) }
{
    push_spaced(text, lane)?;
    push_call(alloc, text, last, call)?;
    text.push_str(" = ")?;
    push_reply(text, reply)?;
    text.push_str("\n")
}

// Puts the line of a budget, if there is one, at the end of a text.
#[tactic(auto, unfolding(crate::specs::Said::budget_line))]
fn push_budget(text: &mut String, budget: Option<u64>) -> Result<(), AllocError>
    ensures { OnOk result (string_bytes text.new ≡ string_bytes text.old ++ budget_line budget) }
{
    match budget {
        None => Ok(()),
        Some(budget) => {
            write!(text, "budget {budget} = ok")?;
            text.push_str("\n")
        }
    }
}

// Puts the line of a snapshot that was opened at the end of a text.
#[tactic(auto, unfolding(crate::specs::Said::open_line))]
fn push_opened(text: &mut String, name: &str, slot: Slot) -> Result<(), AllocError>
    ensures { OnOk result (string_bytes text.new ≡ string_bytes text.old ++ open_line name.now slot) }
{
    write!(text, "open {name} = ok {slot}")?;
    text.push_str("\n")
}

// Puts the line of an account that is listed at the end of a text.
#[tactic(auto, unfolding(crate::specs::Text::account_line))]
fn push_listed(
    text: &mut String,
    key: &Key,
    slot: Slot,
    head: &Head,
    body: &[u8],
) -> Result<(), AllocError>
    ensures { OnOk result (string_bytes text.new ≡ string_bytes text.old ++ texts.account_line key.now.0 slot (account_with head.now body.now)) }
{
    push_key(text, &key.0)?;
    text.push_str(" ")?;
    push_spaced(text, slot)?;
    push_fields(text, head, body)?;
    text.push_str("\n")
}

/// Prints the lines of a journal, one after the other.
///
/// It keeps the memory of a line for the next one, and the text of the last view, which isn't made again for
/// an equal view.
#[derive(Drop)]
pub struct JournalPrinter {
    line: String,
    last: PrintedView,
}

impl JournalPrinter {
    /// A printer that has printed nothing.
    pub fn new(alloc: Global) -> JournalPrinter {
        JournalPrinter {
            line: String::new(alloc),
            last: PrintedView::new(alloc),
        }
    }

    /// The journal's line of the budget that a script's header says; nothing where it says none.
    pub fn print_budget(&mut self, budget: Option<u64>) -> Result<&[u8], AllocError>
        ensures { IfOk result (λ line. line.now ≡ budget_line budget) }
    {
        self.line.clear();
        push_budget(&mut self.line, budget)?;
        Ok(self.line.as_bytes())
    }

    /// The journal's line of a snapshot of this name and slot that was opened.
    pub fn print_opened(&mut self, name: &str, slot: Slot) -> Result<&[u8], AllocError>
        ensures { IfOk result (λ line. line.now ≡ open_line name.now slot) }
    {
        self.line.clear();
        push_opened(&mut self.line, name, slot)?;
        Ok(self.line.as_bytes())
    }

    /// The line of an account that is listed: its key, the slot in which it was stored, and its fields.
    pub fn print_account(
        &mut self,
        key: &Key,
        slot: Slot,
        head: &Head,
        body: &[u8],
    ) -> Result<&[u8], AllocError>
        ensures { IfOk result (λ line. line.now ≡ texts.account_line key.now.0 slot (account_with head.now body.now)) }
    {
        self.line.clear();
        push_listed(&mut self.line, key, slot, head, body)?;
        Ok(self.line.as_bytes())
    }

    /// The journal's line of an event, as [`line_text`] gives it. After want of memory the next line is printed
    /// as ever.
    pub fn print(
        &mut self,
        alloc: Global,
        lane: u64,
        call: &Call,
        reply: &Reply,
    ) -> Result<&[u8], AllocError>
        ensures { IfOk result (λ line. line.now ≡ texts.text_of (record { pass = lane; call = call_of call.now; reply = reply_of reply.now })) }
    {
        self.line.clear();
        push_line(alloc, &mut self.line, &mut self.last, lane, call, reply)?;
        Ok(self.line.as_bytes())
    }
}

/// The journal's line of an event: the lane, the call, `=` and the reply, with single spaces, and a newline.
pub fn line_text(
    alloc: Global,
    lane: u64,
    call: &Call,
    reply: &Reply,
) -> Result<Vec<u8>, AllocError>
    ensures { IfOk result (λ line. line.items ≡ texts.text_of (record { pass = lane; call = call_of call.now; reply = reply_of reply.now })) }
{
    let mut text = String::with_capacity(alloc, LINE_ROOM)?;
    let mut last = PrintedView::new(alloc);
    push_line(alloc, &mut text, &mut last, lane, call, reply)?;
    Ok(text.into_bytes())
}
