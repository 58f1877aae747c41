// The calls of a lane that take or give back its pins.
ghost use Rattle.std.specs.Prelude.{◌≡◌, ℕ, List, Some, IsSome, IfOk, option_map};
ghost use Rattle.adb_model.specs.State.{State};
ghost use Rattle.adb_model.specs.Call as machine;
ghost use Rattle.adb_model.specs.History.{state_after};
ghost use Rattle.vec_scan.specs.Seal.{row_at, row_there};
ghost use Rattle.book_parts.specs.Pins.{HoldsPins};
ghost use Rattle.book_parts.specs.Stands.{Stands, AfterWithPins, HasHistoryWithPins, with_event};
ghost use Rattle.replay.specs.Standing.{IsLane, Lanes, PlayerStands, HasHistory, told};

use crate::laws::lanes_go_on;
use crate::replies::{load_refused, unpinned};
use adb_model::{Account, Key, Place, Reply, View};
use book::{Book, Found, FoundAt};
use pass_pins::PassPins;
use std::alloc::{AllocError, Global};
use std::sync::Arc;
use vec_scan::Sealed;

// The account of the record that starts at a place of an image.
fn account_at(alloc: Global, sealed: &Sealed, offset: usize) -> Result<Arc<Account>, AllocError>
    requires { IsSome (row_at sealed.now.rows offset) }
    ensures { IfOk result (λ account. option_map (λ r. r.account) (row_there sealed.now.rows offset) ≡ Some account.value) }
{
    let account = sealed.record_at(offset).account(alloc)?;
    Ok(Arc::new(alloc, account)?)
}

// What a view sees of a key, for the pass whose pins are in hand. Where there is no memory for an account that
// stands in a storage, the pin of the storage is given back.
fn load_in_hand(
    alloc: Global,
    book: &mut Book,
    pins: &mut PassPins,
    view: &View,
    key: &Key,
) -> Result<Reply, AllocError>
    requires { HasHistoryWithPins book.old pins.old }
    ensures stands { (start : State) (h : List machine.Event) → Stands book.old start h → HoldsPins pins.old (state_after start h)
        → AfterWithPins book.new pins.new start h (machine.Load view.now key.now.0) (told result) }
    ensures pass { pins.new.pass ≡ pins.old.pass }
{
    lanes_go_on();
    match book.load(pins, view, key) {
        Ok(None) => Ok(Reply::NotFound),
        Ok(Some(Found { slot, at })) => match at {
            FoundAt::Cached(account) => Ok(Reply::Found {
                slot,
                place: Place::Cached,
                account,
            }),
            FoundAt::Stored { id, sealed, offset } => match account_at(alloc, &sealed, offset) {
                Ok(account) => Ok(Reply::Found {
                    slot,
                    place: Place::InStorage { id },
                    account,
                }),
                Err(error) => {
                    let _ = book.unpin(pins, id);
                    Err(error)
                }
            },
        },
        Err(refusal) => load_refused(refusal),
    }
}

/// What a view sees of a key, for the pass of a lane. After want of memory nothing has changed.
pub fn load(
    alloc: Global,
    book: &mut Book,
    pins: &mut Vec<PassPins>,
    lane: u64,
    view: &View,
    key: &Key,
) -> Result<Reply, AllocError>
    requires lane { IsLane lane }
    requires some { (p : Lanes) × HasHistory (record p { book = book.old; pins = pins.old.items }) }
    ensures { (p : Lanes) (start : State) (h : List machine.Event) → PlayerStands (record p { book = book.old; pins = pins.old.items }) start h
        → PlayerStands (record p { book = book.new; pins = pins.new.items }) start (with_event h lane (machine.Load view.now key.now.0) (told result)) }
{
    lanes_go_on();
    let pins = &mut pins[lane as usize - 1];
    load_in_hand(alloc, book, pins, view, key)
}

/// The pass of a lane lets go of a storage.
pub fn unpin(
    book: &mut Book,
    pins: &mut Vec<PassPins>,
    lane: u64,
    id: u64,
) -> Result<Reply, AllocError>
    requires lane { IsLane lane }
    requires some { (p : Lanes) × HasHistory (record p { book = book.old; pins = pins.old.items }) }
    ensures { (p : Lanes) (start : State) (h : List machine.Event) → PlayerStands (record p { book = book.old; pins = pins.old.items }) start h
        → PlayerStands (record p { book = book.new; pins = pins.new.items }) start (with_event h lane (machine.Unpin id) (told result)) }
{
    lanes_go_on();
    let pins = &mut pins[lane as usize - 1];
    unpinned(book.unpin(pins, id))
}
