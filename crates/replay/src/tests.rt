ghost use Rattle.std.specs.Prelude.{◌<◌, IfOk};
ghost use Rattle.adb_model.specs.Seen.{call_of};
ghost use Rattle.replay.specs.Standing.{IsOfFewKeys};

use crate::{Player, run_replay};
use adb_model::{Account, Call, Key, Refusal, Reply, Slot, View, plain_answer};
use book::Book;
use dir_io::MemDir;
use script::parse;
use std::alloc::Global;
use std::sync::Arc;
use std::test::Fail;
use stream_io::MemSink;

const SLOTS: u64 = 16;

const KEYS: u64 = 4;

/// Numbers that look like chance.
#[derive(Drop)]
struct Numbers(u64);

impl Numbers {
    fn below(&mut self, end: u64) -> u64
        requires { 0 < end }
        ensures { result < end }
    {
        self.0 = self
            .0
            .wrapping_mul(6_364_136_223_846_793_005)
            .wrapping_add(1_442_695_040_888_963_407);
        (self.0 >> 33) % end
    }
}

fn key(number: u64) -> Key {
    Key([number.to_le_bytes()[0]; 32])
}

// One of few accounts, every fourth a tomb.
fn any_account(alloc: Global, numbers: &mut Numbers) -> Result<Arc<Account>, Fail> {
    let account = Account::new(numbers.below(4), [1; 32], false, 9, Vec::new(alloc))?;
    Ok(Arc::new(alloc, account)?)
}

// One call, most often a store or a load. Stores are of the slots from a base on; what is done to roots is done to
// those up to it.
fn any_call(alloc: Global, numbers: &mut Numbers, base: Slot) -> Result<Call, Fail>
    requires { base < 12 }
    ensures { IfOk result (λ call. IsOfFewKeys (call_of call)) }
{
    let slot = base + numbers.below(4);
    let root = numbers.below(base + 1);
    let key = key(numbers.below(KEYS));
    match numbers.below(64) {
        0..=23 => Ok(Call::Store {
            slot,
            key,
            account: any_account(alloc, numbers)?,
        }),
        24 | 25 => Ok(Call::Root { slot: base }),
        26 => Ok(Call::Purge { slot }),
        27 | 28 => Ok(Call::Stats),
        29..=31 => Ok(Call::FlushBegin { slot: root }),
        32..=34 => Ok(Call::FlushEnd { slot: root }),
        35 => Ok(Call::FlushAbort { slot: root }),
        36 => Ok(Call::Unpin { id: 1 + root }),
        37 | 38 => Ok(Call::Raise { upto: root }),
        39..=41 => Ok(Call::Reclaim {
            after: Some(key).filter(|_| slot % 2 == 1),
            most: 2,
        }),
        42..=44 => Ok(Call::ShrinkBegin { slot: root }),
        45 | 46 => Ok(Call::ShrinkEnd { slot: root }),
        47 => Ok(Call::ShrinkAbort { slot: root }),
        48 => Ok(Call::Recycle),
        49 | 50 => Ok(Call::SnapBegin { slot: root }),
        51 => Ok(Call::SnapEnd { slot: root }),
        _ => {
            let ancestors = [numbers.below(SLOTS), slot];
            Ok(Call::Load {
                view: View::new(alloc, &ancestors, numbers.below(SLOTS))?,
                key,
            })
        }
    }
}

/// What a caller is told, as far as it is compared.
#[derive(Clone, Copy, Debug, PartialEq, Eq)]
enum Told {
    Done,
    Refused(Slot),
    Purged(u64),
    NotFound,
    Found(Slot, u64),
    Raised(Slot),
    Present(u64),
    Other,
}

fn told_by(reply: &Reply) -> Told {
    match reply {
        Reply::Done => Told::Done,
        Reply::Refused { refusal } => Told::Refused(match refusal {
            Refusal::SlotRooted { newest, .. } => *newest,
            Refusal::RootOrder { newest, .. } => *newest,
            Refusal::Rooted { slot } => *slot,
            Refusal::ViewTooOld { cleaned, .. } => *cleaned,
            Refusal::TooManyPins { most } => *most,
            Refusal::PastRoot { upto, .. } => *upto,
            _ => return Told::Other,
        }),
        Reply::Purged { keys } => Told::Purged(*keys),
        Reply::NotFound => Told::NotFound,
        Reply::Found { slot, account, .. } => Told::Found(*slot, account.head().lamports),
        Reply::FlushBegun { .. } | Reply::ShrinkBegun { .. } => Told::Other,
        Reply::Superseded { .. } | Reply::Recycled { .. } => Told::Other,
        Reply::SnapBegun { .. } => Told::Other,
        Reply::Raised { cleaned } => Told::Raised(*cleaned),
        Reply::Reclaimed { .. } | Reply::NothingLeft => Told::Other,
        Reply::Counted { stats } => Told::Present(stats.cached.wrapping_add(stats.named)),
    }
}

/// Stores and roots as plain lists, searched anew at each call. Nothing of them is cleaned away.
#[derive(Drop)]
struct Lists {
    stores: Vec<(Slot, Key, Arc<Account>)>,
    roots: Vec<Slot>,
    cleaned: Slot,
    // Whether reclaims came, after which these lists don't tell how many pairs are present.
    reclaimed: bool,
}

impl Lists {
    // How many keys have a store in the slot.
    fn keys_in(&self, slot: Slot) -> u64 {
        let mut keys: u64 = 0;
        for number in 0..KEYS {
            let key = key(number);
            if self
                .stores
                .iter()
                .any(|stored| stored.0 == slot && stored.1 == key)
            {
                keys = keys.wrapping_add(1);
            }
        }
        keys
    }

    fn present(&self) -> u64 {
        let mut pairs: u64 = 0;
        for slot in 0..SLOTS {
            pairs = pairs.wrapping_add(self.keys_in(slot));
        }
        pairs
    }

    // The newest root, where the slot isn't above it.
    fn rooted_by(&self, slot: Slot) -> Option<Slot> {
        self.roots.last().copied().filter(|newest| slot <= *newest)
    }

    fn store(&mut self, slot: Slot, key: Key, account: &Arc<Account>) -> Result<Told, Fail> {
        if let Some(newest) = self.rooted_by(slot) {
            return Ok(Told::Refused(newest));
        }
        self.stores.push((slot, key, account.clone()?))?;
        Ok(Told::Done)
    }

    fn root(&mut self, slot: Slot) -> Result<Told, Fail> {
        if let Some(newest) = self.rooted_by(slot) {
            return Ok(Told::Refused(newest));
        }
        self.roots.push(slot)?;
        Ok(Told::Done)
    }

    fn purge(&mut self, slot: Slot) -> Told {
        if self.roots.contains(&slot) {
            return Told::Refused(slot);
        }
        let keys = self.keys_in(slot);
        self.stores.retain(|stored| stored.0 != slot);
        Told::Purged(keys)
    }

    fn raise(&mut self, upto: Slot) -> Told {
        match self.roots.last() {
            Some(newest) if upto <= *newest => {
                self.cleaned = self.cleaned.max(upto);
                Told::Raised(self.cleaned)
            }
            _ => Told::Refused(upto),
        }
    }

    fn load(&self, view: &View, key: &Key) -> Told {
        if view.max_root() < self.cleaned {
            return Told::Refused(self.cleaned);
        }
        match plain_answer(&self.stores, &self.roots, view, key) {
            Some((slot, account)) => Told::Found(slot, account.head().lamports),
            None => Told::NotFound,
        }
    }

    fn step(&mut self, call: &Call) -> Result<Told, Fail> {
        match call {
            Call::Store { slot, key, account } => self.store(*slot, *key, account),
            Call::Root { slot } => self.root(*slot),
            Call::Purge { slot } => Ok(self.purge(*slot)),
            Call::Load { view, key } => Ok(self.load(view, key)),
            Call::Raise { upto } => Ok(self.raise(*upto)),
            Call::Reclaim { .. } => {
                self.reclaimed = true;
                Ok(Told::Other)
            }
            Call::Stats if !self.reclaimed => Ok(Told::Present(self.present())),
            _ => Ok(Told::Other),
        }
    }
}

#[test]
fn a_player_answers_as_plain_lists_do(rt: HostRuntime) -> Result<(), Fail> {
    let alloc = rt.alloc();
    let mut numbers = Numbers(1);
    let mut player = Player::new(alloc, Book::new(alloc, 100_000, 1)?)?;
    let mut lists = Lists {
        stores: Vec::new(alloc),
        roots: Vec::new(alloc),
        cleaned: 0,
        reclaimed: false,
    };
    for number in 0..1200_u64 {
        let call = any_call(alloc, &mut numbers, number / 100)?;
        let reply = player.step(&rt, 1 + numbers.below(64), &call)?;
        let told = lists.step(&call)?;
        if told != Told::Other {
            assert_eq!(rt; told_by(&reply), told, "call {number}");
        }
    }
    Ok(())
}

fn store_of(alloc: Global, slot: Slot, number: u64) -> Result<Call, Fail>
    ensures { IfOk result (λ call. IsOfFewKeys (call_of call)) }
{
    let account = any_account(alloc, &mut Numbers(number))?;
    Ok(Call::Store {
        slot,
        key: key(number),
        account,
    })
}

#[test]
fn a_player_runs_calls_of_several_lanes(rt: HostRuntime) -> Result<(), Fail> {
    let alloc = rt.alloc();
    let mut player = Player::new(alloc, Book::new(alloc, 1000, 1)?)?;
    let calls = [
        (1, store_of(alloc, 5, 1)?),
        (64, store_of(alloc, 5, 2)?),
        (2, store_of(alloc, 5, 1)?),
        (1, Call::Stats),
    ];
    let replies = player.run(&rt, &calls)?;
    assert_eq!(rt; replies.len(), 4);
    assert_eq!(rt; told_by(&replies[3]), Told::Present(2));
    Ok(())
}

// The status and the journal of a script over an empty directory.
pub fn journal(rt: &HostRuntime, text: &str) -> Result<(u8, Vec<u8>), Fail> {
    let alloc = rt.alloc();
    let mut dir = MemDir::new(Vec::new(alloc), Vec::new(alloc));
    journal_over(rt, text, &mut dir, &[])
}

// The same over this directory, where these calls of the sink fail.
pub fn journal_over(
    rt: &HostRuntime,
    text: &str,
    dir: &mut MemDir,
    failing: &[u64],
) -> Result<(u8, Vec<u8>), Fail> {
    let alloc = rt.alloc();
    let Ok(script) = parse(alloc, text.as_bytes()) else {
        return Err("no script")?;
    };
    let mut sink = MemSink::new(alloc, 100_000, failing.to_vec(alloc)?)?;
    let status = run_replay(rt, &script, &mut sink, dir);
    Ok((status, sink.bytes().to_vec(alloc)?))
}

#[test]
fn scripts_with_flushes_have_these_journals(rt: HostRuntime) -> Result<(), Fail> {
    let table = [
        (
            "refusals of a flush",
            "1 store 5 01 1\n1 flush-begin 5\n1 root 4\n1 flush-begin 4\n1 root 5\n1 flush-begin 5\n1 flush-begin 5\n1 flush-end 5\n1 flush-begin 5\n1 flush-end 5\n",
            "1 store 5 01 1 00 0 0 - = ok\n1 flush-begin 5 = not-rooted 5\n1 root 4 = ok\n1 flush-begin 4 = nothing-cached 4\n1 root 5 = ok\n1 flush-begin 5 = ok 1 136\n1 flush-begin 5 = flushing 5 1\n1 flush-end 5 = ok\n1 flush-begin 5 = nothing-cached 5\n1 flush-end 5 = not-flushing 5\n",
        ),
        (
            "a flush that is given up, and another",
            "1 store 5 01 1\n1 root 5\n1 flush-begin 5\n1 flush-abort 5\n1 flush-abort 5\n1 flush 5\n",
            "1 store 5 01 1 00 0 0 - = ok\n1 root 5 = ok\n1 flush-begin 5 = ok 1 136\n1 flush-abort 5 = ok\n1 flush-abort 5 = not-flushing 5\n1 flush-begin 5 = ok 2 136\n1 flush-end 5 = ok\n",
        ),
        (
            "two flushes that are open at once",
            "1 store 2 01 1\n1 store 3 01 2\n1 root 2\n1 root 3\n1 flush-begin 2\n2 flush-begin 3\n3 flush-end 2\n3 load -@2 01\n1 flush-end 3\n3 load -@all 01\n3 unpin 1\n3 unpin 1\n1 stats\n",
            "1 store 2 01 1 00 0 0 - = ok\n1 store 3 01 2 00 0 0 - = ok\n1 root 2 = ok\n1 root 3 = ok\n1 flush-begin 2 = ok 1 136\n2 flush-begin 3 = ok 2 136\n3 flush-end 2 = ok\n3 load -@2 01 = some 2 1 1 00 0 0 -\n1 flush-end 3 = ok\n3 load -@all 01 = some 3 2 2 00 0 0 -\n3 unpin 1 = ok\n3 unpin 1 = not-pinned 1\n1 stats = cached 0 filling 0 live 2 retired 0 named 2 rows 2 bytes 272 pins 1\n",
        ),
        (
            "a budget that is enough",
            "budget 136\n1 store 2 01 1\n1 root 2\n1 flush 2 16\n1 get -@all 01\n",
            "budget 136 = ok\n1 store 2 01 1 00 0 0 - = ok\n1 root 2 = ok\n1 flush-begin 2 = ok 1 136\n1 flush-end 2 = ok\n1 load -@all 01 = some 2 1 1 00 0 0 -\n1 unpin 1 = ok\n",
        ),
        (
            "a budget that is not",
            "budget 135\n1 store 2 01 1\n1 root 2\n1 flush 2\n1 get -@all 01\n",
            "budget 135 = ok\n1 store 2 01 1 00 0 0 - = ok\n1 root 2 = ok\n1 flush-begin 2 = full 0 136 135\n1 load -@all 01 = some 2 cached 1 00 0 0 -\n",
        ),
    ];
    for (name, text, expected) in table {
        let (status, journal) = journal(&rt, text)?;
        assert_eq!(rt; status, 0, "{name}");
        assert_eq!(rt; str::from_utf8(&journal), Ok(expected), "{name}");
    }
    Ok(())
}

#[test]
fn a_lane_has_sixty_four_pins(rt: HostRuntime) -> Result<(), Fail> {
    let alloc = rt.alloc();
    let mut text = String::from_str(alloc, "1 store 2 01 1\n1 root 2\n1 flush 2\n")?;
    let mut expected = String::from_str(
        alloc,
        "1 store 2 01 1 00 0 0 - = ok\n1 root 2 = ok\n1 flush-begin 2 = ok 1 136\n1 flush-end 2 = ok\n",
    )?;
    for _ in 0..64_u64 {
        text.push_str("1 load -@all 01\n")?;
        expected.push_str("1 load -@all 01 = some 2 1 1 00 0 0 -\n")?;
    }
    text.push_str("1 load -@all 01\n2 get -@all 01\n")?;
    expected.push_str(
        "1 load -@all 01 = too-many-pins 64\n2 load -@all 01 = some 2 1 1 00 0 0 -\n2 unpin 1 = ok\n",
    )?;
    let (status, journal) = journal(&rt, &text)?;
    assert_eq!(rt; status, 0);
    assert_eq!(rt; str::from_utf8(&journal), Ok(expected.as_str()));
    Ok(())
}

#[test]
fn the_ids_are_spent_after_the_last(rt: HostRuntime) -> Result<(), Fail> {
    let alloc = rt.alloc();
    let book = Book::new(alloc, 1000, 18_446_744_073_709_551_614)?;
    let mut player = Player::new(alloc, book)?;
    let calls = [
        (1, store_of(alloc, 1, 1)?),
        (1, store_of(alloc, 2, 2)?),
        (1, Call::Root { slot: 1 }),
        (1, Call::Root { slot: 2 }),
        (1, Call::FlushBegin { slot: 1 }),
        (1, Call::FlushBegin { slot: 2 }),
    ];
    let replies = player.run(&rt, &calls)?;
    assert_eq!(rt; replies.len(), 6);
    assert!(rt;
        matches!(
            replies[4],
            Reply::FlushBegun {
                id: 18_446_744_073_709_551_614,
                bytes: 136
            }
        )
    );
    assert!(rt;
        matches!(
            replies[5],
            Reply::Refused {
                refusal: Refusal::IdsSpent
            }
        )
    );
    Ok(())
}
