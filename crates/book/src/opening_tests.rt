ghost use Rattle.std.specs.Prelude.{◌≡◌, ◌<◌, length, IfOk};
ghost use Rattle.book_parts.specs.Stands.{HasHistoryWithPins};

use crate::tests::{account, key};
use crate::{Book, Found, FoundAt};
use account_layout::{stored_size, write_record};
use adb_model::View;
use book_parts::pins_are_held;
use pass_pins::PassPins;
use std::alloc::Global;
use std::test::Fail;
use vec_scan::{Sealed, seal};

// Storage 1 of slot 5, in which an account of key 1 stands.
fn storage(alloc: Global) -> Result<Sealed, Fail>
    ensures slot { IfOk result (λ storage. storage.slot ≡ 5) }
    ensures id { IfOk result (λ storage. storage.id ≡ 1) }
    ensures some { IfOk result (λ storage. 0 < length storage.rows) }
{
    let account = account(alloc, 100)?;
    if stored_size(&account) != 136 {
        return Err("another size")?;
    }
    let mut record = [0; 136];
    write_record(&key(1), &account, &mut record);
    let Ok(sealed) = seal(alloc, 5, 1, Vec::from_slice(alloc, &record)?, 136) else {
        return Err("no image")?;
    };
    if sealed.row_count() == 0 {
        return Err("no rows")?;
    }
    Ok(sealed)
}

// The book that is opened from it at slot 7, and the pins of a pass.
fn opened(alloc: Global) -> Result<(Book, PassPins), Fail>
    ensures { IfOk result (λ b. HasHistoryWithPins b.0 b.1) }
{
    pins_are_held();
    let mut storages = Vec::new(alloc);
    storages.push(storage(alloc)?)?;
    match Book::rebuild(alloc, 136, 7, storages, &[6]) {
        Ok(book) => Ok((book, PassPins::new(3))),
        Err(_) => Err("refused")?,
    }
}

#[test]
fn an_opened_book_finds_what_its_storages_have(rt: HostRuntime) -> Result<(), Fail> {
    let (mut book, mut pins) = opened(rt.alloc())?;
    let view = View::new(rt.alloc(), &[], 7)?;
    let Ok(
        Some(
            Found {
                slot: 5,
                at: FoundAt::Stored {
                    id: 1,
                    offset: 0,
                    ..
                },
            },
        ),
    ) = book.load(&mut pins, &view, &key(1))
    else {
        return Err("another account")?;
    };
    assert!(rt; book.root(7).is_err());
    assert_eq!(rt; book.stats().named, 1);
    Ok(())
}
