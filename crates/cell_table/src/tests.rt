use crate::{CellFault, CellTable, Counts};
use std::test::Fail;

#[test]
fn a_cell_is_used_again(rt: HostRuntime) -> Result<(), Fail> {
    let mut table: CellTable<u64> = CellTable::new(rt.alloc(), 136, 1);
    let full = table.begin(1, 137);
    assert!(rt;
        matches!(
            &full,
            Err(CellFault::Full {
                used: 0,
                wanted: 137,
                limit: 136
            })
        )
    );
    assert!(rt; table.check(136).is_ok() && table.check(137).is_err());
    assert_eq!(rt; table.limit(), 136);
    let cell = table.begin(1, 136).expect(&rt, "all is free");
    assert_eq!(rt; table.id(cell), 1);
    let none = table.check(0);
    assert!(rt; matches!(&none, Err(CellFault::NoCell { limit: 1 })));
    let none = table.begin(2, 0);
    assert!(rt; matches!(&none, Err(CellFault::NoCell { limit: 1 })));
    assert_eq!(rt; table.cell_of(1), Some(cell));
    assert_eq!(rt; table.used(), 136);
    table.publish(cell, 9);
    table.pin(cell);
    table.retire(cell);
    assert_eq!(rt; *table.get(cell), 9);
    assert_eq!(rt; table.recycle(), 0);
    table.unpin(cell);
    let counts = Counts {
        filling: 0,
        live: 0,
        retired: 1,
        free: 1,
        pins: 0,
    };
    assert_eq!(rt; table.counts(), counts);
    assert_eq!(rt; table.recycle(), 1);
    assert_eq!(rt; table.used(), 0);
    let cell = table.begin(2, 0).expect(&rt, "all is free again");
    table.abandon(cell);
    assert_eq!(rt; table.cell_of(2), None);
    Ok(())
}
