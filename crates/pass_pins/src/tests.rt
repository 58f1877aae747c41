use crate::{MAX_PINS, PassPins};
use std::test::Fail;

#[test]
fn pins_leave_finished_ones_first(rt: HostRuntime) -> Result<(), Fail> {
    let mut pins = PassPins::new(7);
    assert_eq!(rt; pins.pass(), 7);
    pins.add(5);
    pins.add(3);
    pins.add(5);
    assert_eq!(rt; pins.next_finished(), None);
    assert!(rt; pins.finish(5) && !pins.finish(4));
    assert_eq!(rt; pins.next_finished(), Some(5));
    assert!(rt; pins.finish(3));
    assert_eq!(rt; pins.next_finished(), Some(3));
    assert!(rt; pins.take(5));
    assert!(rt; pins.finish(5), "the pin that was left was unfinished");
    assert_eq!(rt; pins.count(), 2);
    assert!(rt; pins.take(5) && !pins.take(5));
    Ok(())
}

#[test]
fn a_pass_has_sixty_four_pins(rt: HostRuntime) -> Result<(), Fail> {
    let mut pins = PassPins::new(65_536);
    for id in 0..100 {
        if pins.count() < MAX_PINS {
            pins.add(id);
        }
    }
    assert_eq!(rt; pins.count(), 64);
    Ok(())
}
