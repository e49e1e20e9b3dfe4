use crate::{Handles, Slot};

#[test]
fn opens_sixteen_and_no_more(rt: HostRuntime) {
    let mut table = Handles::new();
    let mut slot = Slot {
        number: 3,
        directory: false,
        read: true,
        write: false,
        append: false,
        at: 0,
    };
    for h in 0..16 {
        slot.number = 3 + h;
        assert_eq!(rt; table.enter(slot), Some(h));
    }
    assert!(rt; table.is_full());
    assert_eq!(rt; table.enter(slot), None);
    assert!(rt; table.holds(18));
    assert!(rt; table.move_to(15, 77));
    assert_eq!(rt; table.get(15).map(|s| s.at), Some(77));
    assert!(rt; table.leave(15));
    assert!(rt; table.leave(4));
    assert!(rt; !table.leave(4));
    assert!(rt; !table.holds(18));
    assert_eq!(rt; table.enter(slot), Some(4));
}
