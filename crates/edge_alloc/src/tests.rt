use crate::{Counts, Window, counts_in, free_in};

#[test]
fn looks_at_both_bitmaps(rt: HostRuntime) {
    let committed = [0b0101_0101u8, 0];
    let working = [0b0011_0011u8, 0xFF];
    let w = Window { first: 1, len: 10 };
    assert_eq!(rt; free_in(&committed, &working, w, 0), Some(3));
    assert_eq!(rt; free_in(&committed, &working, w, 4), Some(7));
    assert_eq!(rt; free_in(&committed, &working, w, 8), None);
    assert_eq!(rt;
        counts_in(&committed, &working, w),
        Counts { free: 2, almost: 2 }
    );
}
