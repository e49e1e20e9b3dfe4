use crate::{count, first_zero_from, get, set};

#[test]
fn begins_with_the_least_significant_bit(rt: HostRuntime) {
    let mut bytes = [0xFFu8, 0xFE, 0x7F];
    assert!(rt; !get(&bytes, 8));
    assert_eq!(rt; first_zero_from(&bytes, 24, 0), Some(8));
    assert_eq!(rt; first_zero_from(&bytes, 24, 9), Some(23));
    assert_eq!(rt; first_zero_from(&bytes, 23, 9), None);
    assert_eq!(rt; count(&bytes, 24), 22);
    assert_eq!(rt; count(&bytes, 9), 8);
    set(&mut bytes, 8, true);
    assert_eq!(rt; count(&bytes, 9), 9);
}
