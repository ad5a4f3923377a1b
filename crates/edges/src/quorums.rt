use quorum::{intersection, is_set, lowest_set, set_bits};

#[test]
fn bits_of_a_mask(rt: HostRuntime) {
    assert!(rt; is_set(0x8000, 15));
    assert!(rt; !is_set(0x8000, 14));
    assert!(rt; !is_set(0xffff, 16));
    assert_eq!(rt; set_bits(0), 0);
    assert_eq!(rt; set_bits(0xffff), 16);
    assert_eq!(rt; lowest_set(0, 16), 16);
    assert_eq!(rt; lowest_set(8, 4), 3);
    assert_eq!(rt; lowest_set(8, 3), 3);
    assert_eq!(rt; lowest_set(0x8001, 16), 0);
}

// Two quorums of n − f replicas share at least n − 2f, which is more than f.
#[test]
fn quorums_overlap(rt: HostRuntime) {
    assert_eq!(rt; intersection(4, 3, 3), 2);
    assert_eq!(rt; intersection(16, 11, 11), 6);
    assert_eq!(rt; intersection(7, 5, 5), 3);
    assert_eq!(rt; intersection(4, 1, 2), 0);
}
