use bitmap::Bitmap;

fn byte(map: &Bitmap, k: usize) -> u8 {
    map.as_bytes().get(k).copied().unwrap_or(0)
}

#[test]
fn block_nine_is_the_second_bit_of_byte_one(rt: HostRuntime) {
    let mut map = Bitmap::new();
    map.set(9);
    assert_eq!(rt; byte(&map, 1), 2);
    assert_eq!(rt; map.count(), 1);
    assert!(rt; map.test(9));
    map.clear(9);
    assert_eq!(rt; map.count(), 0);
    map.set(4096);
    assert_eq!(rt; map.count(), 0, "no such block");
}

#[test]
fn extents_are_64_blocks(rt: HostRuntime) {
    let mut map = Bitmap::new();
    map.mark_extent(0, 4096);
    assert!(rt; map.test(63));
    assert!(rt; !map.test(64));
    map.mark_extent(1, 70);
    assert!(rt; map.test(64));
    assert_eq!(rt; map.count(), 70);
    let mut ten = Bitmap::new();
    ten.mark_extent(0, 10);
    assert_eq!(rt; byte(&ten, 0), 255);
    assert_eq!(rt; byte(&ten, 1), 3);
    assert_eq!(rt; ten.count(), 10);
}

#[test]
fn the_next_set_bit_is_found_across_bytes(rt: HostRuntime) {
    let mut map = Bitmap::new();
    assert_eq!(rt; map.next_set(0), None);
    map.set(3);
    map.set(17);
    map.set(4095);
    assert_eq!(rt; map.next_set(0), Some(3));
    assert_eq!(rt; map.next_set(3), Some(3));
    assert_eq!(rt; map.next_set(4), Some(17));
    assert_eq!(rt; map.next_set(18), Some(4095));
    assert_eq!(rt; map.next_set(4096), None);
}

#[test]
fn block_4095_is_the_last_bit_of_the_last_byte(rt: HostRuntime) {
    let mut map = Bitmap::new();
    map.set(4095);
    assert_eq!(rt; map.as_bytes()[511], 128);
}

#[test]
fn a_union_has_the_bits_of_both(rt: HostRuntime) {
    let mut low = Bitmap::new();
    low.mark_all(12);
    let mut other = Bitmap::new();
    other.set(8);
    other.set(300);
    low.union(&other);
    assert_eq!(rt; low.count(), 13);
    assert!(rt; low.test(300));
}

fn fault(bytes: &[u8], blocks: usize) -> Option<usize> {
    Bitmap::from_bytes(bytes, blocks)
        .err()
        .map(|fault| fault.byte)
}

#[test]
fn stray_bits_are_refused(rt: HostRuntime) {
    let mut map = Bitmap::new();
    map.mark_all(10);
    map.set(40);
    map.set(90);
    assert_eq!(rt; fault(map.as_bytes(), 91), None);
    assert_eq!(rt; fault(map.as_bytes(), 90), Some(11));
    assert_eq!(rt; fault(map.as_bytes(), 10), Some(5));
    assert_eq!(rt; fault(b"short", 10), Some(5));
    assert_eq!(rt; fault(&[0; 513], 10), Some(512));
}
