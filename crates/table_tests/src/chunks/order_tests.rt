//! Tests of the order of stored keys.
use chunk_ops::StoredKey;
use oak_model::{GREATEST_KEY, is_key};
use std::process::Abort;
use std::test::Fail;

/// A key: how many bytes it has, what each is but the one at a place, that place, and the byte there.
type Made = (usize, u8, usize, u8);

/// Keys that begin others, those with a 0 behind the last byte, and such as differ in one byte beside the end of a
/// word or of the key.
const KEYS: [Made; 29] = [
    (1, 0, 0, 0),
    (7, 0, 0, 0),
    (8, 0, 0, 0),
    (9, 0, 0, 0),
    (63, 0, 0, 0),
    (64, 0, 0, 0),
    (1, 255, 0, 255),
    (7, 255, 0, 255),
    (8, 255, 0, 255),
    (9, 255, 0, 255),
    (63, 255, 0, 255),
    (64, 255, 0, 255),
    (1, 97, 0, 97),
    (7, 97, 0, 97),
    (8, 97, 0, 97),
    (9, 97, 0, 97),
    (63, 97, 0, 97),
    (64, 97, 0, 97),
    (7, 97, 6, 98),
    (8, 97, 7, 0),
    (8, 97, 7, 98),
    (9, 97, 7, 98),
    (9, 97, 8, 0),
    (9, 97, 8, 98),
    (63, 97, 7, 98),
    (63, 97, 8, 98),
    (63, 97, 62, 98),
    (64, 97, 63, 0),
    (64, 97, 63, 98),
];

/// Its bytes, and behind them others.
fn made_bytes((_, fill, place, byte): Made) -> [u8; GREATEST_KEY] {
    let mut bytes = [fill; GREATEST_KEY];
    if place < GREATEST_KEY {
        bytes[place] = byte;
    }
    bytes
}

fn compare_two(rt: &impl Abort, a: &[u8], b: &[u8]) {
    assert!(rt; is_key(a));
    assert!(rt; is_key(b));
    let order = StoredKey::of(a).order(&StoredKey::of(b));
    assert!(rt; order == a.cmp(b));
}

fn compare_made(rt: &impl Abort, a: Made, b: Made) {
    let (left, right) = (made_bytes(a), made_bytes(b));
    assert!(rt; a.0 <= GREATEST_KEY);
    assert!(rt; b.0 <= GREATEST_KEY);
    compare_two(rt, &left[..a.0], &right[..b.0]);
}

fn compare_with_each(rt: &impl Abort, a: Made, keys: &[Made]) {
    for b in keys {
        compare_made(rt, a, *b);
    }
}

/// Each with each, as std compares bytes.
#[test]
fn stored_keys_have_the_order_of_bytes(rt: HostRuntime) -> Result<(), Fail> {
    for key in &KEYS {
        compare_with_each(&rt, *key, &KEYS);
    }
    Ok(())
}
