//! Tests of the keys at which ranges begin and end.
use chunk_ops::{KeyBytes, StoredKey};
use std::test::Fail;

#[test]
fn a_key_of_nine_bytes(rt: HostRuntime) -> Result<(), Fail> {
    let key = [7, 0, 255, 1, 2, 3, 4, 5, 6];
    assert!(rt; KeyBytes::from_key(&key).as_slice() == &key[..]);
    assert!(rt; KeyBytes::of(&StoredKey::of(&key)).as_slice() == &key[..]);
    Ok(())
}

#[test]
fn the_ends_of_all_keys(rt: HostRuntime) -> Result<(), Fail> {
    assert!(rt; KeyBytes::least().as_slice() == &[0][..]);
    assert!(rt; KeyBytes::greatest().as_slice() == &[255; 64][..]);
    Ok(())
}
