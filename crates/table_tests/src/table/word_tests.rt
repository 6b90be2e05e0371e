//! Bytes as they stand in words.

use crate::found::{bytes_are, is_so, word_is};
use arena_core::words::{first_bytes, is_word, put_word, word_from};
use std::process::Abort;
use std::test::Fail;

#[test]
fn nine_bytes_in_two_words(rt: HostRuntime) -> Result<(), Fail> {
    let bytes = [1, 2, 3, 4, 5, 6, 7, 8, 9];
    word_is(&rt, "first", word_from(&bytes, 0), 0x0102_0304_0506_0708);
    word_is(&rt, "second", word_from(&bytes, 1), 0x0900_0000_0000_0000);
    let mut out = [0; 9];
    put_word(&mut out, 0, 0x0102_0304_0506_0708);
    put_word(&mut out, 1, 0x0900_0000_0000_0000);
    bytes_are(&rt, "nine bytes", &out, &bytes);
    Ok(())
}

/// The eight bytes of the word begin with these three, or do not.
fn begins(rt: &impl Abort, bytes: &[u8; 3], due: bool) {
    let found = is_word(bytes, 0, 0x0102_0304_0506_0708);
    is_so(rt, "three bytes in front", found == due);
}

/// The first three bytes of the word are put.
fn puts_three(rt: &impl Abort) {
    let mut out = [9; 3];
    put_word(&mut out, 0, 0x0102_0304_0506_0708);
    bytes_are(rt, "three bytes", &out, &[1, 2, 3]);
}

#[test]
fn a_few_bytes_stand_highest(rt: HostRuntime) -> Result<(), Fail> {
    let due = 0x0102_0300_0000_0000;
    word_is(&rt, "of three bytes", word_from(&[1, 2, 3], 0), due);
    let front = first_bytes(0x0102_0304_0506_0708, 3);
    word_is(&rt, "three of eight", front, due);
    begins(&rt, &[1, 2, 3], true);
    begins(&rt, &[1, 2, 4], false);
    puts_three(&rt);
    Ok(())
}
