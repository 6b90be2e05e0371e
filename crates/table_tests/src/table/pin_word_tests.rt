//! Tests of the words of pins.

ghost use Rattle.std.specs.Prelude.{◌<◌, ◌^◌};

use crate::found::word_is;
use pin_word::{count, generation, pack, state};
use std::process::Abort;
use std::test::Fail;

const LIVE: u8 = 2;

const LOCKED: u8 = 3;

const DEAD: u8 = 4;

const RETIRED: u8 = 5;

/// What taking back adds to the word of a dead one: it is free in the next generation.
const TO_FREE: u64 = (1 << 32) - (4 << 28);

/// What it adds in the last generation but one: it is retired in the last.
const TO_RETIRED: u64 = (1 << 32) + (1 << 28);

/// Each row is a generation, a state, a count and their word.
const ROWS: [(u32, u8, u32, u64); 13] = [
    (1, 2, 3, 0x0000_0001_2000_0003),
    (1, 2, 3, 4_831_838_211),
    (1, LIVE, 0, 4_831_838_208),
    (1, LOCKED, 0, 5_100_273_664),
    (1, DEAD, 0, 5_368_709_120),
    (2, 0, 0, 8_589_934_592),
    (1, LIVE, 1, 4_831_838_209),
    (1, LOCKED, 1, 5_100_273_665),
    (1, DEAD, 1, 5_368_709_121),
    (2, 0, 1, 8_589_934_593),
    (u32::MAX, RETIRED, 0, 18_446_744_070_756_761_600),
    (0, 0, 0, 0),
    (u32::MAX, 15, (1 << 28) - 1, u64::MAX),
];

/// The parts make the word, where they fit into one.
fn packs(rt: &impl Abort, age: u32, at: u8, pins: u32, word: u64) {
    if at < 16 && pins < 1 << 28 {
        word_is(rt, "the parts", pack(age, at, pins), word);
    }
}

/// The word has these parts.
fn has_parts(rt: &impl Abort, word: u64, age: u32, at: u8, pins: u32) {
    let right = generation(word) == age && state(word) == at && count(word) == pins;
    assert!(rt; right, "the parts of {word}");
}

#[test]
fn words_of_the_table(rt: HostRuntime) -> Result<(), Fail> {
    for &(age, at, pins, word) in &ROWS {
        packs(&rt, age, at, pins, word);
        has_parts(&rt, word, age, at, pins);
    }
    Ok(())
}

/// A dead word of this generation and count, with one addition, is the word due.
fn takes_back(rt: &impl Abort, age: u32, pins: u32, added: u64, due: u64)
    requires { pins < 2 ^ 28 }
{
    assert_eq!(rt; pack(age, DEAD, pins).checked_add(added), Some(due));
}

/// Taking back is one addition: to free from the last but one generation, and to retired into the last one.
#[test]
fn taking_back(rt: HostRuntime) -> Result<(), Fail> {
    for pins in 0..2 {
        takes_back(&rt, 1, pins, TO_FREE, pack(2, 0, pins));
        takes_back(
            &rt,
            u32::MAX - 1,
            pins,
            TO_RETIRED,
            pack(u32::MAX, RETIRED, pins),
        );
    }
    Ok(())
}
