//! What the tests find, held against what is due.
ghost use Rattle.std.specs.Prelude.{◌<◌, ◌^◌};

use oak_model::Usage;
use pin_word::pack;
use std::process::Abort;

/// It is so.
pub(crate) fn is_so(rt: &impl Abort, what: &str, so: bool) {
    assert!(rt; so, "{what}");
}

/// The word is this one.
pub(crate) fn word_is(rt: &impl Abort, what: &str, word: u64, due: u64) {
    assert_eq!(rt; word, due, "{what}");
}

/// There are as many of these as are due.
pub(crate) fn counts(rt: &impl Abort, what: &str, found: usize, due: usize) {
    word_is(rt, what, found as u64, due as u64);
}

/// The word of a room that was never made anew has this state, and counts so many pins.
pub(crate) fn room_is(rt: &impl Abort, what: &str, word: u64, at: u8, pins: u32)
    requires state { at < 16 }
    requires few { pins < 2 ^ 28 }
{
    word_is(rt, what, word, pack(0, at, pins));
}

/// The bytes are those.
pub(crate) fn bytes_are(rt: &impl Abort, what: &str, bytes: &[u8], due: &[u8]) {
    assert!(rt; *bytes == *due, "{what}");
}

/// The table was closed with nothing in use but its one chunk.
pub(crate) fn is_unused(rt: &impl Abort, usage: Usage) {
    let unused = Usage {
        blocks: [0, 0, 0, 0],
        headers: 0,
        chunks: 1,
    };
    assert!(rt; usage == unused);
}
