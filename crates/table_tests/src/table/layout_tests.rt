//! How many words the parts of a table have.

use crate::found::counts;
use arena_core::layout::{arena_words, bit_words, bits_below, bytes_below};
use chunk_core::layout::{room_count, room_width, room_words};
use header_core::layout::{header_count, header_words};
use oak_model::Shape;
use std::test::Fail;

#[test]
fn words_of_an_arena(rt: HostRuntime) -> Result<(), Fail> {
    let shape = Shape::make(2, 1, 4, 1, [65, 1, 0, 2])?;
    counts(&rt, "words of bits", bit_words(&shape, 0), 2);
    counts(&rt, "words of all bits", bits_below(&shape, 4), 4);
    counts(&rt, "words of one class", bytes_below(&shape, 1), 130);
    counts(&rt, "words of three", bytes_below(&shape, 3), 138);
    counts(&rt, "words", arena_words(&shape), 4 + 138 + 256);
    Ok(())
}

#[test]
fn words_of_headers(rt: HostRuntime) -> Result<(), Fail> {
    let shape = Shape::make(2, 1, 4, 7, [0, 0, 0, 0])?;
    counts(&rt, "headers", header_count(&shape) as usize, 7);
    counts(&rt, "words", header_words(&shape), 21);
    Ok(())
}

#[test]
fn words_of_rooms(rt: HostRuntime) -> Result<(), Fail> {
    let shape = Shape::make(2, 3, 4, 1, [0, 0, 0, 0])?;
    counts(&rt, "rooms", room_count(&shape) as usize, 3);
    counts(&rt, "words of one", room_width(&shape), 23 + 12);
    counts(&rt, "words", room_words(&shape), 105);
    Ok(())
}
