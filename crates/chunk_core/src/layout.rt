//! Where the words of the rooms lie, counted from the first: the words of one room, with those of its
//! entries, behind those of another.
ghost use Rattle.std.specs.Prelude.{◌≡◌, ◌<◌, ◌≤◌, ◌*◌};
ghost use Rattle.chunk_core.specs.Rooms.{room_width, room_words};

use oak_model::{GREATEST_KEY, Shape};

/// The pin word, the base, the count, the latch and the first link.
pub const ROOM_FIELDS: usize = 5;

/// A bound: a word for its length, and those of its bytes.
pub const BOUND_WORDS: usize = 1 + GREATEST_KEY / 8;

/// The key word, the value word and the next link.
pub const ENTRY_WORDS: usize = 3;

/// How many words a room has.
pub fn room_width(shape: &Shape) -> usize
    ensures is { result ≡ room_width shape.now }
    ensures small { result ≤ 791 }
{
    ROOM_FIELDS + 2 * BOUND_WORDS + ENTRY_WORDS * shape.entries as usize
}

/// How many words the rooms have.
pub fn room_words(shape: &Shape) -> usize
    ensures is { result ≡ room_words shape.now }
    ensures small { result ≤ 809984 }
{
    room_count(shape) as usize * room_width(shape)
}

/// How many rooms a table of the shape has.
pub fn room_count(shape: &Shape) -> u32
    ensures is { result ≡ shape.now.chunks }
    ensures some { 0 < result }
    ensures small { result ≤ 1024 }
{
    shape.chunks
}
