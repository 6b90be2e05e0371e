//! Place words: a block of the arena, and the length of the bytes that stand in it.
ghost use Rattle.std.specs.Prelude.{◌≡◌, ◌≤◌, ◌<◌};
ghost use Rattle.oak_model.specs.Class.{class_number};
ghost use Rattle.arena_core.specs.Place.{place_word, class_in, block_in, length_in, class_from};

use oak_model::Class;

/// What one more in the block adds to a word.
const BLOCK: u64 = 1 << 16;

/// What one more in the class adds to a word.
const CLASS: u64 = 1 << 48;

/// How many blocks a word can tell apart.
const BLOCKS: u64 = 1 << 32;

/// The word of a block of a class in which `length` bytes stand, at most 65,535.
pub fn place_word(class: Class, block: u32, length: u16) -> u64
    ensures { result ≡ place_word (class_number class) block length }
{
    class.number() as u64 * CLASS + u64::from(block) * BLOCK + u64::from(length)
}

/// The class of the block that a word names. A word with another class number counts as the greatest.
pub fn class_in(word: u64) -> Class
    ensures { result ≡ class_from (class_in word) }
{
    match word / CLASS {
        0 => Class::B16,
        1 => Class::B64,
        2 => Class::B256,
        _ => Class::B1024,
    }
}

/// The number of the block that a word names.
pub fn block_in(word: u64) -> u32
    ensures { result ≡ block_in word }
{
    (word / BLOCK % BLOCKS) as u32
}

/// The length in bytes that a word names, at most 65,535.
pub fn length_in(word: u64) -> usize
    ensures is { result ≡ length_in word }
    ensures small { result ≤ 65535 }
{
    (word % BLOCK) as usize
}
