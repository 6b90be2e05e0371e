//! Where the words of the arena lie, counted from its first word on: the bits of each class, and behind
//! them the bytes of each class.
ghost use Rattle.std.specs.Prelude.{◌≡◌, ◌<◌, ◌≤◌, ◌*◌};
ghost use Rattle.oak_model.specs.Class.{class_number};
ghost use Rattle.oak_model.specs.Counts.{below};
ghost use Rattle.arena_core.specs.Arena.{bit_words, byte_words, block_words, arena_words};

use oak_model::{CLASS_GROWTH, CLASSES, Class, LEAST_BLOCK, Shape};

/// The bytes of a word.
pub const WORD: usize = 8;

/// The bits of a word.
pub const WORD_BITS: usize = 64;

/// How many words hold the bits of the classes below this one.
pub fn bits_below(shape: &Shape, class: usize) -> usize
    requires { class ≤ CLASSES }
    ensures is { result ≡ below (bit_words shape.now) class }
    ensures small { result ≤ class * 1024 }
{
    let mut sum = 0;
    for r in 0..class {
        sum += bit_words(shape, r);
    }
    sum
}

/// How many words hold the bytes of the classes below this one.
pub fn bytes_below(shape: &Shape, class: usize) -> usize
    requires { class ≤ CLASSES }
    ensures is { result ≡ below (byte_words shape.now) class }
    ensures small { result ≤ class * 8388608 }
{
    let mut sum = 0;
    let mut wide = LEAST_BLOCK / WORD;
    for r in 0..class {
        sum += shape.blocks[r] as usize * wide;
        wide *= CLASS_GROWTH;
    }
    sum
}

/// How many words the arena has.
pub fn arena_words(shape: &Shape) -> usize
    ensures is { result ≡ arena_words shape.now }
    ensures small { result ≤ 33558528 }
{
    bits_below(shape, CLASSES) + bytes_below(shape, CLASSES)
}

/// How many words hold the bits of a class.
pub fn bit_words(shape: &Shape, class: usize) -> usize
    requires { class < CLASSES }
    ensures is { result ≡ bit_words shape.now class }
    ensures small { result ≤ 1024 }
{
    (shape.blocks[class] as usize + (WORD_BITS - 1)) / WORD_BITS
}

/// The words of a block, four times as many in each class as in the one below.
pub fn block_words(class: Class) -> usize
    ensures is { result ≡ block_words (class_number class) }
    ensures small { result ≤ 128 }
{
    (LEAST_BLOCK / WORD) << (2 * class.number())
}
