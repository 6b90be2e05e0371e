//! The words that a table is opened with.
ghost use Rattle.std.specs.Prelude.{◌≡◌, ◌<◌, ◌^◌, IfOk, length};
ghost use Rattle.oak_core.specs.Memory.{word_count};
ghost use Rattle.oak_core.specs.Opening.{opening_words};

use crate::layout::{headers_at, rooms_at, word_count};
use chunk_core::OPEN;
use header_core::FREE;
use header_core::layout::{HEADER_WORDS, header_count};
use oak_model::{OutOfMemory, Shape};
use pin_word::pack;
use std::alloc::Global;

/// The number 0 alone is given, no block is taken, each header is free at the generation, and room 0 covers every key.
pub(crate) fn opening_words(
    alloc: Global,
    shape: &Shape,
    generation: u32,
) -> Result<Vec<u64>, OutOfMemory>
    ensures few { word_count shape.now < 2 ^ 32 }
    ensures counted { IfOk result (λ v. length v.items ≡ word_count shape.now) }
    ensures words { IfOk result (λ v. v.items ≡ opening_words shape.now generation) }
{
    // Reading a field shows that the sizes are within their limits.
    let _passes = shape.passes;
    let mut words = vec![in alloc; 0u64; word_count(shape)]?;
    words[0] = 1;
    words[rooms_at(shape)] = pack(0, OPEN, 0);
    let first = headers_at(shape);
    let free = pack(generation, FREE, 0);
    for header in 0..header_count(shape) as usize {
        words[first + header * HEADER_WORDS] = free;
    }
    Ok(words)
}
