//! Where the words of the table lie: word 0, then those of the arena, of the headers and of the rooms.
ghost use Rattle.std.specs.Prelude.{◌≡◌, ◌<◌, ◌≤◌, ◌^◌, ◌∷◌, [], ℕ};
ghost use Rattle.oak_model.specs.Limits.{Sizes};
ghost use Rattle.oak_core.specs.Memory.{headers_at, rooms_at, word_count};
ghost use Rattle.oak_core.specs.WordNumbers.{WordNumbers};

use arena_core::layout::arena_words;
use chunk_core::layout::room_words;
use header_core::layout::header_words;
use oak_model::Shape;

/// The number of the first word of the headers.
pub fn headers_at(shape: &Shape) -> usize
    ensures is { result ≡ headers_at shape.now }
    ensures small { result ≤ 33558529 }
{
    1 + arena_words(shape)
}

/// The number of the first word of the rooms.
pub fn rooms_at(shape: &Shape) -> usize
    ensures is { result ≡ rooms_at shape.now }
    ensures small { result ≤ 33755137 }
{
    headers_at(shape) + header_words(shape)
}

/// How many words the table has.
pub fn word_count(shape: &Shape) -> usize
    ensures is { result ≡ word_count shape.now }
    ensures small { result < 2 ^ 32 }
{
    rooms_at(shape) + room_words(shape)
}

/// A law: where each word of the table lies, with the numbers written out.
pub fn words_in_numbers()
    ensures words { (z : Sizes) (a b c d : ℕ) → z.blocks ≡ a ∷ b ∷ c ∷ d ∷ [] → WordNumbers z a b c d }
{}
