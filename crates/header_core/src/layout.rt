//! Where the words of the headers lie, counted from the first: three for each header.
ghost use Rattle.std.specs.Prelude.{◌≡◌, ◌≤◌, ◌*◌};
ghost use Rattle.header_core.specs.Headers.{header_words};

use oak_model::Shape;

/// The pin word, the place word and the stamp word.
pub const HEADER_WORDS: usize = 3;

/// How many words the headers have.
pub fn header_words(shape: &Shape) -> usize
    ensures is { result ≡ header_words shape.now }
    ensures small { result ≤ 3 * 65536 }
{
    HEADER_WORDS * shape.headers as usize
}

/// How many headers a table of the shape has.
pub fn header_count(shape: &Shape) -> u32
    ensures is { result ≡ shape.now.headers }
    ensures small { result ≤ 65536 }
{
    shape.headers
}
