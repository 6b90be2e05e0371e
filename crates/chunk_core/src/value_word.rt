//! The value word of an entry: a floor, or the header that has the value, and its generation.
ghost use Rattle.std.specs.Prelude.{◌≡◌};
ghost use Rattle.chunk_core.specs.ValueWord.{header_in, generation_in};

/// The least value word that names a header. Those below it are floors.
pub const NAMES: u64 = 1 << 63;

/// What one more in the header adds to a value word.
pub const HEADER: u64 = 1 << 32;

/// How many headers a value word can tell apart.
const HEADERS: u64 = 1 << 31;

/// The header that a value word names.
pub fn header_in(word: u64) -> u32
    ensures { result ≡ header_in word }
{
    (word / HEADER % HEADERS) as u32
}

/// The generation at which a value word names its header.
pub fn generation_in(word: u64) -> u32
    ensures { result ≡ generation_in word }
{
    (word % HEADER) as u32
}
