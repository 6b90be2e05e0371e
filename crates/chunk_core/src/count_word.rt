//! The count word of a room: how many entries are in use, and how many of them are the sorted prefix.
ghost use Rattle.std.specs.Prelude.{◌≡◌};
ghost use Rattle.chunk_core.specs.LinkedEntries.{entries_in, prefix_in};

/// What one more in the sorted prefix adds to a count word.
const PREFIX: u64 = 1 << 16;

/// What one more entry, in the sorted prefix, adds to a count word.
pub const SORTED_ENTRY: u64 = (1 << 16) + 1;

/// The number of entries in use that a count word tells.
pub fn entries_in(word: u64) -> u32
    ensures { result ≡ entries_in word }
{
    (word % PREFIX) as u32
}

/// The length of the sorted prefix that a count word tells.
pub fn prefix_in(word: u64) -> u32
    ensures { result ≡ prefix_in word }
{
    (word / PREFIX % PREFIX) as u32
}
