//! Entries, as their key word and their value word.
ghost use Rattle.std.specs.Prelude.{◌≡◌};
ghost use Rattle.rebalance.specs.Entries.{has_value};

use chunk_core::value_word::NAMES;

/// An entry: its key word and its value word.
#[derive(Clone, Copy)]
pub(crate) struct Entry {
    pub(crate) place: u64,
    pub(crate) value: u64,
}

/// An entry with its link.
#[derive(Clone, Copy)]
pub(crate) struct LinkedEntry {
    pub(crate) entry: Entry,
    pub(crate) next: u64,
}

impl Entry {
    /// Whether the entry has a value.
    pub(crate) fn has_value(self) -> bool
        ensures { result ≡ has_value self }
    {
        self.value >= NAMES
    }
}
