//! What calls on a room find of its entries.
ghost use Rattle.std.specs.Prelude.{◌≡◌};
ghost use Rattle.chunk_ops.specs.Finds.{number_in};
ghost use Rattle.chunk_ops.specs.FindsAlone.{as_entry};

use oak_core::Block;

/// An entry's number within its room.
#[derive(Clone, Copy, Debug, PartialEq, Eq)]
pub struct EntryNo(pub u32);

/// The number of an entry, where there is one.
pub(crate) fn number_in(entry: Option<EntryNo>) -> Option<u32>
    ensures { result ≡ number_in entry }
{
    match entry {
        Some(EntryNo(number)) => Some(number),
        None => None,
    }
}

/// The entry of a number, where there is one.
pub(crate) fn as_entry(number: Option<u32>) -> Option<EntryNo>
    ensures { result ≡ as_entry number }
{
    match number {
        Some(number) => Some(EntryNo(number)),
        None => None,
    }
}

/// Whether a room has an entry of a key; where it has none, behind which entry the key belongs, `None` where
/// that is before all, and the link of that entry, or the first, which leads over the key: 0 for none, and
/// else the number of the entry that it names plus one.
#[derive(Clone, Copy, Debug, PartialEq, Eq)]
pub enum Found {
    Entry(EntryNo),
    Missing { behind: Option<EntryNo>, link: u32 },
}

/// What an entry's value word says: the header at a generation that has the key's value, or the stamp
/// that the key's next life begins above.
#[derive(Clone, Copy, Debug, PartialEq, Eq)]
pub enum Content {
    Value { header: u32, generation: u32 },
    Floor { stamp: u64 },
}

/// Why no entry was added: the room has as many as it may, or its count or a link was changed.
#[derive(Clone, Copy, Debug, PartialEq, Eq)]
pub enum AddHalt {
    Crowded,
    Busy,
}

/// No entry was added, and the block is handed back.
#[derive(Debug)]
pub struct NotAdded {
    pub why: AddHalt,
    pub block: Block,
}
