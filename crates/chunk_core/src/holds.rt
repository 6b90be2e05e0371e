//! What a pass holds of rooms: plain data for the proofs, of which no value is made.
use std::collections::LinkedList;

/// The key of a linked entry as a pass found it: the entry's number within its room, its key word, and
/// the words of the block that the key word names.
pub struct FoundEntry {
    pub number: u32,
    pub word: u64,
    pub words: LinkedList<u64>,
}

/// A pin of a room: the word that it found, and what stood at that moment in the room's base and in the
/// words of its bounds. Once the count was loaded under it, the count that was found last, and the
/// entries of the prefix; and the entries that links found under it name, or that the pass linked itself.
pub struct PinnedRoom {
    pub room: u32,
    pub found: u64,
    pub base: u64,
    pub low: LinkedList<u64>,
    pub high: LinkedList<u64>,
    pub count: Option<u64>,
    pub entries: LinkedList<FoundEntry>,
    pub walked: LinkedList<FoundEntry>,
}

/// The words of an entry, which the pass alone changes.
pub struct EntryWords {
    pub word: u64,
    pub value: u64,
    pub next: u64,
}

/// An entry that a pass has claimed and not linked yet, with the words of its key's block, where its
/// key word names one.
pub struct Claim {
    pub room: u32,
    pub number: u32,
    pub entry: EntryWords,
    pub words: LinkedList<u64>,
}

/// The words of a room that one pass holds alone, all but the pin word.
pub struct RoomCopy {
    pub base: u64,
    pub count: u64,
    pub latch: u64,
    pub first: u64,
    pub low: LinkedList<u64>,
    pub high: LinkedList<u64>,
    pub entries: LinkedList<EntryWords>,
}

/// How a pass has a room: frozen, so that it waits until no pin stands, or alone.
pub enum RoomHeldAs {
    Frozen,
    Held(RoomCopy),
}

pub struct HeldRoom {
    pub room: u32,
    pub held_as: RoomHeldAs,
}

/// An entry of a moving range: its key word and value word, and the words of its key's block.
pub struct Carried {
    pub word: u64,
    pub value: u64,
    pub words: LinkedList<u64>,
}

/// A range of keys whose room a pass holds alone: the room that it came with, its base, the words of its
/// bounds, and its entries.
pub struct MovingRange {
    pub room: u32,
    pub base: u64,
    pub low: LinkedList<u64>,
    pub high: LinkedList<u64>,
    pub carried: LinkedList<Carried>,
}

/// The pin of a pass, of which it has one at most, the entry that it has claimed, the rooms
/// that it has frozen or holds, and the ranges of those that it holds.
pub struct RoomHolds {
    pub pin: Option<PinnedRoom>,
    pub claim: Option<Claim>,
    pub held: LinkedList<HeldRoom>,
    pub moving: LinkedList<MovingRange>,
}
