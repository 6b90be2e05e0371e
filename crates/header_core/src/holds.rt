//! What a pass holds of headers: plain data for the proofs, of which no value is made.
use oak_model::Key;
use std::collections::LinkedList;

/// What a header had when a pass locked it: the numbers of its place and stamp words, and those of the
/// words of its block.
pub struct AtLock {
    pub place: u64,
    pub stamp: u64,
    pub words: LinkedList<u64>,
}

/// How a pass holds a header, which says the state that the header is in: owned while it is filled,
/// live and named by no entry yet, locked, or dead and not yet taken back.
pub enum HeldAs {
    Owned,
    Fresh,
    Locked(AtLock),
    Buried,
}

/// A pin of a header: the generation that was wanted, the word that it found, and what stood at that
/// moment in the header's place and stamp words and in the block that the place names.
pub struct PinnedHeader {
    pub header: u32,
    pub wanted: u32,
    pub found: u64,
    pub place: u64,
    pub stamp: u64,
    pub words: LinkedList<u64>,
}

/// A header that a pass owns, has fresh, has locked or buries, with the numbers of its place and stamp
/// words, which no other pass may change. Of all but an owned header so are those of its block. A locked
/// one has the key whose entry names it, and a buried one has it still; it is named until that entry's
/// value word is a floor again. The key of another is empty.
pub struct HeldHeader {
    pub header: u32,
    pub generation: u32,
    pub held_as: HeldAs,
    pub key: Key,
    pub named: bool,
    pub place: u64,
    pub stamp: u64,
    pub words: LinkedList<u64>,
}

/// The pin of a pass, of which it has one at most, and the headers that it holds.
pub struct HeaderHolds {
    pub pin: Option<PinnedHeader>,
    pub held: LinkedList<HeldHeader>,
}
