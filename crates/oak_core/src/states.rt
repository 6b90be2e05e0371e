//! What a pass has seen, done and holds: plain data for the proofs, of which no value is made. Each
//! part belongs to one bundle of the table's rule, and those of the arena, the headers and the rooms
//! stand in their crates.
use arena_core::HeldBlocks;
use chunk_core::{FoundEntry, PinnedRoom, RoomHolds};
use header_core::HeaderHolds;
use oak_model::{Class, Key, Lack, Write};
use std::collections::LinkedList;

/// A block that a step took: its class, and its number within the class.
pub struct Taken {
    pub class: Class,
    pub block: u32,
}

/// A step of the pass on a word: the call that it belongs to, the word's number, what was found (none
/// by a plain store) and what was left there, what the pass had at the word before, the block that it
/// took, all words of the table behind the step, and whether the pass is alone then.
pub struct Finding {
    pub call: u32,
    pub word: u32,
    pub found: Option<u64>,
    pub left: u64,
    pub had: u64,
    pub took: Option<Taken>,
    pub words: LinkedList<u64>,
    pub alone: bool,
}

/// A call of the map that was refused for want of something.
pub struct Full {
    pub call: u32,
    pub lack: Lack,
}

/// A range of keys that the pass opened with every entry linked and with a value, and how many
/// findings it had met before the step that opened it. The low bound belongs to the range, the high
/// one does not; none is the end of all keys.
pub struct Swept {
    pub low: LinkedList<u8>,
    pub high: Option<LinkedList<u8>>,
    pub met: usize,
}

/// What a step of a call taught its pass.
pub struct Sight {
    pub call: u32,
    pub taught: Taught,
}

/// A life of a key that a call found to be over: the value word that names it, and the key.
pub struct Gone {
    pub call: u32,
    pub home: u64,
    pub key: Key,
}

/// Of each step of a rebalance, done or tried in vain, how many findings the pass had met before it, and
/// so of those among them that claim a room.
pub struct Rebalanced {
    pub steps: LinkedList<usize>,
    pub claims: LinkedList<usize>,
}

/// What the pass met, in order, the calls that it noted as refused, the ranges that it swept, what its
/// calls were taught, the lives that they found to be over, and which of its steps were those of a
/// rebalance. No list loses anything, or its order.
pub struct Findings {
    pub met: LinkedList<Finding>,
    pub fulls: LinkedList<Full>,
    pub swept: LinkedList<Swept>,
    pub sights: LinkedList<Sight>,
    pub gones: LinkedList<Gone>,
    pub rebalances: Rebalanced,
}

/// A write with its key, and the value word that names the life that it is of; whether that life begins
/// with it.
pub struct KeyedWrite {
    pub key: Key,
    pub home: u64,
    pub inserts: bool,
    pub write: Write,
}

/// A key, and the value word of one of its lives, as a call of a pass loaded it from the key's linked
/// entry.
pub struct KnownLife {
    pub call: u32,
    pub key: Key,
    pub home: u64,
}

/// What a link of a pinned room steps over: the keys of the room's range above the entry that the link
/// is of, where it is not the room's first, and below the entry that it names, where it names one.
pub struct Gap {
    pub room: PinnedRoom,
    pub from: Option<FoundEntry>,
    pub to: Option<FoundEntry>,
}

/// Of which keys a step taught its pass all writes up to a number: of one key, or of each key of a gap,
/// up to the room's base.
pub enum Taught {
    OfKey(KeyedNumber),
    OfGap(Gap),
}

/// A key, and a number up to which its writes are known.
pub struct KeyedNumber {
    pub key: Key,
    pub upto: u64,
}

/// What a step taught its pass: of which keys up to which number, and logs with just those writes.
pub struct Lesson {
    pub taught: Taught,
    pub logs: LinkedList<LinkedList<KeyedWrite>>,
}

/// What the pass has seen of the keys' histories, the lessons that it was taught, the lives whose value
/// words it loaded from linked entries of rooms that it had pinned, and its own writes. What it has
/// seen of a key is the longest that one of the logs has of it: to learn is to add a log.
pub struct Knowledge {
    pub seen: LinkedList<LinkedList<KeyedWrite>>,
    pub heard: LinkedList<Lesson>,
    pub loaded: LinkedList<KnownLife>,
    pub mine: LinkedList<KeyedWrite>,
}

/// What is kept of a pass that was joined into this one.
pub struct Joined {
    pub number: u32,
    pub mine: LinkedList<KeyedWrite>,
    pub findings: Findings,
}

/// The pass's own number, the number in hand between a step on word 0 and a split, the numbers that it
/// or a pass joined into it split off, and the passes joined into it. A spent state is that of a pass
/// that was joined into another.
pub struct Numbers {
    pub number: u32,
    pub spent: bool,
    pub hand: Option<u32>,
    pub made: LinkedList<u32>,
    pub joined: LinkedList<Joined>,
}

/// All that one pass has seen, done and holds.
pub struct PassState {
    pub numbers: Numbers,
    pub findings: Findings,
    pub knowledge: Knowledge,
    pub blocks: HeldBlocks,
    pub headers: HeaderHolds,
    pub rooms: RoomHolds,
}
