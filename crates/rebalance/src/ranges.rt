//! The ranges of held rooms: their bounds, loaded as keys, and whether a range has a key. Each word of a bound
//! is loaded at most once, and none behind the key's last byte.
ghost use Rattle.std.specs.Prelude.{◌≡◌, ℕ, ◌+◌, ◌≤◌, List, MatchBool};
ghost use Rattle.oak_model.specs.declared.limits.TheConstants.{GREATEST_KEY};
ghost use Rattle.oak_model.specs.KeyNumber.{key_number};
ghost use Rattle.chunk_core.specs.Covers.{span_in};
ghost use Rattle.chunk_core.specs.KeyWords.{low_bytes};
ghost use Rattle.chunk_core.specs.RoomRule.{AreBounds};
ghost use Rattle.chunk_core.specs.Spans.{within};
ghost use Rattle.chunk_ops.specs.Stored.{IsStored};
ghost use Rattle.rebalance.specs.Ranges.{IsHighKey, bound_bytes, bound_words, high_words, low_words, word_of_bound};

use crate::held_rooms::{HeldRooms, RoomWord};
use arena_core::words::{WORD, first_bytes};
use chunk_ops::{KEY_WORDS, StoredKey};

/// A bound of a range.
#[derive(Clone, Copy)]
enum Bound {
    Low,
    High,
}

impl Bound {
    /// Word `j` of the bound.
    fn word(self, j: u32) -> RoomWord
        ensures { result ≡ word_of_bound self j }
    {
        match self {
            Bound::Low => RoomWord::Low(j),
            Bound::High => RoomWord::High(j),
        }
    }
}

/// Loads the key of a bound, which has `length` bytes.
fn load_bound<H: HeldRooms>(rooms: &mut H, room: u32, bound: Bound, length: usize) -> StoredKey
    requires held { H.held rooms.old room }
    requires few { length ≤ GREATEST_KEY }
    ensures stays { H.stays rooms.old rooms.new }
    ensures rooms { H.rooms rooms.new ≡ H.rooms rooms.old }
    ensures ranges { H.ranges rooms.new ≡ H.ranges rooms.old }
    ensures slots { H.slots rooms.new ≡ H.slots rooms.old }
    ensures key { IsStored result (bound_bytes length (bound_words bound (H.rooms rooms.old) room)) }
{
    let mut words = [0; KEY_WORDS];
    for i in 0..length.div_ceil(WORD) {
        let word = rooms.load(room, bound.word(1 + i as u32));
        words[i] = first_bytes(word, length - WORD * i);
    }
    StoredKey::from_words(words, length)
}

/// Loads the key at which the range of a held room begins.
pub(crate) fn load_low<H: HeldRooms>(rooms: &mut H, room: u32) -> StoredKey
    requires held { H.held rooms.old room }
    requires fits { (H.rooms rooms.old).low room 0 ≤ GREATEST_KEY }
    ensures stays { H.stays rooms.old rooms.new }
    ensures rooms { H.rooms rooms.new ≡ H.rooms rooms.old }
    ensures ranges { H.ranges rooms.new ≡ H.ranges rooms.old }
    ensures slots { H.slots rooms.new ≡ H.slots rooms.old }
    ensures key { IsStored result (low_bytes (low_words (H.rooms rooms.old) room)) }
{
    let length = rooms.load(room, RoomWord::Low(0));
    load_bound(rooms, room, Bound::Low, length as usize)
}

/// Loads the key before which the range of a held room ends; none where no range is above it.
pub(crate) fn load_high<H: HeldRooms>(rooms: &mut H, room: u32) -> Option<StoredKey>
    requires held { H.held rooms.old room }
    requires fits { (H.rooms rooms.old).high room 0 ≤ GREATEST_KEY + 1 }
    ensures stays { H.stays rooms.old rooms.new }
    ensures rooms { H.rooms rooms.new ≡ H.rooms rooms.old }
    ensures ranges { H.ranges rooms.new ≡ H.ranges rooms.old }
    ensures slots { H.slots rooms.new ≡ H.slots rooms.old }
    ensures key { IsHighKey (high_words (H.rooms rooms.old) room) result }
{
    let first = rooms.load(room, RoomWord::High(0));
    if first == 0 {
        return None;
    }
    Some(load_bound(rooms, room, Bound::High, first as usize - 1))
}

/// Whether the range of a held room has the key.
pub(crate) fn has_key<H: HeldRooms>(rooms: &mut H, room: u32, key: &StoredKey) -> bool
    requires held { H.held rooms.old room }
    requires fit { AreBounds ((H.rooms rooms.old).low room 0) ((H.rooms rooms.old).high room 0) }
    ensures stays { H.stays rooms.old rooms.new }
    ensures rooms { H.rooms rooms.new ≡ H.rooms rooms.old }
    ensures ranges { H.ranges rooms.new ≡ H.ranges rooms.old }
    ensures slots { H.slots rooms.new ≡ H.slots rooms.old }
    ensures has { (b : List ℕ) → IsStored key.now b
        → MatchBool result (within (span_in (H.rooms rooms.old) room) (key_number b) ≡ 1)
        (within (span_in (H.rooms rooms.old) room) (key_number b) ≡ 1 → ⊥) }
{
    let low = load_low(rooms, room);
    if key.order(&low).is_lt() {
        return false;
    }
    match load_high(rooms, room) {
        Some(high) => key.order(&high).is_lt(),
        None => true,
    }
}
