//! Reads the entries of a held room, and drops those that are not linked or have no value.
ghost use Rattle.std.specs.Prelude.{◌≡◌, ◌≢◌, ℕ, ◌+◌, ◌<◌, ◌≤◌, List};
ghost use Rattle.oak_model.specs.declared.limits.TheConstants.{GREATEST_ENTRIES};
ghost use Rattle.arena_core.specs.Place.{length_in};
ghost use Rattle.arena_core.specs.declared.words.TheConstants.{WORD};
ghost use Rattle.chunk_core.specs.declared.holds.MovingRange.{MovingRange};
ghost use Rattle.chunk_core.specs.Rooms.{RoomMemory};
ghost use Rattle.chunk_core.specs.ValueWord.{names_header};
ghost use Rattle.chunk_ops.specs.Stored.{IsStored};
ghost use Rattle.rebalance.specs.Dropping.{DropsKeys, dropped_ranges};
ghost use Rattle.rebalance.specs.Entries.{dropped, linked_among};
ghost use Rattle.rebalance.specs.HeldRooms.{IsLoose};
ghost use Rattle.rebalance.specs.Read.{HasRead, PutsEntry, ReadsEntry};
ghost use Rattle.rebalance.specs.Slots.{entry_of, key_of};

use crate::entries::Entry;
use crate::held_rooms::{HeldRooms, RoomWord};
use arena_core::place::length_in;
use arena_core::words::{WORD, first_bytes};
use chunk_ops::{KEY_WORDS, StoredKey};
use oak_core::SortSlot;

/// How many entries were kept and how many dropped, and the base for the keys that have no linked entry.
#[derive(Clone, Copy)]
pub(crate) struct Read {
    pub(crate) kept: usize,
    pub(crate) dropped: usize,
    pub(crate) base: u64,
}

/// Loads the key that a key word names, each of its words once.
fn load_key<H: HeldRooms>(rooms: &mut H, place: u64) -> StoredKey
    requires { H.names rooms.old place }
    ensures stays { H.stays rooms.old rooms.new }
    ensures rooms { H.rooms rooms.new ≡ H.rooms rooms.old }
    ensures ranges { H.ranges rooms.new ≡ H.ranges rooms.old }
    ensures slots { H.slots rooms.new ≡ H.slots rooms.old }
    ensures key { IsStored result (H.keys rooms.old place) }
{
    let length = length_in(place);
    let mut words = [0; KEY_WORDS];
    for i in 0..length.div_ceil(WORD) {
        words[i] = first_bytes(rooms.block_word(place, i), length - WORD * i);
    }
    StoredKey::from_words(words, length)
}

/// Loads the key of one word that a key word names.
fn load_short_key<H: HeldRooms>(rooms: &mut H, place: u64) -> StoredKey
    requires named { H.names rooms.old place }
    requires short { length_in place ≤ WORD }
    ensures stays { H.stays rooms.old rooms.new }
    ensures rooms { H.rooms rooms.new ≡ H.rooms rooms.old }
    ensures ranges { H.ranges rooms.new ≡ H.ranges rooms.old }
    ensures slots { H.slots rooms.new ≡ H.slots rooms.old }
    ensures key { IsStored result (H.keys rooms.old place) }
{
    let length = length_in(place);
    let word = first_bytes(rooms.block_word(place, 0), length);
    let mut words = [0; KEY_WORDS];
    words[0] = word;
    StoredKey::from_words(words, length)
}

/// The slot of an entry with its key.
fn slot_of(entry: Entry, key: &StoredKey) -> SortSlot
    ensures entry { entry_of result ≡ entry }
    ensures key { key_of result ≡ key.now }
{
    let (length, words) = key.parts();
    SortSlot {
        words,
        length,
        key: entry.place,
        value: entry.value,
    }
}

/// Reads an entry that has a value to slot `at`, with its key.
#[inline(always)]
fn read_slot<H: HeldRooms>(rooms: &mut H, entry: Entry, at: usize)
    requires named { H.names rooms.old entry.place }
    requires few { at < GREATEST_ENTRIES }
    ensures stays { H.stays rooms.old rooms.new }
    ensures rooms { H.rooms rooms.new ≡ H.rooms rooms.old }
    ensures ranges { H.ranges rooms.new ≡ H.ranges rooms.old }
    ensures reads { ReadsEntry (H.keys rooms.old entry.place) entry at (H.slots rooms.old) (H.slots rooms.new) }
{
    if length_in(entry.place) <= WORD {
        // With no loop over its words the key goes to the slot at once.
        let key = load_short_key(rooms, entry.place);
        rooms.put(at, slot_of(entry, &key));
        return;
    }
    let key = load_key(rooms, entry.place);
    rooms.put(at, slot_of(entry, &key));
}

/// Puts an entry that has a value in slot `at`, with its key where that is asked for; else the slot has none.
#[inline(always)]
pub(crate) fn put_slot<H: HeldRooms>(rooms: &mut H, entry: Entry, at: usize, with_key: bool)
    requires named { H.names rooms.old entry.place }
    requires few { at < GREATEST_ENTRIES }
    ensures stays { H.stays rooms.old rooms.new }
    ensures rooms { H.rooms rooms.new ≡ H.rooms rooms.old }
    ensures ranges { H.ranges rooms.new ≡ H.ranges rooms.old }
    ensures puts { PutsEntry (H.keys rooms.old entry.place) with_key entry at (H.slots rooms.old) (H.slots rooms.new) }
{
    if with_key {
        read_slot(rooms, entry, at);
        return;
    }
    let none = StoredKey::from_words([0; KEY_WORDS], 0);
    rooms.put(at, slot_of(entry, &none));
}

/// Reads one entry: to the next slot where it is linked and has a value; else it is dropped. One that was
/// claimed and never linked has no key word, and its value word says nothing.
fn read_entry<H: HeldRooms>(rooms: &mut H, room: u32, i: u32, read: &mut Read)
    requires held { H.held rooms.old room }
    requires within { i < H.entries rooms.old }
    requires named { let now = H.rooms rooms.old in 0 < now.key room i → names_header (now.value room i) ≡ 1 → H.names rooms.old (now.key room i) }
    requires loose { let now = H.rooms rooms.old in 0 < now.key room i → names_header (now.value room i) ≡ 0
        → IsLoose (now.key room i) (H.ranges rooms.old) }
    requires few { read.old.kept + read.old.dropped < GREATEST_ENTRIES }
    ensures stays { H.stays rooms.old rooms.new }
    ensures sees { let now = H.rooms rooms.old in 0 < now.key room i → names_header (now.value room i) ≡ 1 → H.sees rooms.old rooms.new room i }
    ensures many { read.new.kept + read.new.dropped ≡ read.old.kept + read.old.dropped + 1 }
    ensures rooms { (m : RoomMemory) → DropsKeys room i m (H.rooms rooms.old) → DropsKeys room (i + 1) m (H.rooms rooms.new) }
    ensures ranges { (m : RoomMemory) (gs : List MovingRange) → DropsKeys room i m (H.rooms rooms.old)
        → H.ranges rooms.old ≡ dropped_ranges (dropped (linked_among m room i)) gs → H.ranges rooms.new ≡ dropped_ranges
        (dropped (linked_among m room (i + 1))) gs }
    ensures loose { (w : ℕ) → let now = H.rooms rooms.old in (0 < now.key room i → names_header (now.value room i) ≡ 0
        → w ≢ now.key room i) → IsLoose w (H.ranges rooms.old) → IsLoose w (H.ranges rooms.new) }
    ensures read { (keys : ℕ → List ℕ) (m : RoomMemory) (b : ℕ) → let now = H.rooms rooms.old in
        (0 < now.key room i → names_header (now.value room i) ≡ 1 → keys (now.key room i) ≡ H.keys rooms.old (now.key room i))
        → DropsKeys room i m now → HasRead keys m room b i (H.slots rooms.old) read.old
        → HasRead keys m room b (i + 1) (H.slots rooms.new) read.new }
{
    let entry = rooms.load_entry(room, i).entry;
    if entry.place == 0 {
        read.dropped += 1;
        return;
    }
    if entry.has_value() {
        read_slot(rooms, entry, read.kept);
        read.kept += 1;
        return;
    }
    rooms.drop_entry(room, i, entry.place);
    read.dropped += 1;
    read.base = read.base.max(entry.value);
}

/// Reads the first `count` entries of a held room: the linked ones with a value to the first slots, in their
/// order; the others are dropped.
pub(crate) fn read_entries<H: HeldRooms>(rooms: &mut H, room: u32, count: u32) -> Read
    requires held { H.held rooms.old room }
    requires within { count ≤ H.entries rooms.old }
    requires named { let m = H.rooms rooms.old in (i : ℕ) → i < count → 0 < m.key room i → names_header (m.value room i) ≡ 1
        → H.names rooms.old (m.key room i) }
    requires loose { let m = H.rooms rooms.old in (i : ℕ) → i < count → 0 < m.key room i → names_header (m.value room i) ≡ 0
        → IsLoose (m.key room i) (H.ranges rooms.old) }
    requires apart { let m = H.rooms rooms.old in (i j : ℕ) → i < j → j < count → 0 < m.key room i → m.key room i ≢ m.key room j }
    ensures stays { H.stays rooms.old rooms.new }
    ensures sees { let m = H.rooms rooms.old in (i : ℕ) → i < count → 0 < m.key room i → names_header (m.value room i) ≡ 1
        → H.sees rooms.old rooms.new room i }
    ensures rooms { DropsKeys room count (H.rooms rooms.old) (H.rooms rooms.new) }
    ensures ranges { H.ranges rooms.new ≡ dropped_ranges (dropped (linked_among (H.rooms rooms.old) room count)) (H.ranges rooms.old) }
    ensures many { result.kept + result.dropped ≡ count }
    ensures read { (keys : ℕ → List ℕ) → let m = H.rooms rooms.old in
        ((i : ℕ) → i < count → 0 < m.key room i → names_header (m.value room i) ≡ 1 → keys (m.key room i) ≡ H.keys rooms.old
        (m.key room i)) → HasRead keys m room (m.base room) count (H.slots rooms.new) result }
{
    let mut read = Read {
        kept: 0,
        dropped: 0,
        base: rooms.load(room, RoomWord::Base),
    };
    for i in 0..count {
        read_entry(rooms, room, i, &mut read);
    }
    read
}
