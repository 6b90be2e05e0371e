//! Where the words of a table's rooms lie.
ghost use Rattle.std.specs.Prelude.{◌≡◌, ◌+◌, ◌<◌, ◌≤◌};
ghost use Rattle.chunk_core.specs.declared.layout.TheConstants.{BOUND_WORDS};
ghost use Rattle.chunk_core.specs.Rooms.{at_room_pin, at_base, at_count, at_first, at_low, at_high, at_key, at_value, at_next, room_width};
ghost use Rattle.oak_core.specs.Memory.{in_rooms, index};
ghost use Rattle.oak_core.specs.Passes.{key};

use crate::table::OakTable;
use chunk_core::layout::{BOUND_WORDS, ENTRY_WORDS, ROOM_FIELDS, room_count};

/// Where the words of a room's low bound begin, counted from its first word, those of its high bound,
/// and those of its entries.
const LOW_AT: u32 = ROOM_FIELDS as u32;

const HIGH_AT: u32 = LOW_AT + BOUND_WORDS as u32;

const ENTRIES_AT: u32 = HIGH_AT + BOUND_WORDS as u32;

impl OakTable {
    /// How many rooms the table has.
    pub fn rooms(&self) -> u32
        ensures is { result ≡ (key self.now).chunks }
        ensures some { 0 < result }
        ensures few { result ≤ 1024 }
    {
        room_count(self.sizes())
    }

    /// How many entries a room has.
    pub fn entries(&self) -> u32
        ensures is { result ≡ (key self.now).entries }
        ensures some { 4 ≤ result }
        ensures few { result ≤ 256 }
    {
        self.shape.entries
    }

    /// The number of a room's pin word.
    pub fn room_at(&self, room: u32) -> u32
        requires { room < (key self.now).chunks }
        ensures { result ≡ index (key self.now) (in_rooms (at_room_pin room)) }
    {
        self.offsets.rooms + room * self.offsets.room_width
    }

    /// The number of the word that lies so many places behind a room's pin word.
    fn behind_pin(&self, room: u32, place: u32) -> u32
        requires room { room < (key self.now).chunks }
        requires place { place < room_width (key self.now) }
        ensures { result ≡ index (key self.now) (in_rooms (at_room_pin room)) + place }
    {
        self.room_at(room) + place
    }

    /// The number of a room's base.
    pub fn base_at(&self, room: u32) -> u32
        requires { room < (key self.now).chunks }
        ensures { result ≡ index (key self.now) (in_rooms (at_base room)) }
    {
        self.behind_pin(room, 1)
    }

    /// The number of a room's count.
    pub fn count_at(&self, room: u32) -> u32
        requires { room < (key self.now).chunks }
        ensures { result ≡ index (key self.now) (in_rooms (at_count room)) }
    {
        self.behind_pin(room, 2)
    }

    /// The number of a room's first link.
    pub fn first_at(&self, room: u32) -> u32
        requires { room < (key self.now).chunks }
        ensures { result ≡ index (key self.now) (in_rooms (at_first room)) }
    {
        self.behind_pin(room, 4)
    }

    /// The number of word `j` of a room's low bound.
    pub fn low_at(&self, room: u32, j: u32) -> u32
        requires room { room < (key self.now).chunks }
        requires word { j < BOUND_WORDS }
        ensures { result ≡ index (key self.now) (in_rooms (at_low room j)) }
    {
        self.behind_pin(room, LOW_AT + j)
    }

    /// The number of word `j` of a room's high bound.
    pub fn high_at(&self, room: u32, j: u32) -> u32
        requires room { room < (key self.now).chunks }
        requires word { j < BOUND_WORDS }
        ensures { result ≡ index (key self.now) (in_rooms (at_high room j)) }
    {
        self.behind_pin(room, HIGH_AT + j)
    }

    /// The number of an entry's key word.
    pub fn key_at(&self, room: u32, entry: u32) -> u32
        requires room { room < (key self.now).chunks }
        requires entry { entry < (key self.now).entries }
        ensures { result ≡ index (key self.now) (in_rooms (at_key room entry)) }
    {
        // The limits of the table are read once.
        let _entries = self.entries();
        self.behind_pin(room, ENTRIES_AT + entry * ENTRY_WORDS as u32)
    }

    /// The number of an entry's value word.
    pub fn value_at(&self, room: u32, entry: u32) -> u32
        requires room { room < (key self.now).chunks }
        requires entry { entry < (key self.now).entries }
        ensures { result ≡ index (key self.now) (in_rooms (at_value room entry)) }
    {
        self.key_at(room, entry) + 1
    }

    /// The number of an entry's link.
    pub fn next_at(&self, room: u32, entry: u32) -> u32
        requires room { room < (key self.now).chunks }
        requires entry { entry < (key self.now).entries }
        ensures { result ≡ index (key self.now) (in_rooms (at_next room entry)) }
    {
        self.key_at(room, entry) + 2
    }
}
