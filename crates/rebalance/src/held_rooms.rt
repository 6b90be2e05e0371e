//! Rooms that a pass holds alone.
ghost use Rattle.std.specs.Prelude.{◌≡◌, ℕ, ◌*◌, ◌-◌, ◌<◌, ◌≤◌, List, length, slice_set, take};
ghost use Rattle.std.specs.List.{slice_index_or};
ghost use Rattle.std.specs.List.Sorted.{IsPermutation};
ghost use Rattle.oak_model.specs.WordBytes.{word_bytes};
ghost use Rattle.oak_model.specs.declared.limits.TheConstants.{GREATEST_ENTRIES};
ghost use Rattle.oak_model.specs.Counts.{Each};
ghost use Rattle.arena_core.specs.Words.{bytes_in};
ghost use Rattle.chunk_core.specs.declared.holds.MovingRange.{MovingRange};
ghost use Rattle.chunk_core.specs.MovingRanges.{ranges_with};
ghost use Rattle.chunk_core.specs.RoomStep.{put_room};
ghost use Rattle.chunk_core.specs.Rooms.{RoomMemory, read_room, at_key};
ghost use Rattle.chunk_core.specs.ValueWord.{names_header};
ghost use Rattle.oak_core.specs.declared.sorting.SortSlot.{SortSlot};
ghost use Rattle.rebalance.specs.Entries.{linked_entry, put_entry};
ghost use Rattle.rebalance.specs.Filled.{bare_entry};
ghost use Rattle.rebalance.specs.HeldRooms.{AllValued, IsNamed, IsLoose, IsPlain, IsWithin, spot};
ghost use Rattle.rebalance.specs.Slots.{AreDistinct, Rise};

use crate::entries::LinkedEntry;
use oak_core::SortSlot;

/// A word of a held room.
#[derive(Clone, Copy)]
pub(crate) enum RoomWord {
    Base,
    Count,
    First,
    Low(u32),
    High(u32),
    Key(u32),
    Value(u32),
    Next(u32),
}

/// Rooms that a pass holds alone, with their table and the pass. Each load and each store of a word is one step.
pub(crate) trait HeldRooms {
    // that the pass holds the room
    ghost held: { Self → ℕ → Type 0 };

    // how many entries a room has
    ghost entries: { Self → ℕ };

    // the words of the rooms that it holds
    ghost rooms: { Self → RoomMemory };

    // the ranges that move with the pass
    ghost ranges: { Self → List MovingRange };

    // the key that stands in the block that a key word names
    ghost keys: { Self → ℕ → List ℕ };

    // that a carried entry with a value has the key word, which names a block with a key in it
    ghost names: { Self → ℕ → Type 0 };

    // the pass's slots
    ghost slots: { Self → List SortSlot };

    // the later one holds what the earlier one did, and its key words name the same keys
    ghost stays: { Self → Self → Type 0 };

    // between the two the value word of an entry of the room was found with a value
    ghost sees: { Self → Self → ℕ → ℕ → Type 0 };

    /// Loads a word.
    fn load(&mut self, room: u32, word: RoomWord) -> u64
        requires held { held self.old room }
        requires within { IsWithin (entries self.old) word }
        ensures stays { stays self.old self.new }
        ensures rooms { rooms self.new ≡ rooms self.old }
        ensures ranges { ranges self.new ≡ ranges self.old }
        ensures slots { slots self.new ≡ slots self.old }
        ensures word { result ≡ read_room (rooms self.old) (spot room word) }
        ensures sees { (i : ℕ) → word ≡ RoomWord.Value i → names_header result ≡ 1 → sees self.old self.new room i };

    /// Loads the words of an entry.
    fn load_entry(&mut self, room: u32, entry: u32) -> LinkedEntry
        requires held { held self.old room }
        requires within { entry < entries self.old }
        ensures stays { stays self.old self.new }
        ensures rooms { rooms self.new ≡ rooms self.old }
        ensures ranges { ranges self.new ≡ ranges self.old }
        ensures slots { slots self.new ≡ slots self.old }
        ensures words { result ≡ linked_entry (rooms self.old) room entry }
        ensures sees { names_header result.entry.value ≡ 1 → sees self.old self.new room entry };

    /// Loads word `i` of the block that a key word names. Behind the key's last byte it has any bytes.
    fn block_word(&mut self, place: u64, i: usize) -> u64
        requires named { names self.old place }
        requires within { 8 * i < length (keys self.old place) }
        ensures stays { stays self.old self.new }
        ensures rooms { rooms self.new ≡ rooms self.old }
        ensures ranges { ranges self.new ≡ ranges self.old }
        ensures slots { slots self.new ≡ slots self.old }
        ensures bytes { take (length (keys self.old place) - 8 * i) (word_bytes result) ≡ bytes_in i (keys self.old place) };

    /// Stores to a word. No key word becomes 0 by it.
    fn store(&mut self, room: u32, word: RoomWord, number: u64)
        requires held { held self.old room }
        requires within { IsWithin (entries self.old) word }
        requires plain { IsPlain word number }
        ensures stays { stays self.old self.new }
        ensures ranges { ranges self.new ≡ ranges self.old }
        ensures slots { slots self.new ≡ slots self.old }
        ensures stored { rooms self.new ≡ put_room (rooms self.old) (spot room word) number };

    /// Stores to the words of an entry, and no 0 to its key word.
    fn store_entry(&mut self, room: u32, entry: u32, words: LinkedEntry)
        requires held { held self.old room }
        requires within { entry < entries self.old }
        requires named { 0 < words.entry.place }
        ensures stays { stays self.old self.new }
        ensures ranges { ranges self.new ≡ ranges self.old }
        ensures slots { slots self.new ≡ slots self.old }
        ensures stored { rooms self.new ≡ put_entry (rooms self.old) room entry words };

    /// Stores 0 to the key word of an entry without a value, and gives the block of its key back. The base of
    /// the range that carried the entry is not below its floor then.
    fn drop_entry(&mut self, room: u32, entry: u32, place: u64)
        requires held { held self.old room }
        requires within { entry < entries self.old }
        requires is { place ≡ (rooms self.old).key room entry }
        requires loose { IsLoose place (ranges self.old) }
        ensures stays { stays self.old self.new }
        ensures slots { slots self.new ≡ slots self.old }
        ensures dropped { rooms self.new ≡ put_room (rooms self.old) (at_key room entry) 0 }
        ensures ranges { ranges self.new ≡ ranges_with place (ranges self.old) };

    /// Makes the key word and the value word of an entry 0, where each carried entry has a value, so that none is
    /// dropped.
    fn clear_entry(&mut self, room: u32, entry: u32)
        requires held { held self.old room }
        requires within { entry < entries self.old }
        requires valued { Each AllValued (ranges self.old) }
        ensures stays { stays self.old self.new }
        ensures ranges { ranges self.new ≡ ranges self.old }
        ensures slots { slots self.new ≡ slots self.old }
        ensures cleared { rooms self.new ≡ bare_entry (rooms self.old) room entry };

    /// How many entries a room has.
    fn entries_each(&self) -> u32
        ensures { result ≡ entries self.now };

    /// Slot `i`.
    fn slot(&self, i: usize) -> SortSlot
        requires { i < GREATEST_ENTRIES }
        ensures { (d : SortSlot) → result ≡ slice_index_or (slots self.now) i d };

    /// Slot `i` becomes this one.
    fn put(&mut self, i: usize, slot: SortSlot)
        requires { i < GREATEST_ENTRIES }
        ensures stays { stays self.old self.new }
        ensures rooms { rooms self.new ≡ rooms self.old }
        ensures ranges { ranges self.new ≡ ranges self.old }
        ensures slots { slots self.new ≡ slice_set (slots self.old) i slot };

    /// Sorts the first `n` slots, whose keys differ, in place.
    fn sort(&mut self, n: usize)
        requires within { n ≤ GREATEST_ENTRIES }
        requires distinct { AreDistinct (take n (slots self.old)) }
        ensures stays { stays self.old self.new }
        ensures rooms { rooms self.new ≡ rooms self.old }
        ensures ranges { ranges self.new ≡ ranges self.old }
        ensures permutation { IsPermutation (take n (slots self.old)) (take n (slots self.new)) }
        ensures rise { Rise (take n (slots self.new)) };

    ghost stays_here: { (s : Self) → stays s s };

    ghost stays_on: { (s t u : Self) → stays s t → stays t u → stays s u };

    ghost still_entries: { (s t : Self) → stays s t → entries t ≡ entries s };

    ghost still_held: { (s t : Self) (r : ℕ) → stays s t → held s r → held t r };

    ghost still_names: { (s t : Self) (w : ℕ) → stays s t → names s w → names t w × (keys t w ≡ keys s w) };

    ghost sees_later: { (s t u : Self) (r i : ℕ) → sees s t r i → stays t u → sees s u r i };

    ghost sees_earlier: { (s t u : Self) (r i : ℕ) → stays s t → sees t u r i → sees s u r i };

    ghost is_key: { (s : Self) (w : ℕ) → names s w → IsNamed w (keys s w) };

    ghost few_entries: { (s : Self) (r : ℕ) → held s r → entries s ≤ GREATEST_ENTRIES };

    ghost many_slots: { (s : Self) → length (slots s) ≡ GREATEST_ENTRIES };
}
