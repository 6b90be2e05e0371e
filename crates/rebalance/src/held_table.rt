//! The real table as rooms that a pass holds.
ghost use Rattle.std.specs.Prelude.{◌≡◌, ◌<◌, ◌*◌, ◌-◌, ℕ, List, length, take};
ghost use Rattle.std.specs.List.Sorted.{IsPermutation};
ghost use Rattle.oak_model.specs.WordBytes.{word_bytes};
ghost use Rattle.oak_model.specs.Counts.{Each};
ghost use Rattle.arena_core.specs.Words.{bytes_in};
ghost use Rattle.chunk_core.specs.MovingRanges.{ranges_with};
ghost use Rattle.chunk_core.specs.RoomStep.{put_room};
ghost use Rattle.chunk_core.specs.Rooms.{at_key, read_room};
ghost use Rattle.chunk_core.specs.ValueWord.{names_header};
ghost use Rattle.oak_core.specs.Memory.{in_rooms, index};
ghost use Rattle.oak_core.specs.Passes.{IsPassOf, Stays, state, key as sizes, call_of};
ghost use Rattle.rebalance.specs.Filled.{bare_entry};
ghost use Rattle.rebalance.specs.Entries.{linked_entry, put_entry};
ghost use Rattle.rebalance.specs.HeldRooms.{AllValued, IsLoose, IsPlain, IsWithin, spot};
ghost use Rattle.rebalance.specs.HeldTables.{HoldsAlone, HoldsInTable, NamesInTable, NamesValued, SeesInTable, SeesValue, StaysInTable, WorksOnRooms, entries_few, entries_of, entries_stay, holds_still, is_its_key, key_of_entry, keys_of, names_still, ranges_of, rooms_of, sees_earlier, sees_later, slots_held, slots_many, stays_itself, stays_then, valued, with_word};
ghost use Rattle.rebalance.specs.Mirrors.{held_memory};
ghost use Rattle.rebalance.specs.Slots.{AreDistinct, Rise};

use crate::entries::{Entry, LinkedEntry};
use crate::held_rooms::{HeldRooms, RoomWord};
use arena_core::place::{block_in, class_in};
use arena_ops::give;
use chunk_ops::key_block_at;
use oak_core::steps::store_room;
use oak_core::{Block, OakTable, Pass, SortSlot, load};

/// Rooms of the table that a pass holds.
#[derive(Drop)]
pub(crate) struct HeldTable<'p> {
    pub(crate) table: &'p OakTable,
    pub(crate) pass: &'p mut Pass,
}

impl HeldRooms for HeldTable<'_> {
    ghost held = { HoldsInTable };

    ghost entries = { entries_of };

    ghost rooms = { rooms_of };

    ghost ranges = { ranges_of };

    ghost keys = { keys_of };

    ghost names = { NamesInTable };

    ghost slots = { slots_held };

    ghost stays = { StaysInTable };

    ghost sees = { SeesInTable };

    ghost stays_here = { stays_itself };

    ghost stays_on = { stays_then };

    ghost still_entries = { entries_stay };

    ghost still_held = { holds_still };

    ghost still_names = { names_still };

    ghost sees_later = { sees_later };

    ghost sees_earlier = { sees_earlier };

    ghost is_key = { is_its_key };

    ghost few_entries = { entries_few };

    ghost many_slots = { slots_many };

    fn load(&mut self, room: u32, word: RoomWord) -> u64 {
        load_word(self.table, self.pass, room, word)
    }

    fn load_entry(&mut self, room: u32, entry: u32) -> LinkedEntry {
        load_entry(self.table, self.pass, room, entry)
    }

    fn block_word(&mut self, place: u64, i: usize) -> u64 {
        load_block(self.table, self.pass, place, i)
    }

    fn store(&mut self, room: u32, word: RoomWord, number: u64) {
        store_word(self.table, self.pass, room, word, number);
    }

    fn store_entry(&mut self, room: u32, entry: u32, words: LinkedEntry) {
        store_entry(self.table, self.pass, room, entry, words);
    }

    fn drop_entry(&mut self, room: u32, entry: u32, place: u64) {
        drop_key(self.table, self.pass, room, entry, place);
    }

    fn clear_entry(&mut self, room: u32, entry: u32) {
        clear_entry(self.table, self.pass, room, entry);
    }

    fn entries_each(&self) -> u32 {
        self.table.entries()
    }

    fn slot(&self, i: usize) -> SortSlot {
        self.pass.sorting().slots()[i]
    }

    fn put(&mut self, i: usize, slot: SortSlot) {
        // Reading the slots shows how many there are.
        prove!(i < self.pass.sorting().slots().len());
        self.pass.sorting_mut().set(i, slot);
    }

    fn sort(&mut self, n: usize) {
        // Reading the slots shows how many there are.
        prove!(n <= self.pass.sorting().slots().len());
        sort_slots(self.pass.sorting_mut().front_mut(n));
    }
}

/// Sorts slots by their keys, which differ, in place.
fn sort_slots(slots: &mut [SortSlot])
    requires { AreDistinct slots.old }
    ensures permutation { IsPermutation slots.old slots.new }
    ensures rise { Rise slots.new }
{
    slots.sort_unstable();
}

/// The number of a word of a room.
fn number_of(table: &OakTable, room: u32, word: RoomWord) -> u32
    requires inside { room < (sizes table.now).chunks }
    requires within { IsWithin (sizes table.now).entries word }
    ensures { result ≡ index (sizes table.now) (in_rooms (spot room word)) }
{
    match word {
        RoomWord::Base => table.base_at(room),
        RoomWord::Count => table.count_at(room),
        RoomWord::First => table.first_at(room),
        RoomWord::Low(j) => table.low_at(room, j),
        RoomWord::High(j) => table.high_at(room, j),
        RoomWord::Key(i) => table.key_at(room, i),
        RoomWord::Value(i) => table.value_at(room, i),
        RoomWord::Next(i) => table.next_at(room, i),
    }
}

/// Loads a word of a room that the pass holds, by its number.
fn load_at(table: &OakTable, pass: &mut Pass, room: u32, word: RoomWord, at: u32) -> u64
    requires own { IsPassOf table.now pass.old }
    requires held { HoldsAlone (sizes table.now) room (state pass.old) }
    requires within { IsWithin (sizes table.now).entries word }
    requires number { at ≡ index (sizes table.now) (in_rooms (spot room word)) }
    ensures own { Stays pass.old pass.new }
    ensures works { WorksOnRooms (sizes table.now) (call_of pass.old) (state pass.old) (state pass.new) }
    ensures rooms { (state pass.new).rooms ≡ (state pass.old).rooms }
    ensures word { result ≡ read_room (held_memory (state pass.old).rooms.held) (spot room word) }
    ensures sees { (i : ℕ) → word ≡ RoomWord.Value i → names_header result ≡ 1 → SeesValue (sizes table.now) room i
        (state pass.old) (state pass.new) }
{
    load(table, pass, at)
}

/// Loads a word of a room that the pass holds.
fn load_word(table: &OakTable, pass: &mut Pass, room: u32, word: RoomWord) -> u64
    requires own { IsPassOf table.now pass.old }
    requires held { HoldsAlone (sizes table.now) room (state pass.old) }
    requires within { IsWithin (sizes table.now).entries word }
    ensures own { Stays pass.old pass.new }
    ensures works { WorksOnRooms (sizes table.now) (call_of pass.old) (state pass.old) (state pass.new) }
    ensures rooms { (state pass.new).rooms ≡ (state pass.old).rooms }
    ensures word { result ≡ read_room (held_memory (state pass.old).rooms.held) (spot room word) }
    ensures sees { (i : ℕ) → word ≡ RoomWord.Value i → names_header result ≡ 1 → SeesValue (sizes table.now) room i
        (state pass.old) (state pass.new) }
{
    let at = number_of(table, room, word);
    load_at(table, pass, room, word, at)
}

/// Loads the words of an entry of a room that the pass holds.
fn load_entry(table: &OakTable, pass: &mut Pass, room: u32, entry: u32) -> LinkedEntry
    requires own { IsPassOf table.now pass.old }
    requires held { HoldsAlone (sizes table.now) room (state pass.old) }
    requires within { entry < (sizes table.now).entries }
    ensures own { Stays pass.old pass.new }
    ensures works { WorksOnRooms (sizes table.now) (call_of pass.old) (state pass.old) (state pass.new) }
    ensures rooms { (state pass.new).rooms ≡ (state pass.old).rooms }
    ensures words { result ≡ linked_entry (held_memory (state pass.old).rooms.held) room entry }
    ensures sees { names_header result.entry.value ≡ 1 → SeesValue (sizes table.now) room entry (state pass.old) (state pass.new) }
{
    // No load or store stands between these, so that what they share is computed once.
    let key_at = table.key_at(room, entry);
    let value_at = table.value_at(room, entry);
    let next_at = table.next_at(room, entry);
    let place = load_at(table, pass, room, RoomWord::Key(entry), key_at);
    let value = load_at(table, pass, room, RoomWord::Value(entry), value_at);
    let next = load_at(table, pass, room, RoomWord::Next(entry), next_at);
    LinkedEntry {
        entry: Entry { place, value },
        next,
    }
}

/// Stores to a word of a room that the pass holds, by its number. No key word becomes 0 by it.
fn store_at(table: &OakTable, pass: &mut Pass, room: u32, word: RoomWord, at: u32, number: u64)
    requires own { IsPassOf table.now pass.old }
    requires held { HoldsAlone (sizes table.now) room (state pass.old) }
    requires within { IsWithin (sizes table.now).entries word }
    requires number { at ≡ index (sizes table.now) (in_rooms (spot room word)) }
    requires plain { IsPlain word number }
    ensures own { Stays pass.old pass.new }
    ensures works { WorksOnRooms (sizes table.now) (call_of pass.old) (state pass.old) (state pass.new) }
    ensures ranges { (state pass.new).rooms.moving ≡ (state pass.old).rooms.moving }
    ensures stored { held_memory (state pass.new).rooms.held ≡ put_room (held_memory (state pass.old).rooms.held) (spot room word) number }
{
    store_room(table, pass, at, number);
}

/// Makes a word of a room that the pass holds this number, by the word's number. No key word becomes 0 by it.
fn set_at(table: &OakTable, pass: &mut Pass, room: u32, word: RoomWord, at: u32, number: u64)
    requires own { IsPassOf table.now pass.old }
    requires held { HoldsAlone (sizes table.now) room (state pass.old) }
    requires within { IsWithin (sizes table.now).entries word }
    requires number { at ≡ index (sizes table.now) (in_rooms (spot room word)) }
    requires plain { IsPlain word number }
    ensures own { Stays pass.old pass.new }
    ensures works { WorksOnRooms (sizes table.now) (call_of pass.old) (state pass.old) (state pass.new) }
    ensures ranges { (state pass.new).rooms.moving ≡ (state pass.old).rooms.moving }
    ensures stored { held_memory (state pass.new).rooms.held ≡ put_room (held_memory (state pass.old).rooms.held) (spot room word) number }
{
    // A load costs less than a store, and most words that come here have the number already.
    let found = load_at(table, pass, room, word, at);
    if found == number {
        return;
    }
    store_at(table, pass, room, word, at, number);
}

/// Makes a word of a room that the pass holds this number. No key word becomes 0 by it.
fn store_word(table: &OakTable, pass: &mut Pass, room: u32, word: RoomWord, number: u64)
    requires own { IsPassOf table.now pass.old }
    requires held { HoldsAlone (sizes table.now) room (state pass.old) }
    requires within { IsWithin (sizes table.now).entries word }
    requires plain { IsPlain word number }
    ensures own { Stays pass.old pass.new }
    ensures works { WorksOnRooms (sizes table.now) (call_of pass.old) (state pass.old) (state pass.new) }
    ensures ranges { (state pass.new).rooms.moving ≡ (state pass.old).rooms.moving }
    ensures stored { held_memory (state pass.new).rooms.held ≡ put_room (held_memory (state pass.old).rooms.held) (spot room word) number }
{
    let at = number_of(table, room, word);
    set_at(table, pass, room, word, at, number);
}

/// Stores to the words of an entry of a room that the pass holds.
fn store_entry(table: &OakTable, pass: &mut Pass, room: u32, entry: u32, words: LinkedEntry)
    requires own { IsPassOf table.now pass.old }
    requires held { HoldsAlone (sizes table.now) room (state pass.old) }
    requires within { entry < (sizes table.now).entries }
    requires named { 0 < words.entry.place }
    ensures own { Stays pass.old pass.new }
    ensures works { WorksOnRooms (sizes table.now) (call_of pass.old) (state pass.old) (state pass.new) }
    ensures ranges { (state pass.new).rooms.moving ≡ (state pass.old).rooms.moving }
    ensures stored { held_memory (state pass.new).rooms.held ≡ put_entry (held_memory (state pass.old).rooms.held) room entry words }
{
    let Entry { place, value } = words.entry;
    let key_at = table.key_at(room, entry);
    let value_at = table.value_at(room, entry);
    let next_at = table.next_at(room, entry);
    store_at(table, pass, room, RoomWord::Key(entry), key_at, place);
    store_at(table, pass, room, RoomWord::Value(entry), value_at, value);
    store_at(
        table,
        pass,
        room,
        RoomWord::Next(entry),
        next_at,
        words.next,
    );
}

/// Loads word `i` of the block that a key word names, of a carried entry that has a value.
fn load_block(table: &OakTable, pass: &mut Pass, place: u64, i: usize) -> u64
    requires own { IsPassOf table.now pass.old }
    requires named { NamesValued (sizes table.now) place (valued (state pass.old).rooms.moving) }
    requires within { 8 * i < length (key_of_entry (with_word place (valued (state pass.old).rooms.moving))) }
    ensures own { Stays pass.old pass.new }
    ensures works { WorksOnRooms (sizes table.now) (call_of pass.old) (state pass.old) (state pass.new) }
    ensures rooms { (state pass.new).rooms ≡ (state pass.old).rooms }
    ensures bytes { (k : List ℕ) → k ≡ key_of_entry (with_word place (valued (state pass.old).rooms.moving))
        → take (length k - 8 * i) (word_bytes result) ≡ bytes_in i k }
{
    let at = key_block_at(table, place, i);
    load(table, pass, at)
}

/// Stores 0 to the key word of an entry without a value, of a room that the pass holds, and gives the
/// block of its key back.
fn drop_key(table: &OakTable, pass: &mut Pass, room: u32, entry: u32, place: u64)
    requires own { IsPassOf table.now pass.old }
    requires held { HoldsAlone (sizes table.now) room (state pass.old) }
    requires within { entry < (sizes table.now).entries }
    requires is { place ≡ (held_memory (state pass.old).rooms.held).key room entry }
    requires loose { IsLoose place (state pass.old).rooms.moving }
    ensures own { Stays pass.old pass.new }
    ensures works { WorksOnRooms (sizes table.now) (call_of pass.old) (state pass.old) (state pass.new) }
    ensures dropped { held_memory (state pass.new).rooms.held ≡ put_room (held_memory (state pass.old).rooms.held) (at_key room entry) 0 }
    ensures ranges { (state pass.new).rooms.moving ≡ ranges_with place (state pass.old).rooms.moving }
{
    let at = table.key_at(room, entry);
    store_room(table, pass, at, 0);
    let block = Block {
        class: class_in(place),
        number: block_in(place),
    };
    give(table, pass, block);
}

/// Stores 0 to the key word of an entry of a room that the pass holds, where each entry that its ranges
/// carry has a value, so that none is dropped. It is word `at`.
fn clear_key(table: &OakTable, pass: &mut Pass, room: u32, entry: u32, at: u32)
    requires own { IsPassOf table.now pass.old }
    requires held { HoldsAlone (sizes table.now) room (state pass.old) }
    requires within { entry < (sizes table.now).entries }
    requires number { at ≡ index (sizes table.now) (in_rooms (at_key room entry)) }
    requires valued { Each AllValued (state pass.old).rooms.moving }
    ensures own { Stays pass.old pass.new }
    ensures works { WorksOnRooms (sizes table.now) (call_of pass.old) (state pass.old) (state pass.new) }
    ensures ranges { (state pass.new).rooms.moving ≡ (state pass.old).rooms.moving }
    ensures cleared { held_memory (state pass.new).rooms.held ≡ put_room (held_memory (state pass.old).rooms.held) (at_key room entry) 0 }
{
    store_room(table, pass, at, 0);
}

/// Makes the key word of an entry 0, as `clear_key` does. It is word `at`.
fn empty_key(table: &OakTable, pass: &mut Pass, room: u32, entry: u32, at: u32)
    requires own { IsPassOf table.now pass.old }
    requires held { HoldsAlone (sizes table.now) room (state pass.old) }
    requires within { entry < (sizes table.now).entries }
    requires number { at ≡ index (sizes table.now) (in_rooms (at_key room entry)) }
    requires valued { Each AllValued (state pass.old).rooms.moving }
    ensures own { Stays pass.old pass.new }
    ensures works { WorksOnRooms (sizes table.now) (call_of pass.old) (state pass.old) (state pass.new) }
    ensures ranges { (state pass.new).rooms.moving ≡ (state pass.old).rooms.moving }
    ensures cleared { held_memory (state pass.new).rooms.held ≡ put_room (held_memory (state pass.old).rooms.held) (at_key room entry) 0 }
{
    // A load costs less than a store, and most entries that are cleared are clear.
    let place = load_at(table, pass, room, RoomWord::Key(entry), at);
    if place == 0 {
        return;
    }
    clear_key(table, pass, room, entry, at);
}

/// Makes the key word and the value word of an entry of a room that the pass holds 0, where each entry that
/// the room's ranges carry has a value.
fn clear_entry(table: &OakTable, pass: &mut Pass, room: u32, entry: u32)
    requires own { IsPassOf table.now pass.old }
    requires held { HoldsAlone (sizes table.now) room (state pass.old) }
    requires within { entry < (sizes table.now).entries }
    requires valued { Each AllValued (state pass.old).rooms.moving }
    ensures own { Stays pass.old pass.new }
    ensures works { WorksOnRooms (sizes table.now) (call_of pass.old) (state pass.old) (state pass.new) }
    ensures ranges { (state pass.new).rooms.moving ≡ (state pass.old).rooms.moving }
    ensures cleared { held_memory (state pass.new).rooms.held ≡ bare_entry (held_memory (state pass.old).rooms.held) room entry }
{
    let key_at = table.key_at(room, entry);
    let value_at = table.value_at(room, entry);
    empty_key(table, pass, room, entry, key_at);
    set_at(table, pass, room, RoomWord::Value(entry), value_at, 0);
}
