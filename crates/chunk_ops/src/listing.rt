//! The entries of a pinned room along its links, and their keys.
ghost use Rattle.std.specs.Prelude.{◌≡◌, ℕ, List, MatchOption, Some};
ghost use Rattle.oak_model.specs.Key.{IsKey};
ghost use Rattle.chunk_core.specs.LinkWords.{link_spot};
ghost use Rattle.chunk_core.specs.Rooms.{IsInRooms, at_key};
ghost use Rattle.oak_core.specs.Memory.{in_rooms, index};
ghost use Rattle.oak_core.specs.Passes.{IsPassOf, Stays, state, key as sizes, call_of};
ghost use Rattle.chunk_ops.specs.Listing.{StepsTo, number_of};
ghost use Rattle.chunk_ops.specs.PinRecords.{HasEntry, HasRoomPin, OnlyMeets};
ghost use Rattle.chunk_ops.specs.Stored.{IsStored};

use crate::entries::EntryNo;
use crate::key_blocks::key_block_at;
use crate::loading::key_word_at;
use crate::room_pins::RoomPin;
use crate::stored::{KEY_WORDS, StoredKey};
use arena_core::place::length_in;
use arena_core::words::{WORD, first_bytes};
use oak_core::{OakTable, Pass, load};

/// The number of the room's first link, or of an entry's.
fn link_word(table: &OakTable, pin: &RoomPin, from: Option<EntryNo>) -> u32
    requires inside { IsInRooms (sizes table.now) (link_spot pin.now.room (number_of from)) }
    ensures { result ≡ index (sizes table.now) (in_rooms (link_spot pin.now.room (number_of from))) }
{
    match from {
        None => table.first_at(pin.room),
        Some(entry) => table.next_at(pin.room, entry.0),
    }
}

/// The entry that the room's first link names, or the link of an entry that the pin has found, whose number this is, by
/// one load, as [`next_entry`] has it.
fn follow(
    table: &OakTable,
    pass: &mut Pass,
    pin: &RoomPin,
    from: Option<EntryNo>,
    word: u32,
) -> Option<EntryNo>
    requires own { IsPassOf table.now pass.old }
    requires pinned { HasRoomPin (sizes table.now) pin.now.room (state pass.old) }
    requires from { MatchOption from Unit (λ i. (k : List ℕ) × HasEntry pin.now.room i.0 k (state pass.old)) }
    requires number { word ≡ index (sizes table.now) (in_rooms (link_spot pin.now.room (number_of from))) }
    ensures own { Stays pass.old pass.new }
    ensures steps { StepsTo (sizes table.now) (call_of pass.old) pin.now.room from result (state pass.old) (state pass.new) }
{
    let link = load(table, pass, word) as u32;
    link.checked_sub(1).map(EntryNo)
}

/// The entry that the room's first link names, or the link of an entry that the pin has found, by one load;
/// none where the link ends. The pin has found it from then on, and its key is greater. Each key of the range
/// that the link steps over was absent then.
pub fn next_entry(
    table: &OakTable,
    pass: &mut Pass,
    pin: &RoomPin,
    from: Option<EntryNo>,
) -> Option<EntryNo>
    requires own { IsPassOf table.now pass.old }
    requires pinned { HasRoomPin (sizes table.now) pin.now.room (state pass.old) }
    requires from { MatchOption from Unit (λ i. (k : List ℕ) × HasEntry pin.now.room i.0 k (state pass.old)) }
    ensures own { Stays pass.old pass.new }
    ensures steps { StepsTo (sizes table.now) (call_of pass.old) pin.now.room from result (state pass.old) (state pass.new) }
{
    let word = link_word(table, pin, from);
    follow(table, pass, pin, from, word)
}

/// The entry that the link of this one names, as [`next_entry`] has it, where the number of its key word is known.
pub fn next_entry_at(
    table: &OakTable,
    pass: &mut Pass,
    pin: &RoomPin,
    entry: EntryNo,
    at: u32,
) -> Option<EntryNo>
    requires own { IsPassOf table.now pass.old }
    requires pinned { HasRoomPin (sizes table.now) pin.now.room (state pass.old) }
    requires entry { (k : List ℕ) × HasEntry pin.now.room entry.0 k (state pass.old) }
    requires number { at ≡ index (sizes table.now) (in_rooms (at_key pin.now.room entry.0)) }
    ensures own { Stays pass.old pass.new }
    ensures steps { StepsTo (sizes table.now) (call_of pass.old) pin.now.room (Some entry) result (state pass.old) (state pass.new) }
{
    follow(table, pass, pin, Some(entry), at + 2)
}

/// Loads the key of an entry: its key word once, and each word of its bytes once.
pub fn entry_key(table: &OakTable, pass: &mut Pass, pin: &RoomPin, entry: EntryNo) -> StoredKey
    requires own { IsPassOf table.now pass.old }
    requires pinned { HasRoomPin (sizes table.now) pin.now.room (state pass.old) }
    requires entry { (k : List ℕ) × HasEntry pin.now.room entry.0 k (state pass.old) }
    ensures own { Stays pass.old pass.new }
    ensures key { (k : List ℕ) → HasEntry pin.now.room entry.0 k (state pass.old) → IsStored result k × IsKey k }
    ensures only { OnlyMeets (call_of pass.old) (state pass.old) (state pass.new) }
{
    let at = table.key_at(pin.room, entry.0);
    entry_key_at(table, pass, pin, entry, at)
}

/// Loads the key of an entry as [`entry_key`] does, where the number of its key word is known.
#[inline(always)] // once for each pair of a scan, and an answer goes through memory at a call
pub fn entry_key_at(
    table: &OakTable,
    pass: &mut Pass,
    pin: &RoomPin,
    entry: EntryNo,
    at: u32,
) -> StoredKey
    requires own { IsPassOf table.now pass.old }
    requires pinned { HasRoomPin (sizes table.now) pin.now.room (state pass.old) }
    requires entry { (k : List ℕ) × HasEntry pin.now.room entry.0 k (state pass.old) }
    requires number { at ≡ index (sizes table.now) (in_rooms (at_key pin.now.room entry.0)) }
    ensures own { Stays pass.old pass.new }
    ensures key { (k : List ℕ) → HasEntry pin.now.room entry.0 k (state pass.old) → IsStored result k × IsKey k }
    ensures only { OnlyMeets (call_of pass.old) (state pass.old) (state pass.new) }
{
    let place = key_word_at(table, pass, pin, entry, at);
    let length = length_in(place);
    if length <= WORD {
        // With no loop over its words the key of one word stays out of memory.
        let first = key_block_at(table, place, 0);
        let loaded = load(table, pass, first);
        let only = first_bytes(loaded, length);
        let mut alone = [0; KEY_WORDS];
        alone[0] = only;
        return StoredKey::from_words(alone, length);
    }
    let mut words = [0; KEY_WORDS];
    for i in 0..length.div_ceil(WORD) {
        let at = key_block_at(table, place, i);
        let word = load(table, pass, at);
        words[i] = first_bytes(word, length - WORD * i);
    }
    StoredKey::from_words(words, length)
}
