//! Words of a pinned room and of its entries.
ghost use Rattle.std.specs.Prelude.{◌≡◌, ◌<◌, ℕ, List, length, slice_index};
ghost use Rattle.oak_model.specs.Key.{IsKey};
ghost use Rattle.chunk_core.specs.Rooms.{at_key};
ghost use Rattle.oak_core.specs.Memory.{in_rooms, index};
ghost use Rattle.oak_core.specs.Passes.{IsPassOf, Stays, state, key, call_of};
ghost use Rattle.chunk_ops.specs.PinRecords.{HasEntry, HasRoomPin, OnlyMeets};
ghost use Rattle.chunk_ops.specs.RoomWords.{FindsBase, FindsKeyWord};

use crate::entries::EntryNo;
use crate::key_blocks::key_block_at;
use crate::room_pins::RoomPin;
use arena_core::place::length_in;
use arena_core::words::WORD;
use oak_core::{OakTable, Pass, load};

/// The base of the pinned room: each stamp that a key of its range had is at most this, where the key
/// has no entry.
pub fn base_of(table: &OakTable, pass: &mut Pass, pin: &RoomPin) -> u64
    requires own { IsPassOf table.now pass.old }
    requires pinned { HasRoomPin (key table.now) pin.now.room (state pass.old) }
    ensures own { Stays pass.old pass.new }
    ensures base { FindsBase (key table.now) (call_of pass.old) pin.now.room result (state pass.old) (state pass.new) }
    ensures only { OnlyMeets (call_of pass.old) (state pass.old) (state pass.new) }
{
    let word = table.base_at(pin.room);
    load(table, pass, word)
}

/// Loads the key word of an entry.
fn key_word(table: &OakTable, pass: &mut Pass, pin: &RoomPin, entry: EntryNo) -> u64
    requires own { IsPassOf table.now pass.old }
    requires pinned { HasRoomPin (key table.now) pin.now.room (state pass.old) }
    requires entry { (k : List ℕ) × HasEntry pin.now.room entry.0 k (state pass.old) }
    ensures own { Stays pass.old pass.new }
    ensures word { (k : List ℕ) → (h : HasEntry pin.now.room entry.0 k (state pass.old)) → FindsKeyWord (key table.now) k h.entry result }
    ensures only { OnlyMeets (call_of pass.old) (state pass.old) (state pass.new) }
{
    let word = table.key_at(pin.room, entry.0);
    key_word_at(table, pass, pin, entry, word)
}

/// Loads the key word of an entry, by its number.
pub(crate) fn key_word_at(
    table: &OakTable,
    pass: &mut Pass,
    pin: &RoomPin,
    entry: EntryNo,
    at: u32,
) -> u64
    requires own { IsPassOf table.now pass.old }
    requires pinned { HasRoomPin (key table.now) pin.now.room (state pass.old) }
    requires entry { (k : List ℕ) × HasEntry pin.now.room entry.0 k (state pass.old) }
    requires number { at ≡ index (key table.now) (in_rooms (at_key pin.now.room entry.0)) }
    ensures own { Stays pass.old pass.new }
    ensures word { (k : List ℕ) → (h : HasEntry pin.now.room entry.0 k (state pass.old)) → FindsKeyWord (key table.now) k h.entry result }
    ensures only { OnlyMeets (call_of pass.old) (state pass.old) (state pass.new) }
{
    load(table, pass, at)
}

/// The length in bytes of an entry's key.
pub fn key_len(table: &OakTable, pass: &mut Pass, pin: &RoomPin, entry: EntryNo) -> usize
    requires own { IsPassOf table.now pass.old }
    requires pinned { HasRoomPin (key table.now) pin.now.room (state pass.old) }
    requires entry { (k : List ℕ) × HasEntry pin.now.room entry.0 k (state pass.old) }
    ensures own { Stays pass.old pass.new }
    ensures length { (k : List ℕ) → HasEntry pin.now.room entry.0 k (state pass.old) → (result ≡ length k) × IsKey k }
    ensures only { OnlyMeets (call_of pass.old) (state pass.old) (state pass.new) }
{
    length_in(key_word(table, pass, pin, entry))
}

/// Byte `i` of an entry's key.
pub fn key_byte(table: &OakTable, pass: &mut Pass, pin: &RoomPin, entry: EntryNo, i: usize) -> u8
    requires own { IsPassOf table.now pass.old }
    requires pinned { HasRoomPin (key table.now) pin.now.room (state pass.old) }
    requires entry { (k : List ℕ) × HasEntry pin.now.room entry.0 k (state pass.old) × (i < length k) }
    ensures own { Stays pass.old pass.new }
    ensures byte { (k : List ℕ) → HasEntry pin.now.room entry.0 k (state pass.old) → result ≡ slice_index k i }
    ensures only { OnlyMeets (call_of pass.old) (state pass.old) (state pass.new) }
{
    let place = key_word(table, pass, pin, entry);
    let at = key_block_at(table, place, i / WORD);
    let word = load(table, pass, at);
    word.to_be_bytes()[i % WORD]
}
