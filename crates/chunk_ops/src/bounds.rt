//! The bounds of a pinned room.
ghost use Rattle.std.specs.Prelude.{◌≡◌, ◌<◌, MatchOption, slice_index};
ghost use Rattle.chunk_core.specs.declared.layout.TheConstants.{BOUND_WORDS};
ghost use Rattle.oak_core.specs.Memory.{in_rooms, index};
ghost use Rattle.oak_core.specs.Passes.{IsPassOf, Stays, state, key, call_of};
ghost use Rattle.oak_core.specs.Tries.{PinsRooms};
ghost use Rattle.chunk_ops.specs.PinRecords.{HasRoomPin, OnlyMeets, room_pin};
ghost use Rattle.chunk_ops.specs.PinnedBounds.{IsBelow, bound_spot, bound_words, bound_bytes, bound_length, low_length, high_length, low_bound, high_bound};
ghost use Rattle.chunk_ops.specs.Stored.{IsStored};

use crate::room_pins::RoomPin;
use crate::stored::{KEY_WORDS, StoredKey};
use arena_core::words::{WORD, first_bytes};
use oak_core::{OakTable, Pass, load};

/// One of the two bounds of a room.
#[derive(Clone, Copy)]
pub(crate) enum Bound {
    Low,
    High,
}

/// The number of word `j` of a room's bound.
fn bound_at(table: &OakTable, room: u32, bound: Bound, j: u32) -> u32
    requires room { room < (key table.now).chunks }
    requires word { j < BOUND_WORDS }
    ensures { result ≡ index (key table.now) (in_rooms (bound_spot bound room j)) }
{
    match bound {
        Bound::Low => table.low_at(room, j),
        Bound::High => table.high_at(room, j),
    }
}

/// Loads word `j` of a bound of the pinned room.
pub(crate) fn bound_word(
    table: &OakTable,
    pass: &mut Pass,
    pin: &RoomPin,
    bound: Bound,
    j: u32,
) -> u64
    requires own { IsPassOf table.now pass.old }
    requires pinned { HasRoomPin (key table.now) pin.now.room (state pass.old) }
    requires word { j < BOUND_WORDS }
    ensures own { Stays pass.old pass.new }
    ensures tries { PinsRooms (key table.now) 0 pass.old pass.new }
    ensures word { result ≡ slice_index (bound_words bound (room_pin (state pass.old))) j }
    ensures only { OnlyMeets (call_of pass.old) (state pass.old) (state pass.new) }
{
    let word = bound_at(table, pin.room, bound, j);
    load(table, pass, word)
}

/// Loads byte `i` of a bound of the pinned room, which is one of its bytes.
fn bound_byte(table: &OakTable, pass: &mut Pass, pin: &RoomPin, bound: Bound, i: usize) -> u8
    requires own { IsPassOf table.now pass.old }
    requires pinned { HasRoomPin (key table.now) pin.now.room (state pass.old) }
    requires byte { i < bound_length bound (room_pin (state pass.old)) }
    ensures own { Stays pass.old pass.new }
    ensures byte { result ≡ slice_index (bound_bytes bound (room_pin (state pass.old))) i }
    ensures only { OnlyMeets (call_of pass.old) (state pass.old) (state pass.new) }
{
    let word = bound_word(table, pass, pin, bound, 1 + (i / WORD) as u32);
    word.to_be_bytes()[i % WORD]
}

/// The length in bytes of the pinned room's low bound, which belongs to its range.
pub fn low_len(table: &OakTable, pass: &mut Pass, pin: &RoomPin) -> usize
    requires own { IsPassOf table.now pass.old }
    requires pinned { HasRoomPin (key table.now) pin.now.room (state pass.old) }
    ensures own { Stays pass.old pass.new }
    ensures tries { PinsRooms (key table.now) 0 pass.old pass.new }
    ensures length { result ≡ low_length (room_pin (state pass.old)) }
    ensures only { OnlyMeets (call_of pass.old) (state pass.old) (state pass.new) }
{
    bound_word(table, pass, pin, Bound::Low, 0) as usize
}

/// Byte `i` of the pinned room's low bound.
pub fn low_byte(table: &OakTable, pass: &mut Pass, pin: &RoomPin, i: usize) -> u8
    requires own { IsPassOf table.now pass.old }
    requires pinned { HasRoomPin (key table.now) pin.now.room (state pass.old) }
    requires byte { i < low_length (room_pin (state pass.old)) }
    ensures own { Stays pass.old pass.new }
    ensures byte { result ≡ slice_index (low_bound (room_pin (state pass.old))) i }
    ensures only { OnlyMeets (call_of pass.old) (state pass.old) (state pass.new) }
{
    bound_byte(table, pass, pin, Bound::Low, i)
}

/// The length in bytes of the pinned room's high bound, which does not belong to its range; none
/// exactly where the room has no high bound.
pub fn high_len(table: &OakTable, pass: &mut Pass, pin: &RoomPin) -> Option<usize>
    requires own { IsPassOf table.now pass.old }
    requires pinned { HasRoomPin (key table.now) pin.now.room (state pass.old) }
    ensures own { Stays pass.old pass.new }
    ensures tries { PinsRooms (key table.now) 0 pass.old pass.new }
    ensures length { result ≡ high_length (room_pin (state pass.old)) }
    ensures only { OnlyMeets (call_of pass.old) (state pass.old) (state pass.new) }
{
    let first = bound_word(table, pass, pin, Bound::High, 0) as usize;
    if first == 0 {
        return None;
    }
    Some(first - 1)
}

/// Byte `i` of the pinned room's high bound.
pub fn high_byte(table: &OakTable, pass: &mut Pass, pin: &RoomPin, i: usize) -> u8
    requires own { IsPassOf table.now pass.old }
    requires pinned { HasRoomPin (key table.now) pin.now.room (state pass.old) }
    requires byte { IsBelow i (high_length (room_pin (state pass.old))) }
    ensures own { Stays pass.old pass.new }
    ensures byte { result ≡ slice_index (high_bound (room_pin (state pass.old))) i }
    ensures only { OnlyMeets (call_of pass.old) (state pass.old) (state pass.new) }
{
    bound_byte(table, pass, pin, Bound::High, i)
}

/// Loads the key of a bound of the pinned room, which has `length` bytes, each of its words once.
fn load_bound(
    table: &OakTable,
    pass: &mut Pass,
    pin: &RoomPin,
    bound: Bound,
    length: usize,
) -> StoredKey
    requires own { IsPassOf table.now pass.old }
    requires pinned { HasRoomPin (key table.now) pin.now.room (state pass.old) }
    requires long { length ≡ bound_length bound (room_pin (state pass.old)) }
    ensures own { Stays pass.old pass.new }
    ensures key { IsStored result (bound_bytes bound (room_pin (state pass.old))) }
    ensures only { OnlyMeets (call_of pass.old) (state pass.old) (state pass.new) }
{
    let mut words = [0; KEY_WORDS];
    for i in 0..length.div_ceil(WORD) {
        let word = bound_word(table, pass, pin, bound, 1 + i as u32);
        words[i] = first_bytes(word, length - WORD * i);
    }
    StoredKey::from_words(words, length)
}

/// The key at which the pinned room's range begins, each of its words loaded once; none exactly where
/// the room has no low bound.
pub fn low_key(table: &OakTable, pass: &mut Pass, pin: &RoomPin) -> Option<StoredKey>
    requires own { IsPassOf table.now pass.old }
    requires pinned { HasRoomPin (key table.now) pin.now.room (state pass.old) }
    ensures own { Stays pass.old pass.new }
    ensures low { MatchOption result (low_length (room_pin (state pass.old)) ≡ 0)
        (λ k. (0 < low_length (room_pin (state pass.old))) × IsStored k (low_bound (room_pin (state pass.old)))) }
    ensures only { OnlyMeets (call_of pass.old) (state pass.old) (state pass.new) }
{
    let length = low_len(table, pass, pin);
    if length == 0 {
        return None;
    }
    Some(load_bound(table, pass, pin, Bound::Low, length))
}

/// The key before which the pinned room's range ends, each of its words loaded once; none exactly
/// where the room has no high bound.
pub fn high_key(table: &OakTable, pass: &mut Pass, pin: &RoomPin) -> Option<StoredKey>
    requires own { IsPassOf table.now pass.old }
    requires pinned { HasRoomPin (key table.now) pin.now.room (state pass.old) }
    ensures own { Stays pass.old pass.new }
    ensures high { MatchOption result (slice_index (room_pin (state pass.old)).high 0 ≡ 0)
        (λ k. (0 < slice_index (room_pin (state pass.old)).high 0)
        × IsStored k (high_bound (room_pin (state pass.old)))) }
    ensures only { OnlyMeets (call_of pass.old) (state pass.old) (state pass.new) }
{
    let length = high_len(table, pass, pin)?;
    Some(load_bound(table, pass, pin, Bound::High, length))
}
