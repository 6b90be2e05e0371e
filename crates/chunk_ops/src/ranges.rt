//! How a key lies to the range of a pinned room. Each word of a bound is loaded at most once, and none
//! behind the first that differs.
ghost use Rattle.std.specs.Prelude.{◌≡◌, ◌≤◌, ◌<◌, ◌*◌, MatchBool, length};
ghost use Rattle.std.specs.Ordering.{nat_cmp};
ghost use Rattle.std.specs.declared.cmp.Ordering.TheVariants.{Equal};
ghost use Rattle.oak_model.specs.declared.limits.TheConstants.{GREATEST_KEY};
ghost use Rattle.oak_model.specs.Key.{key_cmp};
ghost use Rattle.oak_model.specs.KeyNumber.{key_number};
ghost use Rattle.chunk_core.specs.PinnedRooms.{span_of};
ghost use Rattle.oak_core.specs.Passes.{IsPassOf, Stays, state, key as sizes, call_of};
ghost use Rattle.oak_core.specs.Tries.{PinsRooms};
ghost use Rattle.chunk_ops.specs.AskedRanges.{CoversKey, EndsUnder, IsAsked, high_cmp};
ghost use Rattle.chunk_ops.specs.PinnedBounds.{bound_bytes, bound_length};
ghost use Rattle.chunk_ops.specs.PinRecords.{HasRoomPin, OnlyMeets, room_pin};
ghost use Rattle.arena_core.specs.Words.{word_at};

use crate::bounds::{Bound, bound_word, high_len, low_len};
use crate::room_pins::RoomPin;
use arena_core::words::{WORD, first_bytes, word_from};
use oak_core::{OakTable, Pass};
use std::cmp::Ordering;

/// What is asked of a room's range: that it has a key, that it has the keys next below a bound, or that
/// it has the last keys.
#[derive(Clone, Copy)]
pub(crate) enum Asked {
    Covering,
    Under,
    Last,
}

/// Compares the key's bytes in word `i` with those of a bound that has `len` bytes, as numbers, with
/// zeros behind the last bytes.
#[inline(always)]
fn compare_word(
    table: &OakTable,
    pass: &mut Pass,
    pin: &RoomPin,
    bound: Bound,
    len: usize,
    key: &[u8],
    i: usize,
) -> Ordering
    requires own { IsPassOf table.now pass.old }
    requires pinned { HasRoomPin (sizes table.now) pin.now.room (state pass.old) }
    requires long { len ≡ bound_length bound (room_pin (state pass.old)) }
    requires ours { WORD * i < length key.now }
    requires theirs { WORD * i < len }
    ensures own { Stays pass.old pass.new }
    ensures tries { PinsRooms (sizes table.now) 0 pass.old pass.new }
    ensures order { result ≡ nat_cmp (word_at key.now i) (word_at (bound_bytes bound (room_pin (state pass.old))) i) }
    ensures only { OnlyMeets (call_of pass.old) (state pass.old) (state pass.new) }
{
    let word = bound_word(table, pass, pin, bound, 1 + i as u32);
    let theirs = first_bytes(word, len - WORD * i);
    word_from(key, i).cmp(&theirs)
}

/// How the key compares with a bound that has `len` bytes, where they have the same first word.
#[inline(never)]
fn compare_behind(
    table: &OakTable,
    pass: &mut Pass,
    pin: &RoomPin,
    bound: Bound,
    len: usize,
    key: &[u8],
) -> Ordering
    requires own { IsPassOf table.now pass.old }
    requires pinned { HasRoomPin (sizes table.now) pin.now.room (state pass.old) }
    requires long { len ≡ bound_length bound (room_pin (state pass.old)) }
    requires first { nat_cmp (word_at key.now 0) (word_at (bound_bytes bound (room_pin (state pass.old))) 0) ≡ Equal }
    ensures own { Stays pass.old pass.new }
    ensures tries { PinsRooms (sizes table.now) 0 pass.old pass.new }
    ensures order { result ≡ key_cmp key.now (bound_bytes bound (room_pin (state pass.old))) }
    ensures only { OnlyMeets (call_of pass.old) (state pass.old) (state pass.new) }
{
    for i in 1..key.len().min(len).div_ceil(WORD) {
        let order = compare_word(table, pass, pin, bound, len, key, i);
        if order.is_ne() {
            return order;
        }
    }
    key.len().cmp(&len)
}

/// How the key compares with a bound that has `len` bytes. Most keys differ in the first word.
#[inline(always)]
fn compare_bound(
    table: &OakTable,
    pass: &mut Pass,
    pin: &RoomPin,
    bound: Bound,
    len: usize,
    key: &[u8],
) -> Ordering
    requires own { IsPassOf table.now pass.old }
    requires pinned { HasRoomPin (sizes table.now) pin.now.room (state pass.old) }
    requires long { len ≡ bound_length bound (room_pin (state pass.old)) }
    ensures own { Stays pass.old pass.new }
    ensures tries { PinsRooms (sizes table.now) 0 pass.old pass.new }
    ensures order { result ≡ key_cmp key.now (bound_bytes bound (room_pin (state pass.old))) }
    ensures only { OnlyMeets (call_of pass.old) (state pass.old) (state pass.new) }
{
    if key.is_empty() || len == 0 {
        return key.len().cmp(&len);
    }
    let first = compare_word(table, pass, pin, bound, len, key, 0);
    if first.is_ne() {
        return first;
    }
    compare_behind(table, pass, pin, bound, len, key)
}

/// How the key compares with the low bound.
#[inline(always)]
fn order_low(table: &OakTable, pass: &mut Pass, pin: &RoomPin, key: &[u8]) -> Ordering
    requires own { IsPassOf table.now pass.old }
    requires pinned { HasRoomPin (sizes table.now) pin.now.room (state pass.old) }
    requires few { length key.now ≤ GREATEST_KEY }
    ensures own { Stays pass.old pass.new }
    ensures tries { PinsRooms (sizes table.now) 0 pass.old pass.new }
    ensures order { result ≡ nat_cmp (key_number key.now) (span_of (room_pin (state pass.old))).low }
    ensures only { OnlyMeets (call_of pass.old) (state pass.old) (state pass.new) }
{
    let len = low_len(table, pass, pin);
    compare_bound(table, pass, pin, Bound::Low, len, key)
}

/// How the key compares with the high bound. Where there is none each key is below it.
#[inline(always)]
fn order_high(table: &OakTable, pass: &mut Pass, pin: &RoomPin, key: &[u8]) -> Ordering
    requires own { IsPassOf table.now pass.old }
    requires pinned { HasRoomPin (sizes table.now) pin.now.room (state pass.old) }
    requires few { length key.now ≤ GREATEST_KEY }
    ensures own { Stays pass.old pass.new }
    ensures tries { PinsRooms (sizes table.now) 0 pass.old pass.new }
    ensures order { result ≡ high_cmp (key_number key.now) (span_of (room_pin (state pass.old))).high }
    ensures only { OnlyMeets (call_of pass.old) (state pass.old) (state pass.new) }
{
    let Some(len) = high_len(table, pass, pin) else {
        return Ordering::Less;
    };
    compare_bound(table, pass, pin, Bound::High, len, key)
}

/// Whether the range has the key.
fn covers(table: &OakTable, pass: &mut Pass, pin: &RoomPin, key: &[u8]) -> bool
    requires own { IsPassOf table.now pass.old }
    requires pinned { HasRoomPin (sizes table.now) pin.now.room (state pass.old) }
    requires few { length key.now ≤ GREATEST_KEY }
    ensures own { Stays pass.old pass.new }
    ensures tries { PinsRooms (sizes table.now) 0 pass.old pass.new }
    ensures covers { MatchBool result (CoversKey key.now (span_of (room_pin (state pass.old))))
        (CoversKey key.now (span_of (room_pin (state pass.old))) → ⊥) }
    ensures only { OnlyMeets (call_of pass.old) (state pass.old) (state pass.new) }
{
    let low = order_low(table, pass, pin, key);
    if low.is_lt() {
        return false;
    }
    let high = order_high(table, pass, pin, key);
    high.is_lt()
}

/// Whether the range has the keys next below the bound.
fn ends_under(table: &OakTable, pass: &mut Pass, pin: &RoomPin, bound: &[u8]) -> bool
    requires own { IsPassOf table.now pass.old }
    requires pinned { HasRoomPin (sizes table.now) pin.now.room (state pass.old) }
    requires few { length bound.now ≤ GREATEST_KEY }
    ensures own { Stays pass.old pass.new }
    ensures tries { PinsRooms (sizes table.now) 0 pass.old pass.new }
    ensures ends { MatchBool result (EndsUnder bound.now (span_of (room_pin (state pass.old))))
        (EndsUnder bound.now (span_of (room_pin (state pass.old))) → ⊥) }
    ensures only { OnlyMeets (call_of pass.old) (state pass.old) (state pass.new) }
{
    let low = order_low(table, pass, pin, bound);
    if !low.is_gt() {
        return false;
    }
    let high = order_high(table, pass, pin, bound);
    high.is_le()
}

/// Whether the range of the pinned room is what is asked.
pub(crate) fn is_asked(
    table: &OakTable,
    pass: &mut Pass,
    pin: &RoomPin,
    asked: Asked,
    key: &[u8],
) -> bool
    requires own { IsPassOf table.now pass.old }
    requires pinned { HasRoomPin (sizes table.now) pin.now.room (state pass.old) }
    requires few { length key.now ≤ GREATEST_KEY }
    ensures own { Stays pass.old pass.new }
    ensures tries { PinsRooms (sizes table.now) 0 pass.old pass.new }
    ensures asked { MatchBool result (IsAsked asked key.now (span_of (room_pin (state pass.old))))
        (IsAsked asked key.now (span_of (room_pin (state pass.old))) → ⊥) }
    ensures only { OnlyMeets (call_of pass.old) (state pass.old) (state pass.new) }
{
    match asked {
        Asked::Covering => covers(table, pass, pin, key),
        Asked::Under => ends_under(table, pass, pin, key),
        Asked::Last => high_len(table, pass, pin).is_none(),
    }
}
