//! Tests of pins of rooms, of what is found under them, and of the order in which rooms are tried.
ghost use Rattle.std.specs.Prelude.{◌<◌};
ghost use Rattle.oak_model.specs.Key.{IsKey};
ghost use Rattle.oak_core.specs.Passes.{IsPassOf, Stays, state, key as sizes};
ghost use Rattle.oak_core.specs.PassState.{HoldsNothing};
ghost use Rattle.chunk_ops.specs.PinRecords.{HasRoomPin};
ghost use Rattle.chunk_ops.specs.TestStates.{HoldsAPin, IsIdleAgain};

use crate::found::{counts, room_is, word_is};
use chunk_core::OPEN;
use chunk_ops::{
    Moved, RoomPin, StoredKey, base_of, high_key, high_len, low_key, low_len, pin_for, pin_last,
    unpin,
};
use oak_core::{OakTable, Pass, load};
use oak_model::{Hint, NO_HINT, Shape};
use std::process::Abort;
use std::test::Fail;

/// A room that has all keys has a low bound of no bytes, no high bound, and the base 0.
fn has_all(rt: &impl Abort, low: usize, high: Option<usize>, base: u64) {
    counts(rt, "bytes of the low bound", low, 0);
    assert!(rt; high.is_none());
    word_is(rt, "base", base, 0);
}

/// Nor is there a key at which it begins or ends.
fn has_no_ends(rt: &impl Abort, begin: &Option<StoredKey>, end: &Option<StoredKey>) {
    assert!(rt; begin.is_none());
    assert!(rt; end.is_none());
}

/// It is room 0.
fn is_first(rt: &impl Abort, pin: &RoomPin) {
    word_is(rt, "room", u64::from(pin.room), 0);
}

/// The pin is one of room 0, which has all keys, and is undone.
fn all_keys(rt: &impl Abort, table: &OakTable, pass: &mut Pass, pin: RoomPin)
    requires own { IsPassOf table.now pass.old }
    requires pinned { HasRoomPin (sizes table.now) pin.room (state pass.old) }
    requires rest { HoldsAPin (state pass.old) }
    ensures own { Stays pass.old pass.new }
    ensures idle { IsIdleAgain (state pass.old) (state pass.new) }
{
    is_first(rt, &pin);
    let low = low_len(table, pass, &pin);
    let high = high_len(table, pass, &pin);
    let begin = low_key(table, pass, &pin);
    let end = high_key(table, pass, &pin);
    let base = base_of(table, pass, &pin);
    has_all(rt, low, high, base);
    has_no_ends(rt, &begin, &end);
    unpin(table, pass, pin);
}

/// Pins the room that has the last keys.
fn last_keys(rt: &impl Abort, table: &OakTable, pass: &mut Pass)
    requires own { IsPassOf table.now pass.old }
    requires idle { HoldsNothing (state pass.old) }
    ensures own { Stays pass.old pass.new }
    ensures idle { IsIdleAgain (state pass.old) (state pass.new) }
{
    match pin_last(table, pass, None, NO_HINT) {
        Ok(pin) => all_keys(rt, table, pass, pin),
        Err(Moved) => panic!(rt; "moved"),
    }
}

/// Pins the room that has the key, with this hint.
fn keys_room(rt: &impl Abort, table: &OakTable, pass: &mut Pass, key: &[u8], hint: Option<u32>)
    requires own { IsPassOf table.now pass.old }
    requires key { IsKey key.now }
    requires idle { HoldsNothing (state pass.old) }
    ensures own { Stays pass.old pass.new }
    ensures idle { IsIdleAgain (state pass.old) (state pass.new) }
{
    match pin_for(table, pass, key, Hint { room: hint }) {
        Ok(pin) => all_keys(rt, table, pass, pin),
        Err(Moved) => panic!(rt; "moved"),
    }
}

/// Room 0 is open, and its word counts no pin.
pub(crate) fn no_pin_left(rt: &impl Abort, table: &OakTable, pass: &mut Pass)
    requires own { IsPassOf table.now pass.old }
    requires idle { HoldsNothing (state pass.old) }
    ensures own { Stays pass.old pass.new }
    ensures idle { IsIdleAgain (state pass.old) (state pass.new) }
{
    let _rooms = table.rooms();
    let word = load(table, pass, table.room_at(0));
    room_is(rt, "at the end", word, OPEN, 0);
}

#[test]
fn pins_of_one_room(rt: HostRuntime) -> Result<(), Fail> {
    let shape = Shape::make(1, 1, 4, 1, [1, 1, 1, 1])?;
    let (table, mut pass) = OakTable::create(rt.alloc(), &shape)?;
    last_keys(&rt, &table, &mut pass);
    keys_room(&rt, &table, &mut pass, &[7, 0, 255], None);
    keys_room(&rt, &table, &mut pass, &[0], Some(0));
    keys_room(&rt, &table, &mut pass, &[255; 64], Some(5));
    no_pin_left(&rt, &table, &mut pass);
    table.close(pass);
    Ok(())
}

/// The pass has tried to pin a room so often.
fn has_tried(rt: &impl Abort, pass: &Pass, times: u64) {
    word_is(rt, "tries", pass.tries(), times);
}

/// Where the room that is tried first is free, or none that the table has, room 0 is pinned.
fn tries_rise(rt: &impl Abort, table: &OakTable, pass: &mut Pass)
    requires own { IsPassOf table.now pass.old }
    requires idle { HoldsNothing (state pass.old) }
    ensures own { Stays pass.old pass.new }
    ensures idle { IsIdleAgain (state pass.old) (state pass.new) }
{
    has_tried(rt, pass, 0);
    keys_room(rt, table, pass, &[7], Some(0));
    has_tried(rt, pass, 1);
    keys_room(rt, table, pass, &[7], Some(3));
    has_tried(rt, pass, 2);
    keys_room(rt, table, pass, &[7], Some(2));
    has_tried(rt, pass, 4);
    last_keys(rt, table, pass);
    has_tried(rt, pass, 5);
}

#[test]
fn tries_in_a_table_of_three_rooms(rt: HostRuntime) -> Result<(), Fail> {
    let shape = Shape::make(1, 3, 4, 1, [1, 1, 1, 1])?;
    let (table, mut pass) = OakTable::create(rt.alloc(), &shape)?;
    tries_rise(&rt, &table, &mut pass);
    table.close(pass);
    Ok(())
}
