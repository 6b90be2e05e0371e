//! Keys are added to a room, and found in it.
ghost use Rattle.std.specs.Prelude.{◌≡◌, ℕ, ◌<◌, List, length, Some, IfSome};
ghost use Rattle.oak_model.specs.declared.classes.Class.TheVariants.{B16};
ghost use Rattle.oak_model.specs.Class.{class_of};
ghost use Rattle.oak_model.specs.Key.{IsKey};
ghost use Rattle.oak_core.specs.Passes.{IsPassOf, Stays, state, key as sizes, call_of};
ghost use Rattle.oak_core.specs.PassState.{HoldsNothing, IsAlone};
ghost use Rattle.chunk_ops.specs.Adds.{MayAdd};
ghost use Rattle.chunk_ops.specs.AskedRanges.{IsKeyOrNone, bytes_in_option};
ghost use Rattle.chunk_ops.specs.Finds.{LiesBefore, LiesBehind};
ghost use Rattle.chunk_ops.specs.PinRecords.{HasRoomPin, HasEntry, UnderPin};
ghost use Rattle.chunk_ops.specs.TestStates.{HoldsAPin, HoldsKey, IsIdleAgain, StillPinned, but_block};

use crate::chunks::tests::no_pin_left;
use crate::found::{counts, word_is};
use arena_ops::{give, store_bytes, take};
use chunk_ops::{
    AddHalt, Content, EntryNo, Found, Moved, NotAdded, RoomPin, above, add, base_of, below,
    content, find, key_byte, key_len, pin_for, pin_last, unpin,
};
use oak_core::{Block, OakTable, Pass};
use oak_model::{Class, Hint, NO_HINT, Shape};
use std::alloc::Global;
use std::process::Abort;
use std::test::Fail;
use std::thread::{Threads, join_mut};

/// Takes a block and stores the key in it.
fn key_block(rt: &impl Abort, table: &OakTable, pass: &mut Pass, key: &[u8]) -> Block
    requires own { IsPassOf table.now pass.old }
    requires fits { class_of (length key.now) ≡ Some B16 }
    requires idle { HoldsNothing (state pass.old) }
    ensures own { Stays pass.old pass.new }
    ensures held { HoldsKey (sizes table.now) result.class result.number key.now (state pass.old) (state pass.new) }
{
    let Ok(block) = take(table, pass, Class::B16) else {
        panic!(rt; "no block is free");
    };
    store_bytes(table, pass, &block, key);
    block
}

/// The entry of the pinned room behind which the key belongs, and the link that leads over the key; none, too,
/// where it has an entry of its own.
fn place_of(table: &OakTable, pass: &mut Pass, pin: &RoomPin, key: &[u8]) -> (Option<EntryNo>, u32)
    requires own { IsPassOf table.now pass.old }
    requires key { IsKey key.now }
    requires pinned { HasRoomPin (sizes table.now) pin.now.room (state pass.old) }
    ensures own { Stays pass.old pass.new }
    ensures under { UnderPin (sizes table.now) (call_of pass.old) pin.now.room (state pass.old) (state pass.new) }
    ensures behind { LiesBehind pin.now.room result.0 key.now (state pass.new) }
    ensures before { LiesBefore pin.now.room result.1 key.now (state pass.new) }
{
    match find(table, pass, pin, key) {
        Found::Missing { behind, link } => (behind, link),
        Found::Entry(_) => (None, 0),
    }
}

/// Adds an entry of the key in the block to the pinned room, and undoes the pin. The block is given
/// back where it is handed back.
fn add_pinned(
    table: &OakTable,
    pass: &mut Pass,
    pin: RoomPin,
    block: Block,
    key: &[u8],
) -> Result<EntryNo, AddHalt>
    requires own { IsPassOf table.now pass.old }
    requires pinned { HasRoomPin (sizes table.now) pin.room (state pass.old) }
    requires may { MayAdd (sizes table.now) block.class block.number key.now (state pass.old) }
    requires rest { HoldsAPin (but_block block.class block.number (state pass.old)) }
    ensures own { Stays pass.old pass.new }
    ensures idle { IsIdleAgain (state pass.old) (state pass.new) }
{
    let place = place_of(table, pass, &pin, key);
    let added = add(table, pass, &pin, key, block, place.0, place.1);
    unpin(table, pass, pin);
    match added {
        Ok(entry) => Ok(entry),
        Err(NotAdded { why, block }) => {
            give(table, pass, block);
            Err(why)
        }
    }
}

/// Adds an entry of the key to the room that has it.
fn add_key(
    rt: &impl Abort,
    table: &OakTable,
    pass: &mut Pass,
    key: &[u8],
) -> Result<EntryNo, AddHalt>
    requires own { IsPassOf table.now pass.old }
    requires key { IsKey key.now }
    requires fits { class_of (length key.now) ≡ Some B16 }
    requires idle { HoldsNothing (state pass.old) }
    ensures own { Stays pass.old pass.new }
    ensures idle { IsIdleAgain (state pass.old) (state pass.new) }
{
    let block = key_block(rt, table, pass, key);
    match pin_for(table, pass, key, NO_HINT) {
        Ok(pin) => add_pinned(table, pass, pin, block, key),
        Err(Moved) => {
            give(table, pass, block);
            panic!(rt; "moved");
        }
    }
}

/// The one byte of an entry's key.
fn only_byte(
    rt: &impl Abort,
    table: &OakTable,
    pass: &mut Pass,
    pin: &RoomPin,
    entry: EntryNo,
) -> u8
    requires own { IsPassOf table.now pass.old }
    requires pinned { HasRoomPin (sizes table.now) pin.now.room (state pass.old) }
    requires entry { (k : List ℕ) × HasEntry pin.now.room entry.0 k (state pass.old) }
    ensures own { Stays pass.old pass.new }
    ensures still { StillPinned (sizes table.now) pin.now.room (state pass.old) (state pass.new) }
{
    let len = key_len(table, pass, pin, entry);
    counts(rt, "bytes of a key", len, 1);
    key_byte(table, pass, pin, entry, 0)
}

/// The one byte of the key of the entry that was found.
fn byte_of(
    rt: &impl Abort,
    table: &OakTable,
    pass: &mut Pass,
    pin: &RoomPin,
    found: Option<EntryNo>,
) -> Option<u8>
    requires own { IsPassOf table.now pass.old }
    requires pinned { HasRoomPin (sizes table.now) pin.now.room (state pass.old) }
    requires entry { IfSome found (λ e. (k : List ℕ) × HasEntry pin.now.room e.0 k (state pass.old)) }
    ensures own { Stays pass.old pass.new }
    ensures still { StillPinned (sizes table.now) pin.now.room (state pass.old) (state pass.new) }
{
    match found {
        Some(entry) => Some(only_byte(rt, table, pass, pin, entry)),
        None => None,
    }
}

/// The one byte of the least key above this one, or of the greatest below it.
fn byte_beside(
    rt: &impl Abort,
    table: &OakTable,
    pass: &mut Pass,
    pin: &RoomPin,
    up: bool,
    key: Option<&[u8]>,
) -> Option<u8>
    requires own { IsPassOf table.now pass.old }
    requires key { IsKeyOrNone (bytes_in_option key) }
    requires pinned { HasRoomPin (sizes table.now) pin.now.room (state pass.old) }
    ensures own { Stays pass.old pass.new }
    ensures still { StillPinned (sizes table.now) pin.now.room (state pass.old) (state pass.new) }
{
    if up {
        let found = above(table, pass, pin, key);
        return byte_of(rt, table, pass, pin, found);
    }
    let found = below(table, pass, pin, key);
    byte_of(rt, table, pass, pin, found)
}

/// The byte that was found is this one.
fn byte_is(rt: &impl Abort, found: Option<u8>, byte: Option<u8>) {
    assert!(rt; found == byte);
}

/// The key next to this one that way is of this byte.
fn beside_is(
    rt: &impl Abort,
    table: &OakTable,
    pass: &mut Pass,
    up: bool,
    key: Option<&[u8]>,
    byte: Option<u8>,
)
    requires own { IsPassOf table.now pass.old }
    requires key { IsKeyOrNone (bytes_in_option key) }
    requires idle { HoldsNothing (state pass.old) }
    ensures own { Stays pass.old pass.new }
    ensures idle { IsIdleAgain (state pass.old) (state pass.new) }
{
    let Ok(pin) = pin_last(table, pass, None, NO_HINT) else {
        panic!(rt; "moved");
    };
    let found = byte_beside(rt, table, pass, &pin, up, key);
    unpin(table, pass, pin);
    byte_is(rt, found, byte);
}

/// What the room that has the key finds of it.
fn found_of(rt: &impl Abort, table: &OakTable, pass: &mut Pass, key: &[u8]) -> Found
    requires own { IsPassOf table.now pass.old }
    requires key { IsKey key.now }
    requires idle { HoldsNothing (state pass.old) }
    ensures own { Stays pass.old pass.new }
    ensures idle { IsIdleAgain (state pass.old) (state pass.new) }
{
    let Ok(pin) = pin_for(table, pass, key, NO_HINT) else {
        panic!(rt; "moved");
    };
    let found = find(table, pass, &pin, key);
    unpin(table, pass, pin);
    found
}

/// No entry was found, and the key belongs behind that one, where this link leads over it.
fn is_missing(rt: &impl Abort, found: Found, behind: Option<EntryNo>, link: u32) {
    assert!(rt; found == Found::Missing { behind, link });
}

/// The key of this byte has no entry, and belongs behind that one, where this link leads over it.
fn missing_behind(
    rt: &impl Abort,
    table: &OakTable,
    pass: &mut Pass,
    byte: u8,
    behind: Option<EntryNo>,
    link: u32,
)
    requires own { IsPassOf table.now pass.old }
    requires idle { HoldsNothing (state pass.old) }
    ensures own { Stays pass.old pass.new }
    ensures idle { IsIdleAgain (state pass.old) (state pass.new) }
{
    let found = found_of(rt, table, pass, &[byte]);
    is_missing(rt, found, behind, link);
}

/// The content is a floor of 0.
fn is_no_floor(rt: &impl Abort, found: Content) {
    assert!(rt; found == Content::Floor { stamp: 0 });
}

/// The entry of the key has a floor of 0.
fn has_no_floor(rt: &impl Abort, table: &OakTable, pass: &mut Pass, pin: &RoomPin, key: &[u8])
    requires own { IsPassOf table.now pass.old }
    requires key { IsKey key.now }
    requires pinned { HasRoomPin (sizes table.now) pin.now.room (state pass.old) }
    ensures own { Stays pass.old pass.new }
    ensures still { StillPinned (sizes table.now) pin.now.room (state pass.old) (state pass.new) }
{
    match find(table, pass, pin, key) {
        Found::Entry(entry) => {
            let found = content(table, pass, pin, entry);
            is_no_floor(rt, found);
        }
        Found::Missing { behind: _, link: _ } => panic!(rt; "missing"),
    }
}

/// The room that has the key has the base 0, and an entry of the key with a floor of 0.
fn begins_at_none(rt: &impl Abort, table: &OakTable, pass: &mut Pass, key: &[u8])
    requires own { IsPassOf table.now pass.old }
    requires key { IsKey key.now }
    requires idle { HoldsNothing (state pass.old) }
    ensures own { Stays pass.old pass.new }
    ensures idle { IsIdleAgain (state pass.old) (state pass.new) }
{
    let Ok(pin) = pin_for(table, pass, key, Hint { room: Some(0) }) else {
        panic!(rt; "moved");
    };
    has_no_floor(rt, table, pass, &pin, key);
    let base = base_of(table, pass, &pin);
    word_is(rt, "base", base, 0);
    unpin(table, pass, pin);
}

/// The entry was added, or stood, at this place.
fn is_added(rt: &impl Abort, added: Result<EntryNo, AddHalt>, entry: u32) {
    assert!(rt; added == Ok(EntryNo(entry)));
}

/// An entry of the key of this byte is added, or stands, at this place.
pub(crate) fn adds_at(rt: &impl Abort, table: &OakTable, pass: &mut Pass, byte: u8, entry: u32)
    requires own { IsPassOf table.now pass.old }
    requires idle { HoldsNothing (state pass.old) }
    ensures own { Stays pass.old pass.new }
    ensures idle { IsIdleAgain (state pass.old) (state pass.new) }
{
    let added = add_key(rt, table, pass, &[byte]);
    is_added(rt, added, entry);
}

/// The room has no entry left for it.
fn is_crowded(rt: &impl Abort, added: Result<EntryNo, AddHalt>) {
    assert!(rt; added == Err(AddHalt::Crowded));
}

/// Three keys have their neighbours.
fn neighbours(rt: &impl Abort, table: &OakTable, pass: &mut Pass)
    requires own { IsPassOf table.now pass.old }
    requires idle { HoldsNothing (state pass.old) }
    ensures own { Stays pass.old pass.new }
    ensures idle { IsIdleAgain (state pass.old) (state pass.new) }
{
    beside_is(rt, table, pass, true, None, Some(0x61));
    beside_is(rt, table, pass, true, Some(&[0x61]), Some(0x62));
    beside_is(rt, table, pass, true, Some(&[0x63]), None);
    beside_is(rt, table, pass, false, None, Some(0x63));
    beside_is(rt, table, pass, false, Some(&[0x61]), None);
    missing_behind(rt, table, pass, 0x64, Some(EntryNo(2)), 0);
    missing_behind(rt, table, pass, 0x60, None, 2);
    begins_at_none(rt, table, pass, &[0x61]);
}

#[test]
fn a_room_of_four(rt: HostRuntime) -> Result<(), Fail> {
    let shape = Shape::make(1, 1, 4, 1, [8, 0, 0, 0])?;
    let (table, mut pass) = OakTable::create(rt.alloc(), &shape)?;
    adds_at(&rt, &table, &mut pass, 0x62, 0);
    adds_at(&rt, &table, &mut pass, 0x61, 1);
    adds_at(&rt, &table, &mut pass, 0x63, 2);
    neighbours(&rt, &table, &mut pass);
    adds_at(&rt, &table, &mut pass, 0x61, 1);
    adds_at(&rt, &table, &mut pass, 0x64, 3);
    let crowded = add_key(&rt, &table, &mut pass, &[0x65]);
    is_crowded(&rt, crowded);
    no_pin_left(&rt, &table, &mut pass);
    let usage = table.close(pass).usage();
    counts(&rt, "blocks", usage.blocks[0] as usize, 4);
    Ok(())
}

/// Another pass was at work there.
fn is_busy(rt: &impl Abort, why: AddHalt) {
    assert!(rt; why == AddHalt::Busy);
}

/// Adds the key, as often as another pass changes the room meanwhile.
fn add_at_last(rt: &impl Abort, table: &OakTable, pass: &mut Pass, byte: u8)
    requires own { IsPassOf table.now pass.old }
    requires idle { HoldsNothing (state pass.old) }
    ensures own { Stays pass.old pass.new }
    ensures idle { IsIdleAgain (state pass.old) (state pass.new) }
{
    for _ in 0..10_000_000 {
        match add_key(rt, table, pass, &[byte]) {
            Ok(_) => return,
            Err(why) => is_busy(rt, why),
        }
    }
    panic!(rt; "busy");
}

/// Adds four keys of one byte.
fn add_four(rt: &impl Abort, table: &OakTable, pass: &mut Pass, first: u8)
    requires own { IsPassOf table.now pass.old }
    requires few { first < 128 }
    requires idle { HoldsNothing (state pass.old) }
    ensures own { Stays pass.old pass.new }
    ensures idle { IsIdleAgain (state pass.old) (state pass.new) }
{
    for i in 0..4 {
        add_at_last(rt, table, pass, first + i);
    }
}

/// An entry was found.
fn is_entry(rt: &impl Abort, found: Found) {
    assert!(rt; matches!(found, Found::Entry(_)));
}

/// Finds four keys of one byte.
fn find_four(rt: &impl Abort, table: &OakTable, pass: &mut Pass, first: u8)
    requires own { IsPassOf table.now pass.old }
    requires few { first < 128 }
    requires idle { HoldsNothing (state pass.old) }
    ensures own { Stays pass.old pass.new }
    ensures idle { IsIdleAgain (state pass.old) (state pass.new) }
{
    for i in 0..4 {
        let found = found_of(rt, table, pass, &[first + i]);
        is_entry(rt, found);
    }
}

/// Two threads add to one room, and each finds the other's keys then.
fn add_together<R: Threads + Abort + Sync>(rt: &R, table: &OakTable, a: &mut Pass, b: &mut Pass)
    requires own { IsPassOf table.now a.old × IsPassOf table.now b.old }
    requires idle { HoldsNothing (state a.old) × HoldsNothing (state b.old) }
    ensures own { Stays a.old a.new × Stays b.old b.new }
    ensures idle { IsIdleAgain (state a.old) (state a.new) × IsIdleAgain (state b.old) (state b.new) }
{
    join_mut(
        rt,
        &mut || add_four(rt, table, a, 0x10),
        &mut || add_four(rt, table, b, 0x20),
    );
    join_mut(
        rt,
        &mut || find_four(rt, table, a, 0x20),
        &mut || find_four(rt, table, b, 0x10),
    );
}

fn split_and_add<R: Threads + Abort + Sync>(
    rt: &R,
    alloc: Global,
    table: &OakTable,
    pass: &mut Pass,
)
    requires own { IsPassOf table.now pass.old }
    requires idle { HoldsNothing (state pass.old) }
    requires alone { IsAlone (state pass.old) }
    ensures own { Stays pass.old pass.new }
    ensures idle { HoldsNothing (state pass.new) }
    ensures alone { IsAlone (state pass.new) }
{
    let Ok(mut other) = pass.split(alloc, table) else {
        panic!(rt; "no other pass");
    };
    add_together(rt, table, pass, &mut other);
    pass.join(table, other);
}

#[test]
fn two_threads_add_to_one_room(rt: HostRuntime) -> Result<(), Fail> {
    let shape = Shape::make(3, 1, 8, 1, [16, 0, 0, 0])?;
    let (table, mut pass) = OakTable::create(rt.alloc(), &shape)?;
    pass.turn(1);
    split_and_add(&rt, rt.alloc(), &table, &mut pass);
    let usage = table.close(pass).usage();
    counts(&rt, "blocks", usage.blocks[0] as usize, 8);
    Ok(())
}
