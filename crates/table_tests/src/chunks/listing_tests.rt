//! A room of four keys is listed.
ghost use Rattle.oak_core.specs.Passes.{IsPassOf, Stays, state, key as sizes};
ghost use Rattle.oak_core.specs.PassState.{HoldsNothing};
ghost use Rattle.chunk_ops.specs.PinRecords.{HasRoomPin};
ghost use Rattle.chunk_ops.specs.TestStates.{IsIdleAgain, StillPinned};

use crate::chunks::adding_tests::adds_at;
use crate::found::is_so;
use chunk_ops::{RoomPin, StoredKey, entry_key, next_entry, pin_last, unpin};
use oak_core::{OakTable, Pass};
use oak_model::{NO_HINT, Shape};
use std::process::Abort;
use std::test::Fail;

/// The key is of this byte.
fn is_of(rt: &impl Abort, key: &StoredKey, byte: u8) {
    assert!(rt; *key == StoredKey::of(&[byte]));
}

/// Along the links of the pinned room there are entries with keys of these bytes, one each, in this order, and no more.
fn lists_bytes(rt: &impl Abort, table: &OakTable, pass: &mut Pass, pin: &RoomPin, bytes: &[u8])
    requires own { IsPassOf table.now pass.old }
    requires pinned { HasRoomPin (sizes table.now) pin.now.room (state pass.old) }
    ensures own { Stays pass.old pass.new }
    ensures still { StillPinned (sizes table.now) pin.now.room (state pass.old) (state pass.new) }
{
    let mut from = None;
    for byte in bytes {
        let Some(entry) = next_entry(table, pass, pin, from) else {
            panic!(rt; "no entry of {byte}");
        };
        let key = entry_key(table, pass, pin, entry);
        is_of(rt, &key, *byte);
        from = Some(entry);
    }
    let behind = next_entry(table, pass, pin, from);
    is_so(rt, "the end", behind.is_none());
}

/// Pins the room that has the last keys, and lists it.
fn room_has(rt: &impl Abort, table: &OakTable, pass: &mut Pass, bytes: &[u8])
    requires own { IsPassOf table.now pass.old }
    requires idle { HoldsNothing (state pass.old) }
    ensures own { Stays pass.old pass.new }
    ensures idle { IsIdleAgain (state pass.old) (state pass.new) }
{
    let Ok(pin) = pin_last(table, pass, None, NO_HINT) else {
        panic!(rt; "moved");
    };
    lists_bytes(rt, table, pass, &pin, bytes);
    unpin(table, pass, pin);
}

#[test]
fn four_keys_are_listed(rt: HostRuntime) -> Result<(), Fail> {
    let shape = Shape::make(1, 1, 4, 1, [8, 0, 0, 0])?;
    let (table, mut pass) = OakTable::create(rt.alloc(), &shape)?;
    room_has(&rt, &table, &mut pass, &[]);
    adds_at(&rt, &table, &mut pass, 0x62, 0);
    adds_at(&rt, &table, &mut pass, 0x61, 1);
    adds_at(&rt, &table, &mut pass, 0x63, 2);
    adds_at(&rt, &table, &mut pass, 0x64, 3);
    room_has(&rt, &table, &mut pass, &[0x61, 0x62, 0x63, 0x64]);
    table.close(pass);
    Ok(())
}
