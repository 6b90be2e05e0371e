//! Each key of a room is found, in the sorted part of a room that was compacted and behind it.
ghost use Rattle.std.specs.Prelude.{◌≡◌, ◌<◌};
ghost use Rattle.oak_model.specs.Key.{IsKey};
ghost use Rattle.oak_core.specs.Passes.{IsPassOf, Stays, state, call_of};
ghost use Rattle.point_ops.specs.TestStates.{IsReady, IsReadyAgain};

use crate::calls::turn;
use crate::found::number_is;
use crate::rebalancing::test_calls::{Ask, Said, is_due, put, rebalance};
use chunk_ops::{Found, find, pin_for, unpin};
use oak_core::{OakTable, Pass};
use oak_model::{NO_HINT, Shape};
use std::process::Abort;
use std::sync::Wait;
use std::test::Fail;

/// An entry of the key was found, or none and one behind which it belongs.
fn is_right(rt: &impl Abort, key: &[u8], found: Found, due: bool) {
    let right = match found {
        Found::Entry(_) => due,
        Found::Missing { behind, link: _ } => !due && behind.is_some(),
    };
    assert!(rt; right, "{key:?}");
}

/// The key is found in the room that has it, or is missing there, behind an entry.
fn is_found(rt: &impl Abort, table: &OakTable, pass: &mut Pass, key: &[u8], due: bool)
    requires own { IsPassOf table.now pass.old }
    requires key { IsKey key.now }
    requires ready { IsReady (call_of pass.old) (state pass.old) }
    ensures own { Stays pass.old pass.new }
    ensures ready { IsReadyAgain (call_of pass.old) (state pass.old) (state pass.new) }
{
    let Ok(pin) = pin_for(table, pass, key, NO_HINT) else {
        panic!(rt; "moved");
    };
    let found = find(table, pass, &pin, key);
    unpin(table, pass, pin);
    is_right(rt, key, found, due);
}

/// The key is put, which was absent.
fn puts(rt: &impl Abort, table: &OakTable, pass: &mut Pass, call: u32, key: &[u8])
    requires own { IsPassOf table.now pass.old }
    requires above { call_of pass.old < call }
    requires key { IsKey key.now }
    requires ready { IsReady (call_of pass.old) (state pass.old) }
    ensures own { IsPassOf table.now pass.new }
    ensures call { call_of pass.new ≡ call }
    ensures ready { IsReadyAgain call (state pass.old) (state pass.new) }
{
    turn(pass, call);
    let said = put(table, pass, key, &[0]);
    is_due(rt, call, said, Said::New(1));
}

/// The fifteen keys of one byte that are below 16 are put, the byte 0 left out.
fn puts_fifteen(rt: &impl Abort, table: &OakTable, pass: &mut Pass)
    requires own { IsPassOf table.now pass.old }
    requires first { call_of pass.old ≡ 0 }
    requires ready { IsReady 0 (state pass.old) }
    ensures own { IsPassOf table.now pass.new }
    ensures call { call_of pass.new ≡ 15 }
    ensures ready { IsReadyAgain 15 (state pass.old) (state pass.new) }
{
    for i in 0..15 {
        puts(rt, table, pass, i as u32 + 1, &[i + 1]);
    }
}

/// Each of the fifteen keys has an entry, and the key 16 has none.
fn fifteen_are_found(rt: &impl Abort, table: &OakTable, pass: &mut Pass)
    requires own { IsPassOf table.now pass.old }
    requires ready { IsReady (call_of pass.old) (state pass.old) }
    ensures own { Stays pass.old pass.new }
    ensures ready { IsReadyAgain (call_of pass.old) (state pass.old) (state pass.new) }
{
    for i in 0..15 {
        is_found(rt, table, pass, &[i + 1], true);
    }
    is_found(rt, table, pass, &[16], false);
}

/// They are put, and found in a room that was compacted.
fn are_found<R: Abort + Wait>(rt: &R, table: &OakTable, pass: &mut Pass)
    requires own { IsPassOf table.now pass.old }
    requires first { call_of pass.old ≡ 0 }
    requires ready { IsReady 0 (state pass.old) }
    ensures own { IsPassOf table.now pass.new }
    ensures call { call_of pass.new ≡ 15 }
    ensures ready { IsReadyAgain 15 (state pass.old) (state pass.new) }
{
    puts_fifteen(rt, table, pass);
    let said = rebalance(rt, table, pass, Ask::Compact, &[1]);
    is_due(rt, 15, said, Said::Dropped(0));
    fifteen_are_found(rt, table, pass);
}

/// They are still, once a key between them is put.
fn still_are_found(rt: &impl Abort, table: &OakTable, pass: &mut Pass)
    requires own { IsPassOf table.now pass.old }
    requires call { call_of pass.old ≡ 15 }
    requires ready { IsReady 15 (state pass.old) }
    ensures own { IsPassOf table.now pass.new }
    ensures ready { IsReadyAgain 16 (state pass.old) (state pass.new) }
{
    puts(rt, table, pass, 16, &[8, 0]);
    is_found(rt, table, pass, &[8, 0], true);
    fifteen_are_found(rt, table, pass);
}

#[test]
fn keys_are_found_in_a_compacted_room(rt: HostRuntime) -> Result<(), Fail> {
    let shape = Shape::make(1, 4, 16, 32, [64, 0, 0, 0])?;
    let (table, mut pass) = OakTable::create(rt.alloc(), &shape)?;
    are_found(&rt, &table, &mut pass);
    still_are_found(&rt, &table, &mut pass);
    let usage = table.close(pass).usage();
    number_is(&rt, "headers", u64::from(usage.headers), 16);
    Ok(())
}
