//! A room is emptied of its passes, held alone, and opened again; one that is frozen is opened again before it is held.
ghost use Rattle.std.specs.Prelude.{◌≡◌};
ghost use Rattle.oak_core.specs.AloneWords.{LeavesWords};
ghost use Rattle.oak_core.specs.Opening.{IsOpened};
ghost use Rattle.oak_core.specs.PassState.{HoldsNothing, IsAlone};
ghost use Rattle.oak_core.specs.Passes.{IsPassOf, Stays, state, key};
ghost use Rattle.oak_core.specs.Schedule.{opening};

use crate::found::{counts, room_is, word_is};
use chunk_core::{FROZEN, HELD, OPEN};
use oak_core::steps::{freeze, hold_room, open_room, pin_room, store_room, thaw_room, unpin_room};
use oak_core::{OakTable, Pass, load};
use oak_model::Shape;
use pin_word::pack;
use std::alloc::Global;
use std::process::Abort;
use std::test::Fail;

/// Freezes room 0 of a new table, holds it alone, stores its base, and opens it again over the same range.
fn close_and_reopen(rt: &impl Abort, table: &OakTable, pass: &mut Pass)
    requires own { IsPassOf table.now pass.old }
    requires idle { HoldsNothing (state pass.old) }
    requires alone { IsAlone (state pass.old) }
    requires words { LeavesWords (opening (key table.now) 0).words (state pass.old) }
    requires opened { IsOpened (key table.now) 0 (opening (key table.now) 0).words }
    ensures own { Stays pass.old pass.new }
    ensures idle { HoldsNothing (state pass.new) }
    ensures alone { IsAlone (state pass.new) }
{
    let _rooms = table.rooms();
    let word = table.room_at(0);
    let base = table.base_at(0);
    let before = freeze(table, pass, word, pack(0, OPEN, 0), pack(0, FROZEN, 0));
    let frozen = hold_room(table, pass, word, pack(0, FROZEN, 0), pack(0, HELD, 0));
    store_room(table, pass, base, 0);
    let held = open_room(table, pass, word, pack(0, HELD - OPEN, 0));
    let opened = load(table, pass, word);
    room_is(rt, "before", before, OPEN, 0);
    room_is(rt, "frozen", frozen, FROZEN, 0);
    room_is(rt, "held", held, HELD, 0);
    room_is(rt, "opened", opened, OPEN, 0);
}

#[test]
fn a_reopened_room(rt: HostRuntime) -> Result<(), Fail> {
    let shape = Shape::make(1, 1, 4, 1, [1, 1, 1, 1])?;
    let (table, mut pass) = OakTable::create(rt.alloc(), &shape)?;
    close_and_reopen(&rt, &table, &mut pass);
    let usage = table.close(pass).usage();
    counts(&rt, "chunks", usage.chunks as usize, 1);
    Ok(())
}

/// Freezes room 0, on which another pass has a pin, and opens it again.
fn freeze_and_thaw(rt: &impl Abort, table: &OakTable, pass: &mut Pass)
    requires own { IsPassOf table.now pass.old }
    requires idle { HoldsNothing (state pass.old) }
    ensures own { Stays pass.old pass.new }
    ensures numbers { (state pass.new).numbers ≡ (state pass.old).numbers }
    ensures idle { HoldsNothing (state pass.new) }
{
    let _rooms = table.rooms();
    let word = table.room_at(0);
    let open = pack(0, OPEN, 1);
    let frozen = pack(0, FROZEN, 1);
    if freeze(table, pass, word, open, frozen) != open {
        panic!(rt; "not open");
    }
    let found = thaw_room(table, pass, word, pack(0, FROZEN - OPEN, 0));
    word_is(rt, "thawed", found, frozen);
}

/// One pass pins room 0, and the other freezes it and opens it again: the pin stands, and the next one finds
/// the room open.
fn pin_round_a_thaw(rt: &impl Abort, table: &OakTable, pass: &mut Pass, other: &mut Pass)
    requires own { IsPassOf table.now pass.old × IsPassOf table.now other.old }
    requires idle { HoldsNothing (state pass.old) × HoldsNothing (state other.old) }
    ensures own { Stays pass.old pass.new × Stays other.old other.new }
    ensures numbers { ((state pass.new).numbers ≡ (state pass.old).numbers) × ((state other.new).numbers ≡ (state other.old).numbers) }
    ensures idle { HoldsNothing (state pass.new) × HoldsNothing (state other.new) }
{
    let _rooms = table.rooms();
    let word = table.room_at(0);
    let before = pin_room(table, other, word, 1);
    freeze_and_thaw(rt, table, pass);
    let stood = unpin_room(table, other, word, 1);
    let again = pin_room(table, other, word, 1);
    let last = unpin_room(table, other, word, 1);
    room_is(rt, "before", before, OPEN, 0);
    room_is(rt, "stood", stood, OPEN, 1);
    room_is(rt, "again", again, OPEN, 0);
    room_is(rt, "last", last, OPEN, 1);
}

fn split_and_thaw(rt: &impl Abort, alloc: Global, table: &OakTable, pass: &mut Pass)
    requires own { IsPassOf table.now pass.old }
    requires idle { HoldsNothing (state pass.old) }
    requires alone { IsAlone (state pass.old) }
    ensures own { Stays pass.old pass.new }
    ensures idle { HoldsNothing (state pass.new) }
    ensures alone { IsAlone (state pass.new) }
{
    let Ok(mut other) = pass.split(alloc, table) else {
        panic!(rt; "no other pass");
    };
    pin_round_a_thaw(rt, table, pass, &mut other);
    pass.join(table, other);
}

#[test]
fn a_thawed_room(rt: HostRuntime) -> Result<(), Fail> {
    let shape = Shape::make(2, 1, 4, 1, [1, 1, 1, 1])?;
    let (table, mut pass) = OakTable::create(rt.alloc(), &shape)?;
    split_and_thaw(&rt, rt.alloc(), &table, &mut pass);
    let usage = table.close(pass).usage();
    counts(&rt, "chunks", usage.chunks as usize, 1);
    Ok(())
}
