//! A chunk that one pass keeps pinned is busy to another, in the same thread and in one of its own.
ghost use Rattle.std.specs.Prelude.{◌≡◌};
ghost use Rattle.oak_model.specs.Key.{IsKey};
ghost use Rattle.oak_core.specs.Passes.{IsPassOf, state};
ghost use Rattle.oak_core.specs.PassState.{HoldsNothing, IsAlone};
ghost use Rattle.chunk_ops.specs.TestStates.{IsIdleAgain};

use crate::found::{is_so, number_is};
use chunk_ops::{pin_for, unpin};
use oak_core::{OakTable, Pass};
use oak_model::{NO_HINT, Shape};
use rebalance::{Busy, Split, try_settle, try_split};
use std::alloc::Global;
use std::process::Abort;
use std::test::Fail;
use std::thread::{Threads, join_mut};

/// How often each call looks.
const LOOKS: u32 = 3;

/// The chunk of the key is split, or is busy.
fn splits(rt: &impl Abort, table: &OakTable, pass: &mut Pass, key: &[u8], busy: bool)
    requires own { IsPassOf table.now pass.old }
    requires key { IsKey key.now }
    requires idle { HoldsNothing (state pass.old) }
    ensures own { IsPassOf table.now pass.new }
    ensures idle { IsIdleAgain (state pass.old) (state pass.new) }
{
    match try_split(table, pass, key, LOOKS) {
        Ok(split) => assert!(rt; !busy && split == Ok(Split::Loosened)),
        Err(Busy) => is_so(rt, "busy", busy),
    }
}

/// All chunks are settled, or one is busy.
fn settles(rt: &impl Abort, table: &OakTable, pass: &mut Pass, busy: bool)
    requires own { IsPassOf table.now pass.old }
    requires idle { HoldsNothing (state pass.old) }
    ensures own { IsPassOf table.now pass.new }
    ensures idle { IsIdleAgain (state pass.old) (state pass.new) }
{
    match try_settle(table, pass, LOOKS) {
        Ok(()) => is_so(rt, "not busy", !busy),
        Err(Busy) => is_so(rt, "busy", busy),
    }
}

/// The room of the key takes a pin.
fn takes_a_pin(rt: &impl Abort, table: &OakTable, pass: &mut Pass, key: &[u8])
    requires own { IsPassOf table.now pass.old }
    requires key { IsKey key.now }
    requires idle { HoldsNothing (state pass.old) }
    ensures own { IsPassOf table.now pass.new }
    ensures idle { IsIdleAgain (state pass.old) (state pass.new) }
{
    match pin_for(table, pass, key, NO_HINT) {
        Ok(pin) => unpin(table, pass, pin),
        Err(_) => panic!(rt; "moved"),
    }
}

/// The chunk of the key is busy to each call, and its room takes pins again behind them.
fn is_busy(rt: &impl Abort, table: &OakTable, pass: &mut Pass, key: &[u8])
    requires own { IsPassOf table.now pass.old }
    requires key { IsKey key.now }
    requires idle { HoldsNothing (state pass.old) }
    ensures own { IsPassOf table.now pass.new }
    ensures idle { IsIdleAgain (state pass.old) (state pass.new) }
{
    splits(rt, table, pass, key, true);
    settles(rt, table, pass, true);
    takes_a_pin(rt, table, pass, key);
}

/// Another thread tries.
fn is_busy_to_a_thread<R: Threads + Abort + Sync>(
    rt: &R,
    table: &OakTable,
    pass: &mut Pass,
    key: &[u8],
)
    requires own { IsPassOf table.now pass.old }
    requires key { IsKey key.now }
    requires idle { HoldsNothing (state pass.old) }
    ensures own { IsPassOf table.now pass.new }
    ensures idle { IsIdleAgain (state pass.old) (state pass.new) }
{
    join_mut(
        rt,
        &mut ||
            requires own { IsPassOf table.now pass.now }
            requires key { IsKey key.now }
            requires idle { HoldsNothing (state pass.now) }
            ensures own { IsPassOf table.entry.now pass.exit.now }
            ensures idle { IsIdleAgain (state pass.entry.now) (state pass.exit.now) }
        {
            is_busy(rt, table, pass, key);
        },
        &mut || (),
    );
}

/// One pass keeps the room of the key pinned while another one tries, first in this thread and then in one of its own,
/// and tries again once the pin is undone.
fn is_busy_while_pinned<R: Threads + Abort + Sync>(
    rt: &R,
    table: &OakTable,
    holder: &mut Pass,
    other: &mut Pass,
    key: &[u8],
)
    requires own { IsPassOf table.now holder.old × IsPassOf table.now other.old }
    requires key { IsKey key.now }
    requires idle { HoldsNothing (state holder.old) × HoldsNothing (state other.old) }
    ensures own { IsPassOf table.now holder.new × IsPassOf table.now other.new }
    ensures idle { IsIdleAgain (state holder.old) (state holder.new) × IsIdleAgain (state other.old) (state other.new) }
{
    let Ok(pin) = pin_for(table, holder, key, NO_HINT) else {
        panic!(rt; "moved");
    };
    is_busy(rt, table, other, key);
    is_busy_to_a_thread(rt, table, other, key);
    unpin(table, holder, pin);
    splits(rt, table, other, key, false);
    settles(rt, table, other, false);
}

/// A pass is split off for that, and joined again.
fn split_and_try<R: Threads + Abort + Sync>(
    rt: &R,
    alloc: Global,
    table: &OakTable,
    pass: &mut Pass,
    key: &[u8],
)
    requires own { IsPassOf table.now pass.old }
    requires key { IsKey key.now }
    requires idle { HoldsNothing (state pass.old) }
    requires alone { IsAlone (state pass.old) }
    ensures own { IsPassOf table.now pass.new }
    ensures idle { HoldsNothing (state pass.new) }
    ensures alone { IsAlone (state pass.new) }
{
    let Ok(mut other) = pass.split(alloc, table) else {
        panic!(rt; "no other pass");
    };
    is_busy_while_pinned(rt, table, pass, &mut other, key);
    pass.join(table, other);
}

#[test]
fn a_pinned_chunk_is_busy(rt: HostRuntime) -> Result<(), Fail> {
    let shape = Shape::make(2, 2, 4, 16, [32, 0, 0, 0])?;
    let (table, mut pass) = OakTable::create(rt.alloc(), &shape)?;
    split_and_try(&rt, rt.alloc(), &table, &mut pass, &[0x61]);
    let usage = table.close(pass).usage();
    number_is(&rt, "chunks", u64::from(usage.chunks), 1);
    Ok(())
}
