//! Settling the whole map.
ghost use Rattle.std.specs.Prelude.{◌<◌, IfErr, IfOk};
ghost use Rattle.oak_core.specs.Passes.{IsPassOf, state, key as sizes, call_of};
ghost use Rattle.oak_core.specs.PassState.{HoldsNothing};
ghost use Rattle.oak_core.specs.Scratch.{StaysButSlots};
ghost use Rattle.rebalance.specs.Busy.{GivesUpSettling};
ghost use Rattle.rebalance.specs.Calls.{Settles};

use crate::answers::Busy;
use crate::chunk_pairs::{Merged, try_merge_chunk};
use crate::chunks::LOOKS;
use chunk_ops::KeyBytes;
use oak_core::{OakTable, Pass};
use std::sync::Wait;
use std::thread;

/// Compacts each chunk, from the lowest on, and merges it with its upper neighbour as long as the two have
/// few entries. The ranges that it opened with a value in each entry cover every key. It claims no room, nor
/// tries to. It waits for nobody: `Busy` comes only where a chunk was busy, or where the call opened as many
/// chunks as the table has rooms and was not at the end, since others were opened behind it. What it had
/// settled until then stays so. To a pass that is alone `Busy` never comes.
pub fn try_settle(table: &OakTable, pass: &mut Pass, looks: u32) -> Result<(), Busy>
    requires own { IsPassOf table.now pass.old }
    requires idle { HoldsNothing (state pass.old) }
    requires some { 0 < looks }
    ensures own { StaysButSlots pass.old pass.new }
    ensures settled { IfOk result (λ _. Settles (sizes table.now) (call_of pass.old) (state pass.old) (state pass.new)) }
    ensures busy { IfErr result (λ _. GivesUpSettling (sizes table.now) (call_of pass.old) looks (state pass.old) (state pass.new)) }
{
    let mut from = KeyBytes::least();
    for _ in 0..table.rooms() {
        match try_merge_chunk(table, pass, from.as_slice(), looks) {
            Ok(Merged::Joined) => continue,
            Ok(Merged::Apart(Some(high))) => from = high,
            Ok(Merged::Apart(None)) => return Ok(()),
            Err(Busy) => return Err(Busy),
        }
    }
    Err(Busy)
}

/// Settles the whole map as [`try_settle`] does. It waits until no pin stands on each chunk, and goes on from
/// the chunk that was busy.
pub fn settle<R: Wait>(rt: &R, table: &OakTable, pass: &mut Pass)
    requires own { IsPassOf table.now pass.old }
    requires idle { HoldsNothing (state pass.old) }
    ensures own { StaysButSlots pass.old pass.new }
    ensures settled { Settles (sizes table.now) (call_of pass.old) (state pass.old) (state pass.new) }
{
    let mut from = KeyBytes::least();
    for _ in rt.forever() {
        match try_merge_chunk(table, pass, from.as_slice(), LOOKS) {
            Ok(Merged::Joined) => {}
            Ok(Merged::Apart(Some(high))) => from = high,
            Ok(Merged::Apart(None)) => return,
            Err(Busy) => thread::yield_now(),
        }
    }
    unreachable!()
}
