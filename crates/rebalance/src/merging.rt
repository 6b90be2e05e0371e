//! Merging a chunk with the one above it.
ghost use Rattle.std.specs.Prelude.{◌<◌, IfErr, IfOk, MatchBool};
ghost use Rattle.oak_model.specs.Key.{IsKey};
ghost use Rattle.oak_core.specs.Passes.{IsPassOf, state, key as sizes, call_of};
ghost use Rattle.oak_core.specs.PassState.{HoldsNothing};
ghost use Rattle.oak_core.specs.Scratch.{StaysButSlots};
ghost use Rattle.rebalance.specs.Busy.{GivesUpMerging};
ghost use Rattle.rebalance.specs.Calls.{Merges, StaysApart};

use crate::answers::Busy;
use crate::chunk_pairs::{Merged, try_merge_chunk};
use crate::chunks::LOOKS;
use oak_core::{OakTable, Pass};
use std::sync::Wait;
use std::thread;

/// Compacts the chunk that covers the key and its upper neighbour, and opens their ranges as one, in the
/// chunk's room; the neighbour's room is free then. `false` comes exactly where the chunk, held alone, has
/// no upper neighbour, or the two, held alone, have more than half as many entries with a value as a room
/// has entries; both are opened again then. It claims no room, nor tries to. It waits for nobody: `Busy` comes
/// only where the chunk, or its upper neighbour, was busy. Where that was the neighbour, the chunk is opened
/// again, compacted. To a pass that is alone `Busy` never comes.
pub fn try_merge(table: &OakTable, pass: &mut Pass, key: &[u8], looks: u32) -> Result<bool, Busy>
    requires own { IsPassOf table.now pass.old }
    requires key { IsKey key.now }
    requires idle { HoldsNothing (state pass.old) }
    requires some { 0 < looks }
    ensures own { StaysButSlots pass.old pass.new }
    ensures merged { IfOk result (λ joined. MatchBool joined
        (Merges (sizes table.now) (call_of pass.old) key.now (state pass.old) (state pass.new))
        (StaysApart (sizes table.now) (call_of pass.old) key.now (state pass.old) (state pass.new))) }
    ensures busy { IfErr result (λ _. GivesUpMerging (sizes table.now) (call_of pass.old) looks key.now (state pass.old) (state pass.new)) }
{
    let merged = try_merge_chunk(table, pass, key, looks)?;
    Ok(matches!(merged, Merged::Joined))
}

/// Merges the chunk that covers the key with its upper neighbour as [`try_merge`] does. It waits until no pin
/// stands on the two.
pub fn merge<R: Wait>(rt: &R, table: &OakTable, pass: &mut Pass, key: &[u8]) -> bool
    requires own { IsPassOf table.now pass.old }
    requires key { IsKey key.now }
    requires idle { HoldsNothing (state pass.old) }
    ensures own { StaysButSlots pass.old pass.new }
    ensures merged { MatchBool result (Merges (sizes table.now) (call_of pass.old) key.now (state pass.old)
        (state pass.new)) (StaysApart (sizes table.now) (call_of pass.old) key.now (state pass.old)
        (state pass.new)) }
{
    for _ in rt.forever() {
        if let Ok(merged) = try_merge(table, pass, key, LOOKS) {
            return merged;
        }
        thread::yield_now();
    }
    unreachable!()
}
