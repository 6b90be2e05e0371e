//! Compacting a chunk.
ghost use Rattle.std.specs.Prelude.{◌≡◌, ◌<◌, IfErr, IfOk};
ghost use Rattle.oak_model.specs.Key.{IsKey};
ghost use Rattle.oak_core.specs.Passes.{IsPassOf, state, key as sizes, call_of};
ghost use Rattle.oak_core.specs.PassState.{HoldsNothing};
ghost use Rattle.oak_core.specs.Scratch.{StaysButSlots};
ghost use Rattle.rebalance.specs.Busy.{GivesUpRewriting};
ghost use Rattle.rebalance.specs.Calls.{Compacts};

use crate::answers::Busy;
use crate::chunks::{LOOKS, open_front, try_hold};
use crate::fronts::compact_front;
use oak_core::{OakTable, Pass};
use std::sync::Wait;
use std::thread;

/// Drops the entries of the chunk that covers the key that are not linked or have no value, and makes the
/// others its sorted prefix, with nothing behind it. The answer is how many were dropped, exactly those that
/// had no value or were unlinked while the chunk was held. It claims no room, nor tries to. It waits for
/// nobody: `Busy` comes only where another pass had moved or frozen the chunk, or at each of so many looks at
/// its pin word other passes had pinned it; to a pass that is alone it never comes.
pub fn try_compact(table: &OakTable, pass: &mut Pass, key: &[u8], looks: u32) -> Result<u32, Busy>
    requires own { IsPassOf table.now pass.old }
    requires key { IsKey key.now }
    requires idle { HoldsNothing (state pass.old) }
    requires some { 0 < looks }
    ensures own { StaysButSlots pass.old pass.new }
    ensures compacted { IfOk result (λ n. Compacts (sizes table.now) (call_of pass.old) key.now n (state pass.old) (state pass.new)) }
    ensures busy { IfErr result (λ _. GivesUpRewriting (sizes table.now) (call_of pass.old) looks key.now
        (state pass.old) (state pass.new)) }
    ensures unclaimed { (state pass.new).findings.rebalances.claims ≡ (state pass.old).findings.rebalances.claims }
{
    let Some(room) = try_hold(table, pass, key, looks) else {
        return Err(Busy);
    };
    let read = compact_front(table, pass, room);
    open_front(table, pass, room);
    Ok(read.dropped as u32)
}

/// Compacts the chunk that covers the key as [`try_compact`] does. It waits until no pin stands on the chunk.
pub fn compact<R: Wait>(rt: &R, table: &OakTable, pass: &mut Pass, key: &[u8]) -> u32
    requires own { IsPassOf table.now pass.old }
    requires key { IsKey key.now }
    requires idle { HoldsNothing (state pass.old) }
    ensures own { StaysButSlots pass.old pass.new }
    ensures compacted { Compacts (sizes table.now) (call_of pass.old) key.now result (state pass.old) (state pass.new) }
    ensures unclaimed { (state pass.new).findings.rebalances.claims ≡ (state pass.old).findings.rebalances.claims }
{
    for _ in rt.forever() {
        if let Ok(dropped) = try_compact(table, pass, key, LOOKS) {
            return dropped;
        }
        thread::yield_now();
    }
    unreachable!()
}
