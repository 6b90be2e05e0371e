//! Settling the map.
ghost use Rattle.oak_core.specs.PassState.{HoldsNothing};
ghost use Rattle.oak_core.specs.Passes.{IsPassOf, call_of as table_call, state as table_state};
ghost use Rattle.oak_core.specs.Scratch.{StaysButSlots};
ghost use Rattle.rebalance.specs.Calls.{Settles};
ghost use Rattle.oak_map.specs.Maps.{IsReady, call_of, pass_of, sizes, state, table_of};

use crate::map::{MapPass, OakMap};
use crate::mending::mend;
use oak_core::Pass;
use rebalance::settle;
use std::sync::Wait;

/// [`OakMap::settle`] by the pass on the map's table. The index is mended behind it, since merging leaves it the pairs of
/// rooms that are free.
pub(crate) fn settle_map<R: Wait + Drop + Send>(rt: &R, map: &OakMap<R>, pass: &mut Pass)
    requires own { IsPassOf (table_of map.now) pass.old }
    requires idle { HoldsNothing (table_state pass.old) }
    ensures own { StaysButSlots pass.old pass.new }
    ensures settled { Settles (sizes map.now) (table_call pass.old) (table_state pass.old) (table_state pass.new) }
{
    settle(rt, &map.table, pass);
    mend(rt, map, pass);
}

impl<R: Wait + Drop + Send> OakMap<R> {
    /// Compacts each chunk, from the lowest on, and merges it with its upper neighbour as long as the two
    /// have few entries. The ranges that it opened with a value in each entry cover every key. It waits until
    /// no pin stands on each chunk. Behind that the index is told where each chunk begins.
    pub fn settle(&self, rt: &R, pass: &mut MapPass)
        requires ready { IsReady self.now pass.old }
        ensures own { StaysButSlots (pass_of pass.old) (pass_of pass.new) }
        ensures ready { IsReady self.now pass.new }
        ensures settled { Settles (sizes self.now) (call_of pass.old) (state pass.old) (state pass.new) }
    {
        settle_map(rt, self, &mut pass.pass);
    }
}
