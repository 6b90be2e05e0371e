//! The loops of a call that puts, whatever it asks: one that waits, and one that gives up.
ghost use Rattle.std.specs.Prelude.{◌≡◌, ◌<◌, ◌+◌, ◌-◌, ◌^◌, IfErr, IfOk, Ok};
ghost use Rattle.oak_model.specs.Key.{IsKey};
ghost use Rattle.oak_model.specs.Value.{IsValue};
ghost use Rattle.oak_core.specs.AloneWords.{Runs};
ghost use Rattle.oak_core.specs.MayWrite.{IsNewCall};
ghost use Rattle.oak_core.specs.PassState.{HoldsNothing, IsAlone};
ghost use Rattle.oak_core.specs.Passes.{IsPassOf, call_of, key as sizes, state};
ghost use Rattle.oak_core.specs.RoomLacks.{ClaimsFull};
ghost use Rattle.value_ops.specs.Recipes.{SaysTheSame};
ghost use Rattle.point_ops.specs.Counted.{Feeds, FeedsAlone, times_done};
ghost use Rattle.oak_map.specs.LonePuts.{PutAlone, PutsAlone, RoomsAlone};
ghost use Rattle.oak_map.specs.Maps.{table_of};
ghost use Rattle.oak_map.specs.Putting.{StaysAsUsed};
ghost use Rattle.oak_map.specs.Replying.{PutFits};
ghost use Rattle.oak_map.specs.Stopping.{StopsTrying};

use crate::answers::Busy;
use crate::asking::Asking;
use crate::going_on::{make_way, try_make_way};
use crate::map::OakMap;
use oak_core::{OakTable, Pass};
use oak_model::Wrote;
use std::sync::Wait;

/// Tries, and makes way behind each try that was refused, until the call is answered.
pub(crate) fn wait_to_put<R: Wait + Drop + Send, A: Asking>(
    rt: &R,
    map: &OakMap<R>,
    pass: &mut Pass,
    key: &[u8],
    value: &[u8],
    asking: &mut A,
) -> Wrote
    requires own { IsPassOf (table_of map.now) pass.old }
    requires key { IsKey key.now }
    requires idle { HoldsNothing (state pass.old) }
    requires turn { IsNewCall (call_of pass.old) (state pass.old) }
    requires value { IsValue value.now }
    requires few { A.times asking.old < 2 ^ 64 - 1 }
    ensures own { StaysAsUsed A.uses_scratch pass.old pass.new }
    ensures idle { HoldsNothing (state pass.new) }
    ensures wrote { PutFits result (sizes (table_of map.now)) (call_of pass.old) key.now (A.ask asking.old value.now)
        (state pass.old) (state pass.new) }
    ensures claims { ClaimsFull (sizes (table_of map.now)) (state pass.old) (state pass.new) }
    ensures alone_reply { IsAlone (state pass.old) → PutAlone result (sizes (table_of map.now)) key.now
        (A.ask asking.old value.now) (state pass.old) (state pass.new) }
    ensures alone { Runs (PutsAlone (sizes (table_of map.now)) key.now (A.ask asking.old value.now)
        (state pass.old) result) (state pass.old) (state pass.new) }
    ensures alone_rooms { IsAlone (state pass.old)
        → Runs (RoomsAlone (sizes (table_of map.now)) key.now (A.ask asking.old value.now) (state pass.old)
        (state pass.new)) (state pass.old) (state pass.new) }
    ensures asks { A.ask asking.new value.now ≡ A.ask asking.old value.now }
    ensures counted { A.times asking.new ≡ A.times asking.old + times_done (Ok result) }
    ensures fed { Feeds (Ok result) key.now (A.says asking.old) (A.says asking.new) (state pass.new) }
    ensures alone_fed { IsAlone (state pass.old) → FeedsAlone (Ok result) key.now (A.says asking.new) (state pass.old) }
{
    let mut settled = false;
    for _ in rt.forever() {
        match asking.try_once(&map.table, pass, key, value) {
            Ok(wrote) => return wrote,
            Err(halt) => {
                if let Some(lack) = make_way(rt, map, pass, &mut settled, key, halt) {
                    return Wrote::Full(lack);
                }
            }
        }
    }
    unreachable!()
}

/// How many tries a call makes at most whose pass is alone: one that finds the chunk of its key full and one behind that,
/// before it settles and then.
const LONE_TRIES: u64 = 4;

/// Tries as [`wait_to_put`] does, but waits for nobody: `Busy` comes only where more than so many tries were refused, or
/// where a chunk that was to be split or settled was busy at so many looks at its pin word. To a pass that is alone it
/// never comes.
pub(crate) fn try_to_put<A: Asking>(
    table: &OakTable,
    pass: &mut Pass,
    key: &[u8],
    value: &[u8],
    asking: &mut A,
    looks: u32,
) -> Result<Wrote, Busy>
    requires own { IsPassOf table.now pass.old }
    requires key { IsKey key.now }
    requires idle { HoldsNothing (state pass.old) }
    requires turn { IsNewCall (call_of pass.old) (state pass.old) }
    requires value { IsValue value.now }
    requires few { A.times asking.old < 2 ^ 64 - 1 }
    requires some { 0 < looks }
    ensures own { StaysAsUsed A.uses_scratch pass.old pass.new }
    ensures idle { HoldsNothing (state pass.new) }
    ensures wrote { IfOk result (λ x. PutFits x (sizes table.now) (call_of pass.old) key.now
        (A.ask asking.old value.now) (state pass.old) (state pass.new)) }
    ensures claims { ClaimsFull (sizes table.now) (state pass.old) (state pass.new) }
    ensures alone_reply { IfOk result (λ x. IsAlone (state pass.old) → PutAlone x (sizes table.now) key.now
        (A.ask asking.old value.now) (state pass.old) (state pass.new)) }
    ensures alone { IfOk result (λ x. Runs (PutsAlone (sizes table.now) key.now (A.ask asking.old value.now)
        (state pass.old) x) (state pass.old) (state pass.new)) }
    ensures alone_rooms { IfOk result (λ _. IsAlone (state pass.old)
        → Runs (RoomsAlone (sizes table.now) key.now (A.ask asking.old value.now) (state pass.old) (state pass.new))
        (state pass.old) (state pass.new)) }
    ensures busy { IfErr result (λ _. StopsTrying (sizes table.now) (call_of pass.old) looks key.now
        (A.ask asking.old value.now) (state pass.old) (state pass.new)) }
    ensures asks { A.ask asking.new value.now ≡ A.ask asking.old value.now }
    ensures counted { IfOk result (λ x. A.times asking.new ≡ A.times asking.old + times_done (Ok x)) }
    ensures uncounted { IfErr result (λ _. A.times asking.new ≡ A.times asking.old) }
    ensures fed { IfOk result (λ x. Feeds (Ok x) key.now (A.says asking.old) (A.says asking.new) (state pass.new)) }
    ensures unfed { IfErr result (λ _. SaysTheSame (A.says asking.old) (A.says asking.new)) }
    ensures alone_fed { IfOk result (λ x. IsAlone (state pass.old) → FeedsAlone (Ok x) key.now (A.says asking.new) (state pass.old)) }
{
    let mut settled = false;
    for _ in 0..u64::from(looks) + LONE_TRIES {
        match asking.try_once(table, pass, key, value) {
            Ok(wrote) => return Ok(wrote),
            Err(halt) => match try_make_way(table, pass, &mut settled, key, halt, looks) {
                Ok(None) => {}
                Ok(Some(lack)) => return Ok(Wrote::Full(lack)),
                Err(busy) => return Err(busy),
            },
        }
    }
    Err(Busy)
}
