//! Puts that give up.
ghost use Rattle.std.specs.Prelude.{◌≡◌, ◌<◌, ◌+◌, ◌-◌, ◌^◌, IfErr, IfOk, Ok};
ghost use Rattle.oak_model.specs.declared.cells.CellCall.TheVariants.{Put, PutNew, Upsert};
ghost use Rattle.oak_model.specs.Key.{IsKey};
ghost use Rattle.oak_model.specs.Value.{IsValue};
ghost use Rattle.oak_core.specs.AloneWords.{Runs};
ghost use Rattle.oak_core.specs.MayWrite.{IsNewCall};
ghost use Rattle.oak_core.specs.PassState.{HoldsNothing, IsAlone};
ghost use Rattle.oak_core.specs.Passes.{IsPassOf, call_of, key as sizes, state};
ghost use Rattle.oak_core.specs.RoomLacks.{ClaimsFull};
ghost use Rattle.oak_core.specs.Scratch.{StaysButSlots};
ghost use Rattle.value_ops.specs.Recipes.{SaysTheSame};
ghost use Rattle.point_ops.specs.Counted.{Feeds, FeedsAlone, times_done};
ghost use Rattle.oak_map.specs.LonePuts.{PutAlone, PutsAlone, RoomsAlone};
ghost use Rattle.oak_map.specs.Putting.{StaysButRoom};
ghost use Rattle.oak_map.specs.Replying.{PutFits};
ghost use Rattle.oak_map.specs.Stopping.{StopsTrying};

use crate::answers::Busy;
use crate::asking::{PutIfAbsent, PutOver};
use crate::put_loops::try_to_put;
use oak_core::{OakTable, Pass};
use oak_model::Wrote;
use value_ops::Recipe;

/// Puts the value of a key, as [`OakMap::put`](crate::OakMap::put) does, or gives up: `Busy` comes only where more than so
/// many tries were refused, or where a chunk that was to be split or settled was busy at so many looks at its pin word. No
/// write was made then, nothing is noted or held, and what was settled stays so. To a pass that is alone it never comes.
pub fn try_put(
    table: &OakTable,
    pass: &mut Pass,
    key: &[u8],
    value: &[u8],
    looks: u32,
) -> Result<Wrote, Busy>
    requires own { IsPassOf table.now pass.old }
    requires key { IsKey key.now }
    requires idle { HoldsNothing (state pass.old) }
    requires turn { IsNewCall (call_of pass.old) (state pass.old) }
    requires value { IsValue value.now }
    requires some { 0 < looks }
    ensures own { StaysButSlots pass.old pass.new }
    ensures idle { HoldsNothing (state pass.new) }
    ensures wrote { IfOk result (λ x. PutFits x (sizes table.now) (call_of pass.old) key.now (Put value.now) (state pass.old) (state pass.new)) }
    ensures claims { ClaimsFull (sizes table.now) (state pass.old) (state pass.new) }
    ensures alone_reply { IfOk result (λ x. IsAlone (state pass.old) → PutAlone x (sizes table.now) key.now
        (Put value.now) (state pass.old) (state pass.new)) }
    ensures alone { IfOk result (λ x. Runs (PutsAlone (sizes table.now) key.now (Put value.now) (state pass.old) x)
        (state pass.old) (state pass.new)) }
    ensures alone_rooms { IfOk result (λ _. IsAlone (state pass.old)
        → Runs (RoomsAlone (sizes table.now) key.now (Put value.now) (state pass.old) (state pass.new))
        (state pass.old) (state pass.new)) }
    ensures busy { IfErr result (λ _. StopsTrying (sizes table.now) (call_of pass.old) looks key.now (Put value.now)
        (state pass.old) (state pass.new)) }
{
    try_to_put(table, pass, key, value, &mut PutOver, looks)
}

/// Puts the value of a key if it is absent, as [`OakMap::put_if_absent`](crate::OakMap::put_if_absent) does, or gives up,
/// as [`try_put`] does.
pub fn try_put_if_absent(
    table: &OakTable,
    pass: &mut Pass,
    key: &[u8],
    value: &[u8],
    looks: u32,
) -> Result<Wrote, Busy>
    requires own { IsPassOf table.now pass.old }
    requires key { IsKey key.now }
    requires idle { HoldsNothing (state pass.old) }
    requires turn { IsNewCall (call_of pass.old) (state pass.old) }
    requires value { IsValue value.now }
    requires some { 0 < looks }
    ensures own { StaysButSlots pass.old pass.new }
    ensures idle { HoldsNothing (state pass.new) }
    ensures wrote { IfOk result (λ x. PutFits x (sizes table.now) (call_of pass.old) key.now (PutNew value.now) (state pass.old) (state pass.new)) }
    ensures claims { ClaimsFull (sizes table.now) (state pass.old) (state pass.new) }
    ensures alone_reply { IfOk result (λ x. IsAlone (state pass.old) → PutAlone x (sizes table.now) key.now
        (PutNew value.now) (state pass.old) (state pass.new)) }
    ensures alone { IfOk result (λ x. Runs (PutsAlone (sizes table.now) key.now (PutNew value.now) (state pass.old) x)
        (state pass.old) (state pass.new)) }
    ensures alone_rooms { IfOk result (λ _. IsAlone (state pass.old)
        → Runs (RoomsAlone (sizes table.now) key.now (PutNew value.now) (state pass.old) (state pass.new))
        (state pass.old) (state pass.new)) }
    ensures busy { IfErr result (λ _. StopsTrying (sizes table.now) (call_of pass.old) looks key.now
        (PutNew value.now) (state pass.old) (state pass.new)) }
{
    try_to_put(table, pass, key, value, &mut PutIfAbsent, looks)
}

/// Computes the value of a key anew or puts one, as [`OakMap::upsert`](crate::OakMap::upsert) does, or gives up, as
/// [`try_put`] does. The recipe was not called then.
pub fn try_upsert(
    table: &OakTable,
    pass: &mut Pass,
    key: &[u8],
    value: &[u8],
    recipe: &mut Box<dyn Recipe + Send>,
    looks: u32,
) -> Result<Wrote, Busy>
    requires own { IsPassOf table.now pass.old }
    requires key { IsKey key.now }
    requires idle { HoldsNothing (state pass.old) }
    requires turn { IsNewCall (call_of pass.old) (state pass.old) }
    requires value { IsValue value.now }
    requires few { calls recipe.old < 2 ^ 64 - 1 }
    requires some { 0 < looks }
    ensures own { StaysButRoom pass.old pass.new }
    ensures idle { HoldsNothing (state pass.new) }
    ensures wrote { IfOk result (λ x. PutFits x (sizes table.now) (call_of pass.old) key.now
        (Upsert value.now (told_kind recipe.old) (told_argument recipe.old)) (state pass.old) (state pass.new)) }
    ensures claims { ClaimsFull (sizes table.now) (state pass.old) (state pass.new) }
    ensures alone_reply { IfOk result (λ x. IsAlone (state pass.old) → PutAlone x (sizes table.now) key.now
        (Upsert value.now (told_kind recipe.old) (told_argument recipe.old)) (state pass.old) (state pass.new)) }
    ensures alone { IfOk result (λ x. Runs (PutsAlone (sizes table.now) key.now
        (Upsert value.now (told_kind recipe.old) (told_argument recipe.old)) (state pass.old) x) (state pass.old)
        (state pass.new)) }
    ensures alone_rooms { IfOk result (λ _. IsAlone (state pass.old)
        → Runs (RoomsAlone (sizes table.now) key.now
        (Upsert value.now (told_kind recipe.old) (told_argument recipe.old)) (state pass.old) (state pass.new))
        (state pass.old) (state pass.new)) }
    ensures busy { IfErr result (λ _. StopsTrying (sizes table.now) (call_of pass.old) looks key.now
        (Upsert value.now (told_kind recipe.old) (told_argument recipe.old)) (state pass.old) (state pass.new)) }
    ensures counted { IfOk result (λ x. calls recipe.new ≡ calls recipe.old + times_done (Ok x)) }
    ensures uncounted { IfErr result (λ _. calls recipe.new ≡ calls recipe.old) }
    ensures fed { IfOk result (λ x. Feeds (Ok x) key.now (fed recipe.old) (fed recipe.new) (state pass.new)) }
    ensures unfed { IfErr result (λ _. SaysTheSame (fed recipe.old) (fed recipe.new)) }
    ensures alone_fed { IfOk result (λ x. IsAlone (state pass.old) → FeedsAlone (Ok x) key.now (fed recipe.new) (state pass.old)) }
    ensures told { (told_kind recipe.new ≡ told_kind recipe.old) × (told_argument recipe.new ≡ told_argument recipe.old) }
{
    try_to_put(table, pass, key, value, recipe, looks)
}
