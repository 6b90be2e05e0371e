//! Puts that give up.
ghost use Rattle.std.specs.Prelude.{◌≡◌, ◌<◌, ◌+◌, ◌-◌, ◌^◌, IfErr, IfOk, Ok};
ghost use Rattle.oak_model.specs.declared.cells.CellCall.TheVariants.{Put, PutNew, Upsert};
ghost use Rattle.oak_model.specs.Key.{IsKey};
ghost use Rattle.oak_model.specs.Value.{IsValue};
ghost use Rattle.oak_core.specs.AloneWords.{Runs};
ghost use Rattle.oak_core.specs.MayWrite.{IsNewCall};
ghost use Rattle.oak_core.specs.PassState.{IsAlone};
ghost use Rattle.oak_core.specs.RoomLacks.{ClaimsFull};
ghost use Rattle.oak_core.specs.Scratch.{StaysButSlots};
ghost use Rattle.value_ops.specs.Recipes.{SaysTheSame};
ghost use Rattle.point_ops.specs.Counted.{Feeds, FeedsAlone, times_done};
ghost use Rattle.oak_map.specs.LonePuts.{PutAlone, PutsAlone, RoomsAlone};
ghost use Rattle.oak_map.specs.Maps.{IsReady, call_of, pass_of, sizes, state};
ghost use Rattle.oak_map.specs.Putting.{StaysButRoom};
ghost use Rattle.oak_map.specs.Replying.{PutFits};
ghost use Rattle.oak_map.specs.Stopping.{StopsTrying};

use crate::answers::Busy;
use crate::bare;
use crate::map::{MapPass, OakMap};
use oak_model::Wrote;
use std::sync::Wait;
use value_ops::Recipe;

impl<R: Wait + Drop + Send> OakMap<R> {
    /// As [`OakMap::put`], but it waits for nobody, and gives up as [`bare::try_put`] does. It tells the index nothing.
    pub fn try_put(
        &self,
        pass: &mut MapPass,
        key: &[u8],
        value: &[u8],
        looks: u32,
    ) -> Result<Wrote, Busy>
        requires ready { IsReady self.now pass.old }
        requires key { IsKey key.now }
        requires turn { IsNewCall (call_of pass.old) (state pass.old) }
        requires value { IsValue value.now }
        requires some { 0 < looks }
        ensures own { StaysButSlots (pass_of pass.old) (pass_of pass.new) }
        ensures ready { IsReady self.now pass.new }
        ensures wrote { IfOk result (λ x. PutFits x (sizes self.now) (call_of pass.old) key.now (Put value.now) (state pass.old) (state pass.new)) }
        ensures claims { ClaimsFull (sizes self.now) (state pass.old) (state pass.new) }
        ensures alone_reply { IfOk result (λ x. IsAlone (state pass.old) → PutAlone x (sizes self.now) key.now
            (Put value.now) (state pass.old) (state pass.new)) }
        ensures alone { IfOk result (λ x. Runs (PutsAlone (sizes self.now) key.now (Put value.now) (state pass.old) x)
            (state pass.old) (state pass.new)) }
        ensures alone_rooms { IfOk result (λ _. IsAlone (state pass.old)
            → Runs (RoomsAlone (sizes self.now) key.now (Put value.now) (state pass.old) (state pass.new))
            (state pass.old) (state pass.new)) }
        ensures busy { IfErr result (λ _. StopsTrying (sizes self.now) (call_of pass.old) looks key.now
            (Put value.now) (state pass.old) (state pass.new)) }
    {
        bare::try_put(&self.table, &mut pass.pass, key, value, looks)
    }

    /// As [`OakMap::put_if_absent`], but it waits for nobody, and gives up as [`bare::try_put_if_absent`] does. It tells the
    /// index nothing.
    pub fn try_put_if_absent(
        &self,
        pass: &mut MapPass,
        key: &[u8],
        value: &[u8],
        looks: u32,
    ) -> Result<Wrote, Busy>
        requires ready { IsReady self.now pass.old }
        requires key { IsKey key.now }
        requires turn { IsNewCall (call_of pass.old) (state pass.old) }
        requires value { IsValue value.now }
        requires some { 0 < looks }
        ensures own { StaysButSlots (pass_of pass.old) (pass_of pass.new) }
        ensures ready { IsReady self.now pass.new }
        ensures wrote { IfOk result (λ x. PutFits x (sizes self.now) (call_of pass.old) key.now (PutNew value.now)
            (state pass.old) (state pass.new)) }
        ensures claims { ClaimsFull (sizes self.now) (state pass.old) (state pass.new) }
        ensures alone_reply { IfOk result (λ x. IsAlone (state pass.old) → PutAlone x (sizes self.now) key.now
            (PutNew value.now) (state pass.old) (state pass.new)) }
        ensures alone { IfOk result (λ x. Runs (PutsAlone (sizes self.now) key.now (PutNew value.now)
            (state pass.old) x) (state pass.old) (state pass.new)) }
        ensures alone_rooms { IfOk result (λ _. IsAlone (state pass.old)
            → Runs (RoomsAlone (sizes self.now) key.now (PutNew value.now) (state pass.old) (state pass.new))
            (state pass.old) (state pass.new)) }
        ensures busy { IfErr result (λ _. StopsTrying (sizes self.now) (call_of pass.old) looks key.now
            (PutNew value.now) (state pass.old) (state pass.new)) }
    {
        bare::try_put_if_absent(&self.table, &mut pass.pass, key, value, looks)
    }

    /// As [`OakMap::upsert`], but it waits for nobody, and gives up as [`bare::try_upsert`] does. It tells the index nothing.
    pub fn try_upsert(
        &self,
        pass: &mut MapPass,
        key: &[u8],
        value: &[u8],
        recipe: &mut Box<dyn Recipe + Send>,
        looks: u32,
    ) -> Result<Wrote, Busy>
        requires ready { IsReady self.now pass.old }
        requires key { IsKey key.now }
        requires turn { IsNewCall (call_of pass.old) (state pass.old) }
        requires value { IsValue value.now }
        requires few { calls recipe.old < 2 ^ 64 - 1 }
        requires some { 0 < looks }
        ensures own { StaysButRoom (pass_of pass.old) (pass_of pass.new) }
        ensures ready { IsReady self.now pass.new }
        ensures wrote { IfOk result (λ x. PutFits x (sizes self.now) (call_of pass.old) key.now
            (Upsert value.now (told_kind recipe.old) (told_argument recipe.old)) (state pass.old) (state pass.new)) }
        ensures claims { ClaimsFull (sizes self.now) (state pass.old) (state pass.new) }
        ensures alone_reply { IfOk result (λ x. IsAlone (state pass.old) → PutAlone x (sizes self.now) key.now
            (Upsert value.now (told_kind recipe.old) (told_argument recipe.old)) (state pass.old) (state pass.new)) }
        ensures alone { IfOk result (λ x. Runs (PutsAlone (sizes self.now) key.now
            (Upsert value.now (told_kind recipe.old) (told_argument recipe.old)) (state pass.old) x) (state pass.old)
            (state pass.new)) }
        ensures alone_rooms { IfOk result (λ _. IsAlone (state pass.old)
            → Runs (RoomsAlone (sizes self.now) key.now
            (Upsert value.now (told_kind recipe.old) (told_argument recipe.old)) (state pass.old) (state pass.new))
            (state pass.old) (state pass.new)) }
        ensures busy { IfErr result (λ _. StopsTrying (sizes self.now) (call_of pass.old) looks key.now
            (Upsert value.now (told_kind recipe.old) (told_argument recipe.old)) (state pass.old) (state pass.new)) }
        ensures counted { IfOk result (λ x. calls recipe.new ≡ calls recipe.old + times_done (Ok x)) }
        ensures uncounted { IfErr result (λ _. calls recipe.new ≡ calls recipe.old) }
        ensures fed { IfOk result (λ x. Feeds (Ok x) key.now (fed recipe.old) (fed recipe.new) (state pass.new)) }
        ensures unfed { IfErr result (λ _. SaysTheSame (fed recipe.old) (fed recipe.new)) }
        ensures alone_fed { IfOk result (λ x. IsAlone (state pass.old) → FeedsAlone (Ok x) key.now (fed recipe.new) (state pass.old)) }
        ensures told { (told_kind recipe.new ≡ told_kind recipe.old) × (told_argument recipe.new ≡ told_argument recipe.old) }
    {
        bare::try_upsert(&self.table, &mut pass.pass, key, value, recipe, looks)
    }
}
