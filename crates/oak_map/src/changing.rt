//! Computes and removals.
ghost use Rattle.std.specs.Prelude.{◌≡◌, ◌<◌, ◌+◌, ◌-◌, ◌^◌, IfErr, IfOk, Ok};
ghost use Rattle.oak_model.specs.declared.cells.CellCall.TheVariants.{Compute, Remove};
ghost use Rattle.oak_model.specs.Key.{IsKey};
ghost use Rattle.oak_core.specs.AloneWords.{Runs};
ghost use Rattle.oak_core.specs.MayWrite.{IsNewCall};
ghost use Rattle.oak_core.specs.Passes.{Stays};
ghost use Rattle.oak_core.specs.PassState.{IsAlone};
ghost use Rattle.oak_core.specs.Scratch.{StaysButScratch};
ghost use Rattle.value_ops.specs.Recipes.{SaysTheSame};
ghost use Rattle.point_ops.specs.Counted.{Feeds, FeedsAlone, times_done};
ghost use Rattle.point_ops.specs.LoneLeft.{LeavesBy};
ghost use Rattle.point_ops.specs.LoneReplies.{WroteAlone};
ghost use Rattle.point_ops.specs.Parts.{WroteFits};
ghost use Rattle.point_ops.specs.Replies.{HoldsAsBefore};
ghost use Rattle.oak_map.specs.GivingUp.{TriesInVain, IsHalted};
ghost use Rattle.oak_map.specs.Maps.{IsReady, call_of, pass_of, sizes, state};

use crate::answers::Busy;
use crate::bare;
use crate::map::{MapPass, OakMap};
use crate::waiting::LOOKS;
use oak_model::Wrote;
use std::sync::Wait;
use std::thread;
use value_ops::Recipe;

impl<R: Wait + Drop + Send> OakMap<R> {
    /// Computes the value of a key anew: `Done` where it was present, by exactly one call of the recipe on the
    /// bytes that the key held right before the write; and `Absent` where it was not, with a number at whose
    /// place it was. There the recipe's count, and what it says of the bytes that it was fed, are as before. It
    /// is tried again while other passes are at work on the key or move its room. Where the pass is alone, the
    /// answer is the cell's on the last state of the key. The pass made no write in this turn.
    pub fn compute(
        &self,
        rt: &R,
        pass: &mut MapPass,
        key: &[u8],
        recipe: &mut Box<dyn Recipe + Send>,
    ) -> Wrote
        requires ready { IsReady self.now pass.old }
        requires key { IsKey key.now }
        requires turn { IsNewCall (call_of pass.old) (state pass.old) }
        requires few { calls recipe.old < 2 ^ 64 - 1 }
        ensures own { StaysButScratch (pass_of pass.old) (pass_of pass.new) }
        ensures ready { IsReady self.now pass.new }
        ensures holds { HoldsAsBefore (state pass.old) (state pass.new) }
        ensures wrote { WroteFits result (call_of pass.old) key.now
            (Compute (told_kind recipe.old) (told_argument recipe.old)) (state pass.old) (state pass.new) }
        ensures alone_reply { IsAlone (state pass.old) → WroteAlone result (sizes self.now) key.now
            (Compute (told_kind recipe.old) (told_argument recipe.old)) (state pass.old) (state pass.new) }
        ensures alone_left { Runs (LeavesBy result (sizes self.now) key.now) (state pass.old) (state pass.new) }
        ensures counted { calls recipe.new ≡ calls recipe.old + times_done (Ok result) }
        ensures fed { Feeds (Ok result) key.now (fed recipe.old) (fed recipe.new) (state pass.new) }
        ensures alone_fed { IsAlone (state pass.old) → FeedsAlone (Ok result) key.now (fed recipe.new) (state pass.old) }
        ensures told { (told_kind recipe.new ≡ told_kind recipe.old) × (told_argument recipe.new ≡ told_argument recipe.old) }
    {
        for _ in rt.forever() {
            if let Ok(wrote) = bare::try_compute(&self.table, &mut pass.pass, key, recipe, LOOKS) {
                return wrote;
            }
            thread::yield_now();
        }
        unreachable!()
    }

    /// Computes the value of a key anew as [`OakMap::compute`] does, or gives up: `Busy` comes only where each of so many
    /// tries found another pass at work on the key, or moving its room. The recipe was not called then, and no write was
    /// made. To a pass that is alone it never comes.
    pub fn try_compute(
        &self,
        pass: &mut MapPass,
        key: &[u8],
        recipe: &mut Box<dyn Recipe + Send>,
        looks: u32,
    ) -> Result<Wrote, Busy>
        requires ready { IsReady self.now pass.old }
        requires key { IsKey key.now }
        requires turn { IsNewCall (call_of pass.old) (state pass.old) }
        requires few { calls recipe.old < 2 ^ 64 - 1 }
        requires some { 0 < looks }
        ensures own { StaysButScratch (pass_of pass.old) (pass_of pass.new) }
        ensures ready { IsReady self.now pass.new }
        ensures holds { HoldsAsBefore (state pass.old) (state pass.new) }
        ensures wrote { IfOk result (λ x. WroteFits x (call_of pass.old) key.now
            (Compute (told_kind recipe.old) (told_argument recipe.old)) (state pass.old) (state pass.new)) }
        ensures alone_reply { IfOk result (λ x. IsAlone (state pass.old) → WroteAlone x (sizes self.now) key.now
            (Compute (told_kind recipe.old) (told_argument recipe.old)) (state pass.old) (state pass.new)) }
        ensures alone_left { IfOk result (λ x. Runs (LeavesBy x (sizes self.now) key.now) (state pass.old) (state pass.new)) }
        ensures busy { IfErr result (λ _. TriesInVain (IsHalted (sizes self.now) (call_of pass.old) key.now
            (Compute (told_kind recipe.old) (told_argument recipe.old))) (call_of pass.old) looks (state pass.old)
            (state pass.new)) }
        ensures counted { IfOk result (λ x. calls recipe.new ≡ calls recipe.old + times_done (Ok x)) }
        ensures uncounted { IfErr result (λ _. calls recipe.new ≡ calls recipe.old) }
        ensures fed { IfOk result (λ x. Feeds (Ok x) key.now (fed recipe.old) (fed recipe.new) (state pass.new)) }
        ensures unfed { IfErr result (λ _. SaysTheSame (fed recipe.old) (fed recipe.new)) }
        ensures alone_fed { IfOk result (λ x. IsAlone (state pass.old) → FeedsAlone (Ok x) key.now (fed recipe.new) (state pass.old)) }
        ensures told { (told_kind recipe.new ≡ told_kind recipe.old) × (told_argument recipe.new ≡ told_argument recipe.old) }
    {
        bare::try_compute(&self.table, &mut pass.pass, key, recipe, looks)
    }

    /// Removes a key: `Removed` where it was present, with the stamp of the removal, and `Absent` where it
    /// was not, with a number at whose place it was. It is tried again while other passes are at work on the
    /// key or move its room. Where the pass is alone, the answer is the cell's on the last state of the key.
    /// The pass made no write in this turn.
    pub fn remove(&self, rt: &R, pass: &mut MapPass, key: &[u8]) -> Wrote
        requires ready { IsReady self.now pass.old }
        requires key { IsKey key.now }
        requires turn { IsNewCall (call_of pass.old) (state pass.old) }
        ensures own { Stays (pass_of pass.old) (pass_of pass.new) }
        ensures ready { IsReady self.now pass.new }
        ensures holds { HoldsAsBefore (state pass.old) (state pass.new) }
        ensures wrote { WroteFits result (call_of pass.old) key.now Remove (state pass.old) (state pass.new) }
        ensures alone_reply { IsAlone (state pass.old) → WroteAlone result (sizes self.now) key.now Remove (state pass.old) (state pass.new) }
        ensures alone_left { Runs (LeavesBy result (sizes self.now) key.now) (state pass.old) (state pass.new) }
    {
        for _ in rt.forever() {
            if let Ok(wrote) = bare::try_remove(&self.table, &mut pass.pass, key, LOOKS) {
                return wrote;
            }
            thread::yield_now();
        }
        unreachable!()
    }

    /// Removes a key as [`OakMap::remove`] does, or gives up: `Busy` comes only where each of so many tries found another
    /// pass at work on the key, or moving its room. No write was made then. To a pass that is alone it never comes.
    pub fn try_remove(&self, pass: &mut MapPass, key: &[u8], looks: u32) -> Result<Wrote, Busy>
        requires ready { IsReady self.now pass.old }
        requires key { IsKey key.now }
        requires turn { IsNewCall (call_of pass.old) (state pass.old) }
        requires some { 0 < looks }
        ensures own { Stays (pass_of pass.old) (pass_of pass.new) }
        ensures ready { IsReady self.now pass.new }
        ensures holds { HoldsAsBefore (state pass.old) (state pass.new) }
        ensures wrote { IfOk result (λ x. WroteFits x (call_of pass.old) key.now Remove (state pass.old) (state pass.new)) }
        ensures alone_reply { IfOk result (λ x. IsAlone (state pass.old)
            → WroteAlone x (sizes self.now) key.now Remove (state pass.old) (state pass.new)) }
        ensures alone_left { IfOk result (λ x. Runs (LeavesBy x (sizes self.now) key.now) (state pass.old) (state pass.new)) }
        ensures busy { IfErr result (λ _. TriesInVain (IsHalted (sizes self.now) (call_of pass.old) key.now Remove)
            (call_of pass.old) looks (state pass.old) (state pass.new)) }
    {
        bare::try_remove(&self.table, &mut pass.pass, key, looks)
    }
}
