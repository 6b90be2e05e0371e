//! Computes that give up.
ghost use Rattle.std.specs.Prelude.{◌≡◌, ◌<◌, ◌+◌, ◌-◌, ◌^◌, IfErr, IfOk, Ok};
ghost use Rattle.oak_model.specs.declared.cells.CellCall.TheVariants.{Compute};
ghost use Rattle.oak_model.specs.Key.{IsKey};
ghost use Rattle.oak_core.specs.AloneWords.{Runs};
ghost use Rattle.oak_core.specs.MayWrite.{IsNewCall};
ghost use Rattle.oak_core.specs.PassState.{HoldsNothing, IsAlone};
ghost use Rattle.oak_core.specs.Passes.{IsPassOf, call_of, key as sizes, state};
ghost use Rattle.oak_core.specs.Scratch.{StaysButScratch};
ghost use Rattle.value_ops.specs.Recipes.{SaysTheSame};
ghost use Rattle.point_ops.specs.Counted.{Feeds, FeedsAlone, times_done};
ghost use Rattle.point_ops.specs.LoneLeft.{LeavesBy};
ghost use Rattle.point_ops.specs.LoneReplies.{WroteAlone};
ghost use Rattle.point_ops.specs.Parts.{WroteFits};
ghost use Rattle.point_ops.specs.Replies.{HoldsAsBefore};
ghost use Rattle.oak_map.specs.GivingUp.{TriesInVain, IsHalted};

use crate::answers::Busy;
use crate::hinted;
use oak_core::{OakTable, Pass};
use oak_model::Wrote;
use value_ops::Recipe;

/// Computes the value of a key anew, as [`OakMap::compute`](crate::OakMap::compute) does, or gives up: `Busy` comes only
/// where each of so many tries found another pass at work on the key, or moving its room. The recipe was not called then,
/// no write was made, and the pass holds what it held. To a pass that is alone it never comes.
pub fn try_compute(
    table: &OakTable,
    pass: &mut Pass,
    key: &[u8],
    recipe: &mut Box<dyn Recipe + Send>,
    looks: u32,
) -> Result<Wrote, Busy>
    requires own { IsPassOf table.now pass.old }
    requires key { IsKey key.now }
    requires idle { HoldsNothing (state pass.old) }
    requires turn { IsNewCall (call_of pass.old) (state pass.old) }
    requires few { calls recipe.old < 2 ^ 64 - 1 }
    requires some { 0 < looks }
    ensures own { StaysButScratch pass.old pass.new }
    ensures holds { HoldsAsBefore (state pass.old) (state pass.new) }
    ensures wrote { IfOk result (λ x. WroteFits x (call_of pass.old) key.now
        (Compute (told_kind recipe.old) (told_argument recipe.old)) (state pass.old) (state pass.new)) }
    ensures alone_reply { IfOk result (λ x. IsAlone (state pass.old) → WroteAlone x (sizes table.now) key.now
        (Compute (told_kind recipe.old) (told_argument recipe.old)) (state pass.old) (state pass.new)) }
    ensures alone_left { IfOk result (λ x. Runs (LeavesBy x (sizes table.now) key.now) (state pass.old) (state pass.new)) }
    ensures busy { IfErr result (λ _. TriesInVain (IsHalted (sizes table.now) (call_of pass.old) key.now
        (Compute (told_kind recipe.old) (told_argument recipe.old))) (call_of pass.old) looks (state pass.old)
        (state pass.new)) }
    ensures counted { IfOk result (λ x. calls recipe.new ≡ calls recipe.old + times_done (Ok x)) }
    ensures uncounted { IfErr result (λ _. calls recipe.new ≡ calls recipe.old) }
    ensures fed { IfOk result (λ x. Feeds (Ok x) key.now (fed recipe.old) (fed recipe.new) (state pass.new)) }
    ensures unfed { IfErr result (λ _. SaysTheSame (fed recipe.old) (fed recipe.new)) }
    ensures alone_fed { IfOk result (λ x. IsAlone (state pass.old) → FeedsAlone (Ok x) key.now (fed recipe.new) (state pass.old)) }
    ensures told { (told_kind recipe.new ≡ told_kind recipe.old) × (told_argument recipe.new ≡ told_argument recipe.old) }
{
    for _ in 0..looks {
        if let Ok(wrote) = hinted::try_compute(table, pass, key, recipe) {
            return Ok(wrote);
        }
    }
    Err(Busy)
}
