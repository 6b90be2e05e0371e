//! Removals that give up.
ghost use Rattle.std.specs.Prelude.{◌<◌, IfErr, IfOk};
ghost use Rattle.oak_model.specs.declared.cells.CellCall.TheVariants.{Remove};
ghost use Rattle.oak_model.specs.Key.{IsKey};
ghost use Rattle.oak_core.specs.AloneWords.{Runs};
ghost use Rattle.oak_core.specs.MayWrite.{IsNewCall};
ghost use Rattle.oak_core.specs.PassState.{HoldsNothing, IsAlone};
ghost use Rattle.oak_core.specs.Passes.{IsPassOf, Stays, call_of, key as sizes, state};
ghost use Rattle.point_ops.specs.LoneLeft.{LeavesBy};
ghost use Rattle.point_ops.specs.LoneReplies.{WroteAlone};
ghost use Rattle.point_ops.specs.Parts.{WroteFits};
ghost use Rattle.point_ops.specs.Replies.{HoldsAsBefore};
ghost use Rattle.oak_map.specs.GivingUp.{TriesInVain, IsHalted};

use crate::answers::Busy;
use crate::hinted;
use oak_core::{OakTable, Pass};
use oak_model::Wrote;

/// Removes a key, as [`OakMap::remove`](crate::OakMap::remove) does, or gives up: `Busy` comes only where each of so many
/// tries found another pass at work on the key, or moving its room. No write was made then, and the pass holds what it
/// held. To a pass that is alone it never comes.
pub fn try_remove(table: &OakTable, pass: &mut Pass, key: &[u8], looks: u32) -> Result<Wrote, Busy>
    requires own { IsPassOf table.now pass.old }
    requires key { IsKey key.now }
    requires idle { HoldsNothing (state pass.old) }
    requires turn { IsNewCall (call_of pass.old) (state pass.old) }
    requires some { 0 < looks }
    ensures own { Stays pass.old pass.new }
    ensures holds { HoldsAsBefore (state pass.old) (state pass.new) }
    ensures wrote { IfOk result (λ x. WroteFits x (call_of pass.old) key.now Remove (state pass.old) (state pass.new)) }
    ensures alone_reply { IfOk result (λ x. IsAlone (state pass.old) → WroteAlone x (sizes table.now) key.now Remove
        (state pass.old) (state pass.new)) }
    ensures alone_left { IfOk result (λ x. Runs (LeavesBy x (sizes table.now) key.now) (state pass.old) (state pass.new)) }
    ensures busy { IfErr result (λ _. TriesInVain (IsHalted (sizes table.now) (call_of pass.old) key.now Remove)
        (call_of pass.old) looks (state pass.old) (state pass.new)) }
{
    for _ in 0..looks {
        if let Ok(wrote) = hinted::try_remove(table, pass, key) {
            return Ok(wrote);
        }
    }
    Err(Busy)
}
