//! Looks at a key that give up.
ghost use Rattle.std.specs.Prelude.{◌<◌, IfErr, IfOk};
ghost use Rattle.oak_model.specs.declared.cells.CellCall.TheVariants.{Get};
ghost use Rattle.oak_model.specs.Key.{IsKey};
ghost use Rattle.oak_core.specs.AloneWords.{Runs};
ghost use Rattle.oak_core.specs.PassState.{HoldsNothing, IsAlone};
ghost use Rattle.oak_core.specs.Passes.{IsPassOf, Stays, call_of, key as sizes, state};
ghost use Rattle.oak_core.specs.QuietSteps.{Quiet};
ghost use Rattle.point_ops.specs.Gets.{GotFits};
ghost use Rattle.point_ops.specs.LoneReplies.{GotAlone};
ghost use Rattle.point_ops.specs.Replies.{HoldsAsBefore};
ghost use Rattle.oak_map.specs.GivingUp.{TriesInVain, IsHalted};
ghost use Rattle.oak_map.specs.Maps.{StayAll};

use crate::answers::Busy;
use crate::hinted;
use oak_core::{OakTable, Pass};
use point_ops::Got;

/// Looks for a key, as [`OakMap::view`](crate::OakMap::view) does, or gives up: `Busy` comes only where each of so many
/// tries found another pass at work on the key, or moving its room. To a pass that is alone it never comes.
pub fn try_view(table: &OakTable, pass: &mut Pass, key: &[u8], looks: u32) -> Result<Got, Busy>
    requires own { IsPassOf table.now pass.old }
    requires key { IsKey key.now }
    requires idle { HoldsNothing (state pass.old) }
    requires some { 0 < looks }
    ensures own { Stays pass.old pass.new }
    ensures holds { HoldsAsBefore (state pass.old) (state pass.new) }
    ensures quiet { Quiet (state pass.old) (state pass.new) }
    ensures got { IfOk result (λ x. GotFits x (sizes table.now) (call_of pass.old) key.now (state pass.old) (state pass.new)) }
    ensures alone_reply { IfOk result (λ x. IsAlone (state pass.old) → GotAlone x (sizes table.now) key.now (state pass.old) (state pass.new)) }
    ensures alone { Runs StayAll (state pass.old) (state pass.new) }
    ensures busy { IfErr result (λ _. TriesInVain (IsHalted (sizes table.now) (call_of pass.old) key.now Get)
        (call_of pass.old) looks (state pass.old) (state pass.new)) }
{
    for _ in 0..looks {
        if let Ok(got) = hinted::try_get(table, pass, key) {
            return Ok(got);
        }
    }
    Err(Busy)
}
