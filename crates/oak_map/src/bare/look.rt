//! Calls that lend the value of a view's life, or give up.
ghost use Rattle.std.specs.Prelude.{◌≡◌, ◌<◌, IfErr, IfOk};
ghost use Rattle.std.specs.Borrow.{RestsIfErr, sem};
ghost use Rattle.oak_core.specs.PassState.{HoldsNothing};
ghost use Rattle.oak_core.specs.Passes.{IsPassOf, key as sizes, state};
ghost use Rattle.oak_core.specs.contracts.table.Pass as table_pass;
ghost use Rattle.value_ops.specs.Views.{KnowsView};
ghost use Rattle.oak_map.specs.TriedRests.{LendsLifeFor, RestsUnseen};

use crate::answers::Busy;
use crate::finding::try_find_life;
use oak_core::{OakTable, Pass};
use value_ops::{NoRead, Reading, ValueView};

/// Reads the value that the life of a view has, as [`OakMap::look`](crate::OakMap::look) does, or gives up: `Busy` comes
/// only where a pass was writing it at each of so many tries. To a pass that is alone it never comes. It takes the pass
/// first, as [`try_get`](crate::bare::try_get) does.
pub fn try_look<'p>(
    pass: &'p mut Pass,
    table: &'p OakTable,
    view: &ValueView,
    looks: u32,
) -> Result<Reading<'p>, NoRead>
    requires own { IsPassOf table.now pass.old }
    requires idle { HoldsNothing (state pass.old) }
    requires known { KnowsView (sizes table.now) view.now (state pass.old) }
    requires some { 0 < looks }
    ensures* rests { sem 𝓛 (RestsIfErr table_pass.the_row pass.entry (λ r. r.pass.ghost_name) result
        (λ n. IfErr result (λ why. RestsUnseen (sizes table.now) view.now looks why pass.old n))) }
    ensures same_reference { IfOk result (λ r. r.pass.ghost_name ≡ pass.entry.ghost_name) }
    ensures lends { IfOk result (λ r. LendsLifeFor table.now view.now pass.old r) }
{
    match try_find_life(table, pass, view, looks) {
        Err(Busy) => Err(NoRead::Busy),
        Ok(None) => Err(NoRead::Gone),
        Ok(Some(pin)) => Ok(pin.reading(table, pass)),
    }
}
