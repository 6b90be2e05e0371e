//! Calls that lend the value of a key, or give up.
ghost use Rattle.std.specs.Prelude.{◌≡◌, ◌<◌, IfErr, IfOk};
ghost use Rattle.std.specs.Borrow.{RestsIfErr, sem};
ghost use Rattle.oak_model.specs.Key.{IsKey};
ghost use Rattle.oak_core.specs.PassState.{HoldsNothing};
ghost use Rattle.oak_core.specs.Passes.{IsPassOf, key as sizes, state};
ghost use Rattle.oak_core.specs.contracts.table.Pass as table_pass;
ghost use Rattle.oak_map.specs.TriedRests.{LendsFor, RestsWithout};

use crate::answers::{Busy, NoValue};
use crate::finding::try_find_value;
use oak_core::{OakTable, Pass};
use point_ops::Pinned;
use value_ops::Reading;

/// Looks for a key, and reads its value where it has one, as [`OakMap::get`](crate::OakMap::get) does, or gives up: `Busy`
/// comes only where each of so many tries found another pass at work on the key, or moving its room. To a pass that is
/// alone it never comes. It takes the pass first: in this form its caller learns what becomes of the pass where nothing is
/// read.
pub fn try_get<'p>(
    pass: &'p mut Pass,
    table: &'p OakTable,
    key: &[u8],
    looks: u32,
) -> Result<Reading<'p>, NoValue>
    requires own { IsPassOf table.now pass.old }
    requires idle { HoldsNothing (state pass.old) }
    requires key { IsKey key.now }
    requires some { 0 < looks }
    ensures* rests { sem 𝓛 (RestsIfErr table_pass.the_row pass.entry (λ r. r.pass.ghost_name) result
        (λ n. IfErr result (λ why. RestsWithout (sizes table.now) key.now looks why pass.old n))) }
    ensures same_reference { IfOk result (λ r. r.pass.ghost_name ≡ pass.entry.ghost_name) }
    ensures lends { IfOk result (λ r. LendsFor table.now key.now pass.old r) }
{
    match try_find_value(table, pass, key, looks) {
        Err(Busy) => Err(NoValue::Busy),
        Ok(Pinned::Absent { at }) => Err(NoValue::Absent { at }),
        Ok(Pinned::Value(pin)) => Ok(pin.reading(table, pass)),
    }
}
