//! The rooms of a scan, looked for first where the pass's hint says.
ghost use Rattle.std.specs.Prelude.{◌≡◌, None, IfErr, IfOk};
ghost use Rattle.oak_model.specs.Key.{IsKey};
ghost use Rattle.oak_core.specs.AloneWords.{Runs};
ghost use Rattle.oak_core.specs.Passes.{IsPassOf, Stays, state, key as sizes, call_of};
ghost use Rattle.chunk_ops.specs.AskedRanges.{CoversKey, EndsUnder};
ghost use Rattle.chunk_ops.specs.LoneRooms.{NeverAlone};
ghost use Rattle.chunk_ops.specs.PinRecords.{OnlyMeets};
ghost use Rattle.chunk_ops.specs.RoomPins.{FoundMoved, PinsOpen};

use chunk_ops::{Moved, RoomPin, pin_for, pin_last};
use oak_core::{OakTable, Pass};

/// Pins the room that has the key in its range.
pub(crate) fn pin_covering(table: &OakTable, pass: &mut Pass, key: &[u8]) -> Result<RoomPin, Moved>
    requires own { IsPassOf table.now pass.old }
    requires key { IsKey key.now }
    requires free { (state pass.old).rooms.pin ≡ None }
    ensures own { Stays pass.old pass.new }
    ensures pinned { IfOk result (λ p. PinsOpen (sizes table.now) (call_of pass.old) p.room (CoversKey key.now) (state pass.old) (state pass.new)) }
    ensures moved { IfErr result (λ _. FoundMoved (sizes table.now) (call_of pass.old) (CoversKey key.now) (state pass.old) (state pass.new)) }
    ensures only { IfErr result (λ _. OnlyMeets (call_of pass.old) (state pass.old) (state pass.new)) }
    ensures alone { IfErr result (λ _. Runs (NeverAlone (state pass.old)) (state pass.old) (state pass.new)) }
{
    let hint = pass.hint(key);
    pin_for(table, pass, key, hint)
}

/// Pins the room that has the keys next below this one in its range.
pub(crate) fn pin_below(table: &OakTable, pass: &mut Pass, key: &[u8]) -> Result<RoomPin, Moved>
    requires own { IsPassOf table.now pass.old }
    requires key { IsKey key.now }
    requires free { (state pass.old).rooms.pin ≡ None }
    ensures own { Stays pass.old pass.new }
    ensures pinned { IfOk result (λ p. PinsOpen (sizes table.now) (call_of pass.old) p.room (EndsUnder key.now) (state pass.old) (state pass.new)) }
    ensures moved { IfErr result (λ _. FoundMoved (sizes table.now) (call_of pass.old) (EndsUnder key.now) (state pass.old) (state pass.new)) }
    ensures only { IfErr result (λ _. OnlyMeets (call_of pass.old) (state pass.old) (state pass.new)) }
    ensures alone { IfErr result (λ _. Runs (NeverAlone (state pass.old)) (state pass.old) (state pass.new)) }
{
    let hint = pass.hint_under(Some(key));
    pin_last(table, pass, Some(key), hint)
}
