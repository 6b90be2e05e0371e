//! A look at a key that keeps the pin of the header of its value.
ghost use Rattle.std.specs.Prelude.{◌≡◌, ◌⊎◌, IfOk, IfErr};
ghost use Rattle.oak_model.specs.declared.cells.CellCall.TheVariants.{Get};
ghost use Rattle.oak_model.specs.Key.{IsKey};
ghost use Rattle.chunk_core.specs.PinnedRooms.{span_of};
ghost use Rattle.header_core.specs.HeaderHolds.{no_headers};
ghost use Rattle.oak_core.specs.AloneWords.{Runs};
ghost use Rattle.oak_core.specs.Passes.{IsPassOf, Stays, state, key as sizes, call_of};
ghost use Rattle.oak_core.specs.PassState.{HoldsNothing};
ghost use Rattle.oak_core.specs.QuietSteps.{Quiet};
ghost use Rattle.chunk_ops.specs.AskedRanges.{CoversKey};
ghost use Rattle.chunk_ops.specs.PinRecords.{HasRoomPin, KeepsPin, UnderPin, room_pin};
ghost use Rattle.point_ops.specs.Halting.{Halts};
ghost use Rattle.point_ops.specs.LoneReplies.{SameAlone};
ghost use Rattle.point_ops.specs.Pins.{PinnedFits, PinsIn, PinsUnder};
ghost use Rattle.point_ops.specs.Replies.{Refuses};
ghost use Rattle.point_ops.specs.declared.halts.Halt.TheVariants as halts;

use crate::halts::Halt;
use crate::lives::{Pinned, pin_life};
use crate::spots::{Spot, look_up};
use chunk_ops::{RoomPin, pin_for, unpin};
use oak_core::{OakTable, Pass};
use oak_model::Hint;

/// Looks for the key in the pinned room, which covers it, and pins the header of its value where it has one.
fn pin_under(table: &OakTable, pass: &mut Pass, pin: &RoomPin, key: &[u8]) -> Result<Pinned, Halt>
    requires own { IsPassOf table.now pass.old }
    requires key { IsKey key.now }
    requires covers { CoversKey key.now (span_of (room_pin (state pass.old))) }
    requires pinned { HasRoomPin (sizes table.now) pin.now.room (state pass.old) }
    requires none { (state pass.old).headers ≡ no_headers }
    ensures own { Stays pass.old pass.new }
    ensures room { KeepsPin (sizes table.now) pin.now.room (state pass.old) (state pass.new) }
    ensures quiet { Quiet (state pass.old) (state pass.new) }
    ensures found { IfOk result (λ x. PinsUnder x (sizes table.now) (call_of pass.old) pin.now.room key.now (state pass.old) (state pass.new)) }
    ensures refused { IfErr result (λ why. (why ≡ halts.Busy) × UnderPin (sizes table.now) (call_of pass.old) pin.now.room
        (state pass.old) (state pass.new) × Halts why (sizes table.now) (call_of pass.old) key.now Get (state pass.old)
        (state pass.new)) }
    ensures alone { Runs (PinsIn result (sizes table.now)) (state pass.old) (state pass.new) }
{
    match look_up(table, pass, pin, key) {
        Spot::Absent { entry: _, floor } => Ok(Pinned::Absent { at: floor }),
        Spot::Present { entry: _, home } => pin_life(table, pass, home),
    }
}

/// Looks for a key as [`try_get`](crate::try_get) does, and keeps the pin of the header of its value, where it has one, so
/// that the value is read under the very pin by which it was found live. What the key held then is told by that reading.
/// An absent key is answered as there, and the refusals are those, with the same causes. In every case the call only
/// loads words, pins, and undoes pins but that one, so it takes no lock. The pass holds nothing at the call.
pub fn try_pin(table: &OakTable, pass: &mut Pass, hint: Hint, key: &[u8]) -> Result<Pinned, Halt>
    requires own { IsPassOf table.now pass.old }
    requires key { IsKey key.now }
    requires idle { HoldsNothing (state pass.old) }
    ensures own { Stays pass.old pass.new }
    ensures quiet { Quiet (state pass.old) (state pass.new) }
    ensures found { IfOk result (λ x. PinnedFits x (sizes table.now) (call_of pass.old) key.now (state pass.old) (state pass.new)) }
    ensures refused { IfErr result (λ _. Refuses (call_of pass.old) (state pass.old) (state pass.new)) }
    ensures alone_same { IfErr result (λ _. SameAlone (sizes table.now) (state pass.old) (state pass.new)) }
    ensures halted { IfErr result (λ why. Halts why (sizes table.now) (call_of pass.old) key.now Get (state pass.old) (state pass.new)) }
    ensures either { IfErr result (λ why. (why ≡ halts.Busy) ⊎ (why ≡ halts.Moved)) }
    ensures alone { Runs (PinsIn result (sizes table.now)) (state pass.old) (state pass.new) }
{
    let Ok(pin) = pin_for(table, pass, key, hint) else {
        return Err(Halt::Moved);
    };
    let found = pin_under(table, pass, &pin, key);
    unpin(table, pass, pin);
    found
}
