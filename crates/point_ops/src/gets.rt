//! A look at a key.
ghost use Rattle.std.specs.Prelude.{◌≡◌, ◌<◌, ◌⊎◌, IfOk, IfErr, Some, true};
ghost use Rattle.oak_model.specs.declared.cells.CellCall.TheVariants.{Get};
ghost use Rattle.oak_model.specs.Key.{IsKey};
ghost use Rattle.oak_model.specs.KeyNumber.{key_number};
ghost use Rattle.chunk_core.specs.PinnedRooms.{span_of};
ghost use Rattle.header_core.specs.HeaderHolds.{no_headers};
ghost use Rattle.header_core.specs.Headers.{at_pin};
ghost use Rattle.oak_core.specs.KeyReads.{home_of};
ghost use Rattle.oak_core.specs.Known.{knows_life};
ghost use Rattle.oak_core.specs.LastReads.{NotPast};
ghost use Rattle.oak_core.specs.LifeKeys.{key_in_loaded, loaded_in};
ghost use Rattle.oak_core.specs.Memory.{in_headers};
ghost use Rattle.oak_core.specs.Passes.{IsPassOf, Stays, state, key as sizes, call_of};
ghost use Rattle.oak_core.specs.PassState.{HoldsNothing, IsAlone};
ghost use Rattle.oak_core.specs.QuietSteps.{Quiet};
ghost use Rattle.chunk_ops.specs.AskedRanges.{CoversKey};
ghost use Rattle.chunk_ops.specs.PinRecords.{HasRoomPin, OnlyLearns, UnderPin, room_pin};
ghost use Rattle.value_ops.specs.Pinning.{KnowsLife};
ghost use Rattle.point_ops.specs.FoundWords.{FoundWord};
ghost use Rattle.point_ops.specs.Gets.{Gets, GotFits};
ghost use Rattle.point_ops.specs.Halting.{Halts, IsLockedOut};
ghost use Rattle.oak_core.specs.AloneWords.{Runs};
ghost use Rattle.point_ops.specs.LoneLives.{GetsIn, RefusesLook};
ghost use Rattle.point_ops.specs.Replies.{Refuses};
ghost use Rattle.point_ops.specs.LoneReplies.{GotAlone, SameAlone};
ghost use Rattle.point_ops.specs.declared.halts.Halt.TheVariants as halts;

use crate::halts::Halt;
use crate::lives::{Life, look_at};
use crate::spots::{Spot, look_up};
use chunk_ops::{RoomPin, pin_for, unpin};
use oak_core::{OakTable, Pass};
use oak_model::Hint;
use value_ops::{Home, ValueView};

/// What a key holds: nothing at the number `at`, or a value of which there is a view.
#[derive(Debug, Drop)]
pub enum Got {
    Absent { at: u64 },
    View(ValueView),
}

/// Looks at the life that the key's entry named.
fn get_life(table: &OakTable, pass: &mut Pass, key: &[u8], home: Home) -> Result<Got, Halt>
    requires own { IsPassOf table.now pass.old }
    requires key { IsKey key.now }
    requires inside { home.header < (sizes table.now).headers }
    requires known { 0 < knows_life home.header home.generation (state pass.old).knowledge }
    requires life { KnowsLife home.header home.generation key.now (state pass.old).knowledge }
    requires loaded { key_in_loaded home.header home.generation (state pass.old).knowledge.loaded ≡ Some key.now }
    requires last { NotPast (key_number key.now) (home_of home.header home.generation) (state pass.old).knowledge }
    requires named { loaded_in (call_of pass.old) home.header home.generation
        (state pass.old).knowledge.loaded ≡ true }
    requires none { (state pass.old).headers ≡ no_headers }
    ensures own { Stays pass.old pass.new }
    ensures only { OnlyLearns (call_of pass.old) (state pass.old) (state pass.new) }
    ensures got { IfOk result (λ x. Gets x (sizes table.now) key.now (state pass.old) (state pass.new)) }
    ensures refused { IfErr result (λ why. (why ≡ halts.Busy) × FoundWord (sizes table.now) (call_of pass.old)
        (in_headers (at_pin home.header)) (IsLockedOut home.generation) (state pass.old) (state pass.new)) }
    ensures alone { IfErr result (λ _. Runs (RefusesLook (sizes table.now) home.header home.generation
        (state pass.old)) (state pass.old) (state pass.new)) }
{
    match look_at(table, pass, home) {
        Ok(Life::Live { at }) => Ok(Got::View(ValueView::make(key, home, at))),
        Ok(Life::Dead { at }) => Ok(Got::Absent { at }),
        Err(halt) => Err(halt),
    }
}

/// Looks for the key in the pinned room, which covers it.
fn get_pinned(table: &OakTable, pass: &mut Pass, pin: &RoomPin, key: &[u8]) -> Result<Got, Halt>
    requires own { IsPassOf table.now pass.old }
    requires key { IsKey key.now }
    requires covers { CoversKey key.now (span_of (room_pin (state pass.old))) }
    requires pinned { HasRoomPin (sizes table.now) pin.now.room (state pass.old) }
    requires none { (state pass.old).headers ≡ no_headers }
    ensures own { Stays pass.old pass.new }
    ensures under { UnderPin (sizes table.now) (call_of pass.old) pin.now.room (state pass.old) (state pass.new) }
    ensures quiet { Quiet (state pass.old) (state pass.new) }
    ensures got { IfOk result (λ x. Gets x (sizes table.now) key.now (state pass.old) (state pass.new)) }
    ensures halted { IfErr result (λ why. Halts why (sizes table.now) (call_of pass.old) key.now Get (state pass.old) (state pass.new)) }
    ensures busy { IfErr result (λ why. why ≡ halts.Busy) }
    ensures alone { Runs (GetsIn result) (state pass.old) (state pass.new) }
{
    match look_up(table, pass, pin, key) {
        Spot::Absent { entry: _, floor } => Ok(Got::Absent { at: floor }),
        Spot::Present { entry: _, home } => get_life(table, pass, key, home),
    }
}

/// Looks for a key. A present one is answered by a view of its life. The answer is the cell's at the place
/// of the number `at` in the key's history. It is refused only with `Busy`, where the key's header was
/// found locked or of another generation than its entry said, or `Moved`, where each room was found in this
/// call not open, or open with a range without the key. A pass that is alone is never refused, and leaves
/// the words of the table as they were. In every case the call only loads words, pins, and undoes its pins,
/// so it takes no lock. The pass holds nothing.
pub fn try_get(table: &OakTable, pass: &mut Pass, hint: Hint, key: &[u8]) -> Result<Got, Halt>
    requires own { IsPassOf table.now pass.old }
    requires key { IsKey key.now }
    requires idle { HoldsNothing (state pass.old) }
    ensures own { Stays pass.old pass.new }
    ensures quiet { Quiet (state pass.old) (state pass.new) }
    ensures got { IfOk result (λ x. GotFits x (sizes table.now) (call_of pass.old) key.now (state pass.old) (state pass.new)) }
    ensures alone_reply { IfOk result (λ x. IsAlone (state pass.old) → GotAlone x (sizes table.now) key.now (state pass.old) (state pass.new)) }
    ensures refused { IfErr result (λ _. Refuses (call_of pass.old) (state pass.old) (state pass.new)) }
    ensures alone_same { IfErr result (λ _. SameAlone (sizes table.now) (state pass.old) (state pass.new)) }
    ensures halted { IfErr result (λ why. Halts why (sizes table.now) (call_of pass.old) key.now Get (state pass.old) (state pass.new)) }
    ensures either { IfErr result (λ why. (why ≡ halts.Busy) ⊎ (why ≡ halts.Moved)) }
    ensures alone { Runs (GetsIn result) (state pass.old) (state pass.new) }
{
    let Ok(pin) = pin_for(table, pass, key, hint) else {
        return Err(Halt::Moved);
    };
    let got = get_pinned(table, pass, &pin, key);
    unpin(table, pass, pin);
    got
}
