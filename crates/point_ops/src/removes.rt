//! Removals.
ghost use Rattle.std.specs.Prelude.{◌≡◌, ◌<◌, ◌⊎◌, ℕ, List, IfOk, IfErr, None, true};
ghost use Rattle.oak_model.specs.declared.cells.CellCall.{CellCall};
ghost use Rattle.oak_model.specs.declared.cells.CellCall.TheVariants.{Remove};
ghost use Rattle.oak_model.specs.declared.cells.CellReply.TheVariants as replies;
ghost use Rattle.oak_model.specs.Cell.{reply_of};
ghost use Rattle.oak_model.specs.Key.{IsKey};
ghost use Rattle.oak_model.specs.KeyNumber.{key_number};
ghost use Rattle.pin_word.specs.PinWord.{state_of};
ghost use Rattle.arena_core.specs.HeldBlocks.{no_blocks};
ghost use Rattle.chunk_core.specs.PinnedRooms.{span_of};
ghost use Rattle.header_core.specs.declared.states.TheConstants.{LIVE};
ghost use Rattle.header_core.specs.HeaderHolds.{no_headers};
ghost use Rattle.header_core.specs.Headers.{at_pin};
ghost use Rattle.oak_core.specs.CallSteps.{Learns};
ghost use Rattle.oak_core.specs.KeyReads.{home_of};
ghost use Rattle.oak_core.specs.Known.{knows_life};
ghost use Rattle.oak_core.specs.LastReads.{NotPast};
ghost use Rattle.oak_core.specs.LifeKeys.{loaded_in};
ghost use Rattle.oak_core.specs.Memory.{in_headers};
ghost use Rattle.oak_core.specs.MayWrite.{IsNewCall};
ghost use Rattle.oak_core.specs.Passes.{IsPassOf, Stays, state, key as sizes, call_of};
ghost use Rattle.oak_core.specs.PassState.{HoldsNothing, IsAlone};
ghost use Rattle.chunk_ops.specs.AskedRanges.{CoversKey};
ghost use Rattle.chunk_ops.specs.PinRecords.{HasRoomPin, OnlyLearns, room_pin};
ghost use Rattle.value_ops.specs.Pinning.{KnowsLife};
ghost use Rattle.point_ops.specs.Counted.{times_done};
ghost use Rattle.point_ops.specs.FoundWords.{FoundWord};
ghost use Rattle.point_ops.specs.Halting.{Halts, IsLockedOut};
ghost use Rattle.point_ops.specs.Parts.{Answers, KeepsUnder, WroteFits};
ghost use Rattle.oak_core.specs.AloneWords.{Runs};
ghost use Rattle.chunk_ops.specs.AddsAlone.{Never};
ghost use Rattle.point_ops.specs.Replies.{Refuses};
ghost use Rattle.point_ops.specs.LoneLeft.{LeavesBy, LeavesUnder};
ghost use Rattle.point_ops.specs.LoneReplies.{SameAlone, WroteAlone};
ghost use Rattle.point_ops.specs.declared.halts.Halt.TheVariants as halts;

use crate::changing::remove_life;
use crate::halts::Halt;
use crate::lives::{Life, look_at};
use crate::spots::{Spot, look_up};
use chunk_ops::{RoomPin, pin_for, unpin};
use oak_core::{OakTable, Pass};
use oak_model::{Hint, Wrote};
use value_ops::{Home, NoLock};

/// The answer of a call that needs a present key, where the lock of its header found the life dead: the
/// stamp of the removal is loaded under a pin. A header that is live by then has risen.
pub(crate) fn absent_at(table: &OakTable, pass: &mut Pass, home: Home) -> Result<Wrote, Halt>
    requires own { IsPassOf table.now pass.old }
    requires inside { home.header < (sizes table.now).headers }
    requires known { 0 < knows_life home.header home.generation (state pass.old).knowledge }
    requires none { (state pass.old).headers ≡ no_headers }
    ensures own { Stays pass.old pass.new }
    ensures only { OnlyLearns (call_of pass.old) (state pass.old) (state pass.new) }
    ensures absent { IfOk result (λ x. (ask : CellCall) (k : List ℕ) → reply_of None ask ≡ replies.Absent
        → KnowsLife home.header home.generation k (state pass.old).knowledge → NotPast (key_number k)
        (home_of home.header home.generation) (state pass.old).knowledge
        → loaded_in (call_of pass.old) home.header home.generation (state pass.old).knowledge.loaded ≡ true
        → Answers x (call_of pass.old) k ask (state pass.old) (state pass.new)) }
    ensures undone { times_done result ≡ 0 }
    ensures refused { IfErr result (λ why. (why ≡ halts.Busy)
        × (FoundWord (sizes table.now) (call_of pass.old) (in_headers (at_pin home.header))
        (IsLockedOut home.generation) (state pass.old) (state pass.new) ⊎ FoundWord (sizes table.now)
        (call_of pass.old) (in_headers (at_pin home.header)) (λ n. state_of n ≡ LIVE) (state pass.old)
        (state pass.new))) }
{
    match look_at(table, pass, home) {
        Ok(Life::Dead { at }) => Ok(Wrote::Absent { at }),
        Ok(Life::Live { at: _ }) => Err(Halt::Busy),
        Err(halt) => Err(halt),
    }
}

/// Removes the key from the pinned room, which covers it.
fn remove_pinned(
    table: &OakTable,
    pass: &mut Pass,
    pin: &RoomPin,
    key: &[u8],
) -> Result<Wrote, Halt>
    requires own { IsPassOf table.now pass.old }
    requires key { IsKey key.now }
    requires covers { CoversKey key.now (span_of (room_pin (state pass.old))) }
    requires pinned { HasRoomPin (sizes table.now) pin.now.room (state pass.old) }
    requires claim { (state pass.old).rooms.claim ≡ None }
    requires blocks { (state pass.old).blocks ≡ no_blocks }
    requires headers { (state pass.old).headers ≡ no_headers }
    requires turn { IsNewCall (call_of pass.old) (state pass.old) }
    ensures own { Stays pass.old pass.new }
    ensures held { KeepsUnder (sizes table.now) pin.now.room (state pass.old) (state pass.new) }
    ensures got { IfOk result (λ x. Answers x (call_of pass.old) key.now Remove (state pass.old) (state pass.new)) }
    ensures learns { IfErr result (λ _. Learns (call_of pass.old) (state pass.old) (state pass.new)) }
    ensures halted { IfErr result (λ why. Halts why (sizes table.now) (call_of pass.old) key.now Remove (state pass.old) (state pass.new)) }
    ensures busy { IfErr result (λ why. why ≡ halts.Busy) }
    ensures alone { IfErr result (λ _. Runs Never (state pass.old) (state pass.new)) }
    ensures alone_left { IfOk result (λ x. Runs (LeavesUnder x (sizes table.now) pin.now.room key.now) (state pass.old) (state pass.new)) }
{
    match look_up(table, pass, pin, key) {
        Spot::Absent { entry: _, floor } => Ok(Wrote::Absent { at: floor }),
        Spot::Present { entry, home } => match remove_life(table, pass, pin, entry, home) {
            Ok(at) => Ok(Wrote::Removed { at }),
            Err(NoLock::Busy) => Err(Halt::Busy),
            Err(NoLock::Dead) => absent_at(table, pass, home),
        },
    }
}

/// Removes a key: `Removed` where it was present, with the stamp of the removal, and `Absent` where it was
/// not, with a number at whose place it was. The value's block and header are given back, and the key's entry
/// stays, with the stamp as its floor. It is refused only with `Busy` and `Moved`, with the causes of
/// [`try_put`](crate::try_put), and never where the pass is alone. The pass holds nothing, and made no write
/// in this turn.
pub fn try_remove(table: &OakTable, pass: &mut Pass, hint: Hint, key: &[u8]) -> Result<Wrote, Halt>
    requires own { IsPassOf table.now pass.old }
    requires key { IsKey key.now }
    requires idle { HoldsNothing (state pass.old) }
    requires turn { IsNewCall (call_of pass.old) (state pass.old) }
    ensures own { Stays pass.old pass.new }
    ensures wrote { IfOk result (λ x. WroteFits x (call_of pass.old) key.now Remove (state pass.old) (state pass.new)) }
    ensures alone_reply { IfOk result (λ x. IsAlone (state pass.old) → WroteAlone x (sizes table.now) key.now Remove
        (state pass.old) (state pass.new)) }
    ensures refused { IfErr result (λ _. Refuses (call_of pass.old) (state pass.old) (state pass.new)) }
    ensures alone_same { IfErr result (λ _. SameAlone (sizes table.now) (state pass.old) (state pass.new)) }
    ensures halted { IfErr result (λ why. Halts why (sizes table.now) (call_of pass.old) key.now Remove (state pass.old) (state pass.new)) }
    ensures either { IfErr result (λ why. (why ≡ halts.Busy) ⊎ (why ≡ halts.Moved)) }
    ensures alone { IfErr result (λ _. Runs Never (state pass.old) (state pass.new)) }
    ensures alone_left { IfOk result (λ x. Runs (LeavesBy x (sizes table.now) key.now) (state pass.old) (state pass.new)) }
{
    let Ok(pin) = pin_for(table, pass, key, hint) else {
        return Err(Halt::Moved);
    };
    let wrote = remove_pinned(table, pass, &pin, key);
    unpin(table, pass, pin);
    wrote
}
