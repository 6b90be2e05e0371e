//! Computes of a value by a recipe.
ghost use Rattle.std.specs.Prelude.{◌≡◌, ◌<◌, ◌⊎◌, ◌+◌, ◌-◌, ◌^◌, IfOk, IfErr, None};
ghost use Rattle.oak_model.specs.declared.cells.CellCall.TheVariants.{Compute, Upsert};
ghost use Rattle.oak_model.specs.declared.writes.Kind.TheVariants as kinds;
ghost use Rattle.oak_model.specs.Value.{IsValue};
ghost use Rattle.oak_model.specs.Key.{IsKey};
ghost use Rattle.arena_core.specs.HeldBlocks.{no_blocks};
ghost use Rattle.chunk_core.specs.PinnedRooms.{span_of};
ghost use Rattle.header_core.specs.HeaderHolds.{no_headers};
ghost use Rattle.oak_core.specs.CallSteps.{Learns};
ghost use Rattle.oak_core.specs.MayWrite.{IsNewCall};
ghost use Rattle.oak_core.specs.Passes.{IsPassOf, state, key as sizes, call_of};
ghost use Rattle.oak_core.specs.PassState.{HoldsNothing, IsAlone};
ghost use Rattle.chunk_ops.specs.AskedRanges.{CoversKey};
ghost use Rattle.chunk_ops.specs.PinRecords.{HasRoomPin, room_pin};
ghost use Rattle.chunk_ops.specs.RoomPins.{HadMoment};
ghost use Rattle.point_ops.specs.Halting.{Halts};
ghost use Rattle.point_ops.specs.LonePuts.{PutsIn, PutsUnder};
ghost use Rattle.point_ops.specs.LonePutLeft.{PutLeavesBy, PutLeavesUnder};
ghost use Rattle.point_ops.specs.Parts.{Answers, KeepsUnder, WroteFits};
ghost use Rattle.point_ops.specs.Counted.{Feeds, FeedsAlone, times_done};
ghost use Rattle.oak_core.specs.AloneWords.{Runs};
ghost use Rattle.chunk_ops.specs.AddsAlone.{Never};
ghost use Rattle.point_ops.specs.Replies.{Refuses};
ghost use Rattle.point_ops.specs.LoneLeft.{LeavesBy, LeavesUnder};
ghost use Rattle.point_ops.specs.declared.halts.Halt.TheVariants as halts;
ghost use Rattle.point_ops.specs.LoneReplies.{SameAlone, WroteAlone};
ghost use Rattle.oak_core.specs.Scratch.{StaysButScratch};

use crate::changing::compute_life;
use crate::halts::Halt;
use crate::inserting::insert;
use crate::removes::absent_at;
use crate::spots::{Spot, look_up};
use chunk_ops::{RoomPin, pin_for, unpin};
use oak_core::{OakTable, Pass};
use oak_model::{Hint, Kind, Wrote};
use value_ops::{NoLock, Recipe};

/// The kind of a write by a compute of what the recipe was told.
fn compute_kind(recipe: &Box<dyn Recipe + Send>) -> Kind
    ensures { result ≡ kinds.Compute (told_kind recipe.now) (told_argument recipe.now) }
{
    Kind::Compute {
        recipe: recipe.kind(),
        argument: recipe.argument(),
    }
}

/// The kind of a write by an upsert of what the recipe was told.
fn upsert_kind(recipe: &Box<dyn Recipe + Send>) -> Kind
    ensures { result ≡ kinds.Upsert (told_kind recipe.now) (told_argument recipe.now) }
{
    Kind::Upsert {
        recipe: recipe.kind(),
        argument: recipe.argument(),
    }
}

/// Computes the value of the key in the pinned room, which covers it.
fn compute_pinned(
    table: &OakTable,
    pass: &mut Pass,
    pin: &RoomPin,
    key: &[u8],
    recipe: &mut Box<dyn Recipe + Send>,
) -> Result<Wrote, Halt>
    requires own { IsPassOf table.now pass.old }
    requires key { IsKey key.now }
    requires covers { CoversKey key.now (span_of (room_pin (state pass.old))) }
    requires pinned { HasRoomPin (sizes table.now) pin.now.room (state pass.old) }
    requires claim { (state pass.old).rooms.claim ≡ None }
    requires blocks { (state pass.old).blocks ≡ no_blocks }
    requires headers { (state pass.old).headers ≡ no_headers }
    requires turn { IsNewCall (call_of pass.old) (state pass.old) }
    requires few { calls recipe.old < 2 ^ 64 - 1 }
    ensures own { StaysButScratch pass.old pass.new }
    ensures held { KeepsUnder (sizes table.now) pin.now.room (state pass.old) (state pass.new) }
    ensures got { IfOk result (λ x. Answers x (call_of pass.old) key.now
        (Compute (told_kind recipe.old) (told_argument recipe.old)) (state pass.old) (state pass.new)) }
    ensures learns { IfErr result (λ _. Learns (call_of pass.old) (state pass.old) (state pass.new)) }
    ensures halted { IfErr result (λ why. Halts why (sizes table.now) (call_of pass.old) key.now
        (Compute (told_kind recipe.old) (told_argument recipe.old)) (state pass.old) (state pass.new)) }
    ensures busy { IfErr result (λ why. why ≡ halts.Busy) }
    ensures alone { IfErr result (λ _. Runs Never (state pass.old) (state pass.new)) }
    ensures alone_left { IfOk result (λ x. Runs (LeavesUnder x (sizes table.now) pin.now.room key.now) (state pass.old) (state pass.new)) }
    ensures counted { calls recipe.new ≡ calls recipe.old + times_done result }
    ensures fed { Feeds result key.now (fed recipe.old) (fed recipe.new) (state pass.new) }
    ensures told { (told_kind recipe.new ≡ told_kind recipe.old) × (told_argument recipe.new ≡ told_argument recipe.old) }
{
    match look_up(table, pass, pin, key) {
        Spot::Absent { entry: _, floor } => Ok(Wrote::Absent { at: floor }),
        Spot::Present { entry: _, home } => {
            let kind = compute_kind(recipe);
            match compute_life(table, pass, home, recipe, kind) {
                Ok(at) => Ok(Wrote::Done { at }),
                Err(NoLock::Busy) => Err(Halt::Busy),
                Err(NoLock::Dead) => absent_at(table, pass, home),
            }
        }
    }
}

/// Computes the value of a key anew: `Done` where it was present, by exactly one call of the recipe on the
/// bytes that the key held right before the write, and `Absent` where it was not, with a number at whose
/// place it was. The recipe's count, and what it says of the bytes that it was fed, are as before in every
/// case but `Done`. It is refused only with `Busy` and `Moved`, with the causes of [`try_put`](crate::try_put), and never
/// where the pass is alone. The pass holds nothing, and made no write in this turn.
pub fn try_compute(
    table: &OakTable,
    pass: &mut Pass,
    hint: Hint,
    key: &[u8],
    recipe: &mut Box<dyn Recipe + Send>,
) -> Result<Wrote, Halt>
    requires own { IsPassOf table.now pass.old }
    requires key { IsKey key.now }
    requires idle { HoldsNothing (state pass.old) }
    requires turn { IsNewCall (call_of pass.old) (state pass.old) }
    requires few { calls recipe.old < 2 ^ 64 - 1 }
    ensures own { StaysButScratch pass.old pass.new }
    ensures wrote { IfOk result (λ x. WroteFits x (call_of pass.old) key.now
        (Compute (told_kind recipe.old) (told_argument recipe.old)) (state pass.old) (state pass.new)) }
    ensures alone_reply { IfOk result (λ x. IsAlone (state pass.old) → WroteAlone x (sizes table.now) key.now
        (Compute (told_kind recipe.old) (told_argument recipe.old)) (state pass.old) (state pass.new)) }
    ensures refused { IfErr result (λ _. Refuses (call_of pass.old) (state pass.old) (state pass.new)) }
    ensures alone_same { IfErr result (λ _. SameAlone (sizes table.now) (state pass.old) (state pass.new)) }
    ensures halted { IfErr result (λ why. Halts why (sizes table.now) (call_of pass.old) key.now
        (Compute (told_kind recipe.old) (told_argument recipe.old)) (state pass.old) (state pass.new)) }
    ensures either { IfErr result (λ why. (why ≡ halts.Busy) ⊎ (why ≡ halts.Moved)) }
    ensures alone { IfErr result (λ _. Runs Never (state pass.old) (state pass.new)) }
    ensures alone_left { IfOk result (λ x. Runs (LeavesBy x (sizes table.now) key.now) (state pass.old) (state pass.new)) }
    ensures counted { calls recipe.new ≡ calls recipe.old + times_done result }
    ensures fed { Feeds result key.now (fed recipe.old) (fed recipe.new) (state pass.new) }
    ensures alone_fed { IsAlone (state pass.old) → FeedsAlone result key.now (fed recipe.new) (state pass.old) }
    ensures told { (told_kind recipe.new ≡ told_kind recipe.old) × (told_argument recipe.new ≡ told_argument recipe.old) }
{
    let Ok(pin) = pin_for(table, pass, key, hint) else {
        return Err(Halt::Moved);
    };
    let wrote = compute_pinned(table, pass, &pin, key, recipe);
    unpin(table, pass, pin);
    wrote
}

/// Computes the value of the key in the pinned room, which covers it, or inserts one.
fn upsert_pinned(
    table: &OakTable,
    pass: &mut Pass,
    pin: &RoomPin,
    key: &[u8],
    value: &[u8],
    recipe: &mut Box<dyn Recipe + Send>,
) -> Result<Wrote, Halt>
    requires own { IsPassOf table.now pass.old }
    requires key { IsKey key.now }
    requires covers { CoversKey key.now (span_of (room_pin (state pass.old))) }
    requires pinned { HasRoomPin (sizes table.now) pin.now.room (state pass.old) }
    requires claim { (state pass.old).rooms.claim ≡ None }
    requires blocks { (state pass.old).blocks ≡ no_blocks }
    requires headers { (state pass.old).headers ≡ no_headers }
    requires turn { IsNewCall (call_of pass.old) (state pass.old) }
    requires value { IsValue value.now }
    requires few { calls recipe.old < 2 ^ 64 - 1 }
    ensures own { StaysButScratch pass.old pass.new }
    ensures held { KeepsUnder (sizes table.now) pin.now.room (state pass.old) (state pass.new) }
    ensures got { IfOk result (λ x. Answers x (call_of pass.old) key.now
        (Upsert value.now (told_kind recipe.old) (told_argument recipe.old)) (state pass.old) (state pass.new)) }
    ensures learns { IfErr result (λ _. Learns (call_of pass.old) (state pass.old) (state pass.new)) }
    ensures halted { IfErr result (λ why. Halts why (sizes table.now) (call_of pass.old) key.now
        (Upsert value.now (told_kind recipe.old) (told_argument recipe.old)) (state pass.old) (state pass.new)) }
    ensures alone { Runs (PutsUnder result (sizes table.now) pin.now.room key.now value.now) (state pass.old) (state pass.new) }
    ensures alone_left { IfOk result (λ x. Runs (PutLeavesUnder x (sizes table.now) pin.now.room key.now value.now)
        (state pass.old) (state pass.new)) }
    ensures counted { calls recipe.new ≡ calls recipe.old + times_done result }
    ensures fed { Feeds result key.now (fed recipe.old) (fed recipe.new) (state pass.new) }
    ensures told { (told_kind recipe.new ≡ told_kind recipe.old) × (told_argument recipe.new ≡ told_argument recipe.old) }
{
    let kind = upsert_kind(recipe);
    match look_up(table, pass, pin, key) {
        Spot::Absent { entry, floor } => {
            match insert(table, pass, pin, entry, floor, key, value, kind) {
                Ok(at) => Ok(Wrote::New { at }),
                Err(halt) => Err(halt),
            }
        }
        Spot::Present { entry: _, home } => match compute_life(table, pass, home, recipe, kind) {
            Ok(at) => Ok(Wrote::Done { at }),
            Err(_) => Err(Halt::Busy),
        },
    }
}

/// Computes the value of a key anew, as [`try_compute`] does, or inserts one where it was absent: `Done` or
/// `New`. The recipe's count is one more exactly after `Done`, and then it was fed the bytes that the key held
/// right before the write. It is refused as [`try_put`](crate::try_put) is. The
/// pass holds nothing, and made no write in this turn.
pub fn try_upsert(
    table: &OakTable,
    pass: &mut Pass,
    hint: Hint,
    key: &[u8],
    value: &[u8],
    recipe: &mut Box<dyn Recipe + Send>,
) -> Result<Wrote, Halt>
    requires own { IsPassOf table.now pass.old }
    requires key { IsKey key.now }
    requires idle { HoldsNothing (state pass.old) }
    requires turn { IsNewCall (call_of pass.old) (state pass.old) }
    requires value { IsValue value.now }
    requires few { calls recipe.old < 2 ^ 64 - 1 }
    ensures own { StaysButScratch pass.old pass.new }
    ensures wrote { IfOk result (λ x. WroteFits x (call_of pass.old) key.now
        (Upsert value.now (told_kind recipe.old) (told_argument recipe.old)) (state pass.old) (state pass.new)) }
    ensures alone_reply { IfOk result (λ x. IsAlone (state pass.old) → WroteAlone x (sizes table.now) key.now
        (Upsert value.now (told_kind recipe.old) (told_argument recipe.old)) (state pass.old) (state pass.new)) }
    ensures ended { IfOk result (λ _. HadMoment (sizes table.now) (state pass.new)) }
    ensures refused { IfErr result (λ _. Refuses (call_of pass.old) (state pass.old) (state pass.new)) }
    ensures alone_same { IfErr result (λ _. SameAlone (sizes table.now) (state pass.old) (state pass.new)) }
    ensures halted { IfErr result (λ why. Halts why (sizes table.now) (call_of pass.old) key.now
        (Upsert value.now (told_kind recipe.old) (told_argument recipe.old)) (state pass.old) (state pass.new)) }
    ensures alone { Runs (PutsIn result (sizes table.now) key.now value.now) (state pass.old) (state pass.new) }
    ensures alone_left { IfOk result (λ x. Runs (PutLeavesBy x (sizes table.now) key.now value.now) (state pass.old) (state pass.new)) }
    ensures counted { calls recipe.new ≡ calls recipe.old + times_done result }
    ensures fed { Feeds result key.now (fed recipe.old) (fed recipe.new) (state pass.new) }
    ensures alone_fed { IsAlone (state pass.old) → FeedsAlone result key.now (fed recipe.new) (state pass.old) }
    ensures told { (told_kind recipe.new ≡ told_kind recipe.old) × (told_argument recipe.new ≡ told_argument recipe.old) }
{
    let Ok(pin) = pin_for(table, pass, key, hint) else {
        return Err(Halt::Moved);
    };
    let wrote = upsert_pinned(table, pass, &pin, key, value, recipe);
    unpin(table, pass, pin);
    wrote
}
