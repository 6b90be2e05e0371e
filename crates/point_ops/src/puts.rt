//! Puts of a value.
ghost use Rattle.std.specs.Prelude.{◌≡◌, ◌<◌, ◌⊎◌, ℕ, List, IfOk, IfErr, None};
ghost use Rattle.oak_model.specs.declared.cells.CellCall.TheVariants.{Put, PutNew};
ghost use Rattle.oak_model.specs.Value.{IsValue};
ghost use Rattle.oak_model.specs.Key.{IsKey};
ghost use Rattle.arena_core.specs.HeldBlocks.{no_blocks};
ghost use Rattle.chunk_core.specs.PinnedRooms.{span_of};
ghost use Rattle.header_core.specs.HeaderHolds.{no_headers};
ghost use Rattle.oak_core.specs.AloneWords.{Runs};
ghost use Rattle.oak_core.specs.CallSteps.{Learns};
ghost use Rattle.oak_core.specs.Known.{knows_life};
ghost use Rattle.header_core.specs.Headers.{at_pin};
ghost use Rattle.oak_core.specs.Memory.{in_headers};
ghost use Rattle.oak_core.specs.MayWrite.{IsNewCall};
ghost use Rattle.oak_core.specs.Passes.{IsPassOf, Stays, state, key as sizes, call_of};
ghost use Rattle.oak_core.specs.PassState.{HoldsNothing, IsAlone};
ghost use Rattle.chunk_ops.specs.AskedRanges.{CoversKey};
ghost use Rattle.chunk_ops.specs.PinRecords.{HasRoomPin, OnlyLearns, WordsStay, room_pin};
ghost use Rattle.chunk_ops.specs.RoomPins.{HadMoment};
ghost use Rattle.value_ops.specs.Pinning.{KnowsLife};
ghost use Rattle.point_ops.specs.FoundWords.{FoundWord};
ghost use Rattle.point_ops.specs.Halting.{Halts, IsDeadAt, IsLockedOut};
ghost use Rattle.point_ops.specs.LoneLives.{RefusesLook};
ghost use Rattle.point_ops.specs.LonePuts.{PutsIn, PutsUnder};
ghost use Rattle.point_ops.specs.LonePutLeft.{PutLeavesBy, PutLeavesUnder};
ghost use Rattle.point_ops.specs.Parts.{Answers, KeepsUnder, WroteFits};
ghost use Rattle.point_ops.specs.PutKinds.{kind_by, put_by};
ghost use Rattle.point_ops.specs.Replies.{Refuses};
ghost use Rattle.point_ops.specs.LoneReplies.{SameAlone, WroteAlone};
ghost use Rattle.point_ops.specs.declared.halts.Halt.TheVariants as halts;

use crate::changing::overwrite;
use crate::halts::Halt;
use crate::inserting::insert;
use crate::lives::{Life, look_at};
use crate::spots::{Spot, look_up};
use chunk_ops::{RoomPin, pin_for, unpin};
use oak_core::{OakTable, Pass};
use oak_model::{Hint, Kind, Wrote};
use value_ops::Home;

/// Whether a put writes where the key is present.
#[derive(Clone, Copy)]
enum Puts {
    Always,
    IfAbsent,
}

impl Puts {
    /// The kind of its writes.
    fn kind(self) -> Kind
        ensures { result ≡ kind_by self }
    {
        match self {
            Puts::Always => Kind::Put,
            Puts::IfAbsent => Kind::PutNew,
        }
    }
}

/// The answer to a put of a key only if it is absent, where its entry names a life.
fn keep_life(table: &OakTable, pass: &mut Pass, home: Home) -> Result<Wrote, Halt>
    requires own { IsPassOf table.now pass.old }
    requires inside { home.header < (sizes table.now).headers }
    requires known { 0 < knows_life home.header home.generation (state pass.old).knowledge }
    requires none { (state pass.old).headers ≡ no_headers }
    ensures own { Stays pass.old pass.new }
    ensures only { OnlyLearns (call_of pass.old) (state pass.old) (state pass.new) }
    ensures kept { IfOk result (λ x. (v k : List ℕ) → KnowsLife home.header home.generation k
        (state pass.old).knowledge → Answers x (call_of pass.old) k (PutNew v) (state pass.old) (state pass.new)) }
    ensures refused { IfErr result (λ why. (why ≡ halts.Busy)
        × (FoundWord (sizes table.now) (call_of pass.old) (in_headers (at_pin home.header))
        (IsLockedOut home.generation) (state pass.old) (state pass.new) ⊎ FoundWord (sizes table.now)
        (call_of pass.old) (in_headers (at_pin home.header)) (IsDeadAt home.generation) (state pass.old)
        (state pass.new))) }
    ensures alone { IfOk result (λ _. Runs WordsStay (state pass.old) (state pass.new)) }
    ensures alone_left { IfOk result (λ x. (r : ℕ) (key value : List ℕ)
        → Runs (PutLeavesUnder x (sizes table.now) r key value) (state pass.old) (state pass.new)) }
    ensures alone_refused { IfErr result (λ _. Runs
        (RefusesLook (sizes table.now) home.header home.generation (state pass.old)) (state pass.old)
        (state pass.new)) }
{
    match look_at(table, pass, home) {
        Ok(Life::Live { at }) => Ok(Wrote::Kept { at }),
        Ok(Life::Dead { at: _ }) => Err(Halt::Busy),
        Err(halt) => Err(halt),
    }
}

/// Puts the value of the key in the pinned room, which covers it.
fn put_pinned(
    table: &OakTable,
    pass: &mut Pass,
    pin: &RoomPin,
    key: &[u8],
    value: &[u8],
    puts: Puts,
) -> Result<Wrote, Halt>
    requires own { IsPassOf table.now pass.old }
    requires key { IsKey key.now }
    requires covers { CoversKey key.now (span_of (room_pin (state pass.old))) }
    requires pinned { HasRoomPin (sizes table.now) pin.now.room (state pass.old) }
    requires claim { (state pass.old).rooms.claim ≡ None }
    requires blocks { (state pass.old).blocks ≡ no_blocks }
    requires headers { (state pass.old).headers ≡ no_headers }
    requires turn { IsNewCall (call_of pass.old) (state pass.old) }
    requires value { IsValue value.now }
    ensures own { Stays pass.old pass.new }
    ensures held { KeepsUnder (sizes table.now) pin.now.room (state pass.old) (state pass.new) }
    ensures got { IfOk result (λ x. Answers x (call_of pass.old) key.now (put_by puts value.now) (state pass.old) (state pass.new)) }
    ensures learns { IfErr result (λ _. Learns (call_of pass.old) (state pass.old) (state pass.new)) }
    ensures halted { IfErr result (λ why. Halts why (sizes table.now) (call_of pass.old) key.now
        (put_by puts value.now) (state pass.old) (state pass.new)) }
    ensures alone { Runs (PutsUnder result (sizes table.now) pin.now.room key.now value.now) (state pass.old) (state pass.new) }
    ensures alone_left { IfOk result (λ x. Runs (PutLeavesUnder x (sizes table.now) pin.now.room key.now value.now)
        (state pass.old) (state pass.new)) }
{
    match look_up(table, pass, pin, key) {
        Spot::Absent { entry, floor } => {
            match insert(table, pass, pin, entry, floor, key, value, puts.kind()) {
                Ok(at) => Ok(Wrote::New { at }),
                Err(halt) => Err(halt),
            }
        }
        Spot::Present { entry: _, home } => match puts {
            Puts::Always => match overwrite(table, pass, home, value) {
                Ok(at) => Ok(Wrote::Over { at }),
                Err(halt) => Err(halt),
            },
            Puts::IfAbsent => keep_life(table, pass, home),
        },
    }
}

/// Puts the value of a key: `New` where it was absent, `Over` where it was present. The answer is the cell's
/// at the place of the number `at` in the key's history, and `at` is the stamp of the write.
///
/// It is refused with `Busy` only where this key's header, its room's count or links, or its entry was found
/// at work by another pass; with `Moved`, where no room was found open with the key in its range; with `Crowded`,
/// where the room was found full, by no step of this call, and the key without an entry; with `NoBlock` and
/// `NoHeader`, where none was found free and the call needs one. Of the class that is lacking the call took
/// no block itself but the one for its value. After a refusal the map, and what the pass holds and wrote, is
/// as before. The pass holds nothing, and made no write in this turn.
pub fn try_put(
    table: &OakTable,
    pass: &mut Pass,
    hint: Hint,
    key: &[u8],
    value: &[u8],
) -> Result<Wrote, Halt>
    requires own { IsPassOf table.now pass.old }
    requires key { IsKey key.now }
    requires idle { HoldsNothing (state pass.old) }
    requires turn { IsNewCall (call_of pass.old) (state pass.old) }
    requires value { IsValue value.now }
    ensures own { Stays pass.old pass.new }
    ensures wrote { IfOk result (λ x. WroteFits x (call_of pass.old) key.now (Put value.now) (state pass.old) (state pass.new)) }
    ensures alone_reply { IfOk result (λ x. IsAlone (state pass.old) → WroteAlone x (sizes table.now) key.now
        (Put value.now) (state pass.old) (state pass.new)) }
    ensures ended { IfOk result (λ _. HadMoment (sizes table.now) (state pass.new)) }
    ensures refused { IfErr result (λ _. Refuses (call_of pass.old) (state pass.old) (state pass.new)) }
    ensures alone_same { IfErr result (λ _. SameAlone (sizes table.now) (state pass.old) (state pass.new)) }
    ensures halted { IfErr result (λ why. Halts why (sizes table.now) (call_of pass.old) key.now (Put value.now) (state pass.old) (state pass.new)) }
    ensures alone { Runs (PutsIn result (sizes table.now) key.now value.now) (state pass.old) (state pass.new) }
    ensures alone_left { IfOk result (λ x. Runs (PutLeavesBy x (sizes table.now) key.now value.now) (state pass.old) (state pass.new)) }
{
    let Ok(pin) = pin_for(table, pass, key, hint) else {
        return Err(Halt::Moved);
    };
    let wrote = put_pinned(table, pass, &pin, key, value, Puts::Always);
    unpin(table, pass, pin);
    wrote
}

/// Puts the value of a key if it is absent: `New` then, and `Kept` where it was present, with a number at
/// whose place it was. It is refused as [`try_put`] is, and never for a lock that it wants, since it wants
/// none. The pass holds nothing, and made no write in this turn.
pub fn try_put_if_absent(
    table: &OakTable,
    pass: &mut Pass,
    hint: Hint,
    key: &[u8],
    value: &[u8],
) -> Result<Wrote, Halt>
    requires own { IsPassOf table.now pass.old }
    requires key { IsKey key.now }
    requires idle { HoldsNothing (state pass.old) }
    requires turn { IsNewCall (call_of pass.old) (state pass.old) }
    requires value { IsValue value.now }
    ensures own { Stays pass.old pass.new }
    ensures wrote { IfOk result (λ x. WroteFits x (call_of pass.old) key.now (PutNew value.now) (state pass.old) (state pass.new)) }
    ensures alone_reply { IfOk result (λ x. IsAlone (state pass.old) → WroteAlone x (sizes table.now) key.now
        (PutNew value.now) (state pass.old) (state pass.new)) }
    ensures ended { IfOk result (λ _. HadMoment (sizes table.now) (state pass.new)) }
    ensures refused { IfErr result (λ _. Refuses (call_of pass.old) (state pass.old) (state pass.new)) }
    ensures alone_same { IfErr result (λ _. SameAlone (sizes table.now) (state pass.old) (state pass.new)) }
    ensures halted { IfErr result (λ why. Halts why (sizes table.now) (call_of pass.old) key.now (PutNew value.now)
        (state pass.old) (state pass.new)) }
    ensures alone { Runs (PutsIn result (sizes table.now) key.now value.now) (state pass.old) (state pass.new) }
    ensures alone_left { IfOk result (λ x. Runs (PutLeavesBy x (sizes table.now) key.now value.now) (state pass.old) (state pass.new)) }
{
    let Ok(pin) = pin_for(table, pass, key, hint) else {
        return Err(Halt::Moved);
    };
    let wrote = put_pinned(table, pass, &pin, key, value, Puts::IfAbsent);
    unpin(table, pass, pin);
    wrote
}
