//! A chunk that a call holds alone: found by a key, compacted, and opened again.
ghost use Rattle.std.specs.Prelude.{◌≡◌, ℕ, ◌<◌, List, IfErr, IfOk, IfSome, IfNone, MatchBool, None, true, false};
ghost use Rattle.oak_model.specs.Key.{IsKey};
ghost use Rattle.oak_model.specs.KeyNumber.{key_number};
ghost use Rattle.chunk_core.specs.declared.holds.HeldRoom.{HeldRoom};
ghost use Rattle.chunk_core.specs.declared.holds.MovingRange.{MovingRange};
ghost use Rattle.chunk_core.specs.declared.holds.RoomCopy.{RoomCopy};
ghost use Rattle.chunk_core.specs.ChainedRooms.{IsChained};
ghost use Rattle.chunk_core.specs.Spans.{within};
ghost use Rattle.oak_core.specs.AloneWords.{Runs};
ghost use Rattle.oak_core.specs.Passes.{IsPassOf, Stays, state, key as sizes, call_of};
ghost use Rattle.oak_core.specs.Scratch.{StaysButSlots};
ghost use Rattle.chunk_ops.specs.AskedRanges.{CoversKey};
ghost use Rattle.chunk_ops.specs.LoneRooms.{NeverElsewhere};
ghost use Rattle.chunk_ops.specs.PinRecords.{HasRoomPin, OnlyMeets};
ghost use Rattle.chunk_ops.specs.RoomPins.{FoundMoved, HadMoment, PinsOpen};
ghost use Rattle.chunk_ops.specs.Stored.{IsStored};
ghost use Rattle.rebalance.specs.Busy.{IsBusyFor, SweepsOff};
ghost use Rattle.rebalance.specs.Copies.{AllLinked, copy_span};
ghost use Rattle.rebalance.specs.Chunks.{ComesBack, HoldsFor, HoldsFront, HoldsPinned, LosesPinned, OpensFront};
ghost use Rattle.rebalance.specs.HeldTables.{WorksOnRooms};
ghost use Rattle.rebalance.specs.Merging.{HoldsCompacted};

use crate::fronts::compact_front;
use crate::held_table::HeldTable;
use crate::ranges::has_key;
use crate::room_steps::{freeze_pinned, hold_frozen, open_held};
use chunk_ops::{Moved, RoomPin, StoredKey, pin_for, unpin};
use oak_core::{OakTable, Pass};
use oak_model::GREATEST_ENTRIES;

/// Freezes the pinned room, undoes the pin and holds the room alone. `false` comes only where the room was
/// busy: another pass had frozen it, or at each of so many looks at its pin word that had changed before it was
/// frozen, or pins stood on it once it was; the pin is undone then too, and the room is open again if the call
/// froze it.
fn hold_pinned(table: &OakTable, pass: &mut Pass, pin: RoomPin, looks: u32) -> bool
    requires own { IsPassOf table.now pass.old }
    requires pinned { HasRoomPin (sizes table.now) pin.room (state pass.old) }
    requires claim { (state pass.old).rooms.claim ≡ None }
    requires some { 0 < looks }
    ensures own { Stays pass.old pass.new }
    ensures holds { result ≡ true → (w : RoomCopy) × (g : MovingRange) × HoldsPinned (sizes table.now)
        (call_of pass.old) pin.room w g (state pass.old) (state pass.new) }
    ensures loses { result ≡ false → LosesPinned (sizes table.now) (call_of pass.old) looks pin.room (state pass.old) (state pass.new) }
{
    let room = pin.room;
    if !freeze_pinned(table, pass, &pin, looks) {
        unpin(table, pass, pin);
        return false;
    }
    unpin(table, pass, pin);
    hold_frozen(table, pass, room, looks)
}

/// Whether the range of the front room has the key.
fn front_has(table: &OakTable, pass: &mut Pass, room: u32, key: &StoredKey) -> bool
    requires own { IsPassOf table.now pass.old }
    requires front { (w : RoomCopy) × (g : MovingRange) × (hs : List HeldRoom) × (gs : List MovingRange)
        × HoldsFront (sizes table.now) room w g hs gs (state pass.old) }
    ensures own { Stays pass.old pass.new }
    ensures works { WorksOnRooms (sizes table.now) (call_of pass.old) (state pass.old) (state pass.new) }
    ensures rooms { (state pass.new).rooms ≡ (state pass.old).rooms }
    ensures has { (w : RoomCopy) (g : MovingRange) (hs : List HeldRoom) (gs : List MovingRange) (b : List ℕ)
        → HoldsFront (sizes table.now) room w g hs gs (state pass.old) → IsStored key.now b
        → MatchBool result (within (copy_span w) (key_number b) ≡ 1) (within (copy_span w) (key_number b) ≡ 1 → ⊥) }
{
    // Reading the slots shows how many there are, before and behind.
    prove!(pass.sorting().slots().len() == GREATEST_ENTRIES as usize);
    let has = has_key(&mut HeldTable { table, pass }, room, key);
    prove!(pass.sorting().slots().len() == GREATEST_ENTRIES as usize);
    has
}

/// Opens the front room, whose entries are linked in turn, over all of its range.
pub(crate) fn open_front(table: &OakTable, pass: &mut Pass, room: u32)
    requires own { IsPassOf table.now pass.old }
    requires front { (w : RoomCopy) × (g : MovingRange) × (hs : List HeldRoom) × (gs : List MovingRange)
        × HoldsFront (sizes table.now) room w g hs gs (state pass.old) × IsChained (sizes table.now) w
        × AllLinked w }
    ensures own { Stays pass.old pass.new }
    ensures opens { (w : RoomCopy) (g : MovingRange) (hs : List HeldRoom) (gs : List MovingRange)
        → HoldsFront (sizes table.now) room w g hs gs (state pass.old) → OpensFront (sizes table.now)
        (call_of pass.old) room w hs gs (state pass.old) (state pass.new) }
{
    open_held(table, pass, room);
}

/// Pins the room that has the key in its range, which is looked for first where the pass's hint says.
fn pin_covering(table: &OakTable, pass: &mut Pass, key: &[u8]) -> Result<RoomPin, Moved>
    requires own { IsPassOf table.now pass.old }
    requires key { IsKey key.now }
    requires free { (state pass.old).rooms.pin ≡ None }
    ensures own { Stays pass.old pass.new }
    ensures pinned { IfOk result (λ p. PinsOpen (sizes table.now) (call_of pass.old) p.room (CoversKey key.now) (state pass.old) (state pass.new)) }
    ensures moved { IfErr result (λ _. FoundMoved (sizes table.now) (call_of pass.old) (CoversKey key.now) (state pass.old) (state pass.new)) }
    ensures only { IfErr result (λ _. OnlyMeets (call_of pass.old) (state pass.old) (state pass.new)) }
    ensures ended { IfErr result (λ _. HadMoment (sizes table.now) (state pass.new)) }
    ensures elsewhere { IfErr result (λ _. Runs (NeverElsewhere (key_number key.now) (state pass.old)) (state pass.old) (state pass.new)) }
{
    let hint = pass.hint(key);
    pin_for(table, pass, key, hint)
}

/// Tries to hold the chunk that covers the key. `None` comes only where it was busy, and the pass has what it
/// had then: another pass had moved or frozen it, or at each of so many looks at its pin word other passes had
/// pinned it.
pub(crate) fn try_hold(table: &OakTable, pass: &mut Pass, key: &[u8], looks: u32) -> Option<u32>
    requires own { IsPassOf table.now pass.old }
    requires key { IsKey key.now }
    requires compacted { HoldsCompacted (sizes table.now) (state pass.old) }
    requires some { 0 < looks }
    ensures own { StaysButSlots pass.old pass.new }
    ensures holds { IfSome result (λ r. (w : RoomCopy) × (g : MovingRange) × HoldsFor (sizes table.now)
        (call_of pass.old) key.now r w g (state pass.old) (state pass.new)) }
    ensures back { IfNone result (ComesBack (sizes table.now) (call_of pass.old) (state pass.old) (state pass.new)) }
    ensures busy { IfNone result (IsBusyFor (sizes table.now) (call_of pass.old) looks key.now (state pass.old) (state pass.new)) }
    ensures swept { IfNone result (SweepsOff (sizes table.now) (call_of pass.old) key.now (state pass.old) (state pass.new)) }
    ensures alone { IfNone result (Runs (NeverElsewhere (key_number key.now) (state pass.old)) (state pass.old) (state pass.new)) }
{
    let Ok(pin) = pin_covering(table, pass, key) else {
        return None;
    };
    let room = pin.room;
    if !hold_pinned(table, pass, pin, looks) {
        return None;
    }
    // A room keeps its range from the pin on until it is held, so the answer is yes. What the pass has of
    // a frozen room does not say so, and the two bounds are compared with the key for that. A room is opened
    // with its entries in order alone, so it is compacted where the answer is no.
    if front_has(table, pass, room, &StoredKey::of(key)) {
        return Some(room);
    }
    compact_front(table, pass, room);
    open_front(table, pass, room);
    None
}

/// How many looks a call that waits makes at a pin word before it opens the room again and lets other threads
/// run. While a room is frozen no new pin comes to stand on it, so it is soon left to the pass.
pub(crate) const LOOKS: u32 = 1024;
