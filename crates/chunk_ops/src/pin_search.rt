//! Rooms are found by their range, and pinned.
ghost use Rattle.std.specs.Prelude.{◌≡◌, ℕ, ◌≤◌, ◌<◌, None, IfOk, IfErr, IfSome, IfNone, length};
ghost use Rattle.oak_model.specs.declared.limits.TheConstants.{GREATEST_KEY};
ghost use Rattle.oak_model.specs.Key.{IsKey};
ghost use Rattle.oak_model.specs.KeyNumber.{key_number};
ghost use Rattle.oak_core.specs.AloneWords.{Runs};
ghost use Rattle.oak_core.specs.Passes.{IsPassOf, Stays, state, key as sizes, call_of};
ghost use Rattle.oak_core.specs.Tries.{PinsRooms};
ghost use Rattle.chunk_ops.specs.AskedRanges.{CoversKey, IsAskable, IsAsked, IsLastFor, IsKeyOrNone, bytes_in_option};
ghost use Rattle.chunk_ops.specs.Hints.{TriesFirst, first_room};
ghost use Rattle.chunk_ops.specs.LoneRooms.{IsOff, LoneTry, NeverAlone, NeverElsewhere};
ghost use Rattle.chunk_ops.specs.PinRecords.{OnlyMeets};
ghost use Rattle.chunk_ops.specs.RoomPins.{PinsFirst, PinsOpen, MissesFirst, FoundOff, FoundMoved, HadMoment};

use crate::ranges::{Asked, is_asked};
use crate::room_pins::{RoomPin, pin_open, unpin};
use chunk_core::OPEN;
use oak_core::{OakTable, Pass, load};
use oak_model::Hint;
use thiserror::Error;

/// No room was found open with the range that was asked for.
#[derive(Clone, Copy, Debug, PartialEq, Eq, Error)]
#[error("the room was moved")]
pub struct Moved;

/// Pins the room, if it is open and its range is what is asked.
fn try_room(
    table: &OakTable,
    pass: &mut Pass,
    room: u32,
    asked: Asked,
    key: &[u8],
) -> Option<RoomPin>
    requires own { IsPassOf table.now pass.old }
    requires inside { room < (sizes table.now).chunks }
    requires free { (state pass.old).rooms.pin ≡ None }
    requires few { length key.now ≤ GREATEST_KEY }
    ensures own { Stays pass.old pass.new }
    ensures tries { PinsRooms (sizes table.now) 1 pass.old pass.new }
    ensures pinned { IfSome result (λ p. PinsOpen (sizes table.now) (call_of pass.old) p.room (IsAsked asked key.now)
        (state pass.old) (state pass.new)) }
    ensures first { IfSome result (λ _. PinsFirst (sizes table.now) (call_of pass.old) room (state pass.old) (state pass.new)) }
    ensures off { IfNone result (MissesFirst (sizes table.now) (call_of pass.old) room (IsAsked asked key.now) (state pass.old) (state pass.new)) }
    ensures only { IfNone result (OnlyMeets (call_of pass.old) (state pass.old) (state pass.new)) }
    ensures begun { IfNone result (HadMoment (sizes table.now) (state pass.old)) }
    ensures ended { IfNone result (HadMoment (sizes table.now) (state pass.new)) }
    ensures alone { IfNone result (Runs (LoneTry (sizes table.now)
        (IsOff (sizes table.now) room (IsAsked asked key.now)) (state pass.old).rooms) (state pass.old)
        (state pass.new)) }
{
    let Some(pin) = pin_open(table, pass, room) else {
        return None;
    };
    if is_asked(table, pass, &pin, asked, key) {
        return Some(pin);
    }
    unpin(table, pass, pin);
    None
}

/// Pins the room, if a load finds it open, and it is open with a range that is what is asked when it is pinned.
fn try_if_open(
    table: &OakTable,
    pass: &mut Pass,
    room: u32,
    asked: Asked,
    key: &[u8],
) -> Option<RoomPin>
    requires own { IsPassOf table.now pass.old }
    requires inside { room < (sizes table.now).chunks }
    requires free { (state pass.old).rooms.pin ≡ None }
    requires few { length key.now ≤ GREATEST_KEY }
    ensures own { Stays pass.old pass.new }
    ensures tries { (n : ℕ) × PinsRooms (sizes table.now) n pass.old pass.new }
    ensures pinned { IfSome result (λ p. PinsOpen (sizes table.now) (call_of pass.old) p.room (IsAsked asked key.now)
        (state pass.old) (state pass.new)) }
    ensures off { IfNone result (FoundOff (sizes table.now) (call_of pass.old) room (IsAsked asked key.now) (state pass.old) (state pass.new)) }
    ensures only { IfNone result (OnlyMeets (call_of pass.old) (state pass.old) (state pass.new)) }
    ensures ended { IfNone result (HadMoment (sizes table.now) (state pass.new)) }
    ensures alone { IfNone result (Runs (LoneTry (sizes table.now)
        (IsOff (sizes table.now) room (IsAsked asked key.now)) (state pass.old).rooms) (state pass.old)
        (state pass.new)) }
{
    let word = table.room_at(room);
    let found = load(table, pass, word);
    if pin_word::state(found) != OPEN {
        return None;
    }
    try_room(table, pass, room, asked, key)
}

/// The room that is tried first: that of the hint, where it names one of the table's, and else room 0.
fn first_room(table: &OakTable, hint: Hint) -> u32
    ensures first { result ≡ first_room (sizes table.now) hint }
    ensures inside { result < (sizes table.now).chunks }
{
    let rooms = table.rooms();
    match hint.room {
        Some(room) if room < rooms => room,
        _ => 0,
    }
}

/// Tries the room that the index names for the key as it is now, where the hint was wrong: the pass's reader gave it by a
/// copy that it made before, and is to make a new one.
fn try_anew(table: &OakTable, pass: &mut Pass, asked: Asked, key: &[u8]) -> Option<RoomPin>
    requires own { IsPassOf table.now pass.old }
    requires free { (state pass.old).rooms.pin ≡ None }
    requires few { length key.now ≤ GREATEST_KEY }
    ensures own { Stays pass.old pass.new }
    ensures tries { (n : ℕ) × PinsRooms (sizes table.now) n pass.old pass.new }
    ensures pinned { IfSome result (λ p. PinsOpen (sizes table.now) (call_of pass.old) p.room (IsAsked asked key.now)
        (state pass.old) (state pass.new)) }
    ensures only { IfNone result (OnlyMeets (call_of pass.old) (state pass.old) (state pass.new)) }
    ensures ended { IfNone result (HadMoment (sizes table.now) (state pass.new)) }
{
    pass.forget_hints();
    let hint = pass.hint_now(key);
    let room = first_room(table, hint);
    try_if_open(table, pass, room, asked, key)
}

/// Pins a room whose range is what is asked. The hinted one, or room 0, is tried first, then the one that the index names
/// now, and then each that a load finds open.
fn pin_asked(
    table: &OakTable,
    pass: &mut Pass,
    hint: Hint,
    asked: Asked,
    key: &[u8],
) -> Result<RoomPin, Moved>
    requires own { IsPassOf table.now pass.old }
    requires free { (state pass.old).rooms.pin ≡ None }
    requires askable { IsAskable asked key.now }
    requires few { length key.now ≤ GREATEST_KEY }
    ensures own { Stays pass.old pass.new }
    ensures tries { (n : ℕ) × PinsRooms (sizes table.now) n pass.old pass.new }
    ensures first { TriesFirst (sizes table.now) (call_of pass.old) (first_room (sizes table.now) hint) (IsAsked asked key.now) pass.old pass.new }
    ensures pinned { IfOk result (λ p. PinsOpen (sizes table.now) (call_of pass.old) p.room (IsAsked asked key.now)
        (state pass.old) (state pass.new)) }
    ensures moved { IfErr result (λ _. FoundMoved (sizes table.now) (call_of pass.old) (IsAsked asked key.now) (state pass.old) (state pass.new)) }
    ensures only { IfErr result (λ _. OnlyMeets (call_of pass.old) (state pass.old) (state pass.new)) }
    ensures ended { IfErr result (λ _. HadMoment (sizes table.now) (state pass.new)) }
    ensures alone { IfErr result (λ _. Runs (NeverAlone (state pass.old)) (state pass.old) (state pass.new)) }
    ensures elsewhere { asked ≡ Asked.Covering → IfErr result
        (λ _. Runs (NeverElsewhere (key_number key.now) (state pass.old)) (state pass.old) (state pass.new)) }
{
    let first = first_room(table, hint);
    if let Some(pin) = try_room(table, pass, first, asked, key) {
        return Ok(pin);
    }
    if let Some(pin) = try_anew(table, pass, asked, key) {
        return Ok(pin);
    }
    for room in 0..table.rooms() {
        if let Some(pin) = try_if_open(table, pass, room, asked, key) {
            return Ok(pin);
        }
    }
    Err(Moved)
}

/// Pins the room whose range has the key. `Moved` comes only where each room was found in this call not
/// open, or open with a range without the key, so it never comes to a pass that is alone, has no room
/// frozen, and holds no room with the key. The hint promises nothing: the room that it names is tried first,
/// and room 0 where it names none that the table has, since its range is the lowest. The pass has no pin of
/// a room. The call makes loads, pins and their undoing alone. The room tried first is pinned, whatever its
/// state, and behind it only those that a load finds open. The pass's tries are raised by how many rooms
/// it pinned, duds among them: by 1 where the room tried first was found open with the key in its range.
pub fn pin_for(table: &OakTable, pass: &mut Pass, key: &[u8], hint: Hint) -> Result<RoomPin, Moved>
    requires own { IsPassOf table.now pass.old }
    requires key { IsKey key.now }
    requires free { (state pass.old).rooms.pin ≡ None }
    ensures own { Stays pass.old pass.new }
    ensures tries { (n : ℕ) × PinsRooms (sizes table.now) n pass.old pass.new }
    ensures first { TriesFirst (sizes table.now) (call_of pass.old) (first_room (sizes table.now) hint) (CoversKey key.now) pass.old pass.new }
    ensures pinned { IfOk result (λ p. PinsOpen (sizes table.now) (call_of pass.old) p.room (CoversKey key.now) (state pass.old) (state pass.new)) }
    ensures moved { IfErr result (λ _. FoundMoved (sizes table.now) (call_of pass.old) (CoversKey key.now) (state pass.old) (state pass.new)) }
    ensures only { IfErr result (λ _. OnlyMeets (call_of pass.old) (state pass.old) (state pass.new)) }
    ensures ended { IfErr result (λ _. HadMoment (sizes table.now) (state pass.new)) }
    ensures alone { IfErr result (λ _. Runs (NeverAlone (state pass.old)) (state pass.old) (state pass.new)) }
    ensures elsewhere { IfErr result (λ _. Runs (NeverElsewhere (key_number key.now) (state pass.old)) (state pass.old) (state pass.new)) }
{
    pin_asked(table, pass, hint, Asked::Covering, key)
}

/// Pins the hinted room, or room 0 where the hint names none that the table has, if it is open with the key in its range,
/// and looks at no other. `None` comes only where it was found in this call not open, or open with a range without the key,
/// which to a pass that is alone it is at a moment of the call. The pass has no pin of a room. The call makes loads, a pin
/// and its undoing alone, and raises the pass's tries by 1.
pub fn pin_hinted(table: &OakTable, pass: &mut Pass, key: &[u8], hint: Hint) -> Option<RoomPin>
    requires own { IsPassOf table.now pass.old }
    requires key { IsKey key.now }
    requires free { (state pass.old).rooms.pin ≡ None }
    ensures own { Stays pass.old pass.new }
    ensures tries { PinsRooms (sizes table.now) 1 pass.old pass.new }
    ensures pinned { IfSome result (λ p. PinsOpen (sizes table.now) (call_of pass.old) p.room (CoversKey key.now) (state pass.old) (state pass.new)) }
    ensures first { IfSome result (λ _. PinsFirst (sizes table.now) (call_of pass.old) (first_room (sizes table.now) hint) (state pass.old) (state pass.new)) }
    ensures off { IfNone result (MissesFirst (sizes table.now) (call_of pass.old) (first_room (sizes table.now) hint) (CoversKey key.now) (state pass.old) (state pass.new)) }
    ensures only { IfNone result (OnlyMeets (call_of pass.old) (state pass.old) (state pass.new)) }
    ensures begun { IfNone result (HadMoment (sizes table.now) (state pass.old)) }
    ensures ended { IfNone result (HadMoment (sizes table.now) (state pass.new)) }
    ensures alone { IfNone result (Runs (LoneTry (sizes table.now)
        (IsOff (sizes table.now) (first_room (sizes table.now) hint) (CoversKey key.now)) (state pass.old).rooms)
        (state pass.old) (state pass.new)) }
{
    let room = first_room(table, hint);
    try_room(table, pass, room, Asked::Covering, key)
}

/// Pins the room whose range has the keys next below the bound: its low bound is below it, and its high
/// bound is none or not below it. Without a bound it is the room that has the last keys. `Moved` comes
/// only where each room was found in this call not open, or open with another range than that. The pass
/// has no pin of a room. The call makes loads, pins and their undoing alone. The hint is taken, rooms are
/// pinned and the pass's tries are raised as by [`pin_for`].
pub fn pin_last(
    table: &OakTable,
    pass: &mut Pass,
    bound: Option<&[u8]>,
    hint: Hint,
) -> Result<RoomPin, Moved>
    requires own { IsPassOf table.now pass.old }
    requires bound { IsKeyOrNone (bytes_in_option bound) }
    requires free { (state pass.old).rooms.pin ≡ None }
    ensures own { Stays pass.old pass.new }
    ensures tries { (n : ℕ) × PinsRooms (sizes table.now) n pass.old pass.new }
    ensures first { TriesFirst (sizes table.now) (call_of pass.old) (first_room (sizes table.now) hint)
        (IsLastFor (bytes_in_option bound.entry)) pass.old pass.new }
    ensures pinned { IfOk result (λ p. PinsOpen (sizes table.now) (call_of pass.old) p.room
        (IsLastFor (bytes_in_option bound.entry)) (state pass.old) (state pass.new)) }
    ensures moved { IfErr result (λ _. FoundMoved (sizes table.now) (call_of pass.old)
        (IsLastFor (bytes_in_option bound.entry)) (state pass.old) (state pass.new)) }
    ensures only { IfErr result (λ _. OnlyMeets (call_of pass.old) (state pass.old) (state pass.new)) }
    ensures alone { IfErr result (λ _. Runs (NeverAlone (state pass.old)) (state pass.old) (state pass.new)) }
{
    match bound {
        Some(bound) => pin_asked(table, pass, hint, Asked::Under, bound),
        None => pin_asked(table, pass, hint, Asked::Last, &[]),
    }
}
