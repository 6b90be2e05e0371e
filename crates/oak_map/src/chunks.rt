//! A chunk as a pin finds it.
ghost use Rattle.std.specs.Prelude.{◌≡◌, List, ℕ, None, IfSome};
ghost use Rattle.oak_model.specs.Key.{IsKey};
ghost use Rattle.chunk_core.specs.PinnedRooms.{span_of};
ghost use Rattle.oak_core.specs.PassState.{HoldsNothing};
ghost use Rattle.oak_core.specs.declared.states.PassState.{PassState};
ghost use Rattle.oak_core.specs.Passes.{IsPassOf, Stays, call_of, key as sizes, state};
ghost use Rattle.chunk_ops.specs.AskedRanges.{CoversKey};
ghost use Rattle.chunk_ops.specs.PinRecords.{HasRoomPin, OnlyMeets, room_pin};
ghost use Rattle.chunk_ops.specs.RoomPins.{HadMoment, Unpins};

use chunk_ops::{KeyBytes, RoomPin, high_key, low_key, pin_for, pin_hinted, unpin};
use oak_core::{OakTable, Pass};
use oak_model::Hint;

/// A chunk as a pin found it: its room, the key at which its range begins, if it is not the lowest, and the key before
/// which it ends, if it is not the highest.
#[derive(Drop)]
pub(crate) struct Chunk {
    pub(crate) room: u32,
    pub(crate) low: Option<KeyBytes>,
    pub(crate) high: Option<KeyBytes>,
}

/// The key at which the range of the pinned room begins.
fn load_low(table: &OakTable, pass: &mut Pass, pin: &RoomPin) -> Option<KeyBytes>
    requires own { IsPassOf table.now pass.old }
    requires pinned { HasRoomPin (sizes table.now) pin.now.room (state pass.old) }
    ensures own { Stays pass.old pass.new }
    ensures low { IfSome result (λ k. IsKey k) }
    ensures only { OnlyMeets (call_of pass.old) (state pass.old) (state pass.new) }
{
    match low_key(table, pass, pin) {
        Some(low) => Some(KeyBytes::of(&low)),
        None => None,
    }
}

/// The key before which the range of the pinned room ends, which has a key.
fn load_high(table: &OakTable, pass: &mut Pass, pin: &RoomPin) -> Option<KeyBytes>
    requires own { IsPassOf table.now pass.old }
    requires pinned { HasRoomPin (sizes table.now) pin.now.room (state pass.old) }
    requires covers { (k : List ℕ) × CoversKey k (span_of (room_pin (state pass.old))) }
    ensures own { Stays pass.old pass.new }
    ensures high { IfSome result (λ k. IsKey k) }
    ensures only { OnlyMeets (call_of pass.old) (state pass.old) (state pass.new) }
{
    match high_key(table, pass, pin) {
        Some(high) => Some(KeyBytes::of(&high)),
        None => None,
    }
}

/// Reads the pinned chunk, and undoes the pin.
fn read_pinned(table: &OakTable, pass: &mut Pass, pin: RoomPin) -> Chunk
    requires own { IsPassOf table.now pass.old }
    requires pinned { HasRoomPin (sizes table.now) pin.room (state pass.old) }
    requires claim { (state pass.old).rooms.claim ≡ None }
    requires covers { (k : List ℕ) × CoversKey k (span_of (room_pin (state pass.old))) }
    ensures own { Stays pass.old pass.new }
    ensures low { IfSome result.low (λ k. IsKey k) }
    ensures high { IfSome result.high (λ k. IsKey k) }
    ensures read { (v : PassState) × OnlyMeets (call_of pass.old) (state pass.old) v × Unpins (sizes table.now) (call_of pass.old) pin.room v (state pass.new) }
    ensures ended { HadMoment (sizes table.now) (state pass.new) }
{
    let room = pin.room;
    let low = load_low(table, pass, &pin);
    let high = load_high(table, pass, &pin);
    unpin(table, pass, pin);
    Chunk { room, low, high }
}

/// Reads the chunk of the room, if the room is open and covers the key, under a pin, which is undone then.
pub(crate) fn read_room(table: &OakTable, pass: &mut Pass, key: &[u8], room: u32) -> Option<Chunk>
    requires own { IsPassOf table.now pass.old }
    requires idle { HoldsNothing (state pass.old) }
    requires key { IsKey key.now }
    ensures own { Stays pass.old pass.new }
    ensures low { IfSome result (λ c. IfSome c.low (λ k. IsKey k)) }
    ensures high { IfSome result (λ c. IfSome c.high (λ k. IsKey k)) }
    ensures only { OnlyMeets (call_of pass.old) (state pass.old) (state pass.new) }
{
    let hint = Hint { room: Some(room) };
    let Some(pin) = pin_hinted(table, pass, key, hint) else {
        return None;
    };
    Some(read_pinned(table, pass, pin))
}

/// Reads the chunk that covers the key under a pin, which is undone then. None comes where another pass moved it.
pub(crate) fn read_chunk(table: &OakTable, pass: &mut Pass, key: &[u8], hint: Hint) -> Option<Chunk>
    requires own { IsPassOf table.now pass.old }
    requires idle { HoldsNothing (state pass.old) }
    requires key { IsKey key.now }
    ensures own { Stays pass.old pass.new }
    ensures low { IfSome result (λ c. IfSome c.low (λ k. IsKey k)) }
    ensures high { IfSome result (λ c. IfSome c.high (λ k. IsKey k)) }
    ensures only { OnlyMeets (call_of pass.old) (state pass.old) (state pass.new) }
    ensures ended { IfSome result (λ _. HadMoment (sizes table.now) (state pass.new)) }
{
    let Ok(pin) = pin_for(table, pass, key, hint) else {
        return None;
    };
    Some(read_pinned(table, pass, pin))
}
