//! Pins of rooms: made where the room is open, and undone.
ghost use Rattle.std.specs.Prelude.{◌≡◌, ◌<◌, IfSome, IfNone, None};
ghost use Rattle.oak_core.specs.Passes.{IsPassOf, Stays, state, key, call_of};
ghost use Rattle.oak_core.specs.Tries.{PinsRooms};
ghost use Rattle.chunk_ops.specs.PinRecords.{PinIsOn, HasRoomPin};
ghost use Rattle.chunk_ops.specs.RoomPins.{PinsNow, FoundShut, Unpins};

use chunk_core::OPEN;
use oak_core::{OakTable, Pass, steps};

/// A good pin of the pass. It must be spent by [`unpin`], and can't be dropped.
#[derive(Debug)]
pub struct RoomPin {
    pub room: u32,
}

/// Undoes the pass's pin, which is one of this room.
fn undo(table: &OakTable, pass: &mut Pass, room: u32)
    requires own { IsPassOf table.now pass.old }
    requires pinned { PinIsOn (key table.now) room (state pass.old).rooms }
    ensures own { Stays pass.old pass.new }
    ensures tries { PinsRooms (key table.now) 0 pass.old pass.new }
    ensures undone { Unpins (key table.now) (call_of pass.old) room (state pass.old) (state pass.new) }
{
    let word = table.room_at(room);
    steps::unpin_room(table, pass, word, 1);
}

/// Pins the room. Where the word found says that it is not open, the pin is undone.
pub(crate) fn pin_open(table: &OakTable, pass: &mut Pass, room: u32) -> Option<RoomPin>
    requires own { IsPassOf table.now pass.old }
    requires inside { room < (key table.now).chunks }
    requires free { (state pass.old).rooms.pin ≡ None }
    ensures own { Stays pass.old pass.new }
    ensures tries { PinsRooms (key table.now) 1 pass.old pass.new }
    ensures opened { IfSome result (λ p. (p.room ≡ room) × PinsNow (key table.now) (call_of pass.old) room (state pass.old) (state pass.new)) }
    ensures shut { IfNone result (FoundShut (key table.now) (call_of pass.old) room (state pass.old) (state pass.new)) }
{
    let word = table.room_at(room);
    let found = steps::pin_room(table, pass, word, 1);
    if pin_word::state(found) != OPEN {
        undo(table, pass, room);
        return None;
    }
    Some(RoomPin { room })
}

/// Undoes the pass's pin. The pass has claimed no entry.
pub fn unpin(table: &OakTable, pass: &mut Pass, pin: RoomPin)
    requires own { IsPassOf table.now pass.old }
    requires pinned { HasRoomPin (key table.now) pin.room (state pass.old) }
    requires claim { (state pass.old).rooms.claim ≡ None }
    ensures own { Stays pass.old pass.new }
    ensures tries { PinsRooms (key table.now) 0 pass.old pass.new }
    ensures unpinned { Unpins (key table.now) (call_of pass.old) pin.room (state pass.old) (state pass.new) }
{
    let RoomPin { room } = pin;
    undo(table, pass, room);
}
