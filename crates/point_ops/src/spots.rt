//! Where a key is found in the room that covers it.
ghost use Rattle.oak_model.specs.Key.{IsKey};
ghost use Rattle.chunk_core.specs.PinnedRooms.{span_of};
ghost use Rattle.oak_core.specs.Passes.{IsPassOf, Stays, state, key as sizes, call_of};
ghost use Rattle.oak_core.specs.QuietSteps.{Quiet};
ghost use Rattle.chunk_ops.specs.AskedRanges.{CoversKey};
ghost use Rattle.chunk_ops.specs.PinRecords.{HasRoomPin, UnderPin, room_pin};
ghost use Rattle.oak_core.specs.AloneWords.{Runs};
ghost use Rattle.point_ops.specs.LoneLives.{SpotBase, SpotIn};
ghost use Rattle.point_ops.specs.Spots.{SpotIs, SpotPlace};

use chunk_ops::{Content, EntryNo, Found, RoomPin, base_of, content, find};
use oak_core::{OakTable, Pass};
use value_ops::Home;

/// Where a key was found: absent at a floor, with its entry where it has one, else with the place where one
/// belongs; or as a life that its entry names.
#[derive(Clone, Copy, PartialEq, Eq)]
pub(crate) enum Spot {
    Absent { entry: Found, floor: u64 },
    Present { entry: EntryNo, home: Home },
}

/// Looks for a key that the pinned room covers.
#[inline(always)] // an answer goes through memory at a call
pub(crate) fn look_up(table: &OakTable, pass: &mut Pass, pin: &RoomPin, key: &[u8]) -> Spot
    requires own { IsPassOf table.now pass.old }
    requires key { IsKey key.now }
    requires covers { CoversKey key.now (span_of (room_pin (state pass.old))) }
    requires pinned { HasRoomPin (sizes table.now) pin.now.room (state pass.old) }
    ensures own { Stays pass.old pass.new }
    ensures under { UnderPin (sizes table.now) (call_of pass.old) pin.now.room (state pass.old) (state pass.new) }
    ensures quiet { Quiet (state pass.old) (state pass.new) }
    ensures spot { SpotIs result (sizes table.now) (call_of pass.old) pin.now.room key.now (state pass.old) (state pass.new) }
    ensures place { SpotPlace result pin.now.room key.now (state pass.new) }
    ensures base { SpotBase result (state pass.new) }
    ensures alone { Runs (SpotIn result (sizes table.now) pin.now.room key.now) (state pass.old) (state pass.new) }
{
    match find(table, pass, pin, key) {
        Found::Missing { behind, link } => Spot::Absent {
            entry: Found::Missing { behind, link },
            floor: base_of(table, pass, pin),
        },
        Found::Entry(entry) => match content(table, pass, pin, entry) {
            Content::Floor { stamp } => Spot::Absent {
                entry: Found::Entry(entry),
                floor: stamp,
            },
            Content::Value { header, generation } => Spot::Present {
                entry,
                home: Home { header, generation },
            },
        },
    }
}
