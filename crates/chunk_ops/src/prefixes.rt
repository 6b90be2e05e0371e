//! How many entries of a sorted prefix lie below a key.
ghost use Rattle.oak_model.specs.Key.{IsKey};
ghost use Rattle.oak_core.specs.AloneWords.{Runs};
ghost use Rattle.oak_core.specs.Passes.{IsPassOf, Stays, state, key as sizes, call_of};
ghost use Rattle.oak_core.specs.QuietSteps.{Quiet};
ghost use Rattle.chunk_ops.specs.PinRecords.{HasRoomPin, UnderPin, WordsStay};
ghost use Rattle.chunk_ops.specs.Prefixes.{HalvesPrefix, SplitsPrefix};

use crate::entry_numbers::first_key_at;
use crate::pinned_table::PinnedTable;
use crate::room_pins::RoomPin;
use chunk_core::count_word::prefix_in;
use link_search::{LinkedRoom, Sorted};
use oak_core::{OakTable, Pass};

/// How many entries of the room's sorted prefix have keys below this one: those of the numbers below the answer. The
/// count is loaded once, and the prefix that it tells is halved. The call makes loads alone.
pub fn prefix_below(table: &OakTable, pass: &mut Pass, pin: &RoomPin, key: &[u8]) -> u32
    requires own { IsPassOf table.now pass.old }
    requires key { IsKey key.now }
    requires pinned { HasRoomPin (sizes table.now) pin.now.room (state pass.old) }
    ensures own { Stays pass.old pass.new }
    ensures splits { SplitsPrefix pin.now.room key.now result (state pass.new) }
    ensures few { HalvesPrefix (sizes table.now) pin.now.room (state pass.old) (state pass.new) }
    ensures under { UnderPin (sizes table.now) (call_of pass.old) pin.now.room (state pass.old) (state pass.new) }
    ensures quiet { Quiet (state pass.old) (state pass.new) }
    ensures still { Runs WordsStay (state pass.old) (state pass.new) }
{
    let mut room = PinnedTable {
        table,
        pass,
        room: pin.room,
        first: first_key_at(table, pin.room),
        base: 0,
        place: 0,
    };
    let count = room.count();
    match LinkedRoom::search(&mut room, key, prefix_in(count)) {
        Sorted::At(entry) => entry,
        Sorted::Between(many) => many,
    }
}
