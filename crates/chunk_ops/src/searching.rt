//! The entries of a pinned room by their keys.
ghost use Rattle.std.specs.Prelude.{MatchOption};
ghost use Rattle.oak_model.specs.Key.{IsKey};
ghost use Rattle.oak_core.specs.AloneWords.{Runs};
ghost use Rattle.oak_core.specs.Passes.{IsPassOf, Stays, state, key as sizes, call_of};
ghost use Rattle.oak_core.specs.QuietSteps.{Quiet};
ghost use Rattle.chunk_ops.specs.AskedRanges.{IsKeyOrNone, bytes_in_option};
ghost use Rattle.chunk_ops.specs.Finds.{Finds, FindsNearest, FindsNone, LoadsFew};
ghost use Rattle.chunk_ops.specs.FindsAlone.{FindsIn, NearestIn};
ghost use Rattle.chunk_ops.specs.PinRecords.{HasRoomPin, UnderPin};
ghost use Rattle.chunk_ops.specs.Ways.{Up, Down};

use crate::entries::{EntryNo, Found, as_entry};
use crate::entry_numbers::first_key_at;
use crate::pinned_table::PinnedTable;
use crate::room_pins::RoomPin;
use link_search::{Sought, Tie};
use oak_core::{OakTable, Pass};

/// The entry of a key: the sorted prefix is halved, and from there the links are walked. Where it is missing,
/// a link that was loaded in this call steps over it: a key of the room's range was absent then. That link is
/// of the entry behind which the key belongs, or the first one, and no entry that was found lies between. The
/// call makes loads alone.
#[inline(always)]
pub fn find(table: &OakTable, pass: &mut Pass, pin: &RoomPin, key: &[u8]) -> Found
    requires own { IsPassOf table.now pass.old }
    requires key { IsKey key.now }
    requires pinned { HasRoomPin (sizes table.now) pin.now.room (state pass.old) }
    ensures own { Stays pass.old pass.new }
    ensures found { Finds result (sizes table.now) (call_of pass.old) pin.now.room key.now (state pass.old) (state pass.new) }
    ensures under { UnderPin (sizes table.now) (call_of pass.old) pin.now.room (state pass.old) (state pass.new) }
    ensures quiet { Quiet (state pass.old) (state pass.new) }
    ensures few { LoadsFew (sizes table.now) pin.now.room (state pass.old) (state pass.new) }
    ensures alone { Runs (FindsIn (sizes table.now) pin.now.room key.now result) (state pass.old) (state pass.new) }
{
    let mut room = PinnedTable {
        table,
        pass,
        room: pin.room,
        first: first_key_at(table, pin.room),
        base: 0,
        place: 0,
    };
    match link_search::find(&mut room, key) {
        Sought::Entry(entry) => Found::Entry(EntryNo(entry)),
        Sought::Missing { behind, link } => Found::Missing {
            behind: as_entry(behind),
            link,
        },
    }
}

/// The entry of the least key above this one, or of the least of all. A link that was loaded in this call
/// leads to it, over each key of the range that lies between, which was absent then. The call makes loads
/// alone.
pub fn above(
    table: &OakTable,
    pass: &mut Pass,
    pin: &RoomPin,
    key: Option<&[u8]>,
) -> Option<EntryNo>
    requires own { IsPassOf table.now pass.old }
    requires key { IsKeyOrNone (bytes_in_option key) }
    requires pinned { HasRoomPin (sizes table.now) pin.now.room (state pass.old) }
    ensures own { Stays pass.old pass.new }
    ensures nearest { MatchOption result (FindsNone (sizes table.now) (call_of pass.old) pin.now.room Up
        (bytes_in_option key.entry) (state pass.old) (state pass.new))
        (λ i. FindsNearest (sizes table.now) (call_of pass.old) pin.now.room Up (bytes_in_option key.entry) i.0
        (state pass.old) (state pass.new)) }
    ensures under { UnderPin (sizes table.now) (call_of pass.old) pin.now.room (state pass.old) (state pass.new) }
    ensures quiet { Quiet (state pass.old) (state pass.new) }
    ensures few { LoadsFew (sizes table.now) pin.now.room (state pass.old) (state pass.new) }
    ensures alone { Runs (NearestIn (sizes table.now) pin.now.room Up (bytes_in_option key.entry) result) (state pass.old) (state pass.new) }
{
    let mut room = PinnedTable {
        table,
        pass,
        room: pin.room,
        first: first_key_at(table, pin.room),
        base: 0,
        place: 0,
    };
    link_search::above(&mut room, key, Tie::Passed).map(EntryNo)
}

/// The entry of the greatest key below this one, or of the greatest of all, likewise.
pub fn below(
    table: &OakTable,
    pass: &mut Pass,
    pin: &RoomPin,
    key: Option<&[u8]>,
) -> Option<EntryNo>
    requires own { IsPassOf table.now pass.old }
    requires key { IsKeyOrNone (bytes_in_option key) }
    requires pinned { HasRoomPin (sizes table.now) pin.now.room (state pass.old) }
    ensures own { Stays pass.old pass.new }
    ensures nearest { MatchOption result (FindsNone (sizes table.now) (call_of pass.old) pin.now.room Down
        (bytes_in_option key.entry) (state pass.old) (state pass.new))
        (λ i. FindsNearest (sizes table.now) (call_of pass.old) pin.now.room Down (bytes_in_option key.entry) i.0
        (state pass.old) (state pass.new)) }
    ensures under { UnderPin (sizes table.now) (call_of pass.old) pin.now.room (state pass.old) (state pass.new) }
    ensures quiet { Quiet (state pass.old) (state pass.new) }
    ensures few { LoadsFew (sizes table.now) pin.now.room (state pass.old) (state pass.new) }
    ensures alone { Runs (NearestIn (sizes table.now) pin.now.room Down (bytes_in_option key.entry) result) (state pass.old) (state pass.new) }
{
    let mut room = PinnedTable {
        table,
        pass,
        room: pin.room,
        first: first_key_at(table, pin.room),
        base: 0,
        place: 0,
    };
    link_search::below(&mut room, key).map(EntryNo)
}
