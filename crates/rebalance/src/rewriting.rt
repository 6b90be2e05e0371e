//! The entries of a held room, read in the order of their keys, and stored again.
ghost use Rattle.std.specs.Prelude.{◌≡◌, ℕ, ◌<◌, ◌≤◌, take};
ghost use Rattle.oak_model.specs.Counts.{Each};
ghost use Rattle.chunk_core.specs.LinkedEntries.{entries_in};
ghost use Rattle.chunk_core.specs.ValueWord.{names_header};
ghost use Rattle.rebalance.specs.Compacted.{IsHeldRoom, ReadsSorted, IsCompacted, linked_in};
ghost use Rattle.rebalance.specs.Dropping.{DropsKeys, dropped_ranges};
ghost use Rattle.rebalance.specs.Entries.{dropped};
ghost use Rattle.rebalance.specs.HeldRooms.{AllValued};
ghost use Rattle.rebalance.specs.Slots.{AllNamed};

use crate::filling::fill_room;
use crate::held_rooms::{HeldRooms, RoomWord};
use crate::reading::{Read, read_entries};
use crate::walking::read_along;
use chunk_core::count_word::entries_in;

/// Reads the entries in use of a held room: the linked ones with a value, in the order of their keys, to the
/// first slots; the others are dropped. Where the links come to each of them, and each has a value, the slots
/// are in the order of the links, along which the keys rise, so that nothing is left to sort. Else they are in
/// the order of the entries' numbers, and are sorted.
pub(crate) fn read_sorted<H: HeldRooms>(rooms: &mut H, room: u32) -> Read
    requires held { H.held rooms.old room }
    requires within { entries_in ((H.rooms rooms.old).count room) ≤ H.entries rooms.old }
    requires room { let m = H.rooms rooms.old in IsHeldRoom (H.names rooms.old) (H.keys rooms.old)
        (H.ranges rooms.old) m room (entries_in (m.count room)) }
    ensures stays { H.stays rooms.old rooms.new }
    ensures sees { let m = H.rooms rooms.old in (i : ℕ) → i < entries_in (m.count room)
        → 0 < m.key room i → names_header (m.value room i) ≡ 1 → H.sees rooms.old rooms.new room i }
    ensures rooms { DropsKeys room (entries_in ((H.rooms rooms.old).count room)) (H.rooms rooms.old) (H.rooms rooms.new) }
    ensures ranges { H.ranges rooms.new ≡ dropped_ranges (dropped (linked_in (H.rooms rooms.old) room)) (H.ranges rooms.old) }
    ensures read { ReadsSorted (H.keys rooms.old) (H.rooms rooms.old) room (H.slots rooms.new) result }
    ensures named { AllNamed (take result.kept (H.slots rooms.new)) }
{
    let count = entries_in(rooms.load(room, RoomWord::Count));
    if read_along(rooms, room, count) {
        return Read {
            kept: count as usize,
            dropped: 0,
            base: rooms.load(room, RoomWord::Base),
        };
    }
    let read = read_entries(rooms, room, count);
    rooms.sort(read.kept);
    read
}

/// Compacts a held room: its entries are then the linked ones that had a value, in the order of their keys,
/// with nothing behind them. No other entry that the ranges carry lacks a value.
pub(crate) fn compact_held<H: HeldRooms>(rooms: &mut H, room: u32) -> Read
    requires held { H.held rooms.old room }
    requires within { entries_in ((H.rooms rooms.old).count room) ≤ H.entries rooms.old }
    requires room { let m = H.rooms rooms.old in IsHeldRoom (H.names rooms.old) (H.keys rooms.old)
        (H.ranges rooms.old) m room (entries_in (m.count room)) }
    requires valued { Each AllValued (dropped_ranges (dropped (linked_in (H.rooms rooms.old) room)) (H.ranges rooms.old)) }
    ensures stays { H.stays rooms.old rooms.new }
    ensures sees { let m = H.rooms rooms.old in (i : ℕ) → i < entries_in (m.count room)
        → 0 < m.key room i → names_header (m.value room i) ≡ 1 → H.sees rooms.old rooms.new room i }
    ensures rooms { IsCompacted (H.entries rooms.old) room (entries_in ((H.rooms rooms.old).count room))
        (take result.kept (H.slots rooms.new)) result.base (H.rooms rooms.old) (H.rooms rooms.new) }
    ensures ranges { H.ranges rooms.new ≡ dropped_ranges (dropped (linked_in (H.rooms rooms.old) room)) (H.ranges rooms.old) }
    ensures read { ReadsSorted (H.keys rooms.old) (H.rooms rooms.old) room (H.slots rooms.new) result }
    ensures named { AllNamed (take result.kept (H.slots rooms.new)) }
{
    let read = read_sorted(rooms, room);
    fill_room(rooms, room, 0, read.kept, read.base);
    read
}
