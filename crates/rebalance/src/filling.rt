//! Stores slots into held rooms.
ghost use Rattle.std.specs.Prelude.{◌≡◌, ◌+◌, ◌<◌, ◌≤◌, take};
ghost use Rattle.oak_model.specs.Counts.{Each};
ghost use Rattle.oak_model.specs.declared.limits.TheConstants.{GREATEST_ENTRIES};
ghost use Rattle.rebalance.specs.Filled.{Fills, StoresSlots, slots_from, write_slot, next_of, first_of, link_to, IsLinked, Appends};
ghost use Rattle.rebalance.specs.HeldRooms.{AllValued};
ghost use Rattle.rebalance.specs.Slots.{AllNamed};

use crate::clearing::clear_entries;
use crate::entries::{Entry, LinkedEntry};
use crate::held_rooms::{HeldRooms, RoomWord};
use chunk_core::count_word::SORTED_ENTRY;
use oak_core::SortSlot;

/// The link of entry `i` of `n` that are linked one behind the other.
fn next_of(i: usize, n: usize) -> u64
    requires few { n ≤ GREATEST_ENTRIES }
    requires within { i < n }
    ensures { result ≡ next_of i n }
{
    if i + 1 < n { i as u64 + 2 } else { 0 }
}

/// The first link of `n` such entries.
fn first_of(n: usize) -> u64
    ensures { result ≡ first_of n }
{
    if n > 0 { 1 } else { 0 }
}

/// The word with the link to entry `i` of such entries.
fn link_to(i: u32) -> RoomWord
    ensures { result ≡ link_to i }
{
    if i > 0 {
        RoomWord::Next(i - 1)
    } else {
        RoomWord::First
    }
}

fn store_slot<H: HeldRooms>(rooms: &mut H, room: u32, i: u32, slot: SortSlot, next: u64)
    requires held { H.held rooms.old room }
    requires within { i < H.entries rooms.old }
    requires named { 0 < slot.key }
    ensures stays { H.stays rooms.old rooms.new }
    ensures ranges { H.ranges rooms.new ≡ H.ranges rooms.old }
    ensures slots { H.slots rooms.new ≡ H.slots rooms.old }
    ensures rooms { H.rooms rooms.new ≡ write_slot (H.rooms rooms.old) room i slot next }
{
    let entry = Entry {
        place: slot.key,
        value: slot.value,
    };
    rooms.store_entry(room, i, LinkedEntry { entry, next });
}

/// Stores `n` slots, the first of which is slot `from`, as entries of a held room from entry `start` on,
/// with links from each to the next and none from the last.
fn store_slots<H: HeldRooms>(rooms: &mut H, room: u32, from: usize, start: usize, n: usize)
    requires held { H.held rooms.old room }
    requires within { start + n ≤ H.entries rooms.old }
    requires few { from + n ≤ GREATEST_ENTRIES }
    requires named { AllNamed (slots_from from n (H.slots rooms.old)) }
    ensures stays { H.stays rooms.old rooms.new }
    ensures ranges { H.ranges rooms.new ≡ H.ranges rooms.old }
    ensures slots { H.slots rooms.new ≡ H.slots rooms.old }
    ensures rooms { StoresSlots room start (slots_from from n (H.slots rooms.old)) (start + n) n (H.rooms rooms.old) (H.rooms rooms.new) }
{
    let end = start + n;
    for i in 0..n {
        let slot = rooms.slot(from + i);
        store_slot(
            rooms,
            room,
            (start + i) as u32,
            slot,
            next_of(start + i, end),
        );
    }
}

/// Makes `n` slots, the first of which is slot `from`, the entries of a held room: its sorted prefix, with
/// links from each to the next, and nothing behind it. No entry that the ranges carry lacks a value.
pub(crate) fn fill_room<H: HeldRooms>(rooms: &mut H, room: u32, from: usize, n: usize, base: u64)
    requires held { H.held rooms.old room }
    requires valued { Each AllValued (H.ranges rooms.old) }
    requires within { n ≤ H.entries rooms.old }
    requires few { from + n ≤ GREATEST_ENTRIES }
    requires named { AllNamed (slots_from from n (H.slots rooms.old)) }
    ensures stays { H.stays rooms.old rooms.new }
    ensures ranges { H.ranges rooms.new ≡ H.ranges rooms.old }
    ensures slots { H.slots rooms.new ≡ H.slots rooms.old }
    ensures rooms { Fills (H.entries rooms.old) room (slots_from from n (H.slots rooms.old)) base (H.rooms rooms.old) (H.rooms rooms.new) }
{
    let others = rooms.entries_each() as usize - n;
    clear_entries(rooms, room, n, others);
    store_slots(rooms, room, from, 0, n);
    rooms.store(room, RoomWord::Base, base);
    rooms.store(room, RoomWord::First, first_of(n));
    rooms.store(room, RoomWord::Count, n as u64 * SORTED_ENTRY);
}

/// Makes the first `n` slots entries of a held room behind its first `start` entries, which are linked one
/// behind the other. All of them are its sorted prefix then, and linked.
pub(crate) fn append_slots<H: HeldRooms>(
    rooms: &mut H,
    room: u32,
    start: usize,
    n: usize,
    base: u64,
)
    requires held { H.held rooms.old room }
    requires within { start + n ≤ H.entries rooms.old }
    requires linked { IsLinked room start (H.rooms rooms.old) }
    requires named { AllNamed (take n (H.slots rooms.old)) }
    ensures stays { H.stays rooms.old rooms.new }
    ensures ranges { H.ranges rooms.new ≡ H.ranges rooms.old }
    ensures slots { H.slots rooms.new ≡ H.slots rooms.old }
    ensures rooms { Appends room start (take n (H.slots rooms.old)) base (H.rooms rooms.old) (H.rooms rooms.new) }
{
    rooms.store(room, RoomWord::Base, base);
    rooms.store(room, RoomWord::Count, (start + n) as u64 * SORTED_ENTRY);
    store_slots(rooms, room, 0, start, n);
    if n > 0 {
        rooms.store(room, link_to(start as u32), start as u64 + 1);
    }
}
