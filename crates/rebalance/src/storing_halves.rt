//! The slots of one held room, stored into two.
ghost use Rattle.std.specs.Prelude.{◌≡◌, ◌≢◌, ◌-◌, ◌<◌, ◌≤◌, ◌/◌, take};
ghost use Rattle.std.specs.List.{slice_index_or};
ghost use Rattle.oak_model.specs.Counts.{Each};
ghost use Rattle.oak_model.specs.declared.limits.TheConstants.{GREATEST_ENTRIES, GREATEST_KEY};
ghost use Rattle.oak_core.specs.declared.sorting.SortSlot.{SortSlot};
ghost use Rattle.rebalance.specs.Filled.{FillsBoth, slots_from};
ghost use Rattle.rebalance.specs.HeldRooms.{AllValued};
ghost use Rattle.rebalance.specs.Slots.{AllNamed, key_of};
ghost use Rattle.rebalance.specs.Split.{Splits};

use crate::bounds::{copy_high, store_high, store_low};
use crate::filling::fill_room;
use crate::held_rooms::HeldRooms;
use chunk_ops::StoredKey;

/// Stores the lower half of the first `n` slots into one held room and the others into another one.
fn fill_halves<H: HeldRooms>(rooms: &mut H, low: u32, high: u32, n: usize, base: u64)
    requires low { H.held rooms.old low }
    requires high { H.held rooms.old high }
    requires apart { low ≢ high }
    requires within { n ≤ H.entries rooms.old }
    requires named { AllNamed (take n (H.slots rooms.old)) }
    requires valued { Each AllValued (H.ranges rooms.old) }
    ensures stays { H.stays rooms.old rooms.new }
    ensures ranges { H.ranges rooms.new ≡ H.ranges rooms.old }
    ensures slots { H.slots rooms.new ≡ H.slots rooms.old }
    ensures rooms { let half = n / 2 in FillsBoth (H.entries rooms.old) low high (take half (H.slots rooms.old))
        (slots_from half (n - half) (H.slots rooms.old)) base (H.rooms rooms.old) (H.rooms rooms.new) }
{
    let half = n / 2;
    fill_room(rooms, low, 0, half, base);
    fill_room(rooms, high, half, n - half, base);
}

/// The key of a slot.
fn slot_key<H: HeldRooms>(rooms: &H, i: usize) -> StoredKey
    requires { i < GREATEST_ENTRIES }
    ensures { (d : SortSlot) → result ≡ key_of (slice_index_or (H.slots rooms.now) i d) }
{
    let slot = rooms.slot(i);
    StoredKey::from_words(slot.words, slot.length)
}

/// Splits the first `n` slots, which have the entries of a held room in the order of their keys, into two
/// held rooms, the second of which gets the upper half and begins at the first key of that.
pub(crate) fn split_held<H: HeldRooms>(rooms: &mut H, low: u32, high: u32, n: usize, base: u64)
    requires low { H.held rooms.old low }
    requires high { H.held rooms.old high }
    requires apart { low ≢ high }
    requires some { 0 < n }
    requires within { n ≤ H.entries rooms.old }
    requires named { AllNamed (take n (H.slots rooms.old)) }
    requires valued { Each AllValued (H.ranges rooms.old) }
    requires keys { (d : SortSlot) → (slice_index_or (H.slots rooms.old) (n / 2) d).length ≤ GREATEST_KEY }
    ensures stays { H.stays rooms.old rooms.new }
    ensures ranges { H.ranges rooms.new ≡ H.ranges rooms.old }
    ensures slots { H.slots rooms.new ≡ H.slots rooms.old }
    ensures rooms { (d : SortSlot) → let half = n / 2 in let slots = H.slots rooms.old in
        Splits (H.entries rooms.old) low high (take half slots) (slots_from half (n - half) slots)
        (key_of (slice_index_or slots half d)) base (H.rooms rooms.old) (H.rooms rooms.new) }
{
    let middle = slot_key(rooms, n / 2);
    copy_high(rooms, low, high);
    store_low(rooms, high, &middle);
    store_high(rooms, low, &middle);
    fill_halves(rooms, low, high, n, base);
}
