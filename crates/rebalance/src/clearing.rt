//! Clears entries of held rooms.
ghost use Rattle.std.specs.Prelude.{◌≡◌, ◌+◌, ◌<◌, ◌≤◌};
ghost use Rattle.oak_model.specs.Counts.{Each};
ghost use Rattle.rebalance.specs.Filled.{ClearsEntries};
ghost use Rattle.rebalance.specs.HeldRooms.{AllValued};

use crate::held_rooms::HeldRooms;

/// Makes the key word and the value word of `n` entries of a held room 0, from entry `from` on.
pub(crate) fn clear_entries<H: HeldRooms>(rooms: &mut H, room: u32, from: usize, n: usize)
    requires held { H.held rooms.old room }
    requires within { from + n ≤ H.entries rooms.old }
    requires valued { Each AllValued (H.ranges rooms.old) }
    ensures stays { H.stays rooms.old rooms.new }
    ensures ranges { H.ranges rooms.new ≡ H.ranges rooms.old }
    ensures slots { H.slots rooms.new ≡ H.slots rooms.old }
    ensures rooms { ClearsEntries room from n (H.rooms rooms.old) (H.rooms rooms.new) }
{
    for i in 0..n {
        rooms.clear_entry(room, (from + i) as u32);
    }
}
