//! The bounds of held rooms.
ghost use Rattle.std.specs.Prelude.{◌≡◌, ◌≢◌, ◌+◌, ◌≤◌};
ghost use Rattle.oak_model.specs.declared.limits.TheConstants.{GREATEST_KEY};
ghost use Rattle.chunk_core.specs.declared.layout.TheConstants.{BOUND_WORDS};
ghost use Rattle.rebalance.specs.Bounds.{Sets, KeepsButBounds, bound_word};

use crate::held_rooms::{HeldRooms, RoomWord};
use chunk_core::layout::BOUND_WORDS;
use chunk_ops::{KEY_WORDS, StoredKey};

/// Stores a key as the low bound of a held room.
pub(crate) fn store_low<H: HeldRooms>(rooms: &mut H, room: u32, key: &StoredKey)
    requires { H.held rooms.old room }
    ensures stays { H.stays rooms.old rooms.new }
    ensures ranges { H.ranges rooms.new ≡ H.ranges rooms.old }
    ensures slots { H.slots rooms.new ≡ H.slots rooms.old }
    ensures low { Sets room BOUND_WORDS (bound_word key.now.length key.now.words) (H.rooms rooms.old).low (H.rooms rooms.new).low }
    ensures high { (H.rooms rooms.new).high ≡ (H.rooms rooms.old).high }
    ensures rest { KeepsButBounds (H.rooms rooms.old) (H.rooms rooms.new) }
{
    let (length, words) = key.parts();
    rooms.store(room, RoomWord::Low(0), length as u64);
    for i in 0..KEY_WORDS {
        rooms.store(room, RoomWord::Low(i as u32 + 1), words[i]);
    }
}

/// Stores a key as the high bound of a held room.
pub(crate) fn store_high<H: HeldRooms>(rooms: &mut H, room: u32, key: &StoredKey)
    requires held { H.held rooms.old room }
    requires few { key.now.length ≤ GREATEST_KEY }
    ensures stays { H.stays rooms.old rooms.new }
    ensures ranges { H.ranges rooms.new ≡ H.ranges rooms.old }
    ensures slots { H.slots rooms.new ≡ H.slots rooms.old }
    ensures high { Sets room BOUND_WORDS (bound_word (key.now.length + 1) key.now.words) (H.rooms rooms.old).high (H.rooms rooms.new).high }
    ensures low { (H.rooms rooms.new).low ≡ (H.rooms rooms.old).low }
    ensures rest { KeepsButBounds (H.rooms rooms.old) (H.rooms rooms.new) }
{
    let (length, words) = key.parts();
    rooms.store(room, RoomWord::High(0), length as u64 + 1);
    for i in 0..KEY_WORDS {
        rooms.store(room, RoomWord::High(i as u32 + 1), words[i]);
    }
}

/// Makes the high bound of a held room that of another one.
pub(crate) fn copy_high<H: HeldRooms>(rooms: &mut H, from: u32, to: u32)
    requires from { H.held rooms.old from }
    requires to { H.held rooms.old to }
    requires apart { from ≢ to }
    ensures stays { H.stays rooms.old rooms.new }
    ensures ranges { H.ranges rooms.new ≡ H.ranges rooms.old }
    ensures slots { H.slots rooms.new ≡ H.slots rooms.old }
    ensures high { Sets to BOUND_WORDS ((H.rooms rooms.old).high from) (H.rooms rooms.old).high (H.rooms rooms.new).high }
    ensures low { (H.rooms rooms.new).low ≡ (H.rooms rooms.old).low }
    ensures rest { KeepsButBounds (H.rooms rooms.old) (H.rooms rooms.new) }
{
    for i in 0..BOUND_WORDS as u32 {
        let word = rooms.load(from, RoomWord::High(i));
        rooms.store(to, RoomWord::High(i), word);
    }
}
