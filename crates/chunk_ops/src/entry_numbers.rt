//! The numbers of the words of a room's entries.
ghost use Rattle.std.specs.Prelude.{◌≡◌, ◌<◌};
ghost use Rattle.chunk_core.specs.Rooms.{IsInRooms, at_key};
ghost use Rattle.oak_core.specs.Memory.{in_rooms, index};
ghost use Rattle.oak_core.specs.Passes.{key as sizes};

use chunk_core::layout::ENTRY_WORDS;
use oak_core::OakTable;

/// The number of the key word of a room's first entry.
pub fn first_key_at(table: &OakTable, room: u32) -> u32
    requires { room < (sizes table.now).chunks }
    ensures { result ≡ index (sizes table.now) (in_rooms (at_key room 0)) }
{
    // Each room has an entry.
    let _entries = table.entries();
    table.key_at(room, 0)
}

/// The number of an entry's key word, by that of the room's first entry. The value word and the link of an entry stand
/// right behind its key word.
pub fn entry_at(table: &OakTable, room: u32, first: u32, entry: u32) -> u32
    requires first { first ≡ index (sizes table.now) (in_rooms (at_key room 0)) }
    requires inside { IsInRooms (sizes table.now) (at_key room entry) }
    ensures { result ≡ index (sizes table.now) (in_rooms (at_key room entry)) }
{
    first + entry * ENTRY_WORDS as u32
}
