//! Where the bytes of a key's block stand.
ghost use Rattle.std.specs.Prelude.{◌≡◌};
ghost use Rattle.arena_core.specs.Arena.{IsInArena, at_bytes};
ghost use Rattle.arena_core.specs.Place.{block_in, class_in};
ghost use Rattle.oak_core.specs.Memory.{in_arena, index};
ghost use Rattle.oak_core.specs.Passes.{key as sizes};

use arena_core::place::{block_in, class_in};
use oak_core::OakTable;
use oak_model::Class;

/// A key word below this names a block of the least class, and each other one a block of another class.
const OTHER_CLASSES: u64 = 1 << 48;

/// The number of word `i` of the block that a key word names. Most keys have at most 16 bytes, so that their
/// blocks are of the least class. Where the class is known, so are the size of its blocks and the place of
/// its offset, and neither is looked up.
pub fn key_block_at(table: &OakTable, place: u64, i: usize) -> u32
    requires { IsInArena (sizes table.now) (at_bytes (class_in place) (block_in place) i) }
    ensures { result ≡ index (sizes table.now) (in_arena (at_bytes (class_in place) (block_in place) i)) }
{
    if place < OTHER_CLASSES {
        return table.bytes_at(Class::B16, block_in(place), i as u32);
    }
    table.bytes_at(class_in(place), block_in(place), i as u32)
}
