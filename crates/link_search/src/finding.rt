//! The entry of a key.
ghost use Rattle.std.specs.Prelude.{◌≡◌, ◌+◌, ◌<◌, ◌≤◌, MatchOption};
ghost use Rattle.link_search.specs.Finds.{Finds, LoadsFew};
ghost use Rattle.link_search.specs.Linked.{Grown};

use crate::room::{LinkedRoom, Sorted};
use crate::ties::Tie;
use crate::walking::walk;
use chunk_core::count_word::prefix_in;

/// What a search along the links finds: the entry of the key, or behind which entry it belongs, `None`
/// where that is before all, and the link of that entry, or the first, which leads over the key.
#[derive(Clone, Copy, Debug)]
pub enum Sought {
    Entry(u32),
    Missing { behind: Option<u32>, link: u32 },
}

/// The last entry of the prefix that lies before a place, where the first `many` do.
pub(crate) fn before(many: u32) -> Option<u32>
    ensures { MatchOption result (many ≡ 0) (λ i. many ≡ i + 1) }
{
    if many == 0 { None } else { Some(many - 1) }
}

/// The link that names the entry of the prefix behind the first so many, 0 where there is none.
fn link_behind(many: u32, prefix: u32) -> u32
    ensures named { many < prefix → result ≡ many + 1 }
    ensures none { prefix ≤ many → result ≡ 0 }
{
    if many < prefix { many + 1 } else { 0 }
}

/// The entry of the key: the sorted prefix is halved, and the links from there are walked. Where they lead
/// to the next entry of the prefix, whose key was found to be greater, none is compared. The count is
/// loaded behind the walk, too, so that all entries that were passed are below it. It is missing only
/// where a link that was loaded in the call leads from a smaller key, or from the low bound, to a greater
/// one, or to the high bound, and no entry that was found has the key. That link is of the entry behind
/// which the key belongs, and none that was found lies between the two. The call makes loads alone.
#[inline(always)] // an answer goes through memory at a call
pub fn find<R: LinkedRoom>(room: &mut R, key: &[u8]) -> Sought
    requires pinned { R.pinned room.old }
    ensures pinned { R.pinned room.new }
    ensures grown { Grown (R.view room.old) (R.view room.new) }
    ensures finds { Finds R.view R.meets result key.now room.old room.new }
    ensures loads { LoadsFew R.meets (R.view room.new) room.old room.new }
{
    let count = room.count();
    let prefix = prefix_in(count);
    match room.search(key, prefix) {
        Sorted::At(entry) => Sought::Entry(entry),
        Sorted::Between(many) => {
            let from = before(many);
            let seen = link_behind(many, prefix);
            let place = walk(room, Some(key), Tie::Reached, from, seen);
            room.count();
            match place.entry_of_key() {
                Some(entry) => Sought::Entry(entry),
                None => Sought::Missing {
                    behind: place.from,
                    link: place.link,
                },
            }
        }
    }
}
