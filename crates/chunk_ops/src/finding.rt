//! The sorted prefix is halved.
ghost use Rattle.std.specs.Prelude.{◌≡◌, MatchResult};
ghost use Rattle.chunk_ops.specs.Reads.{Reads, Compares};
ghost use Rattle.link_search.specs.Bits.{bits};
ghost use Rattle.link_search.specs.Finds.{IsAt, IsBetween};
ghost use Rattle.link_search.specs.Linked.{IsFront};

use crate::comparing::{compare, head_of};
use crate::room::SearchedRoom;
use std::cmp::Ordering;

/// Halves the sorted prefix: the entry of the key there, or how many entries have smaller keys.
pub(crate) fn search_sorted<R: SearchedRoom>(
    room: &mut R,
    key: &[u8],
    prefix: u32,
) -> Result<u32, u32>
    requires pinned { R.pinned room.old }
    requires prefix { prefix ≡ (R.room room.old).found.prefix }
    requires front { IsFront (R.room room.old).found }
    ensures reads { Reads R.pinned R.room R.meets (Compares key.now) (bits prefix) room.old room.new }
    ensures place { MatchResult result (λ i. IsAt (R.room room.old).found key.now i) (λ i. IsBetween (R.room room.old).found key.now i) }
{
    let head = head_of(key);
    let mut low = 0;
    let mut high = prefix;
    while low < high {
        let middle = low + (high - low) / 2;
        match compare(room, key, head, middle) {
            Ordering::Less => high = middle,
            Ordering::Equal => return Ok(middle),
            Ordering::Greater => low = middle + 1,
        }
    }
    Err(low)
}
