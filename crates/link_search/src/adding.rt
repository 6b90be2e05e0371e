//! Entries are added along the links.
ghost use Rattle.std.specs.Prelude.{◌≡◌, List, [], ◌∷◌};
ghost use Rattle.link_search.specs.Adds.{AddedAs, LinkedAs, LinkedStraight, StraightAs, IfBusy};
ghost use Rattle.link_search.specs.Linked.{Grown, Later, IsAboveFrom, IsBelowTo, IsPlaced};
ghost use Rattle.link_search.specs.Met.{Met, Looked, gave_up};

use crate::room::LinkedRoom;
use crate::ties::Tie;
use crate::walking::{Place, walk};
use chunk_core::count_word::entries_in;

/// What became of an entry that was to be added: one of the key was found, or it is linked; or the room
/// has as many as it may, or its count or a link was changed.
#[derive(Clone, Copy, Debug)]
pub enum Outcome {
    Found(u32),
    Added(u32),
    Full,
    Busy,
}

/// Gives the claim up, as nothing was linked: the block is the pass's again.
fn give_back<R: LinkedRoom>(room: &mut R, key: &[u8], entry: u32)
    requires pinned { R.pinned room.old }
    requires claimed { R.claims room.old entry key.now }
    ensures pinned { R.pinned room.new }
    ensures later { Later (R.view room.old) (R.view room.new) }
    ensures holds { R.holds room.new key.now }
    ensures meets { R.meets room.old room.new (gave_up entry ∷ []) }
{
    room.give_up(key, entry);
}

/// Links the claimed entry. Where the link is lost, the walk goes on from the entry before it, and links
/// again where that finds none of the key, as often as the room may have entries at most; else the claim
/// is given up.
fn link_claimed<R: LinkedRoom>(
    room: &mut R,
    key: &[u8],
    start: Place,
    entry: u32,
    most: u32,
) -> Outcome
    requires pinned { R.pinned room.old }
    requires claimed { R.claims room.old entry key.now }
    requires points { R.points room.old start.link }
    requires placed { IsPlaced (R.view room.old) start.from start.link key.now }
    ensures pinned { R.pinned room.new }
    ensures grown { Grown (R.view room.old) (R.view room.new) }
    ensures linked { (s : _) → Looked R.meets start.from start.link s room.old → LinkedAs R.view R.meets R.holds R.free result entry key.now s room.new }
    ensures whole { (ms : List Met) × R.meets room.old room.new ms }
    ensures straight { (s : _) → Looked R.meets start.from start.link s room.old → R.lone s
        → LinkedStraight R.meets result start.from start.link entry room.old room.new }
{
    let mut left = most;
    let mut place = start;
    loop {
        if room.link_to(key, place.from, entry, place.link) {
            return Outcome::Added(entry);
        }
        if left == 0 {
            give_back(room, key, entry);
            return Outcome::Busy;
        }
        left -= 1;
        let next = walk(room, Some(key), Tie::Reached, place.from, place.link);
        if let Some(found) = next.entry_of_key() {
            give_back(room, key, entry);
            return Outcome::Found(found);
        }
        room.point(key, entry, next.link);
        place = next;
    }
}

/// Adds an entry of the key, for which the pass has a block, unless the room has one: the links are walked
/// from the entry `from`, as a search found it before, or from the first, and where they lead to the link
/// `seen`, by which that search ended, no key is compared again. The entry is claimed by the
/// count, stored, and linked in the order of the keys. `Full` comes only where the count was found at the
/// most that the room may have, before the link that leads over the key was loaded, and the call made
/// loads alone. `Busy` comes only where the count or a link was found other than it was loaded before,
/// with no step of the call between that changed it, and never to a pass that is alone, which adds an entry
/// straight: by loads, the claim, the three words and the link, each at the first try. But where an entry is
/// added the pass has the block still, and no claim.
pub fn add<R: LinkedRoom>(
    room: &mut R,
    key: &[u8],
    from: Option<u32>,
    seen: u32,
    most: u32,
) -> Outcome
    requires pinned { R.pinned room.old }
    requires holds { R.holds room.old key.now }
    requires behind { IsAboveFrom (R.view room.old) from key.now }
    requires seen { IsBelowTo (R.view room.old) seen key.now }
    requires most { most ≡ R.most room.old }
    ensures pinned { R.pinned room.new }
    ensures grown { Grown (R.view room.old) (R.view room.new) }
    ensures added { AddedAs R.view R.meets R.holds R.free result key.now most room.old room.new }
    ensures whole { (ms : List Met) × R.meets room.old room.new ms }
    ensures alone { IfBusy result (R.lone room.old → ⊥) }
    ensures straight { R.lone room.old → StraightAs R.view R.meets result key.now room.old room.new }
{
    let first = room.count();
    let place = walk(room, Some(key), Tie::Reached, from, seen);
    if let Some(found) = place.entry_of_key() {
        return Outcome::Found(found);
    }
    if entries_in(first) == most {
        return Outcome::Full;
    }
    let count = room.count();
    let entry = entries_in(count);
    if entry == most {
        return Outcome::Busy;
    }
    if !room.claim(key, count, place.link) {
        return Outcome::Busy;
    }
    link_claimed(room, key, place, entry, most)
}
