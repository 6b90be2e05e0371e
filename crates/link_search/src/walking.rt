//! A walk along links to a place in the order of keys.
ghost use Rattle.std.specs.Prelude.{◌≡◌, ℕ, ◌<◌, MatchOption, false};
ghost use Rattle.std.specs.Ordering.{is_eq};
ghost use Rattle.std.specs.declared.cmp.Ordering.TheVariants.{Less};
ghost use Rattle.link_search.specs.Linked.{IsFound, IsCut};
ghost use Rattle.link_search.specs.Met.{LoadsOneKey};
ghost use Rattle.link_search.specs.Ties.{order_to, IsPassed, IsReached, bytes_in_option};
ghost use Rattle.link_search.specs.Walks.{Walks, StepsOver, StopsAt, TellsOrder, IsTied};

use crate::room::LinkedRoom;
use crate::ties::Tie;
use std::cmp::Ordering;

/// A place in the order of keys: the entry before it, if there is one, the link of that entry or the
/// first, and how the key that was sought compares with that of the entry that the link names; `Less`,
/// where it names none.
#[derive(Clone, Copy)]
pub(crate) struct Place {
    pub(crate) from: Option<u32>,
    pub(crate) link: u32,
    pub(crate) order: Ordering,
}

impl Place {
    /// The entry of the very key that was sought, where the link names it.
    pub(crate) fn entry_of_key(self) -> Option<u32>
        requires { self.link ≡ 0 → self.order ≡ Less }
        ensures { MatchOption result (is_eq self.order ≡ false) (λ i. IsTied self.order i self.link) }
    {
        if self.order.is_eq() {
            self.link.checked_sub(1)
        } else {
            None
        }
    }
}

/// How the key that is sought compares with that of an entry: `Greater` where there is none, as it is
/// sought behind all.
fn order_to<R: LinkedRoom>(room: &mut R, bound: Option<&[u8]>, entry: u32) -> Ordering
    requires pinned { R.pinned room.old }
    requires found { IsFound (R.view room.old) entry }
    ensures pinned { R.pinned room.new }
    ensures same { R.view room.new ≡ R.view room.old }
    ensures order { result ≡ order_to (bytes_in_option bound.entry) ((R.view room.old).key entry) }
    ensures loads { LoadsOneKey R.meets room.old room.new }
{
    match bound {
        Some(key) => room.compare(key, entry),
        None => Ordering::Greater,
    }
}

/// Walks from an entry that lies before the place, or from the first link, to the link that leads over
/// the place. The link `seen` is known to lead over it, or is 0: where the walk comes to it, it compares no
/// key.
#[inline(always)] // an answer goes through memory at a call
pub(crate) fn walk<R: LinkedRoom>(
    room: &mut R,
    bound: Option<&[u8]>,
    tie: Tie,
    from: Option<u32>,
    seen: u32,
) -> Place
    requires pinned { R.pinned room.old }
    requires behind { IsCut (R.view room.old) from (IsPassed tie (bytes_in_option bound)) }
    requires seen { StopsAt (R.view room.old) (bytes_in_option bound) seen }
    ensures walks { Walks R.pinned R.view R.meets from (IsPassed tie (bytes_in_option bound.entry)) 1 room.old room.new }
    ensures over { StepsOver R.view R.meets (IsPassed tie (bytes_in_option bound.entry)) (IsReached tie (bytes_in_option bound.entry)) result.from result.link room.old room.new }
    ensures order { TellsOrder result.order (R.view room.new) (bytes_in_option bound.entry) result.link }
{
    let mut before = from;
    let mut passed = 0u32;
    loop {
        let link = room.link(before);
        if link == 0 || link == seen {
            let order = Ordering::Less;
            return Place {
                from: before,
                link,
                order,
            };
        }
        let order = order_to(room, bound, link - 1);
        if !tie.passes(order) {
            return Place {
                from: before,
                link,
                order,
            };
        }
        before = Some(link - 1);
        passed += 1;
    }
}
