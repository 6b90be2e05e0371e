//! The nearest greater or smaller key.
ghost use Rattle.std.specs.Prelude.{◌≡◌, ℕ, Option, Some, None};
ghost use Rattle.oak_model.specs.Key.{AreBytes};
ghost use Rattle.link_search.specs.Bits.{bits};
ghost use Rattle.link_search.specs.Finds.{LoadsFew};
ghost use Rattle.link_search.specs.Linked.{Grown, IsFront, IsSplit};
ghost use Rattle.link_search.specs.Met.{LoadsKeys};
ghost use Rattle.link_search.specs.Nearest.{AreBoundBytes, IsAbove, IsBelow, IsLeastAbove, IsGreatestBelow, link_to};
ghost use Rattle.link_search.specs.Ties.{IsPassed, IsReached, bytes_in_option};
ghost use Rattle.link_search.specs.Walks.{StepsOver};

use crate::finding::before;
use crate::room::{LinkedRoom, Sorted};
use crate::ties::Tie;
use crate::walking::{Place, walk};
use chunk_core::count_word::prefix_in;

/// How many entries of the sorted prefix a walk to the key passes.
fn sorted_passed<R: LinkedRoom>(room: &mut R, key: &[u8], tie: Tie, prefix: u32) -> u32
    requires pinned { R.pinned room.old }
    requires prefix { prefix ≡ (R.view room.old).prefix }
    requires front { IsFront (R.view room.old) }
    ensures pinned { R.pinned room.new }
    ensures same { R.view room.new ≡ R.view room.old }
    ensures split { IsSplit (R.view room.old) (IsPassed tie (Some key.now)) result }
    ensures bytes { AreBytes key.now }
    ensures loads { LoadsKeys R.meets (bits prefix) room.old room.new }
{
    match room.search(key, prefix) {
        Sorted::At(entry) => tie.lower_at(entry),
        Sorted::Between(many) => many,
    }
}

/// How many entries of the sorted prefix lie before the place.
fn sorted_before<R: LinkedRoom>(room: &mut R, bound: Option<&[u8]>, tie: Tie, prefix: u32) -> u32
    requires pinned { R.pinned room.old }
    requires prefix { prefix ≡ (R.view room.old).prefix }
    requires front { IsFront (R.view room.old) }
    ensures pinned { R.pinned room.new }
    ensures same { R.view room.new ≡ R.view room.old }
    ensures split { IsSplit (R.view room.old) (IsPassed tie (bytes_in_option bound.entry)) result }
    ensures bytes { AreBoundBytes (bytes_in_option bound.entry) }
    ensures loads { LoadsKeys R.meets (bits prefix) room.old room.new }
{
    match bound {
        None => prefix,
        Some(key) => sorted_passed(room, key, tie, prefix),
    }
}

/// The link that leads over the place of a key, or over the end where there is none.
fn step_over<R: LinkedRoom>(room: &mut R, bound: Option<&[u8]>, tie: Tie) -> Place
    requires pinned { R.pinned room.old }
    ensures pinned { R.pinned room.new }
    ensures grown { Grown (R.view room.old) (R.view room.new) }
    ensures over { StepsOver R.view R.meets (IsPassed tie (bytes_in_option bound.entry)) (IsReached tie (bytes_in_option bound.entry)) result.from result.link room.old room.new }
    ensures bytes { AreBoundBytes (bytes_in_option bound.entry) }
    ensures loads { LoadsFew R.meets (R.view room.new) room.old room.new }
{
    let count = room.count();
    let many = sorted_before(room, bound, tie, prefix_in(count));
    let from = before(many);
    let place = walk(room, bound, tie, from, 0);
    room.count();
    place
}

/// The first link.
fn first_link<R: LinkedRoom>(room: &mut R) -> u32
    requires pinned { R.pinned room.old }
    ensures pinned { R.pinned room.new }
    ensures grown { Grown (R.view room.old) (R.view room.new) }
    ensures over { StepsOver R.view R.meets (λ k. ⊥) (λ k. Unit) None result room.old room.new }
    ensures loads { LoadsFew R.meets (R.view room.new) room.old room.new }
{
    room.count();
    room.link(None)
}

/// The link that names the least entry above a key, or at it where a tie is reached; the first without
/// a key.
fn link_above<R: LinkedRoom>(room: &mut R, key: Option<&[u8]>, tie: Tie) -> u32
    requires pinned { R.pinned room.old }
    ensures pinned { R.pinned room.new }
    ensures grown { Grown (R.view room.old) (R.view room.new) }
    ensures over { (from : Option ℕ) × StepsOver R.view R.meets (λ k. IsAbove tie (bytes_in_option key.entry) k → ⊥) (IsAbove tie (bytes_in_option key.entry)) from result room.old room.new }
    ensures bytes { AreBoundBytes (bytes_in_option key.entry) }
    ensures loads { LoadsFew R.meets (R.view room.new) room.old room.new }
{
    match key {
        None => first_link(room),
        Some(bound) => step_over(room, Some(bound), tie).link,
    }
}

/// The entry of the least key above this one, or at it where a tie is reached, or of the least of all
/// where there is none. The link that names it, which was loaded in the call, leads from a key that is
/// not above, or from the low bound; a link of 0, which ends at the high bound, is none. Of the entries
/// found none is nearer. The call makes loads alone.
pub fn above<R: LinkedRoom>(room: &mut R, key: Option<&[u8]>, tie: Tie) -> Option<u32>
    requires pinned { R.pinned room.old }
    ensures pinned { R.pinned room.new }
    ensures grown { Grown (R.view room.old) (R.view room.new) }
    ensures over { (from : Option ℕ) × StepsOver R.view R.meets (λ k. IsAbove tie (bytes_in_option key.entry) k → ⊥) (IsAbove tie (bytes_in_option key.entry)) from (link_to result) room.old room.new }
    ensures nearest { IsLeastAbove (R.view room.new) tie (bytes_in_option key.entry) result }
    ensures bytes { AreBoundBytes (bytes_in_option key.entry) }
    ensures loads { LoadsFew R.meets (R.view room.new) room.old room.new }
{
    link_above(room, key, tie).checked_sub(1)
}

/// The entry of the greatest key below this one, or of the greatest of all where there is none. Its
/// link, or the first where there is no such entry, was loaded in the call, and leads to a key that is
/// not below, or to the high bound. Of the entries found none is nearer. The call makes loads alone.
pub fn below<R: LinkedRoom>(room: &mut R, key: Option<&[u8]>) -> Option<u32>
    requires pinned { R.pinned room.old }
    ensures pinned { R.pinned room.new }
    ensures grown { Grown (R.view room.old) (R.view room.new) }
    ensures over { (link : ℕ) × StepsOver R.view R.meets (IsBelow (bytes_in_option key.entry)) (λ k. IsBelow (bytes_in_option key.entry) k → ⊥) result link room.old room.new }
    ensures nearest { IsGreatestBelow (R.view room.new) (bytes_in_option key.entry) result }
    ensures bytes { AreBoundBytes (bytes_in_option key.entry) }
    ensures loads { LoadsFew R.meets (R.view room.new) room.old room.new }
{
    step_over(room, key, Tie::Reached).from
}
