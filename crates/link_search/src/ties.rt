//! On which side of a place in the order of keys an entry lies.
ghost use Rattle.std.specs.Prelude.{◌≡◌, ◌<◌, ◌^◌, ◌-◌};
ghost use Rattle.link_search.specs.Ties.{passes, lower_at};

use std::cmp::Ordering;

/// Whether a walk to a key passes an entry of that very key, or stops there.
#[derive(Clone, Copy, Debug)]
pub enum Tie {
    Passed,
    Reached,
}

impl Tie {
    /// Whether a walk passes an entry, by how the key compares with the entry's.
    pub(crate) fn passes(self, order: Ordering) -> bool
        ensures { result ≡ passes self order }
    {
        match (self, order) {
            (_, Ordering::Less) => false,
            (_, Ordering::Greater) => true,
            (Tie::Passed, Ordering::Equal) => true,
            (Tie::Reached, Ordering::Equal) => false,
        }
    }

    /// How many entries of a sorted prefix a walk passes, of which one has the very key.
    pub(crate) fn lower_at(self, entry: u32) -> u32
        requires { entry < 2 ^ 32 - 1 }
        ensures { result ≡ lower_at self entry }
    {
        match self {
            Tie::Passed => entry + 1,
            Tie::Reached => entry,
        }
    }
}
