//! The scratch of a pass, for the bytes of a value and for the entries of a room.
ghost use Rattle.std.specs.Prelude.{◌≡◌};
ghost use Rattle.std.specs.Borrow.{sem};
ghost use Rattle.oak_core.specs.Passes.{scratch_of, slots_of};
ghost use Rattle.oak_core.specs.Scratch.{LendsScratch, LendsSlots};

use crate::sorting::Sorting;
use crate::table::Pass;
use crate::writing::Writing;

impl Pass {
    /// The scratch for the bytes of one value, which is the pass's own.
    pub fn scratch(&self) -> &Writing
        ensures { result.now ≡ scratch_of self.now }
    {
        &self.scratch
    }

    /// The scratch, to be changed. Nothing else of the pass changes.
    pub fn scratch_mut(&mut self) -> &mut Writing
        ensures* writes_back { sem 𝓛 (LendsScratch self.entry result) }
        ensures value { result.now ≡ scratch_of self.old }
    {
        &mut self.scratch
    }

    /// The slots in which the entries of a room are sorted, which are the pass's own.
    pub fn sorting(&self) -> &Sorting
        ensures { result.now ≡ slots_of self.now }
    {
        &self.sorting
    }

    /// The slots, to be changed. Nothing else of the pass changes.
    pub fn sorting_mut(&mut self) -> &mut Sorting
        ensures* writes_back { sem 𝓛 (LendsSlots self.entry result) }
        ensures value { result.now ≡ slots_of self.old }
    {
        &mut self.sorting
    }
}
