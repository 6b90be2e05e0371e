//! How many rooms a pass has pinned.
ghost use Rattle.std.specs.Prelude.{◌≡◌};
ghost use Rattle.oak_core.specs.Passes.{tries};

use crate::table::Pass;

impl Pass {
    /// How many rooms the pass has pinned since it was made, those among them that were not open or had not the
    /// range that was looked for; 2^64 - 1 where there were more. What a joined pass pinned is not among them.
    pub fn tries(&self) -> u64
        ensures { result ≡ tries self.now }
    {
        self.tries
    }
}
