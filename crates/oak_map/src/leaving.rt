//! A pass of which nothing is asked any more. Whoever wants to know what a map's passes wrote and found joins and closes
//! instead.
use crate::map::MapPass;
use oak_core::Pass;

impl MapPass {
    /// Gives up the pass, as [`Pass::leave`] does.
    pub fn leave(self) {
        let MapPass { pass } = self;
        pass.leave();
    }
}
