//! Looks at a key.
ghost use Rattle.oak_model.specs.Key.{IsKey};
ghost use Rattle.oak_core.specs.Passes.{Stays};
ghost use Rattle.oak_caller.specs.Callers.{CallsOn, KeepsViews, last_of, sizes_of, state_of};
ghost use Rattle.oak_caller.specs.Looks.{HasFits, IsView};

use crate::caller::Caller;
use point_ops::Got;
use std::sync::Wait;

impl<R: Wait + Drop + Send> Caller<'_, R> {
    /// Whether a key is present.
    pub fn contains(&mut self, rt: &R, key: &[u8]) -> bool
        requires key { IsKey key.now }
        ensures on { CallsOn Stays self.old self.new }
        ensures views { KeepsViews self.old self.new }
        ensures has { HasFits result (sizes_of self.old) (last_of self.old) key.now (state_of self.old) (state_of self.new) }
    {
        let got = self.map.view(rt, &mut self.pass, key);
        is_view(got)
    }
}

/// Whether there is a value.
fn is_view(got: Got) -> bool
    ensures { IsView got result }
{
    match got {
        Got::Absent { at: _ } => false,
        Got::View(_view) => true,
    }
}
