//! Removals.
ghost use Rattle.std.specs.Prelude.{◌≡◌, ◌+◌, ◌-◌, ◌^◌, IfOk, OnErr, OnOk};
ghost use Rattle.oak_model.specs.declared.cells.CellCall.TheVariants.{Remove};
ghost use Rattle.oak_model.specs.Key.{IsKey};
ghost use Rattle.oak_core.specs.Passes.{Stays};
ghost use Rattle.oak_caller.specs.Callers.{CallsNext, KeepsViews, last_of, sizes_of, state_of};
ghost use Rattle.oak_caller.specs.Puts.{Changes};

use crate::caller::Caller;
use crate::turns::{WornOut, next_call};
use oak_model::Wrote;
use std::sync::Wait;

impl<R: Wait + Drop + Send> Caller<'_, R> {
    /// Removes a key: `Removed` where it was present, and `Absent` where it was not.
    pub fn remove(&mut self, rt: &R, key: &[u8]) -> Result<Wrote, WornOut>
        requires key { IsKey key.now }
        ensures next { OnOk result (CallsNext Stays self.old self.new) }
        ensures views { OnOk result (KeepsViews self.old self.new) }
        ensures changes { IfOk result (λ y. Changes y (sizes_of self.old) (last_of self.old + 1) key.now Remove
            (state_of self.old) (state_of self.new)) }
        ensures worn { OnErr result (last_of self.old ≡ 2 ^ 32 - 1) }
        ensures nothing { OnErr result (self.new ≡ self.old) }
    {
        next_call(&mut self.pass, &mut self.last)?;
        Ok(self.map.remove(rt, &mut self.pass, key))
    }
}
