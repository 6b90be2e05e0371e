//! Puts.
ghost use Rattle.std.specs.Prelude.{◌≡◌, ◌+◌, ◌-◌, ◌^◌, IfOk, OnErr, OnOk};
ghost use Rattle.oak_model.specs.declared.cells.CellCall.TheVariants.{Put, PutNew};
ghost use Rattle.oak_model.specs.Key.{IsKey};
ghost use Rattle.oak_model.specs.Value.{IsValue};
ghost use Rattle.oak_core.specs.Scratch.{StaysButSlots};
ghost use Rattle.oak_caller.specs.Callers.{CallsNext, KeepsViews, last_of, sizes_of, state_of};
ghost use Rattle.oak_caller.specs.Puts.{Puts};

use crate::caller::Caller;
use crate::turns::{WornOut, next_call};
use oak_model::Wrote;
use std::sync::Wait;

impl<R: Wait + Drop + Send> Caller<'_, R> {
    /// Puts the value of a key: `New` where it was absent, `Over` where it was present, and `Full` where the map lacks
    /// what the call needs, which made no write then. A worn out caller did nothing.
    pub fn put(&mut self, rt: &R, key: &[u8], value: &[u8]) -> Result<Wrote, WornOut>
        requires key { IsKey key.now }
        requires value { IsValue value.now }
        ensures next { OnOk result (CallsNext StaysButSlots self.old self.new) }
        ensures views { OnOk result (KeepsViews self.old self.new) }
        ensures puts { IfOk result (λ y. Puts y (sizes_of self.old) (last_of self.old + 1) key.now (Put value.now)
            (state_of self.old) (state_of self.new)) }
        ensures worn { OnErr result (last_of self.old ≡ 2 ^ 32 - 1) }
        ensures nothing { OnErr result (self.new ≡ self.old) }
    {
        next_call(&mut self.pass, &mut self.last)?;
        Ok(self.map.put(rt, &mut self.pass, key, value))
    }

    /// Puts the value of a key if it is absent: `New` then, `Kept` where it was present, and `Full` as for
    /// [`Caller::put`].
    pub fn put_if_absent(&mut self, rt: &R, key: &[u8], value: &[u8]) -> Result<Wrote, WornOut>
        requires key { IsKey key.now }
        requires value { IsValue value.now }
        ensures next { OnOk result (CallsNext StaysButSlots self.old self.new) }
        ensures views { OnOk result (KeepsViews self.old self.new) }
        ensures puts { IfOk result (λ y. Puts y (sizes_of self.old) (last_of self.old + 1) key.now (PutNew value.now)
            (state_of self.old) (state_of self.new)) }
        ensures worn { OnErr result (last_of self.old ≡ 2 ^ 32 - 1) }
        ensures nothing { OnErr result (self.new ≡ self.old) }
    {
        next_call(&mut self.pass, &mut self.last)?;
        Ok(self.map.put_if_absent(rt, &mut self.pass, key, value))
    }
}
