//! A map that owns its words, from which callers come.
ghost use Rattle.std.specs.Prelude.{◌≡◌, ℕ, Err, IfOk};
ghost use Rattle.oak_core.specs.declared.passes.SplitFault.TheVariants as SplitFault;
ghost use Rattle.oak_core.specs.declared.states.PassState.{PassState};
ghost use Rattle.oak_core.specs.Opening.{first_state};
ghost use Rattle.oak_core.specs.Splitting.{SplitsOff};
ghost use Rattle.oak_caller.specs.Callers.{last_of, sizes_of, state_of};

use crate::caller::Caller;
use oak_core::SplitFault;
use oak_map::{MapPass, OakMap};
use oak_model::{OutOfMemory, Shape};
use std::marker::Model;
use std::sync::Wait;

/// A map, with a pass of its own from which its callers' passes are split. One that is dropped gives back
/// its words.
pub struct Store<R: Wait + Drop + Send> {
    map: OakMap<R>,
    pass: MapPass,
}

impl<R: Wait + Drop + Send> Model for Store<R> {
    ghost use Rattle.oak_map.specs.Maps.{table_of};
    ghost use Rattle.oak_caller.specs.Callers.{Called, IsIdle};

    ghost Value = { Called };

    ghost view = { λ s. record { table = table_of s.map; pass = s.pass } };

    ghost invariant = { λ s. IsIdle (table_of s.map) s.pass 0 };
}

impl<R: Wait + Drop + Send> Store<R> {
    /// An empty map of this shape, one of whose passes is the store's own.
    pub fn create(rt: &R, shape: &Shape) -> Result<Store<R>, OutOfMemory>
    where
        R: Clone + AllocGlobal,
        ensures sizes { IfOk result (λ s. sizes_of s ≡ shape.now) }
        ensures first { IfOk result (λ s. state_of s ≡ first_state (sizes_of s) 0) }
    {
        let (map, pass) = OakMap::create(rt, shape)?;
        Ok(Store { map, pass })
    }

    /// A caller, which borrows the store, by a pass that is split off the store's own. `Limit` comes only where all passes
    /// of the shape were made.
    pub fn caller<'m>(&'m mut self, rt: &R) -> Result<Caller<'m, R>, SplitFault>
    where
        R: AllocGlobal,
        ensures table { IfOk result (λ c. c.table ≡ self.old.table) }
        ensures new { IfOk result (λ c. last_of c ≡ 0) }
        ensures split { IfOk result (λ c. (w : PassState) × SplitsOff (sizes_of self.old) (last_of self.old) (state_of self.old) w (state_of c)) }
        ensures limit { (made : ℕ) → result ≡ Err (SplitFault.Limit made) → made ≡ (sizes_of self.old).passes }
    {
        match self.map.split(rt, &mut self.pass) {
            Ok(pass) => Ok(Caller {
                map: &self.map,
                pass,
                last: 0,
            }),
            Err(fault) => Err(fault),
        }
    }
}

impl<R: Wait + Drop + Send> Drop for Store<R> {
    fn drop(self) {
        let Store { map: _, pass } = self;
        pass.leave();
    }
}
