//! A pass on a map, with the map.
ghost use Rattle.std.specs.Prelude.{◌≡◌};
ghost use Rattle.oak_core.specs.PassState.{HoldsNothing};
ghost use Rattle.oak_core.specs.Passes.{IsPassOf};
ghost use Rattle.point_ops.specs.TestStates.{WroteBy};
ghost use Rattle.oak_map.specs.Maps.{IsReady, call_of, pass_of, state, table_of};
ghost use Rattle.oak_caller.specs.Callers.{last_of};

use oak_map::{MapPass, OakMap};
use std::marker::Model;
use std::sync::Wait;

/// A caller of a map: a pass on it, with the map. It holds nothing between two of its calls, and gives each call that
/// may write a number of its own, so its calls ask for nothing but a key and a value. One that is dropped gives up its
/// pass.
pub struct Caller<'m, R: Wait + Drop + Send> {
    pub(crate) map: &'m OakMap<R>,
    pub(crate) pass: MapPass,
    pub(crate) last: u32,
}

impl<'m, R: Wait + Drop + Send> Model for Caller<'m, R> {
    ghost use Rattle.oak_map.specs.Maps.{table_of};
    ghost use Rattle.oak_caller.specs.Callers.{Called, IsIdle};

    ghost Value = { Called };

    ghost view = { λ c. record { table = table_of c.map.now; pass = c.pass } };

    ghost invariant = { λ c. IsIdle (table_of c.map.now) c.pass c.last };
}

impl<'m, R: Wait + Drop + Send> Drop for Caller<'m, R> {
    fn drop(self) {
        let Caller {
            map: _,
            pass,
            last: _,
        } = self;
        pass.leave();
    }
}

impl<'m, R: Wait + Drop + Send> Caller<'m, R> {
    /// A caller of the map by a pass of it that made no call so far.
    pub fn open(map: &'m OakMap<R>, pass: MapPass) -> Caller<'m, R>
        requires own { IsReady map.now pass }
        requires first { call_of pass ≡ 0 }
        requires wrote { WroteBy 0 (state pass) }
        ensures table { result.table ≡ table_of map.now }
        ensures pass { result.pass ≡ pass }
    {
        Caller { map, pass, last: 0 }
    }

    /// A caller of the map by a pass of it whose last call had this number.
    pub fn reopen(map: &'m OakMap<R>, pass: MapPass, last: u32) -> Caller<'m, R>
        requires own { IsReady map.now pass }
        requires call { call_of pass ≡ last }
        requires wrote { WroteBy last (state pass) }
        ensures table { result.table ≡ table_of map.now }
        ensures pass { result.pass ≡ pass }
    {
        Caller { map, pass, last }
    }

    /// The number of its last call that might write: how many of them it made.
    pub fn last_call(&self) -> u32
        ensures { result ≡ last_of self.now }
    {
        self.last
    }

    /// The pass.
    pub fn close(self) -> MapPass
        ensures pass { result ≡ self.entry.pass }
        ensures own { IsPassOf self.entry.table (pass_of result) }
        ensures idle { HoldsNothing (state result) }
        ensures wrote { WroteBy (call_of result) (state result) }
    {
        let Caller {
            map: _,
            pass,
            last: _,
        } = self;
        pass
    }
}
