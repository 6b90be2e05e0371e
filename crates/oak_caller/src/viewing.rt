//! Views of a key's life, and what they show.
ghost use Rattle.std.specs.Prelude.{◌≡◌, ℕ, List, IfSome, MatchOption};
ghost use Rattle.std.specs.Fn.{FnOnceReturnsAt};
ghost use Rattle.oak_model.specs.Key.{IsKey};
ghost use Rattle.oak_core.specs.PassState.{HoldsNothing};
ghost use Rattle.oak_core.specs.Passes.{IsPassOf, Stays, call_of as table_call, state as table_state};
ghost use Rattle.point_ops.specs.TestStates.{HasView};
ghost use Rattle.oak_map.specs.Maps.{sizes, table_of};
ghost use Rattle.oak_caller.specs.Callers.{CallsOn, CanLook, KeepsViews, PassKeepsViews, last_of, sizes_of, state_of};
ghost use Rattle.oak_caller.specs.Looks.{CopyLooks, IsViewOf, ShowsLife, ShowsOver, ViewAnswer};

use crate::caller::Caller;
use crate::reading::{Copied, copy_reading, told_copy};
use oak_core::Pass;
use oak_map::{Looked, OakMap, ValueView, look_of};
use oak_model::GREATEST_VALUE;
use point_ops::Got;
use std::sync::Wait;

impl<R: Wait + Drop + Send> Caller<'_, R> {
    /// A view of the value that a key has: it stands for one life of the key, shows what is put over it, and says that
    /// it is gone with that life.
    pub fn view(&mut self, rt: &R, key: &[u8]) -> Option<ValueView>
        requires key { IsKey key.now }
        ensures on { CallsOn Stays self.old self.new }
        ensures view { ViewAnswer result (sizes_of self.old) (last_of self.old) key.now (state_of self.old) (state_of self.new) }
        ensures views { KeepsViews self.old self.new }
        ensures known { IfSome result (λ x. CanLook x self.new) }
    {
        let got = self.map.view(rt, &mut self.pass, key);
        view_in(got)
    }

    /// Gives the closure the bytes of the value that the life of a view has, once; none where the life is over, and the
    /// closure is not called then.
    pub fn look<T, F: FnOnce(&[u8]) -> T + Drop>(
        &mut self,
        rt: &R,
        view: &ValueView,
        f: F,
    ) -> Option<T>
        requires known { CanLook view.now self.old }
        requires calls { F.IsAlwaysCallable f }
        ensures on { CallsOn Stays self.old self.new }
        ensures views { KeepsViews self.old self.new }
        ensures looked { MatchOption result (ShowsOver (sizes_of self.old) (last_of self.old) view.now
            (state_of self.old) (state_of self.new)) (λ y. (bytes : List ℕ) × (at : ℕ) × ShowsLife (sizes_of self.old)
            (last_of self.old) view.now bytes at (state_of self.old) (state_of self.new)
            × FnOnceReturnsAt F.FnOnce f bytes y) }
    {
        let mut bytes = [0; GREATEST_VALUE];
        match look_into(rt, self.map, self.pass.pass_mut(), view, &mut bytes) {
            Copied::Absent { at: _ } => None,
            Copied::Whole { len, at: _ } => Some(f(&bytes[..len])),
            Copied::TooLong { len: _, at: _ } => unreachable!(),
        }
    }
}

/// The view, if there is one.
fn view_in(got: Got) -> Option<ValueView>
    ensures { IsViewOf got result }
{
    match got {
        Got::Absent { at: _ } => None,
        Got::View(view) => Some(view),
    }
}

/// Copies what the life of a view has to the begin of `out`.
fn look_into<R: Wait + Drop + Send>(
    rt: &R,
    map: &OakMap<R>,
    pass: &mut Pass,
    view: &ValueView,
    out: &mut [u8],
) -> Copied
    requires own { IsPassOf (table_of map.now) pass.old }
    requires idle { HoldsNothing (table_state pass.old) }
    requires known { HasView (sizes map.now) view.now (table_state pass.old) }
    ensures own { Stays pass.old pass.new }
    ensures idle { HoldsNothing (table_state pass.new) }
    ensures views { PassKeepsViews (sizes map.now) pass.old pass.new }
    ensures mine { (table_state pass.new).knowledge.mine ≡ (table_state pass.old).knowledge.mine }
    ensures looked { CopyLooks result (sizes map.now) (table_call pass.old) view.now out.old out.new (table_state pass.old) (table_state pass.new) }
{
    match look_of(pass, rt, map, view) {
        Looked::Gone => Copied::Absent { at: 0 },
        Looked::Present(mut reading) => {
            let at = reading.at();
            let len = copy_reading(&mut reading, out);
            reading.done();
            told_copy(len, out.len(), at)
        }
    }
}
