//! Looks for keys, and answers views of their lives.
ghost use Rattle.std.specs.Prelude.{◌<◌, IfErr, IfOk};
ghost use Rattle.oak_model.specs.declared.cells.CellCall.TheVariants.{Get};
ghost use Rattle.oak_model.specs.Key.{IsKey};
ghost use Rattle.oak_core.specs.AloneWords.{Runs};
ghost use Rattle.oak_core.specs.Passes.{Stays};
ghost use Rattle.oak_core.specs.PassState.{IsAlone};
ghost use Rattle.oak_core.specs.QuietSteps.{Quiet};
ghost use Rattle.point_ops.specs.Gets.{GotFits};
ghost use Rattle.point_ops.specs.LoneReplies.{GotAlone};
ghost use Rattle.point_ops.specs.Replies.{HoldsAsBefore};
ghost use Rattle.oak_map.specs.GivingUp.{TriesInVain, IsHalted};
ghost use Rattle.oak_map.specs.Maps.{IsReady, StayAll, call_of, pass_of, sizes, state};

use crate::answers::Busy;
use crate::bare;
use crate::map::{MapPass, OakMap};
use crate::waiting::LOOKS;
use point_ops::Got;
use std::sync::Wait;
use std::thread;

impl<R: Wait + Drop + Send> OakMap<R> {
    /// Looks for a key. A present one is answered by a view of its life. The answer is the cell's at the
    /// place of the number `at` in the key's history. It is tried again while other passes are at work on
    /// the key or move its room. It only loads words, and pins and undoes pins, so it takes no lock. Where the
    /// pass is alone, the answer is the cell's on the last state of the key, and the words of the table stay.
    pub fn view(&self, rt: &R, pass: &mut MapPass, key: &[u8]) -> Got
        requires ready { IsReady self.now pass.old }
        requires key { IsKey key.now }
        ensures own { Stays (pass_of pass.old) (pass_of pass.new) }
        ensures ready { IsReady self.now pass.new }
        ensures holds { HoldsAsBefore (state pass.old) (state pass.new) }
        ensures quiet { Quiet (state pass.old) (state pass.new) }
        ensures got { GotFits result (sizes self.now) (call_of pass.old) key.now (state pass.old) (state pass.new) }
        ensures alone_reply { IsAlone (state pass.old) → GotAlone result (sizes self.now) key.now (state pass.old) (state pass.new) }
        ensures alone { Runs StayAll (state pass.old) (state pass.new) }
    {
        for _ in rt.forever() {
            if let Ok(got) = bare::try_view(&self.table, &mut pass.pass, key, LOOKS) {
                return got;
            }
            thread::yield_now();
        }
        unreachable!()
    }

    /// Looks for a key as [`OakMap::view`] does, or gives up: `Busy` comes only where each of so many tries found another
    /// pass at work on the key, or moving its room. To a pass that is alone it never comes.
    pub fn try_view(&self, pass: &mut MapPass, key: &[u8], looks: u32) -> Result<Got, Busy>
        requires ready { IsReady self.now pass.old }
        requires key { IsKey key.now }
        requires some { 0 < looks }
        ensures own { Stays (pass_of pass.old) (pass_of pass.new) }
        ensures ready { IsReady self.now pass.new }
        ensures holds { HoldsAsBefore (state pass.old) (state pass.new) }
        ensures quiet { Quiet (state pass.old) (state pass.new) }
        ensures got { IfOk result (λ x. GotFits x (sizes self.now) (call_of pass.old) key.now (state pass.old) (state pass.new)) }
        ensures alone_reply { IfOk result (λ x. IsAlone (state pass.old) → GotAlone x (sizes self.now) key.now (state pass.old) (state pass.new)) }
        ensures alone { Runs StayAll (state pass.old) (state pass.new) }
        ensures busy { IfErr result (λ _. TriesInVain (IsHalted (sizes self.now) (call_of pass.old) key.now Get)
            (call_of pass.old) looks (state pass.old) (state pass.new)) }
    {
        bare::try_view(&self.table, &mut pass.pass, key, looks)
    }
}
