//! What all of these tests ask of a pass and of a view.
ghost use Rattle.std.specs.Prelude.{◌<◌};
ghost use Rattle.oak_core.specs.MayWrite.{IsNewCall};
ghost use Rattle.oak_core.specs.Passes.{IsPassOf, Stays, Turns, key as sizes, state, call_of};
ghost use Rattle.point_ops.specs.TestStates.{HasView, IsReady, IsReadyAgain};

use crate::found::is_so;
use oak_core::{OakTable, Pass};
use std::process::Abort;
use value_ops::ValueView;

/// The pass's next call.
pub(crate) fn turn(pass: &mut Pass, call: u32)
    requires above { call_of pass.old < call }
    requires ready { IsReady (call_of pass.old) (state pass.old) }
    ensures turned { Turns pass.old pass.new call }
    ensures new { IsNewCall (call_of pass.new) (state pass.new) }
    ensures ready { IsReadyAgain call (state pass.old) (state pass.new) }
{
    pass.turn(call);
}

/// The view shows these bytes, with this number.
pub(crate) fn shows(
    rt: &impl Abort,
    table: &OakTable,
    pass: &mut Pass,
    view: &ValueView,
    bytes: &[u8],
) -> u64
    requires own { IsPassOf table.now pass.old }
    requires has { HasView (sizes table.now) view.now (state pass.old) }
    requires ready { IsReady (call_of pass.old) (state pass.old) }
    ensures own { Stays pass.old pass.new }
    ensures ready { IsReadyAgain (call_of pass.old) (state pass.old) (state pass.new) }
{
    let Ok(pin) = view.pin(table, pass) else {
        panic!(rt; "no pin");
    };
    let mut reading = pin.reading(table, pass);
    let same = reading.same(bytes);
    let at = reading.at();
    reading.done();
    is_so(rt, "the bytes of a view", same);
    at
}
