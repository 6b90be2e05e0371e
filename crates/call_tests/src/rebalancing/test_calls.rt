//! What the tests ask of a table, each time by one pass.
ghost use Rattle.std.specs.Prelude.{◌≡◌, Err};
ghost use Rattle.oak_model.specs.Key.{IsKey};
ghost use Rattle.oak_model.specs.Value.{IsValue};
ghost use Rattle.oak_core.specs.MayWrite.{IsNewCall};
ghost use Rattle.oak_core.specs.Passes.{IsPassOf, Stays, state, call_of};
ghost use Rattle.oak_core.specs.Scratch.{StaysButSlots};
ghost use Rattle.point_ops.specs.TestStates.{IsReady, IsReadyAgain};
ghost use Rattle.point_ops.specs.declared.halts.Halt.{Halt};

use crate::calls::shows;
use oak_core::{OakTable, Pass};
use oak_model::{NO_HINT, Wrote};
use point_ops::{Got, Halt, try_get, try_put, try_remove};
use rebalance::{NoRoom, Split, compact, merge, settle, split};
use std::process::Abort;
use std::sync::Wait;

/// What is asked.
#[derive(Clone, Copy)]
pub(crate) enum Ask {
    Get,
    Put,
    Remove,
    Compact,
    Split,
    Merge,
    Settle,
}

/// What is answered.
#[derive(Clone, Copy, Debug, PartialEq, Eq)]
pub(crate) enum Said {
    New(u64),
    Over(u64),
    Removed(u64),
    Absent(u64),
    Holds(u64),
    Halted(Halt),
    Dropped(u32),
    Loosened,
    Halved(u32),
    NoRoom,
    Joined,
    Apart,
    Settled,
    /// What no put and no removal answers.
    Strange,
}

/// The call has the answer that is due.
pub(crate) fn is_due(rt: &impl Abort, call: u32, said: Said, due: Said) {
    assert_eq!(rt; said, due, "call {call}");
}

/// The answer to a put or a removal.
fn answered(reply: Result<Wrote, Halt>) -> Said
    ensures { (halt : Halt) → result ≡ Said.Halted halt → reply ≡ Err halt }
{
    match reply {
        Ok(Wrote::New { at }) => Said::New(at),
        Ok(Wrote::Over { at }) => Said::Over(at),
        Ok(Wrote::Removed { at }) => Said::Removed(at),
        Ok(Wrote::Absent { at }) => Said::Absent(at),
        Ok(_) => Said::Strange,
        Err(halt) => Said::Halted(halt),
    }
}

/// Gets the key, whose value must be these bytes where it has one.
pub(crate) fn get(
    rt: &impl Abort,
    table: &OakTable,
    pass: &mut Pass,
    key: &[u8],
    bytes: &[u8],
) -> Said
    requires own { IsPassOf table.now pass.old }
    requires key { IsKey key.now }
    requires ready { IsReady (call_of pass.old) (state pass.old) }
    ensures own { Stays pass.old pass.new }
    ensures ready { IsReadyAgain (call_of pass.old) (state pass.old) (state pass.new) }
{
    match try_get(table, pass, NO_HINT, key) {
        Ok(Got::Absent { at }) => Said::Absent(at),
        Ok(Got::View(view)) => {
            shows(rt, table, pass, &view, bytes);
            Said::Holds(view.at())
        }
        Err(halt) => Said::Halted(halt),
    }
}

/// Puts the value of the key. Where that is refused, another write may be tried in the same call.
pub(crate) fn put(table: &OakTable, pass: &mut Pass, key: &[u8], bytes: &[u8]) -> Said
    requires own { IsPassOf table.now pass.old }
    requires key { IsKey key.now }
    requires value { IsValue bytes.now }
    requires ready { IsReady (call_of pass.old) (state pass.old) }
    requires turn { IsNewCall (call_of pass.old) (state pass.old) }
    ensures own { Stays pass.old pass.new }
    ensures ready { IsReadyAgain (call_of pass.old) (state pass.old) (state pass.new) }
    ensures refused { (halt : Halt) → result ≡ Said.Halted halt → IsNewCall (call_of pass.old) (state pass.new) }
{
    answered(try_put(table, pass, NO_HINT, key, bytes))
}

/// Removes the key. Where that is refused, another write may be tried in the same call.
pub(crate) fn remove(table: &OakTable, pass: &mut Pass, key: &[u8]) -> Said
    requires own { IsPassOf table.now pass.old }
    requires key { IsKey key.now }
    requires ready { IsReady (call_of pass.old) (state pass.old) }
    requires turn { IsNewCall (call_of pass.old) (state pass.old) }
    ensures own { Stays pass.old pass.new }
    ensures ready { IsReadyAgain (call_of pass.old) (state pass.old) (state pass.new) }
    ensures refused { (halt : Halt) → result ≡ Said.Halted halt → IsNewCall (call_of pass.old) (state pass.new) }
{
    answered(try_remove(table, pass, NO_HINT, key))
}

/// Makes the chunk of the key, or all of them, anew.
pub(crate) fn rebalance<R: Wait>(
    rt: &R,
    table: &OakTable,
    pass: &mut Pass,
    ask: Ask,
    key: &[u8],
) -> Said
    requires own { IsPassOf table.now pass.old }
    requires key { IsKey key.now }
    requires ready { IsReady (call_of pass.old) (state pass.old) }
    ensures own { StaysButSlots pass.old pass.new }
    ensures ready { IsReadyAgain (call_of pass.old) (state pass.old) (state pass.new) }
    ensures knows { (state pass.new).knowledge ≡ (state pass.old).knowledge }
{
    match ask {
        Ask::Compact => Said::Dropped(compact(rt, table, pass, key)),
        Ask::Split => match split(rt, table, pass, key) {
            Ok(Split::Loosened) => Said::Loosened,
            Ok(Split::Halved { room }) => Said::Halved(room),
            Err(NoRoom) => Said::NoRoom,
        },
        Ask::Merge => {
            if merge(rt, table, pass, key) {
                Said::Joined
            } else {
                Said::Apart
            }
        }
        _ => {
            settle(rt, table, pass);
            Said::Settled
        }
    }
}
