//! What the tests write to a table, by one pass.
ghost use Rattle.std.specs.Prelude.{◌≡◌, IfErr};
ghost use Rattle.oak_model.specs.Key.{IsKey};
ghost use Rattle.oak_model.specs.Value.{IsValue};
ghost use Rattle.oak_core.specs.MayWrite.{IsNewCall};
ghost use Rattle.oak_core.specs.Passes.{IsPassOf, Stays, state, call_of};
ghost use Rattle.oak_core.specs.Scratch.{StaysButSlots};
ghost use Rattle.point_ops.specs.TestStates.{IsReady, IsReadyAgain};

use oak_core::{OakTable, Pass};
use oak_model::{NO_HINT, Wrote};
use point_ops::{Halt, try_put, try_remove};
use rebalance::{NoRoom, Split, split};
use std::process::Abort;
use std::sync::Wait;

/// The stamp of the write; 0 where nothing was written.
fn stamp_of(reply: Result<Wrote, Halt>) -> u64 {
    match reply {
        Ok(Wrote::New { at }) => at,
        Ok(Wrote::Over { at }) => at,
        Ok(Wrote::Removed { at }) => at,
        _ => 0,
    }
}

/// Tries to put the value of the key. Where that is refused, another write may be tried in the same call.
fn put_once(table: &OakTable, pass: &mut Pass, key: &[u8], bytes: &[u8]) -> Result<Wrote, Halt>
    requires own { IsPassOf table.now pass.old }
    requires key { IsKey key.now }
    requires value { IsValue bytes.now }
    requires ready { IsReady (call_of pass.old) (state pass.old) }
    requires turn { IsNewCall (call_of pass.old) (state pass.old) }
    ensures own { Stays pass.old pass.new }
    ensures ready { IsReadyAgain (call_of pass.old) (state pass.old) (state pass.new) }
    ensures refused { IfErr result (λ _. IsNewCall (call_of pass.old) (state pass.new)) }
{
    try_put(table, pass, NO_HINT, key, bytes)
}

/// The chunk was split in two.
fn is_halved(rt: &impl Abort, split: Result<Split, NoRoom>) {
    assert!(rt; matches!(split, Ok(Split::Halved { room: _ })));
}

/// Splits the full chunk of the key.
fn halve<R: Abort + Wait>(rt: &R, table: &OakTable, pass: &mut Pass, key: &[u8])
    requires own { IsPassOf table.now pass.old }
    requires key { IsKey key.now }
    requires ready { IsReady (call_of pass.old) (state pass.old) }
    ensures own { StaysButSlots pass.old pass.new }
    ensures ready { IsReadyAgain (call_of pass.old) (state pass.old) (state pass.new) }
    ensures knows { (state pass.new).knowledge ≡ (state pass.old).knowledge }
{
    let halved = split(rt, table, pass, key);
    is_halved(rt, halved);
}

/// Puts the value of the key, whose chunk is split where it is full. The answer is the stamp of that.
pub(crate) fn put<R: Abort + Wait>(
    rt: &R,
    table: &OakTable,
    pass: &mut Pass,
    key: &[u8],
    bytes: &[u8],
) -> u64
    requires own { IsPassOf table.now pass.old }
    requires key { IsKey key.now }
    requires value { IsValue bytes.now }
    requires ready { IsReady (call_of pass.old) (state pass.old) }
    requires turn { IsNewCall (call_of pass.old) (state pass.old) }
    ensures own { StaysButSlots pass.old pass.new }
    ensures ready { IsReadyAgain (call_of pass.old) (state pass.old) (state pass.new) }
{
    match put_once(table, pass, key, bytes) {
        Err(Halt::Crowded) => {
            halve(rt, table, pass, key);
            stamp_of(put_once(table, pass, key, bytes))
        }
        reply => stamp_of(reply),
    }
}

/// Removes the key. The answer is the stamp of that.
pub(crate) fn remove(table: &OakTable, pass: &mut Pass, key: &[u8]) -> u64
    requires own { IsPassOf table.now pass.old }
    requires key { IsKey key.now }
    requires ready { IsReady (call_of pass.old) (state pass.old) }
    requires turn { IsNewCall (call_of pass.old) (state pass.old) }
    ensures own { Stays pass.old pass.new }
    ensures ready { IsReadyAgain (call_of pass.old) (state pass.old) (state pass.new) }
{
    stamp_of(try_remove(table, pass, NO_HINT, key))
}
