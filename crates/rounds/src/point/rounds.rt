//! One key, looked at and put again and again.
ghost use Rattle.std.specs.Prelude.{◌≡◌, ◌<◌, ◌≤◌, ◌+◌};
ghost use Rattle.oak_model.specs.Key.{IsKey};
ghost use Rattle.oak_core.specs.MayWrite.{IsNewCall};
ghost use Rattle.oak_core.specs.Passes.{IsPassOf, Stays, Turns, state, call_of};
ghost use Rattle.point_ops.specs.TestStates.{IsReady, IsReadyAgain};
ghost use Rattle.rounds.specs.declared.point.rounds.TheConstants.{MOST_PUTS};

use oak_core::{OakTable, Pass};
use oak_model::{NO_HINT, Wrote};
use point_ops::{Got, try_get, try_put};

/// So many puts behind the first have numbers enough for their calls.
pub const MOST_PUTS: u32 = 4_000_000_000;

/// The pass's next call, in which it made no write so far.
pub fn next_call(pass: &mut Pass, call: u32)
    requires above { call_of pass.old < call }
    requires ready { IsReady (call_of pass.old) (state pass.old) }
    ensures turned { Turns pass.old pass.new call }
    ensures new { IsNewCall (call_of pass.new) (state pass.new) }
    ensures ready { IsReadyAgain call (state pass.old) (state pass.new) }
{
    pass.turn(call);
}

/// The number that a look at the key tells, or 0 where it is refused.
pub fn get(table: &OakTable, pass: &mut Pass, key: &[u8]) -> u64
    requires own { IsPassOf table.now pass.old }
    requires key { IsKey key.now }
    requires ready { IsReady (call_of pass.old) (state pass.old) }
    ensures own { Stays pass.old pass.new }
    ensures ready { IsReadyAgain (call_of pass.old) (state pass.old) (state pass.new) }
{
    match try_get(table, pass, NO_HINT, key) {
        Ok(Got::Absent { at }) => at,
        Ok(Got::View(view)) => view.at(),
        Err(_) => 0,
    }
}

/// The number of the write that puts eight such bytes by this call, or 0 where it is refused.
pub fn put(table: &OakTable, pass: &mut Pass, call: u32, byte: u8) -> u64
    requires own { IsPassOf table.now pass.old }
    requires above { call_of pass.old < call }
    requires ready { IsReady (call_of pass.old) (state pass.old) }
    ensures own { IsPassOf table.now pass.new }
    ensures call { call_of pass.new ≡ call }
    ensures ready { IsReadyAgain call (state pass.old) (state pass.new) }
{
    next_call(pass, call);
    match try_put(table, pass, NO_HINT, b"key", &[byte; 8]) {
        Ok(Wrote::New { at }) => at,
        Ok(Wrote::Over { at }) => at,
        _ => 0,
    }
}

/// Looks at the key so many times; the numbers that it tells, added up.
pub fn get_again(table: &OakTable, pass: &mut Pass, count: u32) -> u64
    requires own { IsPassOf table.now pass.old }
    requires ready { IsReady (call_of pass.old) (state pass.old) }
    ensures own { Stays pass.old pass.new }
    ensures ready { IsReadyAgain (call_of pass.old) (state pass.old) (state pass.new) }
{
    let mut sum = 0u64;
    for _ in 0..count {
        sum = sum.wrapping_add(get(table, pass, b"key"));
    }
    sum
}

/// Puts the key so many times, each by a call of its own; the numbers of the writes, added up.
pub fn put_again(table: &OakTable, pass: &mut Pass, count: u32) -> u64
    requires own { IsPassOf table.now pass.old }
    requires few { count ≤ MOST_PUTS }
    requires first { call_of pass.old ≡ 1 }
    requires ready { IsReady 1 (state pass.old) }
    ensures own { IsPassOf table.now pass.new }
    ensures ready { IsReadyAgain (count + 1) (state pass.old) (state pass.new) }
{
    let mut sum = 0u64;
    for number in 0..count {
        sum = sum.wrapping_add(put(table, pass, number + 2, (number % 256) as u8));
    }
    sum
}
