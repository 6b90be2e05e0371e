//! A map that is filled in a scrambled order, and scanned whole.
ghost use Rattle.std.specs.Prelude.{◌≡◌, ◌+◌, ◌<◌, ◌≤◌, IfSome, IsSome};
ghost use Rattle.oak_model.specs.Key.{IsKey};
ghost use Rattle.oak_core.specs.MayWrite.{IsNewCall};
ghost use Rattle.oak_core.specs.PassState.{HoldsNothing};
ghost use Rattle.oak_core.specs.Passes.{IsPassOf, state as table_state};
ghost use Rattle.oak_core.specs.Scratch.{StaysButSlots};
ghost use Rattle.point_ops.specs.TestStates.{IsReady as IsReadyFor, IsReadyAgain};
ghost use Rattle.scan_cursor.specs.Cursors.{IsCursor, ReadsPair, under};
ghost use Rattle.oak_map.specs.Maps.{IsReady, call_of, state, table_of};
ghost use Rattle.rounds.specs.declared.keys.TheConstants.{MOST_KEYS};

use crate::keys::key_of;
use oak_core::Pass;
use oak_map::{Cursor, MapPass, OakMap, Way, Wrote, scan_of};
use std::sync::Wait;

/// The pass's next call, in which it made no write so far.
fn next_call<R: Wait + Drop + Send>(map: &OakMap<R>, pass: &mut MapPass, call: u32)
    requires own { IsReady map.now pass.old }
    requires above { call_of pass.old < call }
    requires ready { IsReadyFor (call_of pass.old) (state pass.old) }
    ensures own { IsReady map.now pass.new }
    ensures call { call_of pass.new ≡ call }
    ensures new { IsNewCall call (state pass.new) }
    ensures ready { IsReadyAgain call (state pass.old) (state pass.new) }
{
    pass.turn(call);
}

/// Puts the number as the value of its key, in a call of its own.
fn put<R: Wait + Drop + Send>(rt: &R, map: &OakMap<R>, pass: &mut MapPass, number: u32) -> Wrote
    requires own { IsReady map.now pass.old }
    requires few { number < MOST_KEYS }
    requires above { call_of pass.old ≤ number }
    requires ready { IsReadyFor (call_of pass.old) (state pass.old) }
    ensures own { IsReady map.now pass.new }
    ensures call { call_of pass.new ≡ number + 1 }
    ensures ready { IsReadyAgain (number + 1) (state pass.old) (state pass.new) }
{
    next_call(map, pass, number + 1);
    let value = u64::from(number).to_be_bytes();
    map.put(rt, pass, &key_of(number), &value)
}

/// 1 where the key was new.
fn new_keys(said: Wrote) -> u32
    ensures { result ≤ 1 }
{
    match said {
        Wrote::New { at: _ } => 1,
        _ => 0,
    }
}

/// Puts so many numbers: how many of their keys are new.
pub fn fill<R: Wait + Drop + Send>(rt: &R, map: &OakMap<R>, pass: &mut MapPass, keys: u32) -> u32
    requires own { IsReady map.now pass.old }
    requires few { keys ≤ MOST_KEYS }
    requires first { call_of pass.old ≡ 0 }
    requires ready { IsReadyFor 0 (state pass.old) }
    ensures own { IsReady map.now pass.new }
    ensures numbers { (state pass.new).numbers ≡ (state pass.old).numbers }
{
    let mut new = 0;
    for number in 0..keys {
        new += new_keys(put(rt, map, pass, number));
    }
    new
}

/// The number that is the present pair's value, or 0 where that has not eight bytes.
fn value_of(cursor: &mut Cursor<'_>) -> u64
    requires cursor { IsCursor cursor.old }
    requires given { IsSome cursor.old.value }
    ensures same_reference { cursor.new.pass.ghost_name ≡ cursor.old.pass.ghost_name }
    ensures reads { ReadsPair cursor.old cursor.new }
{
    if cursor.len() == 8 {
        cursor.eight(0)
    } else {
        0
    }
}

/// Goes to the next pair, and tells the number that is its value.
fn next_value<R: Wait>(rt: &R, cursor: &mut Cursor<'_>) -> Option<u64>
    requires { IsCursor cursor.old }
    ensures same_reference { cursor.new.pass.ghost_name ≡ cursor.old.pass.ghost_name }
    ensures own { StaysButSlots cursor.old.pass.now cursor.new.pass.now }
    ensures cursor { IsCursor cursor.new }
    ensures numbers { (under cursor.new).numbers ≡ (under cursor.old).numbers }
{
    if cursor.advance(rt) {
        Some(value_of(cursor))
    } else {
        None
    }
}

/// Goes over all pairs: how many there are, and their values, added up.
fn go_over<R: Wait>(rt: &R, cursor: &mut Cursor<'_>) -> (u64, u64)
    requires { IsCursor cursor.old }
    ensures same_reference { cursor.new.pass.ghost_name ≡ cursor.old.pass.ghost_name }
    ensures own { StaysButSlots cursor.old.pass.now cursor.new.pass.now }
    ensures cursor { IsCursor cursor.new }
    ensures numbers { (under cursor.new).numbers ≡ (under cursor.old).numbers }
{
    let mut pairs = 0u64;
    let mut sum = 0u64;
    for _ in rt.forever() {
        let Some(value) = next_value(rt, cursor) else {
            return (pairs, sum);
        };
        pairs = pairs.wrapping_add(1);
        sum = sum.wrapping_add(value);
    }
    unreachable!()
}

/// Begins a scan of the map from the least key on, or from this one.
fn begin<'p, R: Wait + Drop + Send>(
    map: &'p OakMap<R>,
    pass: &'p mut Pass,
    low: Option<&[u8]>,
    way: Way,
) -> Cursor<'p>
    requires own { IsPassOf (table_of map.now) pass.old }
    requires idle { HoldsNothing (table_state pass.old) }
    requires low { IfSome low (λ k. IsKey k.now) }
    ensures same_reference { result.pass.ghost_name ≡ pass.entry.ghost_name }
    ensures same { result.pass.now ≡ pass.old }
    ensures cursor { IsCursor result }
{
    scan_of(map, pass, low, None, way)
}

/// Scans the whole map by the pass on its table: how many pairs it gave, and their values, added up.
pub fn scan<R: Wait + Drop + Send>(rt: &R, map: &OakMap<R>, pass: &mut Pass, way: Way) -> (u64, u64)
    requires own { IsPassOf (table_of map.now) pass.old }
    requires idle { HoldsNothing (table_state pass.old) }
    ensures own { StaysButSlots pass.old pass.new }
    ensures idle { HoldsNothing (table_state pass.new) }
    ensures numbers { (table_state pass.new).numbers ≡ (table_state pass.old).numbers }
{
    let mut cursor = begin(map, pass, None, way);
    let told = go_over(rt, &mut cursor);
    cursor.finish();
    told
}

/// The number that is the value of the first pair of a scan up from a key, where there is one.
pub fn first<R: Wait + Drop + Send>(
    rt: &R,
    map: &OakMap<R>,
    pass: &mut Pass,
    key: &[u8],
) -> Option<u64>
    requires own { IsPassOf (table_of map.now) pass.old }
    requires idle { HoldsNothing (table_state pass.old) }
    requires key { IsKey key.now }
    ensures own { StaysButSlots pass.old pass.new }
    ensures idle { HoldsNothing (table_state pass.new) }
    ensures numbers { (table_state pass.new).numbers ≡ (table_state pass.old).numbers }
{
    let mut cursor = begin(map, pass, Some(key), Way::Up);
    let value = next_value(rt, &mut cursor);
    cursor.finish();
    value
}
