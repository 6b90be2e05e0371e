//! The scans of a script, each gathered from a cursor of the map.
ghost use Rattle.std.specs.Prelude.{◌≡◌, [], IfOk, IfSome, IsSome, false, true};
ghost use Rattle.oak_model.specs.Key.{IsKey, is_key};
ghost use Rattle.oak_core.specs.CallSteps.{Learns};
ghost use Rattle.oak_core.specs.PassState.{HoldsNothing};
ghost use Rattle.oak_core.specs.Passes.{IsPassOf, state as table_state};
ghost use Rattle.oak_core.specs.Scratch.{StaysButSlots};
ghost use Rattle.chunk_ops.specs.AskedRanges.{bytes_in_option};
ghost use Rattle.scan_cursor.specs.Cursors.{IsCursor, key_of, value_of};
ghost use Rattle.scan_cursor.specs.Holding.{IsBound};
ghost use Rattle.scan_cursor.specs.Scanned.{HasScanned};
ghost use Rattle.scan_cursor.specs.Views.{Later};
ghost use Rattle.scan_cursor.specs.Walks.{view_at};
ghost use Rattle.oak_map.specs.Maps.{IsReady, call_of, pass_of, sizes, state, table_of};
ghost use Rattle.oak_run.specs.Gathering.{GivesOn, GoesOn, KeepsPair, present};

use oak_core::Pass;
use oak_map::{Cursor, MapPass, OakMap, Way, scan_of};
use oak_model::{Key, OutOfMemory, Pair, Value};
use std::alloc::Global;
use std::sync::Wait;

/// The pairs of a range of keys, in the order of the scan, which ends early where no memory is found.
pub fn scanned<R: Wait + Drop + Send>(
    rt: &R,
    alloc: Global,
    map: &OakMap<R>,
    pass: &mut MapPass,
    low: &Option<Key>,
    high: &Option<Key>,
    way: Way,
) -> Result<Vec<Pair>, OutOfMemory>
    requires ready { IsReady map.now pass.old }
    ensures ready { IsReady map.now pass.new }
    ensures call { call_of pass.new ≡ call_of pass.old }
    ensures numbers { (state pass.new).numbers ≡ (state pass.old).numbers }
    ensures learns { Learns (call_of pass.old) (state pass.old) (state pass.new) }
    ensures low { IsBound low.now }
    ensures high { IsBound high.now }
    ensures scanned { IfOk result (λ v. HasScanned way low.now high.now (view_at (sizes map.now) (pass_of pass.old))
        (view_at (sizes map.now) (pass_of pass.new)) v.items) }
{
    scan_pairs(rt, alloc, map, pass.pass_mut(), low, high, way)
}

/// The same by the pass on the map's table.
fn scan_pairs<R: Wait + Drop + Send>(
    rt: &R,
    alloc: Global,
    map: &OakMap<R>,
    pass: &mut Pass,
    low: &Option<Key>,
    high: &Option<Key>,
    way: Way,
) -> Result<Vec<Pair>, OutOfMemory>
    requires own { IsPassOf (table_of map.now) pass.old }
    requires idle { HoldsNothing (table_state pass.old) }
    ensures own { StaysButSlots pass.old pass.new }
    ensures idle { HoldsNothing (table_state pass.new) }
    ensures later { Later (view_at (sizes map.now) pass.old) (view_at (sizes map.now) pass.new) }
    ensures low { IsBound low.now }
    ensures high { IsBound high.now }
    ensures scanned { IfOk result (λ v. HasScanned way low.now high.now (view_at (sizes map.now) pass.old)
        (view_at (sizes map.now) pass.new) v.items) }
{
    let mut cursor = scan_of(map, pass, bytes_of(low), bytes_of(high), way);
    let pairs = gather(rt, alloc, &mut cursor);
    cursor.finish();
    pairs
}

/// The bytes of a bound.
fn bytes_of(bound: &Option<Key>) -> Option<&[u8]>
    ensures bytes { bytes_in_option result ≡ bound.now }
    ensures key { IfSome result (λ k. IsKey k.now) }
    ensures bound { IsBound bound.now }
{
    match bound {
        None => None,
        Some(key) => Some(key_bytes(key.bytes())),
    }
}

/// The bytes of a key, each of which is one.
fn key_bytes(key: &[u8]) -> &[u8]
    requires { IsKey key.now }
    ensures same { result.now ≡ key.now }
    ensures key { is_key result.now ≡ true }
{
    key
}

/// What is left of a scan.
fn gather<R: Wait>(rt: &R, alloc: Global, cursor: &mut Cursor<'_>) -> Result<Vec<Pair>, OutOfMemory>
    requires { IsCursor cursor.old }
    ensures same_reference { cursor.new.pass.ghost_name ≡ cursor.old.pass.ghost_name }
    ensures on { GoesOn cursor.old cursor.new }
    ensures ended { IfOk result (λ _. cursor.new.walk.mark.ended ≡ true) }
    ensures gives { IfOk result (λ v. GivesOn cursor.old cursor.new [] v.items) }
{
    let mut pairs = Vec::new(alloc);
    for _ in rt.forever() {
        if !gather_next(rt, alloc, cursor, &mut pairs)? {
            return Ok(pairs);
        }
    }
    unreachable!()
}

/// Goes to the next pair and adds it: false where the scan has ended.
fn gather_next<R: Wait>(
    rt: &R,
    alloc: Global,
    cursor: &mut Cursor<'_>,
    pairs: &mut Vec<Pair>,
) -> Result<bool, OutOfMemory>
    requires { IsCursor cursor.old }
    ensures same_reference { cursor.new.pass.ghost_name ≡ cursor.old.pass.ghost_name }
    ensures on { GoesOn cursor.old cursor.new }
    ensures ended { IfOk result (λ more. more ≡ false → cursor.new.walk.mark.ended ≡ true) }
    ensures gives { IfOk result (λ _. GivesOn cursor.old cursor.new pairs.old.items pairs.new.items) }
{
    if !cursor.advance(rt) {
        return Ok(false);
    }
    let pair = copy_pair(alloc, cursor)?;
    pairs.push(pair)?;
    Ok(true)
}

/// The pair at which the cursor is.
fn copy_pair(alloc: Global, cursor: &mut Cursor<'_>) -> Result<Pair, OutOfMemory>
    requires cursor { IsCursor cursor.old }
    requires given { IsSome cursor.old.value }
    ensures same_reference { cursor.new.pass.ghost_name ≡ cursor.old.pass.ghost_name }
    ensures keeps { KeepsPair cursor.old cursor.new }
    ensures pair { IfOk result (λ p. p ≡ present cursor.old) }
{
    let at = cursor.at();
    let key = copy_key(alloc, cursor)?;
    let value = copy_value(alloc, cursor)?;
    Ok(Pair { key, value, at })
}

fn copy_key(alloc: Global, cursor: &Cursor<'_>) -> Result<Key, OutOfMemory>
    requires cursor { IsCursor cursor.now }
    requires given { IsSome cursor.now.value }
    ensures { IfOk result (λ k. k ≡ key_of cursor.now) }
{
    let len = cursor.key_len();
    let mut bytes = Vec::with_capacity(alloc, len)?;
    for i in 0..len {
        bytes.push(cursor.key_byte(i))?;
    }
    Key::make(alloc, bytes.as_slice())
}

fn copy_value(alloc: Global, cursor: &mut Cursor<'_>) -> Result<Value, OutOfMemory>
    requires cursor { IsCursor cursor.old }
    requires given { IsSome cursor.old.value }
    ensures same_reference { cursor.new.pass.ghost_name ≡ cursor.old.pass.ghost_name }
    ensures keeps { KeepsPair cursor.old cursor.new }
    ensures value { IfOk result (λ v. v ≡ value_of cursor.old) }
{
    let mut bytes = vec![in alloc; 0u8; cursor.len()]?;
    cursor.copy_into(bytes.as_mut_slice());
    Value::make(alloc, bytes.as_slice())
}
